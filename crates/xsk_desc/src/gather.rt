//! Items put together into packets. Who puts packets together does it by this file; which packets a list of items has is
//! said in `xsk_model/specs/Packets`.
ghost use Rattle.std.specs.Prelude.{◌≡◌, ◌≤◌, List, [], ◌∷◌, ◌++◌, length, option_to_list};
ghost use Rattle.xsk_umem.specs.Geometry.{Geometry as Numbers};
ghost use Rattle.xsk_umem.specs.declared.batch.Item.{Item as AnItem};
ghost use Rattle.xsk_model.specs.Limits.{most_fragments};
ghost use Rattle.xsk_model.specs.Packets.{ended_by, group_after, packets};
ghost use Rattle.xsk_desc.specs.Unfinished.{Unfinished};
ghost use Rattle.xsk_desc.specs.Gather.{packet_by};

use crate::descriptor::validate;
use std::alloc::Global;
use std::marker::Model;
use std::mem;
use xsk_model::steering::MOST_FRAGMENTS;
use xsk_umem::{Batch, Geometry, Item, XDP_PKT_CONTD, XdpDesc};

/// What the next item of a list ends.
#[derive(Clone, Copy, Debug, PartialEq, Eq)]
pub enum Ending {
    /// The packet goes on.
    More,
    /// A packet, which is whole with this item.
    Whole,
    /// All items since the last end with this one, which is invalid or the 19th.
    Bad,
}

/// What the next item ends, where `before` items stand before it that belong to no packet yet, and `sg` says that the socket
/// has XDP_USE_SG.
pub fn judge(before: u32, desc: XdpDesc, geometry: &Geometry, sg: bool) -> Ending
    ensures { (group : List AnItem) (item : AnItem) → before ≡ length group → desc ≡ item.desc → packet_by result (group ++ item ∷ []) ≡ ended_by geometry.now sg group item }
{
    if before >= MOST_FRAGMENTS || validate(desc, geometry, sg).is_err() {
        Ending::Bad
    } else if desc.options == XDP_PKT_CONTD {
        Ending::More
    } else {
        Ending::Whole
    }
}

/// What the next item of a list ends, with its items.
#[derive(Debug, Drop)]
pub enum Gathered {
    /// The packet goes on, and the item is kept.
    More,
    /// A packet with its items in order, 1 to 18.
    Whole(Batch),
    /// All items since the last end. The last of them is invalid or the 19th.
    Bad(Batch),
}

/// Puts the items of a list together into packets, one item after the other (af_xdp.rst, "Multi-Buffer Support").
#[derive(Drop)]
pub struct Gather {
    items: Batch,
    sg: bool,
    alloc: Global,
}

impl Model for Gather {
    ghost use Rattle.std.specs.Prelude.{◌≤◌, length};
    ghost use Rattle.xsk_desc.specs.Unfinished.{Unfinished};

    ghost Value = { Unfinished };

    ghost view = { λ g. record { items = g.items; sg = g.sg } };

    ghost invariant = { λ g. length g.items ≤ 18 };
}

impl Gather {
    ghost use Rattle.xsk_desc.specs.Gather.{StandsFor, packet_of};

    /// A gather to which nothing was pushed, where `sg` says that the socket has XDP_USE_SG. It takes no memory.
    pub fn new(alloc: Global, sg: bool) -> Gather
        ensures empty { result ≡ record { items = []; sg = sg } }
        ensures stands { (g : Numbers) → StandsFor g result [] }
    {
        Gather {
            items: Batch::new(),
            sg,
            alloc,
        }
    }

    /// Takes the next item of the list. The geometry must be that of every push before. It takes no memory.
    pub fn push(&mut self, geometry: &Geometry, item: Item) -> Gathered
        ensures ended { packet_of result ≡ ended_by geometry.now self.old.sg self.old.items item }
        ensures kept { self.new ≡ record self.old { items = group_after geometry.now self.old.sg self.old.items item } }

        // The same of all items that were pushed: the results are the packets of their whole list.
        ensures packets { (pushed : List AnItem) → StandsFor geometry.now self.old pushed
            → packets geometry.now self.old.sg (pushed ++ item ∷ []) ≡ packets geometry.now self.old.sg pushed ++ option_to_list (packet_of result) }
        ensures stands { (pushed : List AnItem) → StandsFor geometry.now self.old pushed → StandsFor geometry.now self.new (pushed ++ item ∷ []) }
    {
        let ending = judge(self.items.len(), item.desc, geometry, self.sg);
        self.items.push(item);
        match ending {
            Ending::More => Gathered::More,
            Ending::Whole => Gathered::Whole(mem::replace(&mut self.items, Batch::new())),
            Ending::Bad => Gathered::Bad(mem::replace(&mut self.items, Batch::new())),
        }
    }

    /// The number of items of the packet that isn't finished yet, 0 to 18.
    pub fn rest(&self) -> u32
        ensures value { result ≡ length self.now.items }
        ensures few { length self.now.items ≤ most_fragments }
    {
        // For the proof: the items that are kept are 18 at most.
        let _items = &self.items;
        self.items.len()
    }

    /// The items of the packet that isn't finished yet.
    pub fn into_rest(self) -> Batch
        ensures { result ≡ self.items }
    {
        let Gather { items, .. } = self;
        items
    }
}
