//! Walks over the items of a batch and over the packets of a list.
use crate::{Batch, Item, PacketList};
use std::fmt;

/// Goes over the items of a batch, from the first on.
#[derive(Clone, Copy)]
pub struct Items<'a> {
    batch: &'a Batch,
    /// The number of the next item.
    next: u32,
}

/// Goes over the packets of a list, from the first on.
#[derive(Clone, Copy)]
pub struct Packets<'a> {
    list: &'a PacketList,
    /// The number of the next packet.
    next: u32,
}

impl Batch {
    ghost use Rattle.std.specs.Prelude.{◌≡◌};
    ghost use Rattle.xsk_umem.specs.Walks.{items_left};

    /// Goes over the items.
    pub fn iter(&self) -> Items<'_>
        ensures { items_left result ≡ self.now }
    {
        Items {
            batch: self,
            next: 0,
        }
    }
}

impl PacketList {
    ghost use Rattle.std.specs.Prelude.{◌≡◌};
    ghost use Rattle.xsk_umem.specs.Walks.{packets_left};

    /// Goes over the packets.
    pub fn iter(&self) -> Packets<'_>
        ensures { packets_left result ≡ self.now.packets }
    {
        Packets {
            list: self,
            next: 0,
        }
    }
}

impl<'a> Iterator for Items<'a> {
    ghost use Rattle.std.specs.Iterator.{YieldsFirstRef, item_count};
    ghost use Rattle.xsk_umem.specs.Walks.{items_left};

    type Item = &'a Item;

    ghost next_gives = { YieldsFirstRef items_left };

    ghost remaining = { item_count items_left };

    fn next(&mut self) -> Option<&'a Item> {
        if self.next >= self.batch.len() {
            return None;
        }
        let item = self.batch.item(self.next);
        self.next += 1;
        Some(item)
    }
}

impl<'a> Iterator for Packets<'a> {
    ghost use Rattle.std.specs.Iterator.{YieldsFirstRef, item_count};
    ghost use Rattle.xsk_umem.specs.Walks.{packets_left};

    type Item = &'a [u8];

    ghost next_gives = { YieldsFirstRef packets_left };

    ghost remaining = { item_count packets_left };

    fn next(&mut self) -> Option<&'a [u8]> {
        if self.next >= self.list.len() {
            return None;
        }
        let packet = self.list.get(self.next);
        self.next += 1;
        Some(packet)
    }
}

impl fmt::Debug for Batch {
    fn fmt<W: fmt::Write>(&self, f: &mut fmt::Formatter<W>) -> fmt::Result {
        f.debug_list().entries(self.iter()).finish()
    }
}

impl<'a> IntoIterator for &'a Batch {
    ghost use Rattle.std.specs.Prelude.{◌≡◌};
    ghost use Rattle.xsk_umem.specs.Walks.{items_left};

    type Item = &'a Item;

    type IntoIter = Items<'a>;

    ghost into_iter_gives = { λ batch walk. items_left walk ≡ batch.now };

    fn into_iter(self) -> Items<'a> {
        self.iter()
    }
}

impl<'a> IntoIterator for &'a PacketList {
    ghost use Rattle.std.specs.Prelude.{◌≡◌};
    ghost use Rattle.xsk_umem.specs.Walks.{packets_left};

    type Item = &'a [u8];

    type IntoIter = Packets<'a>;

    ghost into_iter_gives = { λ list walk. packets_left walk ≡ list.now.packets };

    fn into_iter(self) -> Packets<'a> {
        self.iter()
    }
}
