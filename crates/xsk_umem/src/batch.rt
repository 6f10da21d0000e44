//! Descriptors, items, and batches of items held in a ring of places. Only this file knows in which place an item lies:
//! to all others a batch is the list of its items (`specs/Batch`).
ghost use Rattle.std.specs.Prelude.{◌≡◌, ◌+◌, ◌<◌, ◌≤◌, List, [], ◌∷◌, ◌++◌, length, Some, slice_get, ◌↔◌, IsTrue, IsNone, IfSome, IfNone};
ghost use Rattle.xsk_umem.specs.Limits.{most_items};

use crate::Frame;
use std::marker::Model;
use std::{array, mem};

/// The most items of one batch, and of one call.
pub const MOST_ITEMS: u32 = 32;

/// The places of a batch.
const PLACES: usize = MOST_ITEMS as usize;

/// The option XDP_PKT_CONTD of if_xdp.h: the packet continues in the next descriptor.
pub const XDP_PKT_CONTD: u32 = 1;

/// An entry of an RX or TX ring: `struct xdp_desc` of if_xdp.h.
#[derive(Clone, Copy, Debug, Default, PartialEq, Eq)]
pub struct XdpDesc {
    /// An offset in the UMEM.
    pub addr: u64,
    /// The bytes of the packet in this frame.
    pub len: u32,
    /// 0, or [`XDP_PKT_CONTD`] where the packet continues in the next descriptor.
    pub options: u32,
}

/// What a ring passes on: a descriptor, with the frame that it names. An item without a frame has an address outside
/// the UMEM.
#[derive(Debug, Default, Drop)]
pub struct Item {
    pub frame: Option<Frame>,
    pub desc: XdpDesc,
}

/// At most 32 items in order, held inline.
#[derive(Drop)]
pub struct Batch {
    /// The place of the first item.
    head: usize,
    len: usize,
    /// The items from the first on, round the end. Other places have a blank item.
    places: [Item; PLACES],
}

impl Model for Batch {
    ghost use Rattle.std.specs.Prelude.{◌<◌, ◌≤◌, List};
    ghost use Rattle.xsk_umem.specs.declared.batch.Item.{Item};
    ghost use Rattle.xsk_umem.specs.Batch.{items_from};

    ghost Value = { List Item };

    ghost view = { λ b. items_from b.places b.head b.len };

    ghost invariant = { λ b. (b.head < 32) × (b.len ≤ 32) };
}

impl Batch {
    /// An empty batch. It takes no memory.
    pub fn new() -> Batch
        ensures { result ≡ [] }
    {
        Batch {
            head: 0,
            len: 0,
            places: array::from_fn(|_| Item::default()),
        }
    }

    /// The number of items, 0 to 32.
    pub fn len(&self) -> u32
        ensures value { result ≡ length self.now }
        ensures few { length self.now ≤ most_items }
    {
        let items = self.len;
        items as u32
    }

    /// Whether there is no item.
    pub fn is_empty(&self) -> bool
        ensures { IsTrue result ↔ (self.now ≡ []) }
    {
        self.len == 0
    }

    /// Appends an item. Fewer than 32 must stand in the batch.
    pub fn push(&mut self, item: Item)
        requires { length self.old < most_items }
        ensures { self.new ≡ self.old ++ item ∷ [] }
    {
        let end = (self.head + self.len) % PLACES;
        self.places[end] = item;
        self.len += 1;
    }

    /// Takes the first item, and `None` exactly where the batch is empty.
    pub fn pop_front(&mut self) -> Option<Item>
        ensures empty { IsNone result ↔ (self.old ≡ []) }
        ensures some { IfSome result (λ item. self.old ≡ item ∷ self.new) }
        ensures none { IfNone result (self.new ≡ []) }
    {
        if self.len == 0 {
            return None;
        }
        let item = mem::replace(&mut self.places[self.head], Item::default());
        self.head = (self.head + 1) % PLACES;
        self.len -= 1;
        Some(item)
    }

    /// Moves all items of another batch to the end of this one, which must have room for them.
    pub fn append(&mut self, other: &mut Batch)
        requires { length self.old + length other.old ≤ most_items }
        ensures items { self.new ≡ self.old ++ other.old }
        ensures other { other.new ≡ [] }
    {
        for _ in 0..other.len() {
            let item = other.pop_front().unwrap();
            self.push(item);
        }
    }

    /// Item `i`, counted from 0.
    pub fn item(&self, i: u32) -> &Item
        requires { i < length self.now }
        ensures { slice_get self.now i ≡ Some result.now }
    {
        let at = (self.head + i as usize) % PLACES;
        &self.places[at]
    }

    /// The descriptor of item `i`, counted from 0.
    pub fn desc(&self, i: u32) -> XdpDesc
        requires { i < length self.now }
        ensures { IfSome (slice_get self.now i) (λ item. result ≡ item.desc) }
    {
        let place = (self.head + i as usize) % PLACES;
        self.places[place].desc
    }
}
