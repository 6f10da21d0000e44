//! One ring with its entries and what each side has reserved and peeked. Items that are out, held places and reserved
//! ones always fit the size (`fits`), and the queue never grows.
ghost use Rattle.std.specs.Prelude.{◌≡◌, ◌+◌, ◌≤◌, length};
ghost use Rattle.std.specs.VecDeque.{deque_len, deque_capacity};

use std::alloc::Global;
use std::collections::VecDeque;
use xsk_log::{Extent, Piece};
use xsk_umem::{Item, OutOfMemory};

/// An item that stands in a ring, and where the log has its payload.
#[derive(Drop)]
pub(crate) struct Stored {
    pub(crate) item: Item,
    pub(crate) payload: Extent,
    /// The place of its piece in the log, where it was noted.
    pub(crate) place: Option<u32>,
}

impl Stored {
    ghost use Rattle.std.specs.Prelude.{◌≡◌};
    ghost use Rattle.xsk_plain.specs.Stores.{piece_of, unnoted};

    /// The item, of which the log has nothing.
    #[inline(always)]
    pub(crate) fn unnoted(item: Item) -> Stored
        ensures { result ≡ unnoted item }
    {
        Stored {
            item,
            payload: Extent::default(),
            place: None,
        }
    }

    /// What the log keeps of the item.
    pub(crate) fn piece(&self) -> Piece
        ensures { result ≡ piece_of self.now }
    {
        Piece {
            frame: self.item.frame.as_ref().map(|frame| frame.number()),
            desc: self.item.desc,
            payload: self.payload,
        }
    }
}

/// A ring in numbers: the items that were submitted and not peeked, and the places that are peeked and not released, reserved
/// and not filled, and neither of these.
#[derive(Clone, Copy, Debug, PartialEq, Eq)]
pub struct RingCounts {
    pub out: u32,
    pub held: u32,
    pub reserved: u32,
    pub free: u32,
}

/// One ring: the items that were submitted and not peeked, and how many places are peeked and not released, and
/// reserved and not filled.
#[derive(Drop)]
pub(crate) struct RingStore {
    pub(crate) out: VecDeque<Stored>,
    pub(crate) held: u32,
    pub(crate) room: u32,
    pub(crate) size: u32,
    ghost fits: { deque_len out + held + room ≤ size },
    ghost capacity: { size ≤ deque_capacity out },
}

impl RingStore {
    ghost use Rattle.std.specs.Prelude.{◌≡◌, ◌+◌, ◌-◌, ◌<◌, ◌≤◌, ◌↔◌, [], ◌∷◌, ◌++◌, length, slice_get, Some, IsOk, IsNone, OnOk, OnErr, IfOk, IfErr, IfSome, IfNone};
    ghost use Rattle.std.specs.Option.{option_map};
    ghost use Rattle.xsk_plain.specs.Counts.{counts_of, number_of};
    ghost use Rattle.xsk_plain.specs.declared.ring_store.Stored.{Stored as AStored};
    ghost use Rattle.xsk_plain.specs.Steps.{free_in};
    ghost use Rattle.xsk_plain.specs.Stores.{part_of, unnoted, Has};

    pub(crate) fn new(alloc: Global, size: u32) -> Result<RingStore, OutOfMemory>
        ensures { IfOk result (λ store. Has store [] 0 0 size) }
    {
        Ok(RingStore {
            out: VecDeque::with_capacity(alloc, size as usize)?,
            held: 0,
            room: 0,
            size,
        })
    }

    /// The number of items that were submitted and not peeked.
    pub(crate) fn len(&self) -> u32
        ensures { result ≡ length self.now.out.items }
    {
        // For the proof, a read of a field tells what the type keeps: no more items are out than the ring has places.
        let _size = self.size;
        self.out.len() as u32
    }

    /// The places that are neither reserved nor held and have no item.
    #[inline(always)]
    fn free(&self) -> u32
        ensures { result ≡ free_in self.now.size (part_of self.now) }
    {
        self.size - self.len() - self.held - self.room
    }

    /// Reserves so many places, or tells how many are free where they are fewer.
    pub(crate) fn reserve(&mut self, count: u32) -> Result<(), u32>
        ensures granted { IsOk result ↔ (count ≤ free_in self.old.size (part_of self.old)) }
        ensures full { IfErr result (λ free. free ≡ free_in self.old.size (part_of self.old)) }
        ensures ok { OnOk result (Has self.new self.old.out.items self.old.held (self.old.room + count) self.old.size) }
        ensures err { OnErr result (Has self.new self.old.out.items self.old.held self.old.room self.old.size) }
    {
        let free = self.free();
        if count > free {
            return Err(free);
        }
        self.room += count;
        Ok(())
    }

    /// Fills a reserved place.
    pub(crate) fn put(&mut self, stored: Stored)
        requires { 0 < self.old.room }
        ensures { Has self.new (self.old.out.items ++ stored ∷ []) self.old.held (self.old.room - 1) self.old.size }
    {
        self.room -= 1;
        self.out.push_back_reserved(stored);
    }

    /// How many places are reserved, and how many are held.
    pub(crate) fn taken(&self) -> (u32, u32)
        ensures { result ≡ (self.now.room, self.now.held) }
    {
        (self.room, self.held)
    }

    pub(crate) fn counts(&self) -> RingCounts
        ensures { result ≡ counts_of self.now.size (part_of self.now) }
    {
        RingCounts {
            out: self.len(),
            held: self.held,
            reserved: self.room,
            free: self.free(),
        }
    }

    /// The number of the frame of an item, counted from the front, if it has one.
    pub(crate) fn frame(&self, i: u32) -> Option<u32>
        requires { i < length self.now.out.items }
        ensures { (stored : AStored) → slice_get self.now.out.items i ≡ Some stored → result ≡ option_map number_of stored.item.frame }
    {
        self.out[i as usize]
            .item
            .frame
            .as_ref()
            .map(|frame| frame.number())
    }

    /// Puts an item into a free place at the opening. Where none is free the item is dropped.
    pub(crate) fn fill(&mut self, item: Item)
        requires { 0 < free_in self.old.size (part_of self.old) }
        ensures { Has self.new (self.old.out.items ++ unnoted item ∷ []) self.old.held self.old.room self.old.size }
    {
        self.out.push_back_reserved(Stored::unnoted(item));
    }

    /// Takes the first item; its place is held until it is released.
    pub(crate) fn take(&mut self) -> Option<Stored>
        ensures none { IfNone result (Has self.new [] self.old.held self.old.room self.old.size) }
        ensures empty { IfNone result (self.old.out.items ≡ []) }
        ensures first { IfSome result (λ stored. self.old.out.items ≡ stored ∷ self.new.out.items) }
        ensures some { IfSome result (λ _. Has self.new self.new.out.items (self.old.held + 1) self.old.room self.old.size) }
    {
        match self.out.pop_front() {
            Some(stored) => {
                self.held += 1;
                Some(stored)
            }
            None => None,
        }
    }

    /// Takes the first item and frees its place.
    pub(crate) fn pop(&mut self) -> Option<Stored>
        ensures empty { IsNone result ↔ (self.old.out.items ≡ []) }
        ensures first { IfSome result (λ stored. self.old.out.items ≡ stored ∷ self.new.out.items) }
    {
        self.out.pop_front()
    }

    /// Frees the places of so many held items.
    pub(crate) fn release(&mut self, count: u32)
        requires { count ≤ self.old.held }
        ensures { Has self.new self.old.out.items (self.old.held - count) self.old.room self.old.size }
    {
        self.held -= count;
    }
}
