//! What is known of a ring of RX or COMPLETION.
ghost use Rattle.std.specs.Prelude.{◌≡◌, ◌+◌, ◌-◌, ◌≤◌, ◌⊎◌, ◌↔◌, ◌^◌, ◌<◌, ◌++◌, [], Some, IfOk, IsTrue, length, drop, slice_get};
ghost use Rattle.std.specs.VecDeque.{deque_capacity};
ghost use Rattle.xsk_judge.specs.Kept.{Queue as Entries, numbered};
ghost use Rattle.xsk_judge.specs.Judging.{released};

use std::alloc::Global;
use std::collections::VecDeque;
use std::marker::Model;
use xsk_umem::{OutOfMemory, XdpDesc};

/// The entries that the program holds, so many, and behind them those that stand in the ring again, since a line.
#[derive(Debug, Drop)]
pub(crate) struct Queue {
    entries: VecDeque<XdpDesc>,
    held: u32,
    /// The number of the first, modulo 2^32.
    first: u32,
    size: u32,
    again: u64,
}

impl Model for Queue {
    ghost use Rattle.std.specs.Prelude.{◌≤◌, length};
    ghost use Rattle.std.specs.VecDeque.{deque_capacity};
    ghost use Rattle.xsk_judge.specs.Kept.{Queue as Entries};

    ghost Value = { Entries };

    ghost view = { λ q. record { entries = q.entries.items; held = q.held; first = q.first; size = q.size; again = q.again } };

    ghost invariant = { λ q. (length q.entries.items ≤ q.size) × (q.size ≤ deque_capacity q.entries) × (q.held ≤ length q.entries.items) };
}

impl Queue {
    /// An empty queue with room for so many entries.
    pub(crate) fn new(alloc: Global, size: u32) -> Result<Queue, OutOfMemory>
        ensures { IfOk result (λ queue. queue ≡ record { entries = []; held = 0; first = 0; size = size; again = 0 }) }
    {
        Ok(Queue {
            entries: VecDeque::with_capacity(alloc, size as usize)?,
            held: 0,
            first: 0,
            size,
            again: 0,
        })
    }

    /// How many entries are held.
    pub(crate) fn held(&self) -> u32
        ensures value { result ≡ self.now.held }
        ensures few { self.now.held ≤ length self.now.entries }
        ensures room { length self.now.entries ≤ self.now.size }
        ensures fits { self.now.size < 2 ^ 32 }
    {
        // For the proof: what the queue keeps to, and that its size fits.
        let _size = self.size;
        self.held
    }

    /// How many entries stand in the ring again.
    pub(crate) fn standing(&self) -> u32
        ensures { result ≡ length self.now.entries - self.now.held }
    {
        let _size = self.size;
        self.entries.len() as u32 - self.held
    }

    /// Since which line they do.
    pub(crate) fn again(&self) -> u64
        ensures { result ≡ self.now.again }
    {
        self.again
    }

    /// The number of the first entry.
    pub(crate) fn first(&self) -> u32
        ensures { result ≡ self.now.first }
    {
        self.first
    }

    /// The number of an entry.
    pub(crate) fn numbered(&self, i: u32) -> u32
        ensures { result ≡ numbered self.now.first i }
    {
        self.first.wrapping_add(i)
    }

    /// An entry by its place behind the first.
    pub(crate) fn entry(&self, i: u32) -> Option<XdpDesc>
        ensures { result ≡ slice_get self.now.entries i }
    {
        self.entries.get(i as usize).copied()
    }

    /// The entry in this place behind the first.
    pub(crate) fn stood(&self, i: u32) -> XdpDesc
        requires { i < length self.now.entries }
        ensures { slice_get self.now.entries i ≡ Some result }
    {
        match self.entries.get(i as usize) {
            Some(entry) => *entry,
            None => unreachable!(),
        }
    }

    /// Whether this entry stands in this place behind the first.
    pub(crate) fn is_at(&self, i: u32, entry: XdpDesc) -> bool
        ensures { IsTrue result ↔ (slice_get self.now.entries i ≡ Some entry) }
    {
        match self.entries.get(i as usize) {
            Some(there) => {
                there.addr == entry.addr && there.len == entry.len && there.options == entry.options
            }
            None => false,
        }
    }

    /// The places of the ring.
    pub(crate) fn size(&self) -> u32
        ensures { result ≡ self.now.size }
    {
        self.size
    }

    /// The program holds so many of the entries that stand again, and these, which are new.
    pub(crate) fn show(&mut self, again: u32, new: &[XdpDesc])
        requires standing { self.old.held + again ≤ length self.old.entries }
        requires all { new.now ≡ [] ⊎ (self.old.held + again ≡ length self.old.entries) }
        requires room { length self.old.entries + length new.now ≤ self.old.size }
        ensures { self.new ≡ record self.old { entries = self.old.entries ++ new.now; held = self.old.held + (again + length new.now) } }
    {
        let _size = self.size;
        append(&mut self.entries, new);
        self.held += again + new.len() as u32;
    }

    /// The program gave back the first so many entries.
    pub(crate) fn release(&mut self, count: u32)
        requires { count ≤ self.old.held }
        ensures { self.new ≡ released self.old count }
    {
        let _size = self.size;
        drop_front(&mut self.entries, count);
        self.held -= count;
        self.first = self.first.wrapping_add(count);
    }

    /// The program put back the last so many entries that it held.
    pub(crate) fn put_back(&mut self, count: u32, line: u64)
        requires { count ≤ self.old.held }
        ensures { self.new ≡ record self.old { held = self.old.held - count; again = line } }
    {
        self.held -= count;
        self.again = line;
    }
}

/// Takes the first so many entries away.
fn drop_front(entries: &mut VecDeque<XdpDesc>, count: u32)
    requires { count ≤ length entries.old.items }
    ensures items { entries.new.items ≡ drop count entries.old.items }
    ensures capacity { deque_capacity entries.new ≡ deque_capacity entries.old }
{
    for i in 0..count {
        let _entry = entries.pop_front();
    }
}

/// Puts the entries behind the others, for which there is room.
fn append(entries: &mut VecDeque<XdpDesc>, new: &[XdpDesc])
    requires { length entries.old.items + length new.now ≤ deque_capacity entries.old }
    ensures items { entries.new.items ≡ entries.old.items ++ new.now }
    ensures capacity { deque_capacity entries.new ≡ deque_capacity entries.old }
{
    for i in 0..new.len() {
        entries.push_back_reserved(new[i]);
    }
}
