//! The packets that a driver put together and didn't complete yet. Items and lengths change together: the lengths cut
//! the items into whole packets (`specs/Finished`, the invariant).
ghost use Rattle.std.specs.Prelude.{◌≡◌, ℕ, ◌+◌, List, [], ◌∷◌, ◌++◌, ◌<◌, ◌≤◌, length, map, flat_map, take, drop, false, IfOk, MatchOption};
ghost use Rattle.std.specs.List.{slice_index_or};
ghost use Rattle.std.specs.VecDeque.{deque_capacity};
ghost use Rattle.xsk_umem.specs.Geometry.{IsGeometry};
ghost use Rattle.xsk_model.specs.Limits.{most_fragments};
ghost use Rattle.xsk_model.specs.Packets.{bytes_of};
ghost use Rattle.xsk_turns.specs.Statistics.{capped};
ghost use Rattle.xsk_turns.specs.Stranded.{items_in};
ghost use Rattle.xsk_turns.specs.Turns.{frames_in, returned as item_returned};
ghost use Rattle.xsk_driver.specs.SentRoom.{Sends, last_length};
ghost use Rattle.xsk_driver.specs.Outbox.{outbox_of};

use crate::outbox::Outbox;
use std::alloc::Global;
use std::collections::VecDeque;
use std::marker::Model;
use std::mem;
use xsk_desc::payload_of;
use xsk_model::steering::MOST_FRAGMENTS;
use xsk_umem::{Batch, Geometry, Item, OutOfMemory, XdpDesc};

/// The most packets that are finished and not completed.
const MOST_FINISHED: usize = 128;

/// The packets that were put together and not completed yet, in order: their items one after the other, and how many each
/// has.
#[derive(Drop)]
pub(crate) struct Finished {
    items: VecDeque<Item>,
    lengths: VecDeque<u32>,
}

impl Model for Finished {
    ghost use Rattle.std.specs.Prelude.{◌≡◌, ◌≤◌, List, All, length};
    ghost use Rattle.std.specs.List.{sum};
    ghost use Rattle.std.specs.VecDeque.{deque_capacity};
    ghost use Rattle.xsk_umem.specs.declared.batch.Item.{Item};
    ghost use Rattle.xsk_model.specs.Limits.{most_fragments};
    ghost use Rattle.xsk_driver.specs.Finished.{cut_by};

    ghost Value = { List (List Item) };

    ghost view = { λ f. cut_by f.lengths.items f.items.items };

    ghost invariant = { λ f. (sum f.lengths.items ≡ length f.items.items) × All (λ n. n ≤ most_fragments) f.lengths.items
        × (2304 ≤ deque_capacity f.items) × (128 ≤ deque_capacity f.lengths) };
}

impl Finished {
    /// No packet, with room for 128.
    pub(crate) fn new(alloc: Global) -> Result<Finished, OutOfMemory>
        ensures { IfOk result (λ f. f ≡ []) }
    {
        Ok(Finished {
            items: VecDeque::with_capacity(alloc, MOST_FINISHED * MOST_FRAGMENTS as usize)?,
            lengths: VecDeque::with_capacity(alloc, MOST_FINISHED)?,
        })
    }

    /// The number of items of the first packet, if there is one.
    pub(crate) fn first_len(&self) -> Option<u32>
        ensures { MatchOption result (self.now ≡ []) (λ n. (1 ≤ length self.now) × (n ≡ length (slice_index_or self.now 0 []))) }
    {
        self.lengths.front().copied()
    }

    /// How many items its packets have in all.
    pub(crate) fn item_count(&self) -> u64
        ensures { result ≡ capped (items_in self.now) }
    {
        self.items.len() as u64
    }

    /// The items of its packets, one after the other.
    pub(crate) fn into_items(self) -> VecDeque<Item>
        ensures { frames_in result.items ≡ flat_map frames_in self }
    {
        let Finished { items, .. } = self;
        items
    }

    /// Appends a packet of the batch's items and its last one, and leaves the batch empty.
    pub(crate) fn push(&mut self, items: &mut Batch, last: Item)
        requires room { length self.old < 128 }
        requires few { length items.old < most_fragments }
        ensures packets { self.new ≡ self.old ++ (items.old ++ last ∷ []) ∷ [] }
        ensures items { items.new ≡ [] }
    {
        let length = items.len() + 1;
        append(&mut self.items, items, last);
        self.lengths.push_back_reserved(length);
    }

    /// Takes the first packet: keeps its bytes as sent, and puts its items with their addresses alone into the batch.
    pub(crate) fn complete_first(
        &mut self,
        geometry: &Geometry,
        sg: bool,
        outbox: &mut Outbox,
        items: &mut Batch,
    )
        requires some { 1 ≤ length self.old }
        requires lawful { IsGeometry geometry.now }
        requires empty { items.old ≡ [] }
        ensures packets { self.new ≡ drop 1 self.old }
        ensures items { items.new ≡ map item_returned (slice_index_or self.old 0 []) }
        ensures limits { (outbox.new.most_packets ≡ outbox.old.most_packets) × (outbox.new.most_bytes ≡ outbox.old.most_bytes) }
        ensures sends { (packets : List (List ℕ)) → Sends (outbox_of outbox.old) packets
            → Sends (outbox_of outbox.new) (packets ++ bytes_of geometry.now sg (slice_index_or self.old 0 []) ∷ []) }
    {
        let length = self.lengths.pop_front().unwrap();
        send(&mut self.items, length, geometry, sg, outbox, items);
    }
}

/// Has a queue begin at the first of its places, where few of them are used, so that those are lines that the processor has.
fn begin_at_first(queue: &mut VecDeque<Item>)
    ensures items { queue.new.items ≡ queue.old.items }
    ensures capacity { deque_capacity queue.new ≡ deque_capacity queue.old }
{
    let none = VecDeque::new(*queue.allocator());
    let places = mem::replace(queue, none).into_vec();
    *queue = VecDeque::from_vec(places);
}

/// Moves all items of the batch and then a last one to the end of the queue, which has room for them.
fn append(queue: &mut VecDeque<Item>, items: &mut Batch, last: Item)
    requires { length queue.old.items + length items.old + 1 ≤ deque_capacity queue.old }
    ensures queue { queue.new.items ≡ queue.old.items ++ (items.old ++ last ∷ []) }
    ensures items { items.new ≡ [] }
    ensures capacity { deque_capacity queue.new ≡ deque_capacity queue.old }
{
    while let Some(item) = items.pop_front() {
        queue.push_back_reserved(item);
    }
    queue.push_back_reserved(last);
}

/// Takes the first items of the queue, so many, as a packet: keeps its bytes as sent, and puts the items with their addresses
/// alone into the batch.
fn send(
    queue: &mut VecDeque<Item>,
    count: u32,
    geometry: &Geometry,
    sg: bool,
    outbox: &mut Outbox,
    items: &mut Batch,
)
    requires lawful { IsGeometry geometry.now }
    requires few { count ≤ most_fragments }
    requires some { count ≤ length queue.old.items }
    requires empty { items.old ≡ [] }
    ensures queue { queue.new.items ≡ drop count queue.old.items }
    ensures items { items.new ≡ map item_returned (take count queue.old.items) }
    ensures capacity { deque_capacity queue.new ≡ deque_capacity queue.old }
    ensures limits { (outbox.new.most_packets ≡ outbox.old.most_packets) × (outbox.new.most_bytes ≡ outbox.old.most_bytes) }
    ensures sends { (packets : List (List ℕ)) → Sends (outbox_of outbox.old) packets
        → Sends (outbox_of outbox.new) (packets ++ bytes_of geometry.now sg (take count queue.old.items) ∷ []) }
{
    if count == 1 {
        send_whole(queue, geometry, sg, outbox, items);
        return;
    }
    outbox.begin();
    send_pieces(queue, count, geometry, sg, outbox, items);
}

/// Takes the first item of the queue, a packet of its own: keeps its bytes as sent, and puts the item with its address alone
/// into the batch.
fn send_whole(
    queue: &mut VecDeque<Item>,
    geometry: &Geometry,
    sg: bool,
    outbox: &mut Outbox,
    items: &mut Batch,
)
    requires lawful { IsGeometry geometry.now }
    requires some { 1 ≤ length queue.old.items }
    requires empty { items.old ≡ [] }
    ensures queue { queue.new.items ≡ drop 1 queue.old.items }
    ensures items { items.new ≡ map item_returned (take 1 queue.old.items) }
    ensures capacity { deque_capacity queue.new ≡ deque_capacity queue.old }
    ensures limits { (outbox.new.most_packets ≡ outbox.old.most_packets) × (outbox.new.most_bytes ≡ outbox.old.most_bytes) }
    ensures sends { (packets : List (List ℕ)) → Sends (outbox_of outbox.old) packets
        → Sends (outbox_of outbox.new) (packets ++ bytes_of geometry.now sg (take 1 queue.old.items) ∷ []) }
{
    let item = queue.pop_front().unwrap();
    outbox.add(payload_of(&item, geometry, sg));
    items.push(returned(item));
    if queue.is_empty() {
        begin_at_first(queue);
    }
}

/// Takes the first items of the queue, so many, for the packet that was begun last: appends their bytes to it, and puts the
/// items with their addresses alone into the batch.
fn send_pieces(
    queue: &mut VecDeque<Item>,
    count: u32,
    geometry: &Geometry,
    sg: bool,
    outbox: &mut Outbox,
    items: &mut Batch,
)
    requires lawful { IsGeometry geometry.now }
    requires few { count ≤ most_fragments }
    requires some { count ≤ length queue.old.items }
    requires empty { items.old ≡ [] }
    requires begun { outbox.old.overrun ≡ false → last_length outbox.old.list.packets ≡ 0 }
    ensures queue { queue.new.items ≡ drop count queue.old.items }
    ensures items { items.new ≡ map item_returned (take count queue.old.items) }
    ensures capacity { deque_capacity queue.new ≡ deque_capacity queue.old }
    ensures limits { (outbox.new.most_packets ≡ outbox.old.most_packets) × (outbox.new.most_bytes ≡ outbox.old.most_bytes) }
    ensures sends { (packets : List (List ℕ)) → Sends (outbox_of outbox.old) (packets ++ [] ∷ [])
        → Sends (outbox_of outbox.new) (packets ++ bytes_of geometry.now sg (take count queue.old.items) ∷ []) }
{
    for _ in 0..count {
        let item = queue.pop_front().unwrap();
        outbox.extend(payload_of(&item, geometry, sg));
        items.push(returned(item));
    }
}

/// The item with its address alone, as it is given back.
fn returned(item: Item) -> Item
    ensures { result ≡ item_returned item }
{
    Item {
        frame: item.frame,
        desc: XdpDesc {
            addr: item.desc.addr,
            len: 0,
            options: 0,
        },
    }
}
