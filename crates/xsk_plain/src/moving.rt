//! Items moved into rings, out of rings, and given back.
ghost use Rattle.std.specs.Prelude.{◌≡◌, ◌+◌, ◌-◌, ◌<◌, ◌≤◌, [], ◌++◌, length, take, drop, map, vec_len};
ghost use Rattle.xsk_umem.specs.Limits.{most_items};
ghost use Rattle.xsk_model.specs.Config.{Config as Parts};
ghost use Rattle.xsk_model.specs.Stored.{stored_item};
ghost use Rattle.xsk_plain.specs.Engine.{frames_in, frames_of};
ghost use Rattle.xsk_plain.specs.Kept.{AreKept, IsHeld, AreHeld};
ghost use Rattle.xsk_log.specs.Log.{NotesPiece, noted_in, notes_of, entry_room, byte_room};
ghost use Rattle.xsk_log.specs.Notes.{NotesGrow};
ghost use Rattle.xsk_plain.specs.Object.{NotesItems};
ghost use Rattle.xsk_plain.specs.Rooms.{items_bytes};
ghost use Rattle.xsk_plain.specs.Stores.{part_of, stored_item_of, piece_of};

use crate::ring_store::{RingStore, Stored};
use xsk_desc::payload_of;
use xsk_log::Log;
use xsk_model::Config;
use xsk_umem::{Batch, Frame, Frames, Item};

/// Moves the items into reserved places of the ring, and notes each with its payload.
pub(crate) fn put_items(store: &mut RingStore, log: &mut Log, config: &Config, items: &mut Batch)
    requires spare { 1 ≤ entry_room log.old }
    requires start { noted_in log.old ≡ [] }
    requires bytes { items_bytes config.now items.old ≤ byte_room log.old }
    requires room { length items.old ≤ store.old.room }
    ensures log { NotesItems log.old log.new (items_bytes config.now items.old) }
    ensures noted { noted_in log.new ≡ map (stored_item config.now.geometry config.now.sg) items.old }
    ensures notes { NotesGrow (notes_of log.old) (notes_of log.new) }
    ensures ring { part_of store.new ≡ record { out = map stored_item_of store.old.out.items ++ items.old; held = store.old.held; room = store.old.room - length items.old } }
    ensures left { items.new ≡ [] }
    ensures size { store.new.size ≡ store.old.size }
    ensures kept { AreKept config.now (notes_of log.old) store.old → AreKept config.now (notes_of log.new) store.new }
{
    for _ in 0..items.len() {
        let item = items.pop_front().unwrap();
        let payload = log.keep(
            number_of(&item),
            payload_of(&item, config.geometry(), config.sg()),
        );
        let mut stored = Stored {
            item,
            payload,
            place: None,
        };
        let place = log.note(stored.piece());
        stored.place = Some(place);
        store.put(stored);
    }
}

/// Moves the items into reserved places of the ring, of which nothing is noted.
pub(crate) fn put_unnoted(store: &mut RingStore, items: &mut Batch)
    requires room { length items.old ≤ store.old.room }
    ensures ring { part_of store.new ≡ record { out = map stored_item_of store.old.out.items ++ items.old; held = store.old.held; room = store.old.room - length items.old } }
    ensures left { items.new ≡ [] }
    ensures size { store.new.size ≡ store.old.size }
{
    for _ in 0..items.len() {
        let item = items.pop_front().unwrap();
        store.put(Stored::unnoted(item));
    }
}

/// The number of the item's frame, or 0.
fn number_of(item: &Item) -> u32 {
    match &item.frame {
        Some(frame) => frame.number(),
        None => 0,
    }
}

/// Takes at most so many items from the ring into an empty batch, and notes each.
pub(crate) fn take_items(store: &mut RingStore, log: &mut Log, count: u32, items: &mut Batch)
    requires empty { items.old ≡ [] }
    requires spare { 1 ≤ entry_room log.old }
    requires start { noted_in log.old ≡ [] }
    requires few { count ≤ most_items }
    requires held { AreHeld (notes_of log.old) store.old }
    ensures log { NotesItems log.old log.new 0 }
    ensures noted { (config : Parts) → AreKept config (notes_of log.old) store.old → noted_in log.new ≡ map (stored_item config.geometry config.sg) items.new }
    ensures notes { NotesGrow (notes_of log.old) (notes_of log.new) }
    ensures items { items.new ≡ take count (map stored_item_of store.old.out.items) }
    ensures ring { part_of store.new ≡ record { out = drop count (map stored_item_of store.old.out.items); held = store.old.held + length items.new; room = store.old.room } }
    ensures size { store.new.size ≡ store.old.size }
    ensures kept { (config : Parts) → AreKept config (notes_of log.old) store.old → AreKept config (notes_of log.new) store.new }
{
    for _ in 0..count.min(store.len()) {
        let stored = store.take().unwrap();
        note_stored(log, &stored);
        items.push(stored.item);
    }
}

/// Takes at most so many items from the ring into an empty batch, and notes nothing of them.
pub(crate) fn take_unnoted(store: &mut RingStore, count: u32, items: &mut Batch)
    requires empty { items.old ≡ [] }
    requires few { count ≤ most_items }
    ensures items { items.new ≡ take count (map stored_item_of store.old.out.items) }
    ensures ring { part_of store.new ≡ record { out = drop count (map stored_item_of store.old.out.items); held = store.old.held + length items.new; room = store.old.room } }
    ensures size { store.new.size ≡ store.old.size }
{
    for _ in 0..count.min(store.len()) {
        items.push(store.take().unwrap().item);
    }
}

/// Notes an item that is taken: its piece stands at its place, unless it was there at the opening.
#[inline(always)]
fn note_stored(log: &mut Log, stored: &Stored)
    requires spare { 1 ≤ entry_room log.old }
    requires few { length (noted_in log.old) < most_items }
    requires held { IsHeld (notes_of log.old) stored.now }
    ensures { NotesPiece log.old log.new (piece_of stored.now) }
{
    match stored.place {
        Some(place) => log.note_again(place),
        None => {
            // The item leaves the ring, so nothing keeps the place of its piece.
            let _place = log.note(stored.piece());
        }
    }
}

/// Puts the frames of the ring's items at the end of the queue. Those for which it has no room are dropped.
pub(crate) fn give_back(store: RingStore, home: &mut Frames)
    ensures items { length home.old.items + length (frames_in (map stored_item_of store.out.items)) ≤ home.old.limit → home.new.items ≡ home.old.items ++ frames_in (map stored_item_of store.out.items) }
    ensures limit { home.new.limit ≡ home.old.limit }
{
    let mut store = store;
    for _ in 0..store.len() {
        let stored = store.pop().unwrap();
        give_frame(stored.item.frame, home);
    }
}

fn give_frame(frame: Option<Frame>, home: &mut Frames)
    ensures items { length home.old.items + length (frames_of frame) ≤ home.old.limit → home.new.items ≡ home.old.items ++ frames_of frame }
    ensures limit { home.new.limit ≡ home.old.limit }
{
    if let Some(frame) = frame
        && !home.is_full()
    {
        home.push_back(frame);
    }
}
