//! How frames move into a ring and out of it. A frame's slot is with the caller only while the frame is moved. Between
//! two calls a pass holds none (`specs/Held`, its invariant).
ghost use Rattle.std.specs.Prelude.{Option, None, List, [], ◌∷◌, length, ◌≡◌, ◌+◌, ◌-◌, ◌*◌, ◌%◌, ◌^◌, ◌<◌, ◌≤◌, ℕ};
ghost use Rattle.std.specs.Option.{option_map};
ghost use Rattle.xsk_umem.specs.Frame.{Frame as Body};
ghost use Rattle.xsk_umem.specs.declared.batch.Item.{Item as Thing};
ghost use Rattle.xsk_umem.specs.Geometry.{IsGeometry, frame_of};
ghost use Rattle.xsk_model.specs.Config.{HasRing, IsRingSize, size_of, callers_of};
ghost use Rattle.xsk_model.specs.Rings.{consumer};
ghost use Rattle.xsk_model.specs.Entry.{own};
ghost use Rattle.xsk_model.specs.Own.{given_of};
ghost use Rattle.xsk_model.specs.Legal.{IsItemOn};
ghost use Rattle.xsk_table.specs.Words.{second_word};
ghost use Rattle.xsk_table.specs.Layout.{entry_words as words_of_entry, ring_base, producer, word_at, most_ring_words, last_entry_word};
ghost use Rattle.xsk_table.specs.View.{taking, fetching, writing, placing};
ghost use Rattle.xsk_table.specs.Rule.{wrapped, entry_of, second_of, opened, lying};
ghost use Rattle.xsk_table.specs.Plays.{Placed, Lifted, PutIn, Fetched, Settled, CanPlace, IsPlacing, IsTaken, IsFirst, Emptied, TakenOut, ask_for, ask_item, emptied};

use crate::board::{Board, Chair};
use crate::layout::{ENTRIES, PRODUCER, entry_words};
use crate::view::{Asking, FetchStep, LiftStep, PlaceStep, ReadStep, SettleStep};
use crate::words::{pack, unpack};
use std::marker::Brand;
use xsk_model::Ring;
use xsk_umem::{Frame, Geometry, Item, XdpDesc};

/// The place of a count among a ring's entries, for a size that is a power of two.
fn entry_place(count: u32, mask: u32) -> usize
    requires { IsRingSize (mask + 1) }
    ensures { result ≡ count % (mask + 1) }
{
    (count & mask) as usize
}

/// The first word of the entry of a count, in the ring that begins at `base`.
fn entry_word(base: usize, ring: Ring, count: u32, mask: u32) -> usize
    requires size { IsRingSize (mask + 1) }
    requires base { base ≤ most_ring_words }
    ensures value { result ≡ base + (32 + words_of_entry ring * (count % (mask + 1))) }
    ensures few { result ≤ last_entry_word }
{
    base + (ENTRIES + entry_words(ring) * entry_place(count, mask))
}

/// A look that takes the empty slot of an item's frame, where nothing stands behind an entry's address.
fn lift<J: Asking>(board: &Board, seat: &mut Chair, who: u32, ring: Ring, item: &Item, word: usize)
    requires table { seat.old.table_id ≡ board.now.table }
    requires ask { J.ask ≡ ask_item board.now.setup who ring item.now }
    requires word { (word ≡ word_at board.now.setup.config (producer ring)) × (word < board.now.table.words) }
    requires one_word { words_of_entry ring ≡ 1 }
    requires can { CanPlace (ask_item board.now.setup who ring item.now) seat.old.me.0 }
    requires flight { IsPlacing ring seat.old.me.0.flight }
    ensures same { (seat.new.table_id ≡ seat.old.table_id) × (seat.new.id ≡ seat.old.id) }
    ensures told { Lifted (ask_item board.now.setup who ring item.now) seat.old.me seat.new.me }
{
    // Between (A) and (B), at the producer's own count: no barrier, the slot alone moves.
    board.look::<LiftStep<J>>(seat, word);
}

/// The write of an entry's second word, which takes the empty slot of the item's frame.
fn write_second<J: Asking>(
    board: &Board,
    seat: &mut Chair,
    who: u32,
    ring: Ring,
    item: &Item,
    word: usize,
)
    requires table { seat.old.table_id ≡ board.now.table }
    requires ask { J.ask ≡ ask_item board.now.setup who ring item.now }
    requires word { (word ≡ word_at board.now.setup.config (second_of board.now.setup.config ring (board.now.setup.first + (opened board.now.setup ring + given_of ring (own who seat.old.me.0.seen) + length (lying seat.old.me.0.flight))))) × (word < board.now.table.words) }
    requires two_words { words_of_entry ring ≡ 2 }
    requires can { CanPlace (ask_item board.now.setup who ring item.now) seat.old.me.0 }
    requires flight { IsPlacing ring seat.old.me.0.flight }
    ensures same { (seat.new.table_id ≡ seat.old.table_id) × (seat.new.id ≡ seat.old.id) }
    ensures told { Lifted (ask_item board.now.setup who ring item.now) seat.old.me seat.new.me }
{
    let (_, second) = pack(item.desc);
    // Data, between (A) and (B).
    board.store::<LiftStep<J>>(seat, word, second);
}

/// Takes the empty slot of an item's frame, and writes what stands behind the address in the item's entry, which begins
/// at `word`. `base` is the place of the ring's first word.
#[allow(clippy::too_many_arguments)]
fn take_slot(
    board: &Board,
    seat: &mut Chair,
    who: u32,
    ring: Ring,
    item: &Item,
    base: usize,
    word: usize,
)
    requires table { seat.old.table_id ≡ board.now.table }
    requires base { (base ≡ ring_base board.now.setup.config ring) × (base + 8 < board.now.table.words) × (base ≤ most_ring_words) }
    requires word { word ≡ word_at board.now.setup.config (entry_of board.now.setup.config ring (board.now.setup.first + (opened board.now.setup ring + given_of ring (own who seat.old.me.0.seen) + length (lying seat.old.me.0.flight)))) }
    requires within { (word + words_of_entry ring ≤ board.now.table.words) × (word ≤ last_entry_word) }
    requires can { CanPlace (ask_item board.now.setup who ring item.now) seat.old.me.0 }
    requires flight { IsPlacing ring seat.old.me.0.flight }
    ensures same { (seat.new.table_id ≡ seat.old.table_id) × (seat.new.id ≡ seat.old.id) }
    ensures told { Lifted (ask_item board.now.setup who ring item.now) seat.old.me seat.new.me }
{
    if entry_words(ring) == 2 {
        write_second::<Brand>(board, seat, who, ring, item, word + 1);
    } else {
        lift::<Brand>(board, seat, who, ring, item, base + PRODUCER);
    }
}

fn write_entry<J: Asking>(
    board: &Board,
    seat: &mut Chair,
    who: u32,
    ring: Ring,
    item: Item,
    word: usize,
)
    requires table { seat.old.table_id ≡ board.now.table }
    requires ask { J.ask ≡ ask_item board.now.setup who ring item }
    requires word { (word ≡ word_at board.now.setup.config (entry_of board.now.setup.config ring (board.now.setup.first + (opened board.now.setup ring + given_of ring (own who seat.old.me.0.seen) + length (lying seat.old.me.0.flight))))) × (word < board.now.table.words) }
    requires can { CanPlace (ask_item board.now.setup who ring item) seat.old.me.0 }
    requires flight { seat.old.me.0.flight ≡ writing ring (lying seat.old.me.0.flight) item }
    requires front { IsTaken item.frame seat.old.me.1 }
    ensures same { (seat.new.table_id ≡ seat.old.table_id) × (seat.new.id ≡ seat.old.id) }
    ensures told { Placed (ask_item board.now.setup who ring item) seat.old.me seat.new.me }
{
    let Item { frame, desc } = item;
    match frame {
        Some(frame) => {
            let number = frame.number() as usize;
            drop(board.exchange(seat, number, Some(frame)));
            // Data, between (A) and (B): the address last, behind the frame.
            board.store::<PlaceStep<J>>(seat, word, desc.addr);
        }
        None => board.store::<PlaceStep<J>>(seat, word, desc.addr),
    }
}

/// Moves an item's frame into its slot, and writes its address last. `near` is the producer word, `placed` the number of
/// items placed before, and `base` the place of the ring's first word.
#[allow(clippy::too_many_arguments)]
pub(crate) fn place(
    board: &Board,
    seat: &mut Chair,
    who: u32,
    ring: Ring,
    item: Item,
    near: u32,
    placed: u32,
    base: usize,
    mask: u32,
)
    requires table { seat.old.table_id ≡ board.now.table }
    requires size { (mask + 1 ≡ size_of board.now.setup.config ring) × IsRingSize (mask + 1) }
    requires base { (base ≡ ring_base board.now.setup.config ring) × (base + (32 + words_of_entry ring * (mask + 1)) ≤ board.now.table.words) × (base ≤ most_ring_words) }
    requires near { near ≡ wrapped board.now.setup (opened board.now.setup ring + given_of ring (own who seat.old.me.0.seen)) }
    requires placed { placed ≡ length (lying seat.old.me.0.flight) }
    requires can { CanPlace (ask_item board.now.setup who ring item) seat.old.me.0 }
    requires flight { IsPlacing ring seat.old.me.0.flight }
    ensures same { (seat.new.table_id ≡ seat.old.table_id) × (seat.new.id ≡ seat.old.id) }
    ensures told { PutIn ring item seat.old.me seat.new.me }
{
    let word = entry_word(base, ring, near.wrapping_add(placed), mask);
    take_slot(board, seat, who, ring, &item, base, word);
    write_entry::<Brand>(board, seat, who, ring, item, word);
}

fn read_entry<J: Asking>(board: &Board, seat: &mut Chair, who: u32, ring: Ring, word: usize) -> u64
    requires table { seat.old.table_id ≡ board.now.table }
    requires ask { J.ask ≡ ask_for board.now.setup who ring 0 }
    requires caller { (seat.old.me.0.callers ≡ who ∷ []) × HasRing board.now.setup.config ring × (who ≡ consumer board.now.setup.config ring) × (who < callers_of board.now.setup.config) }
    requires alone { seat.old.me.0.others ≡ [] }
    requires flight { (x : Thing) × (left : List Thing) × (seat.old.me.0.flight ≡ taking ring (x ∷ left)) }
    requires word { (word < board.now.table.words) × ((count : ℕ) × (count + length (lying seat.old.me.0.flight) ≡ emptied (ask_for board.now.setup who ring 0) seat.old.me.0) × (word ≡ word_at board.now.setup.config (entry_of board.now.setup.config ring (board.now.setup.first + count)))) }
    ensures same { (seat.new.table_id ≡ seat.old.table_id) × (seat.new.id ≡ seat.old.id) }
    ensures told { (x : Thing) (left : List Thing) → seat.old.me.0.flight ≡ taking ring (x ∷ left) → Fetched (ask_for board.now.setup who ring 0) x left seat.old.me result seat.new.me }
{
    // Data, between (C) and (D).
    board.look::<FetchStep<J>>(seat, word)
}

/// A look that gives the slot of the fetched frame home, empty, where nothing stands behind an entry's address.
fn settle<J: Asking>(board: &Board, seat: &mut Chair, who: u32, ring: Ring, word: usize)
    requires table { seat.old.table_id ≡ board.now.table }
    requires ask { J.ask ≡ ask_for board.now.setup who ring 0 }
    requires word { (word < board.now.table.words) × ((count : ℕ) × (word ≡ word_at board.now.setup.config (entry_of board.now.setup.config ring count))) }
    requires caller { (seat.old.me.0.callers ≡ who ∷ []) × HasRing board.now.setup.config ring × (who ≡ consumer board.now.setup.config ring) × (who < callers_of board.now.setup.config) }
    requires alone { seat.old.me.0.others ≡ [] }
    requires flight { (x : Thing) × (left : List Thing) × (seat.old.me.0.flight ≡ fetching ring x left) × IsFirst x.frame None seat.old.me.1 }
    ensures same { (seat.new.table_id ≡ seat.old.table_id) × (seat.new.id ≡ seat.old.id) }
    ensures told { (x : Thing) (left : List Thing) → seat.old.me.0.flight ≡ fetching ring x left → Settled (ask_for board.now.setup who ring 0) x left seat.old.me seat.new.me }
{
    // Between (C) and (D), at the address once more: no barrier, the slot alone moves.
    board.look::<SettleStep<J>>(seat, word);
}

/// The read of an entry's second word, which gives the slot of the fetched frame home, empty.
fn read_second<J: Asking>(board: &Board, seat: &mut Chair, who: u32, ring: Ring, word: usize) -> u64
    requires table { seat.old.table_id ≡ board.now.table }
    requires ask { J.ask ≡ ask_for board.now.setup who ring 0 }
    requires two_words { words_of_entry ring ≡ 2 }
    requires caller { (seat.old.me.0.callers ≡ who ∷ []) × HasRing board.now.setup.config ring × (who ≡ consumer board.now.setup.config ring) × (who < callers_of board.now.setup.config) }
    requires alone { seat.old.me.0.others ≡ [] }
    requires flight { (x : Thing) × (left : List Thing) × (seat.old.me.0.flight ≡ fetching ring x left) × IsFirst x.frame None seat.old.me.1 × ((count : ℕ) × (count + length (x ∷ left) ≡ emptied (ask_for board.now.setup who ring 0) seat.old.me.0) × (word ≡ word_at board.now.setup.config (second_of board.now.setup.config ring (board.now.setup.first + count)))) }
    requires word { word < board.now.table.words }
    ensures same { (seat.new.table_id ≡ seat.old.table_id) × (seat.new.id ≡ seat.old.id) }
    ensures told { (x : Thing) (left : List Thing) → seat.old.me.0.flight ≡ fetching ring x left → Settled (ask_for board.now.setup who ring 0) x left seat.old.me seat.new.me × (result ≡ second_word x.desc) }
{
    // Data, between (C) and (D).
    board.look::<ReadStep<J>>(seat, word)
}

/// The descriptor of the item that is being fetched, by its address and what stands behind that in its entry, which
/// begins at `word`. The slot of its frame goes home, empty.
fn read_desc(
    board: &Board,
    seat: &mut Chair,
    who: u32,
    ring: Ring,
    addr: u64,
    word: usize,
) -> XdpDesc
    requires table { seat.old.table_id ≡ board.now.table }
    requires caller { (seat.old.me.0.callers ≡ who ∷ []) × HasRing board.now.setup.config ring × (who ≡ consumer board.now.setup.config ring) × (who < callers_of board.now.setup.config) }
    requires alone { seat.old.me.0.others ≡ [] }
    requires flight { (x : Thing) × (left : List Thing) × (seat.old.me.0.flight ≡ fetching ring x left) × IsFirst x.frame None seat.old.me.1 × ((count : ℕ) × (count + length (x ∷ left) ≡ emptied (ask_for board.now.setup who ring 0) seat.old.me.0) × (word ≡ word_at board.now.setup.config (entry_of board.now.setup.config ring (board.now.setup.first + count)))) }
    requires within { (word + words_of_entry ring ≤ board.now.table.words) × (word ≤ last_entry_word) }
    ensures same { (seat.new.table_id ≡ seat.old.table_id) × (seat.new.id ≡ seat.old.id) }
    ensures told { (x : Thing) (left : List Thing) → seat.old.me.0.flight ≡ fetching ring x left → addr ≡ x.desc.addr → IsItemOn board.now.setup.config.geometry ring x → Settled (ask_for board.now.setup who ring 0) x left seat.old.me seat.new.me × (result ≡ x.desc) }
{
    if entry_words(ring) == 2 {
        let second = read_second::<Brand>(board, seat, who, ring, word + 1);
        unpack(addr, second)
    } else {
        settle::<Brand>(board, seat, who, ring, word);
        XdpDesc {
            addr,
            len: 0,
            options: 0,
        }
    }
}

/// The frame in which an address lies, with a division by a constant.
fn number_of(geometry: &Geometry, addr: u64) -> Option<u32>
    ensures { result ≡ frame_of geometry.now addr }
{
    let chunk = geometry.chunk();
    if addr >= u64::from(geometry.frames()) * u64::from(chunk) {
        None
    } else if chunk == 4096 {
        Some((addr / 4096) as u32)
    } else {
        Some((addr / 2048) as u32)
    }
}

/// Takes the frame of an address out of its slot, which was taken last.
fn empty_slot(board: &Board, seat: &mut Chair, geometry: &Geometry, addr: u64) -> Option<Frame>
    requires table { seat.old.table_id ≡ board.now.table }
    requires front { (f : Option Body) × (option_map (λ (g : Body). g.number) f ≡ frame_of geometry.now addr) × IsFirst f f seat.old.me.1 }
    ensures same { (seat.new.table_id ≡ seat.old.table_id) × (seat.new.id ≡ seat.old.id) }
    ensures told { (f : Option Body) → option_map (λ (g : Body). g.number) f ≡ frame_of geometry.now addr → IsFirst f f seat.old.me.1 → Emptied f seat.old.me result seat.new.me }
{
    match number_of(geometry, addr) {
        Some(number) => board.exchange(seat, number as usize, None),
        None => None,
    }
}

/// The next item of a Peek, with its frame. `position` is its count, and `base` the place of the ring's first word.
#[allow(clippy::too_many_arguments)]
pub(crate) fn fetch(
    board: &Board,
    seat: &mut Chair,
    geometry: &Geometry,
    who: u32,
    ring: Ring,
    position: u32,
    base: usize,
    mask: u32,
) -> Item
    requires table { (seat.old.table_id ≡ board.now.table) × (geometry.now ≡ board.now.setup.config.geometry) }
    requires size { (mask + 1 ≡ size_of board.now.setup.config ring) × IsRingSize (mask + 1) }
    requires base { (base ≡ ring_base board.now.setup.config ring) × (base + (32 + words_of_entry ring * (mask + 1)) ≤ board.now.table.words) × (base ≤ most_ring_words) }
    requires caller { (seat.old.me.0.callers ≡ who ∷ []) × HasRing board.now.setup.config ring × (who ≡ consumer board.now.setup.config ring) × (who < callers_of board.now.setup.config) }
    requires alone { seat.old.me.0.others ≡ [] }
    requires flight { (x : Thing) × (left : List Thing) × (seat.old.me.0.flight ≡ taking ring (x ∷ left)) }
    requires position { (count : ℕ) × (count + length (lying seat.old.me.0.flight) ≡ emptied (ask_for board.now.setup who ring 0) seat.old.me.0) × (position ≡ wrapped board.now.setup count) }
    ensures same { (seat.new.table_id ≡ seat.old.table_id) × (seat.new.id ≡ seat.old.id) }
    ensures told { (x : Thing) (left : List Thing) → seat.old.me.0.flight ≡ taking ring (x ∷ left) → TakenOut ring x left result seat.old.me seat.new.me }
{
    let word = entry_word(base, ring, position, mask);
    let addr = read_entry::<Brand>(board, seat, who, ring, word);
    let frame = empty_slot(board, seat, geometry, addr);
    let desc = read_desc(board, seat, who, ring, addr, word);
    Item { frame, desc }
}
