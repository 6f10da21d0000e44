//! The log of all calls and replies, with payloads in place of frames. Room is reserved before calls are made, and
//! neither `keep`, `note` nor `enter` takes memory: the ghost fields tie rows, pieces and bytes to the room that is
//! left.
ghost use Rattle.std.specs.Prelude.{◌≡◌, Some, slice_get, ◌+◌, ◌*◌, ◌<◌, ◌≤◌, ◌^◌, ◌↔◌, [], length, sum_by, vec_len, vec_capacity, All, IsTrue, OnOk};
ghost use Rattle.xsk_umem.specs.Limits.{most_items};
ghost use Rattle.xsk_log.specs.Pieces.{IsPieceIn, IsShort, count_of};
ghost use Rattle.xsk_log.specs.declared.log.Piece.{Piece as APiece};
ghost use Rattle.xsk_log.specs.Extents.{at_extent, IsWithin};

use crate::repeats::{Repeated, Repeats};
use crate::rows::Rows;
use std::alloc::Global;
use xsk_model::{Mark, Ring};
use xsk_umem::{MOST_ITEMS, OutOfMemory, XdpDesc};

/// The entries and the payload bytes for which room is made at first, beside what is asked for. What isn't used takes
/// addresses alone, and a list that needn't grow leaves no holes behind.
const FIRST_ENTRIES: u32 = 32_768;

const FIRST_BYTES: u64 = 33_554_432;

/// Those for which it is made later, each time that room is wanting.
const NEXT_ENTRIES: u32 = 1_024;

const NEXT_BYTES: u64 = 1_048_576;

/// How many frames have the place of their last payload known.
const KEPT: usize = 1_024;

/// How many frames have places of their own where a piece is looked for when it comes again.
const FRAMES: u64 = 4_096;

/// The payload of an item among the log's bytes: where it starts, and how many they are.
#[derive(Clone, Copy, Debug, Default, PartialEq, Eq)]
pub struct Extent {
    pub start: usize,
    pub len: usize,
}

/// An item of a call or a reply: the number of its frame, its descriptor and its payload.
#[derive(Clone, Copy, Debug, PartialEq, Eq)]
pub struct Piece {
    pub frame: Option<u32>,
    pub desc: XdpDesc,
    pub payload: Extent,
}

/// A call with its reply. The items of a Submit and of a Peek's reply are those that were noted for the entry.
#[derive(Clone, Copy, Debug)]
pub enum Event {
    Granted(Ring, u32),
    Full(Ring, u32, u32),
    Submitted(Ring),
    Items(Ring, u32),
    Empty(Ring, u32),
    Released(Ring, u32),
    Swapped(Mark, u64, u64),
    Looked(Mark, u64),
}

/// A call with its caller and reply, and the number of its items, which are the next pieces.
#[derive(Clone, Copy, Debug)]
pub(crate) struct Row {
    pub(crate) who: u32,
    pub(crate) event: Event,
    pub(crate) items: u32,
}

impl Repeated for Piece {
    fn is(&self, other: &Piece) -> bool
        ensures { IsTrue result ↔ (self.now ≡ other.now) }
    {
        *self == *other
    }

    /// Each frame has two numbers for its pieces without a payload, which are told apart by the part of the frame where they
    /// begin, and four for those with one, by their length as well.
    fn key(&self) -> u64 {
        let frame = match self.frame {
            Some(frame) => u64::from(frame) % FRAMES,
            None => 0,
        };
        let begin = self.desc.addr / 256 % 2;
        let len = u64::from(self.desc.len) % 4;
        if self.payload.len == 0 {
            2 * frame + begin
        } else {
            2 * FRAMES + 4 * frame + (len + 2 * begin) % 4
        }
    }
}

/// All calls on an object with their callers and replies, in order: frames by their numbers, with descriptors and
/// payloads. A row takes four bytes where its numbers are small. Pieces that come again are kept once. A payload is kept once
/// while a frame's stays the same, and so is one with which all that is kept begins.
#[derive(Debug, Drop)]
pub struct Log {
    pub(crate) rows: Rows,
    /// The items of all rows, in order.
    pub(crate) pieces: Repeats<Piece>,
    bytes: Vec<u8>,
    /// Where the payload starts that was kept last for a frame, by its number modulo 1,024.
    kept: [usize; KEPT],
    /// The number of pieces of all rows.
    pub(crate) begun: u32,
    spare_entries: u32,
    spare_bytes: u64,
    ghost rows_room: { spare_entries ≤ rows.spare },
    ghost rows_few: { length rows.items + spare_entries < 2 ^ 32 },
    ghost pieces_room: { begun + 32 * spare_entries ≤ length pieces.items + pieces.spare },
    ghost begun_within: { begun ≤ length pieces.items },
    ghost rows_short: { All IsShort rows.items },
    ghost begun_is: { sum_by count_of rows.items ≡ begun },
    ghost bytes_room: { vec_len bytes + spare_bytes ≤ vec_capacity bytes },
    ghost pieces_in: { All (IsPieceIn bytes.items) pieces.items },
}

impl Log {
    ghost use Rattle.xsk_log.specs.Log.{calls_of, entries_of, noted_in, notes_of, entry_room, byte_room, KeepsLog, KeepsPayload, NotesPiece, EndsEntry};

    /// No entries, no items and no room. It takes no memory.
    pub fn new(alloc: Global) -> Log
        ensures entries { entries_of result ≡ [] }
        ensures calls { calls_of result ≡ 0 }
        ensures noted { noted_in result ≡ [] }
        ensures notes { notes_of result ≡ record { bytes = []; values = [] } }
        ensures room { (entry_room result ≡ 0) × (byte_room result ≡ 0) }
    {
        Log {
            rows: Rows::new(alloc),
            pieces: Repeats::new(alloc),
            bytes: Vec::new(alloc),
            kept: [0; KEPT],
            begun: 0,
            spare_entries: 0,
            spare_bytes: 0,
        }
    }

    /// The number of entries.
    pub fn len(&self) -> u32
        ensures { result ≡ calls_of self.now }
    {
        self.rows.len()
    }

    /// Makes room for at least so many further entries and bytes of payloads, if there isn't. The entries stay as they
    /// are.
    #[inline(always)]
    pub fn reserve(&mut self, entries: u32, bytes: u32) -> Result<(), OutOfMemory>
        ensures log { KeepsLog self.old self.new }
        ensures entries { OnOk result (entries ≤ entry_room self.new) }
        ensures bytes { OnOk result (bytes ≤ byte_room self.new) }
        ensures kept { (entry_room self.old ≤ entry_room self.new) × (byte_room self.old ≤ byte_room self.new) }
    {
        let bytes = u64::from(bytes);
        if entries <= self.spare_entries && bytes <= self.spare_bytes {
            return Ok(());
        }
        self.reserve_more(entries, bytes)
    }

    /// Makes room for so many further entries and bytes of payloads, and for a portion more.
    #[inline(never)]
    fn reserve_more(&mut self, entries: u32, bytes: u64) -> Result<(), OutOfMemory>
        ensures log { KeepsLog self.old self.new }
        ensures entries { OnOk result (entries ≤ entry_room self.new) }
        ensures bytes { OnOk result (bytes ≤ byte_room self.new) }
        ensures kept { (entry_room self.old ≤ entry_room self.new) × (byte_room self.old ≤ byte_room self.new) }
    {
        let (most_entries, most_bytes) = if self.rows.len() == 0 {
            (FIRST_ENTRIES, FIRST_BYTES)
        } else {
            (NEXT_ENTRIES, NEXT_BYTES)
        };
        let entries = entries.saturating_add(most_entries).max(self.spare_entries);
        let bytes = bytes.saturating_add(most_bytes).max(self.spare_bytes);
        self.make_room(entries, bytes)
    }

    /// Makes room for exactly so many further entries and bytes of payloads, which are no fewer than those there are.
    fn make_room(&mut self, entries: u32, bytes: u64) -> Result<(), OutOfMemory>
        requires entries { entry_room self.old ≤ entries }
        requires bytes { byte_room self.old ≤ bytes }
        ensures log { KeepsLog self.old self.new }
        ensures entries { OnOk result (entry_room self.new ≡ entries) }
        ensures bytes { OnOk result (byte_room self.new ≡ bytes) }
        ensures kept { (entry_room self.old ≤ entry_room self.new) × (byte_room self.old ≤ byte_room self.new) }
    {
        self.rows.reserve(u64::from(entries))?;
        self.pieces
            .reserve(u64::from(MOST_ITEMS) * u64::from(entries))?;
        self.bytes.reserve(bytes as usize)?;
        self.spare_entries = entries;
        self.spare_bytes = bytes;
        Ok(())
    }

    /// Keeps the payload of an item of a frame that is submitted, and tells where it stands: where bytes like it stood, if
    /// they begin where the payload begins that was kept last for the frame, or the first of all. There must be room for its
    /// bytes.
    pub fn keep(&mut self, frame: u32, payload: &[u8]) -> Extent
        requires { length payload.now ≤ byte_room self.old }
        ensures { KeepsPayload self.old self.new payload.now result }
    {
        let len = payload.len();
        self.spare_bytes -= len as u64;
        if len == 0 {
            return Extent::default();
        }
        let slot = frame as usize % KEPT;
        let start = self.kept[slot];
        let last = Extent { start, len };
        if shows(self.bytes.as_slice(), last, payload) {
            return last;
        }
        let first = Extent { start: 0, len };
        if shows(self.bytes.as_slice(), first, payload) {
            return first;
        }
        let start = self.bytes.len();
        self.bytes.extend_from_slice(payload).unwrap();
        self.kept[slot] = start;
        Extent { start, len }
    }

    /// Adds an item to the entry that is being made, and tells the place of its piece. An entry has at most 32 items, there must
    /// be room for one, and the payload must stand among the bytes that are kept.
    #[inline(always)]
    pub fn note(&mut self, piece: Piece) -> u32
        requires spare { 1 ≤ entry_room self.old }
        requires few { length (noted_in self.old) < most_items }
        requires payload { IsPieceIn (notes_of self.old).bytes piece }
        ensures notes { NotesPiece self.old self.new piece }
        ensures place { slice_get (notes_of self.new).values result ≡ Some piece }
    {
        self.pieces.push_reserved(&piece)
    }

    /// Adds an item whose piece was noted before, at this place.
    #[inline(always)]
    pub fn note_again(&mut self, place: u32)
        requires spare { 1 ≤ entry_room self.old }
        requires few { length (noted_in self.old) < most_items }
        requires noted { (piece : APiece) × (slice_get (notes_of self.old).values place ≡ Some piece) × IsPieceIn (notes_of self.old).bytes piece }
        ensures { (piece : APiece) → slice_get (notes_of self.old).values place ≡ Some piece → NotesPiece self.old self.new piece }
    {
        self.pieces.push_place(place);
    }

    /// Ends the entry that is being made, with its caller, its call and reply, and the items that were noted for it, so many.
    #[inline(always)]
    pub fn enter(&mut self, who: u32, event: Event, items: u32)
        requires spare { 1 ≤ entry_room self.old }
        requires few { items ≤ most_items }
        requires items { length (noted_in self.old) ≡ items }
        ensures { EndsEntry self.old self.new who event }
    {
        self.rows.push_reserved(&Row { who, event, items });
        self.spare_entries -= 1;
        if items > 0 {
            self.begun = self.pieces.len();
        }
    }
}

/// Whether an extent lies within the bytes and shows the payload.
fn shows(bytes: &[u8], extent: Extent, payload: &[u8]) -> bool
    ensures { IsTrue result → IsWithin bytes.now extent × (at_extent bytes.now extent ≡ payload.now) }
{
    if extent.start > bytes.len() || extent.len > bytes.len() - extent.start {
        return false;
    }
    &bytes[extent.start..extent.start + extent.len] == payload
}
