//! The journal's line of an entry of the log, in a buffer of its own. The text is that of `specs/Line`, which journals
//! and audits speak of: it changes there first.
ghost use Rattle.std.specs.Prelude.{◌≡◌, ◌+◌, ◌*◌, ◌<◌, ◌≤◌, ◌++◌, length, take, sum_by, slice_get, Some, codes, []};
ghost use Rattle.std.specs.Fmt.{decimal};
ghost use Rattle.arrayvec.specs.ArrayString.{array_string_len};
ghost use Rattle.xsk_umem.specs.Limits.{most_items};
ghost use Rattle.xsk_log.specs.Pieces.{count_of};
ghost use Rattle.xsk_log.specs.Log.{calls_of, entries_of};
ghost use Rattle.xsk_log.specs.Rows.{event_text, items_from};
ghost use Rattle.xsk_log.specs.Line.{who_text, ring_text, mark_text, desc_text, items_text, IsLineAt};

use crate::log::{Event, Log, Row};
use arrayvec::ArrayString;
use itoa::Buffer;
use std::marker::Model;
use xsk_model::{Mark, Ring};
use xsk_umem::XdpDesc;

/// The room of a line. 32 items take 43 bytes each at most.
const ROOM: usize = 2048;

/// A line of at most 2,048 bytes, which lie in the value itself.
#[derive(Debug, Drop)]
pub struct LineBuffer {
    text: ArrayString<2048>,
}

impl Model for LineBuffer {
    ghost use Rattle.std.specs.Prelude.{ℕ, List};

    ghost Value = { List ℕ };

    ghost view = { λ b. b.text.bytes };
}

impl LineBuffer {
    /// An empty one.
    pub fn new() -> LineBuffer
        ensures { result ≡ [] }
    {
        LineBuffer {
            text: ArrayString::<ROOM>::new(),
        }
    }

    /// The line that was written last, with its line feed.
    pub fn bytes(&self) -> &[u8]
        ensures value { result.now ≡ self.now }
        ensures few { length result.now ≤ 2048 }
    {
        self.text.as_str().as_bytes()
    }
}

fn push_u32(line: &mut ArrayString<2048>, number: u32)
    requires { array_string_len line.old ≤ 2000 }
    ensures text { line.new.bytes ≡ line.old.bytes ++ decimal number }
    ensures room { array_string_len line.new ≤ array_string_len line.old + 10 }
{
    line.push_str(Buffer::new().format(number));
}

fn push_u64(line: &mut ArrayString<2048>, number: u64)
    requires { array_string_len line.old ≤ 2000 }
    ensures text { line.new.bytes ≡ line.old.bytes ++ decimal number }
    ensures room { array_string_len line.new ≤ array_string_len line.old + 20 }
{
    line.push_str(Buffer::new().format(number));
}

fn push_named(line: &mut ArrayString<2048>, name: &str, number: u32)
    requires room { array_string_len line.old ≤ 1950 }
    requires name { length name.now ≤ 10 }
    ensures text { line.new.bytes ≡ line.old.bytes ++ (name.now ++ decimal number) }
    ensures room { array_string_len line.new ≤ array_string_len line.old + 20 }
{
    line.push_str(name);
    push_u32(line, number);
}

/// The caller. There are so many pairs, whose drivers are the first callers.
fn push_who(line: &mut ArrayString<2048>, pairs: u32, who: u32)
    requires { array_string_len line.old ≤ 1000 }
    ensures text { line.new.bytes ≡ line.old.bytes ++ who_text pairs who }
    ensures room { array_string_len line.new ≤ array_string_len line.old + 20 }
{
    if who < pairs {
        push_named(line, "d", who);
    } else {
        push_named(line, "a", who - pairs);
    }
}

fn push_ring(line: &mut ArrayString<2048>, ring: Ring)
    requires { array_string_len line.old ≤ 1900 }
    ensures text { line.new.bytes ≡ line.old.bytes ++ ring_text ring }
    ensures room { array_string_len line.new ≤ array_string_len line.old + 20 }
{
    match ring {
        Ring::Fill(pair) => push_named(line, "fill.", pair),
        Ring::Comp(pair) => push_named(line, "comp.", pair),
        Ring::Rx(socket) => push_named(line, "rx.", socket),
        Ring::Tx(socket) => push_named(line, "tx.", socket),
    }
}

fn push_mark(line: &mut ArrayString<2048>, mark: Mark)
    requires { array_string_len line.old ≤ 1900 }
    ensures text { line.new.bytes ≡ line.old.bytes ++ mark_text mark }
    ensures room { array_string_len line.new ≤ array_string_len line.old + 40 }
{
    push_named(line, mark.kind().word(), mark.number());
    if let Mark::Cell(_, index) = mark {
        push_named(line, ".", index);
    }
}

/// A call on a ring, which asks for so many places or items.
fn push_counted(line: &mut ArrayString<2048>, name: &str, ring: Ring, count: u32)
    requires room { array_string_len line.old ≤ 1000 }
    requires name { length name.now ≤ 10 }
    ensures text { line.new.bytes ≡ line.old.bytes ++ (name.now ++ ring_text ring ++ codes " " ++ decimal count) }
    ensures room { array_string_len line.new ≤ array_string_len line.old + 50 }
{
    line.push_str(name);
    push_ring(line, ring);
    push_named(line, " ", count);
}

/// An item, behind a space: at most 43 bytes.
fn push_item(line: &mut ArrayString<2048>, desc: XdpDesc)
    requires { array_string_len line.old ≤ 1900 }
    ensures text { line.new.bytes ≡ line.old.bytes ++ (codes " " ++ desc_text desc) }
    ensures room { array_string_len line.new ≤ array_string_len line.old + 43 }
{
    line.push_str(" ");
    push_u64(line, desc.addr);
    line.push_str(":");
    push_u32(line, desc.len);
    line.push_str(":");
    push_u32(line, desc.options);
}

fn push_swap(line: &mut ArrayString<2048>, mark: Mark, value: u64, old: u64)
    requires { array_string_len line.old ≤ 1000 }
    ensures text { line.new.bytes ≡ line.old.bytes ++ (codes "swap " ++ mark_text mark ++ codes " " ++ decimal value ++ codes " -> " ++ decimal old) }
    ensures room { array_string_len line.new ≤ array_string_len line.old + 100 }
{
    line.push_str("swap ");
    push_mark(line, mark);
    line.push_str(" ");
    push_u64(line, value);
    line.push_str(" -> ");
    push_u64(line, old);
}

fn push_look(line: &mut ArrayString<2048>, mark: Mark, old: u64)
    requires { array_string_len line.old ≤ 1000 }
    ensures text { line.new.bytes ≡ line.old.bytes ++ (codes "look " ++ mark_text mark ++ codes " -> " ++ decimal old) }
    ensures room { array_string_len line.new ≤ array_string_len line.old + 100 }
{
    line.push_str("look ");
    push_mark(line, mark);
    line.push_str(" -> ");
    push_u64(line, old);
}

impl Log {
    /// Where the items of a row begin.
    fn start_of(&self, i: u32) -> u32
        requires { i ≤ calls_of self.now }
        ensures { result ≡ sum_by count_of (take i self.now.rows.items) }
    {
        // For the proof, a read of a field tells what the type keeps: the items of all rows together are a number of 32 bits.
        let _begun = self.begun;
        let mut start = 0;
        for k in 0..i {
            start += self.rows.get(k).items;
        }
        start
    }

    /// The items of a row, at most 32.
    fn push_items(&self, line: &mut ArrayString<2048>, start: u32, count: u32)
        requires within { start + count ≤ length self.now.pieces.items }
        requires few { count ≤ most_items }
        requires room { array_string_len line.old ≤ 500 }
        ensures text { line.new.bytes ≡ line.old.bytes ++ items_text (items_from self.now start count) }
        ensures room { array_string_len line.new ≤ array_string_len line.old + 43 * count }
    {
        // For the proof: how many pieces there are is a number of 32 bits.
        let _pieces = self.pieces.len();
        for k in 0..count {
            let piece = self.pieces.get(start + k);
            push_item(line, piece.desc);
        }
    }

    fn push_submit(&self, line: &mut ArrayString<2048>, start: u32, row: &Row, ring: Ring)
        requires within { start + row.now.items ≤ length self.now.pieces.items }
        requires few { row.now.items ≤ most_items }
        requires room { array_string_len line.old ≤ 100 }
        ensures text { line.new.bytes ≡ line.old.bytes ++ (codes "submit " ++ ring_text ring ++ items_text (items_from self.now start row.now.items) ++ codes " -> " ++ codes "submitted") }
        ensures room { array_string_len line.new ≤ array_string_len line.old + 1500 }
    {
        line.push_str("submit ");
        push_ring(line, ring);
        self.push_items(line, start, row.items);
        line.push_str(" -> ");
        line.push_str("submitted");
    }

    fn push_peek(&self, line: &mut ArrayString<2048>, start: u32, row: &Row, ring: Ring, count: u32)
        requires within { start + row.now.items ≤ length self.now.pieces.items }
        requires few { row.now.items ≤ most_items }
        requires room { array_string_len line.old ≤ 100 }
        ensures text { line.new.bytes ≡ line.old.bytes ++ (codes "peek " ++ ring_text ring ++ codes " " ++ decimal count ++ codes " -> " ++ (codes "items" ++ items_text (items_from self.now start row.now.items))) }
        ensures room { array_string_len line.new ≤ array_string_len line.old + 1500 }
    {
        push_counted(line, "peek ", ring, count);
        line.push_str(" -> ");
        line.push_str("items");
        self.push_items(line, start, row.items);
    }

    /// The call and its reply.
    fn push_event(&self, line: &mut ArrayString<2048>, start: u32, row: &Row)
        requires within { start + row.now.items ≤ length self.now.pieces.items }
        requires few { row.now.items ≤ most_items }
        requires room { array_string_len line.old ≤ 100 }
        ensures text { line.new.bytes ≡ line.old.bytes ++ event_text row.now.event (items_from self.now start row.now.items) }
        ensures room { array_string_len line.new ≤ array_string_len line.old + 1500 }
    {
        match row.event {
            Event::Granted(ring, count) => {
                push_counted(line, "reserve ", ring, count);
                line.push_str(" -> ");
                line.push_str("granted");
            }
            Event::Full(ring, count, free) => {
                push_counted(line, "reserve ", ring, count);
                line.push_str(" -> ");
                push_named(line, "full ", free);
            }
            Event::Submitted(ring) => self.push_submit(line, start, row, ring),
            Event::Items(ring, count) => self.push_peek(line, start, row, ring, count),
            Event::Empty(ring, count) => {
                push_counted(line, "peek ", ring, count);
                line.push_str(" -> ");
                line.push_str("empty");
            }
            Event::Released(ring, count) => {
                push_counted(line, "release ", ring, count);
                line.push_str(" -> ");
                line.push_str("released");
            }
            Event::Swapped(mark, value, old) => push_swap(line, mark, value, old),
            Event::Looked(mark, old) => push_look(line, mark, old),
        }
    }

    /// Puts the line of a row, whose items begin at this place, in the buffer.
    pub(crate) fn write_row(&self, pairs: u32, i: u32, start: u32, out: &mut LineBuffer)
        requires row { i < calls_of self.now }
        requires start { start ≡ sum_by count_of (take i self.now.rows.items) }
        ensures { IsLineAt pairs (entries_of self.now) i out.new }
    {
        let row = self.rows.get(i);
        let line = &mut out.text;
        line.clear();
        push_who(line, pairs, row.who);
        line.push_str(" ");
        self.push_event(line, start, &row);
        line.push_str("\n");
    }

    /// Puts the line of an entry, with its line feed, in place of what the buffer held:
    /// `<who> <call> -> <reply>`, where drivers are `d<number>` and applications `a<number>`. There are so many pairs, whose
    /// drivers are the first callers. It takes no memory, and time for all entries before this one: `lines` goes over the log in
    /// time of its own.
    pub fn write_line(&self, pairs: u32, i: u32, out: &mut LineBuffer)
        requires { i < calls_of self.now }
        ensures { IsLineAt pairs (entries_of self.now) i out.new }
    {
        self.write_row(pairs, i, self.start_of(i), out);
    }
}
