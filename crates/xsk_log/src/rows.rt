//! The rows of the log. One whose numbers are small is a number itself, and any other one stands apart. Which number
//! stands for which row is said in `specs/RowCodes`; only this file looks into a number.
ghost use Rattle.std.specs.Prelude.{◌≡◌, ◌≢◌, ℕ, ◌+◌, ◌<◌, ◌≤◌, ◌^◌, [], ◌∷◌, ◌++◌, Some, length, slice_get, vec_len, vec_capacity, IfSome, IsSome, OnOk};
ghost use Rattle.xsk_model.specs.MarkKinds.{number_of, index_of};
ghost use Rattle.xsk_log.specs.declared.log.Event.TheVariants.{Swapped, Looked};
ghost use Rattle.xsk_log.specs.RowCodes.{ring_at, ring_place, ring_event, event_at, items_with, look_number, row_with, row_at, small_row, IsSmall};
ghost use Rattle.xsk_log.specs.Repeats.{KeepsValues};

use crate::log::{Event, Row};
use std::alloc::Global;
use std::marker::Model;
use xsk_model::marks::MARK_KINDS;
use xsk_model::{Mark, MarkKind, Ring};
use xsk_umem::OutOfMemory;

/// The number of the first row that stands apart. Those below are small rows.
const APART: u32 = 1 << 31;

/// A number that is too large for a small row.
const LARGE: u64 = 64;

/// The number of the first swap. The 6 kinds of calls on the 4 kinds of rings stand before it.
const SWAPS: u32 = 24;

/// The number of the first look, behind a swap of each kind of mark.
const LOOKS: u32 = SWAPS + MARK_KINDS;

/// Rows in order. The rows for which room is reserved are a number of its own.
#[derive(Debug, Drop)]
pub(crate) struct Rows {
    codes: Vec<u32>,
    apart: Vec<Row>,
    /// The number of rows that the list may come to in the room that is reserved.
    limit: u64,
}

impl Model for Rows {
    ghost use Rattle.std.specs.Prelude.{◌+◌, ◌-◌, ◌≤◌, ◌^◌, length, vec_len, vec_capacity};
    ghost use Rattle.xsk_log.specs.Repeats.{AreBelow};
    ghost use Rattle.xsk_log.specs.RowCodes.{Rows as List, rows_at};

    ghost Value = { List };

    ghost view = { λ r. record { items = rows_at r.apart.items r.codes.items; spare = r.limit - vec_len r.codes } };

    ghost invariant = { λ r. AreBelow (2 ^ 31 + length r.apart.items) r.codes.items
        × (vec_len r.apart ≤ vec_len r.codes)
        × (vec_len r.codes ≤ r.limit)
        × (vec_len r.apart + (r.limit - vec_len r.codes) ≤ vec_capacity r.apart)
        × (r.limit ≤ vec_capacity r.codes)
        × (r.limit ≤ 2 ^ 31) };
}

impl Rows {
    /// No rows. It takes no memory.
    pub(crate) fn new(alloc: Global) -> Rows
        ensures { result ≡ record { items = []; spare = 0 } }
    {
        Rows {
            codes: Vec::new(alloc),
            apart: Vec::new(alloc),
            limit: 0,
        }
    }

    /// The number of rows.
    pub(crate) fn len(&self) -> u32
        ensures { result ≡ length self.now.items }
    {
        // For the proof, a read of a field tells what the type keeps: there are at most 2^31 rows.
        let _limit = self.limit;
        self.codes.len() as u32
    }

    /// Row `i`, counted from 0.
    pub(crate) fn get(&self, i: u32) -> Row
        requires { i < length self.now.items }
        ensures { slice_get self.now.items i ≡ Some result }
    {
        // For the proof, a read of a field tells what the type keeps: each number is small or that of a row that stands apart.
        let _limit = self.limit;
        let code = self.codes[i as usize];
        if code < APART {
            small_row_of(code)
        } else {
            self.apart[(code - APART) as usize]
        }
    }

    /// Makes room for at least so many further rows. The room never gets smaller by it.
    pub(crate) fn reserve(&mut self, extra: u64) -> Result<(), OutOfMemory>
        ensures items { self.new.items ≡ self.old.items }
        ensures room { OnOk result (extra ≤ self.new.spare) }
        ensures kept { self.old.spare ≤ self.new.spare }
        ensures few { OnOk result (length self.new.items + self.new.spare < 2 ^ 32) }
    {
        let len = self.codes.len() as u64;
        let extra = extra.max(self.limit - len);
        if extra > u64::from(APART) - len {
            return Err(OutOfMemory);
        }
        self.apart.reserve(extra as usize)?;
        self.codes.reserve(extra as usize)?;
        self.limit = len + extra;
        Ok(())
    }

    /// Appends a row in the room that is reserved.
    #[inline(always)]
    pub(crate) fn push_reserved(&mut self, row: &Row)
        requires { 1 ≤ self.old.spare }
        ensures items { self.new.items ≡ self.old.items ++ row.now ∷ [] }
        ensures spare { self.new.spare + 1 ≡ self.old.spare }
    {
        let code = number_of(&mut self.apart, row);
        self.codes.push_reserved(code);
    }
}

/// The number of a row, which is put apart if it isn't small.
#[inline(always)]
fn number_of(apart: &mut Vec<Row>, row: &Row) -> u32
    requires room { vec_len apart.old + 1 ≤ vec_capacity apart.old }
    requires few { vec_len apart.old < 2 ^ 31 }
    ensures row { row_at apart.new.items result ≡ row.now }
    ensures within { result < 2 ^ 31 + length apart.new.items }
    ensures small { IsSmall row.now → apart.new.items ≡ apart.old.items }
    ensures kept { KeepsValues apart.old.items apart.new.items }
    ensures len { vec_len apart.new ≤ vec_len apart.old + 1 }
    ensures capacity { vec_capacity apart.new ≡ vec_capacity apart.old }
{
    match code_of(row) {
        Some(code) => code,
        None => set_apart(apart, row),
    }
}

/// Puts a row apart, and tells its number. It is inlined, rare as it is, so that a small row needn't stand in memory.
#[inline(always)]
fn set_apart(apart: &mut Vec<Row>, row: &Row) -> u32
    requires room { vec_len apart.old + 1 ≤ vec_capacity apart.old }
    requires few { vec_len apart.old < 2 ^ 31 }
    ensures items { apart.new.items ≡ apart.old.items ++ row.now ∷ [] }
    ensures len { vec_len apart.new ≡ vec_len apart.old + 1 }
    ensures capacity { vec_capacity apart.new ≡ vec_capacity apart.old }
    ensures code { result ≡ 2 ^ 31 + length apart.old.items }
{
    let place = apart.len() as u32;
    apart.push_reserved(*row);
    APART + place
}

/// Which event a row has, on which kind of ring or mark, and its numbers.
#[derive(Clone, Copy)]
struct Digits {
    event: u32,
    place: u32,
    first: u64,
    second: u64,
}

/// The number of a row, exactly where it is small.
#[inline(always)]
fn code_of(row: &Row) -> Option<u32>
    ensures code { IfSome result (λ code. (code < 2 ^ 31) × (small_row code ≡ row.now)) }
    ensures small { IsSmall row.now → IsSome result }
{
    let digits = digits_of(row);
    if row.who >= 128 || digits.place >= 64 || digits.first >= LARGE || digits.second >= LARGE {
        return None;
    }
    let seat = digits.event * 128 + row.who;
    Some(((seat * 64 + digits.place) * 64 + digits.first as u32) * 64 + digits.second as u32)
}

#[inline(always)]
fn digits_of(row: &Row) -> Digits
    ensures event { result.event < 64 }
    ensures row { result.second < 64 → row_with row.now.who result.event result.place result.first result.second ≡ row.now }
    ensures small { IsSmall row.now → (result.place < 64) × (result.first < 64) × (result.second < 64) }
{
    let items = u64::from(row.items);
    match row.event {
        Event::Granted(ring, count) => of_ring(0, ring, count, items),
        Event::Submitted(ring) => of_ring(1, ring, 0, items),
        Event::Items(ring, count) => of_ring(2, ring, count, items),
        Event::Empty(ring, count) => of_ring(3, ring, count, items),
        Event::Released(ring, count) => of_ring(4, ring, count, items),
        Event::Full(ring, count, free) => {
            let free = unless_items(row.items, u64::from(free));
            of_ring(5, ring, count, free)
        }
        Event::Swapped(mark, value, old) => of_swap(mark, value, old, row.items),
        Event::Looked(mark, old) => of_look(mark, old, row.items),
    }
}

/// A number of a row that has no items, and a large one in its place where it has some.
#[inline(always)]
fn unless_items(items: u32, number: u64) -> u64
    ensures number { result < 64 → (items ≡ 0) × (result ≡ number) }
    ensures none { items ≡ 0 → result ≡ number }
{
    if items == 0 { number } else { LARGE }
}

/// Those of one of the six kinds of calls on a ring.
fn of_ring(kind: u32, ring: Ring, first: u32, second: u64) -> Digits
    requires { kind < 6 }
    ensures within { result.event < 24 }
    ensures event { event_at result.event result.place result.first result.second ≡ ring_event kind ring first second }
    ensures place { result.place ≡ ring_place ring }
    ensures numbers { (result.first ≡ first) × (result.second ≡ second) }
{
    let (side, place) = match ring {
        Ring::Fill(pair) => (0, pair),
        Ring::Comp(pair) => (1, pair),
        Ring::Rx(socket) => (2, socket),
        Ring::Tx(socket) => (3, socket),
    };
    Digits {
        event: kind * 4 + side,
        place,
        first: u64::from(first),
        second,
    }
}

/// Those of a swap. Of a cell only the first of a port is small.
fn of_swap(mark: Mark, value: u64, old: u64, items: u32) -> Digits
    ensures within { result.event < 64 }
    ensures event { result.second < 64 → (event_at result.event result.place result.first result.second ≡ Swapped mark value old) × (items ≡ 0) }
    ensures numbers { (result.place ≡ number_of mark) × (result.first ≡ value) }
    ensures second { index_of mark ≡ 0 → items ≡ 0 → result.second ≡ old }
{
    let second = if mark.index() == 0 {
        unless_items(items, old)
    } else {
        LARGE
    };
    Digits {
        event: SWAPS + mark.kind().row(),
        place: mark.number(),
        first: value,
        second,
    }
}

/// Those of a look. The second number is that of the items, but of a cell, which has none then, its index.
fn of_look(mark: Mark, old: u64, items: u32) -> Digits
    ensures within { result.event < 64 }
    ensures event { result.second < 64 → (event_at result.event result.place result.first result.second ≡ Looked mark old) × (items_with (Looked mark old) result.second ≡ items) }
    ensures numbers { (result.place ≡ number_of mark) × (result.first ≡ old) }
    ensures second { items_with (Looked mark old) (look_number mark items) ≡ items → result.second ≡ look_number mark items }
{
    let second = match mark {
        Mark::Cell(_, index) => unless_items(items, u64::from(index)),
        _ => u64::from(items),
    };
    Digits {
        event: LOOKS + mark.kind().row(),
        place: mark.number(),
        first: old,
        second,
    }
}

/// The small row of a number.
fn small_row_of(code: u32) -> Row
    ensures { result ≡ small_row code }
{
    let (code, second) = (code / 64, code % 64);
    let (code, first) = (code / 64, code % 64);
    let (code, place) = (code / 64, code % 64);
    let (event, who) = (code / 128, code % 128);
    let event = event_of(event, place, first, second);
    Row {
        who,
        event,
        items: items_of(event, second),
    }
}

/// The items of a small row: none where its event tells two numbers.
fn items_of(event: Event, second: u32) -> u32
    ensures { result ≡ items_with event second }
{
    match event {
        Event::Full(..) | Event::Swapped(..) | Event::Looked(Mark::Cell(..), _) => 0,
        _ => second,
    }
}

fn event_of(event: u32, place: u32, first: u32, second: u32) -> Event
    ensures { result ≡ event_at event place first second }
{
    if event < SWAPS {
        return ring_event_of(event / 4, ring_of(event % 4, place), first, second);
    }
    if event < LOOKS {
        let mark = Mark::of(MarkKind::at(event - SWAPS), place, 0);
        return Event::Swapped(mark, u64::from(first), u64::from(second));
    }
    let mark = Mark::of(MarkKind::at(event - LOOKS), place, second);
    Event::Looked(mark, u64::from(first))
}

fn ring_event_of(kind: u32, ring: Ring, first: u32, second: u32) -> Event
    ensures { result ≡ ring_event kind ring first second }
{
    match kind {
        0 => Event::Granted(ring, first),
        1 => Event::Submitted(ring),
        2 => Event::Items(ring, first),
        3 => Event::Empty(ring, first),
        4 => Event::Released(ring, first),
        _ => Event::Full(ring, first, second),
    }
}

fn ring_of(side: u32, place: u32) -> Ring
    ensures { result ≡ ring_at side place }
{
    match side {
        0 => Ring::Fill(place),
        1 => Ring::Comp(place),
        2 => Ring::Rx(place),
        _ => Ring::Tx(place),
    }
}
