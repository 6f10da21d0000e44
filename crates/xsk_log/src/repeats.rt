//! Lists in which many values are equal, so that each value is kept once and the list has its place. To all others it is
//! a list (`specs/Repeats`): that equal values share a place is seen nowhere.
ghost use Rattle.std.specs.Prelude.{◌≡◌, ◌+◌, ◌≤◌, ◌↔◌, ◌^◌, ◌<◌, [], ◌∷◌, ◌++◌, Some, length, slice_get, vec_len, vec_capacity, IsTrue, OnOk};
ghost use Rattle.xsk_log.specs.Repeats.{KeepsValues, of_option};

use std::alloc::Global;
use std::marker::Model;
use xsk_umem::OutOfMemory;

/// How many values are looked for when one comes again.
const RECENT: usize = 24_576;

/// A value that may come again.
pub(crate) trait Repeated: Copy + Drop {
    /// Whether both are equal.
    fn is(&self, other: &Self) -> bool
        ensures { IsTrue result ↔ (self.now ≡ other.now) };

    /// A number of the value. One is found again as long as no other came whose number is the same modulo 24,576.
    fn key(&self) -> u64;
}

/// A list of values. The values for which room is reserved are a number of its own.
#[derive(Debug, Drop)]
pub(crate) struct Repeats<T> {
    values: Vec<T>,
    /// For each value of the list its place among the values that are kept.
    places: Vec<u32>,
    /// The place of the value that came last, by its number modulo 24,576. There are none before room was made.
    recent: Vec<u32>,
    /// The number of values that the list may come to in the room that is reserved.
    limit: u64,
}

impl<T> Model for Repeats<T> {
    ghost use Rattle.std.specs.Prelude.{◌+◌, ◌-◌, ◌<◌, ◌≤◌, ◌^◌, length, vec_len, vec_capacity};
    ghost use Rattle.xsk_log.specs.Repeats.{Repeats as List, values_at, AreBelow};

    ghost Value = { List T };

    ghost view = { λ r. record { values = r.values.items; items = values_at r.values.items r.places.items; spare = r.limit - vec_len r.places } };

    ghost invariant = { λ r. AreBelow (length r.values.items) r.places.items
        × (vec_len r.values ≤ vec_len r.places)
        × (vec_len r.places ≤ r.limit)
        × (vec_len r.values + (r.limit - vec_len r.places) ≤ vec_capacity r.values)
        × (r.limit ≤ vec_capacity r.places)
        × (r.limit < 2 ^ 32) };
}

impl<T: Repeated> Repeats<T> {
    /// An empty list. It takes no memory.
    pub(crate) fn new(alloc: Global) -> Repeats<T>
        ensures { result ≡ record { values = []; items = []; spare = 0 } }
    {
        Repeats {
            values: Vec::new(alloc),
            places: Vec::new(alloc),
            recent: Vec::new(alloc),
            limit: 0,
        }
    }

    /// The number of values.
    pub(crate) fn len(&self) -> u32
        ensures { result ≡ length self.now.items }
    {
        // For the proof, a read of a field tells what the type keeps: there are fewer than 2^32 places.
        let _limit = self.limit;
        self.places.len() as u32
    }

    /// The value at a place.
    pub(crate) fn get(&self, i: u32) -> &T
        requires { i < length self.now.items }
        ensures { slice_get self.now.items i ≡ Some result.now }
    {
        // For the proof, a read of a field tells what the type keeps: each place is that of a value.
        let _limit = self.limit;
        &self.values[self.places[i as usize] as usize]
    }

    /// Makes room for at least so many further values. The room never gets smaller by it.
    pub(crate) fn reserve(&mut self, extra: u64) -> Result<(), OutOfMemory>
        ensures values { self.new.values ≡ self.old.values }
        ensures items { self.new.items ≡ self.old.items }
        ensures room { OnOk result (extra ≤ self.new.spare) }
        ensures kept { self.old.spare ≤ self.new.spare }
        ensures few { OnOk result (length self.new.items + self.new.spare < 2 ^ 32) }
    {
        let len = self.places.len() as u64;
        let extra = extra.max(self.limit - len);
        if extra > u64::from(u32::MAX) - len {
            return Err(OutOfMemory);
        }
        self.recent.resize(RECENT, 0)?;
        self.values.reserve(extra as usize)?;
        self.places.reserve(extra as usize)?;
        self.limit = len + extra;
        Ok(())
    }

    /// Appends a value in the room that is reserved, and tells its place among the values that are kept.
    #[inline(always)]
    pub(crate) fn push_reserved(&mut self, value: &T) -> u32
        requires { 1 ≤ self.old.spare }
        ensures items { self.new.items ≡ self.old.items ++ value.now ∷ [] }
        ensures place { slice_get self.new.values result ≡ Some value.now }
        ensures kept { KeepsValues self.old.values self.new.values }
        ensures spare { self.new.spare + 1 ≡ self.old.spare }
    {
        let place = place_of(&mut self.values, self.recent.as_mut_slice(), value);
        self.places.push_reserved(place);
        place
    }

    /// Appends the value that is kept at a place, in the room that is reserved.
    #[inline(always)]
    pub(crate) fn push_place(&mut self, place: u32)
        requires spare { 1 ≤ self.old.spare }
        requires known { place < length self.old.values }
        ensures items { self.new.items ≡ self.old.items ++ of_option (slice_get self.old.values place) }
        ensures values { self.new.values ≡ self.old.values }
        ensures spare { self.new.spare + 1 ≡ self.old.spare }
    {
        self.places.push_reserved(place);
    }
}

/// The place of a value: where an equal one came of late, or that of a new one, for which there must be room.
#[inline(always)]
fn place_of<T: Repeated>(values: &mut Vec<T>, recent: &mut [u32], value: &T) -> u32
    requires room { vec_len values.old + 1 ≤ vec_capacity values.old }
    requires few { vec_len values.old < 2 ^ 32 }
    ensures shown { slice_get values.new.items result ≡ Some value.now }
    ensures kept { KeepsValues values.old.items values.new.items }
    ensures len { vec_len values.new ≤ vec_len values.old + 1 }
    ensures capacity { vec_capacity values.new ≡ vec_capacity values.old }
{
    let slot = (value.key() % RECENT as u64) as usize;
    if let Some(found) = recent.get(slot)
        && holds(values.as_slice(), *found, value)
    {
        return *found;
    }
    let place = values.len() as u32;
    values.push_reserved(*value);
    if let Some(last) = recent.get_mut(slot) {
        *last = place;
    }
    place
}

/// Whether a value stands at a place, which needn't exist.
#[inline(always)]
fn holds<T: Repeated>(values: &[T], place: u32, value: &T) -> bool
    ensures { IsTrue result → slice_get values.now place ≡ Some value.now }
{
    match values.get(place as usize) {
        Some(other) => other.is(value),
        None => false,
    }
}
