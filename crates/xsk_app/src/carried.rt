//! What an application keeps between its steps, with room for what its machine has beside that.
ghost use Rattle.std.specs.Prelude.{◌≡◌, ◌≤◌, [], length, vec_capacity};

use crate::back::Back;
use crate::machine::Way;
use std::alloc::Global;
use xsk_umem::{Batch, OutOfMemory};

/// The most lanes of an application: two sides of four classes each.
const MOST_LANES: usize = 8;

/// What an application keeps between its steps: for each lane the items that it has yet to pass on, for each side the frames
/// that it has yet to give back, and whether the side's driver told that it has no further packet. It has all memory that its
/// application needs.
#[derive(Drop)]
pub struct Carried {
    pub pending: Vec<Batch>,
    pub backs: Vec<Back>,
    pub seen: [bool; 2],
    pub(crate) room: Room,
    ghost sides: { length backs.items ≡ 2 },
}

/// An empty list with room for the lanes.
#[derive(Drop)]
pub(crate) struct Room {
    pub(crate) ways: Vec<Way>,
    ghost no_way: { ways.items ≡ [] },
    ghost for_ways: { 8 ≤ vec_capacity ways },
}

impl Room {
    pub(crate) fn new(alloc: Global) -> Result<Room, OutOfMemory> {
        Ok(Room {
            ways: Vec::with_capacity(alloc, MOST_LANES)?,
        })
    }
}
