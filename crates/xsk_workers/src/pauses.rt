//! Pauses of who waits for others: it spins, yields, and sleeps for a while. It wakes by itself. No contract says how long a pause is:
//! each number is measured (`docs/PERFORMANCE.md`).

use std::sync::Wait;
use std::thread::Parker;
use std::time::Duration;
use std::{hint, thread};

/// How many pauses spin twice as often each time, from once to 64 times; later ones spin as often as the last of these.
const DOUBLINGS: u32 = 6;

/// How many pauses spin or yield before the first that sleeps, all together for some 40 to 500 microseconds: of who has a processor, of
/// who spins as long again between them, and of who shares one.
const LONG: u32 = 128;

const BETWEEN: u32 = 16;

const SHARED: u32 = 256;

/// How many microseconds a pause sleeps. The system adds some 50.
const NAP: u64 = 5;

/// Pauses of who waits: the first ones spin, on a processor that others share the next ones yield, and from there on each sleeps for a
/// while. Where strangers want the processor too, who yields waits for a slice of theirs, and who has slept mostly goes on at once. It
/// wakes by itself, so nobody owes it a token.
#[derive(Drop)]
pub(crate) struct Pauses {
    made: u32,
    spinning: u32,
    awake: u32,
    bed: Parker,
}

impl Pauses {
    /// Those on a processor of one's own.
    pub(crate) fn long() -> Pauses {
        Pauses::new(LONG, LONG)
    }

    /// Those on a processor of one's own, of who spins between them.
    pub(crate) fn between() -> Pauses {
        Pauses::new(BETWEEN, BETWEEN)
    }

    /// Those on a processor that others share.
    pub(crate) fn shared() -> Pauses {
        Pauses::new(DOUBLINGS + 1, SHARED)
    }

    fn new(spinning: u32, awake: u32) -> Pauses {
        Pauses {
            made: 0,
            spinning,
            awake,
            bed: Parker::new(),
        }
    }

    /// Begins anew.
    pub(crate) fn reset(&mut self) {
        self.made = 0;
    }

    /// Whether it has spun for as long as on a processor that others share.
    pub(crate) fn has_spun(&self) -> bool {
        self.made > DOUBLINGS
    }

    /// Makes the next pause.
    pub(crate) fn pause<R: Wait>(&mut self, rt: &R) {
        if self.made >= self.awake {
            self.bed.park_timeout(rt, Duration::from_micros(NAP));
            return;
        }
        if self.made < self.spinning {
            spin(1 << self.made.min(DOUBLINGS));
        } else {
            thread::yield_now();
        }
        self.made += 1;
    }
}

/// Spins so often.
pub(crate) fn spin(times: u32) {
    for _ in 0..times {
        hint::spin_loop();
    }
}
