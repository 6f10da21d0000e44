//! How long a worker waits behind a turn that moved nothing. No contract says it: each number is measured (`docs/PERFORMANCE.md`).

use crate::pauses::{Pauses, spin};
use std::sync::Wait;
use std::thread;
use std::thread::Threads;
use xsk_table::Shared;

/// How often a patient application spins before a pause: some 4 microseconds, and up to 20 on a processor that pauses for longer.
const SPINS: u32 = 512;

/// How many frames of a queue it doesn't spin for behind a Submit of few items, those of one batch, and how often it spins for
/// each of the others.
const HELD_FRAMES: u32 = 32;

const SPINS_PER_FRAME: u32 = 4;

/// How long a worker waits behind turns that moved nothing. What an application finds then is more at once, and it takes lines
/// from the processors of the drivers less often.
#[derive(Clone, Copy)]
pub(crate) enum Patience {
    /// Behind three such turns it pauses: where each worker has a processor for longer than where they share them.
    Short { has_own: bool },
    /// It pauses as who shares a processor.
    Yielding,
    /// It spins and pauses; and behind a Submit of fewer items than a batch may have it spins so often.
    Long { batch: u32, behind_few: u32 },
}

impl Patience {
    /// That of a caller: a driver's is short, and so is an application's on one processor. It is long where each worker has a
    /// processor.
    pub(crate) fn of_caller<R: Threads>(rt: &R, shared: &Shared, caller: u32) -> Patience {
        let config = shared.config();
        let count = processors(rt);
        let has_own = count >= config.callers() as usize;
        if (caller as usize) < config.pairs().len() || count == 1 {
            return Patience::Short { has_own };
        }
        if !has_own {
            return Patience::Yielding;
        }
        Patience::Long {
            batch: config.batch(),
            behind_few: spins_behind_few(config.pool()),
        }
    }

    /// Behind how many turns that moved nothing it waits: one, and a driver behind three, as its look at the map and its peeks
    /// of FILL and TX come between the calls by which it moves packets.
    fn turns(self) -> u32 {
        match self {
            Patience::Short { .. } => 3,
            Patience::Yielding | Patience::Long { .. } => 1,
        }
    }

    /// The pauses that it makes.
    fn pauses(self) -> Pauses {
        match self {
            Patience::Short { has_own: true } => Pauses::long(),
            Patience::Long { .. } => Pauses::between(),
            Patience::Short { has_own: false } | Patience::Yielding => Pauses::shared(),
        }
    }

    /// Waits.
    fn wait<R: Wait>(self, rt: &R, pauses: &mut Pauses) {
        if let Patience::Long { .. } = self {
            spin(SPINS);
        }
        pauses.pause(rt);
    }

    /// Waits behind a Submit of so many items.
    fn wait_behind(self, count: u32) {
        match self {
            Patience::Long { batch, behind_few } if count < batch => spin(behind_few),
            _ => {}
        }
    }
}

/// The waits of a worker.
#[derive(Drop)]
pub(crate) struct Waiting {
    patience: Patience,
    pauses: Pauses,
    /// How many turns in a row moved nothing since it waited last.
    idle: u32,
}

impl Waiting {
    /// It hasn't waited yet.
    pub(crate) fn new(patience: Patience) -> Waiting {
        Waiting {
            patience,
            pauses: patience.pauses(),
            idle: 0,
        }
    }

    /// Waits behind a turn that moved nothing, where there were enough of them.
    pub(crate) fn wait<R: Wait>(&mut self, rt: &R) {
        self.idle = self.idle.saturating_add(1);
        if self.idle >= self.patience.turns() {
            self.idle = 0;
            self.patience.wait(rt, &mut self.pauses);
        }
    }

    /// Begins anew behind a turn that moved something.
    pub(crate) fn end(&mut self) {
        self.idle = 0;
        self.pauses.reset();
    }

    /// Begins anew behind a Submit of so many items, and waits where they are few.
    #[inline(always)]
    pub(crate) fn end_with(&mut self, count: u32) {
        self.end();
        self.patience.wait_behind(count);
    }

    /// The pauses of a worker that is parked.
    pub(crate) fn pauses(&mut self) -> &mut Pauses {
        &mut self.pauses
    }
}

/// The number of processors, and 1 where it isn't known.
fn processors<R: Threads>(rt: &R) -> usize {
    match thread::available_parallelism(rt) {
        Ok(processors) => processors.get(),
        Err(_) => 1,
    }
}

/// How often a patient application spins behind a Submit of few items, where each queue has so many frames: the fewer they are,
/// the sooner a driver waits for them.
fn spins_behind_few(pool: u32) -> u32 {
    pool.saturating_sub(HELD_FRAMES)
        .saturating_mul(SPINS_PER_FRAME)
        .min(SPINS)
}
