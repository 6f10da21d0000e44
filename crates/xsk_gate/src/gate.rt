//! What each worker on a thread of its own passes before each of its turns.
ghost use Rattle.std.specs.Prelude.{◌≡◌, ◌≢◌, ◌≤◌, ◌^◌, nat_lt, false, if◌then◌else◌};
ghost use Rattle.xsk_gate.specs.Gates.{most_looks};

use std::marker::Model;
use std::sync::atomic::{AtomicU64, Ordering};
use std::thread;

/// The most looks, with a yield after each, for which a gate holds a worker, where it isn't made with another number.
const MOST_LOOKS: u32 = 1_000_000;

/// The turn of another worker that ends the wait of a worker that is held.
const LATE_TURN: u64 = 1_000;

/// What each worker passes before each of its turns, which are counted from 0.
pub trait Gate {
    /// Lets the worker through, after a while at most.
    fn enter(&self, worker: u32, turn: u64);
}

/// The gate that holds no one.
#[derive(Drop)]
pub struct Open;

impl Gate for Open {
    fn enter(&self, _worker: u32, _turn: u64) {}
}

/// It holds each of two workers in its first turn until the other has entered, for 1,000,000 looks at most or for another number of
/// them. Contracts see the numbers of the two, and the looks.
#[derive(Drop)]
pub struct PairGate {
    first: u32,
    second: u32,
    looks: u32,
    /// A bit for each of the first 64 workers that entered.
    entered: AtomicU64,
    limit: AtomicU64,
}

impl Model for PairGate {
    ghost use Rattle.xsk_gate.specs.Gates.{Pair};

    ghost Value = { Pair };

    ghost view = { λ g. record { first = g.first; second = g.second; looks = g.looks } };
}

impl PairGate {
    /// A gate through which no one has come, for workers 0 and 1.
    pub fn new() -> PairGate
        ensures { result ≡ record { first = 0; second = 1; looks = most_looks } }
    {
        PairGate::of(0, 1)
    }

    /// A gate through which no one has come, for these two workers, which differ.
    pub fn of(first: u32, second: u32) -> PairGate
        requires { first ≢ second }
        ensures { result ≡ record { first = first; second = second; looks = most_looks } }
    {
        PairGate {
            first,
            second,
            looks: MOST_LOOKS,
            entered: AtomicU64::new(0),
            limit: AtomicU64::new(0),
        }
    }

    /// The gate, which holds each of its two for at most so many looks.
    pub fn with_looks(self, looks: u32) -> PairGate
        ensures { result ≡ record self { looks = looks } }
    {
        PairGate { looks, ..self }
    }

    /// Whether a worker below 64 has entered. Of others it tells nothing.
    pub fn entered(&self, worker: u32) -> bool
        ensures others { 64 ≤ worker → result ≡ false }
    {
        self.entered.load(Ordering::SeqCst) & bit(worker) != 0
    }

    /// Whether a worker was let through since it had been held for all looks.
    pub fn limit_met(&self) -> bool {
        self.limit.load(Ordering::SeqCst) != 0
    }

    /// Waits until the other worker has entered.
    fn wait_for(&self, other: u32) {
        for _ in 0..self.looks {
            if self.entered(other) {
                return;
            }
            thread::yield_now();
        }
        self.limit.store(1, Ordering::SeqCst);
    }
}

impl Gate for PairGate {
    fn enter(&self, worker: u32, turn: u64) {
        if turn != 0 {
            return;
        }
        self.entered.fetch_or(bit(worker), Ordering::SeqCst);
        if worker == self.first {
            self.wait_for(self.second);
        } else if worker == self.second {
            self.wait_for(self.first);
        }
    }
}

/// The worker's bit, and none from 64 on.
fn bit(worker: u32) -> u64
    ensures { result ≡ (if nat_lt worker 64 then 2 ^ worker else 0) }
{
    1u64.checked_shl(worker).unwrap_or(0)
}

/// It holds one worker in its first turn until another worker has entered its turn 1,000, for 1,000,000 looks at most or for another
/// number of them. Contracts see the number of the one, and the looks.
#[derive(Drop)]
pub struct HoldGate {
    worker: u32,
    looks: u32,
    passed: AtomicU64,
    pushed: AtomicU64,
}

impl Model for HoldGate {
    ghost use Rattle.xsk_gate.specs.Gates.{Hold};

    ghost Value = { Hold };

    ghost view = { λ g. record { worker = g.worker; looks = g.looks } };
}

impl HoldGate {
    /// A gate that holds this worker.
    pub fn new(worker: u32) -> HoldGate
        ensures { result ≡ record { worker = worker; looks = most_looks } }
    {
        HoldGate {
            worker,
            looks: MOST_LOOKS,
            passed: AtomicU64::new(0),
            pushed: AtomicU64::new(0),
        }
    }

    /// The gate, which holds its worker for at most so many looks.
    pub fn with_looks(self, looks: u32) -> HoldGate
        ensures { result ≡ record self { looks = looks } }
    {
        HoldGate { looks, ..self }
    }

    /// Whether another worker entered its turn 1,000 before this one was let through its first.
    pub fn pushed(&self) -> bool {
        self.pushed.load(Ordering::SeqCst) != 0
    }

    fn hold(&self) {
        for _ in 0..self.looks {
            if self.pushed() {
                break;
            }
            thread::yield_now();
        }
        self.passed.store(1, Ordering::SeqCst);
    }
}

impl Gate for HoldGate {
    fn enter(&self, worker: u32, turn: u64) {
        if worker == self.worker {
            if turn == 0 {
                self.hold();
            }
        } else if turn == LATE_TURN && self.passed.load(Ordering::SeqCst) == 0 {
            self.pushed.store(1, Ordering::SeqCst);
        }
    }
}
