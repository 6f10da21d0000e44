//! The gate, which a worker passes before each of its turns: nothing else makes a [`Passed`].
ghost use Rattle.std.specs.Prelude.{◌≡◌};

use xsk_gate::Gate;

/// A worker has passed the gate for one turn. It is made by passing the gate alone, and each turn takes one.
#[derive(Drop)]
pub(crate) struct Passed {
    worker: u32,
}

impl Passed {
    /// Has a worker pass the gate before its turn of this number.
    #[inline(always)]
    pub(crate) fn through<G: Gate>(gate: &G, worker: u32, turn: u64) -> Passed
        ensures { result.worker ≡ worker }
    {
        gate.enter(worker, turn);
        Passed { worker }
    }
}
