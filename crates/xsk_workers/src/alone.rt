//! A caller to its end, in its thread. Each turn stands behind the gate, since `turn` takes a [`Passed`]; its own thread sleeps only where
//! the turn told that it is parked (`specs/Parking.antt`). How long it waits else is in no contract.
ghost use Rattle.std.specs.Prelude.{◌≡◌};
ghost use Rattle.xsk_workers.specs.Crew.{IsSeatOn};

use crate::pace::Pace;
use crate::passing::Passed;
use crate::patience::{Patience, Waiting};
use crate::turns::Rests;
use std::sync::Wait;
use xsk_gate::Gate;
use xsk_table::Shared;

/// Makes turns, each behind the gate, until they have ended.
pub(crate) fn run_alone<R: Wait, W: Rests, G: Gate>(
    rt: &R,
    shared: &Shared,
    gate: &G,
    patience: Patience,
    worker: W,
) -> W
    requires { IsSeatOn shared.now (W.seat worker) }
    ensures { W.seat result ≡ W.seat worker }
{
    let mut worker = worker;
    let number = worker.caller();
    let mut waiting = Waiting::new(patience);
    let mut turn = 0u64;
    for _ in rt.forever() {
        let passed = Passed::through(gate, number, turn);
        turn = turn.saturating_add(1);
        match worker.turn(shared, passed) {
            Pace::Ended => break,
            Pace::Moved => waiting.end(),
            Pace::Put(count) => waiting.end_with(count),
            Pace::Waited => waiting.wait(rt),
            Pace::Parked => worker.rest(rt, waiting.pauses()),
        }
    }
    worker
}
