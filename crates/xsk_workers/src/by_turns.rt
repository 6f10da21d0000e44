//! Members of a crew to their ends by turns, in one thread: those for which no other can be had. None of them sleeps until it is woken,
//! since who would wake it may stand behind it.
ghost use Rattle.std.specs.Prelude.{◌≡◌, ℕ, map, All, vec_len};
ghost use Rattle.xsk_workers.specs.Crew.{IsSeatOn};
ghost use Rattle.xsk_workers.specs.declared.pace.Pace.TheVariants.{Ended};

use crate::pace::Pace;
use crate::passing::Passed;
use crate::pauses::Pauses;
use crate::turns::Turns;
use std::sync::Wait;
use xsk_gate::Gate;
use xsk_table::Shared;

/// Makes a member's turn of this number behind the gate, where it hasn't ended.
fn take_turn<W: Turns, G: Gate>(shared: &Shared, gate: &G, turn: u64, member: &mut W) -> Pace
    requires { IsSeatOn shared.now (W.seat member.old) }
    ensures seat { W.seat member.new ≡ W.seat member.old }
    ensures whole { result ≡ Ended → W.has_run member.new }
{
    if member.has_ended() {
        return Pace::Ended;
    }
    let passed = Passed::through(gate, member.caller(), turn);
    member.turn(shared, passed)
}

/// Makes a turn of this number of each member that hasn't ended. Says what came of all of them together.
fn take_turns<W: Turns, G: Gate>(shared: &Shared, gate: &G, turn: u64, members: &mut Vec<W>) -> Pace
    requires { All (λ w. IsSeatOn shared.now (W.seat w)) members.old.items }
    ensures belong { All (λ w. IsSeatOn shared.now (W.seat w)) members.new.items }
    ensures count { vec_len members.new ≡ vec_len members.old }
    ensures seats { map W.seat members.new.items ≡ map W.seat members.old.items }
    ensures whole { result ≡ Ended → All W.has_run members.new.items }
{
    let mut together = Pace::Ended;
    for i in 0..members.len() {
        let member = &mut members[i];
        let pace = take_turn(shared, gate, turn, member);
        together = together.and(pace);
    }
    together
}

/// Runs members to their ends, one turn after another, each behind the gate. It pauses while none of them moves anything, and sleeps
/// for none that is parked.
pub(crate) fn finish<R: Wait, W: Turns, G: Gate>(
    rt: &R,
    shared: &Shared,
    gate: &G,
    members: &mut Vec<W>,
)
    requires { All (λ w. IsSeatOn shared.now (W.seat w)) members.old.items }
    ensures count { vec_len members.new ≡ vec_len members.old }
    ensures seats { map W.seat members.new.items ≡ map W.seat members.old.items }
    ensures belong { All (λ w. IsSeatOn shared.now (W.seat w)) members.new.items }
    ensures whole { All W.has_run members.new.items }
{
    let mut pauses = Pauses::shared();
    let mut turn = 0u64;
    for _ in rt.forever() {
        let pace = take_turns(shared, gate, turn, members);
        turn = turn.saturating_add(1);
        match pace {
            Pace::Ended => break,
            Pace::Moved | Pace::Put(_) => pauses.reset(),
            Pace::Waited | Pace::Parked => pauses.pause(rt),
        }
    }
}
