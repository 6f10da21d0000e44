//! What a crew runs: the calls of a caller, in a thread of its own or by turns beside others. A turn keeps the caller's seat, and where it
//! tells that it has ended, the calls and replies of the caller are whole.
ghost use Rattle.std.specs.Prelude.{◌≡◌, true, Option, IfOk, IfErr, option_map};
ghost use Rattle.atomic_table.specs.Seated.{TableId};
ghost use Rattle.xsk_machine.specs.declared.worker.AnyWorker.{AnyWorker as AWorker};
ghost use Rattle.xsk_table.specs.View.{idle};
ghost use Rattle.xsk_table.specs.Held.{Board, Holder};
ghost use Rattle.xsk_workers.specs.Crew.{Seat, IsSeatOn};
ghost use Rattle.xsk_workers.specs.Keeping.{HasRoomFor, Keeps};
ghost use Rattle.xsk_workers.specs.Parking.{token_of};
ghost use Rattle.xsk_workers.specs.Shown.{AreCounted};
ghost use Rattle.xsk_workers.specs.declared.pace.Pace.TheVariants.{Parked, Ended};

use crate::lanes::Lanes;
use crate::pace::Pace;
use crate::parking::SideWakers;
use crate::passing::Passed;
use crate::patience::Patience;
use crate::pauses::Pauses;
use crate::plan::HandsPlan;
use std::sync::Wait;
use xsk_gate::Gate;
use xsk_machine::Collected;
use xsk_table::{Pass, Shared};

/// The calls of one caller of a setting, one turn at a time.
pub(crate) trait Turns {
    // The caller, its table and its setting.
    ghost seat: { Self → Seat };

    // Its calls and replies are whole.
    ghost has_run: { Self → Type 0 };

    // It waits to be kicked.
    ghost is_asleep: { Self → Type 0 };

    /// The caller's number.
    fn caller(&self) -> u32
        ensures { result ≡ (seat self.now).who };

    /// Whether it has ended: then a turn makes no call.
    fn has_ended(&self) -> bool
        ensures { result ≡ true → has_run self.now };

    /// Makes a turn, behind the gate.
    fn turn(&mut self, shared: &Shared, passed: Passed) -> Pace
        requires on { IsSeatOn shared.now (seat self.old) }
        requires passed { passed.worker ≡ (seat self.old).who }
        ensures seat { seat self.new ≡ seat self.old }
        ensures whole { result ≡ Ended → has_run self.new }
        ensures parked { result ≡ Parked → is_asleep self.new };
}

/// The calls of one machine, or of the last of several hands, which may sleep.
pub(crate) trait Rests: Turns {
    /// Waits until it is kicked, where it is parked: it spins for a few looks, and then sleeps.
    fn rest<R: Wait>(&self, rt: &R, pauses: &mut Pauses)
        requires { Self.is_asleep self.now };
}

/// The calls of a caller to their end. Several hands may share them: their ends can be taken out of it, and be put back. It is a trait
/// for one type, since a closure that goes to a thread names no type with a lifetime, and its methods start no threads, which only
/// functions may.
pub(crate) trait Opens: Turns {
    /// The ends that its hands share.
    type Ends: Lanes + Send;

    /// What it has beside them.
    type Rest;

    // The seat of the caller with this rest and ends of this name, and that they go together.
    ghost seat_by: { Self.Rest → Self.Ends.Name → Seat };

    ghost goes_with: { Self.Rest → Self.Ends.Name → Type 0 };

    // These are the tokens of the drivers of both of its sides.
    ghost wakes: { Self.Rest → Option TableId → Option TableId → Type 0 };

    /// Takes the ends out, where several hands are to share them; else it comes back.
    fn open(self) -> Result<(Self::Ends, Self::Rest), Self>
        ensures seat { IfOk result (λ parts. seat_by parts.1 (Self.Ends.name parts.0) ≡ Self.seat self) }
        ensures goes { IfOk result (λ parts. goes_with parts.1 (Self.Ends.name parts.0)) }
        ensures on { (b : Board) → IsSeatOn b (Self.seat self) → IfOk result (λ parts. Self.Ends.is_on b (Self.Ends.name parts.0)) }
        ensures back { IfErr result (λ back. Self.seat back ≡ Self.seat self) };

    /// How its hands are run.
    fn plan(rest: &Self::Rest) -> HandsPlan;

    /// What wakes the drivers of both sides, where drivers sleep.
    fn wakers(rest: &Self::Rest) -> SideWakers<'_>
        requires { (name : Self.Ends.Name) × goes_with rest.now name }
        ensures { wakes rest.now (option_map (λ waker. token_of waker.now) result.first) (option_map (λ waker. token_of waker.now) result.second) };

    /// Puts ends back, which may be others of the same name.
    fn shut(rest: Self::Rest, ends: Self::Ends) -> Self
        requires { goes_with rest (Self.Ends.name ends) }
        ensures { Self.seat result ≡ seat_by rest (Self.Ends.name ends) };

    /// Makes turns, each behind the gate, until it has ended. So patient it is where it waits.
    fn run<R: Wait, G: Gate>(self, rt: &R, shared: &Shared, gate: &G, patience: Patience) -> Self
        requires { IsSeatOn shared.now (Self.seat self) }
        ensures { Self.seat result ≡ Self.seat self };
}

/// What leaves once its calls are whole.
pub(crate) trait Leaves {
    // Its pass.
    ghost pass: { Self → Holder };

    // This is left of it: a machine that has ended where its calls are whole, or none.
    ghost leaves: { Self → Option AWorker → Type 0 };

    /// Keeps what is left of it, where each queue has so many sockets. Gives its pass, and the number of its calls.
    fn leave(self, kept: &mut Collected, classes: u32) -> (Pass, u64)
        requires room { (left : Option AWorker) → leaves self left → HasRoomFor kept.old classes left }
        ensures kept { (left : Option AWorker) × leaves self left × Keeps kept.old kept.new classes left }
        ensures pass { result.0 ≡ pass self }
        ensures rests { (pass self).view.flight ≡ idle }
        ensures calls { AreCounted result.1 (pass self) };
}
