//! A worker: a machine with its pass, which runs to its end in any thread. Its type keeps that no call is in flight and that the machine
//! stands for just the calls that the pass has seen (`IsGoing`), so a turn is all that may touch either. A turn wakes the driver that its
//! own call kicked, and no other, after that call (`woken_by`, `IsLastOf`).
ghost use Rattle.std.specs.Prelude.{◌≡◌, ℕ, List, []};
ghost use Rattle.xsk_model.specs.Entry.{own};
ghost use Rattle.xsk_model.specs.Expected.{nothing};
ghost use Rattle.xsk_model.specs.declared.call.Act.TheVariants.{Ended as HasEnded};
ghost use Rattle.xsk_table.specs.View.{idle};
ghost use Rattle.std.specs.Prelude.{Some, ◌↔◌, map, option_map};
ghost use Rattle.xsk_model.specs.declared.ask.Ask.TheVariants.{Look};
ghost use Rattle.xsk_model.specs.declared.ask.Answer.TheVariants.{Old};
ghost use Rattle.xsk_model.specs.declared.call.Mark.TheVariants.{Kick};
ghost use Rattle.xsk_table.specs.Held.{Board};
ghost use Rattle.xsk_workers.specs.Crew.{IsSeatOn};
ghost use Rattle.xsk_workers.specs.Parking.{token_of, IsParkerOf, IsAsleep, IsLastOf, woken_by};
ghost use Rattle.xsk_workers.specs.Terms.{setting_over};
ghost use Rattle.xsk_workers.specs.declared.pace.Pace.TheVariants.{Parked, Ended};

use crate::context::{Source, Verdicts};
use crate::pace::Pace;
use crate::passing::Passed;
use crate::pauses::Pauses;
use crate::turns::{Leaves, Rests, Turns};
use crossbeam_utils::sync::{Parker, Unparker};
use std::marker::Model;
use std::sync::Wait;
use xsk_machine::{AnyWorker, Collected, Machine};
use xsk_model::{Answer, Ask, Mark};
use xsk_rings::RingCalls;
use xsk_table::{Pass, Shared};
use xsk_umem::Batch;

/// A machine that runs over its pass, with what it asks next, as a caller of a setting, and the number of its calls, which
/// stays at 2^64 - 1. A driver has what it sleeps on, where drivers sleep. Contracts see setting, pass and the next call.
#[derive(Drop)]
pub(crate) struct Worker<'a, M: Machine + Drop, V: Verdicts> {
    machine: M,
    ask: Option<Ask>,
    items: Batch,
    pass: Pass,
    source: Source<'a, V>,
    parker: Option<Parker>,
    calls: u64,
}

impl<'a, M: Machine + Drop, V: Verdicts> Model for Worker<'a, M, V> {
    ghost use Rattle.xsk_workers.specs.Shown.{WorkerShown, IsGoing, AreCounted};
    ghost use Rattle.std.specs.Prelude.{map};
    ghost use Rattle.xsk_workers.specs.Parking.{IsParkerOf, token_of};
    ghost use Rattle.xsk_workers.specs.Terms.{setting_over};

    ghost Value = { WorkerShown };

    ghost view = { λ w. record { setting = setting_over w.source.terms V.verdicts; pass = w.pass; next = w.ask } };

    ghost invariant = { λ w. IsGoing M.stands (M.expected w.machine) (setting_over w.source.terms V.verdicts) w.machine w.ask w.items w.pass × AreCounted w.calls w.pass
        × IsParkerOf (map token_of w.source.wakers.now) w.pass.who w.parker };
}

impl<'a, M: Machine + Drop, V: Verdicts> Worker<'a, M, V> {
    ghost use Rattle.xsk_workers.specs.Shown.{HasRun, AreCounted};

    /// A new machine of a caller, with the caller's pass, with which no call was made, and its parker.
    pub(crate) fn new(
        source: Source<'a, V>,
        machine: M,
        pass: Pass,
        parker: Option<Parker>,
    ) -> Worker<'a, M, V>
        requires expected { M.expected machine ≡ nothing }
        requires pass { (pass.view.flight ≡ idle) × (pass.view.seen ≡ []) × (pass.view.setup.config ≡ (setting_over source.terms V.verdicts).config) }
        requires machine { M.is_new (setting_over source.terms V.verdicts) pass.who machine }
        requires parker { IsParkerOf (map token_of source.wakers.now) pass.who parker }
        ensures setting { result.setting ≡ setting_over source.entry.terms V.verdicts }
        ensures pass { result.pass ≡ pass }
    {
        let mut machine = machine;
        let mut items = Batch::new();
        let mut ask = None;
        machine.step(None, &mut items, &mut ask);
        Worker {
            machine,
            ask,
            items,
            pass,
            source,
            parker,
            calls: 0,
        }
    }

    /// The machine and the pass of a worker, and the number of its calls.
    pub(crate) fn into_parts(self) -> (M, Pass, u64)
        ensures pass { result.1 ≡ self.entry.pass }
        ensures rests { self.entry.pass.view.flight ≡ idle }
        ensures stands { HasRun self.entry → M.stands self.entry.setting self.entry.pass.who result.0 HasEnded (own self.entry.pass.who self.entry.pass.view.seen) }
        ensures calls { AreCounted result.2 self.entry.pass }
    {
        let Worker {
            machine,
            pass,
            calls,
            ..
        } = self;
        (machine, pass, calls)
    }
}

impl<'a, M: Machine + Drop, V: Verdicts> Turns for Worker<'a, M, V> {
    ghost use Rattle.xsk_workers.specs.Shown.{seat_of, HasRun};

    ghost seat = { seat_of };

    ghost has_run = { HasRun };

    ghost is_asleep = { IsAsleep };

    fn caller(&self) -> u32 {
        self.pass.caller()
    }

    fn has_ended(&self) -> bool {
        self.ask.is_none()
    }

    /// Makes the next call, if there is one, and wakes the driver that it kicks.
    #[inline(always)]
    fn turn(&mut self, shared: &Shared, _passed: Passed) -> Pace
        requires on { IsSeatOn shared.now (seat_of self.old) }
        requires passed { _passed.worker ≡ (seat_of self.old).who }
        ensures seat { seat_of self.new ≡ seat_of self.old }
        ensures whole { result ≡ Ended → HasRun self.new }
        ensures parked { result ≡ Parked ↔ IsAsleep self.new }
    {
        let Some(ask) = self.ask else {
            return Pace::Ended;
        };
        let count = self.items.len();
        let answer = self.pass.serve(shared, ask, &mut self.items);
        self.calls = self.calls.saturating_add(1);
        self.machine
            .step(Some(answer), &mut self.items, &mut self.ask);
        end_turn(
            &self.source,
            &self.pass,
            self.pass.caller(),
            ask,
            count,
            answer,
            &self.ask,
        )
    }
}

impl<'a, M: Machine + Drop, V: Verdicts> Rests for Worker<'a, M, V> {
    fn rest<R: Wait>(&self, rt: &R, pauses: &mut Pauses) {
        match &self.parker {
            Some(parker) if pauses.has_spun() => parker.park(rt),
            _ => pauses.pause(rt),
        }
    }
}

impl<'a, V: Verdicts> Leaves for Worker<'a, AnyWorker<'a>, V> {
    ghost use Rattle.xsk_machine.specs.Workers.{Stands};
    ghost use Rattle.xsk_workers.specs.Members.{IsLeftOfWorker};

    ghost pass = { λ w. w.pass };

    ghost leaves = { IsLeftOfWorker Stands };

    fn leave(self, kept: &mut Collected, classes: u32) -> (Pass, u64) {
        let (machine, pass, calls) = self.into_parts();
        kept.keep(machine, classes);
        (pass, calls)
    }
}

/// Wakes the driver that a caller's last call of so many items has kicked, and tells what came of the call, where this is its next.
/// Only a Swap kicks, and it always moves something: so no other call is asked whether it kicks.
fn end_turn<V: Verdicts>(
    source: &Source<'_, V>,
    pass: &Pass,
    who: u32,
    ask: Ask,
    count: u32,
    answer: Answer,
    next: &Option<Ask>,
) -> Pace
    requires { IsLastOf pass.now ask }
    ensures goes_on { (result ≡ Ended) → ⊥ }
    ensures parked { result ≡ Parked ↔ (ask ≡ Look (Kick who)) × (answer ≡ Old 0) × (next.now ≡ Some (Look (Kick who))) }
{
    match ask {
        Ask::Swap(..) => {
            wake(source, pass, ask);
            Pace::Moved
        }
        Ask::Submit(_) => Pace::Put(count),
        _ => pace_of(who, ask, answer, next),
    }
}

/// Wakes the driver that a caller's last call has kicked.
fn wake<V: Verdicts>(source: &Source<'_, V>, pass: &Pass, ask: Ask)
    requires { IsLastOf pass.now ask }
{
    if let Some(waker) = waker_for(source, ask) {
        waker.unpark();
    }
}

/// What wakes the driver that a call kicks.
fn waker_for<'a, V: Verdicts>(source: &'a Source<'_, V>, ask: Ask) -> Option<&'a Unparker>
    ensures { option_map (λ waker. token_of waker.now) result ≡ woken_by (map token_of source.now.wakers.now) ask }
{
    match ask {
        Ask::Swap(Mark::Kick(pair), 1) => source.waker(pair),
        _ => None,
    }
}

/// What came of a caller's call, where this is its next.
fn pace_of(who: u32, ask: Ask, answer: Answer, next: &Option<Ask>) -> Pace
    ensures goes_on { (result ≡ Ended) → ⊥ }
    ensures parked { result ≡ Parked ↔ (ask ≡ Look (Kick who)) × (answer ≡ Old 0) × (next.now ≡ Some (Look (Kick who))) }
{
    let look = Ask::Look(Mark::Kick(who));
    if ask == look && answer == Answer::Old(0) && *next == Some(look) {
        return Pace::Parked;
    }
    match (ask, answer) {
        (Ask::Look(_), _) | (_, Answer::Full(_) | Answer::Empty) => Pace::Waited,
        _ => Pace::Moved,
    }
}
