//! A member of a crew: one machine, or an application by several hands. What holds of it is what holds of either
//! (`specs/Members.antt`).
ghost use Rattle.std.specs.Prelude.{◌≡◌};

use crate::alone::run_alone;
use crate::context::Verdicts;
use crate::pace::Pace;
use crate::parking::SideWakers;
use crate::passing::Passed;
use crate::patience::Patience;
use crate::plan::{HandsPlan, Rest};
use crate::team::Team;
use crate::turns::{Leaves, Opens, Rests, Turns};
use std::sync::Wait;
use xsk_gate::Gate;
use xsk_machine::Collected;
use xsk_shared_ends::Ends;
use xsk_table::{Pass, Shared};

/// A caller of a run: a driver or an application by itself, or an application by several hands.
#[derive(Drop)]
pub(crate) enum Member<A, B> {
    One(A),
    Several(B),
}

impl<A: Turns, B: Turns> Turns for Member<A, B> {
    ghost use Rattle.xsk_workers.specs.Members.{either_seat, EitherIs};

    ghost seat = { either_seat A.seat B.seat };

    ghost has_run = { EitherIs A.has_run B.has_run };

    ghost is_asleep = { EitherIs A.is_asleep B.is_asleep };

    fn caller(&self) -> u32 {
        match self {
            Member::One(worker) => worker.caller(),
            Member::Several(team) => team.caller(),
        }
    }

    fn has_ended(&self) -> bool {
        match self {
            Member::One(worker) => worker.has_ended(),
            Member::Several(team) => team.has_ended(),
        }
    }

    fn turn(&mut self, shared: &Shared, passed: Passed) -> Pace {
        match self {
            Member::One(worker) => worker.turn(shared, passed),
            Member::Several(team) => team.turn(shared, passed),
        }
    }
}

impl<'a, A: Rests, V: Verdicts> Opens for Member<A, Team<'a, V>> {
    ghost use Rattle.std.specs.Prelude.{◌≡◌};
    ghost use Rattle.xsk_shared_ends.specs.Shown.{Name, name_of};
    ghost use Rattle.std.specs.Prelude.{map, option_map};
    ghost use Rattle.xsk_workers.specs.Parking.{token_of};
    ghost use Rattle.xsk_workers.specs.Hands.{named_seat, team_seat, GoesWith, AreTokensOf};
    ghost use Rattle.xsk_workers.specs.Members.{either_seat};
    ghost use Rattle.xsk_workers.specs.Terms.{setting_over};

    type Ends = Ends<'a>;

    type Rest = Rest<'a, V>;

    ghost seat_by = { λ rest. named_seat (setting_over rest.source.terms V.verdicts) };

    ghost goes_with = { λ rest. GoesWith (setting_over rest.source.terms V.verdicts) rest.who rest.plan.pairs };

    ghost wakes = { λ rest. AreTokensOf (map token_of rest.source.wakers.now) (setting_over rest.source.terms V.verdicts).config rest.who };

    fn open(self) -> Result<(Ends<'a>, Rest<'a, V>), Self> {
        match self {
            Member::One(worker) => Err(Member::One(worker)),
            Member::Several(team) => match team.open() {
                Ok(parts) => Ok(parts),
                Err(team) => Err(Member::Several(team)),
            },
        }
    }

    fn plan(rest: &Rest<'a, V>) -> HandsPlan {
        rest.plan
    }

    fn wakers<'b>(rest: &'b Rest<'a, V>) -> SideWakers<'b>
        requires { (name : Name) × GoesWith (setting_over rest.now.source.terms V.verdicts) rest.now.who rest.now.plan.pairs name }
        ensures { AreTokensOf (map token_of rest.now.source.wakers.now) (setting_over rest.now.source.terms V.verdicts).config rest.now.who (option_map (λ waker. token_of waker.now) result.first) (option_map (λ waker. token_of waker.now) result.second) }
    {
        rest.wakers()
    }

    fn shut(rest: Rest<'a, V>, ends: Ends<'a>) -> Self
        requires { GoesWith (setting_over rest.source.terms V.verdicts) rest.who rest.plan.pairs (name_of ends) }
        ensures { either_seat A.seat team_seat result ≡ named_seat (setting_over rest.entry.source.terms V.verdicts) (name_of ends.entry) }
    {
        Member::Several(Team::new(rest, ends))
    }

    fn run<R: Wait, G: Gate>(self, rt: &R, shared: &Shared, gate: &G, patience: Patience) -> Self {
        match self {
            Member::One(worker) => Member::One(run_alone(rt, shared, gate, patience, worker)),
            Member::Several(team) => Member::Several(run_alone(rt, shared, gate, patience, team)),
        }
    }
}

impl<A: Leaves, B: Leaves> Leaves for Member<A, B> {
    ghost use Rattle.xsk_workers.specs.Members.{either_pass, EitherLeaves};

    ghost pass = { either_pass A.pass B.pass };

    ghost leaves = { EitherLeaves A.leaves B.leaves };

    fn leave(self, kept: &mut Collected, classes: u32) -> (Pass, u64) {
        match self {
            Member::One(worker) => worker.leave(kept, classes),
            Member::Several(team) => team.leave(kept, classes),
        }
    }
}
