//! An application by several hands, as a member of a crew: its ends for the hands, and then the last one. It stays the application of its
//! setting (`IsTeam`), and its calls are a whole split run once the last hand has ended (`TeamHasRun`).
ghost use Rattle.std.specs.Prelude.{◌≡◌, length, IfOk, IfErr};
ghost use Rattle.xsk_rings.specs.Rounds.{mine_of};
ghost use Rattle.xsk_table.specs.View.{idle};
ghost use Rattle.xsk_turns.specs.Statistics.{capped};
ghost use Rattle.xsk_shared_ends.specs.Shown.{name_of};
ghost use Rattle.xsk_shared_ends.specs.Last.{shown_of_ends};
ghost use Rattle.xsk_shared_ends.specs.declared.last.Turned.TheVariants.{Ended};
ghost use Rattle.xsk_workers.specs.Crew.{IsSeatOn};
ghost use Rattle.xsk_workers.specs.Hands.{team_seat, TeamHasRun, GoesWith};
ghost use Rattle.xsk_workers.specs.Terms.{setting_over};

use crate::context::Verdicts;
use crate::lanes::Lanes;
use crate::pace::Pace;
use crate::passing::Passed;
use crate::pauses::Pauses;
use crate::plan::Rest;
use crate::turns::{Leaves, Rests, Turns};
use std::marker::Model;
use std::sync::Wait;
use xsk_machine::Collected;
use xsk_shared_ends::{Ends, LastHand, Step, Turned};
use xsk_table::{Pass, Shared};

impl<'a> Lanes for Ends<'a> {
    ghost use Rattle.xsk_workers.specs.Hands.{IsNameOn, lanes_named, LaneCame, SideCame, MarksTold};

    ghost is_on = { IsNameOn };

    ghost lanes_in = { lanes_named };

    ghost lane_came = { LaneCame };

    ghost side_came = { SideCame };

    ghost marks_told = { MarksTold };

    fn lanes(&self) -> u32 {
        self.keeps();
        Ends::lanes(self)
    }

    fn visit(&mut self, shared: &Shared, lane: u32) -> Step {
        self.keeps();
        self.lane(shared, lane)
    }

    fn recycle(&mut self, shared: &Shared, side: u32) -> Step {
        Ends::recycle(self, shared, side)
    }

    fn look(&mut self, shared: &Shared) -> bool {
        self.inputs_done(shared)
    }
}

/// An application by several hands, as a caller of a setting: what its last hand has, and the rest.
#[derive(Drop)]
pub(crate) struct Team<'a, V: Verdicts> {
    last: LastHand<'a>,
    rest: Rest<'a, V>,
}

impl<'a, V: Verdicts> Model for Team<'a, V> {
    ghost use Rattle.std.specs.Prelude.{◌≡◌};
    ghost use Rattle.xsk_workers.specs.Hands.{TeamShown, IsTeam, AreSides};
    ghost use Rattle.xsk_workers.specs.Terms.{setting_over};

    ghost Value = { TeamShown };

    ghost view = { λ t. record { setting = setting_over t.rest.source.terms V.verdicts; last = t.last } };

    ghost invariant = { λ t. IsTeam (record { setting = setting_over t.rest.source.terms V.verdicts; last = t.last }) × (t.rest.who ≡ t.last.pass.who)
        × AreSides (setting_over t.rest.source.terms V.verdicts).config t.rest.who t.rest.plan.pairs };
}

impl<'a, V: Verdicts> Team<'a, V> {
    /// The team of these ends, whose application is one of the setting.
    pub(crate) fn new(rest: Rest<'a, V>, ends: Ends<'a>) -> Team<'a, V>
        requires { GoesWith (setting_over rest.source.terms V.verdicts) rest.who rest.plan.pairs (name_of ends) }
        ensures { result ≡ record { setting = setting_over rest.entry.source.terms V.verdicts; last = shown_of_ends ends.entry } }
    {
        ends.keeps();
        Team {
            last: LastHand::new(ends),
            rest,
        }
    }

    /// The ends and the rest, while it has the ends.
    pub(crate) fn open(self) -> Result<(Ends<'a>, Rest<'a, V>), Team<'a, V>>
        ensures ends { IfOk result (λ parts. shown_of_ends parts.0 ≡ self.entry.last) }
        ensures setting { IfOk result (λ parts. setting_over parts.1.source.terms V.verdicts ≡ self.entry.setting) }
        ensures goes { IfOk result (λ parts. GoesWith (setting_over parts.1.source.terms V.verdicts) parts.1.who parts.1.plan.pairs (name_of parts.0)) }
        ensures back { IfErr result (λ team. team ≡ self.entry) }
    {
        let Team { last, rest } = self;
        match last.into_ends() {
            Ok(ends) => Ok((ends, rest)),
            Err(last) => Err(Team { last, rest }),
        }
    }
}

impl<'a, V: Verdicts> Turns for Team<'a, V> {
    ghost use Rattle.xsk_workers.specs.Hands.{team_seat, TeamHasRun};

    ghost seat = { team_seat };

    ghost has_run = { TeamHasRun };

    ghost is_asleep = { λ _. Unit {0} };

    fn caller(&self) -> u32 {
        self.rest.who
    }

    fn has_ended(&self) -> bool {
        self.last.has_ended()
    }

    /// Makes a turn of the last hand, and gives the tokens of the drivers that it may have kicked: also where it waited, since
    /// frames may have gone back to one FILL ring before the next had no room.
    fn turn(&mut self, shared: &Shared, _passed: Passed) -> Pace {
        let turned = self.last.turn(shared);
        if turned != Turned::Ended {
            self.rest.wakers().wake();
        }
        Pace::of_last(turned)
    }
}

impl<'a, V: Verdicts> Rests for Team<'a, V> {
    /// It isn't parked, and only pauses.
    fn rest<R: Wait>(&self, rt: &R, pauses: &mut Pauses) {
        pauses.pause(rt);
    }
}

impl<'a, V: Verdicts> Leaves for Team<'a, V> {
    ghost use Rattle.xsk_workers.specs.Members.{IsLeftOfTeam};

    ghost pass = { λ t. t.last.pass };

    ghost leaves = { IsLeftOfTeam };

    fn leave(self, kept: &mut Collected, classes: u32) -> (Pass, u64) {
        let Team { last, .. } = self;
        last.into_parts()
    }
}
