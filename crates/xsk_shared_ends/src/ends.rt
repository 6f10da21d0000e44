//! The ends of one application's rings. All that a step touches is here, and is back when it returns: the calls so far
//! are then a split run of the application (`specs/Shown`, the invariant; `xsk_turns/specs/AppSplit`).
ghost use Rattle.std.specs.Prelude.{◌≡◌, ◌+◌, ◌<◌, ◌≤◌, [], length, IfOk, IfErr, true};
ghost use Rattle.xsk_model.specs.Expected.{nothing};
ghost use Rattle.xsk_model.specs.Rings.{caller_of};
ghost use Rattle.xsk_table.specs.View.{idle};
ghost use Rattle.xsk_table.specs.Held.{Belongs};
ghost use Rattle.xsk_rings.specs.Rounds.{mine_of};
ghost use Rattle.xsk_app.specs.Resumed.{IsResumed, kept_in};
ghost use Rattle.xsk_turns.specs.AppTurns.{app_start, both, lanes_of};
ghost use Rattle.xsk_turns.specs.AppSplit.{AtLane, AtSide, AtMarks, HasLeft, IsSplit};
ghost use Rattle.xsk_turns.specs.Statistics.{capped};
ghost use Rattle.xsk_turns.specs.Owned.{IsSteady};
ghost use Rattle.xsk_shared_ends.specs.Shown.{AreEnds, AreSame, KeepsLanes, Makes, IsFoundEmpty};
ghost use Rattle.xsk_shared_ends.specs.declared.visiting.Step.TheVariants.{Moved, Idle};

use crate::counting::Counted;
use crate::serving::look;
use crate::visiting::{Step, visit_lane, visit_side};
use std::alloc::Global;
use std::marker::Model;
use xsk_app::{App, Carried, lane_way, side_pair};
use xsk_lock::Named;
use xsk_model::{Config, Mark};
use xsk_table::{Pass, Shared};
use xsk_umem::Batch;

/// Memory for the ends couldn't be had. The pass comes back.
#[derive(Drop)]
pub struct EndsRefused {
    pub pass: Pass,
}

/// The ends of an application's rings: its pass, and what the application keeps between its steps. No call of the pass is in
/// flight between two steps.
#[derive(Drop)]
pub struct Ends<'a> {
    config: &'a Config,
    app: u32,
    pass: Counted,
    kept: Carried,
}

impl<'a> Model for Ends<'a> {
    ghost use Rattle.xsk_app.specs.Resumed.{kept_in};
    ghost use Rattle.xsk_shared_ends.specs.Shown.{EndsShown, AreEnds};

    ghost Value = { EndsShown };

    ghost view = { λ e. record { config = e.config.now; app = e.app; pass = e.pass; kept = kept_in e.kept } };

    ghost invariant = { λ e. AreEnds (record { config = e.config.now; app = e.app; pass = e.pass; kept = kept_in e.kept }) };
}

/// The name of ends, by which a lock knows them: their table with its setup, and their caller. No value of it is made.
pub struct EndsName;

impl Model for EndsName {
    ghost use Rattle.xsk_shared_ends.specs.Shown.{Name, no_name};

    ghost Value = { Name };

    ghost view = { λ _. no_name };
}

impl<'a> Named for Ends<'a> {
    ghost use Rattle.xsk_shared_ends.specs.Shown.{name_of};

    type Name = EndsName;

    ghost name = { name_of };
}

impl<'a> Ends<'a> {
    /// The ends of an application, of its pass, with which no call was made. The configuration is the table's, regular, and no
    /// socket is closed in it. It takes all memory, and is refused for want of that alone.
    pub fn new(alloc: Global, config: &'a Config, pass: Pass) -> Result<Ends<'a>, EndsRefused>
        requires steady { IsSteady config.now }
        requires config { pass.view.setup.config ≡ config.now }
        requires app { length config.now.pairs ≤ pass.who }
        requires rests { pass.view.flight ≡ idle }
        requires unused { mine_of pass ≡ [] }
        ensures ok { IfOk result (λ ends. (ends.pass ≡ pass) × (ends.config ≡ config.now) × (caller_of config.now ends.app ≡ pass.who) × (ends.kept ≡ app_start config.now)) }
        ensures refused { IfErr result (λ back. back.pass ≡ pass) }
    {
        // The geometry is lawful.
        let _geometry = config.geometry();
        let app = pass.caller() - config.pairs().len() as u32;
        match Carried::new(alloc, config) {
            Ok(kept) => Ok(Ends {
                config,
                app,
                pass: Counted::new(pass),
                kept,
            }),
            Err(_) => Err(EndsRefused { pass }),
        }
    }

    /// Visits a lane: where no item of it is pending it takes what its RX ring has, and its items go on to its TX ring where that
    /// has room for all. Idle comes exactly where the Peek was answered Empty, and Full exactly where the Reserve was answered so.
    pub fn lane(&mut self, shared: &Shared, lane: u32) -> Step
        requires belongs { Belongs shared.now self.old.pass }
        requires lane { lane < lanes_of self.old.config }
        ensures same { AreSame self.old self.new }
        ensures made { Makes (AtLane lane) self.old self.new result }
        ensures idle { result ≡ Idle → IsFoundEmpty lane self.old self.new }
    {
        let way = lane_way(self.config, self.app, lane);
        visit_lane(
            self.config,
            way,
            &mut self.pass,
            shared,
            &mut self.kept.pending[lane as usize],
        )
    }

    /// Visits a side: where no frame of it is left to give back it takes what the COMPLETION ring of its pair has, and its frames go
    /// back to the FILL rings of their homes as far as these have room. Idle comes exactly where the Peek was answered Empty, and
    /// Full exactly where a Reserve was answered so.
    pub fn recycle(&mut self, shared: &Shared, side: u32) -> Step
        requires belongs { Belongs shared.now self.old.pass }
        requires side { side < 2 }
        ensures same { AreSame self.old self.new }
        ensures made { Makes (AtSide side) self.old self.new result }
    {
        let pair = side_pair(self.config, self.app, side);
        visit_side(
            self.config,
            pair,
            &mut self.pass,
            shared,
            &mut self.kept.backs[side as usize],
        )
    }

    /// Looks at the mark of each side whose driver hasn't told yet that it has no further packet, and says whether both have.
    pub fn inputs_done(&mut self, shared: &Shared) -> bool
        requires { Belongs shared.now self.old.pass }
        ensures same { AreSame self.old self.new }
        ensures made { Makes AtMarks self.old self.new Moved }
        ensures done { result ≡ both self.new.kept.seen }
    {
        let mut items = Batch::new();
        let first = Mark::RxDone(side_pair(self.config, self.app, 0));
        let second = Mark::RxDone(side_pair(self.config, self.app, 1));
        let seen = self.kept.seen;
        self.kept.seen = [
            look(&mut self.pass, shared, first, seen[0], &mut items),
            look(&mut self.pass, shared, second, seen[1], &mut items),
        ];
        have_told(&self.kept)
    }

    /// How many lanes the application has.
    pub fn lanes(&self) -> u32
        ensures { result ≡ lanes_of self.now.config }
    {
        2 * self.config.classes()
    }

    /// Whether it was seen that both drivers have told that they have no further packet.
    pub fn has_told(&self) -> bool
        ensures { result ≡ both self.now.kept.seen }
    {
        have_told(&self.kept)
    }

    /// What the type keeps: the application's calls and replies are a split run that leaves what is kept, so what is kept is what
    /// they left, and on each lane what was peeked is what was submitted, followed by what is pending.
    pub fn keeps(&self)
        ensures ends { AreEnds self.now }
        ensures left { HasLeft self.now.config self.now.kept (mine_of self.now.pass) }
        ensures lanes { KeepsLanes self.now }
    {
        // What the type keeps is known once a field is read.
        let _app = self.app;
    }

    /// How many calls were made with them; the number stays at 2^64 - 1.
    pub fn calls(&self) -> u64
        ensures { result ≡ capped (length (mine_of self.now.pass)) }
    {
        self.pass.calls()
    }

    /// The application that goes on from here by its turns, and its pass. It takes no memory.
    pub fn finish(self) -> (App<'a>, Pass)
        ensures expected { result.0.expected ≡ nothing }
        ensures app { IsResumed self.entry.config self.entry.app self.entry.kept (mine_of self.entry.pass) result.0 }
        ensures pass { result.1 ≡ self.entry.pass }
        ensures ends { AreEnds self.entry }
        ensures lanes { KeepsLanes self.entry }
    {
        let (app, pass) = self.leave();
        let (pass, _calls) = pass.into_parts();
        (app, pass)
    }

    /// The same, with a pass that goes on to count its calls.
    pub(crate) fn leave(self) -> (App<'a>, Counted)
        ensures expected { result.0.expected ≡ nothing }
        ensures app { IsResumed self.entry.config self.entry.app self.entry.kept (mine_of self.entry.pass) result.0 }
        ensures pass { result.1 ≡ self.entry.pass }
        ensures ends { AreEnds self.entry }
        ensures lanes { KeepsLanes self.entry }
    {
        let Ends {
            config,
            app,
            pass,
            kept,
        } = self;
        (App::resume(config, app, kept), pass)
    }

    /// The pass, and how many calls were made with it.
    pub(crate) fn into_parts(self) -> (Pass, u64)
        ensures pass { result.0 ≡ self.entry.pass }
        ensures rests { self.entry.pass.view.flight ≡ idle }
        ensures calls { result.1 ≡ capped (length (mine_of self.entry.pass)) }
    {
        let Ends { pass, .. } = self;
        pass.into_parts()
    }
}

/// Whether both drivers have told that they have no further packet, as far as it was seen.
fn have_told(kept: &Carried) -> bool
    ensures { result ≡ both (kept_in kept.now).seen }
{
    kept.seen[0] && kept.seen[1]
}

/// Ends may be sent to another thread.
#[allow(dead_code)]
fn is_sent(ends: &Ends<'_>) {
    needs_send(ends);
}

fn needs_send<T: Send>(_sent: &T) {}
