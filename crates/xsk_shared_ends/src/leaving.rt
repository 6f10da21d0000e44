//! An application's machine that goes on from what steps left, with its pass.
ghost use Rattle.std.specs.Prelude.{◌≡◌, false, true, length};
ghost use Rattle.xsk_table.specs.View.{idle};
ghost use Rattle.xsk_table.specs.Held.{Belongs};
ghost use Rattle.xsk_rings.specs.Rounds.{mine_of};
ghost use Rattle.xsk_turns.specs.AppSplit.{IsWholeSplitRun};
ghost use Rattle.xsk_turns.specs.Statistics.{capped};
ghost use Rattle.xsk_shared_ends.specs.Last.{AreDrained, StaysLast, shown_of_ends};
ghost use Rattle.xsk_shared_ends.specs.declared.last.Turned.TheVariants.{Ended};

use crate::counting::Counted;
use crate::ends::Ends;
use crate::last::Turned;
use std::marker::Model;
use xsk_app::App;
use xsk_model::{Answer, Ask};
use xsk_table::{Pass, Shared};
use xsk_umem::Batch;

/// The machine, the call that it makes next, and its pass.
#[derive(Drop)]
pub(crate) struct Leaving<'a> {
    app: App<'a>,
    ask: Option<Ask>,
    items: Batch,
    pass: Counted,
}

impl<'a> Model for Leaving<'a> {
    ghost use Rattle.xsk_shared_ends.specs.Last.{LastShown, AreLeft};

    ghost Value = { LastShown };

    ghost use Rattle.std.specs.Prelude.{false};

    ghost view = { λ r. record { config = r.app.config; app = r.app.app; pass = r.pass; has_ends = false } };

    ghost invariant = { λ r. AreLeft r.app r.ask r.items r.pass };
}

impl<'a> Leaving<'a> {
    /// The machine that goes on from these ends, whose lanes were all found empty.
    pub(crate) fn new(ends: Ends<'a>) -> Leaving<'a>
        requires drained { AreDrained ends.config ends.app (mine_of ends.pass) }
        ensures { result ≡ record (shown_of_ends ends.entry) { has_ends = false } }
    {
        let (app, pass) = ends.leave();
        let mut app = app;
        let mut items = Batch::new();
        let mut ask = None;
        app.step(None, &mut items, &mut ask);
        Leaving {
            app,
            ask,
            items,
            pass,
        }
    }

    /// Whether the machine makes no further call.
    pub(crate) fn has_ended(&self) -> bool
        ensures { result ≡ true → IsWholeSplitRun self.now.config self.now.app (mine_of self.now.pass) }
    {
        self.ask.is_none()
    }

    /// Makes its next call, if there is one.
    pub(crate) fn turn(&mut self, shared: &Shared) -> Turned
        requires belongs { Belongs shared.now self.old.pass }
        ensures same { StaysLast self.old self.new }
        ensures whole { result ≡ Ended → IsWholeSplitRun self.new.config self.new.app (mine_of self.new.pass) }
    {
        let Some(ask) = self.ask else {
            return Turned::Ended;
        };
        let answer = self.pass.serve(shared, ask, &mut self.items);
        self.app.step(Some(answer), &mut self.items, &mut self.ask);
        came_of(ask, answer)
    }

    /// The pass, and the number of the application's calls, which stays at 2^64 - 1.
    pub(crate) fn into_parts(self) -> (Pass, u64)
        ensures pass { result.0 ≡ self.entry.pass }
        ensures rests { self.entry.pass.view.flight ≡ idle }
        ensures calls { result.1 ≡ capped (length (mine_of self.entry.pass)) }
    {
        let Leaving { pass, .. } = self;
        pass.into_parts()
    }
}

/// Whether a call moved something.
fn came_of(ask: Ask, answer: Answer) -> Turned
    ensures goes_on { (result ≡ Ended) → ⊥ }
{
    match (ask, answer) {
        (Ask::Look(_), _) | (_, Answer::Full(_) | Answer::Empty) => Turned::Waited,
        _ => Turned::Moved,
    }
}
