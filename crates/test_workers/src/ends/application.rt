//! The application of a table: its ends until they are finished, or the last hand, which has them to itself.
ghost use Rattle.std.specs.Prelude.{◌≡◌};
ghost use Rattle.xsk_table.specs.Held.{Belongs};
ghost use Rattle.xsk_turns.specs.Owned.{IsSteady};

use super::callers::Answers;
use super::turn::write_calls;
use crate::hand::Hand;
use std::alloc::AllocError;
use std::fmt::Write;
use std::marker::Model;
use xsk_shared_ends::{Ends, LastHand, Step, Turned};
use xsk_table::Shared;

/// The ends, until they are finished or the last hand takes them, and the last hand.
#[derive(Drop)]
pub(crate) struct Application<'a> {
    shared: &'a Shared,
    ends: Option<Ends<'a>>,
    last: Option<LastHand<'a>>,
}

impl<'a> Model for Application<'a> {
    ghost use Rattle.std.specs.Prelude.{IfSome};
    ghost use Rattle.xsk_table.specs.Held.{Belongs, Board};
    ghost use Rattle.xsk_turns.specs.Owned.{IsSteady};

    ghost Value = { Board };

    ghost view = { λ a. a.shared.now };

    ghost invariant = { λ a. IsSteady a.shared.now.setup.config × IfSome a.ends (λ e. Belongs a.shared.now e.pass) × IfSome a.last (λ h. Belongs a.shared.now h.pass) };
}

fn tell_step(step: Step, text: &mut String) -> Result<(), AllocError> {
    match step {
        Step::Idle => text.push_str("idle"),
        Step::Full(free) => write!(text, "full {free}"),
        Step::Moved => text.push_str("moved"),
    }
}

fn turn_in_words(turned: Turned) -> &'static str {
    match turned {
        Turned::Moved => "moved",
        Turned::Waited => "waited",
        Turned::Ended => "ended",
    }
}

/// A visit to a lane, if there is such a lane.
fn lane(shared: &Shared, ends: &mut Ends<'_>, lane: u32) -> Option<Step>
    requires belongs { Belongs shared.now ends.old.pass }
    requires steady { IsSteady shared.now.setup.config }
    ensures { Belongs shared.now ends.new.pass }
{
    ends.keeps();
    if lane >= 2 * shared.config().classes() {
        return None;
    }
    Some(ends.lane(shared, lane))
}

/// Makes a step of the ends, and tells it.
fn make_step(
    shared: &Shared,
    ends: &mut Ends<'_>,
    word: &str,
    place: u32,
    text: &mut String,
) -> Result<(), AllocError>
    requires belongs { Belongs shared.now ends.old.pass }
    requires steady { IsSteady shared.now.setup.config }
    ensures { Belongs shared.now ends.new.pass }
{
    match word {
        "lane" => match lane(shared, ends, place) {
            Some(step) => tell_step(step, text),
            None => text.push_str("no such lane"),
        },
        "recycle" if place < 2 => tell_step(ends.recycle(shared, place), text),
        "inputs" => {
            let done = ends.inputs_done(shared);
            write!(text, "{done}")
        }
        _ => text.push_str("no such step"),
    }
}

/// Makes so many turns, and tells what came of each.
fn make_turns(
    shared: &Shared,
    hand: &mut LastHand<'_>,
    count: u32,
    text: &mut String,
) -> Result<(), AllocError>
    requires { Belongs shared.now hand.old.pass }
    ensures { Belongs shared.now hand.new.pass }
{
    'turns: for number in 0..count {
        let gap = if number == 0 { "" } else { " " };
        let came = turn_in_words(hand.turn(shared));
        write!(text, "{gap}{came}")?;
    }
    Ok(())
}

impl<'a> Application<'a> {
    /// The application of a table, with its ends.
    pub(crate) fn new(shared: &'a Shared, ends: Ends<'a>) -> Application<'a>
        requires belongs { Belongs shared.now ends.pass }
        requires steady { IsSteady shared.now.setup.config }
    {
        Application {
            shared,
            ends: Some(ends),
            last: None,
        }
    }

    fn step(&mut self, word: &str, place: u32, text: &mut String) -> Result<(), AllocError> {
        match &mut self.ends {
            Some(ends) => make_step(self.shared, ends, word, place, text),
            None => text.push_str("finished"),
        }
    }

    /// Ends the ends, and tells the calls of the application's next turn.
    fn finish(&mut self, text: &mut String) -> Result<(), AllocError> {
        match self.ends.take() {
            Some(ends) => {
                let (app, _pass) = ends.finish();
                write_calls(&mut Hand::new("a", 0, app), text)
            }
            None => text.push_str("finished"),
        }
    }

    fn calls(&self, text: &mut String) -> Result<(), AllocError> {
        match &self.ends {
            Some(ends) => {
                let calls = ends.calls();
                write!(text, "{calls}")
            }
            None => text.push_str("no ends"),
        }
    }

    /// The last hand takes the ends.
    fn take(&mut self) -> &'static str {
        match self.ends.take() {
            Some(ends) => {
                self.last = Some(LastHand::new(ends));
                "taken"
            }
            None => "no ends",
        }
    }

    fn turn(&mut self, count: u32, text: &mut String) -> Result<(), AllocError> {
        match &mut self.last {
            Some(hand) => make_turns(self.shared, hand, count, text),
            None => text.push_str("no hand"),
        }
    }

    /// The last hand gives the ends back, if it has them.
    fn back(&mut self) -> &'static str {
        let Some(hand) = self.last.take() else {
            return "no hand";
        };
        match hand.into_ends() {
            Ok(ends) => {
                self.ends = Some(ends);
                "the ends"
            }
            Err(hand) => {
                self.last = Some(hand);
                "the machine"
            }
        }
    }

    /// The last hand gives the pass back.
    fn parts(&mut self, text: &mut String) -> Result<(), AllocError> {
        match self.last.take() {
            Some(hand) => {
                let (_pass, calls) = hand.into_parts();
                write!(text, "{calls}")
            }
            None => text.push_str("no hand"),
        }
    }
}

impl Answers for Application<'_> {
    fn answer(&mut self, word: &str, place: u32, text: &mut String) -> Result<(), AllocError> {
        match word {
            "finish" => self.finish(text),
            "calls" => self.calls(text),
            "take" => text.push_str(self.take()),
            "turn" => self.turn(place, text),
            "back" => text.push_str(self.back()),
            "parts" => self.parts(text),
            _ => self.step(word, place, text),
        }
    }
}
