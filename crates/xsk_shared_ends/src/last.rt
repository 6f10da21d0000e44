//! The last hand of an application: it has the ends to itself. So the machine may go on from what the steps left
//! (`specs/Last`).
ghost use Rattle.std.specs.Prelude.{◌≡◌, ◌↔◌, false, true, length, IsOk, IfOk, IfErr};
ghost use Rattle.xsk_table.specs.View.{idle};
ghost use Rattle.xsk_table.specs.Held.{Belongs};
ghost use Rattle.xsk_rings.specs.Rounds.{mine_of};
ghost use Rattle.xsk_turns.specs.AppSplit.{IsWholeSplitRun};
ghost use Rattle.xsk_turns.specs.Statistics.{capped};
ghost use Rattle.xsk_shared_ends.specs.Last.{AreDrained, StaysLast, shown_of_ends};
ghost use Rattle.xsk_shared_ends.specs.Hand.{shown_in, IsThere, HasDrained};
ghost use Rattle.xsk_shared_ends.specs.declared.last.Turned.TheVariants.{Ended};

use crate::ends::Ends;
use crate::leaving::Leaving;
use crate::sharing::share;
use std::marker::Model;
use std::mem;
use xsk_table::{Pass, Shared};

/// What came of a turn.
#[derive(Clone, Copy, Debug, PartialEq, Eq)]
pub enum Turned {
    /// Something was moved.
    Moved,
    /// Nothing was there to move, or nothing had room.
    Waited,
    /// The application had ended before.
    Ended,
}

/// What the last hand has.
#[derive(Drop)]
pub(crate) enum State<'a> {
    /// The ends.
    Sharing(Ends<'a>),
    /// The machine that goes on from what they left.
    Leaving(Leaving<'a>),
    /// Nothing, while it goes from the one to the other.
    Gone,
}

/// The last hand of an application. It makes turns on the ends as one hand of all lanes, and ends these where both drivers had told
/// that they have no further packet before its lanes were visited, and each was found empty. Then it runs the application's machine
/// from there to its end, one call a turn.
#[derive(Drop)]
pub struct LastHand<'a> {
    state: State<'a>,
}

impl<'a> Model for LastHand<'a> {
    ghost use Rattle.xsk_shared_ends.specs.Last.{LastShown};
    ghost use Rattle.xsk_shared_ends.specs.Hand.{shown_in, IsThere};

    ghost Value = { LastShown };

    ghost view = { λ h. shown_in h.state };

    ghost invariant = { λ h. IsThere h.state };
}

impl<'a> LastHand<'a> {
    /// The last hand, with the ends.
    pub fn new(ends: Ends<'a>) -> LastHand<'a>
        ensures { result ≡ shown_of_ends ends.entry }
    {
        LastHand {
            state: State::Sharing(ends),
        }
    }

    /// Makes a turn on the ends, or the next call of the machine. Where it tells that the application has ended, its calls and
    /// replies are a whole split run.
    pub fn turn(&mut self, shared: &Shared) -> Turned
        requires belongs { Belongs shared.now self.old.pass }
        ensures same { StaysLast self.old self.new }
        ensures whole { result ≡ Ended → IsWholeSplitRun self.new.config self.new.app (mine_of self.new.pass) }
        ensures ends { self.new.has_ends ≡ true → self.old.has_ends ≡ true }
        ensures left { self.new.has_ends ≡ false → self.old.has_ends ≡ true → AreDrained self.new.config self.new.app (mine_of self.new.pass) }
    {
        match &mut self.state {
            State::Sharing(ends) => {
                if let Some(turned) = share(ends, shared) {
                    return turned;
                }
            }
            State::Leaving(leaving) => return leaving.turn(shared),
            State::Gone => unreachable!(),
        }
        leave(&mut self.state);
        Turned::Moved
    }

    /// Whether the application has ended.
    pub fn has_ended(&self) -> bool
        ensures { result ≡ true → IsWholeSplitRun self.now.config self.now.app (mine_of self.now.pass) }
    {
        match &self.state {
            State::Leaving(leaving) => leaving.has_ended(),
            State::Sharing(_) | State::Gone => false,
        }
    }

    /// The ends, exactly while it has them.
    pub fn into_ends(self) -> Result<Ends<'a>, LastHand<'a>>
        ensures has { IsOk result ↔ (self.entry.has_ends ≡ true) }
        ensures ends { IfOk result (λ ends. shown_of_ends ends ≡ self.entry) }
        ensures back { IfErr result (λ hand. hand ≡ self.entry) }
    {
        let LastHand { state } = self;
        match state {
            State::Sharing(ends) => Ok(ends),
            state => Err(LastHand { state }),
        }
    }

    /// The application's pass, and the number of its calls, which stays at 2^64 - 1.
    pub fn into_parts(self) -> (Pass, u64)
        ensures pass { result.0 ≡ self.entry.pass }
        ensures rests { self.entry.pass.view.flight ≡ idle }
        ensures calls { result.1 ≡ capped (length (mine_of self.entry.pass)) }
    {
        let LastHand { state } = self;
        match state {
            State::Sharing(ends) => ends.into_parts(),
            State::Leaving(leaving) => leaving.into_parts(),
            State::Gone => unreachable!(),
        }
    }
}

/// Goes on with the machine from ends whose lanes were all found empty.
fn leave(state: &mut State<'_>)
    requires drained { HasDrained state.old }
    ensures there { IsThere state.new }
    ensures same { shown_in state.new ≡ record (shown_in state.old) { has_ends = false } }
{
    match mem::replace(state, State::Gone) {
        State::Sharing(ends) => *state = State::Leaving(Leaving::new(ends)),
        _ => unreachable!(),
    }
}
