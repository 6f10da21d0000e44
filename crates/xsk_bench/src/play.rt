//! The object with its drivers in their seats. An application's call is made where it is legal, and the drivers' are by
//! their machines: so the history is one of a bench (`specs/Played`), whatever is asked.
ghost use Rattle.std.specs.Prelude.{◌≡◌, ◌<◌, ◌≤◌, ◌+◌, ℕ, List, ◌∷◌, [], IsTrue, ◌↔◌, Err, IfOk, vec_len};
ghost use Rattle.xsk_umem.specs.Frame.{Frame};
ghost use Rattle.xsk_umem.specs.Geometry.{IsGeometry};
ghost use Rattle.xsk_model.specs.Asks.{joined_call, HasAsked, HasAnswered};
ghost use Rattle.xsk_model.specs.Entry.{Entry, own};
ghost use Rattle.xsk_model.specs.Legal.{IsLegal};
ghost use Rattle.xsk_model.specs.Rings.{caller_of};
ghost use Rattle.xsk_turns.specs.Workers.{Setting};
ghost use Rattle.xsk_sim.specs.Rooms.{most_payload};
ghost use Rattle.xsk_bench.specs.Played.{HasPlayed, IsGoing};
ghost use Rattle.xsk_bench.specs.DriverRounds.{HadTurns, HadRound, HadRounds};
ghost use Rattle.xsk_bench.specs.Serving.{Serves, IsIllegal, TellsWhy};

use crate::Unserved;
use crate::seat::Seat;
use xsk_legal::Illegal;
use xsk_machine::Amount;
use xsk_model::steering::applications;
use xsk_model::{Answer, Ask};
use xsk_plain::{Checked, items_room};
use xsk_umem::{Batch, OutOfMemory};

/// The most payload bytes of a call: 32 items with chunks of 4,096 bytes.
const MOST_PAYLOAD: u32 = 32 * 4096;

/// The drivers wait once nothing has changed for so many rounds.
const STILL_ROUNDS: u32 = 64;

/// The object with its drivers in their seats, by pair, each with room for so many sent packets and bytes.
#[derive(Drop)]
pub(crate) struct Play<'a> {
    pub(crate) checked: Checked,
    pub(crate) seats: Vec<Seat<'a>>,
    pub(crate) room: Amount,
}

impl Play<'_> {
    /// Makes a call for an application, if it is legal.
    pub(crate) fn serve(
        &mut self,
        app: u32,
        ask: Ask,
        items: &mut Batch,
    ) -> Result<Answer, Unserved>
        ensures room { self.new.room ≡ self.old.room }
        ensures stray { (result ≡ Err Unserved.StrayItems) ↔ (HasAsked ask items.old → ⊥) }
        ensures illegal { IsIllegal result
            ↔ (HasAsked ask items.old × (IsLegal self.old.checked.config (own (caller_of self.old.checked.config app) self.old.checked.log) (caller_of self.old.checked.config app) (joined_call ask items.old) → ⊥)) }
        ensures why { TellsWhy self.old.checked (caller_of self.old.checked.config app) (joined_call ask items.old) result }
        ensures answered { IfOk result (λ answer. HasAnswered answer items.new) }
        ensures served { (s : Setting) (frames : List Frame) (h : List Entry) → HasPlayed s frames h self.old
            → Serves s frames h (caller_of s.config app) (joined_call ask items.old) items.old items.new self.old self.new result }
    {
        if !is_asked(ask, items) {
            return Err(Unserved::StrayItems);
        }
        let config = self.checked.config();
        // For the proof: the geometry is lawful, the log is a legal history, and a batch has at most 32 items.
        let _geometry = config.geometry();
        let _log = self.checked.log();
        let _count = items.len();
        if app >= applications(config) {
            return Err(Unserved::Illegal(Illegal::NoCaller));
        }
        let who = config.pairs().len() as u32 + app;
        if let Some(why) = self.checked.why_not(who, ask, items) {
            return Err(Unserved::Illegal(why));
        }
        let Ok(()) = self.checked.reserve_log(1, items_room(items)) else {
            return Err(Unserved::OutOfMemory);
        };
        Ok(self.checked.serve(who, ask, items))
    }

    /// Makes rounds until nothing has changed for 64 of them, but no more than so many, and tells whether the drivers wait.
    pub(crate) fn run(&mut self, most_rounds: u32) -> Result<bool, OutOfMemory>
        requires going { IsGoing self.old }
        ensures room { self.new.room ≡ self.old.room }
        ensures rounds { (s : Setting) (frames : List Frame) (h : List Entry) → HasPlayed s frames h self.old → HadRounds s frames h most_rounds self.new result }
    {
        let mut still = 0;
        for _round in 0..most_rounds {
            let Ok(quiet) = self.round() else {
                return Err(OutOfMemory);
            };
            still = still_after(still, quiet);
            if still == STILL_ROUNDS {
                return Ok(true);
            }
        }
        Ok(false)
    }

    /// Lets each driver that hasn't ended make one call, in the order of the pairs, and tells whether these changed nothing. The
    /// log has room for all of them before the first.
    pub(crate) fn round(&mut self) -> Result<bool, OutOfMemory>
        requires going { IsGoing self.old }
        ensures room { self.new.room ≡ self.old.room }
        ensures round { (s : Setting) (frames : List Frame) (h : List Entry) → HasPlayed s frames h self.old → HadRound s frames h self.new result }
    {
        let count = self.seats.len() as u32;
        let Ok(()) = self.checked.reserve_log(count, count * MOST_PAYLOAD) else {
            return Err(OutOfMemory);
        };
        // For the proof: the geometry is lawful, so no chunk has more than 4,096 bytes.
        let _geometry = self.checked.config().geometry();
        let mut still = true;
        for who in 0..count {
            still &= self.step(who);
        }
        Ok(still)
    }

    /// Lets a driver make its call, if it hasn't ended, and tells whether it changed nothing. The log must have room for any call.
    fn step(&mut self, who: u32) -> bool
        requires geometry { IsGeometry self.old.checked.config.geometry }
        requires going { IsGoing self.old }
        requires who { who < vec_len self.old.seats }
        requires entries { 1 ≤ self.old.checked.spare_entries }
        requires bytes { most_payload ≤ self.old.checked.spare_bytes }
        ensures room { self.new.room ≡ self.old.room }
        ensures config { self.new.checked.config ≡ self.old.checked.config }
        ensures entries { self.old.checked.spare_entries ≤ self.new.checked.spare_entries + 1 }
        ensures bytes { self.old.checked.spare_bytes ≤ self.new.checked.spare_bytes + most_payload }
        ensures seats { vec_len self.new.seats ≡ vec_len self.old.seats }
        ensures turn { (s : Setting) (frames : List Frame) (h : List Entry) → HasPlayed s frames h self.old → HadTurns s frames h (who ∷ []) self.new result }
    {
        self.seats[who as usize].step(&mut self.checked, who)
    }
}

/// Whether the batch has items only where the call submits them.
fn is_asked(ask: Ask, items: &Batch) -> bool
    ensures { IsTrue result ↔ HasAsked ask items.now }
{
    match ask {
        Ask::Submit(_) => true,
        Ask::Reserve(..) | Ask::Peek(..) | Ask::Release(..) | Ask::Swap(..) | Ask::Look(_) => {
            items.is_empty()
        }
    }
}

/// For how many rounds nothing has changed, by whether anything changed in the last one.
fn still_after(still: u32, quiet: bool) -> u32
    requires { still < 64 }
    ensures more { IsTrue quiet → result ≡ still + 1 }
    ensures none { (IsTrue quiet → ⊥) → result ≡ 0 }
{
    if quiet { still + 1 } else { 0 }
}
