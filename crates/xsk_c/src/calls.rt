//! The calls that C makes for an application, and the drivers' rounds.
ghost use Rattle.std.specs.Prelude.{◌≡◌, [], IfErr, IfOk};
ghost use Rattle.xsk_model.specs.Asks.{HasAnswered, HasAsked, joined_call};
ghost use Rattle.xsk_c.specs.Calls.{Called, outcome_of, geometry_of, Makes, Submits, Peeks};
ghost use Rattle.xsk_c.specs.Live.{OnCall, OnRing};
ghost use Rattle.xsk_c.specs.Purse.{Writes};
ghost use Rattle.xsk_c.specs.Rounds.{HasRound, HasRounds};

use crate::answers::{
    COUNT, DONE, NO_MEMORY, NO_SUCH, number_in, number_of_answer, number_of_condition,
};
use crate::items::{Asked, Desc, ask_of, ring_of, take_items, write_descs};
use crate::state::State;
use xsk_bench::Unserved;
use xsk_model::{Answer, Ask};
use xsk_umem::{Batch, MOST_ITEMS};

impl State {
    /// Makes a call for an application, with the items of a Submit taken from the batch and those of a Peek put there, or tells the
    /// number of why it isn't made.
    fn serve(&mut self, app: u32, ask: Ask) -> Result<Answer, u32>
        requires { HasAsked ask self.old.items }
        ensures called { Called self.old.bench app (joined_call ask self.old.items) self.new.bench (outcome_of result self.new.items) }
        ensures answered { IfOk result (λ answer. HasAnswered answer self.new.items) }
        ensures left { IfErr result (λ number. self.new.items ≡ self.old.items) }
        ensures purse { self.new.purse ≡ self.old.purse }
    {
        // For the proof: the log is that of a history which was played.
        let _log = self.bench.log();
        match self.bench.serve(app, ask, &mut self.items) {
            Ok(answer) => Ok(answer),
            Err(Unserved::Illegal(why)) => Err(number_of_condition(why)),
            Err(Unserved::StrayItems) => unreachable!(),
            Err(Unserved::OutOfMemory) => Err(NO_MEMORY),
        }
    }

    /// Makes a call that moves no items. The number of its reply is told, where it has one.
    pub(crate) fn make(&mut self, app: u32, asked: &Asked, told: &mut u64) -> u32
        ensures { OnCall asked.now self.old self.new result (told.new ≡ told.old) (λ call. Makes self.old self.new app call told.old told.new result) }
    {
        let Some(ask) = ask_of(asked) else {
            return NO_SUCH;
        };
        empty(&mut self.items);
        match self.serve(app, ask) {
            Ok(answer) => {
                *told = number_in(answer, *told);
                number_of_answer(answer)
            }
            Err(number) => number,
        }
    }

    /// Submits items of descriptors, each with the frame of its address.
    pub(crate) fn submit(&mut self, app: u32, kind: u32, index: u32, descs: &[Desc]) -> u32
        ensures { OnRing kind index self.old self.new result Unit (λ r. Submits self.old self.new app r descs.now result) }
    {
        let Some(ring) = ring_of(kind, index) else {
            return NO_SUCH;
        };
        if descs.len() > MOST_ITEMS as usize {
            return COUNT;
        }
        empty(&mut self.items);
        let geometry = self.bench.config().geometry();
        take_items(&mut self.purse, geometry, descs, &mut self.items);
        match self.serve(app, Ask::Submit(ring)) {
            Ok(answer) => number_of_answer(answer),
            Err(number) => {
                self.purse.put_all(&mut self.items);
                number
            }
        }
    }

    /// Takes items from a ring, as many as there are descriptors.
    pub(crate) fn peek(
        &mut self,
        app: u32,
        kind: u32,
        index: u32,
        descs: &mut [Desc],
        count: &mut u32,
    ) -> u32
        ensures { OnRing kind index self.old self.new result ((descs.new ≡ descs.old) × (count.new ≡ count.old)) (λ r. Peeks self.old self.new app r descs.old descs.new count.old count.new result) }
    {
        let Some(ring) = ring_of(kind, index) else {
            return NO_SUCH;
        };
        empty(&mut self.items);
        let wanted = descs.len().min(64) as u32;
        match self.serve(app, Ask::Peek(ring, wanted)) {
            Ok(answer) => {
                *count = self.items.len();
                write_descs(&self.items, descs);
                self.purse.put_all(&mut self.items);
                number_of_answer(answer)
            }
            Err(number) => number,
        }
    }

    /// Writes bytes to the frame of an address, from the address on, if it is there and they fit.
    pub(crate) fn write(&mut self, addr: u64, bytes: &[u8]) -> u32
        ensures bench { self.new.bench ≡ self.old.bench }
        ensures bytes { Writes (geometry_of self.old) addr bytes.now self.old.purse.frames.items self.new.purse.frames.items result }
    {
        let geometry = self.bench.config().geometry();
        self.purse.write(geometry, addr, bytes)
    }

    /// Lets each driver that hasn't ended make one call, and tells whether these changed nothing.
    pub(crate) fn round(&mut self, still: &mut bool) -> u32
        ensures round { HasRound self.old.bench self.new.bench still.old still.new result }
        ensures purse { self.new.purse ≡ self.old.purse }
    {
        match self.bench.round() {
            Ok(quiet) => {
                *still = quiet;
                DONE
            }
            Err(_) => NO_MEMORY,
        }
    }

    /// Lets the drivers make rounds until they wait, but no more than so many, and tells whether they wait.
    pub(crate) fn run_drivers(&mut self, most: u32, wait: &mut bool) -> u32
        ensures rounds { HasRounds self.old.bench most self.new.bench wait.old wait.new result }
        ensures purse { self.new.purse ≡ self.old.purse }
    {
        match self.bench.run_drivers(most) {
            Ok(waits) => {
                *wait = waits;
                DONE
            }
            Err(_) => NO_MEMORY,
        }
    }
}

/// Empties a batch.
fn empty(items: &mut Batch)
    ensures { items.new ≡ [] }
{
    if !items.is_empty() {
        *items = Batch::new();
    }
}
