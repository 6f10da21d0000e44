//! Rounds, in which each worker makes one call. In which order is said in `specs/Order`; laws of runs speak of the
//! history that comes of it (`specs/Rounds`, `specs/Runs`), and of no order.
ghost use Rattle.std.specs.Prelude.{◌≡◌, ◌<◌, ◌≤◌, ◌+◌, ◌^◌, ◌↔◌, ℕ, List, IsTrue, [], ◌∷◌, vec_len, IfOk};
ghost use Rattle.xsk_umem.specs.Geometry.{IsGeometry};
ghost use Rattle.xsk_umem.specs.Frame.{Frame};
ghost use Rattle.xsk_model.specs.Entry.{Entry};
ghost use Rattle.xsk_turns.specs.Workers.{Setting};
ghost use Rattle.xsk_sim.specs.Rooms.{most_payload};
ghost use Rattle.xsk_sim.specs.Seats.{AreSeated, AreGoing, HadTurns, HadRound, HaveEnded};

use crate::order::Order;
use crate::seat::Seat;
use crate::server::Server;
use xsk_machine::AnyWorker;
use xsk_umem::OutOfMemory;

/// All workers: the drivers by their pairs, then the applications by their numbers.
#[derive(Drop)]
pub(crate) struct Workers<'a> {
    pub(crate) seats: Vec<Seat<AnyWorker<'a>>>,
}

impl Workers<'_> {
    fn count(&self) -> u32
        requires few { vec_len self.now.seats < 2 ^ 32 }
        ensures { result ≡ vec_len self.now.seats }
    {
        self.seats.len() as u32
    }

    /// Whether all workers have ended.
    pub(crate) fn have_ended(&self) -> bool
        ensures { IsTrue result ↔ HaveEnded self.now }
    {
        for seat in &self.seats {
            if !seat.has_ended() {
                return false;
            }
        }
        true
    }

    /// Lets each worker that hasn't ended make one call, from one worker on in turn, and tells whether these changed nothing.
    /// There is room for all of them before the first.
    pub(crate) fn round<S: Server>(
        &mut self,
        server: &mut S,
        order: &mut Order,
    ) -> Result<bool, OutOfMemory>
        requires geometry { IsGeometry (S.seen server.old).engine.config.geometry }
        requires going { AreGoing self.old (S.seen server.old) }
        ensures config { (S.seen server.new).engine.config ≡ (S.seen server.old).engine.config }
        ensures seats { vec_len self.new.seats ≡ vec_len self.old.seats }
        ensures round { (s : Setting) (frames : List Frame) (h : List Entry) → AreSeated s frames h self.old (S.seen server.old)
            → IfOk result (HadRound s frames h order.old.number order.new.number self.new (S.seen server.new)) }
    {
        let callers = self.count();
        server.make_room(callers)?;
        let start = order.start(callers);
        let mut who = start;
        let mut still = true;
        for _turn in 0..callers {
            still &= self.step(server, who);
            who += 1;
            if who == callers {
                who = 0;
            }
        }
        Ok(still)
    }

    /// Lets the worker with this number make its call, if it hasn't ended, and tells whether it changed nothing. There must
    /// be room for any call.
    fn step<S: Server>(&mut self, server: &mut S, who: u32) -> bool
        requires geometry { IsGeometry (S.seen server.old).engine.config.geometry }
        requires going { AreGoing self.old (S.seen server.old) }
        requires who { who < vec_len self.old.seats }
        requires entries { 1 ≤ (S.seen server.old).engine.spare_entries }
        requires bytes { most_payload ≤ (S.seen server.old).engine.spare_bytes }
        ensures config { (S.seen server.new).engine.config ≡ (S.seen server.old).engine.config }
        ensures entries { (S.seen server.old).engine.spare_entries ≤ (S.seen server.new).engine.spare_entries + 1 }
        ensures bytes { (S.seen server.old).engine.spare_bytes ≤ (S.seen server.new).engine.spare_bytes + most_payload }
        ensures seats { vec_len self.new.seats ≡ vec_len self.old.seats }
        ensures turn { (s : Setting) (frames : List Frame) (h : List Entry) → AreSeated s frames h self.old (S.seen server.old)
            → HadTurns s frames h (who ∷ []) self.new (S.seen server.new) result }
    {
        self.seats[who as usize].step(server, who)
    }
}
