//! A worker in the rounds, with its next call. The call and its items are lent to the object and written by the machine;
//! `awaits` says that the machine waits for its reply.
ghost use Rattle.std.specs.Prelude.{◌≡◌, ◌≤◌, ◌+◌, false, ℕ, List, [], IsTrue, ◌↔◌};
ghost use Rattle.xsk_umem.specs.declared.batch.Item.{Item};
ghost use Rattle.xsk_model.specs.Asks.{joined_call, joined_reply};
ghost use Rattle.xsk_model.specs.OtherWords.{changes};
ghost use Rattle.xsk_umem.specs.Geometry.{IsGeometry};
ghost use Rattle.xsk_umem.specs.Frame.{Frame};
ghost use Rattle.xsk_model.specs.Entry.{Entry, own};
ghost use Rattle.xsk_model.specs.Expected.{expected_of, nothing};
ghost use Rattle.xsk_model.specs.declared.call.Act.TheVariants.{Call as Calls, Ended as IsEnd};
ghost use Rattle.xsk_model.specs.declared.call.Call.{Call};
ghost use Rattle.xsk_plain.specs.Engine.{CanPerform};
ghost use Rattle.xsk_turns.specs.Stepping.{joined_ask, IsGivenBack};
ghost use Rattle.xsk_turns.specs.Workers.{Setting};
ghost use Rattle.xsk_machine.specs.Acts.{IsActAfter};
ghost use Rattle.xsk_sim.specs.Given.{IsGivenBack-prop};
ghost use Rattle.xsk_sim.specs.Rooms.{most_payload};
ghost use Rattle.xsk_sim.specs.Turning.{HasRun, TakesTurn, Notes};

use crate::server::Server;
use xsk_machine::{Machine, is_quiet};
use xsk_model::Ask;
use xsk_umem::Batch;

/// A worker in the rounds, with the call that it makes next (none where it has ended) and the batch that is lent to its
/// calls, in which the items of a Submit stand. Of a driver it notes how many packets had their disposals at its last call.
#[derive(Drop)]
pub(crate) struct Seat<M: Machine> {
    machine: M,
    ask: Option<Ask>,
    items: Batch,
    settled: usize,
    ghost awaits: { M.expected machine ≡ expected_of (joined_ask ask items) },
    ghost given_back: { IsGivenBack ask items } by { IsGivenBack-prop ask items },
}

impl<M: Machine> Seat<M> {
    pub(crate) fn new(machine: M) -> Seat<M>
        requires { M.expected machine ≡ nothing }
        ensures settled { result.settled ≡ 0 }
        ensures stands { (s : Setting) (who : ℕ) → M.is_new s who machine
            → M.stands s who result.machine (joined_ask result.ask result.items) [] × IsActAfter s who (joined_ask result.ask result.items) [] }
    {
        let mut machine = machine;
        let mut items = Batch::new();
        let mut ask = None;
        machine.step(None, &mut items, &mut ask);
        Seat {
            machine,
            ask,
            items,
            settled: 0,
        }
    }

    /// Whether the worker has ended.
    pub(crate) fn has_ended(&self) -> bool
        ensures { IsTrue result ↔ (joined_ask self.now.ask self.now.items ≡ IsEnd) }
    {
        self.ask.is_none()
    }

    pub(crate) fn machine(&self) -> &M
        ensures { result.now ≡ self.now.machine }
    {
        &self.machine
    }

    pub(crate) fn into_machine(self) -> M
        ensures { result ≡ self.machine }
    {
        let Seat { machine, .. } = self;
        machine
    }

    /// Makes the worker's next call, if it hasn't ended, and tells whether it changed nothing: neither the object nor the
    /// number of packets that have their disposals. It must be a call that can be performed, and there must be
    /// room for any call.
    pub(crate) fn step<S: Server>(&mut self, server: &mut S, who: u32) -> bool
        requires geometry { IsGeometry (S.seen server.old).engine.config.geometry }
        requires can { (call : Call) → joined_ask self.old.ask self.old.items ≡ Calls call → CanPerform (S.seen server.old).engine.config (S.seen server.old).engine.rings call }
        requires entries { 1 ≤ (S.seen server.old).engine.spare_entries }
        requires bytes { most_payload ≤ (S.seen server.old).engine.spare_bytes }
        ensures config { (S.seen server.new).engine.config ≡ (S.seen server.old).engine.config }
        ensures entries { (S.seen server.old).engine.spare_entries ≤ (S.seen server.new).engine.spare_entries + 1 }
        ensures bytes { (S.seen server.old).engine.spare_bytes ≤ (S.seen server.new).engine.spare_bytes + most_payload }
        ensures turn { (s : Setting) (frames : List Frame) (h : List Entry) → HasRun s frames h (S.seen server.old)
            → M.stands s who self.old.machine (joined_ask self.old.ask self.old.items) (own who h)
            → IsActAfter s who (joined_ask self.old.ask self.old.items) (own who h)
            → (t : TakesTurn s frames who h (M.stands s who self.new.machine (joined_ask self.new.ask self.new.items)) (joined_ask self.new.ask self.new.items) (S.seen server.new))
            × Notes (joined_ask self.old.ask self.old.items) self.old.settled (M.has_settled self.old.machine) self.new.settled result t.entries }
    {
        let Some(ask) = self.ask else {
            return true;
        };
        let settled = self.machine.settled();
        let answer = server.serve(who, ask, &mut self.items);
        let still = is_quiet(ask, answer, self.settled, settled);
        self.settled = settled;
        self.machine
            .step(Some(answer), &mut self.items, &mut self.ask);
        still
    }
}
