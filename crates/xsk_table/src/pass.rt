//! A caller's way to the rings: the step calls. What it keeps is tied to the history that it has seen (`specs/Held`, the
//! invariant), so a step changes both. From `place` to `raise_producer`, and from a Peek to its last `fetch`, no other
//! call is legal.
ghost use Rattle.std.specs.Prelude.{List, [], ◌∷◌, ◌++◌, ℕ, length, ◌≡◌, ◌+◌, ◌<◌, ◌≤◌};
ghost use Rattle.xsk_umem.specs.declared.batch.Item.{Item as Thing};
ghost use Rattle.xsk_model.specs.Asks.{joined_reply};
ghost use Rattle.xsk_model.specs.Config.{callers_of};
ghost use Rattle.xsk_model.specs.Entry.{own};
ghost use Rattle.xsk_model.specs.Object.{reserve_reply};
ghost use Rattle.xsk_model.specs.Own.{granted};
ghost use Rattle.xsk_model.specs.Legal.{IsLegal};
ghost use Rattle.xsk_model.specs.declared.call.Ring.{Ring as Line};
ghost use Rattle.xsk_model.specs.declared.call.Call.TheVariants.{Reserve, Submit, Peek, Release};
ghost use Rattle.xsk_model.specs.declared.call.Reply.TheVariants.{Submitted, Released};
ghost use Rattle.xsk_table.specs.View.{idle, placing, taking};
ghost use Rattle.xsk_table.specs.Rule.{lying};
ghost use Rattle.xsk_table.specs.Plays.{Extends, IsPlacing, still, items_reply};
ghost use Rattle.xsk_table.specs.Known.{free_after, out_after};
ghost use Rattle.xsk_table.specs.Held.{Belongs, IsAt, with_known};

use crate::board::Chair;
use crate::counting::Steps;
use crate::end::End;
use crate::layout::{CONSUMER, PRODUCER};
use crate::shared::Shared;
use crate::{moves, steps};
use std::marker::Model;
use std::sync::ledger::Ledger;
use xsk_model::{Answer, Ring};
use xsk_umem::{Batch, Item};

/// A caller's way to the rings. It knows what its own calls left, and holds no slot between them.
///
/// A step on a ring takes the ring's place (`Shared::ring_place`), which is found once for all steps of a call.
#[derive(Drop)]
pub struct Pass {
    pub(crate) seat: Chair,
    pub(crate) who: u32,
    /// What it keeps of each ring, by place.
    pub(crate) ends: Vec<End>,
    /// The items of the call in flight: those that are placed, or those that are left.
    pub(crate) flying: u32,
}

impl Model for Pass {
    ghost use Rattle.xsk_table.specs.Known.{AreSure, AllIsLeft};
    ghost use Rattle.xsk_table.specs.Held.{Holder, PassHolds, known_in};

    ghost Value = { Holder };

    ghost view = { λ p. record { table = p.seat.table_id; who = p.who; view = p.seat.me.0; known = known_in p.ends.items } };

    ghost invariant = { λ p. PassHolds p.seat.me.0 p.seat.me.1 p.who p.ends.items p.flying × AreSure p.seat.me.0.setup p.who p.seat.me.0.seen (known_in p.ends.items) × AllIsLeft p.seat.me.0.setup p.who p.seat.me.0.seen (known_in p.ends.items) };
}

/// The answer to a Reserve of `n` where so many places are free.
fn answer_by(n: u32, free: u32) -> Answer
    ensures { joined_reply result [] ≡ reserve_reply n free }
{
    if n <= free {
        Answer::Granted
    } else {
        Answer::Full(free)
    }
}

/// The places that a Reserve of `n` got.
fn granted_by(answer: Answer, n: u32) -> u32
    ensures { (r : Line) → result ≡ granted (Reserve r n) (joined_reply answer []) }
{
    match answer {
        Answer::Granted => n,
        _ => 0,
    }
}

impl Pass {
    /// The number of the caller.
    pub fn caller(&self) -> u32
        ensures caller { result ≡ self.now.who }
        ensures few { result < callers_of self.now.view.setup.config }
    {
        self.who
    }

    /// The look of a Reserve. It adds the Reserve with its reply to the history, and counts one look. The pass then knows
    /// how many places are left free.
    pub fn reserve_step<L: Ledger>(
        &mut self,
        shared: &Shared,
        ring: Ring,
        at: usize,
        n: u32,
        steps: &mut Steps<L>,
    ) -> Answer
        requires belongs { Belongs shared.now self.old }
        requires at { IsAt shared.now.setup.config ring at }
        requires legal { IsLegal self.old.view.setup.config (own self.old.who self.old.view.seen) self.old.who (Reserve ring n) }
        requires rests { self.old.view.flight ≡ idle }
        ensures same { (self.new.table ≡ self.old.table) × (self.new.who ≡ self.old.who) }
        ensures flight { self.new.view.flight ≡ idle }
        ensures history { Extends self.old.view.setup self.old.who (Reserve ring n) (joined_reply result []) self.old.view self.new.view }
        ensures known { self.new.known ≡ with_known self.old ring (free_after self.old.view.setup self.new.view.seen ring) }
        ensures steps { steps.new ≡ steps.old + 1 }
    {
        let end = &mut self.ends[at];
        let free = steps::reserve_step(
            &shared.board,
            &mut self.seat,
            self.who,
            ring,
            n,
            end.far,
            end.mask + 1,
            end.base + CONSUMER,
            steps,
        );
        let answer = answer_by(n, free);
        let got = granted_by(answer, n);
        end.far = end.far.wrapping_add(got);
        end.known = free - got;
        answer
    }

    /// Puts the first item of `rest` into its entry, behind those that are placed, and its frame into its slot. The
    /// placed items and `rest` must make a legal Submit. It adds nothing to the history.
    pub fn place(&mut self, shared: &Shared, ring: Ring, at: usize, rest: &mut Batch)
        requires belongs { Belongs shared.now self.old }
        requires at { IsAt shared.now.setup.config ring at }
        requires flight { IsPlacing ring self.old.view.flight }
        requires legal { IsLegal self.old.view.setup.config (own self.old.who self.old.view.seen) self.old.who (Submit ring (lying self.old.view.flight ++ rest.old)) }
        requires some { 1 ≤ length rest.old }
        ensures same { (self.new.table ≡ self.old.table) × (self.new.who ≡ self.old.who) }
        ensures known { self.new.known ≡ self.old.known }
        ensures placed { (x : Thing) × (rest.old ≡ x ∷ rest.new) × (self.new.view ≡ record self.old.view { flight = placing ring (lying self.old.view.flight ++ x ∷ []) }) }
    {
        let Some(item) = rest.pop_front() else {
            unreachable!()
        };
        let end = self.ends[at];
        moves::place(
            &shared.board,
            &mut self.seat,
            self.who,
            ring,
            item,
            end.near,
            self.flying,
            end.base,
            end.mask,
        );
        self.flying += 1;
    }

    /// Raises the producer over the items that are placed. It adds the Submit to the history.
    pub fn raise_producer(&mut self, shared: &Shared, ring: Ring, at: usize)
        requires belongs { Belongs shared.now self.old }
        requires at { IsAt shared.now.setup.config ring at }
        requires flight { self.old.view.flight ≡ placing ring (lying self.old.view.flight) }
        requires legal { IsLegal self.old.view.setup.config (own self.old.who self.old.view.seen) self.old.who (Submit ring (lying self.old.view.flight)) }
        ensures same { (self.new.table ≡ self.old.table) × (self.new.who ≡ self.old.who) }
        ensures known { self.new.known ≡ self.old.known }
        ensures flight { self.new.view.flight ≡ idle }
        ensures history { Extends self.old.view.setup self.old.who (Submit ring (lying self.old.view.flight)) Submitted self.old.view self.new.view }
    {
        let end = &mut self.ends[at];
        steps::raise_producer(
            &shared.board,
            &mut self.seat,
            self.who,
            ring,
            end.near,
            self.flying,
            end.base + PRODUCER,
        );
        end.near = end.near.wrapping_add(self.flying);
        self.flying = 0;
    }

    /// The look of a Peek. It adds the Peek with its reply to the history, counts one look, and tells how many items
    /// there are, which `fetch` then gives. The pass then knows how many are left out.
    pub fn peek_step<L: Ledger>(
        &mut self,
        shared: &Shared,
        ring: Ring,
        at: usize,
        n: u32,
        steps: &mut Steps<L>,
    ) -> u32
        requires belongs { Belongs shared.now self.old }
        requires at { IsAt shared.now.setup.config ring at }
        requires legal { IsLegal self.old.view.setup.config (own self.old.who self.old.view.seen) self.old.who (Peek ring n) }
        requires rests { self.old.view.flight ≡ idle }
        ensures same { (self.new.table ≡ self.old.table) × (self.new.who ≡ self.old.who) }
        ensures history { (items : List Thing) × (length items ≡ result) × (self.new.view.flight ≡ still ring items) × Extends self.old.view.setup self.old.who (Peek ring n) (items_reply items) self.old.view self.new.view }
        ensures known { self.new.known ≡ with_known self.old ring (out_after self.old.view.setup self.new.view.seen ring) }
        ensures steps { steps.new ≡ steps.old + 1 }
    {
        let end = &mut self.ends[at];
        let out = steps::peek_step(
            &shared.board,
            &mut self.seat,
            self.who,
            ring,
            n,
            end.far,
            end.base + PRODUCER,
            steps,
        );
        let count = n.min(out);
        end.far = end.far.wrapping_add(count);
        end.known = out - count;
        self.flying = count;
        count
    }

    /// The next item of the last Peek, with its frame. It adds nothing to the history.
    pub fn fetch(&mut self, shared: &Shared, ring: Ring, at: usize) -> Item
        requires belongs { Belongs shared.now self.old }
        requires at { IsAt shared.now.setup.config ring at }
        requires flight { (x : Thing) × (left : List Thing) × (self.old.view.flight ≡ taking ring (x ∷ left)) }
        ensures same { (self.new.table ≡ self.old.table) × (self.new.who ≡ self.old.who) }
        ensures known { self.new.known ≡ self.old.known }
        ensures taken { (x : Thing) (left : List Thing) → self.old.view.flight ≡ taking ring (x ∷ left) → (result ≡ x) × (self.new.view ≡ record self.old.view { flight = still ring left }) }
    {
        let left = self.flying;
        let end = self.ends[at];
        let position = end.far.wrapping_sub(left);
        let item = moves::fetch(
            &shared.board,
            &mut self.seat,
            shared.config.geometry(),
            self.who,
            ring,
            position,
            end.base,
            end.mask,
        );
        self.flying = left - 1;
        item
    }

    /// Raises the consumer. It adds the Release to the history.
    pub fn raise_consumer(&mut self, shared: &Shared, ring: Ring, at: usize, n: u32)
        requires belongs { Belongs shared.now self.old }
        requires at { IsAt shared.now.setup.config ring at }
        requires legal { IsLegal self.old.view.setup.config (own self.old.who self.old.view.seen) self.old.who (Release ring n) }
        requires rests { self.old.view.flight ≡ idle }
        ensures same { (self.new.table ≡ self.old.table) × (self.new.who ≡ self.old.who) }
        ensures known { self.new.known ≡ self.old.known }
        ensures flight { self.new.view.flight ≡ idle }
        ensures history { Extends self.old.view.setup self.old.who (Release ring n) Released self.old.view self.new.view }
    {
        let end = &mut self.ends[at];
        steps::raise_consumer(
            &shared.board,
            &mut self.seat,
            self.who,
            ring,
            n,
            end.near,
            end.base + CONSUMER,
        );
        end.near = end.near.wrapping_add(n);
    }
}
