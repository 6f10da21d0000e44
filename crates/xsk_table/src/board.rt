//! The words and slots that all callers share. Nothing else of the crate reads a word, and what another side's count is
//! read by counts the look. That each step keeps the rule (`specs/Rule`) is asked here, by the `Play` that it is given.
ghost use Rattle.std.specs.Prelude.{◌≡◌, ◌+◌, ◌<◌, ℕ, [], ◌∷◌, length, Option, IfOk, IfErr};
ghost use Rattle.xsk_umem.specs.Frame.{Frame as Body};
ghost use mathlib.Core.Option.{none};
ghost use Rattle.std.specs.Mem.Slots.{slots_items, slots_len, IsFull};
ghost use Rattle.atomic_table.specs.Table.{step, Allows, Splits, Joins, Final, Seen, opening, rest};
ghost use Rattle.xsk_table.specs.View.{newcomer};
ghost use Rattle.xsk_table.specs.Rule.{Rule, all_callers};
ghost use Rattle.xsk_table.specs.Looks.{IsUncounted};

use crate::counting::Steps;
use crate::view::{Key, Law, View};
use atomic_table::{Closed, Join, Play, Refused, Seat, Split, Table};
use std::alloc::Global;
use std::marker::Model;
use std::sync::ledger::Ledger;
use xsk_umem::Frame;

/// The seat of a caller.
pub(crate) type Chair = Seat<Option<Frame>, View>;

/// The words and slots.
#[derive(Drop)]
pub struct Board {
    table: Table<Option<Frame>, View, Key, Law, Global>,
}

impl Model for Board {
    ghost use Rattle.xsk_table.specs.Held.{Board as Face};

    ghost Value = { Face };

    ghost view = { λ b. record { table = b.table.shared.table_id; setup = b.table.shared.key } };
}

impl Board {
    /// A new table with the seat of all callers. The slots come back where memory is wanting.
    pub(crate) fn open(
        words: &[u64],
        slots: Vec<Option<Frame>>,
        alloc: Global,
        key: &Key,
    ) -> Result<(Board, Chair), Vec<Option<Frame>>>
        requires { Rule key.now (opening words.now slots.items (newcomer key.now (all_callers key.now))) }
        ensures words { IfOk result (λ made. made.0.table.words ≡ length words.now) }
        ensures setup { IfOk result (λ made. made.0.setup ≡ key.now) }
        ensures seat { IfOk result (λ made. (made.1.table_id ≡ made.0.table) × (made.1.me ≡ (newcomer key.now (all_callers key.now), []))) }
        ensures refused { IfErr result (λ back. back.items ≡ slots.items) }
    {
        match Table::new(alloc, words, slots, key) {
            Ok((table, seat)) => Ok((Board { table }, seat)),
            Err(Refused { slots }) => Err(slots),
        }
    }

    /// A look at a word that isn't another side's count.
    #[inline(always)]
    pub(crate) fn look<M: Play<Option<Frame>, View>>(&self, seat: &mut Chair, word: usize) -> u64
        requires table { seat.old.table_id ≡ self.now.table }
        requires word { word < self.now.table.words }
        requires uncounted { IsUncounted self.now.setup.config seat.old.me.0.callers word }
        requires keeps { Allows (Rule self.now.setup) self.now.table.slots seat.old.id seat.old.me word (λ n. n) (M.then (step self.now.table.slots word 0 0 none) seat.old.me) }
        ensures same { (seat.new.table_id ≡ seat.old.table_id) × (seat.new.id ≡ seat.old.id) }
        ensures told { M.then (step self.now.table.slots word 0 0 none) seat.old.me result seat.new.me }
    {
        self.table.shared.load::<M>(seat, word)
    }

    /// A look at any word, which is counted.
    #[inline(always)]
    pub(crate) fn look_counted<M: Play<Option<Frame>, View>, L: Ledger>(
        &self,
        seat: &mut Chair,
        word: usize,
        steps: &mut Steps<L>,
    ) -> u64
        requires table { seat.old.table_id ≡ self.now.table }
        requires word { word < self.now.table.words }
        requires keeps { Allows (Rule self.now.setup) self.now.table.slots seat.old.id seat.old.me word (λ n. n) (M.then (step self.now.table.slots word 0 0 none) seat.old.me) }
        ensures same { (seat.new.table_id ≡ seat.old.table_id) × (seat.new.id ≡ seat.old.id) }
        ensures told { M.then (step self.now.table.slots word 0 0 none) seat.old.me result seat.new.me }
        ensures counted { steps.new ≡ steps.old + 1 }
    {
        steps.tick();
        self.table.shared.load::<M>(seat, word)
    }

    /// A look at the first word, which is no count.
    pub(crate) fn look_round<M: Play<Option<Frame>, View>>(&self, seat: &mut Chair)
        requires table { seat.old.table_id ≡ self.now.table }
        requires word { 0 < self.now.table.words }
        requires keeps { Allows (Rule self.now.setup) self.now.table.slots seat.old.id seat.old.me 0 (λ n. n) (M.then (step self.now.table.slots 0 0 0 none) seat.old.me) }
        ensures same { (seat.new.table_id ≡ seat.old.table_id) × (seat.new.id ≡ seat.old.id) }
        ensures told { (found : ℕ) × M.then (step self.now.table.slots 0 0 0 none) seat.old.me found seat.new.me }
    {
        self.table.shared.load::<M>(seat, 0);
    }

    #[inline(always)]
    pub(crate) fn store<M: Play<Option<Frame>, View>>(
        &self,
        seat: &mut Chair,
        word: usize,
        new: u64,
    )
        requires table { seat.old.table_id ≡ self.now.table }
        requires word { word < self.now.table.words }
        requires keeps { Allows (Rule self.now.setup) self.now.table.slots seat.old.id seat.old.me word (λ _. new) (λ _. M.then (step self.now.table.slots word new 0 none) seat.old.me new) }
        ensures same { (seat.new.table_id ≡ seat.old.table_id) × (seat.new.id ≡ seat.old.id) }
        ensures told { M.then (step self.now.table.slots word new 0 none) seat.old.me new seat.new.me }
    {
        self.table.shared.store::<M>(seat, word, new);
    }

    #[inline(always)]
    pub(crate) fn swap<M: Play<Option<Frame>, View>>(
        &self,
        seat: &mut Chair,
        word: usize,
        new: u64,
    ) -> u64
        requires table { seat.old.table_id ≡ self.now.table }
        requires word { word < self.now.table.words }
        requires keeps { Allows (Rule self.now.setup) self.now.table.slots seat.old.id seat.old.me word (λ _. new) (M.then (step self.now.table.slots word new 0 none) seat.old.me) }
        ensures same { (seat.new.table_id ≡ seat.old.table_id) × (seat.new.id ≡ seat.old.id) }
        ensures told { M.then (step self.now.table.slots word new 0 none) seat.old.me result seat.new.me }
    {
        self.table.shared.swap::<M>(seat, word, new)
    }

    /// Puts something else into the slot that was taken last.
    #[inline(always)]
    pub(crate) fn exchange(
        &self,
        seat: &mut Chair,
        slot: usize,
        new: Option<Frame>,
    ) -> Option<Frame>
        requires table { seat.old.table_id ≡ self.now.table }
        requires slot { (old : Option Body) × (seat.old.me.1 ≡ (slot, old) ∷ rest seat.old.me.1) }
        ensures same { (seat.new.table_id ≡ seat.old.table_id) × (seat.new.id ≡ seat.old.id) }
        ensures was { seat.old.me.1 ≡ (slot, result) ∷ rest seat.old.me.1 }
        ensures now { seat.new.me ≡ (seat.old.me.0, (slot, new) ∷ rest seat.old.me.1) }
    {
        self.table.shared.exchange(seat, slot, new)
    }

    pub(crate) fn split_seat<M: Split<View>>(&self, seat: &mut Chair) -> Chair
        requires table { (seat.old.table_id ≡ self.now.table) × (0 < self.now.table.words) }
        requires keeps { Splits (Rule self.now.setup) seat.old.id seat.old.me.0 (M.left seat.old.me.0) (M.right seat.old.me.0) }
        ensures same { (seat.new.table_id ≡ seat.old.table_id) × (seat.new.id ≡ seat.old.id) × (result.table_id ≡ seat.old.table_id) }
        ensures left { seat.new.me ≡ (M.left seat.old.me.0, seat.old.me.1) }
        ensures right { result.me ≡ (M.right seat.old.me.0, []) }
    {
        self.table.shared.split_seat::<M>(seat)
    }

    pub(crate) fn join_seat<M: Join<View>>(&self, seat: &mut Chair, other: Chair)
        requires table { (seat.old.table_id ≡ self.now.table) × (other.table_id ≡ self.now.table) × (0 < self.now.table.words) }
        requires bare { other.me.1 ≡ [] }
        requires keeps { Joins (Rule self.now.setup) seat.old.id seat.old.me.0 other.id other.me.0 (M.both seat.old.me.0 other.me.0) M.spent }
        ensures same { (seat.new.table_id ≡ seat.old.table_id) × (seat.new.id ≡ seat.old.id) }
        ensures both { seat.new.me ≡ (M.both seat.old.me.0 other.me.0, seat.old.me.1) }
    {
        self.table.shared.join_seat::<M>(seat, other);
    }

    /// Ends the table, whose last state has the seat's view.
    pub(crate) fn close_with(self, seat: Chair) -> Closed<Option<Frame>, Global>
        requires { seat.table_id ≡ self.table }
        ensures full { IsFull result.slots }
        ensures slots { slots_len result.slots ≡ self.table.slots }
        ensures values { Final (Seen (Rule self.setup) seat.id seat.me.0) (slots_items result.words) (slots_items result.slots) }
    {
        let Board { table } = self;
        table.close_with(seat)
    }
}
