//! The lock and its calls. A hand takes the value behind a swap that found 0, and puts it back before it stores 0. That
//! no two have it at once is the rule of the table (`specs/Rule`), which each step keeps under every interleaving.
ghost use Rattle.std.specs.Prelude.{◌≡◌, ◌⊎◌, ◌<◌, ◌≤◌, ◌-◌, ℕ, true, false, [], ◌∷◌, ◌++◌, length, get_or, vec_capacity, IsNone, MatchOption, IfOk, IfErr, ◌↔◌};
ghost use mathlib.Core.Option.{some};
ghost use lib.ListN.{get_elem?};
ghost use Rattle.xsk_lock.specs.declared.view.Facts.{Facts as Knowledge};
ghost use Rattle.xsk_lock.specs.declared.view.Known.TheVariants.{Sees};
ghost use Rattle.xsk_lock.specs.Plays.{HeldElsewhere};
ghost use Rattle.xsk_lock.specs.Rule.{newcomer, mine, found};
ghost use Rattle.xsk_lock.specs.Held.{Belongs, HasAll, IsOff, IsOn, new_hands};

use crate::hand::Hand;
use crate::view::{HandJoin, HandSplit, Key, Known, Law, LockStep, Named, UnlockStep};
use atomic_table::{Seat, Shared, Table};
use std::alloc::Global;
use std::marker::Model;
use std::snapshot::Snapshot;

/// A lock on one value: a word that is 0 where the lock is free and 1 where a hand holds the value, and a slot, where the
/// value lies while the lock is free. Any number of threads share it. One that isn't closed is dropped, with the value if it
/// is free.
#[derive(Drop)]
pub struct Lock<T: Named> {
    pub(crate) table: Table<Option<T>, Known<T::Name>, Key<T>, Law<T>, Global>,
}

impl<T: Named> Model for Lock<T> {
    ghost use Rattle.std.specs.Prelude.{◌≡◌};
    ghost use Rattle.xsk_lock.specs.Held.{Face};

    ghost Value = { Face T.Name };

    ghost view = { λ l. record { table = l.table.shared.table_id; name = T.name l.table.shared.key.kept.value; hands = l.table.shared.key.hands } };

    ghost invariant = { λ l. (l.table.shared.table_id.words ≡ 1) × (l.table.shared.table_id.slots ≡ 1) };
}

/// There was no memory for a lock. The value comes back.
#[derive(Drop)]
pub struct Refused<T> {
    pub value: T,
}

/// The hands of a new lock, of the seat that has the numbers of all: the first numbers go to seats of their own.
fn deal<T: Named>(
    table: &Shared<Option<T>, Known<T::Name>, Key<T>, Law<T>>,
    seat: Seat<Option<T>, Known<T::Name>>,
    hands: u32,
    row: Vec<Hand<T>>,
) -> Vec<Hand<T>>
    requires table { (seat.table_id ≡ table.now.table_id) × (1 ≤ table.now.table_id.words) }
    requires seat { (1 ≤ hands) × (seat.me ≡ (newcomer (T.name table.now.key.kept.value) hands, [])) }
    requires row { (row.items ≡ []) × (hands ≤ vec_capacity row) }
    ensures { result.items ≡ new_hands (record { table = table.now.table_id; name = T.name table.now.key.kept.value; hands = hands }) }
{
    let mut seat = seat;
    let mut row = row;
    for first in 0..hands - 1 {
        row.push_reserved(Hand {
            seat: table.split_seat::<HandSplit>(&mut seat),
        });
    }
    row.push_reserved(Hand { seat });
    row
}

impl<T: Named> Lock<T> {
    /// A free lock with the value in it, and its hands, numbered from 0, each with its own number. There is at least one. It
    /// is refused for want of memory alone.
    pub fn new(alloc: Global, value: T, hands: u32) -> Result<(Lock<T>, Vec<Hand<T>>), Refused<T>>
        requires { 1 ≤ hands }
        ensures ok { IfOk result (λ made. (made.0.name ≡ T.name value) × (made.0.hands ≡ hands) × (made.1.items ≡ new_hands made.0)) }
        ensures refused { IfErr result (λ back. back.value ≡ value) }
    {
        let Ok(row) = Vec::with_capacity(alloc, hands as usize) else {
            return Err(Refused { value });
        };
        let Ok(mut slots) = Vec::with_capacity(alloc, 1) else {
            return Err(Refused { value });
        };
        let key = Key {
            kept: Snapshot::of(&value),
            hands,
        };
        slots.push_reserved(Some(value));
        match Table::new(alloc, &[0], slots, &key) {
            Ok((table, seat)) => {
                let row = deal(&table.shared, seat, hands, row);
                Ok((Lock { table }, row))
            }
            Err(back) => {
                let atomic_table::Refused { mut slots } = back;
                let first = slots.pop();
                slots.destroy_empty();
                let Some(Some(value)) = first else {
                    unreachable!()
                };
                Err(Refused { value })
            }
        }
    }
}

impl<T: Named> Lock<T> {
    /// Swaps the word for 1, and takes the value where it found 0. It gives the value, and the hand holds it; or it gives
    /// None, exactly where the swap found 1, and then another hand holds the value. It is one swap, and never waits: who
    /// wants the value tries again. The hand must be one of this lock that doesn't hold the value.
    pub fn try_lock(&self, hand: &mut Hand<T>) -> Option<T>
        requires belongs { Belongs self.now hand.old }
        requires off { IsOff hand.old }
        ensures belongs { Belongs self.now hand.new }
        ensures mine { mine hand.new.view ≡ mine hand.old.view }
        ensures found { (n : ℕ) × (found hand.new.view ≡ found hand.old.view ++ n ∷ []) × ((n ≡ 0) ⊎ (n ≡ 1)) × (IsNone result ↔ (n ≡ 1)) }
        ensures held { MatchOption result (IsOff hand.new) (λ x. IsOn hand.new × (T.name x ≡ self.now.name)) }
        ensures elsewhere { (v : Knowledge T.Name) → hand.old.view ≡ Sees v → IsNone result → HeldElsewhere T.name v }
    {
        if self.table.shared.swap::<LockStep<T>>(&mut hand.seat, 0, 1) == 0 {
            self.table.shared.exchange(&mut hand.seat, 0, None)
        } else {
            None
        }
    }

    /// Puts the value into the slot, and then stores 0. The hand must be one of this lock that holds the value, and the value
    /// must have the lock's name.
    pub fn unlock(&self, hand: &mut Hand<T>, value: T)
        requires belongs { Belongs self.now hand.old }
        requires on { IsOn hand.old }
        requires name { T.name value ≡ self.now.name }
        ensures belongs { Belongs self.now hand.new }
        ensures off { IsOff hand.new }
        ensures mine { mine hand.new.view ≡ mine hand.old.view }
        ensures found { found hand.new.view ≡ found hand.old.view }
    {
        let left = self.table.shared.exchange(&mut hand.seat, 0, Some(value));
        let None = left else { unreachable!() };
        self.table.shared.store::<UnlockStep>(&mut hand.seat, 0, 0);
    }

    /// Gives a hand the numbers of another, which is gone then. Both must be hands of this lock that don't hold the value.
    pub fn join(&self, hand: &mut Hand<T>, other: Hand<T>)
        requires belongs { Belongs self.now hand.old × Belongs self.now other }
        requires off { IsOff hand.old × IsOff other }
        ensures belongs { Belongs self.now hand.new }
        ensures off { IsOff hand.new }
        ensures mine { mine hand.new.view ≡ mine hand.old.view ++ mine other.view }
        ensures found { found hand.new.view ≡ found hand.old.view }
    {
        let Hand { seat } = other;
        self.table
            .shared
            .join_seat::<HandJoin>(&mut hand.seat, seat);
    }

    /// Ends the lock, and gives the value. The hand must be one of this lock that doesn't hold the value, and must have been
    /// given the numbers of all hands: so no other hand is left, and the value lies in its slot.
    pub fn close(self, hand: Hand<T>) -> T
        requires belongs { Belongs self hand }
        requires off { IsOff hand }
        requires all { HasAll self hand }
        ensures { T.name result ≡ self.name }
    {
        let Lock { table } = self;
        let Hand { seat } = hand;
        let mut closed = table.close_with(seat);
        let kept = closed.take(0);
        closed.free();
        let Some(value) = kept else { unreachable!() };
        value
    }
}

/// Threads may share a lock, and take its hands with them, where its value may be sent.
#[allow(dead_code)]
fn is_shared<T: Named + Send>(lock: &Lock<T>, hand: &Hand<T>) {
    needs_sync(lock);
    needs_send(hand);
}

fn needs_sync<T: Sync>(_shared: &T) {}

fn needs_send<T: Send>(_sent: &T) {}
