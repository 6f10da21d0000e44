//! What a seat of the lock's table knows, the rule of the table, and what each of its steps tells. No value of these
//! types is made: they say what contracts know (`specs/Rule`, `specs/Plays`).
use atomic_table::{Join, Play, Split, TableRule};
use std::marker::PhantomData;
use std::snapshot::Snapshot;

/// A value that has a name, by which a lock knows it again.
pub trait Named {
    /// The type of the name. No value of it is made.
    type Name;

    ghost name: { Self → Self.Name };
}

/// What a seat knows. No value of it is made.
pub struct Facts<N> {
    /// The name of the lock's value.
    pub name: N,
    /// The number of the lock's hands.
    pub hands: u32,
    /// The numbers of the hands that it stands for. A clause reads an array as a list, of any length.
    pub mine: [u32; 0],
    /// Whether it holds the value.
    pub holds: bool,
    /// The numbers that its swaps found, in order.
    pub found: [u64; 0],
}

/// What a seat knows, or that it was put into another: then it is spent.
pub enum Known<N> {
    Spent,
    Sees(Facts<N>),
}

/// What the table is told once.
pub struct Key<T> {
    /// The value that the lock was made with.
    pub kept: Snapshot<T>,
    pub hands: u32,
}

impl<T> Drop for Key<T> {
    fn drop(self) {
        let Self { kept, hands: _ } = self;
        drop(kept);
    }
}

/// The rule of the lock's table.
pub struct Law<T> {
    marker: PhantomData<T>,
}

impl<T: Named> TableRule<Option<T>, Known<T::Name>, Key<T>> for Law<T> {
    ghost use Rattle.xsk_lock.specs.Rule.{Rule, newcomer};

    ghost holds = { λ k s. Rule T.name (T.name k.kept.value) k.hands s };

    ghost first = { λ k. newcomer (T.name k.kept.value) k.hands };
}

/// The swap of the word to 1, which takes the slot where it found 0.
pub struct LockStep<T> {
    marker: PhantomData<T>,
}

impl<T: Named> Play<Option<T>, Known<T::Name>> for LockStep<T> {
    ghost use Rattle.xsk_lock.specs.Plays.{locks};

    ghost then = { locks T.name };
}

/// The store of 0, which gives the slot home.
pub struct UnlockStep;

impl<T, N> Play<Option<T>, Known<N>> for UnlockStep {
    ghost use Rattle.xsk_lock.specs.Plays.{unlocks};

    ghost then = { unlocks };
}

/// The first hand's number goes to a seat of its own.
pub struct HandSplit;

impl<N> Split<Known<N>> for HandSplit {
    ghost use Rattle.xsk_lock.specs.Rule.{first_hand, other_hands};

    ghost left = { other_hands };

    ghost right = { first_hand };
}

/// A seat gets the hands' numbers of another.
pub struct HandJoin;

impl<N> Join<Known<N>> for HandJoin {
    ghost use Rattle.xsk_lock.specs.declared.view.Known.TheVariants.{Spent};
    ghost use Rattle.xsk_lock.specs.Rule.{both_hands};

    ghost both = { both_hands };

    ghost spent = { Spent };
}
