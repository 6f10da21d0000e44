//! What a thread tries a lock with.
use crate::view::{Known, Named};
use atomic_table::Seat;
use std::marker::Model;

/// A hand of a lock. It knows the numbers of the hands that it stands for, whether it holds the value, and what its swaps
/// found. One that is dropped leaves its lock as it is, so that this can't be closed any more, and where the hand held the
/// value no other hand gets it.
#[derive(Drop)]
pub struct Hand<T: Named> {
    pub(crate) seat: Seat<Option<T>, Known<T::Name>>,
}

impl<T: Named> Model for Hand<T> {
    ghost use Rattle.xsk_lock.specs.Held.{Holder, IsHeld};

    ghost Value = { Holder T.Name };

    ghost view = { λ h. record { table = h.seat.table_id; view = h.seat.me.0 } };

    ghost invariant = { λ h. IsHeld h.seat.me };
}
