//! What came of a turn.
ghost use Rattle.std.specs.Prelude.{◌≡◌, ◌⊎◌, ◌↔◌};
ghost use Rattle.xsk_shared_ends.specs.declared.last.Turned.TheVariants.{Moved as HasMoved, Ended as HasEnded};
ghost use Rattle.xsk_workers.specs.declared.pace.Pace.TheVariants.{Moved, Parked, Ended};

use xsk_shared_ends::Turned;

/// What came of a turn.
#[derive(Clone, Copy)]
pub(crate) enum Pace {
    /// Its call moved something.
    Moved,
    /// Its call put so many items on a ring.
    Put(u32),
    /// It found a ring full or empty, or looked at a mark.
    Waited,
    /// Its driver found that it wasn't kicked, and looks again.
    Parked,
    /// It had ended before.
    Ended,
}

impl Pace {
    /// What came of a turn of an application's last hand.
    pub(crate) fn of_last(turned: Turned) -> Pace
        ensures moved { result ≡ Moved ↔ turned ≡ HasMoved }
        ensures parked { result ≡ Parked → ⊥ }
        ensures ended { result ≡ Ended ↔ turned ≡ HasEnded }
    {
        match turned {
            Turned::Moved => Pace::Moved,
            Turned::Waited => Pace::Waited,
            Turned::Ended => Pace::Ended,
        }
    }

    /// What came of two turns together: the busier of both.
    pub(crate) fn and(self, other: Pace) -> Pace
        ensures moved { result ≡ Moved ↔ (self ≡ Moved) ⊎ (other ≡ Moved) }
        ensures ended { result ≡ Ended ↔ (self ≡ Ended) × (other ≡ Ended) }
    {
        match self {
            Pace::Moved => Pace::Moved,
            Pace::Put(_) => match other {
                Pace::Moved => Pace::Moved,
                _ => self,
            },
            Pace::Waited => match other {
                Pace::Moved | Pace::Put(_) => other,
                _ => Pace::Waited,
            },
            Pace::Parked => match other {
                Pace::Ended => Pace::Parked,
                _ => other,
            },
            Pace::Ended => other,
        }
    }
}
