//! What came of a hand's steps (`specs/Visits.antt`).
ghost use Rattle.std.specs.Prelude.{◌≡◌};
ghost use Rattle.xsk_workers.specs.Visits.{came_of, together};

use xsk_shared_ends::Step;

/// What came of one step, or of several together.
#[derive(Clone, Copy)]
pub(crate) enum Came {
    /// There was nothing to take.
    Idle,
    /// Some ring had too little room, and no step moved all that it had.
    Full,
    /// Some step moved all that it had.
    Moved,
}

impl Came {
    /// What came of one step.
    pub(crate) fn of(step: Step) -> Came
        ensures { result ≡ came_of step }
    {
        match step {
            Step::Idle => Came::Idle,
            Step::Full(_) => Came::Full,
            Step::Moved => Came::Moved,
        }
    }

    /// What came of these steps and others.
    pub(crate) fn and(self, other: Came) -> Came
        ensures { result ≡ together self other }
    {
        match self {
            Came::Moved => Came::Moved,
            Came::Full => match other {
                Came::Moved => Came::Moved,
                Came::Full | Came::Idle => Came::Full,
            },
            Came::Idle => other,
        }
    }
}
