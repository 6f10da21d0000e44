//! The laws of bounded change, each the contract of a function that does nothing. They are stated in `specs/Bounds.antt`.

ghost use Rattle.xsk_bounds.specs.Bounds.{FewChanges, FewChangesWithClosings};

/// Where no socket is closed and each caller's own calls and replies are a run, the object changes no more often than the packets,
/// the frames and the configuration allow, in whatever order the calls come.
#[tactic(auto, using(crate::proofs::Bounded::changes_bounded))]
pub fn changes_bounded()
    ensures { FewChanges }
{}

/// In every regular configuration it changes no more often than that, and 78 times where a socket is closed.
#[tactic(auto, using(crate::proofs::Bounded::bounded_with_closings))]
pub fn bounded_with_closings()
    ensures { FewChangesWithClosings }
{}
