//! The laws of histories of the object, each the contract of a function that does nothing. They are stated in `specs/Laws.antt`.

ghost use Rattle.xsk_sides.specs.Laws.{Journals, TellsAll, TwoParties};

/// Each call on a ring is told, as one on that ring, and no other call is.
pub fn tells_all()
    ensures { TellsAll }
{}

/// Behind the calls that fill FILL, with the drivers as the kernel, the calls of a history are one of two parties.
pub fn two_parties()
    ensures { TwoParties }
{}

/// So the applications' calls are possible, by the rules of copy mode and by all wider ones.
pub fn journals()
    ensures { Journals }
{}
