//! The laws, each the contract of a function that does nothing. They are stated in `specs/Laws.antt` and `specs/Until.antt`.

ghost use Rattle.xsk_ended.specs.Laws.{EndedIsWithin, EndedLeavesWithin, EndedBouncedAsSaid, EndedStrandNone, EndedLoseNoWakes};
ghost use Rattle.xsk_ended.specs.Until.{EndedAreForwarded, EndedAreExpected, AllAreForwarded, AllAreExpected};

/// All that the drivers of two paired ports sent on a queue is no more than what both ports received there, in packets and in bytes,
/// whatever applications change and whatever socket is closed.
pub fn ended_is_within()
    ensures { EndedIsWithin }
{}

/// All that a driver sent is no more, in packets and in bytes, than what is to bounce of what its port received and what the paired port
/// received, whatever applications change and whatever socket is closed.
pub fn ended_leaves_within()
    ensures { EndedLeavesWithin }
{}

/// The packets that a driver bounced are exactly those of its own port and queue that are to bounce, each once and in order.
pub fn ended_bounced_as_said()
    ensures { EndedBouncedAsSaid }
{}

/// All that a driver sent is what was forwarded by all classes together, on each lane until it was cut, and what bounced, and nothing
/// else.
pub fn ended_are_forwarded()
    ensures { EndedAreForwarded }
{}

/// Where the wire waits, it is what is expected by all classes together, on each lane until it was cut, and what bounces, and nothing
/// else.
pub fn ended_are_expected()
    ensures { EndedAreExpected }
{}

/// Where no socket is to be closed, what is forwarded until lanes were cut is all that is forwarded.
pub fn all_are_forwarded()
    ensures { AllAreForwarded }
{}

/// And so is what is expected.
pub fn all_are_expected()
    ensures { AllAreExpected }
{}

/// Where no item is changed no frame is stranded, whatever socket is closed: each that a driver peeked on its TX rings it has given to
/// COMPLETION.
pub fn ended_strand_none()
    ensures { EndedStrandNone }
{}

/// No wake is lost.
pub fn ended_lose_no_wakes()
    ensures { EndedLoseNoWakes }
{}
