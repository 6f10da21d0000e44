//! The laws of all workers' runs, each the contract of a function that does nothing. They are stated in `specs/Laws.antt`
//! and `specs/Lost.antt`, of whole runs, in `specs/Reasons.antt`, of why a wire that drops loses a packet, in `specs/Woken.antt`, of all runs, and in `specs/Closed.antt`, of a socket that is closed.

ghost use Rattle.xsk_laws.specs.Laws.{SentIsForwarded, SentIsExpected, BouncedAsSaid, OnlyCompleted, AllAreForwarded, NothingElseIsSent, CompletedAreForwarded, CompletedAreExpected, AllIsForwarded, AllIsExpected, NoneAreStranded, AllAreBoth, SentIsWithin, LeavesOnce, AllIsWithin, ExpectedIsOther};
ghost use Rattle.xsk_laws.specs.Closed.{NothingBehindClosing, ClosedIsEmpty, AllComeHome, FirstAreSent};
ghost use Rattle.xsk_laws.specs.Cut.{NothingIsCut, SentIsForwardedUntil, SentIsExpectedUntil};
ghost use Rattle.xsk_laws.specs.Lost.{ForwardedIsUnlost, OnlyRedirectedAreLost};
ghost use Rattle.xsk_laws.specs.Reasons.{LosesForReason, LosesForReasonInHistories, LostForReason, LostForReasonInRuns};
ghost use Rattle.xsk_laws.specs.Woken.{NoWakesAreLost, NoHandLosesWakes, NoneIsLostInWholeRuns};

/// What a driver sent by the socket of a class is exactly what the paired port's driver delivered to the paired socket, each
/// packet whole and in order, whatever the wire does.
pub fn sent_is_forwarded()
    ensures { SentIsForwarded }
{}

/// What the paired port's driver delivered to a socket is exactly what goes there of the packets that the wire didn't lose.
pub fn forwarded_is_unlost()
    ensures { ForwardedIsUnlost }
{}

/// A wire loses only packets that go to a socket of their queue.
pub fn only_redirected_are_lost()
    ensures { OnlyRedirectedAreLost }
{}

/// Where the wire waits, it is exactly the paired port's packets that go to that socket.
pub fn sent_is_expected()
    ensures { SentIsExpected }
{}

/// The packets that a driver bounced are exactly those of its own port and queue that are to bounce, each once and in order.
pub fn bounced_as_said()
    ensures { BouncedAsSaid }
{}

/// Where no rule of the chain lets a packet bounce, all that a driver sent was completed.
pub fn only_completed()
    ensures { OnlyCompleted }
{}

/// All that a driver sent is what was forwarded by all classes together and what bounced, and nothing else.
pub fn all_are_forwarded()
    ensures { AllAreForwarded }
{}

/// Where the wire waits, it is what is expected by all classes together and what bounces, and nothing else.
pub fn nothing_else_is_sent()
    ensures { NothingElseIsSent }
{}

/// All that a driver completed is what was forwarded by all classes together, and nothing else.
pub fn completed_are_forwarded()
    ensures { CompletedAreForwarded }
{}

/// Where the wire waits, it is what is expected by all classes together, and nothing else.
pub fn completed_are_expected()
    ensures { CompletedAreExpected }
{}

/// With one socket for each queue, what was forwarded by it is all that the driver completed.
pub fn all_is_forwarded()
    ensures { AllIsForwarded }
{}

/// Where the wire waits too, all that the driver completed is what is expected by that socket.
pub fn all_is_expected()
    ensures { AllIsExpected }
{}

/// Where no item is changed, no frame is stranded at the end: each that a driver peeked on its TX rings it has submitted on COMPLETION.
pub fn none_are_stranded()
    ensures { NoneAreStranded }
{}

/// All that a driver sent is, in packets and in bytes, what it completed and what bounced.
pub fn all_are_both()
    ensures { AllAreBoth }
{}

/// All that a driver completed is no more than what the paired port received, in packets and in bytes, whatever applications change.
pub fn sent_is_within()
    ensures { SentIsWithin }
{}

/// With what bounces of it, it is still no more: each packet that comes leaves at most once.
pub fn leaves_once()
    ensures { LeavesOnce }
{}

/// All that the drivers of two paired ports sent on a queue is no more than what both ports received there, in packets and in bytes.
pub fn all_is_within()
    ensures { AllIsWithin }
{}

/// With one queue and one socket on each port, and each port's cell holding its own socket, what is expected of a port are
/// all packets of the paired port that have 14 bytes up to the limit.
pub fn expected_is_other()
    ensures { ExpectedIsOther }
{}

/// No wake is lost: after each prefix of every history of the workers, where a driver is parked and entries wait on a ring whose
/// need-wakeup flag it has set, or its end is come, its kick is set or its application owes it one.
pub fn no_wakes_are_lost()
    ensures { NoWakesAreLost }
{}

/// So it is by any number of hands.
pub fn no_hand_loses_wakes()
    ensures { NoHandLosesWakes }
{}

/// So it is after each prefix of a history in which all workers have run to their ends.
pub fn none_is_lost_in_whole_runs()
    ensures { NoneIsLostInWholeRuns }
{}

/// In every legal history nothing is submitted on a socket's RX ring behind the acknowledgement that it is closed, and nothing on its
/// TX ring behind the closing.
pub fn nothing_behind_closing()
    ensures { NothingBehindClosing }
{}

/// Where an application has closed a socket and run to its end, nothing stands in the socket's RX ring, and nothing is held of it.
pub fn closed_is_empty()
    ensures { ClosedIsEmpty }
{}

/// At its end an application has submitted each frame that it took, on a TX ring or on the frame's home FILL ring: so what it took on the
/// lanes of a socket that it closed has come home.
pub fn all_come_home()
    ensures { AllComeHome }
{}

/// Whatever socket is closed, what a driver sent by the socket of a class is the first of what was delivered to the paired socket: as many
/// packets as its application passed on whole. Where none is closed they are all.
pub fn first_are_sent()
    ensures { FirstAreSent }
{}

/// Where no socket is to be closed no lane is cut.
pub fn nothing_is_cut()
    ensures { NothingIsCut }
{}

/// Where one is, what a driver sent by the socket of a class is what the driver of the paired port delivered to the paired socket: on the
/// two lanes of the socket that was closed the first packets, as many as the application passed on.
pub fn sent_is_forwarded_until()
    ensures { SentIsForwardedUntil }
{}

/// And where the wire waits it is what is expected there, on these lanes the first so many.
pub fn sent_is_expected_until()
    ensures { SentIsExpectedUntil }
{}

/// At each call that a driver makes, each packet that its attempts lost has its reason.
pub fn loses_for_reason()
    ensures { LosesForReason }
{}

/// So it is in every legal history, as far as the driver has come in it.
pub fn loses_for_reason_in_histories()
    ensures { LosesForReasonInHistories }
{}

/// So has each that they lost in a whole run.
pub fn lost_for_reason()
    ensures { LostForReason }
{}

/// And so has each that a port lost on a queue in a history of whole runs of all workers.
pub fn lost_for_reason_in_runs()
    ensures { LostForReasonInRuns }
{}
