//! The laws of runs on threads, each the contract of a function that does nothing. They are stated in `specs/Forwarded.antt`.

ghost use Rattle.xsk_workers.specs.Forwarded.{AllAreForwarded, AllAreExpected, AllAreForwardedUntil, AllAreExpectedUntil};

/// What each driver sent, where no socket is closed, is what the paired port's driver delivered, whatever the wire does, and what
/// bounced of its own packets.
pub fn all_are_forwarded()
    ensures { AllAreForwarded }
{}

/// Where the wire waits, it is what is expected of the input.
pub fn all_are_expected()
    ensures { AllAreExpected }
{}

/// Where a socket is closed, it is what the paired port's driver delivered, on each lane until it was cut, and what bounced.
pub fn all_are_forwarded_until()
    ensures { AllAreForwardedUntil }
{}

/// And where the wire waits, what is expected of the input, on each lane until it was cut, and what bounces.
pub fn all_are_expected_until()
    ensures { AllAreExpectedUntil }
{}
