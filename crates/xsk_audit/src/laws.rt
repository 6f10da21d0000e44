//! Laws of verdicts. A function here does nothing: its contract is the law, stated in `specs/Telling.antt` and `specs/Why.antt`.

ghost use Rattle.xsk_audit.specs.Telling.{OneVerdict};
ghost use Rattle.xsk_audit.specs.Why.{WhyIsOfVerdict};

/// A text has one verdict at most, so the contract of `audit` determines it.
pub fn one_verdict()
    ensures { OneVerdict }
{}

/// The line of which `why_not_legal` tells a reason is the one that the verdict tells.
pub fn why_is_of_the_verdict()
    ensures { WhyIsOfVerdict }
{}
