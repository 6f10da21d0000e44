//! The laws of rules, each the contract of a function that does nothing.
ghost use Rattle.xsk_prog.specs.Rules.{MeetsOwn, MeetsOwnChain, OneChainVerdict, OneVerdict};

/// A rule's own verdict meets it.
pub fn meets_own()
    ensures { MeetsOwn }
{}

/// Each rule but `AtMost` leaves exactly one verdict for each packet and queue.
pub fn one_verdict()
    ensures { OneVerdict }
{}

/// The verdict of rules in a chain meets them.
pub fn meets_own_chain()
    ensures { MeetsOwnChain }
{}

/// Rules of which each leaves exactly one verdict leave exactly one as a chain.
pub fn one_chain_verdict()
    ensures { OneChainVerdict }
{}
