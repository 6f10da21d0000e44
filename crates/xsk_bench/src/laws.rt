//! The laws of histories with a bench, each the contract of a function that does nothing. They are stated in `specs/Laws.antt`.

ghost use Rattle.xsk_bench.specs.Laws.{DriversRun, SentSoFar};

/// Each driver's own calls and replies are a run of its turns over its packets.
#[tactic(auto, using(crate::proofs::Telling::drivers_run))]
pub fn drivers_run()
    ensures { DriversRun }
{}

/// Where a driver's next call neither is a Submit on COMPLETION nor counts a bounced packet, what `Bench::sent` tells is what the driver
/// sent in the history.
#[tactic(auto, using(crate::proofs::Telling::sent_so_far))]
pub fn sent_so_far()
    ensures { SentSoFar }
{}
