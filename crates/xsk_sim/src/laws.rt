//! The laws of runs, each the contract of a function that does nothing. They are stated in `specs/Runs.antt`.

ghost use Rattle.xsk_sim.specs.Bounds.{EndsOrStandsStill, EndsOrStandsStillWithClosings, NoneStandsStill};
ghost use Rattle.xsk_sim.specs.Runs.{OneHistory, OneLog, OneFigures, OneSent, EndsOrStalls, OneStall, EndsAsRuled, StallsAsRuled, EndedIsForwarded, EndedIsExpected, EndedIsForwardedUntil, EndedIsExpectedUntil, EntriesStandInRounds};

/// For each number of rounds there is one history in rounds of the workers of a configuration over packets with verdicts.
pub fn one_history()
    ensures { OneHistory }
{}

/// So there is one log of a run that has ended.
pub fn one_log()
    ensures { OneLog }
{}

/// So there is one list of figures.
pub fn one_figures()
    ensures { OneFigures }
{}

/// And one list of packets that each driver sent.
pub fn one_sent()
    ensures { OneSent }
{}

/// No run both ends and stalls.
pub fn ends_or_stalls()
    ensures { EndsOrStalls }
{}

/// There is one round at which a run stalls.
pub fn one_stall()
    ensures { OneStall }
{}

/// Each run in which no socket is closed ends or stands still: one that does neither has fewer rounds than a bound by its
/// packets, its frames and its configuration.
pub fn ends_or_stands_still()
    ensures { EndsOrStandsStill }
{}

/// So does each run of a regular configuration: where a socket is closed, its bound is a constant more.
pub fn ends_or_stands_still_with_closings()
    ensures { EndsOrStandsStillWithClosings }
{}

/// Where each ring has 32 entries or more and each pool 18 frames or more, no socket is closed, and applications change nothing, no run stands still,
/// whatever the wire does.
pub fn none_stands_still()
    ensures { NoneStandsStill }
{}

/// Under a rule that leaves one verdict for each packet, a run has ended with the verdicts that the rule gives itself.
pub fn ends_as_ruled()
    ensures { EndsAsRuled }
{}

/// And so has one that has stalled.
pub fn stalls_as_ruled()
    ensures { StallsAsRuled }
{}

/// What each driver sent in a run that has ended, where no socket is closed, is what the paired port's driver delivered, whatever the
/// wire does, and what bounced of its own packets.
pub fn ended_is_forwarded()
    ensures { EndedIsForwarded }
{}

/// Where the wire waits, it is what is expected of the input, and what bounces.
pub fn ended_is_expected()
    ensures { EndedIsExpected }
{}

/// Where a socket is closed, it is what the paired port's driver delivered, on each lane until it was cut, and what bounced.
pub fn ended_is_forwarded_until()
    ensures { EndedIsForwardedUntil }
{}

/// And where the wire waits, what is expected of the input, on each lane until it was cut, and what bounces.
pub fn ended_is_expected_until()
    ensures { EndedIsExpectedUntil }
{}

/// Each entry of a history in rounds stands in the round, counted from 0, whose number is that of its caller's entries before
/// it. So the journal's lines begin with their rounds.
#[tactic(auto, using(crate::proofs::InRounds::entries_stand_in_rounds))]
pub fn entries_stand_in_rounds()
    ensures { EntriesStandInRounds }
{}
