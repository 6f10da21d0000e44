//! The laws of what a command makes of its inputs, each the contract of a function that does nothing.

ghost use Rattle.xsk_cli.specs.Journals.{ReportsAreLegal, RunsAreLegal};
ghost use Rattle.xsk_cli.specs.Outcome.{AllGoBack, AllGoOn, BouncedGoesBack, ClassGoesOn, ExpectedGoesOn, NoneBounces, OneOutcome};

/// The bytes of the inputs have one outcome.
pub fn one_outcome()
    ensures { OneOutcome }
{}

/// What is expected of a class on a port's queue is what the paired port received there and the words let go on by the class's
/// socket.
pub fn expected_goes_on()
    ensures { ExpectedGoesOn }
{}

/// Under the program that redirects each packet, and with no cell left empty, all packets of a class go on that have 14 bytes up
/// to the limit.
pub fn class_goes_on()
    ensures { ClassGoesOn }
{}

/// So with one queue and one socket on each port all packets are sent on that have such a length.
pub fn all_go_on()
    ensures { AllGoOn }
{}

/// What is to bounce of what a port receives on a queue is what the words let go back there.
pub fn bounced_goes_back()
    ensures { BouncedGoesBack }
{}

/// Where no program lets a packet bounce, none goes back.
pub fn none_bounces()
    ensures { NoneBounces }
{}

/// Under the program that bounces each packet, all packets go back that have an Ethernet header, and none goes on.
pub fn all_go_back()
    ensures { AllGoBack }
{}

/// The journal of each run that has ended is that of a legal history, with an entry for each of its calls.
pub fn runs_are_legal()
    ensures { RunsAreLegal }
{}

/// So `audit` tells that what `simulate --journal` writes is legal, with the report in front.
pub fn reports_are_legal()
    ensures { ReportsAreLegal }
{}
