//! The laws of the workers' runs, each the contract of a function that does nothing. They are stated in `specs/Law.antt`
//! for a driver and in `specs/AppLaw.antt` for an application, and those of what each keeps at each call beside the
//! definitions that they speak of.

ghost use Rattle.xsk_turns.specs.AppLaw.{LanesInOrder, LanesPassedOn, LanesAltered, ChangesByNumber, ChangesRepeat, NothingSentLate, DrainsRx, OnlySetsKicks, WakesAtOnce, PaysAtOnce, PaysEndAtOnce};
ghost use Rattle.xsk_turns.specs.AppOwned.{AppKeepsFrames, AppCallsLegal, AppKeepsFramesAtEnd};
ghost use Rattle.xsk_turns.specs.AppSplit.{SplitKeepsLanes, SplitKeepsFrames, StepCallsLegal, LaterCallsLegal, LaterFramesAtEnd};
ghost use Rattle.xsk_turns.specs.Statistics.{KeepsCounters, KeepsCountersAtEnd};
ghost use Rattle.xsk_turns.specs.KeptDisposals.{KeepsDisposals, DisposesAll};
ghost use Rattle.xsk_turns.specs.Law.{EachDisposedOnce, DisposedAsSaid, DeliversInOrder, DeliversSized, DeliversAsSaid, NothingReceivedLate, TellsRxDone, DrainsTx, CompletesAll};
ghost use Rattle.xsk_turns.specs.Hands.{HandsPassOn, HandsDrainRx, HandsSendNothingLate, HandsOnlySetKicks, SplitOwesNothing, StepPaysAtOnce};
ghost use Rattle.xsk_turns.specs.Owned.{KeepsFrames, KeepsFramesAtEnd, LeavesRoom, FinishedFew};
ghost use Rattle.xsk_turns.specs.SentWith.{BouncesNext, BouncesAll};
ghost use Rattle.xsk_turns.specs.Stranded.{KeepsStranded, KeepsStrandedAtEnd, NoneStranded};
ghost use Rattle.xsk_turns.specs.Verdicts.{OneVerdicts};
ghost use Rattle.xsk_turns.specs.Watching.{ParkedWatches, ParkedLooks, EndsAwake};
ghost use Rattle.xsk_turns.specs.Workers.{OwnSetting, OneSetting};

/// At each call that a driver makes, its frames are those that it peeked and didn't submit, and the call is legal.
#[tactic(auto, using(crate::proofs::Owning::keeps_frames))]
pub fn keeps_frames()
    ensures { KeepsFrames }
{}

/// So are its frames at its end.
#[tactic(auto, using(crate::proofs::Owning::keeps_frames_at_end))]
pub fn keeps_frames_at_end()
    ensures { KeepsFramesAtEnd }
{}

/// There is room for each reply that fits.
pub fn leaves_room()
    ensures { LeavesRoom }
{}

/// No more than 128 packets are ever finished and not completed.
#[tactic(auto, using(crate::proofs::Finishing::finished_few))]
pub fn finished_few()
    ensures { FinishedFew }
{}

/// At each call each counter is a count over the driver's own calls and replies, and the disposals of its packets.
#[tactic(auto, using(crate::proofs::Counting::keeps_counters))]
pub fn keeps_counters()
    ensures { KeepsCounters }
{}

/// So it is at its end.
#[tactic(auto, using(crate::proofs::Counting::keeps_counters_at_end))]
pub fn keeps_counters_at_end()
    ensures { KeepsCountersAtEnd }
{}

/// A swap that counts a bounced packet sends the next packet.
pub fn bounces_next()
    ensures { BouncesNext }
{}

/// In a whole run the packets that are bounced are exactly those that are to be, each once and in order.
pub fn bounces_all()
    ensures { BouncesAll }
{}

/// At each call what is kept of the frames that were peeked on TX are those that weren't submitted on COMPLETION.
#[tactic(auto, using(crate::proofs::Stranding::keeps_stranded))]
pub fn keeps_stranded()
    ensures { KeepsStranded }
{}

/// So it is at its end.
#[tactic(auto, using(crate::proofs::Stranding::keeps_stranded_at_end))]
pub fn keeps_stranded_at_end()
    ensures { KeepsStrandedAtEnd }
{}

/// And there is none at its end where each item that it peeked on TX stands in a whole packet.
#[tactic(auto, using(crate::proofs::Stranding::none_stranded))]
pub fn none_stranded()
    ensures { NoneStranded }
{}

/// At each call the disposals are those that the driver's attempts leave.
#[tactic(auto, using(crate::proofs::Disposing::keeps_disposals))]
pub fn keeps_disposals()
    ensures { KeepsDisposals }
{}

/// At its end all packets have one.
#[tactic(auto, using(crate::proofs::Disposing::disposes_all))]
pub fn disposes_all()
    ensures { DisposesAll }
{}

/// In a whole run each packet of the input has one disposal by the driver's attempts, in order, whatever the wire does.
#[tactic(auto, using(crate::proofs::Disposing::each_disposed_once))]
pub fn each_disposed_once()
    ensures { EachDisposedOnce }
{}

/// Where the wire waits it is the one that the configuration and the packet's verdict say.
#[tactic(auto, using(crate::proofs::Saying::disposed_as_said))]
pub fn disposed_as_said()
    ensures { DisposedAsSaid }
{}

/// In a whole run what was submitted on an RX ring are the layouts of the packets that the driver's attempts delivered
/// there, in order, whatever the wire does.
#[tactic(auto, using(crate::proofs::Delivering::delivers_in_order))]
pub fn delivers_in_order()
    ensures { DeliversInOrder }
{}

/// Each packet that they delivered has 14 bytes up to the limit.
#[tactic(auto, using(crate::proofs::Delivering::delivers_sized))]
pub fn delivers_sized()
    ensures { DeliversSized }
{}

/// Where the wire waits these are the packets that the configuration and their verdicts deliver there.
#[tactic(auto, using(crate::proofs::Delivering::delivers_as_said))]
pub fn delivers_as_said()
    ensures { DeliversAsSaid }
{}

/// Nothing is submitted on RX once the driver told that no further packet comes.
pub fn nothing_received_late()
    ensures { NothingReceivedLate }
{}

/// In a whole run it told so.
pub fn tells_rx_done()
    ensures { TellsRxDone }
{}

/// In a whole run each TX ring was found empty after the application had told that it sends no more.
pub fn drains_tx()
    ensures { DrainsTx }
{}

/// In a whole run all packets that were peeked on a TX ring whole are completed.
pub fn completes_all()
    ensures { CompletesAll }
{}

/// A driver that is parked watches each ring whose need-wakeup flag it has set, and its end.
pub fn parked_watches()
    ensures { ParkedWatches }
{}

/// It keeps that it is parked exactly where it looks at its kick.
#[tactic(auto, using(crate::proofs::Parking::parked_looks))]
pub fn parked_looks()
    ensures { ParkedLooks }
{}

/// It isn't parked once it has ended.
#[tactic(auto, using(crate::proofs::Parking::ends_awake))]
pub fn ends_awake()
    ensures { EndsAwake }
{}

/// Rules of which each has one verdict for each packet leave one list of verdicts.
#[tactic(auto, using(crate::proofs::Verdicts::one_verdicts))]
pub fn one_verdicts()
    ensures { OneVerdicts }
{}

/// The verdicts that rules give themselves meet them.
pub fn own_setting()
    ensures { OwnSetting }
{}

/// Rules of which each has one verdict for each packet leave one setting for a configuration and packets.
#[tactic(auto, using(crate::proofs::Verdicts::one_setting))]
pub fn one_setting()
    ensures { OneSetting }
{}

/// At each call that an application makes, its frames are those that it peeked and didn't submit.
#[tactic(auto, using(crate::proofs::AppOwning::app_keeps_frames))]
pub fn app_keeps_frames()
    ensures { AppKeepsFrames }
{}

/// So they are at its end.
#[tactic(auto, using(crate::proofs::AppOwning::app_keeps_frames_at_end))]
pub fn app_keeps_frames_at_end()
    ensures { AppKeepsFramesAtEnd }
{}

/// Each call that an application makes is legal where all frames that it has had are at home with it, as they are in every
/// history of the object.
#[tactic(auto, using(crate::proofs::AppOwning::app_calls_legal))]
pub fn app_calls_legal()
    ensures { AppCallsLegal }
{}

/// On each lane of an application that changes nothing the items submitted are the first of those peeked, in order and as they
/// were.
pub fn lanes_in_order()
    ensures { LanesInOrder }
{}

/// In a whole run they are all of those.
pub fn lanes_passed_on()
    ensures { LanesPassedOn }
{}

/// In a whole run of an application of any manner each item submitted on a lane is the one peeked in its place, as it was or with
/// one of the changes.
#[tactic(auto, using(crate::proofs::AppLanes::lanes_altered))]
pub fn lanes_altered()
    ensures { LanesAltered }
{}

/// Each item that such an application submits on TX is changed by its number among all that it submitted there.
#[tactic(auto, using(crate::proofs::Numbering::changes_by_number))]
pub fn changes_by_number()
    ensures { ChangesByNumber }
{}

/// The changes are the same again after each 5 times so many items.
#[tactic(auto, using(crate::proofs::Numbering::changes_repeat))]
pub fn changes_repeat()
    ensures { ChangesRepeat }
{}

/// Nothing is submitted on TX once the application told that it sends nothing more.
pub fn nothing_sent_late()
    ensures { NothingSentLate }
{}

/// In a whole run each lane's RX ring was found empty after both drivers had told that they have no further packet.
pub fn drains_rx()
    ensures { DrainsRx }
{}

/// It sets kicks, and clears none.
pub fn only_sets_kicks()
    ensures { OnlySetsKicks }
{}

/// Where the need-wakeup flags are used it looks at a ring's flag directly after each Submit on FILL or TX, wakes the ring's
/// driver directly after that where the flag is set, and wakes both drivers directly after it told that it sends nothing more.
#[tactic(auto, using(crate::proofs::AppWaking::wakes_at_once))]
pub fn wakes_at_once()
    ensures { WakesAtOnce }
{}

/// So where it owes a driver a kick for what it submitted on a ring, its next call is the look at the ring's flag, or the kick.
#[tactic(auto, using(crate::proofs::AppPaying::pays_at_once))]
pub fn pays_at_once()
    ensures { PaysAtOnce }
{}

/// Where it owes a kick for the end, its next call is that kick, or the one before it.
#[tactic(auto, using(crate::proofs::AppPaying::pays_end_at_once))]
pub fn pays_end_at_once()
    ensures { PaysEndAtOnce }
{}

/// After the steps of a split run, for each lane the items that were peeked are those that were submitted, followed by those that
/// are pending.
#[tactic(auto, using(crate::proofs::AppSplit::split_keeps_lanes))]
pub fn split_keeps_lanes()
    ensures { SplitKeepsLanes }
{}

/// What an application keeps after them is what they left.
pub fn split_keeps_frames()
    ensures { SplitKeepsFrames }
{}

/// Each call of a step is legal where all frames that the application has had are at home with it.
pub fn step_calls_legal()
    ensures { StepCallsLegal }
{}

/// And so is each call of a run from what earlier calls left.
pub fn later_calls_legal()
    ensures { LaterCallsLegal }
{}

/// At its end its frames are those that it keeps.
pub fn later_frames_at_end()
    ensures { LaterFramesAtEnd }
{}

/// By however many hands an application's calls are made, in a whole run each item submitted on a lane is the one peeked in its
/// place, as it was or with one of its manner's changes.
#[tactic(auto, using(crate::proofs::Hands::hands_pass_on))]
pub fn hands_pass_on()
    ensures { HandsPassOn }
{}

/// Each lane's RX ring was found empty after both drivers had told that they have no further packet.
#[tactic(auto, using(crate::proofs::Hands::hands_drain_rx))]
pub fn hands_drain_rx()
    ensures { HandsDrainRx }
{}

/// Nothing was submitted on TX once it told that it sends nothing more.
#[tactic(auto, using(crate::proofs::Hands::hands_send_nothing_late))]
pub fn hands_send_nothing_late()
    ensures { HandsSendNothingLate }
{}

/// It sets kicks, and clears none.
#[tactic(auto, using(crate::proofs::Hands::hands_only_set_kicks))]
pub fn hands_only_set_kicks()
    ensures { HandsOnlySetKicks }
{}

/// After the steps of a split run it owes no driver a kick.
pub fn split_owes_nothing()
    ensures { SplitOwesNothing }
{}

/// In a step it pays what it owes at once.
#[tactic(auto, using(crate::proofs::Hands::step_pays_at_once))]
pub fn step_pays_at_once()
    ensures { StepPaysAtOnce }
{}
