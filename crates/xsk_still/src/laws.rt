//! The laws, each the contract of a function that does nothing. They are stated in `specs/Laws.antt`, and those of single workers
//! in `specs/Own.antt`.

ghost use Rattle.xsk_still.specs.Laws.{MarkIsTold, OnlyHomes, NoStretch};
ghost use Rattle.xsk_still.specs.Own.{DriverStays, AppStays, DriverIsFree, DriverEndsFree, AppIsFree, ParkedRests, KeepsRxTold, TellsGoneLast, KeepsTxTold, SeesGone, LaysOut, HasPending, PendingFew, LosesNone, EndsSetOnce, AppSetsOnce, FillsHomes};

/// A driver in whose stretch nothing changes is parked, or stays as it is for want of room, of frames, or of the application's
/// mark.
pub fn driver_stays()
    ensures { DriverStays }
{}

/// An application in whose stretch nothing changes stays as it is for want of room, or of a mark of its drivers.
pub fn app_stays()
    ensures { AppStays }
{}

/// At each call that isn't a Submit or a Release a driver has no place reserved and no item held.
pub fn driver_is_free()
    ensures { DriverIsFree }
{}

/// Nor has it at its end.
pub fn driver_ends_free()
    ensures { DriverEndsFree }
{}

/// Nor has an application at such a call.
pub fn app_is_free()
    ensures { AppIsFree }
{}

/// A driver that is parked has sent all, its flags are set, and it has no further packet, or its next one lacks frames.
pub fn parked_rests()
    ensures { ParkedRests }
{}

/// At each call a driver keeps whether it told that no further packet comes, and none comes where it did.
pub fn keeps_rx_told()
    ensures { KeepsRxTold }
{}

/// It tells that it has ended exactly as it ends, and gives back nothing after that.
pub fn tells_gone_last()
    ensures { TellsGoneLast }
{}

/// At each call an application keeps whether it told that it sends nothing more, and its RX rings were empty where it did.
pub fn keeps_tx_told()
    ensures { KeepsTxTold }
{}

/// An application that has ended has found both drivers' marks of their end to be 1.
#[tactic(auto, using(crate::proofs::Telling::sees_gone))]
pub fn sees_gone()
    ensures { SeesGone }
{}

/// What a driver has submitted on an RX ring are layouts of packets, at each call.
pub fn lays_out()
    ensures { LaysOut }
{}

/// What an application keeps of a lane is the rest of what it peeked there, at each call that isn't a Submit or a Release.
#[tactic(auto, using(crate::proofs::Keeping::has_pending))]
pub fn has_pending()
    ensures { HasPending }
{}

/// It keeps no more than 32 items of a lane.
#[tactic(auto, using(crate::proofs::Keeping::pending_few))]
pub fn pending_few()
    ensures { PendingFew }
{}

/// A driver that got no bad packet has lost no frame.
#[tactic(auto, using(crate::proofs::Losing::loses_none))]
pub fn loses_none()
    ensures { LosesNone }
{}

/// A driver sets the marks that tell of its end to 1 alone.
pub fn ends_set_once()
    ensures { EndsSetOnce }
{}

/// So does an application with its own.
pub fn app_sets_once()
    ensures { AppSetsOnce }
{}

/// On FILL of a pair an application puts only frames of its pool.
pub fn fills_homes()
    ensures { FillsHomes }
{}

/// A mark that its owner sets to 1 alone is 1 exactly where it did so.
pub fn mark_is_told()
    ensures { MarkIsTold }
{}

/// On FILL of a pair there are only frames of its pool.
#[tactic(auto, using(crate::proofs::Pools::only_homes))]
pub fn only_homes()
    ensures { OnlyHomes }
{}

/// Where each ring has 32 entries or more and each pool 18 frames or more, and further calls change nothing, all workers have
/// ended.
pub fn no_stretch()
    ensures { NoStretch }
{}
