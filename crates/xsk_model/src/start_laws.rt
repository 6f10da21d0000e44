//! The laws of histories from any start, each the contract of a function that does nothing. They are stated in
//! `specs/StartLaws.antt`.

ghost use Rattle.xsk_model.specs.StartLaws.{OpeningStarts, ReturnedStarts, OneHolderFrom, FramesByOwnFrom, FewInRingsFrom, FramesStayFrom, FramesApartFrom, InOrderFrom, PartsByOwnFrom, ItemsByOwnFrom, WithinSizeFrom, WithinRingFrom, LawfulItemsFrom, FittingRepliesFrom, OwnEntriesFrom, OneMoreFrom, CallersExistFrom, MarkNumbersFrom, ClosedCellsFrom, LeavesStateFrom, ChangesStateFrom};

/// The opening is a start, and a history is one from there.
pub fn opening_starts()
    ensures { OpeningStarts }
{}

/// So is the state in which COMPLETION has the frames, where an object may be opened so.
pub fn returned_starts()
    ensures { ReturnedStarts }
{}

/// After a history from any start each frame has one holder.
pub fn one_holder_from()
    ensures { OneHolderFrom }
{}

/// The frames that a caller has are those that its own calls and replies leave.
pub fn frames_by_own_from()
    ensures { FramesByOwnFrom }
{}

/// No more frames are out in rings than the UMEM has.
pub fn few_in_rings_from()
    ensures { FewInRingsFrom }
{}

/// Frames stay with one application.
pub fn frames_stay_from()
    ensures { FramesStayFrom }
{}

/// Two callers' frames are apart, a caller's and those out in a ring, and those out in two rings.
pub fn frames_apart_from()
    ensures { FramesApartFrom }
{}

/// On each ring the items peeked are a prefix of the start's items followed by those submitted.
pub fn in_order_from()
    ensures { InOrderFrom }
{}

/// A ring's room and its held items are what its owners' own calls and replies leave.
pub fn parts_by_own_from()
    ensures { PartsByOwnFrom }
{}

/// All items of a ring were submitted by its producer and peeked by its consumer.
pub fn items_by_own_from()
    ensures { ItemsByOwnFrom }
{}

/// The items and the reserved places of a ring fit its size.
pub fn within_size_from()
    ensures { WithinSizeFrom }
{}

/// What a legal call takes from its ring is there.
pub fn within_ring_from()
    ensures { WithinRingFrom }
{}

/// What is out in a ring may stand there.
pub fn lawful_items_from()
    ensures { LawfulItemsFrom }
{}

/// Each reply fits its call.
pub fn fitting_replies_from()
    ensures { FittingRepliesFrom }
{}

/// A caller's own entries are legal calls with fitting replies.
pub fn own_entries_from()
    ensures { OwnEntriesFrom }
{}

/// Each legal call with the object's reply makes a history from a start longer.
pub fn one_more_from()
    ensures { OneMoreFrom }
{}

/// Each caller is one that the configuration has.
pub fn callers_exist_from()
    ensures { CallersExistFrom }
{}

/// Each mark has a number of its kind.
pub fn mark_numbers_from()
    ensures { MarkNumbersFrom }
{}

/// Where Closing is 1, each cell of the socket's port that held the socket at the start is 0.
pub fn closed_cells_from()
    ensures { ClosedCellsFrom }
{}

/// A call whose reply says that it changes nothing leaves the state as it was.
pub fn leaves_state_from()
    ensures { LeavesStateFrom }
{}

/// Each other call leaves another state.
pub fn changes_state_from()
    ensures { ChangesStateFrom }
{}
