//! The laws of the object, each the contract of a function that does nothing. They are stated in `specs/Laws.antt`,
//! those of calls and replies without their items in `specs/Asks.antt`, and those of the parts of marks in
//! `specs/MarkKinds.antt`.

ghost use Rattle.xsk_model.specs.Laws.{OneHolder, FramesByOwn, HadAndDistinct, InOrder, PeekInOrder, PartsByOwn, ItemsByOwn, WithinSize, LawfulItems, FittingReplies, FittingGifts, OwnEntries, WithinRing, CountsAgree, FewInRings, OneCompletion, SentInOrder, MarkNumbers, OwnPlaces, OwnMarkPlaces, TwoOwners, LeavesOthers, LeavesFolds};
ghost use Rattle.xsk_model.specs.Laws.{FramesStay, FramesApart, FramesBelow, SubmitsOwn, OpeningIs, HeldAndOut, CountsGrow, PeekFinds, ReserveFinds};
ghost use Rattle.xsk_model.specs.Laws.{LastIsGift, OneMore, CallersExist, LegalSwaps, MarksAfter, LeavesState, ChangesState};
ghost use Rattle.xsk_model.specs.Laws.{FewMoved, FromFill, ExactCompletion, BodiesDontMatter};
ghost use Rattle.xsk_model.specs.Laws.{LegalCells, LegalClosings, LegalAcks, LegalBounces, CellsFall, ClosedCells, AckedIsClosed, EndedRings, NothingReserved, NeverLate, NothingCloses, BouncedInOrder, SentGrows, AllCompleted};
ghost use Rattle.xsk_model.specs.Laws.{ShapesDecide, RegularSeats};
ghost use Rattle.xsk_model.specs.MarkKinds.{PartsMake, MadeOfParts, RowsOfKinds, BelongsTells, RangeTells};
ghost use Rattle.xsk_model.specs.Asks.{CallsSplit, AsksJoin, RepliesSplit, AnswersJoin};

/// After each prefix of a history each frame has one holder: a caller that has it, or a ring in which it is out.
pub fn one_holder()
    ensures { OneHolder }
{}

/// The frames that a caller has are those that its own calls and replies leave.
pub fn frames_by_own()
    ensures { FramesByOwn }
{}

/// In a history, frames that a caller has by counting are frames that it has and that are distinct.
pub fn had_and_distinct()
    ensures { HadAndDistinct }
{}

/// No more frames are out in rings than the UMEM has.
pub fn few_in_rings()
    ensures { FewInRings }
{}

/// Frames stay with one application: those of a caller with the one that it serves, those out in a ring with the ring's.
pub fn frames_stay()
    ensures { FramesStay }
{}

/// Two callers' frames are apart, a caller's and those out in a ring, and those out in two rings.
pub fn frames_apart()
    ensures { FramesApart }
{}

/// Each frame of a caller or a ring is one of the UMEM.
pub fn frames_below()
    ensures { FramesBelow }
{}

/// What a call submits stands with no other caller and in no ring.
pub fn submits_own()
    ensures { SubmitsOwn }
{}

/// What each ring, each mark and each caller's frames are at the opening.
pub fn opening_is()
    ensures { OpeningIs }
{}

/// On each ring the items peeked are a prefix of the opening's items followed by those submitted.
pub fn in_order()
    ensures { InOrder }
{}

/// A Peek takes the items that follow those peeked before.
pub fn peek_in_order()
    ensures { PeekInOrder }
{}

/// A ring's room and its held items are what its owners' own calls and replies leave.
pub fn parts_by_own()
    ensures { PartsByOwn }
{}

/// All items of a ring were submitted by its producer and peeked by its consumer.
pub fn items_by_own()
    ensures { ItemsByOwn }
{}

/// The items and the reserved places of a ring fit its size, so the free places never go below zero.
pub fn within_size()
    ensures { WithinSize }
{}

/// What a legal call takes from its ring is there: places that are reserved, or items that are held.
pub fn within_ring()
    ensures { WithinRing }
{}

/// The opening's items of a ring and those submitted are as many as those released, held and out.
pub fn counts_agree()
    ensures { CountsAgree }
{}

/// What a ring holds and then what is out are the opening's items and those submitted, without those released.
pub fn held_and_out()
    ensures { HeldAndOut }
{}

/// What a caller gave, released, submitted and peeked grows by what its later entries add.
pub fn counts_grow()
    ensures { CountsGrow }
{}

/// A Peek finds items where its consumer has seen that more were given than it has peeked, and these are they.
pub fn peek_finds()
    ensures { PeekFinds }
{}

/// A Reserve is granted where its producer has seen enough places released.
pub fn reserve_finds()
    ensures { ReserveFinds }
{}

/// What is out in a ring may stand there.
pub fn lawful_items()
    ensures { LawfulItems }
{}

/// Each reply of a history fits its call.
pub fn fitting_replies()
    ensures { FittingReplies }
{}

/// So does each reply that the object may give to a caller's call.
pub fn fitting_gifts()
    ensures { FittingGifts }
{}

/// A caller's own entries in a history are legal calls with fitting replies.
pub fn own_entries()
    ensures { OwnEntries }
{}

/// Each Submit on COMPLETION completes one packet of one TX ring.
pub fn one_completion()
    ensures { OneCompletion }
{}

/// What a driver sent of a socket's packets are the first Whole packets of all that it peeked on the TX ring.
pub fn sent_in_order()
    ensures { SentInOrder }
{}

/// Each mark has a number of its kind.
pub fn mark_numbers()
    ensures { MarkNumbers }
{}

/// Each ring has a place of its own.
pub fn own_places()
    ensures { OwnPlaces }
{}

/// Each mark has a place of its own.
pub fn own_mark_places()
    ensures { OwnMarkPlaces }
{}

/// The driver, the sockets and the application of a port's queue have the numbers that `steering` computes, where the
/// configuration is regular.
pub fn regular_seats()
    ensures { RegularSeats }
{}

/// A ring's producer and its consumer are two callers.
pub fn two_owners()
    ensures { TwoOwners }
{}

/// A call leaves each other ring and each other caller's frames as they were.
pub fn leaves_others()
    ensures { LeavesOthers }
{}

/// An entry on another ring, or of another caller, leaves what is folded over a caller's own entries on this ring.
pub fn leaves_folds()
    ensures { LeavesFolds }
{}

/// The reply of the last call of a history is one that the object may give to its caller.
pub fn last_is_gift()
    ensures { LastIsGift }
{}

/// Each legal call with the object's reply makes a history longer.
pub fn one_more()
    ensures { OneMore }
{}

/// Each caller of a history is one that the configuration has.
pub fn callers_exist()
    ensures { CallersExist }
{}

/// A Swap of a flag is legal exactly where its owner sets it to 0 or 1.
pub fn legal_swaps()
    ensures { LegalSwaps }
{}

/// A cell is lowered, to 0, by the application of its socket's queue, where it holds the socket to close.
pub fn legal_cells()
    ensures { LegalCells }
{}

/// A socket is closed by its application, once the cells of its port that held it are lowered.
pub fn legal_closings()
    ensures { LegalClosings }
{}

/// That is acknowledged by the socket's driver, once it saw it and has no place of the RX ring reserved.
pub fn legal_acks()
    ensures { LegalAcks }
{}

/// A bounced packet is counted by its driver, as one more than it counted before.
pub fn legal_bounces()
    ensures { LegalBounces }
{}

/// Cells only fall.
pub fn cells_fall()
    ensures { CellsFall }
{}

/// Where Closing is 1, each cell of the socket's port that held the socket at the opening is 0.
pub fn closed_cells()
    ensures { ClosedCells }
{}

/// Acked is 1 only where Closing is.
pub fn acked_is_closed()
    ensures { AckedIsClosed }
{}

/// Nobody submits on RX after it was acknowledged, nor on TX after it was closed.
pub fn ended_rings()
    ensures { EndedRings }
{}

/// Nor does anybody reserve there, and of an RX ring that was acknowledged no place stays reserved.
pub fn nothing_reserved()
    ensures { NothingReserved }
{}

/// So by a caller's own calls and replies alone nothing is submitted late.
pub fn never_late()
    ensures { NeverLate }
{}

/// With no socket to close, which calls are legal is as it was, and cells stay.
pub fn nothing_closes()
    ensures { NothingCloses }
{}

/// The packets that a driver bounced are the first of those that it is to bounce, as many as it counted.
pub fn bounced_in_order()
    ensures { BouncedInOrder }
{}

/// All that a driver sends stands in the history's order.
pub fn sent_grows()
    ensures { SentGrows }
{}

/// With no packet to bounce, all that is sent was completed.
pub fn all_completed()
    ensures { AllCompleted }
{}

/// A mark is what a Swap of it sets, and what it was after all other calls.
pub fn marks_after()
    ensures { MarksAfter }
{}

/// A call whose reply says that it changes nothing leaves the state as it was.
pub fn leaves_state()
    ensures { LeavesState }
{}

/// Each other call leaves another state.
pub fn changes_state()
    ensures { ChangesState }
{}

/// Callers move 1 to 32 at once.
pub fn few_moved()
    ensures { FewMoved }
{}

/// Each frame that is submitted on RX was last taken from FILL.
pub fn from_fill()
    ensures { FromFill }
{}

/// A Submit on COMPLETION gives back the packet that is to be sent next on one TX ring of the driver.
pub fn exact_completion()
    ensures { ExactCompletion }
{}

/// Which call is legal doesn't hang on what the frames of earlier calls and replies hold.
pub fn bodies_dont_matter()
    ensures { BodiesDontMatter }
{}

/// Which items are a packet's layout is said by their frames, addresses, lengths and options alone.
pub fn shapes_decide()
    ensures { ShapesDecide }
{}

/// A call is its form without items, joined with the items that it submits.
pub fn calls_split()
    ensures { CallsSplit }
{}

/// An ask that is joined with items splits to the ask, and to the items exactly where it has such beside it.
pub fn asks_join()
    ensures { AsksJoin }
{}

/// A reply is its form without items, joined with the items that were taken.
pub fn replies_split()
    ensures { RepliesSplit }
{}

/// An answer that is joined with items splits to the answer, and to the items exactly where it has such beside it.
pub fn answers_join()
    ensures { AnswersJoin }
{}

/// Each mark is that of its kind, its number and its index.
pub fn parts_make()
    ensures { PartsMake }
{}

/// A mark has the kind and the number that it was made of.
pub fn made_of_parts()
    ensures { MadeOfParts }
{}

/// Each kind stands in its row.
pub fn rows_of_kinds()
    ensures { RowsOfKinds }
{}

/// A mark exists where what it belongs to exists.
pub fn belongs_tells()
    ensures { BelongsTells }
{}

/// A mark's numbers are those of its range.
pub fn range_tells()
    ensures { RangeTells }
{}
