//! Laws of what a standing stands for. A function here does nothing: its contract is the law.

ghost use Rattle.xsk_legal.specs.StandingLaws.{NeedsNoNote, BeginsWithNone, CanBeNoted, FailsNotLegal};

/// A Swap of a flag, a Look but at Closing, a Reserve that found too few places free and a Peek that found nothing need no
/// note: with such a legal call and a fitting reply a standing stands for the longer list as it is.
pub fn some_calls_need_no_note()
    ensures { NeedsNoNote }
{}

/// A standing that stands for a list stands for it and no item of a Submit, and for it and no item of a Peek.
pub fn notes_begin_with_no_item()
    ensures { BeginsWithNone }
{}

/// What was legal, with a reply that the object may give, can be noted.
pub fn what_is_told_can_be_noted()
    ensures { CanBeNoted }
{}

/// A call of which a condition fails isn't legal.
#[tactic(auto, using(crate::proofs::Whys::fails_not_legal))]
pub fn what_fails_is_not_legal()
    ensures { FailsNotLegal }
{}
