//! Laws of the object on one thread. A function here does nothing: its contract is the law, stated in
//! `specs/Laws.antt`.

ghost use Rattle.xsk_plain.specs.Laws.{LegalCanPerform, FewFramesOut, FreshAreFrames, LogDecides};

/// Where the object shows the state that a history leaves, each legal call can be performed.
pub fn legal_can_perform()
    ensures { LegalCanPerform }
{}

/// Where it shows the state that a history leaves, no more frames stand in rings than there are.
pub fn few_frames_out()
    ensures { FewFramesOut }
{}

/// The frames that registration gives are all frames of its geometry.
pub fn fresh_are_frames()
    ensures { FreshAreFrames }
{}

/// Which call is legal after a caller's own entries of a history is told by those of the history as it is stored.
pub fn log_decides()
    ensures { LogDecides }
{}
