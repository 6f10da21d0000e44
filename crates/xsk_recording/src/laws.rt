//! A law of verdicts. A function here does nothing: its contract is the law, stated in `specs/Laws.antt`.

ghost use Rattle.xsk_recording.specs.Laws.{OneVerdict};

/// A text has one verdict at most, so what a verdict says of a text's bytes determines it.
pub fn one_verdict()
    ensures { OneVerdict }
{}
