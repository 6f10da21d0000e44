//! What settles the verdict of a recording before its end.

use xsk_judge::Why;
use xsk_recording::Verdict;
use xsk_side::Call;

/// A call that isn't possible after those before it, and why.
#[derive(Debug, Drop)]
pub struct Blame {
    pub call: Call,
    pub why: Why,
}

/// The verdict of a recording, whatever follows the bytes that were read.
#[derive(Debug, Drop)]
pub struct Finding {
    pub verdict: Verdict,
    /// It is there exactly where the verdict is that a call isn't possible.
    pub blame: Option<Blame>,
}
