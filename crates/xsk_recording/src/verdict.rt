//! What a recording deserves to be told.

use xsk_side::SettingError;

/// The verdict of a text, by the first line that settles it. Lines are counted from 1.
#[derive(Clone, Copy, Debug, PartialEq, Eq)]
pub enum Verdict {
    /// There is no byte.
    Empty,
    /// The header is whole, and no call that is judged stands behind it.
    NoCalls,
    /// Some kernel answers so many calls as they were.
    Possible { calls: u64 },
    /// With the call of this line no kernel does.
    NotPossible { line: u64 },
    /// This line isn't of the form, or isn't there.
    NoRecording { line: u64 },
    /// What the header has told up to this line, the kernel's, is no setting.
    NoSetting { line: u64, error: SettingError },
}
