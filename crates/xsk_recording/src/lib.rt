//! The text of a recording: the lines of its header and of its calls, read piece by piece, and the verdict that they deserve.
#![tactic(auto)]

mod head;
pub mod laws;
mod line;
mod reading;
mod verdict;
mod wakeup;
mod words;

pub use reading::{Event, Reading};
pub use verdict::Verdict;
pub use wakeup::Wakeup;
