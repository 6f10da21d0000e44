//! A recording is read piece by piece, and each of its calls is judged: the verdict of all its bytes, and why a call isn't possible.
#![tactic(auto)]

mod check;
mod finding;
mod reason;

pub use check::{Check, verdict_of};
pub use finding::{Blame, Finding};
pub use reason::{named_line, reason_text};
