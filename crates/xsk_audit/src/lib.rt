//! Whether a journal is a legal history of the object.
#![tactic(auto)]

mod auditing;
mod cutting;
pub mod laws;
mod naming;
mod number;
mod playing;
mod reading;
mod reasons;
mod shelf;
mod why;
mod words;

pub use auditing::{Verdicts, audit};
pub use reasons::Reason;
pub use why::{Misfit, Stopped, why_not_legal};
pub use xsk_legal::Illegal;
