//! The report of a run: its figures as a text.
#![tactic(auto)]

mod counters;
mod text;
mod totals;

pub use counters::append_counters;
pub use text::report;
