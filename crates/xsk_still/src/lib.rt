//! Where no run stands still: laws of the workers over a stretch of calls that change nothing.
#![tactic(auto)]

pub mod laws;
