//! The turns of the workers, what they keep at each call, and the laws of their runs.
#![tactic(auto)]

mod disposal;
pub mod giving;
pub mod laws;
mod manner;
pub mod stepping;
mod wire;

pub use disposal::{Disposal, DriverCounters};
pub use manner::{Change, Manner};
pub use wire::Wire;
