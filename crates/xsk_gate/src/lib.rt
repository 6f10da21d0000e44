//! Gates, which each worker on a thread of its own passes before each of its turns.
//!
//! [`Open`] holds no one. [`PairGate`] and [`HoldGate`] are for tests, which see by them that workers run at once.
#![tactic(auto)]

mod gate;

pub use gate::{Gate, HoldGate, Open, PairGate};
