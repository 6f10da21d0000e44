//! The streams of a run, and the bays that stand for them: files, or memory.
//!
//! A run reads its inputs and writes its outputs and its report through a [`Bay`]. [`FileBay`] is the one
//! over real files, [`SteadyBay`] one in memory that never fails, and [`MemoryBay`] one in memory of which
//! stated calls fail.
#![tactic(auto)]

mod bay;
mod counts;
mod failing;
mod file;
mod memory;
mod steady;
mod whole;

pub use bay::{Bay, BayFailed, Kind, Offer, Stream};
pub use failing::{Fail, MemoryBay};
pub use file::FileBay;
pub use steady::SteadyBay;
pub use whole::{ReadError, read_whole, write_whole};
