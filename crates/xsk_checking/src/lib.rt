//! The command `check`: whether a program's recording is possible, read from a bay and told to its report.
#![tactic(auto)]

mod checking;
mod end;
mod reading;
mod told;

pub use checking::{Checkup, is_check, run_check};
pub use end::{End, Failure};
