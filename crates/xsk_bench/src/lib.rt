//! A bench for an application of one's own: the library's drivers with their packets on one side, and on the other side calls
//! that are served one by one, of which the first that isn't legal is told.
#![tactic(auto)]

mod begin;
mod bench;
pub mod laws;
mod play;
mod seat;
mod traffic;

pub use bench::{Bench, Unserved};
pub use traffic::Traffic;
pub use xsk_driver::Wire;
pub use xsk_machine::Amount;
