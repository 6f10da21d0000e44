//! Judges the ring calls of one program, one after the other: whether some kernel can have answered so, and if not, what is wrong.
#![tactic(auto)]

mod first;
mod following;
mod judge;
mod known;
mod queue;
mod why;

pub use judge::Judge;
pub use known::{Known, Spot, Whereabouts};
pub use why::{Denial, Rule, Why};
