//! The log of all calls on an object with their replies, and the journal's line of each.
#![tactic(auto)]

mod entries;
mod line;
mod lines;
mod log;
mod repeats;
mod rows;

pub use entries::Noted;
pub use line::LineBuffer;
pub use lines::Lines;
pub use log::{Event, Extent, Log, Piece};
