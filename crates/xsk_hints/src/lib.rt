//! What is possible in a recording and surely unwanted, and where all frames are at its end: facts of the program's own calls, whatever
//! kernel stood on the other side, as a text.
#![tactic(auto)]

mod fills;
mod hints;
mod oddity;
mod rings;
mod tally;
mod text;
mod wakes;

pub use fills::Fills;
pub use hints::Hints;
pub use wakes::Wakes;
