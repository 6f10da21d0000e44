//! The lines of a text, and the words of which they are made.
#![tactic(auto)]

mod cutting;
mod numbers;
mod words;

pub use cutting::first_line;
pub use numbers::{number, small};
pub use words::{begins_item, desc, ring, word};
