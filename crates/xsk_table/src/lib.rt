//! The words of all rings and marks, in one row, and the slots of all frames as a table that many threads step on, and the rule
//! that ties them to one legal history.
#![tactic(auto)]

mod bases;
mod board;
mod closing;
mod counting;
mod covering;
mod end;
pub mod laws;
mod layout;
mod marks;
mod moves;
mod note;
mod opening;
mod pass;
mod passes;
mod shared;
mod steps;
mod view;
mod words;

pub use bases::MarkBases;
pub use counting::Steps;
pub use end::End;
pub use layout::{
    CONSUMER, ENTRIES, PRODUCER, entry_words, mark_word, marks_base, place_width, ring_base,
    word_count,
};
pub use note::Note;
pub use pass::Pass;
pub use passes::Passes;
pub use shared::{Shared, SharedRefused};
pub use view::{Asking, Key, Law, View};
pub use words::{pack, unpack, used};
