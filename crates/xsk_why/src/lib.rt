//! Why a run stands still: what each caller waits for, and what stands where, as a text.
#![tactic(auto)]

mod frames;
mod held;
mod rings;
mod text;
mod waits;

pub use held::append_callers;
pub use rings::append_rings;
pub use text::append_why;
