//! Which call a caller may make next, and why not another, told from its own earlier calls and replies alone.
#![tactic(auto)]

pub mod laws;
mod marked;
mod noting;
mod queue;
mod roles;
mod standing;
mod why;

pub use standing::Standing;
pub use why::Illegal;
