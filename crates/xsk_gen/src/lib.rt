//! The generator: packets made from a number, for runs that need no captures.
#![tactic(auto)]

mod draws;
mod packets;

pub use packets::generate;
