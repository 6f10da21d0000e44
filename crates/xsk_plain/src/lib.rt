//! The AF_XDP object on one thread, with the log of all calls on it, or without.
#![tactic(auto)]

mod checked;
pub mod laws;
mod moving;
mod noting;
mod object;
mod opening;
mod plain;
mod ring_store;
mod unlogged;

pub use checked::Checked;
pub use plain::{OpenRefused, Plain, items_room};
pub use ring_store::RingCounts;
pub use unlogged::Unlogged;
