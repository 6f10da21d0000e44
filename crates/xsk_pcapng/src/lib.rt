//! Files of several interfaces (pcapng draft): read into a list of packets for each port, and written from such lists.
#![tactic(auto)]

pub mod laws;
mod lists;
mod reading;
mod writing;

pub use reading::{BadPcapng, TakeRefused, read, take};
pub use writing::{write, write_over};
