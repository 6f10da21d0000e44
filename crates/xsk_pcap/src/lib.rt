//! Captures (pcap-savefile(5)): read into lists of packets, and written from them.
#![tactic(auto)]

mod capture;
mod endianness;
mod headers;
pub mod laws;
mod reading;

pub use capture::{Capture, GAPS};
pub use endianness::Endianness;
pub use headers::{CaptureHeaders, lay};
pub use reading::{BadCapture, ReadRefused, read};
