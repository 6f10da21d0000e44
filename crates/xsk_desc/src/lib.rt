//! Descriptors of RX and TX (`struct xdp_desc` of if_xdp.h; af_xdp.rst, "Multi-Buffer Support"): which are valid, in how
//! many pieces a packet is cut, and which packets a list of descriptors has.
#![tactic(auto)]

mod descriptor;
mod gather;
pub mod laws;
mod payload;

pub use descriptor::{DescError, fragments, validate};
pub use gather::{Ending, Gather, Gathered, judge};
pub use payload::payload_of;
