//! Programs that decide of each packet what becomes of it, as an XDP program that is attached to a device does, and the cells of an
//! XSKMAP: to which socket a redirect leads (af_xdp.rst, "Overview", "XSKMAP / BPF_MAP_TYPE_XSKMAP", "XDP_REDIRECT" under "Usage").
#![tactic(auto)]

mod cell;
mod chain;
pub mod laws;
mod program;
mod rule;

pub use cell::{Miss, redirect};
pub use chain::{Chain, ChainError, MOST_PROGRAMS};
pub use program::XdpProgram;
pub use rule::{Rule, Verdict};
