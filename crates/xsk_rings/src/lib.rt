//! The calls of the AF_XDP object, on rings and on marks, for many threads.
#![tactic(auto)]

mod calls;
mod checked;
pub mod laws;
mod serving;

pub use calls::RingCalls;
pub use checked::CheckedPass;
