//! How often a run can change the object: a bound that hangs on the packets, the frames and the configuration alone.
#![tactic(auto)]

pub mod laws;
