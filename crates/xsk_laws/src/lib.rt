//! The laws of whole runs: what the two machines make of the input together, over every object that keeps to the model.
#![tactic(auto)]

pub mod laws;
