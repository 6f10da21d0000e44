//! How one program's side of the rings stands to the object of many callers.
#![tactic(auto)]

pub mod laws;
