//! What whole runs of all workers come to, whether or not a socket is closed while traffic flows: laws of all workers.
#![tactic(auto)]

pub mod laws;
