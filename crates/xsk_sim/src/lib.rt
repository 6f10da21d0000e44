//! Rounds on one thread: in each round every worker that hasn't ended makes one call, in a stated order.
#![tactic(auto)]

mod counters;
mod journal;
pub mod laws;
mod order;
mod rounds;
mod seat;
mod server;
mod simulation;

pub use journal::{append_journal, append_journal_so_far, journal_text};
pub use simulation::{Run, SimError, Unended, simulate, simulate_unlogged, simulate_with_object};
pub use xsk_driver::{DriverCounters, Wire};
pub use xsk_machine::Figures;
pub use xsk_turns::Manner;
