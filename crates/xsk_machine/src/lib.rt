//! What a run is for any engine: drivers and applications as machines of one kind, the packets that each driver gets, and the
//! figures.
#![tactic(auto)]

mod begin;
mod collected;
mod figures;
mod inputs;
mod machine;
mod quiet;
mod sent;
mod worker;

pub use begin::{driver_for, drivers_for};
pub use collected::Collected;
pub use figures::{DriverFigures, FigureList, Figures, figures_at_end, kinds_add_up};
pub use inputs::{Amount, Inputs};
pub use machine::Machine;
pub use quiet::is_quiet;
pub use sent::Sent;
pub use worker::{AnyWorker, worker_of};
