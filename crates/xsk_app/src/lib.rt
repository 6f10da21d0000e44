//! The application of one queue of two paired ports: it takes what one port's sockets received to the other port's
//! sockets for sending, and gives completed frames back to the FILL rings of their homes. Where the need-wakeup flags are
//! used it wakes the drivers that need it.
#![tactic(auto)]

mod app;
mod back;
mod carried;
mod closing;
mod kept;
mod machine;
mod mangling;
mod start;

pub use app::App;
pub use back::Back;
pub use carried::Carried;
pub use kept::{lane_way, resumed_tells, side_pair};
pub use machine::Way;
pub use xsk_model::Act;
pub use xsk_turns::Manner;
