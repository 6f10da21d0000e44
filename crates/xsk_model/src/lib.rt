//! The AF_XDP object as a model: its configuration, the calls on it and their replies, and in `specs/` the
//! definitions and laws that all other crates speak of.
#![tactic(auto)]

mod ask;
mod call;
mod config;
pub mod laws;
pub mod marks;
mod opening;
mod parts;
pub mod placement;
pub mod start_laws;
pub mod steering;

pub use ask::{Answer, Ask};
pub use call::{Act, Call, Mark, Reply, Ring};
pub use config::{Config, PairInfo, SocketInfo};
pub use marks::MarkKind;
pub use opening::home_item;
pub use parts::are_parts;
