//! Drivers and applications in threads of their own, over one table of words and slots.
#![tactic(auto)]

mod alone;
mod by_turns;
mod came;
mod context;
mod crew;
mod forwarding;
mod hands;
mod lanes;
pub mod laws;
mod member;
mod pace;
mod parking;
mod passing;
mod patience;
mod pauses;
mod plan;
mod seating;
mod sharing;
mod team;
mod turns;
mod worker;

pub use forwarding::{Outcome, forward};
