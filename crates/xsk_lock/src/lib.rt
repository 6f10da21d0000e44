//! A lock on one value, for several threads that use one end of a ring.
//!
//! A ring has one producer and one consumer (af_xdp.rst, "Rings": they are single-producer, single-consumer), so what one
//! end of it needs is one value: a pass with its batches. Where several threads are to use that end, they take it in turn. A
//! lock keeps the value, and each thread has a hand, with which it tries to take it.
//!
//! A lock has any number of hands, made with it and numbered from 0. A hand that took the value holds it until it gives it
//! back. No call waits or takes memory, but for `new`.
//!
//! Values have a name, by which a lock knows its value again: what it gives has the name of what it was made with, and it
//! takes nothing else back. Beyond the name a value may change in each hand.
#![tactic(auto)]

mod hand;
mod lock;
mod view;

pub use hand::Hand;
pub use lock::{Lock, Refused};
pub use view::{Facts, HandJoin, HandSplit, Key, Known, Law, LockStep, Named, UnlockStep};
