//! The bench for C: a handle that owns it, and an export for each call. `c/include/xsk_c.h` declares them.
#![tactic(auto)]

mod answers;
mod calls;
mod captures;
mod exports;
mod handle;
mod items;
mod journal;
mod opening;
mod parts;
mod purse;
mod reading;
mod state;
mod texts;
