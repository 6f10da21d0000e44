//! The ends of one application's rings, for several threads that take them in turn.
//!
//! A ring has one producer and one consumer (af_xdp.rst, "Rings"). So threads that share an application share its pass, with the
//! items and frames that it keeps. All of that is one value here, the application's ends, which stand behind a lock
//! (`xsk_lock`), and each thread that holds them makes a step: it visits a lane or a side, or looks whether more comes. The steps
//! of all threads are a split run of the application, whatever their order, and an application goes on from there.
//!
//! A step makes the calls of the application's turn for that lane, or that side, and no more. The application's machine itself
//! can't make it: it gives one call at a time and goes on to the next lane by itself, with that lane's call given before it can be
//! stopped, and it keeps no word of what came of a lane. What they have in common is shared: the definitions of a turn, of which
//! steps are pieces, and the frames that go back with their groups by home (`xsk_app::Back`).
//!
//! Once all threads but one are done, that one has the ends to itself (`LastHand`): it makes turns of the same steps until it finds
//! all lanes empty after both drivers have told that they have no further packet, and then runs the application's machine from there.
#![tactic(auto)]

mod counting;
mod ends;
mod last;
mod leaving;
mod serving;
mod sharing;
mod visiting;

pub use ends::{Ends, EndsName, EndsRefused};
pub use last::{LastHand, Turned};
pub use visiting::Step;
