//! What a program does about wakes, beside its ring calls.

use xsk_model::Ring;

/// A look at a need-wakeup flag, or a wake: any kernel may answer so.
#[derive(Clone, Copy, Debug, PartialEq, Eq)]
pub enum Wakeup {
    /// The program looks whether the kernel of a ring asks to be woken, and this is the flag.
    Look(Ring, bool),
    /// It wakes the kernel for a ring.
    Kick(Ring),
}
