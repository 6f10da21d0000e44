//! Why a setup refuses a call.
use std::alloc::AllocFailed;
use thiserror::Error;

/// Why a call of a setup is refused.
#[derive(Clone, Copy, Debug, PartialEq, Eq, Error)]
pub enum SetupError {
    /// There is no socket of this number.
    #[error("there is no such socket")]
    NoSuchSocket,
    /// A ring's size is no power of two from 2 to 2,048.
    #[error("the ring size is no power of two from 2 to 2048")]
    BadSize,
    /// The socket has a ring of this kind.
    #[error("the socket has a ring of this kind")]
    RingTwice,
    /// The socket is bound.
    #[error("the socket is bound")]
    AlreadyBound,
    /// The socket has neither RX nor TX.
    #[error("the socket has neither RX nor TX")]
    NoRing,
    /// The queue has no pair of FILL and COMPLETION, and the socket lacks one of the two.
    #[error("there is no FILL and COMPLETION for this queue")]
    NoPair,
    /// The queue has a pair, and the socket has FILL or COMPLETION.
    #[error("the queue has FILL and COMPLETION")]
    PairTwice,
    /// The flags aren't known, or don't go together with one another, with the shared socket, or with the sockets that
    /// are bound.
    #[error("the bind flags don't go together")]
    BadFlags,
    /// The device has copy mode only.
    #[error("the device has no zero-copy mode")]
    NoZeroCopy,
    /// The shared socket, or one that has to be, isn't bound.
    #[error("a socket isn't bound")]
    NotBoundYet,
    /// There is no such port or queue.
    #[error("there is no such port or queue")]
    NoSuchQueue,
    /// There are 64 sockets.
    #[error("there are 64 sockets")]
    TooMany,
    /// Memory couldn't be had.
    #[error("out of memory")]
    OutOfMemory,
}

impl<T: Drop> From<AllocFailed<T>> for SetupError {
    ghost use Rattle.std.specs.Prelude.{◌≡◌};
    ghost use Rattle.xsk_socket.specs.declared.error.SetupError.TheVariants as errors;

    ghost from_gives = { λ _ e. e ≡ errors.OutOfMemory };

    fn from(_error: AllocFailed<T>) -> SetupError {
        SetupError::OutOfMemory
    }
}
