//! Rings and marks, calls on the object and their replies.
use xsk_umem::Batch;

/// One of the rings of af_xdp.rst, "Rings". FILL and COMPLETION belong to a pair, RX and TX to a socket.
#[derive(Clone, Copy, Debug, PartialEq, Eq)]
pub enum Ring {
    /// FILL of a pair: frames from the application to the driver, for receiving.
    Fill(u32),
    /// COMPLETION of a pair: frames from the driver back to the application, after sending.
    Comp(u32),
    /// RX of a socket: received packets from the driver to the application.
    Rx(u32),
    /// TX of a socket: packets to be sent from the application to the driver.
    Tx(u32),
}

/// A number that the callers share beside the rings.
#[derive(Clone, Copy, Debug, PartialEq, Eq)]
pub enum Mark {
    /// The need-wakeup flag of a pair's FILL ring (af_xdp.rst, "XDP_USE_NEED_WAKEUP bind flag").
    NeedFill(u32),
    /// The need-wakeup flag of a socket's TX ring.
    NeedTx(u32),
    /// A wake that waits for the driver of a pair.
    Kick(u32),
    /// The driver of a pair has no further packet.
    RxDone(u32),
    /// The driver of a pair has ended.
    Gone(u32),
    /// An application will send nothing more.
    TxDone(u32),
    /// An entry of a port's XSKMAP: port and index. 0 is empty, and v stands for socket v - 1.
    Cell(u32, u32),
    /// The application of a socket has begun to close it.
    Closing(u32),
    /// The driver of a socket that is closed will put nothing more into its RX.
    Acked(u32),
    /// How many packets the driver of a pair has bounced.
    Bounced(u32),
}

/// One call on the object.
#[derive(Debug, Drop)]
pub enum Call {
    /// Asks for so many free places of a ring.
    Reserve(Ring, u32),
    /// Puts items into places that were reserved.
    Submit(Ring, Batch),
    /// Takes at most so many items from a ring.
    Peek(Ring, u32),
    /// Gives back the places of so many items that were taken.
    Release(Ring, u32),
    /// Sets a mark and tells what it was.
    Swap(Mark, u64),
    /// Tells what a mark is.
    Look(Mark),
}

/// The reply to a call.
#[derive(Debug, Drop)]
pub enum Reply {
    /// The places are reserved.
    Granted,
    /// Only so many places are free.
    Full(u32),
    /// The items stand in the ring.
    Submitted,
    /// The items that were taken, at least one.
    Items(Batch),
    /// No item stands in the ring.
    Empty,
    /// The places are free again.
    Released,
    /// The number that the mark had.
    Old(u64),
}

/// What a worker does next.
#[derive(Debug, Drop)]
pub enum Act {
    /// It makes this call and wants the reply.
    Call(Call),
    /// It has ended.
    Ended,
}
