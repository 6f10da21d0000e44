//! The calls on rings, each with its reply.
use crate::Entries;
use xsk_model::Ring;

/// Whose call it is. The program is one, whatever its threads, and so is the kernel, whatever its devices.
#[derive(Clone, Copy, Debug, PartialEq, Eq)]
pub enum Party {
    Program,
    Kernel,
}

/// The answer to a call that asks for places.
#[derive(Clone, Copy, Debug, PartialEq, Eq)]
pub enum Answer {
    /// The places are reserved.
    Granted,
    /// Only so many places are free.
    Full(u32),
    /// Fewer places are free.
    Refused,
}

/// A call of libxdp's ring functions (`xsk.h`), with its reply.
#[derive(Debug, Drop)]
pub enum Call {
    /// `xsk_ring_prod__reserve`: asks for so many places.
    Reserve(Ring, u32, Answer),
    /// `xsk_prod_nb_free`: asks whether so many places are free, and is told how many.
    Free(Ring, u32, u32),
    /// `xsk_ring_prod__submit`: puts entries into places that were reserved.
    Submit(Ring, Entries),
    /// `xsk_ring_cons__peek`: asks for so many entries, and is shown these.
    Peek(Ring, u32, Entries),
    /// `xsk_ring_cons__release`: gives back the places of so many entries that were peeked.
    Release(Ring, u32),
    /// `xsk_ring_cons__cancel`: puts back the last so many entries that were peeked; on FILL and TX it gives up places that were
    /// reserved.
    Cancel(Ring, u32),
}
