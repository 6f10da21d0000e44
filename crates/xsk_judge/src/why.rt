//! Why a call isn't possible after those before it.
use crate::Known;
use xsk_umem::XdpDesc;

/// Why a call isn't possible. An entry is told by its place in the call, from 0 on.
#[derive(Clone, Copy, Debug, PartialEq, Eq)]
pub enum Why {
    /// The program broke a rule.
    Rule(Rule),
    /// No kernel answers so.
    Kernel(Denial),
    /// The judge can't count so many addresses outside of the UMEM: 2^64 or more wait on TX of one pair.
    TooMany,
}

/// The rule that the program broke.
#[derive(Clone, Copy, Debug, PartialEq, Eq)]
pub enum Rule {
    /// There is no such ring.
    Ring,
    /// It is the kernel's call.
    Side,
    /// More entries are submitted than places are reserved: so many are.
    Places(u32),
    /// This entry's frame stands in the call before it too.
    Twice(usize),
    /// This entry's frame isn't the program's.
    Frame(usize, Known),
    /// More entries are released than are peeked and not released: so many are.
    Release(u32),
    /// More is given up than the program holds: so many entries, or places of FILL and TX.
    Cancel(u32),
    /// This entry is cancelled, and its frame, which is there, was submitted since it was peeked.
    PassedOn(XdpDesc, Known),
}

/// Why no kernel answers so.
#[derive(Clone, Copy, Debug, PartialEq, Eq)]
pub enum Denial {
    /// More places are granted, or told to be free, than the ring can have: so many.
    Granted(u32),
    /// Places are refused, and so many are free, as this line showed; 0 is the start.
    Refused(u32, u64),
    /// More places are free than the ring can have: so many.
    Taken(u32),
    /// Fewer places are free than are free for certain, as this line showed; 0 is the start.
    FewerFree(u32, u64),
    /// More entries came than were asked for.
    More,
    /// The ring has no place for so many: so many are held.
    Full(u32),
    /// Nothing came, and so many entries stand there, since this line.
    Empty(u32, u64),
    /// This entry isn't the one that has stood there since this line.
    Other(usize, XdpDesc, u64),
    /// This entry's address is outside of the UMEM.
    Outside(usize),
    /// This entry is none that a kernel puts there.
    Entry(usize),
    /// This entry's frame wasn't on FILL.
    NotFilled(usize, Known),
    /// This entry's frame wasn't on TX.
    NotSent(usize, Known),
    /// This entry's frame was on a ring of another pair.
    OtherPair(usize, Known),
    /// This entry's address is outside of the UMEM, and no such entry waits.
    NeverSent(usize),
}
