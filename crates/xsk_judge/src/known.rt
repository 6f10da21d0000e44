//! What is known of a frame, and of the places of FILL and TX.
ghost use Rattle.std.specs.Prelude.{◌≡◌};
ghost use Rattle.xsk_judge.specs.Kept.{is_as, is_mine, is_spot, spot_by};
ghost use Rattle.xsk_model.specs.Rings.{is_ring};

use xsk_model::Ring;

/// Where a frame is.
#[derive(Clone, Copy, Debug, PartialEq, Eq)]
pub enum Whereabouts {
    /// The program has had it from the start.
    Start,
    /// The program has it, as this entry of RX or COMPLETION. Entries are numbered modulo 2^32.
    Peeked(Ring, u32),
    /// The program submitted it on FILL or TX.
    Given(Ring),
    /// It stands in RX or COMPLETION again, since a Cancel.
    Again(Ring),
}

/// Where a frame is, but for the number of the entry with which it came.
#[derive(Clone, Copy, Debug, PartialEq, Eq)]
pub enum Spot {
    /// With the program, from the start.
    First,
    /// With the program, since this ring of RX or COMPLETION showed it.
    Shown(Ring),
    /// Submitted on this ring of FILL or TX.
    On(Ring),
    /// In this ring of RX or COMPLETION again, since a Cancel.
    Back(Ring),
}

impl Spot {
    /// Whether both are the same.
    pub fn is(self, other: Spot) -> bool
        ensures { result ≡ is_spot self other }
    {
        match (self, other) {
            (Spot::First, Spot::First) => true,
            (Spot::Shown(a), Spot::Shown(b)) => is_same(a, b),
            (Spot::On(a), Spot::On(b)) => is_same(a, b),
            (Spot::Back(a), Spot::Back(b)) => is_same(a, b),
            _ => false,
        }
    }
}

impl Whereabouts {
    /// The place without the entry's number.
    pub fn spot(self) -> Spot
        ensures { result ≡ spot_by self }
    {
        match self {
            Whereabouts::Start => Spot::First,
            Whereabouts::Peeked(ring, _) => Spot::Shown(ring),
            Whereabouts::Given(ring) => Spot::On(ring),
            Whereabouts::Again(ring) => Spot::Back(ring),
        }
    }

    /// Whether the program has the frame.
    pub fn is_mine(self) -> bool
        ensures { result ≡ is_mine self }
    {
        match self {
            Whereabouts::Start | Whereabouts::Peeked(_, _) => true,
            Whereabouts::Given(_) | Whereabouts::Again(_) => false,
        }
    }

    /// Whether the program has the frame as this entry of the ring.
    pub(crate) fn is_as(self, ring: Ring, number: u32) -> bool
        ensures { result ≡ is_as ring number self }
    {
        match self {
            Whereabouts::Peeked(by, at) => is_same(ring, by) && number == at,
            Whereabouts::Start | Whereabouts::Given(_) | Whereabouts::Again(_) => false,
        }
    }
}

/// Where a frame is, and since which line; 0 is the start.
#[derive(Clone, Copy, Debug, PartialEq, Eq)]
pub struct Known {
    pub place: Whereabouts,
    pub since: u64,
}

/// Of FILL or TX: the places reserved and not yet filled, those that are free for certain, and the line that showed it; 0 is the start.
#[derive(Clone, Copy, Debug, PartialEq, Eq)]
pub(crate) struct End {
    pub(crate) room: u32,
    pub(crate) sure: u32,
    pub(crate) shown: u64,
}

/// Whether two rings are one.
fn is_same(ring: Ring, other: Ring) -> bool
    ensures { result ≡ is_ring ring other }
{
    match (ring, other) {
        (Ring::Fill(a), Ring::Fill(b)) => a == b,
        (Ring::Comp(a), Ring::Comp(b)) => a == b,
        (Ring::Rx(a), Ring::Rx(b)) => a == b,
        (Ring::Tx(a), Ring::Tx(b)) => a == b,
        _ => false,
    }
}
