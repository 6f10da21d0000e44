//! Laws of cutting and gathering. A function here does nothing: its contract is the law.

ghost use Rattle.xsk_desc.specs.Laws.{ValidHasNoFault, HasOneCut, CutsAnywhere, KeepsEachItem, AreWholeOrBad, HasNoOtherPackets, LayoutIsPacket};

/// A descriptor is valid exactly where it has no fault.
pub fn valid_has_no_fault()
    ensures { ValidHasNoFault }
{}

/// A packet with a byte has one cut and no other.
pub fn one_cut()
    ensures { HasOneCut }
{}

/// A list of items that is cut at any place has the packets of its first part, and then those of that part's rest
/// with the second part.
pub fn cut_anywhere()
    ensures { CutsAnywhere }
{}

/// Each item of a list stands in one packet, whole or bad, or in the rest, in the order of the list.
pub fn each_item_once()
    ensures { KeepsEachItem }
{}

/// A whole packet has 1 to 18 valid items, of which the last alone lacks the continuation bit. A bad one is an
/// unfinished packet and one more item, which is invalid or the 19th.
pub fn whole_or_bad()
    ensures { AreWholeOrBad }
{}

/// No other list of whole and bad packets and no other unfinished rest has the same items.
pub fn no_other_packets()
    ensures { HasNoOtherPackets }
{}

/// The layout of a packet in at most 18 frames has one packet, which is whole and has its bytes.
pub fn packet_of_a_layout()
    ensures { LayoutIsPacket }
{}
