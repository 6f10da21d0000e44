//! A law of ring calls on the table. The function here does nothing: its contract is the law.
ghost use Rattle.xsk_rings.specs.Serving.{MayGiveServed};

/// The reply of a ring call is one that the object may give to its caller.
pub fn may_give_served()
    ensures { MayGiveServed }
{}
