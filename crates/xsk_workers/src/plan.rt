//! How an application is run by several hands. The pairs of its sides are those of its own number, by which its hands wake their drivers
//! (`AreSides`).
ghost use Rattle.std.specs.Prelude.{map, option_map};
ghost use Rattle.xsk_workers.specs.Hands.{AreSides, AreTokensOf};
ghost use Rattle.xsk_workers.specs.Parking.{token_of};
ghost use Rattle.xsk_workers.specs.Terms.{setting_over};

use crate::context::{Source, Verdicts};
use crate::parking::SideWakers;
use std::alloc::Global;

/// How an application is run by several hands: how many it has and with what memory their lock is made, the number from which on the
/// gate knows them, and the pairs of its sides.
#[derive(Clone, Copy)]
pub(crate) struct HandsPlan {
    pub(crate) alloc: Global,
    pub(crate) hands: u32,
    pub(crate) base: u32,
    pub(crate) pairs: [u32; 2],
}

/// What an application by several hands has beside its ends: the source of its run, the number of its caller, and its plan.
#[derive(Drop)]
pub(crate) struct Rest<'a, V: Verdicts> {
    pub(crate) source: Source<'a, V>,
    pub(crate) who: u32,
    pub(crate) plan: HandsPlan,
}

impl<V: Verdicts> Rest<'_, V> {
    /// What wakes the drivers of both sides, where drivers sleep.
    pub(crate) fn wakers(&self) -> SideWakers<'_>
        requires { AreSides (setting_over self.now.source.terms V.verdicts).config self.now.who self.now.plan.pairs }
        ensures { AreTokensOf (map token_of self.now.source.wakers.now) (setting_over self.now.source.terms V.verdicts).config self.now.who (option_map (λ waker. token_of waker.now) result.first) (option_map (λ waker. token_of waker.now) result.second) }
    {
        SideWakers::of(&self.source, self.plan.pairs)
    }
}
