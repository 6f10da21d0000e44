//! What a run on threads is given, under which verdicts, and whom its workers may wake. A setting is shown by it alone
//! (`specs/Terms.antt`), so all contracts of a run speak of the same.
ghost use Rattle.std.specs.Prelude.{◌≡◌, ℕ, List, [], map, option_map};
ghost use Rattle.std.specs.List.{slice_get};
ghost use Rattle.xsk_prog.specs.declared.rule.Verdict.{Verdict as AVerdict};
ghost use Rattle.xsk_workers.specs.Parking.{token_of};

use crossbeam_utils::sync::Unparker;
use std::alloc::{AllocError, Global};
use std::marker::{Brand, PhantomData};
use xsk_driver::Wire;
use xsk_model::Config;
use xsk_turns::Manner;
use xsk_umem::PacketList;

/// The verdicts of each pair's packets, which are known once all drivers are made. No value of it has bytes: what a worker's
/// run is judged by goes to threads, so it may keep no snapshot.
pub(crate) trait Verdicts {
    ghost verdicts: { List (List AVerdict) };
}

impl Verdicts for Brand {
    ghost verdicts = { [] };
}

/// The terms of a run: its configuration, the packets of each port, the wire, the applications' manner, how many hands each of these
/// has, and where memory is had.
#[derive(Clone, Copy)]
pub(crate) struct Terms<'a> {
    pub(crate) alloc: Global,
    pub(crate) config: &'a Config,
    pub(crate) packets: &'a [PacketList],
    pub(crate) wire: Wire,
    pub(crate) manner: Manner,
    pub(crate) hands: u32,
}

/// The terms of a run under these verdicts, and what wakes the driver of each pair, where drivers sleep.
pub(crate) struct Source<'a, V: Verdicts> {
    pub(crate) terms: Terms<'a>,
    pub(crate) wakers: &'a [Unparker],
    pub(crate) verdicts: PhantomData<V>,
}

impl<V: Verdicts> Clone for Source<'_, V> {
    fn clone(&self) -> Result<Self, AllocError> {
        Ok(*self)
    }
}

impl<V: Verdicts> Copy for Source<'_, V> {}

impl<V: Verdicts> Source<'_, V> {
    /// What wakes the driver of a pair, where drivers sleep.
    pub(crate) fn waker(&self, pair: u32) -> Option<&Unparker>
        ensures { option_map (λ waker. token_of waker.now) result ≡ slice_get (map token_of self.now.wakers.now) pair }
    {
        self.wakers.get(pair as usize)
    }
}
