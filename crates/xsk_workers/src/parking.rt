//! What drivers sleep on, and what wakes them. The parker of a pair's driver and what wakes it have one token (`specs/Parking.antt`).
ghost use Rattle.std.specs.Prelude.{◌≡◌, map, length, IfOk, if◌then◌else◌, option_map};
ghost use Rattle.std.specs.List.{slice_get, slice_index};
ghost use Rattle.xsk_workers.specs.Parking.{token_of, token_in};

use crate::context::{Source, Verdicts};
use crossbeam_utils::sync::{Parker, Unparker};
use std::alloc::{AllocError, Global};
use xsk_model::Config;

/// A parker for the driver of each pair, and what wakes it: none without the need-wakeup flags, where no driver sleeps.
pub(crate) fn parkers_for(
    alloc: Global,
    config: &Config,
) -> Result<(Vec<Parker>, Vec<Unparker>), AllocError>
    ensures count { IfOk result (λ both. length both.0.items ≡ (if config.now.wakeup then length config.now.pairs else 0)) }
    ensures tied { IfOk result (λ both. map token_in both.0.items ≡ map token_of both.1.items) }
{
    let count = if config.wakeup() {
        config.pairs().len()
    } else {
        0
    };
    let mut parkers = Vec::with_capacity(alloc, count)?;
    let mut wakers = Vec::with_capacity(alloc, count)?;
    for _ in 0..count {
        let parker = Parker::new(alloc)?;
        wakers.push(parker.unparker().clone()?)?;
        parkers.push(parker)?;
    }
    Ok((parkers, wakers))
}

/// What wakes the drivers of an application's two sides, where drivers sleep.
#[derive(Clone, Copy)]
pub(crate) struct SideWakers<'a> {
    pub(crate) first: Option<&'a Unparker>,
    pub(crate) second: Option<&'a Unparker>,
}

impl<'a> SideWakers<'a> {
    /// What wakes the drivers of these pairs.
    pub(crate) fn of<V: Verdicts>(source: &'a Source<'_, V>, pairs: [u32; 2]) -> SideWakers<'a>
        ensures first { option_map (λ waker. token_of waker.now) result.first ≡ slice_get (map token_of source.now.wakers.now) (slice_index pairs 0) }
        ensures second { option_map (λ waker. token_of waker.now) result.second ≡ slice_get (map token_of source.now.wakers.now) (slice_index pairs 1) }
    {
        SideWakers {
            first: source.waker(pairs[0]),
            second: source.waker(pairs[1]),
        }
    }

    /// Gives the tokens of both drivers, which steps may have kicked.
    pub(crate) fn wake(self) {
        if let Some(waker) = self.first {
            waker.unpark();
        }
        if let Some(waker) = self.second {
            waker.unpark();
        }
    }
}
