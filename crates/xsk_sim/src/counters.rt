//! The counters of drivers that may not have ended.
ghost use Rattle.std.specs.Prelude.{◌≡◌, ◌++◌, IfOk, OnOk};
ghost use Rattle.xsk_sim.specs.SoFar.{counters_kept, kept_counters};

use crate::rounds::Workers;
use std::alloc::Global;
use xsk_driver::DriverCounters;
use xsk_machine::{AnyWorker, DriverFigures};
use xsk_umem::OutOfMemory;

/// The counters of all drivers, by their pairs, each of whose queues has so many sockets.
pub(crate) fn counters_so_far(
    alloc: Global,
    workers: &Workers<'_>,
    classes: u32,
) -> Result<Vec<DriverCounters>, OutOfMemory>
    ensures { IfOk result (λ counters. counters.items ≡ kept_counters classes workers.now) }
{
    let mut counters = Vec::new(alloc);
    for seat in &workers.seats {
        push_own(&mut counters, seat.machine(), classes)?;
    }
    Ok(counters)
}

/// Adds those of a worker that is a driver.
fn push_own(
    counters: &mut Vec<DriverCounters>,
    worker: &AnyWorker<'_>,
    classes: u32,
) -> Result<(), OutOfMemory>
    ensures { OnOk result (counters.new.items ≡ counters.old.items ++ counters_kept classes worker.now) }
{
    match worker {
        AnyWorker::Driver(driver) => {
            counters.push(DriverFigures::of_driver(driver, classes).counters)?;
            Ok(())
        }
        AnyWorker::App(_) => Ok(()),
    }
}
