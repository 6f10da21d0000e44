//! The sums of the statistics of all drivers.
ghost use Rattle.std.specs.Prelude.{◌≡◌, ◌+◌, ◌≤◌, List, [], ◌∷◌, ◌++◌};
ghost use Rattle.xsk_machine.specs.declared.figures.DriverFigures.{DriverFigures as AFigures};
ghost use Rattle.xsk_turns.specs.Statistics.{capped};
ghost use Rattle.xsk_stats.specs.Report.{of_sockets, totals_of};

use xsk_machine::{DriverFigures, FigureList};

/// The statistics of sockets, in the order of if_xdp.h, `struct xdp_statistics`.
#[derive(Clone, Copy, Default)]
pub(crate) struct Statistics {
    pub(crate) rx_dropped: u64,
    pub(crate) rx_invalid_descs: u64,
    pub(crate) tx_invalid_descs: u64,
    pub(crate) rx_ring_full: u64,
    pub(crate) rx_fill_ring_empty_descs: u64,
    pub(crate) tx_ring_empty_descs: u64,
    /// The frames that drivers took from TX and didn't give to COMPLETION, which isn't one of these statistics.
    pub(crate) stranded: u64,
}

/// The sums over all drivers, each of which has so many sockets.
pub(crate) fn add_up(drivers: &FigureList, classes: u32) -> Statistics
    requires { classes ≤ 4 }
    ensures { result ≡ totals_of classes drivers.now }
{
    let mut total = Statistics::default();
    for driver in 0..drivers.len() {
        add_driver(&mut total, drivers.get(driver), classes);
    }
    total
}

/// Adds the counters of a driver.
fn add_driver(total: &mut Statistics, driver: &DriverFigures, classes: u32)
    requires { classes ≤ 4 }
    ensures { (drivers : List AFigures) → total.old ≡ totals_of classes drivers → total.new ≡ totals_of classes (drivers ++ driver.now ∷ []) }
{
    let counters = &driver.counters;
    add(&mut total.rx_dropped, counters.rx_dropped);
    add(&mut total.rx_invalid_descs, counters.rx_invalid_descs);
    add(
        &mut total.tx_invalid_descs,
        sum_of(&counters.tx_invalid_descs, classes),
    );
    add(
        &mut total.rx_ring_full,
        sum_of(&counters.rx_ring_full, classes),
    );
    add(
        &mut total.rx_fill_ring_empty_descs,
        counters.rx_fill_ring_empty_descs,
    );
    add(
        &mut total.tx_ring_empty_descs,
        sum_of(&counters.tx_ring_empty_descs, classes),
    );
    add(&mut total.stranded, driver.stranded);
}

/// Adds to a sum, which stays at its last value.
fn add(sum: &mut u64, number: u64)
    ensures { sum.new ≡ capped (sum.old + number) }
{
    *sum = sum.saturating_add(number);
}

/// The sum of a counter over the sockets of a driver.
fn sum_of(counter: &[u64; 4], classes: u32) -> u64
    requires { classes ≤ 4 }
    ensures { result ≡ capped (of_sockets classes counter.now) }
{
    let mut sum = 0;
    for class in 0..classes {
        add(&mut sum, counter[class as usize]);
    }
    sum
}
