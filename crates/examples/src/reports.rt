//! xsk_stats: the figures of a run as a text; and those of two drivers of which each number is the largest, where the sums stay too.
ghost use Rattle.xsk_model.specs.Config.{IsRegular};

use crate::layouts::opened;
use crate::runs::{LAYOUT, forwarded};
use anyhow::{Result, bail};
use std::alloc::Global;
use xsk_machine::{DriverFigures, FigureList};
use xsk_model::Config;
use xsk_sim::{Figures, Wire};
use xsk_stats::report;
use xsk_turns::DriverCounters;

const MOST: u64 = u64::MAX;

pub fn report_a_run<R: Print>(rt: &R, alloc: Global) -> Result<()> {
    let run = forwarded(alloc)?;
    tell(rt, alloc, run.figures())
}

pub fn report_the_largest<R: Print>(rt: &R, alloc: Global) -> Result<()> {
    let figures = Figures {
        calls: MOST,
        wire: Wire::Drop,
        drivers: FigureList::of(vec![in alloc; largest(), largest()]?),
        mangled: true,
    };
    tell(rt, alloc, &figures)
}

fn largest() -> DriverFigures {
    let counters = DriverCounters {
        rx_dropped: MOST,
        rx_invalid_descs: MOST,
        rx_fill_ring_empty_descs: MOST,
        rx_ring_full: [MOST; 4],
        tx_invalid_descs: [MOST; 4],
        tx_ring_empty_descs: [MOST; 4],
    };
    DriverFigures {
        packets_in: MOST,
        kinds: [MOST; 9],
        sent: MOST,
        counters,
        stranded: MOST,
    }
}

/// Tells the report of figures.
fn tell<R: Print>(rt: &R, alloc: Global, figures: &Figures) -> Result<()> {
    let (config, _frames) = opened(alloc, &LAYOUT)?;
    let text = String::from_utf8(reported(alloc, &config, figures)?)?;
    print!(rt; "{text}")?;
    Ok(())
}

fn reported(alloc: Global, config: &Config, figures: &Figures) -> Result<Vec<u8>>
    requires { IsRegular config.now }
{
    if figures.drivers.len() as usize != config.pairs().len() {
        bail!("a driver lacks its figures");
    }
    Ok(report(alloc, config, figures)?)
}
