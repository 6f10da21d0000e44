//! The lines of the counters of drivers, which may not have ended.
ghost use Rattle.std.specs.Prelude.{◌≡◌, ◌++◌, ◌<◌, ◌≤◌, OnOk, length, string_bytes};
ghost use Rattle.xsk_model.specs.Config.{IsRegular};
ghost use Rattle.xsk_stats.specs.Counters.{both_lines, counters_at, counters_text};

use crate::text::{pair_of, push_pair, push_sockets};
use std::alloc::Global;
use xsk_driver::DriverCounters;
use xsk_model::{Config, PairInfo};
use xsk_umem::OutOfMemory;

/// Puts behind a text the lines of the counters of each driver of a regular configuration, by its pair: the pair's, and those of its
/// sockets, each as a report has it.
pub fn append_counters(
    alloc: Global,
    text: &mut Vec<u8>,
    config: &Config,
    counters: &[DriverCounters],
) -> Result<(), OutOfMemory>
    requires regular { IsRegular config.now }
    requires drivers { length counters.now ≡ length config.now.pairs }
    ensures { OnOk result (text.new.items ≡ text.old.items ++ counters_text config.now counters.now) }
{
    let mut lines = String::new(alloc);
    push_all(&mut lines, config, counters)?;
    text.extend_from_slice(lines.as_str().as_bytes())?;
    Ok(())
}

fn push_all(
    text: &mut String,
    config: &Config,
    counters: &[DriverCounters],
) -> Result<(), OutOfMemory>
    requires regular { IsRegular config.now }
    requires drivers { length counters.now ≡ length config.now.pairs }
    ensures { OnOk result (string_bytes text.new ≡ string_bytes text.old ++ counters_text config.now counters.now) }
{
    let classes = config.classes();
    for pair in 0..config.pairs().len() as u32 {
        push_both(
            text,
            classes,
            pair_of(config, pair),
            counters_of(counters, pair),
        )?;
    }
    Ok(())
}

/// The lines of a pair and of its sockets, of which there are so many.
fn push_both(
    text: &mut String,
    classes: u32,
    pair: &PairInfo,
    counters: &DriverCounters,
) -> Result<(), OutOfMemory>
    requires { classes ≤ 4 }
    ensures { OnOk result (string_bytes text.new ≡ string_bytes text.old ++ both_lines classes pair.now counters.now) }
{
    push_pair(text, pair, counters)?;
    push_sockets(text, classes, pair, counters)
}

fn counters_of(counters: &[DriverCounters], pair: u32) -> &DriverCounters
    requires { pair < length counters.now }
    ensures { result.now ≡ counters_at counters.now pair }
{
    &counters[pair as usize]
}
