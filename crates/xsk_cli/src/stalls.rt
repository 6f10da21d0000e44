//! What is told of a run that stalls.
ghost use Rattle.std.specs.Prelude.{◌≡◌, ◌++◌, [], IfOk, if◌then◌else◌, length};
ghost use Rattle.xsk_model.specs.Config.{IsRegular};
ghost use Rattle.xsk_sim.specs.Journal.{journal_of};
ghost use Rattle.xsk_stats.specs.Counters.{counters_text};
ghost use Rattle.xsk_why.specs.Why.{why_text};
ghost use Rattle.xsk_cli.specs.Line.{line_of};
ghost use Rattle.xsk_cli.specs.Steps.{IsExplained};
ghost use Rattle.xsk_cli.specs.declared.status.Status.TheVariants.{Stalled as HasStalled};

use crate::Status;
use crate::failure::RunFailure;
use crate::line::line;
use crate::words::Telling;
use std::alloc::Global;
use xsk_plain::Plain;
use xsk_sim::{DriverCounters, append_journal_so_far};
use xsk_stats::append_counters;
use xsk_umem::OutOfMemory;
use xsk_why::append_why;

/// That a run has stalled in a round on this object, with these counters of its drivers, and why, where that was asked for.
pub(crate) fn explain(
    alloc: Global,
    round: u64,
    object: &Plain,
    counters: &[DriverCounters],
    telling: Telling,
) -> RunFailure
    requires regular { IsRegular object.now.config }
    requires drivers { length counters.now ≡ length object.now.config.pairs }
    ensures { IsExplained telling round object.now counters.now result }
{
    if !telling.why {
        return RunFailure::Stalled { round };
    }
    match explanation(alloc, round, object, counters, telling.journal) {
        Ok(text) => RunFailure::Explained { round, text },
        Err(OutOfMemory) => RunFailure::OutOfMemory,
    }
}

/// The line of a stall, why it is one, the counters of the drivers, and behind these the journal of all calls on the object where that
/// was asked for.
fn explanation(
    alloc: Global,
    round: u64,
    object: &Plain,
    counters: &[DriverCounters],
    journal: bool,
) -> Result<Vec<u8>, OutOfMemory>
    requires regular { IsRegular object.now.config }
    requires drivers { length counters.now ≡ length object.now.config.pairs }
    ensures { IfOk result (λ text. text.items ≡ line_of (HasStalled round)
        ++ (why_text object.now.config object.now.rings object.now.log
        ++ (counters_text object.now.config counters.now ++ (if journal then journal_of (length object.now.config.pairs) object.now.log else [])))) }
{
    let mut text = line_text(alloc, round)?;
    append_why(alloc, &mut text, object)?;
    append_counters(alloc, &mut text, object.config(), counters)?;
    if journal {
        append_journal_so_far(alloc, &mut text, object)?;
    }
    Ok(text)
}

/// The line of a stall.
fn line_text(alloc: Global, round: u64) -> Result<Vec<u8>, OutOfMemory>
    ensures { IfOk result (λ text. text.items ≡ line_of (HasStalled round)) }
{
    let line = line(&Status::Stalled { round });
    let text = line.as_str().as_bytes().to_vec(alloc)?;
    Ok(text)
}
