//! What is told of a journal that isn't legal.
ghost use Rattle.std.specs.Prelude.{◌≡◌, None, IfOk};
ghost use Rattle.xsk_audit.specs.Telling.{IsVerdict};
ghost use Rattle.xsk_audit.specs.declared.auditing.Verdicts.TheVariants.{NotLegal as FindsNotLegal};
ghost use Rattle.xsk_socket.specs.Layout.{fault_of};
ghost use Rattle.xsk_socket.specs.Regular.{regular_of};
ghost use Rattle.xsk_cli.specs.Steps.{FailsAudit, IsReasonText};

use crate::Status;
use crate::failure::RunFailure;
use crate::line::line;
use crate::setup::set_up;
use std::alloc::Global;
use xsk_audit::why_not_legal;
use xsk_socket::Layout;
use xsk_umem::OutOfMemory;
use xsk_why::{append_callers, append_rings};

/// That a journal isn't legal from a line on, and why, where that was asked for.
pub(crate) fn explain_misfit(
    alloc: Global,
    layout: &Layout,
    why: bool,
    line: u64,
    journal: &[u8],
) -> RunFailure
    requires accepted { fault_of layout.now ≡ None }
    requires verdict { IsVerdict (regular_of layout.now) journal.now (FindsNotLegal line) }
    ensures { FailsAudit why layout.now journal.now result }
{
    if !why {
        return RunFailure::NotLegal { line };
    }
    match explanation(alloc, layout, line, journal) {
        Ok(text) => RunFailure::Reasoned { line, text },
        Err(OutOfMemory) => RunFailure::OutOfMemory,
    }
}

/// The line that tells it, why it is so, and what stands in the rings there and with the callers.
fn explanation(
    alloc: Global,
    layout: &Layout,
    at: u64,
    journal: &[u8],
) -> Result<Vec<u8>, OutOfMemory>
    requires accepted { fault_of layout.now ≡ None }
    requires verdict { IsVerdict (regular_of layout.now) journal.now (FindsNotLegal at) }
    ensures { IfOk result (λ text. IsReasonText layout.now journal.now at text.items) }
{
    let (config, frames) = set_up(alloc, layout)?;
    let line = line(&Status::NotLegal { line: at });
    let mut text = line.as_str().as_bytes().to_vec(alloc)?;
    let Some(stopped) = why_not_legal(alloc, config, frames, journal, &mut text)? else {
        unreachable!();
    };
    let object = stopped.object.object();
    append_rings(&mut text, object)?;
    append_callers(alloc, &mut text, object)?;
    Ok(text)
}
