//! What a check tells of a recording: its verdict in a line, and behind it the hints, or why a call isn't possible.
ghost use Rattle.std.specs.Prelude.{◌≡◌, ◌++◌, ℕ, List, IfErr, IfOk};
ghost use Rattle.xsk_check.specs.Checking.{IsReady, StandsFor};
ghost use Rattle.xsk_checking.specs.Ending.{fault_text, verdict_text, HasTold, MayFollow};
ghost use Rattle.xsk_recording.specs.Verdict.{IsVerdict};

use crate::end::Failure;
use std::alloc::{AllocError, Global};
use std::fmt::Write;
use xsk_check::{Blame, Check, reason_text};
use xsk_recording::Verdict;
use xsk_side::SettingError;

/// The line of a verdict that is found before the end, and why a call isn't possible.
pub(crate) fn found_text(
    alloc: Global,
    check: &Check,
    verdict: Verdict,
    blame: Option<&Blame>,
) -> Result<Vec<u8>, AllocError>
    ensures { IfOk result (λ text. (behind : List ℕ) × MayFollow verdict behind × (text.items ≡ verdict_text verdict ++ behind)) }
{
    let mut text = verdict_line(alloc, verdict)?;
    let behind = behind_text(alloc, check, verdict, blame)?;
    text.extend_from_slice(behind.as_slice())?;
    Ok(text)
}

/// The line of a verdict at the end, and the hints on a recording that is possible.
pub(crate) fn ended_text(alloc: Global, check: &Check, verdict: Verdict) -> Result<Vec<u8>, Failure>
    requires { IsReady check.now }
    ensures told { IfOk result (λ text. (bytes : List ℕ) → StandsFor check.now bytes → IsVerdict bytes verdict → HasTold bytes verdict text.items) }
    ensures failed { IfErr result (λ failure. failure ≡ Failure.OutOfMemory) }
{
    let mut text = verdict_line(alloc, verdict)?;
    let Verdict::Possible { .. } = verdict else {
        return Ok(text);
    };
    check.append_hints(&mut text)?;
    Ok(text)
}

/// The line of a verdict.
fn verdict_line(alloc: Global, verdict: Verdict) -> Result<Vec<u8>, AllocError>
    ensures { IfOk result (λ text. text.items ≡ verdict_text verdict) }
{
    let mut text = String::new(alloc);
    match verdict {
        Verdict::Empty => text.push_str("empty\n")?,
        Verdict::NoCalls => text.push_str("no calls\n")?,
        Verdict::Possible { calls } => writeln!(text, "possible {calls}")?,
        Verdict::NotPossible { line } => writeln!(text, "not possible {line}")?,
        Verdict::NoRecording { line } => writeln!(text, "no recording {line}")?,
        Verdict::NoSetting { line, error } => {
            let fault = fault(error);
            writeln!(text, "no setting {line} {fault}")?
        }
    }
    Ok(text.into_bytes())
}

/// Which part of a header makes it no setting.
fn fault(error: SettingError) -> &'static str
    ensures { result.now ≡ fault_text error }
{
    match error {
        SettingError::Frames => "frames",
        SettingError::Chunk => "chunk",
        SettingError::Pairs => "pairs",
        SettingError::Sockets => "sockets",
    }
}

/// The line of a call that isn't possible, and the reason.
fn behind_text(
    alloc: Global,
    check: &Check,
    verdict: Verdict,
    blame: Option<&Blame>,
) -> Result<Vec<u8>, AllocError>
    ensures { IfOk result (λ behind. MayFollow verdict behind.items) }
{
    let mut behind = Vec::new(alloc);
    let Verdict::NotPossible { line } = verdict else {
        return Ok(behind);
    };
    let mut front = String::new(alloc);
    write!(front, "  line {line}: ")?;
    behind.extend_from_slice(front.as_str().as_bytes())?;
    behind.extend_from_slice(check.line())?;
    if let Some(setting) = check.setting()
        && let Some(blame) = blame
    {
        let reason = reason_text(alloc, setting, line, blame)?;
        behind.extend_from_slice(reason.as_str().as_bytes())?;
    }
    Ok(behind)
}
