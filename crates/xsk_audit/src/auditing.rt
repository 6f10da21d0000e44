//! The audit of a journal: its calls are made on the object, and the journal that this writes is compared with it.
ghost use Rattle.std.specs.Prelude.{◌≡◌, ◌≢◌, ◌+◌, ◌++◌, ◌^◌, ◌<◌, ◌≤◌, ℕ, IfOk, IfSome, IfNone, codes, length};
ghost use Rattle.std.specs.Fmt.{decimal};
ghost use Rattle.xsk_model.specs.Config.{IsLawful};
ghost use Rattle.xsk_model.specs.Opening.{AreFrames};
ghost use Rattle.xsk_log.specs.Log.{entries_of};
ghost use Rattle.xsk_audit.specs.Lines.{lines_of};
ghost use Rattle.xsk_audit.specs.Telling.{AreSame, IsMissed, IsPassed, IsVerdict};
ghost use Rattle.xsk_log.specs.Left.{left_of, pairs_of};

use crate::cutting::{first_line, pass_report};
use crate::number::number;
use crate::playing::play;
use crate::shelf::Shelf;
use crate::words::word;
use std::alloc::Global;
use xsk_log::{LineBuffer, Lines, Log};
use xsk_model::Config;
use xsk_plain::Checked;
use xsk_umem::{Frames, OutOfMemory};

/// What an audit finds.
#[derive(Clone, Copy, Debug, PartialEq, Eq)]
pub enum Verdicts {
    /// The journal is that of a legal history with so many entries.
    Legal { entries: u64 },
    /// This line, counted from 1, is the first that can't follow those before it in the journal of a legal history.
    NotLegal { line: u64 },
}

/// Whether the journal in a text is that of a legal history from the opening. Lines before the first one that begins with
/// a digit are passed over. It takes time and memory of the text's length.
pub fn audit(
    alloc: Global,
    config: Config,
    frames: Frames,
    text: &[u8],
) -> Result<Verdicts, OutOfMemory>
    requires lawful { IsLawful config }
    requires frames { AreFrames config.geometry frames.items }
    ensures { IfOk result (IsVerdict config text.now) }
{
    let pairs = config.pairs().len() as u32;
    let mut shelf = Shelf::new(alloc, config.geometry().frames())?;
    let Ok(mut checked) = Checked::open(alloc, config, frames) else {
        return Err(OutOfMemory);
    };
    // For the proof: the length of a text is a number of 64 bits.
    let _bytes = text.len();
    let (passed, journal) = pass_report(text);
    play(alloc, &mut checked, &mut shelf, journal)?;
    let compared = compare(checked.log(), pairs, journal);
    if compared.whole {
        Ok(Verdicts::Legal {
            entries: compared.same,
        })
    } else {
        Ok(Verdicts::NotLegal {
            line: passed + compared.same + 1,
        })
    }
}

/// How many lines of a text are those of a log's entries, up to the first that isn't, and whether these are all its lines.
#[derive(Clone, Copy)]
struct Compared {
    same: u64,
    whole: bool,
}

/// Compares the lines of a text with those of the log's entries, each with its round in front. Rounds never fall.
fn compare(log: &Log, pairs: u32, text: &[u8]) -> Compared
    ensures same { AreSame pairs (entries_of log.now) (lines_of text.now) result.same result.whole }
    ensures few { result.same ≤ length text.now }
{
    let mut lines = log.lines(pairs);
    let mut buffer = LineBuffer::new();
    let mut rest = text;
    let mut least = 0u64;
    let mut same = 0u64;
    'entries: for _line in 0..text.len() {
        let Some((round, later)) = pass_same(&mut lines, &mut buffer, least, rest) else {
            return Compared {
                same,
                whole: rest.is_empty(),
            };
        };
        least = round;
        rest = later;
        same += 1;
    }
    Compared {
        same,
        whole: rest.is_empty(),
    }
}

/// Passes the first line of a text, if it is the line of the next entry with a round in front that is no less. It gives
/// the round and the text behind the line.
fn pass_same<'a>(
    lines: &mut Lines<'_>,
    buffer: &mut LineBuffer,
    least: u64,
    text: &'a [u8],
) -> Option<(u64, &'a [u8])>
    ensures pairs { pairs_of lines.new ≡ pairs_of lines.old }
    ensures same { IfSome result (λ passed. IsPassed (pairs_of lines.old) (left_of lines.old) (left_of lines.new) least (lines_of text.now) passed.0 (lines_of passed.1.now)) }
    ensures missed { IfNone result (IsMissed (pairs_of lines.old) (left_of lines.old) least (lines_of text.now)) }
    ensures shorter { IfSome result (λ passed. length passed.1.now < length text.now) }
{
    if text.is_empty() {
        return None;
    }
    let _who = lines.write_next(buffer)?;
    let (line, later) = first_line(text);
    let round = round_before(line, buffer.bytes())?;
    if round < least {
        None
    } else {
        Some((round, later))
    }
}

/// The round of a line that is a round, a space and this text.
pub(crate) fn round_before(line: &[u8], text: &[u8]) -> Option<u64>
    ensures some { IfSome result (λ round. (round < 2 ^ 64) × (line.now ≡ decimal round ++ codes " " ++ text.now)) }
    ensures none { IfNone result ((round : ℕ) → round < 2 ^ 64 → line.now ≢ decimal round ++ codes " " ++ text.now) }
{
    let (round, rest) = number(line)?;
    let rest = word(rest, b" ".as_slice())?;
    if rest == text { Some(round) } else { None }
}
