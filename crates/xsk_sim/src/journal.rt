//! The journal of a run.
ghost use Rattle.std.specs.Prelude.{◌≡◌, ◌<◌, ℕ, List, [], ◌∷◌, ◌++◌, IfOk, OnOk, codes, length};
ghost use Rattle.std.specs.Fmt.{decimal};
ghost use Rattle.std.specs.List.{slice_index_or};
ghost use Rattle.xsk_model.specs.Entry.{Entry};
ghost use Rattle.xsk_log.specs.Left.{left_of, pairs_of};
ghost use Rattle.xsk_log.specs.Log.{entries_of};
ghost use Rattle.xsk_sim.specs.Counts.{AreCounts};
ghost use Rattle.xsk_sim.specs.Journal.{journal_of, round_of};

use crate::simulation::Run;
use itoa::Buffer;
use std::alloc::Global;
use xsk_log::{LineBuffer, Lines, Log};
use xsk_plain::Plain;
use xsk_umem::OutOfMemory;

/// The journal of a run: for each call, in order, the line `<round> <who> <call> -> <reply>` with a line feed. Rounds are
/// counted from 0, drivers are `d<number>` and applications `a<number>`. It takes time of its length.
pub fn journal_text(alloc: Global, run: &Run) -> Result<Vec<u8>, OutOfMemory>
    ensures { IfOk result (λ text. text.items ≡ journal_of run.now.pairs run.now.log) }
{
    let mut text = Vec::new(alloc);
    append_journal(alloc, &mut text, run)?;
    Ok(text)
}

/// Puts the journal of a run behind a text.
pub fn append_journal(alloc: Global, text: &mut Vec<u8>, run: &Run) -> Result<(), OutOfMemory>
    ensures { OnOk result (text.new.items ≡ text.old.items ++ journal_of run.now.pairs run.now.log) }
{
    append_lines(alloc, text, run.log(), run.lines())
}

/// Puts the journal of all calls on an object behind a text, as that of a run on it.
pub fn append_journal_so_far(
    alloc: Global,
    text: &mut Vec<u8>,
    object: &Plain,
) -> Result<(), OutOfMemory>
    ensures { OnOk result (text.new.items ≡ text.old.items ++ journal_of (length object.now.config.pairs) object.now.log) }
{
    append_lines(alloc, text, object.log(), object.lines())
}

/// Puts the journal of a log behind a text, over all of whose entries the lines go.
fn append_lines(
    alloc: Global,
    text: &mut Vec<u8>,
    log: &Log,
    lines: Lines<'_>,
) -> Result<(), OutOfMemory>
    requires { left_of lines ≡ entries_of log.now }
    ensures { OnOk result (text.new.items ≡ text.old.items ++ journal_of (pairs_of lines.entry) (entries_of log.now)) }
{
    let mut counts = Vec::new(alloc);
    let mut line = LineBuffer::new();
    let mut lines = lines;
    for _call in 0..log.len() {
        let Some(who) = lines.write_next(&mut line) else {
            return Ok(());
        };
        let round = next_round(&mut counts, who)?;
        append_line(text, round, line.bytes())?;
    }
    Ok(())
}

/// Counts a call of a caller, and tells its round: in each round a caller makes one call until it has ended.
fn next_round(counts: &mut Vec<u32>, who: u32) -> Result<u32, OutOfMemory>
    requires { slice_index_or counts.old.items who 0 < 4294967295 }
    ensures { (past : List Entry) (e : Entry) → AreCounts counts.old.items past → e.who ≡ who
        → IfOk result (λ round. (round ≡ round_of past e) × AreCounts counts.new.items (past ++ e ∷ [])) }
{
    make_count(counts, who)?;
    let round = counts[who as usize];
    counts[who as usize] = round + 1;
    Ok(round)
}

/// Makes a count for a caller, if there is none: it made no call so far.
fn make_count(counts: &mut Vec<u32>, who: u32) -> Result<(), OutOfMemory>
    ensures known { OnOk result (who < length counts.new.items) }
    ensures counts { OnOk result ((caller : ℕ) → slice_index_or counts.new.items caller 0 ≡ slice_index_or counts.old.items caller 0) }
{
    let place = who as usize;
    if place >= counts.len() {
        counts.resize(place + 1, 0)?;
    }
    Ok(())
}

/// Puts a line with its round behind a text.
fn append_line(text: &mut Vec<u8>, round: u32, line: &[u8]) -> Result<(), OutOfMemory>
    ensures { OnOk result (text.new.items ≡ text.old.items ++ (decimal round ++ codes " " ++ line.now)) }
{
    text.extend_from_slice(Buffer::new().format(round).as_bytes())?;
    text.push(b' ')?;
    text.extend_from_slice(line)?;
    Ok(())
}
