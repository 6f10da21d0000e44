//! Why a journal isn't that of a legal history: its lines are made and compared one by one, up to the first that can't follow.
ghost use Rattle.std.specs.Prelude.{◌≡◌, ◌+◌, ◌<◌, ◌≤◌, ℕ, List, [], None, IfOk, IfSome, length};
ghost use Rattle.xsk_umem.specs.Frame.{Frame as Body};
ghost use Rattle.xsk_model.specs.Asks.{HasAsked, joined_call};
ghost use Rattle.xsk_model.specs.Config.{IsLawful};
ghost use Rattle.xsk_model.specs.Entry.{Entry};
ghost use Rattle.xsk_model.specs.Opening.{AreFrames};
ghost use Rattle.xsk_audit.specs.Lines.{lines_of};
ghost use Rattle.xsk_audit.specs.Playing.{IsPlaying};
ghost use Rattle.xsk_audit.specs.Reading.{read_call};
ghost use Rattle.xsk_audit.specs.Shelf.{descs_of};
ghost use Rattle.xsk_audit.specs.Why.{FollowsUpTo, GoesOn, IsBeside, TellsWhy, Tries};

use crate::auditing::round_before;
use crate::cutting::{first_line, pass_report};
use crate::playing::empty;
use crate::reading::{Reading, read_line};
use crate::reasons::{Before, Reason, push_reason};
use crate::shelf::Shelf;
use std::alloc::Global;
use xsk_log::LineBuffer;
use xsk_model::{Ask, Config};
use xsk_plain::{Checked, items_room};
use xsk_umem::{Batch, Frames, OutOfMemory};

/// The line of a text, counted from 1, that can't follow those before it, and why.
#[derive(Clone, Copy, Debug, PartialEq, Eq)]
pub struct Misfit {
    pub line: u64,
    pub reason: Reason,
}

/// Where a journal stops being that of a legal history: the line, and the object there. The object has made the calls of the lines
/// before it, and the line's own where that is legal, so that the reply or the round alone is wrong.
#[derive(Drop)]
pub struct Stopped {
    pub misfit: Misfit,
    pub object: Checked,
}

/// The first line that can't follow those before it in the journal of a legal history, which is the one that `audit` tells, and
/// why it can't. What is told of it stands behind what `out` held.
///
/// It is one line, the reason; where it is that frames aren't with the caller, behind it a line for each of them, with the last line
/// before that named it; and where the reply is another, the line as it would be, without its round. There is none where the journal
/// is that of a legal history. It takes time and memory of the text's length, and where frames are told of, time of as many times
/// its length, 32 at most.
pub fn why_not_legal(
    alloc: Global,
    config: Config,
    frames: Frames,
    text: &[u8],
    out: &mut Vec<u8>,
) -> Result<Option<Stopped>, OutOfMemory>
    requires lawful { IsLawful config }
    requires frames { AreFrames config.geometry frames.items }
    ensures { IfOk result (λ stop. TellsWhy config text.now out.old.items out.new.items stop) }
{
    // For the proof: it is a configuration (IsConfig).
    let _pairs = config.pairs();
    let mut shelf = Shelf::new(alloc, config.geometry().frames())?;
    let Ok(mut checked) = Checked::open(alloc, config, frames) else {
        return Err(OutOfMemory);
    };
    // For the proof: the length of a text is a number of 64 bits.
    let _bytes = text.len();
    let (passed, journal) = pass_report(text);
    let mut told = Batch::new();
    let mut line = LineBuffer::new();
    let Some((same, reason)) = follow(
        alloc,
        &mut checked,
        &mut shelf,
        journal,
        &mut told,
        &mut line,
    )?
    else {
        return Ok(None);
    };
    let before = Before {
        text,
        count: passed + same,
    };
    push_reason(
        out,
        checked.config().geometry(),
        before,
        &told,
        line.bytes(),
        reason,
    )?;
    let misfit = Misfit {
        line: passed + same + 1,
        reason,
    };
    Ok(Some(Stopped {
        misfit,
        object: checked,
    }))
}

/// Follows lines up to the first that can't follow those before it: how many do, and why this one doesn't. What it names stands in
/// the batch, and the line that would be right in the buffer, where there is one.
fn follow(
    alloc: Global,
    checked: &mut Checked,
    shelf: &mut Shelf,
    text: &[u8],
    told: &mut Batch,
    right: &mut LineBuffer,
) -> Result<Option<(u64, Reason)>, OutOfMemory>
    requires opened { (frames : List Body) × IsPlaying checked.old shelf.old frames [] }
    requires none { checked.old.calls ≡ 0 }
    requires told { told.old ≡ [] }
    ensures config { checked.new.config ≡ checked.old.config }
    ensures follows { IfOk result (λ stop. FollowsUpTo checked.new (lines_of text.now) (descs_of told.new) right.new stop) }
    ensures few { IfOk result (λ found. IfSome found (λ stop. stop.0 < length text.now)) }
{
    let mut rest = text;
    let mut least = 0u64;
    let mut same = 0u64;
    for _line in 0..text.len() {
        if rest.is_empty() {
            return Ok(None);
        }
        let (line, later) = first_line(rest);
        let round = match follow_line(alloc, checked, shelf, least, line, told, right)? {
            Next::Follows(round) => round,
            Next::Fails(reason) => return Ok(Some((same, reason))),
        };
        empty(told);
        least = round;
        rest = later;
        same += 1;
    }
    Ok(None)
}

/// What a line comes to: it follows, in this round, or it fails.
#[derive(Clone, Copy)]
enum Next {
    Follows(u64),
    Fails(Reason),
}

/// Makes the call of a line, and compares the line with that of its entry. No round is below the least.
fn follow_line(
    alloc: Global,
    checked: &mut Checked,
    shelf: &mut Shelf,
    least: u64,
    line: &[u8],
    told: &mut Batch,
    right: &mut LineBuffer,
) -> Result<Next, OutOfMemory>
    requires playing { (frames : List Body) × (h : List Entry) × IsPlaying checked.old shelf.old frames h }
    requires told { told.old ≡ [] }
    ensures config { checked.new.config ≡ checked.old.config }
    ensures next { IfOk result (λ next. (frames : List Body) (h : List Entry) → IsPlaying checked.old shelf.old frames h → checked.old.calls ≡ length h
        → GoesOn checked.new shelf.new frames h least line.now (descs_of told.new) right.new next) }
{
    let pairs = checked.config().pairs().len() as u32;
    let Some(reading) = read_line(pairs, line, told) else {
        return Ok(Next::Fails(Reason::Form));
    };
    let Reading { who, ask, .. } = reading;
    if let Some(reason) = try_call(alloc, checked, shelf, who, ask, told)? {
        return Ok(Next::Fails(reason));
    }
    let last = checked.log().len() - 1;
    checked.write_line(last, right);
    Ok(beside(least, line, right.bytes()))
}

/// What a line comes to beside the text of its entry.
fn beside(least: u64, line: &[u8], right: &[u8]) -> Next
    ensures { IsBeside least line.now right.now result }
{
    let Some(round) = round_before(line, right) else {
        return Next::Fails(Reason::Reply);
    };
    if round < least {
        Next::Fails(Reason::Round)
    } else {
        Next::Follows(round)
    }
}

/// Makes a call as `play` does, or tells why it isn't legal.
fn try_call(
    alloc: Global,
    checked: &mut Checked,
    shelf: &mut Shelf,
    who: u32,
    ask: Ask,
    told: &Batch,
) -> Result<Option<Reason>, OutOfMemory>
    requires asked { HasAsked ask told.now }
    requires told { read_call (joined_call ask told.now) ≡ joined_call ask told.now }
    requires playing { (frames : List Body) × (h : List Entry) × IsPlaying checked.old shelf.old frames h }
    ensures config { checked.new.config ≡ checked.old.config }
    ensures calls { IfOk result (λ reason. reason ≡ None → checked.new.calls ≡ checked.old.calls + 1) }
    ensures tries { IfOk result (λ reason. (frames : List Body) (h : List Entry) → IsPlaying checked.old shelf.old frames h → Tries checked.old checked.new shelf.new frames h who (joined_call ask told.now) reason) }
{
    let mut items = Batch::new();
    if !shelf.lend(checked.config().geometry(), told, &mut items) {
        return Ok(Some(Reason::Frames));
    }
    if let Some(why) = checked.why_not(who, ask, &items) {
        return Ok(Some(Reason::Call(why)));
    }
    checked.reserve_log(1, items_room(&items))?;
    let _answer = checked.serve(who, ask, &mut items);
    shelf.keep(&mut items);
    Ok(None)
}
