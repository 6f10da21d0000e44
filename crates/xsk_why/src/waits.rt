//! The calls since the last one that changed something, each once.
ghost use Rattle.std.specs.Prelude.{◌≡◌, ◌++◌, ℕ, IfOk, OnOk, length};
ghost use Rattle.xsk_model.specs.Asks.{answer_of, ask_of};
ghost use Rattle.xsk_model.specs.Entry.{Entry};
ghost use Rattle.xsk_log.specs.Line.{line_of};
ghost use Rattle.xsk_why.specs.KeptWaits.{shown, waiting_in};
ghost use Rattle.xsk_why.specs.Waiting.{is_told, lines_by, told_once, waits_after, waits_line, waits_of, waits_text};

use crate::text::push_word;
use std::alloc::Global;
use xsk_log::{LineBuffer, Noted};
use xsk_machine::is_quiet;
use xsk_plain::Plain;
use xsk_umem::OutOfMemory;

/// A call that changed nothing: its caller, and its line in a journal without the round.
#[derive(Drop)]
pub(crate) struct Wait {
    pub(crate) who: u32,
    pub(crate) line: Vec<u8>,
}

/// The calls since the last one that changed something.
pub(crate) fn waits_in(alloc: Global, plain: &Plain) -> Result<Vec<Wait>, OutOfMemory>
    ensures { IfOk result (λ waits. shown waits.items ≡ waits_of (length plain.now.config.pairs) plain.now.log) }
{
    let log = plain.log();
    let mut waits = Vec::new(alloc);
    let mut line = LineBuffer::new();
    let mut lines = plain.lines();
    for i in 0..log.len() {
        let Some(who) = lines.write_next(&mut line) else {
            return Ok(waits);
        };
        note(alloc, &mut waits, log.entry(i), who, line.bytes())?;
    }
    Ok(waits)
}

/// Notes a call with its line: where it changed something, nobody waits any more.
fn note(
    alloc: Global,
    waits: &mut Vec<Wait>,
    noted: Noted,
    who: u32,
    line: &[u8],
) -> Result<(), OutOfMemory>
    ensures { (pairs : ℕ) (e : Entry) → e.who ≡ who → ask_of e.call ≡ noted.ask → answer_of e.reply ≡ noted.answer → line.now ≡ line_of pairs e
        → OnOk result (shown waits.new.items ≡ waits_after pairs (shown waits.old.items) e) }
{
    if is_quiet(noted.ask, noted.answer, 0, 0) {
        return add_once(alloc, waits, who, line);
    }
    waits.clear();
    Ok(())
}

/// Adds a line, if it isn't there.
fn add_once(alloc: Global, waits: &mut Vec<Wait>, who: u32, line: &[u8]) -> Result<(), OutOfMemory>
    ensures { OnOk result (shown waits.new.items ≡ told_once (shown waits.old.items) (record { who = who; line = line.now })) }
{
    if has_line(waits.as_slice(), line) {
        return Ok(());
    }
    let line = line.to_vec(alloc)?;
    waits.push(Wait { who, line })?;
    Ok(())
}

fn has_line(waits: &[Wait], line: &[u8]) -> bool
    ensures { result ≡ is_told line.now (shown waits.now) }
{
    for wait in waits {
        if wait.line.as_slice() == line {
            return true;
        }
    }
    false
}

/// Puts the lines of all callers behind a text, one caller after the other.
pub(crate) fn push_waits(
    text: &mut Vec<u8>,
    callers: u32,
    waits: &[Wait],
) -> Result<(), OutOfMemory>
    ensures { OnOk result (text.new.items ≡ text.old.items ++ waits_text callers (shown waits.now)) }
{
    for who in 0..callers {
        push_own(text, who, waits)?;
    }
    Ok(())
}

/// Puts the lines of one caller behind a text.
fn push_own(text: &mut Vec<u8>, who: u32, waits: &[Wait]) -> Result<(), OutOfMemory>
    ensures { OnOk result (text.new.items ≡ text.old.items ++ lines_by (shown waits.now) who) }
{
    for wait in waits {
        push_wait(text, who, wait)?;
    }
    Ok(())
}

fn push_wait(text: &mut Vec<u8>, who: u32, wait: &Wait) -> Result<(), OutOfMemory>
    ensures { OnOk result (text.new.items ≡ text.old.items ++ waits_line who (waiting_in wait.now)) }
{
    if wait.who != who {
        return Ok(());
    }
    push_word(text, "waits ")?;
    text.extend_from_slice(wait.line.as_slice())?;
    Ok(())
}
