//! The parts of a line: what ends it, where a call was made, numbers and entries, and how calls are answered.
ghost use Rattle.std.specs.Prelude.{◌≡◌, [], IfOk, IfSome};
ghost use Rattle.xsk_lines.specs.Reading.{read_view, text_view};
ghost use Rattle.xsk_recording.specs.Line.{is_end, is_ended, behind_place, counted_at, answer_at, full_at, entries_at, listed_at, stamp_at};
ghost use Rattle.xsk_recording.specs.Views.{entries_view};

use memchr::memchr;
use std::alloc::Global;
use std::mem;
use xsk_lines::{begins_item, desc, number, ring, small, word};
use xsk_model::Ring;
use xsk_side::{Answer, Entries};
use xsk_umem::{OutOfMemory, XdpDesc};

/// The most entries of a line.
const MOST_ENTRIES: u32 = 32;

/// Whether the line ends here.
pub(crate) fn is_end(text: &[u8]) -> bool
    ensures { result ≡ is_end text.now }
{
    match text {
        [feed] => *feed == b'\n',
        _ => false,
    }
}

/// Whether this word ends the line.
#[tactic(auto, unfolding(crate::specs::Line::is_ended))]
pub(crate) fn is_ended(text: &[u8], expected: &[u8]) -> bool
    ensures { result ≡ is_ended expected.now text.now }
{
    match word(text, expected) {
        Some(rest) => is_end(rest),
        None => false,
    }
}

/// The text behind a place in the program, which is any bytes but a space, and the space behind it.
pub(crate) fn behind_place(text: &[u8]) -> Option<&[u8]>
    ensures { text_view result ≡ behind_place text.now }
{
    let end = memchr(b' ', text)?;
    if end == 0 {
        return None;
    }
    Some(&text[end + 1..])
}

/// The time of a call, and the text behind its thread and its place in the program.
#[tactic(auto, unfolding(crate::specs::Line::stamp_at))]
pub(crate) fn stamp(text: &[u8]) -> Option<(u64, &[u8])>
    ensures { read_view result ≡ stamp_at text.now }
{
    let (time, rest) = number(text)?;
    let rest = word(rest, b" ".as_slice())?;
    let (_thread, rest) = number(rest)?;
    let rest = word(rest, b" ".as_slice())?;
    let rest = behind_place(rest)?;
    Some((time, rest))
}

/// A ring and a number, and the reply behind them.
#[tactic(auto, unfolding(crate::specs::Line::counted_at))]
pub(crate) fn counted(text: &[u8]) -> Option<((Ring, u32), &[u8])>
    ensures { read_view result ≡ counted_at text.now }
{
    let (ring, rest) = ring(text)?;
    let rest = word(rest, b" ".as_slice())?;
    let (count, rest) = small(rest)?;
    let rest = word(rest, b" -> ".as_slice())?;
    Some(((ring, count), rest))
}

/// The answer to a call that asks for places.
#[tactic(auto, unfolding(crate::specs::Line::answer_at))]
pub(crate) fn answer(text: &[u8]) -> Option<Answer>
    ensures { result ≡ answer_at text.now }
{
    if is_ended(text, b"granted".as_slice()) {
        return Some(Answer::Granted);
    }
    if is_ended(text, b"refused".as_slice()) {
        return Some(Answer::Refused);
    }
    let rest = word(text, b"full ".as_slice())?;
    full(rest)
}

fn full(text: &[u8]) -> Option<Answer>
    ensures { result ≡ full_at text.now }
{
    let (places, rest) = small(text)?;
    if is_end(rest) {
        Some(Answer::Full(places))
    } else {
        None
    }
}

/// The entries at the front of a text, 1 to 32 of them, and the text behind them. They take the memory of an empty list.
#[tactic(auto, unfolding(crate::specs::Line::listed_at))]
pub(crate) fn listed<'a>(
    alloc: Global,
    text: &'a [u8],
    spare: &mut Vec<XdpDesc>,
) -> Result<Option<(Entries, &'a [u8])>, OutOfMemory>
    requires { spare.old.items ≡ [] }
    ensures entries { IfOk result (λ read. read_view read ≡ listed_at text.now) }
    ensures empty { IfOk result (λ read. IfSome read (λ _. spare.new.items ≡ [])) }
{
    let Some(rest) = read_entries(text, spare)? else {
        return Ok(None);
    };
    if spare.is_empty() {
        return Ok(None);
    }
    let entries = mem::replace(spare, Vec::new(alloc));
    Ok(Some((Entries::of_vec(entries), rest)))
}

/// Reads up to 32 entries into an empty list, and gives the text behind them.
fn read_entries<'a>(
    text: &'a [u8],
    entries: &mut Vec<XdpDesc>,
) -> Result<Option<&'a [u8]>, OutOfMemory>
    requires { entries.old.items ≡ [] }
    ensures { IfOk result (λ read. entries_view read entries.new.items ≡ entries_at 32 text.now) }
{
    let mut rest = text;
    for _entry in 0..MOST_ENTRIES {
        if !begins_item(rest) {
            return Ok(Some(rest));
        }
        let Some((entry, later)) = desc(&rest[1..]) else {
            return Ok(None);
        };
        entries.push(entry)?;
        rest = later;
    }
    Ok(Some(rest))
}
