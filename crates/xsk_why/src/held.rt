//! The lines of all callers, with the frames that each has.
ghost use Rattle.std.specs.Prelude.{◌≡◌, ◌∷◌, ◌++◌, ◌<◌, true, [], ℕ, List, IfOk, IfSome, OnOk, length};
ghost use Rattle.xsk_model.specs.Asks.{ask_of};
ghost use Rattle.xsk_model.specs.Entry.{Entry, own};
ghost use Rattle.xsk_model.specs.Numbers.{numbers};
ghost use Rattle.xsk_model.specs.Object.{taken};
ghost use Rattle.xsk_model.specs.Own.{had_of};
ghost use Rattle.xsk_log.specs.Items.{next_items};
ghost use Rattle.xsk_log.specs.Left.{left_of};
ghost use Rattle.xsk_log.specs.Line.{who_text};
ghost use Rattle.xsk_log.specs.Repeats.{of_option};
ghost use Rattle.xsk_why.specs.Frames.{ranges, ranges_from};
ghost use Rattle.xsk_why.specs.KeptFrames.{all_by, cut_at, had_by, had_next, is_held, is_submit as gives, without_all, without_held};
ghost use Rattle.xsk_why.specs.Held.{callers_text, line_by, lines_to};
ghost use Rattle.xsk_why.specs.declared.held.Held.{Held as AHeld};

use crate::frames::{Range, push_end, push_next};
use crate::text::{push_number, push_word};
use std::alloc::Global;
use xsk_log::{LineBuffer, Lines, Noted};
use xsk_model::Ask;
use xsk_plain::Plain;
use xsk_umem::OutOfMemory;

/// A frame that a caller has.
#[derive(Clone, Copy)]
pub(crate) struct Held {
    pub(crate) who: u32,
    pub(crate) frame: u32,
}

/// Puts the lines of all callers behind a text: the frames that each has got by its calls and hasn't given back, as ranges, in the
/// order in which it got them. It takes time of the log's length, and fails for want of memory alone.
pub fn append_callers(alloc: Global, text: &mut Vec<u8>, plain: &Plain) -> Result<(), OutOfMemory>
    ensures { OnOk result (text.new.items ≡ text.old.items ++ callers_text plain.now.config plain.now.log) }
{
    let held = held_in(alloc, plain)?;
    let pairs = plain.config().pairs().len() as u32;
    push_callers(text, pairs, plain.config().callers(), held.as_slice())
}

/// The frames that all callers have.
fn held_in(alloc: Global, plain: &Plain) -> Result<Vec<Held>, OutOfMemory>
    ensures { IfOk result (λ held. (who : ℕ) → had_by who held.items ≡ had_of (own who plain.now.log)) }
{
    let log = plain.log();
    let mut held = Vec::new(alloc);
    let mut line = LineBuffer::new();
    let mut lines = plain.lines();
    for i in 0..log.len() {
        note_items(&mut held, log.entry(i), &lines)?;
        lines.write_next(&mut line);
    }
    Ok(held)
}

/// Notes what the next call of a walk changes: a Submit gives its frames away, and a Peek brings those of its reply.
fn note_items(held: &mut Vec<Held>, noted: Noted, lines: &Lines<'_>) -> Result<(), OutOfMemory>
    ensures { (e : Entry) (later : List Entry) → left_of lines.now ≡ e ∷ later → e.who ≡ noted.who → ask_of e.call ≡ noted.ask → (gives noted.ask ≡ true → taken e.reply ≡ [])
        → OnOk result ((who : ℕ) → had_by who held.new.items ≡ had_next who (had_by who held.old.items) e) }
{
    if is_submit(noted.ask) {
        give_items(held, noted.who, lines);
        return Ok(());
    }
    take_items(held, noted.who, lines)
}

fn is_submit(ask: Ask) -> bool
    ensures { result ≡ gives ask }
{
    match ask {
        Ask::Submit(_) => true,
        Ask::Reserve(..) | Ask::Peek(..) | Ask::Release(..) | Ask::Swap(..) | Ask::Look(_) => false,
    }
}

/// Adds the frames of the items to those of a caller.
fn take_items(held: &mut Vec<Held>, who: u32, lines: &Lines<'_>) -> Result<(), OutOfMemory>
    ensures { OnOk result (held.new.items ≡ held.old.items ++ all_by who (numbers (next_items (left_of lines.now)))) }
{
    for i in 0..lines.items() {
        take_frame(held, who, lines.frame(i))?;
    }
    Ok(())
}

fn take_frame(held: &mut Vec<Held>, who: u32, frame: Option<u32>) -> Result<(), OutOfMemory>
    ensures { OnOk result (held.new.items ≡ held.old.items ++ all_by who (of_option frame)) }
{
    if let Some(frame) = frame {
        held.push(Held { who, frame })?;
    }
    Ok(())
}

/// Takes the frames of the items from those of a caller.
fn give_items(held: &mut Vec<Held>, who: u32, lines: &Lines<'_>)
    ensures { held.new.items ≡ without_all who (numbers (next_items (left_of lines.now))) held.old.items }
{
    for i in 0..lines.items() {
        give_frame(held, who, lines.frame(i));
    }
}

fn give_frame(held: &mut Vec<Held>, who: u32, frame: Option<u32>)
    ensures { held.new.items ≡ without_all who (of_option frame) held.old.items }
{
    let Some(frame) = frame else {
        return;
    };
    if let Some(place) = place_of(held.as_slice(), who, frame) {
        held.remove(place);
    }
}

/// Where the frame stands first as one of the caller's.
fn place_of(held: &[Held], who: u32, frame: u32) -> Option<usize>
    ensures within { IfSome result (λ place. place < length held.now) }
    ensures place { cut_at result held.now ≡ without_held who frame held.now }
{
    for place in 0..held.len() {
        if is_own(held[place], who, frame) {
            return Some(place);
        }
    }
    None
}

/// Whether it is this frame of the caller's.
fn is_own(held: Held, who: u32, frame: u32) -> bool
    ensures { result ≡ is_held who frame held }
{
    held.who == who && held.frame == frame
}

/// Puts the lines of so many callers behind a text. There are so many pairs, whose drivers are the first callers.
fn push_callers(
    text: &mut Vec<u8>,
    pairs: u32,
    callers: u32,
    held: &[Held],
) -> Result<(), OutOfMemory>
    ensures { (h : List Entry) → ((who : ℕ) → had_by who held.now ≡ had_of (own who h)) → OnOk result (text.new.items ≡ text.old.items ++ lines_to pairs h callers) }
{
    for who in 0..callers {
        push_caller(text, pairs, who, held)?;
    }
    Ok(())
}

fn push_caller(text: &mut Vec<u8>, pairs: u32, who: u32, held: &[Held]) -> Result<(), OutOfMemory>
    ensures { OnOk result (text.new.items ≡ text.old.items ++ line_by pairs who (had_by who held.now)) }
{
    push_word(text, "caller ")?;
    push_who(text, pairs, who)?;
    push_word(text, " frames")?;
    push_ranges(text, who, held)?;
    push_word(text, "\n")
}

fn push_who(text: &mut Vec<u8>, pairs: u32, who: u32) -> Result<(), OutOfMemory>
    ensures { OnOk result (text.new.items ≡ text.old.items ++ who_text pairs who) }
{
    if who < pairs {
        return push_number(text, "d", who);
    }
    push_number(text, "a", who - pairs)
}

/// Puts the frames of a caller behind a text.
fn push_ranges(text: &mut Vec<u8>, who: u32, held: &[Held]) -> Result<(), OutOfMemory>
    ensures { OnOk result (text.new.items ≡ text.old.items ++ ranges (had_by who held.now)) }
{
    let mut begun = None;
    for frame in held {
        begun = push_own(text, begun, who, frame)?;
    }
    push_end(text, begun)
}

/// Goes on by a frame, if it is the caller's.
fn push_own(
    text: &mut Vec<u8>,
    begun: Option<Range>,
    who: u32,
    held: &Held,
) -> Result<Option<Range>, OutOfMemory>
    ensures { (later : List AHeld) → IfOk result (λ range. text.new.items ++ ranges_from range (had_by who later) ≡ text.old.items ++ ranges_from begun (had_by who (held.now ∷ later))) }
{
    if held.who == who {
        return Ok(Some(push_next(text, begun, held.frame)?));
    }
    Ok(begun)
}
