//! What is told of a line that can't follow those before it.
ghost use Rattle.std.specs.Prelude.{◌≡◌, ◌++◌, OnOk, codes, take};
ghost use Rattle.std.specs.Fmt.{decimal};
ghost use Rattle.xsk_umem.specs.Geometry.{frame_of};
ghost use Rattle.xsk_audit.specs.Lines.{lines_of};
ghost use Rattle.xsk_audit.specs.Reading.{read_view};
ghost use Rattle.xsk_audit.specs.Reasons.{condition_text, frame_text, frames_text, place_text, reason_text, where_frames};
ghost use Rattle.xsk_audit.specs.Shelf.{descs_of};

use crate::naming::last_naming;
use itoa::Buffer;
use xsk_legal::Illegal;
use xsk_umem::{Batch, Geometry, OutOfMemory};

/// Why a line can't follow those before it.
#[derive(Clone, Copy, Debug, PartialEq, Eq)]
pub enum Reason {
    /// It isn't of the form of a line up to its reply.
    Form,
    /// Its call isn't legal: the first of its conditions that fails.
    Call(Illegal),
    /// It names a frame that no caller has, or one that it has named already.
    Frames,
    /// The object's reply is another, or isn't all that stands behind the call.
    Reply,
    /// Its round is below that of the line before it.
    Round,
}

/// The lines before one: the first of a text, so many.
#[derive(Clone, Copy)]
pub(crate) struct Before<'a> {
    pub(crate) text: &'a [u8],
    pub(crate) count: u64,
}

/// Puts behind a text what is told of a line, by the descriptors that it names, and by the line without its round that would be right.
pub(crate) fn push_reason(
    out: &mut Vec<u8>,
    geometry: &Geometry,
    before: Before<'_>,
    told: &Batch,
    right: &[u8],
    reason: Reason,
) -> Result<(), OutOfMemory>
    ensures { OnOk result (out.new.items ≡ out.old.items ++ reason_text geometry.now (take before.entry.count (lines_of before.entry.text.now)) (descs_of told.now) right.now reason) }
{
    match reason {
        Reason::Form => push_word(out, "it isn't of the form of a line\n"),
        Reason::Call(why) => push_call(out, geometry, before, told, why),
        Reason::Frames => {
            push_word(
                out,
                "no caller has one of these frames, or it is named twice\n",
            )?;
            push_frames(out, geometry, before, told)
        }
        Reason::Reply => {
            push_word(out, "it would be ")?;
            push_bytes(out, right)
        }
        Reason::Round => push_word(out, "its round is below that of the line before\n"),
    }
}

/// A call that isn't legal: the condition that fails, and where its frames aren't the caller's, which line named each last.
fn push_call(
    out: &mut Vec<u8>,
    geometry: &Geometry,
    before: Before<'_>,
    told: &Batch,
    why: Illegal,
) -> Result<(), OutOfMemory>
    ensures { OnOk result (out.new.items ≡ out.old.items ++ (condition_text why ++ where_frames why (frames_text geometry.now (take before.entry.count (lines_of before.entry.text.now)) (descs_of told.now)))) }
{
    push_word(out, condition(why))?;
    match why {
        Illegal::Frames => push_frames(out, geometry, before, told),
        Illegal::NoCaller
        | Illegal::Unknown
        | Illegal::NotItsOwn
        | Illegal::NotNow
        | Illegal::Count
        | Illegal::Places
        | Illegal::Items
        | Illegal::Packets
        | Illegal::Ended => Ok(()),
    }
}

/// The condition of a legal call that fails, as a line.
fn condition(why: Illegal) -> &'static str
    ensures { result.now ≡ condition_text why }
{
    match why {
        Illegal::NoCaller => "there is no such caller\n",
        Illegal::Unknown => "there is no such ring or mark\n",
        Illegal::NotItsOwn => "the ring or mark isn't the caller's own\n",
        Illegal::NotNow => "the mark may not be set to this number now\n",
        Illegal::Count => "the number isn't from 1 to 32, or none that the mark can have\n",
        Illegal::Places => "the caller reserved fewer places, or peeked fewer items\n",
        Illegal::Items => "an item may not stand in this ring\n",
        Illegal::Frames => "the caller doesn't have these frames\n",
        Illegal::Packets => "the items aren't the packets that may stand there\n",
        Illegal::Ended => "the ring was ended\n",
    }
}

/// Which line named each of the frames last.
fn push_frames(
    out: &mut Vec<u8>,
    geometry: &Geometry,
    before: Before<'_>,
    told: &Batch,
) -> Result<(), OutOfMemory>
    ensures { OnOk result (out.new.items ≡ out.old.items ++ frames_text geometry.now (take before.entry.count (lines_of before.entry.text.now)) (descs_of told.now)) }
{
    for i in 0..told.len() {
        push_frame(out, geometry, before, told.desc(i).addr)?;
    }
    Ok(())
}

/// Which line named the frame of an address last, if it lies in one.
fn push_frame(
    out: &mut Vec<u8>,
    geometry: &Geometry,
    before: Before<'_>,
    addr: u64,
) -> Result<(), OutOfMemory>
    ensures { OnOk result (out.new.items ≡ out.old.items ++ frame_text geometry.now (take before.entry.count (lines_of before.entry.text.now)) (frame_of geometry.now addr)) }
{
    let Some(frame) = geometry.frame_of(addr) else {
        return Ok(());
    };
    push_word(out, "frame ")?;
    push_number(out, u64::from(frame))?;
    push_word(out, " was last named by ")?;
    push_place(out, last_naming(geometry, frame, before.text, before.count))
}

/// A line with its number, if there is one.
fn push_place(out: &mut Vec<u8>, last: Option<(u64, &[u8])>) -> Result<(), OutOfMemory>
    ensures { OnOk result (out.new.items ≡ out.old.items ++ place_text (read_view last.entry)) }
{
    let Some((number, line)) = last else {
        return push_word(out, "no line before\n");
    };
    push_word(out, "line ")?;
    push_number(out, number)?;
    push_word(out, ": ")?;
    push_bytes(out, line)
}

fn push_number(out: &mut Vec<u8>, number: u64) -> Result<(), OutOfMemory>
    ensures { OnOk result (out.new.items ≡ out.old.items ++ decimal number) }
{
    out.extend_from_slice(Buffer::new().format(number).as_bytes())?;
    Ok(())
}

fn push_word(out: &mut Vec<u8>, word: &str) -> Result<(), OutOfMemory>
    ensures { OnOk result (out.new.items ≡ out.old.items ++ word.now) }
{
    push_bytes(out, word.as_bytes())
}

fn push_bytes(out: &mut Vec<u8>, bytes: &[u8]) -> Result<(), OutOfMemory>
    ensures { OnOk result (out.new.items ≡ out.old.items ++ bytes.now) }
{
    out.extend_from_slice(bytes)?;
    Ok(())
}
