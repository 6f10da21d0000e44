//! The end of a run: all lines of the log once more, and the frames that stand in rings.
use crate::bytes;
use crate::hand::Known;
use crate::noted::Board;
use crate::object::{Engine, walks};
use crate::stage::Stage;
use crate::told::Told;
use std::alloc::AllocError;
use std::string::String;
use xsk_umem::{Frame, Frames};

/// Tells the frames that an object gives up. A star stands behind one that was written, and a question mark behind one with
/// other bytes.
fn tell_frames(known: &Known, frames: Frames, out: &mut Told) {
    let mut frames = frames;
    out.say("left");
    for _ in 0..frames.len() {
        if let Some(frame) = frames.pop_front() {
            tell_frame(known, &frame, out);
        }
    }
    out.say("\n");
}

fn tell_frame(known: &Known, frame: &Frame, out: &mut Told) {
    out.say(" ");
    out.number(frame.number());
    out.say(sign_of(known, frame));
}

fn sign_of(known: &Known, frame: &Frame) -> &'static str {
    let seed = known.seed(frame.number());
    if !bytes::holds(frame, seed) {
        "?"
    } else if seed > 0 {
        "*"
    } else {
        ""
    }
}

/// Goes over the lines of all calls once more, which are those that were told.
fn compare<E: Engine, B: Board>(stage: &mut Stage<E, B>) {
    if !walks(
        &stage.object,
        stage.lines.as_slice(),
        stage.callers.as_slice(),
    ) {
        stage.out.say("  a walk tells other lines\n");
    }
}

/// What is printed of a run, with the frames that the object gives up, and those of the table if there is one.
pub(crate) fn end<E: Engine, B: Board>(stage: Stage<E, B>) -> Result<String, AllocError> {
    let mut stage = stage;
    compare(&mut stage);
    let Stage {
        object,
        table,
        hand,
        words,
        other,
        mut out,
        ..
    } = stage;
    if words.is_lost() || other.is_lost() {
        out.lose();
    }
    tell_frames(&hand.known, object.close(), &mut out);
    if let Some(table) = table {
        out.say("on the table ");
        tell_frames(&hand.known, table.close(), &mut out);
    }
    out.into_text()
}
