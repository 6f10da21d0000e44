//! The texts of answers, for people.
ghost use Rattle.std.specs.Prelude.{◌≡◌, None, Some, MatchOption};
ghost use Rattle.xsk_c.specs.Reading.{CopiesTo};
ghost use Rattle.xsk_c.specs.Texts.{TellsText, call_text, refusal_text, text_in};

use crate::answers::{DONE, NO_SUCH, SHORT};

/// The text of an answer, if it fits; how long it is is told also where it doesn't.
pub(crate) fn tell_why(answer: u32, out: &mut [u8], len: &mut u64) -> u32
    ensures { TellsText (text_in answer) out.old out.new len.old len.new result }
{
    match text_of(answer) {
        Some(text) => copy_to(text.as_bytes(), out, len),
        None => NO_SUCH,
    }
}

fn text_of(answer: u32) -> Option<&'static str>
    ensures { MatchOption result (text_in answer ≡ None) (λ text. text_in answer ≡ Some text.now) }
{
    if answer < 32 {
        text_of_call(answer)
    } else {
        text_of_refusal(answer)
    }
}

/// The text of how a call ended: it was made, or it wasn't, or a condition of a legal call fails, in the words of `xsk_legal::Illegal`.
fn text_of_call(answer: u32) -> Option<&'static str>
    ensures { MatchOption result (call_text answer ≡ None) (λ text. call_text answer ≡ Some text.now) }
{
    match answer {
        0 => Some("it is done"),
        1 => Some("the handle isn't live"),
        2 => Some("the handle is live"),
        3 => Some("out of memory"),
        4 => Some("there is no such kind, mark, pair, class or packet"),
        5 => Some("the bytes or the room are too few"),
        6 => Some("fewer places are free"),
        7 => Some("nothing is there"),
        16 => Some("there is no such caller"),
        17 => Some("there is no such ring or mark"),
        18 => Some("it isn't the caller's own"),
        19 => Some("the number isn't from 1 to 32, or none that the mark can have"),
        20 => Some("fewer places are reserved, or fewer items were peeked"),
        21 => Some("an item may not stand in the ring"),
        22 => Some("the caller doesn't have these frames"),
        23 => Some("the items aren't the packets that may stand there"),
        24 => Some("the ring was ended"),
        25 => Some("the mark may not be set to this number now"),
        _ => None,
    }
}

/// The text of why a layout or a capture is refused.
fn text_of_refusal(answer: u32) -> Option<&'static str>
    ensures { MatchOption result (refusal_text answer ≡ None) (λ text. refusal_text answer ≡ Some text.now) }
{
    match answer {
        32 => Some("there must be 2 or 4 ports"),
        33 => Some("a port must have 1, 2 or 4 queues"),
        34 => Some("a queue must have 1, 2 or 4 sockets"),
        35 => Some("each port must have a capture, and these must lie in the text in order"),
        36 => Some("a chunk must have 2048 or 4096 bytes"),
        37 => Some("the headroom leaves no room for data"),
        38 => Some("there must be 1 to 4096 frames, the same number for each queue"),
        39 => Some("an RX ring must have a power of two of entries, from 2 to 2048"),
        40 => Some("a TX ring must have a power of two of entries, from 2 to 2048"),
        41 => Some("a FILL ring must have a power of two of entries, from 2 to 2048"),
        42 => Some("a COMPLETION ring must have a power of two of entries, from 2 to 2048"),
        43 => Some("the frames of a queue don't fit its FILL ring"),
        48 => Some("a capture's file header is cut short"),
        49 => Some("a file has no magic number of a capture"),
        50 => Some("a capture's version is not 2.4"),
        51 => Some("a capture's link type is not Ethernet"),
        52 => Some("a record of a capture is cut short"),
        53 => Some("a record of a capture is too long"),
        _ => None,
    }
}

/// Copies bytes to where C wants them, if they fit; how many they are is told in any case.
pub(crate) fn copy_to(bytes: &[u8], out: &mut [u8], len: &mut u64) -> u32
    ensures { CopiesTo bytes.now out.old out.new len.new result }
{
    *len = bytes.len() as u64;
    if bytes.len() > out.len() {
        return SHORT;
    }
    out[..bytes.len()].copy_from_slice(bytes);
    DONE
}
