//! The lines that name a frame.
ghost use Rattle.std.specs.Prelude.{◌≡◌, ◌≤◌, None, if◌then◌else◌, Some, ◌+◌, take};
ghost use Rattle.xsk_umem.specs.Geometry.{frame_of};
ghost use Rattle.xsk_audit.specs.Lines.{lines_of};
ghost use Rattle.xsk_audit.specs.Naming.{is_frame, item_in, last_naming, names};
ghost use Rattle.xsk_audit.specs.Reading.{read_view};

use crate::cutting::first_line;
use crate::words::{begins_item, desc};
use xsk_umem::Geometry;

/// The last of the first lines of a text, so many, that names a frame, with its number, counted from 1.
pub(crate) fn last_naming<'a>(
    geometry: &Geometry,
    frame: u32,
    text: &'a [u8],
    count: u64,
) -> Option<(u64, &'a [u8])>
    ensures { read_view result ≡ last_naming geometry.now frame (take count (lines_of text.now)) }
{
    let mut found = None;
    let mut rest = text;
    for before in 0..count {
        if rest.is_empty() {
            return found;
        }
        let (line, later) = first_line(rest);
        found = newer(geometry, frame, before + 1, line, found);
        rest = later;
    }
    found
}

/// A line with its number, if it names the frame, or else what was found before.
fn newer<'a>(
    geometry: &Geometry,
    frame: u32,
    number: u64,
    line: &'a [u8],
    found: Option<(u64, &'a [u8])>,
) -> Option<(u64, &'a [u8])>
    ensures { read_view result ≡ (if names geometry.now frame line.now then Some (number, line.now) else read_view found.entry) }
{
    if names(geometry, frame, line) {
        Some((number, line))
    } else {
        found
    }
}

/// Whether an item of a line lies in a frame.
fn names(geometry: &Geometry, frame: u32, line: &[u8]) -> bool
    ensures { result ≡ names geometry.now frame line.now }
{
    let mut rest = line;
    for _byte in 0..line.len() {
        let Some((_first, later)) = rest.split_first() else {
            return false;
        };
        if item_in(geometry, frame, rest) {
            return true;
        }
        rest = later;
    }
    false
}

/// Whether an item begins here that lies in the frame.
fn item_in(geometry: &Geometry, frame: u32, text: &[u8]) -> bool
    ensures { result ≡ item_in geometry.now frame text.now }
{
    if !begins_item(text) {
        return false;
    }
    match desc(&text[1..]) {
        Some((desc, _rest)) => lies_in(geometry, frame, desc.addr),
        None => false,
    }
}

/// Whether an address lies in a frame.
fn lies_in(geometry: &Geometry, frame: u32, addr: u64) -> bool
    ensures { result ≡ is_frame frame (frame_of geometry.now addr) }
{
    match geometry.frame_of(addr) {
        Some(number) => number == frame,
        None => false,
    }
}
