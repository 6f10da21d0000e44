//! The journal's lines, from a call on.
ghost use Rattle.std.specs.Prelude.{◌≡◌, ◌+◌, ◌≤◌, ◌↔◌, ◌++◌, IsTrue, List, take, drop, length};
ghost use Rattle.xsk_model.specs.Entry.{Entry};
ghost use Rattle.xsk_log.specs.Left.{left_of, pairs_of};
ghost use Rattle.xsk_c.specs.Journal.{TellsNext};

use crate::answers::{DONE, SHORT};
use xsk_log::{LineBuffer, Lines};

/// Goes past so many calls.
pub(crate) fn skip(lines: &mut Lines<'_>, count: u32)
    requires { count ≤ length (left_of lines.old) }
    ensures pairs { pairs_of lines.new ≡ pairs_of lines.old }
    ensures passed { (past : List Entry) × (left_of lines.old ≡ past ++ left_of lines.new) × (length past ≡ count) }
{
    let mut line = LineBuffer::new();
    for _call in 0..count {
        let _caller = lines.write_next(&mut line);
    }
}

/// Writes the lines of the next calls to a room, as many as fit of so many, and tells how many these are and where they end.
pub(crate) fn put_lines(
    lines: &mut Lines<'_>,
    count: u32,
    out: &mut [u8],
    told: &mut u32,
    end: &mut u64,
) -> u32
    requires { length (left_of lines.old) ≡ count }
    ensures few { told.new ≤ count }
    ensures told { TellsNext (pairs_of lines.old) (left_of lines.old) out.old out.new told.new end.new result }
{
    let mut line = LineBuffer::new();
    let mut at = 0;
    for call in 0..count {
        let Some(_caller) = lines.write_next(&mut line) else {
            unreachable!();
        };
        if !put_line(line.bytes(), out, at) {
            *told = call;
            *end = at as u64;
            return SHORT;
        }
        at += line.bytes().len();
    }
    *told = count;
    *end = at as u64;
    DONE
}

/// Copies a line behind those before it, if there is room.
fn put_line(line: &[u8], out: &mut [u8], at: usize) -> bool
    requires { at ≤ length out.old }
    ensures fits { IsTrue result ↔ at + length line.now ≤ length out.old }
    ensures put { IsTrue result → out.new ≡ take at out.old ++ line.now ++ drop (at + length line.now) out.old }
    ensures full { (IsTrue result → ⊥) → out.new ≡ out.old }
{
    if line.len() > out.len() - at {
        return false;
    }
    out[at..at + line.len()].copy_from_slice(line);
    true
}
