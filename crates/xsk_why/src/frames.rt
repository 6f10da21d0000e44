//! The frames of the items that are out in a ring, as ranges.
ghost use Rattle.std.specs.Prelude.{◌≡◌, [], ◌∷◌, ◌++◌, ◌≤◌, ℕ, List, Some, IfOk, OnOk, length};
ghost use Rattle.xsk_model.specs.Config.{HasRing};
ghost use Rattle.xsk_model.specs.Numbers.{numbers};
ghost use Rattle.xsk_log.specs.Repeats.{of_option};
ghost use Rattle.xsk_plain.specs.Engine.{part_in};
ghost use Rattle.xsk_why.specs.Frames.{range_end, ranges, ranges_from};

use crate::text::push_number;
use xsk_model::Ring;
use xsk_plain::Plain;
use xsk_umem::OutOfMemory;

/// The first and the last of numbers that follow one another.
#[derive(Clone, Copy)]
pub(crate) struct Range {
    first: u32,
    last: u32,
}

/// Puts the frames of so many items that are out in a ring behind a text, in their order. An item without a frame is passed over.
pub(crate) fn push_frames(
    text: &mut Vec<u8>,
    plain: &Plain,
    ring: Ring,
    count: u32,
) -> Result<(), OutOfMemory>
    requires ring { HasRing plain.now.config ring }
    requires count { count ≡ length (part_in plain.now.config plain.now.rings ring).out }
    ensures { OnOk result (text.new.items ≡ text.old.items ++ ranges (numbers (part_in plain.now.config plain.now.rings ring).out)) }
{
    let mut begun = None;
    for i in 0..count {
        begun = push_item(text, begun, plain.frame(ring, i))?;
    }
    push_end(text, begun)
}

/// Goes on by the frame of an item, if it has one.
fn push_item(
    text: &mut Vec<u8>,
    begun: Option<Range>,
    frame: Option<u32>,
) -> Result<Option<Range>, OutOfMemory>
    ensures { (later : List ℕ) → IfOk result (λ range. text.new.items ++ ranges_from range later ≡ text.old.items ++ ranges_from begun (of_option frame ++ later)) }
{
    match frame {
        Some(frame) => Ok(Some(push_next(text, begun, frame)?)),
        None => Ok(begun),
    }
}

/// Lengthens the range that is open, or ends it and begins another.
pub(crate) fn push_next(
    text: &mut Vec<u8>,
    begun: Option<Range>,
    frame: u32,
) -> Result<Range, OutOfMemory>
    ensures { (later : List ℕ) → IfOk result (λ range. text.new.items ++ ranges_from (Some range) later ≡ text.old.items ++ ranges_from begun (frame ∷ later)) }
{
    if let Some(range) = begun {
        if u64::from(frame) == u64::from(range.last) + 1 {
            return Ok(Range {
                first: range.first,
                last: frame,
            });
        }
        push_last(text, range)?;
    }
    push_number(text, " ", frame)?;
    Ok(Range {
        first: frame,
        last: frame,
    })
}

/// Ends the range that is open, if one is.
pub(crate) fn push_end(text: &mut Vec<u8>, begun: Option<Range>) -> Result<(), OutOfMemory>
    ensures { OnOk result (text.new.items ≡ text.old.items ++ ranges_from begun []) }
{
    match begun {
        Some(range) => push_last(text, range),
        None => Ok(()),
    }
}

fn push_last(text: &mut Vec<u8>, range: Range) -> Result<(), OutOfMemory>
    ensures { OnOk result (text.new.items ≡ text.old.items ++ range_end range) }
{
    if range.first == range.last {
        return Ok(());
    }
    push_number(text, "-", range.last)
}
