//! The whole text, and how it grows.
ghost use Rattle.std.specs.Prelude.{◌≡◌, ◌++◌, OnOk};
ghost use Rattle.xsk_why.specs.Numbered.{numbered};
ghost use Rattle.xsk_why.specs.Why.{why_text};

use crate::held::append_callers;
use crate::rings::append_rings;
use crate::waits::{push_waits, waits_in};
use itoa::Buffer;
use std::alloc::Global;
use xsk_plain::Plain;
use xsk_umem::OutOfMemory;

/// Puts behind a text what is told of an object after its calls, line by line.
///
/// First what each caller waits for: `waits ` and the journal's line, without its round, of each call since the last one that
/// changed something, each once, by callers. Then the lines of all rings, as `append_rings` has them, and those of all callers with
/// their frames, as `append_callers` has them. It takes time of the log's length, and fails for want of memory alone.
pub fn append_why(alloc: Global, text: &mut Vec<u8>, plain: &Plain) -> Result<(), OutOfMemory>
    ensures { OnOk result (text.new.items ≡ text.old.items ++ why_text plain.now.config plain.now.rings plain.now.log) }
{
    let waits = waits_in(alloc, plain)?;
    push_waits(text, plain.config().callers(), waits.as_slice())?;
    append_rings(text, plain)?;
    append_callers(alloc, text, plain)
}

pub(crate) fn push_word(text: &mut Vec<u8>, word: &str) -> Result<(), OutOfMemory>
    ensures { OnOk result (text.new.items ≡ text.old.items ++ word.now) }
{
    text.extend_from_slice(word.as_bytes())?;
    Ok(())
}

/// A word, and the number behind it.
pub(crate) fn push_number(text: &mut Vec<u8>, word: &str, number: u32) -> Result<(), OutOfMemory>
    ensures { OnOk result (text.new.items ≡ text.old.items ++ numbered word.now number) }
{
    push_word(text, word)?;
    text.extend_from_slice(Buffer::new().format(number).as_bytes())?;
    Ok(())
}
