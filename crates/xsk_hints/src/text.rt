//! The lines of the hints, and how a text grows.
ghost use Rattle.std.specs.Prelude.{◌≡◌, ◌++◌, OnOk};
ghost use Rattle.xsk_log.specs.Line.{ring_text};
ghost use Rattle.xsk_hints.specs.Told.{numbered, count_line, lines_part, tally_line, unpeeked, start_line, dry_line};
ghost use Rattle.xsk_hints.specs.Wakes.{is_served as served, look_part, unwoken};

use crate::tally::Tally;
use crate::wakes::Wake;
use itoa::Buffer;
use xsk_model::Ring;
use xsk_umem::OutOfMemory;

pub(crate) fn push_word(text: &mut Vec<u8>, word: &str) -> Result<(), OutOfMemory>
    ensures { OnOk result (text.new.items ≡ text.old.items ++ word.now) }
{
    text.extend_from_slice(word.as_bytes())?;
    Ok(())
}

/// Words, and the number behind them.
fn push_number(text: &mut Vec<u8>, words: &str, number: u64) -> Result<(), OutOfMemory>
    ensures { OnOk result (text.new.items ≡ text.old.items ++ numbered words.now number) }
{
    push_word(text, words)?;
    text.extend_from_slice(Buffer::new().format(number).as_bytes())?;
    Ok(())
}

/// A ring with the number of its pair or socket.
fn push_ring(text: &mut Vec<u8>, ring: Ring) -> Result<(), OutOfMemory>
    ensures { OnOk result (text.new.items ≡ text.old.items ++ ring_text ring) }
{
    match ring {
        Ring::Fill(pair) => push_number(text, "fill.", u64::from(pair)),
        Ring::Comp(pair) => push_number(text, "comp.", u64::from(pair)),
        Ring::Rx(socket) => push_number(text, "rx.", u64::from(socket)),
        Ring::Tx(socket) => push_number(text, "tx.", u64::from(socket)),
    }
}

/// A number of a ring, where it isn't 0.
pub(crate) fn push_count(
    text: &mut Vec<u8>,
    ring: Ring,
    words: &str,
    count: u32,
) -> Result<(), OutOfMemory>
    ensures { OnOk result (text.new.items ≡ text.old.items ++ count_line ring words.now count) }
{
    if count == 0 {
        return Ok(());
    }
    push_ring(text, ring)?;
    push_number(text, words, u64::from(count))?;
    push_word(text, "\n")
}

/// How many there are of a ring, and their first and last line, where there is one.
pub(crate) fn push_tally(
    text: &mut Vec<u8>,
    ring: Ring,
    words: &str,
    tally: Tally,
) -> Result<(), OutOfMemory>
    ensures { OnOk result (text.new.items ≡ text.old.items ++ tally_line ring words.now tally) }
{
    if tally.count == 0 {
        return Ok(());
    }
    push_ring(text, ring)?;
    push_number(text, words, tally.count)?;
    push_lines(text, tally)?;
    push_word(text, "\n")
}

/// The first and the last line, or the only one.
fn push_lines(text: &mut Vec<u8>, tally: Tally) -> Result<(), OutOfMemory>
    ensures { OnOk result (text.new.items ≡ text.old.items ++ lines_part tally) }
{
    if tally.first == tally.last {
        return push_number(text, ", line ", tally.first);
    }
    push_number(text, ", lines ", tally.first)?;
    push_number(text, " to ", tally.last)
}

/// That COMPLETION wasn't peeked since this line, where frames came to a TX of its pair behind it.
pub(crate) fn push_unpeeked(
    text: &mut Vec<u8>,
    socket: u32,
    pair: u32,
    peek: u64,
    tally: Tally,
) -> Result<(), OutOfMemory>
    ensures { OnOk result (text.new.items ≡ text.old.items ++ unpeeked socket pair peek tally) }
{
    if peek >= tally.last {
        return Ok(());
    }
    push_ring(text, Ring::Comp(pair))?;
    push_number(text, ": not peeked since line ", peek)?;
    push_word(text, ", and frames were submitted on ")?;
    push_ring(text, Ring::Tx(socket))?;
    push_number(text, " up to line ", tally.last)?;
    push_word(text, "\n")
}

/// Since which line FILL of a pair has no frame at the end, where it is one of a call.
pub(crate) fn push_dry(text: &mut Vec<u8>, pair: u32, since: u64) -> Result<(), OutOfMemory>
    ensures { OnOk result (text.new.items ≡ text.old.items ++ dry_line pair since) }
{
    if since == 0 {
        return Ok(());
    }
    push_ring(text, Ring::Fill(pair))?;
    push_number(text, ": no frame on it from line ", since)?;
    push_word(text, " to the end\n")
}

/// The frames that the program has from the start, where there is one.
pub(crate) fn push_start(text: &mut Vec<u8>, count: u64) -> Result<(), OutOfMemory>
    ensures { OnOk result (text.new.items ≡ text.old.items ++ start_line count) }
{
    if count == 0 {
        return Ok(());
    }
    push_number(text, "frames with the program from the start: ", count)?;
    push_word(text, "\n")
}

/// How many frames are on TX of a socket with no wake behind them, and their lines, where the last look behind them says that one is
/// needed, or there is none.
pub(crate) fn push_unwoken(
    text: &mut Vec<u8>,
    socket: u32,
    wake: Wake,
    tally: Tally,
) -> Result<(), OutOfMemory>
    ensures { OnOk result (text.new.items ≡ text.old.items ++ unwoken socket wake tally) }
{
    if is_served(wake, tally) {
        return Ok(());
    }
    push_ring(text, Ring::Tx(socket))?;
    push_number(text, ": frames with no wake behind them: ", tally.count)?;
    push_lines(text, tally)?;
    push_look(text, tally.last, wake)
}

/// Whether there is no such frame, or the last look behind them says that no wake is needed.
fn is_served(wake: Wake, tally: Tally) -> bool
    ensures { result ≡ served wake tally }
{
    tally.count == 0 || (wake.looked > tally.last && !wake.needed)
}

/// The look behind this line, or that there is none.
fn push_look(text: &mut Vec<u8>, last: u64, wake: Wake) -> Result<(), OutOfMemory>
    ensures { OnOk result (text.new.items ≡ text.old.items ++ look_part last wake) }
{
    if wake.looked <= last {
        return push_word(text, ", and no look behind the last\n");
    }
    push_number(text, ", and the look of line ", wake.looked)?;
    push_word(text, " says that one is needed\n")
}
