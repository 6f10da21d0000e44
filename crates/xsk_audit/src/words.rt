//! The words of a journal's line: callers, rings, marks and items.
ghost use Rattle.std.specs.Prelude.{◌≡◌};
ghost use Rattle.xsk_audit.specs.Reading.{read_view, text_view, word_at, who_at, driver_at, application_at, ring_at, ring_like, cell_at, mark_at, mark_of_kind, numbered, desc_at, begins_item};

use crate::number::{number, small};
use xsk_model::marks::MARK_KINDS;
use xsk_model::{Mark, MarkKind, Ring};
use xsk_umem::XdpDesc;

/// The text behind a word, if it begins with it. Most words differ in their first letter.
pub(crate) fn word<'a>(text: &'a [u8], word: &[u8]) -> Option<&'a [u8]>
    ensures { text_view result ≡ word_at word.now text.now }
{
    let Some((letter, letters)) = word.split_first() else {
        return Some(text);
    };
    let (first, rest) = text.split_first()?;
    if first == letter {
        rest.strip_prefix(letters)
    } else {
        None
    }
}

/// The number of a caller, where there are so many pairs: drivers come first.
#[tactic(auto, unfolding(crate::specs::Reading::who_at))]
pub(crate) fn who(pairs: u32, text: &[u8]) -> Option<(u32, &[u8])>
    ensures { read_view result ≡ who_at pairs text.now }
{
    if let Some(rest) = word(text, b"d".as_slice()) {
        return driver(pairs, rest);
    }
    let rest = word(text, b"a".as_slice())?;
    application(pairs, rest)
}

/// A driver's number, of so many.
fn driver(pairs: u32, text: &[u8]) -> Option<(u32, &[u8])>
    ensures { read_view result ≡ driver_at pairs text.now }
{
    let (driver, rest) = small(text)?;
    if driver < pairs {
        Some((driver, rest))
    } else {
        None
    }
}

/// The caller's number of an application, behind so many drivers.
fn application(pairs: u32, text: &[u8]) -> Option<(u32, &[u8])>
    ensures { read_view result ≡ application_at pairs text.now }
{
    let (application, rest) = small(text)?;
    let who = pairs.checked_add(application)?;
    Some((who, rest))
}

#[tactic(auto, unfolding(crate::specs::Reading::ring_at))]
pub(crate) fn ring(text: &[u8]) -> Option<(Ring, &[u8])>
    ensures { read_view result ≡ ring_at text.now }
{
    if let Some(rest) = word(text, b"fill.".as_slice()) {
        return numbered_ring(Ring::Fill(0), rest);
    }
    if let Some(rest) = word(text, b"comp.".as_slice()) {
        return numbered_ring(Ring::Comp(0), rest);
    }
    if let Some(rest) = word(text, b"rx.".as_slice()) {
        return numbered_ring(Ring::Rx(0), rest);
    }
    let rest = word(text, b"tx.".as_slice())?;
    numbered_ring(Ring::Tx(0), rest)
}

/// A ring of this one's kind, with the number at the front of a text.
fn numbered_ring(kind: Ring, text: &[u8]) -> Option<(Ring, &[u8])>
    ensures { read_view result ≡ numbered (ring_like kind) text.now }
{
    let (number, rest) = small(text)?;
    Some((ring_like(kind, number), rest))
}

/// The ring of this one's kind with a number.
fn ring_like(kind: Ring, number: u32) -> Ring
    ensures { result ≡ ring_like kind number }
{
    match kind {
        Ring::Fill(_) => Ring::Fill(number),
        Ring::Comp(_) => Ring::Comp(number),
        Ring::Rx(_) => Ring::Rx(number),
        Ring::Tx(_) => Ring::Tx(number),
    }
}

/// A mark, of the kind whose word stands here.
pub(crate) fn mark(text: &[u8]) -> Option<(Mark, &[u8])>
    ensures { read_view result ≡ mark_at text.now }
{
    for row in 0..MARK_KINDS {
        let kind = MarkKind::at(row);
        if let Some(rest) = word(text, kind.word().as_bytes()) {
            return mark_of_kind(kind, rest);
        }
    }
    None
}

/// A mark of a kind, with its number at the front of a text, and behind it the index of a cell.
fn mark_of_kind(kind: MarkKind, text: &[u8]) -> Option<(Mark, &[u8])>
    ensures { read_view result ≡ mark_of_kind kind text.now }
{
    let (number, rest) = small(text)?;
    match kind {
        MarkKind::Cell => cell(number, rest),
        _ => Some((Mark::of(kind, number, 0), rest)),
    }
}

/// A cell of a port, with its index behind a dot at the front of a text.
#[tactic(auto, unfolding(crate::specs::Reading::cell_at))]
fn cell(port: u32, text: &[u8]) -> Option<(Mark, &[u8])>
    ensures { read_view result ≡ cell_at port text.now }
{
    let rest = word(text, b".".as_slice())?;
    let (index, rest) = small(rest)?;
    Some((Mark::Cell(port, index), rest))
}

/// The descriptor of an item: address, length and options.
#[tactic(auto, unfolding(crate::specs::Reading::desc_at))]
pub(crate) fn desc(text: &[u8]) -> Option<(XdpDesc, &[u8])>
    ensures { read_view result ≡ desc_at text.now }
{
    let (addr, rest) = number(text)?;
    let rest = word(rest, b":".as_slice())?;
    let (len, rest) = small(rest)?;
    let rest = word(rest, b":".as_slice())?;
    let (options, rest) = small(rest)?;
    Some((XdpDesc { addr, len, options }, rest))
}

/// Whether an item begins here: a space and a digit.
pub(crate) fn begins_item(text: &[u8]) -> bool
    ensures { result ≡ begins_item text.now }
{
    match text {
        [space, digit, ..] => *space == b' ' && digit.is_ascii_digit(),
        _ => false,
    }
}
