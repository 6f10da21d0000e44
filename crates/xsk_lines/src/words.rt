//! The words of a line: rings and descriptors.
ghost use Rattle.std.specs.Prelude.{◌≡◌};
ghost use Rattle.xsk_lines.specs.Reading.{read_view, text_view, word_at, ring_at, ring_like, numbered, desc_at, begins_item};

use crate::numbers::{number, small};
use xsk_model::Ring;
use xsk_umem::XdpDesc;

/// The text behind a word, if it begins with it. Most words differ in their first letter.
pub fn word<'a>(text: &'a [u8], word: &[u8]) -> Option<&'a [u8]>
    ensures { text_view result ≡ word_at word.now text.now }
{
    let Some((letter, letters)) = word.split_first() else {
        return Some(text);
    };
    let (first, rest) = text.split_first()?;
    if first == letter {
        rest.strip_prefix(letters)
    } else {
        None
    }
}

/// The ring at the front of a text.
#[tactic(auto, unfolding(crate::specs::Reading::ring_at))]
pub fn ring(text: &[u8]) -> Option<(Ring, &[u8])>
    ensures { read_view result ≡ ring_at text.now }
{
    if let Some(rest) = word(text, b"fill.".as_slice()) {
        return numbered_ring(Ring::Fill(0), rest);
    }
    if let Some(rest) = word(text, b"comp.".as_slice()) {
        return numbered_ring(Ring::Comp(0), rest);
    }
    if let Some(rest) = word(text, b"rx.".as_slice()) {
        return numbered_ring(Ring::Rx(0), rest);
    }
    let rest = word(text, b"tx.".as_slice())?;
    numbered_ring(Ring::Tx(0), rest)
}

/// A ring of this one's kind, with the number at the front of a text.
fn numbered_ring(kind: Ring, text: &[u8]) -> Option<(Ring, &[u8])>
    ensures { read_view result ≡ numbered (ring_like kind) text.now }
{
    let (number, rest) = small(text)?;
    Some((ring_like(kind, number), rest))
}

/// The ring of this one's kind with a number.
fn ring_like(kind: Ring, number: u32) -> Ring
    ensures { result ≡ ring_like kind number }
{
    match kind {
        Ring::Fill(_) => Ring::Fill(number),
        Ring::Comp(_) => Ring::Comp(number),
        Ring::Rx(_) => Ring::Rx(number),
        Ring::Tx(_) => Ring::Tx(number),
    }
}

/// The descriptor of an item: address, length and options.
#[tactic(auto, unfolding(crate::specs::Reading::desc_at))]
pub fn desc(text: &[u8]) -> Option<(XdpDesc, &[u8])>
    ensures { read_view result ≡ desc_at text.now }
{
    let (addr, rest) = number(text)?;
    let rest = word(rest, b":".as_slice())?;
    let (len, rest) = small(rest)?;
    let rest = word(rest, b":".as_slice())?;
    let (options, rest) = small(rest)?;
    Some((XdpDesc { addr, len, options }, rest))
}

/// Whether an item begins here: a space and a digit.
pub fn begins_item(text: &[u8]) -> bool
    ensures { result ≡ begins_item text.now }
{
    match text {
        [space, digit, ..] => *space == b' ' && digit.is_ascii_digit(),
        _ => false,
    }
}
