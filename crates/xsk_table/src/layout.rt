//! Where the words of rings and marks stand in one row. No other file counts words. Each has a place of its own
//! (`laws::own_words`), and no count shares its cache line with anything.
ghost use Rattle.std.specs.Prelude.{◌≡◌, ◌+◌, ◌*◌, ◌<◌, ◌≤◌, take, get_or};
ghost use Rattle.std.specs.List.{sum};
ghost use Rattle.xsk_model.specs.Config.{IsConfig, HasRing};
ghost use Rattle.xsk_model.specs.Rings.{places_of};
ghost use Rattle.xsk_model.specs.Marks.{HasMark};
ghost use Rattle.xsk_table.specs.Layout.{mark as word_of_mark, entry_words as words_of_entry, ring_base as base_of_ring, marks_base as base_of_marks, widths_of, width, width_or_none, words_of, word_at, most_ring_words};

use xsk_model::placement::{mark_place, mark_places, ring_place, ring_places};
use xsk_model::{Config, Mark, Ring};

/// The producer word of a ring, counted from the ring's first word.
pub const PRODUCER: usize = 8;

/// The consumer word of a ring.
pub const CONSUMER: usize = 24;

/// The first entry of a ring.
pub const ENTRIES: usize = 32;

/// The words of a mark. It stands in the last of them.
pub(crate) const MARK: usize = 8;

/// The words of an entry: one on FILL and COMPLETION, an address, and two on RX and TX, a packed descriptor.
pub fn entry_words(ring: Ring) -> usize
    ensures { result ≡ words_of_entry ring }
{
    match ring {
        Ring::Fill(_) | Ring::Comp(_) => 1,
        Ring::Rx(_) | Ring::Tx(_) => 2,
    }
}

fn ring_width(words: usize, size: u32) -> usize
    requires { words ≤ 2 }
    ensures { result ≡ width words size }
{
    ENTRIES + words * size as usize
}

fn socket_width(size: Option<u32>) -> usize
    ensures { result ≡ width_or_none size }
{
    match size {
        Some(size) => ring_width(2, size),
        None => 0,
    }
}

/// The words of the ring at a place among all rings: 0 for a ring that a socket hasn't got.
pub fn place_width(config: &Config, place: usize) -> usize
    requires { place < places_of config.now }
    ensures value { result ≡ get_or (widths_of config.now) place 0 }
    ensures few { result ≤ 4128 }
{
    let pairs = config.pairs();
    let sockets = config.sockets();
    let both = 2 * pairs.len();
    if place < pairs.len() {
        ring_width(1, pairs[place].fill)
    } else if place < both {
        ring_width(1, pairs[place - pairs.len()].comp)
    } else if place < both + sockets.len() {
        let socket = sockets[place - both];
        socket_width(socket.rx)
    } else {
        let socket = sockets[place - both - sockets.len()];
        socket_width(socket.tx)
    }
}

/// The words of the first rings, so many.
fn words_before(config: &Config, places: usize) -> usize
    requires { places ≤ places_of config.now }
    ensures value { result ≡ sum (take places (widths_of config.now)) }
    ensures few { result ≤ most_ring_words }
    ensures lawful { IsConfig config.now }
{
    let _ports = config.ports();
    let mut words = 0;
    for place in 0..places {
        words += place_width(config, place);
    }
    words
}

/// The words before a ring. The ring must exist.
pub fn ring_base(config: &Config, ring: Ring) -> usize
    requires { HasRing config.now ring }
    ensures value { result ≡ base_of_ring config.now ring }
    ensures few { result ≤ most_ring_words }
{
    words_before(config, ring_place(config, ring))
}

/// The words of all rings, before those of the marks.
pub fn marks_base(config: &Config) -> usize
    ensures value { result ≡ base_of_marks config.now }
    ensures few { result ≤ most_ring_words }
    ensures lawful { IsConfig config.now }
{
    words_before(config, ring_places(config))
}

/// The place of a mark's word. What the mark belongs to must exist.
pub fn mark_word(config: &Config, mark: Mark) -> usize
    requires { HasMark config.now mark }
    ensures value { result ≡ word_at config.now (word_of_mark mark) }
    ensures within { result < words_of config.now }
{
    marks_base(config) + MARK * mark_place(config, mark) + (MARK - 1)
}

/// The number of words.
pub fn word_count(config: &Config) -> usize
    ensures value { result ≡ words_of config.now }
    ensures few { result ≤ 2097152 }
{
    marks_base(config) + MARK * mark_places(config)
}
