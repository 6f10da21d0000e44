//! The places of rings and marks in lists of all, counted from the first of each kind. Every engine takes places from
//! here, and the contracts tie them to `specs/Rings`, `specs/Marks` and `specs/Bases`.
ghost use Rattle.std.specs.Prelude.{◌≡◌, ◌+◌, ◌<◌, ◌≤◌, ◌↔◌, ◌^◌, IsTrue};
ghost use Rattle.std.specs.List.{slice_index_or};
ghost use Rattle.xsk_model.specs.Config.{Config as Setting, IsConfig, HasRing};
ghost use Rattle.xsk_model.specs.Rings.{place as place_of_ring, places_of};
ghost use Rattle.xsk_model.specs.Marks.{HasMark, mark_place as place_of_mark, mark_places_of, flags_of, cells_end_of};
ghost use Rattle.xsk_model.specs.Bases.{ring_bases, mark_bases};
ghost use Rattle.xsk_model.specs.MarkKinds.{IsThere};

use crate::marks::Belongs;
use crate::steering::applications;
use crate::{Config, Mark, Ring};

/// The places for rings: FILL by pair, COMPLETION by pair, RX by socket and TX by socket.
pub fn ring_places(config: &Config) -> usize
    ensures value { result ≡ places_of config.now }
    ensures few { result ≤ 256 }
{
    2 * config.pairs().len() + 2 * config.sockets().len()
}

/// The place of the first ring of each kind: FILL, COMPLETION, RX and TX.
pub fn first_rings(config: &Config) -> [usize; 4]
    ensures bases { result ≡ ring_bases config.now }
    ensures lawful { IsConfig config.now }
{
    let pairs = config.pairs().len();
    let sockets = config.sockets().len();
    [0, pairs, 2 * pairs, 2 * pairs + sockets]
}

/// The kind of a ring, and its number among those of its kind.
#[inline(always)]
pub fn ring_number(ring: Ring) -> (usize, usize)
    ensures kind { result.0 < 4 }
    ensures number { result.1 < 2 ^ 32 }
    ensures place { (c : Setting) → slice_index_or (ring_bases c) result.0 0 + result.1 ≡ place_of_ring c ring }
{
    match ring {
        Ring::Fill(pair) => (0, pair as usize),
        Ring::Comp(pair) => (1, pair as usize),
        Ring::Rx(socket) => (2, socket as usize),
        Ring::Tx(socket) => (3, socket as usize),
    }
}

/// The place of a ring among all rings. The ring must exist.
pub fn ring_place(config: &Config, ring: Ring) -> usize
    requires { HasRing config.now ring }
    ensures value { result ≡ place_of_ring config.now ring }
    ensures within { result < places_of config.now }
{
    let (kind, number) = ring_number(ring);
    first_rings(config)[kind] + number
}

/// Whether a ring exists.
pub fn has_ring(config: &Config, ring: Ring) -> bool
    ensures { IsTrue result ↔ HasRing config.now ring }
{
    let pairs = config.pairs();
    let sockets = config.sockets();
    match ring {
        Ring::Fill(pair) | Ring::Comp(pair) => (pair as usize) < pairs.len(),
        Ring::Rx(socket) => {
            (socket as usize) < sockets.len() && sockets[socket as usize].rx.is_some()
        }
        Ring::Tx(socket) => {
            (socket as usize) < sockets.len() && sockets[socket as usize].tx.is_some()
        }
    }
}

/// The places for the cells of one port.
pub const CELLS: u32 = 64;

/// The marks that aren't cells: NeedFill by pair, NeedTx by socket, Kick, RxDone and Gone by pair, and TxDone by
/// application.
pub fn first_cell(config: &Config) -> usize
    ensures { result ≡ flags_of config.now }
{
    4 * config.pairs().len() + config.sockets().len() + applications(config) as usize
}

/// The place of the first mark of each kind.
pub fn first_marks(config: &Config) -> [usize; 10]
    ensures bases { result ≡ mark_bases config.now }
    ensures lawful { IsConfig config.now }
{
    let pairs = config.pairs().len();
    let sockets = config.sockets().len();
    let cells = first_cell(config);
    let last = cells_end(config);
    [
        0,
        pairs,
        pairs + sockets,
        2 * pairs + sockets,
        3 * pairs + sockets,
        4 * pairs + sockets,
        cells,
        last,
        last + sockets,
        last + 2 * sockets,
    ]
}

/// The place of a mark's kind among the kinds, and its number among the marks of its kind.
#[inline(always)]
pub fn mark_number(mark: Mark) -> (usize, usize)
    ensures kind { result.0 < 10 }
    ensures number { result.1 < 2 ^ 40 }
    ensures place { (c : Setting) → slice_index_or (mark_bases c) result.0 0 + result.1 ≡ place_of_mark c mark }
{
    let number = match mark {
        Mark::Cell(port, index) => CELLS as usize * port as usize + index as usize,
        _ => mark.number() as usize,
    };
    (mark.kind().row() as usize, number)
}

/// The place of a mark among all marks. What the mark belongs to must exist.
pub fn mark_place(config: &Config, mark: Mark) -> usize
    requires { HasMark config.now mark }
    ensures value { result ≡ place_of_mark config.now mark }
    ensures within { result < mark_places_of config.now }
{
    let (kind, number) = mark_number(mark);
    first_marks(config)[kind] + number
}

/// The places for marks.
pub fn mark_places(config: &Config) -> usize
    ensures value { result ≡ mark_places_of config.now }
    ensures few { result ≤ 776 }
{
    cells_end(config) + 2 * config.sockets().len() + config.pairs().len()
}

/// The marks before Closing: those before the cells, and the cells of all ports.
fn cells_end(config: &Config) -> usize
    ensures { result ≡ cells_end_of config.now }
{
    first_cell(config) + CELLS as usize * config.ports() as usize
}

/// Whether what a mark belongs to exists.
#[tactic(auto, using(crate::proofs::MarkParts::belongs_tells))]
pub fn has_mark(config: &Config, mark: Mark) -> bool
    ensures { IsTrue result ↔ HasMark config.now mark }
{
    let belongs = mark.kind().columns().belongs;
    is_there(config, belongs, mark.number(), mark.index())
}

fn is_there(config: &Config, belongs: Belongs, number: u32, index: u32) -> bool
    ensures { IsTrue result ↔ IsThere config.now belongs number index }
{
    match belongs {
        Belongs::Pair => (number as usize) < config.pairs().len(),
        Belongs::Socket => (number as usize) < config.sockets().len(),
        Belongs::Sender => has_ring(config, Ring::Tx(number)),
        Belongs::Application => number < applications(config),
        Belongs::Map => number < config.ports() && index < config.cells(number),
    }
}
