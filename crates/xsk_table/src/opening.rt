//! The words of a new table.
ghost use Rattle.std.specs.Prelude.{◌≡◌, ◌+◌, ◌*◌, ◌%◌, ◌^◌, ◌<◌, ◌≤◌, ℕ, List, ◌++◌, length, replicate, vec_capacity, IfOk};
ghost use Rattle.xsk_umem.specs.Frame.{Frame as Body};
ghost use Rattle.xsk_model.specs.Opening.{IsOpened};
ghost use Rattle.xsk_model.specs.Config.{IsConfig, IsLawful, HasRing, size_of, map_of};
ghost use Rattle.xsk_model.specs.Rings.{place as place_of, places_of};
ghost use Rattle.xsk_model.specs.declared.call.Ring.{Ring as Line};
ghost use Rattle.xsk_model.specs.Marks.{mark_places_of};
ghost use Rattle.xsk_table.specs.Layout.{words_of, marks_base as base_of_marks};
ghost use Rattle.xsk_table.specs.Opening.{WordsOpen, Begins, Spares, SparesBelow, IsOfFill, IsOfCell, IsFilled, AreCells, FirstEnds};

use crate::end::End;
use crate::layout::{ENTRIES, PRODUCER, mark_word, marks_base, place_width, ring_base, word_count};
use std::alloc::Global;
use xsk_model::placement::{has_ring, ring_places};
use xsk_model::{Config, Mark, Ring};
use xsk_umem::OutOfMemory;

/// The words of a new table: all counts at `first`, but that each pair's FILL ring has the frames of its pool.
pub(crate) fn lay_words(alloc: Global, config: &Config, first: u32) -> Result<Vec<u64>, OutOfMemory>
    requires { IsLawful config.now }
    ensures { IfOk result (λ words. WordsOpen config.now first words.items) }
{
    let mut words = blank_words(alloc, config, first)?;
    let row = words.as_mut_slice();
    for pair in 0..config.pairs().len() {
        lay_pool(config, row, first, pair as u32);
    }
    for port in 0..config.ports() {
        lay_cells(config, row, port);
    }
    Ok(words)
}

/// All words of rings at `first`, and all marks 0.
fn blank_words(alloc: Global, config: &Config, first: u32) -> Result<Vec<u64>, OutOfMemory>
    ensures { IfOk result (λ words. words.items ≡ replicate (base_of_marks config.now) first ++ replicate (8 * mark_places_of config.now) 0) }
{
    let rings = marks_base(config);
    let mut words = vec![in alloc; u64::from(first); rings]?;
    words.resize(word_count(config), 0)?;
    Ok(words)
}

/// The frames of a pair's pool in its FILL ring.
fn lay_pool(config: &Config, row: &mut [u64], first: u32, pair: u32)
    requires lawful { IsLawful config.now }
    requires pair { pair < length config.now.pairs }
    requires wide { length row.old ≡ words_of config.now }
    ensures spares { Spares config.now (IsOfFill pair) row.old row.new }
    ensures laid { IsFilled config.now first pair row.new }
{
    let base = ring_base(config, Ring::Fill(pair));
    let size = config.pairs()[pair as usize].fill;
    let pool = config.pool();
    row[base + PRODUCER] = u64::from(first.wrapping_add(pool));
    for j in 0..pool {
        let at = first.wrapping_add(j) % size;
        row[base + ENTRIES + at as usize] = config.geometry().base_of(pair * pool + j);
    }
}

/// The configured numbers of a port's cells.
fn lay_cells(config: &Config, row: &mut [u64], port: u32)
    requires config { IsConfig config.now }
    requires port { port < config.now.ports }
    requires wide { length row.old ≡ words_of config.now }
    ensures spares { Spares config.now (IsOfCell port) row.old row.new }
    ensures laid { AreCells config.now port (length (map_of config.now port)) row.new }
{
    for index in 0..config.cells(port) {
        row[mark_word(config, Mark::Cell(port, index))] = config.cell(port, index);
    }
}

/// The ring at a place among all rings, whether it exists or not.
fn ring_at(config: &Config, place: usize) -> Ring
    requires { place < places_of config.now }
    ensures { (r : Line) → HasRing config.now r → place_of config.now r ≡ place → r ≡ result }
{
    let pairs = config.pairs().len();
    let sockets = config.sockets().len();
    if place < pairs {
        Ring::Fill(place as u32)
    } else if place < 2 * pairs {
        Ring::Comp((place - pairs) as u32)
    } else if place < 2 * pairs + sockets {
        Ring::Rx((place - 2 * pairs) as u32)
    } else {
        Ring::Tx((place - 2 * pairs - sockets) as u32)
    }
}

/// The size of the ring at a place, less one.
fn mask_at(config: &Config, place: usize) -> u32
    requires { place < places_of config.now }
    ensures { (r : Line) → HasRing config.now r → place_of config.now r ≡ place → result + 1 ≡ size_of config.now r }
{
    // For the proof: it is a configuration (IsConfig).
    let _pairs = config.pairs();
    let ring = ring_at(config, place);
    if has_ring(config, ring) {
        config.size(ring).saturating_sub(1)
    } else {
        0
    }
}

/// The count at which a caller begins on the ring at a place: it fills a FILL ring behind the frames of the pool.
fn count_at(config: &Config, first: u32, who: u32, place: usize) -> u32
    ensures { (frames : List Body) (r : Line) → IsOpened config.now frames → HasRing config.now r → place_of config.now r ≡ place → Begins (record { config = config.now; first = first; frames = frames }) who r result }
{
    let pairs = config.pairs().len();
    if place >= pairs {
        return first;
    }
    if (who as usize) < pairs {
        return first;
    }
    first.wrapping_add(config.pool())
}

/// The places left free behind what a caller keeps of its rings: more than the 64 bytes of a cache line, so that no line
/// holds what two callers keep.
const SPARE_ENDS: usize = 3;

/// What a caller's pass keeps of each ring before its first call.
pub(crate) fn lay_ends(
    alloc: Global,
    config: &Config,
    first: u32,
    who: u32,
) -> Result<Vec<End>, OutOfMemory>
    ensures ends { IfOk result (λ ends. FirstEnds config.now first who ends.items) }
    ensures spares { IfOk result (λ ends. length ends.items + 3 ≤ vec_capacity ends) }
{
    let places = ring_places(config);
    let mut ends = Vec::with_capacity(alloc, places + SPARE_ENDS)?;
    let mut base = 0;
    for place in 0..places {
        let count = count_at(config, first, who, place);
        ends.push_reserved(End {
            near: count,
            far: count,
            base,
            mask: mask_at(config, place),
            known: 0,
        });
        base += place_width(config, place);
    }
    Ok(ends)
}
