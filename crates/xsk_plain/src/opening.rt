//! Empty rings and first marks of a configuration.
ghost use Rattle.std.specs.Prelude.{◌≡◌, ◌+◌, ◌*◌, ◌<◌, ◌≤◌, ℕ, List, [], ◌∷◌, ◌++◌, length, replicate, take, drop, map, vec_len, All, IfOk, OnOk};
ghost use Rattle.std.specs.List.{slice_index_or};
ghost use Rattle.xsk_umem.specs.Geometry.{IsGeometry};
ghost use Rattle.xsk_model.specs.Config.{IsLawful, map_of};
ghost use Rattle.xsk_model.specs.Marks.{mark_places_of};
ghost use Rattle.xsk_model.specs.Opening.{AreFrames, opening, opening_cells};
ghost use Rattle.xsk_plain.specs.Engine.{seen};
ghost use Rattle.xsk_plain.specs.Kept.{AllKept};
ghost use Rattle.xsk_log.specs.Notes.{Notes};
ghost use Rattle.xsk_model.specs.Rings.{places_of};
ghost use Rattle.xsk_model.specs.Sizes.{sizes_of};
ghost use Rattle.xsk_plain.specs.Stores.{IsBlank, Has, home_stored, parts_of, sizes_in};

use crate::ring_store::RingStore;
use std::alloc::Global;
use xsk_model::placement::{CELLS, first_cell, ring_places};
use xsk_model::{Config, home_item};
use xsk_umem::{Frames, Geometry, OutOfMemory};

/// All rings of the configuration by place, with nothing in them.
pub(crate) fn open_rings(alloc: Global, config: &Config) -> Result<Vec<RingStore>, OutOfMemory>
    ensures sizes { IfOk result (λ rings. sizes_in rings.items ≡ sizes_of config.now) }
    ensures blank { IfOk result (λ rings. All IsBlank rings.items) }
{
    let places = ring_places(config);
    let mut rings = Vec::with_capacity(alloc, places)?;
    for place in 0..places {
        add_ring(alloc, &mut rings, size_at(config, place))?;
    }
    Ok(rings)
}

/// The size of the ring at a place, and 0 for one that its socket lacks.
fn size_at(config: &Config, place: usize) -> u32
    requires { place < places_of config.now }
    ensures { result ≡ slice_index_or (sizes_of config.now) place 0 }
{
    let pairs = config.pairs();
    let sockets = config.sockets();
    if place < pairs.len() {
        pairs[place].fill
    } else if place < 2 * pairs.len() {
        pairs[place - pairs.len()].comp
    } else if place < 2 * pairs.len() + sockets.len() {
        sockets[place - 2 * pairs.len()].rx.unwrap_or(0)
    } else {
        sockets[place - 2 * pairs.len() - sockets.len()]
            .tx
            .unwrap_or(0)
    }
}

fn add_ring(alloc: Global, rings: &mut Vec<RingStore>, size: u32) -> Result<(), OutOfMemory>
    ensures sizes { OnOk result (sizes_in rings.new.items ≡ sizes_in rings.old.items ++ size ∷ []) }
    ensures blank { OnOk result (All IsBlank rings.old.items → All IsBlank rings.new.items) }
{
    rings.push(RingStore::new(alloc, size)?)?;
    Ok(())
}

/// All marks of the configuration by place: cells have their configured numbers, and the others are 0.
pub(crate) fn open_marks(alloc: Global, config: &Config) -> Result<Vec<u64>, OutOfMemory>
    ensures marks { IfOk result (λ marks. marks.items ≡ (opening config.now []).marks) }
    ensures len { IfOk result (λ marks. vec_len marks ≡ mark_places_of config.now) }
{
    let mut marks = vec![in alloc; 0u64; first_cell(config)]?;
    for port in 0..config.ports() {
        add_cells(&mut marks, config, port)?;
    }
    add_zeros(
        &mut marks,
        2 * config.sockets().len() + config.pairs().len(),
    )?;
    Ok(marks)
}

/// Appends the cells of a port, in as many places as a port has.
fn add_cells(marks: &mut Vec<u64>, config: &Config, port: u32) -> Result<(), OutOfMemory>
    requires { port < config.now.ports }
    ensures { OnOk result (marks.new.items ≡ marks.old.items ++ opening_cells (map_of config.now port)) }
{
    let cells = config.cells(port);
    for index in 0..cells {
        marks.push(config.cell(port, index))?;
    }
    add_zeros(marks, (CELLS - cells) as usize)
}

/// Appends so many zeros.
fn add_zeros(marks: &mut Vec<u64>, count: usize) -> Result<(), OutOfMemory>
    ensures { OnOk result (marks.new.items ≡ marks.old.items ++ replicate count 0) }
{
    for _ in 0..count {
        marks.push(0)?;
    }
    Ok(())
}

/// Puts the frames into the FILL rings, pool by pool.
pub(crate) fn fill_pools(config: &Config, home: &mut Frames, rings: &mut [RingStore])
    requires lawful { IsLawful config.now }
    requires sizes { sizes_in rings.old ≡ sizes_of config.now }
    requires blank { All IsBlank rings.old }
    requires frames { AreFrames config.now.geometry home.old.items }
    ensures sizes { sizes_in rings.new ≡ sizes_in rings.old }
    ensures parts { parts_of rings.new ≡ map seen (opening config.now home.old.items).rings }
    ensures home { home.new ≡ record home.old { items = [] } }
    ensures kept { (notes : Notes) → AllKept config.now notes rings.new }
{
    let pool = config.pool();
    for pair in 0..config.pairs().len() {
        fill_pool(config.geometry(), home, &mut rings[pair], pool);
    }
}

/// Puts so many frames into a ring, which must have room for them.
fn fill_pool(geometry: &Geometry, home: &mut Frames, store: &mut RingStore, pool: u32)
    requires frames { pool ≤ length home.old.items }
    requires blank { IsBlank store.old }
    requires room { pool ≤ store.old.size }
    ensures ring { Has store.new (map (home_stored geometry.now) (take pool home.old.items)) 0 0 store.old.size }
    ensures home { home.new ≡ record home.old { items = drop pool home.old.items } }
{
    for _ in 0..pool {
        let frame = home.pop_front().unwrap();
        store.fill(home_item(geometry, frame));
    }
}
