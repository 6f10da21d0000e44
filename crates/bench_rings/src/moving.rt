//! The two threads: each takes items from one ring and puts their frames into the other, by one lent batch.
ghost use Rattle.std.specs.Prelude.{◌≡◌, ◌≤◌, ◌+◌, false, IsTrue, All, IfSome, [], length};
ghost use Rattle.xsk_umem.specs.Limits.{most_items};
ghost use Rattle.xsk_model.specs.Rings.{is_ring};
ghost use Rattle.xsk_model.specs.Own.{room_of, held_of};
ghost use Rattle.xsk_model.specs.declared.call.Ring.TheVariants.{Fill, Rx};
ghost use Rattle.xsk_model.specs.declared.call.Call.TheVariants.{Submit};
ghost use Rattle.xsk_table.specs.Held.{new_pass};
ghost use Rattle.xsk_rings.specs.Serving.{MayAsk};
ghost use Rattle.xsk_rings.specs.Rounds.{Rests, mine_of, IsProducer, IsConsumer};
ghost use Rattle.bench_rings.specs.Moving.{moving, Took};

use crate::rewriting::rewrites;
use std::thread;
use xsk_model::{Answer, Ask, Ring};
use xsk_rings::RingCalls;
use xsk_table::{Pass, Shared};
use xsk_umem::Batch;

/// How often a call is made again that found a ring full or empty.
const PATIENCE: u64 = 1_000_000_000_000;

/// Reserves so many places of a ring, and waits until they are free. Then there is room for `most` items.
fn gets_room(
    shared: &Shared,
    pass: &mut Pass,
    sink: Ring,
    count: u32,
    most: u32,
    items: &mut Batch,
) -> bool
    requires rests { Rests shared.now pass.old }
    requires sink { IsProducer shared.now.setup.config pass.old.who sink }
    requires count { (1 ≤ count) × (count ≤ most_items) }
    requires room { most ≤ room_of sink (mine_of pass.old) + count }
    requires empty { items.old ≡ [] }
    ensures rests { Rests shared.now pass.new }
    ensures caller { pass.new.who ≡ pass.old.who }
    ensures room { IsTrue result → most ≤ room_of sink (mine_of pass.new) }
    ensures empty { IsTrue result → items.new ≡ [] }
{
    'tries: for _ in 0..PATIENCE {
        match pass.serve(shared, Ask::Reserve(sink, count), items) {
            Answer::Granted => return true,
            Answer::Full(_) => thread::yield_now(),
            Answer::Submitted | Answer::Items | Answer::Empty | Answer::Released | Answer::Old(_) =>
                return false,
        }
    }
    false
}

/// Takes at most so many items from a ring, and tells whether there were any. The room of another ring stays.
fn takes(
    shared: &Shared,
    pass: &mut Pass,
    source: Ring,
    sink: Ring,
    most: u32,
    items: &mut Batch,
) -> bool
    requires rests { Rests shared.now pass.old }
    requires source { IsConsumer shared.now.setup.config pass.old.who source }
    requires apart { is_ring sink source ≡ false }
    requires most { (1 ≤ most) × (most ≤ most_items) }
    requires room { most ≤ room_of sink (mine_of pass.old) }
    requires empty { items.old ≡ [] }
    ensures rests { Rests shared.now pass.new }
    ensures caller { pass.new.who ≡ pass.old.who }
    ensures room { most ≤ room_of sink (mine_of pass.new) }
    ensures took { IsTrue result → Took pass.new source most items.new }
    ensures none { result ≡ false → items.new ≡ [] }
{
    match pass.serve(shared, Ask::Peek(source, most), items) {
        Answer::Items => true,
        Answer::Empty
        | Answer::Granted
        | Answer::Full(_)
        | Answer::Submitted
        | Answer::Released
        | Answer::Old(_) => false,
    }
}

/// Puts the items into a ring. What another ring holds stays.
fn puts(
    shared: &Shared,
    pass: &mut Pass,
    source: Ring,
    sink: Ring,
    most: u32,
    items: &mut Batch,
) -> bool
    requires may { MayAsk shared.now pass.old (Submit sink items.old) }
    requires apart { is_ring source sink ≡ false }
    requires held { length items.old ≤ held_of source (mine_of pass.old) }
    requires room { most ≤ room_of sink (mine_of pass.old) }
    ensures rests { Rests shared.now pass.new }
    ensures caller { pass.new.who ≡ pass.old.who }
    ensures held { length items.old ≤ held_of source (mine_of pass.new) }
    ensures room { most ≤ room_of sink (mine_of pass.new) + length items.old }
    ensures empty { IsTrue result → items.new ≡ [] }
{
    match pass.serve(shared, Ask::Submit(sink), items) {
        Answer::Submitted => true,
        Answer::Granted
        | Answer::Full(_)
        | Answer::Items
        | Answer::Empty
        | Answer::Released
        | Answer::Old(_) => false,
    }
}

/// Gives the places of so many held items back. The room of another ring stays.
fn frees(
    shared: &Shared,
    pass: &mut Pass,
    source: Ring,
    sink: Ring,
    count: u32,
    most: u32,
    items: &mut Batch,
) -> bool
    requires rests { Rests shared.now pass.old }
    requires source { IsConsumer shared.now.setup.config pass.old.who source }
    requires apart { is_ring sink source ≡ false }
    requires count { (1 ≤ count) × (count ≤ most_items) }
    requires held { count ≤ held_of source (mine_of pass.old) }
    requires room { most ≤ room_of sink (mine_of pass.old) + count }
    requires empty { items.old ≡ [] }
    ensures rests { Rests shared.now pass.new }
    ensures caller { pass.new.who ≡ pass.old.who }
    ensures room { most ≤ room_of sink (mine_of pass.new) + count }
    ensures empty { IsTrue result → items.new ≡ [] }
{
    match pass.serve(shared, Ask::Release(source, count), items) {
        Answer::Released => true,
        Answer::Granted
        | Answer::Full(_)
        | Answer::Submitted
        | Answer::Items
        | Answer::Empty
        | Answer::Old(_) => false,
    }
}

/// Gives the places of the items back that were put on, and reserves as many again.
fn goes_on(
    shared: &Shared,
    pass: &mut Pass,
    source: Ring,
    sink: Ring,
    count: u32,
    most: u32,
    items: &mut Batch,
) -> bool
    requires rests { Rests shared.now pass.old }
    requires source { IsConsumer shared.now.setup.config pass.old.who source }
    requires sink { IsProducer shared.now.setup.config pass.old.who sink }
    requires apart { is_ring sink source ≡ false }
    requires count { (1 ≤ count) × (count ≤ most_items) }
    requires held { count ≤ held_of source (mine_of pass.old) }
    requires room { most ≤ room_of sink (mine_of pass.old) + count }
    requires empty { items.old ≡ [] }
    ensures rests { Rests shared.now pass.new }
    ensures caller { pass.new.who ≡ pass.old.who }
    ensures room { IsTrue result → most ≤ room_of sink (mine_of pass.new) }
    ensures empty { IsTrue result → items.new ≡ [] }
{
    frees(shared, pass, source, sink, count, most, items)
        && gets_room(shared, pass, sink, count, most, items)
}

/// A driver moves at most `most` items from FILL to RX, and tells how many they were.
fn driver_passes(shared: &Shared, pass: &mut Pass, most: u32, items: &mut Batch) -> Option<u32>
    requires config { shared.now.setup.config ≡ moving }
    requires caller { pass.old.who ≡ 0 }
    requires rests { Rests shared.now pass.old }
    requires most { (1 ≤ most) × (most ≤ most_items) }
    requires room { most ≤ room_of (Rx 0) (mine_of pass.old) }
    requires empty { items.old ≡ [] }
    ensures rests { IfSome result (λ count. Rests shared.now pass.new) }
    ensures caller { IfSome result (λ count. pass.new.who ≡ 0) }
    ensures room { IfSome result (λ count. most ≤ room_of (Rx 0) (mine_of pass.new)) }
    ensures empty { IfSome result (λ count. items.new ≡ []) }
{
    let source = Ring::Fill(0);
    let sink = Ring::Rx(0);
    if !takes(shared, pass, source, sink, most, items) {
        thread::yield_now();
        return Some(0);
    }
    if !rewrites(items, 256, 60) {
        return None;
    }
    let count = items.len();
    if !puts(shared, pass, source, sink, most, items) {
        return None;
    }
    if !goes_on(shared, pass, source, sink, count, most, items) {
        return None;
    }
    Some(count)
}

/// An application moves at most `most` items from RX to FILL, and tells how many they were.
fn application_passes(shared: &Shared, pass: &mut Pass, most: u32, items: &mut Batch) -> Option<u32>
    requires config { shared.now.setup.config ≡ moving }
    requires caller { pass.old.who ≡ 2 }
    requires rests { Rests shared.now pass.old }
    requires most { (1 ≤ most) × (most ≤ most_items) }
    requires room { most ≤ room_of (Fill 0) (mine_of pass.old) }
    requires empty { items.old ≡ [] }
    ensures rests { IfSome result (λ count. Rests shared.now pass.new) }
    ensures caller { IfSome result (λ count. pass.new.who ≡ 2) }
    ensures room { IfSome result (λ count. most ≤ room_of (Fill 0) (mine_of pass.new)) }
    ensures empty { IfSome result (λ count. items.new ≡ []) }
{
    let source = Ring::Rx(0);
    let sink = Ring::Fill(0);
    if !takes(shared, pass, source, sink, most, items) {
        thread::yield_now();
        return Some(0);
    }
    if !rewrites(items, 0, 0) {
        return None;
    }
    let count = items.len();
    if !puts(shared, pass, source, sink, most, items) {
        return None;
    }
    if !goes_on(shared, pass, source, sink, count, most, items) {
        return None;
    }
    Some(count)
}

/// Moves so many descriptors from FILL to RX, as driver 0.
pub(crate) fn driver_moves(shared: &Shared, pass: Pass, most: u32, passes: u32) -> bool
    requires config { shared.now.setup.config ≡ moving }
    requires new { pass ≡ new_pass shared.now 0 }
    requires most { (1 ≤ most) × (most ≤ most_items) }
{
    let mut pass = pass;
    let mut items = Batch::new();
    if !gets_room(shared, &mut pass, Ring::Rx(0), most, most, &mut items) {
        return false;
    }
    let mut moved = 0u32;
    'rounds: for _ in 0..PATIENCE {
        if moved >= passes {
            return true;
        }
        let Some(count) = driver_passes(shared, &mut pass, most, &mut items) else {
            return false;
        };
        moved = moved.saturating_add(count);
    }
    false
}

/// Moves so many descriptors from RX to FILL, as the application.
pub(crate) fn application_moves(shared: &Shared, pass: Pass, most: u32, passes: u32) -> bool
    requires config { shared.now.setup.config ≡ moving }
    requires new { pass ≡ new_pass shared.now 2 }
    requires most { (1 ≤ most) × (most ≤ most_items) }
{
    let mut pass = pass;
    let mut items = Batch::new();
    if !gets_room(shared, &mut pass, Ring::Fill(0), most, most, &mut items) {
        return false;
    }
    let mut moved = 0u32;
    'rounds: for _ in 0..PATIENCE {
        if moved >= passes {
            return true;
        }
        let Some(count) = application_passes(shared, &mut pass, most, &mut items) else {
            return false;
        };
        moved = moved.saturating_add(count);
    }
    false
}
