//! xsk_bench: a forwarder of one's own beside the library's drivers. What port 0 receives goes out on port 1 where it is IPv4, and
//! each frame comes home. The same is run with a mistake: it reserves no place on TX before it submits there.
ghost use Rattle.std.specs.Prelude.{◌≡◌, ◌≤◌, All, IfOk, IsSome, List, Some, length, slice_get};
ghost use Rattle.std.specs.List.{concat};
ghost use Rattle.xsk_umem.specs.Frame.{Frame};
ghost use Rattle.xsk_model.specs.Entry.{Entry, own};
ghost use Rattle.xsk_model.specs.Opening.{AreFrames};
ghost use Rattle.xsk_prog.specs.Chain.{AllObey};
ghost use Rattle.xsk_sim.specs.Shown.{HasShortPackets};
ghost use Rattle.xsk_turns.specs.SentWith.{sent_by_act};
ghost use Rattle.xsk_turns.specs.Workers.{Setting, input_of};
ghost use Rattle.xsk_bench.specs.Played.{HasPlayed, act_of};
ghost use Rattle.xsk_bench.specs.declared.seat.Seat.{Seat};

use crate::layouts::opened;
use crate::runs::LAYOUT;
use anyhow::{Context, Result, bail};
use std::alloc::Global;
use xsk_bench::{Amount, Bench, Traffic, Wire};
use xsk_log::LineBuffer;
use xsk_model::{Answer, Ask, Ring};
use xsk_prog::{Chain, Rule, Verdict, XdpProgram};
use xsk_umem::{Batch, Frames, Item, PacketList};

/// Room for what a driver sends.
const ROOM: Amount = Amount {
    packets: 16,
    bytes: 4096,
};

pub fn forward_by_hand<R: Print>(rt: &R, alloc: Global, reserves: bool) -> Result<()> {
    let rule = Rule::Redirect { sockets: 1 };
    let program = XdpProgram::attach(rule, |bytes: &[u8], queue: u32| rule.verdict(bytes, queue));
    let mut chain = Chain::of(alloc, program)?;
    let (traffic, frames) = prepared(alloc)?;
    forward_under(rt, alloc, &traffic, frames, &mut chain, reserves)
}

/// The traffic of both ports, and the frames of the UMEM.
fn prepared(alloc: Global) -> Result<(Traffic, Frames)>
    ensures { IfOk result (λ made. AreFrames made.0.config.geometry made.1.items) }
{
    let packets = received(alloc)?;
    let (config, frames) = opened(alloc, &LAYOUT)?;
    let traffic = Traffic::new(alloc, config, packets)?;
    Ok((traffic, frames))
}

/// The drivers and the forwarder under a chain of programs.
fn forward_under<R: Print, F: Fn(&[u8], u32) -> Verdict>(
    rt: &R,
    alloc: Global,
    traffic: &Traffic,
    frames: Frames,
    chain: &mut Chain<F>,
    reserves: bool,
) -> Result<()>
    requires frames { AreFrames traffic.now.config.geometry frames.items }
    requires obeys { AllObey F.Fn chain.old }
{
    let mut bench = Bench::open(alloc, traffic, frames, chain, Wire::Wait, ROOM)?;
    let came = forward(&mut bench, reserves);
    tell(rt, came, &bench)
}

/// An IPv4 packet and an ARP packet for port 0, and none for port 1.
fn received(alloc: Global) -> Result<Vec<PacketList>>
    ensures two { IfOk result (λ lists. length lists.items ≡ 2) }
    ensures short { IfOk result (λ lists. All HasShortPackets lists.items) }
{
    let mut first = PacketList::new(alloc);
    first.push(&[2, 0, 0, 0, 0, 1, 2, 0, 0, 0, 0, 2, 8, 0, 69, 0])?;
    first.push(&[2, 0, 0, 0, 0, 1, 2, 0, 0, 0, 0, 2, 8, 6, 0, 1])?;
    Ok(vec![in alloc; first, PacketList::new(alloc)]?)
}

/// The forwarder: the drivers run until they wait; then a packet on RX goes its way, or a frame on COMPLETION goes back to FILL.
fn forward(bench: &mut Bench<'_>, reserves: bool) -> Result<()>
    ensures room { bench.new.room ≡ bench.old.room }
{
    for _ in 0..1_000 {
        bench.run_drivers(1_000)?;
        if let Some(item) = take(bench, Ring::Rx(0))? {
            if is_ipv4(&item) {
                put(bench, Ring::Tx(1), item, reserves)?;
            } else {
                put(bench, Ring::Fill(0), bare(item), true)?;
            }
        } else if let Some(item) = take(bench, Ring::Comp(1))? {
            put(bench, Ring::Fill(0), item, true)?;
        } else {
            return Ok(());
        }
    }
    bail!("it goes on and on")
}

/// Takes an item from a ring, if there is one.
fn take(bench: &mut Bench<'_>, ring: Ring) -> Result<Option<Item>>
    ensures room { bench.new.room ≡ bench.old.room }
{
    let mut items = Batch::new();
    bench.serve(0, Ask::Peek(ring, 1), &mut items)?;
    let item = items.pop_front();
    if item.is_some() {
        bench.serve(0, Ask::Release(ring, 1), &mut items)?;
    }
    Ok(item)
}

/// Puts an item into a ring.
fn put(bench: &mut Bench<'_>, ring: Ring, item: Item, reserves: bool) -> Result<()>
    ensures room { bench.new.room ≡ bench.old.room }
{
    let mut items = Batch::new();
    if reserves && bench.serve(0, Ask::Reserve(ring, 1), &mut items)? != Answer::Granted {
        bail!("the ring is full");
    }
    items.push(item);
    bench.serve(0, Ask::Submit(ring), &mut items)?;
    Ok(())
}

/// The item for FILL: its address alone.
fn bare(item: Item) -> Item {
    let Item { frame, mut desc } = item;
    desc.len = 0;
    desc.options = 0;
    Item { frame, desc }
}

/// Whether the Ethernet header says IPv4.
fn is_ipv4(item: &Item) -> bool {
    let start = (item.desc.addr % 4096) as usize;
    match &item.frame {
        Some(frame) => frame.bytes().get(start + 12..start + 14) == Some(&[8, 0]),
        None => false,
    }
}

/// What was told the forwarder, what it did, and what was sent.
fn tell<R: Print>(rt: &R, came: Result<()>, bench: &Bench<'_>) -> Result<()>
    requires room { bench.now.room ≡ record { packets = 16; bytes = 4096 } }
{
    if let Err(error) = came {
        println!(rt; "told: {error}")?;
    }
    tell_calls(rt, bench)?;
    let sent = sent_by_port_1(bench).context("there was no room for all")?;
    println!(rt; "port 1 sent {} packets", sent.len())?;
    Ok(())
}

/// What port 1 sent. It is there where it fits the room of the opening, however many calls were made since.
fn sent_by_port_1<'a>(bench: &'a Bench<'_>) -> Option<&'a PacketList>
    requires room { bench.now.room ≡ record { packets = 16; bytes = 4096 } }
    ensures there { (s : Setting) (frames : List Frame) (h : List Entry) (seat : Seat) → HasPlayed s frames h bench.now → slice_get bench.now.seats.items 1 ≡ Some seat
        → length (sent_by_act s.config 1 (input_of s 1) (own 1 h) (act_of seat)) ≤ 16 → length (concat (sent_by_act s.config 1 (input_of s 1) (own 1 h) (act_of seat))) ≤ 4096
        → IsSome result }
{
    bench.sent(1)
}

/// The calls of the application.
fn tell_calls<R: Print>(rt: &R, bench: &Bench<'_>) -> Result<()> {
    let mut lines = bench.lines();
    let mut line = LineBuffer::new();
    for _ in 0..bench.log().len() {
        if lines.write_next(&mut line) == Some(2) {
            print!(rt; "{}", str::from_utf8(line.bytes())?)?;
        }
    }
    Ok(())
}
