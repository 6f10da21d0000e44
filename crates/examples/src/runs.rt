//! xsk_sim: two drivers and an application forward a port's packets in rounds. What was sent has gaps for a capture's headers. The same
//! where a program of one's own sends each third packet back by the port on which it came.
ghost use Rattle.std.specs.Prelude.{◌≡◌, All, IfOk, OnOk, length};
ghost use Rattle.xsk_prog.specs.Chain.{AllObey};
ghost use Rattle.xsk_prog.specs.Rules.{HasSockets};
ghost use Rattle.xsk_sim.specs.Shown.{HasShortPackets};

use crate::layouts::opened;
use anyhow::Result;
use std::alloc::Global;
use xsk_pcap::GAPS;
use xsk_prog::{Chain, Rule, Verdict, XdpProgram};
use xsk_sim::{Run, Wire, simulate};
use xsk_socket::Layout;
use xsk_turns::Manner;
use xsk_umem::PacketList;

/// Two ports with one queue each, and one socket on each queue.
pub const LAYOUT: Layout = Layout {
    ports: 2,
    queues: 1,
    sockets: 1,
    files: 4,
    files_wanted_per_port: 2,
    chunk: 4096,
    headroom: 0,
    frames: 256,
    rx: 2048,
    tx: 2048,
    fill: 2048,
    comp: 2048,
    sg: false,
    wakeup: false,
    empty: None,
    close: None,
    hands: 1,
};

pub fn forward_a_packet<R: Print>(rt: &R, alloc: Global) -> Result<()> {
    tell_run(rt, forwarded(alloc)?)
}

pub fn bounce_every_third<R: Print>(rt: &R, alloc: Global) -> Result<()> {
    let lists = numbered(alloc)?;
    let rule = Rule::BounceType { kind: THIRD };
    tell_run(rt, run_under(alloc, lists.as_slice(), rule)?)
}

/// The run in which port 0 of two receives one packet.
pub fn forwarded(alloc: Global) -> Result<Run> {
    let lists = received(alloc)?;
    run_under(alloc, lists.as_slice(), Rule::Redirect { sockets: 1 })
}

/// A run under a program that keeps a rule.
fn run_under(alloc: Global, lists: &[PacketList], rule: Rule) -> Result<Run>
    requires sockets { HasSockets rule }
    requires two { length lists.now ≡ 2 }
    requires short { All HasShortPackets lists.now }
{
    let program = XdpProgram::attach(rule, |bytes: &[u8], queue: u32| rule.verdict(bytes, queue));
    let mut chain = Chain::of(alloc, program)?;
    run_with(alloc, lists, &mut chain)
}

/// A run under a chain of programs.
fn run_with<F: Fn(&[u8], u32) -> Verdict>(
    alloc: Global,
    lists: &[PacketList],
    chain: &mut Chain<F>,
) -> Result<Run>
    requires two { length lists.now ≡ 2 }
    requires short { All HasShortPackets lists.now }
    requires obeys { AllObey F.Fn chain.old }
{
    let manner = Manner::plain();
    let (config, frames) = opened(alloc, &LAYOUT)?;
    Ok(simulate(alloc, config, frames, lists, chain, Wire::Wait, 0, manner)?)
}

/// A list of one packet for port 0, and one of none for port 1.
fn received(alloc: Global) -> Result<Vec<PacketList>>
    ensures two { IfOk result (λ lists. length lists.items ≡ 2) }
    ensures short { IfOk result (λ lists. All HasShortPackets lists.items) }
{
    let mut first = PacketList::new(alloc);
    first.push(&[7; 60])?;
    Ok(vec![in alloc; first, PacketList::new(alloc)]?)
}

/// The EtherType of each third packet, one of those for experiments (IEEE 802).
const THIRD: u16 = 0x88b5;

/// A list of six packets for port 0, numbered from 1, and one of none for port 1.
fn numbered(alloc: Global) -> Result<Vec<PacketList>>
    ensures two { IfOk result (λ lists. length lists.items ≡ 2) }
    ensures short { IfOk result (λ lists. All HasShortPackets lists.items) }
{
    let mut first = PacketList::new(alloc);
    for number in 1..7 {
        push_numbered(&mut first, number)?;
    }
    Ok(vec![in alloc; first, PacketList::new(alloc)]?)
}

fn push_numbered(list: &mut PacketList, number: u8) -> Result<()>
    requires { HasShortPackets list.old }
    ensures { OnOk result (HasShortPackets list.new) }
{
    let kind = if number % 3 == 0 { THIRD } else { 0x0800 };
    let [high, low] = kind.to_be_bytes();
    let bytes = [2, 0, 0, 0, 0, 1, 2, 0, 0, 0, 0, 2, high, low, number];
    list.push(&bytes)?;
    Ok(())
}

fn tell_run<R: Print>(rt: &R, run: Run) -> Result<()> {
    let calls = run.log().len();
    tell_all(rt, calls, run.into_sent().lists())
}

fn tell_all<R: Print>(rt: &R, calls: u32, sent: &[PacketList]) -> Result<()> {
    println!(rt; "a run of {calls} calls")?;
    for list in sent {
        tell(rt, list)?;
    }
    Ok(())
}

/// What a driver sent.
fn tell<R: Print>(rt: &R, list: &PacketList) -> Result<()> {
    println!(rt; "{} packets sent", list.len())?;
    for i in 0..list.len() {
        println!(rt; "{:?}", list.get(i))?;
    }
    let has_gaps = list.gaps() == Some(GAPS);
    println!(rt; "with gaps for headers: {has_gaps}")?;
    Ok(())
}
