//! A forwarder to copy: a capture for each of two ports comes in, the application of application.rt forwards between the library's
//! drivers, and what each port sent goes out as a capture. docs/OWN.md says how one begins with it.
#![tactic(auto)]

ghost use Rattle.std.specs.Prelude.{◌≡◌, All, IfOk, IsTrue, length};
ghost use Rattle.xsk_model.specs.Opening.{AreFrames};
ghost use Rattle.xsk_pcap.specs.Capture.{IsShort};
ghost use Rattle.xsk_prog.specs.Chain.{AllObey};
ghost use Rattle.xsk_machine.specs.Acts.{HasShortPackets};

mod application;

use anyhow::{Context, Result, bail};
use std::alloc::Global;
use std::rt::Files;
use std::{env, fs};
use xsk_bench::{Amount, Bench, Traffic, Wire};
use xsk_pcap::Capture;
use xsk_prog::{Chain, Rule, Verdict, XdpProgram};
use xsk_socket::{Layout, all_frames, regular};
use xsk_umem::{Frames, PacketList, Umem};

/// The room for what a driver sends: the most that a capture may have. What isn't used takes no pages.
const ROOM: Amount = Amount {
    packets: 65_536,
    bytes: 33_554_432,
};

fn main(rt: HostRuntime) -> Result<()> {
    let words: Vec<String> = env::args(&rt)?.skip(1).collect(rt.alloc())?;
    let rule = Rule::Redirect { sockets: 1 };
    let program = XdpProgram::attach(rule, |bytes: &[u8], queue: u32| rule.verdict(bytes, queue));
    let mut chain = Chain::of(rt.alloc(), program)?;
    forward(&rt, words.as_slice(), &mut chain)
}

/// Forwards between the captures that the words name, under a chain of programs.
fn forward<R: Files + Print + AllocGlobal, F: Fn(&[u8], u32) -> Verdict>(
    rt: &R,
    words: &[String],
    chain: &mut Chain<F>,
) -> Result<()>
    requires { AllObey F.Fn chain.old }
{
    let [in0, in1, outputs @ ..] = words else {
        bail!("the words are IN0 IN1 OUT0 OUT1");
    };
    let packets = received(rt, in0, in1)?;
    let (traffic, frames) = prepared(rt.alloc(), packets)?;
    forward_all(rt, &traffic, frames, chain, outputs)
}

/// The same, once all is read.
fn forward_all<R: Files + Print + AllocGlobal, F: Fn(&[u8], u32) -> Verdict>(
    rt: &R,
    traffic: &Traffic,
    frames: Frames,
    chain: &mut Chain<F>,
    outputs: &[String],
) -> Result<()>
    requires frames { AreFrames traffic.now.config.geometry frames.items }
    requires obeys { AllObey F.Fn chain.old }
{
    let mut bench = Bench::open(rt.alloc(), traffic, frames, chain, Wire::Wait, ROOM)?;
    forward_on(rt, &mut bench, outputs)
}

/// Lets the application forward, and writes what each port sent.
fn forward_on<R: Files + Print + AllocGlobal>(
    rt: &R,
    bench: &mut Bench<'_>,
    outputs: &[String],
) -> Result<()> {
    let [out0, out1] = outputs else {
        bail!("the words are IN0 IN1 OUT0 OUT1");
    };
    application::forward(bench)?;
    write(rt, out0, bench, 0)?;
    write(rt, out1, bench, 1)
}

/// The packets of two captures, for a port each.
fn received<R: Files + AllocGlobal>(rt: &R, in0: &String, in1: &String) -> Result<Vec<PacketList>>
    ensures two { IfOk result (λ lists. length lists.items ≡ 2) }
    ensures short { IfOk result (λ lists. All HasShortPackets lists.items) }
{
    let first = read(rt, in0)?;
    let second = read(rt, in1)?;
    Ok(vec![in rt.alloc(); first, second]?)
}

/// The packets of a capture.
fn read<R: Files + AllocGlobal>(rt: &R, name: &String) -> Result<PacketList>
    ensures { IfOk result HasShortPackets }
{
    let bytes = fs::read(rt, name.as_str()).context("an input isn't read")?;
    Ok(xsk_pcap::read(rt.alloc(), bytes)?)
}

/// The traffic of both ports, and the frames of the UMEM: two ports with a queue and a socket each, as they are by default.
fn prepared(alloc: Global, packets: Vec<PacketList>) -> Result<(Traffic, Frames)>
    requires two { length packets.items ≡ 2 }
    requires short { All HasShortPackets packets.items }
    ensures { IfOk result (λ made. AreFrames made.0.config.geometry made.1.items) }
{
    let layout = Layout::default();
    let len = u64::from(layout.frames) * u64::from(layout.chunk);
    let (geometry, mut frames) = Umem::register(alloc, len, layout.chunk, layout.headroom)?;
    if !all_frames(&geometry, &mut frames) {
        bail!("a UMEM has all its frames");
    }
    let config = regular(alloc, geometry, &layout)?;
    match Traffic::new(alloc, config, packets) {
        Ok(traffic) => Ok((traffic, frames)),
        Err(error) => Err(error.into()),
    }
}

/// Writes a capture of what a port sent.
fn write<R: Files + Print + AllocGlobal>(
    rt: &R,
    name: &String,
    bench: &Bench<'_>,
    port: u32,
) -> Result<()> {
    let sent = bench
        .sent(port)
        .context("a port sent more than a capture may have")?;
    println!(rt; "port {port} sent {} packets", sent.len())?;
    let bytes = capture_of(rt.alloc(), sent)?;
    Ok(fs::write(rt, name.as_str(), bytes)?)
}

/// The capture of some packets.
fn capture_of(alloc: Global, list: &PacketList) -> Result<Vec<u8>> {
    if list.len() > 65_536 || list.bytes() > 33_554_432 || !are_short(list) {
        bail!("a packet is too long for a capture, or all are too many");
    }
    let mut capture = Capture::start(alloc)?;
    capture.add(list)?;
    Ok(capture.into_bytes())
}

/// Whether no packet is too long for a capture.
fn are_short(list: &PacketList) -> bool
    ensures { IsTrue result → All IsShort list.now.packets }
{
    list.iter().all(|packet: &[u8]| packet.len() <= 262_144)
}
