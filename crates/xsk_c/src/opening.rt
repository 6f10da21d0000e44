//! A bench is opened over captures.
ghost use Rattle.std.specs.Prelude.{◌≡◌, IfErr, IfOk, None, Some, List, [], length};
ghost use Rattle.xsk_model.specs.Opening.{AreFrames};
ghost use Rattle.xsk_machine.specs.Workers.{setting_with};
ghost use Rattle.xsk_prog.specs.declared.rule.Verdict.{Verdict as AVerdict};
ghost use Rattle.xsk_socket.specs.Layout.{fault_of};
ghost use Rattle.xsk_socket.specs.Regular.{regular_of};
ghost use Rattle.xsk_turns.specs.Owned.{IsSteady};
ghost use Rattle.xsk_bench.specs.Played.{HasPlayed};
ghost use Rattle.xsk_c.specs.Captures.{AreRead, HaveNoTraffic, IsMemory};
ghost use Rattle.xsk_c.specs.Opened.{IsLayoutRefused, IsOpened, IsWhyNot, layout_in, refusal_number, wire_in};

use crate::answers::{BAD_CAPTURES, NO_MEMORY, number_of_capture, number_of_fault};
use crate::captures::lists_of;
use crate::purse::Purse;
use crate::state::State;
use std::alloc::Global;
use xsk_bench::{Amount, Bench, Traffic, Wire};
use xsk_model::Config;
use xsk_pcap::BadCapture;
use xsk_prog::{Chain, Rule, XdpProgram};
use xsk_socket::{Layout, Unlawful, all_frames, check_layout, regular};
use xsk_umem::{Batch, Frames, Umem};

/// The layout that C asks for.
#[repr(C)]
#[derive(Clone, Copy, Drop)]
pub struct Wanted {
    pub ports: u32,
    pub queues: u32,
    pub sockets: u32,
    pub frames: u32,
    pub chunk: u32,
    pub headroom: u32,
    pub rx: u32,
    pub tx: u32,
    pub fill: u32,
    pub comp: u32,
    pub sg: bool,
    pub wakeup: bool,
    pub drops: bool,
    pub sent_packets: u32,
    pub sent_bytes: u32,
}

/// Why a bench isn't opened.
#[derive(Clone, Copy, Drop)]
pub(crate) enum Refusal {
    /// The layout is refused.
    Layout(Unlawful),
    /// The ends of captures aren't in order, or lie behind the text.
    Ends,
    /// A capture is refused.
    Capture(BadCapture),
    /// Memory couldn't be had.
    OutOfMemory,
}

/// The number of a refusal.
pub(crate) fn number_of_refusal(why: Refusal) -> u32
    ensures value { result ≡ refusal_number why }
    ensures none { result ≡ 0 → ⊥ }
{
    match why {
        Refusal::Layout(fault) => number_of_fault(fault),
        Refusal::Ends => BAD_CAPTURES,
        Refusal::Capture(cause) => number_of_capture(cause),
        Refusal::OutOfMemory => NO_MEMORY,
    }
}

/// Opens a state of a layout over the captures of its ports, which stand one behind the other; `ends` tells where each ends.
pub(crate) fn open(
    alloc: Global,
    wanted: &Wanted,
    text: &[u8],
    ends: &[u64],
) -> Result<State, Refusal>
    ensures fault { (why : _) → fault_of (layout_in wanted.now (length ends.now)) ≡ Some why → result ≡ Err (Refusal.Layout why) }
    ensures opened { IfOk result (IsOpened wanted.now text.now ends.now) }
    ensures refused { IfErr result (IsWhyNot wanted.now text.now ends.now) }
{
    let layout = layout_of(wanted, ends.len());
    let (config, frames) = opened(alloc, &layout)?;
    let count = config.geometry().frames();
    let traffic = traffic_of(alloc, config, text, ends)?;
    let wire = wire_of(wanted.drops);
    let room = Amount {
        packets: wanted.sent_packets,
        bytes: wanted.sent_bytes,
    };
    let bench = bench_over(alloc, traffic, frames, wanted.sockets, wire, room)?;
    let Ok(purse) = Purse::new(alloc, count) else {
        return Err(Refusal::OutOfMemory);
    };
    let items = Batch::new();
    Ok(State {
        bench,
        purse,
        items,
    })
}

/// What becomes of a packet that finds no frame on FILL or no place on RX.
fn wire_of(drops: bool) -> Wire
    ensures { result ≡ wire_in drops }
{
    if drops { Wire::Drop } else { Wire::Wait }
}

/// The layout that is wanted, with so many captures.
fn layout_of(wanted: &Wanted, captures: usize) -> Layout
    ensures { result ≡ layout_in wanted.now captures }
{
    Layout {
        ports: wanted.ports,
        queues: wanted.queues,
        sockets: wanted.sockets,
        files: captures.min(8) as u32,
        files_wanted_per_port: 1,
        chunk: wanted.chunk,
        headroom: wanted.headroom,
        frames: wanted.frames,
        rx: wanted.rx,
        tx: wanted.tx,
        fill: wanted.fill,
        comp: wanted.comp,
        sg: wanted.sg,
        wakeup: wanted.wakeup,
        empty: None,
        close: None,
        hands: 1,
    }
}

/// The regular configuration of a layout, and the frames of its UMEM.
fn opened(alloc: Global, layout: &Layout) -> Result<(Config, Frames), Refusal>
    ensures fault { (why : _) → fault_of layout.now ≡ Some why → result ≡ Err (Refusal.Layout why) }
    ensures config { IfOk result (λ made. made.0 ≡ regular_of layout.now) }
    ensures steady { IfOk result (λ made. IsSteady made.0) }
    ensures refused { IfErr result (IsLayoutRefused layout.now) }
    ensures frames { IfOk result (λ made. AreFrames made.0.geometry made.1.items) }
{
    if let Err(why) = check_layout(layout) {
        return Err(Refusal::Layout(why));
    }
    let len = u64::from(layout.frames) * u64::from(layout.chunk);
    let Ok(made) = Umem::register(alloc, len, layout.chunk, layout.headroom) else {
        return Err(Refusal::OutOfMemory);
    };
    let (geometry, mut frames) = made;
    if geometry.frames() != layout.frames || !all_frames(&geometry, &mut frames) {
        return Err(Refusal::OutOfMemory);
    }
    let Ok(config) = regular(alloc, geometry, layout) else {
        return Err(Refusal::OutOfMemory);
    };
    if config.closing().is_some() {
        return Err(Refusal::OutOfMemory);
    }
    Ok((config, frames))
}

/// The traffic of a configuration, which is never let go.
#[tactic(auto, using(crate::proofs::OneMore::same_count))]
fn traffic_of(
    alloc: Global,
    config: Config,
    text: &[u8],
    ends: &[u64],
) -> Result<&'static Traffic, Refusal>
    requires { IsSteady config }
    ensures config { IfOk result (λ traffic. traffic.now.config ≡ config) }
    ensures read { IfOk result (λ traffic. AreRead text.now 0 ends.now traffic.now.packets) }
    ensures refused { IfErr result (HaveNoTraffic config.ports text.now ends.now) }
{
    if ends.len() != config.ports() as usize {
        return Err(Refusal::Ends);
    }
    let lists = lists_of(alloc, text, ends)?;
    let Ok(traffic) = Traffic::new(alloc, config, lists) else {
        return Err(Refusal::OutOfMemory);
    };
    let Ok(traffic) = Box::new(alloc, traffic) else {
        return Err(Refusal::OutOfMemory);
    };
    let traffic: &'static Traffic = Box::leak(traffic);
    Ok(traffic)
}

/// The bench over traffic, with a program that redirects each packet to the socket of its class.
fn bench_over(
    alloc: Global,
    traffic: &'static Traffic,
    frames: Frames,
    sockets: u32,
    wire: Wire,
    room: Amount,
) -> Result<Bench<'static>, Refusal>
    requires frames { AreFrames traffic.now.config.geometry frames.items }
    ensures refused { IfErr result IsMemory }
    ensures opened { IfOk result (λ bench. (verdicts : List (List AVerdict)) × HasPlayed (setting_with traffic.now.config wire traffic.now.packets verdicts) frames.items [] bench) }
{
    let sockets = sockets.clamp(1, 64);
    let rule = Rule::Redirect { sockets };
    let program = XdpProgram::attach(rule, |bytes: &[u8], queue: u32| rule.verdict(bytes, queue));
    let Ok(mut chain) = Chain::of(alloc, program) else {
        return Err(Refusal::OutOfMemory);
    };
    match Bench::open(alloc, traffic, frames, &mut chain, wire, room) {
        Ok(bench) => Ok(bench),
        Err(_) => Err(Refusal::OutOfMemory),
    }
}
