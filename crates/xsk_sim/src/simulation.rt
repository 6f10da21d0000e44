//! A whole simulation: from a configuration and packets to what was sent and the log.
ghost use Rattle.std.specs.Prelude.{◌≡◌, ◌<◌, ◌≤◌, ◌+◌, ℕ, IsTrue, None, Err, List, [], All, IfOk, OnOk, length, map, vec_capacity, vec_len};
ghost use Rattle.std.specs.List.{slice_index_or};
ghost use Rattle.std.specs.Vec.Iter.{into_iter_items};
ghost use Rattle.xsk_umem.specs.Geometry.{IsGeometry};
ghost use Rattle.xsk_model.specs.Config.{IsRegular, callers_of, classes_of};
ghost use Rattle.xsk_model.specs.Opening.{AreFrames, IsOpened};
ghost use Rattle.xsk_umem.specs.Frame.{Frame};
ghost use Rattle.xsk_log.specs.Left.{left_of, pairs_of};
ghost use Rattle.xsk_log.specs.Log.{calls_of, entries_of};
ghost use Rattle.xsk_turns.specs.Mangling.{plain as plain_manner};
ghost use Rattle.xsk_prog.specs.declared.rule.Verdict.{Verdict as AVerdict};
ghost use Rattle.xsk_turns.specs.Inputs.{inputs_of};
ghost use Rattle.xsk_driver.specs.Asking.{IsAnswer};
ghost use Rattle.xsk_machine.specs.Workers.{AreNew, HasGiven, setting_by};
ghost use Rattle.xsk_driver.specs.SentRoom.{IsShort};
ghost use Rattle.xsk_sim.specs.Shown.{HasShortPackets, IsSentBy, IsShownBy, Shown, packets_in};
ghost use Rattle.xsk_prog.specs.Chain.{AllObey, SamePrograms};
ghost use Rattle.xsk_turns.specs.Workers.{Setting, AreGiven};
ghost use Rattle.xsk_sim.specs.Runs.{HasEnded, NeverStill, HasEndedUnder, HasStalledUnder};
ghost use Rattle.xsk_sim.specs.Left.{HasStalledOn, HasStalledOnUnder};
ghost use Rattle.xsk_sim.specs.SoFar.{CounterVec, kept_counters};
ghost use Rattle.xsk_sim.specs.Server.{logged_seen};
ghost use Rattle.xsk_plain.specs.Engine.{Engine as AnEngine};
ghost use Rattle.xsk_sim.specs.Stalls.{StandStill};
ghost use Rattle.xsk_still.specs.Still.{HasAmpleRoom};
ghost use Rattle.xsk_sim.specs.Seats.{AreSeated, AreReady, AreSet, HadRounds, HaveEnded, kept_lists, kept_figures};

use crate::counters::counters_so_far;
use crate::order::Order;
use crate::rounds::Workers;
use crate::seat::Seat;
use crate::server::Server;
use std::alloc::Global;
use std::marker::Model;
use std::vec::IntoIter;
use thiserror::Error;
use xsk_driver::{Driver, DriverCounters, Wire};
use xsk_log::{Lines, Log};
use xsk_machine::{AnyWorker, Collected, Figures, Inputs, Sent, drivers_for, worker_of};
use xsk_model::Config;
use xsk_plain::{Plain, Unlogged};
use xsk_prog::{Chain, Verdict};
use xsk_turns::Manner;
use xsk_umem::{Frames, OutOfMemory, PacketList};

/// Why a simulation gave no run.
#[derive(Clone, Copy, Debug, PartialEq, Eq, Error)]
pub enum SimError {
    /// Nothing had changed for 64 rounds, of which this was the last, and some worker hadn't ended.
    #[error("stalled in round {round}")]
    Stalled { round: u64 },
    /// Memory couldn't be had.
    #[error("out of memory")]
    OutOfMemory,
}

impl From<OutOfMemory> for SimError {
    ghost use Rattle.std.specs.Prelude.{◌≡◌};
    ghost use Rattle.xsk_sim.specs.declared.simulation.SimError.TheVariants.{OutOfMemory as NoMemory};

    ghost from_gives = { λ _ e. e ≡ NoMemory };

    fn from(_error: OutOfMemory) -> SimError {
        SimError::OutOfMemory
    }
}

/// Why a simulation gave no run, with the object on which it stalled, as all calls left it, and the counters of its drivers.
#[derive(Drop)]
pub enum Unended<S: Drop> {
    /// As `SimError::Stalled` has it. The counters are those of each driver by its pair, 0 for sockets that its queue hasn't got.
    Stalled {
        round: u64,
        object: S,
        counters: Vec<DriverCounters>,
    },
    /// Memory couldn't be had.
    OutOfMemory,
}

/// Why there were no rounds to the end, with the counters of the drivers where they stalled.
#[derive(Drop)]
enum Stopped {
    Stalled {
        round: u64,
        counters: Vec<DriverCounters>,
    },
    OutOfMemory,
}

/// A run that has ended: the log of all calls, what each driver sent, and the figures.
#[derive(Drop)]
pub struct Run {
    plain: Plain,
    sent: Sent,
}

impl Model for Run {
    ghost use Rattle.std.specs.Prelude.{length, ◌≡◌};
    ghost use Rattle.xsk_sim.specs.Shown.{Shown};

    ghost Value = { Shown };

    ghost view = { λ r. record { calls = r.plain.calls; pairs = length r.sent.lists; log = r.plain.log; sent = r.sent.lists; figures = r.sent.figures } };

    ghost invariant = { λ r. length r.sent.lists ≡ length r.plain.config.pairs };
}

impl Run {
    /// All calls with their replies, in order.
    pub fn log(&self) -> &Log
        ensures calls { calls_of result.now ≡ self.now.calls }
        ensures entries { entries_of result.now ≡ self.now.log }
    {
        self.plain.log()
    }

    /// Goes over all calls with their replies.
    pub(crate) fn lines(&self) -> Lines<'_>
        ensures pairs { pairs_of result ≡ self.now.pairs }
        ensures all { left_of result ≡ self.now.log }
    {
        self.plain.lines()
    }

    /// What the run comes to in numbers, each a count over its calls and replies.
    pub fn figures(&self) -> &Figures
        ensures { result.now ≡ self.now.figures }
    {
        self.sent.figures()
    }

    /// What the run comes to. The log is given up.
    pub fn into_sent(self) -> Sent
        ensures pairs { length result.lists ≡ self.pairs }
        ensures sent { result ≡ record { lists = self.sent; figures = self.figures } }
    {
        let Run { sent, .. } = self;
        sent
    }

    /// What the driver of a pair sent. The pair must exist.
    pub fn sent(&self, pair: u32) -> &PacketList
        requires { pair < self.now.pairs }
        ensures short { All IsShort result.now.packets }
        ensures sent { result.now.packets ≡ slice_index_or self.now.sent pair [] }
    {
        self.sent.sent(pair)
    }
}

/// The terms of a run: the packets of each port, the wire, the number of the rounds' order, the applications' manner, and where memory
/// is had.
#[derive(Clone, Copy)]
struct Terms<'a> {
    alloc: Global,
    packets: &'a [PacketList],
    wire: Wire,
    order: u32,
    manner: Manner,
}

/// A run has stalled after so many rounds in which nothing changed.
const STILL_ROUNDS: u64 = 64;

/// Runs the drivers and applications of a regular configuration in rounds until all have ended, over one list of packets for each
/// port, none of which has more than 262,144 bytes. The frames are all frames of its UMEM, the chain of programs is attached to
/// every port, `wire` says what becomes of a packet that finds too few frames or no room on RX, `order` is the number of the
/// rounds' order, and `manner` says which items each application changes, and after how many items it closes the socket that is to
/// be closed, if one is.
///
/// Each driver asks the chain once for each of its packets that has an Ethernet header, and all do before the first round, so there is one list of verdicts for each driver, and all that
/// is said of the run is said of these. Where its rules leave one verdict for each packet, they are the rules' own
/// (`laws::ends_as_ruled`). Where no items are changed, what a run that has ended sent is what was delivered to the paired sockets
/// (`laws::ended_is_forwarded`), and where the wire waits what is expected there (`laws::ended_is_expected`), beside the packets
/// that bounce by the port on which they came. Where a socket is closed, on its two lanes these are the first packets, as many as
/// its application passed on (`laws::ended_is_forwarded_until`, `laws::ended_is_expected_until`).
///
/// It stalls exactly in the first round at which some worker hasn't ended and nothing has changed for 64 rounds, this one among
/// them: the object was the same after each of their calls, and no packet got its disposal, which it gets in the round of its
/// driver's next call. Rounds are counted from 0. Each run ends or stands still (`laws::ends_or_stands_still_with_closings`), and where
/// there is no memory for the log of its calls, it is given up. A run that has ended, with no such round before, is a legal
/// history in rounds in which each worker's own calls and replies are a whole run of its turns, and one that has stalled is such
/// a history of all these rounds, in which those of some worker aren't. Where each ring has 32 entries or more, and each pair's pool
/// 18 frames or more, and no socket is closed, it never stalls.
#[allow(clippy::too_many_arguments)]
pub fn simulate<F: Fn(&[u8], u32) -> Verdict>(
    alloc: Global,
    config: Config,
    frames: Frames,
    packets: &[PacketList],
    chain: &mut Chain<F>,
    wire: Wire,
    order: u32,
    manner: Manner,
) -> Result<Run, SimError>
    requires regular { IsRegular config }
    requires frames { AreFrames config.geometry frames.items }
    requires lists { length packets.now ≡ config.ports }
    requires short { All HasShortPackets packets.now }
    requires obeys { AllObey F.Fn chain.old }
    ensures same { SamePrograms chain.old chain.new }
    ensures obeys { AllObey F.Fn chain.new }
    ensures pairs { IfOk result (λ run. run.pairs ≡ length config.pairs) }
    ensures ended { IfOk result (HasEndedUnder F.Fn chain.old chain.new wire manner config packets.now frames.items order) }
    ensures stalled { (round : ℕ) → result ≡ Err (SimError.Stalled round)
        → HasStalledUnder F.Fn chain.old chain.new wire manner config packets.now frames.items order round }
    ensures goes_on { HasAmpleRoom config → config.closing ≡ None → manner ≡ plain_manner → (round : ℕ) → result ≡ Err (SimError.Stalled round) → ⊥ }
{
    match simulate_with_object(alloc, config, frames, packets, chain, wire, order, manner) {
        Ok(run) => Ok(run),
        Err(Unended::Stalled { round, .. }) => Err(SimError::Stalled { round }),
        Err(Unended::OutOfMemory) => Err(SimError::OutOfMemory),
    }
}

/// The same run. Where it stalls, the object comes back as all calls left it, with its log, and the counters of the drivers so far.
#[allow(clippy::too_many_arguments)]
pub fn simulate_with_object<F: Fn(&[u8], u32) -> Verdict>(
    alloc: Global,
    config: Config,
    frames: Frames,
    packets: &[PacketList],
    chain: &mut Chain<F>,
    wire: Wire,
    order: u32,
    manner: Manner,
) -> Result<Run, Unended<Plain>>
    requires regular { IsRegular config }
    requires frames { AreFrames config.geometry frames.items }
    requires lists { length packets.now ≡ config.ports }
    requires short { All HasShortPackets packets.now }
    requires obeys { AllObey F.Fn chain.old }
    ensures same { SamePrograms chain.old chain.new }
    ensures obeys { AllObey F.Fn chain.new }
    ensures pairs { IfOk result (λ run. run.pairs ≡ length config.pairs) }
    ensures ended { IfOk result (HasEndedUnder F.Fn chain.old chain.new wire manner config packets.now frames.items order) }
    ensures stalled { (round : ℕ) (plain : AnEngine) (counters : CounterVec) → result ≡ Err (Unended.Stalled round plain counters)
        → HasStalledOnUnder F.Fn chain.old chain.new wire manner config packets.now frames.items order round (logged_seen plain) counters.items }
    ensures goes_on { HasAmpleRoom config → config.closing ≡ None → manner ≡ plain_manner → (round : ℕ) (plain : AnEngine) (counters : CounterVec)
        → result ≡ Err (Unended.Stalled round plain counters) → ⊥ }
{
    let terms = Terms {
        alloc,
        packets,
        wire,
        order,
        manner,
    };
    let (plain, sent) = run_on::<F, Plain>(terms, config, frames, chain)?;
    Ok(Run { plain, sent })
}

/// The same run, of whose calls no log is kept: what each driver sent, and the figures. It takes no memory for the calls.
#[allow(clippy::too_many_arguments)]
pub fn simulate_unlogged<F: Fn(&[u8], u32) -> Verdict>(
    alloc: Global,
    config: Config,
    frames: Frames,
    packets: &[PacketList],
    chain: &mut Chain<F>,
    wire: Wire,
    order: u32,
    manner: Manner,
) -> Result<Sent, SimError>
    requires regular { IsRegular config }
    requires frames { AreFrames config.geometry frames.items }
    requires lists { length packets.now ≡ config.ports }
    requires short { All HasShortPackets packets.now }
    requires obeys { AllObey F.Fn chain.old }
    ensures same { SamePrograms chain.old chain.new }
    ensures obeys { AllObey F.Fn chain.new }
    ensures pairs { IfOk result (λ sent. length sent.lists ≡ length config.pairs) }
    ensures ended { IfOk result (λ sent. (run : Shown) × HasEndedUnder F.Fn chain.old chain.new wire manner config packets.now frames.items order run × IsSentBy run sent) }
    ensures stalled { (round : ℕ) → result ≡ Err (SimError.Stalled round)
        → HasStalledUnder F.Fn chain.old chain.new wire manner config packets.now frames.items order round }
    ensures goes_on { HasAmpleRoom config → config.closing ≡ None → manner ≡ plain_manner → (round : ℕ) → result ≡ Err (SimError.Stalled round) → ⊥ }
{
    let terms = Terms {
        alloc,
        packets,
        wire,
        order,
        manner,
    };
    match run_on::<F, Unlogged>(terms, config, frames, chain) {
        Ok((_object, sent)) => Ok(sent),
        Err(Unended::Stalled { round, .. }) => Err(SimError::Stalled { round }),
        Err(Unended::OutOfMemory) => Err(SimError::OutOfMemory),
    }
}

/// The run of `simulate` on an object with or without a log.
fn run_on<F: Fn(&[u8], u32) -> Verdict, S: Server + Drop>(
    terms: Terms<'_>,
    config: Config,
    frames: Frames,
    chain: &mut Chain<F>,
) -> Result<(S, Sent), Unended<S>>
    requires regular { IsRegular config }
    requires frames { AreFrames config.geometry frames.items }
    requires lists { length terms.packets.now ≡ config.ports }
    requires short { All HasShortPackets terms.packets.now }
    requires obeys { AllObey F.Fn chain.old }
    ensures same { SamePrograms chain.old chain.new }
    ensures obeys { AllObey F.Fn chain.new }
    ensures pairs { IfOk result (λ ran. (length ran.1.lists ≡ length config.pairs) × ((S.seen ran.0).engine.config ≡ config)) }
    ensures ended { IfOk result (λ ran. (run : Shown) × HasEndedUnder F.Fn chain.old chain.new terms.entry.wire terms.entry.manner config terms.entry.packets.now frames.items terms.entry.order run × IsShownBy (S.seen ran.0) ran.1 run) }
    ensures stalled { (round : ℕ) (object : S) (counters : CounterVec) → result ≡ Err (Unended.Stalled round object counters)
        → HasStalledOnUnder F.Fn chain.old chain.new terms.entry.wire terms.entry.manner config terms.entry.packets.now frames.items terms.entry.order round (S.seen object) counters.items }
    ensures goes_on { HasAmpleRoom config → config.closing ≡ None → terms.entry.manner ≡ plain_manner → (round : ℕ) (object : S) (counters : CounterVec)
        → result ≡ Err (Unended.Stalled round object counters) → ⊥ }
{
    let Ok(shared) = config.copy(terms.alloc) else {
        return Err(Unended::OutOfMemory);
    };
    let Ok(inputs) = Inputs::split(terms.alloc, &shared, terms.packets) else {
        return Err(Unended::OutOfMemory);
    };
    let Ok(workers) = all_workers(terms, &shared, &inputs, chain) else {
        return Err(Unended::OutOfMemory);
    };
    let _geometry = shared.geometry();
    run_workers::<S>(terms, workers, config, frames)
}

/// All workers in their seats: the drivers of all pairs, for whose packets the chain was asked, and the applications.
fn all_workers<'a, F: Fn(&[u8], u32) -> Verdict>(
    terms: Terms<'a>,
    config: &'a Config,
    inputs: &'a Inputs,
    chain: &mut Chain<F>,
) -> Result<Workers<'a>, OutOfMemory>
    requires regular { IsRegular config.now }
    requires lists { length terms.packets.now ≡ config.now.ports }
    requires inputs { inputs.now ≡ inputs_of config.now terms.packets.now }
    requires short { All HasShortPackets terms.packets.now }
    requires obeys { AllObey F.Fn chain.old }
    ensures set { IfOk result (λ workers. (verdicts : List (List AVerdict))
        × HasGiven F.Fn config.now terms.entry.packets.now verdicts chain.old chain.new
        × AreGiven (IsAnswer F.Fn chain.old) (setting_by config.now terms.entry.wire terms.entry.manner terms.entry.packets.now verdicts)
        × AreSet (setting_by config.now terms.entry.wire terms.entry.manner terms.entry.packets.now verdicts) workers) }
    ensures same { SamePrograms chain.old chain.new }
    ensures obeys { AllObey F.Fn chain.new }
{
    let Terms {
        alloc,
        packets,
        wire,
        manner,
        ..
    } = terms;
    let drivers = drivers_for(alloc, config, packets, inputs, chain, wire)?;
    seat_workers(alloc, config, drivers, manner)
}

/// Opens the object, and lets the workers run on it until all have ended.
fn run_workers<S: Server + Drop>(
    terms: Terms<'_>,
    workers: Workers<'_>,
    config: Config,
    frames: Frames,
) -> Result<(S, Sent), Unended<S>>
    requires regular { IsRegular config }
    requires opened { IsOpened config frames.items }
    requires set { (s : Setting) × (s.config ≡ config) × AreSet s workers }
    ensures pairs { IfOk result (λ ran. (length ran.1.lists ≡ length config.pairs) × ((S.seen ran.0).engine.config ≡ config)) }
    ensures ended { (s : Setting) → s.config ≡ config → IsRegular s.config → AreSet s workers.entry
        → terms.entry.wire ≡ s.wire → terms.entry.manner ≡ s.manner
        → IfOk result (λ ran. (run : Shown) × HasEnded s frames.items terms.entry.order run × IsShownBy (S.seen ran.0) ran.1 run) }
    ensures stalled { (s : Setting) (round : ℕ) (object : S) (counters : CounterVec) → s.config ≡ config → AreSet s workers.entry
        → result ≡ Err (Unended.Stalled round object counters) → HasStalledOn s frames.items terms.entry.order round (S.seen object) counters.items }
{
    let classes = config.classes();
    let Ok(mut server) = S::open(terms.alloc, config, frames) else {
        return Err(Unended::OutOfMemory);
    };
    match run_to_end(terms, workers, &mut server, classes) {
        Ok(sent) => Ok((server, sent)),
        Err(Stopped::Stalled { round, counters }) => Err(Unended::Stalled {
            round,
            object: server,
            counters,
        }),
        Err(Stopped::OutOfMemory) => Err(Unended::OutOfMemory),
    }
}

/// Makes rounds until all workers have ended, and collects what the drivers sent and their figures.
fn run_to_end<S: Server>(
    terms: Terms<'_>,
    workers: Workers<'_>,
    server: &mut S,
    classes: u32,
) -> Result<Sent, Stopped>
    requires geometry { IsGeometry (S.seen server.old).engine.config.geometry }
    requires ready { AreReady workers (S.seen server.old) }
    ensures lists { (s : Setting) (frames : List Frame) → AreSeated s frames [] workers.entry (S.seen server.old)
        → IfOk result (λ sent. (length sent.lists ≡ length s.config.pairs) × ((S.seen server.new).engine.config ≡ s.config)) }
    ensures ended { (s : Setting) (frames : List Frame) → IsRegular s.config → AreSeated s frames [] workers.entry (S.seen server.old)
        → classes ≡ classes_of s.config → terms.entry.wire ≡ s.wire → terms.entry.manner ≡ s.manner
        → IfOk result (λ sent. (run : Shown) × HasEnded s frames terms.entry.order run × IsShownBy (S.seen server.new) sent run) }
    ensures stalled { (s : Setting) (frames : List Frame) (round : ℕ) (counters : CounterVec) → AreSeated s frames [] workers.entry (S.seen server.old) → classes ≡ classes_of s.config
        → result ≡ Err (Stopped.Stalled round counters) → HasStalledOn s frames terms.entry.order round (S.seen server.new) counters.items }
{
    let mut workers = workers;
    if let Err(error) = make_rounds(&mut workers, server, terms.order) {
        return Err(why_stopped(terms.alloc, error, &workers, classes));
    }
    let calls = server.calls();
    let Ok(kept) = collect(terms.alloc, workers, classes) else {
        return Err(Stopped::OutOfMemory);
    };
    Ok(kept.into_sent(calls, terms.wire, terms.manner.mangle.is_some()))
}

/// Why there were no rounds to the end, with the counters of the drivers, each of whose queues has so many sockets.
fn why_stopped(alloc: Global, error: SimError, workers: &Workers<'_>, classes: u32) -> Stopped
    ensures { (round : ℕ) (counters : CounterVec) → result ≡ Stopped.Stalled round counters
        → (error ≡ SimError.Stalled round) × (counters.items ≡ kept_counters classes workers.now) }
{
    match error {
        SimError::Stalled { round } => match counters_so_far(alloc, workers, classes) {
            Ok(counters) => Stopped::Stalled { round, counters },
            Err(OutOfMemory) => Stopped::OutOfMemory,
        },
        SimError::OutOfMemory => Stopped::OutOfMemory,
    }
}

/// Makes rounds until all workers have ended, or nothing has changed for too long.
fn make_rounds<S: Server>(
    workers: &mut Workers<'_>,
    server: &mut S,
    order: u32,
) -> Result<(), SimError>
    requires geometry { IsGeometry (S.seen server.old).engine.config.geometry }
    requires ready { AreReady workers.old (S.seen server.old) }
    ensures ended { (s : Setting) (frames : List Frame) → AreSeated s frames [] workers.old (S.seen server.old)
        → OnOk result ((count : ℕ) × (count ≤ 18446744073709551616) × HadRounds s frames order count workers.new (S.seen server.new) × HaveEnded workers.new
        × NeverStill s frames order count) }
    ensures stalled { (s : Setting) (frames : List Frame) (round : ℕ) → AreSeated s frames [] workers.old (S.seen server.old)
        → result ≡ Err (SimError.Stalled round)
        → (had : HadRounds s frames order (round + 1) workers.new (S.seen server.new)) × (HaveEnded workers.new → ⊥) × (round ≤ 18446744073709551615)
        × StandStill s frames order 64 (round + 1) had.history × NeverStill s frames order round }
{
    let mut current = Order::new(order);
    let mut still = 0;
    for round in 0..u64::MAX {
        let quiet = workers.round(server, &mut current)?;
        still = still_after(still, quiet);
        if workers.have_ended() {
            return Ok(());
        }
        if still == STILL_ROUNDS {
            return Err(SimError::Stalled { round });
        }
    }
    // Runs have fewer rounds: `laws::ends_or_stands_still_with_closings`.
    unreachable!()
}

/// For how many rounds nothing has changed, by whether anything changed in the last one.
fn still_after(still: u64, quiet: bool) -> u64
    requires { still < 64 }
    ensures more { IsTrue quiet → result ≡ still + 1 }
    ensures none { (IsTrue quiet → ⊥) → result ≡ 0 }
{
    if quiet { still + 1 } else { 0 }
}

/// A seat for each caller: the drivers of all pairs, and then the applications.
fn seat_workers<'a>(
    alloc: Global,
    config: &'a Config,
    drivers: Vec<Driver<'a>>,
    manner: Manner,
) -> Result<Workers<'a>, OutOfMemory>
    requires regular { IsRegular config.now }
    requires count { length drivers.items ≡ length config.now.pairs }
    requires new { (s : Setting) × (s.config ≡ config.now) × (s.manner ≡ manner) × AreNew s 0 drivers.items }
    ensures { (s : Setting) → s.config ≡ config.now → s.manner ≡ manner → AreNew s 0 drivers.entry.items → IfOk result (AreSet s) }
{
    let mut seats = Vec::with_capacity(alloc, config.callers() as usize)?;
    let mut drivers = drivers.into_iter();
    take_seats(alloc, config, &mut drivers, manner, &mut seats)?;
    Ok(Workers { seats })
}

/// Seats each caller, of which these are the drivers. There is a place for each.
fn take_seats<'a>(
    alloc: Global,
    config: &'a Config,
    drivers: &mut IntoIter<Driver<'a>>,
    manner: Manner,
    seats: &mut Vec<Seat<AnyWorker<'a>>>,
) -> Result<(), OutOfMemory>
    requires regular { IsRegular config.now }
    requires count { length config.now.pairs ≤ length (into_iter_items drivers.old) }
    requires new { (s : Setting) × (s.config ≡ config.now) × (s.manner ≡ manner) × AreNew s 0 (into_iter_items drivers.old) }
    requires none { seats.old.items ≡ [] }
    requires room { callers_of config.now ≤ vec_capacity seats.old }
    ensures { (s : Setting) → s.config ≡ config.now → s.manner ≡ manner → AreNew s 0 (into_iter_items drivers.old)
        → OnOk result (AreSet s (record { seats = seats.new })) }
{
    for who in 0..config.callers() {
        let worker = worker_of(alloc, config, drivers.next(), who, manner)?;
        seats.push_reserved(Seat::new(worker));
    }
    Ok(())
}

/// What is kept of workers that have ended, each of whose queues has so many sockets.
fn collect(alloc: Global, workers: Workers<'_>, classes: u32) -> Result<Collected, OutOfMemory>
    ensures sent { IfOk result (λ kept. map packets_in kept.sent.items ≡ kept_lists workers.entry) }
    ensures figures { IfOk result (λ kept. kept.figures.items ≡ kept_figures classes workers.entry) }
{
    let mut kept = Collected::with_room(alloc, workers.seats.len())?;
    keep_all(&mut kept, workers, classes);
    Ok(kept)
}

/// Keeps what is left of workers that have ended, for each of which there is room.
fn keep_all(kept: &mut Collected, workers: Workers<'_>, classes: u32)
    requires none { (kept.old.sent.items ≡ []) × (kept.old.figures.items ≡ []) }
    requires room { (vec_len workers.seats ≤ vec_capacity kept.old.sent) × (vec_len workers.seats ≤ vec_capacity kept.old.figures) }
    ensures sent { map packets_in kept.new.sent.items ≡ kept_lists workers.entry }
    ensures figures { kept.new.figures.items ≡ kept_figures classes workers.entry }
{
    for seat in workers.seats {
        kept.keep(seat.into_machine(), classes);
    }
}
