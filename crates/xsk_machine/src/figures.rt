//! The figures of a run: what became of each driver's packets, and its counters.
ghost use Rattle.std.specs.Prelude.{◌≡◌, ◌<◌, ◌^◌, if◌then◌else◌, List, [], ◌∷◌, ◌++◌, OnErr, OnOk, Some, length, slice_get, sum};
ghost use Rattle.xsk_machine.specs.Figures.{KindsAddUp, counter_to, counters_to, figures_by, figures_in, kind_of as kind_by, kinds_of};
ghost use Rattle.xsk_machine.specs.HistoryFigures.{FiguresAtEnd};
ghost use Rattle.xsk_turns.specs.declared.disposal.Disposal.{Disposal as ADisposal};

use std::alloc::Global;
use std::marker::Model;
use xsk_driver::{Disposal, Driver, DriverCounters, Wire};
use xsk_umem::OutOfMemory;

/// The kinds of disposals.
const KINDS: usize = 9;

/// The figures of one driver. Each stays at its last value, 2^64 - 1.
#[derive(Clone, Copy)]
pub struct DriverFigures {
    /// The packets of its input.
    pub packets_in: u64,
    /// How many of them have each kind of disposal: delivered, no frames, RX full, too long, runt, missed, passed, dropped, bounced.
    pub kinds: [u64; 9],
    /// The packets that it sent, those that bounced among them.
    pub sent: u64,
    /// Its counters.
    pub counters: DriverCounters,
    /// The frames that it took from TX and didn't give to COMPLETION.
    pub stranded: u64,
}

impl DriverFigures {
    /// The figures of a driver, of whose packets so many have these disposals, and of whose frames so many are stranded.
    pub fn of(
        packets_in: u64,
        disposals: &[Disposal],
        sent: u64,
        counters: DriverCounters,
        stranded: u64,
    ) -> DriverFigures
        ensures figures { result ≡ figures_by packets_in disposals.now sent counters stranded }
        ensures each_once { sum result.kinds ≡ length disposals.now }
    {
        let _count = disposals.len();
        let mut kinds = [0u64; KINDS];
        for disposal in disposals {
            count_kind(&mut kinds, *disposal);
        }
        DriverFigures {
            packets_in,
            kinds,
            sent,
            counters,
            stranded,
        }
    }

    /// The figures of a driver that has ended, whose queue has so many sockets.
    pub fn of_driver(driver: &Driver<'_>, classes: u32) -> DriverFigures
        ensures { result ≡ figures_in classes driver.now }
    {
        let disposals = driver.disposals();
        let counters = keep_classes(driver.counters(), classes);
        let sent = u64::from(driver.sent().len());
        let stranded = driver.stranded();
        DriverFigures::of(disposals.len() as u64, disposals, sent, counters, stranded)
    }
}

/// The counters of the sockets that a queue has, and 0 for others.
fn keep_classes(counters: DriverCounters, classes: u32) -> DriverCounters
    ensures { result ≡ counters_to classes counters }
{
    DriverCounters {
        rx_ring_full: keep(counters.rx_ring_full, classes),
        tx_invalid_descs: keep(counters.tx_invalid_descs, classes),
        tx_ring_empty_descs: keep(counters.tx_ring_empty_descs, classes),
        ..counters
    }
}

fn keep(counter: [u64; 4], classes: u32) -> [u64; 4]
    ensures { result ≡ counter_to classes counter }
{
    let [first, second, third, fourth] = counter;
    [
        keep_if(first, 0 < classes),
        keep_if(second, 1 < classes),
        keep_if(third, 2 < classes),
        keep_if(fourth, 3 < classes),
    ]
}

fn keep_if(number: u64, kept: bool) -> u64
    ensures { result ≡ (if kept then number else 0) }
{
    if kept { number } else { 0 }
}

/// Counts one more disposal.
fn count_kind(kinds: &mut [u64; 9], disposal: Disposal)
    ensures { (disposals : List ADisposal) → kinds.old ≡ kinds_of disposals → kinds.new ≡ kinds_of (disposals ++ disposal ∷ []) }
{
    let kind = kind_of(disposal);
    kinds[kind] = kinds[kind].saturating_add(1);
}

/// The place of a disposal's kind among the figures.
fn kind_of(disposal: Disposal) -> usize
    ensures value { result ≡ kind_by disposal }
    ensures known { result < 9 }
{
    match disposal {
        Disposal::Delivered(_) => 0,
        Disposal::NoFrames => 1,
        Disposal::RxFull => 2,
        Disposal::TooLong => 3,
        Disposal::Runt => 4,
        Disposal::Missed => 5,
        Disposal::Passed => 6,
        Disposal::Dropped => 7,
        Disposal::Bounced => 8,
    }
}

/// The figures of drivers, by their pairs.
#[derive(Drop)]
pub struct FigureList {
    figures: Vec<DriverFigures>,
}

impl Model for FigureList {
    ghost use Rattle.std.specs.Prelude.{List, ◌<◌, ◌^◌, length};
    ghost use Rattle.xsk_machine.specs.declared.figures.DriverFigures.{DriverFigures as TheFigures};

    ghost Value = { List TheFigures };

    ghost view = { λ l. l.figures.items };

    ghost invariant = { λ l. length l.figures.items < 2 ^ 32 };
}

impl FigureList {
    /// An empty list. It takes no memory.
    pub fn new(alloc: Global) -> FigureList
        ensures { result ≡ [] }
    {
        FigureList {
            figures: Vec::new(alloc),
        }
    }

    /// The list of these figures. It takes no memory.
    pub fn of(figures: Vec<DriverFigures>) -> FigureList
        requires { length figures.items < 2 ^ 32 }
        ensures { result ≡ figures.items }
    {
        FigureList { figures }
    }

    /// Adds the figures of the next driver. The list stays as it was where memory can't be had.
    pub fn push(&mut self, figures: DriverFigures) -> Result<(), OutOfMemory>
        ensures pushed { OnOk result (self.new ≡ self.old ++ figures ∷ []) }
        ensures kept { OnErr result (self.new ≡ self.old) }
    {
        if self.figures.len() >= u32::MAX as usize {
            return Err(OutOfMemory);
        }
        self.figures.push(figures)?;
        Ok(())
    }

    /// The number of drivers.
    pub fn len(&self) -> u32
        ensures { result ≡ length self.now }
    {
        self.figures.len() as u32
    }

    /// The figures of a driver, which the list must have.
    pub fn get(&self, i: u32) -> &DriverFigures
        requires { i < length self.now }
        ensures { slice_get self.now i ≡ Some result.now }
    {
        &self.figures[i as usize]
    }
}

/// The figures of a whole run.
#[derive(Drop)]
pub struct Figures {
    /// The calls of all workers on the shared object.
    pub calls: u64,
    /// What the wire did with a packet that found no frames or no room.
    pub wire: Wire,
    /// The figures of each driver, by its pair.
    pub drivers: FigureList,
    /// Whether the applications changed items that they submitted on TX.
    pub mangled: bool,
}

/// Each packet that has a disposal is counted in one kind.
#[tactic(auto, using(crate::proofs::KindCounts::kinds_add_up))]
pub fn kinds_add_up()
    ensures { KindsAddUp }
{}

/// What a driver that has ended keeps are the figures of its own calls and replies.
#[tactic(auto, using(crate::proofs::Figured::figures_at_end))]
pub fn figures_at_end()
    ensures { FiguresAtEnd }
{}
