//! An application that goes on from what its own earlier calls left.
ghost use Rattle.std.specs.Prelude.{◌≡◌, ◌+◌, ◌/◌, ◌<◌, ◌≤◌, ℕ, List, [], IfOk, length, vec_capacity};
ghost use Rattle.xsk_model.specs.Config.{IsRegular, classes_of};
ghost use Rattle.xsk_model.specs.Entry.{Told};
ghost use Rattle.xsk_model.specs.Expected.{nothing};
ghost use Rattle.xsk_model.specs.Marks.{apps_of};
ghost use Rattle.xsk_turns.specs.AppTurns.{app_start, lanes_of, pair_of, rx_of, tx_of, tx_pair};
ghost use Rattle.xsk_turns.specs.AppSplit.{HasLeft};
ghost use Rattle.xsk_turns.specs.Owned.{IsSteady};
ghost use Rattle.xsk_app.specs.Resumed.{IsResumed, ResumedTells, kept_in};
ghost use Rattle.xsk_app.specs.Ways.{AreWays};

use crate::app::{App, new_backs, new_pending};
use crate::carried::{Carried, Room};
use crate::machine::Way;
use crate::start::start;
use std::alloc::Global;
use xsk_model::Config;
use xsk_model::steering::{driver_on, port_on, queue_on};
use xsk_turns::Manner;
use xsk_umem::OutOfMemory;

impl Carried {
    /// What a new application keeps: one empty batch for each lane, no frame, and neither side has told. It takes all memory.
    pub fn new(alloc: Global, config: &Config) -> Result<Carried, OutOfMemory>
        ensures { IfOk result (λ kept. kept_in kept ≡ app_start config.now) }
    {
        let classes = config.sockets().len() / config.pairs().len();
        Ok(Carried {
            pending: new_pending(alloc, 2 * classes)?,
            backs: new_backs(alloc)?,
            seen: [false; 2],
            room: Room::new(alloc)?,
        })
    }
}

impl<'a> App<'a> {
    /// The application that goes on from what its earlier calls left it, at the start of a turn: with these items and frames, and
    /// what it has seen of its drivers. It changes no item. The configuration is a regular one that has it and in which no socket is closed, and there
    /// is one batch for each lane. It takes no memory.
    pub fn resume(config: &'a Config, app: u32, kept: Carried) -> App<'a>
        requires steady { IsSteady config.now }
        requires app { app < apps_of config.now }
        requires lanes { length kept.pending.items ≡ lanes_of config.now }
        ensures expected { result.expected ≡ nothing }
        ensures kept { result.kept ≡ kept_in kept }
        ensures resumed { (past : List Told) → HasLeft config.now (kept_in kept) past → IsResumed config.now app (kept_in kept) past result }
    {
        let Carried {
            pending,
            backs,
            seen,
            room,
        } = kept;
        let Room { ways } = room;
        start(
            config,
            app,
            ways,
            pending,
            backs,
            seen,
            Manner::plain(),
            None,
        )
    }
}

/// The sockets of an application's lane, by side and class: from each class of each side's pair to the same class of the other
/// side's. The configuration is a regular one that has it.
pub fn lane_way(config: &Config, app: u32, lane: u32) -> Way
    requires regular { IsRegular config.now }
    requires app { app < apps_of config.now }
    requires lane { lane < lanes_of config.now }
    ensures rx { result.rx ≡ rx_of config.now app lane }
    ensures tx { result.tx ≡ tx_of config.now app lane }
    ensures pair { result.pair ≡ tx_pair config.now app lane }
    ensures side { result.side ≡ lane / classes_of config.now }
    ensures below { result.side < 2 }
{
    let classes = config.classes();
    let side = lane / classes;
    let other = side_pair(config, app, 1 - side);
    Way {
        rx: side_pair(config, app, side) * classes + lane % classes,
        tx: other * classes + lane % classes,
        pair: other,
        side: side as usize,
    }
}

/// The pair of an application's side. The configuration is a regular one that has it.
pub fn side_pair(config: &Config, app: u32, side: u32) -> u32
    requires app { app < apps_of config.now }
    requires side { side < 2 }
    ensures pair { result ≡ pair_of config.now app side }
    ensures few { result < 16 }
{
    driver_on(config, port_on(config, app, side), queue_on(config, app))
}

/// The sockets of all lanes, in an empty list with room for them.
pub(crate) fn fill_ways(ways: Vec<Way>, config: &Config, app: u32) -> Vec<Way>
    requires regular { IsRegular config.now }
    requires app { app < apps_of config.now }
    requires none { ways.items ≡ [] }
    requires room { lanes_of config.now ≤ vec_capacity ways }
    ensures { AreWays config.now app result.items }
{
    let mut ways = ways;
    for lane in 0..2 * config.classes() {
        ways.push_reserved(lane_way(config, app, lane));
    }
    ways
}

/// So each call that it makes is legal after its earlier calls, and its own since.
#[tactic(auto, using(crate::proofs::Resumed::resumed_tells))]
pub fn resumed_tells()
    ensures { ResumedTells }
{}
