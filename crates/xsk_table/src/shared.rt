//! The table that all callers share, and its opening.
ghost use Rattle.std.specs.Prelude.{◌≡◌, ◌+◌, ◌<◌, ◌≤◌, ℕ, List, [], ◌++◌, length, map, vec_len, vec_capacity, Option, Some, None, IfOk, IfErr, OnOk};
ghost use Rattle.std.specs.Vec.{vec_items};
ghost use Rattle.xsk_umem.specs.Frame.{Frame as Body};
ghost use Rattle.xsk_model.specs.Config.{HasRing, IsLawful, callers_of};
ghost use Rattle.xsk_model.specs.Opening.{AreFrames, IsOpened};
ghost use Rattle.xsk_table.specs.View.{newcomer};
ghost use Rattle.xsk_table.specs.Rule.{all_callers};
ghost use Rattle.xsk_table.specs.Held.{Board as Face, IsAt};
ghost use Rattle.xsk_table.specs.Opening.{WordsOpen, AllFirst, list_of, new_passes};

use crate::bases::MarkBases;
use crate::board::{Board, Chair};
use crate::end::End;
use crate::opening::{lay_ends, lay_words};
use crate::pass::Pass;
use crate::passes::Passes;
use crate::view::{CallerSplit, Key};
use std::alloc::Global;
use std::marker::Model;
use std::mem;
use std::snapshot::Snapshot;
use thiserror::Error;
use xsk_model::placement::ring_place;
use xsk_model::{Config, Ring};
use xsk_umem::{Frame, Frames, OutOfMemory};

/// Memory for the table couldn't be had. What was handed in comes back.
#[derive(Debug, Drop, Error)]
#[error("out of memory")]
pub struct SharedRefused {
    pub config: Config,
    pub frames: Frames,
}

/// The words of all rings and marks, and the slots of all frames. It is shared by all passes, and takes no memory after
/// its opening.
#[derive(Drop)]
pub struct Shared {
    pub(crate) board: Board,
    pub(crate) config: Config,
    /// The words of the first marks.
    pub(crate) marks: MarkBases,
    /// The queue from which the frames came, empty.
    pub(crate) home: Frames,
}

impl Model for Shared {
    ghost use Rattle.xsk_table.specs.Held.{Board as Face, TableHolds};

    ghost Value = { Face };

    ghost view = { λ s. s.board };

    ghost invariant = { λ s. TableHolds s.config s.marks s.board.setup s.board.table s.home };
}

/// All memory of a table but its own words and slots.
#[derive(Drop)]
struct Room {
    words: Vec<u64>,
    slots: Vec<Option<Frame>>,
    ends: Vec<Vec<End>>,
    passes: Vec<Option<Pass>>,
}

fn take_room(alloc: Global, config: &Config, first: u32, frames: u32) -> Result<Room, OutOfMemory>
    requires { IsLawful config.now }
    ensures words { IfOk result (λ room. WordsOpen config.now first room.words.items) }
    ensures slots { IfOk result (λ room. (room.slots.items ≡ []) × (frames ≤ vec_capacity room.slots)) }
    ensures ends { IfOk result (λ room. AllFirst config.now first (callers_of config.now) (map vec_items room.ends.items)) }
    ensures passes { IfOk result (λ room. (room.passes.items ≡ []) × (callers_of config.now ≤ vec_capacity room.passes)) }
{
    let words = lay_words(alloc, config, first)?;
    let slots = Vec::with_capacity(alloc, frames as usize)?;
    let callers = config.callers();
    let mut ends = Vec::new(alloc);
    for who in 0..callers {
        ends.push(lay_ends(alloc, config, first, who)?)?;
    }
    let passes = Vec::with_capacity(alloc, callers as usize)?;
    Ok(Room {
        words,
        slots,
        ends,
        passes,
    })
}

/// Moves all frames into slots, in order.
fn move_out(home: &mut Frames, slots: &mut Vec<Option<Frame>>)
    requires { (slots.old.items ≡ []) × (length home.old.items ≤ vec_capacity slots.old) }
    ensures slots { slots.new.items ≡ map (λ (f : Body). Some f) home.old.items }
    ensures home { home.new ≡ record home.old { items = [] } }
{
    for _ in 0..home.len() {
        slots.push_reserved(home.pop_front());
    }
}

/// Moves them back.
fn move_back(slots: Vec<Option<Frame>>, home: &mut Frames)
    requires { (fs : List Body) × (slots.items ≡ map (λ (f : Body). Some f) fs) × (home.old.items ≡ []) × (length fs ≤ home.old.limit) }
    ensures { (fs : List Body) → slots.items ≡ map (λ (f : Body). Some f) fs → home.new ≡ record home.old { items = fs } }
{
    let mut slots = slots;
    for place in 0..slots.len() {
        put_back(slots[place].take(), home);
    }
}

pub(crate) fn put_back(slot: Option<Frame>, home: &mut Frames)
    requires { length home.old.items < home.old.limit }
    ensures { home.new ≡ record home.old { items = home.old.items ++ list_of slot } }
{
    if let Some(frame) = slot {
        home.push_back(frame);
    }
}

/// A pass for each caller.
fn deal(
    alloc: Global,
    board: &Board,
    seat: Chair,
    ends: Vec<Vec<End>>,
    passes: Vec<Option<Pass>>,
    callers: u32,
) -> Vec<Option<Pass>>
    requires table { (seat.table_id ≡ board.now.table) × (1 ≤ board.now.table.words) }
    requires opened { IsOpened board.now.setup.config board.now.setup.frames }
    requires seat { seat.me ≡ (newcomer board.now.setup (all_callers board.now.setup), []) }
    requires callers { callers ≡ callers_of board.now.setup.config }
    requires ends { AllFirst board.now.setup.config board.now.setup.first callers (map vec_items ends.items) }
    requires passes { (passes.items ≡ []) × (callers ≤ vec_capacity passes) }
    ensures { result.items ≡ new_passes board.now }
{
    let mut seat = seat;
    let mut ends = ends;
    let mut passes = passes;
    for who in 0..callers {
        let own = board.split_seat::<CallerSplit>(&mut seat);
        let list = mem::replace(&mut ends[who as usize], Vec::new(alloc));
        passes.push_reserved(Some(Pass {
            seat: own,
            who,
            ends: list,
            flying: 0,
        }));
    }
    passes
}

impl Shared {
    /// A new table with a pass for each caller. All producer and consumer counts start at `first`, but that each FILL ring
    /// has the frames of its pair's home pool. The configuration must be lawful, and the frames all frames of its
    /// geometry. It is refused for want of memory alone.
    pub fn open(
        alloc: Global,
        config: Config,
        frames: Frames,
        first: u32,
    ) -> Result<(Shared, Passes), SharedRefused>
        requires lawful { IsLawful config }
        requires frames { AreFrames config.geometry frames.items }
        ensures setup { IfOk result (λ made. made.0.setup ≡ record { config = config; first = first; frames = frames.items }) }
        ensures passes { IfOk result (λ made. made.1 ≡ new_passes made.0) }
        ensures refused { IfErr result (λ back. back ≡ record { config = config; frames = frames }) }
    {
        let Ok(room) = take_room(alloc, &config, first, frames.len()) else {
            return Err(SharedRefused { config, frames });
        };
        let Room {
            words,
            mut slots,
            ends,
            passes,
        } = room;
        let key = Key {
            config: Snapshot::of(&config),
            first,
            frames: Snapshot::of(&frames),
        };
        let callers = config.callers();
        // For the proof: its geometry is one (IsGeometry), and it is a configuration (IsConfig).
        let _geometry = config.geometry();
        let _ports = config.ports();
        let marks = MarkBases::of(&config);
        let mut home = frames;
        move_out(&mut home, &mut slots);
        match Board::open(words.as_slice(), slots, alloc, &key) {
            Ok((board, seat)) => {
                let passes = deal(alloc, &board, seat, ends, passes, callers);
                let shared = Shared {
                    board,
                    config,
                    marks,
                    home,
                };
                Ok((shared, Passes { passes }))
            }
            Err(slots) => {
                move_back(slots, &mut home);
                Err(SharedRefused {
                    config,
                    frames: home,
                })
            }
        }
    }

    /// The configuration.
    pub fn config(&self) -> &Config
        ensures { result.now ≡ self.now.setup.config }
    {
        &self.config
    }

    /// The place of a ring among all rings, for the steps of a call. The ring must exist.
    #[inline(always)]
    pub fn ring_place(&self, ring: Ring) -> usize
        requires { HasRing self.now.setup.config ring }
        ensures { IsAt self.now.setup.config ring result }
    {
        ring_place(&self.config, ring)
    }
}

/// A table may be shared by threads, and passes and frames sent to them.
#[allow(dead_code)]
fn is_shared(shared: &Shared, pass: &Pass, frame: &Frame) {
    needs_sync(shared);
    needs_send(pass);
    needs_send(frame);
}

fn needs_sync<T: Sync>(_shared: &T) {}

fn needs_send<T: Send>(_sent: &T) {}
