//! The bench: drivers with their packets, and calls that are served.
ghost use Rattle.std.specs.Prelude.{◌≡◌, [], IfOk};
ghost use Rattle.xsk_model.specs.Config.{IsLawful};
ghost use Rattle.xsk_model.specs.Opening.{AreFrames, opening};
ghost use Rattle.xsk_plain.specs.Engine.{Shows};
ghost use Rattle.xsk_turns.specs.Giving.{with_frames};
ghost use Rattle.xsk_bench.specs.Played.{frames_with};

use crate::Traffic;
use crate::begin::seat_drivers;
use crate::play::Play;
use crate::seat::Seat;
use std::alloc::Global;
use std::marker::Model;
use thiserror::Error;
use xsk_driver::Wire;
use xsk_legal::Illegal;
use xsk_log::{Lines, Log};
use xsk_machine::{Amount, DriverFigures};
use xsk_model::{Answer, Ask, Config};
use xsk_plain::Checked;
use xsk_prog::{Chain, Verdict};
use xsk_umem::{Batch, Frames, OutOfMemory, PacketList};

/// Why a call wasn't served. It wasn't made, and its batch is as it was.
#[derive(Clone, Copy, Debug, PartialEq, Eq, Error)]
pub enum Unserved {
    /// The application may not make it after its own calls and replies: the first condition that fails.
    #[error("the call isn't legal: {0}")]
    Illegal(Illegal),
    /// Items stand beside a call that submits none.
    #[error("items stand beside a call that submits none")]
    StrayItems,
    /// Memory for the log couldn't be had.
    #[error("out of memory")]
    OutOfMemory,
}

/// The object with the library's drivers, which make their calls in rounds, and applications whose calls are served. All calls
/// stand in one legal history from the opening: each driver's own are a run of its turns over its packets, and the applications'
/// are those that were served.
#[derive(Drop)]
pub struct Bench<'a> {
    play: Play<'a>,
}

impl<'a> Model for Bench<'a> {
    ghost use Rattle.xsk_bench.specs.declared.play.Play.{Play as AnyPlay};
    ghost use Rattle.xsk_bench.specs.Played.{IsGoing};

    ghost Value = { AnyPlay };

    ghost view = { λ b. b.play };

    ghost invariant = { λ b. IsGoing b.play };
}

impl<'a> Bench<'a> {
    ghost use Rattle.std.specs.Prelude.{◌≡◌, ◌↔◌, ◌≤◌, Err, Some, List, [], IfOk, IsNone, MatchOption, length, slice_get};
    ghost use Rattle.xsk_umem.specs.Frame.{Frame};
    ghost use Rattle.xsk_model.specs.Asks.{joined_call, HasAsked, HasAnswered};
    ghost use Rattle.xsk_model.specs.Config.{classes_of};
    ghost use Rattle.xsk_model.specs.Entry.{Entry, own};
    ghost use Rattle.xsk_model.specs.Legal.{IsLegal};
    ghost use Rattle.xsk_model.specs.Opening.{AreFrames};
    ghost use Rattle.xsk_model.specs.Rings.{caller_of};
    ghost use Rattle.xsk_prog.specs.Chain.{AllObey, SamePrograms};
    ghost use Rattle.xsk_prog.specs.declared.rule.Verdict.{Verdict as AVerdict};
    ghost use Rattle.xsk_turns.specs.Workers.{Setting, AreGiven, input_of};
    ghost use Rattle.xsk_turns.specs.SentWith.{sent_by_act};
    ghost use Rattle.xsk_driver.specs.Asking.{IsAnswer};
    ghost use Rattle.xsk_driver.specs.SentRoom.{Exceeds};
    ghost use Rattle.xsk_machine.specs.Figures.{figures_in};
    ghost use Rattle.xsk_machine.specs.Workers.{IsAskedOnce, setting_with};
    ghost use Rattle.xsk_plain.specs.Engine.{frames_out};
    ghost use Rattle.xsk_log.specs.Left.{left_of, pairs_of};
    ghost use Rattle.xsk_log.specs.Log.{calls_of, entries_of};
    ghost use Rattle.xsk_bench.specs.Played.{HasPlayed, IsGoing, act_of, frames_with};
    ghost use Rattle.xsk_turns.specs.Giving.{with_frames};
    ghost use Rattle.xsk_bench.specs.declared.seat.Seat.{Seat as ASeat};
    ghost use Rattle.xsk_bench.specs.DriverRounds.{HadRound, HadRounds};
    ghost use Rattle.xsk_bench.specs.Serving.{Serves, IsIllegal, TellsWhy};

    /// The drivers of all pairs with their packets, over an object in its opening state, in which nobody has made a call. The
    /// frames are all frames of the configuration's UMEM; the chain of programs is attached to every port, and asked here, once for each
    /// packet; `wire` says what becomes of a packet that finds too few frames or no room on RX; and each driver has room for so
    /// many sent packets and bytes. It is refused for want of memory alone.
    pub fn open<F: Fn(&[u8], u32) -> Verdict>(
        alloc: Global,
        traffic: &'a Traffic,
        frames: Frames,
        chain: &mut Chain<F>,
        wire: Wire,
        room: Amount,
    ) -> Result<Bench<'a>, OutOfMemory>
        requires frames { AreFrames traffic.now.config.geometry frames.items }
        requires obeys { AllObey F.Fn chain.old }
        ensures opened { IfOk result (λ bench. (verdicts : List (List AVerdict))
            × AreGiven (IsAnswer F.Fn chain.old) (setting_with traffic.now.config wire traffic.now.packets verdicts)
            × HasPlayed (setting_with traffic.now.config wire traffic.now.packets verdicts) frames.items [] bench) }
        ensures room { IfOk result (λ bench. bench.room ≡ room) }
        ensures once { IfOk result (λ bench. IsAskedOnce F.Fn traffic.now.config traffic.now.packets chain.old chain.new) }
        ensures same { SamePrograms chain.old chain.new }
        ensures obeys { AllObey F.Fn chain.new }
    {
        let config = traffic.config();
        let seats = seat_drivers(
            alloc,
            config,
            traffic.packets(),
            traffic.inputs(),
            chain,
            wire,
            room,
        )?;
        // For the proof: the geometry is lawful, and so are the parts of the configuration.
        let _geometry = config.geometry();
        let _ports = config.ports();
        let checked = opened(alloc, config, frames)?;
        let play = Play {
            checked,
            seats,
            room,
        };
        Ok(Bench { play })
    }

    /// Makes a call for an application, counted from 0, with the items of a Submit taken from the batch, and those of a Peek put
    /// there. It is refused exactly where it isn't legal for the application after its own calls and replies in the log, or
    /// items stand beside a call that submits none, or memory for the log can't be had; then it isn't made, and the batch and
    /// the log are as they were. Why it isn't legal is told: the first of its conditions that fails. An application that doesn't
    /// exist may make no call.
    pub fn serve(&mut self, app: u32, ask: Ask, items: &mut Batch) -> Result<Answer, Unserved>
        ensures room { self.new.room ≡ self.old.room }
        ensures stray { (result ≡ Err Unserved.StrayItems) ↔ (HasAsked ask items.old → ⊥) }
        ensures illegal { IsIllegal result
            ↔ (HasAsked ask items.old × (IsLegal self.old.checked.config (own (caller_of self.old.checked.config app) self.old.checked.log) (caller_of self.old.checked.config app) (joined_call ask items.old) → ⊥)) }
        ensures why { TellsWhy self.old.checked (caller_of self.old.checked.config app) (joined_call ask items.old) result }
        ensures answered { IfOk result (λ answer. HasAnswered answer items.new) }
        ensures served { (s : Setting) (frames : List Frame) (h : List Entry) → HasPlayed s frames h self.old
            → Serves s frames h (caller_of s.config app) (joined_call ask items.old) items.old items.new self.old self.new result }
    {
        self.play.serve(app, ask, items)
    }

    /// Lets each driver that hasn't ended make one call, in the order of the pairs, and tells whether these changed nothing:
    /// neither the object nor the number of a driver's packets that have their disposals. Where memory for the log can't be had,
    /// no call is made.
    pub fn round(&mut self) -> Result<bool, OutOfMemory>
        ensures room { self.new.room ≡ self.old.room }
        ensures round { (s : Setting) (frames : List Frame) (h : List Entry) → HasPlayed s frames h self.old → HadRound s frames h self.new result }
    {
        self.play.round()
    }

    /// Lets the drivers make rounds until they wait, but no more than so many, and tells whether they wait: nothing has changed
    /// for 64 rounds. Then each has ended, or is parked, or nothing that it looks at lets it go on before an application makes
    /// a call. Where memory for the log can't be had, the rounds so far were made.
    pub fn run_drivers(&mut self, most_rounds: u32) -> Result<bool, OutOfMemory>
        ensures room { self.new.room ≡ self.old.room }
        ensures rounds { (s : Setting) (frames : List Frame) (h : List Entry) → HasPlayed s frames h self.old → HadRounds s frames h most_rounds self.new result }
    {
        self.play.run(most_rounds)
    }

    /// The configuration.
    pub fn config(&self) -> &Config
        ensures { result.now ≡ self.now.checked.config }
    {
        self.play.checked.config()
    }

    /// The object, which tells the standing of each caller, and what stands in each ring. The first callers are the drivers, by
    /// pair, and the applications come behind them.
    pub fn object(&self) -> &Checked
        ensures { result.now ≡ self.now.checked }
    {
        &self.play.checked
    }

    /// All calls with their replies, in order: a legal history in which each driver's own calls and replies are a run.
    pub fn log(&self) -> &Log
        ensures entries { entries_of result.now ≡ self.now.checked.log }
        ensures calls { calls_of result.now ≡ self.now.checked.calls }
        ensures history { IsGoing self.now }
    {
        self.play.checked.log()
    }

    /// Goes over all calls with their replies, and writes the journal's line of each.
    pub fn lines(&self) -> Lines<'_>
        ensures pairs { pairs_of result ≡ length self.now.checked.config.pairs }
        ensures all { left_of result ≡ self.now.checked.log }
    {
        self.play.checked.lines()
    }

    /// What the driver of a pair sent so far, with the packets that it bounced; its next call counts as made, so a packet whose frames
    /// it gives back counts as sent, and one that it bounces. There is none where there is no such pair, or it sent more than there
    /// was room for.
    pub fn sent(&self, pair: u32) -> Option<&PacketList>
        ensures none { length self.now.seats.items ≤ pair → IsNone result }
        ensures sent { (s : Setting) (frames : List Frame) (h : List Entry) (seat : ASeat) → HasPlayed s frames h self.now → slice_get self.now.seats.items pair ≡ Some seat
            → MatchOption result (Exceeds seat.driver.sent (sent_by_act s.config pair (input_of s pair) (own pair h) (act_of seat)))
            (λ list. list.now.packets ≡ sent_by_act s.config pair (input_of s pair) (own pair h) (act_of seat)) }
    {
        let place = pair as usize;
        if place >= self.play.seats.len() {
            return None;
        }
        let driver = &self.play.seats[place].driver;
        if driver.overrun() {
            return None;
        }
        Some(driver.sent())
    }

    /// The figures of the driver of a pair so far, over its packets that have their disposals. There are none where there is no
    /// such pair.
    pub fn figures(&self, pair: u32) -> Option<DriverFigures>
        ensures none { length self.now.seats.items ≤ pair → IsNone result }
        ensures figures { (seat : ASeat) → slice_get self.now.seats.items pair ≡ Some seat → result ≡ Some (figures_in (classes_of self.now.checked.config) seat.driver) }
    {
        let place = pair as usize;
        if place >= self.play.seats.len() {
            return None;
        }
        let config = self.play.checked.config();
        let classes = (config.sockets().len() / config.pairs().len()) as u32;
        let figures = DriverFigures::of_driver(&self.play.seats[place].driver, classes);
        Some(figures)
    }

    /// Ends it all. The frames that stand in rings come back, ring by ring and in order, in a queue that has room for all frames, and
    /// behind them those that the drivers have, by their pairs. Those that applications have don't.
    pub fn close(self) -> Frames
        ensures frames { result ≡ with_frames (record result { items = frames_out self.entry.checked.rings }) (frames_with self.entry.seats.items) }
        ensures limit { self.entry.checked.config.geometry.frames ≤ result.limit }
    {
        let Bench { play } = self;
        let Play { checked, seats, .. } = play;
        let mut frames = checked.close();
        give_all(&mut frames, seats);
        frames
    }
}

/// The object of a configuration in its opening state.
fn opened(alloc: Global, config: &Config, frames: Frames) -> Result<Checked, OutOfMemory>
    requires lawful { IsLawful config.now }
    requires frames { AreFrames config.now.geometry frames.items }
    ensures config { IfOk result (λ checked. checked.config ≡ config.now) }
    ensures state { IfOk result (λ checked. Shows checked (opening config.now frames.items)) }
    ensures log { IfOk result (λ checked. (checked.log ≡ []) × (checked.calls ≡ 0)) }
{
    let copy = config.copy(alloc)?;
    let Ok(checked) = Checked::open(alloc, copy, frames) else {
        return Err(OutOfMemory);
    };
    Ok(checked)
}

/// Appends the frames that the drivers have, as many as there is room for.
fn give_all(frames: &mut Frames, seats: Vec<Seat<'_>>)
    ensures { frames.new ≡ with_frames frames.old (frames_with seats.entry.items) }
{
    for seat in seats {
        seat.give_frames(frames);
    }
}
