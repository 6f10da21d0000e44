//! The object on one thread, with a standing for each caller that tells which of its calls are legal. A call is made
//! where the caller's standing allows it, and noted there, so the log is one legal history (`specs/Checked`, the
//! invariant).
use crate::noting::{new_standings, serve_noted};
use crate::plain::{OpenRefused, Plain};
use std::alloc::Global;
use std::marker::Model;
use xsk_legal::{Illegal, Standing};
use xsk_log::{LineBuffer, Lines, Log};
use xsk_model::{Answer, Ask, Call, Config, Reply};
use xsk_umem::{Batch, Frames, OutOfMemory};

/// The object on one thread, which knows of each caller which of its calls are legal. Its calls were all legal, so its log
/// is one history from the opening. What it keeps for this costs time at each call: where legality is proved, `Plain` is
/// the engine to take.
#[derive(Drop)]
pub struct Checked {
    plain: Plain,
    /// By caller.
    standings: Vec<Standing>,
}

impl Model for Checked {
    ghost use Rattle.xsk_plain.specs.Engine.{Engine};

    ghost Value = { Engine };

    ghost use Rattle.xsk_plain.specs.Checked.{IsChecked};

    ghost view = { λ c. c.plain };

    ghost invariant = { IsChecked };
}

impl Checked {
    ghost use Rattle.std.specs.Prelude.{◌≡◌, ◌+◌, ◌<◌, ◌≤◌, ◌↔◌, [], ◌∷◌, ◌++◌, length, OnOk, IfOk, IfErr, IfSome, IsNone, IsTrue};
    ghost use Rattle.xsk_model.specs.Asks.{joined_call, joined_reply, HasAsked, HasAnswered};
    ghost use Rattle.xsk_model.specs.Config.{IsLawful, callers_of};
    ghost use Rattle.xsk_model.specs.Entry.{own};
    ghost use Rattle.xsk_model.specs.Expected.{IsReplyTo};
    ghost use Rattle.xsk_model.specs.Legal.{IsLegal};
    ghost use Rattle.xsk_model.specs.Object.{State, reply_at, after};
    ghost use Rattle.xsk_model.specs.Opening.{AreFrames, opening};
    ghost use Rattle.xsk_model.specs.Stored.{stored_entry};
    ghost use Rattle.xsk_plain.specs.Engine.{Shows, frames_out};
    ghost use Rattle.xsk_legal.specs.Why.{Fails};
    ghost use Rattle.xsk_plain.specs.Histories.{IsRun, IsStanding};
    ghost use Rattle.xsk_log.specs.Left.{left_of, pairs_of};
    ghost use Rattle.xsk_log.specs.Line.{IsLineAt};
    ghost use Rattle.xsk_log.specs.Log.{calls_of, entries_of};
    ghost use Rattle.xsk_plain.specs.Rooms.{payload_bytes};

    /// The object in its opening state, as `Plain::open` has it, in which no caller has made a call. All memory is taken
    /// here. It is refused for want of memory alone.
    pub fn open(alloc: Global, config: Config, frames: Frames) -> Result<Checked, OpenRefused>
        requires lawful { IsLawful config }
        requires frames { AreFrames config.geometry frames.items }
        ensures config { IfOk result (λ checked. checked.config ≡ config) }
        ensures state { IfOk result (λ checked. Shows checked (opening config frames.items)) }
        ensures log { IfOk result (λ checked. (checked.log ≡ []) × (checked.calls ≡ 0)) }
        ensures spare { IfOk result (λ checked. (checked.spare_entries ≡ 0) × (checked.spare_bytes ≡ 0)) }
        ensures refused { IfErr result (λ back. back ≡ record { config = config; frames = frames }) }
    {
        let Ok(standings) = new_standings(alloc, &config) else {
            return Err(OpenRefused { config, frames });
        };
        let plain = Plain::open(alloc, config, frames)?;
        Ok(Checked { plain, standings })
    }

    /// Makes room in the log for at least so many further entries and payload bytes. The state and the log stay.
    pub fn reserve_log(&mut self, entries: u32, bytes: u32) -> Result<(), OutOfMemory>
        ensures entries { OnOk result (entries ≤ self.new.spare_entries) }
        ensures bytes { OnOk result (bytes ≤ self.new.spare_bytes) }
        ensures kept { (self.old.spare_entries ≤ self.new.spare_entries) × (self.old.spare_bytes ≤ self.new.spare_bytes) }
        ensures same { self.new ≡ record self.old { spare_entries = self.new.spare_entries; spare_bytes = self.new.spare_bytes } }
    {
        self.plain.reserve_log(entries, bytes)
    }

    /// The log of all calls so far: one legal history from the opening, as it is stored.
    pub fn log(&self) -> &Log
        ensures entries { entries_of result.now ≡ self.now.log }
        ensures calls { calls_of result.now ≡ self.now.calls }
        ensures history { IsRun self.now }
    {
        self.plain.log()
    }

    /// Goes over all calls so far with their replies, and writes the journal's line of each.
    pub fn lines(&self) -> Lines<'_>
        ensures pairs { pairs_of result ≡ length self.now.config.pairs }
        ensures all { left_of result ≡ self.now.log }
        ensures history { IsRun self.now }
    {
        self.plain.lines()
    }

    /// Puts the line of entry `i`, counted from 0, in place of what the buffer held, as `Plain::write_line` does.
    pub fn write_line(&self, i: u32, out: &mut LineBuffer)
        requires { i < self.now.calls }
        ensures { IsLineAt (length self.now.config.pairs) self.now.log i out.new }
    {
        self.plain.write_line(i, out);
    }

    /// The configuration.
    pub fn config(&self) -> &Config
        ensures { result.now ≡ self.now.config }
    {
        self.plain.config()
    }

    /// The object itself, on which the calls were made.
    pub fn object(&self) -> &Plain
        ensures { result.now ≡ self.now }
    {
        &self.plain
    }

    /// The standing of a caller, if there is such a caller: what its own calls and replies in the log left it of places, items
    /// and frames, and which call it may make next.
    pub fn standing(&self, who: u32) -> Option<&Standing>
        ensures none { IsNone result ↔ (callers_of self.now.config ≤ who) }
        ensures some { IfSome result (λ standing. IsStanding self.now who standing.now) }
    {
        let place = who as usize;
        if place >= self.standings.len() {
            return None;
        }
        Some(&self.standings[place])
    }

    /// Whether the call, whose items are in the batch, is legal for the caller after its own calls and replies in the log.
    /// None is for a caller that doesn't exist.
    pub fn allows(&self, who: u32, ask: Ask, items: &Batch) -> bool
        ensures { IsTrue result ↔ IsLegal self.now.config (own who self.now.log) who (joined_call ask items.now) }
    {
        let place = who as usize;
        place < self.standings.len()
            && self.standings[place].allows(self.plain.config(), ask, items)
    }

    /// Why the call, whose items are in the batch, isn't legal for the caller after its own calls and replies in the log,
    /// and `None` exactly where it is.
    pub fn why_not(&self, who: u32, ask: Ask, items: &Batch) -> Option<Illegal>
        ensures legal { IsNone result ↔ IsLegal self.now.config (own who self.now.log) who (joined_call ask items.now) }
        ensures why { IfSome result (λ why. Fails why self.now.config (own who self.now.log) who (joined_call ask items.now)) }
    {
        let place = who as usize;
        if place >= self.standings.len() {
            return Some(Illegal::NoCaller);
        }
        self.standings[place].why_not(self.plain.config(), ask, items)
    }

    /// Makes the call for the caller, gives its reply and logs both. It must be legal after the caller's own calls and
    /// replies in the log, and the log must have room for it.
    pub fn perform(&mut self, who: u32, call: Call) -> Reply
        requires legal { IsLegal self.old.config (own who self.old.log) who call }
        requires entries { 1 ≤ self.old.spare_entries }
        requires bytes { payload_bytes self.old.config call ≤ self.old.spare_bytes }

        // The reply and the change are the object's, in each state that is shown.
        ensures reply { (s : State) → Shows self.old s → result ≡ reply_at self.old.config s call }
        ensures state { (s : State) → Shows self.old s → Shows self.new (after self.old.config s who call) }
        ensures kind { IsReplyTo call result }
        ensures log { self.new.log ≡ self.old.log ++ stored_entry self.old.config.geometry self.old.config.sg (record { who = who; call = call; reply = result }) ∷ [] }
        ensures config { self.new.config ≡ self.old.config }
        ensures calls { self.new.calls ≡ self.old.calls + 1 }
        ensures entries { self.new.spare_entries + 1 ≡ self.old.spare_entries }
        ensures bytes { self.new.spare_bytes + payload_bytes self.old.config call ≡ self.old.spare_bytes }
    {
        let mut items = Batch::new();
        let ask = call.split(&mut items);
        let answer = self.serve(who, ask, &mut items);
        answer.joined(items)
    }

    /// Makes the call as `perform` does, with the items of a Submit taken from the batch, and those of a Peek put there.
    /// No batch is moved by it. The batch must be empty unless the call is a Submit, and is left empty unless items were
    /// taken.
    pub fn serve(&mut self, who: u32, ask: Ask, items: &mut Batch) -> Answer
        requires legal { IsLegal self.old.config (own who self.old.log) who (joined_call ask items.old) }
        requires entries { 1 ≤ self.old.spare_entries }
        requires bytes { payload_bytes self.old.config (joined_call ask items.old) ≤ self.old.spare_bytes }
        requires items { HasAsked ask items.old }

        // The reply and the change are the object's, in each state that is shown.
        ensures reply { (s : State) → Shows self.old s → joined_reply result items.new ≡ reply_at self.old.config s (joined_call ask items.old) }
        ensures state { (s : State) → Shows self.old s → Shows self.new (after self.old.config s who (joined_call ask items.old)) }
        ensures kind { IsReplyTo (joined_call ask items.old) (joined_reply result items.new) }
        ensures log { self.new.log ≡ self.old.log ++ stored_entry self.old.config.geometry self.old.config.sg (record { who = who; call = joined_call ask items.old; reply = joined_reply result items.new }) ∷ [] }
        ensures config { self.new.config ≡ self.old.config }
        ensures calls { self.new.calls ≡ self.old.calls + 1 }
        ensures entries { self.new.spare_entries + 1 ≡ self.old.spare_entries }
        ensures bytes { self.new.spare_bytes + payload_bytes self.old.config (joined_call ask items.old) ≡ self.old.spare_bytes }
        ensures items { HasAnswered result items.new }
    {
        let standing = &mut self.standings[who as usize];
        serve_noted(&mut self.plain, standing, who, ask, items)
    }

    /// The frames that stand in rings, ring by ring and in order, in a queue that has room for all frames.
    pub fn close(self) -> Frames
        ensures frames { result.items ≡ frames_out self.rings }
        ensures limit { self.config.geometry.frames ≤ result.limit }
    {
        let Checked { plain, .. } = self;
        plain.close()
    }
}
