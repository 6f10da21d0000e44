//! The object on one thread, as other crates use it. A call that can be made at all (`CanPerform`) has the object's
//! reply and leaves the object's state (`specs/Steps`); whether it is legal is its caller's to know.
ghost use Rattle.std.specs.Prelude.{◌≡◌, ◌+◌, ◌*◌, ◌<◌, ◌≤◌, [], ◌∷◌, ◌++◌, ◌↔◌, length, slice_get, Some, OnOk, IfOk, IfErr, IsTrue};
ghost use Rattle.std.specs.Option.{option_map};
ghost use Rattle.xsk_umem.specs.declared.batch.Item.{Item as AnItem};
ghost use Rattle.xsk_umem.specs.Geometry.{IsGeometry};
ghost use Rattle.xsk_model.specs.Asks.{joined_call, joined_reply, HasAsked, HasAnswered};
ghost use Rattle.xsk_model.specs.Config.{Config as Parts, HasRing, IsLawful, size_of};
ghost use Rattle.xsk_model.specs.declared.ask.Ask.{Ask as AnAsk};
ghost use Rattle.xsk_model.specs.Expected.{IsReplyTo, IsReserved, IsPeeked, IsOld};
ghost use Rattle.xsk_model.specs.Object.{State, reply_at, after};
ghost use Rattle.xsk_model.specs.Opening.{AreFrames, opening};
ghost use Rattle.xsk_model.specs.Stored.{stored_entry};
ghost use Rattle.xsk_plain.specs.Counts.{counts_of, number_of};
ghost use Rattle.xsk_plain.specs.Engine.{Shows, CanPerform, frames_out, part_in};
ghost use Rattle.xsk_log.specs.Left.{left_of, pairs_of};
ghost use Rattle.xsk_log.specs.Line.{IsLineAt};
ghost use Rattle.xsk_log.specs.Log.{calls_of, entries_of};
ghost use Rattle.xsk_plain.specs.Rooms.{Enters, payload_bytes, items_bytes};
ghost use Rattle.xsk_plain.specs.Steps.{FollowsObject};

use crate::object::Object;
use crate::ring_store::RingCounts;
use std::alloc::Global;
use std::marker::Model;
use thiserror::Error;
use xsk_log::{Event, LineBuffer, Lines, Log};
use xsk_model::{Answer, Ask, Call, Config, Mark, Reply, Ring};
use xsk_umem::{Batch, Frames, OutOfMemory};

/// The most bytes of a chunk.
const MOST_CHUNK: u32 = 4096;

/// Memory for the object couldn't be had. What was handed in comes back.
#[derive(Debug, Drop, Error)]
#[error("out of memory")]
pub struct OpenRefused {
    pub config: Config,
    pub frames: Frames,
}

/// The object on one thread.
#[derive(Drop)]
pub struct Plain {
    object: Object,
    log: Log,
    home: Frames,
}

impl Model for Plain {
    ghost use Rattle.xsk_plain.specs.Engine.{Engine};

    ghost Value = { Engine };

    ghost use Rattle.xsk_plain.specs.Sound.{engine_of, IsSound};

    ghost view = { engine_of };

    ghost invariant = { IsSound };
}

impl Plain {
    /// The object in its opening state: the frames stand in the FILL rings, pool by pool, cells have their configured
    /// numbers, and all else is empty or 0. The configuration must be lawful, and the frames all frames of its geometry.
    /// It is refused for want of memory alone.
    pub fn open(alloc: Global, config: Config, frames: Frames) -> Result<Plain, OpenRefused>
        requires lawful { IsLawful config }
        requires frames { AreFrames config.geometry frames.items }
        ensures config { IfOk result (λ plain. plain.config ≡ config) }
        ensures state { IfOk result (λ plain. Shows plain (opening config frames.items)) }
        ensures log { IfOk result (λ plain. (plain.log ≡ []) × (plain.calls ≡ 0)) }
        ensures spare { IfOk result (λ plain. (plain.spare_entries ≡ 0) × (plain.spare_bytes ≡ 0)) }
        ensures refused { IfErr result (λ back. back ≡ record { config = config; frames = frames }) }
    {
        // For the proof: a queue has at most as many frames as its limit.
        let _count = frames.len();
        let mut object = match Object::new(alloc, config) {
            Ok(object) => object,
            Err(config) => return Err(OpenRefused { config, frames }),
        };
        let mut home = frames;
        object.fill(&mut home);
        Ok(Plain {
            object,
            log: Log::new(alloc),
            home,
        })
    }

    /// Makes room in the log for at least so many further entries and payload bytes. The state and the log stay.
    #[inline(always)]
    pub fn reserve_log(&mut self, entries: u32, bytes: u32) -> Result<(), OutOfMemory>
        ensures entries { OnOk result (entries ≤ self.new.spare_entries) }
        ensures bytes { OnOk result (bytes ≤ self.new.spare_bytes) }
        ensures kept { (self.old.spare_entries ≤ self.new.spare_entries) × (self.old.spare_bytes ≤ self.new.spare_bytes) }
        ensures same { self.new ≡ record self.old { spare_entries = self.new.spare_entries; spare_bytes = self.new.spare_bytes } }
    {
        self.log.reserve(entries, bytes)
    }

    /// The configuration.
    pub fn config(&self) -> &Config
        ensures { result.now ≡ self.now.config }
    {
        &self.object.config
    }

    /// The log of all calls so far.
    pub fn log(&self) -> &Log
        ensures entries { entries_of result.now ≡ self.now.log }
        ensures calls { calls_of result.now ≡ self.now.calls }
    {
        &self.log
    }

    /// Goes over all calls so far with their replies, and writes the journal's line of each.
    pub fn lines(&self) -> Lines<'_>
        ensures pairs { pairs_of result ≡ length self.now.config.pairs }
        ensures all { left_of result ≡ self.now.log }
    {
        self.log.lines(self.object.config.pairs().len() as u32)
    }

    /// Puts the line of entry `i`, counted from 0, in place of what the buffer held, as `Log::write_line` has it.
    pub fn write_line(&self, i: u32, out: &mut LineBuffer)
        requires { i < self.now.calls }
        ensures { IsLineAt (length self.now.config.pairs) self.now.log i out.new }
    {
        let pairs = self.object.config.pairs().len() as u32;
        self.log.write_line(pairs, i, out);
    }

    /// A ring in numbers.
    pub fn counts(&self, ring: Ring) -> RingCounts
        requires { HasRing self.now.config ring }
        ensures { result ≡ counts_of (size_of self.now.config ring) (part_in self.now.config self.now.rings ring) }
    {
        self.object.counts(ring)
    }

    /// The number of the frame of an item that is out in a ring, counted from the front, if it has one.
    pub fn frame(&self, ring: Ring, i: u32) -> Option<u32>
        requires ring { HasRing self.now.config ring }
        requires within { i < length (part_in self.now.config self.now.rings ring).out }
        ensures { (item : AnItem) → slice_get (part_in self.now.config self.now.rings ring).out i ≡ Some item → result ≡ option_map number_of item.frame }
    {
        self.object.frame(ring, i)
    }

    /// Whether the call, whose items are in the batch, can be performed: its ring or mark exists, a Submit has at most as many
    /// items as places are reserved, a Peek asks for 1 to 32, and a Release for at most as many as are held. Each legal call can.
    pub fn can_perform(&self, ask: Ask, items: &Batch) -> bool
        ensures { IsTrue result ↔ CanPerform self.now.config self.now.rings (joined_call ask items.now) }
    {
        self.object.can_perform(ask, items)
    }

    /// Makes the call for the caller, gives its reply and logs both. It must be one that can be performed, and the log
    /// must have room for it.
    #[inline(always)]
    pub fn perform(&mut self, who: u32, call: Call) -> Reply
        requires can { CanPerform self.old.config self.old.rings call }
        requires entries { 1 ≤ self.old.spare_entries }
        requires bytes { payload_bytes self.old.config call ≤ self.old.spare_bytes }

        // The reply and the change are the object's, in each state that is shown.
        ensures reply { (s : State) → Shows self.old s → result ≡ reply_at self.old.config s call }
        ensures state { (s : State) → Shows self.old s → Shows self.new (after self.old.config s who call) }
        ensures kind { IsReplyTo call result }
        ensures log { self.new.log ≡ self.old.log ++ stored_entry self.old.config.geometry self.old.config.sg (record { who = who; call = call; reply = result }) ∷ [] }
        ensures config { self.new.config ≡ self.old.config }
        ensures calls { self.new.calls ≡ self.old.calls + 1 }
        ensures entries { self.new.spare_entries + 1 ≡ self.old.spare_entries }
        ensures bytes { self.new.spare_bytes + payload_bytes self.old.config call ≡ self.old.spare_bytes }
    {
        let mut items = Batch::new();
        let ask = call.split(&mut items);
        let answer = self.serve(who, ask, &mut items);
        answer.joined(items)
    }

    /// Makes the call as `perform` does, with the items of a Submit taken from the batch, and those of a Peek put there.
    /// No batch is moved by it. The batch must be empty unless the call is a Submit, and is left empty unless items were
    /// taken.
    #[inline(always)]
    pub fn serve(&mut self, who: u32, ask: Ask, items: &mut Batch) -> Answer
        requires can { CanPerform self.old.config self.old.rings (joined_call ask items.old) }
        requires entries { 1 ≤ self.old.spare_entries }
        requires bytes { payload_bytes self.old.config (joined_call ask items.old) ≤ self.old.spare_bytes }
        requires items { HasAsked ask items.old }

        // The reply and the change are the object's, in each state that is shown.
        ensures reply { (s : State) → Shows self.old s → joined_reply result items.new ≡ reply_at self.old.config s (joined_call ask items.old) }
        ensures state { (s : State) → Shows self.old s → Shows self.new (after self.old.config s who (joined_call ask items.old)) }
        ensures kind { IsReplyTo (joined_call ask items.old) (joined_reply result items.new) }
        ensures log { self.new.log ≡ self.old.log ++ stored_entry self.old.config.geometry self.old.config.sg (record { who = who; call = joined_call ask items.old; reply = joined_reply result items.new }) ∷ [] }
        ensures config { self.new.config ≡ self.old.config }
        ensures calls { self.new.calls ≡ self.old.calls + 1 }
        ensures entries { self.new.spare_entries + 1 ≡ self.old.spare_entries }
        ensures bytes { self.new.spare_bytes + payload_bytes self.old.config (joined_call ask items.old) ≡ self.old.spare_bytes }
        ensures items { HasAnswered result items.new }
    {
        match ask {
            Ask::Reserve(ring, count) => self.reserve(who, ring, count),
            Ask::Submit(ring) => self.submit(who, ring, items),
            Ask::Peek(ring, count) => self.peek(who, ring, count, items),
            Ask::Release(ring, count) => self.release(who, ring, count),
            Ask::Swap(mark, value) => self.swap(who, mark, value),
            Ask::Look(mark) => self.look(who, mark),
        }
    }

    /// The frames that stand in rings, ring by ring and in order, in a queue that has room for all frames.
    pub fn close(self) -> Frames
        ensures frames { length (frames_out self.rings) ≤ self.config.geometry.frames → result.items ≡ frames_out self.rings }
        ensures limit { self.config.geometry.frames ≤ result.limit }
    {
        let Plain {
            object,
            mut home,
            ..
        } = self;
        object.empty_into(&mut home);
        home
    }

    #[inline(always)]
    fn reserve(&mut self, who: u32, ring: Ring, count: u32) -> Answer
        requires can { CanPerform self.old.config self.old.rings (Call.Reserve ring count) }
        requires entries { 1 ≤ self.old.spare_entries }
        ensures kind { IsReserved (joined_reply result []) }
        ensures left { HasAnswered result [] }
        ensures enters { Enters self.old self.new who (Call.Reserve ring count) (joined_reply result []) 0 }
        ensures follows { FollowsObject self.old self.new who (Call.Reserve ring count) (joined_reply result []) }
    {
        match self.object.reserve(ring, count) {
            Ok(()) => {
                self.log.enter(who, Event::Granted(ring, count), 0);
                Answer::Granted
            }
            Err(free) => {
                self.log.enter(who, Event::Full(ring, count, free), 0);
                Answer::Full(free)
            }
        }
    }

    #[inline(always)]
    fn submit(&mut self, who: u32, ring: Ring, items: &mut Batch) -> Answer
        requires can { CanPerform self.old.config self.old.rings (Call.Submit ring items.old) }
        requires entries { 1 ≤ self.old.spare_entries }
        requires bytes { items_bytes self.old.config items.old ≤ self.old.spare_bytes }
        ensures kind { joined_reply result items.new ≡ Reply.Submitted }
        ensures left { HasAnswered result items.new }
        ensures enters { Enters self.old self.new who (Call.Submit ring items.old) (joined_reply result items.new) (items_bytes self.old.config items.old) }
        ensures follows { FollowsObject self.old self.new who (Call.Submit ring items.old) (joined_reply result items.new) }
    {
        let count = items.len();
        self.object.submit(ring, items, &mut self.log);
        self.log.enter(who, Event::Submitted(ring), count);
        Answer::Submitted
    }

    #[inline(always)]
    fn peek(&mut self, who: u32, ring: Ring, count: u32, items: &mut Batch) -> Answer
        requires can { CanPerform self.old.config self.old.rings (Call.Peek ring count) }
        requires empty { items.old ≡ [] }
        requires entries { 1 ≤ self.old.spare_entries }
        ensures kind { IsPeeked (joined_reply result items.new) }
        ensures left { HasAnswered result items.new }
        ensures enters { Enters self.old self.new who (Call.Peek ring count) (joined_reply result items.new) 0 }
        ensures follows { FollowsObject self.old self.new who (Call.Peek ring count) (joined_reply result items.new) }
    {
        self.object.peek(ring, count, &mut self.log, items);
        if items.is_empty() {
            self.log.enter(who, Event::Empty(ring, count), 0);
            Answer::Empty
        } else {
            self.log.enter(who, Event::Items(ring, count), items.len());
            Answer::Items
        }
    }

    #[inline(always)]
    fn release(&mut self, who: u32, ring: Ring, count: u32) -> Answer
        requires can { CanPerform self.old.config self.old.rings (Call.Release ring count) }
        requires entries { 1 ≤ self.old.spare_entries }
        ensures kind { joined_reply result [] ≡ Reply.Released }
        ensures left { HasAnswered result [] }
        ensures enters { Enters self.old self.new who (Call.Release ring count) (joined_reply result []) 0 }
        ensures follows { FollowsObject self.old self.new who (Call.Release ring count) (joined_reply result []) }
    {
        self.object.release(ring, count);
        self.log.enter(who, Event::Released(ring, count), 0);
        Answer::Released
    }

    #[inline(always)]
    fn swap(&mut self, who: u32, mark: Mark, value: u64) -> Answer
        requires can { CanPerform self.old.config self.old.rings (Call.Swap mark value) }
        requires entries { 1 ≤ self.old.spare_entries }
        ensures kind { IsOld (joined_reply result []) }
        ensures left { HasAnswered result [] }
        ensures enters { Enters self.old self.new who (Call.Swap mark value) (joined_reply result []) 0 }
        ensures follows { FollowsObject self.old self.new who (Call.Swap mark value) (joined_reply result []) }
    {
        let old = self.object.swap(mark, value);
        self.log.enter(who, Event::Swapped(mark, value, old), 0);
        Answer::Old(old)
    }

    #[inline(always)]
    fn look(&mut self, who: u32, mark: Mark) -> Answer
        requires can { CanPerform self.old.config self.old.rings (Call.Look mark) }
        requires entries { 1 ≤ self.old.spare_entries }
        ensures kind { IsOld (joined_reply result []) }
        ensures left { HasAnswered result [] }
        ensures enters { Enters self.old self.new who (Call.Look mark) (joined_reply result []) 0 }
        ensures follows { FollowsObject self.old self.new who (Call.Look mark) (joined_reply result []) }
    {
        let old = self.object.look(mark);
        self.log.enter(who, Event::Looked(mark, old), 0);
        Answer::Old(old)
    }
}

/// The most payload bytes that the log keeps of a call with these items beside it: 4,096 for each.
pub fn items_room(items: &Batch) -> u32
    ensures exact { result ≡ 4096 * length items.now }
    ensures enough { (config : Parts) (ask : AnAsk) → IsGeometry config.geometry → payload_bytes config (joined_call ask items.now) ≤ result }
{
    items.len() * MOST_CHUNK
}
