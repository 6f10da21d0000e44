//! The object on one thread, of whose calls no log is kept.
ghost use Rattle.std.specs.Prelude.{◌≡◌, ◌+◌, ◌<◌, ◌≤◌, ◌↔◌, ℕ, [], length, IfOk, IfErr, IsTrue};
ghost use Rattle.xsk_model.specs.Asks.{joined_call, joined_reply, HasAsked, HasAnswered};
ghost use Rattle.xsk_model.specs.Config.{IsLawful};
ghost use Rattle.xsk_model.specs.Expected.{IsReplyTo, IsReserved, IsPeeked, IsOld};
ghost use Rattle.xsk_model.specs.Object.{State, reply_at, after};
ghost use Rattle.xsk_model.specs.Opening.{AreFrames, opening};
ghost use Rattle.xsk_model.specs.declared.call.Call.{Call};
ghost use Rattle.xsk_model.specs.declared.call.Reply.{Reply};
ghost use Rattle.xsk_plain.specs.Engine.{Shows, CanPerform, frames_out};
ghost use Rattle.xsk_plain.specs.Steps.{FollowsObject};
ghost use Rattle.xsk_plain.specs.Unlogged.{SameCount};

use crate::object::Object;
use crate::plain::OpenRefused;
use std::alloc::Global;
use std::marker::Model;
use xsk_model::{Answer, Ask, Config, Mark, Ring};
use xsk_umem::{Batch, Frames};

/// The object on one thread without a log: of its calls it keeps the number alone. Where nobody asks for the log, it is the
/// faster engine, and takes no memory after the opening.
#[derive(Drop)]
pub struct Unlogged {
    object: Object,
    calls: u64,
    home: Frames,
}

impl Model for Unlogged {
    ghost use Rattle.xsk_plain.specs.Engine.{Engine};

    ghost Value = { Engine };

    ghost use Rattle.xsk_plain.specs.Unlogged.{unlogged_engine, IsHome};

    ghost view = { unlogged_engine };

    ghost invariant = { IsHome };
}

impl Unlogged {
    /// The object in its opening state, as `Plain::open` has it. All memory is taken here. It is refused for want of memory
    /// alone.
    pub fn open(alloc: Global, config: Config, frames: Frames) -> Result<Unlogged, OpenRefused>
        requires lawful { IsLawful config }
        requires frames { AreFrames config.geometry frames.items }
        ensures config { IfOk result (λ unlogged. unlogged.config ≡ config) }
        ensures state { IfOk result (λ unlogged. Shows unlogged (opening config frames.items)) }
        ensures calls { IfOk result (λ unlogged. unlogged.calls ≡ 0) }
        ensures refused { IfErr result (λ back. back ≡ record { config = config; frames = frames }) }
    {
        // For the proof: a queue has at most as many frames as its limit.
        let _count = frames.len();
        let mut object = match Object::new(alloc, config) {
            Ok(object) => object,
            Err(config) => return Err(OpenRefused { config, frames }),
        };
        let mut home = frames;
        object.fill(&mut home);
        Ok(Unlogged {
            object,
            calls: 0,
            home,
        })
    }

    /// The number of calls so far.
    pub fn calls(&self) -> u64
        ensures { result ≡ self.now.calls }
    {
        self.calls
    }

    /// Whether so many further calls can be counted: at most 2^64 - 1 are in all.
    pub fn can_count(&self, calls: u32) -> bool
        ensures { IsTrue result ↔ (self.now.calls + calls < 18446744073709551616) }
    {
        u64::from(calls) <= u64::MAX - self.calls
    }

    /// Makes the call and gives its reply, as `Plain::serve` does. It must be one that can be performed and counted.
    #[inline(always)]
    pub fn serve(&mut self, ask: Ask, items: &mut Batch) -> Answer
        requires can { CanPerform self.old.config self.old.rings (joined_call ask items.old) }
        requires few { self.old.calls < 18446744073709551615 }
        requires items { HasAsked ask items.old }

        // The reply and the change are the object's, in each state that is shown.
        ensures reply { (s : State) → Shows self.old s → joined_reply result items.new ≡ reply_at self.old.config s (joined_call ask items.old) }
        ensures state { (s : State) (who : ℕ) → Shows self.old s → Shows self.new (after self.old.config s who (joined_call ask items.old)) }
        ensures kind { IsReplyTo (joined_call ask items.old) (joined_reply result items.new) }
        ensures config { self.new.config ≡ self.old.config }
        ensures calls { self.new.calls ≡ self.old.calls + 1 }
        ensures items { HasAnswered result items.new }
    {
        self.calls += 1;
        match ask {
            Ask::Reserve(ring, count) => self.reserve(ring, count),
            Ask::Submit(ring) => self.submit(ring, items),
            Ask::Peek(ring, count) => self.peek(ring, count, items),
            Ask::Release(ring, count) => self.release(ring, count),
            Ask::Swap(mark, value) => self.swap(mark, value),
            Ask::Look(mark) => self.look(mark),
        }
    }

    /// The frames that stand in rings, ring by ring and in order, in a queue that has room for all frames.
    pub fn close(self) -> Frames
        ensures frames { length (frames_out self.rings) ≤ self.config.geometry.frames → result.items ≡ frames_out self.rings }
        ensures limit { self.config.geometry.frames ≤ result.limit }
    {
        let Unlogged {
            object,
            mut home,
            ..
        } = self;
        object.empty_into(&mut home);
        home
    }

    #[inline(always)]
    fn reserve(&mut self, ring: Ring, count: u32) -> Answer
        requires can { CanPerform self.old.config self.old.rings (Call.Reserve ring count) }
        ensures kind { IsReserved (joined_reply result []) }
        ensures left { HasAnswered result [] }
        ensures counts { SameCount self.old self.new }
        ensures follows { (who : ℕ) → FollowsObject self.old self.new who (Call.Reserve ring count) (joined_reply result []) }
    {
        match self.object.reserve(ring, count) {
            Ok(()) => Answer::Granted,
            Err(free) => Answer::Full(free),
        }
    }

    #[inline(always)]
    fn submit(&mut self, ring: Ring, items: &mut Batch) -> Answer
        requires can { CanPerform self.old.config self.old.rings (Call.Submit ring items.old) }
        ensures kind { joined_reply result items.new ≡ Reply.Submitted }
        ensures left { HasAnswered result items.new }
        ensures counts { SameCount self.old self.new }
        ensures follows { (who : ℕ) → FollowsObject self.old self.new who (Call.Submit ring items.old) (joined_reply result items.new) }
    {
        self.object.submit_unnoted(ring, items);
        Answer::Submitted
    }

    #[inline(always)]
    fn peek(&mut self, ring: Ring, count: u32, items: &mut Batch) -> Answer
        requires can { CanPerform self.old.config self.old.rings (Call.Peek ring count) }
        requires empty { items.old ≡ [] }
        ensures kind { IsPeeked (joined_reply result items.new) }
        ensures left { HasAnswered result items.new }
        ensures counts { SameCount self.old self.new }
        ensures follows { (who : ℕ) → FollowsObject self.old self.new who (Call.Peek ring count) (joined_reply result items.new) }
    {
        self.object.peek_unnoted(ring, count, items);
        if items.is_empty() {
            Answer::Empty
        } else {
            Answer::Items
        }
    }

    #[inline(always)]
    fn release(&mut self, ring: Ring, count: u32) -> Answer
        requires can { CanPerform self.old.config self.old.rings (Call.Release ring count) }
        ensures kind { joined_reply result [] ≡ Reply.Released }
        ensures left { HasAnswered result [] }
        ensures counts { SameCount self.old self.new }
        ensures follows { (who : ℕ) → FollowsObject self.old self.new who (Call.Release ring count) (joined_reply result []) }
    {
        self.object.release(ring, count);
        Answer::Released
    }

    #[inline(always)]
    fn swap(&mut self, mark: Mark, value: u64) -> Answer
        requires can { CanPerform self.old.config self.old.rings (Call.Swap mark value) }
        ensures kind { IsOld (joined_reply result []) }
        ensures left { HasAnswered result [] }
        ensures counts { SameCount self.old self.new }
        ensures follows { (who : ℕ) → FollowsObject self.old self.new who (Call.Swap mark value) (joined_reply result []) }
    {
        Answer::Old(self.object.swap(mark, value))
    }

    #[inline(always)]
    fn look(&self, mark: Mark) -> Answer
        requires can { CanPerform self.now.config self.now.rings (Call.Look mark) }
        ensures kind { IsOld (joined_reply result []) }
        ensures left { HasAnswered result [] }
        ensures follows { (who : ℕ) → FollowsObject self.now self.now who (Call.Look mark) (joined_reply result []) }
    {
        Answer::Old(self.object.look(mark))
    }
}
