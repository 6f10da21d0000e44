//! The object that serves the workers' calls, with a log of them or without.
ghost use Rattle.std.specs.Prelude.{◌≡◌, ◌+◌, ◌*◌, ◌<◌, ◌≤◌, ◌⊎◌, IsTrue, OnOk, OnErr, IfOk};
ghost use Rattle.xsk_umem.specs.Geometry.{IsGeometry};
ghost use Rattle.xsk_model.specs.Asks.{joined_call, joined_reply, HasAsked, HasAnswered};
ghost use Rattle.xsk_model.specs.Config.{IsLawful};
ghost use Rattle.xsk_model.specs.Expected.{IsReplyTo};
ghost use Rattle.xsk_model.specs.Opening.{AreFrames};
ghost use Rattle.xsk_plain.specs.Engine.{CanPerform};
ghost use Rattle.xsk_sim.specs.Rooms.{most_payload};
ghost use Rattle.xsk_sim.specs.Server.{Seen, Serves, IsOpening, OnlyRoom, logged_seen, unlogged_seen};

use std::alloc::Global;
use xsk_model::{Answer, Ask, Config};
use xsk_plain::{OpenRefused, Plain, Unlogged};
use xsk_umem::{Batch, Frames, OutOfMemory};

/// The most payload bytes of a call: 32 items with chunks of 4,096 bytes.
const MOST_PAYLOAD: u32 = 32 * 4096;

/// The object on one thread.
pub(crate) trait Server {
    // What a contract sees of it.
    ghost seen: { Self → Seen };

    /// The object in its opening state, as `Plain::open` has it.
    fn open(alloc: Global, config: Config, frames: Frames) -> Result<Self, OpenRefused>
        requires lawful { IsLawful config }
        requires frames { AreFrames config.geometry frames.items }
        ensures { IfOk result (λ server. IsOpening config frames.items (seen server)) };

    /// The number of calls so far.
    fn calls(&self) -> u64
        ensures { result ≡ (seen self.now).engine.calls };

    /// Makes room for so many further calls, which are fewer than 32,768. Where no log is kept it fails only if 2^64 calls would be made.
    fn make_room(&mut self, calls: u32) -> Result<(), OutOfMemory>
        requires few { calls < 32768 }
        ensures entries { OnOk result (calls ≤ (seen self.new).engine.spare_entries) }
        ensures bytes { OnOk result (calls * most_payload ≤ (seen self.new).engine.spare_bytes) }
        ensures refused { OnErr result (IsTrue (seen self.old).keeps ⊎ (18446744073709551616 ≤ (seen self.old).engine.calls + calls)) }
        ensures same { OnlyRoom (seen self.old) (seen self.new) };

    /// Makes the call for the caller, as `Plain::serve` does. It must be one that can be performed, and there must be room
    /// for any call.
    fn serve(&mut self, who: u32, ask: Ask, items: &mut Batch) -> Answer
        requires geometry { IsGeometry (seen self.old).engine.config.geometry }
        requires can { CanPerform (seen self.old).engine.config (seen self.old).engine.rings (joined_call ask items.old) }
        requires entries { 1 ≤ (seen self.old).engine.spare_entries }
        requires bytes { most_payload ≤ (seen self.old).engine.spare_bytes }
        requires items { HasAsked ask items.old }
        ensures serves { Serves (seen self.old) (seen self.new) who (joined_call ask items.old) (joined_reply result items.new) }
        ensures kind { IsReplyTo (joined_call ask items.old) (joined_reply result items.new) }
        ensures items { HasAnswered result items.new };
}

impl Server for Plain {
    ghost seen = { logged_seen };

    fn open(alloc: Global, config: Config, frames: Frames) -> Result<Plain, OpenRefused> {
        Plain::open(alloc, config, frames)
    }

    fn calls(&self) -> u64 {
        u64::from(self.log().len())
    }

    #[inline(always)]
    fn make_room(&mut self, calls: u32) -> Result<(), OutOfMemory> {
        self.reserve_log(calls, calls * MOST_PAYLOAD)
    }

    #[inline(always)]
    fn serve(&mut self, who: u32, ask: Ask, items: &mut Batch) -> Answer {
        // For the proof: a batch has at most 32 items.
        let _count = items.len();
        Plain::serve(self, who, ask, items)
    }
}

impl Server for Unlogged {
    ghost seen = { unlogged_seen };

    fn open(alloc: Global, config: Config, frames: Frames) -> Result<Unlogged, OpenRefused> {
        Unlogged::open(alloc, config, frames)
    }

    fn calls(&self) -> u64 {
        Unlogged::calls(self)
    }

    #[inline(always)]
    fn make_room(&mut self, calls: u32) -> Result<(), OutOfMemory> {
        if self.can_count(calls) {
            Ok(())
        } else {
            Err(OutOfMemory)
        }
    }

    #[inline(always)]
    fn serve(&mut self, _who: u32, ask: Ask, items: &mut Batch) -> Answer {
        Unlogged::serve(self, ask, items)
    }
}
