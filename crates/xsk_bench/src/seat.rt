//! A driver with its next call.
ghost use Rattle.std.specs.Prelude.{◌≡◌, ◌≤◌, ◌+◌, ◌<◌, ◌↔◌, false, ℕ, List, [], IsTrue, length};
ghost use Rattle.xsk_umem.specs.Frame.{Frame};
ghost use Rattle.xsk_umem.specs.Geometry.{IsGeometry};
ghost use Rattle.xsk_umem.specs.declared.batch.Item.{Item};
ghost use Rattle.xsk_model.specs.Asks.{joined_call, joined_reply};
ghost use Rattle.xsk_model.specs.Config.{Config as AConfig};
ghost use Rattle.xsk_model.specs.Entry.{Entry, own};
ghost use Rattle.xsk_model.specs.Expected.{expected_of, nothing};
ghost use Rattle.xsk_model.specs.Legal.{IsLegal};
ghost use Rattle.xsk_model.specs.OtherWords.{changes};
ghost use Rattle.xsk_model.specs.declared.call.Act.TheVariants.{Call as Calls};
ghost use Rattle.xsk_model.specs.declared.call.Call.{Call as ACall};
ghost use Rattle.xsk_turns.specs.Giving.{with_frames};
ghost use Rattle.xsk_turns.specs.Stepping.{joined_ask, IsGivenBack};
ghost use Rattle.xsk_turns.specs.Turns.{Judged};
ghost use Rattle.xsk_turns.specs.Workers.{Setting};
ghost use Rattle.xsk_turns.specs.declared.wire.Wire.{Wire as AWire};
ghost use Rattle.xsk_driver.specs.Frames.{frames_kept};
ghost use Rattle.xsk_driver.specs.Runs.{IsNew, StandsWith};
ghost use Rattle.xsk_sim.specs.Rooms.{most_payload};
ghost use Rattle.xsk_sim.specs.Server.{logged_seen};
ghost use Rattle.xsk_sim.specs.Turning.{HasRun, TakesTurn, Notes};
ghost use Rattle.xsk_bench.specs.Drives.{Drives};

use xsk_driver::Driver;
use xsk_machine::is_quiet;
use xsk_model::Ask;
use xsk_plain::Checked;
use xsk_umem::{Batch, Frames};

/// A driver with the call that it makes next (none where it has ended) and the batch in which the items of a Submit stand. It is
/// noted how many of its packets had their disposals at its last call.
#[derive(Drop)]
pub(crate) struct Seat<'a> {
    pub(crate) driver: Driver<'a>,
    pub(crate) ask: Option<Ask>,
    items: Batch,
    settled: usize,
    ghost awaits: { driver.expected ≡ expected_of (joined_ask ask items) },
}

impl<'a> Seat<'a> {
    pub(crate) fn new(driver: Driver<'a>) -> Seat<'a>
        requires { driver.expected ≡ nothing }
        ensures settled { result.settled ≡ 0 }
        ensures given { IsGivenBack result.ask result.items }
        ensures room { (result.driver.sent.most_packets ≡ driver.entry.sent.most_packets) × (result.driver.sent.most_bytes ≡ driver.entry.sent.most_bytes) }
        ensures stands { (wire : AWire) (c : AConfig) (pair : ℕ) (input : List Judged) → IsNew wire c pair input driver.entry
            → StandsWith wire c pair input result.driver (joined_ask result.ask result.items) [] }
    {
        let mut driver = driver;
        let mut items = Batch::new();
        let mut ask = None;
        driver.step(None, &mut items, &mut ask);
        Seat {
            driver,
            ask,
            items,
            settled: 0,
        }
    }

    /// Makes the driver's next call, if it hasn't ended, and tells whether it changed nothing: neither the object nor the number
    /// of packets that have their disposals. The call must be legal, and the log must have room for any call.
    pub(crate) fn step(&mut self, checked: &mut Checked, who: u32) -> bool
        requires geometry { IsGeometry checked.old.config.geometry }
        requires given { IsGivenBack self.old.ask self.old.items }
        requires legal { (call : ACall) → joined_ask self.old.ask self.old.items ≡ Calls call → IsLegal checked.old.config (own who checked.old.log) who call }
        requires entries { 1 ≤ checked.old.spare_entries }
        requires bytes { most_payload ≤ checked.old.spare_bytes }
        ensures config { checked.new.config ≡ checked.old.config }
        ensures entries { checked.old.spare_entries ≤ checked.new.spare_entries + 1 }
        ensures bytes { checked.old.spare_bytes ≤ checked.new.spare_bytes + most_payload }
        ensures given { IsGivenBack self.new.ask self.new.items }
        ensures room { (self.new.driver.sent.most_packets ≡ self.old.driver.sent.most_packets) × (self.new.driver.sent.most_bytes ≡ self.old.driver.sent.most_bytes) }
        ensures turn { (s : Setting) (frames : List Frame) (h : List Entry) → HasRun s frames h (logged_seen checked.old) → who < length s.config.pairs
            → Drives s who self.old.driver (joined_ask self.old.ask self.old.items) (own who h)
            → (t : TakesTurn s frames who h (Drives s who self.new.driver (joined_ask self.new.ask self.new.items)) (joined_ask self.new.ask self.new.items) (logged_seen checked.new))
            × Notes (joined_ask self.old.ask self.old.items) self.old.settled (length self.old.driver.kept.disposals) self.new.settled result t.entries }
    {
        let Some(ask) = self.ask else {
            return true;
        };
        // For the proof: a batch has at most 32 items.
        let _count = self.items.len();
        let settled = self.driver.disposals().len();
        let answer = checked.serve(who, ask, &mut self.items);
        let still = is_quiet(ask, answer, self.settled, settled);
        self.settled = settled;
        self.driver
            .step(Some(answer), &mut self.items, &mut self.ask);
        still
    }

    /// Gives up the driver. The frames that it has go behind those of the queue, as many as it has room for.
    pub(crate) fn give_frames(self, frames: &mut Frames)
        ensures { frames.new ≡ with_frames frames.old (frames_kept self.entry.driver.kept) }
    {
        let Seat { driver, .. } = self;
        let _sent = driver.into_parts(frames);
    }
}
