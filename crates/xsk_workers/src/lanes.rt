//! What a hand knows of the value that it takes from a lock: its name tells the table and the lanes, and each step what came of it
//! (`specs/Hands.antt`). It is a trait for one type, since a closure that goes to a thread names no type with a lifetime.
ghost use Rattle.std.specs.Prelude.{◌≡◌, ◌<◌, ℕ, Bool};
ghost use Rattle.xsk_table.specs.Held.{Board};
ghost use Rattle.xsk_shared_ends.specs.declared.visiting.Step.{Step as AStep};

use xsk_lock::Named;
use xsk_shared_ends::Step;
use xsk_table::Shared;

/// A value on which a hand makes steps. By its name it is known on which table, and how many lanes it has.
pub(crate) trait Lanes: Named {
    ghost is_on: { Board → Self.Name → Type 0 };

    ghost lanes_in: { Self.Name → ℕ };

    // A visit to a lane was made, to a side, and a look at the marks, and this came of it.
    ghost lane_came: { ℕ → Self → Self → AStep → Type 0 };

    ghost side_came: { ℕ → Self → Self → AStep → Type 0 };

    ghost marks_told: { Self → Self → Bool → Type 0 };

    /// How many lanes it has.
    fn lanes(&self) -> u32
        ensures { result ≡ lanes_in (Self.name self.now) };

    /// Visits a lane.
    fn visit(&mut self, shared: &Shared, lane: u32) -> Step
        requires on { is_on shared.now (Self.name self.old) }
        requires lane { lane < lanes_in (Self.name self.old) }
        ensures name { Self.name self.new ≡ Self.name self.old }
        ensures came { lane_came lane self.old self.new result };

    /// Visits a side.
    fn recycle(&mut self, shared: &Shared, side: u32) -> Step
        requires on { is_on shared.now (Self.name self.old) }
        requires side { side < 2 }
        ensures name { Self.name self.new ≡ Self.name self.old }
        ensures came { side_came side self.old self.new result };

    /// Looks whether both drivers have told that they have no further packet.
    fn look(&mut self, shared: &Shared) -> bool
        requires on { is_on shared.now (Self.name self.old) }
        ensures name { Self.name self.new ≡ Self.name self.old }
        ensures told { marks_told self.old self.new result };
}
