//! Gates whose workers come one after the other, on one thread.

use xsk_gate::{Gate, HoldGate, PairGate};

#[test]
fn a_worker_whose_other_never_comes_is_let_through(rt: HostRuntime) {
    let gate = PairGate::new().with_looks(3);
    gate.enter(0, 0);
    assert!(rt; gate.limit_met());
    assert!(rt; gate.entered(0) && !gate.entered(1));
}

#[test]
fn other_workers_and_later_turns_are_not_held(rt: HostRuntime) {
    let gate = PairGate::of(1, 2).with_looks(3);
    gate.enter(0, 0);
    gate.enter(1, 1);
    assert!(rt; !gate.limit_met());
    assert!(rt; gate.entered(0) && !gate.entered(1));
}

#[test]
fn one_worker_is_held_for_its_looks(rt: HostRuntime) {
    let gate = HoldGate::new(2).with_looks(3);
    gate.enter(2, 0);
    gate.enter(0, 1_000);
    assert!(rt; !gate.pushed());
}

/// It would be held for minutes.
#[test]
fn a_late_turn_of_another_ends_the_hold(rt: HostRuntime) {
    let gate = HoldGate::new(2).with_looks(u32::MAX);
    gate.enter(0, 1_000);
    gate.enter(2, 0);
    assert!(rt; gate.pushed());
}
