//! A hand of an application: it takes the ends from their lock for each step, and has given them back before it wakes a driver or pauses.
//! What a turn tells is what came of just its visits (`IsHandTurn`), and it ends only where each of its lanes was empty after both
//! drivers had told that they have no further packet (`HasEnded`). When it wakes and how long it pauses is in no contract.
ghost use Rattle.std.specs.Prelude.{◌≡◌, ◌↔◌, ◌<◌, true};
ghost use Rattle.xsk_lock.specs.Rule.{mine};
ghost use Rattle.xsk_lock.specs.Held.{Belongs, IsOn};
ghost use Rattle.xsk_workers.specs.Sharing.{IsFree, Stays};
ghost use Rattle.xsk_workers.specs.Visits.{CameOf, Has, WereVisited, WereBothVisited, IsHandTurn, HasEnded};

use crate::came::Came;
use crate::lanes::Lanes;
use crate::parking::SideWakers;
use crate::pauses::Pauses;
use std::sync::Wait;
use std::sync::atomic::AtomicU64;
use xsk_gate::Gate;
use xsk_lock::{Hand, Lock};
use xsk_shared_ends::Step;
use xsk_table::Shared;

/// Which lanes a hand visits, of so many: those whose number has one of its places in the bits of the mask. It has the places from the
/// first on, up to those past it. For the gate the hands of its application are numbered from a base on.
#[derive(Clone, Copy)]
pub(crate) struct Share {
    first: u32,
    past: u32,
    mask: u32,
    pub(crate) lanes: u32,
    base: u32,
}

impl Share {
    /// The share of all of so many hands, a power of 2. The place of each is its number.
    pub(crate) fn whole(lanes: u32, hands: u32, base: u32) -> Share
        ensures { result.lanes ≡ lanes }
    {
        Share {
            first: 0,
            past: hands,
            mask: hands.saturating_sub(1),
            lanes,
            base,
        }
    }

    /// That of the hand of this number.
    pub(crate) fn of_one(self, number: u32) -> Share
        ensures { result.lanes ≡ self.lanes }
    {
        Share {
            first: number,
            past: number.saturating_add(1),
            ..self
        }
    }

    /// That of the hands from this number on.
    pub(crate) fn from(self, number: u32) -> Share
        ensures { result.lanes ≡ self.lanes }
    {
        Share {
            first: number,
            ..self
        }
    }

    fn has(self, lane: u32) -> bool
        ensures { (result ≡ true) ↔ Has self lane }
    {
        let place = lane & self.mask;
        self.first <= place && place < self.past
    }
}

/// What the hands of an application have in common: the lock of its ends, what wakes the drivers of its sides, the share of all of
/// them together, and, once a thread can't be had, one more than the number of the hand that was to have it.
#[derive(Drop)]
pub(crate) struct Common<'a, T: Lanes, R, G> {
    pub(crate) rt: &'a R,
    pub(crate) shared: &'a Shared,
    pub(crate) gate: &'a G,
    pub(crate) lock: &'a Lock<T>,
    pub(crate) wakers: SideWakers<'a>,
    pub(crate) whole: Share,
    pub(crate) refused: &'a AtomicU64,
}

/// What came of a hand's turn.
#[derive(Clone, Copy)]
pub(crate) enum HandTurn {
    /// The hand has ended.
    Over,
    /// It goes on: whether both drivers had told that they have no further packet, as it looked, and what came of its steps.
    GoesOn { told: bool, came: Came },
}

/// Takes the ends, once no other hand has them.
fn take<T: Lanes, R: Wait, G>(common: &Common<'_, T, R, G>, hand: &mut Hand<T>) -> T
    requires free { IsFree common.now.lock.now hand.old }
    ensures belongs { Belongs common.now.lock.now hand.new }
    ensures on { IsOn hand.new }
    ensures mine { mine hand.new.view ≡ mine hand.old.view }
    ensures name { T.name result ≡ common.now.lock.now.name }
{
    let mut pauses = Pauses::shared();
    for _ in common.rt.forever() {
        match common.lock.try_lock(hand) {
            Some(ends) => return ends,
            None => pauses.pause(common.rt),
        }
    }
    unreachable!()
}

/// Visits a lane.
fn visit<T: Lanes, R: Wait, G>(common: &Common<'_, T, R, G>, lane: u32, hand: &mut Hand<T>) -> Step
    requires free { IsFree common.now.lock.now hand.old }
    requires on { T.is_on common.now.shared.now common.now.lock.now.name }
    requires lane { lane < T.lanes_in common.now.lock.now.name }
    ensures stays { Stays common.now.lock.now hand.old hand.new }
    ensures came { CameOf T.name common.now.lock.now (T.lane_came lane) result }
{
    let mut ends = take(common, hand);
    let step = ends.visit(common.shared, lane);
    common.lock.unlock(hand, ends);
    step
}

/// Visits a side.
fn recycle<T: Lanes, R: Wait, G>(
    common: &Common<'_, T, R, G>,
    side: u32,
    hand: &mut Hand<T>,
) -> Step
    requires free { IsFree common.now.lock.now hand.old }
    requires on { T.is_on common.now.shared.now common.now.lock.now.name }
    requires side { side < 2 }
    ensures stays { Stays common.now.lock.now hand.old hand.new }
    ensures came { CameOf T.name common.now.lock.now (T.side_came side) result }
{
    let mut ends = take(common, hand);
    let step = ends.recycle(common.shared, side);
    common.lock.unlock(hand, ends);
    step
}

/// Looks whether both drivers have told that they have no further packet.
fn look<T: Lanes, R: Wait, G>(common: &Common<'_, T, R, G>, hand: &mut Hand<T>) -> bool
    requires free { IsFree common.now.lock.now hand.old }
    requires on { T.is_on common.now.shared.now common.now.lock.now.name }
    ensures stays { Stays common.now.lock.now hand.old hand.new }
    ensures told { CameOf T.name common.now.lock.now T.marks_told result }
{
    let mut ends = take(common, hand);
    let told = ends.look(common.shared);
    common.lock.unlock(hand, ends);
    told
}

/// Visits the lanes of a share, and gives the drivers' tokens behind each from which something moved.
fn visit_share<T: Lanes, R: Wait, G>(
    common: &Common<'_, T, R, G>,
    share: Share,
    hand: &mut Hand<T>,
) -> Came
    requires free { IsFree common.now.lock.now hand.old }
    requires on { T.is_on common.now.shared.now common.now.lock.now.name }
    requires lanes { share.lanes ≡ T.lanes_in common.now.lock.now.name }
    ensures stays { Stays common.now.lock.now hand.old hand.new }
    ensures came { WereVisited T.name common.now.lock.now T.lane_came share share.lanes result }
{
    let mut came = Came::Idle;
    for lane in 0..share.lanes {
        if !share.has(lane) {
            continue;
        }
        let step = visit(common, lane, hand);
        if let Step::Moved = step {
            common.wakers.wake();
        }
        came = came.and(Came::of(step));
    }
    came
}

/// Visits both sides, and gives the drivers' tokens where frames may have gone back: also where a FILL ring had too little room, since
/// another may have had some before.
fn visit_sides<T: Lanes, R: Wait, G>(common: &Common<'_, T, R, G>, hand: &mut Hand<T>) -> Came
    requires free { IsFree common.now.lock.now hand.old }
    requires on { T.is_on common.now.shared.now common.now.lock.now.name }
    ensures stays { Stays common.now.lock.now hand.old hand.new }
    ensures came { WereBothVisited T.name common.now.lock.now T.side_came result }
{
    let first = Came::of(recycle(common, 0, hand));
    let second = Came::of(recycle(common, 1, hand));
    let came = first.and(second);
    match came {
        Came::Idle => {}
        Came::Full | Came::Moved => common.wakers.wake(),
    }
    came
}

/// A turn of a hand. It has ended where both drivers had told that they have no further packet as the turn began, and each of its
/// lanes was empty; else it visits both sides, and looks whether more comes.
fn turn<T: Lanes, R: Wait, G>(
    common: &Common<'_, T, R, G>,
    share: Share,
    told: bool,
    hand: &mut Hand<T>,
) -> HandTurn
    requires free { IsFree common.now.lock.now hand.old }
    requires on { T.is_on common.now.shared.now common.now.lock.now.name }
    requires lanes { share.lanes ≡ T.lanes_in common.now.lock.now.name }
    ensures stays { Stays common.now.lock.now hand.old hand.new }
    ensures came { IsHandTurn T.name common.now.lock.now T.lane_came T.side_came T.marks_told share told result }
{
    let lanes = visit_share(common, share, hand);
    if told && let Came::Idle = lanes {
        return HandTurn::Over;
    }
    let sides = visit_sides(common, hand);
    HandTurn::GoesOn {
        told: look(common, hand),
        came: lanes.and(sides),
    }
}

/// Runs a hand to its end. It pauses behind a turn that moved nothing, also where it found a ring full.
pub(crate) fn run<T: Lanes, R: Wait, G: Gate>(
    common: &Common<'_, T, R, G>,
    share: Share,
    hand: Hand<T>,
) -> Hand<T>
    requires free { IsFree common.now.lock.now hand }
    requires on { T.is_on common.now.shared.now common.now.lock.now.name }
    requires lanes { share.lanes ≡ T.lanes_in common.now.lock.now.name }
    ensures stays { Stays common.now.lock.now hand result }
    ensures ended { HasEnded T.name common.now.lock.now T.lane_came T.marks_told share }
{
    let mut hand = hand;
    let number = share.base.saturating_add(share.first);
    let mut pauses = Pauses::shared();
    let mut told = false;
    let mut count = 0u64;
    for _ in common.rt.forever() {
        common.gate.enter(number, count);
        count = count.saturating_add(1);
        match turn(common, share, told, &mut hand) {
            HandTurn::Over => return hand,
            HandTurn::GoesOn { told: now, came } => {
                told = now;
                rest_behind(common.rt, came, &mut pauses);
            }
        }
    }
    unreachable!()
}

/// Pauses where nothing moved, and begins anew where something did.
fn rest_behind<R: Wait>(rt: &R, came: Came, pauses: &mut Pauses) {
    match came {
        Came::Moved => pauses.reset(),
        Came::Full | Came::Idle => pauses.pause(rt),
    }
}
