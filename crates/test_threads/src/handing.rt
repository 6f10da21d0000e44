//! Notes that two threads hand each other while both run: behind a meet no call has to wait.
ghost use Rattle.std.specs.Prelude.{◌≡◌, IfSome};
ghost use Rattle.xsk_rings.specs.Rounds.{Rests};
ghost use Rattle.xsk_lock.specs.Held.{Belongs, IsOff, new_hands};

use crate::crew::{Crew, open};
use crate::going::{PATIENCE, Tally};
use crate::moving::{Way, move_one};
use crate::tasks::{Task, do_two};
use std::alloc::Global;
use std::marker::Model;
use std::thread;
use std::thread::Threads;
use xsk_lock::{Hand, Lock, Named};
use xsk_rings::CheckedPass;
use xsk_table::{Note, Shared};

/// How many frames each thread moves.
const MOVES: u32 = 1_000;

/// The entries of each ring, which are the frames that stand in FILL at first.
const ENTRIES: u32 = 4;

/// A note of what a caller had seen when it had moved so many frames.
#[derive(Drop)]
struct Slip {
    note: Note,
    by_driver: bool,
    moved: u32,
}

/// The table of a slip's note, which is its name. No value of it is made.
pub struct Origin {
    pub note: Note,
}

impl Model for Origin {
    ghost use Rattle.atomic_table.specs.Seated.{TableId};

    ghost Value = { TableId };

    ghost view = { λ o. o.note.table };
}

impl Named for Slip {
    type Name = Origin;

    ghost name = { λ s. s.note.table };
}

/// Where two threads hand each other slips.
type Desk = Lock<Slip>;

/// Whether who moves frames this way is the driver, and not the application.
fn is_driver(way: Way) -> bool {
    matches!(way, Way::There)
}

/// Puts a slip of this caller in the place of the one that lies there, if the other thread isn't at it.
fn exchange(
    shared: &Shared,
    desk: &Desk,
    hand: &mut Hand<Slip>,
    pass: &mut CheckedPass,
    way: Way,
    moved: u32,
) -> Option<Slip>
    requires rests { Rests shared.now pass.old }
    requires belongs { Belongs desk.now hand.old }
    requires off { IsOff hand.old }
    requires table { desk.now.name ≡ shared.now.table }
    ensures rests { Rests shared.now pass.new }
    ensures belongs { Belongs desk.now hand.new }
    ensures off { IsOff hand.new }
    ensures table { IfSome result (λ slip. slip.note.table ≡ shared.now.table) }
{
    let slip = desk.try_lock(hand)?;
    let note = pass.note(shared);
    let by_driver = is_driver(way);
    desk.unlock(
        hand,
        Slip {
            note,
            by_driver,
            moved,
        },
    );
    Some(slip)
}

/// Meets what the other has seen, if the slip is the other's, and tells how many frames it had moved.
fn meet(shared: &Shared, pass: &mut CheckedPass, way: Way, slip: Slip) -> u32
    requires rests { Rests shared.now pass.old }
    requires table { slip.note.table ≡ shared.now.table }
    ensures { Rests shared.now pass.new }
{
    if slip.by_driver == is_driver(way) {
        return 0;
    }
    let Slip { note, moved, .. } = slip;
    pass.meet(shared, note);
    moved
}

/// Hands the other a slip, meets what the slip of the other shows, if one lay there, and tells how many frames that had moved.
fn exchange_and_meet(
    shared: &Shared,
    desk: &Desk,
    hand: &mut Hand<Slip>,
    pass: &mut CheckedPass,
    way: Way,
    moved: u32,
) -> u32
    requires rests { Rests shared.now pass.old }
    requires belongs { Belongs desk.now hand.old }
    requires off { IsOff hand.old }
    requires table { desk.now.name ≡ shared.now.table }
    ensures rests { Rests shared.now pass.new }
    ensures belongs { Belongs desk.now hand.new }
    ensures off { IsOff hand.new }
{
    match exchange(shared, desk, hand, pass, way, moved) {
        Some(slip) => meet(shared, pass, way, slip),
        None => 0,
    }
}

/// Waits until the other has moved so many frames, at least one, and has met it, and tells how many they are.
fn await_other(
    shared: &Shared,
    desk: &Desk,
    hand: &mut Hand<Slip>,
    pass: &mut CheckedPass,
    way: Way,
    moved: u32,
    least: u32,
) -> Option<u32>
    requires rests { Rests shared.now pass.old }
    requires belongs { Belongs desk.now hand.old }
    requires off { IsOff hand.old }
    requires table { desk.now.name ≡ shared.now.table }
    ensures rests { Rests shared.now pass.new }
    ensures belongs { Belongs desk.now hand.new }
    ensures off { IsOff hand.new }
{
    'tries: for _ in 0..PATIENCE {
        let found = exchange_and_meet(shared, desk, hand, pass, way, moved);
        if found >= least {
            return Some(found);
        }
        thread::yield_now();
    }
    None
}

/// Moves all frames, each once a meet has shown that it is there. So many are there at first.
fn move_shown(
    shared: &Shared,
    desk: &Desk,
    hand: &mut Hand<Slip>,
    pass: &mut CheckedPass,
    way: Way,
    tally: &mut Tally,
) -> Option<()>
    requires rests { Rests shared.now pass.old }
    requires belongs { Belongs desk.now hand.old }
    requires off { IsOff hand.old }
    requires table { desk.now.name ≡ shared.now.table }
    ensures rests { Rests shared.now pass.new }
    ensures belongs { Belongs desk.now hand.new }
    ensures off { IsOff hand.new }
{
    let first = if is_driver(way) { ENTRIES } else { 0 };
    let mut shown = 0u32;
    'rounds: for round in 0..MOVES {
        let least = (round + 1).saturating_sub(first);
        if shown < least {
            shown = await_other(shared, desk, hand, pass, way, round, least)?;
        }
        move_one(shared, pass, way, round, tally)?;
    }
    Some(())
}

/// Tells the other of the last frame.
fn tell_last(
    shared: &Shared,
    desk: &Desk,
    hand: &mut Hand<Slip>,
    pass: &mut CheckedPass,
    way: Way,
) -> Option<()>
    requires rests { Rests shared.now pass.old }
    requires belongs { Belongs desk.now hand.old }
    requires off { IsOff hand.old }
    requires table { desk.now.name ≡ shared.now.table }
{
    'tries: for _ in 0..PATIENCE {
        let slip = exchange(shared, desk, hand, pass, way, MOVES);
        if slip.is_some() {
            return Some(());
        }
        thread::yield_now();
    }
    None
}

/// Moves all frames that are shown, and tells the other of the last.
fn move_and_tell(
    shared: &Shared,
    desk: &Desk,
    hand: &mut Hand<Slip>,
    pass: &mut CheckedPass,
    way: Way,
    tally: &mut Tally,
) -> Option<()>
    requires rests { Rests shared.now pass.old }
    requires belongs { Belongs desk.now hand.old }
    requires off { IsOff hand.old }
    requires table { desk.now.name ≡ shared.now.table }
{
    move_shown(shared, desk, hand, pass, way, tally)?;
    tell_last(shared, desk, hand, pass, way)
}

/// A caller's moves with notes, and what it counted.
#[derive(Drop)]
struct Moves<'a> {
    shared: &'a Shared,
    desk: &'a Desk,
    hand: Hand<Slip>,
    pass: CheckedPass,
    way: Way,
    tally: Tally,
    has_moved: bool,
}

impl Task for Moves<'_> {
    ghost use Rattle.std.specs.Prelude.{◌≡◌};
    ghost use Rattle.xsk_rings.specs.Rounds.{Rests};
    ghost use Rattle.xsk_lock.specs.Held.{Belongs, IsOff};

    ghost is_ready = { λ m. Rests m.shared.now m.pass × Belongs m.desk.now m.hand × IsOff m.hand × (m.desk.now.name ≡ m.shared.now.table) };

    ghost is_done = { λ _ _. Unit {0} };

    fn run(&mut self) {
        let moved = move_and_tell(
            self.shared,
            self.desk,
            &mut self.hand,
            &mut self.pass,
            self.way,
            &mut self.tally,
        );
        self.has_moved = moved.is_some();
    }
}

/// The moves of a caller that has made none.
fn new_moves<'a>(
    shared: &'a Shared,
    desk: &'a Desk,
    hand: Hand<Slip>,
    pass: CheckedPass,
    way: Way,
) -> Moves<'a>
    requires rests { Rests shared.now pass }
    requires belongs { Belongs desk.now hand }
    requires off { IsOff hand }
    requires table { desk.now.name ≡ shared.now.table }
    ensures rests { Rests result.shared.now result.pass }
    ensures belongs { Belongs result.desk.now result.hand × IsOff result.hand }
    ensures table { result.desk.now.name ≡ result.shared.now.table }
{
    Moves {
        shared,
        desk,
        hand,
        pass,
        way,
        tally: Tally::default(),
        has_moved: false,
    }
}

/// Whether a caller has moved all, and each of its calls went on at once.
fn never_waited(moves: &Moves<'_>) -> bool {
    moves.has_moved && moves.tally.asked == 2 * MOVES && moves.tally.waits == 0
}

/// Both hands of a desk.
fn both_hands(desk: &Desk, hands: Vec<Hand<Slip>>) -> Option<(Hand<Slip>, Hand<Slip>)>
    requires hands { hands.items ≡ new_hands desk.now }
    requires two { desk.now.hands ≡ 2 }
    ensures belongs { IfSome result (λ both. Belongs desk.now both.0 × Belongs desk.now both.1) }
    ensures off { IfSome result (λ both. IsOff both.0 × IsOff both.1) }
{
    let mut hands = hands;
    let second = hands.pop()?;
    let first = hands.pop()?;
    Some((first, second))
}

/// The driver's slip before its first move.
fn first_slip(shared: &Shared, driver: &mut CheckedPass) -> Slip
    requires { Rests shared.now driver.old }
    ensures rests { Rests shared.now driver.new }
    ensures table { result.note.table ≡ shared.now.table }
{
    Slip {
        note: driver.note(shared),
        by_driver: true,
        moved: 0,
    }
}

/// A desk with two hands, on which a slip lies.
fn open_desk(alloc: Global, slip: Slip) -> Option<(Desk, Vec<Hand<Slip>>)>
    ensures name { IfSome result (λ made. made.0.name ≡ slip.note.table) }
    ensures hands { IfSome result (λ made. (made.1.items ≡ new_hands made.0) × (made.0.hands ≡ 2)) }
{
    match Lock::new(alloc, slip, 2) {
        Ok(made) => Some(made),
        Err(_) => None,
    }
}

/// Has both callers move all at once, by a desk of theirs. Whether both have, and neither waited.
fn move_by_desk<R: Threads + Sync>(
    rt: &R,
    shared: &Shared,
    desk: &Desk,
    hands: Vec<Hand<Slip>>,
    driver: CheckedPass,
    app: CheckedPass,
) -> bool
    requires rests { Rests shared.now driver × Rests shared.now app }
    requires hands { (hands.items ≡ new_hands desk.now) × (desk.now.hands ≡ 2) }
    requires table { desk.now.name ≡ shared.now.table }
{
    let Some((first, second)) = both_hands(desk, hands) else {
        return false;
    };
    let there = new_moves(shared, desk, first, driver, Way::There);
    let back = new_moves(shared, desk, second, app, Way::Back);
    let (there, back) = do_two(rt, there, back);
    never_waited(&there) && never_waited(&back)
}

/// The same with a desk of their own.
fn move_with_notes<R: Threads + Sync>(
    rt: &R,
    alloc: Global,
    shared: &Shared,
    driver: CheckedPass,
    app: CheckedPass,
) -> bool
    requires { Rests shared.now driver × Rests shared.now app }
{
    let mut driver = driver;
    let slip = first_slip(shared, &mut driver);
    match open_desk(alloc, slip) {
        Some((desk, hands)) => move_by_desk(rt, shared, &desk, hands, driver, app),
        None => false,
    }
}

/// Whether two threads that hand each other notes never wait, over rings whose counts start at a number.
fn notes_show_what_is_there<R: Threads + Sync>(rt: &R, alloc: Global, first: u32) -> bool {
    let Some((shared, _passes, crew)) = open(alloc, ENTRIES, first) else {
        return false;
    };
    let Crew { receiver, app, .. } = crew;
    move_with_notes(rt, alloc, &shared, receiver, app)
}

/// A driver's note shows the application that items stand in RX, and the application's that frames stand in FILL and that RX
/// has room. So no Peek is Empty and no Reserve Full, though both threads run.
#[test]
fn what_a_note_of_a_live_thread_shows_is_there(rt: HostRuntime) {
    assert!(rt; notes_show_what_is_there(&rt, rt.alloc(), 0));
    assert!(rt; notes_show_what_is_there(&rt, rt.alloc(), 4_294_967_293));
}
