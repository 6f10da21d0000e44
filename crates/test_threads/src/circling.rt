//! Frames that go round through the four kinds of rings on three threads, marks that these set at their ends, and the end of
//! the table, whose passes have come back from threads.
ghost use Rattle.std.specs.Prelude.{◌≡◌, ◌<◌, [], ◌∷◌, get_or, length, slice_set, Some, None, IfSome};
ghost use Rattle.xsk_model.specs.Config.{callers_of};
ghost use Rattle.xsk_rings.specs.Rounds.{Rests};
ghost use Rattle.xsk_table.specs.Closing.{AreThere};

use crate::crew::{Crew, open};
use crate::going::{Tally, make, see};
use crate::moving::{Way, is_written, move_all, move_one};
use crate::tasks::{Task, do_three};
use std::alloc::Global;
use std::thread::Threads;
use xsk_model::{Call, Mark, Reply};
use xsk_rings::CheckedPass;
use xsk_table::{Passes, Shared};
use xsk_umem::{Frame, Frames};

/// How many frames each thread moves: as often each of those that go round.
const MOVES: u32 = 1_000;

/// The entries of each ring, which are the frames that go round.
const ENTRIES: u32 = 4;

/// How many packets the application brings to TX before it takes the first from COMPLETION.
const AHEAD: u32 = 2;

fn was_clear(reply: Reply) -> bool {
    matches!(reply, Reply::Old(0))
}

/// Sets a caller's own mark, which must be 0 before, and waits for another's.
fn tell_and_see(
    shared: &Shared,
    pass: &mut CheckedPass,
    own: Mark,
    other: Mark,
    tally: &mut Tally,
) -> Option<()>
    requires { Rests shared.now pass.old }
    ensures rests { Rests shared.now pass.new }
    ensures caller { pass.new.who ≡ pass.old.who }
{
    if !was_clear(make(shared, pass, Call::Swap(own, 1), tally)?) {
        return None;
    }
    see(shared, pass, other, tally)
}

/// Moves all frames from the one ring of a driver to the other, and then tells of its end, and waits for another's.
fn drive_all(
    shared: &Shared,
    pass: &mut CheckedPass,
    way: Way,
    own: Mark,
    other: Mark,
) -> Option<()>
    requires { Rests shared.now pass.old }
    ensures rests { Rests shared.now pass.new }
    ensures caller { pass.new.who ≡ pass.old.who }
{
    let mut tally = Tally::default();
    move_all(shared, pass, way, 0, MOVES, &mut tally)?;
    tell_and_see(shared, pass, own, other, &mut tally)
}

/// What the application does in a round: it brings a packet to TX, and a frame that was completed before to FILL.
fn serve_one(shared: &Shared, pass: &mut CheckedPass, round: u32, tally: &mut Tally) -> Option<()>
    requires { Rests shared.now pass.old }
    ensures rests { Rests shared.now pass.new }
    ensures caller { pass.new.who ≡ pass.old.who }
{
    if round < MOVES {
        move_one(shared, pass, Way::Over, round, tally)?;
    }
    match round.checked_sub(AHEAD) {
        Some(earlier) => move_one(shared, pass, Way::Home, earlier, tally),
        None => Some(()),
    }
}

/// The rounds of the application.
fn serve_all(shared: &Shared, pass: &mut CheckedPass) -> Option<()>
    requires { Rests shared.now pass.old }
    ensures rests { Rests shared.now pass.new }
    ensures caller { pass.new.who ≡ pass.old.who }
{
    let mut tally = Tally::default();
    'rounds: for round in 0..MOVES + AHEAD {
        serve_one(shared, pass, round, &mut tally)?;
    }
    tell_and_see(shared, pass, Mark::TxDone(0), Mark::Gone(1), &mut tally)
}

/// What a driver does, and whether it did all of it.
#[derive(Drop)]
struct Drive<'a> {
    shared: &'a Shared,
    pass: CheckedPass,
    way: Way,
    own: Mark,
    other: Mark,
    has_ended: bool,
}

impl Task for Drive<'_> {
    ghost use Rattle.std.specs.Prelude.{◌≡◌};
    ghost use Rattle.xsk_rings.specs.Rounds.{Rests};

    ghost is_ready = { λ d. Rests d.shared.now d.pass };

    ghost is_done = { λ before after. Rests before.shared.now after.pass × (after.pass.who ≡ before.pass.who) };

    fn run(&mut self) {
        let ended = drive_all(self.shared, &mut self.pass, self.way, self.own, self.other);
        self.has_ended = ended.is_some();
    }
}

/// What the application does, and whether it did all of it.
#[derive(Drop)]
struct Serve<'a> {
    shared: &'a Shared,
    pass: CheckedPass,
    has_ended: bool,
}

impl Task for Serve<'_> {
    ghost use Rattle.std.specs.Prelude.{◌≡◌};
    ghost use Rattle.xsk_rings.specs.Rounds.{Rests};

    ghost is_ready = { λ s. Rests s.shared.now s.pass };

    ghost is_done = { λ before after. Rests before.shared.now after.pass × (after.pass.who ≡ before.pass.who) };

    fn run(&mut self) {
        self.has_ended = serve_all(self.shared, &mut self.pass).is_some();
    }
}

/// Has all three callers make their rounds at once, and gives them back where each did all that it was to do.
fn run_at_once<R: Threads + Sync>(rt: &R, shared: &Shared, crew: Crew) -> Option<Crew>
    requires { Rests shared.now crew.receiver × Rests shared.now crew.sender × Rests shared.now crew.app }
    ensures rest { IfSome result (λ back. Rests shared.now back.receiver × Rests shared.now back.sender × Rests shared.now back.app) }
    ensures callers { IfSome result (λ back. (back.receiver.who ≡ crew.receiver.who) × (back.sender.who ≡ crew.sender.who) × (back.app.who ≡ crew.app.who)) }
{
    let Crew {
        receiver,
        sender,
        app,
    } = crew;
    let receive = Drive {
        shared,
        pass: receiver,
        way: Way::There,
        own: Mark::RxDone(0),
        other: Mark::TxDone(0),
        has_ended: false,
    };
    let send = Drive {
        shared,
        pass: sender,
        way: Way::Out,
        own: Mark::Gone(1),
        other: Mark::RxDone(0),
        has_ended: false,
    };
    let serve = Serve {
        shared,
        pass: app,
        has_ended: false,
    };
    let (receive, send, serve) = do_three(rt, receive, send, serve);
    let have_ended = receive.has_ended && send.has_ended && serve.has_ended;
    let crew = Crew {
        receiver: receive.pass,
        sender: send.pass,
        app: serve.pass,
    };
    if have_ended { Some(crew) } else { None }
}

/// Puts a pass back to its place.
fn put_back(passes: &mut Passes, pass: CheckedPass)
    requires place { (pass.who < length passes.old) × (get_or passes.old pass.who None ≡ None) }
    ensures { passes.new ≡ slice_set passes.old pass.who (Some pass) }
{
    passes.give(pass.into_pass());
}

/// Puts all passes back to their places.
fn put_all(shared: &Shared, passes: &mut Passes, crew: Crew)
    requires left { (callers_of shared.now.setup.config ≡ 3) × (passes.old ≡ None ∷ None ∷ None ∷ []) }
    requires rest { Rests shared.now crew.receiver × Rests shared.now crew.sender × Rests shared.now crew.app }
    requires callers { (crew.receiver.who ≡ 0) × (crew.sender.who ≡ 1) × (crew.app.who ≡ 2) }
    ensures { AreThere shared.now passes.new }
{
    let Crew {
        receiver,
        sender,
        app,
    } = crew;
    put_back(passes, receiver);
    put_back(passes, sender);
    put_back(passes, app);
}

/// The frames that stand in the rings of a table at its end, where each thread did all that it was to do.
fn frames_after<R: Threads + Sync>(rt: &R, alloc: Global, first: u32) -> Option<Frames> {
    let (shared, passes, crew) = open(alloc, ENTRIES, first)?;
    let mut passes = passes;
    let crew = run_at_once(rt, &shared, crew)?;
    put_all(&shared, &mut passes, crew);
    let (frames, _note) = shared.close(passes);
    Some(frames)
}

/// Whether a frame is what its last round left: those that went round have the bytes of that, and the other pool's are as
/// they were registered.
fn is_left(frame: &Frame) -> bool {
    let number = frame.number();
    if number < ENTRIES {
        is_written(frame, MOVES - ENTRIES + number)
    } else {
        frame.bytes().iter().all(|byte| *byte == 0)
    }
}

/// Whether the next frame has this number, and is what its last round left.
fn is_next_left(frames: &mut Frames, number: u32) -> bool {
    match frames.pop_front() {
        Some(frame) => frame.number() == number && is_left(&frame),
        None => false,
    }
}

/// Whether all frames stand in the rings, each once, by number, with their bytes.
fn are_left(frames: &mut Frames) -> bool {
    let count = frames.len();
    for number in 0..count {
        if !is_next_left(frames, number) {
            return false;
        }
    }
    count == 2 * ENTRIES
}

/// Whether all frames come back from three threads, over rings whose counts start at a number.
fn frames_come_back<R: Threads + Sync>(rt: &R, alloc: Global, first: u32) -> bool {
    match frames_after(rt, alloc, first) {
        Some(frames) => {
            let mut frames = frames;
            are_left(&mut frames)
        }
        None => false,
    }
}

#[test]
fn all_frames_come_back_from_three_threads(rt: HostRuntime) {
    assert!(rt; frames_come_back(&rt, rt.alloc(), 0));
    assert!(rt; frames_come_back(&rt, rt.alloc(), 4_294_967_293));
}
