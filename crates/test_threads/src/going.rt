//! Calls that a thread makes until they go on, each of them legal.
ghost use Rattle.std.specs.Prelude.{◌≡◌};
ghost use Rattle.xsk_rings.specs.Rounds.{Rests};

use std::thread;
use xsk_model::{Call, Mark, Reply, Ring};
use xsk_rings::{CheckedPass, RingCalls};
use xsk_table::Shared;
use xsk_umem::{Batch, Item};

/// How often a call is made again that found a ring full or empty.
pub(crate) const PATIENCE: u64 = 10_000_000_000;

/// What a caller did: its Reserves and Peeks, and how many of them found a ring full or empty.
#[derive(Clone, Copy, Default)]
pub(crate) struct Tally {
    pub(crate) asked: u32,
    pub(crate) waits: u32,
}

impl Tally {
    /// Counts a call by its reply.
    fn count(&mut self, reply: &Reply) {
        let (asked, waits) = match reply {
            Reply::Granted | Reply::Items(_) => (1, 0),
            Reply::Full(_) | Reply::Empty => (1, 1),
            Reply::Submitted | Reply::Released | Reply::Old(_) => (0, 0),
        };
        self.asked = self.asked.saturating_add(asked);
        self.waits = self.waits.saturating_add(waits);
    }
}

/// Makes a call. None where it isn't legal.
pub(crate) fn make(
    shared: &Shared,
    pass: &mut CheckedPass,
    call: Call,
    tally: &mut Tally,
) -> Option<Reply>
    requires { Rests shared.now pass.old }
    ensures rests { Rests shared.now pass.new }
    ensures caller { pass.new.who ≡ pass.old.who }
{
    let mut items = Batch::new();
    let ask = call.split(&mut items);
    if !pass.allows(shared, ask, &items) {
        return None;
    }
    let reply = pass.perform(shared, ask.joined(items));
    tally.count(&reply);
    Some(reply)
}

fn is_granted(reply: Reply) -> bool {
    matches!(reply, Reply::Granted)
}

fn is_set(reply: Reply) -> bool {
    matches!(reply, Reply::Old(1))
}

/// The first item of a reply.
fn first_of(reply: Reply) -> Option<Item> {
    match reply {
        Reply::Items(items) => {
            let mut items = items;
            items.pop_front()
        }
        _ => None,
    }
}

/// Reserves a place, and waits until one is free.
pub(crate) fn reserve(
    shared: &Shared,
    pass: &mut CheckedPass,
    ring: Ring,
    tally: &mut Tally,
) -> Option<()>
    requires { Rests shared.now pass.old }
    ensures rests { Rests shared.now pass.new }
    ensures caller { pass.new.who ≡ pass.old.who }
{
    'tries: for _ in 0..PATIENCE {
        if is_granted(make(shared, pass, Call::Reserve(ring, 1), tally)?) {
            return Some(());
        }
        thread::yield_now();
    }
    None
}

/// Takes an item, and waits until there is one.
pub(crate) fn peek(
    shared: &Shared,
    pass: &mut CheckedPass,
    ring: Ring,
    tally: &mut Tally,
) -> Option<Item>
    requires { Rests shared.now pass.old }
    ensures rests { Rests shared.now pass.new }
    ensures caller { pass.new.who ≡ pass.old.who }
{
    'tries: for _ in 0..PATIENCE {
        let found = first_of(make(shared, pass, Call::Peek(ring, 1), tally)?);
        if found.is_some() {
            return found;
        }
        thread::yield_now();
    }
    None
}

/// Waits until a mark is 1.
pub(crate) fn see(
    shared: &Shared,
    pass: &mut CheckedPass,
    mark: Mark,
    tally: &mut Tally,
) -> Option<()>
    requires { Rests shared.now pass.old }
    ensures rests { Rests shared.now pass.new }
    ensures caller { pass.new.who ≡ pass.old.who }
{
    'tries: for _ in 0..PATIENCE {
        if is_set(make(shared, pass, Call::Look(mark), tally)?) {
            return Some(());
        }
        thread::yield_now();
    }
    None
}
