//! Two threads that move descriptors one at a time, with their looks at the other side's count counted.
ghost use Rattle.xsk_rings.specs.Rounds.{Rests};

use std::thread;
use xsk_model::{Ask, Call, Reply, Ring};
use xsk_rings::{CheckedPass, RingCalls};
use xsk_table::Shared;
use xsk_umem::{Batch, Item, XdpDesc};

/// How often a call is made again that found a ring full or empty.
const PATIENCE: u64 = 1_000_000_000_000;

/// What a caller did: its Reserves and Peeks, how many of them found a ring full or empty, and its looks at the other side's
/// count.
#[derive(Clone, Copy)]
pub(crate) struct Counts {
    pub(crate) asked: u64,
    pub(crate) waits: u64,
    pub(crate) looks: u64,
}

impl Counts {
    /// Notes a call by its reply, and whether it looked.
    fn note(&mut self, reply: &Reply, looked: bool) {
        let (asked, waits) = match reply {
            Reply::Granted | Reply::Items(_) => (1, 0),
            Reply::Full(_) | Reply::Empty => (1, 1),
            Reply::Submitted | Reply::Released | Reply::Old(_) => (0, 0),
        };
        self.asked = self.asked.saturating_add(asked);
        self.waits = self.waits.saturating_add(waits);
        self.looks = self.looks.saturating_add(u64::from(looked));
    }
}

/// From which ring to which a caller moves descriptors, and what they tell there: so many bytes at an offset of the frame.
#[derive(Clone, Copy)]
pub(crate) struct Way {
    source: Ring,
    sink: Ring,
    offset: u32,
    len: u32,
}

/// The driver's.
pub(crate) const THERE: Way = Way {
    source: Ring::Fill(0),
    sink: Ring::Rx(0),
    offset: 256,
    len: 60,
};

/// The application's.
pub(crate) const BACK: Way = Way {
    source: Ring::Rx(0),
    sink: Ring::Fill(0),
    offset: 0,
    len: 0,
};

/// Makes a legal call. It is `None` for one that isn't legal.
fn makes(shared: &Shared, pass: &mut CheckedPass, call: Call, counts: &mut Counts) -> Option<Reply>
    requires { Rests shared.now pass.old }
    ensures { Rests shared.now pass.new }
{
    let mut items = Batch::new();
    let ask = call.split(&mut items);
    if !pass.allows(shared, ask, &items) {
        return None;
    }
    let looked = match ask {
        Ask::Reserve(..) | Ask::Peek(..) => !pass.covers(shared, ask),
        Ask::Submit(_) | Ask::Release(..) | Ask::Swap(..) | Ask::Look(_) => false,
    };
    let answer = pass.serve(shared, ask, &mut items);
    let reply = answer.joined(items);
    counts.note(&reply, looked);
    Some(reply)
}

/// Reserves a place, and waits until one is free.
fn gets_place(
    shared: &Shared,
    pass: &mut CheckedPass,
    ring: Ring,
    counts: &mut Counts,
) -> Option<()>
    requires { Rests shared.now pass.old }
    ensures { Rests shared.now pass.new }
{
    'tries: for _ in 0..PATIENCE {
        if let Reply::Granted = makes(shared, pass, Call::Reserve(ring, 1), counts)? {
            return Some(());
        }
        thread::yield_now();
    }
    None
}

/// Takes an item, and waits until there is one.
fn gets_item(
    shared: &Shared,
    pass: &mut CheckedPass,
    ring: Ring,
    counts: &mut Counts,
) -> Option<Batch>
    requires { Rests shared.now pass.old }
    ensures { Rests shared.now pass.new }
{
    'tries: for _ in 0..PATIENCE {
        if let Reply::Items(items) = makes(shared, pass, Call::Peek(ring, 1), counts)? {
            return Some(items);
        }
        thread::yield_now();
    }
    None
}

/// The item with what it tells on its way.
fn moved(items: Batch, way: Way) -> Option<Batch> {
    let mut items = items;
    let Item { frame, .. } = items.pop_front()?;
    let frame = frame?;
    let addr = u64::from(frame.number()) * 2048 + u64::from(way.offset);
    if !items.is_empty() {
        return None;
    }
    items.push(Item {
        frame: Some(frame),
        desc: XdpDesc {
            addr,
            len: way.len,
            options: 0,
        },
    });
    Some(items)
}

fn moves_one(shared: &Shared, pass: &mut CheckedPass, way: Way, counts: &mut Counts) -> Option<()>
    requires { Rests shared.now pass.old }
    ensures { Rests shared.now pass.new }
{
    gets_place(shared, pass, way.sink, counts)?;
    let items = gets_item(shared, pass, way.source, counts)?;
    makes(shared, pass, Call::Release(way.source, 1), counts)?;
    let items = moved(items, way)?;
    makes(shared, pass, Call::Submit(way.sink, items), counts)?;
    Some(())
}

/// Moves so many descriptors, one at a time, and tells what it counted.
pub(crate) fn counts_moves(
    shared: &Shared,
    pass: CheckedPass,
    way: Way,
    count: u32,
) -> Option<Counts>
    requires { Rests shared.now pass }
{
    let mut pass = pass;
    let mut counts = Counts {
        asked: 0,
        waits: 0,
        looks: 0,
    };
    'rounds: for _ in 0..count {
        moves_one(shared, &mut pass, way, &mut counts)?;
    }
    Some(counts)
}
