//! What a driver does by hand. Each call is made only where it is legal.
ghost use Rattle.xsk_rings.specs.Rounds.{Rests};

use std::alloc::AllocError;
use std::fmt::Write;
use xsk_model::{Call, Mark, Reply, Ring};
use xsk_rings::{CheckedPass, RingCalls};
use xsk_table::Shared;
use xsk_umem::{Batch, Frame, Item, XdpDesc};

/// The bytes of a chunk, and those before a packet's data.
const CHUNK: u64 = 2048;

const BEFORE: u32 = 256;

/// One who makes calls.
pub(crate) trait Caller: Drop {
    /// Makes a call. None where it isn't legal.
    fn make(&mut self, call: Call) -> Option<Reply>;
}

/// The driver of a table that has this pass.
#[derive(Drop)]
pub(crate) struct Driver<'a> {
    shared: &'a Shared,
    pass: CheckedPass,
    ghost rests: { Rests shared.now pass },
}

impl<'a> Driver<'a> {
    pub(crate) fn new(shared: &'a Shared, pass: CheckedPass) -> Driver<'a>
        requires { Rests shared.now pass }
    {
        Driver { shared, pass }
    }
}

impl Caller for Driver<'_> {
    fn make(&mut self, call: Call) -> Option<Reply> {
        make(self.shared, &mut self.pass, call)
    }
}

/// Makes a call. None where it isn't legal.
fn make(shared: &Shared, pass: &mut CheckedPass, call: Call) -> Option<Reply>
    requires { Rests shared.now pass.old }
    ensures { Rests shared.now pass.new }
{
    let mut items = Batch::new();
    let ask = call.split(&mut items);
    if !pass.allows(shared, ask, &items) {
        return None;
    }
    let answer = pass.serve(shared, ask, &mut items);
    Some(answer.joined(items))
}

fn item_on(frame: Frame, offset: u32, len: u32) -> Item {
    let addr = u64::from(frame.number()) * CHUNK + u64::from(offset);
    Item {
        frame: Some(frame),
        desc: XdpDesc {
            addr,
            len,
            options: 0,
        },
    }
}

/// Asks for a place of a ring. None where there is none, or the call isn't legal.
fn reserve<C: Caller>(caller: &mut C, ring: Ring) -> Option<()> {
    match caller.make(Call::Reserve(ring, 1))? {
        Reply::Granted => Some(()),
        _ => None,
    }
}

/// Submits an item. None where that isn't legal.
fn submit<C: Caller>(caller: &mut C, ring: Ring, item: Item) -> Option<()> {
    let mut items = Batch::new();
    items.push(item);
    caller.make(Call::Submit(ring, items))?;
    Some(())
}

/// The next item of a ring. None where there is none, or the call isn't legal.
fn peek<C: Caller>(caller: &mut C, ring: Ring) -> Option<Item> {
    match caller.make(Call::Peek(ring, 1))? {
        Reply::Items(items) => first_of(items),
        _ => None,
    }
}

fn first_of(items: Batch) -> Option<Item> {
    let mut items = items;
    items.pop_front()
}

/// Gives back so many places of a ring. None where that isn't legal.
fn release<C: Caller>(caller: &mut C, ring: Ring, count: u32) -> Option<()> {
    caller.make(Call::Release(ring, count))?;
    Some(())
}

/// Receives a packet of so many bytes into the next frame of FILL.
pub(crate) fn receive<C: Caller>(caller: &mut C, pair: u32, len: u32) -> Option<()> {
    reserve(caller, Ring::Rx(pair))?;
    let frame = peek(caller, Ring::Fill(pair))?.frame?;
    submit(caller, Ring::Rx(pair), item_on(frame, BEFORE, len))
}

/// Gives back so many places of FILL.
pub(crate) fn free<C: Caller>(caller: &mut C, pair: u32, count: u32) -> Option<()> {
    release(caller, Ring::Fill(pair), count)
}

/// Takes the next packet of the TX ring.
fn take_packet<C: Caller>(caller: &mut C, pair: u32) -> Option<Item> {
    let item = peek(caller, Ring::Tx(pair))?;
    release(caller, Ring::Tx(pair), 1)?;
    Some(item)
}

/// Tells that a packet's frame was sent.
fn complete<C: Caller>(caller: &mut C, pair: u32, frame: Frame) -> Option<()> {
    reserve(caller, Ring::Comp(pair))?;
    submit(caller, Ring::Comp(pair), item_on(frame, BEFORE, 0))
}

/// Sends the next packet of the TX ring, and completes it. Gives its length.
fn send_one<C: Caller>(caller: &mut C, pair: u32) -> Option<u32> {
    let item = take_packet(caller, pair)?;
    let len = item.desc.len;
    complete(caller, pair, item.frame?)?;
    Some(len)
}

/// Sends what the TX ring has, and tells the lengths.
pub(crate) fn send<C: Caller>(
    caller: &mut C,
    pair: u32,
    text: &mut String,
) -> Result<(), AllocError> {
    for number in 0..8 {
        let Some(len) = send_one(caller, pair) else {
            break;
        };
        let gap = if number == 0 { "" } else { " " };
        write!(text, "{gap}{len}")?;
    }
    Ok(())
}

/// Swaps a mark. None where that isn't legal.
pub(crate) fn swap<C: Caller>(caller: &mut C, mark: Mark, value: u64) -> Option<u64> {
    match caller.make(Call::Swap(mark, value))? {
        Reply::Old(old) => Some(old),
        _ => None,
    }
}
