//! Frames that move one at a time from one ring to the next.
ghost use Rattle.std.specs.Prelude.{◌≡◌};
ghost use Rattle.xsk_rings.specs.Rounds.{Rests};

use crate::going::{Tally, make, peek, reserve};
use xsk_model::{Call, Ring};
use xsk_rings::CheckedPass;
use xsk_table::Shared;
use xsk_umem::{Batch, Frame, Item, XdpDesc};

/// The bytes of a frame.
const CHUNK: u32 = 2048;

/// Which way a caller moves frames.
#[derive(Clone, Copy)]
pub(crate) enum Way {
    /// The receiving driver's: from FILL to RX.
    There,
    /// The application's: from RX to FILL.
    Back,
    /// The application's: from RX to the other port's TX.
    Over,
    /// The sending driver's: from TX to COMPLETION.
    Out,
    /// The application's: from COMPLETION to FILL.
    Home,
}

impl Way {
    fn source(self) -> Ring {
        match self {
            Way::There => Ring::Fill(0),
            Way::Back | Way::Over => Ring::Rx(0),
            Way::Out => Ring::Tx(1),
            Way::Home => Ring::Comp(1),
        }
    }

    fn sink(self) -> Ring {
        match self {
            Way::There => Ring::Rx(0),
            Way::Back | Way::Home => Ring::Fill(0),
            Way::Over => Ring::Tx(1),
            Way::Out => Ring::Comp(1),
        }
    }
}

/// The byte at a place of a frame that was received in a round.
fn byte_at(number: u32, round: u32, at: u32) -> u8 {
    let at = u64::from(at);
    ((u64::from(number) * 31 + u64::from(round) * 13 + at * 7 + at / 256) % 251) as u8
}

/// The bytes of a frame that was received in a round, all of which are its own.
fn bytes_of(number: u32, round: u32) -> [u8; 2048] {
    let mut bytes = [0u8; 2048];
    for at in 0..CHUNK {
        bytes[at as usize] = byte_at(number, round, at);
    }
    bytes
}

/// Whether a frame has the bytes with which it was received in a round.
pub(crate) fn is_written(frame: &Frame, round: u32) -> bool {
    frame.bytes() == bytes_of(frame.number(), round).as_slice()
}

fn desc_on(number: u32, offset: u32, len: u32) -> XdpDesc {
    XdpDesc {
        addr: u64::from(number) * u64::from(CHUNK) + u64::from(offset),
        len,
        options: 0,
    }
}

/// Makes of an item a packet of the round. False where it has no frame of this size.
fn receive(item: &mut Item, round: u32) -> bool {
    let Some(frame) = &mut item.frame else {
        return false;
    };
    if frame.bytes().len() != 2048 {
        return false;
    }
    let number = frame.number();
    frame.fill(0, bytes_of(number, round).as_slice());
    item.desc = desc_on(number, 256, 60);
    true
}

/// Makes of the item of a packet that was received in the round the address so far behind the start of its frame. False where
/// not all bytes are as they were received.
fn hand_back(item: &mut Item, round: u32, offset: u32) -> bool {
    let Some(frame) = &item.frame else {
        return false;
    };
    let number = frame.number();
    let written = is_written(frame, round);
    let found = item.desc;
    item.desc = desc_on(number, offset, 0);
    written && found == desc_on(number, 256, 60)
}

/// Makes of an item that was taken in a round what goes on. False where it isn't as it must be.
fn turn(way: Way, item: &mut Item, round: u32) -> bool {
    match way {
        Way::There => receive(item, round),
        Way::Back => hand_back(item, round, 0),
        Way::Out => hand_back(item, round, 256),
        Way::Over | Way::Home => true,
    }
}

/// Takes an item in a round, as it goes on.
fn take(
    shared: &Shared,
    pass: &mut CheckedPass,
    way: Way,
    round: u32,
    tally: &mut Tally,
) -> Option<Item>
    requires { Rests shared.now pass.old }
    ensures rests { Rests shared.now pass.new }
    ensures caller { pass.new.who ≡ pass.old.who }
{
    let mut item = peek(shared, pass, way.source(), tally)?;
    if turn(way, &mut item, round) {
        Some(item)
    } else {
        None
    }
}

/// Gives an item to the place that is reserved for it.
fn give(
    shared: &Shared,
    pass: &mut CheckedPass,
    ring: Ring,
    item: Item,
    tally: &mut Tally,
) -> Option<()>
    requires { Rests shared.now pass.old }
    ensures rests { Rests shared.now pass.new }
    ensures caller { pass.new.who ≡ pass.old.who }
{
    let mut items = Batch::new();
    items.push(item);
    make(shared, pass, Call::Submit(ring, items), tally)?;
    Some(())
}

/// Releases the place of an item and gives it to the next.
fn pass_on(
    shared: &Shared,
    pass: &mut CheckedPass,
    way: Way,
    item: Item,
    tally: &mut Tally,
) -> Option<()>
    requires { Rests shared.now pass.old }
    ensures rests { Rests shared.now pass.new }
    ensures caller { pass.new.who ≡ pass.old.who }
{
    make(shared, pass, Call::Release(way.source(), 1), tally)?;
    give(shared, pass, way.sink(), item, tally)
}

/// Moves one frame in a round.
pub(crate) fn move_one(
    shared: &Shared,
    pass: &mut CheckedPass,
    way: Way,
    round: u32,
    tally: &mut Tally,
) -> Option<()>
    requires { Rests shared.now pass.old }
    ensures rests { Rests shared.now pass.new }
    ensures caller { pass.new.who ≡ pass.old.who }
{
    reserve(shared, pass, way.sink(), tally)?;
    let item = take(shared, pass, way, round, tally)?;
    pass_on(shared, pass, way, item, tally)
}

/// Moves so many frames, in rounds from this one on.
pub(crate) fn move_all(
    shared: &Shared,
    pass: &mut CheckedPass,
    way: Way,
    first: u32,
    count: u32,
    tally: &mut Tally,
) -> Option<()>
    requires { Rests shared.now pass.old }
    ensures rests { Rests shared.now pass.new }
    ensures caller { pass.new.who ≡ pass.old.who }
{
    'rounds: for round in 0..count {
        move_one(shared, pass, way, first.wrapping_add(round), tally)?;
    }
    Some(())
}
