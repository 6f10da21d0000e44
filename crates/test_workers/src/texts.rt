//! Calls and what came of packets, as they are printed. Calls have the form of the journal.

use crate::trouble::Trouble;
use std::fmt::Write;
use xsk_driver::Disposal;
use xsk_model::{Act, Call, Mark, Ring};
use xsk_umem::{Batch, PacketList};

/// What kind of ring it is, and its number.
pub(crate) fn ring_parts(ring: Ring) -> (&'static str, u32) {
    match ring {
        Ring::Fill(pair) => (" fill.", pair),
        Ring::Comp(pair) => (" comp.", pair),
        Ring::Rx(socket) => (" rx.", socket),
        Ring::Tx(socket) => (" tx.", socket),
    }
}

/// What kind of mark it is, and its first number.
fn mark_parts(mark: Mark) -> (&'static str, u32) {
    match mark {
        Mark::NeedFill(pair) => (" need.fill.", pair),
        Mark::NeedTx(socket) => (" need.tx.", socket),
        Mark::Kick(pair) => (" kick.", pair),
        Mark::RxDone(pair) => (" rxdone.", pair),
        Mark::Gone(pair) => (" gone.", pair),
        Mark::TxDone(app) => (" txdone.", app),
        Mark::Cell(port, _) => (" cell.", port),
        Mark::Closing(socket) => (" closing.", socket),
        Mark::Acked(socket) => (" acked.", socket),
        Mark::Bounced(pair) => (" bounced.", pair),
    }
}

fn tell_ring(verb: &str, ring: Ring, text: &mut String) -> Result<(), Trouble> {
    let (kind, number) = ring_parts(ring);
    text.push_str(verb)?;
    tell_number(kind, u64::from(number), text)
}

fn tell_mark(verb: &str, mark: Mark, text: &mut String) -> Result<(), Trouble> {
    let (kind, number) = mark_parts(mark);
    text.push_str(verb)?;
    tell_number(kind, u64::from(number), text)?;
    match mark {
        Mark::Cell(_, index) => tell_number(".", u64::from(index), text),
        _ => Ok(()),
    }
}

/// Tells a number behind what it is.
pub(crate) fn tell_number(before: &str, number: u64, text: &mut String) -> Result<(), Trouble> {
    write!(text, "{before}{number}")?;
    Ok(())
}

/// Tells a number behind what it is, and ends the line.
pub(crate) fn tell_last(before: &str, number: u64, text: &mut String) -> Result<(), Trouble> {
    tell_number(before, number, text)?;
    text.push('\n')?;
    Ok(())
}

/// Tells items, each behind a space.
pub(crate) fn tell_items(items: &Batch, text: &mut String) -> Result<(), Trouble> {
    for place in 0..items.len() {
        let desc = items.desc(place);
        write!(text, " {}:{}:{}", desc.addr, desc.len, desc.options)?;
    }
    Ok(())
}

fn tell_call(call: &Call, text: &mut String) -> Result<(), Trouble> {
    match call {
        Call::Reserve(ring, _) => tell_ring("reserve", *ring, text),
        Call::Submit(ring, _) => tell_ring("submit", *ring, text),
        Call::Peek(ring, _) => tell_ring("peek", *ring, text),
        Call::Release(ring, _) => tell_ring("release", *ring, text),
        Call::Swap(mark, _) => tell_mark("swap", *mark, text),
        Call::Look(mark) => tell_mark("look", *mark, text),
    }
}

/// Tells what a call carries.
fn tell_load(call: &Call, text: &mut String) -> Result<(), Trouble> {
    match call {
        Call::Reserve(_, count) | Call::Peek(_, count) | Call::Release(_, count) => {
            tell_number(" ", u64::from(*count), text)
        }
        Call::Submit(_, items) => tell_items(items, text),
        Call::Swap(_, value) => tell_number(" ", *value, text),
        Call::Look(_) => Ok(()),
    }
}

pub(crate) fn tell_act(act: &Act, text: &mut String) -> Result<(), Trouble> {
    let Act::Call(call) = act else {
        text.push_str("ended")?;
        return Ok(());
    };
    tell_call(call, text)?;
    tell_load(call, text)
}

fn disposal_name(disposal: Disposal) -> &'static str {
    match disposal {
        Disposal::Delivered(_) => " delivered",
        Disposal::NoFrames => " noframes",
        Disposal::RxFull => " rxfull",
        Disposal::TooLong => " toolong",
        Disposal::Runt => " runt",
        Disposal::Missed => " missed",
        Disposal::Passed => " passed",
        Disposal::Dropped => " dropped",
        Disposal::Bounced => " bounced",
    }
}

/// Tells a disposal behind a space.
pub(crate) fn tell_disposal(disposal: Disposal, text: &mut String) -> Result<(), Trouble> {
    text.push_str(disposal_name(disposal))?;
    match disposal {
        Disposal::Delivered(socket) => tell_number(".", u64::from(socket), text),
        _ => Ok(()),
    }
}

/// Tells the number of packets, and each behind a space.
pub(crate) fn tell_packets(list: &PacketList, text: &mut String) -> Result<(), Trouble> {
    tell_number("", u64::from(list.len()), text)?;
    for place in 0..list.len() {
        tell_bytes(list.get(place), text)?;
    }
    text.push('\n')?;
    Ok(())
}

/// Tells bytes as runs of the same: `07x60` are sixty times 7.
fn tell_bytes(bytes: &[u8], text: &mut String) -> Result<(), Trouble> {
    let mut last = 0;
    let mut count = 0u64;
    let mut before = ' ';
    for byte in bytes {
        if count > 0 && *byte != last {
            tell_same(before, last, count, text)?;
            before = ',';
            count = 0;
        }
        last = *byte;
        count = count.saturating_add(1);
    }
    tell_same(before, last, count, text)
}

fn tell_same(before: char, byte: u8, count: u64, text: &mut String) -> Result<(), Trouble> {
    write!(text, "{before}{byte:02x}x{count}")?;
    Ok(())
}
