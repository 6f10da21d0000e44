//! The next turn of a resumed application, where every ring is full, or empty.
use crate::hand::{Hand, Worker};
use crate::texts::ring_parts;
use std::alloc::AllocError;
use std::fmt::Write;
use xsk_model::{Act, Call, Mark, Reply, Ring};

/// Writes the calls of the turn, up to its end.
pub(crate) fn write_calls<M: Worker>(
    hand: &mut Hand<M>,
    text: &mut String,
) -> Result<(), AllocError> {
    let start = text.len();
    for _ in 0..16 {
        let Act::Call(call) = hand.act() else {
            break;
        };
        tell(call, start, text)?;
        let Some(reply) = reply_to(call) else {
            break;
        };
        hand.goes(reply);
    }
    Ok(())
}

/// The reply that a call gets: None at the turn's end.
fn reply_to(call: &Call) -> Option<Reply> {
    match call {
        Call::Reserve(..) => Some(Reply::Full(0)),
        Call::Peek(..) => Some(Reply::Empty),
        _ => None,
    }
}

/// Writes a call behind those that were written since the text had this length. Of a mark it writes only that an end is looked at,
/// or told.
fn tell(call: &Call, start: usize, text: &mut String) -> Result<(), AllocError> {
    let gap = if text.len() == start { "" } else { ", " };
    match call {
        Call::Reserve(ring, count) => tell_ring(gap, "reserve", *ring, *count, text),
        Call::Peek(ring, count) => tell_ring(gap, "peek", *ring, *count, text),
        Call::Look(Mark::RxDone(pair)) => tell_look(gap, *pair, text),
        Call::Swap(Mark::TxDone(app), value) => tell_swap(gap, *app, *value, text),
        _ => Ok(()),
    }
}

fn tell_look(gap: &str, pair: u32, text: &mut String) -> Result<(), AllocError> {
    write!(text, "{gap}look rx_done.{pair}")
}

fn tell_swap(gap: &str, app: u32, value: u64, text: &mut String) -> Result<(), AllocError> {
    write!(text, "{gap}swap tx_done.{app} {value}")
}

fn tell_ring(
    gap: &str,
    verb: &str,
    ring: Ring,
    count: u32,
    text: &mut String,
) -> Result<(), AllocError> {
    let (name, index) = ring_parts(ring);
    write!(text, "{gap}{verb}{name}{index} {count}")
}
