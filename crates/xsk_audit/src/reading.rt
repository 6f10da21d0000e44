//! A line of a journal, read up to its reply.
ghost use Rattle.std.specs.Prelude.{◌≡◌, List, [], IfSome};
ghost use Rattle.xsk_model.specs.Asks.{HasAsked};
ghost use Rattle.xsk_umem.specs.declared.batch.Item.{Item as AnItem};
ghost use Rattle.xsk_audit.specs.Reading.{counted_at, items_at, asked_with, call_at, reserve_at, peek_at, release_at, look_at, swap_at, submit_at};
ghost use Rattle.xsk_audit.specs.Reading.{line_at};
ghost use Rattle.xsk_audit.specs.Views.{items_view, line_view};

use crate::number::{number, small};
use crate::words::{begins_item, desc, mark, ring, who, word};
use xsk_model::{Ask, Ring};
use xsk_umem::{Batch, Item};

/// What a line tells, but for its reply. The items of a Submit stand in a batch beside it, without frames.
#[derive(Clone, Copy)]
pub(crate) struct Reading {
    pub(crate) round: u64,
    pub(crate) who: u32,
    pub(crate) ask: Ask,
}

/// Reads a line, where there are so many pairs. The batch must be empty.
#[tactic(auto, unfolding(crate::specs::Reading::line_at))]
pub(crate) fn read_line(pairs: u32, line: &[u8], items: &mut Batch) -> Option<Reading>
    requires { items.old ≡ [] }
    ensures said { line_view result items.new ≡ line_at pairs line.now }
    ensures items { IfSome result (λ reading. HasAsked reading.ask items.new) }
{
    let (round, rest) = number(line)?;
    let rest = word(rest, b" ".as_slice())?;
    let (who, rest) = who(pairs, rest)?;
    let rest = word(rest, b" ".as_slice())?;
    let ask = ask(rest, items)?;
    Some(Reading { round, who, ask })
}

/// The call at the front of a text.
#[tactic(auto, unfolding(crate::specs::Reading::call_at))]
fn ask(text: &[u8], items: &mut Batch) -> Option<Ask>
    requires { items.old ≡ [] }
    ensures call { asked_with result items.new ≡ call_at text.now }
    ensures items { IfSome result (λ ask. HasAsked ask items.new) }
{
    if let Some(rest) = word(text, b"reserve ".as_slice()) {
        return reserve(rest);
    }
    if let Some(rest) = word(text, b"submit ".as_slice()) {
        return submit(rest, items);
    }
    if let Some(rest) = word(text, b"peek ".as_slice()) {
        return peek(rest);
    }
    if let Some(rest) = word(text, b"release ".as_slice()) {
        return release(rest);
    }
    if let Some(rest) = word(text, b"swap ".as_slice()) {
        return swap(rest);
    }
    let rest = word(text, b"look ".as_slice())?;
    look(rest)
}

fn reserve(text: &[u8]) -> Option<Ask>
    ensures call { (items : List AnItem) → asked_with result items ≡ reserve_at text.now }
    ensures items { IfSome result (λ ask. HasAsked ask []) }
{
    let (ring, count) = counted(text)?;
    Some(Ask::Reserve(ring, count))
}

fn peek(text: &[u8]) -> Option<Ask>
    ensures call { (items : List AnItem) → asked_with result items ≡ peek_at text.now }
    ensures items { IfSome result (λ ask. HasAsked ask []) }
{
    let (ring, count) = counted(text)?;
    Some(Ask::Peek(ring, count))
}

fn release(text: &[u8]) -> Option<Ask>
    ensures call { (items : List AnItem) → asked_with result items ≡ release_at text.now }
    ensures items { IfSome result (λ ask. HasAsked ask []) }
{
    let (ring, count) = counted(text)?;
    Some(Ask::Release(ring, count))
}

fn look(text: &[u8]) -> Option<Ask>
    ensures call { (items : List AnItem) → asked_with result items ≡ look_at text.now }
    ensures items { IfSome result (λ ask. HasAsked ask []) }
{
    let (mark, _rest) = mark(text)?;
    Some(Ask::Look(mark))
}

/// A ring and a number.
#[tactic(auto, unfolding(crate::specs::Reading::counted_at))]
fn counted(text: &[u8]) -> Option<(Ring, u32)>
    ensures { result ≡ counted_at text.now }
{
    let (ring, rest) = ring(text)?;
    let rest = word(rest, b" ".as_slice())?;
    let (count, _rest) = small(rest)?;
    Some((ring, count))
}

#[tactic(auto, unfolding(crate::specs::Reading::submit_at))]
fn submit(text: &[u8], items: &mut Batch) -> Option<Ask>
    requires { items.old ≡ [] }
    ensures call { asked_with result items.new ≡ submit_at text.now }
    ensures items { IfSome result (λ ask. HasAsked ask items.new) }
{
    let (ring, rest) = ring(text)?;
    if read_items(rest, items) {
        Some(Ask::Submit(ring))
    } else {
        None
    }
}

#[tactic(auto, unfolding(crate::specs::Reading::swap_at))]
fn swap(text: &[u8]) -> Option<Ask>
    ensures call { (items : List AnItem) → asked_with result items ≡ swap_at text.now }
    ensures items { IfSome result (λ ask. HasAsked ask []) }
{
    let (mark, rest) = mark(text)?;
    let rest = word(rest, b" ".as_slice())?;
    let (value, _rest) = number(rest)?;
    Some(Ask::Swap(mark, value))
}

/// Reads the items at the front of a text, if there are at most 32.
fn read_items(text: &[u8], items: &mut Batch) -> bool
    requires { items.old ≡ [] }
    ensures { items_view result items.new ≡ items_at 32 text.now }
{
    let mut rest = text;
    for _item in 0..32u32 {
        if !begins_item(rest) {
            return true;
        }
        let Some((desc, later)) = desc(&rest[1..]) else {
            return false;
        };
        items.push(Item { frame: None, desc });
        rest = later;
    }
    !begins_item(rest)
}
