//! The line of a call: its time, its thread, the place in the program, the call and its reply.
ghost use Rattle.std.specs.Prelude.{◌≡◌, [], IfOk, IfSome};
ghost use Rattle.xsk_recording.specs.Line.{line_at, call_at, other_at, reserve_at, free_at, submit_at, peek_at, shown_at, release_at, cancel_at, look_at, kick_at};

use crate::wakeup::Wakeup;
use crate::words::{answer, counted, is_end, is_ended, listed, stamp};
use std::alloc::Global;
use xsk_lines::{ring, small, word};
use xsk_model::Ring;
use xsk_side::{Call, Entries};
use xsk_umem::{OutOfMemory, XdpDesc};

/// What a line tells.
#[derive(Debug, Drop)]
pub(crate) enum Told {
    /// A call on a ring, with its reply.
    Judged(Call),
    /// A look at a need-wakeup flag, or a wake: any kernel may answer so.
    Aside(Wakeup),
}

/// What a line tells, and when.
#[derive(Debug, Drop)]
pub(crate) struct Timed {
    pub(crate) time: u64,
    pub(crate) told: Told,
}

/// Reads a line; none where it isn't of the form. The entries of its call take the memory of an empty list.
#[tactic(auto, unfolding(crate::specs::Line::line_at))]
pub(crate) fn line(
    alloc: Global,
    text: &[u8],
    spare: &mut Vec<XdpDesc>,
) -> Result<Option<Timed>, OutOfMemory>
    requires { spare.old.items ≡ [] }
    ensures told { IfOk result (λ read. read ≡ line_at text.now) }
    ensures empty { IfOk result (λ read. IfSome read (λ _. spare.new.items ≡ [])) }
{
    let Some((time, rest)) = stamp(text) else {
        return Ok(None);
    };
    let Some(told) = call(alloc, rest, spare)? else {
        return Ok(None);
    };
    Ok(Some(Timed { time, told }))
}

/// The call at the front of a text, which ends the line.
#[tactic(auto, unfolding(crate::specs::Line::call_at))]
fn call(alloc: Global, text: &[u8], spare: &mut Vec<XdpDesc>) -> Result<Option<Told>, OutOfMemory>
    requires { spare.old.items ≡ [] }
    ensures told { IfOk result (λ read. read ≡ call_at text.now) }
    ensures empty { IfOk result (λ read. IfSome read (λ _. spare.new.items ≡ [])) }
{
    if let Some(rest) = word(text, b"reserve ".as_slice()) {
        return Ok(reserve(rest));
    }
    if let Some(rest) = word(text, b"submit ".as_slice()) {
        return submit(alloc, rest, spare);
    }
    if let Some(rest) = word(text, b"peek ".as_slice()) {
        return peek(alloc, rest, spare);
    }
    if let Some(rest) = word(text, b"release ".as_slice()) {
        return Ok(release(rest));
    }
    if let Some(rest) = word(text, b"cancel ".as_slice()) {
        return Ok(cancel(rest));
    }
    Ok(other(text))
}

/// The calls that tell of counts and flags alone.
#[tactic(auto, unfolding(crate::specs::Line::other_at))]
fn other(text: &[u8]) -> Option<Told>
    ensures { result ≡ other_at text.now }
{
    if let Some(rest) = word(text, b"free ".as_slice()) {
        return free(rest);
    }
    if let Some(rest) = word(text, b"look ".as_slice()) {
        return look(rest);
    }
    let rest = word(text, b"kick ".as_slice())?;
    kick(rest)
}

#[tactic(auto, unfolding(crate::specs::Line::reserve_at))]
fn reserve(text: &[u8]) -> Option<Told>
    ensures { result ≡ reserve_at text.now }
{
    let ((ring, count), rest) = counted(text)?;
    let answer = answer(rest)?;
    Some(Told::Judged(Call::Reserve(ring, count, answer)))
}

#[tactic(auto, unfolding(crate::specs::Line::free_at))]
fn free(text: &[u8]) -> Option<Told>
    ensures { result ≡ free_at text.now }
{
    let ((ring, count), rest) = counted(text)?;
    let (places, rest) = small(rest)?;
    if is_end(rest) {
        Some(Told::Judged(Call::Free(ring, count, places)))
    } else {
        None
    }
}

#[tactic(auto, unfolding(crate::specs::Line::submit_at))]
fn submit(alloc: Global, text: &[u8], spare: &mut Vec<XdpDesc>) -> Result<Option<Told>, OutOfMemory>
    requires { spare.old.items ≡ [] }
    ensures told { IfOk result (λ read. read ≡ submit_at text.now) }
    ensures empty { IfOk result (λ read. IfSome read (λ _. spare.new.items ≡ [])) }
{
    let Some((ring, rest)) = ring(text) else {
        return Ok(None);
    };
    let Some((entries, rest)) = listed(alloc, rest, spare)? else {
        return Ok(None);
    };
    if !is_ended(rest, b" -> submitted".as_slice()) {
        return Ok(None);
    }
    Ok(Some(Told::Judged(Call::Submit(ring, entries))))
}

#[tactic(auto, unfolding(crate::specs::Line::peek_at))]
fn peek(alloc: Global, text: &[u8], spare: &mut Vec<XdpDesc>) -> Result<Option<Told>, OutOfMemory>
    requires { spare.old.items ≡ [] }
    ensures told { IfOk result (λ read. read ≡ peek_at text.now) }
    ensures empty { IfOk result (λ read. IfSome read (λ _. spare.new.items ≡ [])) }
{
    let Some(((ring, count), rest)) = counted(text) else {
        return Ok(None);
    };
    if let Some(rest) = word(rest, b"items".as_slice()) {
        return shown(alloc, ring, count, rest, spare);
    }
    if !is_ended(rest, b"empty".as_slice()) {
        return Ok(None);
    }
    let none = Entries::of_vec(Vec::new(alloc));
    Ok(Some(Told::Judged(Call::Peek(ring, count, none))))
}

/// The entries that a Peek shows.
fn shown(
    alloc: Global,
    ring: Ring,
    count: u32,
    text: &[u8],
    spare: &mut Vec<XdpDesc>,
) -> Result<Option<Told>, OutOfMemory>
    requires { spare.old.items ≡ [] }
    ensures told { IfOk result (λ read. read ≡ shown_at ring count text.now) }
    ensures empty { IfOk result (λ read. IfSome read (λ _. spare.new.items ≡ [])) }
{
    let Some((entries, rest)) = listed(alloc, text, spare)? else {
        return Ok(None);
    };
    if !is_end(rest) {
        return Ok(None);
    }
    Ok(Some(Told::Judged(Call::Peek(ring, count, entries))))
}

#[tactic(auto, unfolding(crate::specs::Line::release_at))]
fn release(text: &[u8]) -> Option<Told>
    ensures { result ≡ release_at text.now }
{
    let ((ring, count), rest) = counted(text)?;
    if is_ended(rest, b"released".as_slice()) {
        Some(Told::Judged(Call::Release(ring, count)))
    } else {
        None
    }
}

#[tactic(auto, unfolding(crate::specs::Line::cancel_at))]
fn cancel(text: &[u8]) -> Option<Told>
    ensures { result ≡ cancel_at text.now }
{
    let ((ring, count), rest) = counted(text)?;
    if is_ended(rest, b"cancelled".as_slice()) {
        Some(Told::Judged(Call::Cancel(ring, count)))
    } else {
        None
    }
}

#[tactic(auto, unfolding(crate::specs::Line::look_at))]
fn look(text: &[u8]) -> Option<Told>
    ensures { result ≡ look_at text.now }
{
    let (ring, rest) = ring(text)?;
    if is_ended(rest, b" -> 0".as_slice()) {
        return Some(Told::Aside(Wakeup::Look(ring, false)));
    }
    if is_ended(rest, b" -> 1".as_slice()) {
        return Some(Told::Aside(Wakeup::Look(ring, true)));
    }
    None
}

#[tactic(auto, unfolding(crate::specs::Line::kick_at))]
fn kick(text: &[u8]) -> Option<Told>
    ensures { result ≡ kick_at text.now }
{
    let (ring, rest) = ring(text)?;
    if is_ended(rest, b" -> 0".as_slice()) {
        Some(Told::Aside(Wakeup::Kick(ring)))
    } else {
        None
    }
}
