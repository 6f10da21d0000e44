//! The calls that C makes; `c/include/xsk_c.h` declares them. Each answers a number of `answers.rt`. No export does more
//! than read its arguments, call, and tell: what it does is said in `specs/Live` and `specs/Calls`.
ghost use Rattle.std.specs.Prelude.{◌≡◌, true, false};
ghost use Rattle.xsk_c.specs.Calls.{Makes, Submits, Peeks, geometry_of};
ghost use Rattle.xsk_c.specs.Journal.{TellsLog};
ghost use Rattle.xsk_c.specs.Live.{OnLive, OnCall, OnRing};
ghost use Rattle.xsk_c.specs.Opened.{Opens};
ghost use Rattle.xsk_c.specs.Purse.{ReadsFrom, Writes, frame_at};
ghost use Rattle.xsk_c.specs.Reading.{TellsCount, TellsPacket, TellsStatistics};
ghost use Rattle.xsk_c.specs.Rounds.{HasRound, HasRounds};
ghost use Rattle.xsk_c.specs.Texts.{TellsText, text_in};

use crate::answers::{DONE, LIVE, NO_MEMORY, NOT_LIVE};
use crate::handle::Handle;
use crate::items::{Asked, Desc};
use crate::opening::{Wanted, number_of_refusal, open};
use crate::reading::Statistics;
use crate::texts::tell_why;
use std::alloc::Global;

/// Opens a bench over captures, which stand one behind the other in a text; `ends` tells where each ends. The handle must not be live.
#[unsafe(no_mangle)]
pub extern "C" fn xsk_c_open(
    alloc: Global,
    handle: &mut Handle,
    wanted: &Wanted,
    text: &[u8],
    ends: &[u64],
) -> u32
    ensures { Opens handle.old handle.new wanted.now text.now ends.now result }
{
    if let Some(state) = handle.take(alloc) {
        handle.put(state);
        return LIVE;
    }
    let state = match open(alloc, wanted, text, ends) {
        Ok(state) => state,
        Err(why) => return number_of_refusal(why),
    };
    let Ok(state) = Box::new(alloc, state) else {
        return NO_MEMORY;
    };
    handle.put(state);
    DONE
}

/// Lets a bench go.
#[unsafe(no_mangle)]
pub extern "C" fn xsk_c_close(alloc: Global, handle: &mut Handle) -> u32
    ensures shut { handle.new.live ≡ false }
    ensures done { handle.old.live ≡ true → result ≡ DONE }
    ensures none { handle.old.live ≡ false → (result ≡ NOT_LIVE) × (handle.new ≡ handle.old) }
{
    match handle.take(alloc) {
        Some(state) => {
            drop(state);
            DONE
        }
        None => NOT_LIVE,
    }
}

/// Makes a call that moves no items. How many places are free is told where they are too few, and of a mark what it was.
#[unsafe(no_mangle)]
pub extern "C" fn xsk_c_call(
    alloc: Global,
    handle: &mut Handle,
    app: u32,
    asked: &Asked,
    told: &mut u64,
) -> u32
    ensures { OnLive handle.old handle.new result (told.new ≡ told.old) (λ old new. OnCall asked.now old new result (told.new ≡ told.old) (λ call. Makes old new app call told.old told.new result)) }
{
    let Some(mut state) = handle.take(alloc) else {
        return NOT_LIVE;
    };
    let answer = state.make(app, asked, told);
    handle.put(state);
    answer
}

/// Submits items, each with the frame of its address.
#[unsafe(no_mangle)]
pub extern "C" fn xsk_c_submit(
    alloc: Global,
    handle: &mut Handle,
    app: u32,
    kind: u32,
    ring: u32,
    descs: &[Desc],
) -> u32
    ensures { OnLive handle.old handle.new result Unit (λ old new. OnRing kind ring old new result Unit (λ r. Submits old new app r descs.now result)) }
{
    let Some(mut state) = handle.take(alloc) else {
        return NOT_LIVE;
    };
    let answer = state.submit(app, kind, ring, descs);
    handle.put(state);
    answer
}

/// Takes items, as many as there are descriptors. The application has their frames then.
#[unsafe(no_mangle)]
pub extern "C" fn xsk_c_peek(
    alloc: Global,
    handle: &mut Handle,
    app: u32,
    kind: u32,
    ring: u32,
    descs: &mut [Desc],
    count: &mut u32,
) -> u32
    ensures { OnLive handle.old handle.new result ((descs.new ≡ descs.old) × (count.new ≡ count.old)) (λ old new. OnRing kind ring old new result ((descs.new ≡ descs.old) × (count.new ≡ count.old)) (λ r. Peeks old new app r descs.old descs.new count.old count.new result)) }
{
    let Some(mut state) = handle.take(alloc) else {
        return NOT_LIVE;
    };
    let answer = state.peek(app, kind, ring, descs, count);
    handle.put(state);
    answer
}

/// Writes bytes to the frame of an address, from the address on. An application must have it.
#[unsafe(no_mangle)]
pub extern "C" fn xsk_c_write(alloc: Global, handle: &mut Handle, addr: u64, bytes: &[u8]) -> u32
    ensures { OnLive handle.old handle.new result Unit (λ old new. (new.bench ≡ old.bench) × Writes (geometry_of old) addr bytes.now old.purse.frames.items new.purse.frames.items result) }
{
    let Some(mut state) = handle.take(alloc) else {
        return NOT_LIVE;
    };
    let answer = state.write(addr, bytes);
    handle.put(state);
    answer
}

/// Copies bytes of the frame of an address, from the address on. An application must have it.
#[unsafe(no_mangle)]
pub extern "C" fn xsk_c_read(alloc: Global, handle: &mut Handle, addr: u64, out: &mut [u8]) -> u32
    ensures { OnLive handle.old handle.new result (out.new ≡ out.old) (λ old new. (new ≡ old) × ReadsFrom addr (frame_at (geometry_of old) old.purse.frames.items addr) out.old out.new result) }
{
    let Some(state) = handle.take(alloc) else {
        return NOT_LIVE;
    };
    let answer = state.purse.read(state.bench.config().geometry(), addr, out);
    handle.put(state);
    answer
}

/// Lets each driver that hasn't ended make one call, and tells whether these changed nothing.
#[unsafe(no_mangle)]
pub extern "C" fn xsk_c_round(alloc: Global, handle: &mut Handle, still: &mut bool) -> u32
    ensures { OnLive handle.old handle.new result (still.new ≡ still.old) (λ old new. (new.purse ≡ old.purse) × HasRound old.bench new.bench still.old still.new result) }
{
    let Some(mut state) = handle.take(alloc) else {
        return NOT_LIVE;
    };
    let answer = state.round(still);
    handle.put(state);
    answer
}

/// Lets the drivers make rounds until they wait, but no more than so many, and tells whether they wait.
#[unsafe(no_mangle)]
pub extern "C" fn xsk_c_run_drivers(
    alloc: Global,
    handle: &mut Handle,
    most: u32,
    wait: &mut bool,
) -> u32
    ensures { OnLive handle.old handle.new result (wait.new ≡ wait.old) (λ old new. (new.purse ≡ old.purse) × HasRounds old.bench most new.bench wait.old wait.new result) }
{
    let Some(mut state) = handle.take(alloc) else {
        return NOT_LIVE;
    };
    let answer = state.run_drivers(most, wait);
    handle.put(state);
    answer
}

/// The statistics of the socket of a class of a pair.
#[unsafe(no_mangle)]
pub extern "C" fn xsk_c_statistics(
    alloc: Global,
    handle: &mut Handle,
    pair: u32,
    class: u32,
    statistics: &mut Statistics,
) -> u32
    ensures { OnLive handle.old handle.new result (statistics.new ≡ statistics.old) (λ old new. (new ≡ old) × TellsStatistics old.bench pair class statistics.old statistics.new result) }
{
    let Some(state) = handle.take(alloc) else {
        return NOT_LIVE;
    };
    let answer = state.statistics(pair, class, statistics);
    handle.put(state);
    answer
}

/// How many packets the driver of a pair sent.
#[unsafe(no_mangle)]
pub extern "C" fn xsk_c_sent(alloc: Global, handle: &mut Handle, pair: u32, count: &mut u32) -> u32
    ensures { OnLive handle.old handle.new result (count.new ≡ count.old) (λ old new. (new ≡ old) × TellsCount old.bench pair count.old count.new result) }
{
    let Some(state) = handle.take(alloc) else {
        return NOT_LIVE;
    };
    let answer = state.sent(pair, count);
    handle.put(state);
    answer
}

/// One of the packets that the driver of a pair sent; how long it is is told also where it doesn't fit.
#[unsafe(no_mangle)]
pub extern "C" fn xsk_c_packet(
    alloc: Global,
    handle: &mut Handle,
    pair: u32,
    number: u32,
    out: &mut [u8],
    len: &mut u64,
) -> u32
    ensures { OnLive handle.old handle.new result ((out.new ≡ out.old) × (len.new ≡ len.old)) (λ old new. (new ≡ old) × TellsPacket old.bench pair number out.old out.new len.old len.new result) }
{
    let Some(state) = handle.take(alloc) else {
        return NOT_LIVE;
    };
    let answer = state.packet(pair, number, out, len);
    handle.put(state);
    answer
}

/// The journal's lines from a call on, as many as there is room for; it is told with which call to go on, and where the lines end.
#[unsafe(no_mangle)]
pub extern "C" fn xsk_c_journal(
    alloc: Global,
    handle: &mut Handle,
    from: u32,
    out: &mut [u8],
    next: &mut u32,
    end: &mut u64,
) -> u32
    ensures { OnLive handle.old handle.new result ((out.new ≡ out.old) × (next.new ≡ next.old) × (end.new ≡ end.old)) (λ old new. (new ≡ old) × TellsLog old.bench from out.old out.new next.new end.new result) }
{
    let Some(state) = handle.take(alloc) else {
        return NOT_LIVE;
    };
    let answer = state.journal(from, out, next, end);
    handle.put(state);
    answer
}

/// The text of an answer; how long it is is told also where it doesn't fit.
#[unsafe(no_mangle)]
pub extern "C" fn xsk_c_why(answer: u32, out: &mut [u8], len: &mut u64) -> u32
    ensures { TellsText (text_in answer) out.old out.new len.old len.new result }
{
    tell_why(answer, out, len)
}
