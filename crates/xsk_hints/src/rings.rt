//! The hints on each ring.
ghost use Rattle.std.specs.Prelude.{◌≡◌, ◌<◌, ◌++◌, true, false, IsSome, List, OnOk, flat_map, length};
ghost use Rattle.std.specs.List.{range_with_len};
ghost use Rattle.xsk_side.specs.Setting.{HasRing};
ghost use Rattle.xsk_side.specs.Object.{is_made as made};
ghost use Rattle.xsk_side.specs.Own.{held_of, room_of};
ghost use Rattle.xsk_model.specs.declared.call.Ring.TheVariants.{Rx, Tx};
ghost use Rattle.xsk_judge.specs.Stands.{Line, IsReady, StandsFor, calls_of};
ghost use Rattle.xsk_hints.specs.Noted.{IsSized, Notes};
ghost use Rattle.xsk_hints.specs.Told.{words_of, odd_line, odd_lines, made_lines, shown_lines, tx_lines, pair_lines, socket_lines, where_some, count_line, tally_line, tally_in, unpeeked};

use crate::hints::Hints;
use crate::oddity::Oddity;
use crate::tally::tally_at;
use crate::text::{push_count, push_tally, push_unpeeked};
use xsk_judge::{Judge, Spot};
use xsk_model::Ring;
use xsk_side::Setting;
use xsk_umem::OutOfMemory;

/// Puts the hints on FILL and COMPLETION of all pairs behind a text.
pub(crate) fn push_pairs(
    text: &mut Vec<u8>,
    setting: &Setting,
    hints: &Hints,
    judge: &Judge,
) -> Result<(), OutOfMemory>
    requires sized { IsSized setting.now hints.now }
    requires ready { IsReady setting.now judge.now }
    ensures { (lines : List Line) → StandsFor setting.now judge.now lines → Notes setting.now hints.now lines
        → OnOk result (text.new.items ≡ text.old.items ++ flat_map (pair_lines setting.now hints.now.metadata lines) (range_with_len 0 (length setting.now.pairs))) }
{
    for pair in 0..setting.pairs().len() as u32 {
        push_made(text, setting, hints, judge, Ring::Fill(pair))?;
        push_shown(text, setting, judge, Ring::Comp(pair))?;
    }
    Ok(())
}

/// Puts the hints on RX and TX of all sockets behind a text.
pub(crate) fn push_sockets(
    text: &mut Vec<u8>,
    setting: &Setting,
    hints: &Hints,
    judge: &Judge,
) -> Result<(), OutOfMemory>
    requires sized { IsSized setting.now hints.now }
    requires ready { IsReady setting.now judge.now }
    ensures { (lines : List Line) → StandsFor setting.now judge.now lines → Notes setting.now hints.now lines
        → OnOk result (text.new.items ≡ text.old.items ++ flat_map (socket_lines setting.now hints.now.metadata lines) (range_with_len 0 (length setting.now.sockets))) }
{
    for socket in 0..setting.sockets().len() as u32 {
        push_socket(text, setting, hints, judge, socket)?;
    }
    Ok(())
}

/// The rings that a socket has.
fn push_socket(
    text: &mut Vec<u8>,
    setting: &Setting,
    hints: &Hints,
    judge: &Judge,
    socket: u32,
) -> Result<(), OutOfMemory>
    requires sized { IsSized setting.now hints.now }
    requires ready { IsReady setting.now judge.now }
    requires socket { socket < length setting.now.sockets }
    ensures { (lines : List Line) → StandsFor setting.now judge.now lines → Notes setting.now hints.now lines
        → OnOk result (text.new.items ≡ text.old.items ++ socket_lines setting.now hints.now.metadata lines socket) }
{
    let sizes = setting.sockets()[socket as usize];
    push_rx(text, setting, judge, socket, sizes.rx)?;
    push_tx(text, setting, hints, judge, socket, sizes.tx)
}

/// RX of a socket that has it, in this size.
fn push_rx(
    text: &mut Vec<u8>,
    setting: &Setting,
    judge: &Judge,
    socket: u32,
    size: Option<u32>,
) -> Result<(), OutOfMemory>
    requires ready { IsReady setting.now judge.now }
    requires has { IsSome size → HasRing setting.now (Rx socket) }
    ensures { (lines : List Line) → StandsFor setting.now judge.now lines
        → OnOk result (text.new.items ≡ text.old.items ++ where_some size (shown_lines setting.now lines (Rx socket))) }
{
    if size.is_none() {
        return Ok(());
    }
    push_shown(text, setting, judge, Ring::Rx(socket))
}

/// TX of a socket that has it, in this size, and COMPLETION as far as its frames are concerned.
fn push_tx(
    text: &mut Vec<u8>,
    setting: &Setting,
    hints: &Hints,
    judge: &Judge,
    socket: u32,
    size: Option<u32>,
) -> Result<(), OutOfMemory>
    requires sized { IsSized setting.now hints.now }
    requires ready { IsReady setting.now judge.now }
    requires has { IsSome size → HasRing setting.now (Tx socket) }
    ensures { (lines : List Line) → StandsFor setting.now judge.now lines → Notes setting.now hints.now lines
        → OnOk result (text.new.items ≡ text.old.items ++ where_some size (tx_lines setting.now hints.now.metadata lines socket)) }
{
    if size.is_none() {
        return Ok(());
    }
    let ring = Ring::Tx(socket);
    push_made(text, setting, hints, judge, ring)?;
    let pair = setting.pair(ring);
    let peek = hints.peek(setting, pair);
    let frames = tally_at(setting, judge, Spot::On(ring));
    push_unpeeked(text, socket, pair, peek, frames)
}

/// A ring of FILL or TX.
fn push_made(
    text: &mut Vec<u8>,
    setting: &Setting,
    hints: &Hints,
    judge: &Judge,
    ring: Ring,
) -> Result<(), OutOfMemory>
    requires sized { IsSized setting.now hints.now }
    requires ready { IsReady setting.now judge.now }
    requires ring { HasRing setting.now ring }
    requires side { made ring ≡ true }
    ensures { (lines : List Line) → StandsFor setting.now judge.now lines → Notes setting.now hints.now lines
        → OnOk result (text.new.items ≡ text.old.items ++ made_lines setting.now hints.now.metadata lines ring) }
{
    push_oddities(text, setting, hints, ring)?;
    let room = judge.room(setting, ring);
    let frames = tally_at(setting, judge, Spot::On(ring));
    push_count(
        text,
        ring,
        ": places reserved and not filled at the end: ",
        room,
    )?;
    push_tally(text, ring, ": frames on it at the end: ", frames)
}

/// A ring of COMPLETION or RX.
fn push_shown(
    text: &mut Vec<u8>,
    setting: &Setting,
    judge: &Judge,
    ring: Ring,
) -> Result<(), OutOfMemory>
    requires ready { IsReady setting.now judge.now }
    requires ring { HasRing setting.now ring }
    requires side { made ring ≡ false }
    ensures { (lines : List Line) → StandsFor setting.now judge.now lines
        → OnOk result (text.new.items ≡ text.old.items ++ shown_lines setting.now lines ring) }
{
    let held = judge.held(setting, ring);
    let shown = tally_at(setting, judge, Spot::Shown(ring));
    let back = tally_at(setting, judge, Spot::Back(ring));
    push_count(
        text,
        ring,
        ": entries peeked and not released at the end: ",
        held,
    )?;
    push_tally(
        text,
        ring,
        ": frames of it with the program at the end: ",
        shown,
    )?;
    push_tally(text, ring, ": frames put back into it at the end: ", back)
}

/// The oddities of a ring of FILL or TX, each with a line of its own.
fn push_oddities(
    text: &mut Vec<u8>,
    setting: &Setting,
    hints: &Hints,
    ring: Ring,
) -> Result<(), OutOfMemory>
    requires sized { IsSized setting.now hints.now }
    requires ring { HasRing setting.now ring }
    requires side { made ring ≡ true }
    ensures { (lines : List Line) → Notes setting.now hints.now lines → OnOk result (text.new.items ≡ text.old.items ++ odd_lines setting.now hints.now.metadata lines ring) }
{
    push_oddity(text, setting, hints, ring, Oddity::Outside)?;
    push_oddity(text, setting, hints, ring, Oddity::Within)?;
    push_oddity(text, setting, hints, ring, Oddity::Empty)?;
    push_oddity(text, setting, hints, ring, Oddity::Crossing)?;
    push_oddity(text, setting, hints, ring, Oddity::Options)?;
    push_oddity(text, setting, hints, ring, Oddity::Refused)
}

fn push_oddity(
    text: &mut Vec<u8>,
    setting: &Setting,
    hints: &Hints,
    ring: Ring,
    oddity: Oddity,
) -> Result<(), OutOfMemory>
    requires sized { IsSized setting.now hints.now }
    requires ring { HasRing setting.now ring }
    requires side { made ring ≡ true }
    ensures { (lines : List Line) → Notes setting.now hints.now lines → OnOk result (text.new.items ≡ text.old.items ++ odd_line setting.now hints.now.metadata lines ring oddity) }
{
    push_tally(text, ring, words(oddity), hints.odd(setting, ring, oddity))
}

fn words(oddity: Oddity) -> &'static str
    ensures { result.now ≡ words_of oddity }
{
    match oddity {
        Oddity::Outside => ": addresses outside of the UMEM: ",
        Oddity::Within => ": addresses that aren't the first of a chunk: ",
        Oddity::Empty => ": invalid descriptors (length 0): ",
        Oddity::Crossing => ": invalid descriptors (across the end of a chunk): ",
        Oddity::Options => ": invalid descriptors (unknown options): ",
        Oddity::Refused => ": refused reserves: ",
    }
}
