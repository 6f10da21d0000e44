//! Workers that are played by hand.
ghost use Rattle.std.specs.Prelude.{◌≡◌, ◌<◌, All, length};
ghost use Rattle.xsk_model.specs.Config.{IsRegular};
ghost use Rattle.xsk_model.specs.Expected.{nothing};
ghost use Rattle.xsk_driver.specs.SentRoom.{IsShort};
ghost use Rattle.xsk_machine.specs.Acts.{HasShortPackets};

use crate::attached::{driver_of, manner_of, program_of};
use crate::hand::{Hand, Worker};
use crate::made::set_up;
use crate::packets::lists_of;
use crate::replies::reply_of;
use crate::shelf::Shelf;
use crate::texts::tell_last;
use crate::trouble::Trouble;
use crate::words::{Line, one_number, three_numbers};
use std::alloc::Global;
use std::cell::Cell;
use xsk_app::App;
use xsk_machine::Inputs;
use xsk_model::Config;
use xsk_umem::{Frames, PacketList};

/// Plays a driver, by `driver PAIR PACKETS BYTES`, with room for so many packets and bytes that it sends, or an application,
/// by `app NUMBER`.
pub(crate) fn play_hand(
    alloc: Global,
    driver: bool,
    lines: &[Line<'_>],
    words: &[&str],
    rest: &[Line<'_>],
    text: &mut String,
) -> Result<(), Trouble> {
    let (config, frames) = set_up(alloc, lines)?;
    let mut shelf = shelf_of(alloc, &config, frames, lines)?;
    if driver {
        drive(alloc, &config, lines, words, rest, &mut shelf, text)
    } else {
        pass_on(alloc, &config, lines, words, rest, &mut shelf, text)
    }
}

/// All frames, with the bytes that the script gives them.
fn shelf_of(
    alloc: Global,
    config: &Config,
    frames: Frames,
    lines: &[Line<'_>],
) -> Result<Shelf, Trouble> {
    let mut shelf = Shelf::new(alloc, frames, config.geometry().chunk())?;
    shelf.write_all(alloc, lines)?;
    Ok(shelf)
}

/// Plays a driver of a configuration.
fn drive(
    alloc: Global,
    config: &Config,
    lines: &[Line<'_>],
    words: &[&str],
    rest: &[Line<'_>],
    shelf: &mut Shelf,
    text: &mut String,
) -> Result<(), Trouble>
    requires { IsRegular config.now }
{
    let lists = lists_of(alloc, lines, config.ports())?;
    let inputs = Inputs::split(alloc, config, lists.as_slice())?;
    drive_on(
        alloc,
        config,
        lists.as_slice(),
        &inputs,
        lines,
        words,
        rest,
        shelf,
        text,
    )
}

/// Plays a driver over the packets of all ports.
fn drive_on(
    alloc: Global,
    config: &Config,
    lists: &[PacketList],
    inputs: &Inputs,
    lines: &[Line<'_>],
    words: &[&str],
    rest: &[Line<'_>],
    shelf: &mut Shelf,
    text: &mut String,
) -> Result<(), Trouble>
    requires regular { IsRegular config.now }
    requires short { All HasShortPackets lists.now }
{
    let (pair, packets, bytes) = three_numbers(words)?;
    let Some(info) = config.pairs().get(pair as usize) else {
        return Err(Trouble::NoWorker);
    };
    let Some(list) = lists.get(info.port as usize) else {
        return Err(Trouble::NoWorker);
    };
    let program = program_of(lines)?;
    let asked = Cell::new(0);
    let room = (packets, bytes);
    let driver = driver_of(alloc, config, pair, list, inputs, program, &asked, room)?;
    let count = if asks(lines) { Some(asked.get()) } else { None };
    play_new("d", pair, driver, count, rest, shelf, text)
}

/// Whether a script wants to know how often the driver's program was asked.
fn asks(lines: &[Line<'_>]) -> bool {
    for line in lines {
        if line.text == "asked" {
            return true;
        }
    }
    false
}

/// Plays an application of a configuration.
fn pass_on(
    alloc: Global,
    config: &Config,
    lines: &[Line<'_>],
    words: &[&str],
    rest: &[Line<'_>],
    shelf: &mut Shelf,
    text: &mut String,
) -> Result<(), Trouble>
    requires { IsRegular config.now }
{
    let manner = manner_of(lines)?;
    let app = one_number(words)?;
    if app >= (config.ports() / 2) * config.queues() {
        return Err(Trouble::NoWorker);
    }
    let worker = App::new(alloc, config, app, manner)?;
    play_new("a", app, worker, None, rest, shelf, text)
}

/// Plays a worker that has made no call yet, behind the number of times that its program was asked, if that is to be told. Then it
/// tells what the worker's last call was, and behind a last line `frames` which frames it has.
fn play_new<M: Worker>(
    letter: &'static str,
    number: u32,
    worker: M,
    asked: Option<u64>,
    lines: &[Line<'_>],
    shelf: &mut Shelf,
    text: &mut String,
) -> Result<(), Trouble>
    requires { M.expected worker ≡ nothing }
{
    if let Some(count) = asked {
        tell_last("asked: ", count, text)?;
    }
    let mut hand = Hand::new(letter, number, worker);
    let wants_frames = play(&mut hand, lines, shelf, text)?;
    hand.tell_call("?", text)?;
    if wants_frames {
        shelf.tell_back(hand, text)
    } else {
        Ok(())
    }
}

/// Goes over replies and questions, up to a line `frames`, and tells whether there is one.
fn play<M: Worker>(
    hand: &mut Hand<M>,
    lines: &[Line<'_>],
    shelf: &mut Shelf,
    text: &mut String,
) -> Result<bool, Trouble> {
    for line in lines {
        if line.text == "frames" {
            return Ok(true);
        }
        if !hand.tell(line.text, text)? {
            step(hand, line.text, shelf, text)?;
        }
    }
    Ok(false)
}

/// Goes on with a reply, and tells the call with it.
fn step<M: Worker>(
    hand: &mut Hand<M>,
    line: &str,
    shelf: &mut Shelf,
    text: &mut String,
) -> Result<(), Trouble> {
    hand.tell_call(line, text)?;
    let reply = reply_of(line, shelf)?;
    let Some(act) = hand.goes(reply) else {
        return Err(Trouble::BadReply);
    };
    shelf.put_back(act);
    Ok(())
}
