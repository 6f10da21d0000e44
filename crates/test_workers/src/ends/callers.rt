//! The drivers of a table, and its application.
ghost use Rattle.std.specs.Prelude.{◌≡◌, ◌+◌};
ghost use Rattle.xsk_table.specs.Opening.{new_passes};
ghost use Rattle.xsk_turns.specs.Owned.{IsSteady};
ghost use Rattle.test_workers.specs.Taking.{AreLeft};

use super::application::Application;
use super::driver::{Caller, Driver, free, receive, send, swap};
use super::table::take;
use std::alloc::{AllocError, Global};
use std::fmt::Write;
use xsk_model::Mark;
use xsk_rings::CheckedPass;
use xsk_shared_ends::Ends;
use xsk_table::{Passes, Shared};

/// One who does what a line says.
pub(crate) trait Answers: Drop {
    /// Does what the word says, and tells what came of it.
    fn answer(&mut self, word: &str, place: u32, text: &mut String) -> Result<(), AllocError>;
}

/// The drivers of both pairs, and the application.
#[derive(Drop)]
pub(crate) struct Callers<C: Caller, A: Answers> {
    first: C,
    second: C,
    application: A,
    /// The length of the next packet.
    len: u32,
}

/// A number from 0 to 31.
fn number(word: &str) -> Option<u32> {
    match word.parse::<u32>() {
        Ok(number) if number < 32 => Some(number),
        _ => None,
    }
}

/// The one or two numbers behind a line's first word, which are 0 where they aren't there. None where they are others.
fn numbers(words: &[&str]) -> Option<(u32, u32)> {
    if words.len() > 2 {
        return None;
    }
    let place = number_at(words, 0)?;
    let count = number_at(words, 1)?;
    Some((place, count))
}

fn number_at(words: &[&str], place: usize) -> Option<u32> {
    match words.get(place) {
        Some(word) => number(word),
        None => Some(0),
    }
}

/// Whether a word says something of the application, and not of a driver.
fn is_of_application(word: &str) -> bool {
    matches!(
        word,
        "lane" | "recycle" | "inputs" | "finish" | "calls" | "take" | "turn" | "back" | "parts"
    )
}

/// Receives so many packets, each a byte longer than the one before, and tells how many could be.
fn receive_all<C: Caller>(driver: &mut C, pair: u32, count: u32, len: &mut u32) -> u32 {
    let mut got = 0u32;
    for _ in 0..count {
        if receive(driver, pair, *len).is_none() {
            break;
        }
        *len = len.saturating_add(1);
        got = got.saturating_add(1);
    }
    got
}

/// What the driver of a pair does.
fn drive<C: Caller>(
    driver: &mut C,
    pair: u32,
    word: &str,
    count: u32,
    len: &mut u32,
    text: &mut String,
) -> Result<(), AllocError> {
    match word {
        "rx" => {
            let got = receive_all(driver, pair, count, len);
            write!(text, "{got}")
        }
        "free" => {
            let freed = free(driver, pair, count).is_some();
            write!(text, "{freed}")
        }
        "tx" => send(driver, pair, text),
        _ => tell_mark(driver, pair, word, text),
    }
}

/// Sets a mark of the driver of a pair, and tells what it was.
fn tell_mark<C: Caller>(
    driver: &mut C,
    pair: u32,
    word: &str,
    text: &mut String,
) -> Result<(), AllocError> {
    let was = match word {
        "done" => swap(driver, Mark::RxDone(pair), 1),
        "gone" => swap(driver, Mark::Gone(pair), 1),
        "need" => {
            swap(driver, Mark::NeedFill(pair), 1);
            swap(driver, Mark::NeedTx(pair), 1)
        }
        "kick" => swap(driver, Mark::Kick(pair), 0),
        _ => return text.push_str("no such call"),
    };
    match was {
        Some(was) => write!(text, "{was}"),
        None => text.push_str("none"),
    }
}

/// The driver that is the next caller, if its pass is there and there is memory.
fn take_driver<'a>(
    alloc: Global,
    shared: &'a Shared,
    passes: &mut Passes,
    who: u32,
) -> Option<Driver<'a>>
    requires { AreLeft shared.now who passes.old }
    ensures { AreLeft shared.now (who + 1) passes.new }
{
    let pass = take(shared, passes, who)?;
    match CheckedPass::new(alloc, shared, pass) {
        Ok(pass) => Some(Driver::new(shared, pass)),
        Err(_) => None,
    }
}

/// The application, which is the caller behind the drivers.
fn take_application<'a>(
    alloc: Global,
    shared: &'a Shared,
    passes: &mut Passes,
) -> Option<Application<'a>>
    requires steady { IsSteady shared.now.setup.config }
    requires left { AreLeft shared.now 2 passes.old }
{
    let config = shared.config();
    if config.pairs().len() > 2 {
        return None;
    }
    let pass = take(shared, passes, 2)?;
    match Ends::new(alloc, config, pass) {
        Ok(ends) => Some(Application::new(shared, ends)),
        Err(_) => None,
    }
}

/// The callers of a table, with which no call was made.
pub(crate) fn callers_of<'a>(
    alloc: Global,
    shared: &'a Shared,
    passes: Passes,
) -> Option<Callers<Driver<'a>, Application<'a>>>
    requires passes { passes ≡ new_passes shared.now }
    requires steady { IsSteady shared.now.setup.config }
{
    let mut passes = passes;
    let first = take_driver(alloc, shared, &mut passes, 0);
    let second = take_driver(alloc, shared, &mut passes, 1);
    let application = take_application(alloc, shared, &mut passes);
    Callers::of(first, second, application)
}

impl<C: Caller, A: Answers> Callers<C, A> {
    /// The callers, where all of them are there.
    fn of(first: Option<C>, second: Option<C>, application: Option<A>) -> Option<Callers<C, A>> {
        let first = first?;
        let second = second?;
        let application = application?;
        Some(Callers {
            first,
            second,
            application,
            len: 60,
        })
    }

    /// Does what a line says, a step of the ends or what a driver does, and tells what came of it.
    pub(crate) fn answer(
        &mut self,
        word: &str,
        words: &[&str],
        text: &mut String,
    ) -> Result<(), AllocError> {
        let Some((place, count)) = numbers(words) else {
            return text.push_str("no such number");
        };
        if is_of_application(word) {
            return self.application.answer(word, place, text);
        }
        self.drive(place, word, count, text)
    }

    fn drive(
        &mut self,
        pair: u32,
        word: &str,
        count: u32,
        text: &mut String,
    ) -> Result<(), AllocError> {
        let len = &mut self.len;
        if pair == 0 {
            drive(&mut self.first, 0, word, count, len, text)
        } else {
            drive(&mut self.second, 1, word, count, len, text)
        }
    }
}
