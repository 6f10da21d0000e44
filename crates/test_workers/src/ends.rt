//! The ends of an application by hand, over small rings whose drivers are played by hand too: `ends`, or `ends wakeup` where drivers
//! sleep. Each further line is written out again with what came of it.
//!
//! - `lane L`, `recycle E`, `inputs`: a step of the ends. `finish`: the calls that the application makes in its next turn where
//!   every ring is full, or empty.
//! - `calls`: the number of calls made with the ends. `take`: the last hand takes them. `turn N`: it makes so many turns. `back`: it
//!   gives them back, while it has them. `parts`: it gives the pass back; the number of its calls is told.
//! - `rx D N`: the driver of a pair receives so many packets. `free D N`: it gives back so many places of its FILL ring. `tx D`:
//!   it sends what its TX ring has, and completes it. `done D`: it tells that it has no further packet. `gone D`: it tells that
//!   it has ended. `need D`: it sets the flags of its FILL and TX rings. `kick D`: it looks at its kick, and clears it.

ghost use Rattle.std.specs.Prelude.{◌≡◌};
ghost use Rattle.xsk_table.specs.Opening.{new_passes};
ghost use Rattle.xsk_turns.specs.Owned.{IsSteady};

mod application;
mod callers;
mod driver;
mod table;
mod turn;

use crate::trouble::Trouble;
use crate::words::Line;
use callers::{Answers, Callers, callers_of};
use driver::Caller;
use std::alloc::Global;
use table::opened;
use xsk_table::{Passes, Shared};

/// Plays the ends of one table.
pub(crate) fn play_ends(
    alloc: Global,
    words: &[&str],
    rest: &[Line<'_>],
    text: &mut String,
) -> Result<(), Trouble> {
    let wakeup = has_wakeup(words)?;
    match opened(alloc, wakeup) {
        Some((shared, passes)) => play_on(alloc, &shared, passes, rest, text),
        None => Err(Trouble::NoMemory),
    }
}

fn has_wakeup(words: &[&str]) -> Result<bool, Trouble> {
    match words {
        [] => Ok(false),
        ["wakeup"] => Ok(true),
        _ => Err(Trouble::BadLine),
    }
}

fn play_on(
    alloc: Global,
    shared: &Shared,
    passes: Passes,
    lines: &[Line<'_>],
    text: &mut String,
) -> Result<(), Trouble>
    requires passes { passes ≡ new_passes shared.now }
    requires steady { IsSteady shared.now.setup.config }
{
    tell_all(callers_of(alloc, shared, passes), lines, text)
}

fn tell_all<C: Caller, A: Answers>(
    callers: Option<Callers<C, A>>,
    lines: &[Line<'_>],
    text: &mut String,
) -> Result<(), Trouble> {
    let Some(mut callers) = callers else {
        return Err(Trouble::NoMemory);
    };
    for line in lines {
        tell_line(&mut callers, line, text)?;
    }
    Ok(())
}

fn tell_line<C: Caller, A: Answers>(
    callers: &mut Callers<C, A>,
    line: &Line<'_>,
    text: &mut String,
) -> Result<(), Trouble> {
    let Some((word, words)) = line.split() else {
        return Err(Trouble::BadLine);
    };
    text.push_str(line.text)?;
    text.push_str(" -> ")?;
    callers.answer(word, words, text)?;
    text.push('\n')?;
    Ok(())
}
