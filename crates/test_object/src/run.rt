//! A run of a script from one starting count.
use crate::ending;
use crate::line::{Fault, long_in, says};
use crate::makers::{Maker, Makers};
use crate::noted::{Board, Noted};
use crate::object::{Engine, Judge, is_caller};
use crate::setup::read_setup;
use crate::stage::Stage;
use crate::step::{Step, read};
use crate::words::{Move, Thing, Who};
use std::alloc::{AllocError, Global};
use std::string::String;
use xsk_model::Mark;
use xsk_plain::Plain;
use xsk_umem::OutOfMemory;

/// What is opened over a configuration and its frames.
fn opened<M: Maker>(alloc: Global, setup: &str, makers: Makers) -> Result<M, Fault> {
    let (config, frames) = read_setup(alloc, setup)?;
    M::open(alloc, config, frames, makers)
}

/// What is printed of a run.
pub(crate) fn run(
    alloc: Global,
    setup: &str,
    script: &str,
    makers: Makers,
) -> Result<String, AllocError> {
    let outcome = match makers {
        Makers::Plain => played::<Plain, Noted>(alloc, setup, script, makers),
        _ => played::<Judge, Noted>(alloc, setup, script, makers),
    };
    match outcome {
        Ok(text) => Ok(text),
        Err(Fault::OutOfMemory) => Err(AllocError),
        Err(_) => String::from_str(alloc, "no configuration\n"),
    }
}

/// What is printed of a script that is played on an object, and on a table if there is to be one, if the setup is one.
fn played<E: Engine, B: Board>(
    alloc: Global,
    setup: &str,
    script: &str,
    makers: Makers,
) -> Result<String, Fault> {
    let object = opened::<E>(alloc, setup, makers)?;
    let mut stage = Stage::<E, B>::new(alloc, object);
    begin(&mut stage, setup, makers)?;
    play_all(&mut stage, script)?;
    Ok(ending::end(stage)?)
}

/// Opens the table, if there is to be one, and makes room for the frames.
fn begin<E: Engine, B: Board>(
    stage: &mut Stage<E, B>,
    setup: &str,
    makers: Makers,
) -> Result<(), Fault> {
    if let Makers::Both(_) = makers {
        stage.table = Some(opened::<B>(stage.alloc, setup, makers)?);
    }
    let geometry = stage.object.config().geometry();
    let (chunk, frames) = (geometry.chunk(), geometry.frames());
    Ok(stage.hand.open(chunk, frames)?)
}

fn play_all<E: Engine, B: Board>(stage: &mut Stage<E, B>, script: &str) -> Result<(), OutOfMemory> {
    let mut things = Vec::new(stage.alloc);
    play_lines(stage, script, &mut things)
}

fn play_lines<E: Engine, B: Board>(
    stage: &mut Stage<E, B>,
    script: &str,
    things: &mut Vec<Thing>,
) -> Result<(), OutOfMemory> {
    for line in script.split("\n") {
        if says(line) {
            play(stage, line, things)?;
        }
    }
    Ok(())
}

/// Plays a line. The items of the line before are taken out.
fn play<E: Engine, B: Board>(
    stage: &mut Stage<E, B>,
    line: &str,
    things: &mut Vec<Thing>,
) -> Result<(), OutOfMemory> {
    things.clear();
    match read(line, things) {
        Ok(step) => make(stage, line, step, things.as_slice()),
        Err(Fault::OutOfMemory) => Err(OutOfMemory),
        Err(_) => {
            stage.say(line, "can't be read");
            Ok(())
        }
    }
}

/// Makes a step, with these items if it is a Submit.
fn make<E: Engine, B: Board>(
    stage: &mut Stage<E, B>,
    line: &str,
    step: Step,
    things: &[Thing],
) -> Result<(), OutOfMemory> {
    match step {
        Step::Call(who, made, anew) => return call(stage, line, who, made, things, anew),
        Step::Note { who, late, meets } => note(stage, line, who, late, meets),
        Step::Count(who, mark, most) => return count(stage, line, who, mark, most),
        Step::Passes => passes(stage, line),
    }
    Ok(())
}

fn call<E: Engine, B: Board>(
    stage: &mut Stage<E, B>,
    line: &str,
    who: Who,
    made: Move,
    things: &[Thing],
    anew: bool,
) -> Result<(), OutOfMemory> {
    let Some(who) = stage.caller(who) else {
        stage.say(line, "no caller");
        return Ok(());
    };
    let made = stage.make(who, made, things, anew)?;
    stage.tell(line, who, made)
}

/// Takes the early note or the late one, or meets it.
fn note<E: Engine, B: Board>(
    stage: &mut Stage<E, B>,
    line: &str,
    who: Who,
    late: bool,
    meets: bool,
) {
    let done = match (stage.caller(who), &mut stage.table) {
        (Some(who), Some(table)) => {
            if meets {
                table.meet(who, late)
            } else {
                table.note(who, late)
            }
        }
        _ => false,
    };
    let words = match (meets, done) {
        (true, true) => "met",
        (true, false) => "no note",
        (false, true) => "taken",
        (false, false) => "no caller",
    };
    stage.say(line, words);
}

/// Sets a mark to 1, 2 and so on, each of which must tell the one before. The last line is printed.
fn count<E: Engine, B: Board>(
    stage: &mut Stage<E, B>,
    line: &str,
    who: Who,
    mark: Mark,
    most: u64,
) -> Result<(), OutOfMemory> {
    let Some(who) = stage.caller(who) else {
        stage.say(line, "no caller");
        return Ok(());
    };
    for before in 0..most {
        let value = before + 1;
        if !count_one(
            stage,
            line,
            who,
            Move::Swap(mark, value),
            value,
            value == most,
        )? {
            return Ok(());
        }
    }
    Ok(())
}

/// Makes such a call, and tells whether it told the value before.
fn count_one<E: Engine, B: Board>(
    stage: &mut Stage<E, B>,
    line: &str,
    who: u32,
    swap: Move,
    value: u64,
    is_last: bool,
) -> Result<bool, OutOfMemory> {
    let made = stage.make(who, swap, &[], false)?;
    if !is_behind(stage.words.text(), value) {
        stage.say_words(line);
        return Ok(false);
    }
    if is_last {
        stage.tell(line, who, made)?;
    } else {
        stage.keep(who)?;
    }
    Ok(true)
}

/// Whether words are the number before a value.
fn is_behind(words: &str, value: u64) -> bool {
    match long_in(words) {
        Ok(found) => found < value && value - found == 1,
        Err(_) => false,
    }
}

/// Tells whether each caller has one pass, with its number, and no other has one.
fn passes<E: Engine, B: Board>(stage: &mut Stage<E, B>, line: &str) {
    let callers = stage.object.config().callers();
    let mut right = false;
    if let Some(table) = &stage.table {
        right = table.lent_once() && table.caller(callers).is_none();
        for who in 0..callers {
            right = right && is_caller(table.caller(who), who);
        }
    }
    stage.out.say(line);
    stage.out.say(": ");
    stage.out.number(callers);
    stage
        .out
        .say(if right { " once each\n" } else { " wrong\n" });
}
