//! The lines of a script.
use crate::line::{Fault, Line};
use crate::words::{Move, Place, Thing, Who, read_place, read_thing, read_who};
use xsk_model::{Mark, Ring};

/// What a line says.
#[derive(Clone, Copy)]
pub(crate) enum Step {
    /// A call, and whether a Reserve or a Peek looks at the other side's count in any case.
    Call(Who, Move, bool),
    /// Takes the early note or the late one, or meets it.
    Note { who: Who, late: bool, meets: bool },
    /// Sets a mark to 1, 2 and so on.
    Count(Who, Mark, u64),
    /// Takes each pass and gives it back.
    Passes,
}

/// What a line says. The items of a Submit are put behind the others.
pub(crate) fn read(text: &str, things: &mut Vec<Thing>) -> Result<Step, Fault> {
    let mut line = Line::new(text);
    let word = line.word()?;
    match word {
        "passes" => Ok(Step::Passes),
        "note" => read_note(&mut line, false),
        "meet" => read_note(&mut line, true),
        "count" => read_count(&mut line),
        "anew" => read_call(&mut line, things, true),
        _ => read_call(&mut Line::new(text), things, false),
    }
}

fn read_note(line: &mut Line<'_>, meets: bool) -> Result<Step, Fault> {
    let who = read_who(line.word()?)?;
    let late = match line.last()? {
        "early" => false,
        "late" => true,
        _ => return Err(Fault::BadLine),
    };
    Ok(Step::Note { who, late, meets })
}

fn read_count(line: &mut Line<'_>) -> Result<Step, Fault> {
    let who = read_who(line.word()?)?;
    match read_place(line.word()?)? {
        Place::Mark(mark) => Ok(Step::Count(who, mark, line.last_long()?)),
        Place::Ring(_) => Err(Fault::BadLine),
    }
}

fn read_call(line: &mut Line<'_>, things: &mut Vec<Thing>, anew: bool) -> Result<Step, Fault> {
    let who = read_who(line.word()?)?;
    let verb = line.word()?;
    let made = match read_place(line.word()?)? {
        Place::Ring(ring) => on_ring(verb, ring, line),
        Place::Mark(mark) => on_mark(verb, mark, line),
    };
    let made = made?;
    if let Move::Submit(_) = made {
        push_things(things, line)?;
    }
    Ok(Step::Call(who, made, anew))
}

fn push_things(things: &mut Vec<Thing>, line: &mut Line<'_>) -> Result<(), Fault> {
    for _ in 0..u64::MAX {
        let Some(word) = line.next() else {
            break;
        };
        things.push(read_thing(word)?)?;
    }
    Ok(())
}

/// A call on a ring, with the number behind it where it needs one.
fn on_ring(verb: &str, ring: Ring, line: &mut Line<'_>) -> Result<Move, Fault> {
    if verb == "submit" {
        return Ok(Move::Submit(ring));
    }
    let count = line.last_number()?;
    match verb {
        "reserve" => Ok(Move::Reserve(ring, count)),
        "peek" => Ok(Move::Peek(ring, count)),
        "release" => Ok(Move::Release(ring, count)),
        _ => Err(Fault::BadLine),
    }
}

/// A call on a mark, with the value behind it where it needs one.
fn on_mark(verb: &str, mark: Mark, line: &mut Line<'_>) -> Result<Move, Fault> {
    match verb {
        "swap" => Ok(Move::Swap(mark, line.last_long()?)),
        "look" => Ok(Move::Look(mark)),
        _ => Err(Fault::BadLine),
    }
}
