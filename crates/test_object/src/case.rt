//! The kinds of cases.
use crate::descriptors::Descriptors;
use crate::frames::Frames;
use crate::line::{Fault, Line, cut};
use crate::locks::Locks;
use crate::packed::Packed;
use crate::packets::Packets;
use crate::setups::Setups;
use crate::told::Told;
use std::alloc::Global;

/// A case of one kind, with what its calls so far have made.
pub trait Case {
    /// Makes the call that a line's first word names, with the others, and tells its answer.
    fn answer(&mut self, word: &str, line: &mut Line<'_>, told: &mut Told) -> Result<(), Fault>;
}

/// Tells a case's lines, and what came of them.
pub fn tell(alloc: Global, text: &str, told: &mut Told) {
    let (head, lines) = cut(text, "\n");
    told.say(head);
    match Line::new(head).next() {
        Some(kind) => go_through(alloc, kind, lines, told),
        None => told.say(": no kind"),
    }
    told.say("\n\n");
}

fn go_through(alloc: Global, kind: &str, lines: &str, told: &mut Told) {
    match kind {
        "setup" => run(Setups::new(alloc), lines, told),
        "descriptors" => run(Descriptors::new(alloc), lines, told),
        "lock" => run(Locks::new(alloc), lines, told),
        "frames" => run(Frames::new(alloc), lines, told),
        "packets" => run(Packets::new(alloc), lines, told),
        "words" => run(Packed, lines, told),
        _ => told.say(": no such kind"),
    }
}

fn run<C: Case + Drop>(case: C, lines: &str, told: &mut Told) {
    let mut case = case;
    for line in lines.split("\n") {
        if !line.is_empty() {
            tell_line(&mut case, line, told);
        }
    }
}

fn tell_line<C: Case>(case: &mut C, line: &str, told: &mut Told) {
    told.say("\n");
    told.say(line);
    told.say(": ");
    if let Err(fault) = answer(case, line, told) {
        told.say(fault.in_words());
    }
}

fn answer<C: Case>(case: &mut C, text: &str, told: &mut Told) -> Result<(), Fault> {
    let mut line = Line::new(text);
    let word = line.word()?;
    case.answer(word, &mut line, told)
}
