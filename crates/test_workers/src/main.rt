//! Plays workers by scripts, which are read from standard input with an empty line between two.
//!
//! A script's first line is its name, which is printed. Then come its setting (`layout`, `packet`, `packets`, `program`,
//! `wire`, `mangle`, `after`, `frame`: see the modules), a line that says what is played, and what goes on with it:
//!
//! - `driver PAIR PACKETS BYTES` and `app NUMBER`: a worker by hand. Each further line is a reply to its last call, in the
//!   form of the journal, or a question (`parked`, `disposals`, `counters`, `sent`, `room`). Each call is printed with its reply as the
//!   journal has it, and the last one, which got none, with `?`. A line `frames` prints the frames that the worker has, and ends
//!   the script. A line `asked` before it prints how often the driver's program was asked.
//! - `ends`: the ends of an application by hand, beside drivers of a table.
#![tactic(auto)]

mod attached;
mod ends;
mod hand;
mod layout;
mod made;
mod packets;
mod played;
mod replies;
mod script;
mod shelf;
mod texts;
mod trouble;
mod words;

use std::io::{self, Print};
use words::Line;

fn main(rt: HostRuntime) -> io::Result<()> {
    let text = io::read_to_string(rt.alloc(), rt.reader())?;
    print_all(&rt, text.as_str())
}

/// Prints what comes of each script of a text.
fn print_all<R: Print + AllocGlobal>(rt: &R, text: &str) -> io::Result<()> {
    let mut lines = Vec::new(rt.alloc());
    for line in text.lines() {
        add_line(rt, &mut lines, line)?;
    }
    print_one(rt, lines.as_slice())
}

/// Takes a line of a script, or, where it is empty, prints what comes of the script that it ends.
fn add_line<'a, R: Print + AllocGlobal>(
    rt: &R,
    lines: &mut Vec<Line<'a>>,
    line: &'a str,
) -> io::Result<()> {
    if line.is_empty() {
        print_one(rt, lines.as_slice())?;
        lines.clear();
        return Ok(());
    }
    lines.push(Line::new(rt.alloc(), line)?)?;
    Ok(())
}

/// Plays a script and prints what came of it. No lines are no script.
fn print_one<R: Print + AllocGlobal>(rt: &R, lines: &[Line<'_>]) -> io::Result<()> {
    if lines.is_empty() {
        return Ok(());
    }
    let text = script::play(rt.alloc(), lines)?;
    rt.println(text.as_str())
}
