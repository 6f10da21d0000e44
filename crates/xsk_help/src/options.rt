//! The whole text of the commands and their options, from the tables by which words are read.

use crate::command::value_name;
use std::alloc::{AllocError, Global};
use std::fmt::Write;
use xsk_args::{OptionRow, Takes, Unsaid};
use xsk_cli::options::{JUDGED, LAYOUT, ROUNDS, RUN, THREADS};

/// How the commands go.
pub(crate) const SYNOPSIS: &str = "\
usage: xsk simulate|forward [OPTION ..] IN0 IN1 .. OUT0 OUT1 ..
       xsk simulate|forward --gen N [OPTION ..] OUT0 OUT1 ..
       xsk simulate|forward --pcapng [OPTION ..] IN OUT
       xsk gen N FILE
       xsk audit [OPTION ..] FILE
       xsk check FILE
";

const COMMANDS: &str = "
  simulate  forwards the packets of a capture for each port over a model of AF_XDP sockets, in rounds on one thread
  forward   does so with each driver and each application in a thread of its own
  gen       writes a capture of the packets that are made of a number
  audit     tells the first line of a journal that isn't of a legal history of the rings, and why
  check     tells the first call of a program's recording that isn't possible, and why; else what is surely unwanted in it
";

/// All options, in tables with the commands that have them.
pub(crate) const TABLES: [(&str, &[OptionRow]); 5] = [
    ("simulate, forward and audit", LAYOUT),
    ("simulate and forward", RUN),
    ("simulate", ROUNDS),
    ("forward", THREADS),
    ("audit", JUDGED),
];

const STATUSES: &str = "
Exit status, and the line on standard output:
  0   all was read and written; of a check: possible CALLS
  2   usage: the words are no command
  3   bad capture PORT ..: a capture is refused
  4   read fault PORT: an input couldn't be read
  5   a stream couldn't be written (no line)
  6   open fault ..: a stream couldn't be opened
  7   refused ..: what was asked for is refused, by the first option that doesn't suit
  8   stalled ROUND: nothing changed for 64 rounds
  9   too much ..: an input, or all of them, are larger than what is taken
  10  out of memory
  12  bad pcapng ..: a pcapng file is refused
  13  not legal LINE: a journal isn't legal from this line on
  14  not possible LINE: a recording's call of this line isn't possible, for the reason behind it
  15  no recording LINE, no setting LINE .., no calls, empty: the file is no recording that could be judged

docs/USAGE.md has the rest.
";

/// The whole text.
pub(crate) fn whole_text(alloc: Global) -> Result<String, AllocError> {
    let mut text = String::from_str(alloc, SYNOPSIS)?;
    text.push_str(COMMANDS)?;
    for (commands, table) in TABLES {
        push_table(&mut text, commands, table)?;
    }
    text.push_str(STATUSES)?;
    Ok(text)
}

fn push_table(text: &mut String, commands: &str, table: &[OptionRow]) -> Result<(), AllocError> {
    writeln!(text, "\nOptions of {commands}:")?;
    for row in table {
        push_row(text, row)?;
    }
    Ok(())
}

/// The lines of an option: how it is said, what it is, which values are accepted, and what stands without it.
fn push_row(text: &mut String, row: &OptionRow) -> Result<(), AllocError> {
    let name = row.name;
    let about = row.about;
    let accepts = row.accepts;
    let value = value_name(row.takes);
    match row.takes {
        Takes::Nothing => write!(text, "  --{name}\n      {about}\n      ")?,
        _ => write!(
            text,
            "  --{name} {value}\n      {about}\n      accepted: {accepts}; "
        )?,
    }
    match row.unsaid {
        Unsaid::Number(number) => writeln!(text, "without it: {number}"),
        Unsaid::Told(words) => writeln!(text, "without it: {words}"),
    }
}
