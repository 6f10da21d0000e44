//! Cases of the object and of the libraries round it, read from the standard input.
//!
//! First stand cases of the lower libraries: each begins with a line of its kind and its name, and ends with a blank line. Each other
//! line is a call. It is written out again, and behind it what came of it. Behind a line `# scripts` stand scripts of calls on the
//! object, on one thread and on a table that threads share, whose replies are printed once each.
#![tactic(auto)]

mod blocks;
mod bytes;
mod case;
mod configs;
mod descriptors;
mod ending;
mod frames;
mod hand;
mod line;
mod locks;
mod makers;
mod noted;
mod object;
mod packed;
mod packets;
mod player;
mod reply;
mod run;
mod runs;
mod setup;
mod setups;
mod stage;
mod step;
mod table;
mod told;
mod words;

use crate::line::cut;
use crate::told::Told;
use std::alloc::{AllocError, Global};
use std::io::{self, Print};

fn main(rt: HostRuntime) -> io::Result<()> {
    let text = io::read_to_string(rt.alloc(), rt.reader())?;
    print_told(&rt, tell_all(rt.alloc(), text.as_str()))
}

/// Prints a text, if there was memory for it.
fn print_told<R: Print>(rt: &R, told: Result<String, AllocError>) -> io::Result<()> {
    match told {
        Ok(text) => rt.print(text.as_str()),
        Err(_) => rt.print("want of memory\n"),
    }
}

/// What comes of all cases and scripts.
fn tell_all(alloc: Global, text: &str) -> Result<String, AllocError> {
    let (cases, scripts) = cut(text, "\n# scripts\n");
    let mut told = Told::new(alloc);
    tell_cases(alloc, cases, &mut told);
    tell_scripts(alloc, scripts, &mut told);
    told.into_text()
}

/// Tells what comes of each case. An empty text is none.
fn tell_cases(alloc: Global, cases: &str, told: &mut Told) {
    for case in cases.split("\n\n") {
        if !case.is_empty() {
            case::tell(alloc, case, told);
        }
    }
}

/// Tells what comes of each script. An empty text is none.
fn tell_scripts(alloc: Global, scripts: &str, told: &mut Told) {
    let (_, first) = cut(scripts, "\nscript ");
    for script in first.split("\nscript ") {
        if !script.is_empty() {
            blocks::tell(alloc, scripts, script, told);
        }
    }
}
