//! What the program tells on standard error beside its answer: what was wrong, and what to do about it. Nothing here changes a
//! status, a stream or a line of the answer, and no contract speaks of it.
#![tactic(auto)]

mod checks;
mod command;
mod faults;
mod files;
mod front;
mod options;
mod usage;
mod version;

use crate::checks::{check_text, show_line};
use crate::faults::fault_text;
use crate::usage::usage_text;
use std::alloc::{AllocError, Global};
use std::rt::Files;
use xsk_checking::Checkup;
use xsk_cli::Status;

/// Tells on standard error what a status of these words leaves open: which of them is wrong and how they go, or which file it was.
/// Where memory can't be had, or standard error can't be written, nothing is told.
pub fn explain<R: Files + Eprint + AllocGlobal>(
    rt: &R,
    words: Result<Vec<String>, Status>,
    status: &Status,
) {
    if let Ok(text) = text_of(rt, rt.alloc(), words, status) {
        let _told = eprint!(rt; "{text}");
    }
}

/// Shows the earlier line that the report of a check names, on standard output behind that report, and tells on standard error what its
/// end leaves open. Where the file can't be read again the line isn't shown.
pub fn explain_check<R: Files + Print + Eprint + AllocGlobal>(
    rt: &R,
    words: Result<Vec<String>, Status>,
    checkup: &Checkup,
) {
    let Ok(words) = words else {
        return;
    };
    if let Some(line) = checkup.named
        && let Some(file) = words.get(1)
    {
        show_line(rt, rt.alloc(), file.as_str(), line);
    }
    if let Ok(text) = check_text(rt.alloc(), words.as_slice(), checkup.end) {
        let _told = eprint!(rt; "{text}");
    }
}

/// What is told of a status. It may be nothing.
fn text_of<R: Files>(
    rt: &R,
    alloc: Global,
    words: Result<Vec<String>, Status>,
    status: &Status,
) -> Result<String, AllocError> {
    match words {
        Ok(words) => match status {
            Status::Usage => usage_text(alloc, words.as_slice()),
            _ => fault_text(rt, alloc, words.as_slice(), status),
        },
        Err(Status::Usage) => String::from_str(alloc, "xsk: a word isn't UTF-8\n"),
        Err(_) => Ok(String::new(alloc)),
    }
}
