//! What is told of a check beside its report: a line of its file, and why it failed.

use crate::usage::usage_text;
use std::alloc::{AllocError, Global};
use std::fmt::Write as FmtWrite;
use std::fs::{self, File};
use std::io::{self, Read, Write};
use std::rt::Files;
use xsk_checking::{End, Failure};
use xsk_lines::first_line;
use xsk_recording::Verdict;

/// How many bytes are read at once.
const PIECE: usize = 65_536;

/// What is told of how a check ended. It is nothing, where its report says all.
pub(crate) fn check_text(alloc: Global, words: &[String], end: End) -> Result<String, AllocError> {
    let name = match words.get(1) {
        Some(name) => name.as_str(),
        None => "",
    };
    let mut text = String::new(alloc);
    match end {
        End::Failed(Failure::Usage) => return usage_text(alloc, words),
        End::Failed(Failure::Unopened) => {
            writeln!(text, "xsk: input 0 couldn't be opened: {name}")?
        }
        End::Failed(Failure::Unread) => writeln!(text, "xsk: input 0 couldn't be read: {name}")?,
        End::Failed(Failure::Unwritten) => {
            text.push_str("xsk: the report couldn't be written to standard output\n")?
        }
        End::Judged(Verdict::NoRecording { line }) => writeln!(
            text,
            "xsk: {name}: line {line} isn't of a recording's form, or isn't there (docs/RECORDING.md, \"The text\")"
        )?,
        End::Judged(Verdict::NoSetting { line, error }) => {
            writeln!(text, "xsk: {name}: up to line {line}: {error}")?
        }
        _ => {}
    }
    Ok(text)
}

/// Shows a line of a regular file on standard output, where the file and memory can be had.
pub(crate) fn show_line<R: Files + Print>(rt: &R, alloc: Global, name: &str, line: u64) {
    if let Some(text) = line_of(rt, alloc, name, line)
        && let Ok(shown) = shown_line(alloc, line, text.as_slice())
    {
        let _shown = io::writer(rt).write_all(shown.as_slice());
    }
}

/// A line with its number in front.
fn shown_line(alloc: Global, line: u64, text: &[u8]) -> Result<Vec<u8>, AllocError> {
    let mut front = String::new(alloc);
    write!(front, "  line {line}: ")?;
    let mut shown = front.into_bytes();
    shown.extend_from_slice(text)?;
    Ok(shown)
}

/// A line of a regular file.
fn line_of<R: Files>(rt: &R, alloc: Global, name: &str, line: u64) -> Option<Vec<u8>> {
    let about = fs::metadata(rt, name).ok()?;
    if !about.is_file() {
        return None;
    }
    let mut file = File::open(rt, name).ok()?;
    let mut piece = vec![in alloc; 0u8; PIECE].ok()?;
    let mut text = Vec::new(alloc);
    let mut at = 1;
    for _piece in 0..u64::MAX {
        let count = file.read(piece.as_mut_slice()).ok()?;
        if count == 0 {
            return None;
        }
        let part = piece.as_slice().get(..count)?;
        if take_line(part, &mut at, line, &mut text)? {
            return Some(text);
        }
    }
    None
}

/// Takes what a piece has of a line, and tells whether it has the line's end. The piece begins within the line of the number `at`.
fn take_line(piece: &[u8], at: &mut u64, line: u64, text: &mut Vec<u8>) -> Option<bool> {
    let mut rest = piece;
    for _line in 0..piece.len() {
        if rest.is_empty() {
            return Some(false);
        }
        let (part, later) = first_line(rest);
        if *at == line {
            text.extend_from_slice(part).ok()?;
        }
        if !has_ended(part) {
            return Some(false);
        }
        if *at == line {
            return Some(true);
        }
        *at = at.saturating_add(1);
        rest = later;
    }
    Some(false)
}

/// Whether a line ends with this part.
fn has_ended(part: &[u8]) -> bool {
    match part.last() {
        Some(byte) => *byte == b'\n',
        None => false,
    }
}
