//! One script.

use crate::ends::play_ends;
use crate::played::play_hand;
use crate::trouble::Trouble;
use crate::words::Line;
use std::alloc::{AllocError, Global};

/// What came of a script, under its name.
pub(crate) fn play(alloc: Global, lines: &[Line<'_>]) -> Result<String, AllocError> {
    let mut text = String::new(alloc);
    tell(alloc, lines, &mut text)?;
    Ok(text)
}

fn tell(alloc: Global, lines: &[Line<'_>], text: &mut String) -> Result<(), AllocError> {
    if let Some(name) = lines.first() {
        text.push_str(name.text)?;
        text.push('\n')?;
    }
    match play_lines(alloc, lines, text) {
        Ok(()) => Ok(()),
        Err(trouble) => trouble.tell(text),
    }
}

/// Plays what the first line says that says something to be played.
fn play_lines(alloc: Global, lines: &[Line<'_>], text: &mut String) -> Result<(), Trouble> {
    let mut rest = lines;
    for line in lines {
        rest = rest.get(1..).unwrap_or(&[]);
        if let Some((first, words)) = line.split() {
            if play_work(alloc, first, lines, words, rest, text)? {
                return Ok(());
            }
        }
    }
    Err(Trouble::BadLine)
}

/// Plays what the word says. False where it says nothing to be played.
fn play_work(
    alloc: Global,
    work: &str,
    lines: &[Line<'_>],
    words: &[&str],
    rest: &[Line<'_>],
    text: &mut String,
) -> Result<bool, Trouble> {
    let played = match work {
        "driver" => play_hand(alloc, true, lines, words, rest, text),
        "app" => play_hand(alloc, false, lines, words, rest, text),
        "ends" => play_ends(alloc, words, rest, text),
        _ => return Ok(false),
    };
    match played {
        Ok(()) => Ok(true),
        Err(trouble) => Err(trouble),
    }
}
