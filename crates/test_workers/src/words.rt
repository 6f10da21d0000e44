//! Lines with their words, and numbers among these.

use crate::trouble::Trouble;
use std::alloc::{AllocError, Global};

/// A line and its words.
#[derive(Drop)]
pub(crate) struct Line<'a> {
    pub(crate) text: &'a str,
    words: Vec<&'a str>,
}

impl<'a> Line<'a> {
    pub(crate) fn new(alloc: Global, text: &'a str) -> Result<Line<'a>, AllocError> {
        let words = text.split_whitespace().collect(alloc)?;
        Ok(Line { text, words })
    }

    /// Its first word, and those behind it.
    pub(crate) fn split(&self) -> Option<(&str, &[&'a str])> {
        let (first, rest) = self.words.as_slice().split_first()?;
        Some((*first, rest))
    }

    /// The words behind its first, where that is this one.
    pub(crate) fn behind(&self, wanted: &str) -> Option<&[&'a str]> {
        let (first, rest) = self.split()?;
        if first == wanted { Some(rest) } else { None }
    }
}

pub(crate) fn long_number(word: &str) -> Result<u64, Trouble> {
    match word.parse::<u64>() {
        Ok(number) => Ok(number),
        Err(_) => Err(Trouble::BadLine),
    }
}

pub(crate) fn number(word: &str) -> Result<u32, Trouble> {
    let number = long_number(word)?;
    if number > u64::from(u32::MAX) {
        return Err(Trouble::BadLine);
    }
    Ok(number as u32)
}

pub(crate) fn byte(word: &str) -> Result<u8, Trouble> {
    let number = number(word)?;
    if number > u32::from(u8::MAX) {
        return Err(Trouble::BadLine);
    }
    Ok(number as u8)
}

pub(crate) fn one_number(words: &[&str]) -> Result<u32, Trouble> {
    match words {
        [word] => number(word),
        _ => Err(Trouble::BadLine),
    }
}

pub(crate) fn two_numbers(words: &[&str]) -> Result<(u32, u32), Trouble> {
    let [one, rest @ ..] = words else {
        return Err(Trouble::BadLine);
    };
    let one = number(one)?;
    let two = one_number(rest)?;
    Ok((one, two))
}

pub(crate) fn three_numbers(words: &[&str]) -> Result<(u32, u32, u32), Trouble> {
    let [one, rest @ ..] = words else {
        return Err(Trouble::BadLine);
    };
    let one = number(one)?;
    let (two, three) = two_numbers(rest)?;
    Ok((one, two, three))
}

/// The two halves of a word around a mark.
pub(crate) fn halves(word: &str, mark: char) -> Result<(&str, &str), Trouble> {
    word.split_once(mark).ok_or(Trouble::BadLine)
}
