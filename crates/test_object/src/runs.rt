//! Bytes in words: parts behind one another with a `.` between, each of them bytes as hex, and behind some an `x` and how often
//! they stand. `0102.07x60` has 62 bytes, and `-` none.
use crate::line::{Fault, Line, number_in};
use crate::told::Told;
use std::alloc::Global;

/// From so many equal bytes on they are written as one and their number.
const LEAST_RUN: usize = 4;

/// The bytes of a word.
pub fn parse(alloc: Global, word: &str) -> Result<Vec<u8>, Fault> {
    let mut bytes = Vec::new(alloc);
    append(&mut bytes, word)?;
    Ok(bytes)
}

/// Appends the bytes of a word.
pub fn append(bytes: &mut Vec<u8>, word: &str) -> Result<(), Fault> {
    if word == "-" {
        return Ok(());
    }
    for part in word.split(".") {
        let pushed = match part.split_once("x") {
            Some((digits, times)) => push_times(bytes, digits, times),
            None => push_digits(bytes, part),
        };
        pushed?;
    }
    Ok(())
}

fn push_times(bytes: &mut Vec<u8>, digits: &str, times: &str) -> Result<(), Fault> {
    for _ in 0..number_in(times)? {
        push_digits(bytes, digits)?;
    }
    Ok(())
}

fn push_digits(bytes: &mut Vec<u8>, digits: &str) -> Result<(), Fault> {
    let digits = digits.as_bytes();
    for at in 0..digits.len() / 2 {
        let high = value_of(digits[2 * at])?;
        let low = value_of(digits[2 * at + 1])?;
        bytes.push(high % 16 * 16 + low % 16)?;
    }
    if digits.len() % 2 == 1 {
        return Err(Fault::BadLine);
    }
    Ok(())
}

fn value_of(digit: u8) -> Result<u8, Fault> {
    if digit < b'0' {
        return Err(Fault::BadLine);
    }
    let value = digit - b'0';
    if value < 10 {
        return Ok(value);
    }
    if digit < b'a' {
        return Err(Fault::BadLine);
    }
    let value = digit - b'a';
    if value < 6 {
        return Ok(value + 10);
    }
    Err(Fault::BadLine)
}

/// Tells the bytes FROM and LEN of a line say.
pub fn show(bytes: &[u8], line: &mut Line<'_>, told: &mut Told) -> Result<(), Fault> {
    let (from, len) = line.two()?;
    let from = from as usize;
    match bytes.get(from..from + len as usize) {
        Some(bytes) => {
            tell(told, bytes);
            Ok(())
        }
        None => Err(Fault::NotLegal),
    }
}

/// Tells bytes as a word.
pub fn tell(told: &mut Told, bytes: &[u8]) {
    if bytes.is_empty() {
        told.say("-");
    }
    let mut rest = bytes;
    let mut was_run = false;
    for _ in 0..bytes.len() {
        let Some(first) = rest.first() else {
            break;
        };
        let count = equal_at_start(rest, *first);
        let is_run = count >= LEAST_RUN;
        if rest.len() < bytes.len() && (is_run || was_run) {
            told.say(".");
        }
        told.hex(*first);
        was_run = is_run;
        rest = if is_run {
            tell_times(count, told);
            behind(rest, count)
        } else {
            behind(rest, 1)
        };
    }
}

fn tell_times(count: usize, told: &mut Told) {
    told.say("x");
    told.count(count);
}

/// How many bytes at the start are equal to a byte.
fn equal_at_start(bytes: &[u8], first: u8) -> usize {
    for index in 0..bytes.len() {
        if bytes[index] != first {
            return index;
        }
    }
    bytes.len()
}

/// The bytes behind so many.
pub fn behind(bytes: &[u8], count: usize) -> &[u8] {
    bytes.get(count..).unwrap_or(&[])
}
