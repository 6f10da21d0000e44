//! The words of a line.
use std::alloc::{AllocError, AllocFailed, Global};
use xsk_umem::{OutOfMemory, XdpDesc};

/// Why a line has no answer.
#[derive(Clone, Copy)]
pub enum Fault {
    /// A word is missing or wrong, or what the call is made on.
    BadLine,
    /// The call has a condition that doesn't hold.
    NotLegal,
    OutOfMemory,
}

impl Fault {
    pub fn in_words(self) -> &'static str {
        match self {
            Fault::BadLine => "bad line",
            Fault::NotLegal => "not legal",
            Fault::OutOfMemory => "out of memory",
        }
    }
}

impl From<AllocError> for Fault {
    fn from(_error: AllocError) -> Fault {
        Fault::OutOfMemory
    }
}

impl<T: Drop> From<AllocFailed<T>> for Fault {
    fn from(_error: AllocFailed<T>) -> Fault {
        Fault::OutOfMemory
    }
}

impl From<OutOfMemory> for Fault {
    fn from(_error: OutOfMemory) -> Fault {
        Fault::OutOfMemory
    }
}

/// The number of 64 bits in a word.
pub fn long_in(word: &str) -> Result<u64, Fault> {
    match word.parse::<u64>() {
        Ok(number) => Ok(number),
        Err(_) => Err(Fault::BadLine),
    }
}

/// The number in a word.
pub fn number_in(word: &str) -> Result<u32, Fault> {
    let number = long_in(word)?;
    if number > u64::from(u32::MAX) {
        return Err(Fault::BadLine);
    }
    Ok(number as u32)
}

/// What stands before the first sign of a kind, and what behind it. Where there is none, all stands before it.
pub fn cut<'a>(text: &'a str, sign: &str) -> (&'a str, &'a str) {
    text.split_once(sign).unwrap_or((text, ""))
}

/// Whether a line of a setup or a script says something. `#` begins a remark.
pub fn says(line: &str) -> bool {
    let (word, _) = cut(line, " ");
    !word.is_empty() && word != "#"
}

/// A line whose words, with a space between, are taken one after the other.
#[derive(Clone, Copy)]
pub struct Line<'a> {
    rest: &'a str,
}

impl<'a> Line<'a> {
    pub fn new(text: &'a str) -> Line<'a> {
        Line { rest: text }
    }

    /// The next word, if there is one.
    pub fn next(&mut self) -> Option<&'a str> {
        let (word, rest) = cut(self.rest, " ");
        self.rest = rest;
        if word.is_empty() { None } else { Some(word) }
    }

    /// The next word, which must be there.
    pub fn word(&mut self) -> Result<&'a str, Fault> {
        match self.next() {
            Some(word) => Ok(word),
            None => Err(Fault::BadLine),
        }
    }

    /// The word that is left, which must be the last one.
    pub fn last(&mut self) -> Result<&'a str, Fault> {
        let word = self.word()?;
        match self.next() {
            Some(_) => Err(Fault::BadLine),
            None => Ok(word),
        }
    }

    /// The last word, as a number.
    pub fn last_number(&mut self) -> Result<u32, Fault> {
        number_in(self.last()?)
    }

    /// The last word, as a number of 64 bits.
    pub fn last_long(&mut self) -> Result<u64, Fault> {
        long_in(self.last()?)
    }

    /// The next word, as a number.
    pub fn number(&mut self) -> Result<u32, Fault> {
        number_in(self.word()?)
    }

    /// The next word, as a number of 64 bits.
    pub fn long(&mut self) -> Result<u64, Fault> {
        long_in(self.word()?)
    }

    /// The next two words, as numbers.
    pub fn two(&mut self) -> Result<(u32, u32), Fault> {
        let first = self.number()?;
        let second = self.number()?;
        Ok((first, second))
    }

    /// The bytes of the next word.
    pub fn bytes(&mut self, alloc: Global) -> Result<Vec<u8>, Fault> {
        crate::runs::parse(alloc, self.word()?)
    }

    /// The next three words, as a descriptor.
    pub fn desc(&mut self) -> Result<XdpDesc, Fault> {
        let addr = self.long()?;
        let (len, options) = self.two()?;
        Ok(XdpDesc { addr, len, options })
    }

    /// The length, the chunk and the headroom of a UMEM in the next three words.
    pub fn umem(&mut self) -> Result<(u64, u32, u32), Fault> {
        let len = self.long()?;
        let (chunk, headroom) = self.two()?;
        Ok((len, chunk, headroom))
    }
}
