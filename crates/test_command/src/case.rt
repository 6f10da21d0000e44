//! What the instructions of a case have said so far.

use crate::text::text_of;
use std::alloc::{AllocError, Global};
use xsk_io::Fail;

/// Bytes with a name.
#[derive(Drop)]
pub(crate) struct Named {
    pub(crate) name: String,
    pub(crate) bytes: Vec<u8>,
}

/// Which workers a gate holds.
#[derive(Clone, Copy)]
pub(crate) enum Holds {
    NoOne,
    /// These two workers until both have come.
    Pair(u32, u32),
    /// This one, until another has gone on for long.
    One(u32),
}

/// What is said of the next run.
#[derive(Drop)]
pub(crate) struct Next {
    pub(crate) fails: Vec<Fail>,
    pub(crate) most: Option<u32>,
    pub(crate) holds: Holds,
    pub(crate) tells_writes: bool,
    pub(crate) fronts: Vec<String>,
}

impl Next {
    fn new(alloc: Global) -> Next {
        Next {
            fails: Vec::new(alloc),
            most: None,
            holds: Holds::NoOne,
            tells_writes: false,
            fronts: Vec::new(alloc),
        }
    }
}

/// The texts of a case, and what is said of its runs.
#[derive(Drop)]
pub(crate) struct Case {
    alloc: Global,
    pub(crate) texts: Vec<Named>,
    pub(crate) inputs: Vec<String>,
    pub(crate) room: u32,
    pub(crate) next: Next,
}

/// The room of an output where none is said.
const ROOM: u32 = 65_536;

impl Case {
    pub(crate) fn new(alloc: Global) -> Case {
        Case {
            alloc,
            texts: Vec::new(alloc),
            inputs: Vec::new(alloc),
            room: ROOM,
            next: Next::new(alloc),
        }
    }

    /// Forgets what was said of a run.
    pub(crate) fn forget(&mut self) {
        self.next = Next::new(self.alloc);
    }

    /// The bytes of a text.
    pub(crate) fn text(&self, name: &str) -> Option<&[u8]> {
        for text in &self.texts {
            if text.name.as_str() == name {
                return Some(text.bytes.as_slice());
            }
        }
        None
    }

    /// The name of the first text with these bytes.
    pub(crate) fn name_of(&self, bytes: &[u8]) -> Option<&str> {
        for text in &self.texts {
            if text.bytes.as_slice() == bytes {
                return Some(text.name.as_str());
            }
        }
        None
    }

    /// Keeps what an instruction says. False where it says nothing.
    pub(crate) fn set(
        &mut self,
        alloc: Global,
        name: &str,
        value: &str,
    ) -> Result<bool, AllocError> {
        match name {
            "text" => self.add_text(alloc, value),
            "inputs" => self.set_inputs(alloc, value),
            "has" => {
                self.next.fronts.push(String::from_str(alloc, value)?)?;
                Ok(true)
            }
            "fail" => self.add_fail(value),
            "pair" => Ok(self.set_pair(value)),
            "writes" => {
                self.next.tells_writes = true;
                Ok(true)
            }
            _ => Ok(self.set_number(name, value)),
        }
    }

    fn add_text(&mut self, alloc: Global, value: &str) -> Result<bool, AllocError> {
        let (name, tokens) = value.split_once(' ').unwrap_or((value, ""));
        let Some(bytes) = text_of(alloc, tokens)? else {
            return Ok(false);
        };
        let name = String::from_str(alloc, name)?;
        self.texts.push(Named { name, bytes })?;
        Ok(true)
    }

    fn set_inputs(&mut self, alloc: Global, names: &str) -> Result<bool, AllocError> {
        self.inputs = Vec::new(alloc);
        for name in names.split(' ') {
            if self.text(name).is_none() {
                return Ok(false);
            }
            self.inputs.push(String::from_str(alloc, name)?)?;
        }
        Ok(true)
    }

    fn add_fail(&mut self, value: &str) -> Result<bool, AllocError> {
        match fail_of(value) {
            Some(fail) => {
                self.next.fails.push(fail)?;
                Ok(true)
            }
            None => Ok(false),
        }
    }

    fn set_pair(&mut self, value: &str) -> bool {
        let Some((first, second)) = pair_of(value) else {
            return false;
        };
        self.next.holds = Holds::Pair(first, second);
        true
    }

    fn set_number(&mut self, name: &str, value: &str) -> bool {
        let Some(number) = number_of(value) else {
            return false;
        };
        match name {
            "room" => self.room = number,
            "most" => self.next.most = Some(number),
            "hold" => self.next.holds = Holds::One(number),
            _ => return false,
        }
        true
    }
}

fn fail_of(value: &str) -> Option<Fail> {
    let (kind, number) = value.split_once(' ')?;
    let number = number_of(number)?;
    match kind {
        "open" => Some(Fail::Open(number)),
        "read" => Some(Fail::Read(number)),
        "write" => Some(Fail::Write(number)),
        _ => None,
    }
}

/// Two numbers, parted by a space.
fn pair_of(value: &str) -> Option<(u32, u32)> {
    let (first, second) = value.split_once(' ')?;
    let first = number_of(first)?;
    let second = number_of(second)?;
    Some((first, second))
}

fn number_of(word: &str) -> Option<u32> {
    word.parse::<u32>().ok()
}

/// A copy of the bytes of each input. None where an input has no text.
pub(crate) fn inputs_of(alloc: Global, case: &Case) -> Result<Option<Vec<Vec<u8>>>, AllocError> {
    let mut inputs = Vec::new(alloc);
    for name in &case.inputs {
        let Some(bytes) = case.text(name.as_str()) else {
            return Ok(None);
        };
        inputs.push(Vec::from_slice(alloc, bytes)?)?;
    }
    Ok(Some(inputs))
}
