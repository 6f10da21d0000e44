//! What is told of a case.
use std::alloc::{AllocError, Global};
use std::fmt::{Debug, Display, Write};

/// A text that grows. Where memory fails, what was told since is lost, and this shows at the end.
#[derive(Drop)]
pub struct Told {
    text: String,
    is_lost: bool,
}

impl Told {
    pub fn new(alloc: Global) -> Told {
        Told {
            text: String::new(alloc),
            is_lost: false,
        }
    }

    /// The whole text.
    pub fn into_text(self) -> Result<String, AllocError> {
        if self.is_lost {
            return Err(AllocError);
        }
        Ok(self.text)
    }

    pub fn text(&self) -> &str {
        self.text.as_str()
    }

    /// Takes the text back.
    pub fn clear(&mut self) {
        self.text.clear();
    }

    pub fn is_lost(&self) -> bool {
        self.is_lost
    }

    /// Tells that memory failed for what was to be told.
    pub fn lose(&mut self) {
        self.is_lost = true;
    }

    pub fn say(&mut self, text: &str) {
        if self.text.push_str(text).is_err() {
            self.is_lost = true;
        }
    }

    pub fn number(&mut self, number: u32) {
        self.long(u64::from(number));
    }

    pub fn long(&mut self, number: u64) {
        if write!(self.text, "{number}").is_err() {
            self.is_lost = true;
        }
    }

    pub fn count(&mut self, count: usize) {
        self.long(count as u64);
    }

    /// A byte as two digits.
    pub fn hex(&mut self, byte: u8) {
        if write!(self.text, "{byte:02x}").is_err() {
            self.is_lost = true;
        }
    }

    /// A value in its own words.
    pub fn message<T: Display>(&mut self, value: &T) {
        if write!(self.text, "{value}").is_err() {
            self.is_lost = true;
        }
    }

    /// A value by the name that it has in code.
    pub fn name<T: Debug>(&mut self, value: &T) {
        if write!(self.text, "{value:?}").is_err() {
            self.is_lost = true;
        }
    }
}
