//! Why a script doesn't go on.

use std::alloc::{AllocError, AllocFailed};
use xsk_umem::OutOfMemory;

#[derive(Clone, Copy)]
pub(crate) enum Trouble {
    NoMemory,
    BadLine,
    BadLayout,
    NoFrame,
    NoWorker,
    BadReply,
    Miscounted,
}

impl Trouble {
    fn words(self) -> &'static str {
        match self {
            Trouble::NoMemory => "out of memory",
            Trouble::BadLine => "a line can't be read",
            Trouble::BadLayout => "the layout isn't accepted",
            Trouble::NoFrame => "the frame isn't there",
            Trouble::NoWorker => "there is no such worker",
            Trouble::BadReply => "that reply can't come",
            Trouble::Miscounted => "a program counts other calls than its closure",
        }
    }

    /// Tells it in a line.
    pub(crate) fn tell(self, text: &mut String) -> Result<(), AllocError> {
        text.push_str(self.words())?;
        text.push('\n')
    }
}

impl From<AllocError> for Trouble {
    fn from(_error: AllocError) -> Trouble {
        Trouble::NoMemory
    }
}

impl<T: Drop> From<AllocFailed<T>> for Trouble {
    fn from(_error: AllocFailed<T>) -> Trouble {
        Trouble::NoMemory
    }
}

impl From<OutOfMemory> for Trouble {
    fn from(_error: OutOfMemory) -> Trouble {
        Trouble::NoMemory
    }
}
