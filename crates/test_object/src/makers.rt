//! What makes the calls of a script, and how it is opened.
ghost use Rattle.xsk_model.specs.Config.{IsLawful};
ghost use Rattle.xsk_model.specs.Opening.{AreFrames};

use crate::line::Fault;
use std::alloc::Global;
use xsk_model::Config;
use xsk_umem::Frames;

/// What makes the calls of a script.
#[derive(Clone, Copy)]
pub(crate) enum Makers {
    /// The object that tells which calls are legal, and a table whose counts start at a number.
    Both(u32),
    /// This object alone.
    Checked,
    /// The same, asked why a call isn't legal.
    Why,
    /// The object alone that makes each call that can be made.
    Plain,
}

/// What is opened over a configuration with all its frames.
pub(crate) trait Maker: Drop {
    fn open(alloc: Global, config: Config, frames: Frames, makers: Makers) -> Result<Self, Fault>
        requires lawful { IsLawful config }
        requires frames { AreFrames config.geometry frames.items };
}
