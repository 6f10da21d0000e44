//! The configuration of a script and the frames of its UMEM.
ghost use Rattle.std.specs.Prelude.{IfOk};
ghost use Rattle.xsk_model.specs.Config.{IsRegular};
ghost use Rattle.xsk_model.specs.Opening.{AreFrames};

use crate::layout::layout_of;
use crate::trouble::Trouble;
use crate::words::Line;
use fixtures::opened;
use std::alloc::Global;
use xsk_model::Config;
use xsk_umem::Frames;

/// The configuration of a script's layout, and the frames of its UMEM.
pub(crate) fn set_up(alloc: Global, lines: &[Line<'_>]) -> Result<(Config, Frames), Trouble>
    ensures regular { IfOk result (λ made. IsRegular made.0) }
    ensures frames { IfOk result (λ made. AreFrames made.0.geometry made.1.items) }
{
    let layout = layout_of(lines)?;
    Ok(opened(alloc, &layout)?)
}
