//! The configuration of a simulation and the frames of its UMEM.
ghost use Rattle.std.specs.Prelude.{◌≡◌, ◌/◌, None, IfOk};
ghost use Rattle.xsk_model.specs.Config.{IsRegular};
ghost use Rattle.xsk_model.specs.Opening.{AreFrames};
ghost use Rattle.xsk_socket.specs.Layout.{fault_of, geometry_of};
ghost use Rattle.xsk_socket.specs.Regular.{regular_of};
ghost use Rattle.xsk_cli.specs.Outcome.{frames_of};

use std::alloc::Global;
use xsk_model::Config;
use xsk_socket::{Layout, regular};
use xsk_umem::{Frames, Geometry, OutOfMemory, Umem};

/// The configuration of an accepted layout, and the frames of its UMEM.
pub(crate) fn set_up(alloc: Global, layout: &Layout) -> Result<(Config, Frames), OutOfMemory>
    requires { fault_of layout.now ≡ None }
    ensures config { IfOk result (λ made. made.0 ≡ regular_of layout.now) }
    ensures regular { IfOk result (λ made. IsRegular made.0) }
    ensures frames { IfOk result (λ made. made.1.items ≡ frames_of layout.now) }
    ensures known { IfOk result (λ made. AreFrames (geometry_of layout.now) made.1.items) }
{
    let (geometry, frames) = register(alloc, layout)?;
    let config = regular(alloc, geometry, layout)?;
    Ok((config, frames))
}

/// The UMEM of an accepted layout: its geometry and its frames.
fn register(alloc: Global, layout: &Layout) -> Result<(Geometry, Frames), OutOfMemory>
    requires { fault_of layout.now ≡ None }
    ensures geometry { IfOk result (λ made. made.0 ≡ geometry_of layout.now) }
    ensures frames { IfOk result (λ made. made.1.items ≡ frames_of layout.now) }
{
    let len = u64::from(layout.frames) * u64::from(layout.chunk);
    match Umem::register(alloc, len, layout.chunk, layout.headroom) {
        Ok(made) => Ok(made),
        Err(_) => Err(OutOfMemory),
    }
}
