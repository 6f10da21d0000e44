//! The configurations of these tests, with all frames of their UMEMs.
ghost use Rattle.std.specs.Prelude.{◌≡◌, IfSome};
ghost use Rattle.xsk_model.specs.Config.{IsRegular};
ghost use Rattle.xsk_model.specs.Opening.{AreFrames};

pub(crate) use fixtures::filled as layout;
use fixtures::opened;
use std::alloc::Global;
use xsk_model::Config;
use xsk_socket::{Layout, check_layout};
use xsk_umem::Frames;

/// The configuration of a layout, and the frames of its UMEM. None where the layout isn't accepted, or memory is wanting.
pub(crate) fn set_up(alloc: Global, layout: &Layout) -> Option<(Config, Frames)>
    ensures regular { IfSome result (λ made. IsRegular made.0) }
    ensures frames { IfSome result (λ made. AreFrames made.0.geometry made.1.items) }
    ensures ports { IfSome result (λ made. made.0.ports ≡ layout.now.ports) }
{
    if check_layout(layout).is_err() {
        return None;
    }
    match opened(alloc, layout) {
        Ok(made) => Some(made),
        Err(_) => None,
    }
}
