//! The item with which a frame stands in FILL at the opening.
ghost use Rattle.std.specs.Prelude.{◌≡◌};
ghost use Rattle.xsk_model.specs.Opening.{home_item as item_at_home};

use xsk_umem::{Frame, Geometry, Item, XdpDesc};

/// The item of a frame on FILL: its base address, with no length and no options.
pub fn home_item(geometry: &Geometry, frame: Frame) -> Item
    ensures { result ≡ item_at_home geometry.now frame }
{
    let addr = geometry.base_of(frame.number());
    Item {
        frame: Some(frame),
        desc: XdpDesc {
            addr,
            len: 0,
            options: 0,
        },
    }
}
