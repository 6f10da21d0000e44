//! The bytes of an item's packet in its frame.
ghost use Rattle.std.specs.Prelude.{◌≡◌};
ghost use Rattle.xsk_model.specs.Descriptor.{payload};

use crate::descriptor::{offset_in, validate};
use xsk_umem::{Geometry, Item};

/// The bytes of an item's packet in its frame: those that its descriptor names where it is valid, and none elsewhere.
pub fn payload_of<'a>(item: &'a Item, geometry: &Geometry, sg: bool) -> &'a [u8]
    ensures { result.now ≡ payload geometry.now sg item.now }
{
    let desc = item.desc;
    if validate(desc, geometry, sg).is_err() {
        return &[];
    }
    match &item.frame {
        None => &[],
        Some(frame) => {
            let bytes = frame.bytes();
            let start = (offset_in(desc.addr, geometry.chunk()) as usize).min(bytes.len());
            let end = (start + desc.len as usize).min(bytes.len());
            &bytes[start..end]
        }
    }
}
