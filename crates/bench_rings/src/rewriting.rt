//! The descriptors of items that go on to another ring.
ghost use Rattle.std.specs.Prelude.{◌≡◌, ◌<◌, ◌^◌, All, IsTrue, IfSome};
ghost use Rattle.xsk_model.specs.Numbers.{number_of};
ghost use Rattle.bench_rings.specs.Moving.{IsWhole, IsMoved, Moved};

use xsk_umem::{Batch, Item, XdpDesc};

/// An item whose descriptor tells of so many bytes at an offset of its frame. It is `None` where it has no frame.
fn rewritten(item: Item, offset: u32, len: u32) -> Option<Item>
    requires whole { IsWhole item }
    requires offset { offset < 2048 }
    ensures moved { IfSome result (λ moved. IsMoved offset len moved) }
    ensures number { IfSome result (λ moved. number_of item.frame ≡ number_of moved.frame) }
{
    let Item { frame, .. } = item;
    let Some(frame) = frame else {
        return None;
    };
    let addr = u64::from(frame.number()) * 2048 + u64::from(offset);
    Some(Item {
        frame: Some(frame),
        desc: XdpDesc {
            addr,
            len,
            options: 0,
        },
    })
}

/// Does so to each item of a batch, and tells whether all have frames.
pub(crate) fn rewrites(items: &mut Batch, offset: u32, len: u32) -> bool
    requires whole { All IsWhole items.old }
    requires offset { offset < 2048 }
    ensures moved { IsTrue result → Moved offset len items.old items.new }
{
    'items: for _ in 0..items.len() {
        let Some(item) = items.pop_front() else {
            return false;
        };
        let Some(moved) = rewritten(item, offset, len) else {
            return false;
        };
        items.push(moved);
    }
    true
}
