//! The frames that callers have. What a Peek gives is put here, and what a Submit names is taken from here, so no call
//! makes or loses a frame (`specs/Shelf`).
ghost use Rattle.std.specs.Prelude.{◌≡◌, ◌≤◌, ◌<◌, ℕ, Some, None, [], true, false, replicate, length, IfNone, IfSome, IfOk};
ghost use Rattle.std.specs.List.{slice_set};
ghost use Rattle.xsk_umem.specs.Geometry.{frame_of};
ghost use Rattle.xsk_audit.specs.Shelf.{frame_at, has, AreInPlace, HasItsFrame, IsLent, Lacks, descs_of, with_items, without_frame};

use std::alloc::Global;
use std::marker::Model;
use xsk_umem::{Batch, Frame, Geometry, Item, OutOfMemory, XdpDesc};

/// The frames that callers have, each in the place of its number.
#[derive(Drop)]
pub(crate) struct Shelf {
    frames: Vec<Option<Frame>>,
}

impl Model for Shelf {
    ghost use Rattle.xsk_audit.specs.Shelf.{Places};

    ghost Value = { Places };

    ghost view = { λ s. s.frames.items };
}

impl Shelf {
    /// One with so many places, all of them empty.
    pub(crate) fn new(alloc: Global, count: u32) -> Result<Shelf, OutOfMemory>
        ensures { IfOk result (λ shelf. shelf ≡ replicate count None) }
    {
        let mut frames = Vec::with_capacity(alloc, count as usize)?;
        for _place in 0..count {
            frames.push(None)?;
        }
        Ok(Shelf { frames })
    }

    /// Takes the frame of a number, if it lies there.
    fn take(&mut self, number: u32) -> Option<Frame>
        ensures frame { result ≡ frame_at self.old number }
        ensures left { self.new ≡ slice_set self.old number None }
    {
        self.frames.get_mut(number as usize)?.take()
    }

    /// Puts a frame in the place of its number.
    fn put(&mut self, frame: Frame)
        ensures { self.new ≡ slice_set self.old frame.number (Some frame) }
    {
        let number = frame.number();
        if let Some(place) = self.frames.get_mut(number as usize) {
            *place = Some(frame);
        }
    }

    /// The item of a descriptor, with the frame of its address, which is taken. It gives none where that isn't there.
    fn item(&mut self, geometry: &Geometry, desc: XdpDesc) -> Option<Item>
        requires { AreInPlace geometry.now self.old }
        ensures desc { IfSome result (λ item. item.desc ≡ desc) }
        ensures frame { IfSome result (HasItsFrame geometry.now) }
        ensures from { IfSome result (λ item. (n : ℕ) → frame_of geometry.now desc.addr ≡ Some n → frame_at self.old n ≡ item.frame) }
        ensures left { self.new ≡ without_frame self.old (frame_of geometry.now desc.addr) }
        ensures none { IfNone result ((n : ℕ) × (frame_of geometry.now desc.addr ≡ Some n) × (has self.old n ≡ 0)) }
    {
        let frame = match geometry.frame_of(desc.addr) {
            Some(number) => Some(self.take(number)?),
            None => None,
        };
        Some(Item { frame, desc })
    }

    /// Puts items with the frames of their addresses, which are taken, into an empty batch. The answer is whether each frame
    /// is there.
    pub(crate) fn lend(&mut self, geometry: &Geometry, told: &Batch, items: &mut Batch) -> bool
        requires places { AreInPlace geometry.now self.old }
        requires empty { items.old ≡ [] }
        ensures lent { result ≡ true → IsLent geometry.now self.old self.new (descs_of told.now) items.new }
        ensures lacks { result ≡ false → Lacks geometry.now self.old (descs_of told.now) }
        ensures places { AreInPlace geometry.now self.new }
        ensures count { length self.new ≡ length self.old }
    {
        'items: for i in 0..told.len() {
            let Some(item) = self.item(geometry, told.desc(i)) else {
                return false;
            };
            items.push(item);
        }
        true
    }

    /// Keeps the frames of items, of which none are left.
    pub(crate) fn keep(&mut self, items: &mut Batch)
        ensures kept { self.new ≡ with_items self.old items.old }
        ensures left { items.new ≡ [] }
    {
        'items: for _item in 0..items.len() {
            if let Some(item) = items.pop_front() {
                if let Some(frame) = item.frame {
                    self.put(frame);
                }
            }
        }
    }
}
