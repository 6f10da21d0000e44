//! The frames that an application has to give back to FILL. It holds as many frames as a UMEM has, so no call takes
//! memory (the invariant).
ghost use Rattle.std.specs.Prelude.{◌≡◌, ◌==◌, ◌<◌, ◌≤◌, [], ◌++◌, ◌↔◌, IsTrue, IfOk, IsNone, IfSome, length, map, take, drop};
ghost use Rattle.std.specs.List.{take_while};
ghost use Rattle.xsk_umem.specs.Limits.{most_frames};
ghost use Rattle.xsk_model.specs.Opening.{home_item as item_at_home};
ghost use Rattle.xsk_turns.specs.AppTurns.{home_of};

use std::alloc::Global;
use std::collections::VecDeque;
use std::marker::Model;
use xsk_model::home_item;
use xsk_turns::giving::give_frames;
use xsk_umem::{Batch, Frame, Frames, Geometry, OutOfMemory};

/// The most frames that a side has to give back: as many as a UMEM may have.
const MOST_BACK: usize = 4096;

/// The frames that a side has yet to give back, in order. There is room for all frames of a UMEM.
#[derive(Drop)]
pub struct Back {
    frames: VecDeque<Frame>,
}

impl Model for Back {
    ghost use Rattle.std.specs.Prelude.{◌≤◌, List, length};
    ghost use Rattle.std.specs.VecDeque.{deque_capacity};
    ghost use Rattle.xsk_umem.specs.Frame.{Frame};

    ghost Value = { List Frame };

    ghost view = { λ b. b.frames.items };

    ghost invariant = { λ b. (length b.frames.items ≤ 4096) × (4096 ≤ deque_capacity b.frames) };
}

impl Back {
    ghost use Rattle.xsk_turns.specs.Turns.{frame_in, frames_in};
    ghost use Rattle.xsk_turns.specs.Giving.{with_frames};
    ghost use Rattle.xsk_app.specs.Ways.{IsGroup};

    /// None, with room for all frames of a UMEM.
    pub fn new(alloc: Global) -> Result<Back, OutOfMemory>
        ensures { IfOk result (λ back. back ≡ []) }
    {
        Ok(Back {
            frames: VecDeque::with_capacity(alloc, MOST_BACK)?,
        })
    }

    /// Whether there is none.
    pub fn is_empty(&self) -> bool
        ensures { IsTrue result ↔ (self.now ≡ []) }
    {
        self.frames.is_empty()
    }

    /// Takes the items out of a batch, and keeps their frames. None may stand here before.
    pub fn keep(&mut self, items: &mut Batch)
        requires { self.old ≡ [] }
        ensures frames { self.new ≡ frames_in items.old }
        ensures items { items.new ≡ [] }
    {
        for _ in 0..items.len() {
            let item = items.pop_front().unwrap();
            if let Some(frame) = item.frame {
                self.frames.push_back_reserved(frame);
            }
        }
    }

    /// Keeps a frame, where there is one, behind the others, unless it has as many as a UMEM may have.
    pub(crate) fn add(&mut self, frame: Option<Frame>)
        ensures { self.new ≡ take most_frames (self.old ++ frame_in frame) }
    {
        if self.frames.len() < MOST_BACK {
            if let Some(frame) = frame {
                self.frames.push_back_reserved(frame);
            }
        }
    }

    /// How many frames it has.
    pub(crate) fn len(&self) -> usize
        ensures value { result ≡ length self.now }
        ensures few { length self.now ≤ most_frames }
    {
        self.frames.len()
    }

    /// The home of the first frame, and how many frames from the front have it, at most a batch.
    pub fn first_group(&self, pool: u32, batch: u32) -> Option<(u32, u32)>
        requires pool { 0 < pool }
        requires batch { batch ≤ 32 }
        ensures none { IsNone result ↔ (self.now ≡ []) }
        ensures some { IfSome result (λ group. IsGroup pool batch self.now group.0 group.1) }
    {
        let home = self.frames.front()?.number() / pool;
        let count = count_at_home(&self.frames, pool, home, batch as usize);
        Some((home, count as u32))
    }

    /// Puts so many of the first frames into an empty batch, as items for FILL. So many must stand here.
    pub fn give(&mut self, geometry: &Geometry, count: u32, items: &mut Batch)
        requires few { count ≤ 32 }
        requires here { count ≤ length self.old }
        requires empty { items.old ≡ [] }
        ensures items { items.new ≡ map (item_at_home geometry.now) (take count self.old) }
        ensures left { self.new ≡ drop count self.old }
    {
        for _ in 0..count {
            let frame = self.frames.pop_front().unwrap();
            items.push(home_item(geometry, frame));
        }
    }

    /// Appends all frames to the queue, as many as it has room for.
    pub(crate) fn give_all(self, frames: &mut Frames)
        ensures { frames.new ≡ with_frames frames.old self }
    {
        let Back { frames: back } = self;
        give_frames(frames, back);
    }
}

/// How many frames from the front have this home, at most so many.
fn count_at_home(frames: &VecDeque<Frame>, pool: u32, home: u32, most: usize) -> usize
    requires { 0 < pool }
    ensures { result ≡ length (take most (take_while (λ frame. home_of pool frame == home) frames.now.items)) }
{
    frames
        .iter()
        .take_while(|frame| frame.number() / pool == home)
        .take(most)
        .count()
}
