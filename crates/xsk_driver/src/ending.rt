//! The frames of the packets that a driver hasn't completed go to a queue of their UMEM.
ghost use Rattle.std.specs.Prelude.{◌≡◌};
ghost use Rattle.xsk_turns.specs.Giving.{with_frames};
ghost use Rattle.xsk_turns.specs.Turns.{frames_in};

use std::collections::VecDeque;
use xsk_turns::giving::give_frame;
use xsk_umem::{Frame, Frames, Item};

/// Appends the frames of the items of finished packets.
pub(crate) fn give_finished(frames: &mut Frames, items: VecDeque<Item>)
    ensures { frames.new ≡ with_frames frames.old (frames_in items.items) }
{
    let mut items = items;
    while let Some(item) = items.pop_front() {
        give_frame(frames, item.frame);
    }
}

/// Appends the frames of bad packets.
pub(crate) fn give_lost(frames: &mut Frames, lost: Vec<Frame>)
    ensures { frames.new ≡ with_frames frames.old lost.items }
{
    for frame in lost {
        give_frame(frames, Some(frame));
    }
}
