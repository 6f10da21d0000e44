//! Frames that a worker has go to a queue of their UMEM, as many as it has room for.
ghost use Rattle.std.specs.Prelude.{◌≡◌, flat_map};
ghost use Rattle.xsk_turns.specs.Giving.{with_frames};
ghost use Rattle.xsk_turns.specs.Turns.{frame_in, frames_in};

use std::collections::VecDeque;
use xsk_umem::{Batch, Frame, Frames};

/// Appends these frames.
pub fn give_frames(frames: &mut Frames, given: VecDeque<Frame>)
    ensures { frames.new ≡ with_frames frames.old given.items }
{
    let mut given = given;
    while let Some(frame) = given.pop_front() {
        give_frame(frames, Some(frame));
    }
}

/// Appends the frames of these batches, one batch after the other.
pub fn give_batches(frames: &mut Frames, batches: Vec<Batch>)
    ensures { frames.new ≡ with_frames frames.old (flat_map frames_in batches.items) }
{
    for items in batches {
        give_items(frames, items);
    }
}

/// Appends the frames of these items.
fn give_items(frames: &mut Frames, items: Batch)
    ensures { frames.new ≡ with_frames frames.old (frames_in items) }
{
    let mut items = items;
    while let Some(item) = items.pop_front() {
        give_frame(frames, item.frame);
    }
}

/// Appends a frame, where there is one and room for it.
pub fn give_frame(frames: &mut Frames, frame: Option<Frame>)
    ensures { frames.new ≡ with_frames frames.old (frame_in frame) }
{
    if let Some(frame) = frame
        && !frames.is_full()
    {
        frames.push_back(frame);
    }
}
