//! Frames that come back, put in the order in which an engine is opened over them.
ghost use Rattle.std.specs.Prelude.{◌≡◌, ◌↔◌, IsTrue, length};
ghost use Rattle.std.specs.List.Sorted.{IsPermutation, IsNonDecreasingBy};
ghost use Rattle.xsk_model.specs.Opening.{AreFrames};
ghost use Rattle.xsk_umem.specs.Frame.{Frame as Body};
ghost use Rattle.xsk_socket.specs.InPlace.{AreInPlace, IsInPlace};

use xsk_umem::{Frame, Frames, Geometry};

/// Puts frames in the order of their numbers, and tells whether they are all frames of a UMEM, so that an engine may be opened over
/// them (again): each number below the geometry's frames once, each with a chunk's bytes. No frame is lost.
pub fn all_frames(geometry: &Geometry, frames: &mut Frames) -> bool
    ensures same { IsPermutation frames.old.items frames.new.items }
    ensures ordered { IsNonDecreasingBy (λ (frame : Body). frame.number) frames.new.items }
    ensures limit { frames.new.limit ≡ frames.old.limit }
    ensures all { IsTrue result ↔ AreFrames geometry.now frames.new.items }
{
    frames.sort();
    if frames.len() != geometry.frames() {
        return false;
    }
    are_in_place(geometry.chunk(), frames)
}

/// Whether the number of each frame is its place, and each has so many bytes. The frames stay as they are.
fn are_in_place(chunk: u32, frames: &mut Frames) -> bool
    ensures same { frames.new ≡ frames.old }
    ensures in_place { IsTrue result ↔ AreInPlace chunk 0 frames.old.items }
{
    let mut all = true;
    for number in 0..frames.len() {
        let Some(frame) = frames.pop_front() else {
            unreachable!()
        };
        if !is_in_place(&frame, number, chunk) {
            all = false;
        }
        frames.push_back(frame);
    }
    all
}

/// Whether a frame has this number and so many bytes.
fn is_in_place(frame: &Frame, number: u32, chunk: u32) -> bool
    ensures { IsTrue result ↔ IsInPlace chunk number frame.now }
{
    frame.number() == number && frame.bytes().len() == chunk as usize
}
