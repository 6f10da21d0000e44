//! The registration of a UMEM: its geometry with its frames, or why it is refused.
ghost use Rattle.std.specs.Prelude.{◌≡◌, ℕ, ◌/◌, ◌≤◌, Option, Some, None, Result, Err, IfOk, IsOkUnless};
ghost use Rattle.xsk_umem.specs.Geometry.{IsChunkSize};
ghost use Rattle.xsk_umem.specs.Limits.{most_frames};
ghost use Rattle.xsk_umem.specs.Registration.{fresh, first_refusal};

use crate::{Frame, Frames, Geometry, OutOfMemory};
use std::alloc::Global;
use thiserror::Error;

/// Why an area wasn't registered.
#[derive(Clone, Copy, Debug, PartialEq, Eq, Error)]
pub enum UmemError {
    /// The chunk has neither 2,048 nor 4,096 bytes.
    #[error("the chunk size is neither 2048 nor 4096")]
    BadChunk,
    /// The headroom leaves no room for data: it isn't below the chunk less 256.
    #[error("the headroom leaves no room for data")]
    BadHeadroom,
    /// The length is 0 or no multiple of the chunk.
    #[error("the length is no positive multiple of the chunk size")]
    BadLength,
    /// The area has more than 4,096 chunks.
    #[error("the area has more than 4096 chunks")]
    TooLarge,
    /// Memory for the frames couldn't be had.
    #[error("out of memory")]
    OutOfMemory,
}

impl From<OutOfMemory> for UmemError {
    ghost use Rattle.std.specs.Prelude.{◌≡◌};
    ghost use Rattle.xsk_umem.specs.declared.umem.UmemError.TheVariants.{OutOfMemory as TheOutOfMemory};

    ghost from_gives = { λ _ e. e ≡ TheOutOfMemory };

    fn from(_error: OutOfMemory) -> UmemError {
        UmemError::OutOfMemory
    }
}

/// The area of memory that sockets share (af_xdp.rst, "UMEM").
#[derive(Clone, Copy, Debug, PartialEq, Eq)]
pub struct Umem;

impl Umem {
    /// Registers an area of `len` bytes, cut into chunks, and gives its geometry and its frames in order, each zeroed.
    ///
    /// The first reason of [`UmemError`], in its order, decides; want of memory stands last.
    pub fn register(
        alloc: Global,
        len: u64,
        chunk: u32,
        headroom: u32,
    ) -> Result<(Geometry, Frames), UmemError>
        ensures refused { (e : _) → first_refusal len chunk headroom ≡ Some e → result ≡ Err e }
        ensures accepted { first_refusal len chunk headroom ≡ None → IsOkUnless result UmemError.OutOfMemory }
        ensures geometry { IfOk result (λ made. made.0 ≡ record { frames = len / chunk; chunk = chunk; headroom = headroom }) }
        ensures frames { IfOk result (λ made. made.1 ≡ record { items = fresh chunk (len / chunk); limit = len / chunk }) }
    {
        let geometry = Geometry::of_area(len, chunk, headroom)?;
        let frames = Umem::fresh(alloc, geometry.frames(), geometry.chunk())?;
        Ok((geometry, frames))
    }

    fn fresh(alloc: Global, count: u32, chunk: u32) -> Result<Frames, OutOfMemory>
        requires count { count ≤ most_frames }
        requires chunk { IsChunkSize chunk }
        ensures { IfOk result (λ frames. frames ≡ record { items = fresh chunk count; limit = count }) }
    {
        let mut frames = Frames::with_room(alloc, count)?;
        for number in 0..count {
            frames.push_back(Frame::zeroed(alloc, number, chunk)?);
        }
        Ok(frames)
    }
}
