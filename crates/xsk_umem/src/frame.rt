//! Frames, each a number and its chunk, and queues of frames. Only a registration makes frames (`Frame::zeroed`), and no
//! call copies, renumbers or resizes one. So contracts can count the holders of a number, and each has one.
//!
//! A frame tells its number and not its UMEM. Who registers two UMEMs keeps their frames apart: a frame of the one passes for the
//! other's frame of the same number, and what is then read at an address are bytes of the wrong area.
ghost use Rattle.std.specs.Prelude.{◌≡◌, ◌+◌, ◌<◌, ◌≤◌, [], ◌∷◌, ◌++◌, length, replicate, ◌↔◌, IsTrue, IfOk, IsNone, IfSome, IfNone};
ghost use Rattle.std.specs.List.Sorted.{IsPermutation, IsNonDecreasingBy};
ghost use Rattle.std.specs.VecDeque.{deque_capacity};
ghost use Rattle.xsk_umem.specs.Frame.{Frame as Body, IsFrame, written_at};
ghost use Rattle.xsk_umem.specs.Frames.{Frames as Queue};
ghost use Rattle.xsk_umem.specs.Geometry.{IsChunkSize};
ghost use Rattle.xsk_umem.specs.Limits.{most_frames};

use crate::OutOfMemory;
use std::alloc::Global;
use std::collections::VecDeque;
use std::marker::Model;

/// One chunk of a UMEM with its number. It is moved from holder to holder and can't be copied, and only the
/// registration of a UMEM makes one. It is a pointer wide, so that items and batches are cheap to move.
#[derive(Debug, Drop)]
pub struct Frame {
    chunk: Box<Chunk>,
}

/// The number of a frame and its bytes.
#[derive(Debug, Drop)]
struct Chunk {
    number: u32,
    bytes: Vec<u8>,
}

impl Model for Frame {
    ghost Value = { Body };

    ghost view = { λ f. record { number = f.chunk.value.number; bytes = f.chunk.value.bytes.items } };

    ghost invariant = { λ f. IsFrame (record { number = f.chunk.value.number; bytes = f.chunk.value.bytes.items }) };
}

impl Frame {
    pub(crate) fn zeroed(alloc: Global, number: u32, chunk: u32) -> Result<Frame, OutOfMemory>
        requires number { number < most_frames }
        requires chunk { IsChunkSize chunk }
        ensures { IfOk result (λ f. f ≡ record { number = number; bytes = replicate chunk 0 }) }
    {
        let bytes = vec![in alloc; 0u8; chunk as usize]?;
        let chunk = Box::new(alloc, Chunk { number, bytes })?;
        Ok(Frame { chunk })
    }

    /// The frame's number in its UMEM, counted from 0.
    pub fn number(&self) -> u32
        ensures value { result ≡ self.now.number }
        ensures lawful { IsFrame self.now }
    {
        self.chunk.number
    }

    /// The bytes of the whole chunk.
    pub fn bytes(&self) -> &[u8]
        ensures value { result.now ≡ self.now.bytes }
        ensures lawful { IsFrame self.now }
    {
        self.chunk.bytes.as_slice()
    }

    /// Writes the piece at the offset in the chunk and leaves all other bytes. The piece must fit.
    pub fn fill(&mut self, offset: u32, piece: &[u8])
        requires { offset + length piece.now ≤ length self.old.bytes }
        ensures { self.new ≡ record self.old { bytes = written_at self.old.bytes offset piece.now } }
    {
        let start = offset as usize;
        let end = start + piece.len();
        self.chunk.bytes.as_mut_slice()[start..end].copy_from_slice(piece);
    }
}

/// A queue of frames with room for all frames of its UMEM.
#[derive(Debug, Drop)]
pub struct Frames {
    items: VecDeque<Frame>,
    limit: u32,
}

impl Model for Frames {
    ghost Value = { Queue };

    ghost view = { λ f. record { items = f.items.items; limit = f.limit } };

    ghost invariant = { λ f. (length f.items.items ≤ f.limit) × (f.limit ≤ deque_capacity f.items) };
}

impl Frames {
    pub(crate) fn with_room(alloc: Global, limit: u32) -> Result<Frames, OutOfMemory>
        ensures { IfOk result (λ f. f ≡ record { items = []; limit = limit }) }
    {
        let items = VecDeque::with_capacity(alloc, limit as usize)?;
        Ok(Frames { items, limit })
    }

    /// The number of frames that stand in the queue.
    pub fn len(&self) -> u32
        ensures value { result ≡ length self.now.items }
        ensures room { length self.now.items ≤ self.now.limit }
    {
        let _limit = self.limit;
        self.items.len() as u32
    }

    /// Whether no frame stands in the queue.
    pub fn is_empty(&self) -> bool
        ensures { IsTrue result ↔ (self.now.items ≡ []) }
    {
        self.items.is_empty()
    }

    /// Whether all frames of the UMEM stand in the queue, so that none can be appended.
    pub fn is_full(&self) -> bool
        ensures { IsTrue result ↔ (self.now.limit ≤ length self.now.items) }
    {
        self.items.len() >= self.limit as usize
    }

    /// Takes the first frame, and `None` exactly where the queue is empty.
    pub fn pop_front(&mut self) -> Option<Frame>
        ensures empty { IsNone result ↔ (self.old.items ≡ []) }
        ensures some { IfSome result (λ f. self.old.items ≡ f ∷ self.new.items) }
        ensures none { IfNone result (self.new.items ≡ []) }
        ensures limit { self.new.limit ≡ self.old.limit }
    {
        self.items.pop_front()
    }

    /// Puts the frames in the order of their numbers. It takes no memory.
    pub fn sort(&mut self)
        ensures same { IsPermutation self.old.items self.new.items }
        ensures ordered { IsNonDecreasingBy (λ (frame : Body). frame.number) self.new.items }
        ensures limit { self.new.limit ≡ self.old.limit }
    {
        self.items
            .make_contiguous()
            .sort_unstable_by_key(|frame| frame.number());
    }

    /// Appends a frame. Fewer frames than those of the UMEM must stand in the queue.
    pub fn push_back(&mut self, frame: Frame)
        requires { length self.old.items < self.old.limit }
        ensures { self.new ≡ record self.old { items = self.old.items ++ frame ∷ [] } }
    {
        self.items.push_back_reserved(frame);
    }
}
