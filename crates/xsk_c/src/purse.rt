//! The frames that applications have, by their numbers.
ghost use Rattle.std.specs.Prelude.{◌≡◌, ◌%◌, ◌<◌, [], None, Some, IfOk, get_or, set, replicate};
ghost use Rattle.xsk_umem.specs.Geometry.{IsChunkSize};
ghost use Rattle.xsk_c.specs.Purse.{frame_at, without, with_frame, with_frames, Fills, Writes, ReadsFrom};

use crate::answers::{DONE, NO_SUCH, SHORT};
use std::alloc::{AllocError, Global};
use std::mem;
use xsk_umem::{Batch, Frame, Geometry};

/// A place for each frame of the UMEM: the frame, while an application has it.
#[derive(Drop)]
pub(crate) struct Purse {
    frames: Vec<Option<Frame>>,
}

impl Purse {
    /// An empty one, with places for so many frames.
    pub(crate) fn new(alloc: Global, count: u32) -> Result<Purse, AllocError>
        ensures { IfOk result (λ purse. purse.frames.items ≡ replicate count None) }
    {
        let mut frames = Vec::with_capacity(alloc, count as usize)?;
        for i in 0..count {
            frames.push(None)?;
        }
        Ok(Purse { frames })
    }

    /// Takes the frame of an address, if it is there.
    pub(crate) fn take(&mut self, geometry: &Geometry, addr: u64) -> Option<Frame>
        ensures frame { result ≡ frame_at geometry.now self.old.frames.items addr }
        ensures left { self.new.frames.items ≡ without geometry.now self.old.frames.items addr }
    {
        match geometry.frame_of(addr) {
            Some(number) => self.take_number(number),
            None => None,
        }
    }

    #[tactic(auto, using(crate::proofs::Places::set_past, crate::proofs::Places::get_past))]
    fn take_number(&mut self, number: u32) -> Option<Frame>
        ensures frame { result ≡ get_or self.old.frames.items number None }
        ensures left { self.new.frames.items ≡ set self.old.frames.items number None }
    {
        let place = number as usize;
        if place >= self.frames.len() {
            return None;
        }
        mem::replace(&mut self.frames[place], None)
    }

    /// Puts the frames of a batch in their places, and empties it.
    pub(crate) fn put_all(&mut self, items: &mut Batch)
        ensures frames { self.new.frames.items ≡ with_frames self.old.frames.items items.old }
        ensures items { items.new ≡ [] }
    {
        for i in 0..items.len() {
            let item = items.pop_front().unwrap();
            if let Some(frame) = item.frame {
                self.put(frame);
            }
        }
    }

    /// Puts a frame in its place.
    #[tactic(auto, using(crate::proofs::Places::set_past))]
    fn put(&mut self, frame: Frame)
        ensures { self.new.frames.items ≡ with_frame self.old.frames.items (Some frame) }
    {
        let place = frame.number() as usize;
        if place < self.frames.len() {
            self.frames[place] = Some(frame);
        }
    }

    /// Writes bytes to the frame of an address from there on, if it is there and they fit.
    pub(crate) fn write(&mut self, geometry: &Geometry, addr: u64, piece: &[u8]) -> u32
        ensures { Writes geometry.now addr piece.now self.old.frames.items self.new.frames.items result }
    {
        match geometry.frame_of(addr) {
            Some(number) if (number as usize) < self.frames.len() => {
                write_to(&mut self.frames[number as usize], addr, piece)
            }
            _ => NO_SUCH,
        }
    }

    /// Copies bytes of the frame of an address from there on, as many as there is room for, if it is there and has so many.
    pub(crate) fn read(&self, geometry: &Geometry, addr: u64, out: &mut [u8]) -> u32
        ensures { ReadsFrom addr (frame_at geometry.now self.now.frames.items addr) out.old out.new result }
    {
        let Some(number) = geometry.frame_of(addr) else {
            return NO_SUCH;
        };
        match self.frames.get(number as usize) {
            Some(Some(frame)) => read_from(frame, addr, out),
            _ => NO_SUCH,
        }
    }
}

fn write_to(place: &mut Option<Frame>, addr: u64, piece: &[u8]) -> u32
    ensures { Fills addr piece.now place.old place.new result }
{
    let Some(frame) = place else {
        return NO_SUCH;
    };
    let room = frame.bytes().len();
    let offset = offset_in(room, addr);
    if piece.len() > room - offset {
        return SHORT;
    }
    frame.fill(offset as u32, piece);
    DONE
}

fn read_from(frame: &Frame, addr: u64, out: &mut [u8]) -> u32
    ensures { ReadsFrom addr (Some frame.now) out.old out.new result }
{
    let bytes = frame.bytes();
    let offset = offset_in(bytes.len(), addr);
    if out.len() > bytes.len() - offset {
        return SHORT;
    }
    out.copy_from_slice(&bytes[offset..][..out.len()]);
    DONE
}

/// The offset of an address in a chunk of so many bytes.
fn offset_in(chunk: usize, addr: u64) -> usize
    requires { IsChunkSize chunk }
    ensures value { result ≡ addr % chunk }
    ensures below { result < chunk }
{
    if chunk == 2048 {
        (addr % 2048) as usize
    } else {
        (addr % 4096) as usize
    }
}
