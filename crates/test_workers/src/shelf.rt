//! The frames that a worker doesn't have, by their numbers.

use crate::hand::{Hand, Worker};
use crate::texts::tell_number;
use crate::trouble::Trouble;
use crate::words::{Line, three_numbers};
use std::alloc::Global;
use xsk_model::{Act, Call};
use xsk_umem::{Batch, Frame, Frames, Item};

#[derive(Drop)]
pub(crate) struct Shelf {
    frames: Vec<Option<Frame>>,
    /// The UMEM's queue, where a worker puts its frames at its end.
    queue: Frames,
    /// The bytes of a frame.
    chunk: u32,
}

impl Shelf {
    /// All frames of a UMEM.
    pub(crate) fn new(alloc: Global, frames: Frames, chunk: u32) -> Result<Shelf, Trouble> {
        let mut queue = frames;
        let frames = taken_from(alloc, &mut queue)?;
        Ok(Shelf {
            frames,
            queue,
            chunk,
        })
    }

    /// Writes the bytes that a script gives by `frame ADDRESS LEN BYTE`.
    pub(crate) fn write_all(&mut self, alloc: Global, lines: &[Line<'_>]) -> Result<(), Trouble> {
        for line in lines {
            if let Some(words) = line.behind("frame") {
                self.write(alloc, words)?;
            }
        }
        Ok(())
    }

    /// The number of the frame that an address lies in, and the place in it. None where it lies outside the UMEM.
    pub(crate) fn place(&self, addr: u64) -> Option<(usize, u32)> {
        let chunk = u64::from(self.chunk);
        if chunk == 0 || addr / chunk >= self.frames.len() as u64 {
            return None;
        }
        Some(((addr / chunk) as usize, (addr % chunk) as u32))
    }

    fn write(&mut self, alloc: Global, words: &[&str]) -> Result<(), Trouble> {
        let (addr, len, value) = three_numbers(words)?;
        let Ok(value) = u8::try_from(value) else {
            return Err(Trouble::BadLine);
        };
        let Some((number, offset)) = self.place(u64::from(addr)) else {
            return Err(Trouble::NoFrame);
        };
        let Some(place) = self.frames.get_mut(number) else {
            return Err(Trouble::NoFrame);
        };
        let piece = vec![in alloc; value; len as usize]?;
        fill(place, offset, piece.as_slice())
    }

    /// Takes a frame, which must be there.
    pub(crate) fn take(&mut self, number: usize) -> Result<Frame, Trouble> {
        let Some(place) = self.frames.get_mut(number) else {
            return Err(Trouble::NoFrame);
        };
        place.take().ok_or(Trouble::NoFrame)
    }

    fn put(&mut self, frame: Frame) {
        let number = frame.number() as usize;
        if let Some(place) = self.frames.get_mut(number) {
            *place = Some(frame);
        }
    }

    /// Tells the numbers of the frames that a worker has at its end, in the order in which they come back.
    pub(crate) fn tell_back<M: Worker>(
        &mut self,
        hand: Hand<M>,
        text: &mut String,
    ) -> Result<(), Trouble> {
        hand.give_back(&mut self.queue);
        text.push_str("frames:")?;
        for _ in 0..self.queue.len() {
            if let Some(frame) = self.queue.pop_front() {
                tell_number(" ", u64::from(frame.number()), text)?;
            }
        }
        text.push('\n')?;
        Ok(())
    }

    /// Puts back the frames that a worker gave away by a call.
    pub(crate) fn put_back(&mut self, act: Act) {
        if let Act::Call(Call::Submit(_, items)) = act {
            self.put_all(items);
        }
    }

    fn put_item(&mut self, item: Option<Item>) {
        let Some(
            Item {
                frame: Some(frame),
                ..
            },
        ) = item
        else {
            return;
        };
        self.put(frame);
    }

    fn put_all(&mut self, items: Batch) {
        let mut items = items;
        for _ in 0..items.len() {
            self.put_item(items.pop_front());
        }
    }
}

/// All frames of a queue, which is empty then.
fn taken_from(alloc: Global, queue: &mut Frames) -> Result<Vec<Option<Frame>>, Trouble> {
    let mut frames = Vec::new(alloc);
    for _ in 0..queue.len() {
        frames.push(queue.pop_front())?;
    }
    Ok(frames)
}

/// Writes bytes into a frame, which must be there.
fn fill(place: &mut Option<Frame>, offset: u32, piece: &[u8]) -> Result<(), Trouble> {
    let Some(frame) = place else {
        return Err(Trouble::NoFrame);
    };
    let room = frame.bytes().len();
    if offset as usize > room || piece.len() > room - offset as usize {
        return Err(Trouble::BadLine);
    }
    frame.fill(offset, piece);
    Ok(())
}
