//! The frames that are out of all rings, of both engines.
use crate::bytes;
use crate::reply::{Asked, tell};
use crate::told::Told;
use crate::words::{Body, Move, Thing};
use std::alloc::Global;
use xsk_model::{Call, Reply};
use xsk_umem::{Batch, Frame, Item, OutOfMemory};

/// The frames of one engine that are out of its rings, by number.
#[derive(Drop)]
pub(crate) struct Store {
    frames: Vec<Option<Frame>>,
}

/// What is known of all frames.
#[derive(Drop)]
pub(crate) struct Known {
    chunk: u32,
    /// What was last written into each frame, by number.
    seeds: Vec<u32>,
    written: u32,
}

impl Known {
    fn open(&mut self, chunk: u32, frames: u32) -> Result<(), OutOfMemory> {
        self.chunk = chunk;
        for _ in 0..frames {
            self.seeds.push(0)?;
        }
        Ok(())
    }

    /// The frame in which an address lies.
    pub(crate) fn frame_at(&self, addr: u64) -> Option<u32> {
        let number = addr.checked_div(u64::from(self.chunk))?;
        if number < self.seeds.len() as u64 {
            u32::try_from(number).ok()
        } else {
            None
        }
    }

    /// The frame that goes with an item.
    pub(crate) fn frame_of(&self, thing: Thing) -> Option<u32> {
        match thing.body {
            Body::Addressed => self.frame_at(thing.desc.addr),
            Body::Number(number) => Some(number),
            Body::Without => None,
        }
    }

    /// What was last written into a frame.
    pub(crate) fn seed(&self, number: u32) -> u32 {
        match self.seeds.get(number as usize) {
            Some(seed) => *seed,
            None => 0,
        }
    }

    /// What is to be written into a frame now.
    fn next_seed(&mut self, number: u32) -> u32 {
        self.written = self.written.wrapping_add(1);
        if let Some(seed) = self.seeds.get_mut(number as usize) {
            *seed = self.written;
        }
        self.written
    }

    /// Whether an item has the frame of its address, with its bytes.
    fn is_right(&self, item: &Item) -> bool {
        match (&item.frame, self.frame_at(item.desc.addr)) {
            (Some(frame), Some(number)) => {
                frame.number() == number && bytes::holds(frame, self.seed(number))
            }
            (None, None) => true,
            _ => false,
        }
    }
}

/// The frame with other bytes.
fn written(frame: Frame, seed: u32) -> Frame {
    let mut frame = frame;
    bytes::write(&mut frame, seed);
    frame
}

impl Store {
    fn open(&mut self, frames: u32) -> Result<(), OutOfMemory> {
        for _ in 0..frames {
            self.frames.push(None)?;
        }
        Ok(())
    }

    fn take(&mut self, number: u32) -> Option<Frame> {
        self.frames.get_mut(number as usize)?.take()
    }

    fn put(&mut self, frame: Frame) {
        if let Some(place) = self.frames.get_mut(frame.number() as usize) {
            *place = Some(frame);
        }
    }

    fn write(&mut self, number: u32, seed: u32) {
        if let Some(frame) = self.take(number) {
            self.put(written(frame, seed));
        }
    }

    fn batch(&mut self, known: &Known, things: &[Thing]) -> Batch {
        let mut batch = Batch::new();
        for thing in things {
            let frame = match known.frame_of(*thing) {
                Some(number) => self.take(number),
                None => None,
            };
            if batch.len() < 32 {
                batch.push(Item {
                    frame,
                    desc: thing.desc,
                });
            }
        }
        batch
    }

    /// A call with frames from here.
    pub(crate) fn call(&mut self, known: &Known, made: Move, things: &[Thing]) -> Call {
        match made {
            Move::Reserve(ring, count) => Call::Reserve(ring, count),
            Move::Submit(ring) => Call::Submit(ring, self.batch(known, things)),
            Move::Peek(ring, count) => Call::Peek(ring, count),
            Move::Release(ring, count) => Call::Release(ring, count),
            Move::Swap(mark, value) => Call::Swap(mark, value),
            Move::Look(mark) => Call::Look(mark),
        }
    }

    /// Takes the frames of items in, and tells whether they are the right ones.
    fn put_items(&mut self, known: &Known, items: Batch) -> bool {
        let mut items = items;
        let mut fine = true;
        for _ in 0..items.len() {
            if let Some(item) = items.pop_front() {
                fine = fine && known.is_right(&item);
                self.put_item(item);
            }
        }
        fine
    }

    fn put_item(&mut self, item: Item) {
        if let Some(frame) = item.frame {
            self.put(frame);
        }
    }

    fn put_reply(&mut self, known: &Known, reply: Reply) -> bool {
        match reply {
            Reply::Items(items) => self.put_items(known, items),
            _ => true,
        }
    }

    fn put_call(&mut self, known: &Known, call: Call) {
        if let Call::Submit(_, items) = call {
            self.put_items(known, items);
        }
    }

    /// Keeps the frames that came with a reply, and tells whether they are the right ones.
    fn put_all(&mut self, known: &Known, asked: Asked) -> bool {
        match asked {
            Asked::Made(reply) => self.put_reply(known, reply),
            Asked::Refused(call, _) => {
                self.put_call(known, call);
                true
            }
        }
    }

    /// Puts what came of a call in place of the words, keeps its frames, and tells whether these are the right ones with the right bytes.
    pub(crate) fn settle(&mut self, known: &Known, asked: Asked, words: &mut Told) -> bool {
        words.clear();
        tell(&asked, words);
        self.put_all(known, asked)
    }
}

/// The frames of both engines.
#[derive(Drop)]
pub(crate) struct Hand {
    pub(crate) known: Known,
    /// Those of the object on one thread.
    pub(crate) mine: Store,
    /// Those of the table.
    pub(crate) theirs: Store,
}

impl Hand {
    /// A hand that has no room for frames.
    pub(crate) fn new(alloc: Global) -> Hand {
        Hand {
            known: Known {
                chunk: 0,
                seeds: Vec::new(alloc),
                written: 0,
            },
            mine: Store {
                frames: Vec::new(alloc),
            },
            theirs: Store {
                frames: Vec::new(alloc),
            },
        }
    }

    /// Makes room for so many frames, with a chunk each.
    pub(crate) fn open(&mut self, chunk: u32, frames: u32) -> Result<(), OutOfMemory> {
        self.known.open(chunk, frames)?;
        self.mine.open(frames)?;
        self.theirs.open(frames)
    }

    /// Writes other bytes into the frames of these items.
    pub(crate) fn write(&mut self, things: &[Thing]) {
        for thing in things {
            if let Some(number) = self.known.frame_of(*thing) {
                self.write_one(number);
            }
        }
    }

    fn write_one(&mut self, number: u32) {
        let Some(frame) = self.mine.take(number) else {
            return;
        };
        let seed = self.known.next_seed(number);
        self.mine.put(written(frame, seed));
        self.theirs.write(number, seed);
    }
}
