//! UMEMs: registrations, addresses, frames, and batches of items.
//!
//! `register LEN CHUNK HEADROOM`, `at ADDR` (the frame there), `of FRAME` (its base and data), `left` (the frames that stand in the queue),
//! `take` (the next of them), `fill OFFSET BYTES` and `show FROM LEN` (of the frame taken), `give` (puts it back), `put ADDR LEN OPTIONS`
//! (the frame taken, if there is one, into the batch), `item NUMBER`, `pop` (takes the batch's first item, and its frame), `batch`
//! (its length), `append` (moves all items to a second batch and back).
use crate::case::Case;
use crate::line::{Fault, Line};
use crate::told::Told;
use crate::{packed, runs};
use std::alloc::Global;
use xsk_umem::{Batch, Frame, Frames as Queue, Geometry, Item, Umem};

#[derive(Drop)]
pub struct Frames {
    alloc: Global,
    umem: Option<(Geometry, Queue)>,
    frame: Option<Frame>,
    batch: Batch,
}

impl Frames {
    pub fn new(alloc: Global) -> Frames {
        Frames {
            alloc,
            umem: None,
            frame: None,
            batch: Batch::new(),
        }
    }

    fn register(&mut self, line: &mut Line<'_>, told: &mut Told) -> Result<(), Fault> {
        let (len, chunk, headroom) = line.umem()?;
        match Umem::register(self.alloc, len, chunk, headroom) {
            Ok(umem) => {
                tell_geometry(&umem.0, told);
                self.umem = Some(umem);
            }
            Err(error) => told.name(&error),
        }
        Ok(())
    }

    fn ask(&mut self, word: &str, line: &mut Line<'_>, told: &mut Told) -> Result<(), Fault> {
        let Some((geometry, queue)) = &mut self.umem else {
            return Err(Fault::BadLine);
        };
        match word {
            "left" => tell_left(queue, told),
            "take" => take(queue, &mut self.frame, told),
            "give" => give(queue, &mut self.frame, told),
            _ => ask(geometry, word, line, told),
        }
    }

    fn pop(&mut self, told: &mut Told) -> Result<(), Fault> {
        match self.batch.pop_front() {
            Some(item) => {
                tell(&item, told);
                self.frame = item.frame;
            }
            None => told.say("none"),
        }
        Ok(())
    }
}

impl Case for Frames {
    fn answer(&mut self, word: &str, line: &mut Line<'_>, told: &mut Told) -> Result<(), Fault> {
        match word {
            "register" => self.register(line, told),
            "fill" => fill_taken(self.alloc, &mut self.frame, line, told),
            "show" => show_taken(&self.frame, line, told),
            "put" => put(&mut self.batch, &mut self.frame, line, told),
            "item" => tell_item(&self.batch, line, told),
            "pop" => self.pop(told),
            "append" => append(self.alloc, &mut self.batch, told),
            "batch" => tell_length(&self.batch, told),
            _ => self.ask(word, line, told),
        }
    }
}

fn tell_geometry(geometry: &Geometry, told: &mut Told) {
    told.number(geometry.frames());
    told.say(" frames of ");
    told.number(geometry.chunk());
    told.say(", headroom ");
    told.number(geometry.headroom());
    told.say(", payload ");
    told.number(geometry.payload());
}

fn ask(geometry: &Geometry, word: &str, line: &mut Line<'_>, told: &mut Told) -> Result<(), Fault> {
    match word {
        "at" => tell_frame(geometry, line, told),
        "of" => tell_addresses(geometry, line, told),
        _ => Err(Fault::BadLine),
    }
}

fn tell_frame(geometry: &Geometry, line: &mut Line<'_>, told: &mut Told) -> Result<(), Fault> {
    match geometry.frame_of(line.long()?) {
        Some(number) => {
            told.say("frame ");
            told.number(number);
        }
        None => told.say("none"),
    }
    Ok(())
}

fn tell_addresses(geometry: &Geometry, line: &mut Line<'_>, told: &mut Told) -> Result<(), Fault> {
    let frame = line.number()?;
    told.say("base ");
    told.long(geometry.base_of(frame));
    told.say(", data ");
    told.long(geometry.data_of(frame));
    Ok(())
}

fn tell_left(queue: &Queue, told: &mut Told) -> Result<(), Fault> {
    told.number(queue.len());
    told.say(" frames");
    if queue.is_empty() {
        told.say(", empty");
    }
    if queue.is_full() {
        told.say(", full");
    }
    Ok(())
}

fn take(queue: &mut Queue, taken: &mut Option<Frame>, told: &mut Told) -> Result<(), Fault> {
    *taken = queue.pop_front();
    match taken {
        Some(frame) => tell_taken(frame, told),
        None => told.say("none"),
    }
    Ok(())
}

fn tell_taken(frame: &Frame, told: &mut Told) {
    told.say("frame ");
    told.number(frame.number());
    told.say(" of ");
    told.count(frame.bytes().len());
    told.say(" bytes");
}

fn give(queue: &mut Queue, taken: &mut Option<Frame>, told: &mut Told) -> Result<(), Fault> {
    let Some(frame) = taken.take() else {
        return Err(Fault::BadLine);
    };
    if queue.is_full() {
        return Err(Fault::NotLegal);
    }
    queue.push_back(frame);
    told.say("ok");
    Ok(())
}

fn fill_taken(
    alloc: Global,
    taken: &mut Option<Frame>,
    line: &mut Line<'_>,
    told: &mut Told,
) -> Result<(), Fault> {
    let Some(frame) = taken else {
        return Err(Fault::BadLine);
    };
    let offset = line.number()?;
    let piece = line.bytes(alloc)?;
    fill(frame, offset, piece.as_slice())?;
    told.say("ok");
    Ok(())
}

fn fill(frame: &mut Frame, offset: u32, piece: &[u8]) -> Result<(), Fault> {
    let room = frame.bytes().len();
    if piece.len() > room || offset as usize > room - piece.len() {
        return Err(Fault::NotLegal);
    }
    frame.fill(offset, piece);
    Ok(())
}

fn show_taken(taken: &Option<Frame>, line: &mut Line<'_>, told: &mut Told) -> Result<(), Fault> {
    match taken {
        Some(frame) => runs::show(frame.bytes(), line, told),
        None => Err(Fault::BadLine),
    }
}

fn put(
    batch: &mut Batch,
    taken: &mut Option<Frame>,
    line: &mut Line<'_>,
    told: &mut Told,
) -> Result<(), Fault> {
    let desc = line.desc()?;
    if batch.len() >= 32 {
        return Err(Fault::NotLegal);
    }
    let frame = taken.take();
    batch.push(Item { frame, desc });
    told.say("ok");
    Ok(())
}

fn tell_length(batch: &Batch, told: &mut Told) -> Result<(), Fault> {
    told.number(batch.len());
    told.say(" items");
    Ok(())
}

fn tell_item(batch: &Batch, line: &mut Line<'_>, told: &mut Told) -> Result<(), Fault> {
    let number = line.number()?;
    if number >= batch.len() {
        return Err(Fault::NotLegal);
    }
    told.long(batch.desc(number).addr);
    told.say(" ");
    tell(batch.item(number), told);
    Ok(())
}

fn tell(item: &Item, told: &mut Told) {
    packed::tell(item.desc, told);
    tell_frame_in(item, told);
}

/// The number of an item's frame, if it has one.
pub fn tell_frame_in(item: &Item, told: &mut Told) {
    if let Some(frame) = &item.frame {
        told.say(" in frame ");
        told.number(frame.number());
    }
}

fn append(alloc: Global, batch: &mut Batch, told: &mut Told) -> Result<(), Fault> {
    let mut other = Batch::new();
    tell_lengths(batch.len(), other.len(), told);
    told.say(" items, ");
    other.append(batch);
    tell_lengths(batch.len(), other.len(), told);
    told.say(", ");
    batch.append(&mut other);
    tell_lengths(batch.len(), other.len(), told);
    Ok(())
}

fn tell_lengths(first: u32, second: u32, told: &mut Told) {
    told.number(first);
    told.say(" and ");
    told.number(second);
}
