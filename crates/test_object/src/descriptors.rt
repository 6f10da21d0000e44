//! Descriptors: which are valid, in how many pieces a packet is cut, and which packets a list of them has.
//!
//! `umem LEN CHUNK HEADROOM`, `valid ADDR LEN OPTIONS sg|plain`, `pieces LEN PAYLOAD`, `gather sg|plain`,
//! `push ADDR LEN OPTIONS`, `carry ADDR LEN OPTIONS` (with the next frame of the UMEM), `open` (the items of the packet that
//! isn't finished), `rest` (the same, taken out of the gather, which ends). Items that come out are told by the addresses and
//! lengths of their descriptors, and the numbers of their frames.
use crate::case::Case;
use crate::frames::tell_frame_in;
use crate::line::{Fault, Line};
use crate::told::Told;
use std::alloc::Global;
use xsk_desc::{Gather, Gathered, fragments, validate};
use xsk_umem::{Batch, Frames, Geometry, Item, Umem, XdpDesc};

#[derive(Drop)]
pub struct Descriptors {
    alloc: Global,
    umem: Option<(Geometry, Frames)>,
    gather: Option<Gather>,
}

impl Descriptors {
    pub fn new(alloc: Global) -> Descriptors {
        Descriptors {
            alloc,
            umem: None,
            gather: None,
        }
    }

    fn register(&mut self, line: &mut Line<'_>, told: &mut Told) -> Result<(), Fault> {
        let (len, chunk, headroom) = line.umem()?;
        match Umem::register(self.alloc, len, chunk, headroom) {
            Ok(umem) => self.umem = Some(umem),
            Err(_) => return Err(Fault::NotLegal),
        }
        told.say("ok");
        Ok(())
    }

    fn begin(&mut self, line: &mut Line<'_>, told: &mut Told) -> Result<(), Fault> {
        let sg = has_sg(line.word()?)?;
        self.gather = Some(Gather::new(self.alloc, sg));
        told.say("ok");
        Ok(())
    }

    fn judge(&self, line: &mut Line<'_>, told: &mut Told) -> Result<(), Fault> {
        let desc = line.desc()?;
        let sg = has_sg(line.word()?)?;
        match &self.umem {
            Some((geometry, _)) => tell_validity(desc, geometry, sg, told),
            None => Err(Fault::BadLine),
        }
    }

    /// Pushes a descriptor, with the next frame of the UMEM if it carries one.
    fn push(&mut self, carries: bool, line: &mut Line<'_>, told: &mut Told) -> Result<(), Fault> {
        let desc = line.desc()?;
        let Some((geometry, frames)) = &mut self.umem else {
            return Err(Fault::BadLine);
        };
        let Some(gather) = &mut self.gather else {
            return Err(Fault::BadLine);
        };
        let frame = if carries { frames.pop_front() } else { None };
        tell_gathered(gather.push(geometry, Item { frame, desc }), told);
        Ok(())
    }

    fn tell_open(&self, told: &mut Told) -> Result<(), Fault> {
        match &self.gather {
            Some(gather) => told.number(gather.rest()),
            None => return Err(Fault::BadLine),
        }
        Ok(())
    }

    fn tell_rest(&mut self, told: &mut Told) -> Result<(), Fault> {
        match self.gather.take() {
            Some(gather) => tell_items(&gather.into_rest(), told),
            None => return Err(Fault::BadLine),
        }
        Ok(())
    }
}

impl Case for Descriptors {
    fn answer(&mut self, word: &str, line: &mut Line<'_>, told: &mut Told) -> Result<(), Fault> {
        match word {
            "umem" => self.register(line, told),
            "valid" => self.judge(line, told),
            "pieces" => tell_pieces(line, told),
            "gather" => self.begin(line, told),
            "push" => self.push(false, line, told),
            "carry" => self.push(true, line, told),
            "open" => self.tell_open(told),
            "rest" => self.tell_rest(told),
            _ => Err(Fault::BadLine),
        }
    }
}

fn has_sg(word: &str) -> Result<bool, Fault> {
    match word {
        "sg" => Ok(true),
        "plain" => Ok(false),
        _ => Err(Fault::BadLine),
    }
}

fn tell_validity(
    desc: XdpDesc,
    geometry: &Geometry,
    sg: bool,
    told: &mut Told,
) -> Result<(), Fault> {
    match validate(desc, geometry, sg) {
        Ok(()) => told.say("valid"),
        Err(error) => told.name(&error),
    }
    Ok(())
}

fn tell_pieces(line: &mut Line<'_>, told: &mut Told) -> Result<(), Fault> {
    let (len, payload) = line.two()?;
    if len == 0 || payload == 0 {
        return Err(Fault::NotLegal);
    }
    told.number(fragments(len, payload));
    Ok(())
}

fn tell_gathered(gathered: Gathered, told: &mut Told) {
    match &gathered {
        Gathered::More => told.say("more"),
        Gathered::Whole(items) => {
            told.say("whole, ");
            tell_items(items, told);
        }
        Gathered::Bad(items) => {
            told.say("bad, ");
            tell_items(items, told);
        }
    }
}

fn tell_items(items: &Batch, told: &mut Told) {
    told.number(items.len());
    told.say(" items:");
    for number in 0..items.len() {
        tell_item(items.item(number), told);
    }
}

fn tell_item(item: &Item, told: &mut Told) {
    told.say(" ");
    told.long(item.desc.addr);
    told.say("+");
    told.number(item.desc.len);
    tell_frame_in(item, told);
}
