//! Counts that wrap, and descriptors in words. Where the words of a configuration stand is asked in a setup.
//!
//! `used PRODUCER CONSUMER`, `pack ADDR LEN OPTIONS` (its words, and the descriptor of these), `unpack FIRST SECOND`, and
//! `places` (of a ring's own words).
use crate::case::Case;
use crate::line::{Fault, Line};
use crate::told::Told;
use xsk_table::{CONSUMER, ENTRIES, PRODUCER, pack, unpack, used};
use xsk_umem::XdpDesc;

#[derive(Drop)]
pub struct Packed;

impl Case for Packed {
    fn answer(&mut self, word: &str, line: &mut Line<'_>, told: &mut Told) -> Result<(), Fault> {
        match word {
            "used" => tell_used(line, told),
            "pack" => tell_packed(line, told),
            "unpack" => tell_unpacked(line, told),
            "places" => tell_places(told),
            _ => Err(Fault::BadLine),
        }
    }
}

fn tell_used(line: &mut Line<'_>, told: &mut Told) -> Result<(), Fault> {
    let (producer, consumer) = line.two()?;
    told.number(used(producer, consumer));
    Ok(())
}

fn tell_packed(line: &mut Line<'_>, told: &mut Told) -> Result<(), Fault> {
    let (first, second) = pack(line.desc()?);
    told.long(first);
    told.say(" ");
    told.long(second);
    told.say(", of ");
    tell(unpack(first, second), told);
    Ok(())
}

fn tell_unpacked(line: &mut Line<'_>, told: &mut Told) -> Result<(), Fault> {
    let first = line.long()?;
    let second = line.long()?;
    tell(unpack(first, second), told);
    Ok(())
}

fn tell_places(told: &mut Told) -> Result<(), Fault> {
    told.say("producer ");
    told.count(PRODUCER);
    told.say(", consumer ");
    told.count(CONSUMER);
    told.say(", entries ");
    told.count(ENTRIES);
    Ok(())
}

/// Tells a descriptor.
pub fn tell(desc: XdpDesc, told: &mut Told) {
    told.long(desc.addr);
    told.say("+");
    told.number(desc.len);
    told.say(" options ");
    told.number(desc.options);
}
