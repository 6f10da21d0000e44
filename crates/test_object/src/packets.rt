//! Lists of packets, and the gaps in their texts.
//!
//! `new`, `gaps FIRST BEFORE_EACH`, `push BYTES`, `reserve FIRST SECOND MORE` (makes room for two packets, appends both, and MORE
//! to the second), `get NUMBER`, `size`, `parts` (the gaps, the spans and the text; the list ends), `again` (a list of the spans and
//! the text that were told last), `share` (another list has the text as well), `alone` (that other list goes).
ghost use Rattle.std.specs.Prelude.{◌≤◌, length};

use crate::case::Case;
use crate::line::{Fault, Line};
use crate::runs;
use crate::told::Told;
use std::alloc::Global;
use std::sync::Arc;
use xsk_umem::{Gaps, PacketList, Parts, Span};

#[derive(Drop)]
pub struct Packets {
    alloc: Global,
    list: PacketList,
    /// Has the list's text as well, and no packet.
    other: PacketList,
}

impl Packets {
    pub fn new(alloc: Global) -> Packets {
        Packets {
            alloc,
            list: PacketList::new(alloc),
            other: PacketList::new(alloc),
        }
    }

    fn take(&mut self) -> PacketList {
        std::mem::replace(&mut self.list, PacketList::new(self.alloc))
    }

    fn change(&mut self, word: &str, line: &mut Line<'_>) -> Result<(), Fault> {
        match word {
            "gaps" => self.begin(line),
            "push" => self.push(line),
            "reserve" => reserve(self.alloc, &mut self.list, line),
            "again" => self.again(),
            "share" => self.share(),
            "alone" => {
                self.other = PacketList::new(self.alloc);
                Ok(())
            }
            _ => Err(Fault::BadLine),
        }
    }

    fn begin(&mut self, line: &mut Line<'_>) -> Result<(), Fault> {
        let gaps = gaps_in(line)?;
        self.list = PacketList::with_gaps(self.alloc, gaps)?;
        Ok(())
    }

    fn push(&mut self, line: &mut Line<'_>) -> Result<(), Fault> {
        let packet = runs::parse(self.alloc, line.word()?)?;
        self.list.push(packet.as_slice())?;
        Ok(())
    }

    /// Makes a list of the same packets as spans of the same text.
    fn again(&mut self) -> Result<(), Fault> {
        let Parts { text, spans, .. } = self.take().into_parts();
        self.list = PacketList::of_spans(text, spans);
        Ok(())
    }

    /// Makes a list of the same packets in the same text, which another list has too.
    fn share(&mut self) -> Result<(), Fault> {
        let Parts { text, spans, .. } = self.take().into_parts();
        let text = Arc::new(self.alloc, text)?;
        self.other = PacketList::of_shared(self.alloc, &text, Vec::new(self.alloc))?;
        self.list = PacketList::of_shared(self.alloc, &text, spans)?;
        Ok(())
    }
}

impl Case for Packets {
    fn answer(&mut self, word: &str, line: &mut Line<'_>, told: &mut Told) -> Result<(), Fault> {
        match word {
            "get" => tell_packet(&self.list, line, told),
            "size" => tell_size(&self.list, told),
            "parts" => tell_parts(self.take().into_parts(), told),
            _ => {
                self.change(word, line)?;
                told.say("ok");
                Ok(())
            }
        }
    }
}

fn gaps_in(line: &mut Line<'_>) -> Result<Gaps, Fault> {
    let (first, before_each) = line.two()?;
    Ok(Gaps { first, before_each })
}

/// Appends two packets and more bytes in room that is reserved for them.
fn reserve(alloc: Global, list: &mut PacketList, line: &mut Line<'_>) -> Result<(), Fault> {
    let first = line.word()?;
    let second = line.word()?;
    let more = line.bytes(alloc)?;
    reserve_two(alloc, list, first, second, more.as_slice())
}

fn reserve_two(
    alloc: Global,
    list: &mut PacketList,
    first: &str,
    second: &str,
    more: &[u8],
) -> Result<(), Fault> {
    let first = runs::parse(alloc, first)?;
    let second = runs::parse(alloc, second)?;
    append_three(list, first.as_slice(), second.as_slice(), more)
}

fn append_three(
    list: &mut PacketList,
    first: &[u8],
    second: &[u8],
    more: &[u8],
) -> Result<(), Fault> {
    if first.len() > 1_000_000 || second.len() > 1_000_000 || more.len() > 1_000_000 {
        return Err(Fault::NotLegal);
    }
    list.reserve(2, (first.len() + second.len() + more.len()) as u32)?;
    list.push_reserved(first);
    list.push_reserved(second);
    list.extend_last(more);
    Ok(())
}

fn tell_packet(list: &PacketList, line: &mut Line<'_>, told: &mut Told) -> Result<(), Fault> {
    let number = line.number()?;
    if number >= list.len() {
        return Err(Fault::NotLegal);
    }
    runs::tell(told, list.get(number));
    Ok(())
}

/// How many packets there are, and how many bytes.
fn tell_sizes(list: &PacketList, told: &mut Told) {
    told.number(list.len());
    told.say(" packets, ");
    told.long(list.bytes());
    told.say(" bytes");
}

fn tell_size(list: &PacketList, told: &mut Told) -> Result<(), Fault> {
    tell_sizes(list, told);
    if list.is_empty() {
        told.say(", empty");
    }
    Ok(())
}

fn tell_parts(parts: Parts, told: &mut Told) -> Result<(), Fault> {
    tell_gaps(parts.gaps, told);
    tell_spans(parts.spans.as_slice(), told);
    told.say(", text of ");
    told.count(parts.text.len());
    told.say(": ");
    runs::tell(told, parts.text.as_slice());
    Ok(())
}

fn tell_gaps(gaps: Option<Gaps>, told: &mut Told) {
    match gaps {
        Some(gaps) => {
            told.say("gaps ");
            told.number(gaps.first);
            told.say(" ");
            told.number(gaps.before_each);
        }
        None => told.say("no gaps"),
    }
}

fn tell_spans(spans: &[Span], told: &mut Told) {
    for span in spans {
        told.say(", ");
        told.count(span.len);
        told.say(" at ");
        told.count(span.start);
    }
}
