//! Bytes that are read before they're wanted, many at once. A processor waits for a line that another one wrote, and
//! where a byte is wanted, between two exchanges, it waits for each line alone; read one behind the other they come side
//! by side. Nothing hangs on what is read and written here, and by its contracts all stays as it was: it is for time
//! alone.
ghost use Rattle.std.specs.Prelude.{◌≡◌, ◌*◌, ◌≤◌, length};

use crate::outbox::Outbox;
use xsk_prog::Verdict;
use xsk_umem::{Batch, Item, PacketList};

/// How many packets are read ahead at once.
const PACKETS: usize = 32;

/// For fewer items than these nothing is read or written ahead.
const FEWEST: u32 = 8;

/// What was read ahead.
#[derive(Drop)]
pub(crate) struct Ahead {
    /// The place of the first packet of which nothing was read.
    next: usize,
    /// What was read comes to this. Nobody wants it, but without it nothing would have to be read.
    sum: u8,
}

impl Ahead {
    /// Nothing was read yet.
    pub(crate) fn new() -> Ahead {
        Ahead { next: 0, sum: 0 }
    }

    /// Reads the ends of the packets from this place on among those of these numbers, once all that were read before are behind it.
    #[inline(always)]
    pub(crate) fn read_packets(
        &mut self,
        packets: &PacketList,
        numbers: &[u32],
        verdicts: &[Verdict],
        place: usize,
    ) {
        if place >= self.next {
            self.next = place.saturating_add(PACKETS);
            let end = self.next.min(numbers.len()).min(verdicts.len());
            for at in place..end {
                self.read_packet(packets, numbers[at], verdicts[at]);
            }
        }
    }

    /// Reads the ends of the packet of this number, if there is one, and it isn't dropped.
    fn read_packet(&mut self, packets: &PacketList, number: u32, verdict: Verdict) {
        match verdict {
            Verdict::Drop => {}
            _ => {
                if number < packets.len() {
                    self.read(packets.get(number));
                }
            }
        }
    }

    /// Reads the ends of what items of a TX ring name, and writes ahead where it's to be kept, unless they are few.
    pub(crate) fn read_and_write(&mut self, items: &Batch, outbox: &mut Outbox)
        ensures { outbox.new ≡ outbox.old }
    {
        let count = items.len();
        if count >= FEWEST {
            let bytes = self.read_items(items);
            outbox.write_ahead(count, bytes);
        }
    }

    /// Reads the ends of what the items name in their frames, and tells how many bytes these are in all. What reaches beyond its frame
    /// counts for nothing: nobody has looked yet whether the descriptors are valid.
    fn read_items(&mut self, items: &Batch) -> u32
        ensures few { result ≤ length items.now * 4096 }
        ensures items { length items.now ≤ 32 }
    {
        let mut bytes = 0;
        for i in 0..items.len() {
            bytes += self.read_item(items.item(i));
        }
        bytes
    }

    /// Reads the ends of what an item names in its frame, whose bytes are 2,048 or 4,096, and tells how many bytes these are.
    fn read_item(&mut self, item: &Item) -> u32
        ensures within { result ≤ 4096 }
        ensures named { result ≤ item.now.desc.len }
    {
        let Some(frame) = &item.frame else {
            return 0;
        };
        let bytes = frame.bytes();
        let start = item.desc.addr as usize & bytes.len().wrapping_sub(1);
        let end = start.saturating_add(item.desc.len as usize);
        let Some(named) = bytes.get(start..end) else {
            return 0;
        };
        self.read(named);
        named.len() as u32
    }

    /// Reads the first and the last byte.
    #[inline(always)]
    fn read(&mut self, bytes: &[u8]) {
        if let (Some(first), Some(last)) = (bytes.first(), bytes.last()) {
            self.sum ^= first ^ last;
        }
    }
}
