//! The packets that a driver sent, in room that was taken at the start. No packet takes memory: what finds no room is
//! left out, and `overrun` tells so.
ghost use Rattle.std.specs.Prelude.{◌≡◌, ℕ, ◌+◌, ◌*◌, ◌<◌, ◌≤◌, ◌∷◌, ◌++◌, [], List, Some, false, length, All, IfOk};
ghost use Rattle.std.specs.List.{concat};
ghost use Rattle.xsk_driver.specs.SentRoom.{IsShort, last_length, sent_gaps, Sends};

use std::alloc::Global;
use xsk_umem::{Gaps, OutOfMemory, PacketList};

/// The gaps of a capture's headers (`xsk_pcap::GAPS`), so that what was sent is written without a copy.
const GAPS: Gaps = Gaps {
    first: 24,
    before_each: 16,
};

/// The packets that were sent, in room that was taken at the start.
#[derive(Drop)]
pub(crate) struct Outbox {
    list: PacketList,
    packets_left: u32,
    bytes_left: u32,
    overrun: bool,
    most_packets: u32,
    most_bytes: u32,
    ghost packets_fit: { most_packets < 4294967296 },
    ghost bytes_fit: { most_bytes < 4294967296 },
    ghost packets_room: { packets_left ≤ list.spare_packets },
    ghost bytes_room: { bytes_left ≤ list.spare_bytes },
    ghost packets_few: { length list.packets + packets_left ≡ most_packets },
    ghost bytes_few: { length (concat list.packets) + bytes_left ≡ most_bytes },
    ghost short: { All IsShort list.packets },
    ghost gaps: { list.gaps ≡ Some sent_gaps },
}

impl Outbox {
    ghost use Rattle.xsk_driver.specs.Outbox.{outbox_of};

    /// No packet yet, with room for so many packets and bytes.
    pub(crate) fn new(alloc: Global, packets: u32, bytes: u32) -> Result<Outbox, OutOfMemory>
        ensures limits { IfOk result (λ s. (s.most_packets ≡ packets) × (s.most_bytes ≡ bytes)) }
        ensures sends { IfOk result (λ s. Sends (outbox_of s) []) }
    {
        let mut list = PacketList::with_gaps(alloc, GAPS)?;
        list.reserve(packets, bytes)?;
        Ok(Outbox {
            list,
            packets_left: packets,
            bytes_left: bytes,
            overrun: false,
            most_packets: packets,
            most_bytes: bytes,
        })
    }

    /// Lowers the room to that for so many packets and bytes, before anything was sent. A smaller list takes the place of the
    /// larger one; where memory for it can't be had the larger one stays, and only its limits fall.
    pub(crate) fn fit(&mut self, alloc: Global, packets: u32, bytes: u32)
        requires unsent { Sends (outbox_of self.old) [] }
        requires packets { packets ≤ self.old.most_packets }
        requires bytes { bytes ≤ self.old.most_bytes }
        ensures limits { (self.new.most_packets ≡ packets) × (self.new.most_bytes ≡ bytes) }
        ensures unsent { Sends (outbox_of self.new) [] }
    {
        if packets == self.most_packets && bytes == self.most_bytes {
            return;
        }
        if let Ok(outbox) = Outbox::new(alloc, packets, bytes) {
            *self = outbox;
        } else {
            self.most_packets = packets;
            self.most_bytes = bytes;
            self.packets_left = packets;
            self.bytes_left = bytes;
        }
    }

    /// Writes ahead what so many items of so many bytes in all take, and leaves everything as it was. No item has more bytes than a chunk.
    pub(crate) fn write_ahead(&mut self, items: u32, bytes: u32)
        requires few { bytes ≤ items * 4096 }
        ensures { self.new ≡ self.old }
    {
        self.list.write_ahead(items, bytes);
    }

    /// Appends a packet of these bytes. Once the packets have overrun, nothing is kept of further ones.
    pub(crate) fn add(&mut self, bytes: &[u8])
        requires { IsShort bytes.now }
        ensures limits { (self.new.most_packets ≡ self.old.most_packets) × (self.new.most_bytes ≡ self.old.most_bytes) }
        ensures sends { (packets : List (List ℕ)) → Sends (outbox_of self.old) packets → Sends (outbox_of self.new) (packets ++ bytes.now ∷ []) }
    {
        if self.overrun || self.packets_left == 0 || bytes.len() > self.bytes_left as usize {
            self.overrun = true;
            return;
        }
        self.list.push_reserved(bytes);
        self.packets_left -= 1;
        self.bytes_left -= bytes.len() as u32;
    }

    /// Begins a further packet with no bytes. Once the packets have overrun, nothing is kept of further ones.
    pub(crate) fn begin(&mut self)
        ensures limits { (self.new.most_packets ≡ self.old.most_packets) × (self.new.most_bytes ≡ self.old.most_bytes) }
        ensures empty { self.new.overrun ≡ false → last_length self.new.list.packets ≡ 0 }
        ensures sends { (packets : List (List ℕ)) → Sends (outbox_of self.old) packets → Sends (outbox_of self.new) (packets ++ [] ∷ []) }
    {
        if self.overrun || self.packets_left == 0 {
            self.overrun = true;
            return;
        }
        self.list.push_reserved(&[]);
        self.packets_left -= 1;
    }

    /// Appends bytes to the packet that was begun last.
    pub(crate) fn extend(&mut self, bytes: &[u8])
        requires { self.old.overrun ≡ false → last_length self.old.list.packets + length bytes.now ≤ 262144 }
        ensures limits { (self.new.most_packets ≡ self.old.most_packets) × (self.new.most_bytes ≡ self.old.most_bytes) }
        ensures longer { self.new.overrun ≡ false → (self.old.overrun ≡ false) × (last_length self.new.list.packets ≡ last_length self.old.list.packets + length bytes.now) }
        ensures sends { (packets : List (List ℕ)) (packet : List ℕ) → Sends (outbox_of self.old) (packets ++ packet ∷ [])
            → Sends (outbox_of self.new) (packets ++ (packet ++ bytes.now) ∷ []) }
    {
        if self.overrun || self.list.is_empty() || bytes.len() > self.bytes_left as usize {
            self.overrun = true;
            return;
        }
        self.list.extend_last(bytes);
        self.bytes_left -= bytes.len() as u32;
    }

    /// The packets.
    pub(crate) fn list(&self) -> &PacketList
        ensures { result.now ≡ self.now.list }
    {
        &self.list
    }

    /// Whether the packets were more, or had more bytes, than there was room for.
    pub(crate) fn overrun(&self) -> bool
        ensures { result ≡ self.now.overrun }
    {
        self.overrun
    }

    pub(crate) fn into_list(self) -> PacketList
        ensures value { result ≡ self.list }
        ensures gaps { result.gaps ≡ Some sent_gaps }
    {
        let Outbox { list, .. } = self;
        list
    }
}
