//! A capture as it is written of lists that are copied into it.
ghost use Rattle.std.specs.Prelude.{◌≡◌, ◌+◌, ◌*◌, ◌/◌, ◌%◌, ◌^◌, ◌<◌, ◌≤◌, [], ◌∷◌, ◌++◌, length, vec_capacity, IfOk, OnOk, OnErr};
ghost use Rattle.std.specs.List.{concat, AllByRecursion};
ghost use Rattle.xsk_pcap.specs.declared.endianness.Endianness.TheVariants.{Little};
ghost use Rattle.xsk_pcap.specs.Capture.{record_bytes, IsShort};
ghost use Rattle.xsk_pcap.specs.Written.{written, header_of, written_record, text_of, IsWritable};

use crate::reading::{FILE_HEADER, RECORD_HEADER};
use byteorder::{ByteOrder, LittleEndian};
use std::alloc::Global;
use std::marker::Model;
use xsk_umem::{Gaps, OutOfMemory, PacketList};

/// The gaps with which a list becomes a capture where it stands ([`lay`](crate::lay)): one holds the file header, and the
/// others the headers of the records.
pub const GAPS: Gaps = Gaps {
    first: FILE_HEADER,
    before_each: RECORD_HEADER,
};

/// Little endian, time stamps of microseconds, version 2.4, a snapshot length of 262,144, and link type Ethernet.
pub(crate) const WRITTEN_HEADER: [u8; 24] = [
    0xd4, 0xc3, 0xb2, 0xa1, 0x02, 0x00, 0x04, 0x00, 0x00, 0x00, 0x00, 0x00, 0x00, 0x00, 0x00, 0x00,
    0x00, 0x00, 0x04, 0x00, 0x01, 0x00, 0x00, 0x00,
];

/// A capture that is being written, seen as the lists of packets that have been added.
#[derive(Debug, Drop)]
pub struct Capture {
    text: Vec<u8>,
    /// How many packets each list has.
    counts: Vec<u32>,
    /// How many packets there are, and so the number of the next.
    number: u32,
}

impl Model for Capture {
    ghost use Rattle.std.specs.Prelude.{ℕ, List};
    ghost use Rattle.xsk_pcap.specs.Kept.{lists_in, IsKept};

    ghost Value = { List (List (List ℕ)) };

    ghost view = { λ c. lists_in c.text.items c.counts.items c.number };

    ghost invariant = { λ c. IsKept c.text.items c.counts.items c.number };
}

impl Capture {
    /// A capture of no list: a file header alone.
    pub fn start(alloc: Global) -> Result<Capture, OutOfMemory>
        ensures { IfOk result (λ capture. capture ≡ []) }
    {
        let mut text = Vec::new(alloc);
        text.extend_from_slice(&WRITTEN_HEADER)?;
        Ok(Capture {
            text,
            counts: Vec::new(alloc),
            number: 0,
        })
    }

    /// Adds the packets of a list. Each has at most 262,144 bytes, and all that are added have at most 65,536 packets and
    /// 33,554,432 bytes. Where memory can't be had the capture stays as it was.
    pub fn add(&mut self, list: &PacketList) -> Result<(), OutOfMemory>
        requires { IsWritable (self.old ++ list.now.packets ∷ []) }
        ensures added { OnOk result (self.new ≡ self.old ++ list.now.packets ∷ []) }
        ensures refused { OnErr result (self.new ≡ self.old) }
    {
        self.counts.reserve(1)?;
        self.text.reserve(size_of_records(list))?;
        append_records(&mut self.text, self.number, list);
        let count = list.len();
        self.counts.push_reserved(count);
        self.number += count;
        Ok(())
    }

    /// The capture's bytes: the file header, and a record for each packet of all lists in order. The time of record `k`,
    /// counted from 0 over all lists, is `k` microseconds. It takes no memory.
    pub fn into_bytes(self) -> Vec<u8>
        ensures { result.items ≡ written self }
    {
        self.text
    }
}

/// The bytes of the records of a list's packets.
fn size_of_records(list: &PacketList) -> usize
    requires { 16 * length list.now.packets + length (concat list.now.packets) < 2 ^ 32 }
    ensures { result ≡ 16 * length list.now.packets + length (concat list.now.packets) }
{
    let mut size = 0;
    for i in 0..list.len() {
        size += 16 + list.get(i).len();
    }
    size
}

/// Appends the records of a list's packets, numbered from `number` on, in room that is there.
fn append_records(text: &mut Vec<u8>, number: u32, list: &PacketList)
    requires short { AllByRecursion IsShort list.now.packets }
    requires numbers { number + length list.now.packets < 2 ^ 32 }
    requires room { length (text.old.items ++ text_of number list.now.packets) ≤ vec_capacity text.old }
    ensures { text.new.items ≡ text.old.items ++ text_of number list.now.packets }
{
    for i in 0..list.len() {
        append_record(text, number + i, list.get(i));
    }
}

/// Appends one record in room that is there.
fn append_record(text: &mut Vec<u8>, number: u32, packet: &[u8])
    requires short { IsShort packet.now }
    requires room { length text.old.items + 16 + length packet.now ≤ vec_capacity text.old }
    ensures text { text.new.items ≡ text.old.items ++ record_bytes Little (written_record number packet.now) }
    ensures room { vec_capacity text.old ≤ vec_capacity text.new }
{
    let header = record_header(number, packet.len() as u32);
    text.extend_from_slice(&header).unwrap();
    text.extend_from_slice(packet).unwrap();
}

/// Seconds, microseconds, captured length and original length.
pub(crate) fn record_header(number: u32, len: u32) -> [u8; 16]
    ensures { result ≡ header_of number len }
{
    let mut header = [0; 16];
    LittleEndian::write_u32(&mut header[..4], number / 1_000_000);
    LittleEndian::write_u32(&mut header[4..8], number % 1_000_000);
    LittleEndian::write_u32(&mut header[8..12], len);
    LittleEndian::write_u32(&mut header[12..], len);
    header
}
