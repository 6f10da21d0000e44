//! Files as they are written.
ghost use Rattle.std.specs.Prelude.{◌≡◌, ◌+◌, ◌-◌, ◌*◌, ◌/◌, ◌%◌, ◌^◌, ◌<◌, ◌≤◌, ◌++◌, length, map, replicate, vec_capacity, vec_len, IfOk};
ghost use Rattle.std.specs.List.{concat, AllByRecursion};
ghost use Rattle.byteorder.specs.Endian.{little_bytes};
ghost use Rattle.xsk_pcapng.specs.Blocks.{padded};
ghost use Rattle.xsk_pcapng.specs.Written.{written, packets_of, size_of_blocks, section_block, interface_block, packet_block, list_blocks, lists_blocks, padding, all_packets, IsShort, IsWritable};

use byteorder::{ByteOrder, LittleEndian};
use std::alloc::Global;
use xsk_umem::{OutOfMemory, PacketList};

const SECTION: usize = 28;

const INTERFACE: usize = 20;

/// The bytes of a packet's block before and behind its padded bytes.
const PACKET: usize = 32;

/// A section header: little endian, version 1.0, and no section length.
const SECTION_BLOCK: [u8; 28] = [
    0x0a, 0x0d, 0x0d, 0x0a, 0x1c, 0x00, 0x00, 0x00, 0x4d, 0x3c, 0x2b, 0x1a, 0x01, 0x00, 0x00, 0x00,
    0xff, 0xff, 0xff, 0xff, 0xff, 0xff, 0xff, 0xff, 0x1c, 0x00, 0x00, 0x00,
];

/// An interface: link type Ethernet, and a snapshot length of 262,144.
const INTERFACE_BLOCK: [u8; 20] = [
    0x01, 0x00, 0x00, 0x00, 0x14, 0x00, 0x00, 0x00, 0x01, 0x00, 0x00, 0x00, 0x00, 0x00, 0x04, 0x00,
    0x14, 0x00, 0x00, 0x00,
];

/// A file in which each list is an interface: a section header, an interface for each list, and the packets of each list in
/// order, all little endian. The time of packet `k`, counted from 0 over all lists, is `k` microseconds.
///
/// There are at most 4 lists. Each packet has at most 262,144 bytes, and all of them together are at most 65,536 packets and
/// 33,554,432 bytes.
pub fn write(alloc: Global, lists: &[PacketList]) -> Result<Vec<u8>, OutOfMemory>
    requires { IsWritable (packets_of lists.now) }
    ensures { IfOk result (λ text. text.items ≡ written (packets_of lists.now)) }
{
    write_over(Vec::new(alloc), lists)
}

/// Writes the file of [`write`] in place of what a text had, whose memory it takes as far as that reaches.
pub fn write_over(text: Vec<u8>, lists: &[PacketList]) -> Result<Vec<u8>, OutOfMemory>
    requires { IsWritable (packets_of lists.now) }
    ensures { IfOk result (λ text. text.items ≡ written (packets_of lists.now)) }
{
    let mut text = text;
    text.clear();
    text.reserve(size_of_file(lists))?;
    text.extend_from_slice(&SECTION_BLOCK).unwrap();
    append_interfaces(&mut text, lists.len());
    append_lists(&mut text, lists);
    Ok(text)
}

/// The bytes of a file of these lists.
fn size_of_file(lists: &[PacketList]) -> usize
    requires { IsWritable (packets_of lists.now) }
    ensures { result ≡ 28 + 20 * length lists.now + size_of_blocks (all_packets (packets_of lists.now)) }
{
    let mut size = SECTION + INTERFACE * lists.len();
    for i in 0..lists.len() {
        size += size_of_list(&lists[i]);
    }
    size
}

/// The bytes of the blocks of a list's packets.
fn size_of_list(list: &PacketList) -> usize
    requires short { AllByRecursion IsShort list.now.packets }
    requires few { size_of_blocks list.now.packets < 2 ^ 32 }
    ensures { result ≡ size_of_blocks list.now.packets }
{
    let mut size = 0;
    for i in 0..list.len() {
        let len = list.get(i).len();
        size += PACKET + len + padding_of(len);
    }
    size
}

/// Appends so many interfaces in room that is there.
fn append_interfaces(text: &mut Vec<u8>, count: usize)
    requires room { length text.old.items + 20 * count ≤ vec_capacity text.old }
    ensures text { text.new.items ≡ text.old.items ++ concat (replicate count interface_block) }
    ensures room { vec_capacity text.old ≤ vec_capacity text.new }
{
    for _ in 0..count {
        text.extend_from_slice(&INTERFACE_BLOCK).unwrap();
    }
}

/// Appends the packets of all lists in room that is there, those of list `i` as interface `i`'s.
fn append_lists(text: &mut Vec<u8>, lists: &[PacketList])
    requires writable { IsWritable (packets_of lists.now) }
    requires room { length text.old.items + size_of_blocks (all_packets (packets_of lists.now)) ≤ vec_capacity text.old }
    ensures { text.new.items ≡ text.old.items ++ concat (lists_blocks 0 0 (packets_of lists.now)) }
{
    let mut number = 0;
    for i in 0..lists.len() as u32 {
        let list = &lists[i as usize];
        append_packets(text, i, number, list);
        number += list.len();
    }
}

/// Appends the packets of one interface, numbered from `number` on, in room that is there.
fn append_packets(text: &mut Vec<u8>, interface: u32, number: u32, list: &PacketList)
    requires short { AllByRecursion IsShort list.now.packets }
    requires numbers { number + length list.now.packets < 2 ^ 32 }
    requires room { length text.old.items + size_of_blocks list.now.packets ≤ vec_capacity text.old }
    ensures text { text.new.items ≡ text.old.items ++ concat (list_blocks interface number list.now.packets) }
    ensures room { length text.new.items ≡ length text.old.items + size_of_blocks list.now.packets }
    ensures capacity { vec_capacity text.old ≤ vec_capacity text.new }
{
    for i in 0..list.len() {
        append_packet(text, interface, number + i, list.get(i));
    }
}

/// Appends one packet in room that is there.
fn append_packet(text: &mut Vec<u8>, interface: u32, number: u32, packet: &[u8])
    requires short { IsShort packet.now }
    requires room { length text.old.items + 32 + padded (length packet.now) ≤ vec_capacity text.old }
    ensures text { text.new.items ≡ text.old.items ++ packet_block interface number packet.now }
    ensures room { length text.new.items ≡ length text.old.items + 32 + padded (length packet.now) }
    ensures capacity { vec_capacity text.old ≤ vec_capacity text.new }
{
    let len = packet.len();
    let pad = padding_of(len);
    let total = (PACKET + len + pad) as u32;
    let header = packet_header(interface, number, len as u32, total);
    text.extend_from_slice(&header).unwrap();
    text.extend_from_slice(packet).unwrap();
    append_end(text, pad, total);
}

/// Appends the padding of a packet, and the total length of its block.
fn append_end(text: &mut Vec<u8>, pad: usize, total: u32)
    requires pad { pad ≤ 3 }
    requires room { length text.old.items + pad + 4 ≤ vec_capacity text.old }
    ensures text { text.new.items ≡ text.old.items ++ replicate pad 0 ++ little_bytes 4 total }
    ensures capacity { vec_capacity text.old ≤ vec_capacity text.new }
{
    let mut last = [0; 4];
    LittleEndian::write_u32(&mut last, total);
    text.extend_from_slice(&[0; 3][..pad]).unwrap();
    text.extend_from_slice(&last).unwrap();
}

/// How many bytes a packet wants up to a multiple of 4.
fn padding_of(len: usize) -> usize
    requires { len ≤ 262144 }
    ensures value { result ≡ padded len - len }
    ensures few { result ≤ 3 }
{
    (len + 3) / 4 * 4 - len
}

/// The type, the total length, the interface, the higher and lower half of the time, the captured and the original length.
fn packet_header(interface: u32, number: u32, len: u32, total: u32) -> [u8; 28]
    ensures { result ≡ little_bytes 4 6 ++ little_bytes 4 total ++ little_bytes 4 interface ++ little_bytes 4 0
        ++ little_bytes 4 number ++ little_bytes 4 len ++ little_bytes 4 len }
{
    let mut header = [0; 28];
    header[0] = 6;
    LittleEndian::write_u32(&mut header[4..8], total);
    LittleEndian::write_u32(&mut header[8..12], interface);
    LittleEndian::write_u32(&mut header[16..20], number);
    LittleEndian::write_u32(&mut header[20..24], len);
    LittleEndian::write_u32(&mut header[24..], len);
    header
}
