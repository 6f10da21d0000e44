//! Files read as lists of packets, or the first failing check with its place.
ghost use Rattle.std.specs.Prelude.{◌≡◌, ◌<◌, ◌≤◌, ◌^◌, ℕ, List, None, Err, length, map, All, IfOk, IfErr, MatchResult};
ghost use Rattle.xsk_pcapng.specs.Blocks.{IsBlock, MayStand};
ghost use Rattle.xsk_pcapng.specs.Pcapng.{IsPcapng, IsRefused, IsCause, PassesHeader};
ghost use Rattle.xsk_pcapng.specs.Pcapng.{order_of, header_refusal, length_refusal, interface_refusal, packet_refusal, kind_refusal, content_refusal};
ghost use Rattle.xsk_pcapng.specs.Blocks.{kind_in, least as least_of, padded as padded_to, section_header, interface_description, enhanced_packet};
ghost use Rattle.xsk_pcapng.specs.Steps.{CutsOff, Holds, HoldsPacket, IsEnds, FitsInterface, Finds};
ghost use Rattle.xsk_pcapng.specs.Written.{bare, packets_of};

use crate::lists::{lists_in, lists_of};
use std::alloc::Global;
use thiserror::Error;
use xsk_pcap::Endianness;
use xsk_umem::{PacketList, Span};

const SECTION_HEADER: u32 = 0x0a0d_0d0a;

const INTERFACE_DESCRIPTION: u32 = 1;

const OBSOLETE_PACKET: u32 = 2;

const SIMPLE_PACKET: u32 = 3;

const ENHANCED_PACKET: u32 = 6;

const BYTE_ORDER_MAGIC: u32 = 0x1a2b_3c4d;

/// The bytes of a section header block without options.
const LEAST_FILE: usize = 28;

/// The bytes of a block without a body.
const LEAST_BLOCK: usize = 12;

/// The bytes of an enhanced packet block without captured bytes.
const LEAST_PACKET: usize = 32;

/// Where the captured bytes stand in an enhanced packet block.
const PACKET_START: usize = 28;

const MOST_CAPTURED: usize = 262_144;

/// Why bytes weren't read: the first check that fails. Those of the section header come first, in this order, and then
/// those of each block in turn, first of its length and then of its type's own. `at` is the byte of the file at which the
/// block begins that fails.
#[derive(Clone, Copy, Debug, PartialEq, Eq, Error)]
pub enum BadPcapng {
    /// There are fewer than the 28 bytes of a section header block.
    #[error("the section header is cut short")]
    ShortHeader,
    /// The first block isn't a section header, or its magic reads so in neither byte order.
    #[error("the file has no section header with its magic")]
    BadMagic,
    /// The major version isn't 1.
    #[error("the major version is not 1")]
    BadVersion,
    /// Fewer than 12 bytes are left for a block, or fewer than it says.
    #[error("the block at byte {at} is cut short")]
    Truncated { at: u64 },
    /// The block's length is none: below the least of its type, no multiple of 4, not repeated at its end, or too small for
    /// its packet.
    #[error("the block at byte {at} has a bad length")]
    BadBlock { at: u64 },
    /// A section begins behind the first.
    #[error("a second section begins at byte {at}")]
    SecondSection { at: u64 },
    /// The interface's link type isn't 1, Ethernet.
    #[error("the link type of the interface at byte {at} is not Ethernet")]
    BadLink { at: u64 },
    /// There are as many interfaces as ports already.
    #[error("the interface at byte {at} is one too many")]
    TooManyInterfaces { at: u64 },
    /// The block is a simple packet block, or the obsolete packet block.
    #[error("the packet at byte {at} is of a type that is not read")]
    OtherPacket { at: u64 },
    /// The packet's interface has had no block.
    #[error("the packet at byte {at} has no interface")]
    NoInterface { at: u64 },
    /// The packet has more than 262,144 captured bytes.
    #[error("the packet at byte {at} is too long")]
    RecordTooLong { at: u64 },
    /// All checks pass, but memory for the lists couldn't be had, or 32 bits don't count a list's packets or bytes.
    #[error("out of memory")]
    OutOfMemory,
}

/// Bytes weren't read as a file. They come back, with the reason.
#[derive(Debug, Drop, Error)]
#[error("{cause}")]
pub struct TakeRefused {
    pub bytes: Vec<u8>,
    pub cause: BadPcapng,
}

/// What a block holds for a reader.
#[derive(Clone, Copy)]
pub enum Content {
    /// Nothing.
    Other,
    /// An interface more.
    Interface,
    /// A packet of this interface, with so many captured bytes.
    Packet(u32, usize),
}

/// A packet that was found: its interface, and where it stands in the file.
#[derive(Clone, Copy)]
pub struct Found {
    pub interface: u32,
    pub span: Span,
}

/// The byte order in which the magic reads so.
fn endianness_of(bytes: &[u8]) -> Option<Endianness>
    requires { 12 ≤ length bytes.now }
    ensures { result ≡ order_of bytes.now }
{
    if Endianness::Little.u32_in(&bytes[8..]) == BYTE_ORDER_MAGIC {
        Some(Endianness::Little)
    } else if Endianness::Big.u32_in(&bytes[8..]) == BYTE_ORDER_MAGIC {
        Some(Endianness::Big)
    } else {
        None
    }
}

/// The byte order of a file whose section header passes.
fn check_header(bytes: &[u8]) -> Result<Endianness, BadPcapng>
    ensures passed { IfOk result (λ order. PassesHeader order bytes.now) }
    ensures failed { IfErr result (λ e. header_refusal bytes.now ≡ Some e) }
{
    if bytes.len() < LEAST_FILE {
        return Err(BadPcapng::ShortHeader);
    }
    if Endianness::Little.u32_in(bytes) != SECTION_HEADER {
        return Err(BadPcapng::BadMagic);
    }
    let Some(order) = endianness_of(bytes) else {
        return Err(BadPcapng::BadMagic);
    };
    if order.u16_in(&bytes[12..]) != 1 {
        return Err(BadPcapng::BadVersion);
    }
    Ok(order)
}

/// Cuts the block off that begins at this byte of the file, and gives it and the bytes behind it.
fn split_block(order: Endianness, at: u64, bytes: &[u8]) -> Result<(&[u8], &[u8]), BadPcapng>
    ensures split { IfOk result (λ parts. CutsOff order bytes.now parts.0.now parts.1.now) }
    ensures failed { IfErr result (λ e. length_refusal order at bytes.now ≡ Some e) }
{
    if bytes.len() < LEAST_BLOCK {
        return Err(BadPcapng::Truncated { at });
    }
    let total = order.u32_in(&bytes[4..]) as usize;
    if total < LEAST_BLOCK || total % 4 != 0 {
        return Err(BadPcapng::BadBlock { at });
    }
    if bytes.len() < total {
        return Err(BadPcapng::Truncated { at });
    }
    Ok(bytes.split_at(total))
}

/// The least total length of a block of this type.
fn least(kind: u32) -> usize
    ensures { result ≡ least_of kind }
{
    match kind {
        SECTION_HEADER => 28,
        INTERFACE_DESCRIPTION => 20,
        ENHANCED_PACKET => 32,
        _ => 12,
    }
}

/// The bytes of a packet with its padding, up to a multiple of 4.
fn padded(len: usize) -> usize
    requires { len ≤ 262144 }
    ensures { result ≡ padded_to len }
{
    (len + 3) / 4 * 4
}

/// The type of a block whose total length stands again at its end, and which is long enough for its type.
fn check_ends(order: Endianness, at: u64, block: &[u8]) -> Result<u32, BadPcapng>
    requires { 12 ≤ length block.now }
    ensures passed { IfOk result (λ kind. IsEnds order block.now kind) }
    ensures failed { (ports interfaces : ℕ) → IfErr result (λ e. content_refusal order ports at interfaces block.now ≡ Some e) }
{
    let kind = order.u32_in(block);
    let len = block.len();
    if order.u32_in(&block[len - 4..]) as usize != len || len < least(kind) {
        return Err(BadPcapng::BadBlock { at });
    }
    Ok(kind)
}

/// Checks an interface, behind so many others.
fn check_interface(
    order: Endianness,
    ports: u32,
    at: u64,
    interfaces: u32,
    block: &[u8],
) -> Result<(), BadPcapng>
    requires { 20 ≤ length block.now }
    ensures passed { IfOk result (λ _. FitsInterface order ports interfaces block.now) }
    ensures failed { IfErr result (λ e. interface_refusal order ports at interfaces block.now ≡ Some e) }
{
    if order.u16_in(&block[8..]) != 1 {
        return Err(BadPcapng::BadLink { at });
    }
    if interfaces >= ports {
        return Err(BadPcapng::TooManyInterfaces { at });
    }
    Ok(())
}

/// Checks a packet, behind so many interfaces, and gives its interface and how many captured bytes it has.
fn check_packet(
    order: Endianness,
    at: u64,
    interfaces: u32,
    block: &[u8],
) -> Result<(u32, usize), BadPcapng>
    requires { 32 ≤ length block.now }
    ensures passed { IfOk result (λ packet. HoldsPacket order interfaces block.now packet.0 packet.1) }
    ensures failed { IfErr result (λ e. packet_refusal order at interfaces block.now ≡ Some e) }
{
    let interface = order.u32_in(&block[8..]);
    if interface >= interfaces {
        return Err(BadPcapng::NoInterface { at });
    }
    let captured = order.u32_in(&block[20..]) as usize;
    if captured > MOST_CAPTURED {
        return Err(BadPcapng::RecordTooLong { at });
    }
    if block.len() < LEAST_PACKET + padded(captured) {
        return Err(BadPcapng::BadBlock { at });
    }
    Ok((interface, captured))
}

/// Checks a block by its type, and gives what it holds.
fn check_kind(
    order: Endianness,
    ports: u32,
    at: u64,
    interfaces: u32,
    kind: u32,
    block: &[u8],
) -> Result<Content, BadPcapng>
    requires { IsEnds order block.now kind }
    ensures holds { IfOk result (Holds order interfaces block.now) }
    ensures passed { IfOk result (λ _. MayStand order ports at interfaces block.now) }
    ensures failed { IfErr result (λ e. kind_refusal order ports at interfaces block.now ≡ Some e) }
{
    match kind {
        SECTION_HEADER if at > 0 => Err(BadPcapng::SecondSection { at }),
        INTERFACE_DESCRIPTION => {
            check_interface(order, ports, at, interfaces, block)?;
            Ok(Content::Interface)
        }
        OBSOLETE_PACKET | SIMPLE_PACKET => Err(BadPcapng::OtherPacket { at }),
        ENHANCED_PACKET => {
            let (interface, captured) = check_packet(order, at, interfaces, block)?;
            Ok(Content::Packet(interface, captured))
        }
        _ => Ok(Content::Other),
    }
}

/// Checks a block that was cut off, and gives what it holds.
fn check_block(
    order: Endianness,
    ports: u32,
    at: u64,
    interfaces: u32,
    block: &[u8],
) -> Result<Content, BadPcapng>
    requires { 12 ≤ length block.now }
    ensures holds { IfOk result (Holds order interfaces block.now) }
    ensures passed { IfOk result (λ _. MayStand order ports at interfaces block.now) }
    ensures ends { IfOk result (λ _. IsEnds order block.now (kind_in order block.now)) }
    ensures failed { IfErr result (λ e. content_refusal order ports at interfaces block.now ≡ Some e) }
{
    let kind = check_ends(order, at, block)?;
    check_kind(order, ports, at, interfaces, kind, block)
}

/// The packets of all blocks, in order. Where memory for them can't be had it goes on to the end all the same, since a
/// check that fails comes first.
fn find_packets(
    alloc: Global,
    order: Endianness,
    ports: u32,
    bytes: &[u8],
) -> Result<Vec<Found>, BadPcapng>
    requires { PassesHeader order bytes.now }
    ensures found { IfOk result (λ found. Finds order ports bytes.now found.items) }
    ensures cause { IfErr result (IsCause ports bytes.now) }
{
    let mut found = Vec::new(alloc);
    let mut lacks_room = false;
    let mut interfaces: u32 = 0;
    let mut rest = bytes;
    while !rest.is_empty() {
        let at = bytes.len() - rest.len();
        let (block, after) = split_block(order, at as u64, rest)?;
        match check_block(order, ports, at as u64, interfaces, block)? {
            Content::Other => {}
            Content::Interface => interfaces += 1,
            Content::Packet(interface, len) => {
                let span = Span {
                    start: at + PACKET_START,
                    len,
                };
                lacks_room |= found.push(Found { interface, span }).is_err();
            }
        }
        rest = after;
    }
    if lacks_room {
        return Err(BadPcapng::OutOfMemory);
    }
    Ok(found)
}

/// The packets of all blocks of a file, in order, in either byte order.
fn packets_in(alloc: Global, ports: u32, bytes: &[u8]) -> Result<Vec<Found>, BadPcapng>
    ensures found { IfOk result (λ found. (order : Endianness) × Finds order ports bytes.now found.items) }
    ensures cause { IfErr result (IsCause ports bytes.now) }
{
    let order = check_header(bytes)?;
    find_packets(alloc, order, ports, bytes)
}

/// Reads a file of one section, in either byte order, and gives the packets of each of so many ports, those of interface
/// `i` as port `i`'s, in order.
///
/// The packets of one port lie scattered over the file. So one pass over the blocks checks them and notes where each packet
/// stands, and then each port's list takes the room of all its packets at once and a copy of each: no packet's bytes are
/// copied more than once. The time grows with the file, and with the packets times the ports.
///
/// Options, other blocks, the section's length, times, snapshot lengths and original lengths may be anything, and aren't
/// told.
pub fn read(alloc: Global, bytes: &[u8], ports: u32) -> Result<Vec<PacketList>, BadPcapng>
    // What is read is a file of these lists.
    ensures found { IfOk result (λ lists. IsPcapng ports bytes.now (packets_of lists.items)) }
    // What is a file is read as its lists, unless memory runs out.
    ensures accepted { (lists : List (List (List ℕ))) → IsPcapng ports bytes.now lists →
        MatchResult result (λ read. packets_of read.items ≡ lists) (λ e. e ≡ BadPcapng.OutOfMemory) }
    // The first check that fails decides, whatever memory there is.
    ensures refused { (refusal : BadPcapng) → IsRefused ports bytes.now refusal → result ≡ Err refusal }
    ensures cause { IfErr result (IsCause ports bytes.now) }
{
    let found = packets_in(alloc, ports, bytes)?;
    let Ok(lists) = lists_of(alloc, bytes, found.as_slice(), ports) else {
        return Err(BadPcapng::OutOfMemory);
    };
    Ok(lists)
}

/// Reads a file as [`read`] does. The lists share the bytes as their text, in which the packets stand as spans: none is copied.
/// Where it isn't read the bytes come back.
pub fn take(alloc: Global, bytes: Vec<u8>, ports: u32) -> Result<Vec<PacketList>, TakeRefused>
    ensures bare { IfOk result (λ lists. lists.items ≡ map bare (packets_of lists.items)) }
    ensures found { IfOk result (λ lists. IsPcapng ports bytes.items (packets_of lists.items)) }
    ensures accepted { (lists : List (List (List ℕ))) → IsPcapng ports bytes.items lists →
        MatchResult result (λ read. packets_of read.items ≡ lists) (λ back. back.cause ≡ BadPcapng.OutOfMemory) }
    ensures refused { (refusal : BadPcapng) → IsRefused ports bytes.items refusal →
        result ≡ Err (record { bytes = bytes; cause = refusal }) }
    ensures cause { IfErr result (λ back. IsCause ports bytes.items back.cause) }
    ensures back { IfErr result (λ back. back.bytes.items ≡ bytes.items) }
{
    let found = match packets_in(alloc, ports, bytes.as_slice()) {
        Ok(found) => found,
        Err(cause) => return Err(TakeRefused { bytes, cause }),
    };
    match lists_in(alloc, bytes, found.as_slice(), ports) {
        Ok(lists) => Ok(lists),
        Err(bytes) => Err(TakeRefused {
            bytes,
            cause: BadPcapng::OutOfMemory,
        }),
    }
}
