//! Captures read as lists of packets, or the first failing check with its place.
ghost use Rattle.std.specs.Prelude.{◌≡◌, ◌<◌, ◌≤◌, ◌^◌, ℕ, List, Some, Err, length, IfOk, IfErr, MatchResult};
ghost use Rattle.std.specs.List.{AllByRecursion};
ghost use Rattle.xsk_pcap.specs.Capture.{is_magic as magic_test, IsCapture, IsShort, IsRefused, IsCause};
ghost use Rattle.xsk_pcap.specs.Capture.{order_of, header_refusal, record_refusal};
ghost use Rattle.xsk_pcap.specs.Steps.{PassesHeader, BeginsRecord, Finds};

use crate::endianness::Endianness;
use std::alloc::Global;
use thiserror::Error;
use xsk_umem::{PacketList, Span};

pub(crate) const FILE_HEADER: u32 = 24;

pub(crate) const RECORD_HEADER: u32 = 16;

const MOST_CAPTURED: usize = 262_144;

/// Why bytes weren't read as a capture: the first check that fails. Those of the file header come first, in this order,
/// and then those of each record in turn. `at` is the byte of the file at which the record begins that fails.
#[derive(Clone, Copy, Debug, PartialEq, Eq, Error)]
pub enum BadCapture {
    /// There are fewer than the 24 bytes of a file header.
    #[error("the file header is cut short")]
    ShortHeader,
    /// The magic number is neither that of microseconds nor that of nanoseconds, in either byte order.
    #[error("the file has no magic number of a capture")]
    BadMagic,
    /// The version isn't 2.4.
    #[error("the version is not 2.4")]
    BadVersion,
    /// The link type isn't 1, Ethernet.
    #[error("the link type is not Ethernet")]
    BadLink,
    /// Fewer than 16 bytes are left for a record header, or fewer captured bytes than it says.
    #[error("the record at byte {at} is cut short")]
    Truncated { at: u64 },
    /// The record has more than 262,144 captured bytes.
    #[error("the record at byte {at} is too long")]
    RecordTooLong { at: u64 },
    /// All checks pass, but memory for the packets couldn't be had, or they are more than 32 bits count.
    #[error("out of memory")]
    OutOfMemory,
}

/// Bytes weren't read as a capture. They come back, with the reason.
#[derive(Debug, Drop, Error)]
#[error("{cause}")]
pub struct ReadRefused {
    pub bytes: Vec<u8>,
    pub cause: BadCapture,
}

fn is_magic(number: u32) -> bool
    ensures { result ≡ magic_test number }
{
    number == 0xa1b2_c3d4 || number == 0xa1b2_3c4d
}

/// The byte order in which the magic number reads as one.
fn endianness_of(bytes: &[u8]) -> Option<Endianness>
    requires { 4 ≤ length bytes.now }
    ensures { result ≡ order_of bytes.now }
{
    if is_magic(Endianness::Little.u32_in(bytes)) {
        Some(Endianness::Little)
    } else if is_magic(Endianness::Big.u32_in(bytes)) {
        Some(Endianness::Big)
    } else {
        None
    }
}

/// The byte order of a file whose header passes.
fn check_header(bytes: &[u8]) -> Result<Endianness, BadCapture>
    ensures passed { IfOk result (λ order. PassesHeader order bytes.now) }
    ensures failed { IfErr result (λ e. header_refusal bytes.now ≡ Some e) }
{
    if bytes.len() < FILE_HEADER as usize {
        return Err(BadCapture::ShortHeader);
    }
    let Some(order) = endianness_of(bytes) else {
        return Err(BadCapture::BadMagic);
    };
    if order.u16_in(&bytes[4..]) != 2 || order.u16_in(&bytes[6..]) != 4 {
        return Err(BadCapture::BadVersion);
    }
    if order.u32_in(&bytes[20..]) != 1 {
        return Err(BadCapture::BadLink);
    }
    Ok(order)
}

/// Cuts the record off that begins at this offset of the file, and gives its packet and the bytes behind it.
fn split_record(order: Endianness, offset: u64, bytes: &[u8]) -> Result<(&[u8], &[u8]), BadCapture>
    ensures split { IfOk result (λ parts. BeginsRecord order bytes.now parts.0.now parts.1.now) }
    ensures failed { IfErr result (λ e. record_refusal order offset bytes.now ≡ Some e) }
{
    if bytes.len() < RECORD_HEADER as usize {
        return Err(BadCapture::Truncated { at: offset });
    }
    let captured = order.u32_in(&bytes[8..]) as usize;
    if captured > MOST_CAPTURED {
        return Err(BadCapture::RecordTooLong { at: offset });
    }
    let rest = &bytes[RECORD_HEADER as usize..];
    if captured > rest.len() {
        return Err(BadCapture::Truncated { at: offset });
    }
    Ok(rest.split_at(captured))
}

/// The spans of the packets of all records. Where memory for them can't be had it goes on to the end all the same, since a
/// check that fails comes first.
fn find_packets(alloc: Global, order: Endianness, bytes: &[u8]) -> Result<Vec<Span>, BadCapture>
    requires { PassesHeader order bytes.now }
    ensures found { IfOk result (λ spans. Finds order bytes.now spans.items) }
    ensures few { IfOk result (λ spans. length spans.items < 2 ^ 32) }
    ensures cause { IfErr result (IsCause bytes.now) }
{
    let mut spans = Vec::new(alloc);
    let mut lacks_room = false;
    let mut rest = &bytes[FILE_HEADER as usize..];
    while !rest.is_empty() {
        let offset = bytes.len() - rest.len();
        let (packet, after) = split_record(order, offset as u64, rest)?;
        let span = Span {
            start: offset + RECORD_HEADER as usize,
            len: packet.len(),
        };
        lacks_room |= spans.push(span).is_err();
        rest = after;
    }
    if lacks_room || spans.len() > u32::MAX as usize {
        return Err(BadCapture::OutOfMemory);
    }
    Ok(spans)
}

/// The spans of the packets of a capture in either byte order.
fn spans_of(alloc: Global, bytes: &[u8]) -> Result<Vec<Span>, BadCapture>
    ensures found { IfOk result (λ spans. (order : Endianness) × Finds order bytes.now spans.items) }
    ensures few { IfOk result (λ spans. length spans.items < 2 ^ 32) }
    ensures cause { IfErr result (IsCause bytes.now) }
{
    let order = check_header(bytes)?;
    find_packets(alloc, order, bytes)
}

/// Reads a capture in either byte order, with time stamps of microseconds or nanoseconds, and gives its packets in order.
/// They are spans of the bytes, which the list keeps: no packet is copied. Where it isn't read the bytes come back.
///
/// Times, original lengths, the time zone, the accuracy and the snapshot length may be anything, and aren't told. A packet
/// may be empty, or longer than the snapshot length.
pub fn read(alloc: Global, bytes: Vec<u8>) -> Result<PacketList, ReadRefused>
    // What is read is a capture of these packets.
    ensures found { IfOk result (λ list. IsCapture bytes.items list.packets) }
    ensures short { IfOk result (λ list. AllByRecursion IsShort list.packets) }
    // What is a capture is read as its packets, unless memory runs out.
    ensures accepted { (packets : List (List ℕ)) → IsCapture bytes.items packets →
        MatchResult result (λ list. list.packets ≡ packets) (λ back. back.cause ≡ BadCapture.OutOfMemory) }
    // The first check that fails decides, whatever memory there is.
    ensures refused { (refusal : BadCapture) → IsRefused bytes.items refusal →
        result ≡ Err (record { bytes = bytes; cause = refusal }) }
    ensures cause { IfErr result (λ back. IsCause bytes.items back.cause) }
    ensures back { IfErr result (λ back. back.bytes ≡ bytes) }
{
    match spans_of(alloc, bytes.as_slice()) {
        Ok(spans) => Ok(PacketList::of_spans(bytes, spans)),
        Err(cause) => Err(ReadRefused { bytes, cause }),
    }
}
