//! The captures of the inputs, judged.
ghost use Rattle.std.specs.Prelude.{◌≡◌, ◌<◌, ◌≤◌, ◌^◌, None, Some, IfErr, IfOk, OnOk, length, map};
ghost use Rattle.xsk_pcap.specs.Capture.{IsCapture};
ghost use Rattle.xsk_umem.specs.PacketList.{PacketList as Packets};
ghost use Rattle.xsk_cli.specs.Format.{most_input};
ghost use Rattle.xsk_cli.specs.Judged.{AreCaptures, AreShort, bytes_in, excess_of, packets_in};
ghost use Rattle.xsk_cli.specs.Outcome.{listed};
ghost use Rattle.xsk_cli.specs.Steps.{AreUntaken, IsRefusal, lists_in};

use crate::Excess;
use crate::failure::RunFailure;
use crate::format::Format;
use std::alloc::Global;
use xsk_pcap::{BadCapture, read};
use xsk_umem::PacketList;

/// The most packets, and captured bytes, of all inputs together.
const MOST_PACKETS: u64 = 65_536;

const MOST_BYTES: u64 = 33_554_432;

/// The packets of each port's capture, all together within the limits.
pub(crate) fn take_captures(
    alloc: Global,
    inputs: Vec<Vec<u8>>,
) -> Result<Vec<PacketList>, RunFailure>
    requires few { length inputs.items ≤ 4 }
    requires short { AreShort (most_input Format.Pcap) (map (λ bytes. bytes.items) inputs.items) (length inputs.items) }
    ensures taken { IfOk result (λ lists. AreCaptures (map (λ bytes. bytes.items) inputs.items) (lists_in lists.items)) }
    ensures within { IfOk result (λ lists. excess_of (lists_in lists.items) ≡ None) }
    ensures listed { IfOk result (λ lists. lists.items ≡ map listed (lists_in lists.items)) }
    ensures failed { IfErr result (AreUntaken (map (λ bytes. bytes.items) inputs.items)) }
{
    let lists = read_captures(alloc, inputs)?;
    match check_limits(lists.as_slice()) {
        Ok(()) => Ok(lists),
        Err(excess) => Err(RunFailure::TooMuch(excess)),
    }
}

/// The packets of each port's capture.
fn read_captures(alloc: Global, inputs: Vec<Vec<u8>>) -> Result<Vec<PacketList>, RunFailure>
    requires few { length inputs.items ≤ 4 }
    requires short { AreShort (most_input Format.Pcap) (map (λ bytes. bytes.items) inputs.items) (length inputs.items) }
    ensures read { IfOk result (λ lists. AreCaptures (map (λ bytes. bytes.items) inputs.items) (lists_in lists.items)) }
    ensures listed { IfOk result (λ lists. lists.items ≡ map listed (lists_in lists.items)) }
    ensures failed { IfErr result (AreUntaken (map (λ bytes. bytes.items) inputs.items)) }
{
    let mut lists = Vec::with_capacity(alloc, inputs.len())?;
    let mut port = 0;
    for bytes in inputs {
        let list = read_capture(alloc, port, bytes)?;
        lists.push_reserved(list);
        port += 1;
    }
    Ok(lists)
}

/// The packets of a port's capture, with no room for others.
fn read_capture(alloc: Global, port: u32, bytes: Vec<u8>) -> Result<PacketList, RunFailure>
    ensures found { IfOk result (λ list. IsCapture bytes.items list.packets) }
    ensures listed { IfOk result (λ list. list ≡ listed list.packets) }
    ensures failed { IfErr result (IsRefusal port bytes.items) }
{
    match read(alloc, bytes) {
        Ok(list) => Ok(without_room(list)),
        Err(back) => match back.cause {
            BadCapture::OutOfMemory => Err(RunFailure::OutOfMemory),
            cause => Err(RunFailure::BadCapture { port, cause }),
        },
    }
}

/// The list without the room for further packets.
pub(crate) fn without_room(list: PacketList) -> PacketList
    ensures { result ≡ listed list.packets }
{
    let _count = list.len();
    let parts = list.into_parts();
    PacketList::of_spans(parts.text, parts.spans)
}

/// Tests the limits of all lists together: the packets first, then the captured bytes.
pub(crate) fn check_limits(lists: &[PacketList]) -> Result<(), Excess>
    requires few { length lists.now ≤ 4 }
    requires small { bytes_in (lists_in lists.now) < 2 ^ 64 }
    ensures within { OnOk result (excess_of (lists_in lists.now) ≡ None) }
    ensures excess { IfErr result (λ excess. excess_of (lists_in lists.now) ≡ Some excess) }
{
    let packets = count_packets(lists);
    if packets > MOST_PACKETS {
        return Err(Excess::Packets(packets));
    }
    let bytes = count_bytes(lists);
    if bytes > MOST_BYTES {
        return Err(Excess::Bytes(bytes));
    }
    Ok(())
}

/// The packets of all lists.
fn count_packets(lists: &[PacketList]) -> u64
    requires { length lists.now ≤ 4 }
    ensures { result ≡ packets_in (lists_in lists.now) }
{
    let mut packets = 0;
    for list in lists {
        packets += u64::from(list.len());
    }
    packets
}

/// The bytes of all packets of all lists.
fn count_bytes(lists: &[PacketList]) -> u64
    requires { bytes_in (lists_in lists.now) < 2 ^ 64 }
    ensures { result ≡ bytes_in (lists_in lists.now) }
{
    let mut bytes = 0;
    for list in lists {
        bytes += list.bytes();
    }
    bytes
}
