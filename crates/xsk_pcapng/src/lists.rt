//! The packets that were found in a file, laid out as a list for each port.
ghost use Rattle.std.specs.Prelude.{◌≡◌, ◌<◌, ◌≤◌, ◌^◌, ◌++◌, map, length, All, IfErr, IfOk, IfSome, Some, slice_get, vec_capacity};
ghost use Rattle.std.specs.Arc.{arc_value};
ghost use Rattle.std.specs.List.{concat};
ghost use Rattle.xsk_umem.specs.Span.{at_span, AreFrom};
ghost use Rattle.xsk_pcapng.specs.Blocks.{packets_at};
ghost use Rattle.xsk_pcapng.specs.Pcapng.{lists_of as lists_by_port};
ghost use Rattle.xsk_pcapng.specs.Steps.{arrival_in, IsFoundIn, spans_at, spans_in};
ghost use Rattle.xsk_pcapng.specs.Written.{bare, packets_of};

use crate::reading::Found;
use std::alloc::Global;
use std::sync::Arc;
use xsk_umem::{OutOfMemory, PacketList, Span};

/// How much the packets of one interface take.
#[derive(Clone, Copy)]
struct Room {
    packets: u32,
    bytes: u32,
}

/// The lists of so many ports.
pub fn lists_of(
    alloc: Global,
    bytes: &[u8],
    found: &[Found],
    ports: u32,
) -> Result<Vec<PacketList>, OutOfMemory>
    requires { All (IsFoundIn bytes.now) found.now }
    ensures { IfOk result (λ lists. packets_of lists.items ≡ lists_by_port ports (map (arrival_in bytes.now) found.now)) }
{
    let mut lists = Vec::new(alloc);
    for port in 0..ports {
        lists.push(list_of(alloc, bytes, found, port)?)?;
    }
    Ok(lists)
}

/// The lists of so many ports, which share the bytes as their text. Where memory can't be had the bytes come back: room is taken
/// for a copy of them, before they are shared.
pub fn lists_in(
    alloc: Global,
    bytes: Vec<u8>,
    found: &[Found],
    ports: u32,
) -> Result<Vec<PacketList>, Vec<u8>>
    requires within { All (IsFoundIn bytes.items) found.now }
    requires apart { AreFrom 0 (spans_in found.now) }
    ensures packets { IfOk result (λ lists. packets_of lists.items ≡ lists_by_port ports (map (arrival_in bytes.items) found.now)) }
    ensures bare { IfOk result (λ lists. lists.items ≡ map bare (packets_of lists.items)) }
    ensures back { IfErr result (λ back. back.items ≡ bytes.items) }
{
    let Ok(room) = Vec::with_capacity(alloc, bytes.len()) else {
        return Err(bytes);
    };
    let text = match Arc::new(alloc, bytes) {
        Ok(text) => text,
        Err(refused) => return Err(refused.value),
    };
    match lists_over(alloc, &text, found, ports) {
        Ok(lists) => Ok(lists),
        Err(OutOfMemory) => Err(take_back(text, room)),
    }
}

/// The text, or a copy of it in the room where something else has it too.
fn take_back(text: Arc<Vec<u8>>, room: Vec<u8>) -> Vec<u8>
    requires { length (arc_value text).items ≤ vec_capacity room }
    ensures { result.items ≡ (arc_value text).items }
{
    match Arc::try_unwrap(text) {
        Ok(text) => text,
        Err(text) => copy_into(room, text.as_slice()),
    }
}

/// The bytes, in the place of what stands in room that is enough.
fn copy_into(room: Vec<u8>, bytes: &[u8]) -> Vec<u8>
    requires { length bytes.now ≤ vec_capacity room }
    ensures { result.items ≡ bytes.now }
{
    let mut text = room;
    text.clear();
    text.extend_from_slice(bytes).unwrap();
    text
}

/// The lists of so many ports over one text.
fn lists_over(
    alloc: Global,
    text: &Arc<Vec<u8>>,
    found: &[Found],
    ports: u32,
) -> Result<Vec<PacketList>, OutOfMemory>
    requires within { All (IsFoundIn (arc_value text.now).items) found.now }
    requires apart { AreFrom 0 (spans_in found.now) }
    ensures { IfOk result (λ lists. lists.items ≡ map bare (lists_by_port ports (map (arrival_in (arc_value text.now).items) found.now))) }
{
    let mut lists = Vec::new(alloc);
    for port in 0..ports {
        let spans = spans_of(alloc, found, port)?;
        let list = PacketList::of_shared(alloc, text, spans)?;
        lists.push(list)?;
    }
    Ok(lists)
}

/// Where the packets of one port stand, where 32 bits count them.
fn spans_of(alloc: Global, found: &[Found], port: u32) -> Result<Vec<Span>, OutOfMemory>
    ensures spans { IfOk result (λ spans. spans.items ≡ spans_at port found.now) }
    ensures few { IfOk result (λ spans. length spans.items < 2 ^ 32) }
{
    let mut spans = Vec::new(alloc);
    for i in 0..found.len() {
        let packet = found[i];
        if packet.interface == port {
            spans.push(packet.span)?;
        }
    }
    if spans.len() > u32::MAX as usize {
        return Err(OutOfMemory);
    }
    Ok(spans)
}

/// The list of one port.
fn list_of(
    alloc: Global,
    bytes: &[u8],
    found: &[Found],
    port: u32,
) -> Result<PacketList, OutOfMemory>
    requires { All (IsFoundIn bytes.now) found.now }
    ensures { IfOk result (λ list. list.packets ≡ packets_at port (map (arrival_in bytes.now) found.now)) }
{
    let room = room_of(bytes, found, port).ok_or(OutOfMemory)?;
    let mut list = PacketList::new(alloc);
    list.reserve(room.packets, room.bytes)?;
    append_packets(&mut list, bytes, found, port);
    Ok(list)
}

/// The room of the packets of one port, where 32 bits count it.
fn room_of(bytes: &[u8], found: &[Found], port: u32) -> Option<Room>
    requires { All (IsFoundIn bytes.now) found.now }
    ensures packets { IfSome result (λ room. room.packets ≡ length (packets_at port (map (arrival_in bytes.now) found.now))) }
    ensures bytes { IfSome result (λ room. room.bytes ≡ length (concat (packets_at port (map (arrival_in bytes.now) found.now)))) }
{
    let mut room = Room {
        packets: 0,
        bytes: 0,
    };
    for i in 0..found.len() {
        let packet = found[i];
        if packet.interface != port {
            continue;
        }
        let len = u32::try_from(bytes_at(bytes, packet).len()).ok()?;
        room.packets = room.packets.checked_add(1)?;
        room.bytes = room.bytes.checked_add(len)?;
    }
    Some(room)
}

/// Appends the packets of one port, for which there must be room.
fn append_packets(list: &mut PacketList, bytes: &[u8], found: &[Found], port: u32)
    requires within { All (IsFoundIn bytes.now) found.now }
    requires packets { length (packets_at port (map (arrival_in bytes.now) found.now)) ≤ list.old.spare_packets }
    requires bytes { length (concat (packets_at port (map (arrival_in bytes.now) found.now))) ≤ list.old.spare_bytes }
    ensures { list.new.packets ≡ list.old.packets ++ packets_at port (map (arrival_in bytes.now) found.now) }
{
    for i in 0..found.len() {
        let packet = found[i];
        if packet.interface != port {
            continue;
        }
        list.push_reserved(bytes_at(bytes, packet));
    }
}

/// The bytes of a packet that was found.
fn bytes_at(bytes: &[u8], packet: Found) -> &[u8]
    requires { IsFoundIn bytes.now packet }
    ensures { result.now ≡ at_span bytes.now packet.span }
{
    &bytes[packet.span.start..packet.span.start + packet.span.len]
}
