//! The packets of a script. `packet PORT LEN BYTE AT:BYTE ..` is one whose bytes are all the same, but for those that are
//! named; `packets PORT COUNT LEN` are so many, each of whose bytes are its own number.
ghost use Rattle.std.specs.Prelude.{◌≡◌, All, IfOk, OnOk, length};
ghost use Rattle.xsk_driver.specs.SentRoom.{IsShort};
ghost use Rattle.xsk_machine.specs.Acts.{HasShortPackets};

use crate::trouble::Trouble;
use crate::words::{Line, byte, halves, number, three_numbers};
use std::alloc::Global;
use xsk_umem::PacketList;

/// The most bytes of a packet.
const MOST_BYTES: usize = 262_144;

/// The packets of each port.
pub(crate) fn lists_of(
    alloc: Global,
    lines: &[Line<'_>],
    ports: u32,
) -> Result<Vec<PacketList>, Trouble>
    ensures count { IfOk result (λ lists. length lists.items ≡ ports) }
    ensures short { IfOk result (λ lists. All HasShortPackets lists.items) }
{
    let mut lists = Vec::new(alloc);
    for port in 0..ports {
        lists.push(list_of(alloc, lines, port)?)?;
    }
    Ok(lists)
}

fn list_of(alloc: Global, lines: &[Line<'_>], port: u32) -> Result<PacketList, Trouble>
    ensures { IfOk result HasShortPackets }
{
    let mut list = PacketList::new(alloc);
    for line in lines {
        read_line(alloc, &mut list, line, port)?;
    }
    Ok(list)
}

fn read_line(
    alloc: Global,
    list: &mut PacketList,
    line: &Line<'_>,
    port: u32,
) -> Result<(), Trouble>
    requires { HasShortPackets list.old }
    ensures { OnOk result (HasShortPackets list.new) }
{
    if let Some(words) = line.behind("packet") {
        return push_one(alloc, list, words, port);
    }
    if let Some(words) = line.behind("packets") {
        return push_all(alloc, list, words, port);
    }
    Ok(())
}

fn push_one(alloc: Global, list: &mut PacketList, words: &[&str], port: u32) -> Result<(), Trouble>
    requires { HasShortPackets list.old }
    ensures { OnOk result (HasShortPackets list.new) }
{
    let [on, len, value, edits @ ..] = words else {
        return Err(Trouble::BadLine);
    };
    if number(on)? != port {
        return Ok(());
    }
    push_filled(alloc, list, byte(value)?, number(len)?, edits)
}

/// Pushes a packet whose bytes are all the same, but for those that are named.
fn push_filled(
    alloc: Global,
    list: &mut PacketList,
    value: u8,
    len: u32,
    edits: &[&str],
) -> Result<(), Trouble>
    requires { HasShortPackets list.old }
    ensures { OnOk result (HasShortPackets list.new) }
{
    let mut bytes = vec![in alloc; value; len as usize]?;
    edit(bytes.as_mut_slice(), edits)?;
    push_short(list, bytes.as_slice())
}

/// Sets the bytes that are named.
fn edit(bytes: &mut [u8], edits: &[&str]) -> Result<(), Trouble> {
    for word in edits {
        set_byte(bytes, word)?;
    }
    Ok(())
}

fn set_byte(bytes: &mut [u8], word: &str) -> Result<(), Trouble> {
    let (at, value) = halves(word, ':')?;
    let value = byte(value)?;
    let at = number(at)? as usize;
    if at >= bytes.len() {
        return Err(Trouble::BadLine);
    }
    bytes[at] = value;
    Ok(())
}

fn push_all(alloc: Global, list: &mut PacketList, words: &[&str], port: u32) -> Result<(), Trouble>
    requires { HasShortPackets list.old }
    ensures { OnOk result (HasShortPackets list.new) }
{
    let (on, count, len) = three_numbers(words)?;
    if on != port {
        return Ok(());
    }
    for place in 0..count {
        push_filled(alloc, list, (place % 256) as u8, len, &[])?;
    }
    Ok(())
}

fn push_short(list: &mut PacketList, bytes: &[u8]) -> Result<(), Trouble>
    requires { HasShortPackets list.old }
    ensures { OnOk result (HasShortPackets list.new) }
{
    if bytes.len() > MOST_BYTES {
        return Err(Trouble::BadLine);
    }
    list.push(bytes)?;
    Ok(())
}
