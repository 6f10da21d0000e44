//! The one file of all ports: its packets read and judged, and what the drivers sent written as one.
ghost use Rattle.std.specs.Prelude.{◌≡◌, ◌+◌, ◌*◌, ◌∷◌, ◌<◌, ◌≤◌, ◌++◌, [], None, IfErr, IfOk, OnOk, drop, length, map, take};
ghost use Rattle.xsk_pcap.specs.Written.{all_packets};
ghost use Rattle.xsk_pcapng.specs.Pcapng.{IsPcapng};
ghost use Rattle.xsk_pcapng.specs.Written.{IsWritable as IsWritableFile, written as written_file};
ghost use Rattle.xsk_cli.specs.Format.{IsFile, joined, most_input};
ghost use Rattle.xsk_cli.specs.Judged.{AreShort, bytes_of, excess_of};
ghost use Rattle.xsk_cli.specs.Outcome.{listed};
ghost use Rattle.xsk_cli.specs.Steps.{IsBeforeRun, IsFileRefusal, IsUntaken, lists_in};

use crate::captures::check_limits;
use crate::failure::RunFailure;
use crate::format::Format;
use std::alloc::Global;
use xsk_pcapng::{BadPcapng, take, write_over};
use xsk_umem::{OutOfMemory, PacketList};

/// The packets of so many ports in the one file, all together within the limits.
pub(crate) fn take_file(
    alloc: Global,
    inputs: Vec<Vec<u8>>,
    ports: u32,
) -> Result<Vec<PacketList>, RunFailure>
    requires one { length inputs.items ≡ 1 }
    requires few { ports ≤ 4 }
    requires short { AreShort (most_input Format.Pcapng) (map (λ bytes. bytes.items) inputs.items) (length inputs.items) }
    ensures taken { IfOk result (λ lists. IsFile ports (map (λ bytes. bytes.items) inputs.items) (lists_in lists.items)) }
    ensures within { IfOk result (λ lists. excess_of (lists_in lists.items) ≡ None) }
    ensures count { IfOk result (λ lists. length lists.items ≡ ports) }
    ensures listed { IfOk result (λ lists. lists.items ≡ map listed (lists_in lists.items)) }
    ensures failed { IfErr result (IsUntaken ports (map (λ bytes. bytes.items) inputs.items)) }
    ensures no_run { IfErr result IsBeforeRun }
{
    let lists = read_file(alloc, inputs, ports)?;
    match check_limits(lists.as_slice()) {
        Ok(()) => Ok(lists),
        Err(excess) => Err(RunFailure::TooMuch(excess)),
    }
}

/// The packets of so many ports in the one file, whose bytes the lists share.
fn read_file(alloc: Global, inputs: Vec<Vec<u8>>, ports: u32) -> Result<Vec<PacketList>, RunFailure>
    requires { length inputs.items ≡ 1 }
    ensures found { IfOk result (λ lists. IsPcapng ports (bytes_of (map (λ bytes. bytes.items) inputs.items) 0) (lists_in lists.items)) }
    ensures listed { IfOk result (λ lists. lists.items ≡ map listed (lists_in lists.items)) }
    ensures failed { IfErr result (IsFileRefusal ports (bytes_of (map (λ bytes. bytes.items) inputs.items) 0)) }
{
    let mut inputs = inputs;
    let bytes = inputs.pop().unwrap();
    match take(alloc, bytes, ports) {
        Ok(lists) => Ok(lists),
        Err(back) => match back.cause {
            BadPcapng::OutOfMemory => Err(RunFailure::OutOfMemory),
            cause => Err(RunFailure::BadPcapng(cause)),
        },
    }
}

/// The text of the last list, when the lists are no longer wanted: memory for another text. The others go first, so that none
/// shares it.
pub(crate) fn spare_text(alloc: Global, lists: Vec<PacketList>) -> Vec<u8> {
    let mut lists = lists;
    let last = lists.pop();
    drop(lists);
    match last {
        Some(list) => list.into_parts().text,
        None => Vec::new(alloc),
    }
}

/// What is written of lists, so many for each port: one file, in which the lists of each port are one, the first one first.
/// It stands in the memory of the spare text, as far as that reaches.
pub(crate) fn file_texts(
    alloc: Global,
    ports: u32,
    each: u32,
    spare: Vec<u8>,
    lists: &[PacketList],
) -> Result<Vec<Vec<u8>>, OutOfMemory>
    requires ports { ports ≤ 4 }
    requires count { length lists.now ≡ ports * each }
    requires few { ports * each < 4294967296 }
    requires writable { IsWritableFile (joined ports each (lists_in lists.now)) }
    ensures { IfOk result (λ texts. map (λ text. text.items) texts.items ≡ written_file (joined ports each (lists_in lists.now)) ∷ []) }
{
    let mut texts = Vec::with_capacity(alloc, 1)?;
    let text = file_text(alloc, ports, each, spare, lists)?;
    texts.push_reserved(text);
    Ok(texts)
}

/// The file of lists, so many for each port. One list for each port is written as it is.
fn file_text(
    alloc: Global,
    ports: u32,
    each: u32,
    spare: Vec<u8>,
    lists: &[PacketList],
) -> Result<Vec<u8>, OutOfMemory>
    requires ports { ports ≤ 4 }
    requires count { length lists.now ≡ ports * each }
    requires few { ports * each < 4294967296 }
    requires writable { IsWritableFile (joined ports each (lists_in lists.now)) }
    ensures { IfOk result (λ text. text.items ≡ written_file (joined ports each (lists_in lists.now))) }
{
    if each == 1 {
        return write_over(spare, lists);
    }
    join_and_write(alloc, ports, each, spare, lists)
}

/// The file of lists, so many for each port, whose packets are copied into one list for each.
fn join_and_write(
    alloc: Global,
    ports: u32,
    each: u32,
    spare: Vec<u8>,
    lists: &[PacketList],
) -> Result<Vec<u8>, OutOfMemory>
    requires ports { ports ≤ 4 }
    requires count { length lists.now ≡ ports * each }
    requires few { ports * each < 4294967296 }
    requires writable { IsWritableFile (joined ports each (lists_in lists.now)) }
    ensures { IfOk result (λ text. text.items ≡ written_file (joined ports each (lists_in lists.now))) }
{
    let all = join(alloc, ports, each, lists)?;
    write_over(spare, all.as_slice())
}

/// One list for each port, of its so many.
#[tactic(auto, using(crate::proofs::Ports::more_ports))]
fn join(
    alloc: Global,
    ports: u32,
    each: u32,
    lists: &[PacketList],
) -> Result<Vec<PacketList>, OutOfMemory>
    requires ports { ports ≤ 4 }
    requires count { length lists.now ≡ ports * each }
    requires few { ports * each < 4294967296 }
    ensures { IfOk result (λ all. lists_in all.items ≡ joined ports each (lists_in lists.now)) }
{
    let mut all = Vec::with_capacity(alloc, ports as usize)?;
    for port in 0..ports {
        let list = join_from(alloc, port * each, each, lists)?;
        all.push_reserved(list);
    }
    Ok(all)
}

/// So many lists as one, from a place on.
fn join_from(
    alloc: Global,
    first: u32,
    count: u32,
    lists: &[PacketList],
) -> Result<PacketList, OutOfMemory>
    requires known { first + count ≤ length lists.now }
    requires few { first + count < 4294967296 }
    ensures { IfOk result (λ list. list.packets ≡ all_packets (take count (drop first (lists_in lists.now)))) }
{
    let mut all = PacketList::new(alloc);
    for place in 0..count {
        append(&mut all, &lists[(first + place) as usize])?;
    }
    Ok(all)
}

/// Appends the packets of a list to another.
pub(crate) fn append(all: &mut PacketList, list: &PacketList) -> Result<(), OutOfMemory>
    ensures packets { OnOk result (all.new.packets ≡ all.old.packets ++ list.now.packets) }
    ensures gaps { all.new.gaps ≡ all.old.gaps }
{
    let bytes = u32::try_from(list.bytes()).map_err(|_| OutOfMemory)?;
    all.reserve(list.len(), bytes)?;
    for i in 0..list.len() {
        all.push_reserved(list.get(i));
    }
    Ok(())
}
