//! The packets of captures that stand one behind the other in a text.
ghost use Rattle.std.specs.Prelude.{◌≡◌, ◌++◌, [], ◌∷◌, All, IfErr, IfOk, OnOk};
ghost use Rattle.xsk_pcap.specs.Capture.{IsCapture};
ghost use Rattle.xsk_machine.specs.Acts.{HasShortPackets};
ghost use Rattle.xsk_c.specs.Captures.{AreRead, IsRead, Fails, AreRefused, IsMemory, IsUnread};

use crate::opening::Refusal;
use std::alloc::Global;
use xsk_pcap::read;
use xsk_umem::PacketList;

/// The packets of the captures, each of which begins where the one before it ends.
pub(crate) fn lists_of(alloc: Global, text: &[u8], ends: &[u64]) -> Result<Vec<PacketList>, Refusal>
    ensures read { IfOk result (λ lists. AreRead text.now 0 ends.now lists.items) }
    ensures short { IfOk result (λ lists. All HasShortPackets lists.items) }
    ensures refused { IfErr result (AreRefused text.now 0 ends.now) }
{
    let mut lists = Vec::new(alloc);
    let mut begin = 0;
    for i in 0..ends.len() {
        let end = ends[i];
        let list = list_of(alloc, text, begin, end)?;
        push_list(&mut lists, list)?;
        begin = end;
    }
    Ok(lists)
}

/// Puts a list behind others.
fn push_list(lists: &mut Vec<PacketList>, list: PacketList) -> Result<(), Refusal>
    requires all { All HasShortPackets lists.old.items }
    requires one { HasShortPackets list }
    ensures pushed { OnOk result (lists.new.items ≡ lists.old.items ++ list ∷ []) }
    ensures short { OnOk result (All HasShortPackets lists.new.items) }
    ensures refused { IfErr result IsMemory }
{
    match lists.push(list) {
        Ok(()) => Ok(()),
        Err(_) => Err(Refusal::OutOfMemory),
    }
}

/// The packets of the capture between two ends.
fn list_of(alloc: Global, text: &[u8], begin: u64, end: u64) -> Result<PacketList, Refusal>
    ensures read { IfOk result (λ list. IsRead text.now begin end list) }
    ensures short { IfOk result HasShortPackets }
    ensures refused { IfErr result (Fails text.now begin end) }
{
    if end < begin || end > text.len() as u64 {
        return Err(Refusal::Ends);
    }
    read_list(alloc, &text[begin as usize..end as usize])
}

#[tactic(auto, using(crate::proofs::Short::short_packets))]
fn read_list(alloc: Global, text: &[u8]) -> Result<PacketList, Refusal>
    ensures read { IfOk result (λ list. IsCapture text.now list.packets) }
    ensures short { IfOk result HasShortPackets }
    ensures refused { IfErr result (IsUnread text.now) }
{
    let Ok(bytes) = Vec::from_slice(alloc, text) else {
        return Err(Refusal::OutOfMemory);
    };
    match read(alloc, bytes) {
        Ok(list) => Ok(list),
        Err(refused) => Err(Refusal::Capture(refused.cause)),
    }
}
