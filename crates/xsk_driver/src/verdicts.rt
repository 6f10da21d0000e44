//! The verdicts of a driver's packets, for which the chain of programs is asked once.
ghost use Rattle.std.specs.Prelude.{◌≡◌, ◌<◌, ◌≤◌, All, IfOk, OnErr, length};
ghost use Rattle.xsk_prog.specs.Chain.{AllObey, SamePrograms};
ghost use Rattle.xsk_turns.specs.Verdicts.{EachHas, IsGiven};
ghost use Rattle.xsk_driver.specs.Asking.{AreAsked, IsAnswer, IsAsked, packets_by, questions_on};
ghost use Rattle.xsk_driver.specs.SentRoom.{IsShort};

use crate::machine::LEAST_BYTES;
use std::alloc::Global;
use xsk_prog::{Chain, Verdict};
use xsk_umem::{OutOfMemory, PacketList};

/// The verdicts of the packets of these numbers, in order, each asked for once. Where memory can't be had nothing is asked.
pub(crate) fn ask_all<F: Fn(&[u8], u32) -> Verdict>(
    alloc: Global,
    packets: &PacketList,
    numbers: &[u32],
    queue: u32,
    chain: &mut Chain<F>,
) -> Result<Vec<Verdict>, OutOfMemory>
    requires known { All (λ n. n < length packets.now.packets) numbers.now }
    requires short { All IsShort packets.now.packets }
    requires queue { queue < 4 }
    requires obeys { AllObey F.Fn chain.old }
    ensures given { IfOk result (λ verdicts. EachHas (IsGiven (IsAnswer F.Fn chain.old queue)) (packets_by packets.now numbers.now) verdicts.items) }
    ensures asked { IfOk result (λ verdicts. AreAsked F.Fn (questions_on queue (packets_by packets.now numbers.now)) verdicts.items chain.old chain.new) }
    ensures refused { OnErr result (chain.new ≡ chain.old) }
    ensures obeys { AllObey F.Fn chain.new }
{
    let mut verdicts = Vec::with_capacity(alloc, numbers.len())?;
    for number in numbers {
        verdicts.push_reserved(ask_once(packets.get(*number), queue, chain));
    }
    Ok(verdicts)
}

/// The verdict of a packet. One without an Ethernet header isn't asked about.
fn ask_once<F: Fn(&[u8], u32) -> Verdict>(
    packet: &[u8],
    queue: u32,
    chain: &mut Chain<F>,
) -> Verdict
    requires short { length packet.now ≤ 262144 }
    requires queue { queue < 4 }
    requires obeys { AllObey F.Fn chain.old }
    ensures given { IsGiven (IsAnswer F.Fn chain.old queue) packet.now result }
    ensures asked { IsAsked F.Fn (record { queue = queue; packet = packet.now }) result chain.old chain.new }
    ensures obeys { AllObey F.Fn chain.new }
{
    if packet.len() < LEAST_BYTES {
        return Verdict::Drop;
    }
    chain.verdict(packet, queue)
}
