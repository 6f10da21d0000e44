//! The packets of a port, split into the numbers of each queue's own.
ghost use Rattle.std.specs.Prelude.{◌≡◌, ◌+◌, ◌<◌, ◌≤◌, ◌^◌, ◌⊎◌, All, IfOk, MatchOption, [], length, min};
ghost use Rattle.std.specs.List.{concat, slice_index_or};
ghost use Rattle.xsk_model.specs.Config.{IsRegular};
ghost use Rattle.xsk_model.specs.Steering.{packet_queue as queue_of_packet};
ghost use Rattle.xsk_turns.specs.Inputs.{numbers_from, inputs_of};
ghost use Rattle.xsk_driver.specs.Asking.{packets_by};

use std::alloc::Global;
use std::marker::Model;
use xsk_model::Config;
use xsk_model::steering::packet_queue;
use xsk_umem::{OutOfMemory, PacketList};

/// So many packets with so many bytes in all.
#[derive(Clone, Copy)]
pub struct Amount {
    pub packets: u32,
    pub bytes: u32,
}

impl Amount {
    /// Both together, if they are fewer than 2^32 packets and bytes.
    pub fn plus(self, more: Amount) -> Option<Amount>
        ensures { MatchOption result ((2 ^ 32 ≤ self.packets + more.packets) ⊎ (2 ^ 32 ≤ self.bytes + more.bytes))
            (λ sum. (sum.packets ≡ self.packets + more.packets) × (sum.bytes ≡ self.bytes + more.bytes)) }
    {
        let packets = self.packets.checked_add(more.packets)?;
        let bytes = self.bytes.checked_add(more.bytes)?;
        Some(Amount { packets, bytes })
    }
}

/// For each pair the numbers of its packets in its port's list, in order.
#[derive(Drop)]
pub struct Inputs {
    numbers: Vec<Vec<u32>>,
}

impl Model for Inputs {
    ghost use Rattle.std.specs.Prelude.{List, map, ℕ};
    ghost use Rattle.std.specs.Vec.{vec_items};

    ghost Value = { List (List ℕ) };

    ghost view = { λ i. map vec_items i.numbers.items };
}

impl Inputs {
    /// Gives each packet of each port to the pair of its queue: the sum of its first 12 bytes (of all, where it has
    /// fewer) modulo the number of queues. There is one list for each port.
    pub fn split(
        alloc: Global,
        config: &Config,
        packets: &[PacketList],
    ) -> Result<Inputs, OutOfMemory>
        requires regular { IsRegular config.now }
        requires lists { length packets.now ≡ config.now.ports }
        ensures { IfOk result (λ inputs. inputs ≡ inputs_of config.now packets.now) }
    {
        let mut numbers = Vec::with_capacity(alloc, config.pairs().len())?;
        for pair in config.pairs() {
            let list = &packets[pair.port as usize];
            numbers.push(numbers_of_queue(alloc, list, pair.queue, config.queues())?)?;
        }
        Ok(Inputs { numbers })
    }

    /// The numbers of a pair's packets in its port's list.
    pub fn of_pair(&self, pair: u32) -> &[u32]
        ensures { result.now ≡ slice_index_or self.now pair [] }
    {
        match self.numbers.get(pair as usize) {
            Some(numbers) => numbers.as_slice(),
            None => &[],
        }
    }

    /// How many packets a pair has and how many bytes they have in all, if both are fewer than 2^32. The list is that of its
    /// port.
    pub fn amount_of(&self, pair: u32, packets: &PacketList) -> Option<Amount>
        requires known { All (λ n. n < length packets.now.packets) (slice_index_or self.now pair []) }
        ensures { MatchOption result
            ((2 ^ 32 ≤ length (slice_index_or self.now pair [])) ⊎ (2 ^ 32 ≤ length (concat (packets_by packets.now (slice_index_or self.now pair [])))))
            (λ amount. (amount.packets ≡ length (slice_index_or self.now pair [])) × (amount.bytes ≡ length (concat (packets_by packets.now (slice_index_or self.now pair []))))) }
    {
        let numbers = self.of_pair(pair);
        let bytes = bytes_of(numbers, packets);
        let Ok(packets) = u32::try_from(numbers.len()) else {
            return None;
        };
        let Ok(bytes) = u32::try_from(bytes) else {
            return None;
        };
        Some(Amount { packets, bytes })
    }
}

/// The bytes of the packets with these numbers; the sum stays at its last value.
fn bytes_of(numbers: &[u32], packets: &PacketList) -> u64
    requires known { All (λ n. n < length packets.now.packets) numbers.now }
    ensures { result ≡ min (length (concat (packets_by packets.now numbers.now))) 18446744073709551615 }
{
    let mut bytes = 0;
    for number in numbers {
        bytes = u64::saturating_add(bytes, packets.get(*number).len() as u64);
    }
    bytes
}

fn numbers_of_queue(
    alloc: Global,
    list: &PacketList,
    queue: u32,
    queues: u32,
) -> Result<Vec<u32>, OutOfMemory>
    requires { 0 < queues }
    ensures { IfOk result (λ numbers. numbers.items ≡ numbers_from queues queue 0 list.now.packets) }
{
    let mut numbers = Vec::new(alloc);
    for number in 0..list.len() {
        if queue_of(list.get(number), queues) == queue {
            numbers.push(number)?;
        }
    }
    Ok(numbers)
}

/// The queue of a packet, for which no bytes are summed up where there is one queue.
fn queue_of(packet: &[u8], queues: u32) -> u32
    requires { 0 < queues }
    ensures { result ≡ queue_of_packet queues packet.now }
{
    if queues == 1 {
        return 0;
    }
    packet_queue(packet, queues)
}
