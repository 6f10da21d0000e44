//! The texts that a command writes.
ghost use Rattle.std.specs.Prelude.{◌≡◌, ℕ, ◌+◌, ◌*◌, ◌<◌, ◌≤◌, All, IfOk, drop, length, map, take};
ghost use Rattle.std.specs.List.{concat, range_with_len};
ghost use Rattle.xsk_driver.specs.SentRoom.{IsShort};
ghost use Rattle.xsk_pcap.specs.Written.{IsWritable, written};
ghost use Rattle.xsk_pcapng.specs.Written.{IsWritable as IsWritableFile};
ghost use Rattle.xsk_cli.specs.Format.{joined, outputs_of};
ghost use Rattle.xsk_cli.specs.Outcome.{capture_of};
ghost use Rattle.xsk_cli.specs.Steps.{CanBeLaid, lists_in, outputs_in};

use crate::files::file_texts;
use crate::format::Format;
use std::alloc::Global;
use xsk_pcap::Capture;
use xsk_umem::{OutOfMemory, PacketList};

/// The outputs of a command.
#[derive(Drop)]
pub(crate) enum Outputs {
    /// The captures of what each driver of a run sent, which are written where the run's lists stand.
    Laid,
    /// These texts.
    Copied(Vec<Vec<u8>>),
}

/// What is written: the outputs, and the report.
#[derive(Drop)]
pub(crate) struct Texts {
    pub(crate) outputs: Outputs,
    pub(crate) report: Vec<u8>,
}

/// What is written of what the drivers sent, so many lists for each port. A file takes the memory of the spare text.
pub(crate) fn sent_outputs(
    alloc: Global,
    format: Format,
    ports: u32,
    queues: u32,
    spare: Vec<u8>,
    sent: &[PacketList],
) -> Result<Outputs, OutOfMemory>
    requires ports { ports ≤ 4 }
    requires count { length sent.now ≡ ports * queues }
    requires few { ports * queues < 4294967296 }
    requires writable { (port count : ℕ) → port < ports → count ≤ queues → IsWritable (take count (drop (port * queues) (lists_in sent.now))) }
    requires file { IsWritableFile (joined ports queues (lists_in sent.now)) }
    ensures outputs { IfOk result (λ outputs. outputs_in (lists_in sent.now) outputs ≡ outputs_of format (λ port. take queues (drop (port * queues) (lists_in sent.now))) (range_with_len 0 ports)) }
    ensures laid { IfOk result (CanBeLaid (lists_in sent.now)) }
{
    match format {
        Format::Pcap => {
            drop(spare);
            capture_outputs(alloc, ports, queues, sent)
        }
        Format::Pcapng => Ok(Outputs::Copied(file_texts(alloc, ports, queues, spare, sent)?)),
    }
}

/// The captures of what the drivers sent, so many lists for each port. With one list for each port they are written where the lists
/// stand.
fn capture_outputs(
    alloc: Global,
    ports: u32,
    queues: u32,
    sent: &[PacketList],
) -> Result<Outputs, OutOfMemory>
    requires ports { ports ≤ 4 }
    requires count { length sent.now ≡ ports * queues }
    requires few { ports * queues < 4294967296 }
    requires writable { (port count : ℕ) → port < ports → count ≤ queues → IsWritable (take count (drop (port * queues) (lists_in sent.now))) }
    ensures outputs { IfOk result (λ outputs. outputs_in (lists_in sent.now) outputs ≡ map (λ port. written (take queues (drop (port * queues) (lists_in sent.now)))) (range_with_len 0 ports)) }
    ensures laid { IfOk result (CanBeLaid (lists_in sent.now)) }
{
    if queues == 1 {
        return Ok(Outputs::Laid);
    }
    Ok(Outputs::Copied(port_texts(alloc, ports, queues, sent)?))
}

/// The captures of what the drivers sent, one for each port, in which its lists stand one behind another.
#[tactic(auto, using(crate::proofs::Ports::more_ports))]
fn port_texts(
    alloc: Global,
    ports: u32,
    queues: u32,
    sent: &[PacketList],
) -> Result<Vec<Vec<u8>>, OutOfMemory>
    requires ports { ports ≤ 4 }
    requires count { length sent.now ≡ ports * queues }
    requires few { ports * queues < 4294967296 }
    requires writable { (port count : ℕ) → port < ports → count ≤ queues → IsWritable (take count (drop (port * queues) (lists_in sent.now))) }
    ensures { IfOk result (λ texts. map (λ text. text.items) texts.items ≡ map (λ port. written (take queues (drop (port * queues) (lists_in sent.now)))) (range_with_len 0 ports)) }
{
    let mut texts = Vec::with_capacity(alloc, ports as usize)?;
    for port in 0..ports {
        let text = port_text(alloc, port * queues, queues, sent)?;
        texts.push_reserved(text);
    }
    Ok(texts)
}

/// The capture of so many lists, from a place on.
fn port_text(
    alloc: Global,
    first: u32,
    count: u32,
    sent: &[PacketList],
) -> Result<Vec<u8>, OutOfMemory>
    requires known { first + count ≤ length sent.now }
    requires few { first + count < 4294967296 }
    requires writable { (n : ℕ) → n ≤ count → IsWritable (take n (drop first (lists_in sent.now))) }
    ensures { IfOk result (λ text. text.items ≡ written (take count (drop first (lists_in sent.now)))) }
{
    let mut capture = Capture::start(alloc)?;
    for place in 0..count {
        capture.add(&sent[(first + place) as usize])?;
    }
    Ok(capture.into_bytes())
}

/// The capture of packets.
pub(crate) fn capture_text(alloc: Global, list: &PacketList) -> Result<Vec<u8>, OutOfMemory>
    requires short { All IsShort list.now.packets }
    requires few { length list.now.packets ≤ 65536 }
    requires small { length (concat list.now.packets) ≤ 33554432 }
    ensures { IfOk result (λ text. text.items ≡ capture_of list.now.packets) }
{
    let mut capture = Capture::start(alloc)?;
    capture.add(list)?;
    Ok(capture.into_bytes())
}
