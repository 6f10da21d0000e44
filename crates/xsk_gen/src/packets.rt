//! The packets of a number and a port.
ghost use Rattle.std.specs.Prelude.{◌≡◌, ◌<◌, ◌%◌, [], ◌∷◌, IfOk, OnOk};
ghost use Rattle.xsk_gen.specs.Generator.{draw, first, kind_byte, packet, packet_at, state_after};

use crate::draws::Draws;
use std::alloc::{AllocError, Global};
use xsk_umem::{OutOfMemory, PacketList};

/// The packets that one call makes.
const PACKETS: u32 = 2_000;

/// The bytes of a packet that are drawn.
const DRAWN: u32 = 12;

/// Makes the 2,000 packets of a number and a port.
///
/// The port must be below 4. The packets have 60 to 1,514 bytes. The same number and port give the same packets.
pub fn generate(alloc: Global, number: u32, port: u32) -> Result<PacketList, OutOfMemory>
    requires { port < 4 }
    ensures { IfOk result (λ list. list.packets ≡ first 2000 (packet number port)) }
{
    let mut list = PacketList::new(alloc);
    let mut draws = Draws::new(number, port);
    for index in 0..PACKETS {
        let bytes = make_packet(alloc, index, &mut draws)?;
        list.push(bytes.as_slice())?;
    }
    Ok(list)
}

/// Packet `index`, by the next thirteen draws.
fn make_packet(alloc: Global, index: u32, draws: &mut Draws) -> Result<Vec<u8>, AllocError>
    requires { index < 2000 }
    ensures bytes { IfOk result (λ bytes. bytes.items ≡ packet_at index draws.old.state) }
    ensures state { OnOk result (draws.new.state ≡ state_after 13 draws.old.state) }
{
    let len = 60 + draws.next() % 1_455;
    let mut bytes = draw_bytes(alloc, draws)?;
    bytes.extend_from_slice(&kind(index))?;
    for place in 14..len {
        bytes.push(((place + index) % 256) as u8)?;
    }
    Ok(bytes)
}

/// The drawn bytes at the front of a packet.
fn draw_bytes(alloc: Global, draws: &mut Draws) -> Result<Vec<u8>, AllocError>
    ensures bytes { IfOk result (λ bytes. bytes.items ≡ first 12 (λ i. draw draws.old.state i % 256)) }
    ensures state { OnOk result (draws.new.state ≡ state_after 12 draws.old.state) }
{
    let mut bytes = Vec::new(alloc);
    for _ in 0..DRAWN {
        bytes.push((draws.next() % 256) as u8)?;
    }
    Ok(bytes)
}

/// The bytes of the Ethernet type: IPv4 for even packets, and IPv6 for odd ones.
fn kind(index: u32) -> [u8; 2]
    ensures { result ≡ kind_byte index 12 ∷ kind_byte index 13 ∷ [] }
{
    if index % 2 == 0 { [8, 0] } else { [134, 221] }
}
