//! The lines of all rings.
ghost use Rattle.std.specs.Prelude.{◌≡◌, ◌++◌, ◌<◌, IsSome, OnOk, flat_map, length};
ghost use Rattle.xsk_log.specs.Line.{ring_text};
ghost use Rattle.xsk_model.specs.Config.{HasRing};
ghost use Rattle.xsk_why.specs.Rings.{counts_text, pair_lines, ring_line, rings_text, socket_lines, where_some};
ghost use Rattle.std.specs.List.{range_with_len};

use crate::frames::push_frames;
use crate::text::{push_number, push_word};
use xsk_model::Ring;
use xsk_plain::{Plain, RingCounts};
use xsk_umem::OutOfMemory;

/// Puts the lines of all rings behind a text: FILL and COMPLETION of each pair, and RX and TX of each socket. A line has the ring's
/// size, how many items are out, how many places are held, reserved and free, and the frames of the items that are out, as ranges,
/// the next to be peeked first. It fails for want of memory alone.
pub fn append_rings(text: &mut Vec<u8>, plain: &Plain) -> Result<(), OutOfMemory>
    ensures { OnOk result (text.new.items ≡ text.old.items ++ rings_text plain.now.config plain.now.rings) }
{
    push_pairs(text, plain)?;
    push_sockets(text, plain)
}

fn push_pairs(text: &mut Vec<u8>, plain: &Plain) -> Result<(), OutOfMemory>
    ensures { OnOk result (text.new.items ≡ text.old.items ++ flat_map (pair_lines plain.now.config plain.now.rings) (range_with_len 0 (length plain.now.config.pairs))) }
{
    for pair in 0..plain.config().pairs().len() as u32 {
        push_ring(text, plain, Ring::Fill(pair))?;
        push_ring(text, plain, Ring::Comp(pair))?;
    }
    Ok(())
}

fn push_sockets(text: &mut Vec<u8>, plain: &Plain) -> Result<(), OutOfMemory>
    ensures { OnOk result (text.new.items ≡ text.old.items ++ flat_map (socket_lines plain.now.config plain.now.rings) (range_with_len 0 (length plain.now.config.sockets))) }
{
    for socket in 0..plain.config().sockets().len() as u32 {
        push_socket(text, plain, socket)?;
    }
    Ok(())
}

/// The rings that a socket has.
fn push_socket(text: &mut Vec<u8>, plain: &Plain, socket: u32) -> Result<(), OutOfMemory>
    requires { socket < length plain.now.config.sockets }
    ensures { OnOk result (text.new.items ≡ text.old.items ++ socket_lines plain.now.config plain.now.rings socket) }
{
    let sizes = plain.config().sockets()[socket as usize];
    push_where(text, plain, Ring::Rx(socket), sizes.rx)?;
    push_where(text, plain, Ring::Tx(socket), sizes.tx)
}

/// A ring that a socket has, where it has this size.
fn push_where(
    text: &mut Vec<u8>,
    plain: &Plain,
    ring: Ring,
    size: Option<u32>,
) -> Result<(), OutOfMemory>
    requires { IsSome size → HasRing plain.now.config ring }
    ensures { OnOk result (text.new.items ≡ text.old.items ++ where_some size (ring_line plain.now.config plain.now.rings ring)) }
{
    if size.is_none() {
        return Ok(());
    }
    push_ring(text, plain, ring)
}

fn push_ring(text: &mut Vec<u8>, plain: &Plain, ring: Ring) -> Result<(), OutOfMemory>
    requires { HasRing plain.now.config ring }
    ensures { OnOk result (text.new.items ≡ text.old.items ++ ring_line plain.now.config plain.now.rings ring) }
{
    push_word(text, "ring ")?;
    push_name(text, ring)?;
    let counts = plain.counts(ring);
    push_counts(text, plain.config().size(ring), counts)?;
    push_word(text, " frames")?;
    push_frames(text, plain, ring, counts.out)?;
    push_word(text, "\n")
}

/// A ring with the number of its pair or socket.
fn push_name(text: &mut Vec<u8>, ring: Ring) -> Result<(), OutOfMemory>
    ensures { OnOk result (text.new.items ≡ text.old.items ++ ring_text ring) }
{
    match ring {
        Ring::Fill(pair) => push_number(text, "fill.", pair),
        Ring::Comp(pair) => push_number(text, "comp.", pair),
        Ring::Rx(socket) => push_number(text, "rx.", socket),
        Ring::Tx(socket) => push_number(text, "tx.", socket),
    }
}

fn push_counts(text: &mut Vec<u8>, size: u32, counts: RingCounts) -> Result<(), OutOfMemory>
    ensures { OnOk result (text.new.items ≡ text.old.items ++ counts_text size counts) }
{
    push_number(text, " size ", size)?;
    push_number(text, " out ", counts.out)?;
    push_number(text, " held ", counts.held)?;
    push_number(text, " reserved ", counts.reserved)?;
    push_number(text, " free ", counts.free)
}
