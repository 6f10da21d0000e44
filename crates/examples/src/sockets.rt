//! xsk_socket and xsk_plain: from socket() to traffic. Two sockets stand over one UMEM, the first with RX on port 0 and the second
//! with TX on port 1. Then callers make their calls, where these are legal.
ghost use Rattle.std.specs.Prelude.{◌≡◌, IfOk};
ghost use Rattle.xsk_model.specs.Opening.{AreFrames};

use anyhow::{Result, ensure};
use std::alloc::Global;
use xsk_model::{Ask, Config, Ring};
use xsk_plain::{Checked, items_room};
use xsk_socket::{RingKind, Setup, XDP_COPY, XDP_SHARED_UMEM};
use xsk_umem::{Batch, Frames, Geometry, MOST_ITEMS, Umem};

pub fn from_socket_to_traffic<R: Print>(rt: &R, alloc: Global) -> Result<()> {
    let (geometry, frames) = registered(alloc, 16_384, 2048)?;
    let config = two_sockets(alloc, geometry)?;
    ensure!(config.lawful(), "the frames of each pair fit its FILL ring");
    let mut checked = Checked::open(alloc, config, frames)?;
    peek(rt, &mut checked, 0, Ring::Fill(0))?;
    peek(rt, &mut checked, 2, Ring::Fill(0))?;
    peek(rt, &mut checked, 2, Ring::Rx(0))
}

/// A UMEM of so many bytes, in chunks of so many.
fn registered(alloc: Global, len: u64, chunk: u32) -> Result<(Geometry, Frames)>
    ensures { IfOk result (λ made. AreFrames made.0 made.1.items) }
{
    Ok(Umem::register(alloc, len, chunk, 0)?)
}

/// The configuration of two sockets. Each is the first on its queue, so each brings FILL and COMPLETION.
fn two_sockets(alloc: Global, geometry: Geometry) -> Result<Config>
    ensures { IfOk result (λ config. config.geometry ≡ geometry) }
{
    let mut setup = Setup::new(alloc, geometry, 2, 1);
    let receiver = setup.socket()?;
    add_rings(&mut setup, receiver, RingKind::Rx)?;
    setup.bind(receiver, 0, 0, XDP_COPY, None)?;
    let sender = setup.socket()?;
    add_rings(&mut setup, sender, RingKind::Tx)?;
    setup.bind(sender, 1, 0, XDP_SHARED_UMEM, Some(receiver))?;
    Ok(setup.seal()?)
}

/// Gives a socket a ring of a kind, FILL and COMPLETION.
fn add_rings(setup: &mut Setup, socket: u32, kind: RingKind) -> Result<()>
    ensures { setup.new.geometry ≡ setup.old.geometry }
{
    setup.ring(socket, kind, 4)?;
    setup.ring(socket, RingKind::Fill, 4)?;
    setup.ring(socket, RingKind::Comp, 4)?;
    Ok(())
}

/// Makes a caller's Peek where it is legal, and else tells why it isn't.
fn peek<R: Print>(rt: &R, checked: &mut Checked, who: u32, ring: Ring) -> Result<()> {
    let ask = Ask::Peek(ring, MOST_ITEMS);
    let mut items = Batch::new();
    let _chunk = checked.config().geometry();
    checked.reserve_log(1, items_room(&items))?;
    if let Some(why) = checked.why_not(who, ask, &items) {
        println!(rt; "caller {who} may not: {why}")?;
        return Ok(());
    }
    let _answer = checked.serve(who, ask, &mut items);
    tell(rt, who, &items)
}

/// The frames that a caller got.
fn tell<R: Print>(rt: &R, who: u32, items: &Batch) -> Result<()> {
    if items.is_empty() {
        println!(rt; "caller {who} finds nothing")?;
    }
    for place in 0..items.len() {
        println!(rt; "caller {who} has the frame at {}", items.desc(place).addr)?;
    }
    Ok(())
}
