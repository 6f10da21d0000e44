//! xsk_socket: a layout is judged, and gives the regular configuration. `sockets.rt` sets up socket by socket.
ghost use Rattle.std.specs.Prelude.{◌≡◌, IfOk};
ghost use Rattle.xsk_model.specs.Opening.{AreFrames};
ghost use Rattle.xsk_turns.specs.Owned.{IsSteady};

use anyhow::{Result, bail};
use std::alloc::Global;
use xsk_model::Config;
use xsk_socket::{Layout, check_layout, regular};
use xsk_umem::{Frames, Umem};

/// Two ports with two queues each, and one socket on each queue.
const LAYOUT: Layout = Layout {
    ports: 2,
    queues: 2,
    sockets: 1,
    files: 4,
    files_wanted_per_port: 2,
    chunk: 4096,
    headroom: 0,
    frames: 64,
    rx: 64,
    tx: 64,
    fill: 16,
    comp: 64,
    sg: false,
    wakeup: false,
    empty: None,
    close: None,
    hands: 1,
};

pub fn configure<R: Print>(rt: &R, alloc: Global) -> Result<()> {
    let refused = Layout {
        frames: 66,
        ..LAYOUT
    };
    println!(rt; "66 frames: {:?}", check_layout(&refused))?;
    let (config, _frames) = opened(alloc, &LAYOUT)?;
    println!(rt; "lawful: {}", config.lawful())?;
    println!(rt; "{} frames for each driver", config.pool())?;
    println!(rt; "{} callers", config.callers())?;
    Ok(())
}

/// The regular configuration of a layout, and the frames of its UMEM.
pub fn opened(alloc: Global, layout: &Layout) -> Result<(Config, Frames)>
    ensures steady { IfOk result (λ made. IsSteady made.0) }
    ensures ports { IfOk result (λ made. made.0.ports ≡ layout.now.ports) }
    ensures frames { IfOk result (λ made. AreFrames made.0.geometry made.1.items) }
{
    if check_layout(layout).is_err() {
        bail!("the layout is refused");
    }
    let len = u64::from(layout.frames) * u64::from(layout.chunk);
    let (geometry, frames) = Umem::register(alloc, len, layout.chunk, layout.headroom)?;
    if geometry.frames() != layout.frames {
        bail!("the UMEM has other frames");
    }
    let config = regular(alloc, geometry, layout)?;
    if config.closing().is_some() {
        bail!("the layout closes a socket");
    }
    Ok((config, frames))
}
