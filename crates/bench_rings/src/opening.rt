//! The table of the bench.
ghost use Rattle.std.specs.Prelude.{◌≡◌, IfOk, IfSome, Some, None};
ghost use Rattle.xsk_umem.specs.Registration.{fresh};
ghost use Rattle.xsk_table.specs.Held.{new_pass};
ghost use Rattle.xsk_table.specs.Opening.{new_passes};
ghost use Rattle.bench_rings.specs.Moving.{moving, moving_on};

use std::alloc::Global;
use xsk_model::{Config, PairInfo, SocketInfo};
use xsk_table::{Pass, Passes, Shared};
use xsk_umem::{Geometry, OutOfMemory, Umem};

fn config_on(alloc: Global, geometry: Geometry) -> Result<Config, OutOfMemory>
    ensures { IfOk result (λ config. config ≡ moving_on geometry) }
{
    let sockets = vec![in alloc; socket_on(0), socket_on(1)]?;
    let pairs = vec![in alloc; pair_on(0), pair_on(1)]?;
    let cells = vec![in alloc; vec![in alloc; 1u64]?, vec![in alloc; 2u64]?]?;
    Ok(Config::of_parts(geometry, 2, 1, sockets, pairs, cells, false, false))
}

fn socket_on(port: u32) -> SocketInfo
    ensures { result ≡ record { port = port; queue = 0; rx = Some 2048; tx = None } }
{
    SocketInfo {
        port,
        queue: 0,
        rx: Some(2048),
        tx: None,
    }
}

fn pair_on(port: u32) -> PairInfo
    ensures { result ≡ record { port = port; queue = 0; fill = 2048; comp = 2048 } }
{
    PairInfo {
        port,
        queue: 0,
        fill: 2048,
        comp: 2048,
    }
}

/// A table with 1,024 frames in each FILL ring.
pub(crate) fn opened(alloc: Global) -> Option<(Shared, Passes)>
    ensures config { IfSome result (λ made. made.0.setup.config ≡ moving) }
    ensures passes { IfSome result (λ made. made.1 ≡ new_passes made.0) }
{
    let Ok((geometry, frames)) = Umem::register(alloc, 4_194_304, 2048, 0) else {
        return None;
    };
    let Ok(config) = config_on(alloc, geometry) else {
        return None;
    };
    let Ok(made) = Shared::open(alloc, config, frames, 0) else {
        return None;
    };
    Some(made)
}

/// The passes of driver 0 and of the application, if they are there.
pub(crate) fn taken(table: &Shared, held: &mut Passes) -> Option<(Pass, Pass)>
    requires config { table.now.setup.config ≡ moving }
    requires new { held.old ≡ new_passes table.now }
    ensures driver { IfSome result (λ passes. passes.0 ≡ new_pass table.now 0) }
    ensures app { IfSome result (λ passes. passes.1 ≡ new_pass table.now 2) }
{
    let driver = held.take(0)?;
    let app = held.take(2)?;
    Some((driver, app))
}
