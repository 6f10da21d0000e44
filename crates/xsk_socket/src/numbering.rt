//! The regular configuration of a layout.
ghost use Rattle.std.specs.Prelude.{◌≡◌, ◌*◌, ◌<◌, None, IfOk, IfSome, map};
ghost use Rattle.std.specs.Vec.{vec_items};
ghost use Rattle.xsk_model.specs.Config.{IsClosable, IsRegular};
ghost use Rattle.xsk_socket.specs.Fits.{Fits};
ghost use Rattle.xsk_socket.specs.Layout.{cells_in, fault_of, geometry_of, pairs_in};
ghost use Rattle.xsk_socket.specs.Regular.{cell_in, map_in, numbered, pair_in, regular_of, socket_in};

use crate::Layout;
use crate::layout::{cells_of, pairs_of, sockets_of};
use std::alloc::{AllocError, Global};
use xsk_model::{Config, PairInfo, SocketInfo};
use xsk_umem::{Geometry, OutOfMemory};

/// The regular configuration of an accepted layout over its UMEM: all pairs and sockets numbered by port and queue, and
/// in each port's XSKMAP the port's own sockets, but for the cell that the layout leaves empty. The layout's
/// socket to close is the configuration's.
///
/// [`check_layout`](crate::check_layout) must accept the layout, and the geometry must be the layout's.
pub fn regular(alloc: Global, geometry: Geometry, layout: &Layout) -> Result<Config, OutOfMemory>
    requires accepted { fault_of layout.now ≡ None }
    requires geometry { geometry ≡ geometry_of layout.now }
    ensures value { IfOk result (λ config. config ≡ regular_of layout.now) }
    ensures regular { IfOk result (λ config. IsRegular config) }
{
    let sockets = number_sockets(alloc, layout)?;
    let pairs = number_pairs(alloc, layout)?;
    let cells = number_maps(alloc, layout)?;
    let config = Config::of_parts(
        geometry,
        layout.ports,
        layout.queues,
        sockets,
        pairs,
        cells,
        layout.sg,
        layout.wakeup,
    );
    Ok(closing(config, layout.close))
}

/// The configuration with a socket to close, if one is.
fn closing(config: Config, socket: Option<u32>) -> Config
    requires open { config.closing ≡ None }
    requires socket { IfSome socket (IsClosable config.sockets) }
    ensures { result ≡ record config { closing = socket } }
{
    let mut config = config;
    if let Some(socket) = socket {
        config.set_closing(socket);
    }
    config
}

fn number_pairs(alloc: Global, layout: &Layout) -> Result<Vec<PairInfo>, AllocError>
    requires { Fits layout.now }
    ensures { IfOk result (λ pairs. pairs.items ≡ numbered (pairs_in layout.now) (pair_in layout.now)) }
{
    let mut pairs = Vec::new(alloc);
    for number in 0..pairs_of(layout) {
        pairs.push(PairInfo {
            port: number / layout.queues,
            queue: number % layout.queues,
            fill: layout.fill,
            comp: layout.comp,
        })?;
    }
    Ok(pairs)
}

fn number_sockets(alloc: Global, layout: &Layout) -> Result<Vec<SocketInfo>, AllocError>
    requires { Fits layout.now }
    ensures { IfOk result (λ sockets. sockets.items ≡ numbered (pairs_in layout.now * layout.now.sockets) (socket_in layout.now)) }
{
    let mut sockets = Vec::new(alloc);
    for number in 0..sockets_of(layout) {
        let pair = number / layout.sockets;
        sockets.push(SocketInfo {
            port: pair / layout.queues,
            queue: pair % layout.queues,
            rx: Some(layout.rx),
            tx: Some(layout.tx),
        })?;
    }
    Ok(sockets)
}

fn number_maps(alloc: Global, layout: &Layout) -> Result<Vec<Vec<u64>>, AllocError>
    requires { Fits layout.now }
    ensures { IfOk result (λ maps. map vec_items maps.items ≡ numbered layout.now.ports (map_in layout.now)) }
{
    let mut maps = Vec::new(alloc);
    for port in 0..layout.ports {
        maps.push(number_cells(alloc, layout, port)?)?;
    }
    Ok(maps)
}

fn number_cells(alloc: Global, layout: &Layout, port: u32) -> Result<Vec<u64>, AllocError>
    requires fits { Fits layout.now }
    requires port { port < layout.now.ports }
    ensures { IfOk result (λ map. map.items ≡ map_in layout.now port) }
{
    let mut map = Vec::new(alloc);
    for index in 0..cells_of(layout) {
        map.push(cell(layout, port, index))?;
    }
    Ok(map)
}

/// The number in a cell of a port's XSKMAP.
fn cell(layout: &Layout, port: u32, index: u32) -> u64
    requires fits { Fits layout.now }
    requires port { port < layout.now.ports }
    requires index { index < cells_in layout.now }
    ensures { result ≡ cell_in layout.now port index }
{
    if layout.empty == Some(index) {
        return 0;
    }
    u64::from(port * cells_of(layout) + index + 1)
}
