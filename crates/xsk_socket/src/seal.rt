//! The configuration of sockets that are all bound.
ghost use Rattle.std.specs.Prelude.{◌≡◌, ◌++◌, [], ◌∷◌, IfOk, OnOk, map, if◌then◌else◌};
ghost use Rattle.std.specs.List.{list_all};
ghost use Rattle.std.specs.Vec.{vec_items};
ghost use Rattle.xsk_socket.specs.Bound.{bound_in, info_in, map_on};
ghost use Rattle.xsk_socket.specs.Regular.{numbered};
ghost use Rattle.xsk_socket.specs.Sealed.{is_on};
ghost use Rattle.xsk_socket.specs.Setup.{is_bound};

use crate::socket::{Binding, Socket};
use std::alloc::{AllocError, Global};
use xsk_model::SocketInfo;

/// Whether there is a socket, and each is bound.
pub(crate) fn all_bound(sockets: &[Socket]) -> bool
    ensures { result ≡ list_all is_bound sockets.now }
{
    sockets.iter().all(|socket| socket.bound.is_some())
}

/// The sockets with their places and rings.
pub(crate) fn infos(alloc: Global, sockets: &[Socket]) -> Result<Vec<SocketInfo>, AllocError>
    ensures { IfOk result (λ infos. infos.items ≡ map info_in sockets.now) }
{
    sockets.iter().map(|socket| info(*socket)).collect(alloc)
}

fn info(socket: Socket) -> SocketInfo
    ensures { result ≡ info_in socket }
{
    let place = socket.bound.unwrap_or(Binding { port: 0, queue: 0 });
    SocketInfo {
        port: place.port,
        queue: place.queue,
        rx: socket.rx,
        tx: socket.tx,
    }
}

/// The XSKMAP of each port.
pub(crate) fn maps(
    alloc: Global,
    sockets: &[Socket],
    ports: u32,
    queues: u32,
) -> Result<Vec<Vec<u64>>, AllocError>
    ensures { IfOk result (λ maps. map vec_items maps.items ≡ numbered ports (map_on sockets.now queues)) }
{
    let mut maps = Vec::new(alloc);
    for port in 0..ports {
        maps.push(port_map(alloc, sockets, port, queues)?)?;
    }
    Ok(maps)
}

/// The sockets that are bound to a port, queue by queue.
fn port_map(
    alloc: Global,
    sockets: &[Socket],
    port: u32,
    queues: u32,
) -> Result<Vec<u64>, AllocError>
    ensures { IfOk result (λ map. map.items ≡ map_on sockets.now queues port) }
{
    let mut map = Vec::new(alloc);
    for queue in 0..queues {
        add_bound(&mut map, sockets, Binding { port, queue })?;
    }
    Ok(map)
}

/// Adds the sockets that are bound to a place, by number from 1.
fn add_bound(map: &mut Vec<u64>, sockets: &[Socket], place: Binding) -> Result<(), AllocError>
    ensures { OnOk result (map.new.items ≡ map.old.items ++ bound_in sockets.now place.port place.queue) }
{
    for index in 0..sockets.len() {
        let number = index as u64 + 1;
        add_if(map, is_on(sockets[index], place), number)?;
    }
    Ok(())
}

fn add_if(map: &mut Vec<u64>, holds: bool, number: u64) -> Result<(), AllocError>
    ensures { OnOk result (map.new.items ≡ map.old.items ++ (if holds then number ∷ [] else [])) }
{
    if holds {
        map.push(number)?;
    }
    Ok(())
}

fn is_on(socket: Socket, place: Binding) -> bool
    ensures { result ≡ is_on place.port place.queue socket.bound }
{
    match socket.bound {
        Some(own) => own.port == place.port && own.queue == place.queue,
        None => false,
    }
}
