//! Whether parts make a configuration.
ghost use Rattle.std.specs.Prelude.{◌≡◌, ◌↔◌, ◌≤◌, ◌⊎◌, ◌==◌, ◌^◌, Bool, IfSome, IsTrue, All, Any, None, length, map};
ghost use Rattle.std.specs.List.{list_any, range_with_len};
ghost use Rattle.std.specs.Vec.{vec_items};
ghost use Rattle.xsk_umem.specs.Geometry.{Geometry};
ghost use Rattle.xsk_model.specs.declared.config.SocketInfo.{SocketInfo as ASocket};
ghost use Rattle.xsk_model.specs.Config.{IsConfig, IsBound, IsServed, IsMap, IsRingSize, pairs_at};

use crate::{PairInfo, SocketInfo};

/// The most sockets and pairs of one UMEM, and the most cells of an XSKMAP.
const MOST: usize = 64;

/// Whether these parts make a configuration, as `Config::of_parts` wants them: 2 or 4 ports with 1, 2 or 4 queues each, 1 to 64
/// sockets, each with a ring at least and bound to a queue that has one pair, 1 to 64 pairs, each on a queue with a socket, ring
/// sizes that are powers of two from 2 to 2,048, and for each port a map of at most 64 cells, each 0 or the number of a socket,
/// counted from 1.
pub fn are_parts(
    ports: u32,
    queues: u32,
    sockets: &[SocketInfo],
    pairs: &[PairInfo],
    cells: &[Vec<u64>],
) -> bool
    ensures { (geometry : Geometry) (sg wakeup : Bool)
        → (IsTrue result ↔ IsConfig (record { geometry = geometry; ports = ports; queues = queues; sockets = sockets.now; pairs = pairs.now; cells = map vec_items cells.now; sg = sg; wakeup = wakeup; closing = None })) }
{
    if !is_port_count(ports) || !is_queue_count(queues) {
        return false;
    }
    if !is_few(sockets.len()) || !is_few(pairs.len()) {
        return false;
    }
    if !are_bound(ports, queues, pairs, sockets) || !are_served(sockets, pairs) {
        return false;
    }
    cells.len() == ports as usize && are_maps(sockets.len(), cells)
}

fn is_port_count(ports: u32) -> bool
    ensures { IsTrue result ↔ ((ports ≡ 2) ⊎ (ports ≡ 4)) }
{
    ports == 2 || ports == 4
}

fn is_queue_count(queues: u32) -> bool
    ensures { IsTrue result ↔ ((queues ≡ 1) ⊎ (queues ≡ 2) ⊎ (queues ≡ 4)) }
{
    queues == 1 || queues == 2 || queues == 4
}

fn is_few(count: usize) -> bool
    ensures { IsTrue result ↔ ((1 ≤ count) × (count ≤ 64)) }
{
    1 <= count && count <= MOST
}

fn are_bound(ports: u32, queues: u32, pairs: &[PairInfo], sockets: &[SocketInfo]) -> bool
    requires { length pairs.now ≤ 64 }
    ensures { IsTrue result ↔ All (IsBound ports queues pairs.now) sockets.now }
{
    for k in 0..sockets.len() {
        if !is_bound(ports, queues, pairs, sockets[k]) {
            return false;
        }
    }
    true
}

/// Whether a socket has a ring at least, and is bound to a queue that has one pair.
fn is_bound(ports: u32, queues: u32, pairs: &[PairInfo], socket: SocketInfo) -> bool
    requires { length pairs.now ≤ 64 }
    ensures { IsTrue result ↔ IsBound ports queues pairs.now socket }
{
    socket.port < ports
        && socket.queue < queues
        && count_pairs(pairs, socket.port, socket.queue) == 1
        && (socket.rx.is_some() || socket.tx.is_some())
        && is_size_or_none(socket.rx)
        && is_size_or_none(socket.tx)
}

/// The pairs of a port's queue.
fn count_pairs(pairs: &[PairInfo], port: u32, queue: u32) -> usize
    ensures { result ≡ pairs_at pairs.now port queue }
{
    pairs
        .iter()
        .filter(|pair| pair.port == port && pair.queue == queue)
        .count()
}

fn are_served(sockets: &[SocketInfo], pairs: &[PairInfo]) -> bool
    ensures { IsTrue result ↔ All (IsServed sockets.now) pairs.now }
{
    for k in 0..pairs.len() {
        if !is_served(sockets, pairs[k]) {
            return false;
        }
    }
    true
}

/// Whether a pair's queue has a socket, and its rings have sizes.
fn is_served(sockets: &[SocketInfo], pair: PairInfo) -> bool
    ensures { IsTrue result ↔ IsServed sockets.now pair }
{
    has_socket(sockets, pair.port, pair.queue) && is_ring_size(pair.fill) && is_ring_size(pair.comp)
}

fn has_socket(sockets: &[SocketInfo], port: u32, queue: u32) -> bool
    ensures { IsTrue result ↔ Any (λ (s : ASocket). (s.port ≡ port) × (s.queue ≡ queue)) sockets.now }
{
    sockets
        .iter()
        .any(|socket| socket.port == port && socket.queue == queue)
}

fn are_maps(sockets: usize, cells: &[Vec<u64>]) -> bool
    ensures { IsTrue result ↔ All (IsMap sockets) (map vec_items cells.now) }
{
    for k in 0..cells.len() {
        if !is_map(sockets, cells[k].as_slice()) {
            return false;
        }
    }
    true
}

/// Whether a map has at most 64 cells, each 0 or the number of one of so many sockets.
fn is_map(sockets: usize, map: &[u64]) -> bool
    ensures { IsTrue result ↔ IsMap sockets map.now }
{
    map.len() <= MOST && map.iter().all(|cell| *cell <= sockets as u64)
}

fn is_size_or_none(size: Option<u32>) -> bool
    ensures { IsTrue result ↔ IfSome size IsRingSize }
{
    match size {
        Some(size) => is_ring_size(size),
        None => true,
    }
}

/// Whether a ring may have so many entries: a power of two from 2 to 2,048.
fn is_ring_size(size: u32) -> bool
    ensures { IsTrue result ↔ IsRingSize size }
{
    is_power(size)
}

/// Whether a number is one of 2^1 to 2^11.
fn is_power(number: u32) -> bool
    ensures { result ≡ list_any (λ k. number == 2 ^ k) (range_with_len 1 11) }
{
    matches!(
        number,
        2 | 4 | 8 | 16 | 32 | 64 | 128 | 256 | 512 | 1024 | 2048
    )
}
