//! The configuration: the UMEM, ports, queues, sockets, pairs and cells. Each configuration is one (`specs/Config`, the
//! invariant): it is made by `of_parts`, and changed by `set_cell` and `set_closing` alone.
ghost use Rattle.std.specs.Prelude.{◌≡◌, ◌<◌, ◌≤◌, ◌↔◌, IfOk, IsTrue, length, map, slice_get, None, Some};
ghost use Rattle.std.specs.List.{flat_map};
ghost use Rattle.std.specs.Vec.{vec_items};
ghost use Rattle.xsk_umem.specs.Geometry.{IsGeometry};
ghost use Rattle.xsk_model.specs.Config.{IsConfig, IsClosable, IsLawful, IsRegular, HasRing, ArePairsInOrder, AreSocketsInOrder, size_of, batch_of, callers_of, pool_of, classes_of, map_of, with_cell, pair_sizes, socket_sizes, size_or_none, least};

use crate::Ring;
use std::alloc::Global;
use std::marker::Model;
use xsk_umem::{Geometry, OutOfMemory};

/// A socket: where it is bound, and the sizes of its rings. It has RX, TX or both.
#[derive(Clone, Copy, Debug, PartialEq, Eq)]
pub struct SocketInfo {
    pub port: u32,
    pub queue: u32,
    pub rx: Option<u32>,
    pub tx: Option<u32>,
}

/// The FILL and COMPLETION rings of one port and queue, with their sizes.
#[derive(Clone, Copy, Debug, PartialEq, Eq)]
pub struct PairInfo {
    pub port: u32,
    pub queue: u32,
    pub fill: u32,
    pub comp: u32,
}

/// The sockets over one UMEM, their rings and bindings, and the XSKMAP of each port.
#[derive(Debug, Drop)]
pub struct Config {
    geometry: Geometry,
    ports: u32,
    queues: u32,
    sockets: Vec<SocketInfo>,
    pairs: Vec<PairInfo>,
    cells: Vec<Vec<u64>>,
    sg: bool,
    wakeup: bool,
    closing: Option<u32>,
}

impl Model for Config {
    ghost use Rattle.std.specs.Prelude.{map};
    ghost use Rattle.xsk_model.specs.Config.{Config as Parts};

    ghost Value = { Parts };

    ghost use Rattle.xsk_model.specs.Parts.{parts_of};
    ghost use Rattle.xsk_model.specs.Config.{IsConfig};

    ghost view = { parts_of };

    ghost invariant = { λ c. IsConfig (parts_of c) };
}

impl Config {
    /// The configuration of exactly these parts, which must make one: [`are_parts`](crate::are_parts) tells. It takes no memory.
    #[allow(clippy::too_many_arguments)]
    pub fn of_parts(
        geometry: Geometry,
        ports: u32,
        queues: u32,
        sockets: Vec<SocketInfo>,
        pairs: Vec<PairInfo>,
        cells: Vec<Vec<u64>>,
        sg: bool,
        wakeup: bool,
    ) -> Config
        requires { IsConfig (record { geometry = geometry; ports = ports; queues = queues; sockets = sockets.items; pairs = pairs.items; cells = map vec_items cells.items; sg = sg; wakeup = wakeup; closing = None }) }
        ensures { result ≡ record { geometry = geometry; ports = ports; queues = queues; sockets = sockets.items; pairs = pairs.items; cells = map vec_items cells.items; sg = sg; wakeup = wakeup; closing = None } }
    {
        Config {
            geometry,
            ports,
            queues,
            sockets,
            pairs,
            cells,
            sg,
            wakeup,
            closing: None,
        }
    }

    /// The geometry of the UMEM.
    pub fn geometry(&self) -> &Geometry
        ensures value { result.now ≡ self.now.geometry }
        ensures lawful { IsGeometry self.now.geometry }
    {
        // For the proof: it is a geometry (IsGeometry).
        let _frames = self.geometry.frames();
        &self.geometry
    }

    /// The number of ports, 2 or 4.
    pub fn ports(&self) -> u32
        ensures value { result ≡ self.now.ports }
        ensures lawful { IsConfig self.now }
    {
        self.ports
    }

    /// The queues of each port: 1, 2 or 4.
    pub fn queues(&self) -> u32
        ensures value { result ≡ self.now.queues }
        ensures lawful { IsConfig self.now }
    {
        self.queues
    }

    /// The sockets by their numbers.
    pub fn sockets(&self) -> &[SocketInfo]
        ensures value { result.now ≡ self.now.sockets }
        ensures lawful { IsConfig self.now }
    {
        self.sockets.as_slice()
    }

    /// The pairs by their numbers.
    pub fn pairs(&self) -> &[PairInfo]
        ensures value { result.now ≡ self.now.pairs }
        ensures lawful { IsConfig self.now }
    {
        self.pairs.as_slice()
    }

    /// Whether packets may have several frames (XDP_USE_SG).
    pub fn sg(&self) -> bool
        ensures { result ≡ self.now.sg }
    {
        self.sg
    }

    /// Whether the need-wakeup flags are used (XDP_USE_NEED_WAKEUP).
    pub fn wakeup(&self) -> bool
        ensures { result ≡ self.now.wakeup }
    {
        self.wakeup
    }

    /// The number of callers: a driver for each pair, then an application for each queue of two paired ports.
    pub fn callers(&self) -> u32
        ensures { result ≡ callers_of self.now }
    {
        let pairs = self.pairs.len() as u32;
        pairs + (self.ports / 2) * self.queues
    }

    /// The frames of one home pool: those of the UMEM, divided by the pairs.
    pub fn pool(&self) -> u32
        ensures { result ≡ pool_of self.now }
    {
        self.geometry.frames() / self.pairs.len() as u32
    }

    /// The number of entries of a ring, which must exist.
    pub fn size(&self, ring: Ring) -> u32
        requires { HasRing self.now ring }
        ensures value { result ≡ size_of self.now ring }
    {
        match ring {
            Ring::Fill(pair) => self.pairs[pair as usize].fill,
            Ring::Comp(pair) => self.pairs[pair as usize].comp,
            Ring::Rx(socket) => self.sockets[socket as usize].rx.unwrap(),
            Ring::Tx(socket) => self.sockets[socket as usize].tx.unwrap(),
        }
    }

    /// The most items of one call: the least of 32 and all ring sizes.
    pub fn batch(&self) -> u32
        ensures { result ≡ batch_of self.now }
    {
        let size = least_of_pairs(32, self.pairs.as_slice());
        least_of_sockets(size, self.sockets.as_slice())
    }

    /// An equal configuration.
    pub fn copy(&self, alloc: Global) -> Result<Config, OutOfMemory>
        ensures { IfOk result (λ config. config ≡ self.now) }
    {
        let sockets = Vec::from_slice(alloc, self.sockets.as_slice())?;
        let pairs = Vec::from_slice(alloc, self.pairs.as_slice())?;
        let cells = copy_cells(alloc, self.cells.as_slice())?;
        Ok(Config {
            geometry: self.geometry,
            ports: self.ports,
            queues: self.queues,
            sockets,
            pairs,
            cells,
            sg: self.sg,
            wakeup: self.wakeup,
            closing: self.closing,
        })
    }

    /// The cells of a port's XSKMAP. The port must exist.
    pub fn cells(&self, port: u32) -> u32
        requires { port < self.now.ports }
        ensures value { result ≡ length (map_of self.now port) }
        ensures few { length (map_of self.now port) ≤ 64 }
    {
        self.cells[port as usize].len() as u32
    }

    /// The number in a cell, which must exist: 0 where it is empty, and v for socket v - 1.
    pub fn cell(&self, port: u32, index: u32) -> u64
        requires port { port < self.now.ports }
        requires index { index < length (map_of self.now port) }
        ensures value { slice_get (map_of self.now port) index ≡ Some result }
        ensures known { result ≤ length self.now.sockets }
    {
        self.cells[port as usize][index as usize]
    }

    /// Sets a cell, which must exist, to 0 or the number of a socket, counted from 1.
    pub fn set_cell(&mut self, port: u32, index: u32, value: u64)
        requires port { port < self.old.ports }
        requires index { index < length (map_of self.old port) }
        requires known { value ≤ length self.old.sockets }
        ensures { self.new ≡ with_cell self.old port index value }
    {
        self.cells[port as usize][index as usize] = value;
    }

    /// The socket that is to be closed while traffic flows, if any.
    pub fn closing(&self) -> Option<u32>
        ensures value { result ≡ self.now.closing }
        ensures lawful { IsConfig self.now }
    {
        self.closing
    }

    /// Makes a socket the one to be closed. It must exist and have RX and TX.
    pub fn set_closing(&mut self, socket: u32)
        requires { IsClosable self.old.sockets socket }
        ensures { self.new ≡ record self.old { closing = Some socket } }
    {
        self.closing = Some(socket);
    }

    /// Whether the pairs divide the frames, and each home pool has a frame at least and fits each FILL ring.
    pub fn lawful(&self) -> bool
        ensures { IsTrue result ↔ IsLawful self.now }
    {
        let pairs = self.pairs.len() as u32;
        let frames = self.geometry.frames();
        let pool = frames / pairs;
        frames % pairs == 0 && pool >= 1 && self.pairs.iter().all(|pair| pool <= pair.fill)
    }

    /// Whether the configuration is lawful, has a pair for each port and queue and the same number of sockets, 1, 2
    /// or 4, for each pair, each with RX and TX, all numbered by port, queue and class.
    pub fn regular(&self) -> bool
        ensures { IsTrue result ↔ IsRegular self.now }
    {
        if !self.lawful() {
            return false;
        }
        let pairs = self.pairs.len() as u32;
        let sockets = self.sockets.len() as u32;
        let classes = sockets / pairs;
        if classes != 1 && classes != 2 && classes != 4 {
            return false;
        }
        if pairs != self.ports * self.queues || sockets != pairs * classes {
            return false;
        }
        if !pairs_in_order(self.pairs.as_slice(), self.queues) {
            return false;
        }
        sockets_in_order(self.sockets.as_slice(), self.queues, classes)
    }

    /// The sockets of each pair. The configuration must be regular.
    pub fn classes(&self) -> u32
        requires { IsRegular self.now }
        ensures { result ≡ classes_of self.now }
    {
        self.sockets.len() as u32 / self.pairs.len() as u32
    }
}

fn least_of_pairs(start: u32, pairs: &[PairInfo]) -> u32
    ensures { result ≡ least start (flat_map pair_sizes pairs.now) }
{
    let mut size = start;
    for pair in pairs {
        size = size.min(pair.fill).min(pair.comp);
    }
    size
}

fn least_of_sockets(start: u32, sockets: &[SocketInfo]) -> u32
    ensures { result ≡ least start (flat_map socket_sizes sockets.now) }
{
    let mut size = start;
    for socket in sockets {
        size = least_with(least_with(size, socket.rx), socket.tx);
    }
    size
}

fn least_with(start: u32, size: Option<u32>) -> u32
    ensures { result ≡ least start (size_or_none size) }
{
    match size {
        Some(size) => start.min(size),
        None => start,
    }
}

fn copy_cells(alloc: Global, cells: &[Vec<u64>]) -> Result<Vec<Vec<u64>>, OutOfMemory>
    ensures { IfOk result (λ copy. map vec_items copy.items ≡ map vec_items cells.now) }
{
    let mut copy = Vec::with_capacity(alloc, cells.len())?;
    for map in cells {
        copy.push(Vec::from_slice(alloc, map.as_slice())?)?;
    }
    Ok(copy)
}

fn pairs_in_order(pairs: &[PairInfo], queues: u32) -> bool
    requires { 0 < queues }
    ensures { IsTrue result ↔ ArePairsInOrder queues pairs.now }
{
    let queues = queues as usize;
    for (d, pair) in pairs.iter().enumerate() {
        if pair.port as usize != d / queues || pair.queue as usize != d % queues {
            return false;
        }
    }
    true
}

fn sockets_in_order(sockets: &[SocketInfo], queues: u32, classes: u32) -> bool
    requires queues { 0 < queues }
    requires classes { 0 < classes }
    ensures { IsTrue result ↔ AreSocketsInOrder queues classes sockets.now }
{
    let queues = queues as usize;
    for (s, socket) in sockets.iter().enumerate() {
        let place = s / classes as usize;
        let bound = socket.port as usize == place / queues
            && socket.queue as usize == place % queues;
        if !bound || socket.rx.is_none() || socket.tx.is_none() {
            return false;
        }
    }
    true
}
