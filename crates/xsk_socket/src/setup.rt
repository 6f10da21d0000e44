//! Sockets over one UMEM, from socket() to bind(). Each call that is accepted keeps what holds of a setup
//! (`specs/Sound`, the invariant); a refused one changes nothing.
ghost use Rattle.std.specs.Prelude.{◌≡◌, ◌⊎◌, ◌↔◌, [], ◌∷◌, None, Some, Err, IfOk, OnOk, OnErr, IsOk, IsOkUnless, IfErr, IsSome, false, length, if◌then◌else◌};
ghost use Rattle.std.specs.Result.{result_err};
ghost use Rattle.xsk_socket.specs.Fits.{IsCount};
ghost use Rattle.xsk_socket.specs.Refusals.{are_bad, bind_refusal, first_of, has_flag, on_flags, on_place, on_socket, other_is_bound, ring_refusal, seal_refusal, socket_refusal};
ghost use Rattle.xsk_socket.specs.Sealed.{sealed};
ghost use Rattle.xsk_socket.specs.Rings.{paired};
ghost use Rattle.xsk_socket.specs.Setup.{IsOver, StandsFor, has_pair};
ghost use Rattle.xsk_socket.specs.Setup.Made.{socket as made_socket, ring as made_ring, bind as made_bind};

use crate::layout::is_ring_size;
use crate::seal::{all_bound, infos, maps};
use crate::socket::{Binding, Socket};
use crate::{RingKind, SetupError};
use std::alloc::Global;
use std::marker::Model;
use thiserror::Error;
use xsk_model::{Config, PairInfo};
use xsk_umem::Geometry;

/// The most sockets of one UMEM.
const MOST_SOCKETS: usize = 64;

/// The bind flags (if_xdp.h).
pub const XDP_SHARED_UMEM: u32 = 1;

pub const XDP_COPY: u32 = 2;

pub const XDP_ZEROCOPY: u32 = 4;

pub const XDP_USE_NEED_WAKEUP: u32 = 8;

pub const XDP_USE_SG: u32 = 16;

/// All bind flags together.
const ALL_FLAGS: u32 = 31;

/// A setup gave no configuration. It comes back.
#[derive(Debug, Drop, Error)]
#[error("{error}")]
pub struct SealRefused {
    pub error: SetupError,
    pub setup: Setup,
}

/// The setup of the sockets of one UMEM.
#[derive(Debug, Drop)]
pub struct Setup {
    alloc: Global,
    geometry: Geometry,
    ports: u32,
    queues: u32,
    sockets: Vec<Socket>,
    pairs: Vec<PairInfo>,
    flags: Option<u32>,
}

impl Model for Setup {
    ghost use Rattle.xsk_socket.specs.Setup.{State};
    ghost use Rattle.xsk_socket.specs.Sound.{IsSetup};

    ghost Value = { State };

    ghost view = { λ s. record { geometry = s.geometry; ports = s.ports; queues = s.queues; sockets = s.sockets.items; pairs = s.pairs.items; flags = s.flags } };

    ghost invariant = { λ s. IsSetup (record { geometry = s.geometry; ports = s.ports; queues = s.queues; sockets = s.sockets.items; pairs = s.pairs.items; flags = s.flags }) };
}

impl Setup {
    /// A setup without sockets, over a UMEM and a device of 2 or 4 ports with 1, 2 or 4 queues each. It takes no memory.
    pub fn new(alloc: Global, geometry: Geometry, ports: u32, queues: u32) -> Setup
        requires ports { (ports ≡ 2) ⊎ (ports ≡ 4) }
        requires queues { IsCount queues }
        ensures over { IsOver result geometry ports queues }
        ensures calls { StandsFor [] result }
    {
        Setup {
            alloc,
            geometry,
            ports,
            queues,
            sockets: Vec::new(alloc),
            pairs: Vec::new(alloc),
            flags: None,
        }
    }

    /// A further socket, as socket(): its number, counted from 0.
    ///
    /// It is refused with `TooMany` exactly where there are 64.
    pub fn socket(&mut self) -> Result<u32, SetupError>
        ensures refused { (e : _) → socket_refusal self.old ≡ Some e → result ≡ Err e }
        ensures accepted { socket_refusal self.old ≡ None → IsOkUnless result SetupError.OutOfMemory }
        ensures number { IfOk result (λ number. number ≡ length self.old.sockets) }
        ensures over { IsOver self.new self.old.geometry self.old.ports self.old.queues }
        ensures calls { OnOk result ((calls : _) → StandsFor calls self.old → StandsFor (made_socket ∷ calls) self.new) }
        ensures kept { OnErr result (self.new ≡ self.old) }
    {
        let number = self.sockets.len();
        if number >= MOST_SOCKETS {
            return Err(SetupError::TooMany);
        }
        self.sockets.push(Socket::new())?;
        Ok(number as u32)
    }

    /// Gives a socket a ring, as setsockopt() with XDP_RX_RING and the like.
    ///
    /// The first that holds decides: `NoSuchSocket`, `AlreadyBound`, `BadSize`, `RingTwice`.
    pub fn ring(&mut self, socket: u32, kind: RingKind, size: u32) -> Result<(), SetupError>
        ensures refused { result_err result ≡ ring_refusal self.old socket kind size }
        ensures over { IsOver self.new self.old.geometry self.old.ports self.old.queues }
        ensures calls { OnOk result ((calls : _) → StandsFor calls self.old → StandsFor (made_ring socket kind size ∷ calls) self.new) }
        ensures kept { OnErr result (self.new ≡ self.old) }
    {
        let index = socket as usize;
        if index >= self.sockets.len() {
            return Err(SetupError::NoSuchSocket);
        }
        let own = self.sockets[index];
        if own.bound.is_some() {
            return Err(SetupError::AlreadyBound);
        }
        if !is_ring_size(size) {
            return Err(SetupError::BadSize);
        }
        if own.ring(kind).is_some() {
            return Err(SetupError::RingTwice);
        }
        self.sockets[index] = own.with_ring(kind, size);
        Ok(())
    }

    /// Binds a socket to a port's queue, as bind().
    ///
    /// The first socket of the UMEM is bound with its flags and no shared socket, which settles XDP_USE_SG and
    /// XDP_USE_NEED_WAKEUP for all. Each further one is bound with XDP_SHARED_UMEM alone and a socket that is bound. The
    /// first one on a queue brings FILL and COMPLETION, which become the queue's pair, and the others there have none.
    ///
    /// The first that holds decides: `NoSuchSocket`, `AlreadyBound`, `BadFlags`, `NoZeroCopy`, `NotBoundYet`,
    /// `NoSuchQueue`, `NoRing`, `NoPair`, `PairTwice`. Want of memory stands last.
    pub fn bind(
        &mut self,
        socket: u32,
        port: u32,
        queue: u32,
        flags: u32,
        shared: Option<u32>,
    ) -> Result<(), SetupError>
        ensures refused { (e : _) → bind_refusal self.old socket port queue flags shared ≡ Some e → result ≡ Err e }
        ensures accepted { bind_refusal self.old socket port queue flags shared ≡ None → IsOkUnless result SetupError.OutOfMemory }
        ensures over { IsOver self.new self.old.geometry self.old.ports self.old.queues }
        ensures calls { OnOk result ((calls : _) → StandsFor calls self.old → StandsFor (made_bind socket port queue flags ∷ calls) self.new) }
        ensures kept { OnErr result (self.new ≡ self.old) }
    {
        self.check_bind(socket, port, queue, flags, shared)?;
        let own = self.sockets[socket as usize];
        let place = Binding { port, queue };
        pair_up(&mut self.pairs, own, place)?;
        self.flags = Some(self.flags.unwrap_or(flags));
        self.sockets[socket as usize] = own.bound_to(place);
        Ok(())
    }

    /// The configuration of the sockets, rings, pairs and flags of the accepted calls. The cells of each port's XSKMAP
    /// hold the sockets that are bound to it, by queue and then by number.
    ///
    /// It is refused with `NotBoundYet` exactly where there is no socket or one isn't bound, and else for want of memory
    /// alone. The setup comes back with a refusal.
    pub fn seal(self) -> Result<Config, SealRefused>
        ensures refused { (e : _) → seal_refusal self ≡ Some e → result ≡ Err (record { error = e; setup = self }) }
        ensures accepted { seal_refusal self ≡ None → (IsOk result ⊎ (result ≡ Err (record { error = SetupError.OutOfMemory; setup = self }))) }
        ensures over { IfOk result (λ config. (config.geometry ≡ self.geometry) × (config.ports ≡ self.ports) × (config.queues ≡ self.queues)) }
        ensures config { IfOk result (λ config. (calls : _) → StandsFor calls self → config ≡ sealed self.geometry self.ports self.queues calls) }
    {
        if self.sockets.is_empty() || !all_bound(self.sockets.as_slice()) {
            return Err(SealRefused {
                error: SetupError::NotBoundYet,
                setup: self,
            });
        }
        let Ok(sockets) = infos(self.alloc, self.sockets.as_slice()) else {
            return Err(SealRefused {
                error: SetupError::OutOfMemory,
                setup: self,
            });
        };
        let Ok(cells) = maps(self.alloc, self.sockets.as_slice(), self.ports, self.queues) else {
            return Err(SealRefused {
                error: SetupError::OutOfMemory,
                setup: self,
            });
        };
        let Setup {
            alloc: _,
            geometry,
            ports,
            queues,
            sockets: _,
            pairs,
            flags,
        } = self;
        let flags = flags.unwrap_or(0);
        let sg = has_flag(flags, XDP_USE_SG);
        let wakeup = has_flag(flags, XDP_USE_NEED_WAKEUP);
        Ok(Config::of_parts(geometry, ports, queues, sockets, pairs, cells, sg, wakeup))
    }

    fn check_bind(
        &self,
        socket: u32,
        port: u32,
        queue: u32,
        flags: u32,
        shared: Option<u32>,
    ) -> Result<(), SetupError>
        ensures { result_err result ≡ bind_refusal self.now socket port queue flags shared }
    {
        self.check_socket(socket)?;
        self.check_flags(flags, shared)?;
        self.check_place(self.sockets[socket as usize], port, queue)
    }

    fn check_socket(&self, socket: u32) -> Result<(), SetupError>
        ensures { result_err result ≡ first_of (on_socket self.now socket) }
    {
        let index = socket as usize;
        refuse_if(index >= self.sockets.len(), SetupError::NoSuchSocket)?;
        refuse_if(
            self.sockets[index].bound.is_some(),
            SetupError::AlreadyBound,
        )
    }

    fn check_flags(&self, flags: u32, shared: Option<u32>) -> Result<(), SetupError>
        ensures { result_err result ≡ first_of (on_flags self.now flags shared) }
    {
        refuse_if(are_bad(flags, shared, self.flags), SetupError::BadFlags)?;
        refuse_if(has_flag(flags, XDP_ZEROCOPY), SetupError::NoZeroCopy)?;
        let alone = has_flag(flags, XDP_SHARED_UMEM) && !self.other_is_bound(shared);
        refuse_if(alone, SetupError::NotBoundYet)
    }

    fn check_place(&self, own: Socket, port: u32, queue: u32) -> Result<(), SetupError>
        ensures { result_err result ≡ first_of (on_place self.now own port queue) }
    {
        let outside = port >= self.ports || queue >= self.queues;
        refuse_if(outside, SetupError::NoSuchQueue)?;
        let has_ring = own.rx.is_some() || own.tx.is_some();
        refuse_if(!has_ring, SetupError::NoRing)?;
        let has_pair = has_pair(self.pairs.as_slice(), port, queue);
        let brings_both = own.fill.is_some() && own.comp.is_some();
        refuse_if(!has_pair && !brings_both, SetupError::NoPair)?;
        let brings_one = own.fill.is_some() || own.comp.is_some();
        refuse_if(has_pair && brings_one, SetupError::PairTwice)
    }

    fn other_is_bound(&self, shared: Option<u32>) -> bool
        ensures { result ≡ other_is_bound self.now.sockets shared }
    {
        match shared {
            Some(other) => {
                let index = other as usize;
                index < self.sockets.len() && self.sockets[index].bound.is_some()
            }
            None => false,
        }
    }
}

/// The refusal, if the condition holds.
fn refuse_if(holds: bool, refusal: SetupError) -> Result<(), SetupError>
    ensures { result_err result ≡ (if holds then Some refusal else None) }
{
    if holds { Err(refusal) } else { Ok(()) }
}

fn has_flag(flags: u32, flag: u32) -> bool
    ensures { result ≡ has_flag flags flag }
{
    flags & flag != 0
}

/// Whether flags are unknown, or don't go together with one another, with the shared socket, or with the flags of the
/// first bind.
fn are_bad(flags: u32, shared: Option<u32>, first: Option<u32>) -> bool
    ensures { result ≡ are_bad flags shared first }
{
    let shares = has_flag(flags, XDP_SHARED_UMEM);
    flags > ALL_FLAGS
        || (shares && shared.is_none())
        || (!shares && shared.is_some())
        || (shares && flags != XDP_SHARED_UMEM)
        || (has_flag(flags, XDP_COPY) && has_flag(flags, XDP_ZEROCOPY))
        || (!shares && first.is_some())
}

fn has_pair(pairs: &[PairInfo], port: u32, queue: u32) -> bool
    ensures { result ≡ has_pair pairs.now port queue }
{
    pairs
        .iter()
        .any(|pair| pair.port == port && pair.queue == queue)
}

/// The socket's FILL and COMPLETION become the pair of its queue, if there is none.
fn pair_up(pairs: &mut Vec<PairInfo>, own: Socket, place: Binding) -> Result<(), SetupError>
    requires { has_pair pairs.old.items place.port place.queue ≡ false → (IsSome own.fill × IsSome own.comp) }
    ensures paired { OnOk result (pairs.new.items ≡ paired pairs.old.items own place.port place.queue) }
    ensures kept { OnErr result (pairs.new.items ≡ pairs.old.items) }
    ensures refused { IfErr result (λ e. e ≡ SetupError.OutOfMemory) }
{
    if has_pair(pairs.as_slice(), place.port, place.queue) {
        return Ok(());
    }
    pairs.push(PairInfo {
        port: place.port,
        queue: place.queue,
        fill: own.fill.unwrap(),
        comp: own.comp.unwrap(),
    })?;
    Ok(())
}
