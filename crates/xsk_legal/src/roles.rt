//! Which rings and marks are a caller's own. Contracts have the same by `xsk_model/specs/Rings` and
//! `xsk_model/specs/Marks`; those here say that both are one.
ghost use Rattle.std.specs.Prelude.{◌≡◌, ◌<◌, ◌↔◌, ℕ, IsTrue, Some};
ghost use Rattle.xsk_model.specs.Config.{IsConfig, HasRing};
ghost use Rattle.xsk_model.specs.Rings.{port_of, queue_of, driver_of, app_of, producer, consumer};
ghost use Rattle.xsk_model.specs.Marks.{HasMark, HoldsClosing, IsMarkNumber, IsMarkOwner};
ghost use Rattle.xsk_model.specs.declared.call.Mark.TheVariants.{Cell};
ghost use Rattle.xsk_legal.specs.Marked.{is_number};
ghost use Rattle.xsk_legal.specs.Roles.{IsPairAt};

use xsk_model::marks::Range;
use xsk_model::placement::{has_mark, has_ring};
use xsk_model::steering::application_on;
use xsk_model::{Config, Mark, PairInfo, Ring};

/// Whether the caller is the driver of the ring, which must exist. A queue has one pair, so none is looked for.
#[tactic(auto, using(crate::proofs::Drivers::driver_at))]
fn is_driver(config: &Config, who: u32, ring: Ring) -> bool
    requires { HasRing config.now ring }
    ensures { IsTrue result ↔ (who ≡ driver_of config.now ring) }
{
    let (port, queue) = seat_of(config, ring);
    is_pair_at(config.pairs(), who, port, queue)
}

/// Whether the pair of a number is that of a port's queue.
fn is_pair_at(pairs: &[PairInfo], pair: u32, port: u32, queue: u32) -> bool
    ensures { IsTrue result ↔ IsPairAt pairs.now pair port queue }
{
    match pairs.get(pair as usize) {
        Some(pair) => pair.port == port && pair.queue == queue,
        None => false,
    }
}

/// Whether the caller is the application of the ring, which must exist.
fn is_application(config: &Config, who: u32, ring: Ring) -> bool
    requires { HasRing config.now ring }
    ensures { IsTrue result ↔ (who ≡ app_of config.now ring) }
{
    let (port, queue) = seat_of(config, ring);
    who == config.pairs().len() as u32 + application_on(config, port, queue)
}

/// The port and the queue of a ring, which must exist.
pub(crate) fn seat_of(config: &Config, ring: Ring) -> (u32, u32)
    requires { HasRing config.now ring }
    ensures value { result ≡ (port_of config.now ring, queue_of config.now ring) }
    ensures port { port_of config.now ring < config.now.ports }
    ensures queue { queue_of config.now ring < config.now.queues }
{
    let pairs = config.pairs();
    let sockets = config.sockets();
    match ring {
        Ring::Fill(pair) | Ring::Comp(pair) => {
            (pairs[pair as usize].port, pairs[pair as usize].queue)
        }
        Ring::Rx(socket) | Ring::Tx(socket) => {
            (
                sockets[socket as usize].port,
                sockets[socket as usize].queue,
            )
        }
    }
}

/// Whether the ring exists and the caller reserves and submits on it.
pub(crate) fn produces(config: &Config, who: u32, ring: Ring) -> bool
    ensures { IsTrue result ↔ (HasRing config.now ring × (who ≡ producer config.now ring)) }
{
    if !has_ring(config, ring) {
        return false;
    }
    match ring {
        Ring::Fill(_) | Ring::Tx(_) => is_application(config, who, ring),
        Ring::Comp(_) | Ring::Rx(_) => is_driver(config, who, ring),
    }
}

/// Whether the ring exists and the caller peeks and releases on it.
pub(crate) fn consumes(config: &Config, who: u32, ring: Ring) -> bool
    ensures { IsTrue result ↔ (HasRing config.now ring × (who ≡ consumer config.now ring)) }
{
    if !has_ring(config, ring) {
        return false;
    }
    match ring {
        Ring::Fill(_) | Ring::Tx(_) => is_driver(config, who, ring),
        Ring::Comp(_) | Ring::Rx(_) => is_application(config, who, ring),
    }
}

/// Whether the mark exists and is the caller's.
pub(crate) fn owns(config: &Config, who: u32, mark: Mark) -> bool
    ensures { IsTrue result ↔ (HasMark config.now mark × IsMarkOwner config.now who mark) }
{
    if !has_mark(config, mark) {
        return false;
    }
    match mark {
        Mark::NeedFill(pair) | Mark::RxDone(pair) | Mark::Gone(pair) | Mark::Bounced(pair) => {
            who == pair
        }
        Mark::NeedTx(socket) => consumes(config, who, Ring::Tx(socket)),
        Mark::Kick(pair) => who == pair || produces(config, who, Ring::Fill(pair)),
        Mark::TxDone(app) => who == config.pairs().len() as u32 + app,
        Mark::Cell(port, index) => owns_cell(config, who, port, index),
        Mark::Closing(socket) => {
            is_closing(config, socket) && consumes(config, who, Ring::Rx(socket))
        }
        Mark::Acked(socket) => {
            is_closing(config, socket) && produces(config, who, Ring::Rx(socket))
        }
    }
}

/// Whether the cell, which must exist, holds the socket to close, and the caller is the application of the port and of
/// that socket's queue.
fn owns_cell(config: &Config, who: u32, port: u32, index: u32) -> bool
    requires { HasMark config.now (Cell port index) }
    ensures { IsTrue result ↔ IsMarkOwner config.now who (Cell port index) }
{
    match config.closing() {
        Some(socket) => {
            let queue = config.sockets()[socket as usize].queue;
            config.cell(port, index) == u64::from(socket) + 1
                && who == config.pairs().len() as u32 + application_on(config, port, queue)
        }
        None => false,
    }
}

/// Whether the mark, which must exist, may have the number.
#[tactic(auto, using(xsk_model::proofs::MarkParts::range_tells, crate::proofs::Ranges::cell_is))]
pub(crate) fn may_be(config: &Config, mark: Mark, value: u64) -> bool
    requires { HasMark config.now mark }
    ensures { IsTrue result ↔ IsMarkNumber config.now mark value }
{
    match mark.kind().columns().range {
        Range::Flag => value <= 1,
        Range::Cell => is_cell_number(config, mark.number(), mark.index(), value),
        Range::Count => true,
    }
}

/// Whether the cell, which must exist, may have the number.
fn is_cell_number(config: &Config, port: u32, index: u32, value: u64) -> bool
    requires { HasMark config.now (Cell port index) }
    ensures { IsTrue result ↔ IsMarkNumber config.now (Cell port index) value }
{
    value == config.cell(port, index) || value == 0 && holds(config, port, index)
}

/// Whether the cell, which must exist, holds the socket to close.
pub(crate) fn holds(config: &Config, port: u32, index: u32) -> bool
    requires { HasMark config.now (Cell port index) }
    ensures { IsTrue result ↔ ((s : ℕ) × HoldsClosing config.now port index s) }
{
    match config.closing() {
        Some(socket) => config.cell(port, index) == u64::from(socket) + 1,
        None => false,
    }
}

/// Whether the socket is the one to close.
pub(crate) fn is_closing(config: &Config, socket: u32) -> bool
    ensures value { result ≡ is_number socket config.now.closing }
    ensures closing { IsTrue result ↔ (config.now.closing ≡ Some socket) }
    ensures lawful { IsConfig config.now }
{
    match config.closing() {
        Some(closing) => socket == closing,
        None => false,
    }
}
