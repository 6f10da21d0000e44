//! What a caller has set and seen of the marks that close a socket, and of the count of bounced packets.
ghost use Rattle.std.specs.Prelude.{◌≡◌, ◌<◌, ◌↔◌, false, IsTrue, replicate, true};
ghost use Rattle.std.specs.List.{slice_index_or, slice_set};
ghost use Rattle.xsk_model.specs.Marks.{HasMark};
ghost use Rattle.xsk_model.specs.declared.call.Mark.TheVariants.{Cell};
ghost use Rattle.xsk_legal.specs.Marked.{is_port_of, after_swap, after_look};
ghost use Rattle.xsk_legal.specs.Setting.{IsCleared, AreCleared};

use crate::roles::{holds, is_closing};
use xsk_model::{Config, Mark};

/// What a caller's own Swaps and Looks left of the marks of the socket to close and of its count of bounced packets.
#[derive(Debug, Drop)]
pub(crate) struct Marked {
    /// By index: the cells of the socket's port that the caller lowered.
    lowered: [bool; 64],
    pub(crate) closed: bool,
    pub(crate) acked: bool,
    /// The caller's last Look at Closing was answered 1.
    pub(crate) seen: bool,
    pub(crate) bounced: u64,
}

impl Marked {
    /// That of a caller that has made no call.
    pub(crate) fn new() -> Marked
        ensures { result ≡ record { lowered = replicate 64 false; closed = false; acked = false; seen = false; bounced = 0 } }
    {
        Marked {
            lowered: [false; 64],
            closed: false,
            acked: false,
            seen: false,
            bounced: 0,
        }
    }

    /// Notes a legal Swap.
    pub(crate) fn swapped(&mut self, config: &Config, mark: Mark, value: u64)
        ensures { self.new ≡ after_swap config.now self.old mark value }
    {
        match mark {
            Mark::Cell(port, index) => {
                if is_port_of_closing(config, port) {
                    self.lower(index);
                }
            }
            Mark::Closing(_) => self.closed = true,
            Mark::Acked(_) => self.acked = true,
            Mark::Bounced(_) => self.bounced = value,
            _ => {}
        }
    }

    fn lower(&mut self, index: u32)
        ensures { self.new ≡ record self.old { lowered = slice_set self.old.lowered index true } }
    {
        if index < 64 {
            self.lowered[index as usize] = true;
        }
    }

    /// Notes the answer to a Look.
    pub(crate) fn looked(&mut self, config: &Config, mark: Mark, old: u64)
        ensures { self.new ≡ after_look config.now self.old mark old }
    {
        if let Mark::Closing(socket) = mark {
            if is_closing(config, socket) {
                self.seen = old == 1;
            }
        }
    }

    /// Whether the caller lowered each cell of the port, that of the socket to close, that held this socket.
    pub(crate) fn are_cleared(&self, config: &Config, port: u32) -> bool
        requires { port < config.now.ports }
        ensures { IsTrue result ↔ AreCleared config.now self.now port }
    {
        for index in 0..config.cells(port) {
            if !self.is_cleared(config, port, index) {
                return false;
            }
        }
        true
    }

    /// Whether the caller lowered the cell, which must exist, or it didn't hold the socket to close.
    fn is_cleared(&self, config: &Config, port: u32, index: u32) -> bool
        requires { HasMark config.now (Cell port index) }
        ensures { IsTrue result ↔ IsCleared config.now self.now port index }
    {
        self.is_lowered(index) || !holds(config, port, index)
    }

    fn is_lowered(&self, index: u32) -> bool
        ensures { result ≡ slice_index_or self.now.lowered index false }
    {
        index < 64 && self.lowered[index as usize]
    }
}

/// Whether the socket to close is bound to the port.
fn is_port_of_closing(config: &Config, port: u32) -> bool
    ensures { result ≡ is_port_of config.now config.now.closing port }
{
    match config.closing() {
        Some(socket) => config.sockets()[socket as usize].port == port,
        None => false,
    }
}
