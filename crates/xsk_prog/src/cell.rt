//! The socket behind a cell, for a packet of a port's queue.
ghost use Rattle.std.specs.Prelude.{◌≡◌};
ghost use Rattle.xsk_prog.specs.Redirect.{redirect_of};

use thiserror::Error;
use xsk_model::Config;

/// Why a redirect leads to no socket; the packet is then dropped.
#[derive(Clone, Copy, Debug, PartialEq, Eq, Error)]
pub enum Miss {
    /// The cell is empty, or no socket has its number.
    #[error("the cell holds no socket")]
    EmptyCell,
    /// Its socket is bound to another port or another queue.
    #[error("the cell's socket is bound to another queue")]
    OtherQueue,
}

/// The socket to which a cell's number leads a packet of this port and queue (af_xdp.rst, "Usage": a socket must be bound
/// to the queue on which the packet came). The number 0 is an empty cell, and v stands for socket v - 1.
pub fn redirect(cell: u64, config: &Config, port: u32, queue: u32) -> Result<u32, Miss>
    ensures { result ≡ redirect_of config.now port queue cell }
{
    let sockets = config.sockets();
    if cell == 0 || cell > sockets.len() as u64 {
        return Err(Miss::EmptyCell);
    }
    let number = (cell - 1) as u32;
    let socket = sockets[number as usize];
    if socket.port != port || socket.queue != queue {
        return Err(Miss::OtherQueue);
    }
    Ok(number)
}
