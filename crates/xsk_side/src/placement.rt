//! The rings of a setting.
ghost use Rattle.std.specs.Prelude.{◌≡◌, ◌<◌, ◌≤◌, ◌^◌, ◌↔◌, IsTrue, length};
ghost use Rattle.xsk_side.specs.Setting.{HasRing, size_of, pair_of};
ghost use Rattle.xsk_side.specs.Object.{is_made as made};

use crate::Setting;
use xsk_model::Ring;

/// Whether the program produces the ring: FILL and TX.
pub fn is_made(ring: Ring) -> bool
    ensures { result ≡ made ring }
{
    match ring {
        Ring::Fill(_) | Ring::Tx(_) => true,
        Ring::Comp(_) | Ring::Rx(_) => false,
    }
}

impl Setting {
    /// Whether the ring exists.
    pub fn has_ring(&self, ring: Ring) -> bool
        ensures { IsTrue result ↔ HasRing self.now ring }
    {
        let pairs = self.pairs();
        let sockets = self.sockets();
        match ring {
            Ring::Fill(pair) | Ring::Comp(pair) => (pair as usize) < pairs.len(),
            Ring::Rx(socket) => {
                (socket as usize) < sockets.len() && sockets[socket as usize].rx.is_some()
            }
            Ring::Tx(socket) => {
                (socket as usize) < sockets.len() && sockets[socket as usize].tx.is_some()
            }
        }
    }

    /// The places of a ring, which must exist: 1 to 2^20.
    pub fn size(&self, ring: Ring) -> u32
        requires { HasRing self.now ring }
        ensures value { result ≡ size_of self.now ring }
        ensures few { size_of self.now ring ≤ 2 ^ 20 }
    {
        match ring {
            Ring::Fill(pair) => self.pairs()[pair as usize].fill,
            Ring::Comp(pair) => self.pairs()[pair as usize].comp,
            Ring::Rx(socket) => self.sockets()[socket as usize].rx.unwrap_or(0),
            Ring::Tx(socket) => self.sockets()[socket as usize].tx.unwrap_or(0),
        }
    }

    /// The pair of a ring, which must exist: its own, or that of its socket.
    pub fn pair(&self, ring: Ring) -> u32
        requires { HasRing self.now ring }
        ensures value { result ≡ pair_of self.now ring }
        ensures known { result < length self.now.pairs }
    {
        match ring {
            Ring::Fill(pair) | Ring::Comp(pair) => pair,
            Ring::Rx(socket) | Ring::Tx(socket) => self.sockets()[socket as usize].pair,
        }
    }
}
