//! The packets of a TX ring that aren't completed yet.
ghost use Rattle.std.specs.Prelude.{◌≡◌, ◌<◌, ◌≤◌, ◌↔◌, IfOk, IsTrue, [], length, slice_get};
ghost use Rattle.std.specs.VecDeque.{deque_capacity};
ghost use Rattle.xsk_legal.specs.Noted.{Queue as Descs};
ghost use Rattle.xsk_legal.specs.Queue.{pushed, first_off, IsNext, IsPacket};

use std::alloc::Global;
use std::collections::VecDeque;
use std::marker::Model;
use xsk_desc::validate;
use xsk_model::steering::MOST_FRAGMENTS;
use xsk_umem::{Batch, Geometry, Item, OutOfMemory, XDP_PKT_CONTD, XdpDesc};

/// The descriptors of a TX ring's packets that aren't completed, in order, and behind them those of the packet that
/// isn't at its end.
#[derive(Debug, Drop)]
pub(crate) struct Queue {
    descs: VecDeque<XdpDesc>,
    /// How many descriptors belong to the packet that isn't at its end.
    begun: u32,
    limit: u32,
}

impl Model for Queue {
    ghost use Rattle.std.specs.Prelude.{◌≤◌, length};
    ghost use Rattle.std.specs.VecDeque.{deque_capacity};
    ghost use Rattle.xsk_legal.specs.Noted.{Queue as Descs};

    ghost Value = { Descs };

    ghost view = { λ q. record { descs = q.descs.items; begun = q.begun; limit = q.limit } };

    ghost invariant = { λ q. (length q.descs.items ≤ q.limit) × (q.limit ≤ deque_capacity q.descs) × (q.begun ≤ length q.descs.items) };
}

impl Queue {
    /// An empty queue with room for so many descriptors.
    pub(crate) fn new(alloc: Global, limit: u32) -> Result<Queue, OutOfMemory>
        ensures { IfOk result (λ queue. queue ≡ record { descs = []; begun = 0; limit = limit }) }
    {
        Ok(Queue {
            descs: VecDeque::with_capacity(alloc, limit as usize)?,
            begun: 0,
            limit,
        })
    }

    /// Takes the next descriptor of the TX ring. A packet that it makes bad is forgotten.
    pub(crate) fn push(&mut self, geometry: &Geometry, sg: bool, desc: XdpDesc)
        requires { length (pushed geometry.now sg self.old desc).descs ≤ self.old.limit }
        ensures { self.new ≡ pushed geometry.now sg self.old desc }
    {
        let valid = validate(desc, geometry, sg).is_ok();
        if self.begun >= MOST_FRAGMENTS || !valid {
            let whole = self.descs.len() - self.begun as usize;
            self.descs.truncate(whole);
            self.begun = 0;
            return;
        }
        self.descs.push_back_reserved(desc);
        self.begun = if desc.options == XDP_PKT_CONTD {
            self.begun + 1
        } else {
            0
        };
    }

    /// Forgets the first descriptor of a packet that is being completed.
    pub(crate) fn pop_front(&mut self)
        requires { self.old.begun < length self.old.descs }
        ensures { self.new ≡ first_off self.old }
    {
        let _first = self.descs.pop_front();
    }

    /// The descriptor of a place.
    fn desc(&self, i: u32) -> Option<XdpDesc>
        ensures { result ≡ slice_get self.now.descs i }
    {
        self.descs.get(i as usize).copied()
    }

    /// Whether the items have the addresses of the first packet, all of it.
    pub(crate) fn is_packet(&self, items: &Batch) -> bool
        ensures { IsTrue result ↔ IsPacket self.now.descs items.now }
    {
        let count = items.len();
        for i in 0..count {
            let Some(desc) = self.desc(i) else {
                return false;
            };
            if !is_piece(desc, items.item(i), i + 1 == count) {
                return false;
            }
        }
        true
    }
}

/// Whether the descriptor has the item's address, and the packet ends behind it exactly where the item is the last.
fn is_piece(desc: XdpDesc, item: &Item, last: bool) -> bool
    ensures { IsTrue result ↔ IsNext desc last item.now }
{
    desc.addr == item.desc.addr && last != (desc.options == XDP_PKT_CONTD)
}
