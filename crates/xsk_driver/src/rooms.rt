//! What a driver keeps its packets and frames in.
ghost use Rattle.std.specs.Prelude.{◌≡◌, ◌≤◌, [], IfOk, replicate, vec_capacity};
ghost use Rattle.std.specs.VecDeque.{deque_capacity};
ghost use Rattle.xsk_driver.specs.SentRoom.{Sends};
ghost use Rattle.xsk_driver.specs.Outbox.{outbox_of};

use crate::disposal::Disposal;
use crate::finished::Finished;
use crate::machine::MOST_SPARE;
use crate::outbox::Outbox;
use std::alloc::Global;
use std::collections::VecDeque;
use xsk_umem::{Batch, Frame, OutOfMemory};

/// What a driver keeps its packets and frames in, all of it taken at the start.
#[derive(Drop)]
pub(crate) struct Rooms {
    pub(crate) disposals: Vec<Disposal>,
    pub(crate) spare: VecDeque<Frame>,
    pub(crate) groups: Vec<Batch>,
    pub(crate) finished: Finished,
    pub(crate) lost: Vec<Frame>,
    pub(crate) outbox: Outbox,
}

impl Rooms {
    /// Nothing yet, with room for so many disposals, classes, frames, and packets and bytes that are sent.
    pub(crate) fn new(
        alloc: Global,
        disposals: usize,
        classes: u32,
        frames: u32,
        sent_packets: u32,
        sent_bytes: u32,
    ) -> Result<Rooms, OutOfMemory>
        ensures disposals { IfOk result (λ r. (r.disposals.items ≡ []) × (disposals ≤ vec_capacity r.disposals)) }
        ensures spare { IfOk result (λ r. (r.spare.items ≡ []) × (64 ≤ deque_capacity r.spare)) }
        ensures groups { IfOk result (λ r. r.groups.items ≡ replicate classes []) }
        ensures finished { IfOk result (λ r. r.finished ≡ []) }
        ensures lost { IfOk result (λ r. (r.lost.items ≡ []) × (frames ≤ vec_capacity r.lost)) }
        ensures limits { IfOk result (λ r. (r.outbox.most_packets ≡ sent_packets) × (r.outbox.most_bytes ≡ sent_bytes)) }
        ensures sends { IfOk result (λ r. Sends (outbox_of r.outbox) []) }
    {
        Ok(Rooms {
            disposals: Vec::with_capacity(alloc, disposals)?,
            spare: VecDeque::with_capacity(alloc, MOST_SPARE)?,
            groups: empty_groups(alloc, classes)?,
            finished: Finished::new(alloc)?,
            lost: Vec::with_capacity(alloc, frames as usize)?,
            outbox: Outbox::new(alloc, sent_packets, sent_bytes)?,
        })
    }
}

fn empty_groups(alloc: Global, classes: u32) -> Result<Vec<Batch>, OutOfMemory>
    ensures { IfOk result (λ groups. groups.items ≡ replicate classes []) }
{
    let mut groups = Vec::with_capacity(alloc, classes as usize)?;
    for _ in 0..classes {
        groups.push(Batch::new())?;
    }
    Ok(groups)
}
