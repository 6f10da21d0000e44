//! The types whose values may be sent to another thread, or be shared with one. That the machines may be is shown where `xsk_workers`
//! sends them.

use xsk_model::{Act, Call, Config, Reply};
use xsk_rings::CheckedPass;
use xsk_table::{Note, Pass, Shared};
use xsk_umem::{Batch, Frame, Frames, Geometry, Item, PacketList};

fn is_sent<T: Send>() {}

fn is_shared<T: Sync>() {}

#[test]
fn memory_may_be_sent() {
    is_sent::<Geometry>();
    is_sent::<Frame>();
    is_sent::<Frames>();
    is_sent::<Item>();
    is_sent::<Batch>();
    is_sent::<PacketList>();
}

#[test]
fn calls_may_be_sent() {
    is_sent::<Call>();
    is_sent::<Reply>();
    is_sent::<Act>();
}

#[test]
fn passes_may_be_sent_and_the_table_shared() {
    is_sent::<Pass>();
    is_sent::<CheckedPass>();
    is_sent::<Note>();
    is_shared::<Shared>();
    is_shared::<Config>();
    is_shared::<PacketList>();
}
