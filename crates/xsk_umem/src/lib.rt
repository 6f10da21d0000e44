//! The memory that AF_XDP sockets share (af_xdp.rst, "UMEM"): its geometry, its frames, the descriptors that name
//! them, and lists of packets.
#![tactic(auto)]

mod batch;
mod behind;
mod frame;
mod front;
mod geometry;
mod headers;
mod memory;
mod packet_list;
mod umem;
mod walks;

pub use batch::{Batch, Item, MOST_ITEMS, XDP_PKT_CONTD, XdpDesc};
pub use frame::{Frame, Frames};
pub use geometry::{Geometry, MOST_FRAMES, RESERVED};
pub use headers::Headers;
pub use memory::OutOfMemory;
pub use packet_list::{Gaps, PacketList, Parts, Span};
pub use umem::{Umem, UmemError};
pub use walks::{Items, Packets};
