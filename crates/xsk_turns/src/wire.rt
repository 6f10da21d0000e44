//! What becomes of a packet that finds no frames or no room.

/// What the wire of the simulated device does with a packet for which there are too few frames on FILL or no room on the RX
/// ring. The kernel drops such a packet (af_xdp.rst, "XDP_STATISTICS getsockopt"); a wire that waits is this project's own.
#[derive(Clone, Copy, Debug, PartialEq, Eq)]
pub enum Wire {
    /// The packet waits, and is tried again in the next turn.
    Wait,
    /// The packet is dropped, and counted.
    Drop,
}
