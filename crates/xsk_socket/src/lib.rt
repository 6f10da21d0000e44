//! The setup of sockets over one UMEM: rings, binds and shared pairs, and the layouts that a command can ask for.
#![tactic(auto)]

mod error;
mod frames;
mod layout;
mod numbering;
mod seal;
mod setup;
mod socket;

pub use error::SetupError;
pub use frames::all_frames;
pub use layout::{Layout, USUAL, Unlawful, check_layout};
pub use numbering::regular;
pub use setup::{
    SealRefused, Setup, XDP_COPY, XDP_SHARED_UMEM, XDP_USE_NEED_WAKEUP, XDP_USE_SG, XDP_ZEROCOPY,
};
pub use socket::RingKind;
