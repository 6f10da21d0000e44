//! What a call has that is possible and surely unwanted.
ghost use Rattle.std.specs.Prelude.{◌≡◌, ◌<◌};
ghost use Rattle.xsk_hints.specs.Facts.{besides_metadata as besides, code, oddity_of, on_fill, on_tx};

use xsk_model::Ring;
use xsk_side::Setting;
use xsk_umem::{XDP_PKT_CONTD, XdpDesc};

/// An option of a descriptor on TX (if_xdp.h, from Linux 6.8 on).
const XDP_TX_METADATA: u32 = 2;

/// What a Submit or a Reserve has that is possible and surely unwanted.
#[derive(Clone, Copy, Debug, PartialEq, Eq)]
pub(crate) enum Oddity {
    /// On FILL or TX, an address that is outside of the UMEM.
    Outside,
    /// On FILL, an address that isn't the first of its chunk.
    Within,
    /// On TX, a descriptor of length 0.
    Empty,
    /// On TX, a descriptor whose bytes cross the end of its chunk.
    Crossing,
    /// On TX, a descriptor whose options aren't known.
    Options,
    /// A Reserve that was refused.
    Refused,
}

/// How many there are.
pub(crate) const ODDITIES: usize = 6;

impl Oddity {
    pub(crate) fn code(self) -> usize
        ensures value { result ≡ code self }
        ensures below { result < 6 }
    {
        match self {
            Oddity::Outside => 0,
            Oddity::Within => 1,
            Oddity::Empty => 2,
            Oddity::Crossing => 3,
            Oddity::Options => 4,
            Oddity::Refused => 5,
        }
    }
}

/// What an entry has that the program submits on a ring; the first in the order of [`Oddity`].
pub(crate) fn find_oddity(
    setting: &Setting,
    metadata: bool,
    ring: Ring,
    entry: XdpDesc,
) -> Option<Oddity>
    ensures { result ≡ oddity_of setting.now metadata ring entry }
{
    match ring {
        Ring::Fill(_) => filled(setting, entry),
        Ring::Tx(_) => sent(setting, metadata, entry),
        Ring::Comp(_) | Ring::Rx(_) => None,
    }
}

fn filled(setting: &Setting, entry: XdpDesc) -> Option<Oddity>
    ensures { result ≡ on_fill setting.now entry }
{
    let chunk = u64::from(setting.chunk());
    if entry.addr >= u64::from(setting.frames()) * chunk {
        return Some(Oddity::Outside);
    }
    if entry.addr % chunk != 0 {
        return Some(Oddity::Within);
    }
    None
}

fn sent(setting: &Setting, metadata: bool, entry: XdpDesc) -> Option<Oddity>
    ensures { result ≡ on_tx setting.now metadata entry }
{
    let chunk = u64::from(setting.chunk());
    if entry.addr >= u64::from(setting.frames()) * chunk {
        return Some(Oddity::Outside);
    }
    if entry.len == 0 {
        return Some(Oddity::Empty);
    }
    if entry.addr % chunk + u64::from(entry.len) > chunk {
        return Some(Oddity::Crossing);
    }
    let options = besides_metadata(metadata, entry.options);
    let goes_on = setting.rules().sg && options == XDP_PKT_CONTD;
    if options != 0 && !goes_on {
        return Some(Oddity::Options);
    }
    None
}

/// The options besides `XDP_TX_METADATA`, where the UMEM has room for TX metadata.
fn besides_metadata(metadata: bool, options: u32) -> u32
    ensures { result ≡ besides metadata options }
{
    if metadata && options >= XDP_TX_METADATA {
        options - XDP_TX_METADATA
    } else {
        options
    }
}
