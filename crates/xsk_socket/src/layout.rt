//! What a command can ask for, and why it is refused.
ghost use Rattle.std.specs.Prelude.{◌≡◌, ◌<◌, ◌≤◌, None, Some, OnOk, if◌then◌else◌};
ghost use Rattle.std.specs.Result.{result_err};
ghost use Rattle.xsk_socket.specs.Fits.{HasCounts};
ghost use Rattle.xsk_socket.specs.Layout.{cells_in, fault_of, first_unmet, is_count, is_port_count, is_ring_size, on_close, on_counts, on_empty, on_rings, on_umem, pairs_in, sockets_in};

use thiserror::Error;
use xsk_umem::{MOST_FRAMES, RESERVED};

/// A layout: how many ports, queues and sockets there are, the UMEM, and the size of each kind of ring.
///
/// Each queue of each port has one pair of FILL and COMPLETION rings and the same number of sockets, each with RX and
/// TX.
#[derive(Clone, Copy, Debug, PartialEq, Eq)]
pub struct Layout {
    /// The ports: 2 or 4.
    pub ports: u32,
    /// The queues of each port: 1, 2 or 4.
    pub queues: u32,
    /// The sockets of each queue: 1, 2 or 4.
    pub sockets: u32,
    /// The files that were named.
    pub files: u32,
    /// The files that have to be named for each port.
    pub files_wanted_per_port: u32,
    /// The bytes of a chunk: 2,048 or 4,096.
    pub chunk: u32,
    /// The bytes that are kept free before the data of a frame: below the chunk less 256.
    pub headroom: u32,
    /// The frames of the UMEM: 1 to 4,096, the same number for each queue of each port.
    pub frames: u32,
    /// The entries of each RX ring: a power of two from 2 to 2,048, as of the other rings.
    pub rx: u32,
    /// The entries of each TX ring.
    pub tx: u32,
    /// The entries of each FILL ring, at least as many as a queue has frames.
    pub fill: u32,
    /// The entries of each COMPLETION ring.
    pub comp: u32,
    /// Whether packets may have several frames (XDP_USE_SG).
    pub sg: bool,
    /// Whether the need-wakeup flags are used (XDP_USE_NEED_WAKEUP).
    pub wakeup: bool,
    /// The cell of each port's XSKMAP that is left empty, if one is.
    pub empty: Option<u32>,
    /// The socket that is to be closed while traffic flows, if one is, of all sockets numbered by port, queue and class.
    pub close: Option<u32>,
    /// The threads of each application: 1, 2 or 4.
    pub hands: u32,
}

/// The entries of each ring, where nothing is said of it.
const USUAL_ENTRIES: u32 = 2048;

/// The layout of a command that says nothing of it: two ports with a queue and a socket each, 256 frames of 4,096 bytes, and
/// rings of 2,048 entries; no socket is closed, and each application is one thread.
pub const USUAL: Layout = Layout {
    ports: 2,
    queues: 1,
    sockets: 1,
    files: 0,
    files_wanted_per_port: 0,
    chunk: 4096,
    headroom: 0,
    frames: 256,
    rx: USUAL_ENTRIES,
    tx: USUAL_ENTRIES,
    fill: USUAL_ENTRIES,
    comp: USUAL_ENTRIES,
    sg: false,
    wakeup: false,
    empty: None,
    close: None,
    hands: 1,
};

/// [`USUAL`]. It is accepted.
impl Default for Layout {
    ghost use Rattle.std.specs.Prelude.{◌≡◌, None};
    ghost use Rattle.xsk_socket.specs.Layout.{fault_of, usual};

    ghost is_default = { λ l. (l ≡ usual) × (fault_of l ≡ None) };

    fn default() -> Layout {
        USUAL
    }
}

/// Why a layout is refused: what is wrong, with its value.
#[derive(Clone, Copy, Debug, PartialEq, Eq, Error)]
pub enum Unlawful {
    /// There are neither 2 nor 4 ports.
    #[error("{0} ports: there must be 2 or 4")]
    Ports(u32),
    /// A port has no 1, 2 or 4 queues.
    #[error("{0} queues: a port must have 1, 2 or 4")]
    Queues(u32),
    /// A queue has no 1, 2 or 4 sockets.
    #[error("{0} sockets: a queue must have 1, 2 or 4")]
    Sockets(u32),
    /// There aren't as many files as all ports together want.
    #[error("{0} files: each port must have as many as it wants")]
    Files(u32),
    /// The chunk has neither 2,048 nor 4,096 bytes.
    #[error("a chunk of {0} bytes: it must have 2048 or 4096")]
    Chunk(u32),
    /// The headroom leaves no room for data.
    #[error("a headroom of {0} bytes leaves no room for data")]
    Headroom(u32),
    /// There are no frames, more than 4,096, or not the same number for each queue of each port.
    #[error("{0} frames: there must be 1 to 4096, the same number for each queue")]
    Frames(u32),
    /// The size of the RX rings is no power of two from 2 to 2,048.
    #[error("an RX ring of {0} entries: it must be a power of two from 2 to 2048")]
    Rx(u32),
    /// The size of the TX rings is none.
    #[error("a TX ring of {0} entries: it must be a power of two from 2 to 2048")]
    Tx(u32),
    /// The size of the FILL rings is none.
    #[error("a FILL ring of {0} entries: it must be a power of two from 2 to 2048")]
    Fill(u32),
    /// The size of the COMPLETION rings is none.
    #[error("a COMPLETION ring of {0} entries: it must be a power of two from 2 to 2048")]
    Comp(u32),
    /// The frames of a queue, of which there are so many, don't fit its FILL ring.
    #[error("the {0} frames of a queue don't fit its FILL ring")]
    Pool(u32),
    /// There is no such cell.
    #[error("there is no cell {0}")]
    Empty(u32),
    /// There is no such socket to close.
    #[error("there is no socket {0}")]
    Close(u32),
    /// An application has no 1, 2 or 4 threads.
    #[error("{0} threads: an application must have 1, 2 or 4")]
    Hands(u32),
}

/// Whether a layout is accepted, and else the first reason of [`Unlawful`], in its order, with its value.
pub fn check_layout(layout: &Layout) -> Result<(), Unlawful>
    ensures { result_err result ≡ fault_of layout.now }
{
    check_counts(layout)?;
    check_umem(layout)?;
    check_rings(layout)?;
    check_empty(layout)?;
    check_close(layout)?;
    unless(is_count(layout.hands), Unlawful::Hands(layout.hands))
}

fn check_counts(layout: &Layout) -> Result<(), Unlawful>
    ensures refusal { result_err result ≡ first_unmet (on_counts layout.now) }
    ensures counts { OnOk result (HasCounts layout.now) }
{
    unless(is_port_count(layout.ports), Unlawful::Ports(layout.ports))?;
    unless(is_count(layout.queues), Unlawful::Queues(layout.queues))?;
    unless(is_count(layout.sockets), Unlawful::Sockets(layout.sockets))?;
    let wanted = u64::from(layout.files_wanted_per_port) * u64::from(layout.ports);
    unless(
        u64::from(layout.files) == wanted,
        Unlawful::Files(layout.files),
    )
}

fn check_umem(layout: &Layout) -> Result<(), Unlawful>
    requires { HasCounts layout.now }
    ensures { result_err result ≡ first_unmet (on_umem layout.now) }
{
    let has_chunk = layout.chunk == 2048 || layout.chunk == 4096;
    unless(has_chunk, Unlawful::Chunk(layout.chunk))?;
    let has_data = layout.headroom < layout.chunk - RESERVED;
    unless(has_data, Unlawful::Headroom(layout.headroom))?;
    let frames = layout.frames;
    let left = frames % pairs_of(layout);
    let divided = 0 < frames && frames <= MOST_FRAMES && left == 0;
    unless(divided, Unlawful::Frames(frames))
}

fn check_rings(layout: &Layout) -> Result<(), Unlawful>
    requires { HasCounts layout.now }
    ensures { result_err result ≡ first_unmet (on_rings layout.now) }
{
    unless(is_ring_size(layout.rx), Unlawful::Rx(layout.rx))?;
    unless(is_ring_size(layout.tx), Unlawful::Tx(layout.tx))?;
    unless(is_ring_size(layout.fill), Unlawful::Fill(layout.fill))?;
    unless(is_ring_size(layout.comp), Unlawful::Comp(layout.comp))?;
    let pool = layout.frames / pairs_of(layout);
    unless(pool <= layout.fill, Unlawful::Pool(pool))
}

fn check_empty(layout: &Layout) -> Result<(), Unlawful>
    requires { HasCounts layout.now }
    ensures { result_err result ≡ first_unmet (on_empty layout.now.empty (cells_in layout.now)) }
{
    let Some(cell) = layout.empty else {
        return Ok(());
    };
    unless(cell < cells_of(layout), Unlawful::Empty(cell))
}

fn check_close(layout: &Layout) -> Result<(), Unlawful>
    requires { HasCounts layout.now }
    ensures { result_err result ≡ first_unmet (on_close layout.now.close (sockets_in layout.now)) }
{
    let Some(socket) = layout.close else {
        return Ok(());
    };
    unless(socket < sockets_of(layout), Unlawful::Close(socket))
}

/// The pairs of all ports.
pub(crate) fn pairs_of(layout: &Layout) -> u32
    requires { HasCounts layout.now }
    ensures value { result ≡ pairs_in layout.now }
    ensures some { 0 < result }
    ensures few { result ≤ 16 }
{
    layout.ports * layout.queues
}

/// The cells of a port's XSKMAP.
pub(crate) fn cells_of(layout: &Layout) -> u32
    requires { HasCounts layout.now }
    ensures value { result ≡ cells_in layout.now }
    ensures few { result ≤ 16 }
{
    layout.queues * layout.sockets
}

/// The sockets of all ports.
pub(crate) fn sockets_of(layout: &Layout) -> u32
    requires { HasCounts layout.now }
    ensures value { result ≡ sockets_in layout.now }
    ensures few { result ≤ 64 }
{
    pairs_of(layout) * layout.sockets
}

/// The refusal, unless the condition holds.
fn unless(holds: bool, refusal: Unlawful) -> Result<(), Unlawful>
    ensures { result_err result ≡ (if holds then None else Some refusal) }
{
    if holds { Ok(()) } else { Err(refusal) }
}

fn is_port_count(ports: u32) -> bool
    ensures { result ≡ is_port_count ports }
{
    ports == 2 || ports == 4
}

fn is_count(count: u32) -> bool
    ensures { result ≡ is_count count }
{
    count == 1 || count == 2 || count == 4
}

/// Whether a ring can have so many entries: a power of two from 2 to 2,048.
pub(crate) fn is_ring_size(size: u32) -> bool
    ensures { result ≡ is_ring_size size }
{
    matches!(
        size,
        2 | 4 | 8 | 16 | 32 | 64 | 128 | 256 | 512 | 1024 | 2048
    )
}
