//! The setting of a recording: one UMEM, its rings, and what its kernel may do. Only `new` makes a setting, so each is
//! one (`specs/Setting`, the invariant).
ghost use Rattle.std.specs.Prelude.{◌≡◌, ◌≤◌, ◌<◌, ◌↔◌, IfOk, IsOk, IsErrOf, IsTrue, IfSome, List, length};
ghost use Rattle.std.specs.Int.{is_power_of_two};
ghost use Rattle.xsk_side.specs.Setting.{IsSetting, IsUmem, IsPair, IsSocket, IsRingSize, AreFrames, IsChunk, ArePairs, AreSockets};
ghost use Rattle.xsk_side.specs.declared.setting.Pair.{Pair as APair};

use std::alloc::Global;
use std::marker::Model;
use thiserror::Error;

/// The most frames of a UMEM, and the most places of a ring.
pub const MOST: u32 = 1 << 20;

/// The most pairs and sockets of one UMEM.
const MOST_ENDS: usize = 64;

/// The bytes of each chunk that belong to the packet's meta data, as in `xsk_umem`.
const RESERVED: u32 = 256;

/// The FILL and COMPLETION rings of one pair, with their sizes.
#[derive(Clone, Copy, Debug, PartialEq, Eq)]
pub struct Pair {
    pub fill: u32,
    pub comp: u32,
}

/// A socket: the pair that it uses, and the sizes of its rings. It has RX, TX or both.
#[derive(Clone, Copy, Debug, PartialEq, Eq)]
pub struct Socket {
    pub pair: u32,
    pub rx: Option<u32>,
    pub tx: Option<u32>,
}

/// What the kernel may put into RX. With all of them `false` that is least bound but for `sg`, which allows more.
#[derive(Clone, Copy, Debug, PartialEq, Eq)]
pub struct Rules {
    /// The sockets have XDP_USE_SG: a packet may go on in the next entry.
    pub sg: bool,
    /// A frame on RX comes from the FILL ring of the socket's own pair.
    pub own: bool,
    /// Data stands at its place in the frame, behind headroom and 256 bytes, and an entry that goes on is full: copy mode.
    pub at_data: bool,
}

/// One UMEM of 1 to 2^20 frames of one chunk size in aligned mode, 1 to 64 pairs, 1 to 64 sockets, and the kernel's rules. Each ring
/// has a size of its own, a power of two from 1 to 2^20.
#[derive(Debug, Drop)]
pub struct Setting {
    frames: u32,
    chunk: u32,
    headroom: u32,
    pairs: Vec<Pair>,
    sockets: Vec<Socket>,
    rules: Rules,
}

impl Model for Setting {
    ghost use Rattle.xsk_side.specs.Setting.{Setting as Parts};

    ghost Value = { Parts };

    ghost use Rattle.xsk_side.specs.Parts.{parts_of};
    ghost use Rattle.xsk_side.specs.Setting.{IsSetting};

    ghost view = { parts_of };

    ghost invariant = { λ s. IsSetting (parts_of s) };
}

/// Why parts make no setting: the first reason.
#[derive(Clone, Copy, Debug, PartialEq, Eq, Error)]
pub enum SettingError {
    /// There are no frames, or more than 2^20.
    #[error("there are not 1 to 1048576 frames")]
    Frames,
    /// Headroom and 256 bytes leave no byte of a chunk.
    #[error("the headroom leaves no room for data")]
    Chunk,
    /// There are no pairs or more than 64, or a ring's size isn't a power of two from 1 to 2^20.
    #[error("there are not 1 to 64 pairs with rings of 1, 2, 4 .. 1048576 places")]
    Pairs,
    /// There are no sockets or more than 64, or one has no ring, a ring of no such size, or a pair that isn't there.
    #[error("there are not 1 to 64 sockets on these pairs with rings of 1, 2, 4 .. 1048576 places")]
    Sockets,
}

impl Setting {
    /// The setting of these parts, or the first of [`SettingError`]'s reasons, in its order. It takes no memory.
    pub fn new(
        frames: u32,
        chunk: u32,
        headroom: u32,
        pairs: Vec<Pair>,
        sockets: Vec<Socket>,
        rules: Rules,
    ) -> Result<Setting, SettingError>
        ensures ok { IfOk result (λ s. s ≡ record { geometry = record { frames = frames; chunk = chunk; headroom = headroom }; pairs = pairs.items; sockets = sockets.items; rules = rules }) }
        ensures frames { IsErrOf result SettingError.Frames ↔ (AreFrames frames → ⊥) }
        ensures chunk { IsErrOf result SettingError.Chunk ↔ (AreFrames frames × (IsChunk chunk headroom → ⊥)) }
        ensures pairs { IsErrOf result SettingError.Pairs ↔ (AreFrames frames × IsChunk chunk headroom × (ArePairs pairs.items → ⊥)) }
        ensures sockets { IsErrOf result SettingError.Sockets ↔ (AreFrames frames × IsChunk chunk headroom × ArePairs pairs.items × (AreSockets pairs.items sockets.items → ⊥)) }
    {
        if frames == 0 || frames > MOST {
            return Err(SettingError::Frames);
        }
        if chunk <= RESERVED || headroom >= chunk - RESERVED {
            return Err(SettingError::Chunk);
        }
        if !are_pairs(pairs.as_slice()) {
            return Err(SettingError::Pairs);
        }
        if !are_sockets(pairs.as_slice(), sockets.as_slice()) {
            return Err(SettingError::Sockets);
        }
        Ok(Setting {
            frames,
            chunk,
            headroom,
            pairs,
            sockets,
            rules,
        })
    }

    /// The number of frames, 1 to 2^20.
    pub fn frames(&self) -> u32
        ensures value { result ≡ self.now.geometry.frames }
        ensures lawful { IsSetting self.now }
    {
        self.frames
    }

    /// The bytes of a chunk.
    pub fn chunk(&self) -> u32
        ensures value { result ≡ self.now.geometry.chunk }
        ensures lawful { IsSetting self.now }
    {
        self.chunk
    }

    /// The bytes that are kept free between the reserved ones and the data.
    pub fn headroom(&self) -> u32
        ensures value { result ≡ self.now.geometry.headroom }
        ensures lawful { IsSetting self.now }
    {
        self.headroom
    }

    /// The pairs by their numbers.
    pub fn pairs(&self) -> &[Pair]
        ensures value { result.now ≡ self.now.pairs }
        ensures lawful { IsSetting self.now }
    {
        self.pairs.as_slice()
    }

    /// The sockets by their numbers.
    pub fn sockets(&self) -> &[Socket]
        ensures value { result.now ≡ self.now.sockets }
        ensures lawful { IsSetting self.now }
    {
        self.sockets.as_slice()
    }

    /// What the kernel may put into RX.
    pub fn rules(&self) -> Rules
        ensures { result ≡ self.now.rules }
    {
        self.rules
    }
}

fn are_pairs(pairs: &[Pair]) -> bool
    ensures { IsTrue result ↔ ArePairs pairs.now }
{
    is_count(pairs.len()) && pairs.iter().all(|pair| is_pair(*pair))
}

fn are_sockets(pairs: &[Pair], sockets: &[Socket]) -> bool
    ensures { IsTrue result ↔ AreSockets pairs.now sockets.now }
{
    is_count(sockets.len()) && sockets.iter().all(|socket| is_socket(pairs.len(), *socket))
}

fn is_count(count: usize) -> bool
    ensures { IsTrue result ↔ ((1 ≤ count) × (count ≤ 64)) }
{
    1 <= count && count <= MOST_ENDS
}

fn is_pair(pair: Pair) -> bool
    ensures { IsTrue result ↔ IsPair pair }
{
    is_size(pair.fill) && is_size(pair.comp)
}

/// Whether a socket of so many pairs has a ring at least, of the right size, and a pair that is there.
fn is_socket(pairs: usize, socket: Socket) -> bool
    ensures { (list : List APair) → length list ≡ pairs → (IsTrue result ↔ IsSocket list socket) }
{
    (socket.pair as usize) < pairs
        && (socket.rx.is_some() || socket.tx.is_some())
        && is_size_or_none(socket.rx)
        && is_size_or_none(socket.tx)
}

fn is_size_or_none(size: Option<u32>) -> bool
    ensures { IsTrue result ↔ IfSome size IsRingSize }
{
    match size {
        Some(size) => is_size(size),
        None => true,
    }
}

/// Whether a ring may have so many places: a power of two up to 2^20.
fn is_size(size: u32) -> bool
    ensures { IsTrue result ↔ IsRingSize size }
{
    size <= MOST && size.is_power_of_two()
}
