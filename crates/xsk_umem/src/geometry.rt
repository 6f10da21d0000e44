//! The geometry of a UMEM: addresses by frame number, and what stands in a frame. Only `of_area` makes a geometry, so
//! each is one (`specs/Geometry`, the invariant).
ghost use Rattle.std.specs.Prelude.{◌≡◌, ◌/◌, None, Some, Err, Ok};
ghost use Rattle.xsk_umem.specs.Geometry.{Geometry as Numbers, IsGeometry, payload_of, base_of, data_of, frame_of};
ghost use Rattle.xsk_umem.specs.Registration.{first_refusal};

use crate::UmemError;
use std::marker::Model;

/// The bytes at the start of each chunk that belong to the packet's meta data and never hold its data.
pub const RESERVED: u32 = 256;

/// The most frames of one UMEM.
pub const MOST_FRAMES: u32 = 4096;

/// How a UMEM is cut: `frames` chunks of `chunk` bytes, whose data starts `headroom` bytes behind the reserved ones.
///
/// There are 1 to 4,096 frames, a chunk has 2,048 or 4,096 bytes, and the headroom is below the chunk less 256.
#[derive(Clone, Copy, Debug, PartialEq, Eq)]
pub struct Geometry {
    frames: u32,
    chunk: u32,
    headroom: u32,
}

impl Model for Geometry {
    ghost Value = { Numbers };

    ghost view = { λ g. record { frames = g.frames; chunk = g.chunk; headroom = g.headroom } };

    ghost invariant = { λ g. IsGeometry (record { frames = g.frames; chunk = g.chunk; headroom = g.headroom }) };

    ghost inverse = { λ g. record { frames = g.frames; chunk = g.chunk; headroom = g.headroom } };
}

impl Geometry {
    /// The geometry of an area of `len` bytes, cut into chunks. It takes no memory: [`Umem::register`](crate::Umem::register)
    /// makes the frames too, and refuses what this refuses.
    ///
    /// The first reason of [`UmemError`], in its order, decides, and want of memory is none.
    pub fn of_area(len: u64, chunk: u32, headroom: u32) -> Result<Geometry, UmemError>
        ensures refused { (e : _) → first_refusal len chunk headroom ≡ Some e → result ≡ Err e }
        ensures accepted { first_refusal len chunk headroom ≡ None → result ≡ Ok (record { frames = len / chunk; chunk = chunk; headroom = headroom }) }
    {
        if chunk != 2048 && chunk != 4096 {
            return Err(UmemError::BadChunk);
        }
        if headroom >= chunk - RESERVED {
            return Err(UmemError::BadHeadroom);
        }
        let chunk_bytes = u64::from(chunk);
        if len == 0 || len % chunk_bytes != 0 {
            return Err(UmemError::BadLength);
        }
        if len / chunk_bytes > u64::from(MOST_FRAMES) {
            return Err(UmemError::TooLarge);
        }
        Ok(Geometry {
            frames: (len / chunk_bytes) as u32,
            chunk,
            headroom,
        })
    }

    /// The number of frames, 1 to 4,096.
    pub fn frames(&self) -> u32
        ensures value { result ≡ self.now.frames }
        ensures lawful { IsGeometry self.now }
    {
        self.frames
    }

    /// The bytes of a chunk, 2,048 or 4,096.
    pub fn chunk(&self) -> u32
        ensures value { result ≡ self.now.chunk }
        ensures lawful { IsGeometry self.now }
    {
        self.chunk
    }

    /// The bytes that are kept free between the reserved ones and the data.
    pub fn headroom(&self) -> u32
        ensures value { result ≡ self.now.headroom }
        ensures lawful { IsGeometry self.now }
    {
        self.headroom
    }

    /// The bytes of a packet that one frame holds: the chunk less the headroom and the reserved bytes.
    pub fn payload(&self) -> u32
        ensures value { result ≡ payload_of self.now }
        ensures lawful { IsGeometry self.now }
    {
        self.chunk - self.headroom - RESERVED
    }

    /// The address of a frame's first byte.
    pub fn base_of(&self, frame: u32) -> u64
        ensures { result ≡ base_of self.now frame }
    {
        u64::from(frame) * u64::from(self.chunk)
    }

    /// The address of a frame's data.
    pub fn data_of(&self, frame: u32) -> u64
        ensures { result ≡ data_of self.now frame }
    {
        self.base_of(frame) + u64::from(self.headroom) + u64::from(RESERVED)
    }

    /// The frame in which an address lies (in aligned mode any address of a chunk names its frame), and `None` where
    /// it lies outside the UMEM.
    pub fn frame_of(&self, addr: u64) -> Option<u32>
        ensures { result ≡ frame_of self.now addr }
    {
        if addr < u64::from(self.frames) * u64::from(self.chunk) {
            Some((addr / u64::from(self.chunk)) as u32)
        } else {
            None
        }
    }
}
