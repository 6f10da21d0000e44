//! Which descriptors are valid, the fault of those that aren't, and the number of pieces of a packet. The checks, in
//! their order, are those of `specs/Fault`; machines and engines judge by no others.
ghost use Rattle.std.specs.Prelude.{◌≡◌, ℕ, ◌≤◌, ◌%◌, List, length, is_ok};
ghost use Rattle.std.specs.Int.{div_ceil};
ghost use Rattle.std.specs.Result.{result_err};
ghost use Rattle.xsk_umem.specs.Geometry.{IsChunkSize};
ghost use Rattle.xsk_model.specs.Descriptor.{is_valid};
ghost use Rattle.xsk_model.specs.Packets.{IsCut};
ghost use Rattle.xsk_desc.specs.Fault.{fault_of};

use thiserror::Error;
use xsk_umem::{Geometry, XDP_PKT_CONTD, XdpDesc};

/// Why a descriptor is invalid.
#[derive(Clone, Copy, Debug, PartialEq, Eq, Error)]
pub enum DescError {
    /// The address isn't below the UMEM's bytes.
    #[error("the address lies outside the UMEM")]
    OutOfUmem,
    /// The length is 0.
    #[error("the length is 0")]
    ZeroLength,
    /// The bytes from the address on don't all lie in its chunk.
    #[error("the bytes cross the end of their chunk")]
    CrossesChunk,
    /// The options are above 1, or 1 without XDP_USE_SG.
    #[error("the options are not known")]
    UnknownOptions,
}

/// Whether a descriptor is valid, where `sg` says that its socket has XDP_USE_SG. The first check that fails decides.
pub fn validate(desc: XdpDesc, geometry: &Geometry, sg: bool) -> Result<(), DescError>
    ensures fault { result_err result ≡ fault_of geometry.now sg desc }
    ensures valid { is_ok result ≡ is_valid geometry.now sg desc }
{
    let chunk = u64::from(geometry.chunk());
    if desc.addr >= u64::from(geometry.frames()) * chunk {
        return Err(DescError::OutOfUmem);
    }
    if desc.len == 0 {
        return Err(DescError::ZeroLength);
    }
    if offset_in(desc.addr, geometry.chunk()) + u64::from(desc.len) > chunk {
        return Err(DescError::CrossesChunk);
    }
    if desc.options > XDP_PKT_CONTD || desc.options == XDP_PKT_CONTD && !sg {
        return Err(DescError::UnknownOptions);
    }
    Ok(())
}

/// How far behind the first byte of its chunk an address lies. Each size of a chunk is a constant here, as a division by
/// a number that the compiler doesn't know is slow.
pub(crate) fn offset_in(addr: u64, chunk: u32) -> u64
    requires { IsChunkSize chunk }
    ensures { result ≡ addr % chunk }
{
    if chunk == 4096 {
        addr % 4096
    } else {
        addr % 2048
    }
}

/// In how many pieces a packet of `len` bytes is cut, where a frame holds `payload` bytes.
pub fn fragments(len: u32, payload: u32) -> u32
    requires some { 1 ≤ len }
    requires room { 1 ≤ payload }
    ensures value { result ≡ div_ceil len payload }
    ensures pieces { (packet : List ℕ) (pieces : List (List ℕ)) → length packet ≡ len → IsCut payload packet pieces → length pieces ≡ result }
{
    len.div_ceil(payload)
}
