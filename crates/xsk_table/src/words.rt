//! Counts that wrap, and descriptors in words.
ghost use Rattle.std.specs.Prelude.{◌≡◌, ◌≤◌};
ghost use Rattle.xsk_table.specs.Words.{used_of, second_word, unpacked};

use xsk_umem::XdpDesc;

/// The entries between a consumer's count and a producer's, which are counted modulo 2^32.
pub fn used(producer: u32, consumer: u32) -> u32
    ensures { result ≡ used_of producer consumer }
{
    producer.wrapping_sub(consumer)
}

/// A descriptor in two words: its address, and `len + options * 2^32`.
pub fn pack(desc: XdpDesc) -> (u64, u64)
    ensures { result ≡ (desc.addr, second_word desc) }
{
    (desc.addr, desc.len as u64 + ((desc.options as u64) << 32))
}

/// The descriptor of two words.
pub fn unpack(first: u64, second: u64) -> XdpDesc
    ensures { result ≡ unpacked first second }
{
    XdpDesc {
        addr: first,
        len: (second % (1 << 32)) as u32,
        options: (second >> 32) as u32,
    }
}
