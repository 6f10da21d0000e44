//! What is written into the gaps of a list.
ghost use Rattle.std.specs.Prelude.{ℕ, ◌≡◌, List, length};
ghost use Rattle.xsk_umem.specs.declared.packet_list.Gaps.{Gaps};

use crate::packet_list::Gaps;

/// The headers that packets get where they stand: one before all of them, and one before each.
pub trait Headers {
    ghost sizes_of: { Self → Gaps };

    ghost first: { Self → List ℕ };

    ghost before: { Self → ℕ → ℕ → List ℕ };

    /// The bytes of the first header, and those of each packet's.
    fn sizes(&self) -> Gaps
        ensures { result ≡ sizes_of self.now };

    /// Writes the header that stands before all packets over the bytes of its gap.
    fn write_first(&self, gap: &mut [u8])
        requires { length gap.old ≡ (sizes_of self.now).first }
        ensures { gap.new ≡ first self.now };

    /// Writes the header of the packet with this number, counted from 0, and so many bytes over those of its gap.
    fn write_before(&self, number: u32, len: usize, gap: &mut [u8])
        requires { length gap.old ≡ (sizes_of self.now).before_each }
        ensures { gap.new ≡ before self.now number len };

    ghost first_sized: { (headers : Self) → length (first headers) ≡ (sizes_of headers).first };

    ghost before_sized: { (headers : Self) (number len : ℕ) → length (before headers number len) ≡ (sizes_of headers).before_each };
}

/// Zeros in place of headers.
#[derive(Clone, Copy)]
pub(crate) struct Zeros {
    pub(crate) sizes: Gaps,
}

impl Headers for Zeros {
    ghost use Rattle.std.specs.Prelude.{replicate};
    ghost use Rattle.std.proofs.lemmas.List.{length-replicate};

    ghost sizes_of = { λ zeros. zeros.sizes };

    ghost first = { λ zeros. replicate zeros.sizes.first 0 };

    ghost before = { λ zeros number len. replicate zeros.sizes.before_each 0 };

    ghost first_sized = { λ zeros. length-replicate zeros.sizes.first 0 };

    ghost before_sized = { λ zeros number len. length-replicate zeros.sizes.before_each 0 };

    fn sizes(&self) -> Gaps {
        self.sizes
    }

    fn write_first(&self, gap: &mut [u8]) {
        gap.fill(0);
    }

    fn write_before(&self, _number: u32, _len: usize, gap: &mut [u8]) {
        gap.fill(0);
    }
}
