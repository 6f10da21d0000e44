//! A capture as the text of a list.
ghost use Rattle.std.specs.Prelude.{◌≡◌, ◌∷◌, [], Some, IfSome, IsSome, ◌↔◌};
ghost use Rattle.std.specs.Borrow.{sem};
ghost use Rattle.std.specs.Io.BufRead.{Rests};
ghost use Rattle.xsk_umem.specs.contracts.packet_list.PacketList.{the_row};
ghost use Rattle.xsk_pcap.specs.Laid.{capture_gaps};
ghost use Rattle.xsk_pcap.specs.Written.{written, IsWritable};

use crate::capture::{GAPS, WRITTEN_HEADER, record_header};
use xsk_umem::{Gaps, Headers, PacketList};

/// The file header, and the headers of the records.
pub struct CaptureHeaders;

impl Headers for CaptureHeaders {
    ghost use Rattle.std.specs.Prelude.{min, refl};
    ghost use Rattle.xsk_pcap.specs.declared.endianness.Endianness.TheVariants.{Little};
    ghost use Rattle.xsk_pcap.specs.Capture.{header_bytes};
    ghost use Rattle.xsk_pcap.specs.Laid.{capture_gaps};
    ghost use Rattle.xsk_pcap.specs.Written.{header_of, written_header};

    ghost sizes_of = { λ _. capture_gaps };

    ghost first = { λ _. header_bytes Little written_header };

    ghost before = { λ _ number len. header_of number (min len 4294967295) };

    ghost first_sized = { λ _. refl };

    ghost before_sized = { λ _ number len. refl };

    fn sizes(&self) -> Gaps {
        GAPS
    }

    fn write_first(&self, gap: &mut [u8]) {
        gap.copy_from_slice(&WRITTEN_HEADER);
    }

    fn write_before(&self, number: u32, len: usize, gap: &mut [u8]) {
        let len = u32::try_from(len).unwrap_or(u32::MAX);
        gap.copy_from_slice(&record_header(number, len));
    }
}

/// The capture of a list within the limits of [`Capture::add`](crate::Capture::add), written in the list's own text, exactly
/// where it has the [`GAPS`] for the headers. It copies no packet and takes no memory, and the list stays as it was.
pub fn lay(list: &mut PacketList) -> Option<&[u8]>
    requires { IsWritable (list.old.packets ∷ []) }
    ensures* same { sem 𝓛 (Rests the_row list.entry (λ new. new ≡ list.old)) }
    ensures gaps { IsSome result ↔ (list.old.gaps ≡ Some capture_gaps) }
    ensures text { IfSome result (λ text. text.now ≡ written (list.old.packets ∷ [])) }
{
    list.lay(&CaptureHeaders)
}
