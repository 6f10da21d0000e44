//! What a run leaves that is written.
ghost use Rattle.std.specs.Prelude.{◌≡◌, ℕ, ◌<◌, ◌∷◌, [], List, IfSome, IsSome, length, map};
ghost use Rattle.std.specs.Borrow.{sem};
ghost use Rattle.std.specs.Io.BufRead.{Rests};
ghost use Rattle.std.specs.List.{slice_index_or};
ghost use Rattle.xsk_pcap.specs.Written.{IsWritable};
ghost use Rattle.xsk_cli.specs.Outcome.{capture_of};

use xsk_machine::Sent;
use xsk_pcap::CaptureHeaders;

/// What a run leaves: for each pair a list of what its driver sent, which stays while its capture is written.
pub(crate) trait Leaves {
    // What the drivers sent, by their pairs.
    ghost sent: { Self → List (List (List ℕ)) };

    /// The capture of what the driver of a pair sent, where its list stands. There is one where there is such a pair. It takes no memory.
    fn lay(&mut self, pair: u32) -> Option<&[u8]>
        requires writable { IsWritable (slice_index_or (sent self.old) pair [] ∷ []) }
        ensures* same { sem 𝓛 (Rests Self.row self.entry (λ left. left ≡ self.old)) }
        ensures laid { pair < length (sent self.old) → IsSome result }
        ensures text { IfSome result (λ text. text.now ≡ capture_of (slice_index_or (sent self.old) pair [])) };
}

impl Leaves for Sent {
    ghost sent = { λ s. s.lists };

    fn lay(&mut self, pair: u32) -> Option<&[u8]> {
        if pair as usize >= self.pairs() {
            return None;
        }
        Sent::lay(self, pair, &CaptureHeaders)
    }
}

/// What a command leaves that makes no run.
#[derive(Drop)]
pub(crate) struct Nothing;

impl Leaves for Nothing {
    ghost use Rattle.std.specs.Prelude.{[]};

    ghost sent = { λ _. [] };

    fn lay(&mut self, _pair: u32) -> Option<&[u8]> {
        None
    }
}
