//! What a run comes to, on whatever engine.
ghost use Rattle.std.specs.Prelude.{◌≡◌, ◌↔◌, ◌<◌, [], ◌++◌, All, IfSome, IsSome, length, map};
ghost use Rattle.std.specs.Borrow.{sem};
ghost use Rattle.std.specs.Io.BufRead.{Rests};
ghost use Rattle.std.specs.List.{slice_index_or};
ghost use Rattle.xsk_umem.specs.Span.{laid_from};
ghost use Rattle.xsk_driver.specs.SentRoom.{IsShort, sent_gaps};
ghost use Rattle.xsk_machine.specs.Acts.{HasSentGaps, HasShortPackets, packets_in};
ghost use Rattle.xsk_machine.specs.contracts.sent.Sent.{the_row};

use crate::Figures;
use std::marker::Model;
use xsk_umem::{Headers, PacketList};

/// What each driver of a run sent, and the run's figures.
#[derive(Drop)]
pub struct Sent {
    lists: Vec<PacketList>,
    figures: Figures,
}

impl Model for Sent {
    ghost use Rattle.std.specs.Prelude.{All, map};
    ghost use Rattle.xsk_machine.specs.Acts.{HasSentGaps, HasShortPackets, packets_in};
    ghost use Rattle.xsk_machine.specs.Sent.{SentShown};

    ghost Value = { SentShown };

    ghost view = { λ s. record { lists = map packets_in s.lists.items; figures = s.figures } };

    ghost invariant = { λ s. All HasShortPackets s.lists.items × All HasSentGaps s.lists.items };
}

impl Sent {
    /// These lists, one for each pair, and these figures.
    pub(crate) fn new(lists: Vec<PacketList>, figures: Figures) -> Sent
        requires short { All HasShortPackets lists.items }
        requires gaps { All HasSentGaps lists.items }
        ensures { result ≡ record { lists = map packets_in lists.items; figures = figures } }
    {
        Sent { lists, figures }
    }

    /// The number of pairs.
    pub fn pairs(&self) -> usize
        ensures { result ≡ length self.now.lists }
    {
        self.lists.len()
    }

    /// The packets that the driver of a pair sent, in order. The pair must exist.
    pub fn sent(&self, pair: u32) -> &PacketList
        requires { pair < length self.now.lists }
        ensures short { All IsShort result.now.packets }
        ensures sent { result.now.packets ≡ slice_index_or self.now.lists pair [] }
    {
        &self.lists[pair as usize]
    }

    /// What the run comes to in numbers.
    pub fn figures(&self) -> &Figures
        ensures { result.now ≡ self.now.figures }
    {
        &self.figures
    }

    /// What the drivers sent, by their pairs.
    pub fn lists(&self) -> &[PacketList]
        ensures short { All HasShortPackets result.now }
        ensures gaps { All HasSentGaps result.now }
        ensures lists { map packets_in result.now ≡ self.now.lists }
    {
        self.lists.as_slice()
    }

    /// The packets that the driver of a pair sent as they stand in their list, with the headers written into its gaps, exactly where
    /// these have the sizes of the gaps: those of a capture. The pair must exist. It copies no packet and takes no memory, and all
    /// that was sent stays as it was.
    pub fn lay<H: Headers>(&mut self, pair: u32, headers: &H) -> Option<&[u8]>
        requires { pair < length self.old.lists }
        ensures* same { sem 𝓛 (Rests the_row self.entry (λ sent. sent ≡ self.old)) }
        ensures gaps { IsSome result ↔ (H.sizes_of headers.now ≡ sent_gaps) }
        ensures text { IfSome result (λ text. text.now ≡ H.first headers.now ++ laid_from (H.before headers.now) 0 (slice_index_or self.old.lists pair [])) }
    {
        self.lists[pair as usize].lay(headers)
    }

    /// What the drivers sent, by their pairs.
    pub fn into_lists(self) -> Vec<PacketList>
        ensures short { All HasShortPackets result.items }
        ensures gaps { All HasSentGaps result.items }
        ensures lists { map packets_in result.items ≡ self.lists }
    {
        let Sent { lists, .. } = self;
        lists
    }
}
