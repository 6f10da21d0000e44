//! How the driver's machine gives back the room to send that can't be wanted: of its own packets only those leave by its port that are
//! to bounce, and once the chain was asked these are known.
ghost use Rattle.std.specs.Prelude.{ℕ, ◌≡◌, ◌+◌, ◌<◌, ◌≤◌, ◌∷◌, [], MatchOption, length};
ghost use Rattle.std.specs.List.{concat};

use crate::machine::{LEAST_BYTES, Machine};
use std::alloc::Global;
use xsk_prog::Verdict;

/// The machine's room to send.
impl<'a> Machine<'a> {
    ghost use Rattle.xsk_turns.specs.SentWith.{bouncing};
    ghost use Rattle.xsk_driver.specs.SentRoom.{Sends};
    ghost use Rattle.xsk_driver.specs.Outbox.{sent_in};
    ghost use Rattle.xsk_driver.specs.Stands.{kept_in, noted_in, seat_in};
    ghost use Rattle.xsk_driver.specs.Bouncing.{bouncing_from};

    /// Lowers the room to send to that for so many packets and bytes, and beside them for those of its own packets that are to bounce.
    pub(crate) fn fit(&mut self, alloc: Global, packets: u32, bytes: u32)
        requires unsent { Sends (sent_in self.old) [] }
        requires packets { packets + length (bouncing (kept_in self.old).coming) ≤ self.old.outbox.most_packets }
        requires bytes { bytes + length (concat (bouncing (kept_in self.old).coming)) ≤ self.old.outbox.most_bytes }
        ensures packets { self.new.outbox.most_packets ≡ packets + length (bouncing (kept_in self.old).coming) }
        ensures bytes { self.new.outbox.most_bytes ≡ bytes + length (concat (bouncing (kept_in self.old).coming)) }
        ensures unsent { Sends (sent_in self.new) [] }
        ensures seat { seat_in self.new ≡ seat_in self.old }
        ensures wait { self.new.wait ≡ self.old.wait }
        ensures noted { noted_in self.new ≡ noted_in self.old }
        ensures kept { kept_in self.new ≡ kept_in self.old }
    {
        let (bounced_packets, bounced_bytes) = self.count_bouncing();
        self.outbox
            .fit(alloc, packets + bounced_packets, bytes + bounced_bytes);
    }

    /// How many of the packets that come are to bounce, and how many bytes these have.
    fn count_bouncing(&self) -> (u32, u32)
        requires packets { length (bouncing (kept_in self.now).coming) < 4294967296 }
        requires bytes { length (concat (bouncing (kept_in self.now).coming)) < 4294967296 }
        ensures packets { result.0 ≡ length (bouncing (kept_in self.now).coming) }
        ensures bytes { result.1 ≡ length (concat (bouncing (kept_in self.now).coming)) }
    {
        let mut packets = 0;
        let mut bytes = 0;
        for place in self.disposals.len()..self.numbers.len() {
            if let Some(packet) = self.bouncing_at(place) {
                packets += 1;
                bytes += packet.len() as u32;
            }
        }
        (packets, bytes)
    }

    /// The packet at this place among its own, where it is to bounce.
    fn bouncing_at(&self, place: usize) -> Option<&'a [u8]>
        requires within { place < length self.now.numbers.now }
        ensures { MatchOption result (bouncing_from self.now place ≡ bouncing_from self.now (place + 1)) (λ packet. bouncing_from self.now place ≡ packet.now ∷ bouncing_from self.now (place + 1)) }
    {
        match self.verdicts[place] {
            Verdict::Bounce => {
                let packet = self.packets.get(self.numbers[place]);
                if packet.len() < LEAST_BYTES {
                    return None;
                }
                Some(packet)
            }
            _ => None,
        }
    }
}
