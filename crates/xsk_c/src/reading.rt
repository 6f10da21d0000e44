//! What C asks a bench for: statistics, what was sent, and the journal.
ghost use Rattle.std.specs.Prelude.{◌≡◌, ◌<◌};
ghost use Rattle.xsk_c.specs.Journal.{TellsLog};
ghost use Rattle.xsk_c.specs.Reading.{TellsCount, TellsPacket, TellsStatistics, statistics_in};

use crate::answers::{DONE, NO_SUCH, SHORT};
use crate::journal::{put_lines, skip};
use crate::state::State;
use crate::texts::copy_to;
use xsk_turns::DriverCounters;

/// The classes that counters have.
const MOST_CLASSES: u32 = 4;

/// `struct xdp_statistics` of a socket.
#[repr(C)]
#[derive(Clone, Copy, Drop)]
pub struct Statistics {
    pub rx_dropped: u64,
    pub rx_invalid_descs: u64,
    pub tx_invalid_descs: u64,
    pub rx_ring_full: u64,
    pub rx_fill_ring_empty_descs: u64,
    pub tx_ring_empty_descs: u64,
}

/// The statistics of the socket of a class, from the counters of its driver.
fn statistics_of(counters: &DriverCounters, class: u32) -> Statistics
    requires { class < 4 }
    ensures { result ≡ statistics_in counters.now class }
{
    let class = class as usize;
    Statistics {
        rx_dropped: counters.rx_dropped,
        rx_invalid_descs: counters.rx_invalid_descs,
        tx_invalid_descs: counters.tx_invalid_descs[class],
        rx_ring_full: counters.rx_ring_full[class],
        rx_fill_ring_empty_descs: counters.rx_fill_ring_empty_descs,
        tx_ring_empty_descs: counters.tx_ring_empty_descs[class],
    }
}

impl State {
    /// The statistics of the socket of a class of a pair.
    pub(crate) fn statistics(&self, pair: u32, class: u32, statistics: &mut Statistics) -> u32
        ensures { TellsStatistics self.now.bench pair class statistics.old statistics.new result }
    {
        if class >= MOST_CLASSES {
            return NO_SUCH;
        }
        let Some(figures) = self.bench.figures(pair) else {
            return NO_SUCH;
        };
        *statistics = statistics_of(&figures.counters, class);
        DONE
    }

    /// How many packets the driver of a pair sent.
    pub(crate) fn sent(&self, pair: u32, count: &mut u32) -> u32
        ensures { TellsCount self.now.bench pair count.old count.new result }
    {
        let Some(list) = self.bench.sent(pair) else {
            return NO_SUCH;
        };
        *count = list.len();
        DONE
    }

    /// One of the packets that the driver of a pair sent.
    pub(crate) fn packet(&self, pair: u32, number: u32, out: &mut [u8], len: &mut u64) -> u32
        ensures { TellsPacket self.now.bench pair number out.old out.new len.old len.new result }
    {
        let Some(list) = self.bench.sent(pair) else {
            return NO_SUCH;
        };
        if number >= list.len() {
            return NO_SUCH;
        }
        copy_to(list.get(number), out, len)
    }

    /// The journal's lines from a call on, as many as there is room for; it is told with which call to go on, and where the lines end.
    pub(crate) fn journal(&self, from: u32, out: &mut [u8], next: &mut u32, end: &mut u64) -> u32
        ensures { TellsLog self.now.bench from out.old out.new next.new end.new result }
    {
        let calls = self.bench.log().len();
        let first = from.min(calls);
        let mut lines = self.bench.lines();
        skip(&mut lines, first);
        let mut count = 0;
        let answer = put_lines(&mut lines, calls - first, out, &mut count, end);
        *next = first + count;
        answer
    }
}
