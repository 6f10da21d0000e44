//! Lines, as they are told: how many, the first and the last.
ghost use Rattle.std.specs.Prelude.{◌≡◌, List};
ghost use Rattle.xsk_judge.specs.Stands.{Line, IsReady, StandsFor};
ghost use Rattle.xsk_hints.specs.Facts.{since_at};
ghost use Rattle.xsk_hints.specs.Tallies.{no_tally, tally_of, with_line, with_known};
ghost use Rattle.xsk_hints.specs.Wakes.{tally_behind as behind_of, with_behind};

use xsk_judge::{Judge, Known, Spot};
use xsk_model::Ring;
use xsk_side::Setting;

/// How many lines, the first and the last; 0 where there is none. A count of 2^64 - 1 stands for more, too.
#[derive(Clone, Copy, Debug, PartialEq, Eq)]
pub(crate) struct Tally {
    pub(crate) count: u64,
    pub(crate) first: u64,
    pub(crate) last: u64,
}

impl Tally {
    /// No line.
    pub(crate) fn none() -> Tally
        ensures { result ≡ no_tally }
    {
        Tally {
            count: 0,
            first: 0,
            last: 0,
        }
    }

    /// One line more.
    pub(crate) fn with(self, line: u64) -> Tally
        ensures { result ≡ with_line line self }
    {
        let more = self.count < u64::MAX;
        Tally {
            count: if more { self.count + 1 } else { self.count },
            first: if self.count == 0 {
                line
            } else {
                self.first.min(line)
            },
            last: self.last.max(line),
        }
    }
}

/// Since when the frames in a place are there: a line for each.
pub(crate) fn tally_at(setting: &Setting, judge: &Judge, spot: Spot) -> Tally
    requires { IsReady setting.now judge.now }
    ensures { (lines : List Line) → StandsFor setting.now judge.now lines → result ≡ tally_of (since_at setting.now lines spot setting.now.geometry.frames) }
{
    let mut tally = Tally::none();
    for frame in 0..setting.frames() {
        tally = with_frame(tally, judge.known(setting, frame), spot);
    }
    tally
}

fn with_frame(tally: Tally, known: Known, spot: Spot) -> Tally
    ensures { result ≡ with_known spot known tally }
{
    if known.place.spot().is(spot) {
        tally.with(known.since)
    } else {
        tally
    }
}

/// Since when the frames on a ring are there that came behind this line: a line for each.
pub(crate) fn tally_behind(setting: &Setting, judge: &Judge, ring: Ring, line: u64) -> Tally
    requires { IsReady setting.now judge.now }
    ensures { (lines : List Line) → StandsFor setting.now judge.now lines → result ≡ behind_of setting.now lines ring line }
{
    let mut tally = Tally::none();
    for frame in 0..setting.frames() {
        tally = with_behind_line(tally, judge.known(setting, frame), Spot::On(ring), line);
    }
    tally
}

fn with_behind_line(tally: Tally, known: Known, spot: Spot, line: u64) -> Tally
    ensures { result ≡ with_behind spot line known tally }
{
    if known.place.spot().is(spot) && known.since > line {
        tally.with(known.since)
    } else {
        tally
    }
}
