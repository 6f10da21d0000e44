//! How many calls of a kind have failed, by stream.
ghost use Rattle.std.specs.Prelude.{◌≡◌, ◌≢◌, ℕ, ◌+◌, ◌-◌, ◌^◌, ◌<◌, ◌≤◌, min, length, OnOk, OnErr, slice_index, slice_set};
ghost use Rattle.xsk_io.specs.Bay.{HasNumber, SameBut};
ghost use Rattle.xsk_io.specs.Files.{no_counts, count_of};
ghost use Rattle.xsk_io.specs.Failing.{one_more, risen};

use crate::{BayFailed, Stream};
use std::marker::Model;

/// The faults of one kind of call, by stream.
#[derive(Drop)]
pub(crate) struct Counts {
    inputs: [u64; 4],
    outputs: [u64; 4],
    report: u64,
}

impl Model for Counts {
    ghost use Rattle.xsk_io.specs.Files.{StreamCounts};

    ghost Value = { StreamCounts };

    ghost view = { λ c. record { inputs = c.inputs; outputs = c.outputs; report = c.report } };
}

impl Counts {
    pub(crate) fn new() -> Counts
        ensures { result ≡ no_counts }
    {
        Counts {
            inputs: [0; 4],
            outputs: [0; 4],
            report: 0,
        }
    }

    /// Counts the call if it failed. A count at its last value stays there.
    pub(crate) fn note<T>(
        &mut self,
        stream: Stream,
        outcome: Result<T, BayFailed>,
    ) -> Result<T, BayFailed>
        requires { HasNumber stream }
        ensures outcome { result ≡ outcome }
        ensures ok { OnOk result (self.new ≡ self.old) }
        ensures err { OnErr result (self.new ≡ risen self.old stream) }
        ensures risen { OnErr result
            (count_of self.new stream ≡ min (count_of self.old stream + 1) (2 ^ 64 - 1)) }
        ensures never_falls { count_of self.old stream ≤ count_of self.new stream }
        ensures others { SameBut stream (count_of self.old) (count_of self.new) }
    {
        if outcome.is_err() {
            self.raise(stream);
        }
        outcome
    }

    pub(crate) fn raise(&mut self, stream: Stream)
        requires { HasNumber stream }
        ensures after { self.new ≡ risen self.old stream }
        ensures risen { count_of self.new stream ≡ min (count_of self.old stream + 1) (2 ^ 64 - 1) }
        ensures never_falls { count_of self.old stream ≤ count_of self.new stream }
        ensures others { SameBut stream (count_of self.old) (count_of self.new) }
    {
        match stream {
            Stream::Input(number) => raise_at(&mut self.inputs, number as usize),
            Stream::Output(number) => raise_at(&mut self.outputs, number as usize),
            Stream::Report => self.report = self.report.saturating_add(1),
        }
    }
}

fn raise_at(counts: &mut [u64], place: usize)
    requires { place < length counts.old }
    ensures risen { slice_index counts.new place ≡ min (slice_index counts.old place + 1) (2 ^ 64 - 1) }
    ensures never_falls { slice_index counts.old place ≤ slice_index counts.new place }
    ensures others { (other : ℕ) → other ≢ place
        → slice_index counts.new other ≡ slice_index counts.old other }
    ensures after { counts.new ≡ slice_set counts.old place (one_more (slice_index counts.old place)) }
{
    counts[place] = counts[place].saturating_add(1);
}
