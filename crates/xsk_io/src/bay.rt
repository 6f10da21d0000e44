//! What a bay promises of its streams.
ghost use Rattle.std.specs.Prelude.{◌≡◌, ◌≢◌, ℕ, ◌<◌, ◌≤◌, Bool, false, true, List, [], ◌∷◌, Option, is_ok, length, take, IfOk, IfSome, OnErr, OnOk};
ghost use Rattle.std.specs.Io.KnownBytes.{prepend_known, IsAtEnd};
ghost use Rattle.xsk_io.specs.declared.bay.Stream.{Stream};
ghost use Rattle.xsk_io.specs.declared.bay.Kind.{Kind};
ghost use Rattle.xsk_io.specs.declared.bay.Offer.{Offer as AnOffer};
ghost use Rattle.xsk_io.specs.Bay.{HasNumber, IsInput, TakesWrites, Same, SameBut, Grows, Adds, AddsNoneBut, Moment, offer_of, Rose, CountsOnly};

use std::error::Error;
use std::fmt;

/// One stream of a run. Inputs and outputs are numbered from 0 to 3.
#[derive(Clone, Copy, Debug, PartialEq, Eq)]
pub enum Stream {
    Input(u32),
    Output(u32),
    Report,
}

/// The kinds of calls, each of which has its own counts of faults.
#[derive(Clone, Copy)]
pub enum Kind {
    Open,
    Read,
    Write,
}

/// A write that was made: how many bytes it offered to a stream, and how many of them were taken, which are none where it
/// failed.
#[derive(Clone, Copy)]
pub struct Offer {
    pub stream: Stream,
    pub len: usize,
    pub taken: usize,
}

/// A call failed, and a count of faults rose.
#[derive(Clone, Copy, Debug, PartialEq, Eq)]
pub struct BayFailed;

impl fmt::Display for BayFailed {
    fn fmt<W: fmt::Write>(&self, f: &mut fmt::Formatter<W>) -> fmt::Result {
        f.write_str("the bay failed")
    }
}

impl Error for BayFailed {}

/// Streams that are opened once and never closed.
///
/// A bay tells what it knows of its streams' names, bytes and writes: files tell nothing, memory tells what it
/// keeps. What a bay tells is true.
pub trait Bay {
    // What the bay tells of its streams.
    ghost moment: { Self → Moment };

    /// Opens an input or an output by a name. An output is then empty; of an input nothing is read yet.
    fn open(&mut self, stream: Stream, name: &str) -> Result<(), BayFailed>
        requires numbered { HasNumber stream }
        requires not_report { stream ≢ Stream.Report }
        requires closed { (moment self.old).is_open stream ≡ false }
        ensures opened { (moment self.new).is_open stream ≡ is_ok result }
        ensures opened_others { SameBut stream (moment self.old).is_open (moment self.new).is_open }

        // The name is that of this call, whether or not it succeeded.
        ensures name { IfSome ((moment self.new).asked stream) (λ word. word ≡ name.now) }
        ensures other_names { SameBut stream (moment self.old).asked (moment self.new).asked }

        ensures emptied { OnOk result (IfSome ((moment self.new).held stream) (λ bytes. bytes ≡ [])) }
        ensures failed { OnErr result ((moment self.new).held stream ≡ (moment self.old).held stream) }
        ensures held_others { SameBut stream (moment self.old).held (moment self.new).held }
        ensures left { Same (moment self.old).left (moment self.new).left }
        ensures offers { Same (moment self.old).offers (moment self.new).offers }

        ensures cause { OnErr result
            (Rose ((moment self.old).faults Kind.Open stream) ((moment self.new).faults Kind.Open stream)) }
        ensures no_fault { OnOk result
            ((moment self.new).faults Kind.Open stream ≡ (moment self.old).faults Kind.Open stream) }
        ensures never_falls { (moment self.old).faults Kind.Open stream ≤ (moment self.new).faults Kind.Open stream }
        ensures counts { CountsOnly Kind.Open stream (moment self.old).faults (moment self.new).faults };

    /// Fills the front of `buf` with the next bytes of an open input, and gives their number.
    fn read(&mut self, stream: Stream, buf: &mut [u8]) -> Result<usize, BayFailed>
        requires numbered { HasNumber stream }
        requires input { IsInput stream }
        requires opened { (moment self.old).is_open stream ≡ true }
        ensures bound { IfOk result (λ count. count ≤ length buf.new) }
        ensures bytes { IfOk result
            (λ count. (moment self.old).left stream ≡ prepend_known (take count buf.new) ((moment self.new).left stream)) }

        // None come only at the end of the input, or where there is no room for any.
        ensures end { IfOk result
            (λ count. count ≡ 0 → 0 < length buf.new → IsAtEnd ((moment self.old).left stream)) }
        ensures failed { OnErr result ((moment self.new).left stream ≡ (moment self.old).left stream) }
        ensures left_others { SameBut stream (moment self.old).left (moment self.new).left }

        ensures opened { Same (moment self.old).is_open (moment self.new).is_open }
        ensures names { Same (moment self.old).asked (moment self.new).asked }
        ensures held { Same (moment self.old).held (moment self.new).held }
        ensures offers { Same (moment self.old).offers (moment self.new).offers }

        ensures cause { OnErr result
            (Rose ((moment self.old).faults Kind.Read stream) ((moment self.new).faults Kind.Read stream)) }
        ensures no_fault { OnOk result
            ((moment self.new).faults Kind.Read stream ≡ (moment self.old).faults Kind.Read stream) }
        ensures never_falls { (moment self.old).faults Kind.Read stream ≤ (moment self.new).faults Kind.Read stream }
        ensures counts { CountsOnly Kind.Read stream (moment self.old).faults (moment self.new).faults };

    /// Appends the front of `piece` to an open output or to the report, and gives the number of bytes that
    /// it took.
    fn write(&mut self, stream: Stream, piece: &[u8]) -> Result<usize, BayFailed>
        requires numbered { HasNumber stream }
        requires writable { TakesWrites stream ((moment self.old).is_open stream) }
        ensures bound { IfOk result (λ count. count ≤ length piece.now) }
        ensures some { IfOk result (λ count. 0 < length piece.now → 0 < count) }
        ensures bytes { IfOk result
            (λ count. Grows ((moment self.old).held stream) ((moment self.new).held stream) (take count piece.now)) }
        ensures failed { OnErr result ((moment self.new).held stream ≡ (moment self.old).held stream) }
        ensures held_others { SameBut stream (moment self.old).held (moment self.new).held }

        // The call is noted, whether or not it succeeded.
        ensures offered { Adds ((moment self.old).offers stream) ((moment self.new).offers stream) (offer_of stream (length piece.now) result ∷ []) }
        ensures other_offers { AddsNoneBut stream (moment self.old).offers (moment self.new).offers }

        ensures opened { Same (moment self.old).is_open (moment self.new).is_open }
        ensures names { Same (moment self.old).asked (moment self.new).asked }
        ensures left { Same (moment self.old).left (moment self.new).left }

        ensures cause { OnErr result
            (Rose ((moment self.old).faults Kind.Write stream) ((moment self.new).faults Kind.Write stream)) }
        ensures no_fault { OnOk result
            ((moment self.new).faults Kind.Write stream ≡ (moment self.old).faults Kind.Write stream) }
        ensures never_falls { (moment self.old).faults Kind.Write stream ≤ (moment self.new).faults Kind.Write stream }
        ensures counts { CountsOnly Kind.Write stream (moment self.old).faults (moment self.new).faults };
}
