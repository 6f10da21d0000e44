//! The bay in memory of which stated calls fail.
ghost use Rattle.std.specs.Prelude.{◌≡◌, ◌≢◌, ℕ, ◌<◌, ◌≤◌, Some, [], map, min, not, is_ok, filter, length, take, IfOk, IfErr, IfSome, OnErr, OnOk};
ghost use Rattle.std.specs.Option.{option_map};
ghost use Rattle.std.specs.List.{list_any};
ghost use Rattle.xsk_io.specs.declared.bay.Stream.{Stream};
ghost use Rattle.xsk_io.specs.declared.bay.Kind.{Kind};
ghost use Rattle.xsk_io.specs.Bay.{HasNumber, IsInput, TakesWrites, SameBut, Rose, CountsOnly, offer_of};
ghost use Rattle.xsk_io.specs.Memory.{HasStreams, left_of, held_of, after_read, after_write};
ghost use Rattle.xsk_io.specs.Files.{count_of};
ghost use Rattle.xsk_io.specs.Failing.{FailingState, Calls as CallsSo, no_calls, new_failing, faults_of, is_fail, is_next_failing, one_more, counted, begun, opened, taken_of, noted, failing_moment};

use crate::counts::Counts;
use crate::memory::Memory;
use crate::{Bay, BayFailed, Kind, Offer, Stream};
use std::alloc::{AllocError, Global};
use std::marker::Model;

/// A call that is to fail: the kind, and the number among the calls of that kind on all streams, counted from 1.
#[derive(Clone, Copy)]
pub enum Fail {
    Open(u32),
    Read(u32),
    Write(u32),
}

impl Fail {
    fn is_it(&self, kind: Kind, number: u64) -> bool
        ensures { result ≡ is_fail kind number self.now }
    {
        match (kind, *self) {
            (Kind::Open, Fail::Open(n)) => u64::from(n) == number,
            (Kind::Read, Fail::Read(n)) => u64::from(n) == number,
            (Kind::Write, Fail::Write(n)) => u64::from(n) == number,
            _ => false,
        }
    }
}

/// The calls of one kind. A number that stands at 2^64 - 1 stays there.
#[derive(Drop)]
struct Calls {
    made: u64,
    faults: Counts,
}

impl Model for Calls {
    ghost use Rattle.xsk_io.specs.Failing.{Calls as CallsSo};

    ghost Value = { CallsSo };

    ghost view = { λ c. record { made = c.made; faults = c.faults } };
}

impl Calls {
    fn new() -> Calls
        ensures { result ≡ no_calls }
    {
        Calls {
            made: 0,
            faults: Counts::new(),
        }
    }

    /// The number of the next call.
    fn next(&self) -> u64
        ensures { result ≡ one_more self.now.made }
    {
        self.made.saturating_add(1)
    }

    /// Counts a call on a stream, which fails or not.
    fn count(&mut self, stream: Stream, failed: bool) -> Result<(), BayFailed>
        requires { HasNumber stream }
        ensures outcome { is_ok result ≡ not failed }
        ensures after { self.new ≡ counted self.old stream failed }
        ensures rose { OnErr result (Rose (count_of self.old.faults stream) (count_of self.new.faults stream)) }
        ensures never_falls { count_of self.old.faults stream ≤ count_of self.new.faults stream }
        ensures others { SameBut stream (count_of self.old.faults) (count_of self.new.faults) }
    {
        self.made = self.next();
        if failed {
            self.faults.raise(stream);
            return Err(BayFailed);
        }
        Ok(())
    }
}

/// How many writes are told.
const MOST_OFFERS: usize = 1_024;

/// The writes to all streams, told until there are too many.
#[derive(Drop)]
struct Offers {
    offers: Vec<Offer>,
    is_told: bool,
}

impl Model for Offers {
    ghost use Rattle.std.specs.Prelude.{◌≤◌, List, Option, Some, None, if◌then◌else◌, vec_len, vec_capacity};
    ghost use Rattle.xsk_io.specs.declared.bay.Offer.{Offer as AnOffer};

    ghost Value = { Option (List AnOffer) };

    ghost view = { λ o. if o.is_told then Some o.offers.items else None };

    ghost invariant = { λ o. (vec_len o.offers ≤ 1024) × (1024 ≤ vec_capacity o.offers) };
}

impl Offers {
    fn new(alloc: Global) -> Result<Offers, AllocError>
        ensures { IfOk result (λ offers. offers ≡ Some []) }
    {
        Ok(Offers {
            offers: Vec::with_capacity(alloc, MOST_OFFERS)?,
            is_told: true,
        })
    }

    fn note(&mut self, offer: Offer)
        ensures { self.new ≡ noted self.old offer }
    {
        if self.is_told {
            if self.offers.len() < MOST_OFFERS {
                self.offers.push_reserved(offer);
            } else {
                self.is_told = false;
            }
        }
    }

    fn told(&self) -> Option<&[Offer]>
        ensures { option_map (λ offers. offers.now) result ≡ self.now }
    {
        if self.is_told {
            Some(self.offers.as_slice())
        } else {
            None
        }
    }
}

/// A bay in memory of which stated calls fail: given inputs, and outputs and a report with a room of their own.
///
/// It tells everything but a name of more than 256 bytes, an output or a report to which a write
/// beyond its room came, and its writes where there were more than 1,024.
#[derive(Drop)]
pub struct MemoryBay {
    memory: Memory,
    fails: Vec<Fail>,
    opens: Calls,
    reads: Calls,
    writes: Calls,
    most: Option<u32>,
    offers: Offers,
}

impl Model for MemoryBay {
    ghost use Rattle.std.specs.Prelude.{◌≤◌, IfSome};
    ghost use Rattle.xsk_io.specs.Failing.{FailingState};

    ghost Value = { FailingState };

    ghost view = { λ bay. record {
      memory = bay.memory;
      fails = bay.fails.items;
      opens = bay.opens;
      reads = bay.reads;
      writes = bay.writes;
      most = bay.most;
      offers = bay.offers;
    } };

    ghost invariant = { λ bay. IfSome bay.most (λ n. 1 ≤ n) };
}

impl MemoryBay {
    /// A bay with these inputs, no stream open, and `room` bytes taken for each output and for the report, of which
    /// the calls in `fails` fail. Where there is no memory for that, and only there, the inputs come back.
    pub fn new(
        alloc: Global,
        inputs: Vec<Vec<u8>>,
        room: u32,
        fails: Vec<Fail>,
    ) -> Result<MemoryBay, Vec<Vec<u8>>>
        ensures made { IfOk result (λ bay.
            bay ≡ new_failing (map (λ bytes. bytes.items) inputs.items) room fails.items) }
        ensures back { IfErr result (λ back. back.items ≡ inputs.items) }
    {
        let Ok(offers) = Offers::new(alloc) else {
            return Err(inputs);
        };
        Ok(MemoryBay {
            memory: Memory::new(alloc, inputs, room as usize)?,
            fails,
            opens: Calls::new(),
            reads: Calls::new(),
            writes: Calls::new(),
            most: None,
            offers,
        })
    }

    /// From now on a write takes at most so many bytes.
    pub fn take_at_most(&mut self, n: u32)
        requires { 1 ≤ n }
        ensures { self.new ≡ record self.old { most = Some n } }
    {
        self.most = Some(n);
    }

    /// What an output or the report holds. None for an input, and where a write has passed the room.
    pub fn output(&self, stream: Stream) -> Option<&[u8]>
        ensures { option_map (λ bytes. bytes.now) result ≡ held_of self.now.memory stream }
    {
        self.memory.told(stream)
    }

    /// The writes that were made to all streams, in order. None where there were more than 1,024.
    pub fn offers(&self) -> Option<&[Offer]>
        ensures { option_map (λ offers. offers.now) result ≡ self.now.offers }
    {
        self.offers.told()
    }

    /// Whether the call of a kind with this number is to fail.
    fn is_to_fail(&self, kind: Kind, number: u64) -> bool
        ensures { result ≡ list_any (is_fail kind number) self.now.fails }
    {
        self.fails.iter().any(|fail| fail.is_it(kind, number))
    }

    /// Counts the next call of a kind, on a stream, and tells whether it fails.
    fn begin(&mut self, kind: Kind, stream: Stream) -> Result<(), BayFailed>
        requires { HasNumber stream }
        ensures outcome { is_ok result ≡ not (is_next_failing self.old kind) }
        ensures after { self.new ≡ begun self.old kind stream }
        ensures rose { OnErr result (Rose (faults_of self.old kind stream) (faults_of self.new kind stream)) }
        ensures never_falls { faults_of self.old kind stream ≤ faults_of self.new kind stream }
        ensures counts { CountsOnly kind stream (faults_of self.old) (faults_of self.new) }
    {
        match kind {
            Kind::Open => {
                let failed = self.is_to_fail(kind, self.opens.next());
                self.opens.count(stream, failed)
            }
            Kind::Read => {
                let failed = self.is_to_fail(kind, self.reads.next());
                self.reads.count(stream, failed)
            }
            Kind::Write => {
                let failed = self.is_to_fail(kind, self.writes.next());
                self.writes.count(stream, failed)
            }
        }
    }
}

// Each call says exactly what it gives and leaves, and the trait's clauses follow.
impl Bay for MemoryBay {
    ghost moment = { failing_moment };

    fn open(&mut self, stream: Stream, name: &str) -> Result<(), BayFailed>
        requires numbered { HasNumber stream }
        requires not_report { stream ≢ Stream.Report }
        ensures outcome { is_ok result ≡ not (is_next_failing self.old Kind.Open) }
        ensures streams { HasStreams self.old.memory }
        ensures after { self.new ≡ opened self.old stream name.now }
        ensures rose { OnErr result (Rose (faults_of self.old Kind.Open stream) (faults_of self.new Kind.Open stream)) }
        ensures never_falls { faults_of self.old Kind.Open stream ≤ faults_of self.new Kind.Open stream }
        ensures counts { CountsOnly Kind.Open stream (faults_of self.old) (faults_of self.new) }
    {
        if let Err(failed) = self.begin(Kind::Open, stream) {
            self.memory.refuse(stream, name);
            return Err(failed);
        }
        self.memory.open(stream, name);
        Ok(())
    }

    fn read(&mut self, stream: Stream, buf: &mut [u8]) -> Result<usize, BayFailed>
        requires numbered { HasNumber stream }
        requires input { IsInput stream }
        ensures outcome { is_ok result ≡ not (is_next_failing self.old Kind.Read) }
        ensures count { IfSome (left_of self.old.memory stream) (λ left.
            IfOk result (λ count. count ≡ min (length buf.new) (length left))) }
        ensures bytes { IfSome (left_of self.old.memory stream) (λ left.
            IfOk result (λ count. take count buf.new ≡ take count left)) }
        ensures streams { OnOk result (HasStreams self.old.memory) }
        ensures after { IfOk result (λ count. self.new ≡ record (begun self.old Kind.Read stream) { memory = after_read self.old.memory stream count }) }
        ensures failed { IfErr result (λ error. self.new ≡ begun self.old Kind.Read stream) }
        ensures rose { OnErr result (Rose (faults_of self.old Kind.Read stream) (faults_of self.new Kind.Read stream)) }
        ensures never_falls { faults_of self.old Kind.Read stream ≤ faults_of self.new Kind.Read stream }
        ensures counts { CountsOnly Kind.Read stream (faults_of self.old) (faults_of self.new) }
    {
        self.begin(Kind::Read, stream)?;
        Ok(self.memory.read(stream, buf))
    }

    fn write(&mut self, stream: Stream, piece: &[u8]) -> Result<usize, BayFailed>
        requires numbered { HasNumber stream }
        requires not_input { ¬ IsInput stream }
        ensures outcome { is_ok result ≡ not (is_next_failing self.old Kind.Write) }
        ensures taken { IfOk result (λ count. count ≡ taken_of self.old.most (length piece.now)) }
        ensures streams { OnOk result (HasStreams self.old.memory) }
        ensures offers { self.new.offers ≡ noted self.old.offers (offer_of stream (length piece.now) result) }
        ensures after { IfOk result (λ count. self.new ≡ record (begun self.old Kind.Write stream) {
          memory = after_write self.old.memory stream (take count piece.now);
          offers = noted self.old.offers (offer_of stream (length piece.now) result);
        }) }
        ensures failed { IfErr result (λ error. self.new ≡ record (begun self.old Kind.Write stream) {
          offers = noted self.old.offers (offer_of stream (length piece.now) result);
        }) }
        ensures bound { IfOk result (λ count. count ≤ length piece.now) }
        ensures some { IfOk result (λ count. 0 < length piece.now → 0 < count) }
        ensures rose { OnErr result (Rose (faults_of self.old Kind.Write stream) (faults_of self.new Kind.Write stream)) }
        ensures never_falls { faults_of self.old Kind.Write stream ≤ faults_of self.new Kind.Write stream }
        ensures counts { CountsOnly Kind.Write stream (faults_of self.old) (faults_of self.new) }
    {
        if let Err(failed) = self.begin(Kind::Write, stream) {
            self.offers.note(Offer {
                stream,
                len: piece.len(),
                taken: 0,
            });
            return Err(failed);
        }
        let count = match self.most {
            Some(most) => piece.len().min(most as usize),
            None => piece.len(),
        };
        self.memory.write(stream, &piece[..count]);
        self.offers.note(Offer {
            stream,
            len: piece.len(),
            taken: count,
        });
        Ok(count)
    }
}
