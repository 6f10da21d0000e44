//! What is noted of the calls, one after the other.
ghost use Rattle.std.specs.Prelude.{◌≡◌, ◌<◌, ◌+◌, ◌*◌, ℕ, true, false, ◌++◌, [], ◌∷◌, IfOk, IsTrue, List, OnOk, length};
ghost use Rattle.xsk_side.specs.Setting.{HasRing};
ghost use Rattle.xsk_side.specs.Object.{is_made as made};
ghost use Rattle.xsk_side.specs.declared.call.Call.TheVariants.{Reserve, Submit, Peek};
ghost use Rattle.xsk_judge.specs.Stands.{Line, IsReady, StandsFor};
ghost use Rattle.xsk_hints.specs.Noted.{IsSized, Notes, index, counted, counted_if, all_counted, odd_in, peek_in, peeked_on};
ghost use Rattle.xsk_hints.specs.Told.{hints_text};

use crate::oddity::{ODDITIES, Oddity, find_oddity};
use crate::rings::{push_pairs, push_sockets};
use crate::tally::{Tally, tally_at};
use crate::text::push_start;
use std::alloc::Global;
use std::marker::Model;
use xsk_judge::{Judge, Spot};
use xsk_model::Ring;
use xsk_side::{Answer, Call, Setting, is_made};
use xsk_umem::{OutOfMemory, XdpDesc};

/// What hints tell of the calls so far, beside a judge. It takes some memory for each ring, all at the start.
#[derive(Debug, Drop)]
pub struct Hints {
    /// FILL by pair, then TX by socket: of each a tally by oddities.
    tallies: Vec<Tally>,
    /// By pair: the line of the last Peek on COMPLETION; 0 is the start.
    peeks: Vec<u64>,
    /// Whether the UMEM has room for TX metadata.
    metadata: bool,
}

impl Model for Hints {
    ghost use Rattle.xsk_hints.specs.Noted.{Noted};

    ghost Value = { Noted };

    ghost view = { λ h. record { tallies = h.tallies.items; peeks = h.peeks.items; metadata = h.metadata } };
}

impl Hints {
    /// Hints on no call, of a UMEM that has room for TX metadata or none. It takes all the memory that it will need; want of it is the one
    /// error.
    pub fn new(alloc: Global, setting: &Setting, metadata: bool) -> Result<Hints, OutOfMemory>
        ensures sized { IfOk result (λ hints. IsSized setting.now hints) }
        ensures metadata { IfOk result (λ hints. hints.metadata ≡ metadata) }
        ensures notes { IfOk result (λ hints. Notes setting.now hints []) }
    {
        let rings = setting.pairs().len() + setting.sockets().len();
        let tallies = vec![in alloc; Tally::none(); rings * ODDITIES]?;
        let peeks = vec![in alloc; 0u64; setting.pairs().len()]?;
        Ok(Hints {
            tallies,
            peeks,
            metadata,
        })
    }

    /// Notes the next call, which stands in this line. It takes no memory.
    pub fn note(&mut self, setting: &Setting, line: u64, call: &Call)
        requires { IsSized setting.now self.old }
        ensures sized { IsSized setting.now self.new }
        ensures metadata { self.new.metadata ≡ self.old.metadata }
        ensures notes { (lines : List Line) → Notes setting.now self.old lines → Notes setting.now self.new (record { line = line; call = call.now } ∷ lines) }
    {
        match call {
            Call::Reserve(ring, _, answer) => self.reserved(setting, line, *ring, *answer),
            Call::Submit(ring, entries) => self.submitted(setting, line, *ring, entries.as_slice()),
            Call::Peek(ring, _, _) => self.peeked(line, *ring),
            Call::Free(_, _, _) | Call::Release(_, _) | Call::Cancel(_, _) => {}
        }
    }

    /// Puts the hints behind a text, line by line, where a judge stands for the same calls.
    ///
    /// First the frames that the program has from the start. Then of each ring: entries on FILL and TX that no kernel uses as they
    /// are, refused Reserves, places and entries that the program kept, and since when its frames are there, or are the program's by
    /// it; and of a COMPLETION that it wasn't peeked since frames were submitted that are on TX still. Numbers of 0 aren't told.
    ///
    /// It takes time of the frames for each ring, and fails for want of memory alone.
    pub fn append(
        &self,
        text: &mut Vec<u8>,
        setting: &Setting,
        judge: &Judge,
    ) -> Result<(), OutOfMemory>
        requires sized { IsSized setting.now self.now }
        requires ready { IsReady setting.now judge.now }
        ensures { (lines : List Line) → StandsFor setting.now judge.now lines → Notes setting.now self.now lines
            → OnOk result (text.new.items ≡ text.old.items ++ hints_text setting.now self.now.metadata lines) }
    {
        push_start(text, tally_at(setting, judge, Spot::First).count)?;
        push_pairs(text, setting, self, judge)?;
        push_sockets(text, setting, self, judge)
    }

    /// The lines at which a ring of FILL or TX had an oddity.
    pub(crate) fn odd(&self, setting: &Setting, ring: Ring, oddity: Oddity) -> Tally
        requires sized { IsSized setting.now self.now }
        requires ring { HasRing setting.now ring }
        ensures { result ≡ odd_in setting.now self.now.tallies ring oddity }
    {
        self.tallies[place(setting, ring, oddity)]
    }

    /// The line of the last Peek on COMPLETION of a pair; 0 is the start.
    pub(crate) fn peek(&self, setting: &Setting, pair: u32) -> u64
        requires sized { IsSized setting.now self.now }
        requires pair { pair < length setting.now.pairs }
        ensures { result ≡ peek_in self.now.peeks pair }
    {
        self.peeks[pair as usize]
    }

    fn reserved(&mut self, setting: &Setting, line: u64, ring: Ring, answer: Answer)
        requires { IsSized setting.now self.old }
        ensures sized { IsSized setting.now self.new }
        ensures metadata { self.new.metadata ≡ self.old.metadata }
        ensures notes { (n : ℕ) (lines : List Line) → Notes setting.now self.old lines → Notes setting.now self.new (record { line = line; call = Reserve ring n answer } ∷ lines) }
    {
        if !is_told(setting, ring) {
            return;
        }
        if let Answer::Granted = answer {
            return;
        }
        count(&mut self.tallies, setting, line, ring, Oddity::Refused);
    }

    fn submitted(&mut self, setting: &Setting, line: u64, ring: Ring, entries: &[XdpDesc])
        requires { IsSized setting.now self.old }
        ensures sized { IsSized setting.now self.new }
        ensures metadata { self.new.metadata ≡ self.old.metadata }
        ensures notes { (lines : List Line) → Notes setting.now self.old lines → Notes setting.now self.new (record { line = line; call = Submit ring entries.now } ∷ lines) }
    {
        if !is_told(setting, ring) {
            return;
        }
        count_all(
            &mut self.tallies,
            setting,
            self.metadata,
            line,
            ring,
            entries,
        );
    }

    fn peeked(&mut self, line: u64, ring: Ring)
        ensures tallies { self.new.tallies ≡ self.old.tallies }
        ensures peeks { self.new.peeks ≡ peeked_on line ring self.old.peeks }
        ensures metadata { self.new.metadata ≡ self.old.metadata }
    {
        if let Ring::Comp(pair) = ring {
            let pair = pair as usize;
            if pair < self.peeks.len() {
                self.peeks[pair] = line;
            }
        }
    }
}

/// Whether the ring is FILL or TX of the setting.
fn is_told(setting: &Setting, ring: Ring) -> bool
    ensures told { IsTrue result → HasRing setting.now ring × (made ring ≡ true) }
    ensures none { result ≡ false → HasRing setting.now ring × (made ring ≡ true) → ⊥ }
{
    setting.has_ring(ring) && is_made(ring)
}

/// The place of an oddity of a ring.
fn place(setting: &Setting, ring: Ring, oddity: Oddity) -> usize
    requires { HasRing setting.now ring }
    ensures value { result ≡ index setting.now ring oddity }
    ensures below { result < (length setting.now.pairs + length setting.now.sockets) * 6 }
{
    let ring = match ring {
        Ring::Fill(pair) | Ring::Comp(pair) => pair as usize,
        Ring::Rx(socket) | Ring::Tx(socket) => setting.pairs().len() + socket as usize,
    };
    ring * ODDITIES + oddity.code()
}

/// Counts a line at which a ring has an oddity.
fn count(tallies: &mut Vec<Tally>, setting: &Setting, line: u64, ring: Ring, oddity: Oddity)
    requires size { length tallies.old.items ≡ (length setting.now.pairs + length setting.now.sockets) * 6 }
    requires ring { HasRing setting.now ring }
    ensures { tallies.new.items ≡ counted setting.now line ring tallies.old.items oddity }
{
    let at = place(setting, ring, oddity);
    tallies[at] = tallies[at].with(line);
}

/// Counts a line at which a ring may have one.
fn count_if(tallies: &mut Vec<Tally>, setting: &Setting, line: u64, ring: Ring, odd: Option<Oddity>)
    requires size { length tallies.old.items ≡ (length setting.now.pairs + length setting.now.sockets) * 6 }
    requires ring { HasRing setting.now ring }
    ensures { tallies.new.items ≡ counted_if setting.now line ring tallies.old.items odd }
{
    if let Some(odd) = odd {
        count(tallies, setting, line, ring, odd);
    }
}

/// Counts a line at which entries are submitted on a ring, for each that has an oddity.
fn count_all(
    tallies: &mut Vec<Tally>,
    setting: &Setting,
    metadata: bool,
    line: u64,
    ring: Ring,
    entries: &[XdpDesc],
)
    requires size { length tallies.old.items ≡ (length setting.now.pairs + length setting.now.sockets) * 6 }
    requires ring { HasRing setting.now ring }
    ensures { tallies.new.items ≡ all_counted setting.now metadata line ring entries.now tallies.old.items }
{
    for entry in entries {
        count_if(
            tallies,
            setting,
            line,
            ring,
            find_oddity(setting, metadata, ring, *entry),
        );
    }
}
