//! The check of a recording: it is read in pieces of any size, and each call is judged, and noted for the hints. However
//! a file is cut into pieces the verdict is that of all its bytes (`specs/Checking`).
ghost use Rattle.std.specs.Prelude.{◌≡◌, ◌≢◌, ◌+◌, ◌<◌, ◌++◌, ◌∷◌, [], ℕ, List, IfErr, IfOk, OnOk, None, Some, length};
ghost use Rattle.xsk_recording.specs.Text.{Beside, Read};
ghost use Rattle.xsk_recording.specs.Counts.{IsCounted};
ghost use Rattle.xsk_recording.specs.Verdict.{IsAtEnd, IsVerdict};
ghost use Rattle.xsk_judge.specs.Stands.{Line, IsWhy, StandsFor as StandsForLines};
ghost use Rattle.xsk_judge.specs.Reasons.{IsReasonOf};
ghost use Rattle.xsk_check.specs.Checking.{AreHints, Follows, Goes, HasTold, Heard, Hears, IsOpen, IsReady, StandsFor, Steps, hints_on, setting_in, setting_view};

use crate::finding::{Blame, Finding};
use std::alloc::Global;
use std::marker::Model;
use xsk_hints::{Fills, Hints, Wakes};
use xsk_judge::{Judge, Why};
use xsk_recording::{Event, Reading, Verdict, Wakeup};
use xsk_side::{Call, Setting};
use xsk_umem::OutOfMemory;

/// The setting of a recording's header, the judge of its calls, and the hints on them.
#[derive(Drop)]
pub(crate) struct Court {
    setting: Setting,
    judge: Judge,
    hints: Hints,
    fills: Fills,
    wakes: Wakes,
}

/// A recording that is read in pieces and judged. It keeps what its reader, its judge and its hints keep, and a copy of a begun line.
#[derive(Drop)]
pub struct Check {
    alloc: Global,
    reading: Reading,
    court: Option<Court>,
    calls: u64,
    line: Vec<u8>,
}

impl Model for Check {
    ghost use Rattle.xsk_check.specs.Checking.{Checked};

    ghost Value = { Checked };

    ghost view = { λ c. record { reading = c.reading; court = c.court; calls = c.calls } };
}

impl Check {
    /// Before the first byte.
    pub fn new(alloc: Global) -> Check
        ensures { StandsFor result [] }
    {
        Check {
            alloc,
            reading: Reading::new(alloc),
            court: None,
            calls: 0,
            line: Vec::new(alloc),
        }
    }

    /// The verdict where the text ends here.
    pub fn verdict(&self) -> Verdict
        ensures is { (text : List ℕ) → StandsFor self.now text → IsVerdict text result }
        ensures end { IsAtEnd result }
    {
        self.reading.verdict(self.calls)
    }

    /// Puts behind a text what is possible and surely unwanted in the calls so far, and where all frames are: a line for each, and none
    /// where the setting isn't told. It fails for want of memory alone.
    pub fn append_hints(&self, text: &mut Vec<u8>) -> Result<(), OutOfMemory>
        requires { IsReady self.now }
        ensures { (bytes : List ℕ) (calls : ℕ) → StandsFor self.now bytes → IsVerdict bytes (Verdict.Possible calls)
            → OnOk result ((hints : List ℕ) × AreHints bytes hints × (text.new.items ≡ text.old.items ++ hints)) }
    {
        match &self.court {
            Some(court) => push_hints(text, court),
            None => Ok(()),
        }
    }

    /// The setting, once the header's line of the kernel was read.
    pub fn setting(&self) -> Option<&Setting>
        ensures { setting_view result ≡ setting_in self.now.court }
    {
        match &self.court {
            Some(court) => Some(&court.setting),
            None => None,
        }
    }

    /// The line of a finding, up to its line feed where it has one.
    pub fn line(&self) -> &[u8] {
        self.line.as_slice()
    }

    /// Reads a piece, up to a line that settles the verdict. After such a finding and after an error nothing more may be read.
    pub fn read(&mut self, piece: &[u8]) -> Result<Option<Finding>, OutOfMemory>
        requires { IsReady self.old }
        ensures { IfOk result (λ found. (text : List ℕ) → StandsFor self.old text → Goes self.new text piece.now found) }
    {
        let mut rest = piece;
        for _line in 0..piece.len() {
            if rest.is_empty() {
                return Ok(None);
            }
            let (found, later) = self.step(rest)?;
            if found.is_some() {
                return Ok(found);
            }
            rest = later;
        }
        Ok(None)
    }

    /// Reads a piece up to the end of its first line, and gives the rest of it.
    fn step<'a>(&mut self, piece: &'a [u8]) -> Result<(Option<Finding>, &'a [u8]), OutOfMemory>
        requires ready { IsReady self.old }
        requires some { piece.now ≢ [] }
        ensures told { IfOk result (λ told. (text : List ℕ) → StandsFor self.old text → Steps self.new text piece.now told.1.now told.0) }
        ensures shorter { IfOk result (λ told. length told.1.now < length piece.now) }
    {
        let line = self.reading.lines() + 1;
        let (event, rest) = self.reading.read(piece)?;
        let found = self.hear(line, event)?;
        self.keep(&piece[..piece.len() - rest.len()], found.is_some())?;
        Ok((found, rest))
    }

    /// Keeps a part of a line that goes on, or of one that settles the verdict, and else forgets the line.
    fn keep(&mut self, part: &[u8], settled: bool) -> Result<(), OutOfMemory>
        ensures { self.new ≡ self.old }
    {
        if settled || !has_ended(part) {
            self.line.extend_from_slice(part)?;
        } else {
            self.line.clear();
        }
        Ok(())
    }

    /// What an event of the line of this number comes to.
    fn hear(&mut self, line: u64, event: Event) -> Result<Option<Finding>, OutOfMemory>
        requires { (r : Read) × (xs : List ℕ) × Heard self.old r × IsCounted r × (line ≡ r.lines + 1) × HasTold r xs event }
        ensures reading { self.new.reading ≡ self.old.reading }
        ensures heard { IfOk result (λ found. (r : Read) (xs : List ℕ) → Heard self.old r → IsCounted r → line ≡ r.lines + 1 → HasTold r xs event
            → Hears self.new r xs event found) }
    {
        match event {
            Event::Begun => Ok(None),
            Event::Passed => Ok(None),
            Event::Setting { setting, metadata } => {
                let court = open_court(self.alloc, setting, metadata)?;
                self.court = Some(court);
                Ok(None)
            }
            Event::NoSetting(error) => Ok(Some(settled(Verdict::NoSetting { line, error }))),
            Event::Call(call) => Ok(self.judge(line, call)),
            Event::Aside(wakeup) => {
                self.wake(line, wakeup);
                Ok(None)
            }
            Event::Fault => Ok(Some(settled(Verdict::NoRecording { line }))),
        }
    }

    /// Notes the look or the wake of a line.
    fn wake(&mut self, line: u64, wakeup: Wakeup)
        requires { (r : Read) × (xs : List ℕ) × Heard self.old r × IsCounted r × (line ≡ r.lines + 1) × HasTold r xs (Event.Aside wakeup) }
        ensures reading { self.new.reading ≡ self.old.reading }
        ensures heard { (r : Read) (xs : List ℕ) → Heard self.old r → IsCounted r → line ≡ r.lines + 1 → HasTold r xs (Event.Aside wakeup)
            → Hears self.new r xs (Event.Aside wakeup) None }
    {
        match &mut self.court {
            Some(court) => wake(court, line, wakeup),
            None => unreachable!(),
        }
    }

    /// Judges the call of a line.
    fn judge(&mut self, line: u64, call: Call) -> Option<Finding>
        requires { (r : Read) × (xs : List ℕ) × Heard self.old r × IsCounted r × (line ≡ r.lines + 1) × HasTold r xs (Event.Call call) }
        ensures reading { self.new.reading ≡ self.old.reading }
        ensures heard { (r : Read) (xs : List ℕ) → Heard self.old r → IsCounted r → line ≡ r.lines + 1 → HasTold r xs (Event.Call call)
            → Hears self.new r xs (Event.Call call) result }
    {
        match &mut self.court {
            Some(court) => match step(court, line, &call) {
                Ok(()) => {}
                Err(why) => return Some(blamed(line, call, why)),
            },
            None => unreachable!(),
        }
        self.calls += 1;
        self.reading.give_back(call);
        None
    }
}

/// Whether a line ends with this part.
fn has_ended(part: &[u8]) -> bool {
    match part.last() {
        Some(byte) => *byte == b'\n',
        None => false,
    }
}

/// The judge and the hints of a setting, before the first call.
fn open_court(alloc: Global, setting: Setting, metadata: bool) -> Result<Court, OutOfMemory>
    ensures setting { IfOk result (λ court. court.setting ≡ setting) }
    ensures metadata { IfOk result (λ court. court.hints.metadata ≡ metadata) }
    ensures opens { IfOk result IsOpen }
    ensures follows { IfOk result (λ court. Follows court [] []) }
{
    let judge = Judge::new(alloc, &setting)?;
    let hints = Hints::new(alloc, &setting, metadata)?;
    let fills = Fills::new(alloc, &setting)?;
    let wakes = Wakes::new(alloc, &setting)?;
    Ok(Court {
        setting,
        judge,
        hints,
        fills,
        wakes,
    })
}

/// Puts the hints behind a text.
fn push_hints(text: &mut Vec<u8>, court: &Court) -> Result<(), OutOfMemory>
    requires { IsOpen court.now }
    ensures { (lines : List Line) (asides : List Beside) → Follows court.now lines asides
        → OnOk result (text.new.items ≡ text.old.items ++ hints_on court.now.setting court.now.hints.metadata lines asides) }
{
    court.hints.append(text, &court.setting, &court.judge)?;
    court.fills.append(text, &court.setting)?;
    court.wakes.append(text, &court.setting, &court.judge)
}

/// The judge judges the next call; one that is possible is noted.
fn step(court: &mut Court, line: u64, call: &Call) -> Result<(), Why>
    requires { IsOpen court.old }
    ensures setting { court.new.setting ≡ court.old.setting }
    ensures metadata { court.new.hints.metadata ≡ court.old.hints.metadata }
    ensures opens { IfOk result (λ _. IsOpen court.new) }
    ensures follows { IfOk result (λ _. (lines : List Line) (asides : List Beside) → Follows court.old lines asides
        → Follows court.new (record { line = line; call = call.now } ∷ lines) asides) }
    ensures why { IfErr result (λ why. (lines : List Line) → StandsForLines court.old.setting court.old.judge lines
        → IsWhy court.old.setting lines call.now why × IsReasonOf court.old.setting lines line call.now why) }
{
    court.fills.note(&court.setting, &court.judge, line, call);
    court.judge.step(&court.setting, line, call)?;
    court.hints.note(&court.setting, line, call);
    Ok(())
}

/// A look or a wake is noted.
fn wake(court: &mut Court, line: u64, wakeup: Wakeup)
    ensures setting { court.new.setting ≡ court.old.setting }
    ensures metadata { court.new.hints.metadata ≡ court.old.hints.metadata }
    ensures opens { IsOpen court.old → IsOpen court.new }
    ensures follows { (lines : List Line) (asides : List Beside) → Follows court.old lines asides
        → Follows court.new lines (record { line = line; wakeup = wakeup } ∷ asides) }
{
    court.wakes.note(line, wakeup);
}

/// A verdict that no call is blamed for.
fn settled(verdict: Verdict) -> Finding
    ensures { result ≡ record { verdict = verdict; blame = None } }
{
    Finding {
        verdict,
        blame: None,
    }
}

/// The verdict that the call of this line isn't possible.
fn blamed(line: u64, call: Call, why: Why) -> Finding
    ensures { result ≡ record { verdict = Verdict.NotPossible line; blame = Some (record { call = call; why = why }) } }
{
    Finding {
        verdict: Verdict::NotPossible { line },
        blame: Some(Blame { call, why }),
    }
}

/// The verdict of a recording that is there whole.
pub fn verdict_of(alloc: Global, text: &[u8]) -> Result<Verdict, OutOfMemory>
    ensures { IfOk result (IsVerdict text.now) }
{
    let mut check = Check::new(alloc);
    match check.read(text)? {
        Some(finding) => Ok(finding.verdict),
        None => Ok(check.verdict()),
    }
}
