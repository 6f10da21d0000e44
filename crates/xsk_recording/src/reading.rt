//! A recording, read in pieces.
ghost use Rattle.std.specs.Prelude.{◌≡◌, ◌≢◌, ◌≤◌, ◌<◌, ◌==◌, ◌+◌, ◌++◌, ◌⊎◌, if◌then◌else◌, [], ℕ, List, IfOk, length, true, false};
ghost use Rattle.xsk_recording.specs.Text.{Read, nothing_read, most_bytes, most_lines, ends_line};
ghost use Rattle.xsk_recording.specs.Feeding.{Shows, Tells, StandsFor, IsNext, IsKept, IsFault, IsHanded, is_calls};
ghost use Rattle.xsk_recording.specs.Verdict.{IsAtEnd, IsSound, IsVerdict};

use crate::head::{Head, Next};
use crate::line::{Timed, Told, line};
use crate::verdict::Verdict;
use crate::wakeup::Wakeup;
use memchr::memchr;
use std::alloc::Global;
use std::marker::Model;
use std::mem;
use xsk_side::{Call, Setting, SettingError};
use xsk_umem::{OutOfMemory, XdpDesc};

/// The most bytes of a line, with its line feed.
const MOST_BYTES: usize = 2048;

/// The most lines of a recording.
const MOST_LINES: u64 = 1 << 58;

/// What comes next in a recording.
#[derive(Debug, Drop)]
pub enum Event {
    /// A line begins, and the piece ends within it.
    Begun,
    /// A line of the header.
    Passed,
    /// The header's line of the kernel: the setting that the header has told, and whether the UMEM has room for TX metadata.
    Setting { setting: Setting, metadata: bool },
    /// The same, and why what the header has told is no setting.
    NoSetting(SettingError),
    /// A line of a call.
    Call(Call),
    /// A line of a look at a flag, or of a wake.
    Aside(Wakeup),
    /// A line that isn't of the form: this is no recording.
    Fault,
}

/// What was read of a recording. It keeps the setting and a begun line, and no calls.
#[derive(Drop)]
pub struct Reading {
    alloc: Global,
    head: Head,
    time: u64,
    lines: u64,
    begun: Vec<u8>,
    spare: Vec<XdpDesc>,
}

impl Model for Reading {
    ghost use Rattle.std.specs.Prelude.{◌≤◌};
    ghost use Rattle.xsk_recording.specs.Feeding.{Reader};
    ghost use Rattle.xsk_recording.specs.Text.{most_lines};
    ghost use Rattle.xsk_recording.specs.Readers.{reader_of};

    ghost Value = { Reader };

    ghost view = { reader_of };

    ghost invariant = { λ r. r.lines ≤ most_lines };
}

impl Reading {
    /// Before the first byte.
    pub fn new(alloc: Global) -> Reading
        ensures { StandsFor result [] nothing_read }
    {
        Reading {
            alloc,
            head: Head::new(alloc),
            time: 0,
            lines: 0,
            begun: Vec::new(alloc),
            spare: Vec::new(alloc),
        }
    }

    /// How many lines were read.
    pub fn lines(&self) -> u64
        ensures value { result ≡ self.now.lines }
        ensures most { result ≤ most_lines }
    {
        self.lines
    }

    /// Whether the header was read, and each further line is a call's.
    pub fn is_begun(&self) -> bool
        ensures { result ≡ is_calls self.now.header.next }
    {
        matches!(self.head.next(), Next::Calls)
    }

    /// The verdict at the end of a text, of which so many calls were read, and each was found possible after those before it.
    pub fn verdict(&self, calls: u64) -> Verdict
        ensures is { (text : List ℕ) (r : Read) → StandsFor self.now text r → calls ≡ length r.calls → IsSound r.header.next r → IsVerdict text result }
        ensures end { IsAtEnd result }
    {
        if !self.begun.is_empty() {
            return self.missing();
        }
        if self.is_begun() {
            return called(calls);
        }
        if self.lines == 0 {
            return Verdict::Empty;
        }
        self.missing()
    }

    /// The next line isn't of the form, or isn't there.
    fn missing(&self) -> Verdict
        ensures { result ≡ Verdict.NoRecording (self.now.lines + 1) }
    {
        Verdict::NoRecording {
            line: self.lines + 1,
        }
    }

    /// Takes back the memory of a call.
    pub fn give_back(&mut self, call: Call)
        ensures { self.new ≡ self.old }
    {
        match call {
            Call::Submit(_, entries) | Call::Peek(_, _, entries) => self.spare = entries.into_vec(),
            _ => {}
        }
    }

    /// Reads up to the end of the next line, which may have begun in earlier pieces, and gives the rest of the piece. After
    /// `Fault` and an error nothing more may be read.
    pub fn read<'a>(&mut self, piece: &'a [u8]) -> Result<(Event, &'a [u8]), OutOfMemory>
        requires { piece.now ≢ [] }
        ensures told { IfOk result (λ told. (text : List ℕ) (r : Read) → StandsFor self.old text r → IsNext self.old self.new text r piece.now told.0 told.1.now) }
        ensures shorter { IfOk result (λ told. length told.1.now < length piece.now) }
    {
        let Some(end) = memchr(b'\n', piece) else {
            let kept = self.keep(piece)?;
            let event = if kept { Event::Begun } else { Event::Fault };
            return Ok((event, &piece[piece.len()..]));
        };
        let event = self.end(&piece[..end + 1])?;
        Ok((event, &piece[end + 1..]))
    }

    /// Keeps a part of a line, and tells whether the line isn't too long.
    fn keep(&mut self, part: &[u8]) -> Result<bool, OutOfMemory>
        ensures { IfOk result (λ kept. IsKept self.old self.new part.now kept) }
    {
        if part.len() > MOST_BYTES || self.begun.len() > MOST_BYTES - part.len() {
            return Ok(false);
        }
        self.begun.extend_from_slice(part)?;
        Ok(true)
    }

    /// Reads a line of which this is the last part.
    fn end(&mut self, part: &[u8]) -> Result<Event, OutOfMemory>
        requires { ends_line part.now ≡ true }
        ensures told { IfOk result (λ event. (r : Read) → Shows self.old r → Tells r (self.old.begun ++ part.now) event (Shows self.new)) }
        ensures empty { IfOk result (λ event. IsFault event ⊎ (self.new.begun ≡ [])) }
    {
        if self.begun.is_empty() {
            return self.read_line(part);
        }
        if !self.keep(part)? {
            return Ok(Event::Fault);
        }
        let begun = mem::replace(&mut self.begun, Vec::new(self.alloc));
        let event = self.read_line(begun.as_slice())?;
        self.begun = begun;
        self.begun.clear();
        Ok(event)
    }

    /// Reads a whole line.
    fn read_line(&mut self, text: &[u8]) -> Result<Event, OutOfMemory>
        requires { ends_line text.now ≡ true }
        ensures told { IfOk result (λ event. (r : Read) → Shows self.old r → Tells r text.now event (Shows self.new)) }
        ensures begun { self.new.begun ≡ self.old.begun }
    {
        if text.len() > MOST_BYTES {
            return Ok(Event::Fault);
        }
        if self.lines == MOST_LINES {
            return Ok(Event::Fault);
        }
        if self.is_begun() {
            return self.read_call(text);
        }
        self.read_header(text)
    }

    /// Reads a line of the header.
    fn read_header(&mut self, text: &[u8]) -> Result<Event, OutOfMemory>
        requires short { length text.now ≤ most_bytes }
        requires few { self.old.lines < most_lines }
        requires whole { ends_line text.now ≡ true }
        requires header { is_calls self.old.header.next ≡ false }
        ensures told { IfOk result (λ event. (r : Read) → Shows self.old r → Tells r text.now event (Shows self.new)) }
        ensures begun { self.new.begun ≡ self.old.begun }
    {
        if !self.head.read(text)? {
            return Ok(Event::Fault);
        }
        self.lines += 1;
        if self.head.is_told() {
            return Ok(self.hand_out());
        }
        Ok(Event::Passed)
    }

    /// Hands out the setting of the header.
    fn hand_out(&mut self) -> Event
        ensures told { IsHanded self.old.header result }
        ensures next { self.new.header.next ≡ self.old.header.next }
        ensures time { self.new.time ≡ self.old.time }
        ensures lines { self.new.lines ≡ self.old.lines }
        ensures begun { self.new.begun ≡ self.old.begun }
    {
        let metadata = self.head.metadata();
        match self.head.take(self.alloc) {
            Ok(setting) => Event::Setting { setting, metadata },
            Err(error) => Event::NoSetting(error),
        }
    }

    /// Reads the line of a call.
    fn read_call(&mut self, text: &[u8]) -> Result<Event, OutOfMemory>
        requires short { length text.now ≤ most_bytes }
        requires few { self.old.lines < most_lines }
        requires whole { ends_line text.now ≡ true }
        requires calls { is_calls self.old.header.next ≡ true }
        ensures told { IfOk result (λ event. (r : Read) → Shows self.old r → Tells r text.now event (Shows self.new)) }
        ensures begun { self.new.begun ≡ self.old.begun }
    {
        self.spare.clear();
        let Some(Timed { time, told }) = line(self.alloc, text, &mut self.spare)? else {
            return Ok(Event::Fault);
        };
        if time < self.time {
            return Ok(Event::Fault);
        }
        self.time = time;
        self.lines += 1;
        Ok(match told {
            Told::Judged(call) => Event::Call(call),
            Told::Aside(wakeup) => Event::Aside(wakeup),
        })
    }
}

/// The verdict of so many calls that are possible.
fn called(calls: u64) -> Verdict
    ensures { result ≡ (if calls == 0 then Verdict.NoCalls else Verdict.Possible calls) }
{
    if calls == 0 {
        return Verdict::NoCalls;
    }
    Verdict::Possible { calls }
}
