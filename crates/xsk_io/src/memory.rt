//! Streams that are kept in memory, for the bays that stand over none but memory.
ghost use Rattle.std.specs.Prelude.{◌≡◌, ◌≢◌, ℕ, ◌<◌, false, true, Some, None, [], min, length, nat_le, if◌then◌else◌, take, drop, map, replicate, slice_index_or, IfOk, IfErr, IfSome};
ghost use Rattle.std.specs.Vec.Iter.{into_iter_items};
ghost use Rattle.std.specs.Option.{option_map};
ghost use Rattle.xsk_io.specs.Bay.{HasNumber, IsInput, TakesWrites};
ghost use Rattle.xsk_io.specs.declared.bay.Stream.{Stream};
ghost use Rattle.xsk_io.specs.Memory.{InputState, OutputState, MemoryState, HasStreams, new_input, new_output, new_memory, left_of, held_of, told_name, opened_input, opened_output, read_input, written_output, after_open, after_read, after_write};
ghost use Rattle.xsk_io.specs.Failing.{after_refusal};

use crate::Stream;
use std::alloc::{AllocError, Global};
use std::marker::Model;
use std::vec::IntoIter;

/// The longest name that is kept.
const LONGEST_NAME: usize = 256;

/// The name that a stream was asked for, if it isn't too long to be kept.
#[derive(Drop)]
struct Name {
    bytes: [u8; LONGEST_NAME],
    len: Option<usize>,
}

impl Model for Name {
    ghost use Rattle.std.specs.Prelude.{ℕ, List, Option, take};
    ghost use Rattle.std.specs.Option.{option_map};

    ghost Value = { Option (List ℕ) };

    ghost view = { λ name. option_map (λ len. take len name.bytes) name.len };
}

impl Name {
    fn new() -> Name
        ensures { result ≡ None }
    {
        Name {
            bytes: [0; LONGEST_NAME],
            len: None,
        }
    }

    fn keep(&mut self, name: &str)
        ensures { self.new ≡ told_name name.now }
    {
        self.len = put_front(name.as_bytes(), &mut self.bytes);
    }
}

/// Puts a text at the front of a room in which it finds place, and gives its length.
fn put_front(text: &[u8], room: &mut [u8]) -> Option<usize>
    ensures { option_map (λ len. take len room.new) result ≡ (if nat_le (length text.now) (length room.old) then Some text.now else None) }
{
    if text.len() > room.len() {
        return None;
    }
    Some(copy_front(text, room))
}

/// An input, read up to `at`.
#[derive(Drop)]
struct Source {
    is_open: bool,
    asked: Name,
    bytes: Vec<u8>,
    at: usize,
}

impl Model for Source {
    ghost use Rattle.std.specs.Prelude.{◌≤◌, drop, length};
    ghost use Rattle.xsk_io.specs.Memory.{InputState};

    ghost Value = { InputState };

    ghost view = { λ s. record { is_open = s.is_open; asked = s.asked; left = drop s.at s.bytes.items } };

    ghost invariant = { λ s. s.at ≤ length s.bytes.items };
}

impl Source {
    fn new(bytes: Vec<u8>) -> Source
        ensures { result ≡ new_input bytes.items }
    {
        Source {
            is_open: false,
            asked: Name::new(),
            bytes,
            at: 0,
        }
    }

    fn refuse(&mut self, name: &str)
        ensures { self.new ≡ record self.old { asked = told_name name.now } }
    {
        self.asked.keep(name);
    }

    fn open(&mut self, name: &str)
        ensures { self.new ≡ opened_input self.old name.now }
    {
        self.asked.keep(name);
        self.is_open = true;
    }

    fn read(&mut self, buf: &mut [u8]) -> usize
        ensures count { result ≡ min (length buf.old) (length self.old.left) }
        ensures bytes { take result buf.new ≡ take result self.old.left }
        ensures after { self.new ≡ read_input self.old result }
    {
        let count = copy_front(&self.bytes.as_slice()[self.at..], buf);
        self.at += count;
        count
    }
}

/// Copies the front of a text that finds place in a buffer, and tells how long it is.
fn copy_front(text: &[u8], buf: &mut [u8]) -> usize
    ensures count { result ≡ min (length buf.old) (length text.now) }
    ensures bytes { take result buf.new ≡ take result text.now }
{
    let count = buf.len().min(text.len());
    buf[..count].copy_from_slice(&text[..count]);
    count
}

/// An output or the report, told until a write has passed its room.
#[derive(Drop)]
struct Sink {
    is_open: bool,
    asked: Name,
    bytes: Vec<u8>,
    room: usize,
    is_told: bool,
}

impl Model for Sink {
    ghost use Rattle.std.specs.Prelude.{◌≤◌, Some, None, if◌then◌else◌, vec_len, vec_capacity};
    ghost use Rattle.xsk_io.specs.Memory.{OutputState};

    ghost Value = { OutputState };

    ghost view = { λ s. record {
      is_open = s.is_open;
      asked = s.asked;
      held = (if s.is_told then Some s.bytes.items else None);
      room = s.room;
    } };

    ghost invariant = { λ s. (vec_len s.bytes ≤ s.room) × (s.room ≤ vec_capacity s.bytes) };
}

impl Sink {
    fn new(alloc: Global, room: usize) -> Result<Sink, AllocError>
        ensures { IfOk result (λ sink. sink ≡ new_output room) }
    {
        Ok(Sink {
            is_open: false,
            asked: Name::new(),
            bytes: Vec::with_capacity(alloc, room)?,
            room,
            is_told: true,
        })
    }

    fn refuse(&mut self, name: &str)
        ensures { self.new ≡ record self.old { asked = told_name name.now } }
    {
        self.asked.keep(name);
    }

    fn open(&mut self, name: &str)
        ensures { self.new ≡ opened_output self.old name.now }
    {
        self.asked.keep(name);
        self.is_open = true;
        self.bytes.clear();
        self.is_told = true;
    }

    fn write(&mut self, piece: &[u8])
        ensures { self.new ≡ written_output self.old piece.now }
    {
        if self.is_told {
            if piece.len() <= self.room - self.bytes.len() {
                self.bytes.extend_from_slice(piece).unwrap();
            } else {
                self.is_told = false;
            }
        }
    }

    fn told(&self) -> Option<&[u8]>
        ensures { option_map (λ bytes. bytes.now) result ≡ self.now.held }
    {
        if self.is_told {
            Some(self.bytes.as_slice())
        } else {
            None
        }
    }
}

/// All streams of a bay: four inputs, four outputs and the report.
#[derive(Drop)]
pub(crate) struct Memory {
    inputs: [Source; 4],
    outputs: [Sink; 4],
    report: Sink,
}

impl Model for Memory {
    ghost use Rattle.std.specs.Prelude.{◌≡◌, length};
    ghost use Rattle.xsk_io.specs.Memory.{MemoryState};

    ghost Value = { MemoryState };

    ghost view = { λ m. record { inputs = m.inputs; outputs = m.outputs; report = m.report } };

    ghost invariant = { λ m. (length m.inputs ≡ 4) × (length m.outputs ≡ 4) };
}

impl Memory {
    /// Takes the room of each output and of the report. The inputs come back where there is no memory for it.
    pub(crate) fn new(
        alloc: Global,
        inputs: Vec<Vec<u8>>,
        room: usize,
    ) -> Result<Memory, Vec<Vec<u8>>>
        ensures made { IfOk result (λ memory.
            memory ≡ new_memory (map (λ bytes. bytes.items) inputs.items) room) }
        ensures back { IfErr result (λ back. back.items ≡ inputs.items) }
    {
        let Ok(outputs) = new_sinks(alloc, room) else {
            return Err(inputs);
        };
        let Ok(report) = Sink::new(alloc, room) else {
            return Err(inputs);
        };
        let inputs = new_sources(alloc, inputs);
        Ok(Memory {
            inputs,
            outputs,
            report,
        })
    }

    pub(crate) fn open(&mut self, stream: Stream, name: &str)
        requires numbered { HasNumber stream }
        requires not_report { stream ≢ Stream.Report }
        ensures streams { HasStreams self.old }
        ensures after { self.new ≡ after_open self.old stream name.now }
    {
        match stream {
            Stream::Input(number) => {
                let input = &mut self.inputs[number as usize];
                input.open(name);
            }
            Stream::Output(number) => {
                let output = &mut self.outputs[number as usize];
                output.open(name);
            }
            Stream::Report => unreachable!(),
        }
    }

    /// Keeps the name of an open that fails.
    pub(crate) fn refuse(&mut self, stream: Stream, name: &str)
        requires numbered { HasNumber stream }
        requires not_report { stream ≢ Stream.Report }
        ensures streams { HasStreams self.old }
        ensures after { self.new ≡ after_refusal self.old stream name.now }
    {
        match stream {
            Stream::Input(number) => {
                let input = &mut self.inputs[number as usize];
                input.refuse(name);
            }
            Stream::Output(number) => {
                let output = &mut self.outputs[number as usize];
                output.refuse(name);
            }
            Stream::Report => unreachable!(),
        }
    }

    pub(crate) fn read(&mut self, stream: Stream, buf: &mut [u8]) -> usize
        requires numbered { HasNumber stream }
        requires input { IsInput stream }
        ensures count { IfSome (left_of self.old stream) (λ left. result ≡ min (length buf.old) (length left)) }
        ensures bytes { IfSome (left_of self.old stream) (λ left. take result buf.new ≡ take result left) }
        ensures streams { HasStreams self.old }
        ensures after { self.new ≡ after_read self.old stream result }
    {
        match stream {
            Stream::Input(number) => {
                let input = &mut self.inputs[number as usize];
                input.read(buf)
            }
            Stream::Output(_) | Stream::Report => unreachable!(),
        }
    }

    pub(crate) fn write(&mut self, stream: Stream, piece: &[u8])
        requires numbered { HasNumber stream }
        requires not_input { ¬ IsInput stream }
        ensures streams { HasStreams self.old }
        ensures after { self.new ≡ after_write self.old stream piece.now }
    {
        match stream {
            Stream::Input(_) => unreachable!(),
            Stream::Output(number) => {
                let output = &mut self.outputs[number as usize];
                output.write(piece);
            }
            Stream::Report => self.report.write(piece),
        }
    }

    pub(crate) fn told(&self, stream: Stream) -> Option<&[u8]>
        ensures { option_map (λ bytes. bytes.now) result ≡ held_of self.now stream }
    {
        match stream {
            Stream::Input(_) => None,
            Stream::Output(number) => {
                let output = self.outputs.get(number as usize)?;
                output.told()
            }
            Stream::Report => self.report.told(),
        }
    }
}

fn new_sinks(alloc: Global, room: usize) -> Result<[Sink; 4], AllocError>
    ensures { IfOk result (λ sinks. sinks ≡ replicate 4 (new_output room)) }
{
    Ok([
        Sink::new(alloc, room)?,
        Sink::new(alloc, room)?,
        Sink::new(alloc, room)?,
        Sink::new(alloc, room)?,
    ])
}

fn new_sources(alloc: Global, inputs: Vec<Vec<u8>>) -> [Source; 4]
    ensures { result ≡ (new_memory (map (λ bytes. bytes.items) inputs.items) 0).inputs }
{
    let mut inputs = inputs.into_iter();
    [
        next_source(alloc, &mut inputs),
        next_source(alloc, &mut inputs),
        next_source(alloc, &mut inputs),
        next_source(alloc, &mut inputs),
    ]
}

fn next_source(alloc: Global, inputs: &mut IntoIter<Vec<u8>>) -> Source
    ensures first { result
        ≡ new_input (slice_index_or (map (λ bytes. bytes.items) (into_iter_items inputs.old)) 0 []) }
    ensures rest { into_iter_items inputs.new ≡ drop 1 (into_iter_items inputs.old) }
{
    Source::new(inputs.next().unwrap_or(Vec::new(alloc)))
}
