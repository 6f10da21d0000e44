//! The bay over real files and the standard output. What files hold is the operating system's: of it nothing is proved
//! but what each call asked for and was told (`specs/Files`).
ghost use Rattle.std.specs.Prelude.{◌≡◌, ◌≢◌, ℕ, ◌+◌, ◌-◌, ◌^◌, ◌<◌, ◌≤◌, false, true, None, Ok, min, length, replicate, is_some, IsSome, IfOk, OnOk, OnErr, slice_index, slice_index_or, slice_set};
ghost use Rattle.xsk_io.specs.Bay.{HasNumber, SameBut};
ghost use Rattle.xsk_io.specs.Files.{StreamCounts, FilesState, no_counts, no_files, count_of, files_moment, is_file_open};

use crate::counts::Counts;
use crate::{Bay, BayFailed, Stream};
use std::fs::{OpenFile, OpenOptions};
use std::io::{ErrorKind, Read, Write};
use std::marker::Model;
use std::os::unix::fs::MetadataExt;
use std::rt::Files;
use std::{fs, io};

/// A call, and 1,000 more where each before it was interrupted.
const TRIES: u32 = 1_001;

/// Four files, those that are open.
#[derive(Drop)]
struct Slots<F: Drop> {
    first: Option<F>,
    second: Option<F>,
    third: Option<F>,
    fourth: Option<F>,
}

impl<F: Drop> Model for Slots<F> {
    ghost use Rattle.std.specs.Prelude.{Bool, List, [], ◌∷◌, is_some};

    ghost Value = { List Bool };

    ghost view = { λ s. is_some s.first ∷ is_some s.second ∷ is_some s.third ∷ is_some s.fourth ∷ [] };
}

impl<F: Drop> Slots<F> {
    fn new() -> Slots<F>
        ensures { result ≡ replicate 4 false }
    {
        Slots {
            first: None,
            second: None,
            third: None,
            fourth: None,
        }
    }

    fn put(&mut self, number: u32, file: F)
        requires { number < 4 }
        ensures four { length self.old ≡ 4 }
        ensures after { self.new ≡ slice_set self.old number true }
    {
        match number {
            0 => self.first = Some(file),
            1 => self.second = Some(file),
            2 => self.third = Some(file),
            _ => self.fourth = Some(file),
        }
    }
}

impl<F: Read + Drop> Slots<F> {
    fn read(&mut self, number: u32, buf: &mut [u8]) -> Result<usize, BayFailed>
        requires numbered { number < 4 }
        requires opened { slice_index_or self.old number false ≡ true }
        ensures same { self.new ≡ self.old }
        ensures bound { IfOk result (λ count. count ≤ length buf.new) }
    {
        match number {
            0 => read_open(&mut self.first, buf),
            1 => read_open(&mut self.second, buf),
            2 => read_open(&mut self.third, buf),
            _ => read_open(&mut self.fourth, buf),
        }
    }
}

impl<F: Write + Drop> Slots<F> {
    fn write(&mut self, number: u32, piece: &[u8]) -> Result<usize, BayFailed>
        requires numbered { number < 4 }
        requires opened { slice_index_or self.old number false ≡ true }
        ensures same { self.new ≡ self.old }
        ensures bound { IfOk result (λ count. count ≤ length piece.now) }
        ensures some { IfOk result (λ count. 0 < length piece.now → 0 < count) }
    {
        match number {
            0 => write_open(&mut self.first, piece),
            1 => write_open(&mut self.second, piece),
            2 => write_open(&mut self.third, piece),
            _ => write_open(&mut self.fourth, piece),
        }
    }
}

fn read_open<F: Read>(slot: &mut Option<F>, buf: &mut [u8]) -> Result<usize, BayFailed>
    requires { IsSome slot.old }
    ensures same { is_some slot.new ≡ is_some slot.old }
    ensures bound { IfOk result (λ count. count ≤ length buf.new) }
{
    match slot {
        Some(file) => read_again(file, buf),
        None => unreachable!(),
    }
}

fn write_open<F: Write>(slot: &mut Option<F>, piece: &[u8]) -> Result<usize, BayFailed>
    requires { IsSome slot.old }
    ensures same { is_some slot.new ≡ is_some slot.old }
    ensures bound { IfOk result (λ count. count ≤ length piece.now) }
    ensures some { IfOk result (λ count. 0 < length piece.now → 0 < count) }
{
    match slot {
        Some(file) => write_again(file, piece),
        None => unreachable!(),
    }
}

/// A regular file, by whatever name it was opened: its device, and its number there.
#[derive(Clone, Copy, PartialEq, Eq)]
struct Regular {
    device: u64,
    number: u64,
}

/// The regular file that is open here. Devices, pipes and the like are none.
fn regular_of<F: OpenFile>(file: &F) -> io::Result<Option<Regular>> {
    let metadata = file.metadata()?;
    if !metadata.is_file() {
        return Ok(None);
    }
    Ok(Some(Regular {
        device: metadata.dev(),
        number: metadata.ino(),
    }))
}

/// Whether this regular file is open here.
fn is_open_as<F: OpenFile>(slot: &Option<F>, regular: Regular) -> io::Result<bool> {
    match slot {
        Some(file) => Ok(regular_of(file)? == Some(regular)),
        None => Ok(false),
    }
}

impl<F: OpenFile + Drop> Slots<F> {
    /// Whether one of the files that are open is this regular file.
    fn have(&self, regular: Regular) -> io::Result<bool> {
        Ok(
            is_open_as(&self.first, regular)?
                || is_open_as(&self.second, regular)?
                || is_open_as(&self.third, regular)?
                || is_open_as(&self.fourth, regular)?,
        )
    }
}

fn read_again<F: Read>(file: &mut F, buf: &mut [u8]) -> Result<usize, BayFailed>
    ensures { IfOk result (λ count. count ≤ length buf.new) }
{
    for _ in 0..TRIES {
        match outcome_of(file.read(buf)) {
            Ok(count) => return Ok(count),
            Err(is_final) => {
                if is_final {
                    break;
                }
            }
        }
    }
    Err(BayFailed)
}

fn write_again<F: Write>(file: &mut F, piece: &[u8]) -> Result<usize, BayFailed>
    ensures bound { IfOk result (λ count. count ≤ length piece.now) }
    ensures some { IfOk result (λ count. 0 < length piece.now → 0 < count) }
{
    for _ in 0..TRIES {
        match outcome_of(file.write(piece)) {
            Ok(0) if !piece.is_empty() => break,
            Ok(count) => return Ok(count),
            Err(is_final) => {
                if is_final {
                    break;
                }
            }
        }
    }
    Err(BayFailed)
}

/// What a call gave, or whether it isn't made again: it wasn't interrupted.
fn outcome_of<T>(outcome: io::Result<T>) -> Result<T, bool>
    ensures { IfOk result (λ value. outcome ≡ Ok value) }
{
    match outcome {
        Ok(value) => Ok(value),
        Err(error) => Err(error.kind() != ErrorKind::Interrupted),
    }
}

/// The bay over real files and the standard output, which is the report.
///
/// It tells no name and no byte: what a file holds is outside of all that is proved. An output that is a regular file which an
/// input or another output has opened, by this name or another, isn't opened.
#[derive(Drop)]
pub struct FileBay<R: Files + Drop> {
    rt: R,
    inputs: Slots<R::File>,
    outputs: Slots<R::File>,
    opens: Counts,
    reads: Counts,
    writes: Counts,
}

impl<R: Files + Drop> Model for FileBay<R> {
    ghost use Rattle.xsk_io.specs.Files.{FilesState};

    ghost Value = { FilesState };

    ghost view = { λ b. record {
      inputs = b.inputs;
      outputs = b.outputs;
      opens = b.opens;
      reads = b.reads;
      writes = b.writes;
    } };
}

impl<R: Files + Drop> FileBay<R> {
    /// A bay with no file open and no fault counted.
    pub fn new(rt: R) -> FileBay<R>
        ensures { result ≡ no_files }
    {
        FileBay {
            rt,
            inputs: Slots::new(),
            outputs: Slots::new(),
            opens: Counts::new(),
            reads: Counts::new(),
            writes: Counts::new(),
        }
    }

    /// Makes an output, once. What a regular file held is gone then, so one that is open already is refused, and is left as
    /// it was.
    fn make_once(&self, name: &str) -> io::Result<R::File> {
        let file = OpenOptions::new()
            .write(true)
            .create(true)
            .open(&self.rt, name)?;
        if let Some(regular) = regular_of(&file)? {
            if self.inputs.have(regular)? || self.outputs.have(regular)? {
                return Err(io::Error::from(ErrorKind::ResourceBusy));
            }
            file.set_len(0)?;
        }
        Ok(file)
    }

    /// Opens an input, or makes an output, once.
    fn open_once(&self, stream: Stream, name: &str) -> io::Result<R::File> {
        match stream {
            Stream::Input(_) => fs::open(&self.rt, name),
            Stream::Output(_) | Stream::Report => self.make_once(name),
        }
    }

    fn open_again(&self, stream: Stream, name: &str) -> Result<R::File, BayFailed> {
        for _ in 0..TRIES {
            match outcome_of(self.open_once(stream, name)) {
                Ok(file) => return Ok(file),
                Err(is_final) => {
                    if is_final {
                        break;
                    }
                }
            }
        }
        Err(BayFailed)
    }

    /// Keeps the file of an input or an output.
    fn keep(&mut self, stream: Stream, file: R::File)
        requires numbered { HasNumber stream }
        requires not_report { stream ≢ Stream.Report }
        ensures opened { is_file_open self.new stream ≡ true }
        ensures others { SameBut stream (is_file_open self.old) (is_file_open self.new) }
        ensures counts { (self.new.opens ≡ self.old.opens) × (self.new.reads ≡ self.old.reads) × (self.new.writes ≡ self.old.writes) }
    {
        match stream {
            Stream::Input(number) => self.inputs.put(number, file),
            Stream::Output(number) => self.outputs.put(number, file),
            Stream::Report => unreachable!(),
        }
    }
}

impl<R: Files + Print + Drop> Bay for FileBay<R> {
    ghost moment = { files_moment };

    fn open(&mut self, stream: Stream, name: &str) -> Result<(), BayFailed> {
        let outcome = self.open_again(stream, name);
        let file = self.opens.note(stream, outcome)?;
        self.keep(stream, file);
        Ok(())
    }

    fn read(&mut self, stream: Stream, buf: &mut [u8]) -> Result<usize, BayFailed> {
        let outcome = match stream {
            Stream::Input(number) => self.inputs.read(number, buf),
            Stream::Output(_) | Stream::Report => unreachable!(),
        };
        self.reads.note(stream, outcome)
    }

    fn write(&mut self, stream: Stream, piece: &[u8]) -> Result<usize, BayFailed> {
        let outcome = match stream {
            Stream::Input(_) => unreachable!(),
            Stream::Output(number) => self.outputs.write(number, piece),
            Stream::Report => write_again(&mut io::writer(&self.rt), piece),
        };
        self.writes.note(stream, outcome)
    }
}
