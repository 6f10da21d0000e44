//! Whole inputs and whole texts, over any bay. Each read and write of a command goes by this file: to the end, or to the
//! first fault, which is counted (`specs/Bay`).
ghost use Rattle.std.specs.Prelude.{◌≡◌, ◌<◌, ◌≤◌, ◌⊎◌, true, length, IfOk, IfSome, IsErrOf, OnErr, OnOk};
ghost use Rattle.std.specs.Io.KnownBytes.{IsAtEnd};
ghost use Rattle.xsk_io.specs.declared.bay.Kind.{Kind};
ghost use Rattle.xsk_io.specs.declared.whole.ReadError.TheVariants.{Fault, OutOfMemory};
ghost use Rattle.xsk_io.specs.Bay.{HasNumber, IsInput, LosesFront, TakesWrites, Same, SameBut, Grows, GrowsByPart, AddsNoneBut, IsOffered, Rose, CountsOnly};

use crate::{Bay, BayFailed, Stream};
use std::alloc::{AllocError, Global};
use std::error::Error;
use std::fmt;

/// How many bytes one read asks for.
const PIECE: usize = 65_536;

/// How many bytes room is made for at first. What isn't used takes addresses and no pages, and is given back behind the last read, so
/// that what comes next stands on the same pages.
const ROOM: usize = 4_194_304;

/// Why an input wasn't read whole.
#[derive(Clone, Copy, Debug, PartialEq, Eq)]
pub enum ReadError {
    TooLong,
    Fault,
    OutOfMemory,
}

impl fmt::Display for ReadError {
    fn fmt<W: fmt::Write>(&self, f: &mut fmt::Formatter<W>) -> fmt::Result {
        f.write_str(match self {
            ReadError::TooLong => "the input is too long",
            ReadError::Fault => "the input can't be read",
            ReadError::OutOfMemory => "out of memory",
        })
    }
}

impl Error for ReadError {}

impl From<BayFailed> for ReadError {
    ghost from_gives = { λ _ error. error ≡ Fault };

    fn from(_failed: BayFailed) -> ReadError {
        ReadError::Fault
    }
}

impl From<AllocError> for ReadError {
    ghost from_gives = { λ _ error. error ≡ OutOfMemory };

    fn from(_error: AllocError) -> ReadError {
        ReadError::OutOfMemory
    }
}

/// Reads an open input to its end, if it has at most `limit` more bytes.
pub fn read_whole<B: Bay>(
    alloc: Global,
    bay: &mut B,
    stream: Stream,
    limit: usize,
) -> Result<Vec<u8>, ReadError>
    requires numbered { HasNumber stream }
    requires input { IsInput stream }
    requires opened { (B.moment bay.old).is_open stream ≡ true }
    ensures whole { IfOk result
        (λ bytes. IfSome ((B.moment bay.old).left stream) (λ all. all ≡ bytes.items)) }
    ensures within { IfOk result (λ bytes. length bytes.items ≤ limit) }
    ensures end { OnOk result (IsAtEnd ((B.moment bay.new).left stream)) }
    ensures too_long { IsErrOf result ReadError.TooLong →
        IfSome ((B.moment bay.old).left stream) (λ all. limit < length all) }
    ensures taken { LosesFront ((B.moment bay.old).left stream) ((B.moment bay.new).left stream) }
    ensures left_others { SameBut stream (B.moment bay.old).left (B.moment bay.new).left }

    ensures opened { Same (B.moment bay.old).is_open (B.moment bay.new).is_open }
    ensures names { Same (B.moment bay.old).asked (B.moment bay.new).asked }
    ensures held { Same (B.moment bay.old).held (B.moment bay.new).held }
    ensures offers { Same (B.moment bay.old).offers (B.moment bay.new).offers }

    ensures cause { IsErrOf result ReadError.Fault →
        Rose ((B.moment bay.old).faults Kind.Read stream) ((B.moment bay.new).faults Kind.Read stream) }
    ensures no_fault { IsErrOf result ReadError.Fault ⊎
        ((B.moment bay.new).faults Kind.Read stream ≡ (B.moment bay.old).faults Kind.Read stream) }
    ensures never_falls { (B.moment bay.old).faults Kind.Read stream ≤ (B.moment bay.new).faults Kind.Read stream }
    ensures counts { CountsOnly Kind.Read stream (B.moment bay.old).faults (B.moment bay.new).faults }
{
    let mut piece = new_piece(alloc, PIECE)?;
    let mut bytes = Vec::with_capacity(alloc, ROOM)?;
    while bytes.len() <= limit {
        let count = bay.read(stream, piece.as_mut_slice())?;
        if count == 0 {
            bytes.shrink_to_fit();
            return Ok(bytes);
        }
        bytes.extend_from_slice(&piece[..count])?;
    }
    Err(ReadError::TooLong)
}

/// Room for one read of so many bytes. What it holds is of no account.
fn new_piece(alloc: Global, len: usize) -> Result<Vec<u8>, AllocError>
    ensures { IfOk result (λ piece. length piece.items ≡ len) }
{
    vec![in alloc; 0u8; len]
}

/// Appends a text to an open output or to the report: as one piece, and after a short write the rest
/// again.
pub fn write_whole<B: Bay>(bay: &mut B, stream: Stream, text: &[u8]) -> Result<(), BayFailed>
    requires numbered { HasNumber stream }
    requires writable { TakesWrites stream ((B.moment bay.old).is_open stream) }
    ensures whole { OnOk result (Grows ((B.moment bay.old).held stream) ((B.moment bay.new).held stream) text.now) }
    ensures part { OnErr result
        (GrowsByPart ((B.moment bay.old).held stream) ((B.moment bay.new).held stream) text.now) }
    ensures held_others { SameBut stream (B.moment bay.old).held (B.moment bay.new).held }
    ensures offered { IsOffered ((B.moment bay.old).offers stream) ((B.moment bay.new).offers stream) (length text.now) }
    ensures other_offers { AddsNoneBut stream (B.moment bay.old).offers (B.moment bay.new).offers }

    ensures opened { Same (B.moment bay.old).is_open (B.moment bay.new).is_open }
    ensures names { Same (B.moment bay.old).asked (B.moment bay.new).asked }
    ensures left { Same (B.moment bay.old).left (B.moment bay.new).left }

    ensures cause { OnErr result
        (Rose ((B.moment bay.old).faults Kind.Write stream) ((B.moment bay.new).faults Kind.Write stream)) }
    ensures no_fault { OnOk result
        ((B.moment bay.new).faults Kind.Write stream ≡ (B.moment bay.old).faults Kind.Write stream) }
    ensures never_falls { (B.moment bay.old).faults Kind.Write stream ≤ (B.moment bay.new).faults Kind.Write stream }
    ensures counts { CountsOnly Kind.Write stream (B.moment bay.old).faults (B.moment bay.new).faults }
{
    let mut at = 0;
    while at < text.len() {
        at += bay.write(stream, &text[at..])?;
    }
    Ok(())
}
