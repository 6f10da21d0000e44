//! The file of a recording, read in pieces and judged.
ghost use Rattle.std.specs.Prelude.{◌≡◌, [], true, IfOk, length};
ghost use Rattle.xsk_io.specs.Bay.{NoneOpen};
ghost use Rattle.xsk_check.specs.Checking.{StandsFor};
ghost use Rattle.xsk_checking.specs.Ending.{HasRead, HasReadOpen, IsTold};

use crate::end::Failure;
use std::alloc::{AllocError, Global};
use xsk_check::{Check, Finding};
use xsk_io::{Bay, Stream};

/// How many bytes one read asks for.
const PIECE: usize = 65_536;

/// Opens the file and reads it, to its end or as far as its verdict needs.
pub(crate) fn judge_file<B: Bay>(
    alloc: Global,
    check: &mut Check,
    bay: &mut B,
    name: &str,
) -> Result<Option<Finding>, Failure>
    requires closed { NoneOpen (B.moment bay.old) }
    requires fresh { StandsFor check.old [] }
    ensures read { HasRead (B.moment bay.old) (B.moment bay.new) check.new result }
    ensures asked { IsTold ((B.moment bay.new).asked (Stream.Input 0)) name.now }
{
    match bay.open(Stream::Input(0), name) {
        Ok(()) => judge_open(alloc, check, bay),
        Err(_) => Err(Failure::Unopened),
    }
}

/// Reads the open file.
fn judge_open<B: Bay>(
    alloc: Global,
    check: &mut Check,
    bay: &mut B,
) -> Result<Option<Finding>, Failure>
    requires opened { (B.moment bay.old).is_open (Stream.Input 0) ≡ true }
    requires fresh { StandsFor check.old [] }
    ensures { HasReadOpen (B.moment bay.old) (B.moment bay.new) check.new result }
{
    let Ok(mut piece) = new_piece(alloc, PIECE) else {
        return Err(Failure::OutOfMemory);
    };
    for _piece in 0..u64::MAX {
        let count = match bay.read(Stream::Input(0), piece.as_mut_slice()) {
            Ok(count) => count,
            Err(_) => return Err(Failure::Unread),
        };
        if count == 0 {
            return Ok(None);
        }
        let Ok(found) = check.read(&piece[..count]) else {
            return Err(Failure::OutOfMemory);
        };
        if found.is_some() {
            return Ok(found);
        }
    }
    Err(Failure::OutOfMemory)
}

/// Room for one read of so many bytes. What it holds is of no account.
fn new_piece(alloc: Global, len: usize) -> Result<Vec<u8>, AllocError>
    ensures { IfOk result (λ piece. length piece.items ≡ len) }
{
    vec![in alloc; 0u8; len]
}
