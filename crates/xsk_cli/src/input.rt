//! The inputs of a command, read to their ends.
ghost use Rattle.std.specs.Prelude.{◌≡◌, ◌<◌, ◌≤◌, false, length, map, IfErr, IfOk, OnOk};
ghost use Rattle.xsk_io.specs.Bay.{Same, NoneOpen};
ghost use Rattle.xsk_cli.specs.Cause.{IsCaused, NeverFalls, NoOthers, Unchanged};
ghost use Rattle.xsk_cli.specs.Ends.{Ends};
ghost use Rattle.xsk_cli.specs.Steps.{FailsReading, HaveRead, read_status, unread_by};
ghost use Rattle.xsk_cli.specs.Streams.{IsRead, IsTold, Touched};
ghost use Rattle.xsk_cli.specs.Words.{Plan, most_of};

use crate::failure::ReadFailure;
use std::alloc::Global;
use xsk_io::{Bay, ReadError, Stream, read_whole};

/// Opens the inputs by their names and reads them to their ends, one after another, each of at most so many bytes.
pub(crate) fn read_inputs<B: Bay>(
    alloc: Global,
    bay: &mut B,
    names: &[&str],
    most: usize,
) -> Result<Vec<Vec<u8>>, ReadFailure>
    requires few { length names.now ≤ 4 }
    requires most { most ≤ 67108864 }
    requires closed { NoneOpen (B.moment bay.old) }
    ensures read { IfOk result (λ inputs. HaveRead most (map (λ name. name.now) names.now) (map (λ bytes. bytes.items) inputs.items) (length names.now) (B.moment bay.old) (B.moment bay.new)) }
    ensures failed { (plan : Plan) → plan.inputs ≡ map (λ name. name.now) names.now → most_of plan.work ≡ most → IfErr result (λ failure. Ends plan (B.moment bay.old) (B.moment bay.new) (read_status failure)) }
    ensures report { (B.moment bay.new).held Stream.Report ≡ (B.moment bay.old).held Stream.Report }
    ensures offers { Same (B.moment bay.old).offers (B.moment bay.new).offers }
    ensures falls { NeverFalls (B.moment bay.old).faults (B.moment bay.new).faults }
    ensures unchanged { OnOk result (Unchanged (B.moment bay.old).faults (B.moment bay.new).faults) }
    ensures others { IfErr result (λ failure. NoOthers (B.moment bay.old).faults (B.moment bay.new).faults (read_status failure)) }
    ensures cause { IfErr result (λ failure. IsCaused (B.moment bay.old).faults (B.moment bay.new).faults (read_status failure)) }
{
    let mut inputs = Vec::with_capacity(alloc, names.len())?;
    for port in 0..names.len() as u32 {
        let bytes = read_input(alloc, bay, port, names[port as usize], most)?;
        inputs.push_reserved(bytes);
    }
    Ok(inputs)
}

/// Opens the input of a port and reads it to its end, where it has at most so many bytes.
fn read_input<B: Bay>(
    alloc: Global,
    bay: &mut B,
    port: u32,
    name: &str,
    most: usize,
) -> Result<Vec<u8>, ReadFailure>
    requires port { port < 4 }
    requires most { most ≤ 67108864 }
    requires closed { (B.moment bay.old).is_open (Stream.Input port) ≡ false }
    ensures read { IfOk result (λ bytes. IsRead most port bytes.items (B.moment bay.old) (B.moment bay.new)) }
    ensures failed { IfErr result (FailsReading most port (B.moment bay.old) (B.moment bay.new)) }
    ensures others { IfErr result (λ failure. NoOthers (B.moment bay.old).faults (B.moment bay.new).faults (read_status failure)) }
    ensures asked { IsTold ((B.moment bay.new).asked (Stream.Input port)) name.now }
    ensures touched { Touched (Stream.Input port) (B.moment bay.old) (B.moment bay.new) }
{
    let stream = Stream::Input(port);
    match bay.open(stream, name) {
        Ok(()) => {}
        Err(_) => return Err(ReadFailure::Unopened(port)),
    }
    match read_whole(alloc, bay, stream, most) {
        Ok(bytes) => Ok(bytes),
        Err(error) => Err(unread(port, error)),
    }
}

/// Why the open input of a port wasn't read to its end.
fn unread(port: u32, error: ReadError) -> ReadFailure
    ensures { result ≡ unread_by port error }
{
    match error {
        ReadError::TooLong => ReadFailure::TooLong(port),
        ReadError::Fault => ReadFailure::Unread(port),
        ReadError::OutOfMemory => ReadFailure::OutOfMemory,
    }
}
