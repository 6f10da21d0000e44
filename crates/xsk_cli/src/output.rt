//! The outputs of a command, and its report. No output is opened before each text is made, and the report comes last
//! (`specs/Streams`).
ghost use Rattle.std.specs.Prelude.{◌≡◌, ℕ, ◌<◌, ◌≤◌, ◌∷◌, [], false, length, map, IfErr, OnOk};
ghost use Rattle.std.specs.List.{slice_index_or};
ghost use Rattle.xsk_pcap.specs.Written.{IsWritable};
ghost use Rattle.xsk_io.specs.Bay.{Adds, Same, Grows, IsOffered};
ghost use Rattle.xsk_cli.specs.Cause.{IsCaused, NeverFalls, NoOthers, Unchanged};
ghost use Rattle.xsk_cli.specs.Outcome.{capture_of};
ghost use Rattle.xsk_cli.specs.Steps.{CanBeLaid, FailsOutput, FailsOutputs, FailsWriting, outputs_in, write_status, written_in};
ghost use Rattle.xsk_cli.specs.Streams.{AreWritten, IsTold, IsWhole, Rewritten};

use crate::failure::WriteFailure;
use crate::leaves::Leaves;
use crate::texts::{Outputs, Texts};
use xsk_io::{Bay, Stream, write_whole};

/// Opens the outputs by their names and writes them, one after another, and then the report. Captures of what a run left are
/// written where its lists stand.
pub(crate) fn write_texts<B: Bay, L: Leaves>(
    bay: &mut B,
    names: &[&str],
    left: &mut L,
    texts: &Texts,
) -> Result<(), WriteFailure>
    requires few { length names.now ≤ 4 }
    requires texts { length (outputs_in (L.sent left.old) texts.now.outputs) ≡ length names.now }
    requires laid { CanBeLaid (L.sent left.old) texts.now.outputs }
    requires closed { (port : ℕ) → (B.moment bay.old).is_open (Stream.Output port) ≡ false }
    ensures written { OnOk result (AreWritten (map (λ name. name.now) names.now) (written_in (L.sent left.old) texts.now).outputs (length names.now) (length names.now) (B.moment bay.old) (B.moment bay.new)) }
    ensures report { OnOk result (Grows ((B.moment bay.old).held Stream.Report) ((B.moment bay.new).held Stream.Report) (written_in (L.sent left.old) texts.now).report) }
    ensures offered { OnOk result (IsOffered ((B.moment bay.old).offers Stream.Report) ((B.moment bay.new).offers Stream.Report) (length (written_in (L.sent left.old) texts.now).report)) }
    ensures failed { IfErr result (FailsWriting (map (λ name. name.now) names.now) (written_in (L.sent left.old) texts.now) (B.moment bay.old) (B.moment bay.new)) }
    ensures opened { (port : ℕ) → (B.moment bay.new).is_open (Stream.Input port) ≡ (B.moment bay.old).is_open (Stream.Input port) }
    ensures asked { (port : ℕ) → (B.moment bay.new).asked (Stream.Input port) ≡ (B.moment bay.old).asked (Stream.Input port) }
    ensures left { Same (B.moment bay.old).left (B.moment bay.new).left }
    ensures falls { NeverFalls (B.moment bay.old).faults (B.moment bay.new).faults }
    ensures unchanged { OnOk result (Unchanged (B.moment bay.old).faults (B.moment bay.new).faults) }
    ensures others { IfErr result (λ failure. NoOthers (B.moment bay.old).faults (B.moment bay.new).faults (write_status failure)) }
    ensures cause { IfErr result (λ failure. IsCaused (B.moment bay.old).faults (B.moment bay.new).faults (write_status failure)) }
    ensures kept { left.new ≡ left.old }
{
    write_outputs(bay, names, left, &texts.outputs)?;
    match write_whole(bay, Stream::Report, texts.report.as_slice()) {
        Ok(()) => Ok(()),
        Err(_) => Err(WriteFailure::Unwritten(Stream::Report)),
    }
}

/// Opens the outputs by their names and writes them, one after another.
fn write_outputs<B: Bay, L: Leaves>(
    bay: &mut B,
    names: &[&str],
    left: &mut L,
    outputs: &Outputs,
) -> Result<(), WriteFailure>
    requires few { length names.now ≤ 4 }
    requires outputs { length (outputs_in (L.sent left.old) outputs.now) ≡ length names.now }
    requires laid { CanBeLaid (L.sent left.old) outputs.now }
    requires closed { (port : ℕ) → (B.moment bay.old).is_open (Stream.Output port) ≡ false }
    ensures written { OnOk result (AreWritten (map (λ name. name.now) names.now) (outputs_in (L.sent left.old) outputs.now) (length names.now) (length names.now) (B.moment bay.old) (B.moment bay.new)) }
    ensures failed { IfErr result (FailsOutputs (map (λ name. name.now) names.now) (outputs_in (L.sent left.old) outputs.now) (B.moment bay.old) (B.moment bay.new)) }
    ensures report { (B.moment bay.new).held Stream.Report ≡ (B.moment bay.old).held Stream.Report }
    ensures unoffered { Adds ((B.moment bay.old).offers Stream.Report) ((B.moment bay.new).offers Stream.Report) [] }
    ensures opened { (port : ℕ) → (B.moment bay.new).is_open (Stream.Input port) ≡ (B.moment bay.old).is_open (Stream.Input port) }
    ensures asked { (port : ℕ) → (B.moment bay.new).asked (Stream.Input port) ≡ (B.moment bay.old).asked (Stream.Input port) }
    ensures left { Same (B.moment bay.old).left (B.moment bay.new).left }
    ensures falls { NeverFalls (B.moment bay.old).faults (B.moment bay.new).faults }
    ensures unchanged { OnOk result (Unchanged (B.moment bay.old).faults (B.moment bay.new).faults) }
    ensures others { IfErr result (λ failure. NoOthers (B.moment bay.old).faults (B.moment bay.new).faults (write_status failure)) }
    ensures cause { IfErr result (λ failure. IsCaused (B.moment bay.old).faults (B.moment bay.new).faults (write_status failure)) }
    ensures kept { left.new ≡ left.old }
{
    for port in 0..names.len() as u32 {
        write_next(bay, port, names[port as usize], left, outputs)?;
    }
    Ok(())
}

/// Opens the output of a port and writes it.
fn write_next<B: Bay, L: Leaves>(
    bay: &mut B,
    port: u32,
    name: &str,
    left: &mut L,
    outputs: &Outputs,
) -> Result<(), WriteFailure>
    requires port { port < 4 }
    requires known { port < length (outputs_in (L.sent left.old) outputs.now) }
    requires laid { CanBeLaid (L.sent left.old) outputs.now }
    requires closed { (B.moment bay.old).is_open (Stream.Output port) ≡ false }
    ensures written { OnOk result (IsWhole port (slice_index_or (outputs_in (L.sent left.old) outputs.now) port []) (B.moment bay.old) (B.moment bay.new)) }
    ensures failed { IfErr result (FailsOutput port (slice_index_or (outputs_in (L.sent left.old) outputs.now) port []) (B.moment bay.old) (B.moment bay.new)) }
    ensures others { IfErr result (λ failure. NoOthers (B.moment bay.old).faults (B.moment bay.new).faults (write_status failure)) }
    ensures asked { IsTold ((B.moment bay.new).asked (Stream.Output port)) name.now }
    ensures rewritten { Rewritten (Stream.Output port) (B.moment bay.old) (B.moment bay.new) }
    ensures kept { left.new ≡ left.old }
{
    match outputs {
        Outputs::Laid => write_laid(bay, port, name, left),
        Outputs::Copied(texts) => write_output(bay, port, name, texts[port as usize].as_slice()),
    }
}

/// Opens the output of a port and writes the capture of what the driver of a pair sent, where its list stands. The pairs are the
/// ports.
fn write_laid<B: Bay, L: Leaves>(
    bay: &mut B,
    port: u32,
    name: &str,
    left: &mut L,
) -> Result<(), WriteFailure>
    requires port { port < 4 }
    requires known { port < length (L.sent left.old) }
    requires writable { IsWritable (slice_index_or (L.sent left.old) port [] ∷ []) }
    requires closed { (B.moment bay.old).is_open (Stream.Output port) ≡ false }
    ensures written { OnOk result (IsWhole port (capture_of (slice_index_or (L.sent left.old) port [])) (B.moment bay.old) (B.moment bay.new)) }
    ensures failed { IfErr result (FailsOutput port (capture_of (slice_index_or (L.sent left.old) port [])) (B.moment bay.old) (B.moment bay.new)) }
    ensures others { IfErr result (λ failure. NoOthers (B.moment bay.old).faults (B.moment bay.new).faults (write_status failure)) }
    ensures asked { IsTold ((B.moment bay.new).asked (Stream.Output port)) name.now }
    ensures rewritten { Rewritten (Stream.Output port) (B.moment bay.old) (B.moment bay.new) }
    ensures kept { left.new ≡ left.old }
{
    match left.lay(port) {
        Some(text) => write_output(bay, port, name, text),
        None => unreachable!(),
    }
}

/// Opens the output of a port and writes its text.
fn write_output<B: Bay>(bay: &mut B, port: u32, name: &str, text: &[u8]) -> Result<(), WriteFailure>
    requires port { port < 4 }
    requires closed { (B.moment bay.old).is_open (Stream.Output port) ≡ false }
    ensures written { OnOk result (IsWhole port text.now (B.moment bay.old) (B.moment bay.new)) }
    ensures failed { IfErr result (FailsOutput port text.now (B.moment bay.old) (B.moment bay.new)) }
    ensures others { IfErr result (λ failure. NoOthers (B.moment bay.old).faults (B.moment bay.new).faults (write_status failure)) }
    ensures asked { IsTold ((B.moment bay.new).asked (Stream.Output port)) name.now }
    ensures rewritten { Rewritten (Stream.Output port) (B.moment bay.old) (B.moment bay.new) }
{
    let stream = Stream::Output(port);
    match bay.open(stream, name) {
        Ok(()) => {}
        Err(_) => return Err(WriteFailure::Unopened(port)),
    }
    match write_whole(bay, stream, text) {
        Ok(()) => Ok(()),
        Err(_) => Err(WriteFailure::Unwritten(stream)),
    }
}
