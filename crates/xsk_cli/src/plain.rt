//! The command on one thread, from its words to its status.
ghost use Rattle.std.specs.Prelude.{◌≡◌, Some, map, string_bytes};
ghost use Rattle.xsk_io.specs.Bay.{AddsNoneBut, CountsOnly, Same, SameBut, NoneOpen};
ghost use Rattle.xsk_io.specs.declared.bay.Kind.{Kind};
ghost use Rattle.xsk_cli.specs.Ample.{Finishes, GoesOn};
ghost use Rattle.xsk_cli.specs.Cause.{NeverFalls, Unchanged};
ghost use Rattle.xsk_cli.specs.Forward.{IsPlainAnswer};
ghost use Rattle.xsk_cli.specs.Line.{line_of};
ghost use Rattle.xsk_cli.specs.Steps.{Comes};
ghost use Rattle.xsk_cli.specs.Streams.{GotLine, HasLine, IsSilent, status_in, text_in};
ghost use Rattle.xsk_cli.specs.Words.{gen_plan, plan_of, simulate_plan};

use crate::Status;
use crate::audit::run_audit;
use crate::chain::Chained;
use crate::failure::Refusal;
use crate::line::line;
use crate::options::SIMULATE;
use crate::rounds::run_in_rounds;
use crate::words::{Plan, Work, check_words, read_gen};
use crate::work::do_without_run;
use std::alloc::Global;
use xsk_args::parse;
use xsk_io::{Bay, Stream, write_whole};

/// Does what the words of a command line say, over a bay of which no stream is open.
///
/// `simulate [OPTION ..] IN0 IN1 .. OUT0 OUT1 ..` reads a capture for each port, forwards the packets of each port to the paired
/// one, or sends them back, as the programs say, and writes a capture for each port, with what the drivers of its queues sent, that
/// of queue 0 first; and then the figures of the run, line by line, to the report. `simulate --gen N [OPTION ..] OUT0 OUT1 ..` makes the packets of a number
/// instead. With `--pcapng` one pcapng file is read, whose interfaces are the ports, and one is written. `gen N FILE` writes a
/// capture of the packets that are made of a number, and then the line `packets P bytes B`. `audit [OPTION ..] FILE` reads a
/// journal, and tells by the line `legal N` that it is the journal of a legal history with so many entries, or by the status
/// the first line that isn't. A refusal is told in one line to the report; behind that of
/// a stall `--why` tells what each worker waits for and what stands in each ring, and with `--journal` the calls so far; and behind that
/// of a journal why the line isn't legal and what stands where.
pub fn run_plain<B: Bay>(alloc: Global, words: &[String], bay: &mut B) -> Status
    requires { NoneOpen (B.moment bay.old) }
    ensures answer { IsPlainAnswer (plan_of (map string_bytes words.now)) (B.moment bay.old) (B.moment bay.new) result }

    // Where each ring of the layout has 32 entries or more, and each pool 18 frames or more, no run stalls: so they come to
    // texts, where no count of faults has risen and memory can be had.
    ensures goes_on { GoesOn (plan_of (map string_bytes words.now)) result }
    ensures finishes { Finishes (plan_of (map string_bytes words.now)) (B.moment bay.old) (B.moment bay.new) result }
{
    let answer = run_words(alloc, words, bay);
    tell_answer(bay, &answer);
    status_of(answer)
}

pub(crate) fn status_of(answer: Result<(), Refusal>) -> Status
    ensures { result ≡ status_in answer }
{
    match answer {
        Ok(()) => Status::Done,
        Err(Refusal::Bare(status)) => status,
        Err(Refusal::Stall { round, .. }) => Status::Stalled { round },
        Err(Refusal::Misfit { line, .. }) => Status::NotLegal { line },
    }
}

/// Does what the words say, and tells nothing of a refusal.
fn run_words<B: Bay>(alloc: Global, words: &[String], bay: &mut B) -> Result<(), Refusal>
    requires { NoneOpen (B.moment bay.old) }
    ensures { Comes (plan_of (map string_bytes words.now)) (B.moment bay.old) (B.moment bay.new) result }
{
    let Some((first, rest)) = words.split_first() else {
        return Err(Refusal::Bare(Status::Usage));
    };
    if first.as_str() == "gen" {
        run_gen(alloc, rest, bay)
    } else if first.as_str() == "audit" {
        run_audit(alloc, words, bay)
    } else {
        run_simulate(alloc, words, bay)
    }
}

/// Does what the words behind `gen` say.
fn run_gen<B: Bay>(alloc: Global, words: &[String], bay: &mut B) -> Result<(), Refusal>
    requires { NoneOpen (B.moment bay.old) }
    ensures { Comes (gen_plan (map string_bytes words.now)) (B.moment bay.old) (B.moment bay.new) result }
{
    let Some((number, file)) = read_gen(words) else {
        return Err(Refusal::Bare(Status::Usage));
    };
    let outputs = [file];
    let plan = Plan {
        inputs: &[],
        outputs: &outputs,
        work: Work::Generate { number },
    };
    let Chained {
        result,
        left: _nothing,
    } = do_without_run(alloc, &plan, bay);
    result
}

/// Does what words say that begin with `simulate`.
fn run_simulate<B: Bay>(alloc: Global, words: &[String], bay: &mut B) -> Result<(), Refusal>
    requires { NoneOpen (B.moment bay.old) }
    ensures { Comes (simulate_plan (map string_bytes words.now)) (B.moment bay.old) (B.moment bay.new) result }
{
    let args = parse(alloc, "simulate", SIMULATE, words)?;
    check_words(&args)?;
    let plan = Plan::of(&args)?;
    let Chained {
        result,
        left: _sent,
    } = run_in_rounds(alloc, &plan, bay);
    result
}

/// Writes all that is told of a refusal to the report. A fault there changes nothing.
fn tell_answer<B: Bay>(bay: &mut B, answer: &Result<(), Refusal>)
    ensures line { HasLine (status_in answer.now) → GotLine (text_in answer.now) (B.moment bay.old) (B.moment bay.new) }
    ensures silent { (HasLine (status_in answer.now) → ⊥) → IsSilent (B.moment bay.old) (B.moment bay.new) }
    ensures offers { AddsNoneBut Stream.Report (B.moment bay.old).offers (B.moment bay.new).offers }
    ensures held { SameBut Stream.Report (B.moment bay.old).held (B.moment bay.new).held }
    ensures opened { Same (B.moment bay.old).is_open (B.moment bay.new).is_open }
    ensures asked { Same (B.moment bay.old).asked (B.moment bay.new).asked }
    ensures left { Same (B.moment bay.old).left (B.moment bay.new).left }
    ensures falls { NeverFalls (B.moment bay.old).faults (B.moment bay.new).faults }
    ensures counts { CountsOnly Kind.Write Stream.Report (B.moment bay.old).faults (B.moment bay.new).faults }
    ensures unchanged { (HasLine (status_in answer.now) → ⊥) → Unchanged (B.moment bay.old).faults (B.moment bay.new).faults }
{
    match answer {
        Ok(()) => {}
        Err(Refusal::Bare(status)) => tell(bay, status),
        Err(Refusal::Stall { text, .. }) | Err(Refusal::Misfit { text, .. }) => {
            let _told = write_whole(bay, Stream::Report, text.as_slice());
        }
    }
}

/// Writes the line of a refusal to the report. A fault there changes nothing.
pub fn tell<B: Bay>(bay: &mut B, status: &Status)
    ensures line { HasLine status.now → GotLine (line_of status.now) (B.moment bay.old) (B.moment bay.new) }
    ensures silent { (HasLine status.now → ⊥) → IsSilent (B.moment bay.old) (B.moment bay.new) }
    ensures offers { AddsNoneBut Stream.Report (B.moment bay.old).offers (B.moment bay.new).offers }
    ensures held { SameBut Stream.Report (B.moment bay.old).held (B.moment bay.new).held }
    ensures opened { Same (B.moment bay.old).is_open (B.moment bay.new).is_open }
    ensures asked { Same (B.moment bay.old).asked (B.moment bay.new).asked }
    ensures left { Same (B.moment bay.old).left (B.moment bay.new).left }
    ensures falls { NeverFalls (B.moment bay.old).faults (B.moment bay.new).faults }
    ensures counts { CountsOnly Kind.Write Stream.Report (B.moment bay.old).faults (B.moment bay.new).faults }
    ensures unchanged { (HasLine status.now → ⊥) → Unchanged (B.moment bay.old).faults (B.moment bay.new).faults }
{
    match status {
        Status::Done | Status::WriteFault { .. } => {}
        _ => {
            let _told = write_whole(bay, Stream::Report, line(status).as_str().as_bytes());
        }
    }
}
