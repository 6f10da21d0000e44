//! A command over a bay in memory. What its contract says is proved of the command; a case looks at its status, its streams and
//! its writes alone.
ghost use Rattle.std.specs.Prelude.{◌≡◌, false, IfOk};
ghost use Rattle.xsk_io.specs.Bay.{NoneOpen};
ghost use Rattle.xsk_io.specs.declared.bay.Stream.{Stream as AStream};
ghost use Rattle.xsk_io.specs.Memory.{is_open_of};

use crate::case::{Case, inputs_of};
use crate::gate::RunGate;
use crate::show::{Shown, show};
use anyhow::{Result, anyhow};
use std::alloc::{AllocError, Global};
use std::fmt::Write;
use std::sync::Wait;
use std::thread::Threads;
use xsk_cli::{Ended, Status, ThreadRun, run_plain};
use xsk_gate::Gate;
use xsk_io::{Bay, MemoryBay};

/// How a command ended, and what its run on threads shows.
#[derive(Clone, Copy)]
struct Told {
    status: Status,
    shown: Shown,
}

/// Runs the command of a line, with threads for `forward`, and tells how it ended and what it left. What was said of the run is
/// forgotten.
pub(crate) fn run<R: Threads + Wait + Sync>(
    rt: &R,
    host: &HostRuntime,
    alloc: Global,
    case: &mut Case,
    line: &str,
    told: &mut String,
) -> Result<()> {
    writeln!(told, "> {line}")?;
    let words = words_of(alloc, line)?;
    run_words(rt, host, alloc, case, words.as_slice(), told)?;
    case.forget();
    Ok(())
}

fn run_words<R: Threads + Wait + Sync>(
    rt: &R,
    host: &HostRuntime,
    alloc: Global,
    case: &Case,
    words: &[String],
    told: &mut String,
) -> Result<()> {
    let mut bay = bay_of(alloc, case)?;
    let ended = run_held(rt, host, alloc, case, words, &mut bay, told)?;
    show(alloc, case, ended.status, ended.shown, &bay, told)?;
    Ok(())
}

/// Runs a command over the gate of a case.
fn run_held<R: Threads + Wait + Sync, B: Bay>(
    rt: &R,
    host: &HostRuntime,
    alloc: Global,
    case: &Case,
    words: &[String],
    bay: &mut B,
    told: &mut String,
) -> Result<Told>
    requires { NoneOpen (B.moment bay.old) }
{
    let gate = RunGate::of(case.next.holds)?;
    let ended = through(rt, host, alloc, words, bay, &gate);
    gate.tell(told)?;
    Ok(ended)
}

/// Runs the command of a line without threads, and tells how it ended and what it left.
pub(crate) fn run_alone(
    alloc: Global,
    case: &mut Case,
    line: &str,
    told: &mut String,
) -> Result<()> {
    writeln!(told, "> {line}")?;
    let words = words_of(alloc, line)?;
    run_words_alone(alloc, case, words.as_slice(), told)?;
    case.forget();
    Ok(())
}

fn run_words_alone(alloc: Global, case: &Case, words: &[String], told: &mut String) -> Result<()> {
    let mut bay = bay_of(alloc, case)?;
    let status = alone(alloc, words, &mut bay);
    show(alloc, case, status, Shown::Nothing, &bay, told)?;
    Ok(())
}

/// The words of a line. An empty line has none.
fn words_of(alloc: Global, line: &str) -> Result<Vec<String>, AllocError> {
    if line.is_empty() {
        return Ok(Vec::new(alloc));
    }
    words_in(alloc, line)
}

/// The words of a line, parted by spaces: one at least, which may be empty.
fn words_in(alloc: Global, line: &str) -> Result<Vec<String>, AllocError> {
    let mut words = Vec::new(alloc);
    for word in line.split(' ') {
        words.push(String::from_str(alloc, word)?)?;
    }
    Ok(words)
}

/// A bay with the inputs of a case, of which the calls fail that are to fail in the next run.
fn bay_of(alloc: Global, case: &Case) -> Result<MemoryBay>
    ensures { IfOk result (λ bay. (stream : AStream) → is_open_of bay.memory stream ≡ false) }
{
    let Some(inputs) = inputs_of(alloc, case)? else {
        return Err(anyhow!("an input has no text"));
    };
    let fails = Vec::from_slice(alloc, case.next.fails.as_slice())?;
    let Ok(mut bay) = MemoryBay::new(alloc, inputs, case.room, fails) else {
        return Err(anyhow!("out of memory"));
    };
    if let Some(most) = case.next.most
        && most >= 1
    {
        bay.take_at_most(most);
    }
    Ok(bay)
}

fn through<R: Threads + Wait + Sync, B: Bay, G: Gate + Sync>(
    rt: &R,
    host: &HostRuntime,
    alloc: Global,
    words: &[String],
    bay: &mut B,
    gate: &G,
) -> Told
    requires { NoneOpen (B.moment bay.old) }
{
    let Ended { status, outcome } = xsk_cli::run(rt, alloc, words, bay, gate);
    Told {
        status,
        shown: shown_by(host, outcome),
    }
}

fn alone<B: Bay>(alloc: Global, words: &[String], bay: &mut B) -> Status
    requires { NoneOpen (B.moment bay.old) }
{
    run_plain(alloc, words, bay)
}

/// What a run on threads shows, which is given up.
fn shown_by(host: &HostRuntime, outcome: Option<ThreadRun>) -> Shown {
    let Some(run) = outcome else {
        return Shown::Nothing;
    };
    let calls = run.figures().calls;
    run.give_up(host);
    if calls == 0 {
        Shown::NoCalls
    } else {
        Shown::Calls
    }
}
