//! Runs commands over a bay in memory of which calls fail, or take few bytes, or whose workers a gate holds, and prints how each
//! ended and what it left. What files on disk show is in `tests/cases`.
//!
//! Each line of standard input is an instruction, whose first word says what it does:
//!
//! - `case NAME` begins a case, which has no texts and no inputs yet.
//! - `text NAME DIGITS ..` names bytes, in hexadecimal digits.
//! - `inputs NAME ..` says the texts that the ports' inputs have.
//! - `room N` says how many bytes an output takes, and the report; 65,536 where it isn't said.
//! - `fail open N`, `fail read N`, `fail write N`, `most N`, `pair WORKER WORKER`, `hold WORKER`, `writes` and `has FRONT` are
//!   about the next run: a call that fails, the most bytes that a write takes, a gate, that its writes are told, and that of its
//!   report only is told whether it has a line that begins so.
//! - `run WORD ..` runs the command of these words, with threads for `forward`, and `alone WORD ..` without.
//!
//! Empty lines and those that begin with `#` say nothing.
#![tactic(auto)]

mod case;
mod gate;
mod run;
mod show;
mod text;

use crate::case::Case;
use crate::run::{run, run_alone};
use anyhow::Result;
use std::alloc::Global;
use std::fmt::Write;
use std::process::ExitCode;
use std::sync::Wait;
use std::thread::Threads;

/// Does what a line says, and tells what is to be printed.
fn answer<R: Threads + Wait + Sync>(
    rt: &R,
    host: &HostRuntime,
    alloc: Global,
    case: &mut Case,
    line: &str,
    told: &mut String,
) -> Result<()> {
    let (name, rest) = line.split_once(' ').unwrap_or((line, ""));
    match name {
        "" | "#" => Ok(()),
        "case" => begin(alloc, case, rest, told),
        "run" => run(rt, host, alloc, case, rest, told),
        "alone" => run_alone(alloc, case, rest, told),
        _ => set(alloc, case, name, rest, line, told),
    }
}

/// Begins a case.
fn begin(alloc: Global, case: &mut Case, name: &str, told: &mut String) -> Result<()> {
    *case = Case::new(alloc);
    writeln!(told, "\n== {name}")?;
    Ok(())
}

/// Keeps what a line says of a case.
fn set(
    alloc: Global,
    case: &mut Case,
    name: &str,
    value: &str,
    line: &str,
    told: &mut String,
) -> Result<()> {
    if !case.set(alloc, name, value)? {
        writeln!(told, "no such instruction: {line}")?;
    }
    Ok(())
}

/// Does what a line says, and prints what is told of it.
fn play_line<R: Print + Threads + Wait + Sync>(
    rt: &R,
    host: &HostRuntime,
    alloc: Global,
    case: &mut Case,
    line: &str,
) -> Result<()> {
    let mut told = String::new(alloc);
    answer(rt, host, alloc, case, line, &mut told)?;
    print!(rt; "{told}")?;
    Ok(())
}

/// Does what the lines of standard input say. What a run on threads shows is given up by the host's runtime.
fn play<R: Input + Print + AllocGlobal + Threads + Wait + Sync>(
    rt: &R,
    host: &HostRuntime,
) -> Result<()> {
    let alloc = rt.alloc();
    let mut case = Case::new(alloc);
    for line in rt.lines(alloc) {
        let line = line?;
        play_line(rt, host, alloc, &mut case, line.as_str())?;
    }
    Ok(())
}

fn main(rt: HostRuntime) -> ExitCode {
    match play(&rt, &rt) {
        Ok(()) => ExitCode::SUCCESS,
        Err(_) => ExitCode::FAILURE,
    }
}
