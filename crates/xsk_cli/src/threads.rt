//! All commands, over a runtime that has threads: `forward`, and what [`run_plain`](crate::run_plain) does.
ghost use Rattle.std.specs.Prelude.{◌≡◌, false, true, None, map, string_bytes};
ghost use Rattle.std.specs.Process.{exit_status};
ghost use Rattle.xsk_io.specs.Bay.{NoneOpen};
ghost use Rattle.xsk_cli.specs.Ample.{Finishes, GoesOn};
ghost use Rattle.xsk_cli.specs.ExitStatus.{exit_status_of};
ghost use Rattle.xsk_cli.specs.Forward.{ComesShown, IsPlainAnswer, IsShownAnswer, ended_in, forward_plan as planned_by, is_forward as are_forward};
ghost use Rattle.xsk_cli.specs.Line.{line_of};
ghost use Rattle.xsk_cli.specs.Steps.{ComesTo};
ghost use Rattle.xsk_cli.specs.Words.{plan_of};

use crate::Status;
use crate::chain::Chained;
use crate::options::FORWARD;
use crate::plain::{run_plain, status_of, tell};
use crate::shown::run_on_threads;
use crate::thread_run::ThreadRun;
use crate::words::{Plan, check_words};
use std::alloc::Global;
use std::process::ExitCode;
use std::sync::Wait;
use std::thread::Threads;
use xsk_args::parse;
use xsk_gate::Gate;
use xsk_io::Bay;

/// How a command ended, and what its run on threads shows.
pub struct Ended {
    pub status: Status,
    /// It is there exactly where a run on threads has ended, whatever came of its texts.
    pub outcome: Option<ThreadRun>,
}

impl Ended {
    /// The exit status of a program that ends so. What its run shows is given up.
    pub fn into_exit_code(self, rt: &HostRuntime) -> ExitCode
        ensures { exit_status result ≡ exit_status_of self.status }
    {
        let Ended { status, outcome } = self;
        if let Some(run) = outcome {
            run.give_up(rt);
        }
        ExitCode::from(status)
    }
}

/// Does what the words of a command line say, over a bay of which no stream is open, with threads for `forward`.
///
/// `forward [OPTION ..] IN0 IN1 .. OUT0 OUT1 ..` is `simulate` (see [`run_plain`]) with each driver and each application in a
/// thread of its own, or with `--hands` each application in several, and with no order of rounds. Each worker passes the gate
/// before each of its turns. The texts are those of the one history that the outcome shows. Nothing is promised of an end. Every
/// other command is done as `run_plain` does it.
pub fn run<R: Threads + Wait + Sync, B: Bay, G: Gate + Sync>(
    rt: &R,
    alloc: Global,
    words: &[String],
    bay: &mut B,
    gate: &G,
) -> Ended
    requires { NoneOpen (B.moment bay.old) }
    ensures plain { are_forward (map string_bytes words.now) ≡ false → IsPlainAnswer (plan_of (map string_bytes words.now)) (B.moment bay.old) (B.moment bay.new) result.status }
    ensures goes_on { are_forward (map string_bytes words.now) ≡ false → GoesOn (plan_of (map string_bytes words.now)) result.status }
    ensures finishes { are_forward (map string_bytes words.now) ≡ false → Finishes (plan_of (map string_bytes words.now)) (B.moment bay.old) (B.moment bay.new) result.status }
    ensures no_threads { are_forward (map string_bytes words.now) ≡ false → result.outcome ≡ None }
    ensures threads { are_forward (map string_bytes words.now) ≡ true → IsShownAnswer result.outcome (planned_by (map string_bytes words.now)) (B.moment bay.old) (B.moment bay.new) result.status }
{
    if is_forward(words) {
        return run_forward(rt, alloc, words, bay, gate);
    }
    Ended {
        status: run_plain(alloc, words, bay),
        outcome: None,
    }
}

/// Whether the first word is `forward`.
fn is_forward(words: &[String]) -> bool
    ensures { result ≡ are_forward (map string_bytes words.now) }
{
    match words.first() {
        Some(first) => first.as_str() == "forward",
        None => false,
    }
}

/// Does what words say that begin with `forward`, and tells a refusal.
fn run_forward<R: Threads + Wait + Sync, B: Bay, G: Gate + Sync>(
    rt: &R,
    alloc: Global,
    words: &[String],
    bay: &mut B,
    gate: &G,
) -> Ended
    requires { NoneOpen (B.moment bay.old) }
    ensures { IsShownAnswer result.outcome (planned_by (map string_bytes words.now)) (B.moment bay.old) (B.moment bay.new) result.status }
{
    let ended = ended_by(forward_words(rt, alloc, words, bay, gate));
    tell(bay, &ended.status);
    ended
}

/// How a command ended that gave this: where it gives a status alone no run on threads has ended.
fn ended_by(answer: Result<Ended, Status>) -> Ended
    ensures { result ≡ ended_in answer }
{
    match answer {
        Ok(ended) => ended,
        Err(status) => Ended {
            status,
            outcome: None,
        },
    }
}

/// Does what words say that begin with `forward`. It gives a status alone where no run has ended.
fn forward_words<R: Threads + Wait + Sync, B: Bay, G: Gate + Sync>(
    rt: &R,
    alloc: Global,
    words: &[String],
    bay: &mut B,
    gate: &G,
) -> Result<Ended, Status>
    requires { NoneOpen (B.moment bay.old) }
    ensures { ComesTo (λ work. ComesShown work (ended_in result).outcome) (planned_by (map string_bytes words.now)) (B.moment bay.old) (B.moment bay.new)
        (ended_in result).status (line_of (ended_in result).status) }
{
    let args = parse(alloc, "forward", FORWARD, words)?;
    check_words(&args)?;
    let plan = Plan::of(&args)?;
    let Chained { result, left } = run_on_threads(rt, alloc, &plan, bay, gate);
    Ok(Ended {
        status: status_of(result),
        outcome: left,
    })
}
