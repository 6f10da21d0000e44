//! The program: the words behind its name, and what the commands answer them.
#![tactic(auto)]

ghost use Rattle.std.specs.Prelude.{map, string_bytes, MatchResult};
ghost use Rattle.xsk_io.specs.Bay.{NoneOpen};
ghost use Rattle.xsk_program.specs.Answering.{IsAnsweredSo, IsTold};

mod answered;

pub use answered::Answered;
use std::alloc::Global;
use std::env;
use std::io::ErrorKind;
use std::rt::Env;
use std::sync::Wait;
use std::thread::Threads;
use xsk_checking::{is_check, run_check};
use xsk_cli::{Ended, Status, tell};
use xsk_gate::Open;
use xsk_io::Bay;

/// Does what words say, over a bay of which no stream is open, with a thread for each worker where the command is `forward`, or
/// tells why there are none. A refusal is told in one line to the report. No worker is held at a gate.
pub fn answer<R: Threads + Wait + Sync, B: Bay>(
    rt: &R,
    alloc: Global,
    words: Result<Vec<String>, Status>,
    bay: &mut B,
) -> Answered
    requires { NoneOpen (B.moment bay.old) }
    ensures { MatchResult words
        (λ given. IsAnsweredSo (map string_bytes given.items) (B.moment bay.old) (B.moment bay.new) result)
        (λ why. IsTold why (B.moment bay.old) (B.moment bay.new) result) }
{
    match words {
        Ok(words) => answer_words(rt, alloc, words.as_slice(), bay),
        Err(status) => {
            tell(bay, &status);
            Answered::Ran(Ended {
                status,
                outcome: None,
            })
        }
    }
}

/// Does what words say.
fn answer_words<R: Threads + Wait + Sync, B: Bay>(
    rt: &R,
    alloc: Global,
    words: &[String],
    bay: &mut B,
) -> Answered
    requires { NoneOpen (B.moment bay.old) }
    ensures { IsAnsweredSo (map string_bytes words.now) (B.moment bay.old) (B.moment bay.new) result }
{
    if is_check(words) {
        return Answered::Checked(run_check(alloc, words, bay));
    }
    Answered::Ran(xsk_cli::run(rt, alloc, words, bay, &Open))
}

/// The words behind the program's name. One that isn't UTF-8 is a faulty command line.
pub fn words_of<R: Env + AllocGlobal>(rt: &R) -> Result<Vec<String>, Status> {
    let words = match env::args(rt) {
        Ok(words) => words,
        Err(error) => return Err(status_of(error.kind())),
    };
    words
        .skip(1)
        .collect(rt.alloc())
        .map_err(|_| Status::OutOfMemory)
}

/// Why there are no words.
fn status_of(kind: ErrorKind) -> Status {
    if kind == ErrorKind::OutOfMemory {
        Status::OutOfMemory
    } else {
        Status::Usage
    }
}
