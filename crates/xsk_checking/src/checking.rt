//! The command `check`, from its words to its end.
ghost use Rattle.std.specs.Prelude.{◌≡◌, ◌++◌, ◌∷◌, [], ℕ, List, None, Some, IfNone, IfOk, IfErr, IfSome, map, string_bytes};
ghost use Rattle.xsk_args.specs.Words.{is_dashed};
ghost use Rattle.xsk_io.specs.Bay.{CountsOnly, NoneOpen, Same};
ghost use Rattle.xsk_io.specs.declared.bay.Kind.{Kind};
ghost use Rattle.xsk_check.specs.Checking.{IsReady, StandsFor};
ghost use Rattle.xsk_check.specs.Naming.{IsNamed, named_of};
ghost use Rattle.xsk_checking.specs.Ending.{file_in, is_check as are_check, verdict_text, Comes, HasFailed, HasJudged, HasTold, IsAnswer, MayFollow, Settles};
ghost use Rattle.xsk_recording.specs.Verdict.{IsVerdict};

use crate::end::{End, Failure};
use crate::reading::judge_file;
use crate::told::{ended_text, found_text};
use std::alloc::Global;
use xsk_check::{Check, Finding, named_line};
use xsk_io::{Bay, Stream, write_whole};
use xsk_recording::Verdict;

/// How a check ended, and the earlier line of the file that its report names, where it names one.
#[derive(Clone, Copy, Debug, PartialEq, Eq)]
pub struct Checkup {
    pub end: End,
    pub named: Option<u64>,
}

/// What is told of a recording.
#[derive(Drop)]
struct Report {
    verdict: Verdict,
    text: Vec<u8>,
    named: Option<u64>,
}

/// Whether the first word is `check`.
pub fn is_check(words: &[String]) -> bool
    ensures { result ≡ are_check (map string_bytes words.now) }
{
    match words.first() {
        Some(first) => first.as_str() == "check",
        None => false,
    }
}

/// Does what words say that begin with `check`, over a bay of which no stream is open.
///
/// `check FILE` reads the recording in a file, in pieces and as far as its verdict needs, and tells the verdict in a line to the report:
/// `possible N`, `not possible L`, `no recording L`, `no setting L WHAT`, `no calls` or `empty`. Where a call isn't possible its line
/// and the reason follow; where all are, the hints (`xsk_hints`). A failure is told in its line, as those of the other commands.
pub fn run_check<B: Bay>(alloc: Global, words: &[String], bay: &mut B) -> Checkup
    requires { NoneOpen (B.moment bay.old) }
    ensures { IsAnswer (file_in (map string_bytes words.now)) (B.moment bay.old) (B.moment bay.new) result.end result.named }
{
    match judge_words(alloc, words, bay) {
        Ok(report) => tell(bay, report),
        Err(failure) => {
            let _told = write_whole(bay, Stream::Report, failure.line().as_bytes());
            Checkup {
                end: End::Failed(failure),
                named: None,
            }
        }
    }
}

/// Tells what is told of a recording. That it is possible is a success only where it could be told.
fn tell<B: Bay>(bay: &mut B, report: Report) -> Checkup
    ensures comes { Comes report.verdict report.text.items (B.moment bay.old) (B.moment bay.new) result.end }
    ensures named { result.named ≡ report.named }
    ensures asked { Same (B.moment bay.old).asked (B.moment bay.new).asked }
    ensures counts { CountsOnly Kind.Write Stream.Report (B.moment bay.old).faults (B.moment bay.new).faults }
{
    let written = write_whole(bay, Stream::Report, report.text.as_slice());
    let end = match report.verdict {
        Verdict::Possible { .. } if written.is_err() => End::Failed(Failure::Unwritten),
        verdict => End::Judged(verdict),
    };
    Checkup {
        end,
        named: report.named,
    }
}

/// Reads and judges the file that the words name.
fn judge_words<B: Bay>(alloc: Global, words: &[String], bay: &mut B) -> Result<Report, Failure>
    requires { NoneOpen (B.moment bay.old) }
    ensures judged { IfOk result (λ report. HasJudged (file_in (map string_bytes words.now)) (B.moment bay.old) (B.moment bay.new) report.verdict report.text.items report.named) }
    ensures failed { IfErr result (HasFailed (file_in (map string_bytes words.now)) (B.moment bay.old) (B.moment bay.new)) }
{
    let Some(file) = file_of(words) else {
        return Err(Failure::Usage);
    };
    let mut check = Check::new(alloc);
    let found = judge_file(alloc, &mut check, bay, file)?;
    report_of(alloc, &check, found)
}

/// The file behind the word `check`.
fn file_of(words: &[String]) -> Option<&str>
    ensures some { IfSome result (λ file. file_in (map string_bytes words.now) ≡ Some file.now) }
    ensures none { IfNone result (file_in (map string_bytes words.now) ≡ None) }
{
    if words.len() != 2 {
        return None;
    }
    let file = words[1].as_str();
    if begins_with_dash(file) {
        return None;
    }
    Some(file)
}

/// Whether a word begins with `-` and is longer than this one character.
fn begins_with_dash(word: &str) -> bool
    ensures { result ≡ is_dashed word.now }
{
    let bytes = word.as_bytes();
    bytes.len() > 1 && bytes[0] == b'-'
}

/// What is told of a file that was read to its end, or as far as its verdict needs.
fn report_of(alloc: Global, check: &Check, found: Option<Finding>) -> Result<Report, Failure>
    requires { (bytes : List ℕ) × Settles check.now bytes found }
    ensures verdict { IfOk result (λ report. (bytes : List ℕ) → Settles check.now bytes found → IsVerdict bytes report.verdict) }
    ensures text { IfOk result (λ report. (bytes : List ℕ) → Settles check.now bytes found → HasTold bytes report.verdict report.text.items) }
    ensures named { IfOk result (λ report. (bytes : List ℕ) → Settles check.now bytes found → IsNamed bytes report.verdict report.named) }
    ensures failed { IfErr result (λ failure. failure ≡ Failure.OutOfMemory) }
{
    match found {
        Some(finding) => report_on(alloc, check, finding),
        None => report_at_end(alloc, check, check.verdict()),
    }
}

/// What is told of a verdict that is found before the end.
fn report_on(alloc: Global, check: &Check, finding: Finding) -> Result<Report, Failure>
    ensures verdict { IfOk result (λ report. report.verdict ≡ finding.verdict) }
    ensures named { IfOk result (λ report. report.named ≡ named_of finding.verdict finding.blame) }
    ensures text { IfOk result (λ report. (behind : List ℕ) × MayFollow finding.verdict behind × (report.text.items ≡ verdict_text finding.verdict ++ behind)) }
    ensures failed { IfErr result (λ failure. failure ≡ Failure.OutOfMemory) }
{
    let Finding { verdict, blame } = finding;
    let text = found_text(alloc, check, verdict, blame.as_ref())?;
    let named = match (verdict, &blame) {
        (Verdict::NotPossible { line }, Some(blame)) => named_line(line, blame.why),
        _ => None,
    };
    Ok(Report {
        verdict,
        text,
        named,
    })
}

/// What is told of the verdict at the end.
fn report_at_end(alloc: Global, check: &Check, verdict: Verdict) -> Result<Report, Failure>
    requires { IsReady check.now }
    ensures verdict { IfOk result (λ report. report.verdict ≡ verdict) }
    ensures named { IfOk result (λ report. report.named ≡ None) }
    ensures text { IfOk result (λ report. (bytes : List ℕ) → StandsFor check.now bytes → IsVerdict bytes verdict → HasTold bytes verdict report.text.items) }
    ensures failed { IfErr result (λ failure. failure ≡ Failure.OutOfMemory) }
{
    Ok(Report {
        verdict,
        text: ended_text(alloc, check, verdict)?,
        named: None,
    })
}
