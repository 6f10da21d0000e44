//! The command `audit`: whether a journal is that of a legal history, for the configuration that the words ask for.
ghost use Rattle.std.specs.Prelude.{◌≡◌, ◌∷◌, [], ◌≢◌, None, Some, IfErr, IfOk, IfSome, IfNone, map, string_bytes};
ghost use Rattle.xsk_args.specs.Meaning.{under};
ghost use Rattle.xsk_args.specs.Words.{Text};
ghost use Rattle.xsk_io.specs.Bay.{NoneOpen};
ghost use Rattle.xsk_socket.specs.Layout.{fault_of};
ghost use Rattle.xsk_cli.specs.Outcome.{IsAudited, legal_text, made};
ghost use Rattle.xsk_cli.specs.Steps.{CanBeLaid, Comes, FailsAudit, written_in};
ghost use Rattle.xsk_cli.specs.Words.{audit_plan, audit_plan_by, files_in, layout_by, without_files};

use crate::Status;
use crate::chain::Chained;
use crate::failure::{Refusal, RunFailure};
use crate::misfit::explain_misfit;
use crate::options::{AUDIT, WHY_ILLEGAL};
use crate::setup::set_up;
use crate::texts::{Outputs, Texts};
use crate::words::{Plan, Work, layout_of};
use crate::work::do_without_run;
use std::alloc::Global;
use std::fmt::Write;
use xsk_args::{Args, parse};
use xsk_audit::{Verdicts, audit};
use xsk_io::Bay;
use xsk_socket::{Layout, Unlawful, check_layout};
use xsk_umem::OutOfMemory;

/// Does what words say that begin with `audit`.
pub(crate) fn run_audit<B: Bay>(alloc: Global, words: &[String], bay: &mut B) -> Result<(), Refusal>
    requires { NoneOpen (B.moment bay.old) }
    ensures { Comes (audit_plan (map string_bytes words.now)) (B.moment bay.old) (B.moment bay.new) result }
{
    let args = parse(alloc, "audit", AUDIT, words)?;
    audit_said(alloc, &args, bay)
}

/// Does what the words of an audit say.
fn audit_said<B: Bay>(alloc: Global, args: &Args<'_>, bay: &mut B) -> Result<(), Refusal>
    requires { NoneOpen (B.moment bay.old) }
    ensures { Comes (audit_plan_by (under args.now) (files_in (under args.now))) (B.moment bay.old) (B.moment bay.new) result }
{
    let Some(file) = one_file(args) else {
        return Err(Refusal::Bare(Status::Usage));
    };
    let layout = audited_layout(args)?;
    audit_file(alloc, file, layout, args.is_said(&WHY_ILLEGAL), bay)
}

/// Audits the journal of a file by an accepted layout.
fn audit_file<B: Bay>(
    alloc: Global,
    file: &str,
    layout: Layout,
    why: bool,
    bay: &mut B,
) -> Result<(), Refusal>
    requires closed { NoneOpen (B.moment bay.old) }
    requires accepted { fault_of layout ≡ None }
    ensures { Comes (Some (record { inputs = file.now ∷ []; outputs = []; work = Work.Audit layout why })) (B.moment bay.old) (B.moment bay.new) result }
{
    let inputs = [file];
    let plan = Plan {
        inputs: &inputs,
        outputs: &[],
        work: Work::Audit { layout, why },
    };
    let Chained {
        result,
        left: _nothing,
    } = do_without_run(alloc, &plan, bay);
    result
}

/// The file, where exactly one was named.
fn one_file<'w>(args: &Args<'w>) -> Option<&'w str>
    ensures one { IfSome result (λ file. files_in (under args.now) ≡ file.now ∷ []) }
    ensures none { IfNone result ((file : Text) → files_in (under args.now) ≢ file ∷ []) }
{
    match args.files()? {
        [file] => Some(*file),
        _ => None,
    }
}

/// The layout that was asked for, unless it is refused. It wants no files.
fn audited_layout(args: &Args<'_>) -> Result<Layout, Unlawful>
    ensures layout { IfOk result (λ layout. layout ≡ without_files (layout_by (under args.now))) }
    ensures accepted { IfOk result (λ layout. fault_of layout ≡ None) }
    ensures refused { IfErr result (λ unlawful. fault_of (without_files (layout_by (under args.now))) ≡ Some unlawful) }
{
    let mut layout = layout_of(args);
    layout.files = 0;
    layout.files_wanted_per_port = 0;
    check_layout(&layout)?;
    Ok(layout)
}

/// The line that tells a legal journal, or the line from which on it isn't legal, and why, where that is asked for.
pub(crate) fn audit_texts(
    alloc: Global,
    layout: &Layout,
    why: bool,
    text: &[u8],
) -> Result<Texts, RunFailure>
    requires { fault_of layout.now ≡ None }
    ensures made { IfOk result (λ texts. IsAudited layout.now text.now (made (written_in [] texts))) }
    ensures laid { IfOk result (λ texts. CanBeLaid [] texts.outputs) }
    ensures failed { IfErr result (FailsAudit why layout.now text.now) }
{
    let (config, frames) = set_up(alloc, layout)?;
    match audit(alloc, config, frames, text)? {
        Verdicts::Legal { entries } => Ok(legal_texts(alloc, entries)?),
        Verdicts::NotLegal { line } => Err(explain_misfit(alloc, layout, why, line, text)),
    }
}

/// The one line of a journal that is legal, with so many entries.
fn legal_texts(alloc: Global, entries: u64) -> Result<Texts, OutOfMemory>
    ensures legal { IfOk result (λ texts. written_in [] texts ≡ record { outputs = []; report = legal_text entries }) }
    ensures laid { IfOk result (λ texts. CanBeLaid [] texts.outputs) }
{
    let mut report = String::new(alloc);
    writeln!(report, "legal {entries}")?;
    Ok(Texts {
        outputs: Outputs::Copied(Vec::new(alloc)),
        report: report.into_bytes(),
    })
}
