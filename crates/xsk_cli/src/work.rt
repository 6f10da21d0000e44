//! The work of commands that make no run.
ghost use Rattle.std.specs.Prelude.{◌≡◌, [], None, IfErr, IfOk, length, map};
ghost use Rattle.xsk_io.specs.Bay.{NoneOpen};
ghost use Rattle.xsk_cli.specs.Cause.{IsCaused, NeverFalls, NoOthers};
ghost use Rattle.xsk_cli.specs.Ends.{ComesOf, Tells};
ghost use Rattle.xsk_cli.specs.Streams.{HasLine, IsAtOnce, IsSilent, status_in};
ghost use Rattle.xsk_cli.specs.Forward.{IsRun};
ghost use Rattle.xsk_cli.specs.Judged.{AreShort};
ghost use Rattle.xsk_cli.specs.Outcome.{IsOutcome, made};
ghost use Rattle.xsk_cli.specs.Steps.{AreFor, AreMade, CanBeLaid, IsReady, MakesNo, MakesNone, outputs_in, plan_in, read_by, written_by, written_in};
ghost use Rattle.xsk_cli.specs.Words.{fault_in, most_of};

use crate::audit::audit_texts;
use crate::chain::{Chained, Made, Maker, Unmade, run_plan};
use crate::failure::RunFailure;
use crate::leaves::Nothing;
use crate::made::generated_texts;
use crate::texts::Texts;
use crate::words::{Plan, Work};
use std::alloc::Global;
use xsk_io::Bay;

/// Texts are made of packets that are made of a number, or of a journal.
struct WithoutRun;

impl Maker for WithoutRun {
    ghost use Rattle.xsk_cli.specs.Ends.{ComesOf};

    type Left = Nothing;

    ghost comes = { λ work _ inputs texts old status. ComesOf work inputs texts old status };

    ghost early = { λ work inputs texts old status before is. is };
}

/// Does a plan without a run.
pub(crate) fn do_without_run<B: Bay>(
    alloc: Global,
    plan: &Plan<'_, '_>,
    bay: &mut B,
) -> Chained<Nothing>
    requires ready { IsReady (plan_in plan.now) }
    requires no_run { IsRun plan.now.work → ⊥ }
    requires closed { NoneOpen (B.moment bay.old) }
    ensures begun { IsAtOnce (status_in result.result) → ⊥ }
    ensures ends { Tells (plan_in plan.now) (B.moment bay.old) (B.moment bay.new) result.result }
    ensures silent { HasLine (status_in result.result) → IsSilent (B.moment bay.old) (B.moment bay.new) }
    ensures cause { IsCaused (B.moment bay.old).faults (B.moment bay.new).faults (status_in result.result) }
    ensures others { NoOthers (B.moment bay.old).faults (B.moment bay.new).faults (status_in result.result) }
    ensures falls { NeverFalls (B.moment bay.old).faults (B.moment bay.new).faults }
{
    let work = &plan.work;
    run_plan::<WithoutRun, _, B>(alloc, plan, |inputs| make_texts(alloc, work, inputs), bay)
}

/// Makes what is written without a run.
fn make_texts(
    alloc: Global,
    work: &Work,
    inputs: Vec<Vec<u8>>,
) -> Result<Made<Nothing>, Unmade<Nothing>>
    requires accepted { fault_in work.now ≡ None }
    requires no_run { IsRun work.now → ⊥ }
    requires inputs { AreFor work.now (map (λ bytes. bytes.items) inputs.items) (length inputs.items) }
    ensures made { IfOk result (λ made. AreMade (ComesOf work.now (map (λ bytes. bytes.items) inputs.items)) work.now [] made.texts) }
    ensures unmade { IfErr result (λ unmade. MakesNo (ComesOf work.now (map (λ bytes. bytes.items) inputs.items)) unmade.failure) }
{
    match work_texts(alloc, work, inputs) {
        Ok(texts) => Ok(Made {
            texts,
            left: Nothing,
        }),
        Err(failure) => Err(Unmade {
            failure,
            left: None,
        }),
    }
}

/// Makes what is written: of packets that are made, or of the inputs' journal.
fn work_texts(alloc: Global, work: &Work, inputs: Vec<Vec<u8>>) -> Result<Texts, RunFailure>
    requires accepted { fault_in work.now ≡ None }
    requires no_run { IsRun work.now → ⊥ }
    requires count { length inputs.items ≡ read_by work.now }
    requires within { AreShort (most_of work.now) (map (λ bytes. bytes.items) inputs.items) (length inputs.items) }
    ensures made { IfOk result (λ texts. IsOutcome work.now (map (λ bytes. bytes.items) inputs.items) (made (written_in [] texts))) }
    ensures count { IfOk result (λ texts. length (outputs_in [] texts.outputs) ≡ written_by work.now) }
    ensures laid { IfOk result (λ texts. CanBeLaid [] texts.outputs) }
    ensures failed { IfErr result (MakesNone work.now (map (λ bytes. bytes.items) inputs.items)) }
{
    match work {
        Work::Generate { number } => Ok(generated_texts(alloc, *number)?),
        Work::Audit { layout, why } => audit_texts(alloc, layout, *why, inputs[0].as_slice()),
        Work::Simulate { .. } => unreachable!(),
    }
}
