//! The chain of a command: its inputs are read, texts are made of them, and these are written.
ghost use Rattle.std.specs.Prelude.{ℕ, Option, List, None, Some, IfErr, IfOk, length, map};
ghost use Rattle.xsk_io.specs.Bay.{Moment, NoneOpen};
ghost use Rattle.xsk_cli.specs.Cause.{IsCaused, NeverFalls, NoOthers};
ghost use Rattle.xsk_cli.specs.Ends.{ComesOf, TellsBy};
ghost use Rattle.xsk_cli.specs.Outcome.{Written};
ghost use Rattle.xsk_cli.specs.Forward.{IsAfterRun};
ghost use Rattle.xsk_cli.specs.Steps.{AreFor, AreMade, IsReady, MakesNo, plan_in};
ghost use Rattle.xsk_cli.specs.Streams.{HasLine, IsAtOnce, IsSilent, status_in, text_in};
ghost use Rattle.xsk_cli.specs.declared.status.Status.{Status as AStatus};
ghost use Rattle.xsk_cli.specs.declared.words.Work.{Work as AWork};

use crate::failure::{Refusal, RunFailure};
use crate::input::read_inputs;
use crate::leaves::Leaves;
use crate::output::write_texts;
use crate::texts::Texts;
use crate::words::Plan;
use std::alloc::Global;
use xsk_io::Bay;

/// What is written, and what the run left of which it is.
pub(crate) struct Made<L> {
    pub(crate) texts: Texts,
    pub(crate) left: L,
}

/// Why nothing is written, and what a run left that has ended all the same.
pub(crate) struct Unmade<L> {
    pub(crate) failure: RunFailure,
    pub(crate) left: Option<L>,
}

/// How a command ended, and what its run left, where one has ended.
pub(crate) struct Chained<L> {
    pub(crate) result: Result<(), Refusal>,
    pub(crate) left: Option<L>,
}

/// A way in which texts are made of a command's inputs: by a run on an engine, or without one. The function that makes them so is
/// handed to [`run_plan`], since a method of a trait can't start threads by a bound of its own or of its `impl`.
pub(crate) trait Maker {
    /// What a run leaves.
    type Left: Leaves;

    // A status comes of this work, of what its run left, where one has ended, of these inputs, and of these texts.
    ghost comes: { AWork → Option Self.Left → List (List ℕ) → Written → Moment → AStatus → Type 0 };

    // Where no run was made a status comes of the inputs alone.
    ghost early: { (work : AWork) (inputs : List (List ℕ)) (texts : Written) (old : Moment) (status : AStatus) → (IsAfterRun status → ⊥)
        → ComesOf work inputs texts old status → comes work None inputs texts old status };
}

/// Reads the inputs, has texts made of them by the function, and writes the outputs and the report.
pub(crate) fn run_plan<
    M: Maker,
    F: FnOnce(Vec<Vec<u8>>) -> Result<Made<M::Left>, Unmade<M::Left>>,
    B: Bay,
>(alloc: Global, plan: &Plan<'_, '_>, make: F, bay: &mut B) -> Chained<M::Left>
    requires ready { IsReady (plan_in plan.now) }
    requires closed { NoneOpen (B.moment bay.old) }
    requires can { (inputs : _) → AreFor plan.now.work (map (λ bytes. bytes.items) inputs.items) (length inputs.items) → F.pre make inputs }
    requires made { (inputs : _) (answer : _) → AreFor plan.now.work (map (λ bytes. bytes.items) inputs.items) (length inputs.items) → F.post make inputs answer
        → IfOk answer (λ made. AreMade (M.comes plan.now.work (Some made.left) (map (λ bytes. bytes.items) inputs.items)) plan.now.work (M.Left.sent made.left) made.texts) }
    requires unmade { (inputs : _) (answer : _) → AreFor plan.now.work (map (λ bytes. bytes.items) inputs.items) (length inputs.items) → F.post make inputs answer
        → IfErr answer (λ unmade. MakesNo (M.comes plan.now.work unmade.left (map (λ bytes. bytes.items) inputs.items)) unmade.failure) }
    ensures begun { IsAtOnce (status_in result.result) → ⊥ }
    ensures ends { TellsBy (M.comes plan.now.work result.left) (plan_in plan.now) (B.moment bay.old) (B.moment bay.new) (status_in result.result) (text_in result.result) }
    ensures silent { HasLine (status_in result.result) → IsSilent (B.moment bay.old) (B.moment bay.new) }
    ensures cause { IsCaused (B.moment bay.old).faults (B.moment bay.new).faults (status_in result.result) }
    ensures others { NoOthers (B.moment bay.old).faults (B.moment bay.new).faults (status_in result.result) }
    ensures falls { NeverFalls (B.moment bay.old).faults (B.moment bay.new).faults }
{
    let inputs = match read_inputs(alloc, bay, plan.inputs, plan.work.most_input()) {
        Ok(inputs) => inputs,
        Err(failure) => {
            return Chained {
                result: Err(Refusal::from(failure)),
                left: None,
            };
        }
    };
    let (texts, mut left) = match make(inputs) {
        Ok(Made { texts, left }) => (texts, left),
        Err(Unmade { failure, left }) => {
            return Chained {
                result: Err(Refusal::from(failure)),
                left,
            };
        }
    };
    match write_texts(bay, plan.outputs, &mut left, &texts) {
        Ok(()) => Chained {
            result: Ok(()),
            left: Some(left),
        },
        Err(failure) => Chained {
            result: Err(Refusal::from(failure)),
            left: Some(left),
        },
    }
}
