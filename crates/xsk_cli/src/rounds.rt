//! The run of a command in rounds, and the texts that it leaves.
ghost use Rattle.std.specs.Prelude.{◌≡◌, ◌++◌, [], None, All, IfErr, IfOk, if◌then◌else◌, length, map};
ghost use Rattle.xsk_machine.specs.Acts.{HasShortPackets};
ghost use Rattle.xsk_model.specs.Config.{IsRegular};
ghost use Rattle.xsk_sim.specs.Journal.{journal_of};
ghost use Rattle.xsk_sim.specs.Runs.{HasEnded};
ghost use Rattle.xsk_sim.specs.Shown.{IsSentBy, Shown};
ghost use Rattle.xsk_socket.specs.Layout.{fault_of, pairs_in};
ghost use Rattle.xsk_socket.specs.Regular.{regular_of};
ghost use Rattle.xsk_stats.specs.Report.{report_text};
ghost use Rattle.xsk_io.specs.Bay.{NoneOpen};
ghost use Rattle.xsk_cli.specs.Cause.{IsCaused, NeverFalls, NoOthers};
ghost use Rattle.xsk_cli.specs.Ends.{ComesOf, Tells};
ghost use Rattle.xsk_cli.specs.Streams.{HasLine, IsAtOnce, IsSilent, status_in};
ghost use Rattle.xsk_cli.specs.Forward.{IsRun};
ghost use Rattle.xsk_cli.specs.Judged.{AreShort, excess_of};
ghost use Rattle.xsk_cli.specs.Outcome.{AreTextsBy, IsOutcome, frames_of, listed, made};
ghost use Rattle.xsk_cli.specs.Steps.{AreFor, AreMade, CanBeLaid, FailsMaking, IsReady, MakesNo, MakesNone, lists_in, outputs_in, plan_in, read_by, written_by, written_in};
ghost use Rattle.xsk_cli.specs.Terms.{AreTextsUnder, FailsUnder, setting_in};
ghost use Rattle.xsk_cli.specs.Words.{fault_in, most_of, ports_in};

use crate::chain::{Chained, Made, Maker, Unmade, run_plan};
use crate::failure::RunFailure;
use crate::files::spare_text;
use crate::lists::take_lists;
use crate::programs::chain_of;
use crate::setup::set_up;
use crate::stalls::explain;
use crate::terms::Terms;
use crate::texts::{Texts, sent_outputs};
use crate::words::{Plan, Work};
use std::alloc::Global;
use xsk_io::Bay;
use xsk_machine::Sent;
use xsk_model::Config;
use xsk_prog::{Rule, XdpProgram};
use xsk_sim::{Run, Unended, append_journal, simulate_unlogged, simulate_with_object};
use xsk_stats::report;
use xsk_umem::{OutOfMemory, PacketList};

/// Texts are made by a run in rounds.
struct InRounds;

impl Maker for InRounds {
    ghost use Rattle.xsk_cli.specs.Ends.{ComesOf};

    type Left = Sent;

    ghost comes = { λ work _ inputs texts old status. ComesOf work inputs texts old status };

    ghost early = { λ work inputs texts old status before is. is };
}

/// Does a plan by a run in rounds.
pub(crate) fn run_in_rounds<B: Bay>(
    alloc: Global,
    plan: &Plan<'_, '_>,
    bay: &mut B,
) -> Chained<Sent>
    requires ready { IsReady (plan_in plan.now) }
    requires runs { IsRun plan.now.work }
    requires closed { NoneOpen (B.moment bay.old) }
    ensures begun { IsAtOnce (status_in result.result) → ⊥ }
    ensures ends { Tells (plan_in plan.now) (B.moment bay.old) (B.moment bay.new) result.result }
    ensures silent { HasLine (status_in result.result) → IsSilent (B.moment bay.old) (B.moment bay.new) }
    ensures cause { IsCaused (B.moment bay.old).faults (B.moment bay.new).faults (status_in result.result) }
    ensures others { NoOthers (B.moment bay.old).faults (B.moment bay.new).faults (status_in result.result) }
    ensures falls { NeverFalls (B.moment bay.old).faults (B.moment bay.new).faults }
{
    let work = &plan.work;
    run_plan::<InRounds, _, B>(alloc, plan, |inputs| run_inputs(alloc, work, inputs), bay)
}

/// Runs the packets of inputs in rounds, and makes what is written.
fn run_inputs(alloc: Global, work: &Work, inputs: Vec<Vec<u8>>) -> Result<Made<Sent>, Unmade<Sent>>
    requires accepted { fault_in work.now ≡ None }
    requires runs { IsRun work.now }
    requires inputs { AreFor work.now (map (λ bytes. bytes.items) inputs.items) (length inputs.items) }
    ensures made { IfOk result (λ made. AreMade (ComesOf work.now (map (λ bytes. bytes.items) inputs.items)) work.now made.left.lists made.texts) }
    ensures unmade { IfErr result (λ unmade. MakesNo (ComesOf work.now (map (λ bytes. bytes.items) inputs.items)) unmade.failure) }
{
    match try_inputs(alloc, work, inputs) {
        Ok(ran) => Ok(ran),
        Err(failure) => Err(Unmade {
            failure,
            left: None,
        }),
    }
}

/// Runs the packets of inputs, and makes what is written.
fn try_inputs(alloc: Global, work: &Work, inputs: Vec<Vec<u8>>) -> Result<Made<Sent>, RunFailure>
    requires accepted { fault_in work.now ≡ None }
    requires runs { IsRun work.now }
    requires count { length inputs.items ≡ read_by work.now }
    requires short { AreShort (most_of work.now) (map (λ bytes. bytes.items) inputs.items) (length inputs.items) }
    ensures made { IfOk result (λ ran. IsOutcome work.now (map (λ bytes. bytes.items) inputs.items) (made (written_in ran.left.lists ran.texts))) }
    ensures count { IfOk result (λ ran. length (outputs_in ran.left.lists ran.texts.outputs) ≡ written_by work.now) }
    ensures laid { IfOk result (λ ran. CanBeLaid ran.left.lists ran.texts.outputs) }
    ensures failed { IfErr result (MakesNone work.now (map (λ bytes. bytes.items) inputs.items)) }
{
    let lists = take_lists(alloc, work, inputs)?;
    let ran = run_work(alloc, work, lists)?;
    Ok(ran)
}

/// Runs the packets of all ports, and makes what is written.
fn run_work(alloc: Global, work: &Work, lists: Vec<PacketList>) -> Result<Made<Sent>, RunFailure>
    requires accepted { fault_in work.now ≡ None }
    requires runs { IsRun work.now }
    requires ports { length lists.items ≡ ports_in work.now }
    requires within { excess_of (lists_in lists.items) ≡ None }
    requires listed { lists.items ≡ map listed (lists_in lists.items) }
    requires short { All HasShortPackets lists.items }
    ensures made { IfOk result (λ ran. AreTextsBy work.now (lists_in lists.items) (written_in ran.left.lists ran.texts)) }
    ensures laid { IfOk result (λ ran. CanBeLaid ran.left.lists ran.texts.outputs) }
    ensures failed { IfErr result (FailsMaking work.now (lists_in lists.items)) }
{
    run_texts(alloc, Terms::of(work), lists)
}

/// Runs the packets of all ports, and makes what is written. What the run took is given up before the outputs are made.
fn run_texts(
    alloc: Global,
    terms: Terms<'_>,
    lists: Vec<PacketList>,
) -> Result<Made<Sent>, RunFailure>
    requires accepted { fault_of terms.layout.now ≡ None }
    requires ports { length lists.items ≡ terms.layout.now.ports }
    requires within { excess_of (lists_in lists.items) ≡ None }
    requires listed { lists.items ≡ map listed (lists_in lists.items) }
    requires short { All HasShortPackets lists.items }
    ensures made { IfOk result (λ ran. AreTextsUnder terms.entry (lists_in lists.items) (written_in ran.left.lists ran.texts)) }
    ensures laid { IfOk result (λ ran. CanBeLaid ran.left.lists ran.texts.outputs) }
    ensures failed { IfErr result (FailsUnder terms.entry (lists_in lists.items)) }
{
    let (left, report) = run_lists(alloc, terms, lists.as_slice())?;
    let spare = spare_text(alloc, lists);
    let layout = terms.layout;
    let outputs = sent_outputs(
        alloc,
        terms.format,
        layout.ports,
        layout.queues,
        spare,
        left.lists(),
    )?;
    let texts = Texts { outputs, report };
    Ok(Made { texts, left })
}

/// Runs the lists of all ports under the programs' rules, with the wire, and tells what was sent, with the report. Where the
/// journal was asked for, it stands behind the report. No log is kept of the run where neither this nor why it stalls was asked for.
fn run_lists(
    alloc: Global,
    terms: Terms<'_>,
    lists: &[PacketList],
) -> Result<(Sent, Vec<u8>), RunFailure>
    requires accepted { fault_of terms.layout.now ≡ None }
    requires ports { length lists.now ≡ terms.layout.now.ports }
    requires listed { lists.now ≡ map listed (lists_in lists.now) }
    requires short { All HasShortPackets lists.now }
    ensures pairs { IfOk result (λ ran. length ran.0.lists ≡ pairs_in terms.entry.layout.now) }
    ensures ended { IfOk result (λ ran. (run : Shown) × HasEnded (setting_in terms.entry (lists_in lists.now)) (frames_of terms.entry.layout.now) terms.entry.order run
        × IsSentBy run ran.0 × (ran.1.items ≡ report_text (regular_of terms.entry.layout.now) run.figures ++ (if terms.entry.telling.journal then journal_of run.pairs run.log else []))) }
    ensures failed { IfErr result (FailsUnder terms.entry (lists_in lists.now)) }
{
    let Terms {
        layout,
        programs,
        wire,
        manner,
        order,
        telling,
        ..
    } = terms;
    let (config, frames) = set_up(alloc, layout)?;
    let shared = config.copy(alloc)?;
    let mut chain = chain_of(alloc, programs.as_slice(), layout.sockets, |rule: Rule| {
        XdpProgram::attach(
            rule,
            move |packet: &[u8], queue: u32| rule.verdict(packet, queue),
        )
    })?;
    if !telling.journal && !telling.why {
        let sent = simulate_unlogged(
            alloc, config, frames, lists, &mut chain, wire, order, manner,
        )?;
        let text = report(alloc, &shared, sent.figures())?;
        return Ok((sent, text));
    }
    match simulate_with_object(
        alloc, config, frames, lists, &mut chain, wire, order, manner,
    ) {
        Ok(run) => {
            let text = told_text(alloc, &shared, &run, telling.journal)?;
            Ok((run.into_sent(), text))
        }
        Err(
            Unended::Stalled {
                round,
                object,
                counters,
            },
        ) => Err(explain(alloc, round, &object, counters.as_slice(), telling)),
        Err(Unended::OutOfMemory) => Err(RunFailure::OutOfMemory),
    }
}

/// The report of a run, and the journal behind it where that was asked for.
fn told_text(
    alloc: Global,
    config: &Config,
    run: &Run,
    journal: bool,
) -> Result<Vec<u8>, OutOfMemory>
    requires regular { IsRegular config.now }
    requires drivers { length run.now.figures.drivers ≡ length config.now.pairs }
    ensures { IfOk result (λ text. text.items ≡ report_text config.now run.now.figures ++ (if journal then journal_of run.now.pairs run.now.log else [])) }
{
    let mut text = report(alloc, config, run.figures())?;
    if journal {
        append_journal(alloc, &mut text, run)?;
    }
    Ok(text)
}
