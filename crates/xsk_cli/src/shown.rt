//! The run of a command on threads, and the texts of what it shows.
ghost use Rattle.std.specs.Prelude.{◌≡◌, ℕ, ◌*◌, ◌<◌, ◌≤◌, None, Some, All, List, IfErr, IfOk, drop, true, length, map, take};
ghost use Rattle.std.specs.List.{range_with_len};
ghost use Rattle.xsk_driver.specs.SentRoom.{IsShort};
ghost use Rattle.xsk_machine.specs.Acts.{HasShortPackets};
ghost use Rattle.xsk_model.specs.Config.{IsRegular};
ghost use Rattle.xsk_pcap.specs.Written.{IsWritable};
ghost use Rattle.xsk_pcapng.specs.Written.{IsWritable as IsWritableFile};
ghost use Rattle.xsk_socket.specs.Layout.{fault_of, pairs_in};
ghost use Rattle.xsk_socket.specs.Regular.{regular_of};
ghost use Rattle.xsk_stats.specs.Report.{report_text};
ghost use Rattle.xsk_workers.specs.Forwarded.{OutcomeShown};
ghost use Rattle.xsk_io.specs.Bay.{NoneOpen};
ghost use Rattle.xsk_cli.specs.Cause.{IsCaused, NeverFalls, NoOthers};
ghost use Rattle.xsk_cli.specs.Ends.{TellsBy};
ghost use Rattle.xsk_cli.specs.Streams.{HasLine, IsAtOnce, IsSilent, status_in, text_in};
ghost use Rattle.xsk_cli.specs.Forward.{AreTextsFrom, ComesShown, HasShown, IsRun};
ghost use Rattle.xsk_cli.specs.Format.{joined, outputs_of};
ghost use Rattle.xsk_cli.specs.Judged.{excess_of};
ghost use Rattle.xsk_cli.specs.Outcome.{listed};
ghost use Rattle.xsk_cli.specs.Steps.{AreFor, AreMade, CanBeLaid, IsReady, MakesNo, lists_in, outputs_in, plan_in, written_in};
ghost use Rattle.xsk_cli.specs.Terms.{AreTextsOfShown, HasShownUnder};
ghost use Rattle.xsk_cli.specs.Words.{fault_in, ports_in, suits_hands, suits_in};

use crate::chain::{Chained, Made, Maker, Unmade, run_plan};
use crate::failure::RunFailure;
use crate::files::spare_text;
use crate::lists::take_lists;
use crate::setup::set_up;
use crate::terms::Terms;
use crate::texts::{Texts, sent_outputs};
use crate::thread_run::{ThreadRun, forward_lists};
use crate::words::{Plan, Work};
use std::alloc::Global;
use std::sync::Wait;
use std::thread::Threads;
use xsk_gate::Gate;
use xsk_io::Bay;
use xsk_model::Config;
use xsk_stats::report;
use xsk_umem::{OutOfMemory, PacketList};

/// Texts are made by a run on threads.
struct OnThreads;

impl Maker for OnThreads {
    ghost use Rattle.xsk_cli.specs.Forward.{ComesShown};

    type Left = ThreadRun;

    ghost comes = { ComesShown };

    ghost early = { λ work inputs texts old status before is. (before, is) };
}

/// Does a plan by a run on threads.
pub(crate) fn run_on_threads<R: Threads + Wait + Sync, B: Bay, G: Gate + Sync>(
    rt: &R,
    alloc: Global,
    plan: &Plan<'_, '_>,
    bay: &mut B,
    gate: &G,
) -> Chained<ThreadRun>
    requires ready { IsReady (plan_in plan.now) }
    requires runs { IsRun plan.now.work }
    requires closed { NoneOpen (B.moment bay.old) }
    ensures begun { IsAtOnce (status_in result.result) → ⊥ }
    ensures ends { TellsBy (ComesShown plan.now.work result.left) (plan_in plan.now) (B.moment bay.old) (B.moment bay.new) (status_in result.result) (text_in result.result) }
    ensures silent { HasLine (status_in result.result) → IsSilent (B.moment bay.old) (B.moment bay.new) }
    ensures cause { IsCaused (B.moment bay.old).faults (B.moment bay.new).faults (status_in result.result) }
    ensures others { NoOthers (B.moment bay.old).faults (B.moment bay.new).faults (status_in result.result) }
    ensures falls { NeverFalls (B.moment bay.old).faults (B.moment bay.new).faults }
{
    let work = &plan.work;
    run_plan::<OnThreads, _, B>(
        alloc,
        plan,
        |inputs: Vec<Vec<u8>>| -> Result<Made<ThreadRun>, Unmade<ThreadRun>>
            requires accepted { fault_in work.now ≡ None }
            requires suits { suits_in work.now ≡ true }
            requires runs { IsRun work.now }
            requires inputs { AreFor work.now (map (λ bytes. bytes.items) inputs.items) (length inputs.items) }
            ensures made { IfOk result (λ made. AreMade (ComesShown work.entry.now (Some made.left) (map (λ bytes. bytes.items) inputs.items)) work.entry.now made.left.sent made.texts) }
            ensures unmade { IfErr result (λ unmade. MakesNo (ComesShown work.entry.now unmade.left (map (λ bytes. bytes.items) inputs.items)) unmade.failure) }
        { show_inputs(rt, alloc, work, inputs, gate) },
        bay,
    )
}

/// Runs the packets of inputs on threads, and makes the texts of what the run shows.
fn show_inputs<R: Threads + Wait + Sync, G: Gate + Sync>(
    rt: &R,
    alloc: Global,
    work: &Work,
    inputs: Vec<Vec<u8>>,
    gate: &G,
) -> Result<Made<ThreadRun>, Unmade<ThreadRun>>
    requires accepted { fault_in work.now ≡ None }
    requires suits { suits_in work.now ≡ true }
    requires runs { IsRun work.now }
    requires inputs { AreFor work.now (map (λ bytes. bytes.items) inputs.items) (length inputs.items) }
    ensures made { IfOk result (λ made. AreMade (ComesShown work.now (Some made.left) (map (λ bytes. bytes.items) inputs.items)) work.now made.left.sent made.texts) }
    ensures unmade { IfErr result (λ unmade. MakesNo (ComesShown work.now unmade.left (map (λ bytes. bytes.items) inputs.items)) unmade.failure) }
{
    let lists = match take_lists(alloc, work, inputs) {
        Ok(lists) => lists,
        Err(failure) => {
            return Err(Unmade {
                failure,
                left: None,
            });
        }
    };
    match make_shown(rt, alloc, work, lists, gate) {
        Ok(shown) => Ok(shown),
        Err(left) => Err(Unmade {
            failure: RunFailure::OutOfMemory,
            left,
        }),
    }
}

/// Runs the packets of all ports on threads, and makes the texts of what the run shows. Where there is no memory for
/// them this comes back, and nothing where there was none for the run.
fn make_shown<R: Threads + Wait + Sync, G: Gate + Sync>(
    rt: &R,
    alloc: Global,
    work: &Work,
    lists: Vec<PacketList>,
    gate: &G,
) -> Result<Made<ThreadRun>, Option<ThreadRun>>
    requires accepted { fault_in work.now ≡ None }
    requires suits { suits_in work.now ≡ true }
    requires runs { IsRun work.now }
    requires ports { length lists.items ≡ ports_in work.now }
    requires within { excess_of (lists_in lists.items) ≡ None }
    requires listed { lists.items ≡ map listed (lists_in lists.items) }
    requires short { All HasShortPackets lists.items }
    ensures made { IfOk result (λ made. HasShown work.now (lists_in lists.items) made.left × AreTextsFrom work.now (lists_in lists.items) made.left (written_in made.left.sent made.texts)) }
    ensures laid { IfOk result (λ made. CanBeLaid made.left.sent made.texts.outputs) }
    ensures shown { IfErr result (λ outcome. (o : OutcomeShown) → outcome ≡ Some o → HasShown work.now (lists_in lists.items) o) }
{
    run_shown(rt, alloc, Terms::of(work), lists, gate)
}

/// Runs the packets of all ports on threads, and makes the texts of what the run shows. Where there is no memory for
/// them this comes back, and nothing where there was none for the run.
fn run_shown<R: Threads + Wait + Sync, G: Gate + Sync>(
    rt: &R,
    alloc: Global,
    terms: Terms<'_>,
    lists: Vec<PacketList>,
    gate: &G,
) -> Result<Made<ThreadRun>, Option<ThreadRun>>
    requires accepted { fault_of terms.layout.now ≡ None }
    requires suits { suits_hands terms.layout.now terms.manner ≡ true }
    requires ports { length lists.items ≡ terms.layout.now.ports }
    requires within { excess_of (lists_in lists.items) ≡ None }
    requires listed { lists.items ≡ map listed (lists_in lists.items) }
    requires short { All HasShortPackets lists.items }
    ensures made { IfOk result (λ made. HasShownUnder terms.entry (lists_in lists.items) made.left
        × AreTextsOfShown terms.entry (lists_in lists.items) made.left (written_in made.left.sent made.texts)) }
    ensures laid { IfOk result (λ made. CanBeLaid made.left.sent made.texts.outputs) }
    ensures shown { IfErr result (λ outcome. (o : OutcomeShown) → outcome ≡ Some o → HasShownUnder terms.entry (lists_in lists.items) o) }
{
    let Ok((config, frames)) = set_up(alloc, terms.layout) else {
        return Err(None);
    };
    let Ok(shared) = config.copy(alloc) else {
        return Err(None);
    };
    let Ok(shown) = forward_lists(rt, alloc, terms, config, frames, lists.as_slice(), gate) else {
        return Err(None);
    };
    let spare = spare_text(alloc, lists);
    match shown_texts(alloc, terms, &shared, spare, &shown) {
        Ok(texts) => Ok(Made { texts, left: shown }),
        Err(OutOfMemory) => Err(Some(shown)),
    }
}

/// The texts of what a run shows.
fn shown_texts(
    alloc: Global,
    terms: Terms<'_>,
    config: &Config,
    spare: Vec<u8>,
    shown: &ThreadRun,
) -> Result<Texts, OutOfMemory>
    requires regular { IsRegular config.now }
    requires drivers { length shown.now.figures.drivers ≡ length config.now.pairs }
    requires ports { terms.layout.now.ports ≤ 4 }
    requires few { terms.layout.now.ports * terms.layout.now.queues < 4294967296 }
    requires sent { length shown.now.sent ≡ pairs_in terms.layout.now }
    requires writable { (port count : ℕ) → port < terms.layout.now.ports → count ≤ terms.layout.now.queues → IsWritable (take count (drop (port * terms.layout.now.queues) shown.now.sent)) }
    requires file { IsWritableFile (joined terms.layout.now.ports terms.layout.now.queues shown.now.sent) }
    ensures outputs { IfOk result (λ texts. outputs_in shown.now.sent texts.outputs ≡ outputs_of terms.entry.format (λ port. take terms.entry.layout.now.queues (drop (port * terms.entry.layout.now.queues) shown.now.sent)) (range_with_len 0 terms.entry.layout.now.ports)) }
    ensures laid { IfOk result (λ texts. CanBeLaid shown.now.sent texts.outputs) }
    ensures report { IfOk result (λ texts. texts.report.items ≡ report_text config.now shown.now.figures) }
{
    let report = report(alloc, config, shown.figures())?;
    let sent = shown.lists();
    let layout = terms.layout;
    let outputs = sent_outputs(
        alloc,
        terms.format,
        layout.ports,
        layout.queues,
        spare,
        sent,
    )?;
    Ok(Texts { outputs, report })
}
