//! The run of a command on threads, and what it shows from where it has ended.
ghost use Rattle.std.specs.Prelude.{◌≡◌, ℕ, ◌<◌, [], All, IfOk, List, length, map, true};
ghost use Rattle.std.specs.List.{slice_index_or};
ghost use Rattle.xsk_driver.specs.SentRoom.{IsShort};
ghost use Rattle.xsk_machine.specs.Acts.{HasShortPackets, packets_in};
ghost use Rattle.xsk_model.specs.Config.{IsRegular};
ghost use Rattle.xsk_model.specs.Opening.{AreFrames};
ghost use Rattle.xsk_socket.specs.Layout.{fault_of, geometry_of, pairs_in};
ghost use Rattle.xsk_socket.specs.Regular.{regular_of};
ghost use Rattle.xsk_cli.specs.Outcome.{frames_of, listed};
ghost use Rattle.xsk_cli.specs.Steps.{lists_in};
ghost use Rattle.xsk_cli.specs.Terms.{HasShownUnder};
ghost use Rattle.xsk_cli.specs.Words.{suits_hands};

use crate::leaves::Leaves;
use crate::programs::chain_of;
use crate::terms::Terms;
use std::alloc::Global;
use std::marker::Model;
use std::sync::Wait;
use std::thread::Threads;
use xsk_gate::Gate;
use xsk_machine::Figures;
use xsk_model::Config;
use xsk_pcap::CaptureHeaders;
use xsk_prog::{Rule, XdpProgram};
use xsk_turns::Manner;
use xsk_umem::{Frames, OutOfMemory, PacketList};
use xsk_workers::{Outcome, forward};

/// What a run on threads shows, as an [`Outcome`]. It isn't `Drop`, and [`give_up`](ThreadRun::give_up) wants what `main` and tests
/// alone have. So no command loses a run that has ended: whatever else it answers, this comes back.
pub struct ThreadRun {
    outcome: Outcome,
}

impl Model for ThreadRun {
    ghost use Rattle.xsk_workers.specs.Forwarded.{OutcomeShown};

    ghost Value = { OutcomeShown };

    ghost view = { λ r. r.outcome };
}

impl ThreadRun {
    /// The packets that the driver of a pair sent, in order.
    pub fn sent(&self, pair: u32) -> &PacketList
        requires { pair < length self.now.sent }
        ensures short { All IsShort result.now.packets }
        ensures sent { result.now.packets ≡ slice_index_or self.now.sent pair [] }
    {
        self.outcome.sent(pair)
    }

    /// What the drivers sent, by their pairs.
    pub(crate) fn lists(&self) -> &[PacketList]
        ensures { map packets_in result.now ≡ self.now.sent }
    {
        self.outcome.lists()
    }

    /// What the run comes to in numbers, each a count over the calls and replies of its history.
    pub fn figures(&self) -> &Figures
        ensures { result.now ≡ self.now.figures }
    {
        self.outcome.figures()
    }

    /// Gives up what the run shows, where the program or the test ends.
    pub fn give_up(self, _rt: &HostRuntime) {
        let ThreadRun { outcome: _given_up } = self;
    }
}

impl Leaves for ThreadRun {
    ghost sent = { λ r. r.sent };

    fn lay(&mut self, pair: u32) -> Option<&[u8]> {
        if pair as usize >= self.outcome.lists().len() {
            return None;
        }
        self.outcome.lay(pair, &CaptureHeaders)
    }
}

/// Runs the lists of all ports on threads under the programs' rules, with the wire. Applications change no item.
pub(crate) fn forward_lists<R: Threads + Wait + Sync, G: Gate + Sync>(
    rt: &R,
    alloc: Global,
    terms: Terms<'_>,
    config: Config,
    frames: Frames,
    lists: &[PacketList],
    gate: &G,
) -> Result<ThreadRun, OutOfMemory>
    requires accepted { fault_of terms.layout.now ≡ None }
    requires config { config ≡ regular_of terms.layout.now }
    requires regular { IsRegular config }
    requires suits { suits_hands terms.layout.now terms.manner ≡ true }
    requires frames { frames.items ≡ frames_of terms.layout.now }
    requires known { AreFrames (geometry_of terms.layout.now) frames.items }
    requires ports { length lists.now ≡ terms.layout.now.ports }
    requires listed { lists.now ≡ map listed (lists_in lists.now) }
    requires short { All HasShortPackets lists.now }
    ensures pairs { IfOk result (λ o. length o.sent ≡ pairs_in terms.entry.layout.now) }
    ensures short { IfOk result (λ o. All (λ (list : List (List ℕ)). All IsShort list) o.sent) }
    ensures forwarded { IfOk result (HasShownUnder terms.entry (lists_in lists.now)) }
{
    let Terms {
        layout,
        programs,
        wire,
        ..
    } = terms;
    let mut chain = chain_of(alloc, programs.as_slice(), layout.sockets, |rule: Rule| {
        XdpProgram::attach(
            rule,
            move |packet: &[u8], queue: u32| rule.verdict(packet, queue),
        )
    })?;
    let manner = Manner {
        mangle: None,
        ..terms.manner
    };
    let outcome = forward(
        rt,
        alloc,
        config,
        frames,
        lists,
        &mut chain,
        wire,
        gate,
        manner,
        layout.hands,
    )?;
    Ok(ThreadRun { outcome })
}
