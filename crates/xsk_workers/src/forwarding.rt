//! A run on threads: drivers and applications over one table, from its opening to its end. The table's note, taken after all passes came
//! back, is the one history of which all is told (`HasForwarded`).
ghost use Rattle.std.specs.Prelude.{◌≡◌, ◌↔◌, ℕ, ◌≤◌, ◌<◌, List, [], ◌++◌, map, None, true, All, length, vec_capacity, IfOk, IfSome, IsSome};
ghost use Rattle.std.specs.Borrow.{sem};
ghost use Rattle.std.specs.Io.BufRead.{Rests};
ghost use Rattle.xsk_umem.specs.Span.{laid_from};
ghost use Rattle.xsk_model.specs.Config.{IsRegular, callers_of, classes_of};
ghost use Rattle.xsk_model.specs.Opening.{AreFrames};
ghost use Rattle.xsk_prog.specs.Chain.{AllObey, SamePrograms, rules_of};
ghost use Rattle.xsk_prog.specs.Rules.{are_exact};
ghost use Rattle.xsk_turns.specs.Statistics.{capped};
ghost use Rattle.xsk_turns.specs.Workers.{Setting, ruled_by};
ghost use Rattle.xsk_driver.specs.SentRoom.{IsShort, sent_gaps};
ghost use Rattle.xsk_machine.specs.Acts.{HasShortPackets};
ghost use Rattle.xsk_table.specs.Opening.{new_passes};
ghost use Rattle.xsk_workers.specs.Crew.{IsSeatOn};
ghost use Rattle.xsk_workers.specs.Terms.{setting_over};
ghost use Rattle.xsk_workers.specs.Hands.{AreHands, SuitHands};
ghost use Rattle.xsk_workers.specs.Gathering.{HaveRun, WillHaveRun, AreTaken, AreGiven, AreSent, AreFiguresOf, IsGathered, calls_in};
ghost use Rattle.xsk_workers.specs.Forwarded.{HasForwarded, HasForwardedUnder, packets_in};
ghost use Rattle.xsk_machine.specs.Workers.{AreNew};

use crate::context::{Source, Terms, Verdicts};
use crate::crew::{Crew, run_crew};
use crate::parking::parkers_for;
use crate::seating::seat_members;
use crate::turns::{Leaves, Opens};
use std::alloc::Global;
use std::marker::{Brand, Model, PhantomData};
use std::sync::Wait;
use std::thread::Threads;
use xsk_driver::{Driver, Wire};
use xsk_gate::Gate;
use xsk_machine::{Collected, Figures, Inputs, Sent, drivers_for};
use xsk_model::Config;
use xsk_prog::{Chain, Verdict};
use xsk_table::{Note, Passes, Shared};
use xsk_turns::Manner;
use xsk_umem::{Frames, Headers, OutOfMemory, PacketList};

/// What a run on threads shows. Contracts see the history of its table, the packets that each driver sent, and the figures.
#[derive(Drop)]
pub struct Outcome {
    note: Note,
    sent: Sent,
}

impl Model for Outcome {
    ghost use Rattle.xsk_workers.specs.Forwarded.{OutcomeShown};

    ghost Value = { OutcomeShown };

    ghost view = { λ o. record { history = o.note.seen; sent = o.sent.lists; figures = o.sent.figures } };
}

impl Outcome {
    ghost use Rattle.std.specs.List.{slice_index_or};
    ghost use Rattle.xsk_workers.specs.contracts.forwarding.Outcome.{the_row};

    /// The packets that the driver of a pair sent, in order.
    pub fn sent(&self, pair: u32) -> &PacketList
        requires { pair < length self.now.sent }
        ensures short { All IsShort result.now.packets }
        ensures sent { result.now.packets ≡ slice_index_or self.now.sent pair [] }
    {
        self.sent.sent(pair)
    }

    /// What the run comes to in numbers, each a count over the calls and replies of its history.
    pub fn figures(&self) -> &Figures
        ensures { result.now ≡ self.now.figures }
    {
        self.sent.figures()
    }

    /// What the drivers sent, by their pairs.
    pub fn lists(&self) -> &[PacketList]
        ensures short { All HasShortPackets result.now }
        ensures lists { map packets_in result.now ≡ self.now.sent }
    {
        self.sent.lists()
    }

    /// The packets that the driver of a pair sent as they stand in their list, with the headers written into its gaps, exactly where
    /// these have the sizes of the gaps: those of a capture. The pair must exist. It copies no packet and takes no memory, and the
    /// outcome stays as it was.
    pub fn lay<H: Headers>(&mut self, pair: u32, headers: &H) -> Option<&[u8]>
        requires { pair < length self.old.sent }
        ensures* same { sem 𝓛 (Rests the_row self.entry (λ outcome. outcome ≡ self.old)) }
        ensures gaps { IsSome result ↔ (H.sizes_of headers.now ≡ sent_gaps) }
        ensures text { IfSome result (λ text. text.now ≡ H.first headers.now ++ laid_from (H.before headers.now) 0 (slice_index_or self.old.sent pair [])) }
    {
        self.sent.lay(pair, headers)
    }
}

/// Runs the drivers and applications of a regular configuration, each in a thread of its own where one can be had, until all have
/// ended, over one list of packets for each port, none of which has more than 262,144 bytes. The frames are all frames of its UMEM.
/// The chain of programs is attached to every port, and asked once for each packet before a worker starts: the run is one under the
/// verdicts that it gave, which are its rules' own where these leave one for each packet. The wire says what becomes of a packet that
/// finds too few frames or no room on RX. Each worker passes the gate before each of its turns. The applications change no item, and
/// the manner says after how many items one closes the socket that is to be closed, if one is.
///
/// What the drivers sent is what was delivered to the paired sockets (`laws::all_are_forwarded`), and where the wire waits what
/// is expected there (`laws::all_are_expected`), beside the packets that bounce by the port on which they came. Where a socket is
/// closed, on its two lanes these are the first packets, as many as its application passed on (`laws::all_are_forwarded_until`,
/// `laws::all_are_expected_until`).
///
/// Each application has so many hands. One hand runs its machine. Several share its ends behind a lock, each in a thread of its own,
/// and once all have ended one of them goes on alone: then its calls and replies are a whole split run. Several hands close no socket.
///
/// All memory is taken before a worker starts, but for the lock of several hands, without which one does it alone. A worker whose
/// thread can't be had makes its calls on the caller's thread, in turn with other such workers, and a hand whose thread can't be had
/// leaves its lanes to another of its application. Nothing is promised of an end.
pub fn forward<R: Threads + Wait + Sync, F: Fn(&[u8], u32) -> Verdict, G: Gate + Sync>(
    rt: &R,
    alloc: Global,
    config: Config,
    frames: Frames,
    packets: &[PacketList],
    chain: &mut Chain<F>,
    wire: Wire,
    gate: &G,
    manner: Manner,
    hands: u32,
) -> Result<Outcome, OutOfMemory>
    requires hands { AreHands hands }
    requires suit { SuitHands hands config }
    requires unchanged { manner.mangle ≡ None }
    requires regular { IsRegular config }
    requires frames { AreFrames config.geometry frames.items }
    requires lists { length packets.now ≡ config.ports }
    requires short { All HasShortPackets packets.now }
    requires obeys { AllObey F.Fn chain.old }
    ensures same { SamePrograms chain.old chain.new }
    ensures obeys { AllObey F.Fn chain.new }
    ensures pairs { IfOk result (λ outcome. length outcome.sent ≡ length config.pairs) }
    ensures short { IfOk result (λ outcome. All (λ (list : List (List ℕ)). All IsShort list) outcome.sent) }
    ensures under { IfOk result (HasForwardedUnder hands F.Fn chain.old chain.new wire manner config packets.now frames.items) }
    ensures forwarded { are_exact (rules_of chain.old) ≡ true → IfOk result (HasForwarded hands (ruled_by (rules_of chain.old) wire manner config packets.now) frames.items) }
{
    let Ok((shared, passes)) = Shared::open(alloc, config, frames, 0) else {
        return Err(OutOfMemory);
    };
    let own = shared.config();
    let inputs = Inputs::split(alloc, own, packets)?;
    let drivers = drivers_for(alloc, own, packets, &inputs, chain, wire)?;
    let terms = Terms {
        alloc,
        config: own,
        packets,
        wire,
        manner,
        hands,
    };
    let ran = run_drivers::<Brand, R, G>(rt, gate, terms, &shared, drivers, passes)?;
    Ok(end(shared, ran, wire))
}

/// What a run leaves behind beside its table: the passes of all callers, what is kept of the drivers, and how many calls were made.
struct Ran {
    passes: Passes,
    kept: Collected,
    calls: u64,
}

/// Runs drivers that were made for these packets, and the applications, under the verdicts that the drivers keep.
fn run_drivers<'a, V: Verdicts + Send, R: Threads + Wait + Sync, G: Gate + Sync>(
    rt: &R,
    gate: &G,
    terms: Terms<'a>,
    shared: &Shared,
    drivers: Vec<Driver<'a>>,
    passes: Passes,
) -> Result<Ran, OutOfMemory>
    requires table { shared.now.setup.config ≡ terms.config.now }
    requires suit { SuitHands terms.hands terms.config.now }
    requires unchanged { terms.manner.mangle ≡ None }
    requires regular { IsRegular terms.config.now }
    requires count { length drivers.items ≡ length terms.config.now.pairs }
    requires new { AreNew (setting_over terms V.verdicts) 0 drivers.items }
    requires passes { passes ≡ new_passes shared.now }
    ensures { IfOk result (λ ran. IsGathered shared.now terms.entry.hands (setting_over terms.entry V.verdicts) ran.passes (map packets_in ran.kept.sent.items) ran.kept.figures.items ran.calls) }
{
    let (parkers, wakers) = parkers_for(terms.alloc, terms.config)?;
    let mut passes = passes;
    let source: Source<'_, V> = Source {
        terms,
        wakers: wakers.as_slice(),
        verdicts: PhantomData,
    };
    let members = seat_members(shared, source, drivers, parkers, &mut passes)?;
    run_members(rt, gate, terms.alloc, shared, passes, members)
}

/// Runs the members of a table to their ends, which are all of its callers and have their passes.
fn run_members<R: Threads + Wait + Sync, W: Opens + Leaves + Drop + Send, G: Gate + Sync>(
    rt: &R,
    gate: &G,
    alloc: Global,
    shared: &Shared,
    passes: Passes,
    members: Vec<W>,
) -> Result<Ran, OutOfMemory>
    requires regular { IsRegular shared.now.setup.config }
    requires on { All (λ w. IsSeatOn shared.now (W.seat w)) members.items }
    requires taken { AreTaken shared.now (callers_of shared.now.setup.config) passes }
    requires run { (hands : ℕ) × (s : Setting) × WillHaveRun W.pass W.leaves W.seat W.has_run shared.now hands s (map W.seat members.items) }
    ensures { (hands : ℕ) (s : Setting) → WillHaveRun W.pass W.leaves W.seat W.has_run shared.now hands s (map W.seat members.items)
        → IfOk result (λ ran. IsGathered shared.now hands s ran.passes (map packets_in ran.kept.sent.items) ran.kept.figures.items ran.calls) }
{
    let config = shared.config();
    let mut kept = Collected::with_room(alloc, config.pairs().len())?;
    let crew = Crew::new(alloc, shared, members)?;
    let members = run_crew(rt, shared, gate, crew);
    let mut passes = passes;
    let calls = give_back(shared, members, config.classes(), &mut passes, &mut kept);
    Ok(Ran {
        passes,
        kept,
        calls,
    })
}

/// Ends the table of a run, and tells what the run shows.
fn end(shared: Shared, ran: Ran, wire: Wire) -> Outcome
    requires regular { IsRegular shared.setup.config }
    requires gathered { (hands : ℕ) × (s : Setting) × (s.config ≡ shared.setup.config) × IsGathered shared hands s ran.passes (map packets_in ran.kept.sent.items) ran.kept.figures.items ran.calls }
    ensures pairs { length result.sent ≡ length shared.setup.config.pairs }
    ensures short { All (λ (list : List (List ℕ)). All IsShort list) result.sent }
    ensures forwarded { (hands : ℕ) (s : Setting) → s.config ≡ shared.setup.config → s.wire ≡ wire → s.manner.mangle ≡ None
        → IsGathered shared hands s ran.passes (map packets_in ran.kept.sent.items) ran.kept.figures.items ran.calls → HasForwarded hands s shared.setup.frames result }
{
    let Ran {
        passes,
        kept,
        calls,
    } = ran;
    let (_frames, note) = shared.close(passes);
    let sent = kept.into_sent(calls, wire, false);
    Outcome { note, sent }
}

/// Gives the passes of members that have ended back, and keeps what is left of them. Says how many calls they made.
fn give_back<W: Leaves + Drop>(
    shared: &Shared,
    members: Vec<W>,
    classes: u32,
    passes: &mut Passes,
    kept: &mut Collected,
) -> u64
    requires run { (hands : ℕ) × (s : Setting) × HaveRun W.pass W.leaves shared.now hands s members.items }
    requires classes { classes ≡ classes_of shared.now.setup.config }
    requires taken { AreTaken shared.now (callers_of shared.now.setup.config) passes.old }
    requires none { (kept.old.figures.items ≡ []) × (kept.old.sent.items ≡ []) }
    requires room { (length shared.now.setup.config.pairs ≤ vec_capacity kept.old.figures) × (length shared.now.setup.config.pairs ≤ vec_capacity kept.old.sent) }
    ensures given { (hands : ℕ) (s : Setting) → HaveRun W.pass W.leaves shared.now hands s members.items → AreGiven shared.now hands s (callers_of shared.now.setup.config) passes.new }
    ensures sent { (hands : ℕ) (s : Setting) → HaveRun W.pass W.leaves shared.now hands s members.items → AreSent s (callers_of shared.now.setup.config) passes.new (map packets_in kept.new.sent.items) }
    ensures figures { (hands : ℕ) (s : Setting) → HaveRun W.pass W.leaves shared.now hands s members.items → AreFiguresOf s (callers_of shared.now.setup.config) passes.new kept.new.figures.items }
    ensures calls { result ≡ capped (calls_in 0 passes.new) }
{
    let mut calls = 0u64;
    for member in members {
        let (pass, made) = member.leave(kept, classes);
        passes.give(pass);
        calls = calls.saturating_add(made);
    }
    calls
}
