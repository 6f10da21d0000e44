//! The application, as other crates use it.
ghost use Rattle.std.specs.Prelude.{◌≡◌, None, Some, List, ℕ, ◌++◌, ◌<◌, IfOk, [], ◌∷◌, replicate, flat_map};
ghost use Rattle.xsk_umem.specs.Frame.{Frame as AFrame};
ghost use Rattle.xsk_turns.specs.AppTurns.{AppKept};
ghost use Rattle.xsk_turns.specs.Giving.{with_frames};
ghost use Rattle.xsk_turns.specs.Owned.{Suits};
ghost use Rattle.xsk_model.specs.Marks.{apps_of};
ghost use Rattle.xsk_model.specs.Config.{Config as AConfig, IsRegular};
ghost use Rattle.xsk_model.specs.Entry.{Told, with_told};
ghost use Rattle.xsk_model.specs.History.{Fits};
ghost use Rattle.xsk_model.specs.declared.call.Call.{Call as ACall};
ghost use Rattle.xsk_model.specs.declared.call.Reply.{Reply as AReply};
ghost use Rattle.xsk_model.specs.Expected.{CanCome, nothing, expected_of};
ghost use Rattle.xsk_turns.specs.declared.manner.Manner.{Manner as AManner};
ghost use Rattle.xsk_turns.specs.Stepping.{joined_ask, joined_answer, IsGivenBack, IsLent};

use crate::back::Back;
use crate::closing::shut_on;
use crate::machine::Machine;
use crate::start::start;
use std::alloc::Global;
use std::marker::Model;
use xsk_model::{Act, Answer, Ask, Config, Reply};
use xsk_turns::Manner;
use xsk_turns::giving::give_batches;
use xsk_turns::stepping::{join_ask, split_reply};
use xsk_umem::{Batch, Frames, OutOfMemory};

/// The application of one queue of two paired ports, as a worker that makes one call at a time.
#[derive(Drop)]
pub struct App<'a> {
    pub(crate) machine: Machine<'a>,
}

impl<'a> Model for App<'a> {
    ghost use Rattle.xsk_app.specs.Shown.{Shown};

    ghost Value = { Shown };

    ghost use Rattle.xsk_app.specs.Waits.{expects};
    ghost use Rattle.xsk_app.specs.Stands.{noted_by, kept_by};

    ghost view = { λ a. record { expected = expects a.machine.wait; config = a.machine.config.now; app = a.machine.app; wait = a.machine.wait; noted = noted_by a.machine.turn; kept = kept_by a.machine } };
}

impl<'a> App<'a> {
    ghost use Rattle.xsk_app.specs.Runs.{IsNew, Stands, StandsWith, HasEnded, TellsWith};
    ghost use Rattle.xsk_app.specs.Resumed.{IsResumed, StandsFrom, StandsFromWith};
    ghost use Rattle.xsk_turns.specs.Owned.{frame_numbers};
    ghost use Rattle.xsk_model.specs.Numbers.{times};
    ghost use Rattle.xsk_model.specs.Own.{had_of};
    ghost use Rattle.xsk_app.specs.Frames.{app_frames};

    /// The application with this number, of a regular configuration that has it. By its manner it changes items that it submits
    /// on TX, or none, and closes the socket that is to be closed, where it is one of its own, once so many items came.
    pub fn new(
        alloc: Global,
        config: &'a Config,
        app: u32,
        manner: Manner,
    ) -> Result<App<'a>, OutOfMemory>
        requires regular { IsRegular config.now }
        requires app { app < apps_of config.now }
        ensures expected { IfOk result (λ a. a.expected ≡ nothing) }
        ensures new { IfOk result (λ a. IsNew manner config.now app a) }
    {
        let lanes = 2 * config.classes() as usize;
        let ways = Vec::with_capacity(alloc, lanes)?;
        let pending = new_pending(alloc, lanes)?;
        let backs = new_backs(alloc)?;
        let shut = shut_on(config, app);
        let seen = [false; 2];
        Ok(start(config, app, ways, pending, backs, seen, manner, shut))
    }

    /// Goes on with the reply to the last call (none at first), and gives the next call, or tells that it has ended.
    pub fn next(&mut self, reply: Option<Reply>) -> Act
        requires { CanCome self.old.expected reply }
        ensures expected { self.new.expected ≡ expected_of result }
        ensures same { (self.new.config ≡ self.old.config) × (self.new.app ≡ self.old.app) }

        // The application stands for its calls and replies: where its turns stand after them it keeps what they keep, and
        // gives the call that they ask for, or has ended as they have.
        ensures begins { (m : AManner) (c : AConfig) (app : ℕ) → IsNew m c app self.old → reply ≡ None → StandsWith m c app self.new result [] }
        ensures goes_on { (m : AManner) (c : AConfig) (app : ℕ) (l : List Told) (call : ACall) (r : AReply)
            → Stands m c app self.old call l → reply ≡ Some r → Suits c l call r → StandsWith m c app self.new result (with_told l call r) }

        // So by the laws of its turns it tells what its own calls and replies leave.
        ensures tells_first { (m : AManner) (c : AConfig) (app : ℕ) → IsNew m c app self.old → reply ≡ None → TellsWith m c app self.new result [] }
        ensures tells { (m : AManner) (c : AConfig) (app : ℕ) (l : List Told) (call : ACall) (r : AReply)
            → Stands m c app self.old call l → reply ≡ Some r → Suits c l call r → TellsWith m c app self.new result (with_told l call r) }

        // One that goes on from what earlier calls left stands for its calls since then, and their replies.
        ensures resumes { (c : AConfig) (app : ℕ) (start : AppKept) (past : List Told) → IsResumed c app start past self.old → reply ≡ None → StandsFromWith c app start past self.new result [] }
        ensures goes_on_from { (c : AConfig) (app : ℕ) (start : AppKept) (past l : List Told) (call : ACall) (r : AReply)
            → StandsFrom c app start past self.old call l → reply ≡ Some r → Fits c (past ++ l) call r → StandsFromWith c app start past self.new result (with_told l call r) }
    {
        let mut items = Batch::new();
        let answer = split_reply(reply, &mut items);
        let mut asked = None;
        self.step(answer, &mut items, &mut asked);
        join_ask(asked, items)
    }

    /// Goes on as `next` does, with the items of a reply taken from the batch, and those of a call put there; `None` tells
    /// that it has ended. No batch is moved by it. The batch must be empty unless items were taken, and is left empty
    /// unless the call is a Submit.
    #[inline(always)]
    pub fn step(&mut self, answer: Option<Answer>, items: &mut Batch, asked: &mut Option<Ask>)
        requires comes { CanCome self.old.expected (joined_answer answer items.old) }
        requires lent { IsLent answer items.old }
        ensures expected { self.new.expected ≡ expected_of (joined_ask asked.new items.new) }
        ensures given_back { IsGivenBack asked.new items.new }
        ensures same { (self.new.config ≡ self.old.config) × (self.new.app ≡ self.old.app) }
        ensures begins { (m : AManner) (c : AConfig) (app : ℕ) → IsNew m c app self.old → joined_answer answer items.old ≡ None → StandsWith m c app self.new (joined_ask asked.new items.new) [] }
        ensures goes_on { (m : AManner) (c : AConfig) (app : ℕ) (l : List Told) (call : ACall) (r : AReply)
            → Stands m c app self.old call l → joined_answer answer items.old ≡ Some r → Suits c l call r
            → StandsWith m c app self.new (joined_ask asked.new items.new) (with_told l call r) }
        ensures tells_first { (m : AManner) (c : AConfig) (app : ℕ) → IsNew m c app self.old → joined_answer answer items.old ≡ None
            → TellsWith m c app self.new (joined_ask asked.new items.new) [] }
        ensures tells { (m : AManner) (c : AConfig) (app : ℕ) (l : List Told) (call : ACall) (r : AReply)
            → Stands m c app self.old call l → joined_answer answer items.old ≡ Some r → Suits c l call r
            → TellsWith m c app self.new (joined_ask asked.new items.new) (with_told l call r) }
        ensures resumes { (c : AConfig) (app : ℕ) (start : AppKept) (past : List Told) → IsResumed c app start past self.old → joined_answer answer items.old ≡ None
            → StandsFromWith c app start past self.new (joined_ask asked.new items.new) [] }
        ensures goes_on_from { (c : AConfig) (app : ℕ) (start : AppKept) (past l : List Told) (call : ACall) (r : AReply)
            → StandsFrom c app start past self.old call l → joined_answer answer items.old ≡ Some r → Fits c (past ++ l) call r
            → StandsFromWith c app start past self.new (joined_ask asked.new items.new) (with_told l call r) }
    {
        self.machine.step(answer, items, asked);
    }

    /// All frames that it has go behind those of the queue, each with its bytes: those of the items that are pending, lane by lane,
    /// and those that it has yet to give back, side by side. A queue of the application's UMEM has room for them; beyond its room
    /// no frame is appended. Where it has ended they are all that it peeked and didn't submit.
    pub fn into_frames(self, frames: &mut Frames)
        ensures frames { frames.new ≡ with_frames frames.old (app_frames self.entry.kept) }
        ensures ended { (m : AManner) (c : AConfig) (app : ℕ) (l : List Told) → HasEnded m c app self.entry l → (n : ℕ) → times n (frame_numbers (app_frames self.entry.kept)) ≡ times n (had_of l) }
    {
        let App { machine } = self;
        let Machine { pending, backs, .. } = machine;
        give_batches(frames, pending);
        give_backs(frames, backs);
    }
}

/// No item for each of so many lanes.
pub(crate) fn new_pending(alloc: Global, lanes: usize) -> Result<Vec<Batch>, OutOfMemory>
    ensures { IfOk result (λ pending. pending.items ≡ replicate lanes []) }
{
    let mut pending = Vec::with_capacity(alloc, lanes)?;
    for _ in 0..lanes {
        pending.push(Batch::new())?;
    }
    Ok(pending)
}

/// No frame for each side.
pub(crate) fn new_backs(alloc: Global) -> Result<Vec<Back>, OutOfMemory>
    ensures { IfOk result (λ backs. backs.items ≡ [] ∷ [] ∷ []) }
{
    let mut backs = Vec::with_capacity(alloc, 2)?;
    backs.push(Back::new(alloc)?)?;
    backs.push(Back::new(alloc)?)?;
    Ok(backs)
}

/// Appends the frames that are to be given back, side by side.
fn give_backs(frames: &mut Frames, backs: Vec<Back>)
    ensures { frames.new ≡ with_frames frames.old (flat_map (λ (back : List AFrame). back) backs.items) }
{
    for back in backs {
        back.give_all(frames);
    }
}

/// An application may be sent to another thread.
#[allow(dead_code)]
fn is_sent(app: &App<'_>) {
    needs_send(app);
}

fn needs_send<T: Send>(_worker: &T) {}
