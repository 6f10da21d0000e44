//! A table that threads share, with the passes of all its callers between their calls.
ghost use Rattle.std.specs.Prelude.{◌≡◌, ◌+◌, ◌≤◌, IfOk, IfSome};
ghost use Rattle.xsk_model.specs.Asks.{joined_call, HasAsked, HasAnswered};
ghost use Rattle.xsk_model.specs.Config.{IsLawful, callers_of};
ghost use Rattle.xsk_model.specs.Opening.{AreFrames};
ghost use Rattle.xsk_rings.specs.Serving.{MayAsk, looks_of};
ghost use Rattle.xsk_rings.specs.Rounds.{Rests};
ghost use Rattle.xsk_table.specs.Opening.{new_passes};
ghost use Rattle.xsk_table.specs.Closing.{AreThere};
ghost use Rattle.test_object.specs.Resting.{AreTaken, AllRest};

use crate::reply::Asked;
use std::alloc::Global;
use std::marker::{Brand, Model};
use std::sync::ledger::{Blank, Ledger};
use xsk_model::{Answer, Ask, Call, Config};
use xsk_rings::{CheckedPass, RingCalls};
use xsk_table::{Note, Passes, Shared, Steps};
use xsk_umem::{Batch, Frames, OutOfMemory};

/// A table, and a checked pass for each of its callers, whose passes were taken once. No call is in flight.
#[derive(Drop)]
pub(crate) struct Table {
    shared: Shared,
    /// Those that were taken, which is all.
    passes: Passes,
    checked: Vec<CheckedPass>,
    /// Whether there was one pass for each caller, and none for another number.
    once: bool,
}

impl Model for Table {
    ghost use Rattle.xsk_table.specs.Held.{Board};
    ghost use Rattle.xsk_model.specs.Config.{callers_of};
    ghost use Rattle.test_object.specs.Resting.{AreTaken, AllRest};

    ghost Value = { Board };

    ghost view = { λ t. t.shared };

    ghost invariant = { λ t. AreTaken t.shared (callers_of t.shared.setup.config) t.passes × AllRest t.shared (callers_of t.shared.setup.config) t.checked.items };
}

/// The looks at the other side's count that a legal call takes.
fn looks(shared: &Shared, pass: &CheckedPass, ask: Ask, items: &Batch) -> u32
    requires may { MayAsk shared.now pass.now (joined_call ask items.now) }
    ensures { result ≡ looks_of pass.now (joined_call ask items.now) }
{
    match ask {
        Ask::Reserve(..) | Ask::Peek(..) => u32::from(!pass.covers(shared, ask)),
        Ask::Submit(_) | Ask::Release(..) | Ask::Swap(..) | Ask::Look(_) => 0,
    }
}

/// The answer to a call, and the looks at the other side's count that it took.
fn counted<L: Ledger>(
    shared: &Shared,
    pass: &mut CheckedPass,
    ask: Ask,
    items: &mut Batch,
    steps: &mut Steps<L>,
) -> (Answer, u32)
    requires may { MayAsk shared.now pass.old (joined_call ask items.old) }
    requires items { HasAsked ask items.old }
    ensures rests { Rests shared.now pass.new }
    ensures caller { pass.new.who ≡ pass.old.who }
    ensures counted { steps.new ≡ steps.old + result.1 }
    ensures items { HasAnswered result.0 items.new }
{
    let looks = looks(shared, pass, ask, items);
    (pass.serve_counted(shared, ask, items, steps), looks)
}

/// A Reserve or a Peek that looks at the other side's count, whatever is known of it. Any other call is made as ever.
fn looking<L: Ledger>(
    shared: &Shared,
    pass: &mut CheckedPass,
    ask: Ask,
    items: &mut Batch,
    steps: &mut Steps<L>,
) -> (Answer, u32)
    requires may { MayAsk shared.now pass.old (joined_call ask items.old) }
    requires items { HasAsked ask items.old }
    ensures rests { Rests shared.now pass.new }
    ensures caller { pass.new.who ≡ pass.old.who }
    ensures counted { steps.new ≡ steps.old + result.1 }
    ensures items { HasAnswered result.0 items.new }
{
    match ask {
        Ask::Reserve(ring, count) => (pass.reserve_anew(shared, ring, count, steps), 1),
        _ => counted(shared, pass, ask, items, steps),
    }
}

/// The same for a call that may not be legal, counted in a ledger that is fresh.
fn asked<L: Ledger>(
    shared: &Shared,
    pass: &mut CheckedPass,
    call: Call,
    anew: bool,
    blank: Blank,
) -> (Asked, u32)
    requires name { blank.name ≡ L.name }
    requires parts { (blank.parts ≡ L.parts) × (1 ≤ blank.parts) }
    requires rests { Rests shared.now pass.old }
    ensures rests { Rests shared.now pass.new }
    ensures caller { pass.new.who ≡ pass.old.who }
{
    let mut items = Batch::new();
    let ask = call.split(&mut items);
    if !pass.allows(shared, ask, &items) {
        return (Asked::Refused(ask.joined(items), None), 0);
    }
    let mut steps = Steps::<L>::new(blank);
    if anew {
        let (answer, looks) = looking(shared, pass, ask, &mut items, &mut steps);
        return (Asked::Made(answer.joined(items)), looks);
    }
    let looks = looks(shared, pass, ask, &items);
    let reply = pass.perform_counted(shared, ask.joined(items), &mut steps);
    (Asked::Made(reply), looks)
}

/// The same, with a counter that is opened for this call.
fn asked_anew(shared: &Shared, pass: &mut CheckedPass, call: Call, anew: bool) -> (Asked, u32)
    requires rests { Rests shared.now pass.old }
    ensures rests { Rests shared.now pass.new }
    ensures caller { pass.new.who ≡ pass.old.who }
{
    let blank = Blank::new(1);
    asked::<Brand>(shared, pass, call, anew, blank)
}

/// Takes the passes of all callers, and checks each. Tells whether there was one for each, and none for another number.
fn take_all(
    alloc: Global,
    shared: &Shared,
    passes: &mut Passes,
) -> Result<(Vec<CheckedPass>, bool), OutOfMemory>
    requires new { passes.old ≡ new_passes shared.now }
    ensures taken { IfOk result (λ all. AreTaken shared.now (callers_of shared.now.setup.config) passes.new) }
    ensures rest { IfOk result (λ all. AllRest shared.now (callers_of shared.now.setup.config) all.0.items) }
{
    let callers = shared.config().callers();
    let mut checked = Vec::new(alloc);
    let mut once = true;
    for who in 0..callers {
        let Some(pass) = passes.take(who) else {
            unreachable!()
        };
        let again = passes.take(who);
        once = once && pass.caller() == who && again.is_none();
        let Ok(one) = CheckedPass::new(alloc, shared, pass) else {
            return Err(OutOfMemory);
        };
        checked.push(one)?;
    }
    let next = passes.take(callers);
    let last = passes.take(u32::MAX);
    Ok((checked, once && next.is_none() && last.is_none()))
}

/// Puts all passes back.
fn give_all(shared: &Shared, passes: &mut Passes, checked: Vec<CheckedPass>)
    requires taken { AreTaken shared.now (callers_of shared.now.setup.config) passes.old }
    requires rest { AllRest shared.now (callers_of shared.now.setup.config) checked.items }
    ensures { AreThere shared.now passes.new }
{
    let _config = shared.config();
    let mut checked = checked;
    'passes: while let Some(one) = checked.pop() {
        passes.give(one.into_pass());
    }
}

impl Table {
    /// A table whose counts start at `first`, if there is memory for it.
    pub(crate) fn open(alloc: Global, config: Config, frames: Frames, first: u32) -> Option<Table>
        requires lawful { IsLawful config }
        requires frames { AreFrames config.geometry frames.items }
    {
        let Ok((shared, passes)) = Shared::open(alloc, config, frames, first) else {
            return None;
        };
        let mut passes = passes;
        let Ok((checked, once)) = take_all(alloc, &shared, &mut passes) else {
            return None;
        };
        Some(Table {
            shared,
            passes,
            checked,
            once,
        })
    }

    /// Makes a call where it is legal, and tells the looks at the other side's count that it took.
    pub(crate) fn ask(&mut self, who: u32, call: Call, anew: bool) -> (Asked, u32)
        ensures { self.new ≡ self.old }
    {
        if who as usize >= self.checked.len() {
            return (Asked::Refused(call, None), 0);
        }
        asked_anew(&self.shared, &mut self.checked[who as usize], call, anew)
    }

    /// Takes a note of what a caller has seen, if there is such a caller.
    pub(crate) fn note(&mut self, who: u32) -> Option<Note>
        ensures same { self.new ≡ self.old }
        ensures table { IfSome result (λ note. note.table ≡ self.old.table) }
    {
        if who as usize >= self.checked.len() {
            return None;
        }
        Some(self.checked[who as usize].note(&self.shared))
    }

    /// Lets a caller learn what a note of this table shows, and tells whether there is such a caller.
    pub(crate) fn meet(&mut self, who: u32, note: Note) -> bool
        requires { note.table ≡ self.old.table }
        ensures { self.new ≡ self.old }
    {
        if who as usize >= self.checked.len() {
            return false;
        }
        self.checked[who as usize].meet(&self.shared, note);
        true
    }

    /// The number of a caller's pass, if there is such a caller.
    pub(crate) fn caller(&self, who: u32) -> Option<u32> {
        Some(self.checked.get(who as usize)?.caller())
    }

    /// Whether each caller's pass could be taken once, and no other.
    pub(crate) fn lent_once(&self) -> bool {
        self.once
    }

    /// Ends the table, and gives the frames that stand in rings.
    pub(crate) fn close(self) -> Frames {
        let Table {
            shared,
            mut passes,
            checked,
            ..
        } = self;
        give_all(&shared, &mut passes, checked);
        let (frames, _note) = shared.close(passes);
        frames
    }
}
