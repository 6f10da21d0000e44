//! A pass that tells which of its caller's calls are legal. Each call is noted (`specs/Checked`, the invariant), so
//! `allows` is exact.
ghost use Rattle.std.specs.Prelude.{◌≡◌, ◌+◌, ◌<◌, ◌≤◌, ◌↔◌, List, [], IfOk, IfErr, IsTrue};
ghost use Rattle.xsk_umem.specs.declared.batch.Item.{Item as Thing};
ghost use Rattle.xsk_model.specs.Asks.{joined_call, joined_reply, HasAsked, HasAnswered};
ghost use Rattle.xsk_model.specs.Config.{callers_of};
ghost use Rattle.xsk_model.specs.Entry.{own};
ghost use Rattle.xsk_model.specs.Legal.{IsLegal};
ghost use Rattle.xsk_model.specs.declared.call.Call.TheVariants.{Reserve};
ghost use Rattle.xsk_table.specs.View.{idle};
ghost use Rattle.xsk_table.specs.Known.{free_after};
ghost use Rattle.xsk_table.specs.Held.{Belongs, is_covered, with_known};
ghost use Rattle.xsk_table.specs.Meeting.{Meets, note_by};
ghost use Rattle.xsk_rings.specs.Serving.{MayAsk, Served, Tells, looks_of};
ghost use Rattle.xsk_rings.specs.Rounds.{Rests, mine_of};
ghost use Rattle.xsk_rings.specs.Checked.{NotesOwn};

use crate::calls::RingCalls;
use std::alloc::Global;
use std::marker::{Brand, Model};
use std::sync::ledger::{Blank, Ledger};
use xsk_legal::Standing;
use xsk_model::{Answer, Ask, Call, Reply, Ring};
use xsk_table::{Note, Pass, Shared, Steps};
use xsk_umem::Batch;

/// A pass that knows of its caller which calls are legal. What it keeps for this takes memory when it is made, and time at
/// each call: where legality is proved, `Pass` is the one to take. It has no call in flight.
#[derive(Drop)]
pub struct CheckedPass {
    pass: Pass,
    standing: Standing,
}

impl Model for CheckedPass {
    ghost use Rattle.xsk_table.specs.Held.{Holder};
    ghost use Rattle.xsk_rings.specs.Checked.{IsChecked};

    ghost Value = { Holder };

    ghost view = { λ p. p.pass };

    ghost invariant = { λ p. IsChecked p.pass p.standing };
}

impl CheckedPass {
    /// A checked pass of a pass that has made no call. It is refused for want of memory alone, and the pass comes back.
    pub fn new(alloc: Global, shared: &Shared, pass: Pass) -> Result<CheckedPass, Pass>
        requires rests { Rests shared.now pass }
        requires unused { mine_of pass ≡ [] }
        ensures checked { IfOk result (λ checked. checked ≡ pass) }
        ensures refused { IfErr result (λ back. back ≡ pass) }
    {
        let Ok(standing) = Standing::new(alloc, shared.config(), pass.caller()) else {
            return Err(pass);
        };
        Ok(CheckedPass { pass, standing })
    }

    /// The number of the caller.
    pub fn caller(&self) -> u32
        ensures caller { result ≡ self.now.who }
        ensures few { result < callers_of self.now.view.setup.config }
    {
        self.pass.caller()
    }

    /// Whether the call, whose items are in the batch, is legal after all calls that the caller has made, and their replies.
    pub fn allows(&self, shared: &Shared, ask: Ask, items: &Batch) -> bool
        requires { Belongs shared.now self.now }
        ensures { IsTrue result ↔ IsLegal self.now.view.setup.config (own self.now.who self.now.view.seen) self.now.who (joined_call ask items.now) }
    {
        self.standing.allows(shared.config(), ask, items)
    }

    /// Whether a call is a Reserve or a Peek that what is known covers, as `Pass::covers` tells.
    pub fn covers(&self, shared: &Shared, ask: Ask) -> bool
        requires { (items : List Thing) × MayAsk shared.now self.now (joined_call ask items) }
        ensures { result ≡ is_covered self.now (joined_call ask []) }
    {
        self.pass.covers(shared, ask)
    }

    /// Makes a Reserve by a look at the consumer's count, whatever is known of it, and counts one look. The places that it finds
    /// left free are then known, as after `Pass::reserve_step`.
    pub fn reserve_anew<L: Ledger>(
        &mut self,
        shared: &Shared,
        ring: Ring,
        count: u32,
        steps: &mut Steps<L>,
    ) -> Answer
        requires may { MayAsk shared.now self.old (Reserve ring count) }
        ensures served { Served self.old self.new (Reserve ring count) (joined_reply result []) }
        ensures known { self.new.known ≡ with_known self.old ring (free_after self.old.view.setup self.new.view.seen ring) }
        ensures answered { HasAnswered result [] }
        ensures counted { steps.new ≡ steps.old + 1 }
    {
        reserve_noted(
            &mut self.pass,
            &mut self.standing,
            shared,
            ring,
            count,
            steps,
        )
    }

    /// A note of what the caller has seen.
    pub fn note(&mut self, shared: &Shared) -> Note
        requires belongs { Belongs shared.now self.old }
        ensures same { self.new ≡ self.old }
        ensures note { result ≡ note_by self.old }
    {
        self.pass.note(shared)
    }

    /// Learns what a note of the same table shows, as `Pass::meet` does.
    pub fn meet(&mut self, shared: &Shared, note: Note)
        requires belongs { Belongs shared.now self.old }
        requires note { note.table ≡ shared.now.table }
        ensures same { (self.new.table ≡ self.old.table) × (self.new.who ≡ self.old.who) }
        ensures known { self.new.known ≡ self.old.known }
        ensures view { self.new.view ≡ record self.old.view { seen = self.new.view.seen; told = [] } }
        ensures history { Meets self.old.view.setup self.old.who self.old.view.seen note.seen self.new.view.seen }
    {
        self.pass.meet(shared, note);
    }

    /// The pass, which has no call in flight.
    pub fn into_pass(self) -> Pass
        ensures same { result ≡ self }
        ensures rests { result.view.flight ≡ idle }
    {
        let CheckedPass { pass, .. } = self;
        pass
    }
}

/// Makes a legal call, and notes it.
fn serve_noted<L: Ledger>(
    pass: &mut Pass,
    standing: &mut Standing,
    shared: &Shared,
    ask: Ask,
    items: &mut Batch,
    steps: &mut Steps<L>,
) -> Answer
    requires may { MayAsk shared.now pass.old (joined_call ask items.old) }
    requires noted { NotesOwn pass.old standing.old }
    requires items { HasAsked ask items.old }
    ensures told { Tells pass.old pass.new (joined_call ask items.old) (joined_reply result items.new) }
    ensures noted { NotesOwn pass.new standing.new }
    ensures items { HasAnswered result items.new }
    ensures counted { steps.new ≡ steps.old + looks_of pass.old (joined_call ask items.old) }
{
    let config = shared.config();
    standing.gives(config, ask, items);
    let answer = pass.serve_counted(shared, ask, items, steps);
    standing.got(config, ask, answer, items);
    answer
}

/// The same with a counter of its own.
fn serve_uncounted<L: Ledger>(
    pass: &mut Pass,
    standing: &mut Standing,
    shared: &Shared,
    ask: Ask,
    items: &mut Batch,
    blank: Blank,
) -> Answer
    requires name { blank.name ≡ L.name }
    requires parts { (blank.parts ≡ L.parts) × (1 ≤ blank.parts) }
    requires may { MayAsk shared.now pass.old (joined_call ask items.old) }
    requires noted { NotesOwn pass.old standing.old }
    requires items { HasAsked ask items.old }
    ensures told { Tells pass.old pass.new (joined_call ask items.old) (joined_reply result items.new) }
    ensures noted { NotesOwn pass.new standing.new }
    ensures items { HasAnswered result items.new }
{
    let mut steps = Steps::<L>::new(blank);
    serve_noted(pass, standing, shared, ask, items, &mut steps)
}

/// Makes a Reserve that looks, and notes it.
fn reserve_noted<L: Ledger>(
    pass: &mut Pass,
    standing: &mut Standing,
    shared: &Shared,
    ring: Ring,
    count: u32,
    steps: &mut Steps<L>,
) -> Answer
    requires may { MayAsk shared.now pass.old (Reserve ring count) }
    requires noted { NotesOwn pass.old standing.old }
    ensures served { Served pass.old pass.new (Reserve ring count) (joined_reply result []) }
    ensures known { pass.new.known ≡ with_known pass.old ring (free_after pass.old.view.setup pass.new.view.seen ring) }
    ensures answered { HasAnswered result [] }
    ensures noted { NotesOwn pass.new standing.new }
    ensures counted { steps.new ≡ steps.old + 1 }
{
    let config = shared.config();
    let at = shared.ring_place(ring);
    let answer = pass.reserve_step(shared, ring, at, count, steps);
    let none = Batch::new();
    standing.got(config, Ask::Reserve(ring, count), answer, &none);
    answer
}

impl RingCalls for CheckedPass {
    ghost holder = { λ p. p };

    fn serve_counted<L: Ledger>(
        &mut self,
        shared: &Shared,
        ask: Ask,
        items: &mut Batch,
        steps: &mut Steps<L>,
    ) -> Answer {
        serve_noted(
            &mut self.pass,
            &mut self.standing,
            shared,
            ask,
            items,
            steps,
        )
    }

    fn serve(&mut self, shared: &Shared, ask: Ask, items: &mut Batch) -> Answer {
        let blank = Blank::new(1);
        serve_uncounted::<Brand>(
            &mut self.pass,
            &mut self.standing,
            shared,
            ask,
            items,
            blank,
        )
    }

    fn perform_counted<L: Ledger>(
        &mut self,
        shared: &Shared,
        call: Call,
        steps: &mut Steps<L>,
    ) -> Reply {
        let mut items = Batch::new();
        let ask = call.split(&mut items);
        let answer = self.serve_counted(shared, ask, &mut items, steps);
        answer.joined(items)
    }

    fn perform(&mut self, shared: &Shared, call: Call) -> Reply {
        let mut items = Batch::new();
        let ask = call.split(&mut items);
        let answer = self.serve(shared, ask, &mut items);
        answer.joined(items)
    }
}
