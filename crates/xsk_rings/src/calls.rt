//! A caller's calls on the rings and marks that all threads share.
ghost use Rattle.std.specs.Prelude.{◌≡◌, ◌+◌, ◌≤◌, []};
ghost use Rattle.xsk_model.specs.Asks.{joined_call, joined_reply, HasAsked, HasAnswered};
ghost use Rattle.xsk_table.specs.Held.{Holder};
ghost use Rattle.xsk_rings.specs.Serving.{MayAsk, Tells, looks_of};

use crate::serving;
use std::marker::Brand;
use std::sync::ledger::{Blank, Ledger};
use xsk_model::{Answer, Ask, Call, Reply};
use xsk_table::{Pass, Shared, Steps};
use xsk_umem::Batch;

/// The calls of a caller on rings and marks. Any number of threads make them at once, each with a pass of its own: a call
/// takes effect at one of its steps, and has the reply that the object gives at that point of one legal history.
///
/// Each must be legal after the caller's own earlier calls. A Reserve or a Peek that the last look at the other side's count
/// covers (`Pass::covers`) makes no look there, any other makes one, and no other call makes one.
pub trait RingCalls {
    ghost holder: { Self → Holder };

    /// Makes the call whose items are in the batch, and tells the reply; the items of a Peek's reply are then in the
    /// batch. It counts its looks at the other side's count.
    fn serve_counted<L: Ledger>(
        &mut self,
        shared: &Shared,
        ask: Ask,
        items: &mut Batch,
        steps: &mut Steps<L>,
    ) -> Answer
        requires may { MayAsk shared.now (holder self.old) (joined_call ask items.old) }
        requires items { HasAsked ask items.old }
        ensures told { Tells (holder self.old) (holder self.new) (joined_call ask items.old) (joined_reply result items.new) }
        ensures items { HasAnswered result items.new }
        ensures counted { steps.new ≡ steps.old + looks_of (holder self.old) (joined_call ask items.old) };

    /// The same, for a caller that counts nothing.
    fn serve(&mut self, shared: &Shared, ask: Ask, items: &mut Batch) -> Answer
        requires may { MayAsk shared.now (holder self.old) (joined_call ask items.old) }
        requires items { HasAsked ask items.old }
        ensures told { Tells (holder self.old) (holder self.new) (joined_call ask items.old) (joined_reply result items.new) }
        ensures items { HasAnswered result items.new };

    /// Makes the call and gives its reply. It counts its looks at the other side's count.
    fn perform_counted<L: Ledger>(
        &mut self,
        shared: &Shared,
        call: Call,
        steps: &mut Steps<L>,
    ) -> Reply
        requires may { MayAsk shared.now (holder self.old) call }
        ensures told { Tells (holder self.old) (holder self.new) call result }
        ensures counted { steps.new ≡ steps.old + looks_of (holder self.old) call };

    /// The same, for a caller that counts nothing.
    fn perform(&mut self, shared: &Shared, call: Call) -> Reply
        requires may { MayAsk shared.now (holder self.old) call }
        ensures told { Tells (holder self.old) (holder self.new) call result };
}

/// Makes a call with a counter of its own.
#[inline(always)]
fn serve_uncounted<L: Ledger>(
    pass: &mut Pass,
    shared: &Shared,
    ask: Ask,
    items: &mut Batch,
    blank: Blank,
) -> Answer
    requires name { blank.name ≡ L.name }
    requires parts { (blank.parts ≡ L.parts) × (1 ≤ blank.parts) }
    requires may { MayAsk shared.now pass.old (joined_call ask items.old) }
    requires items { HasAsked ask items.old }
    ensures told { Tells pass.old pass.new (joined_call ask items.old) (joined_reply result items.new) }
    ensures items { HasAnswered result items.new }
{
    let mut steps = Steps::<L>::new(blank);
    pass.serve_counted(shared, ask, items, &mut steps)
}

impl RingCalls for Pass {
    ghost holder = { λ p. p };

    #[inline(always)]
    fn serve_counted<L: Ledger>(
        &mut self,
        shared: &Shared,
        ask: Ask,
        items: &mut Batch,
        steps: &mut Steps<L>,
    ) -> Answer {
        match ask {
            Ask::Reserve(ring, count) => serving::reserve(self, shared, ring, count, steps),
            Ask::Submit(ring) => serving::submit(self, shared, ring, items),
            Ask::Peek(ring, count) => serving::peek(self, shared, ring, count, items, steps),
            Ask::Release(ring, count) => serving::release(self, shared, ring, count),
            Ask::Swap(mark, value) => serving::swap(self, shared, mark, value),
            Ask::Look(mark) => serving::look(self, shared, mark),
        }
    }

    #[inline(always)]
    fn serve(&mut self, shared: &Shared, ask: Ask, items: &mut Batch) -> Answer {
        let blank = Blank::new(1);
        serve_uncounted::<Brand>(self, shared, ask, items, blank)
    }

    #[inline(always)]
    fn perform_counted<L: Ledger>(
        &mut self,
        shared: &Shared,
        call: Call,
        steps: &mut Steps<L>,
    ) -> Reply {
        let mut items = Batch::new();
        let ask = call.split(&mut items);
        let answer = self.serve_counted(shared, ask, &mut items, steps);
        answer.joined(items)
    }

    #[inline(always)]
    fn perform(&mut self, shared: &Shared, call: Call) -> Reply {
        let mut items = Batch::new();
        let ask = call.split(&mut items);
        let answer = self.serve(shared, ask, &mut items);
        answer.joined(items)
    }
}
