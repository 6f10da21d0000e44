//! The four ring calls and the two on marks, each by the steps of the table. A call takes effect at one of its steps,
//! and its reply is the object's at that point (`specs/Serving`): all its other steps move entries that are the caller's
//! own.
ghost use Rattle.std.specs.Prelude.{◌≡◌, ◌+◌, List, [], length, true};
ghost use Rattle.xsk_umem.specs.declared.batch.Item.{Item as Thing};
ghost use Rattle.xsk_model.specs.Asks.{joined_reply, HasAnswered};
ghost use Rattle.xsk_model.specs.declared.call.Call.TheVariants.{Reserve, Submit, Peek, Release, Swap, Look};
ghost use Rattle.xsk_table.specs.Plays.{Extends, still, items_reply};
ghost use Rattle.xsk_table.specs.Held.{IsAt, is_covered};
ghost use Rattle.xsk_rings.specs.Serving.{MayAsk, Tells, known_after, looks_of};

use std::sync::ledger::Ledger;
use xsk_model::{Answer, Mark, Ring};
use xsk_table::{Pass, Shared, Steps};
use xsk_umem::Batch;

/// Reserves so many places of a ring, by a look at the consumer's count, or, where the last one covers it, at its own.
pub(crate) fn reserve<L: Ledger>(
    pass: &mut Pass,
    shared: &Shared,
    ring: Ring,
    count: u32,
    steps: &mut Steps<L>,
) -> Answer
    requires may { MayAsk shared.now pass.old (Reserve ring count) }
    ensures told { Tells pass.old pass.new (Reserve ring count) (joined_reply result []) }
    ensures answered { HasAnswered result [] }
    ensures counted { steps.new ≡ steps.old + looks_of pass.old (Reserve ring count) }
{
    let at = shared.ring_place(ring);
    if pass.knows(shared, ring, at, count) {
        pass.reserve_covered(shared, ring, at, count);
        return Answer::Granted;
    }
    pass.reserve_step(shared, ring, at, count, steps)
}

/// Puts all items of the batch into reserved places of a ring, and raises the producer over them.
#[inline(always)]
pub(crate) fn submit(pass: &mut Pass, shared: &Shared, ring: Ring, items: &mut Batch) -> Answer
    requires may { MayAsk shared.now pass.old (Submit ring items.old) }
    ensures told { Tells pass.old pass.new (Submit ring items.old) (joined_reply result items.new) }
    ensures answered { HasAnswered result items.new }
{
    let at = shared.ring_place(ring);
    'items: while !items.is_empty() {
        pass.place(shared, ring, at, items);
    }
    pass.raise_producer(shared, ring, at);
    Answer::Submitted
}

/// The look of a Peek, at the producer's count or, where the last one covers it, at its own. It tells how many items there
/// are.
fn look_for_items<L: Ledger>(
    pass: &mut Pass,
    shared: &Shared,
    ring: Ring,
    at: usize,
    count: u32,
    steps: &mut Steps<L>,
) -> u32
    requires may { MayAsk shared.now pass.old (Peek ring count) }
    requires at { IsAt shared.now.setup.config ring at }
    ensures same { (pass.new.table ≡ pass.old.table) × (pass.new.who ≡ pass.old.who) }
    ensures history { (items : List Thing) × (length items ≡ result) × (pass.new.view.flight ≡ still ring items) × Extends pass.old.view.setup pass.old.who (Peek ring count) (items_reply items) pass.old.view pass.new.view }
    ensures covered { is_covered pass.old (Peek ring count) ≡ true → result ≡ count }
    ensures known { pass.new.known ≡ known_after pass.old pass.new.view (Peek ring count) }
    ensures counted { steps.new ≡ steps.old + looks_of pass.old (Peek ring count) }
{
    if pass.knows(shared, ring, at, count) {
        pass.peek_covered(shared, ring, at, count);
        return count;
    }
    pass.peek_step(shared, ring, at, count, steps)
}

/// Takes at most so many items from a ring into an empty batch, by one look.
#[inline(always)]
pub(crate) fn peek<L: Ledger>(
    pass: &mut Pass,
    shared: &Shared,
    ring: Ring,
    count: u32,
    items: &mut Batch,
    steps: &mut Steps<L>,
) -> Answer
    requires may { MayAsk shared.now pass.old (Peek ring count) }
    requires empty { items.old ≡ [] }
    ensures told { Tells pass.old pass.new (Peek ring count) (joined_reply result items.new) }
    ensures answered { HasAnswered result items.new }
    ensures counted { steps.new ≡ steps.old + looks_of pass.old (Peek ring count) }
{
    let at = shared.ring_place(ring);
    let found = look_for_items(pass, shared, ring, at, count, steps);
    if found == 0 {
        return Answer::Empty;
    }
    'items: while items.len() < found {
        items.push(pass.fetch(shared, ring, at));
    }
    Answer::Items
}

/// Gives the places of so many held items of a ring back, by the raise of the consumer.
pub(crate) fn release(pass: &mut Pass, shared: &Shared, ring: Ring, count: u32) -> Answer
    requires may { MayAsk shared.now pass.old (Release ring count) }
    ensures told { Tells pass.old pass.new (Release ring count) (joined_reply result []) }
    ensures answered { HasAnswered result [] }
{
    let at = shared.ring_place(ring);
    pass.raise_consumer(shared, ring, at, count);
    Answer::Released
}

/// Sets a mark, by one swap of its word.
pub(crate) fn swap(pass: &mut Pass, shared: &Shared, mark: Mark, value: u64) -> Answer
    requires may { MayAsk shared.now pass.old (Swap mark value) }
    ensures told { Tells pass.old pass.new (Swap mark value) (joined_reply result []) }
    ensures answered { HasAnswered result [] }
{
    Answer::Old(pass.swap_step(shared, mark, value))
}

/// Looks at a mark, by one load of its word.
pub(crate) fn look(pass: &mut Pass, shared: &Shared, mark: Mark) -> Answer
    requires may { MayAsk shared.now pass.old (Look mark) }
    ensures told { Tells pass.old pass.new (Look mark) (joined_reply result []) }
    ensures answered { HasAnswered result [] }
{
    Answer::Old(pass.look_step(shared, mark))
}
