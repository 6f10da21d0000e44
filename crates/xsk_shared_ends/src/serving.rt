//! A step's calls, each made by the pass where the step has come to it.
ghost use Rattle.std.specs.Prelude.{◌≡◌, ℕ, [], MatchOption};
ghost use Rattle.xsk_model.specs.Asks.{joined_call, joined_reply, HasAsked, HasAnswered};
ghost use Rattle.xsk_model.specs.Entry.{with_told};
ghost use Rattle.xsk_model.specs.Expected.{IsReplyTo};
ghost use Rattle.xsk_model.specs.declared.call.Call.TheVariants.{Reserve, Look};
ghost use Rattle.xsk_model.specs.declared.call.Reply.{Reply as AReply};
ghost use Rattle.xsk_model.specs.declared.call.Reply.TheVariants.{Granted, Full};
ghost use Rattle.xsk_table.specs.Held.{Belongs};
ghost use Rattle.xsk_rings.specs.Rounds.{mine_of};
ghost use Rattle.xsk_turns.specs.AppTurns.{AppKept};
ghost use Rattle.xsk_turns.specs.Script.{Script, ask as asks, on_old};
ghost use Rattle.xsk_shared_ends.specs.Standing.{Origin, At, Asks, IsSamePass, Wakes, Looks, HasLooked};
ghost use Rattle.xsk_shared_ends.specs.Steps.{came_by};
ghost use Rattle.xsk_shared_ends.specs.declared.visiting.Step.{Step as AStep};
ghost use Rattle.xsk_shared_ends.specs.declared.visiting.Step.TheVariants as step;

use crate::counting::Counted;
use xsk_model::{Answer, Ask, Config, Mark, Ring};
use xsk_table::Shared;
use xsk_umem::Batch;

/// Makes the call at which the step stands, and goes on with its reply.
pub(crate) fn serve(pass: &mut Counted, shared: &Shared, ask: Ask, items: &mut Batch) -> Answer
    requires belongs { Belongs shared.now pass.old }
    requires asked { HasAsked ask items.old }
    requires at { Asks pass.old (joined_call ask items.old) }
    ensures same { IsSamePass pass.old pass.new }
    ensures answered { HasAnswered result items.new }
    ensures kind { IsReplyTo (joined_call ask items.old) (joined_reply result items.new) }
    ensures told { mine_of pass.new ≡ with_told (mine_of pass.old) (joined_call ask items.old) (joined_reply result items.new) }
    ensures goes_on { (o : Origin) (k : AppKept) (rest : AReply → Script AppKept) (came : AStep) → At o pass.old (asks k (joined_call ask items.old) rest) came
        → At o pass.new (rest (joined_reply result items.new)) (came_by came (joined_reply result items.new)) }
{
    pass.serve(shared, ask, items)
}

/// Asks for so many places of a ring. It tells how many are free, exactly where these are fewer.
pub(crate) fn reserve(
    pass: &mut Counted,
    shared: &Shared,
    ring: Ring,
    count: u32,
    items: &mut Batch,
) -> Option<u32>
    requires belongs { Belongs shared.now pass.old }
    requires empty { items.old ≡ [] }
    requires at { Asks pass.old (Reserve ring count) }
    ensures same { IsSamePass pass.old pass.new }
    ensures empty { items.new ≡ [] }
    ensures goes_on { (o : Origin) (k : AppKept) (rest : AReply → Script AppKept) (came : AStep) → At o pass.old (asks k (Reserve ring count) rest) came
        → MatchOption result (At o pass.new (rest Granted) came) (λ free. At o pass.new (rest (Full free)) (step.Full free)) }
{
    match serve(pass, shared, Ask::Reserve(ring, count), items) {
        Answer::Granted => None,
        Answer::Full(free) => Some(free),
        _ => unreachable!(),
    }
}

/// Looks at a mark.
fn look_at(pass: &mut Counted, shared: &Shared, mark: Mark, items: &mut Batch) -> u64
    requires belongs { Belongs shared.now pass.old }
    requires empty { items.old ≡ [] }
    requires at { Asks pass.old (Look mark) }
    ensures same { IsSamePass pass.old pass.new }
    ensures empty { items.new ≡ [] }
    ensures goes_on { (o : Origin) (k : AppKept) (later : ℕ → Script AppKept) (came : AStep) → At o pass.old (asks k (Look mark) (on_old later)) came → At o pass.new (later result) came }
{
    match serve(pass, shared, Ask::Look(mark), items) {
        Answer::Old(number) => number,
        _ => unreachable!(),
    }
}

/// Looks at a ring's flag, where the need-wakeup flags are used, and wakes the pair's driver where it is set.
pub(crate) fn wake(
    config: &Config,
    pass: &mut Counted,
    shared: &Shared,
    need: Mark,
    pair: u32,
    items: &mut Batch,
)
    requires belongs { Belongs shared.now pass.old }
    requires empty { items.old ≡ [] }
    requires at { (o : Origin) × (k : AppKept) × (later : Script AppKept) × (came : AStep) × Wakes config.now o need pair k later came pass.old }
    ensures same { IsSamePass pass.old pass.new }
    ensures empty { items.new ≡ [] }
    ensures goes_on { (o : Origin) (k : AppKept) (later : Script AppKept) (came : AStep) → Wakes config.now o need pair k later came pass.old → At o pass.new later came }
{
    if !config.wakeup() {
        return;
    }
    if look_at(pass, shared, need, items) == 1 {
        serve(pass, shared, Ask::Swap(Mark::Kick(pair), 1), items);
    }
}

/// Whether a side's mark is 1, or was seen so before: then it isn't looked at.
pub(crate) fn look(
    pass: &mut Counted,
    shared: &Shared,
    mark: Mark,
    seen: bool,
    items: &mut Batch,
) -> bool
    requires belongs { Belongs shared.now pass.old }
    requires empty { items.old ≡ [] }
    requires at { (o : Origin) × (k : AppKept) × (done : Script AppKept) × (later : ℕ → Script AppKept) × Looks o mark seen k done later pass.old }
    ensures same { IsSamePass pass.old pass.new }
    ensures empty { items.new ≡ [] }
    ensures goes_on { (o : Origin) (k : AppKept) (done : Script AppKept) (later : ℕ → Script AppKept) → Looks o mark seen k done later pass.old
        → HasLooked o seen result done later pass.new }
{
    if seen {
        return true;
    }
    look_at(pass, shared, mark, items) == 1
}
