//! Visits to a lane and to a side: the calls of the application's turn for it. They are those of the script's piece for
//! it, and no others (`specs/Standing`).
ghost use Rattle.std.specs.Prelude.{◌≡◌, ℕ, [], length};
ghost use Rattle.xsk_model.specs.Config.{batch_of};
ghost use Rattle.xsk_model.specs.Entry.{with_told};
ghost use Rattle.xsk_model.specs.declared.call.Call.TheVariants.{Peek};
ghost use Rattle.xsk_model.specs.declared.call.Reply.TheVariants.{Empty};
ghost use Rattle.xsk_model.specs.declared.call.Ring.TheVariants.{Rx};
ghost use Rattle.xsk_table.specs.Held.{Belongs};
ghost use Rattle.xsk_rings.specs.Rounds.{mine_of};
ghost use Rattle.xsk_turns.specs.AppTurns.{AppKept, with_pending, with_back};
ghost use Rattle.xsk_shared_ends.specs.declared.visiting.Step.TheVariants.{Idle};
ghost use Rattle.xsk_shared_ends.specs.Standing.{Origin, IsSamePass, Over, VisitsLane, PassesOn, VisitsSide, GivesBack};

use crate::counting::Counted;
use crate::serving::{reserve, serve, wake};
use xsk_app::{Back, Way};
use xsk_model::{Answer, Ask, Config, Mark, Ring};
use xsk_table::Shared;
use xsk_umem::Batch;

/// What came of a step.
#[derive(Clone, Copy, Debug, PartialEq, Eq)]
pub enum Step {
    /// The ring had nothing to take.
    Idle,
    /// The next ring has only so many free places: fewer than were asked for. What was taken stays.
    Full(u32),
    /// All that was taken went on.
    Moved,
}

/// Visits a lane with these items pending: where there is none it takes what its RX ring has, and then they go on.
pub(crate) fn visit_lane(
    config: &Config,
    way: Way,
    pass: &mut Counted,
    shared: &Shared,
    pending: &mut Batch,
) -> Step
    requires belongs { Belongs shared.now pass.old }
    requires at { (o : Origin) × (lane : ℕ) × (k : AppKept) × VisitsLane config.now way o lane k pending.old pass.old }
    ensures same { IsSamePass pass.old pass.new }
    ensures over { (o : Origin) (lane : ℕ) (k : AppKept) → VisitsLane config.now way o lane k pending.old pass.old → Over o pass.new (with_pending k lane pending.new) result }
    ensures idle { result ≡ Idle → (pending.old ≡ []) × (pending.new ≡ []) × (mine_of pass.new ≡ with_told (mine_of pass.old) (Peek (Rx way.rx) (batch_of config.now)) Empty) }
{
    let mut items = Batch::new();
    if !pending.is_empty() {
        return pass_on(config, way, pass, shared, pending, &mut items);
    }
    let ask = Ask::Peek(Ring::Rx(way.rx), config.batch());
    match serve(pass, shared, ask, &mut items) {
        Answer::Items => {
            let count = items.len();
            pending.append(&mut items);
            let ask = Ask::Release(Ring::Rx(way.rx), count);
            serve(pass, shared, ask, &mut items);
            pass_on(config, way, pass, shared, pending, &mut items)
        }
        Answer::Empty => Step::Idle,
        _ => unreachable!(),
    }
}

/// Puts a lane's items on its TX ring, where that has room for all.
fn pass_on(
    config: &Config,
    way: Way,
    pass: &mut Counted,
    shared: &Shared,
    pending: &mut Batch,
    items: &mut Batch,
) -> Step
    requires belongs { Belongs shared.now pass.old }
    requires empty { items.old ≡ [] }
    requires at { (o : Origin) × (lane : ℕ) × (k : AppKept) × PassesOn config.now way o lane k pending.old pass.old }
    ensures same { IsSamePass pass.old pass.new }
    ensures over { (o : Origin) (lane : ℕ) (k : AppKept) → PassesOn config.now way o lane k pending.old pass.old → Over o pass.new (with_pending k lane pending.new) result }
    ensures busy { result ≡ Idle → ⊥ }
{
    if let Some(free) = reserve(pass, shared, Ring::Tx(way.tx), pending.len(), items) {
        return Step::Full(free);
    }
    items.append(pending);
    serve(pass, shared, Ask::Submit(Ring::Tx(way.tx)), items);
    wake(config, pass, shared, Mark::NeedTx(way.tx), way.pair, items);
    Step::Moved
}

/// Visits a side with these frames to give back: where there is none it takes what the COMPLETION ring of its pair has, and then
/// they go back.
pub(crate) fn visit_side(
    config: &Config,
    pair: u32,
    pass: &mut Counted,
    shared: &Shared,
    back: &mut Back,
) -> Step
    requires belongs { Belongs shared.now pass.old }
    requires at { (o : Origin) × (side : ℕ) × (k : AppKept) × VisitsSide config.now pair o side k back.old pass.old }
    ensures same { IsSamePass pass.old pass.new }
    ensures over { (o : Origin) (side : ℕ) (k : AppKept) → VisitsSide config.now pair o side k back.old pass.old → Over o pass.new (with_back k side back.new) result }
{
    let mut items = Batch::new();
    if !back.is_empty() {
        return give_back(config, pass, shared, back, &mut items);
    }
    let ask = Ask::Peek(Ring::Comp(pair), config.batch());
    match serve(pass, shared, ask, &mut items) {
        Answer::Items => {
            let count = items.len();
            back.keep(&mut items);
            let ask = Ask::Release(Ring::Comp(pair), count);
            serve(pass, shared, ask, &mut items);
            give_back(config, pass, shared, back, &mut items)
        }
        Answer::Empty => Step::Idle,
        _ => unreachable!(),
    }
}

/// Gives frames back to the FILL rings of their homes, group by group, as far as these have room.
fn give_back(
    config: &Config,
    pass: &mut Counted,
    shared: &Shared,
    back: &mut Back,
    items: &mut Batch,
) -> Step
    requires belongs { Belongs shared.now pass.old }
    requires empty { items.old ≡ [] }
    requires at { (o : Origin) × (side : ℕ) × (k : AppKept) × GivesBack config.now o side k back.old pass.old }
    ensures same { IsSamePass pass.old pass.new }
    ensures over { (o : Origin) (side : ℕ) (k : AppKept) → GivesBack config.now o side k back.old pass.old → Over o pass.new (with_back k side back.new) result }
{
    'groups: while let Some((home, count)) = back.first_group(config.pool(), config.batch()) {
        if let Some(free) = reserve(pass, shared, Ring::Fill(home), count, items) {
            return Step::Full(free);
        }
        back.give(config.geometry(), count, items);
        serve(pass, shared, Ask::Submit(Ring::Fill(home)), items);
        wake(config, pass, shared, Mark::NeedFill(home), home, items);
    }
    Step::Moved
}
