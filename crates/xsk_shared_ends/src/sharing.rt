//! Turns on the ends, as one hand of all lanes.
ghost use Rattle.std.specs.Prelude.{◌≡◌, true, None, IfSome};
ghost use Rattle.xsk_table.specs.Held.{Belongs};
ghost use Rattle.xsk_rings.specs.Rounds.{mine_of};
ghost use Rattle.xsk_turns.specs.AppTurns.{both};
ghost use Rattle.xsk_shared_ends.specs.Shown.{AreSame};
ghost use Rattle.xsk_shared_ends.specs.Last.{AreDrained};
ghost use Rattle.xsk_shared_ends.specs.declared.last.Turned.TheVariants.{Ended};
ghost use Rattle.xsk_shared_ends.specs.declared.visiting.Step.TheVariants.{Idle, Moved};

use crate::ends::Ends;
use crate::last::Turned;
use crate::visiting::Step;
use xsk_table::Shared;

/// What a turn found on the lanes.
#[derive(Drop)]
struct Lanes {
    /// Whether each was found empty.
    empty: bool,
    /// Whether items went on.
    moved: bool,
}

/// Makes a turn. It gives none where both drivers had told before the lanes were visited, and each of these was found empty: then
/// it visits no side.
pub(crate) fn share(ends: &mut Ends<'_>, shared: &Shared) -> Option<Turned>
    requires belongs { Belongs shared.now ends.old.pass }
    ensures same { AreSame ends.old ends.new }
    ensures goes_on { IfSome result (λ turned. turned ≡ Ended → ⊥) }
    ensures drained { result ≡ None → AreDrained ends.new.config ends.new.app (mine_of ends.new.pass) }
{
    let told = ends.has_told();
    let lanes = visit_lanes(ends, shared);
    if told && lanes.empty {
        return None;
    }
    let given = visit_sides(ends, shared);
    Some(came_of(lanes.moved || given))
}

/// Visits all lanes.
fn visit_lanes(ends: &mut Ends<'_>, shared: &Shared) -> Lanes
    requires belongs { Belongs shared.now ends.old.pass }
    ensures same { AreSame ends.old ends.new }
    ensures drained { result.empty ≡ true → both ends.old.kept.seen ≡ true → AreDrained ends.new.config ends.new.app (mine_of ends.new.pass) }
{
    ends.keeps();
    let mut empty = true;
    let mut moved = false;
    for lane in 0..ends.lanes() {
        let step = ends.lane(shared, lane);
        let idle = is_idle(step);
        let onward = has_moved(step);
        empty = empty && idle;
        moved = moved || onward;
    }
    Lanes { empty, moved }
}

/// Visits both sides, and looks at the drivers' marks. Says whether frames went back.
fn visit_sides(ends: &mut Ends<'_>, shared: &Shared) -> bool
    requires belongs { Belongs shared.now ends.old.pass }
    ensures same { AreSame ends.old ends.new }
{
    let first = has_moved(ends.recycle(shared, 0));
    let second = has_moved(ends.recycle(shared, 1));
    ends.inputs_done(shared);
    first || second
}

fn is_idle(step: Step) -> bool
    ensures { result ≡ true → step ≡ Idle }
{
    matches!(step, Step::Idle)
}

fn has_moved(step: Step) -> bool
    ensures { result ≡ true → step ≡ Moved }
{
    matches!(step, Step::Moved)
}

fn came_of(moved: bool) -> Turned
    ensures goes_on { (result ≡ Ended) → ⊥ }
{
    if moved { Turned::Moved } else { Turned::Waited }
}
