//! The end of a table: all passes are put together, and the frames that stand in rings come back.
ghost use Rattle.std.specs.Prelude.{◌≡◌, ◌+◌, ◌<◌, ◌≤◌, ℕ, [], ◌∷◌, length, get_or, slice_set, flat_map, Some, None};
ghost use Rattle.std.specs.Mem.Slots.{slots_items, slots_len, IsFull};
ghost use Rattle.xsk_model.specs.Config.{callers_of};
ghost use Rattle.xsk_model.specs.Numbers.{times};
ghost use Rattle.xsk_model.specs.History.{state_after};
ghost use Rattle.xsk_table.specs.View.{idle};
ghost use Rattle.xsk_table.specs.Held.{Holder};
ghost use Rattle.xsk_table.specs.Opening.{list_of};
ghost use Rattle.xsk_table.specs.Closing.{AreThere, EndsIn, AreFramesOut, Joined, Rests};

use crate::board::{Board, Chair};
use crate::note::{Note, take_in, take_note};
use crate::pass::Pass;
use crate::passes::Passes;
use crate::shared::{Shared, put_back};
use atomic_table::Closed;
use std::alloc::Global;
use xsk_umem::{Frame, Frames};

impl Pass {
    /// The seat of the caller, which holds no slot.
    fn into_seat(self) -> Chair
        ensures same { (result.table_id ≡ self.table) × (result.me ≡ (self.view, [])) }
        ensures alone { (self.view.callers ≡ self.who ∷ []) × (self.view.others ≡ []) }
    {
        let Pass { seat, .. } = self;
        seat
    }
}

/// Takes the seat of a caller, whose pass must be there.
fn take_seat(passes: &mut Passes, who: u32) -> Chair
    requires { (h : Holder) × (get_or passes.old who None ≡ Some h) }
    ensures left { passes.new ≡ slice_set passes.old who None }
    ensures seat { (h : Holder) → get_or passes.old who None ≡ Some h → (result.table_id ≡ h.table) × (result.me ≡ (h.view, [])) }
    ensures rests { (h : Holder) → get_or passes.old who None ≡ Some h → (h.view.callers ≡ who ∷ []) × (h.view.others ≡ []) × (h.view.flight ≡ idle) }
{
    match passes.passes[who as usize].take() {
        Some(pass) => pass.into_seat(),
        None => unreachable!(),
    }
}

/// One seat of all callers, which has seen all that was done.
fn join(board: &Board, passes: Passes, callers: u32) -> Chair
    requires words { 1 ≤ board.now.table.words }
    requires callers { (callers ≡ callers_of board.now.setup.config) × (1 ≤ callers) }
    requires there { AreThere board.now passes }
    ensures table { result.table_id ≡ board.now.table }
    ensures joined { Joined passes callers result.me.0 }
{
    let mut passes = passes;
    let mut seat = take_seat(&mut passes, 0);
    for who in 1..callers {
        let other = take_seat(&mut passes, who);
        take_in(board, &mut seat, other);
    }
    seat
}

/// The table without its seats.
fn finish(board: Board, seat: Chair) -> Closed<Option<Frame>, Global>
    requires table { seat.table_id ≡ board.table }
    requires all { (w : ℕ) → w < callers_of board.setup.config → 0 < times w seat.me.0.callers }
    requires rests { seat.me.0.flight ≡ idle }
    ensures full { IsFull result.slots }
    ensures rests { Rests board.setup seat.me.0.seen (slots_items result.slots) }
{
    board.close_with(seat)
}

/// Moves the frames that lie in slots to the queue, by number.
fn bring_home(closed: Closed<Option<Frame>, Global>, home: &mut Frames)
    requires full { IsFull closed.slots }
    requires home { (home.old.items ≡ []) × (slots_len closed.slots ≤ home.old.limit) }
    ensures { home.new ≡ record home.old { items = flat_map list_of (slots_items closed.slots) } }
{
    let mut closed = closed;
    let count = closed.slot_count();
    for number in 0..count {
        put_back(closed.take(number), home);
    }
    closed.free();
}

impl Shared {
    /// Ends a table, whose passes must all be there and rest. It gives the frames that stand in rings, by number, in a
    /// queue that has room for all frames, and a note of the whole history. Frames that callers have are not among them.
    pub fn close(self, passes: Passes) -> (Frames, Note)
        requires there { AreThere self passes }
        ensures table { result.1.table ≡ self.table }
        ensures history { EndsIn self passes result.1.seen }
        ensures frames { AreFramesOut self.setup.config (state_after self.setup.config self.setup.frames result.1.seen) result.0.items }
        ensures room { self.setup.config.geometry.frames ≤ result.0.limit }
    {
        let Shared {
            board,
            config,
            mut home,
            ..
        } = self;
        let mut seat = join(&board, passes, config.callers());
        let note = take_note(&board, &mut seat);
        bring_home(finish(board, seat), &mut home);
        (home, note)
    }
}
