//! The steps on words: each is one load or one store, with the arithmetic around it. The letters are those of
//! net/xdp/xsk_queue.h, which `docs/THREADS.md` goes through; here each step is sequentially consistent.
ghost use Rattle.std.specs.Prelude.{List, [], ◌∷◌, length, ◌≡◌, ◌+◌, ◌%◌, ◌^◌, ◌<◌, min};
ghost use Rattle.xsk_umem.specs.declared.batch.Item.{Item};
ghost use Rattle.xsk_model.specs.Config.{size_of};
ghost use Rattle.xsk_model.specs.Entry.{own};
ghost use Rattle.xsk_model.specs.Object.{reserve_reply};
ghost use Rattle.xsk_model.specs.Own.{granted, given_of, released_of};
ghost use Rattle.xsk_model.specs.declared.call.Call.TheVariants.{Reserve, Submit, Peek, Release};
ghost use Rattle.xsk_model.specs.declared.call.Reply.TheVariants.{Submitted, Released};
ghost use Rattle.xsk_table.specs.Layout.{producer, consumer, word_at};
ghost use Rattle.xsk_table.specs.View.{idle, placing};
ghost use Rattle.xsk_table.specs.Rule.{wrapped, opened, lying};
ghost use Rattle.xsk_table.specs.Known.{free_after, out_after};
ghost use Rattle.xsk_table.specs.Plays.{IsReady, Reserved, Extends, Ended, Peeked, items_reply, still, ask_for, filled as filled_of, emptied};

use crate::board::{Board, Chair};
use crate::counting::Steps;
use crate::view::{Asking, PeekStep, RaiseStep, ReleaseStep, ReserveStep};
use crate::words::used;
use std::marker::Brand;
use std::sync::ledger::Ledger;
use xsk_model::Ring;

fn look_room<J: Asking, L: Ledger>(
    board: &Board,
    seat: &mut Chair,
    who: u32,
    ring: Ring,
    n: u32,
    word: usize,
    steps: &mut Steps<L>,
) -> u64
    requires table { seat.old.table_id ≡ board.now.table }
    requires ask { J.ask ≡ ask_for board.now.setup who ring n }
    requires word { (word ≡ word_at board.now.setup.config (consumer ring)) × (word < board.now.table.words) }
    requires ready { IsReady (ask_for board.now.setup who ring n) (Reserve ring n) seat.old.me.0 × (seat.old.me.0.flight ≡ idle) }
    ensures same { (seat.new.table_id ≡ seat.old.table_id) × (seat.new.id ≡ seat.old.id) }
    ensures told { Reserved (ask_for board.now.setup who ring n) seat.old.me result seat.new.me }
    ensures counted { steps.new ≡ steps.old + 1 }
{
    // (A), pairs with (D): what the consumer read is read before its place is written again. In the kernel a control dependency.
    board.look_counted::<ReserveStep<J>, L>(seat, word, steps)
}

/// The look of a Reserve, which tells how many places are free. `filled` counts what was submitted and reserved.
#[allow(clippy::too_many_arguments)]
pub(crate) fn reserve_step<L: Ledger>(
    board: &Board,
    seat: &mut Chair,
    who: u32,
    ring: Ring,
    n: u32,
    filled: u32,
    size: u32,
    word: usize,
    steps: &mut Steps<L>,
) -> u32
    requires table { seat.old.table_id ≡ board.now.table }
    requires size { size ≡ size_of board.now.setup.config ring }
    requires word { (word ≡ word_at board.now.setup.config (consumer ring)) × (word < board.now.table.words) }
    requires filled { filled ≡ wrapped board.now.setup (filled_of (ask_for board.now.setup who ring n) seat.old.me.0) }
    requires ready { IsReady (ask_for board.now.setup who ring n) (Reserve ring n) seat.old.me.0 × (seat.old.me.0.flight ≡ idle) }
    ensures same { (seat.new.table_id ≡ seat.old.table_id) × (seat.new.id ≡ seat.old.id) }
    ensures slots { seat.new.me.1 ≡ seat.old.me.1 }
    ensures flight { seat.new.me.0.flight ≡ idle }
    ensures history { Extends board.now.setup who (Reserve ring n) (reserve_reply n result) seat.old.me.0 seat.new.me.0 }
    ensures left { result ≡ free_after board.now.setup seat.new.me.0.seen ring + granted (Reserve ring n) (reserve_reply n result) }
    ensures counted { steps.new ≡ steps.old + 1 }
{
    let found = look_room::<Brand, L>(board, seat, who, ring, n, word, steps);
    size - used(filled, found as u32)
}

fn write_consumer<J: Asking>(
    board: &Board,
    seat: &mut Chair,
    who: u32,
    ring: Ring,
    n: u32,
    word: usize,
    new: u32,
)
    requires table { seat.old.table_id ≡ board.now.table }
    requires ask { J.ask ≡ ask_for board.now.setup who ring n }
    requires word { (word ≡ word_at board.now.setup.config (consumer ring)) × (word < board.now.table.words) }
    requires new { new ≡ wrapped board.now.setup (released_of ring (own who seat.old.me.0.seen) + n) }
    requires ready { IsReady (ask_for board.now.setup who ring n) (Release ring n) seat.old.me.0 × (seat.old.me.0.flight ≡ idle) }
    ensures same { (seat.new.table_id ≡ seat.old.table_id) × (seat.new.id ≡ seat.old.id) }
    ensures told { Ended (ask_for board.now.setup who ring n) (Release ring n) Released seat.old.me seat.new.me }
{
    // (D), pairs with (A): it stands behind the loads of the entries. In the kernel a store-release.
    board.store::<ReleaseStep<J>>(seat, word, new as u64)
}

/// The raise of the consumer. `near` is the consumer word.
pub(crate) fn raise_consumer(
    board: &Board,
    seat: &mut Chair,
    who: u32,
    ring: Ring,
    n: u32,
    near: u32,
    word: usize,
)
    requires table { seat.old.table_id ≡ board.now.table }
    requires word { (word ≡ word_at board.now.setup.config (consumer ring)) × (word < board.now.table.words) }
    requires near { near ≡ wrapped board.now.setup (released_of ring (own who seat.old.me.0.seen)) }
    requires ready { IsReady (ask_for board.now.setup who ring n) (Release ring n) seat.old.me.0 × (seat.old.me.0.flight ≡ idle) }
    ensures same { (seat.new.table_id ≡ seat.old.table_id) × (seat.new.id ≡ seat.old.id) }
    ensures slots { seat.new.me.1 ≡ seat.old.me.1 }
    ensures flight { seat.new.me.0.flight ≡ idle }
    ensures history { Extends board.now.setup who (Release ring n) Released seat.old.me.0 seat.new.me.0 }
{
    write_consumer::<Brand>(board, seat, who, ring, n, word, near.wrapping_add(n));
}

fn write_producer<J: Asking>(
    board: &Board,
    seat: &mut Chair,
    who: u32,
    ring: Ring,
    word: usize,
    new: u32,
)
    requires table { seat.old.table_id ≡ board.now.table }
    requires ask { J.ask ≡ ask_for board.now.setup who ring 0 }
    requires word { (word ≡ word_at board.now.setup.config (producer ring)) × (word < board.now.table.words) }
    requires flight { seat.old.me.0.flight ≡ placing ring (lying seat.old.me.0.flight) }
    requires new { new ≡ wrapped board.now.setup (opened board.now.setup ring + given_of ring (own who seat.old.me.0.seen) + length (lying seat.old.me.0.flight)) }
    requires ready { IsReady (ask_for board.now.setup who ring 0) (Submit ring (lying seat.old.me.0.flight)) seat.old.me.0 }
    ensures same { (seat.new.table_id ≡ seat.old.table_id) × (seat.new.id ≡ seat.old.id) }
    ensures told { Ended (ask_for board.now.setup who ring 0) (Submit ring (lying seat.old.me.0.flight)) Submitted seat.old.me seat.new.me }
{
    // (B), pairs with (C): it stands behind the stores of the entries. In the kernel a store-release.
    board.store::<RaiseStep<J>>(seat, word, new as u64)
}

/// The raise of the producer. `near` is the producer word, and `placed` the number of items that are placed.
pub(crate) fn raise_producer(
    board: &Board,
    seat: &mut Chair,
    who: u32,
    ring: Ring,
    near: u32,
    placed: u32,
    word: usize,
)
    requires table { seat.old.table_id ≡ board.now.table }
    requires word { (word ≡ word_at board.now.setup.config (producer ring)) × (word < board.now.table.words) }
    requires near { near ≡ wrapped board.now.setup (opened board.now.setup ring + given_of ring (own who seat.old.me.0.seen)) }
    requires placed { placed ≡ length (lying seat.old.me.0.flight) }
    requires flight { seat.old.me.0.flight ≡ placing ring (lying seat.old.me.0.flight) }
    requires ready { IsReady (ask_for board.now.setup who ring 0) (Submit ring (lying seat.old.me.0.flight)) seat.old.me.0 }
    ensures same { (seat.new.table_id ≡ seat.old.table_id) × (seat.new.id ≡ seat.old.id) }
    ensures slots { seat.new.me.1 ≡ seat.old.me.1 }
    ensures flight { seat.new.me.0.flight ≡ idle }
    ensures history { Extends board.now.setup who (Submit ring (lying seat.old.me.0.flight)) Submitted seat.old.me.0 seat.new.me.0 }
{
    write_producer::<Brand>(board, seat, who, ring, word, near.wrapping_add(placed));
}

fn look_items<J: Asking, L: Ledger>(
    board: &Board,
    seat: &mut Chair,
    who: u32,
    ring: Ring,
    n: u32,
    word: usize,
    steps: &mut Steps<L>,
) -> u64
    requires table { seat.old.table_id ≡ board.now.table }
    requires ask { J.ask ≡ ask_for board.now.setup who ring n }
    requires word { (word ≡ word_at board.now.setup.config (producer ring)) × (word < board.now.table.words) }
    requires ready { IsReady (ask_for board.now.setup who ring n) (Peek ring n) seat.old.me.0 × (seat.old.me.0.flight ≡ idle) }
    ensures same { (seat.new.table_id ≡ seat.old.table_id) × (seat.new.id ≡ seat.old.id) }
    ensures told { Peeked (ask_for board.now.setup who ring n) seat.old.me result seat.new.me }
    ensures counted { steps.new ≡ steps.old + 1 }
{
    // (C), pairs with (B): the entries that it finds are whole. In the kernel a load-acquire.
    board.look_counted::<PeekStep<J>, L>(seat, word, steps)
}

/// The look of a Peek, which tells how many items are out. `far` counts what was released and is held.
#[allow(clippy::too_many_arguments)]
pub(crate) fn peek_step<L: Ledger>(
    board: &Board,
    seat: &mut Chair,
    who: u32,
    ring: Ring,
    n: u32,
    far: u32,
    word: usize,
    steps: &mut Steps<L>,
) -> u32
    requires table { seat.old.table_id ≡ board.now.table }
    requires word { (word ≡ word_at board.now.setup.config (producer ring)) × (word < board.now.table.words) }
    requires far { far ≡ wrapped board.now.setup (emptied (ask_for board.now.setup who ring n) seat.old.me.0) }
    requires ready { IsReady (ask_for board.now.setup who ring n) (Peek ring n) seat.old.me.0 × (seat.old.me.0.flight ≡ idle) }
    ensures same { (seat.new.table_id ≡ seat.old.table_id) × (seat.new.id ≡ seat.old.id) }
    ensures slots { seat.new.me.1 ≡ seat.old.me.1 }
    ensures history { (items : List Item) × (length items ≡ min n result) × (seat.new.me.0.flight ≡ still ring items) × Extends board.now.setup who (Peek ring n) (items_reply items) seat.old.me.0 seat.new.me.0 }
    ensures left { result ≡ min n result + out_after board.now.setup seat.new.me.0.seen ring }
    ensures counted { steps.new ≡ steps.old + 1 }
{
    let found = look_items::<Brand, L>(board, seat, who, ring, n, word, steps);
    used(found as u32, far)
}
