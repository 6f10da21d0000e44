//! The steps on marks: a Swap is one swap of the mark's word, and a Look one load.
ghost use Rattle.std.specs.Prelude.{◌≡◌, ◌<◌};
ghost use Rattle.xsk_model.specs.Entry.{own};
ghost use Rattle.xsk_model.specs.Legal.{IsLegal};
ghost use Rattle.xsk_model.specs.declared.call.Call.TheVariants.{Swap, Look};
ghost use Rattle.xsk_model.specs.declared.call.Reply.TheVariants.{Old};
ghost use Rattle.xsk_table.specs.Layout.{mark as word_of_mark, word_at};
ghost use Rattle.xsk_table.specs.View.{idle};
ghost use Rattle.xsk_table.specs.Plays.{IsReady, Extends, Answered, ask_mark};
ghost use Rattle.xsk_table.specs.Held.{Belongs};

use crate::board::{Board, Chair};
use crate::pass::Pass;
use crate::shared::Shared;
use crate::view::{Asking, View};
use atomic_table::Play;
use std::marker::{Brand, PhantomData};
use xsk_model::Mark;
use xsk_umem::Frame;

/// The swap of a mark's word.
pub struct SwapStep<J> {
    marker: PhantomData<J>,
}

impl<J: Asking> Play<Option<Frame>, View> for SwapStep<J> {
    ghost use Rattle.xsk_table.specs.Plays.{swaps};

    ghost then = { swaps J.ask };
}

/// The look at a mark's word.
pub struct LookStep<J> {
    marker: PhantomData<J>,
}

impl<J: Asking> Play<Option<Frame>, View> for LookStep<J> {
    ghost use Rattle.xsk_table.specs.Plays.{looks};

    ghost then = { looks J.ask };
}

fn swap_word<J: Asking>(
    board: &Board,
    seat: &mut Chair,
    who: u32,
    mark: Mark,
    value: u64,
    word: usize,
) -> u64
    requires table { seat.old.table_id ≡ board.now.table }
    requires ask { J.ask ≡ ask_mark board.now.setup who mark value }
    requires word { (word ≡ word_at board.now.setup.config (word_of_mark mark)) × (word < board.now.table.words) }
    requires ready { IsReady (ask_mark board.now.setup who mark value) (Swap mark value) seat.old.me.0 × (seat.old.me.0.flight ≡ idle) }
    ensures same { (seat.new.table_id ≡ seat.old.table_id) × (seat.new.id ≡ seat.old.id) }
    ensures told { Answered (ask_mark board.now.setup who mark value) (Swap mark value) seat.old.me result seat.new.me }
{
    // A full barrier: a Look that finds the number comes behind all that its caller did before the Swap.
    board.swap::<SwapStep<J>>(seat, word, value)
}

fn swap_mark(board: &Board, seat: &mut Chair, who: u32, mark: Mark, value: u64, word: usize) -> u64
    requires table { seat.old.table_id ≡ board.now.table }
    requires word { (word ≡ word_at board.now.setup.config (word_of_mark mark)) × (word < board.now.table.words) }
    requires ready { IsReady (ask_mark board.now.setup who mark value) (Swap mark value) seat.old.me.0 × (seat.old.me.0.flight ≡ idle) }
    ensures same { (seat.new.table_id ≡ seat.old.table_id) × (seat.new.id ≡ seat.old.id) }
    ensures slots { seat.new.me.1 ≡ seat.old.me.1 }
    ensures flight { seat.new.me.0.flight ≡ idle }
    ensures history { Extends board.now.setup who (Swap mark value) (Old result) seat.old.me.0 seat.new.me.0 }
{
    swap_word::<Brand>(board, seat, who, mark, value, word)
}

fn look_word<J: Asking>(board: &Board, seat: &mut Chair, who: u32, mark: Mark, word: usize) -> u64
    requires table { seat.old.table_id ≡ board.now.table }
    requires ask { J.ask ≡ ask_mark board.now.setup who mark 0 }
    requires word { (word ≡ word_at board.now.setup.config (word_of_mark mark)) × (word < board.now.table.words) }
    requires ready { IsReady (ask_mark board.now.setup who mark 0) (Look mark) seat.old.me.0 × (seat.old.me.0.flight ≡ idle) }
    ensures same { (seat.new.table_id ≡ seat.old.table_id) × (seat.new.id ≡ seat.old.id) }
    ensures told { Answered (ask_mark board.now.setup who mark 0) (Look mark) seat.old.me result seat.new.me }
{
    // Pairs with the Swap whose number it finds.
    board.look::<LookStep<J>>(seat, word)
}

fn look_at_mark(board: &Board, seat: &mut Chair, who: u32, mark: Mark, word: usize) -> u64
    requires table { seat.old.table_id ≡ board.now.table }
    requires word { (word ≡ word_at board.now.setup.config (word_of_mark mark)) × (word < board.now.table.words) }
    requires ready { IsReady (ask_mark board.now.setup who mark 0) (Look mark) seat.old.me.0 × (seat.old.me.0.flight ≡ idle) }
    ensures same { (seat.new.table_id ≡ seat.old.table_id) × (seat.new.id ≡ seat.old.id) }
    ensures slots { seat.new.me.1 ≡ seat.old.me.1 }
    ensures flight { seat.new.me.0.flight ≡ idle }
    ensures history { Extends board.now.setup who (Look mark) (Old result) seat.old.me.0 seat.new.me.0 }
{
    look_word::<Brand>(board, seat, who, mark, word)
}

impl Pass {
    /// Sets a mark to `value`. It adds the Swap to the history, and gives the number of its reply: what the mark was.
    pub fn swap_step(&mut self, shared: &Shared, mark: Mark, value: u64) -> u64
        requires belongs { Belongs shared.now self.old }
        requires legal { IsLegal self.old.view.setup.config (own self.old.who self.old.view.seen) self.old.who (Swap mark value) }
        requires rests { self.old.view.flight ≡ idle }
        ensures same { (self.new.table ≡ self.old.table) × (self.new.who ≡ self.old.who) }
        ensures known { self.new.known ≡ self.old.known }
        ensures flight { self.new.view.flight ≡ idle }
        ensures history { Extends self.old.view.setup self.old.who (Swap mark value) (Old result) self.old.view self.new.view }
    {
        let word = shared.marks.word(mark);
        swap_mark(&shared.board, &mut self.seat, self.who, mark, value, word)
    }

    /// Looks at a mark. It adds the Look to the history, and gives the number of its reply: what the mark is.
    pub fn look_step(&mut self, shared: &Shared, mark: Mark) -> u64
        requires belongs { Belongs shared.now self.old }
        requires legal { IsLegal self.old.view.setup.config (own self.old.who self.old.view.seen) self.old.who (Look mark) }
        requires rests { self.old.view.flight ≡ idle }
        ensures same { (self.new.table ≡ self.old.table) × (self.new.who ≡ self.old.who) }
        ensures known { self.new.known ≡ self.old.known }
        ensures flight { self.new.view.flight ≡ idle }
        ensures history { Extends self.old.view.setup self.old.who (Look mark) (Old result) self.old.view self.new.view }
    {
        let word = shared.marks.word(mark);
        look_at_mark(&shared.board, &mut self.seat, self.who, mark, word)
    }
}
