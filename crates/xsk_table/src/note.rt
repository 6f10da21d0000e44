//! Notes: what a caller has seen, to be handed to others. A note has no caller and holds no slot (the invariant), so it
//! may be sent, and may be dropped.
ghost use Rattle.std.specs.Prelude.{◌≡◌, ◌<◌, ◌≤◌, [], ℕ};
ghost use Rattle.xsk_model.specs.Numbers.{times};
ghost use Rattle.xsk_model.specs.declared.call.Ring.TheVariants.{Fill};
ghost use Rattle.xsk_table.specs.View.{idle, note_of, told_of};
ghost use Rattle.xsk_table.specs.Plays.{ask_for};
ghost use Rattle.xsk_table.specs.Held.{Belongs};
ghost use Rattle.xsk_table.specs.Meeting.{Met, Meets, note_by};

use crate::board::{Board, Chair};
use crate::pass::Pass;
use crate::shared::Shared;
use crate::view::{Asking, View};
use atomic_table::{Join, Play, Split};
use std::marker::{Brand, Model, PhantomData};
use xsk_umem::Frame;

/// What a caller had seen when it was taken. It may be sent to another thread.
#[derive(Drop)]
pub struct Note {
    seat: Chair,
}

impl Model for Note {
    ghost use Rattle.std.specs.Prelude.{◌≡◌, []};
    ghost use Rattle.xsk_table.specs.Meeting.{Noted};

    ghost Value = { Noted };

    ghost view = { λ n. record { table = n.seat.table_id; seen = n.seat.me.0.seen } };

    ghost invariant = { λ n. (n.seat.me.0.callers ≡ []) × (n.seat.me.0.others ≡ []) × (n.seat.me.1 ≡ []) };
}

/// How a seat of no caller is split off.
pub struct NoteSplit;

impl Split<View> for NoteSplit {
    ghost use Rattle.xsk_table.specs.View.{note_of};

    ghost left = { λ v. v };

    ghost right = { note_of };
}

/// How a seat is put into another.
pub struct NoteJoin;

impl Join<View> for NoteJoin {
    ghost use Rattle.xsk_table.specs.View.{told_of, spent};

    ghost both = { told_of };

    ghost spent = { spent };
}

/// The look after it, which sees all that was done so far.
pub struct MeetStep<J> {
    marker: PhantomData<J>,
}

impl<J: Asking> Play<Option<Frame>, View> for MeetStep<J> {
    ghost use Rattle.xsk_table.specs.Meeting.{meets};

    ghost then = { meets J.ask };
}

fn look<J: Asking>(board: &Board, seat: &mut Chair)
    requires table { (seat.old.table_id ≡ board.now.table) × (1 ≤ board.now.table.words) }
    requires ask { J.ask ≡ ask_for board.now.setup 0 (Fill 0) 0 }
    requires rests { (w : ℕ) → 0 < times w seat.old.me.0.others → seat.old.me.0.flight ≡ idle }
    ensures same { (seat.new.table_id ≡ seat.old.table_id) × (seat.new.id ≡ seat.old.id) }
    ensures told { Met board.now.setup seat.old.me seat.new.me }
{
    board.look_round::<MeetStep<J>>(seat);
}

/// Puts a seat into another, which then has seen all that was done so far.
pub(crate) fn take_in(board: &Board, seat: &mut Chair, other: Chair)
    requires table { (seat.old.table_id ≡ board.now.table) × (other.table_id ≡ board.now.table) × (1 ≤ board.now.table.words) }
    requires alone { (seat.old.me.0.others ≡ []) × (other.me.0.others ≡ []) × (other.me.1 ≡ []) }
    requires rests { (w : ℕ) → 0 < times w other.me.0.callers → (seat.old.me.0.flight ≡ idle) × (other.me.0.flight ≡ idle) }
    ensures same { (seat.new.table_id ≡ seat.old.table_id) × (seat.new.id ≡ seat.old.id) }
    ensures told { Met board.now.setup (told_of seat.old.me.0 other.me.0, seat.old.me.1) seat.new.me }
{
    board.join_seat::<NoteJoin>(seat, other);
    look::<Brand>(board, seat);
}

/// A note of what a seat has seen.
pub(crate) fn take_note(board: &Board, seat: &mut Chair) -> Note
    requires table { (seat.old.table_id ≡ board.now.table) × (1 ≤ board.now.table.words) }
    ensures same { (seat.new.table_id ≡ seat.old.table_id) × (seat.new.id ≡ seat.old.id) × (seat.new.me ≡ seat.old.me) }
    ensures note { result ≡ record { table = seat.old.table_id; seen = seat.old.me.0.seen } }
{
    Note {
        seat: board.split_seat::<NoteSplit>(seat),
    }
}

impl Pass {
    /// A note of what the caller has seen. It adds nothing to the history.
    pub fn note(&mut self, shared: &Shared) -> Note
        requires belongs { Belongs shared.now self.old }
        ensures same { self.new ≡ self.old }
        ensures note { result ≡ note_by self.old }
    {
        take_note(&shared.board, &mut self.seat)
    }

    /// Learns what a note of the same table shows, and all else that was done so far. It adds nothing to the history.
    pub fn meet(&mut self, shared: &Shared, note: Note)
        requires belongs { Belongs shared.now self.old }
        requires note { note.table ≡ shared.now.table }
        ensures same { (self.new.table ≡ self.old.table) × (self.new.who ≡ self.old.who) }
        ensures known { self.new.known ≡ self.old.known }
        ensures view { self.new.view ≡ record self.old.view { seen = self.new.view.seen; told = [] } }
        ensures history { Meets self.old.view.setup self.old.who self.old.view.seen note.seen self.new.view.seen }
    {
        let Note { seat } = note;
        take_in(&shared.board, &mut self.seat, seat);
    }
}

/// A note may be sent to another thread.
#[allow(dead_code)]
fn is_sent(note: &Note) {
    needs_send(note);
}

fn needs_send<T: Send>(_sent: &T) {}
