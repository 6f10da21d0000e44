//! Calls that the last look at the other side's count covers. Each is one look at the caller's own count.
ghost use Rattle.std.specs.Prelude.{List, [], length, nat_le, ◌≡◌, ◌-◌, ◌<◌, ◌≤◌};
ghost use Rattle.xsk_umem.specs.declared.batch.Item.{Item};
ghost use Rattle.xsk_model.specs.Asks.{joined_call};
ghost use Rattle.xsk_model.specs.Entry.{own};
ghost use Rattle.xsk_model.specs.Legal.{IsLegal};
ghost use Rattle.xsk_model.specs.declared.call.Call.TheVariants.{Reserve, Peek};
ghost use Rattle.xsk_model.specs.declared.call.Reply.TheVariants.{Granted};
ghost use Rattle.xsk_table.specs.Layout.{producer, consumer, word_at};
ghost use Rattle.xsk_table.specs.View.{idle};
ghost use Rattle.xsk_table.specs.Plays.{IsReady, Ended, Extends, HasRoom, HasItems, PeekedAll, ask_for, still, items_reply};
ghost use Rattle.xsk_table.specs.Held.{Belongs, IsAt, known_on, with_known, is_covered};

use crate::board::{Board, Chair};
use crate::layout::{CONSUMER, PRODUCER};
use crate::pass::Pass;
use crate::shared::Shared;
use crate::view::{Asking, View};
use atomic_table::Play;
use std::marker::{Brand, PhantomData};
use xsk_model::{Ask, Ring};
use xsk_umem::Frame;

/// The look of a Reserve that is covered.
pub struct GrantStep<J> {
    marker: PhantomData<J>,
}

impl<J: Asking> Play<Option<Frame>, View> for GrantStep<J> {
    ghost use Rattle.xsk_table.specs.Plays.{grants};

    ghost then = { grants J.ask };
}

/// The look of a Peek that is covered.
pub struct GiveStep<J> {
    marker: PhantomData<J>,
}

impl<J: Asking> Play<Option<Frame>, View> for GiveStep<J> {
    ghost use Rattle.xsk_table.specs.Plays.{gives};

    ghost then = { gives J.ask };
}

fn look_at_producer<J: Asking>(
    board: &Board,
    seat: &mut Chair,
    who: u32,
    ring: Ring,
    n: u32,
    word: usize,
)
    requires table { seat.old.table_id ≡ board.now.table }
    requires ask { J.ask ≡ ask_for board.now.setup who ring n }
    requires word { (word ≡ word_at board.now.setup.config (producer ring)) × (word < board.now.table.words) }
    requires room { HasRoom (ask_for board.now.setup who ring n) seat.old.me.0 }
    requires ready { IsReady (ask_for board.now.setup who ring n) (Reserve ring n) seat.old.me.0 × (seat.old.me.0.flight ≡ idle) }
    ensures same { (seat.new.table_id ≡ seat.old.table_id) × (seat.new.id ≡ seat.old.id) }
    ensures told { Ended (ask_for board.now.setup who ring n) (Reserve ring n) Granted seat.old.me seat.new.me }
{
    // No barrier: the count is the caller's own, and the (A) that found this room has paired with its (D).
    board.look::<GrantStep<J>>(seat, word);
}

/// The look at the producer word, its caller's own, at which a Reserve that is covered is granted.
fn grant(board: &Board, seat: &mut Chair, who: u32, ring: Ring, n: u32, word: usize)
    requires table { seat.old.table_id ≡ board.now.table }
    requires word { (word ≡ word_at board.now.setup.config (producer ring)) × (word < board.now.table.words) }
    requires room { HasRoom (ask_for board.now.setup who ring n) seat.old.me.0 }
    requires ready { IsReady (ask_for board.now.setup who ring n) (Reserve ring n) seat.old.me.0 × (seat.old.me.0.flight ≡ idle) }
    ensures same { (seat.new.table_id ≡ seat.old.table_id) × (seat.new.id ≡ seat.old.id) }
    ensures slots { seat.new.me.1 ≡ seat.old.me.1 }
    ensures flight { seat.new.me.0.flight ≡ idle }
    ensures history { Extends board.now.setup who (Reserve ring n) Granted seat.old.me.0 seat.new.me.0 }
{
    look_at_producer::<Brand>(board, seat, who, ring, n, word);
}

fn look_at_consumer<J: Asking>(
    board: &Board,
    seat: &mut Chair,
    who: u32,
    ring: Ring,
    n: u32,
    word: usize,
)
    requires table { seat.old.table_id ≡ board.now.table }
    requires ask { J.ask ≡ ask_for board.now.setup who ring n }
    requires word { (word ≡ word_at board.now.setup.config (consumer ring)) × (word < board.now.table.words) }
    requires items { HasItems (ask_for board.now.setup who ring n) seat.old.me.0 }
    requires ready { IsReady (ask_for board.now.setup who ring n) (Peek ring n) seat.old.me.0 × (seat.old.me.0.flight ≡ idle) }
    ensures same { (seat.new.table_id ≡ seat.old.table_id) × (seat.new.id ≡ seat.old.id) }
    ensures told { PeekedAll (ask_for board.now.setup who ring n) seat.old.me seat.new.me }
{
    // No barrier: the count is the caller's own, and the (C) that found these items has paired with its (B).
    board.look::<GiveStep<J>>(seat, word);
}

/// The look at the consumer word, its caller's own, at which a Peek that is covered gets all that it asks for.
fn give(board: &Board, seat: &mut Chair, who: u32, ring: Ring, n: u32, word: usize)
    requires table { seat.old.table_id ≡ board.now.table }
    requires word { (word ≡ word_at board.now.setup.config (consumer ring)) × (word < board.now.table.words) }
    requires items { HasItems (ask_for board.now.setup who ring n) seat.old.me.0 }
    requires ready { IsReady (ask_for board.now.setup who ring n) (Peek ring n) seat.old.me.0 × (seat.old.me.0.flight ≡ idle) }
    ensures same { (seat.new.table_id ≡ seat.old.table_id) × (seat.new.id ≡ seat.old.id) }
    ensures slots { seat.new.me.1 ≡ seat.old.me.1 }
    ensures history { (items : List Item) × (length items ≡ n) × (seat.new.me.0.flight ≡ still ring items) × Extends board.now.setup who (Peek ring n) (items_reply items) seat.old.me.0 seat.new.me.0 }
{
    look_at_consumer::<Brand>(board, seat, who, ring, n, word);
}

impl Pass {
    /// Whether so much is known of the other side of a ring.
    #[inline(always)]
    pub fn knows(&self, shared: &Shared, ring: Ring, at: usize, n: u32) -> bool
        requires belongs { Belongs shared.now self.now }
        requires at { IsAt shared.now.setup.config ring at }
        ensures { result ≡ nat_le n (known_on self.now ring) }
    {
        n <= self.ends[at].known
    }

    /// Whether a call is a Reserve or a Peek of no more than what the last look at the other side's count found, less what
    /// was had of it since. It makes no step.
    pub fn covers(&self, shared: &Shared, ask: Ask) -> bool
        requires belongs { Belongs shared.now self.now }
        requires legal { (items : List Item) × IsLegal self.now.view.setup.config (own self.now.who self.now.view.seen) self.now.who (joined_call ask items) }
        ensures { result ≡ is_covered self.now (joined_call ask []) }
    {
        match ask {
            Ask::Reserve(ring, n) | Ask::Peek(ring, n) => {
                self.knows(shared, ring, shared.ring_place(ring), n)
            }
            Ask::Submit(_) | Ask::Release(..) | Ask::Swap(..) | Ask::Look(_) => false,
        }
    }

    /// The step of a Reserve that is covered: it is granted at a look at the caller's own count. It adds the Reserve to the
    /// history, and lowers what is known by its places.
    pub fn reserve_covered(&mut self, shared: &Shared, ring: Ring, at: usize, n: u32)
        requires belongs { Belongs shared.now self.old }
        requires at { IsAt shared.now.setup.config ring at }
        requires legal { IsLegal self.old.view.setup.config (own self.old.who self.old.view.seen) self.old.who (Reserve ring n) }
        requires rests { self.old.view.flight ≡ idle }
        requires covered { n ≤ known_on self.old ring }
        ensures same { (self.new.table ≡ self.old.table) × (self.new.who ≡ self.old.who) }
        ensures flight { self.new.view.flight ≡ idle }
        ensures history { Extends self.old.view.setup self.old.who (Reserve ring n) Granted self.old.view self.new.view }
        ensures known { self.new.known ≡ with_known self.old ring (known_on self.old ring - n) }
    {
        let end = &mut self.ends[at];
        grant(
            &shared.board,
            &mut self.seat,
            self.who,
            ring,
            n,
            end.base + PRODUCER,
        );
        end.known -= n;
        end.far = end.far.wrapping_add(n);
    }

    /// The step of a Peek that is covered: it gets all that it asks for, at a look at the caller's own count. It adds the
    /// Peek to the history, and lowers what is known by its items, which `fetch` then gives.
    pub fn peek_covered(&mut self, shared: &Shared, ring: Ring, at: usize, n: u32)
        requires belongs { Belongs shared.now self.old }
        requires at { IsAt shared.now.setup.config ring at }
        requires legal { IsLegal self.old.view.setup.config (own self.old.who self.old.view.seen) self.old.who (Peek ring n) }
        requires rests { self.old.view.flight ≡ idle }
        requires covered { n ≤ known_on self.old ring }
        ensures same { (self.new.table ≡ self.old.table) × (self.new.who ≡ self.old.who) }
        ensures history { (items : List Item) × (length items ≡ n) × (self.new.view.flight ≡ still ring items) × Extends self.old.view.setup self.old.who (Peek ring n) (items_reply items) self.old.view self.new.view }
        ensures known { self.new.known ≡ with_known self.old ring (known_on self.old ring - n) }
    {
        let end = &mut self.ends[at];
        give(
            &shared.board,
            &mut self.seat,
            self.who,
            ring,
            n,
            end.base + CONSUMER,
        );
        end.known -= n;
        end.far = end.far.wrapping_add(n);
        self.flying = n;
    }
}
