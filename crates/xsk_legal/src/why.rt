//! Why a call isn't legal after the caller's own earlier calls and replies, and what a caller has.
ghost use Rattle.std.specs.Prelude.{◌≡◌, ◌<◌, ◌≤◌, ◌↔◌, ℕ, List, IsTrue, MatchOption, length};
ghost use Rattle.xsk_umem.specs.Limits.{most_items};
ghost use Rattle.xsk_model.specs.Asks.{joined_call};
ghost use Rattle.xsk_model.specs.Config.{HasRing};
ghost use Rattle.xsk_model.specs.Entry.{Told};
ghost use Rattle.xsk_model.specs.Legal.{IsLegal};
ghost use Rattle.xsk_model.specs.Numbers.{times};
ghost use Rattle.xsk_model.specs.Own.{room_of, held_of, had_of};
ghost use Rattle.xsk_model.specs.declared.call.Call.TheVariants.{Reserve, Submit, Peek, Release, Swap, Look};
ghost use Rattle.xsk_legal.specs.ItemNotes.{IsFor};
ghost use Rattle.xsk_legal.specs.Standing.{StandsFor, places_at};
ghost use Rattle.xsk_model.specs.Rings.{place, producer};
ghost use Rattle.xsk_legal.specs.Why.{Fails};

use crate::Standing;
use crate::roles::{consumes, may_be, owns, produces};
use crate::standing::{are_items, is_few};
use thiserror::Error;
use xsk_model::placement::{has_mark, has_ring, ring_place};
use xsk_model::{Ask, Config, Mark, Ring};
use xsk_umem::Batch;

/// Why a call isn't legal: the first of its conditions that fails, in this order.
#[derive(Clone, Copy, Debug, PartialEq, Eq, Error)]
pub enum Illegal {
    /// No caller has this number.
    #[error("there is no such caller")]
    NoCaller,
    /// The configuration has no such ring or mark.
    #[error("there is no such ring or mark")]
    Unknown,
    /// The ring's call or the mark isn't the caller's own.
    #[error("it isn't the caller's own")]
    NotItsOwn,
    /// The mark is the caller's own, but it may not set it to this number now, after its earlier calls and replies.
    #[error("the mark may not be set to this number now")]
    NotNow,
    /// Callers move 1 to 32 at once, and a mark has its own numbers.
    #[error("the number isn't from 1 to 32, or none that the mark can have")]
    Count,
    /// A Submit fills more places than the caller has reserved, or a Release gives back more than it has peeked.
    #[error("fewer places are reserved, or fewer items were peeked")]
    Places,
    /// An item may not stand in the ring: it has a frame exactly where its address has one, and then that one; and on FILL and
    /// COMPLETION an address alone.
    #[error("an item may not stand in the ring")]
    Items,
    /// The caller doesn't have the frames that it submits.
    #[error("the caller doesn't have these frames")]
    Frames,
    /// What stands on RX isn't whole packets in frames from FILL, or what stands on COMPLETION not the next packet of TX.
    #[error("the items aren't the packets that may stand there")]
    Packets,
    /// The caller has ended the ring, by closing its socket or by acknowledging that.
    #[error("the ring was ended")]
    Ended,
}

impl Standing {
    /// Why the call, whose items are in the batch, isn't legal after the calls and replies that were noted, and `None`
    /// exactly where it is. It is exact where each of them was legal.
    pub fn why_not(&self, config: &Config, ask: Ask, items: &Batch) -> Option<Illegal>
        requires { IsFor config.now self.now }
        ensures { (mine : List Told) → StandsFor config.now self.now mine
            → MatchOption result (IsLegal config.now mine self.now.who (joined_call ask items.now)) (λ why. Fails why config.now mine self.now.who (joined_call ask items.now)) }
    {
        match ask {
            Ask::Reserve(ring, n) => self.why_not_reserve(config, ring, n),
            Ask::Submit(ring) => self.why_not_submit(config, ring, items),
            Ask::Peek(ring, n) => self.why_not_peek(config, ring, n),
            Ask::Release(ring, n) => self.why_not_release(config, ring, n),
            Ask::Swap(mark, value) => self.why_not_swap(config, mark, value),
            Ask::Look(mark) => self.why_not_look(config, mark),
        }
    }

    /// The places of a ring that the caller has reserved and not yet filled. The ring must exist.
    pub fn reserved(&self, config: &Config, ring: Ring) -> u32
        requires kind { IsFor config.now self.now }
        requires ring { HasRing config.now ring }
        ensures { (mine : List Told) → StandsFor config.now self.now mine → result ≡ room_of ring mine }
    {
        self.places_at(ring_place(config, ring)).room
    }

    /// The items of a ring that the caller has peeked and not yet released. The ring must exist.
    pub fn held(&self, config: &Config, ring: Ring) -> u32
        requires kind { IsFor config.now self.now }
        requires ring { HasRing config.now ring }
        ensures { (mine : List Told) → StandsFor config.now self.now mine → result ≡ held_of ring mine }
    {
        self.places_at(ring_place(config, ring)).held
    }

    /// Whether the caller has a frame. A frame that doesn't exist it hasn't.
    pub fn has_frame(&self, config: &Config, frame: u32) -> bool
        requires { IsFor config.now self.now }
        ensures { (mine : List Told) → StandsFor config.now self.now mine → frame < config.now.geometry.frames → (IsTrue result ↔ (times frame (had_of mine) ≡ 1)) }
    {
        // For the proof: it has a geometry (IsGeometry).
        let _frames = config.geometry();
        self.has(frame)
    }

    fn why_not_reserve(&self, config: &Config, ring: Ring, n: u32) -> Option<Illegal>
        requires { IsFor config.now self.now }
        ensures { (mine : List Told) → StandsFor config.now self.now mine
            → MatchOption result (IsLegal config.now mine self.now.who (Reserve ring n)) (λ why. Fails why config.now mine self.now.who (Reserve ring n)) }
    {
        if !has_ring(config, ring) {
            return Some(Illegal::Unknown);
        }
        if !produces(config, self.who(), ring) {
            return Some(Illegal::NotItsOwn);
        }
        if !is_few(n) {
            return Some(Illegal::Count);
        }
        if !self.is_open(config, ring) {
            return Some(Illegal::Ended);
        }
        None
    }

    fn why_not_submit(&self, config: &Config, ring: Ring, items: &Batch) -> Option<Illegal>
        requires { IsFor config.now self.now }
        ensures { (mine : List Told) → StandsFor config.now self.now mine
            → MatchOption result (IsLegal config.now mine self.now.who (Submit ring items.now)) (λ why. Fails why config.now mine self.now.who (Submit ring items.now)) }
    {
        if !has_ring(config, ring) {
            return Some(Illegal::Unknown);
        }
        if !produces(config, self.who(), ring) {
            return Some(Illegal::NotItsOwn);
        }
        if !is_few(items.len()) {
            return Some(Illegal::Count);
        }
        if items.len() > self.places_at(ring_place(config, ring)).room {
            return Some(Illegal::Places);
        }
        self.why_not_items(config, ring, items)
    }

    /// The same of a Submit whose items are few enough, on a ring that is the caller's.
    fn why_not_items(&self, config: &Config, ring: Ring, items: &Batch) -> Option<Illegal>
        requires kind { IsFor config.now self.now }
        requires ring { HasRing config.now ring }
        requires role { self.now.who ≡ producer config.now ring }
        requires some { 1 ≤ length items.now }
        requires few { length items.now ≤ most_items }
        requires room { length items.now ≤ (places_at self.now (place config.now ring)).room }
        ensures { (mine : List Told) → StandsFor config.now self.now mine
            → MatchOption result (IsLegal config.now mine self.now.who (Submit ring items.now)) (λ why. Fails why config.now mine self.now.who (Submit ring items.now)) }
    {
        if !are_items(config.geometry(), ring, items) {
            return Some(Illegal::Items);
        }
        if !self.has_frames(items) {
            return Some(Illegal::Frames);
        }
        if !self.may_place(config, ring, items) {
            return Some(Illegal::Packets);
        }
        if !self.is_open(config, ring) {
            return Some(Illegal::Ended);
        }
        None
    }

    fn why_not_peek(&self, config: &Config, ring: Ring, n: u32) -> Option<Illegal>
        ensures { (mine : List Told) → StandsFor config.now self.now mine
            → MatchOption result (IsLegal config.now mine self.now.who (Peek ring n)) (λ why. Fails why config.now mine self.now.who (Peek ring n)) }
    {
        if !has_ring(config, ring) {
            return Some(Illegal::Unknown);
        }
        if !consumes(config, self.who(), ring) {
            return Some(Illegal::NotItsOwn);
        }
        if !is_few(n) {
            return Some(Illegal::Count);
        }
        None
    }

    fn why_not_release(&self, config: &Config, ring: Ring, n: u32) -> Option<Illegal>
        requires { IsFor config.now self.now }
        ensures { (mine : List Told) → StandsFor config.now self.now mine
            → MatchOption result (IsLegal config.now mine self.now.who (Release ring n)) (λ why. Fails why config.now mine self.now.who (Release ring n)) }
    {
        if !has_ring(config, ring) {
            return Some(Illegal::Unknown);
        }
        if !consumes(config, self.who(), ring) {
            return Some(Illegal::NotItsOwn);
        }
        if !is_few(n) {
            return Some(Illegal::Count);
        }
        if n > self.places_at(ring_place(config, ring)).held {
            return Some(Illegal::Places);
        }
        None
    }

    fn why_not_swap(&self, config: &Config, mark: Mark, value: u64) -> Option<Illegal>
        requires { IsFor config.now self.now }
        ensures { (mine : List Told) → StandsFor config.now self.now mine
            → MatchOption result (IsLegal config.now mine self.now.who (Swap mark value)) (λ why. Fails why config.now mine self.now.who (Swap mark value)) }
    {
        // For the proof: it is a configuration (IsConfig).
        let _ports = config.ports();
        if !has_mark(config, mark) {
            return Some(Illegal::Unknown);
        }
        if !owns(config, self.who(), mark) {
            return Some(Illegal::NotItsOwn);
        }
        if !self.is_time(config, mark, value) {
            return Some(Illegal::NotNow);
        }
        if !may_be(config, mark, value) {
            return Some(Illegal::Count);
        }
        None
    }

    fn why_not_look(&self, config: &Config, mark: Mark) -> Option<Illegal>
        ensures { (mine : List Told) → StandsFor config.now self.now mine
            → MatchOption result (IsLegal config.now mine self.now.who (Look mark)) (λ why. Fails why config.now mine self.now.who (Look mark)) }
    {
        if !has_mark(config, mark) {
            return Some(Illegal::Unknown);
        }
        None
    }
}
