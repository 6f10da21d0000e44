//! A pass with the number of its calls.
ghost use Rattle.std.specs.Prelude.{◌≡◌, [], length};
ghost use Rattle.xsk_model.specs.Asks.{joined_call, joined_reply, HasAsked, HasAnswered};
ghost use Rattle.xsk_turns.specs.Statistics.{capped};
ghost use Rattle.xsk_rings.specs.Rounds.{mine_of};
ghost use Rattle.xsk_rings.specs.Serving.{MayAsk, Served};

use std::marker::Model;
use xsk_model::{Answer, Ask};
use xsk_rings::RingCalls;
use xsk_table::{Pass, Shared};
use xsk_umem::Batch;

/// A pass that counts its calls; the number stays at 2^64 - 1. Contracts see the pass.
#[derive(Drop)]
pub(crate) struct Counted {
    pass: Pass,
    calls: u64,
}

impl Model for Counted {
    ghost use Rattle.std.specs.Prelude.{◌≡◌, length};
    ghost use Rattle.xsk_table.specs.Held.{Holder};
    ghost use Rattle.xsk_rings.specs.Rounds.{mine_of};
    ghost use Rattle.xsk_turns.specs.Statistics.{capped};

    ghost Value = { Holder };

    ghost view = { λ c. c.pass };

    ghost invariant = { λ c. c.calls ≡ capped (length (mine_of c.pass)) };
}

impl Counted {
    /// A pass with which no call was made.
    pub(crate) fn new(pass: Pass) -> Counted
        requires { mine_of pass ≡ [] }
        ensures { result ≡ pass }
    {
        Counted { pass, calls: 0 }
    }

    /// How many calls were made with it.
    pub(crate) fn calls(&self) -> u64
        ensures { result ≡ capped (length (mine_of self.now)) }
    {
        self.calls
    }

    /// The pass, and how many calls were made with it.
    pub(crate) fn into_parts(self) -> (Pass, u64)
        ensures pass { result.0 ≡ self }
        ensures calls { result.1 ≡ capped (length (mine_of self)) }
    {
        let Counted { pass, calls } = self;
        (pass, calls)
    }

    /// Makes a call, as the pass does.
    #[inline(always)]
    pub(crate) fn serve(&mut self, shared: &Shared, ask: Ask, items: &mut Batch) -> Answer
        requires may { MayAsk shared.now self.old (joined_call ask items.old) }
        requires items { HasAsked ask items.old }
        ensures served { Served self.old self.new (joined_call ask items.old) (joined_reply result items.new) }
        ensures items { HasAnswered result items.new }
    {
        self.calls = self.calls.saturating_add(1);
        self.pass.serve(shared, ask, items)
    }
}
