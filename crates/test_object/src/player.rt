//! A hand and its calls.
ghost use Rattle.std.specs.Prelude.{◌≡◌, IfSome};
ghost use Rattle.xsk_lock.specs.Rule.{mine};
ghost use Rattle.xsk_lock.specs.Held.{Belongs, IsOff};

use std::marker::Model;
use xsk_lock::{Hand, Lock, Named};

/// A counter with a tag, which is its name.
#[derive(Drop)]
pub struct Counter {
    pub tag: u32,
    pub count: u64,
}

impl Named for Counter {
    type Name = u32;

    ghost name = { λ c. c.tag };
}

/// A hand, with the counter while it holds that.
#[derive(Drop)]
pub struct Player {
    pub hand: Hand<Counter>,
    pub kept: Option<Counter>,
}

impl Model for Player {
    ghost use Rattle.std.specs.Prelude.{◌≡◌, ℕ, MatchOption};
    ghost use Rattle.xsk_lock.specs.Held.{Holder, IsOff, IsOn};

    ghost Value = { Holder ℕ };

    ghost view = { λ p. p.hand };

    ghost invariant = { λ p. MatchOption p.kept (IsOff p.hand) (λ c. IsOn p.hand × (c.tag ≡ 7)) };
}

impl Player {
    /// Makes the call of this name.
    pub fn play(&mut self, lock: &Lock<Counter>, call: &str) -> Option<u64>
        requires { Belongs lock.now self.old × (lock.now.name ≡ 7) }
        ensures belongs { Belongs lock.now self.new }
        ensures mine { mine self.new.view ≡ mine self.old.view }
    {
        match call {
            "try" => self.try_lock(lock),
            "unlock" => self.unlock(lock),
            _ => None,
        }
    }

    /// Tries the lock, if the hand doesn't hold the counter. It gives the count where it took it.
    fn try_lock(&mut self, lock: &Lock<Counter>) -> Option<u64>
        requires { Belongs lock.now self.old × (lock.now.name ≡ 7) }
        ensures belongs { Belongs lock.now self.new }
        ensures mine { mine self.new.view ≡ mine self.old.view }
    {
        if self.kept.is_some() {
            return None;
        }
        let counter = lock.try_lock(&mut self.hand)?;
        let count = counter.count;
        self.kept = Some(counter);
        Some(count)
    }

    /// Counts, and gives the counter back, if the hand holds it. It gives the count.
    fn unlock(&mut self, lock: &Lock<Counter>) -> Option<u64>
        requires { Belongs lock.now self.old × (lock.now.name ≡ 7) }
        ensures belongs { Belongs lock.now self.new }
        ensures mine { mine self.new.view ≡ mine self.old.view }
    {
        let mut counter = self.kept.take()?;
        counter.count = counter.count.saturating_add(1);
        let count = counter.count;
        lock.unlock(&mut self.hand, counter);
        Some(count)
    }

    /// The hand, if it doesn't hold the counter.
    pub fn rested(self) -> Option<Hand<Counter>>
        ensures { IfSome result (λ hand. (hand ≡ self) × IsOff hand) }
    {
        let Player { hand, kept } = self;
        if kept.is_some() { None } else { Some(hand) }
    }
}
