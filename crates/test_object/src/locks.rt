//! A lock on a counter with two hands, 0 and 1.
//!
//! `HAND try`, and `HAND unlock`, which first counts on, tell the count, or `none` where the call can't be made or the lock is
//! taken. `close` gives hand 0 the number of hand 1 and closes the lock.
use crate::case::Case;
use crate::line::{Fault, Line};
use crate::player::{Counter, Player};
use crate::told::Told;
use std::alloc::Global;
use std::marker::Model;
use xsk_lock::Lock;

/// A lock on a counter, and its hands.
#[derive(Drop)]
struct Game {
    lock: Lock<Counter>,
    first: Player,
    second: Player,
}

impl Model for Game {
    ghost use Rattle.std.specs.Prelude.{◌≡◌, ◌∷◌, [], ℕ};
    ghost use Rattle.xsk_lock.specs.Rule.{mine};
    ghost use Rattle.xsk_lock.specs.Held.{Belongs, Face};

    ghost Value = { Face ℕ };

    ghost view = { λ g. g.lock };

    ghost invariant = { λ g. (g.lock.name ≡ 7) × (g.lock.hands ≡ 2) × Belongs g.lock g.first × Belongs g.lock g.second × (mine g.first.view ≡ 0 ∷ []) × (mine g.second.view ≡ 1 ∷ []) };
}

impl Game {
    fn new(alloc: Global) -> Option<Game> {
        let counter = Counter { tag: 7, count: 0 };
        let Ok((lock, hands)) = Lock::new(alloc, counter, 2) else {
            return None;
        };
        let mut hands = hands;
        let second = Player {
            hand: hands.pop()?,
            kept: None,
        };
        let first = Player {
            hand: hands.pop()?,
            kept: None,
        };
        Some(Game {
            lock,
            first,
            second,
        })
    }

    /// Makes a hand's call.
    fn play(&mut self, hand: &str, call: &str) -> Option<u64> {
        match hand {
            "0" => self.first.play(&self.lock, call),
            "1" => self.second.play(&self.lock, call),
            _ => None,
        }
    }

    /// Joins the hands and closes the lock, if neither holds the counter. It gives the count.
    fn close(self) -> Option<u64> {
        let mut first = self.first.rested()?;
        let second = self.second.rested()?;
        self.lock.join(&mut first, second);
        Some(self.lock.close(first).count)
    }
}

#[derive(Drop)]
pub struct Locks {
    game: Option<Game>,
}

impl Locks {
    pub fn new(alloc: Global) -> Locks {
        Locks {
            game: Game::new(alloc),
        }
    }

    fn play(&mut self, hand: &str, call: &str) -> Option<u64> {
        match &mut self.game {
            Some(game) => game.play(hand, call),
            None => None,
        }
    }

    fn close(&mut self) -> Option<u64> {
        self.game.take()?.close()
    }
}

impl Case for Locks {
    fn answer(&mut self, word: &str, line: &mut Line<'_>, told: &mut Told) -> Result<(), Fault> {
        let count = if word == "close" {
            self.close()
        } else {
            self.play(word, line.word()?)
        };
        match count {
            Some(count) => told.long(count),
            None => told.say("none"),
        }
        Ok(())
    }
}
