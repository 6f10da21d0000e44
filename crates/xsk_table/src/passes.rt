//! The passes of a table that rest.
ghost use Rattle.std.specs.Prelude.{◌≡◌, ◌<◌, ◌∷◌, length, get_or, slice_set, Some, None};
ghost use Rattle.xsk_table.specs.View.{idle};

use crate::pass::Pass;
use std::marker::Model;

/// The passes of a table by caller, as far as they aren't taken. None has a call in flight.
#[derive(Drop)]
pub struct Passes {
    pub(crate) passes: Vec<Option<Pass>>,
}

impl Model for Passes {
    ghost use Rattle.std.specs.Prelude.{List, Option};
    ghost use Rattle.xsk_table.specs.Held.{Holder};
    ghost use Rattle.xsk_table.specs.Opening.{AtRest};

    ghost Value = { List (Option Holder) };

    ghost view = { λ p. p.passes.items };

    ghost invariant = { λ p. AtRest p.passes.items };
}

impl Passes {
    /// Takes the pass of a caller, and `None` exactly where it isn't there.
    pub fn take(&mut self, caller: u32) -> Option<Pass>
        ensures taken { result ≡ get_or self.old caller None }
        ensures left { self.new ≡ slice_set self.old caller None }
    {
        let caller = caller as usize;
        if caller < self.passes.len() {
            self.passes[caller].take()
        } else {
            None
        }
    }

    /// Puts a pass back to its place, which must be empty. No call of the pass may be in flight.
    pub fn give(&mut self, pass: Pass)
        requires place { (pass.who < length self.old) × (get_or self.old pass.who None ≡ None) }
        requires rests { pass.view.flight ≡ idle }
        ensures { self.new ≡ slice_set self.old pass.who (Some pass) }
    {
        let caller = pass.caller() as usize;
        self.passes[caller] = Some(pass);
    }
}
