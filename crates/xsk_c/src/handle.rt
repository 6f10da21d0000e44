//! A handle that C keeps, and that owns a state while it is live. `take` and `put` alone change which state that is
//! (`specs/Held`); C keeps one copy of a handle.
ghost use Rattle.std.specs.Prelude.{◌≡◌, true, false, MatchOption};
ghost use Rattle.xsk_c.specs.declared.state.State.{State};

use crate::parts::Parts;
use crate::state::State;
use std::alloc::Global;
use std::marker::Model;

/// Where a state lies, if the handle is live. C makes it all zero, and never writes it.
#[repr(C)]
pub struct Handle {
    at: *mut (),
    live: bool,
    pub ghost state: { State },
}

impl Model for Handle {
    ghost use Rattle.xsk_c.specs.Held.{held};

    ghost also_owns = { λ h. held h.at h.live h.state };
}

impl Handle {
    /// Takes the state out of a live handle, which isn't live then. There is none where it wasn't, and it stays as it was.
    pub(crate) fn take(&mut self, alloc: Global) -> Option<Box<State>>
        ensures { MatchOption result ((self.new ≡ self.old) × (self.old.live ≡ false)) (λ b. (b.value ≡ self.old.state) × (self.old.live ≡ true) × (self.new.live ≡ false)) }
    {
        match self.take_parts(alloc) {
            Some(parts) => Some(parts.into_box()),
            None => None,
        }
    }

    /// Puts a state into a handle, which is live then. It must not have been live.
    pub(crate) fn put(&mut self, state: Box<State>)
        ensures { (self.new.live ≡ true) × (self.new.state ≡ state.value) }
    {
        self.put_parts(Parts::of(state));
    }

    fn take_parts(&mut self, alloc: Global) -> Option<Parts<State, Global>>
        ensures { MatchOption result ((self.new ≡ self.old) × (self.old.live ≡ false)) (λ p. (p.value ≡ self.old.state) × (self.old.live ≡ true) × (self.new.live ≡ false)) }
    {
        if !self.live {
            return None;
        }
        self.live = false;
        let ptr = self.at as *mut State;
        Some(Parts { ptr, alloc })
    }

    fn put_parts(&mut self, parts: Parts<State, Global>)
        ensures { (self.new.live ≡ true) × (self.new.state ≡ parts.value) }
    {
        let Parts { ptr, alloc: _ } = parts;
        self.at = ptr as *mut ();
        self.live = true;
    }
}
