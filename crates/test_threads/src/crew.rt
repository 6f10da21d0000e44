//! A table of three callers with their passes: those of two drivers and of an application.
ghost use Rattle.std.specs.Prelude.{◌≡◌, ◌≤◌, [], ◌∷◌, get_or, slice_set, Some, None, IfSome};
ghost use Rattle.xsk_model.specs.Config.{callers_of};
ghost use Rattle.xsk_rings.specs.Rounds.{Rests};
ghost use Rattle.xsk_table.specs.Held.{new_pass};
ghost use Rattle.xsk_table.specs.Opening.{new_passes};

use crate::setting::{layout, set_up};
use std::alloc::Global;
use xsk_rings::CheckedPass;
use xsk_table::{Passes, Shared};

/// The passes of the receiving driver, of the sending one, and of the application.
#[derive(Drop)]
pub(crate) struct Crew {
    pub(crate) receiver: CheckedPass,
    pub(crate) sender: CheckedPass,
    pub(crate) app: CheckedPass,
}

/// A table whose rings have so many entries and whose counts start at a number, with the passes of its three callers, which are
/// taken from their places.
pub(crate) fn open(alloc: Global, entries: u32, first: u32) -> Option<(Shared, Passes, Crew)>
    requires { entries ≤ 2048 }
    ensures left { IfSome result (λ all. (callers_of all.0.setup.config ≡ 3) × (all.1 ≡ None ∷ None ∷ None ∷ [])) }
    ensures rest { IfSome result (λ all. Rests all.0 all.2.receiver × Rests all.0 all.2.sender × Rests all.0 all.2.app) }
    ensures callers { IfSome result (λ all. (all.2.receiver.who ≡ 0) × (all.2.sender.who ≡ 1) × (all.2.app.who ≡ 2)) }
{
    let (shared, passes) = open_table(alloc, entries, first)?;
    let mut passes = passes;
    match take_three(alloc, &shared, &mut passes) {
        Some(crew) => Some((shared, passes, crew)),
        None => None,
    }
}

/// A table of three callers, with the passes of all.
fn open_table(alloc: Global, entries: u32, first: u32) -> Option<(Shared, Passes)>
    requires { entries ≤ 2048 }
    ensures callers { IfSome result (λ made. callers_of made.0.setup.config ≡ 3) }
    ensures passes { IfSome result (λ made. made.1 ≡ new_passes made.0) }
{
    let (config, frames) = set_up(alloc, &layout(1, entries))?;
    if config.callers() != 3 {
        return None;
    }
    match Shared::open(alloc, config, frames, first) {
        Ok(made) => Some(made),
        Err(_) => None,
    }
}

/// Takes the pass of a caller, and checks it.
fn take_at(alloc: Global, shared: &Shared, passes: &mut Passes, who: u32) -> Option<CheckedPass>
    requires { get_or passes.old who None ≡ Some (new_pass shared.now who) }
    ensures left { passes.new ≡ slice_set passes.old who None }
    ensures taken { IfSome result (λ pass. Rests shared.now pass × (pass.who ≡ who)) }
{
    let pass = passes.take(who)?;
    match CheckedPass::new(alloc, shared, pass) {
        Ok(pass) => Some(pass),
        Err(_) => None,
    }
}

/// Takes the passes of all callers, of whom there are three.
fn take_three(alloc: Global, shared: &Shared, passes: &mut Passes) -> Option<Crew>
    requires callers { callers_of shared.now.setup.config ≡ 3 }
    requires passes { passes.old ≡ new_passes shared.now }
    ensures left { IfSome result (λ _. passes.new ≡ None ∷ None ∷ None ∷ []) }
    ensures rest { IfSome result (λ crew. Rests shared.now crew.receiver × Rests shared.now crew.sender × Rests shared.now crew.app) }
    ensures callers { IfSome result (λ crew. (crew.receiver.who ≡ 0) × (crew.sender.who ≡ 1) × (crew.app.who ≡ 2)) }
{
    let receiver = take_at(alloc, shared, passes, 0)?;
    let sender = take_at(alloc, shared, passes, 1)?;
    let app = take_at(alloc, shared, passes, 2)?;
    Some(Crew {
        receiver,
        sender,
        app,
    })
}
