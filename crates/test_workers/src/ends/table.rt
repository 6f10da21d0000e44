//! The table: two ports with a queue and a socket each, small rings, and so few frames that rings can be full.
ghost use Rattle.std.specs.Prelude.{◌≡◌, ◌+◌, ◌<◌, ◌≤◌, ℕ, IfSome, None};
ghost use Rattle.xsk_model.specs.Opening.{AreFrames};
ghost use Rattle.xsk_table.specs.Held.{new_pass};
ghost use Rattle.xsk_table.specs.Opening.{new_passes};
ghost use Rattle.xsk_turns.specs.Owned.{IsSteady};
ghost use Rattle.test_workers.specs.Taking.{AreLeft};

use std::alloc::Global;
use xsk_model::Config;
use xsk_socket::{Layout, check_layout};
use xsk_table::{Pass, Passes, Shared};
use xsk_umem::Frames;

fn layout(wakeup: bool) -> Layout
    ensures { result.close ≡ None }
{
    Layout {
        ports: 2,
        queues: 1,
        sockets: 1,
        files: 0,
        files_wanted_per_port: 0,
        chunk: 2048,
        headroom: 0,
        frames: 8,
        rx: 4,
        tx: 2,
        fill: 4,
        comp: 4,
        sg: false,
        wakeup,
        empty: None,
        close: None,
        hands: 1,
    }
}

/// A table with the passes of its callers, if there is memory for it.
pub(crate) fn opened(alloc: Global, wakeup: bool) -> Option<(Shared, Passes)>
    ensures passes { IfSome result (λ made. made.1 ≡ new_passes made.0) }
    ensures steady { IfSome result (λ made. IsSteady made.0.setup.config) }
{
    let layout = layout(wakeup);
    if check_layout(&layout).is_err() {
        return None;
    }
    match fixtures::opened(alloc, &layout) {
        Ok((config, frames)) => opened_over(alloc, config, frames),
        Err(_) => None,
    }
}

/// A table over a configuration, and all frames of its UMEM.
fn opened_over(alloc: Global, config: Config, frames: Frames) -> Option<(Shared, Passes)>
    requires steady { IsSteady config }
    requires frames { AreFrames config.geometry frames.items }
    ensures passes { IfSome result (λ made. made.1 ≡ new_passes made.0) }
    ensures config { IfSome result (λ made. made.0.setup.config ≡ config) }
{
    match Shared::open(alloc, config, frames, 0) {
        Ok(made) => Some(made),
        Err(_) => None,
    }
}

/// Takes the pass of the next caller, if there is one.
pub(crate) fn take(shared: &Shared, passes: &mut Passes, who: u32) -> Option<Pass>
    requires { AreLeft shared.now who passes.old }
    ensures new { IfSome result (λ pass. pass ≡ new_pass shared.now who) }
    ensures left { AreLeft shared.now (who + 1) passes.new }
{
    if who >= shared.config().callers() {
        return None;
    }
    passes.take(who)
}
