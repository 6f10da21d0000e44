//! An application at the start of a turn, with what it keeps.
ghost use Rattle.std.specs.Prelude.{◌≡◌, ◌<◌, ◌≤◌, false, [], ◌∷◌, length, vec_capacity};
ghost use Rattle.xsk_model.specs.Config.{IsRegular};
ghost use Rattle.xsk_model.specs.Expected.{nothing};
ghost use Rattle.xsk_model.specs.Marks.{apps_of};
ghost use Rattle.xsk_turns.specs.AppTurns.{lanes_of, shut_of};
ghost use Rattle.xsk_turns.specs.AppOwned.{IsApp};
ghost use Rattle.xsk_app.specs.Ways.{socket_in};
ghost use Rattle.xsk_app.specs.declared.machine.Wait.TheVariants as wait;

use crate::app::App;
use crate::back::Back;
use crate::kept::{fill_ways, side_pair};
use crate::machine::{Machine, Turn, Wait, Way};
use xsk_model::Config;
use xsk_turns::Manner;
use xsk_umem::Batch;

/// The application that has these items and frames, has seen this of its drivers, and closes this socket, if any. The list of its lanes
/// is empty and has room for them. It takes no memory.
#[allow(clippy::too_many_arguments)]
pub(crate) fn start<'a>(
    config: &'a Config,
    app: u32,
    ways: Vec<Way>,
    pending: Vec<Batch>,
    backs: Vec<Back>,
    seen: [bool; 2],
    manner: Manner,
    shut: Option<u32>,
) -> App<'a>
    requires regular { IsRegular config.now }
    requires app { app < apps_of config.now }
    requires none { ways.items ≡ [] }
    requires room { lanes_of config.now ≤ vec_capacity ways }
    requires lanes { length pending.items ≡ lanes_of config.now }
    requires sides { length backs.items ≡ 2 }
    requires shut { shut ≡ socket_in (shut_of config.now app) }
    ensures one { IsApp config.now app }
    ensures expected { result.expected ≡ nothing }
    ensures config { result.config ≡ config.now }
    ensures app { result.app ≡ app }
    ensures wait { result.wait ≡ wait.Start }
    ensures kept { result.kept ≡ record { pending = pending.items; back = backs.items; seen = seen; gone = false ∷ false ∷ []; tx_done = false; manner = manner; number = 0; awaited = manner.after; cut = false ∷ false ∷ []; begun = false; acked = false } }
{
    // The geometry is lawful, and so is the configuration.
    let _geometry = config.geometry();
    let _queues = config.queues();
    let pairs = [side_pair(config, app, 0), side_pair(config, app, 1)];
    let machine = Machine {
        config,
        app,
        batch: config.batch(),
        ways: fill_ways(ways, config, app),
        pairs,
        pending,
        backs,
        seen,
        gone: [false; 2],
        tx_done: false,
        manner,
        number: 0,
        classes: config.classes(),
        shut,
        awaited: manner.after,
        cut: [false; 2],
        begun: false,
        acked: false,
        turn: Turn {
            seen: false,
            gone: false,
            lanes_empty: true,
            sides_empty: true,
            acked: false,
        },
        wait: Wait::Start,
    };
    App { machine }
}
