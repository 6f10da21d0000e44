//! One thread that sets a mark again and again, or looks at it.
ghost use Rattle.std.specs.Prelude.{◌≡◌};
ghost use Rattle.xsk_table.specs.Held.{new_pass};
ghost use Rattle.bench_rings.specs.Moving.{moving};

use xsk_model::{Answer, Ask, Mark};
use xsk_rings::RingCalls;
use xsk_table::{Pass, Shared};
use xsk_umem::Batch;

/// Sets a mark of driver 0 so often, to 0 and 1 in turn.
pub(crate) fn swaps(shared: &Shared, pass: Pass, count: u32) -> bool
    requires config { shared.now.setup.config ≡ moving }
    requires new { pass ≡ new_pass shared.now 0 }
{
    let mut pass = pass;
    let mut items = Batch::new();
    'rounds: for round in 0..count {
        let ask = Ask::Swap(Mark::RxDone(0), u64::from(round % 2));
        let Answer::Old(_) = pass.serve(shared, ask, &mut items) else {
            return false;
        };
    }
    true
}

/// Looks at a mark so often.
pub(crate) fn looks(shared: &Shared, pass: Pass, count: u32) -> bool
    requires config { shared.now.setup.config ≡ moving }
    requires new { pass ≡ new_pass shared.now 0 }
{
    let mut pass = pass;
    let mut items = Batch::new();
    'rounds: for _ in 0..count {
        let ask = Ask::Look(Mark::RxDone(0));
        let Answer::Old(_) = pass.serve(shared, ask, &mut items) else {
            return false;
        };
    }
    true
}
