//! The workers of a run: drivers and applications as machines of one type, so that all callers stand in one list.
ghost use Rattle.std.specs.Prelude.{◌≡◌, ℕ, ◌<◌, ◌≤◌, IfOk, IfSome, IfNone, length};
ghost use Rattle.xsk_model.specs.Config.{IsRegular, callers_of};
ghost use Rattle.xsk_turns.specs.Workers.{Setting};
ghost use Rattle.xsk_machine.specs.Workers.{IsFresh, IsFreshDriver};

use crate::Machine;
use std::alloc::Global;
use xsk_app::App;
use xsk_driver::Driver;
use xsk_model::{Answer, Ask, Config};
use xsk_turns::Manner;
use xsk_umem::{Batch, OutOfMemory};

/// A driver or an application.
#[derive(Drop)]
pub enum AnyWorker<'a> {
    Driver(Driver<'a>),
    App(App<'a>),
}

impl Machine for AnyWorker<'_> {
    ghost use Rattle.xsk_machine.specs.Workers.{awaits, settled_in, IsNew, Stands};

    ghost expected = { awaits };

    ghost has_settled = { settled_in };

    ghost is_new = { IsNew };

    ghost stands = { Stands };

    #[inline(always)]
    fn settled(&self) -> usize {
        match self {
            AnyWorker::Driver(driver) => Machine::settled(driver),
            AnyWorker::App(app) => Machine::settled(app),
        }
    }

    #[inline(always)]
    fn step(&mut self, answer: Option<Answer>, items: &mut Batch, next: &mut Option<Ask>) {
        match self {
            AnyWorker::Driver(driver) => Machine::step(driver, answer, items, next),
            AnyWorker::App(app) => Machine::step(app, answer, items, next),
        }
    }
}

/// The worker that is a caller: its driver, or where it has none its application, with this manner.
pub fn worker_of<'a>(
    alloc: Global,
    config: &'a Config,
    driver: Option<Driver<'a>>,
    who: u32,
    manner: Manner,
) -> Result<AnyWorker<'a>, OutOfMemory>
    requires regular { IsRegular config.now }
    requires caller { who < callers_of config.now }
    requires app { IfNone driver (length config.now.pairs ≤ who) }
    ensures { (s : Setting) → s.config ≡ config.now → s.manner ≡ manner → IfSome driver.entry (IsFreshDriver s who) → IfOk result (IsFresh s who) }
{
    if let Some(driver) = driver {
        return Ok(AnyWorker::Driver(driver));
    }
    let app = App::new(alloc, config, who - config.pairs().len() as u32, manner)?;
    Ok(AnyWorker::App(app))
}
