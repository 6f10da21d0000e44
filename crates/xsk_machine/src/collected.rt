//! What is kept of workers that have ended.
ghost use Rattle.std.specs.Prelude.{◌≡◌, ◌+◌, ◌<◌, ◌≤◌, ◌^◌, [], ◌++◌, All, IfOk, length, map, vec_len, vec_capacity};
ghost use Rattle.xsk_machine.specs.Acts.{HasSentGaps, HasShortPackets, packets_in};
ghost use Rattle.xsk_machine.specs.Workers.{figures_kept, kept_of};

use crate::{AnyWorker, DriverFigures, FigureList, Figures, Sent};
use std::alloc::{AllocError, Global};
use xsk_driver::Wire;
use xsk_umem::PacketList;

/// Of the drivers of a run that have ended the figures, and what each sent.
#[derive(Drop)]
pub struct Collected {
    pub figures: Vec<DriverFigures>,
    pub sent: Vec<PacketList>,
    ghost short: { All HasShortPackets sent.items },
    ghost gaps: { All HasSentGaps sent.items },
}

impl Collected {
    /// Nothing, with room for so many drivers.
    pub fn with_room(alloc: Global, drivers: usize) -> Result<Collected, AllocError>
        ensures figures { IfOk result (λ kept. (kept.figures.items ≡ []) × (drivers ≤ vec_capacity kept.figures)) }
        ensures sent { IfOk result (λ kept. (kept.sent.items ≡ []) × (drivers ≤ vec_capacity kept.sent)) }
    {
        Ok(Collected {
            figures: Vec::with_capacity(alloc, drivers)?,
            sent: Vec::with_capacity(alloc, drivers)?,
        })
    }

    /// Keeps what is left of a worker, where each queue has so many sockets. It takes no memory.
    pub fn keep(&mut self, worker: AnyWorker<'_>, classes: u32)
        requires figures { vec_len self.old.figures + length (figures_kept classes worker) ≤ vec_capacity self.old.figures }
        requires sent { vec_len self.old.sent + length (kept_of worker) ≤ vec_capacity self.old.sent }
        ensures room { (vec_capacity self.new.figures ≡ vec_capacity self.old.figures) × (vec_capacity self.new.sent ≡ vec_capacity self.old.sent) }
        ensures figures { self.new.figures.items ≡ self.old.figures.items ++ figures_kept classes worker.entry }
        ensures sent { map packets_in self.new.sent.items ≡ map packets_in self.old.sent.items ++ kept_of worker.entry }
    {
        if let AnyWorker::Driver(driver) = worker {
            self.figures
                .push_reserved(DriverFigures::of_driver(&driver, classes));
            self.sent.push_reserved(driver.into_sent());
        }
    }

    /// What the run comes to, in which so many calls were made on the shared object, and whose applications changed items or didn't. It
    /// takes no memory.
    pub fn into_sent(self, calls: u64, wire: Wire, mangled: bool) -> Sent
        requires few { vec_len self.figures < 2 ^ 32 }
        ensures { result ≡ record {
          lists = map packets_in self.sent.items;
          figures = record { calls = calls; wire = wire; drivers = self.figures.items; mangled = mangled };
        } }
    {
        let Collected { figures, sent } = self;
        let drivers = FigureList::of(figures);
        let figures = Figures {
            calls,
            wire,
            drivers,
            mangled,
        };
        Sent::new(sent, figures)
    }
}
