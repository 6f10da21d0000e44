//! The gate of a run: it holds no one, two workers until both have come, or one until another has gone on for long.
//!
//! It is one type for all of them, so that commands are built for one.

use crate::case::Holds;
use anyhow::{Result, anyhow};
use std::alloc::AllocError;
use std::fmt::Write;
use xsk_gate::{Gate, HoldGate, PairGate};

#[derive(Drop)]
pub(crate) enum RunGate {
    Open,
    /// The gate of these two workers.
    Pair(PairGate, u32, u32),
    Hold(HoldGate),
}

impl Gate for RunGate {
    fn enter(&self, worker: u32, turn: u64) {
        match self {
            RunGate::Open => {}
            RunGate::Pair(gate, _, _) => gate.enter(worker, turn),
            RunGate::Hold(gate) => gate.enter(worker, turn),
        }
    }
}

impl RunGate {
    /// The gate that holds these workers.
    pub(crate) fn of(holds: Holds) -> Result<RunGate> {
        match holds {
            Holds::NoOne => Ok(RunGate::Open),
            Holds::Pair(first, second) => RunGate::of_pair(first, second),
            Holds::One(worker) => Ok(RunGate::Hold(HoldGate::new(worker))),
        }
    }

    fn of_pair(first: u32, second: u32) -> Result<RunGate> {
        if first == second {
            return Err(anyhow!("a worker doesn't meet itself"));
        }
        Ok(RunGate::Pair(PairGate::of(first, second), first, second))
    }

    /// Tells whether both workers came to it, or another one went on.
    pub(crate) fn tell(&self, told: &mut String) -> Result<(), AllocError> {
        match self {
            RunGate::Open => Ok(()),
            RunGate::Pair(gate, first, second) => tell_pair(gate, *first, *second, told),
            RunGate::Hold(gate) => writeln!(told, "another goes on: {}", gate.pushed()),
        }
    }
}

fn tell_pair(
    gate: &PairGate,
    first: u32,
    second: u32,
    told: &mut String,
) -> Result<(), AllocError> {
    let met = gate.entered(first) && gate.entered(second) && !gate.limit_met();
    writeln!(told, "both meet: {met}")
}
