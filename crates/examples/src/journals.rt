//! xsk_audit: a journal of one's own is audited. An application gives a frame back, and with one line more it does so twice, which
//! isn't legal; why is told.

use crate::layouts::opened;
use crate::runs::LAYOUT;
use anyhow::Result;
use std::alloc::Global;
use xsk_audit::{Verdicts, audit, why_not_legal};

const LINES: [&str; 9] = [
    "0 d0 peek fill.0 1 -> items 0:0:0\n",
    "0 d0 release fill.0 1 -> released\n",
    "0 d0 reserve rx.0 1 -> granted\n",
    "0 d0 submit rx.0 256:60:0 -> submitted\n",
    "1 a0 peek rx.0 1 -> items 256:60:0\n",
    "1 a0 release rx.0 1 -> released\n",
    "2 a0 reserve fill.0 2 -> granted\n",
    "2 a0 submit fill.0 0:0:0 -> submitted\n",
    "3 a0 submit fill.0 0:0:0 -> submitted\n",
];

pub fn audit_a_journal<R: Print>(rt: &R, alloc: Global) -> Result<()> {
    tell(rt, alloc, &LINES[..8])?;
    tell(rt, alloc, &LINES)
}

/// What the audit of these lines finds.
fn tell<R: Print>(rt: &R, alloc: Global, lines: &[&str]) -> Result<()> {
    let (config, frames) = opened(alloc, &LAYOUT)?;
    let mut text = String::new(alloc);
    for line in lines {
        text.push_str(line)?;
    }
    match audit(alloc, config, frames, text.as_bytes())? {
        Verdicts::Legal { entries } => println!(rt; "a legal history of {entries} calls")?,
        Verdicts::NotLegal { line } => {
            println!(rt; "line {line} isn't legal behind the others")?;
            tell_why(rt, alloc, text.as_bytes())?;
        }
    }
    Ok(())
}

/// Why a line of a journal isn't legal.
fn tell_why<R: Print>(rt: &R, alloc: Global, text: &[u8]) -> Result<()> {
    let (config, frames) = opened(alloc, &LAYOUT)?;
    let mut told = Vec::new(alloc);
    let _misfit = why_not_legal(alloc, config, frames, text, &mut told)?;
    if let Ok(told) = String::from_utf8(told) {
        print!(rt; "{told}")?;
    }
    Ok(())
}
