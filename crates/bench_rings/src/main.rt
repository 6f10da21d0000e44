//! `bench_rings PASSES BATCH`: two threads move descriptors from FILL over RX and back, for a script that takes the
//! time. It ends with 0 where each thread has moved so many, at most BATCH (1 to 32) at once. `bench_rings CALLS swap`
//! and `bench_rings CALLS look` set a mark, or look at it, so often on one thread. `bench_rings PASSES counts` moves so
//! many one at a time, and tells for each thread how often it looked at the other side's count.
#![tactic(auto)]

ghost use Rattle.std.specs.Prelude.{◌≡◌, ◌≤◌, IsTrue};
ghost use Rattle.xsk_umem.specs.Limits.{most_items};
ghost use Rattle.xsk_table.specs.Held.{new_pass};
ghost use Rattle.xsk_table.specs.Opening.{new_passes};
ghost use Rattle.xsk_rings.specs.Rounds.{Rests};
ghost use Rattle.bench_rings.specs.Moving.{moving};

mod counting;
mod marking;
mod moving;
mod opening;
mod rewriting;

use counting::{BACK, Counts, THERE};
use std::alloc::Global;
use std::io::Print;
use std::process::ExitCode;
use std::rt::Env;
use std::thread::Threads;
use std::{env, thread};
use xsk_rings::CheckedPass;
use xsk_table::{Pass, Passes, Shared};

/// What is timed.
#[derive(Clone, Copy)]
enum Work {
    /// Descriptors that move, so many at once.
    Moves(u32),
    Swaps,
    Looks,
    /// Descriptors that move one at a time, with counted looks.
    Counts,
}

fn main(rt: HostRuntime) -> ExitCode {
    let Some((count, work)) = words_of(&rt) else {
        return ExitCode::from(2);
    };
    if runs(&rt, rt.alloc(), count, work) {
        ExitCode::SUCCESS
    } else {
        ExitCode::FAILURE
    }
}

/// The number and the work behind the program's name.
fn words_of<R: Env + AllocGlobal>(rt: &R) -> Option<(u32, Work)> {
    let words: Vec<String> = env::args(rt).ok()?.skip(1).collect(rt.alloc()).ok()?;
    let [count, work] = words.as_slice() else {
        return None;
    };
    Some((number_of(count)?, work_of(work)?))
}

fn work_of(word: &str) -> Option<Work> {
    if word == "swap" {
        return Some(Work::Swaps);
    }
    if word == "look" {
        return Some(Work::Looks);
    }
    if word == "counts" {
        return Some(Work::Counts);
    }
    Some(Work::Moves(number_of(word)?))
}

fn number_of(word: &str) -> Option<u32> {
    word.parse::<u32>().ok()
}

/// Whether the work was done so often.
fn runs<R: Threads + Print + Sync>(rt: &R, alloc: Global, count: u32, work: Work) -> bool {
    let Some((table, mut held)) = opening::opened(alloc) else {
        return false;
    };
    works(rt, alloc, &table, &mut held, count, work)
}

/// Whether the work was done so often over a new table.
fn works<R: Threads + Print + Sync>(
    rt: &R,
    alloc: Global,
    table: &Shared,
    held: &mut Passes,
    count: u32,
    work: Work,
) -> bool
    requires config { table.now.setup.config ≡ moving }
    requires new { held.old ≡ new_passes table.now }
{
    let Some((driver, app)) = opening::taken(table, held) else {
        return false;
    };
    match work {
        Work::Moves(batch) => both_move(rt, table, driver, app, batch, count),
        Work::Swaps => marking::swaps(table, driver, count),
        Work::Looks => marking::looks(table, driver, count),
        Work::Counts => both_count(rt, table, alloc, driver, app, count),
    }
}

/// Whether so many may move at once.
fn is_batch(count: u32) -> bool
    ensures { IsTrue result → (1 ≤ count) × (count ≤ most_items) }
{
    count >= 1 && count <= 32
}

/// Has the driver and the application move so many descriptors, each on a thread of its own, if so many may move at once.
fn both_move<R: Threads + Sync>(
    rt: &R,
    table: &Shared,
    driver: Pass,
    app: Pass,
    batch: u32,
    passes: u32,
) -> bool
    requires config { table.now.setup.config ≡ moving }
    requires driver { driver ≡ new_pass table.now 0 }
    requires app { app ≡ new_pass table.now 2 }
{
    if !is_batch(batch) {
        return false;
    }
    let (there, back) = thread::join(
        rt,
        move || -> bool
            requires config { table.now.setup.config ≡ moving }
            requires new { driver ≡ new_pass table.now 0 }
            requires most { (1 ≤ batch) × (batch ≤ most_items) }
        { moving::driver_moves(table, driver, batch, passes) },
        move || -> bool
            requires config { table.now.setup.config ≡ moving }
            requires new { app ≡ new_pass table.now 2 }
            requires most { (1 ≤ batch) × (batch ≤ most_items) }
        { moving::application_moves(table, app, batch, passes) },
    );
    there && back
}

/// Has both move so many one at a time, and tells what each counted.
fn both_count<R: Threads + Print + Sync>(
    rt: &R,
    table: &Shared,
    alloc: Global,
    driver: Pass,
    app: Pass,
    passes: u32,
) -> bool
    requires driver { driver ≡ new_pass table.now 0 }
    requires app { app ≡ new_pass table.now 2 }
{
    let Ok(driver) = CheckedPass::new(alloc, table, driver) else {
        return false;
    };
    let Ok(app) = CheckedPass::new(alloc, table, app) else {
        return false;
    };
    let (there, back) = thread::join(
        rt,
        move || -> Option<Counts>
            requires { Rests table.now driver }
        { counting::counts_moves(table, driver, THERE, passes) },
        move || -> Option<Counts>
            requires { Rests table.now app }
        { counting::counts_moves(table, app, BACK, passes) },
    );
    tells(rt, "driver", there) && tells(rt, "application", back)
}

/// Tells what a thread counted, if it moved all.
fn tells<R: Print>(rt: &R, who: &str, counts: Option<Counts>) -> bool {
    let Some(counts) = counts else {
        return false;
    };
    let Counts {
        asked,
        waits,
        looks,
    } = counts;
    println!(rt; "{who}: {asked} reserves and peeks, {waits} full or empty, {looks} looks").is_ok()
}
