//! All workers of a run in threads of their own. Of one that comes back nothing is known but its seat, which is what is promised of it
//! (`Handed`, `specs/Crew.antt`). The loop of starts stands in the scope's closure, since each type that goes to a thread owes there that
//! it may be sent.
ghost use Rattle.std.specs.Prelude.{◌≡◌, ℕ, ◌+◌, ◌≤◌, List, [], ◌++◌, map, All, vec_len, vec_capacity, IfOk};
ghost use Rattle.xsk_table.specs.Held.{Board};
ghost use Rattle.xsk_workers.specs.Crew.{Seat, IsSeatOn};
ghost use denote.Param.Send.{IsSend, IsSync};

use crate::by_turns::finish;
use crate::patience::Patience;
use crate::sharing::share_ends;
use crate::turns::{Opens, Turns};
use std::alloc::{AllocError, Global};
use std::marker::Model;
use std::snapshot::Snapshot;
use std::sync::Wait;
use std::sync::atomic::{AtomicU64, Ordering};
use std::thread;
use std::thread::{Promise, PromisedHandle, Scope, Threads};
use xsk_gate::Gate;
use xsk_table::Shared;

/// What is promised of a member that comes back from its thread: it is the caller of the same setting and table.
#[derive(Drop)]
struct Handed<W: Turns + Drop> {
    member: Snapshot<W>,
}

impl<W: Turns + Drop> Promise<W> for Handed<W> {
    ghost kept_by = { λ p w. W.seat w ≡ W.seat p.member.value };
}

/// Workers before they start, with room for them to come back to, which is taken before any of them starts.
#[derive(Drop)]
pub(crate) struct Crew<W: Turns + Drop> {
    shared: Snapshot<Shared>,
    workers: Vec<W>,
    handles: Vec<PromisedHandle<W, Handed<W>>>,
    unrun: Vec<W>,
    done: Vec<W>,
}

impl<W: Turns + Drop> Model for Crew<W> {
    ghost use Rattle.std.specs.Prelude.{map, All};
    ghost use Rattle.xsk_workers.specs.Crew.{CrewShown, IsSeatOn, HaveRoom};

    ghost Value = { CrewShown };

    ghost view = { λ c. record { board = c.shared.value; seats = map W.seat c.workers.items } };

    ghost invariant = { λ c. All (λ w. IsSeatOn c.shared.value (W.seat w)) c.workers.items × HaveRoom c.workers c.handles c.unrun c.done };
}

impl<W: Turns + Drop> Crew<W> {
    /// The crew of these workers.
    pub(crate) fn new(
        alloc: Global,
        shared: &Shared,
        workers: Vec<W>,
    ) -> Result<Crew<W>, AllocError>
        requires workers { All (λ w. IsSeatOn shared.now (W.seat w)) workers.items }
        ensures { IfOk result (λ c. c ≡ record { board = shared.now; seats = map W.seat workers.items }) }
    {
        let count = workers.len();
        let handles = Vec::with_capacity(alloc, count)?;
        let unrun = Vec::with_capacity(alloc, count)?;
        let done = Vec::with_capacity(alloc, count)?;
        Ok(Crew {
            shared: Snapshot::of(shared),
            workers,
            handles,
            unrun,
            done,
        })
    }
}

/// Puts the workers that come back from their threads behind those that are there.
fn join_all<R: Threads + Wait + Sync, W: Turns + Drop + Send>(
    rt: &R,
    handles: Vec<PromisedHandle<W, Handed<W>>>,
    done: &mut Vec<W>,
)
    requires { vec_len done.old + vec_len handles ≤ vec_capacity done.old }
    ensures seats { map W.seat done.new.items ≡ map W.seat done.old.items ++ map (λ h. W.seat h.promise.member.value) handles.items }
    ensures count { vec_len done.new ≡ vec_len done.old + vec_len handles }
    ensures room { vec_capacity done.new ≡ vec_capacity done.old }
{
    for handle in handles {
        done.push_reserved(handle.join(rt));
    }
}

/// All workers in their order: first those in threads, once they come back.
fn gather<R: Threads + Wait + Sync, W: Turns + Drop + Send>(
    rt: &R,
    handles: Vec<PromisedHandle<W, Handed<W>>>,
    unrun: Vec<W>,
    done: Vec<W>,
) -> Vec<W>
    requires none { done.items ≡ [] }
    requires room { vec_len handles + vec_len unrun ≤ vec_capacity done }
    ensures { map W.seat result.items ≡ map (λ h. W.seat h.promise.member.value) handles.items ++ map W.seat unrun.items }
{
    let mut done = done;
    join_all(rt, handles, &mut done);
    for worker in unrun {
        done.push_reserved(worker);
    }
    done
}

/// Runs a member to its end, or hands it back as it is where its number, and one more, is noted.
fn start<R: Threads + Wait + Sync, W: Opens, G: Gate + Sync>(
    rt: &R,
    shared: &Shared,
    gate: &G,
    refused: &AtomicU64,
    member: W,
) -> W
    requires { IsSeatOn shared.now (W.seat member) }
    ensures { W.seat result ≡ W.seat member }
{
    if refused.load(Ordering::SeqCst) == u64::from(member.caller()) + 1 {
        return member;
    }
    let patience = Patience::of_caller(rt, shared, member.caller());
    let member = run_hands(rt, shared, gate, member);
    member.run(rt, shared, gate, patience)
}

/// Has the hands of a member share its ends until all have ended, where it has several.
fn run_hands<R: Threads + Wait + Sync, W: Opens, G: Gate + Sync>(
    rt: &R,
    shared: &Shared,
    gate: &G,
    member: W,
) -> W
    requires { IsSeatOn shared.now (W.seat member) }
    ensures { W.seat result ≡ W.seat member }
{
    match member.open() {
        Ok((ends, rest)) => {
            let ends = share_ends(rt, shared, gate, W::wakers(&rest), W::plan(&rest), ends);
            W::shut(rest, ends)
        }
        Err(member) => member,
    }
}

/// Runs workers, each in a thread of its own where one can be had, and gives them back in their order.
fn run_in_scope<R: Threads + Wait + Sync, W: Opens + Drop + Send, G: Gate + Sync>(
    rt: &R,
    shared: &Shared,
    gate: &G,
    refused: &AtomicU64,
    crew: Crew<W>,
) -> Vec<W>
    requires board { crew.board ≡ shared.now }
    ensures seats { map W.seat result.items ≡ crew.seats }
    ensures belong { All (λ w. IsSeatOn shared.now (W.seat w)) result.items }
{
    thread::scope(
        thread::scope_env(),
        rt,
        |scope| -> Vec<W>
            requires { crew.board ≡ shared.now }
            ensures seats { map W.seat result.items ≡ crew.seats }
            ensures belong { All (λ w. IsSeatOn shared.entry.now (W.seat w)) result.items }
        {
            let crew = crew;
            let Crew {
                shared: _,
                workers,
                mut handles,
                mut unrun,
                done,
            } = crew;
            for worker in workers {
                if !unrun.is_empty() {
                    unrun.push_reserved(worker);
                    continue;
                }
                let number = worker.caller();
                let promise = Handed {
                    member: Snapshot::of(&worker),
                };
                let job = move || -> W
                    requires { IsSeatOn shared.now (W.seat worker) }
                    ensures { W.seat result ≡ W.seat worker }
                { start(rt, shared, gate, refused, worker) };
                match scope.spawn_with(promise, job) {
                    Ok(handle) => handles.push_reserved(handle),
                    Err(back) => {
                        refused.store(u64::from(number) + 1, Ordering::SeqCst);
                        let worker = (back.value)();
                        refused.store(0, Ordering::SeqCst);
                        unrun.push_reserved(worker);
                    }
                }
            }
            finish(rt, shared, gate, &mut unrun);
            gather(rt, handles, unrun, done)
        },
    )
}

/// Runs all workers to their ends: they come back in their order.
pub(crate) fn run_crew<R: Threads + Wait + Sync, W: Opens + Drop + Send, G: Gate + Sync>(
    rt: &R,
    shared: &Shared,
    gate: &G,
    crew: Crew<W>,
) -> Vec<W>
    requires board { crew.board ≡ shared.now }
    ensures seats { map W.seat result.items ≡ crew.seats }
    ensures whole { All W.has_run result.items }
{
    let refused = AtomicU64::new(0);
    let mut workers = run_in_scope(rt, shared, gate, &refused, crew);
    finish(rt, shared, gate, &mut workers);
    workers
}
