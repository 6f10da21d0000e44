//! The hands of an application share its ends: each in a thread of its own where one can be had, and the last in this thread. The
//! ends go into a lock, and come out of it once one hand has the numbers of all (`HasAll`): so no hand is left behind that could still
//! make a step (`specs/Sharing.antt`).
ghost use Rattle.std.specs.Prelude.{◌≡◌, ◌<◌, ◌≤◌, ◌++◌, ◌∷◌, [], length, map, All, vec_len, vec_capacity};
ghost use Rattle.xsk_lock.specs.Held.{HasAll};
ghost use Rattle.xsk_workers.specs.Sharing.{AreAll, IsFree, Stays};

use crate::hands::{Common, Share, run};
use crate::lanes::Lanes;
use crate::parking::SideWakers;
use crate::plan::HandsPlan;
use std::snapshot::Snapshot;
use std::sync::Wait;
use std::sync::atomic::{AtomicU64, Ordering};
use std::thread;
use std::thread::{Promise, PromisedHandle, Scope, Threads};
use xsk_gate::Gate;
use xsk_lock::{Hand, Lock};
use xsk_table::Shared;

/// What is promised of a hand that comes back from its thread.
struct HandBack<T: Lanes> {
    lock: Snapshot<Lock<T>>,
    hand: Snapshot<Hand<T>>,
}

impl<T: Lanes> Drop for HandBack<T> {
    fn drop(self) {
        let Self { lock, hand } = self;
        drop(lock);
        drop(hand);
    }
}

impl<T: Lanes> Promise<Hand<T>> for HandBack<T> {
    ghost use Rattle.xsk_workers.specs.Sharing.{Stays};

    ghost kept_by = { λ p hand. Stays p.lock.value p.hand.value hand };
}

type Handles<T> = Vec<PromisedHandle<Hand<T>, HandBack<T>>>;

/// The hands share the ends until all have ended. Where there is no memory for their lock the ends come back as they are.
pub(crate) fn share_ends<T: Lanes + Send, R: Threads + Wait + Sync, G: Gate + Sync>(
    rt: &R,
    shared: &Shared,
    gate: &G,
    wakers: SideWakers<'_>,
    plan: HandsPlan,
    ends: T,
) -> T
    requires { T.is_on shared.now (T.name ends) }
    ensures { T.name result ≡ T.name ends }
{
    let count = plan.hands.max(1);
    let whole = Share::whole(ends.lanes(), count, plan.base);
    let Ok(handles) = Vec::with_capacity(plan.alloc, count as usize) else {
        return ends;
    };
    let (lock, hands) = match Lock::new(plan.alloc, ends, count) {
        Ok(made) => made,
        Err(back) => return back.value,
    };
    let mut others = hands;
    let own = take_last(&mut others);
    let refused = AtomicU64::new(0);
    let common = Common {
        rt,
        shared,
        gate,
        refused: &refused,
        lock: &lock,
        wakers,
        whole,
    };
    let hand = run_all(&common, own, others, handles);
    lock.close(hand)
}

/// Takes the last of a row that isn't empty.
fn take_last<H>(row: &mut Vec<H>) -> H
    requires { 0 < length row.old.items }
    ensures { row.old.items ≡ row.new.items ++ result ∷ [] }
{
    match row.pop() {
        Some(last) => last,
        None => unreachable!(),
    }
}

/// Runs the hand of this number to its end, or hands it back as it is where its thread can't be had.
fn start<T: Lanes, R: Wait, G: Gate>(
    common: &Common<'_, T, R, G>,
    number: u32,
    hand: Hand<T>,
) -> Hand<T>
    requires free { IsFree common.now.lock.now hand }
    requires on { T.is_on common.now.shared.now common.now.lock.now.name }
    requires lanes { common.now.whole.lanes ≡ T.lanes_in common.now.lock.now.name }
    ensures { Stays common.now.lock.now hand result }
{
    if common.refused.load(Ordering::SeqCst) == u64::from(number) + 1 {
        return hand;
    }
    run(common, common.whole.of_one(number), hand)
}

/// Runs all hands to their ends: one's own in this thread, and each of the others in a thread of its own, while threads can be had.
/// From the first on for which none can be had they leave their lanes to the own hand, which comes back with the numbers of all.
fn run_all<T: Lanes + Send, R: Threads + Wait + Sync, G: Gate + Sync>(
    common: &Common<'_, T, R, G>,
    own: Hand<T>,
    others: Vec<Hand<T>>,
    handles: Handles<T>,
) -> Hand<T>
    requires all { AreAll common.now.lock.now own [] others.items }
    requires room { (handles.items ≡ []) × (vec_len others ≤ vec_capacity handles) }
    requires on { T.is_on common.now.shared.now common.now.lock.now.name }
    requires lanes { common.now.whole.lanes ≡ T.lanes_in common.now.lock.now.name }
    ensures free { IsFree common.now.lock.now result }
    ensures all { HasAll common.now.lock.now result }
{
    thread::scope(
        thread::scope_env(),
        common.rt,
        |scope| -> Hand<T>
            requires all { AreAll common.now.lock.now own [] others.items }
            requires room { (handles.items ≡ []) × (vec_len others ≤ vec_capacity handles) }
            requires on { T.is_on common.now.shared.now common.now.lock.now.name }
            requires lanes { common.now.whole.lanes ≡ T.lanes_in common.now.lock.now.name }
            ensures free { IsFree common.entry.now.lock.now result }
            ensures all { HasAll common.entry.now.lock.now result }
        {
            let mut own = own;
            let mut handles = handles;
            let mut started = 0u32;
            let mut refused = false;
            for hand in others {
                if refused {
                    common.lock.join(&mut own, hand);
                    continue;
                }
                let number = started;
                let promise = HandBack {
                    lock: Snapshot::of(common.lock),
                    hand: Snapshot::of(&hand),
                };
                let job = move || -> Hand<T>
                    requires free { IsFree common.now.lock.now hand }
                    requires on { T.is_on common.now.shared.now common.now.lock.now.name }
                    requires lanes { common.now.whole.lanes ≡ T.lanes_in common.now.lock.now.name }
                    ensures { Stays common.entry.now.lock.now hand result }
                { start(common, number, hand) };
                match scope.spawn_with(promise, job) {
                    Ok(handle) => {
                        handles.push_reserved(handle);
                        started = started.saturating_add(1);
                    }
                    Err(back) => {
                        common
                            .refused
                            .store(u64::from(number) + 1, Ordering::SeqCst);
                        let hand = (back.value)();
                        common.lock.join(&mut own, hand);
                        refused = true;
                    }
                }
            }
            let own = run(common, common.whole.from(started), own);
            join_all(common, handles, own)
        },
    )
}

/// Gives a hand the numbers of those that come back from their threads.
fn join_all<T: Lanes, R: Threads, G>(
    common: &Common<'_, T, R, G>,
    handles: Handles<T>,
    own: Hand<T>,
) -> Hand<T>
    requires all { AreAll common.now.lock.now own [] (map (λ h. h.promise.hand.value) handles.items) }
    requires lock { All (λ h. h.promise.lock.value ≡ common.now.lock.now) handles.items }
    ensures free { IsFree common.now.lock.now result }
    ensures all { HasAll common.now.lock.now result }
{
    let mut own = own;
    for handle in handles {
        let hand = handle.join(common.rt);
        common.lock.join(&mut own, hand);
    }
    own
}
