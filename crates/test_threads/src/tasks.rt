//! Tasks that are done at once, each on a thread of its own.

use std::thread;
use std::thread::Threads;

/// What a thread does, with all that it has.
pub(crate) trait Task: Drop + Send {
    // What must be so before it is done.
    ghost is_ready: { Self → Type 0 };

    // What is so of it before and behind it.
    ghost is_done: { Self → Self → Type 0 };

    fn run(&mut self)
        requires { is_ready self.old }
        ensures { is_done self.old self.new };
}

/// Does a task and gives it back.
fn done<T: Task>(task: T) -> T
    requires { T.is_ready task }
    ensures { T.is_done task result }
{
    let mut task = task;
    task.run();
    task
}

/// Does two tasks at once.
pub(crate) fn do_two<R: Threads + Sync, A: Task, B: Task>(rt: &R, first: A, second: B) -> (A, B)
    requires first { A.is_ready first }
    requires second { B.is_ready second }
    ensures first { A.is_done first result.0 }
    ensures second { B.is_done second result.1 }
{
    thread::join(
        rt,
        move || -> A
            requires { A.is_ready first }
            ensures { A.is_done first result }
        { done(first) },
        move || -> B
            requires { B.is_ready second }
            ensures { B.is_done second result }
        { done(second) },
    )
}

/// Does three tasks at once.
pub(crate) fn do_three<R: Threads + Sync, A: Task, B: Task, C: Task>(
    rt: &R,
    first: A,
    second: B,
    third: C,
) -> (A, B, C)
    requires first { A.is_ready first }
    requires second { B.is_ready second }
    requires third { C.is_ready third }
    ensures first { A.is_done first result.0 }
    ensures second { B.is_done second result.1 }
    ensures third { C.is_done third result.2 }
{
    let (first, (second, third)) = thread::join(
        rt,
        move || -> A
            requires { A.is_ready first }
            ensures { A.is_done first result }
        { done(first) },
        move || -> (B, C)
            requires second { B.is_ready second }
            requires third { C.is_ready third }
            ensures second { B.is_done second result.0 }
            ensures third { C.is_done third result.1 }
        { do_two(rt, second, third) },
    );
    (first, second, third)
}
