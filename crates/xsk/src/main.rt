//! `xsk`: AF_XDP sockets forwarding packets between ports whose traffic stands in captures.
#![tactic(auto)]

use std::process::ExitCode;
use xsk_help::{explain, explain_check};
use xsk_io::FileBay;
use xsk_program::{Answered, answer, words_of};

/// Does what the program's words say, over files, and ends with the status of the answer. What standard error tells beside is told
/// once the answer is there.
fn main(rt: HostRuntime) -> ExitCode {
    let mut bay = FileBay::new(&rt);
    let answered = answer(&rt, rt.alloc(), words_of(&rt), &mut bay);
    match &answered {
        Answered::Ran(ended) => explain(&rt, words_of(&rt), &ended.status),
        Answered::Checked(checkup) => explain_check(&rt, words_of(&rt), checkup),
    }
    answered.into_exit_code(&rt)
}
