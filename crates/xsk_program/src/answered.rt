//! How the program's command ended.
ghost use Rattle.std.specs.Prelude.{◌≡◌};
ghost use Rattle.std.specs.Process.{exit_status};
ghost use Rattle.xsk_program.specs.Answering.{answer_status};

use std::process::ExitCode;
use xsk_checking::Checkup;
use xsk_cli::Ended;

/// How the program's command ended.
pub enum Answered {
    /// That of a command that makes a run, packets or an audit.
    Ran(Ended),
    /// That of `check`.
    Checked(Checkup),
}

impl Answered {
    /// The exit status of a program that ends so. What a run shows is given up.
    pub fn into_exit_code(self, rt: &HostRuntime) -> ExitCode
        ensures { exit_status result ≡ answer_status self }
    {
        match self {
            Answered::Ran(ended) => ended.into_exit_code(rt),
            Answered::Checked(checkup) => ExitCode::from(checkup.end),
        }
    }
}
