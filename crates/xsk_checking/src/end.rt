//! How a check ends.
ghost use Rattle.std.specs.Prelude.{◌≡◌};
ghost use Rattle.xsk_checking.specs.Ending.{exit_status_of, line_of};

use std::alloc::AllocError;
use std::process::ExitCode;
use xsk_recording::Verdict;
use xsk_umem::OutOfMemory;

/// How a check ended.
#[derive(Clone, Copy, Debug, PartialEq, Eq)]
pub enum End {
    /// The recording deserves this verdict.
    Judged(Verdict),
    /// It didn't come to a verdict, or that a recording is possible couldn't be told.
    Failed(Failure),
}

/// Why a check didn't come to its end.
#[derive(Clone, Copy, Debug, PartialEq, Eq)]
pub enum Failure {
    /// The words are no command.
    Usage,
    /// The file couldn't be opened.
    Unopened,
    /// The file couldn't be read.
    Unread,
    /// The report couldn't be written.
    Unwritten,
    OutOfMemory,
}

impl End {
    /// The exit status of a program that ends so.
    pub fn exit_status(&self) -> u8
        ensures { result ≡ exit_status_of self.now }
    {
        match self {
            End::Judged(verdict) => match verdict {
                Verdict::Possible { .. } => 0,
                Verdict::NotPossible { .. } => 14,
                Verdict::Empty
                | Verdict::NoCalls
                | Verdict::NoRecording { .. }
                | Verdict::NoSetting { .. } => 15,
            },
            End::Failed(failure) => match failure {
                Failure::Usage => 2,
                Failure::Unread => 4,
                Failure::Unwritten => 5,
                Failure::Unopened => 6,
                Failure::OutOfMemory => 10,
            },
        }
    }
}

impl Failure {
    /// The line that tells it, as the other commands tell theirs.
    pub(crate) fn line(self) -> &'static str
        ensures { result.now ≡ line_of self }
    {
        match self {
            Failure::Usage => "usage\n",
            Failure::Unopened => "open fault input 0\n",
            Failure::Unread => "read fault 0\n",
            Failure::Unwritten => "",
            Failure::OutOfMemory => "out of memory\n",
        }
    }
}

impl From<End> for ExitCode {
    ghost use Rattle.std.specs.Prelude.{◌≡◌};
    ghost use Rattle.std.specs.Process.{exit_status};
    ghost use Rattle.xsk_checking.specs.Ending.{exit_status_of};

    ghost from_gives = { λ end code. exit_status code ≡ exit_status_of end };

    fn from(end: End) -> ExitCode {
        ExitCode::from(end.exit_status())
    }
}

impl From<AllocError> for Failure {
    ghost use Rattle.std.specs.Prelude.{◌≡◌};
    ghost use Rattle.xsk_checking.specs.declared.end.Failure.TheVariants.{OutOfMemory as NoMemory};

    ghost from_gives = { λ _ failure. failure ≡ NoMemory };

    fn from(_error: AllocError) -> Failure {
        Failure::OutOfMemory
    }
}

impl From<OutOfMemory> for Failure {
    ghost use Rattle.std.specs.Prelude.{◌≡◌};
    ghost use Rattle.xsk_checking.specs.declared.end.Failure.TheVariants.{OutOfMemory as NoMemory};

    ghost from_gives = { λ _ failure. failure ≡ NoMemory };

    fn from(_error: OutOfMemory) -> Failure {
        Failure::OutOfMemory
    }
}
