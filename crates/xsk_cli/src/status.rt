//! How a command ends. The numbers are those of `specs/ExitStatus`; `docs/USAGE.md` has them, and they never change
//! their meaning.
ghost use Rattle.std.specs.Prelude.{◌≡◌};
ghost use Rattle.xsk_cli.specs.ExitStatus.{exit_status_of};

use std::process::ExitCode;
use xsk_args::ArgsError;
use xsk_io::Stream;
use xsk_pcap::BadCapture;
use xsk_pcapng::BadPcapng;
use xsk_socket::Unlawful;
use xsk_umem::OutOfMemory;

/// Which limit was passed, and by how much came.
#[derive(Clone, Copy, Debug, PartialEq, Eq)]
pub enum Excess {
    /// An input has more bytes than 65,536 packets with 33,554,432 bytes take, or a pcapng file or a journal more than 67,108,864.
    Input(u32),
    /// All inputs together have so many packets, more than 65,536.
    Packets(u64),
    /// All inputs together have so many captured bytes, more than 33,554,432.
    Bytes(u64),
}

/// How a command ended.
#[derive(Clone, Copy, Debug, PartialEq, Eq)]
pub enum Status {
    /// All was read and written.
    Done,
    /// The words are no command.
    Usage,
    /// The capture of an input was refused.
    BadCapture { port: u32, cause: BadCapture },
    /// An input couldn't be read.
    ReadFault { port: u32 },
    /// A stream couldn't be written.
    WriteFault { stream: Stream },
    /// A stream couldn't be opened.
    OpenFault { stream: Stream },
    /// The layout was refused.
    Refused(Unlawful),
    /// Some worker hadn't ended after this round.
    Stalled { round: u64 },
    /// The inputs are larger than what is taken.
    TooMuch(Excess),
    /// Memory couldn't be had.
    OutOfMemory,
    /// The pcapng file was refused.
    BadPcapng(BadPcapng),
    /// This line of a journal, counted from 1, is the first that can't follow those before it in the journal of a legal history.
    NotLegal { line: u64 },
}

impl Status {
    /// The exit status of a program that ends so.
    pub fn exit_status(&self) -> u8
        ensures { result ≡ exit_status_of self.now }
    {
        match self {
            Status::Done => 0,
            Status::Usage => 2,
            Status::BadCapture { .. } => 3,
            Status::ReadFault { .. } => 4,
            Status::WriteFault { .. } => 5,
            Status::OpenFault { .. } => 6,
            Status::Refused(_) => 7,
            Status::Stalled { .. } => 8,
            Status::TooMuch(_) => 9,
            Status::OutOfMemory => 10,
            Status::BadPcapng(_) => 12,
            Status::NotLegal { .. } => 13,
        }
    }
}

impl From<Status> for ExitCode {
    ghost use Rattle.std.specs.Prelude.{◌≡◌};
    ghost use Rattle.std.specs.Process.{exit_status};
    ghost use Rattle.xsk_cli.specs.ExitStatus.{exit_status_of};

    ghost from_gives = { λ status code. exit_status code ≡ exit_status_of status };

    fn from(status: Status) -> ExitCode {
        ExitCode::from(status.exit_status())
    }
}

impl From<ArgsError> for Status {
    ghost use Rattle.std.specs.Prelude.{◌≡◌};
    ghost use Rattle.xsk_cli.specs.Steps.{args_status};

    ghost from_gives = { λ error status. status ≡ args_status error };

    fn from(error: ArgsError) -> Status {
        match error {
            ArgsError::Usage => Status::Usage,
            ArgsError::OutOfMemory => Status::OutOfMemory,
        }
    }
}

impl From<Unlawful> for Status {
    ghost use Rattle.std.specs.Prelude.{◌≡◌};
    ghost use Rattle.xsk_cli.specs.declared.status.Status.TheVariants.{Refused as IsRefused};

    ghost from_gives = { λ unlawful status. status ≡ IsRefused unlawful };

    fn from(unlawful: Unlawful) -> Status {
        Status::Refused(unlawful)
    }
}

impl From<OutOfMemory> for Status {
    ghost use Rattle.std.specs.Prelude.{◌≡◌};
    ghost use Rattle.xsk_cli.specs.declared.status.Status.TheVariants.{OutOfMemory as NoMemory};

    ghost from_gives = { λ _ status. status ≡ NoMemory };

    fn from(_error: OutOfMemory) -> Status {
        Status::OutOfMemory
    }
}
