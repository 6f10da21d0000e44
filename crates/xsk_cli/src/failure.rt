//! Why a step of a command failed.

use crate::{Excess, Status};
use std::alloc::AllocError;
use xsk_args::ArgsError;
use xsk_io::Stream;
use xsk_pcap::BadCapture;
use xsk_pcapng::BadPcapng;
use xsk_sim::SimError;
use xsk_socket::Unlawful;
use xsk_umem::OutOfMemory;

/// Why the inputs weren't read.
#[derive(Clone, Copy)]
pub(crate) enum ReadFailure {
    /// The input of this port couldn't be opened.
    Unopened(u32),
    /// It couldn't be read.
    Unread(u32),
    /// It has too many bytes.
    TooLong(u32),
    OutOfMemory,
}

/// Why nothing was made of the inputs.
#[derive(Drop)]
pub(crate) enum RunFailure {
    BadCapture { port: u32, cause: BadCapture },
    TooMuch(Excess),
    Stalled { round: u64 },
    /// The run stalled, and the text is the line of the stall with what is told behind it.
    Explained { round: u64, text: Vec<u8> },
    OutOfMemory,
    /// The journal isn't legal from this line on.
    NotLegal { line: u64 },
    /// The same, and the text is the line that tells it with what is told behind it.
    Reasoned { line: u64, text: Vec<u8> },
    BadPcapng(BadPcapng),
}

/// Why a command didn't end well, as it is told.
#[derive(Drop)]
pub(crate) enum Refusal {
    /// In the line of the status.
    Bare(Status),
    /// The run stalled in this round, and the text is the line of the stall with what is told behind it.
    Stall { round: u64, text: Vec<u8> },
    /// The journal isn't legal from this line on, and the text is the line that tells it with what is told behind it.
    Misfit { line: u64, text: Vec<u8> },
}

/// Why the texts weren't written.
#[derive(Clone, Copy)]
pub(crate) enum WriteFailure {
    /// The output of this port couldn't be opened.
    Unopened(u32),
    Unwritten(Stream),
}

impl From<AllocError> for ReadFailure {
    ghost use Rattle.std.specs.Prelude.{◌≡◌};
    ghost use Rattle.xsk_cli.specs.declared.failure.ReadFailure.TheVariants.{OutOfMemory};

    ghost from_gives = { λ _ failure. failure ≡ OutOfMemory };

    fn from(_error: AllocError) -> ReadFailure {
        ReadFailure::OutOfMemory
    }
}

impl From<AllocError> for RunFailure {
    ghost use Rattle.std.specs.Prelude.{◌≡◌};
    ghost use Rattle.xsk_cli.specs.declared.failure.RunFailure.TheVariants.{OutOfMemory};

    ghost from_gives = { λ _ failure. failure ≡ OutOfMemory };

    fn from(_error: AllocError) -> RunFailure {
        RunFailure::OutOfMemory
    }
}

impl From<OutOfMemory> for RunFailure {
    ghost use Rattle.std.specs.Prelude.{◌≡◌};
    ghost use Rattle.xsk_cli.specs.declared.failure.RunFailure.TheVariants.{OutOfMemory as NoMemory};

    ghost from_gives = { λ _ failure. failure ≡ NoMemory };

    fn from(_error: OutOfMemory) -> RunFailure {
        RunFailure::OutOfMemory
    }
}

impl From<SimError> for RunFailure {
    ghost use Rattle.std.specs.Prelude.{◌≡◌};
    ghost use Rattle.xsk_cli.specs.Steps.{sim_failure};

    ghost from_gives = { λ error failure. failure ≡ sim_failure error };

    fn from(error: SimError) -> RunFailure {
        match error {
            SimError::Stalled { round } => RunFailure::Stalled { round },
            SimError::OutOfMemory => RunFailure::OutOfMemory,
        }
    }
}

impl From<ReadFailure> for Refusal {
    ghost use Rattle.std.specs.Prelude.{◌≡◌};
    ghost use Rattle.xsk_cli.specs.Steps.{read_status};
    ghost use Rattle.xsk_cli.specs.declared.failure.Refusal.TheVariants.{Bare as InALine};

    ghost from_gives = { λ failure refusal. refusal ≡ InALine (read_status failure) };

    fn from(failure: ReadFailure) -> Refusal {
        Refusal::Bare(match failure {
            ReadFailure::Unopened(port) => Status::OpenFault {
                stream: Stream::Input(port),
            },
            ReadFailure::Unread(port) => Status::ReadFault { port },
            ReadFailure::TooLong(port) => Status::TooMuch(Excess::Input(port)),
            ReadFailure::OutOfMemory => Status::OutOfMemory,
        })
    }
}

impl From<RunFailure> for Refusal {
    ghost use Rattle.std.specs.Prelude.{◌≡◌};
    ghost use Rattle.xsk_cli.specs.Steps.{run_refusal};

    ghost from_gives = { λ failure refusal. refusal ≡ run_refusal failure };

    fn from(failure: RunFailure) -> Refusal {
        match failure {
            RunFailure::BadCapture { port, cause } => {
                Refusal::Bare(Status::BadCapture { port, cause })
            }
            RunFailure::TooMuch(excess) => Refusal::Bare(Status::TooMuch(excess)),
            RunFailure::Stalled { round } => Refusal::Bare(Status::Stalled { round }),
            RunFailure::Explained { round, text } => Refusal::Stall { round, text },
            RunFailure::OutOfMemory => Refusal::Bare(Status::OutOfMemory),
            RunFailure::NotLegal { line } => Refusal::Bare(Status::NotLegal { line }),
            RunFailure::Reasoned { line, text } => Refusal::Misfit { line, text },
            RunFailure::BadPcapng(cause) => Refusal::Bare(Status::BadPcapng(cause)),
        }
    }
}

impl From<WriteFailure> for Refusal {
    ghost use Rattle.std.specs.Prelude.{◌≡◌};
    ghost use Rattle.xsk_cli.specs.Steps.{write_status};
    ghost use Rattle.xsk_cli.specs.declared.failure.Refusal.TheVariants.{Bare as InALine};

    ghost from_gives = { λ failure refusal. refusal ≡ InALine (write_status failure) };

    fn from(failure: WriteFailure) -> Refusal {
        Refusal::Bare(match failure {
            WriteFailure::Unopened(port) => Status::OpenFault {
                stream: Stream::Output(port),
            },
            WriteFailure::Unwritten(stream) => Status::WriteFault { stream },
        })
    }
}

impl From<ArgsError> for Refusal {
    ghost use Rattle.std.specs.Prelude.{◌≡◌};
    ghost use Rattle.xsk_cli.specs.Steps.{args_status};
    ghost use Rattle.xsk_cli.specs.declared.failure.Refusal.TheVariants.{Bare as InALine};

    ghost from_gives = { λ error refusal. refusal ≡ InALine (args_status error) };

    fn from(error: ArgsError) -> Refusal {
        Refusal::Bare(Status::from(error))
    }
}

impl From<Unlawful> for Refusal {
    ghost use Rattle.std.specs.Prelude.{◌≡◌};
    ghost use Rattle.xsk_cli.specs.declared.failure.Refusal.TheVariants.{Bare as InALine};
    ghost use Rattle.xsk_cli.specs.declared.status.Status.TheVariants.{Refused as IsRefused};

    ghost from_gives = { λ unlawful refusal. refusal ≡ InALine (IsRefused unlawful) };

    fn from(unlawful: Unlawful) -> Refusal {
        Refusal::Bare(Status::Refused(unlawful))
    }
}
