//! Why words are refused.
use std::alloc::AllocError;
use thiserror::Error;

/// Why words weren't read as a command.
#[derive(Clone, Copy, Debug, PartialEq, Eq, Error)]
pub enum ArgsError {
    /// The words aren't the command.
    #[error("the command line is faulty")]
    Usage,
    /// Memory couldn't be had.
    #[error("out of memory")]
    OutOfMemory,
}

impl From<AllocError> for ArgsError {
    ghost use Rattle.std.specs.Prelude.{◌≡◌};
    ghost use Rattle.xsk_args.specs.declared.error.ArgsError.TheVariants as errors;

    ghost from_gives = { λ _ e. e ≡ errors.OutOfMemory };

    fn from(_error: AllocError) -> ArgsError {
        ArgsError::OutOfMemory
    }
}
