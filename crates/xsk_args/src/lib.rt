//! The words of a command, read with `clap` by tables of the command's options.
#![tactic(auto)]

mod args;
mod command;
mod error;
mod number;
mod program;
mod program_list;
mod table;

pub use args::{Args, parse, takes_text};
pub use error::ArgsError;
pub use number::parse_number;
pub use program::{Program, parse_program};
pub use program_list::{ProgramList, parse_programs};
pub use table::{OptionRow, Takes, Unsaid};
