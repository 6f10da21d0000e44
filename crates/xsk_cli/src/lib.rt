//! The commands: the words of a command line, and what is read, run and written for them over any bay.
#![tactic(auto)]

mod audit;
mod captures;
mod chain;
mod failure;
mod files;
mod format;
mod input;
pub mod laws;
mod leaves;
mod line;
mod lists;
mod made;
mod misfit;
pub mod options;
mod output;
mod plain;
mod programs;
mod rounds;
mod setup;
mod shown;
mod stalls;
mod status;
mod terms;
mod texts;
mod thread_run;
mod threads;
mod words;
mod work;

pub use plain::{run_plain, tell};
pub use status::{Excess, Status};
pub use thread_run::ThreadRun;
pub use threads::{Ended, run};
