//! Which file of the words a stream is.

use crate::command::program;
use clap::ArgMatches;
use std::alloc::Global;
use xsk_args::parse_number;
use xsk_cli::options::{PCAPNG, PORTS};
use xsk_io::Stream;

/// The word that names the file of a stream, where there is one.
pub(crate) fn name_of<'a>(alloc: Global, words: &'a [String], stream: Stream) -> Option<&'a str> {
    let Ok(program) = program(alloc) else {
        return None;
    };
    let Ok(matches) = program.try_get_matches_from(words) else {
        return None;
    };
    let (_name, said) = matches.subcommand()?;
    let files = said.get_strs("FILE")?;
    let place = place_of(said, files.len(), stream)?;
    files.get(place).copied()
}

/// The place of a stream's file among so many: the inputs stand before the outputs.
fn place_of(said: &ArgMatches<'_>, count: usize, stream: Stream) -> Option<usize> {
    match stream {
        Stream::Input(port) => Some(port as usize),
        Stream::Output(port) => {
            let inputs = count.saturating_sub(count_outputs(said));
            Some(inputs.saturating_add(port as usize))
        }
        Stream::Report => None,
    }
}

/// How many outputs a command has: one for each port, or one of pcapng and of `gen`.
fn count_outputs(said: &ArgMatches<'_>) -> usize {
    if said.contains_id(PCAPNG.name) || said.contains_id("N") {
        return 1;
    }
    let ports = match said.get_str(PORTS.name) {
        Some(text) => parse_number(text),
        None => None,
    };
    ports.unwrap_or(PORTS.unsaid.number()) as usize
}
