//! What is wrong with words that are no command, and what was asked for by `--help`, `-h` and `--version`.

use crate::command::program;
use crate::options::{SYNOPSIS, TABLES, whole_text};
use crate::version::VERSION;
use clap::ArgMatches;
use std::alloc::{AllocError, Global};
use std::fmt::Write;
use xsk_args::{OptionRow, Takes, takes_text};
use xsk_cli::options::{CLOSE, GEN, PCAPNG};

/// What is told of words that are no command.
pub(crate) fn usage_text(alloc: Global, words: &[String]) -> Result<String, AllocError> {
    if says(words, "--help", "-h") {
        return whole_text(alloc);
    }
    if says(words, "--version", "--version") {
        return String::from_str(alloc, VERSION);
    }
    let mut text = String::from_str(alloc, "xsk: ")?;
    push_fault(alloc, &mut text, words)?;
    text.push_str("\n")?;
    text.push_str(SYNOPSIS)?;
    text.push_str("xsk --help tells the options\n")?;
    Ok(text)
}

/// Whether an option is among the words.
fn says(words: &[String], long: &str, short: &str) -> bool {
    for word in words {
        let word = word.as_str();
        if word == "--" {
            return false;
        }
        if word == long || word == short {
            return true;
        }
    }
    false
}

/// What is wrong: the first thing that clap says, or else a value, or what doesn't go together.
fn push_fault(alloc: Global, text: &mut String, words: &[String]) -> Result<(), AllocError> {
    match program(alloc)?.try_get_matches_from(words) {
        Ok(matches) => match matches.subcommand() {
            Some(("check", _said)) => text.push_str("check wants one file"),
            Some((_name, said)) => push_misfit(text, said),
            None => Ok(()),
        },
        Err(error) => push_message(text, error.to_string(alloc)?.as_str()),
    }
}

/// What clap says, without its own usage and its heading.
fn push_message(text: &mut String, message: &str) -> Result<(), AllocError> {
    let message = match message.split_once("\n\nUsage:") {
        Some((message, _usage)) => message,
        None => message.trim_end(),
    };
    text.push_str(message.strip_prefix("error: ").unwrap_or(message))
}

/// What is wrong with words in which clap finds nothing.
fn push_misfit(text: &mut String, said: &ArgMatches<'_>) -> Result<(), AllocError> {
    for (_commands, table) in TABLES {
        if push_bad_value(text, said, table)? {
            return Ok(());
        }
    }
    text.push_str(discord(said))
}

/// The first option of a table whose value isn't of its kind, if one is.
fn push_bad_value(
    text: &mut String,
    said: &ArgMatches<'_>,
    table: &[OptionRow],
) -> Result<bool, AllocError> {
    for row in table {
        if let Some(value) = said.get_str(row.name)
            && !takes_text(row.takes, value)
        {
            push_wanted(text, row, value)?;
            return Ok(true);
        }
    }
    Ok(false)
}

/// What an option wants in place of a value.
fn push_wanted(text: &mut String, row: &OptionRow, value: &str) -> Result<(), AllocError> {
    let name = row.name;
    let accepts = row.accepts;
    let kind = match row.takes {
        Takes::Number => "a number, ",
        _ => "",
    };
    write!(text, "--{name} wants {kind}{accepts}, and not '{value}'")
}

/// What doesn't go together, where each option has a value that it takes.
fn discord(said: &ArgMatches<'_>) -> &'static str {
    if said.contains_id("N") {
        return "gen wants a number of at most 4294967295, and a file";
    }
    if said.contains_id(PCAPNG.name) && count_files(said) != files_of_pcapng(said) {
        return "--pcapng wants the two files IN and OUT, or with --gen OUT alone";
    }
    if said.contains_id(CLOSE.name) {
        return "--close wants one hand of each application: leave --hands out";
    }
    "--after is said of the socket that --close names"
}

fn count_files(said: &ArgMatches<'_>) -> usize {
    match said.get_strs("FILE") {
        Some(files) => files.len(),
        None => 0,
    }
}

/// How many files there are with pcapng.
fn files_of_pcapng(said: &ArgMatches<'_>) -> usize {
    if said.contains_id(GEN.name) { 1 } else { 2 }
}
