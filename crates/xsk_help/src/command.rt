//! The commands as clap has them, from the tables by which words are read: for what it says of faulty words.

use clap::{Arg, ArgAction, Command};
use std::alloc::{AllocError, Global};
use xsk_args::{OptionRow, Takes};
use xsk_cli::options::{AUDIT, FORWARD, SIMULATE};

/// The program with its five commands. None has a help option of clap's own.
pub(crate) fn program<'a>(alloc: Global) -> Result<Command<'a>, AllocError> {
    bare(alloc, "xsk")
        .no_binary_name(true)
        .subcommand_required(true)
        .subcommand(optioned(alloc, "simulate", SIMULATE)?)?
        .subcommand(optioned(alloc, "forward", FORWARD)?)?
        .subcommand(made(alloc)?)?
        .subcommand(optioned(alloc, "audit", AUDIT)?)?
        .subcommand(checked(alloc)?)
}

/// A command without options.
fn bare<'a>(alloc: Global, name: &'static str) -> Command<'a> {
    Command::new(alloc, name)
        .disable_help_flag(true)
        .disable_help_subcommand(true)
}

/// A command that has options and files.
fn optioned<'a>(
    alloc: Global,
    name: &'static str,
    tables: &[&[OptionRow]],
) -> Result<Command<'a>, AllocError> {
    let mut command = bare(alloc, name);
    for table in tables {
        command = with_options(alloc, command, table)?;
    }
    command.arg(files(alloc))
}

/// `gen`, which has no options.
fn made<'a>(alloc: Global) -> Result<Command<'a>, AllocError> {
    let number = Arg::new(alloc, "N").required(true).action(ArgAction::Set);
    let file = Arg::new(alloc, "FILE")
        .required(true)
        .action(ArgAction::Set);
    bare(alloc, "gen").arg(number)?.arg(file)
}

/// `check`, which has no options.
fn checked<'a>(alloc: Global) -> Result<Command<'a>, AllocError> {
    let file = Arg::new(alloc, "FILE")
        .required(true)
        .action(ArgAction::Set);
    bare(alloc, "check").arg(file)
}

fn files<'a>(alloc: Global) -> Arg<'a> {
    Arg::new(alloc, "FILE")
        .action(ArgAction::Append)
        .required(true)
}

fn with_options<'a>(
    alloc: Global,
    command: Command<'a>,
    table: &[OptionRow],
) -> Result<Command<'a>, AllocError> {
    let mut command = command;
    for row in table {
        command = command.arg(option(alloc, row))?;
    }
    Ok(command)
}

fn option<'a>(alloc: Global, row: &OptionRow) -> Arg<'a> {
    let arg = Arg::new(alloc, row.name)
        .long(row.name)
        .action(ArgAction::Set);
    match row.takes {
        Takes::Nothing => arg.num_args(0),
        _ => arg.value_name(value_name(row.takes)),
    }
}

/// What stands for an option's value.
pub(crate) fn value_name(takes: Takes) -> &'static str {
    match takes {
        Takes::Nothing => "",
        Takes::Number => "N",
        Takes::Program => "PROGRAMS",
        Takes::OneOf(_) => "WORD",
        Takes::AnyText => "TEXT",
    }
}
