//! The command that clap is given, and what it finds in the words.
ghost use Rattle.std.specs.Prelude.{◌≡◌, false, true, fold, map, string_bytes, IfOk, None, IsErrOf};
ghost use Rattle.std.specs.List.{flat_map};
ghost use Rattle.clap.specs.Words.{app_of, rule_of, with_rule};
ghost use Rattle.xsk_args.specs.Words.{spoken};
ghost use Rattle.xsk_args.specs.Meaning.{HasNoFileRow, stated};
ghost use Rattle.xsk_args.specs.Rules.{AreSpelled, IsToldBy, command_app, option_rule};

use crate::{ArgsError, OptionRow, Takes};
use clap::error::ErrorKind;
use clap::{Arg, ArgAction, ArgMatches, Command};
use std::alloc::{AllocError, Global};

/// The name under which clap keeps the files.
pub(crate) const FILES: &str = "FILE";

/// What clap finds in the words behind the command's name.
pub(crate) fn matches<'a>(
    alloc: Global,
    tables: &[&[OptionRow]],
    words: &'a [String],
) -> Result<ArgMatches<'a>, ArgsError>
    requires { HasNoFileRow (flat_map (λ table. table.now) tables.now) }
    ensures told { IfOk result (λ m. IsToldBy m (spoken (map stated (flat_map (λ table. table.now) tables.now)) (map string_bytes words.now))) }
    ensures usage { IsErrOf result ArgsError.Usage → spoken (map stated (flat_map (λ table. table.now) tables.now)) (map string_bytes words.now) ≡ None }
{
    note_texts(words);
    let command = command(alloc, tables)?;
    match command.try_get_matches_from(words) {
        Ok(matches) => Ok(matches),
        Err(error) => match error.kind() {
            ErrorKind::OutOfMemory => Err(ArgsError::OutOfMemory),
            _ => Err(ArgsError::Usage),
        },
    }
}

/// Each word is text.
fn note_texts(words: &[String])
    ensures { AreSpelled (map string_bytes words.now) }
{
    for word in words {
        let _text = word.as_str();
    }
}

/// The command, with the options of the tables and no others, and at least one file.
fn command<'a>(alloc: Global, tables: &[&[OptionRow]]) -> Result<Command<'a>, AllocError>
    ensures { IfOk result (λ c. app_of c ≡ command_app (map stated (flat_map (λ table. table.now) tables.now))) }
{
    let files = Arg::new(alloc, FILES)
        .action(ArgAction::Append)
        .required(true);
    let command = Command::new(alloc, "xsk")
        .no_binary_name(true)
        .disable_help_flag(true)
        .disable_help_subcommand(true);
    let command = with_tables(alloc, command, tables)?;
    command.arg(files)
}

fn with_tables<'a>(
    alloc: Global,
    command: Command<'a>,
    tables: &[&[OptionRow]],
) -> Result<Command<'a>, AllocError>
    ensures { IfOk result (λ c. app_of c ≡ fold (λ app row. with_rule app (option_rule (stated row))) (app_of command.entry) (flat_map (λ table. table.now) tables.now)) }
{
    let mut command = command;
    for table in tables {
        command = with_options(alloc, command, table)?;
    }
    Ok(command)
}

fn with_options<'a>(
    alloc: Global,
    command: Command<'a>,
    table: &[OptionRow],
) -> Result<Command<'a>, AllocError>
    ensures { IfOk result (λ c. app_of c ≡ fold (λ app row. with_rule app (option_rule (stated row))) (app_of command.entry) table.now) }
{
    let mut command = command;
    for row in table {
        command = command.arg(option(alloc, *row))?;
    }
    Ok(command)
}

fn option<'a>(alloc: Global, row: OptionRow) -> Arg<'a>
    ensures rule { rule_of result ≡ option_rule (stated row) }
    ensures local { result.global ≡ false }
{
    match row.takes {
        Takes::Nothing => valued(alloc, row.name).num_args(0),
        Takes::Number | Takes::Program | Takes::OneOf(_) | Takes::AnyText => {
            valued(alloc, row.name)
        }
    }
}

/// An option of this name that has one value.
fn valued<'a>(alloc: Global, name: &'static str) -> Arg<'a>
    ensures rule { rule_of result ≡ option_rule (record { name = name.now; has_value = true }) }
    ensures local { result.global ≡ false }
{
    Arg::new(alloc, name).long(name).action(ArgAction::Set)
}
