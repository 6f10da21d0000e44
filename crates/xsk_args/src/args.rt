//! A command's words, read by its tables of options.
ghost use Rattle.std.specs.Prelude.{◌≡◌, None, Some, IfOk, IsErrOf, codes, is_some, map, option_and_then, option_map, string_bytes, unwrap_or};
ghost use Rattle.std.specs.List.{flat_map, list_all, list_any};
ghost use Rattle.std.specs.Str.{bytes_eq};
ghost use Rattle.clap.specs.Words.{all_of, found_of, rows_of};
ghost use Rattle.xsk_args.specs.Meaning.{HasNoFileRow, asked, fits, is_taken, key_of, meaning, meant, number_said, number_unsaid, one_value, under};
ghost use Rattle.xsk_args.specs.Program.{programs_in};

use crate::command::{FILES, matches};
use crate::number::parse_number;
use crate::program_list::{ProgramList, parse_programs};
use crate::{ArgsError, OptionRow, Takes};
use clap::ArgMatches;
use std::alloc::Global;
use std::marker::Model;

/// What the words of a command say, option by option.
#[derive(Drop)]
pub struct Args<'a> {
    matches: ArgMatches<'a>,
}

impl<'a> Model for Args<'a> {
    ghost use Rattle.std.specs.Prelude.{List};
    ghost use Rattle.clap.specs.Words.{found_of, rows_of};
    ghost use Rattle.xsk_args.specs.Words.{Said};
    ghost use Rattle.xsk_args.specs.Rules.{said_by};

    ghost Value = { List Said };

    ghost view = { λ a. said_by (rows_of (found_of a.matches)) };
}

/// Reads words as a command: its name, and then options and files in any order.
///
/// An option is `--` and its name. Its value stands after `=` or is the next word, which doesn't begin with `-` then,
/// unless it is that one character. Each option comes once at most. `--` ends the options, and the words behind it are
/// files. There is at least one file. The options are those of all tables, and none of them is named `FILE`.
///
/// `Usage` comes exactly where the words break one of these rules, unless memory can't be had first.
pub fn parse<'a>(
    alloc: Global,
    name: &str,
    tables: &[&[OptionRow]],
    words: &'a [String],
) -> Result<Args<'a>, ArgsError>
    requires { HasNoFileRow (flat_map (λ table. table.now) tables.now) }
    ensures told { IfOk result (λ args. meaning name.now (map key_of (flat_map (λ table. table.now) tables.now)) (map string_bytes words.now) ≡ Some (under args)) }
    ensures usage { IsErrOf result ArgsError.Usage → meaning name.now (map key_of (flat_map (λ table. table.now) tables.now)) (map string_bytes words.now) ≡ None }
{
    let Some((first, rest)) = words.split_first() else {
        return Err(ArgsError::Usage);
    };
    if first.as_str() != name {
        return Err(ArgsError::Usage);
    }
    parse_behind(alloc, tables, rest)
}

/// Reads the words behind the command's name.
fn parse_behind<'a>(
    alloc: Global,
    tables: &[&[OptionRow]],
    words: &'a [String],
) -> Result<Args<'a>, ArgsError>
    requires { HasNoFileRow (flat_map (λ table. table.now) tables.now) }
    ensures told { IfOk result (λ args. meant (map key_of (flat_map (λ table. table.now) tables.now)) (map string_bytes words.now) ≡ Some (under args)) }
    ensures usage { IsErrOf result ArgsError.Usage → meant (map key_of (flat_map (λ table. table.now) tables.now)) (map string_bytes words.now) ≡ None }
{
    let matches = matches(alloc, tables, words)?;
    if !all_fit(&matches, tables) {
        return Err(ArgsError::Usage);
    }
    Ok(Args { matches })
}

/// Whether each option has a value that it takes.
fn all_fit(matches: &ArgMatches<'_>, tables: &[&[OptionRow]]) -> bool
    ensures { result ≡ list_all (fits (λ name. all_of name (rows_of (found_of matches.now)))) (flat_map (λ table. table.now) tables.now) }
{
    for table in tables {
        if !table_fits(matches, table) {
            return false;
        }
    }
    true
}

fn table_fits(matches: &ArgMatches<'_>, table: &[OptionRow]) -> bool
    ensures { result ≡ list_all (fits (λ name. all_of name (rows_of (found_of matches.now)))) table.now }
{
    for row in table {
        if !fits_row(matches, *row) {
            return false;
        }
    }
    true
}

fn fits_row(matches: &ArgMatches<'_>, row: OptionRow) -> bool
    ensures { result ≡ fits (λ name. all_of name (rows_of (found_of matches.now))) row }
{
    match matches.get_str(row.name) {
        Some(text) => takes_text(row.takes, text),
        None => true,
    }
}

/// Whether an option that takes such values takes this one.
pub fn takes_text(takes: Takes, text: &str) -> bool
    ensures { result ≡ is_taken (asked takes) text.now }
{
    match takes {
        Takes::Number => parse_number(text).is_some(),
        Takes::Program => parse_programs(text).is_some(),
        Takes::OneOf(words) => is_one_of(words, text),
        Takes::Nothing | Takes::AnyText => true,
    }
}

fn is_one_of(words: &[&str], text: &str) -> bool
    ensures { result ≡ list_any (bytes_eq text.now) (map (λ word. word.now) words.now) }
{
    for word in words {
        if text == *word {
            return true;
        }
    }
    false
}

impl<'a> Args<'a> {
    /// The number that was said of an option, where one was.
    pub fn number(&self, option: &OptionRow) -> Option<u32>
        ensures { result ≡ number_said (under self.now) option.now.name.now }
    {
        parse_number(self.text(option)?)
    }

    /// The number that was said of an option, or else the one that stands where it isn't said.
    pub fn number_or_usual(&self, option: &OptionRow) -> u32
        ensures { result ≡ unwrap_or (number_said (under self.now) option.now.name.now) (number_unsaid option.now.unsaid) }
    {
        self.number(option).unwrap_or(option.unsaid.number())
    }

    /// The programs that were said of an option, where some were.
    pub fn programs(&self, option: &OptionRow) -> Option<ProgramList>
        ensures { result ≡ option_and_then programs_in (one_value (under self.now option.now.name.now)) }
    {
        parse_programs(self.text(option)?)
    }

    /// The value that was said of an option, where one was.
    pub fn text(&self, option: &OptionRow) -> Option<&'a str>
        ensures { option_map (λ text. text.now) result ≡ one_value (under self.now option.now.name.now) }
    {
        self.matches.get_str(option.name)
    }

    /// Whether the option was said.
    pub fn is_said(&self, option: &OptionRow) -> bool
        ensures { result ≡ is_some (under self.now option.now.name.now) }
    {
        self.matches.contains_id(option.name)
    }

    /// The files in order. What was parsed has one at least.
    pub fn files(&self) -> Option<&[&'a str]>
        ensures { option_map (λ files. map (λ file. file.now) files.now) result ≡ under self.now (codes "FILE") }
    {
        self.matches.get_strs(FILES)
    }
}
