//! The command by which clap reads the words, and what it finds.
ghost use Rattle.std.specs.Prelude.{◌≡◌, map, string_bytes, IfOk, false, option_map, codes};
ghost use Rattle.ucq_words.specs.Command.{Matches, command as the_command, bare, option_rule, flag_rule, files_rule};
ghost use Rattle.clap.specs.Simple.{app_of};
ghost use Rattle.clap.specs.Walk.{rule_of, rows_of, first_of, all_of};
ghost use Rattle.clap.specs.Takes.{is_given as is_given_in};
ghost use Rattle.clap.specs.Matches.{found_of};

use crate::WordsFault;
use clap::error::ErrorKind;
use clap::parser::ValueSource;
use clap::{Arg, ArgAction, ArgMatches, Command};
use std::alloc::{AllocError, Global};

/// An option with one value.
fn option_arg<'a>(alloc: Global, name: &'a str) -> Arg<'a>
    ensures rule { rule_of result ≡ option_rule name.entry.now }
    ensures local { result.global ≡ false }
{
    Arg::new(alloc, name).long(name)
}

/// A flag.
fn flag_arg<'a>(alloc: Global, name: &'a str) -> Arg<'a>
    ensures rule { rule_of result ≡ flag_rule name.entry.now }
    ensures local { result.global ≡ false }
{
    Arg::new(alloc, name).long(name).action(ArgAction::SetTrue)
}

/// Any number of files.
fn files_arg<'a>(alloc: Global) -> Arg<'a>
    ensures rule { rule_of result ≡ files_rule }
    ensures local { result.global ≡ false }
{
    Arg::new(alloc, "file").action(ArgAction::Append)
}

/// The command without its arguments.
fn bare_command<'a>(alloc: Global) -> Command<'a>
    ensures { app_of result ≡ bare }
{
    Command::new(alloc, "ucq")
        .no_binary_name(true)
        .disable_help_flag(true)
        .disable_version_flag(true)
}

/// The command.
fn command<'a>(alloc: Global) -> Result<Command<'a>, AllocError>
    ensures { IfOk result (λ c. app_of c ≡ the_command) }
{
    bare_command(alloc)
        .arg(option_arg(alloc, "workers"))?
        .arg(option_arg(alloc, "budget"))?
        .arg(option_arg(alloc, "make"))?
        .arg(flag_arg(alloc, "answers"))?
        .arg(flag_arg(alloc, "within"))?
        .arg(files_arg(alloc))
}

/// What clap finds in the words, where it takes them.
pub(crate) fn matches<'a>(alloc: Global, words: &'a [String]) -> Result<ArgMatches<'a>, WordsFault>
    ensures { Matches (map (λ w. string_bytes w) words.entry.now) result }
{
    let command = command(alloc)?;
    match command.try_get_matches_from(words) {
        Ok(found) => Ok(found),
        Err(error) => match error.kind() {
            ErrorKind::OutOfMemory => Err(WordsFault::Memory),
            _ => Err(WordsFault::BadWords),
        },
    }
}

/// The value of an option, where it is given.
pub(crate) fn value_of<'a>(found: &ArgMatches<'a>, name: &str) -> Option<&'a str>
    ensures { option_map (λ s. s.now) result ≡ first_of name.now (rows_of (found_of found.now)) }
{
    found.get_str(name)
}

/// Whether a flag is given.
pub(crate) fn is_given(found: &ArgMatches<'_>, name: &str) -> bool
    ensures { result ≡ is_given_in name.now (rows_of (found_of found.now)) }
{
    match found.value_source(name) {
        Some(ValueSource::DefaultValue) => false,
        _ => found.contains_id(name),
    }
}

/// The files, in their order.
pub(crate) fn files_of<'f, 'a>(found: &'f ArgMatches<'a>) -> Option<&'f [&'a str]>
    ensures { option_map (λ names. map (λ name. name.now) names.now) result
        ≡ all_of (codes "file") (rows_of (found_of found.now)) }
{
    found.get_strs("file")
}
