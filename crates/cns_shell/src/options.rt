// The words of a line, as `clap` reads them.
ghost use Rattle.std.specs.Prelude.{◌≡◌, IfOk, Some, false, map, option_and_then, option_map, true};
ghost use Rattle.clap.specs.Words.{app_of, first_of, found_of, is_simple, is_simple_and_free, matches_of, rows_of, rule_of, subcommand_of, subcommand_rows_of};
ghost use Rattle.cns_shell.specs.Options.{bare, date_in, free_rule, if_taken, option_rule};

use clap::error::ErrorKind;
use clap::{Arg, ArgAction, ArgMatches, Command};
use cns_terms::NoMemory;
use cns_units::Day;
use std::alloc::Global;
use std::convert::AsStr;

/// An option with one value.
pub fn option<'a>(alloc: Global, name: &'a str) -> Arg<'a>
    ensures rule { rule_of result ≡ free_rule name.now }
    ensures local { result.global ≡ false }
{
    Arg::new(alloc, name).long(name).action(ArgAction::Set)
}

/// An option with one value that has to be given.
pub fn required_option<'a>(alloc: Global, name: &'a str) -> Arg<'a>
    ensures rule { rule_of result ≡ option_rule name.now }
    ensures local { result.global ≡ false }
{
    option(alloc, name).required(true)
}

/// A command that takes nothing yet, no help and no version.
pub fn bare_command<'a>(alloc: Global, name: &'a str) -> Command<'a>
    ensures { app_of result ≡ bare name.now }
{
    Command::new(alloc, name)
        .disable_help_flag(true)
        .disable_version_flag(true)
        .disable_help_subcommand(true)
}

/// What clap makes of the words; None where it refuses them. `NoMemory` where an allocation failed.
#[tactic(auto, using(crate::proofs::Taken::refused, crate::proofs::Taken::taken))]
pub fn matches_of<'a, S: AsStr>(
    line: Command<'a>,
    words: &'a [S],
) -> Result<Option<ArgMatches<'a>>, NoMemory>
    requires simple { is_simple (app_of line) ≡ true }
    requires free { is_simple_and_free (app_of line) ≡ true }
    ensures options { IfOk result (λ o. option_map (λ m. rows_of (found_of m)) o
        ≡ if_taken (app_of line.entry) (map S.text words.now) (Some (matches_of (app_of line.entry) (map S.text words.now)))) }
    ensures subcommand { IfOk result (λ o. option_and_then subcommand_rows_of o
        ≡ if_taken (app_of line.entry) (map S.text words.now) (subcommand_of (app_of line.entry) (map S.text words.now))) }
{
    match line.try_get_matches_from(words) {
        Ok(matches) => Ok(Some(matches)),
        Err(error) => match error.kind() {
            ErrorKind::OutOfMemory => Err(NoMemory),
            _ => Ok(None),
        },
    }
}

/// The value of an option.
pub fn value<'a>(matches: &ArgMatches<'a>, name: &str) -> Option<&'a str>
    ensures { option_map (λ s. s.now) result ≡ first_of name.now (rows_of (found_of matches.now)) }
{
    matches.get_str(name)
}

/// The date of an option; None where it is none.
pub fn date_of(matches: &ArgMatches<'_>, name: &str) -> Option<Day>
    ensures { result ≡ date_in (rows_of (found_of matches.now)) name.now }
{
    let text = value(matches, name)?;
    Day::parse(text.as_bytes()).ok()
}
