// The line of the program, and what it asks for.
ghost use Rattle.std.specs.Prelude.{◌≡◌, ◌≤◌, IfOk, IfSome, false, map, option_and_then, option_map, vec_len};
ghost use Rattle.cns_terms.specs.Common.{all_ascii_digits};
ghost use Rattle.clap.specs.Words.{all_of, app_of, found_of, rows_of, subcommand_rows_of};
ghost use Rattle.cns_program.specs.Asks.{Asks, HasWorkers, files_in, question_in, question_of, replay_in, run_in, statements_in, workers_in, workers_read};
ghost use Rattle.cns_program.specs.CommandLine.{found_by, opening_command, program_line, run_command, statements_command};

use clap::{Arg, ArgAction, ArgMatches, Command};
use cns_shell::{bare_command, date_of, matches_of, required_option, value};
use cns_terms::NoMemory;
use cns_units::Day;
use std::alloc::{AllocError, Global};
use std::convert::AsStr;

/// What a line asks for.
#[derive(Drop)]
pub enum Asked<'a> {
    /// A replay of standard input by a book that opens on the date.
    Replay(Day),
    /// A run over a book that opens on the date, of one worker for each file. There are 1 to 64 files.
    Run(Day, Vec<&'a str>),
    /// The statements of a closed day, after a load of standard input by a book that opens on the first date. The
    /// second is the day's. There are 1 to 64 workers.
    Statements(Day, Day, usize),
}

// A subcommand with a required `--open`.
fn subcommand<'a>(alloc: Global, name: &'a str) -> Result<Command<'a>, AllocError>
    ensures { IfOk result (λ c. app_of c ≡ opening_command name.now) }
{
    bare_command(alloc, name).arg(required_option(alloc, "open"))
}

// The subcommand `run`, with one file or more.
fn run_command<'a>(alloc: Global) -> Result<Command<'a>, AllocError>
    ensures { IfOk result (λ c. app_of c ≡ run_command) }
{
    let files = Arg::new(alloc, "files")
        .required(true)
        .action(ArgAction::Append)
        .num_args(1..);
    subcommand(alloc, "run")?.arg(files)
}

// The subcommand `statements`.
fn statements_command<'a>(alloc: Global) -> Result<Command<'a>, AllocError>
    ensures { IfOk result (λ c. app_of c ≡ statements_command) }
{
    subcommand(alloc, "statements")?
        .arg(required_option(alloc, "day"))?
        .arg(required_option(alloc, "workers"))
}

// The lines that are taken: a subcommand with its options, and no help or version.
fn command_line<'a>(alloc: Global) -> Result<Command<'a>, AllocError>
    ensures { IfOk result (λ c. app_of c ≡ program_line) }
{
    bare_command(alloc, "cnsbook")
        .subcommand_required(true)
        .subcommand(subcommand(alloc, "replay")?)?
        .subcommand(run_command(alloc)?)?
        .subcommand(statements_command(alloc)?)
}

// What clap makes of the words; None where it refuses them.
fn matches_in<'a, S: AsStr>(
    alloc: Global,
    words: &'a [S],
) -> Result<Option<ArgMatches<'a>>, NoMemory>
    ensures { IfOk result (λ o. option_and_then subcommand_rows_of o ≡ found_by (map S.text words.now)) }
{
    matches_of(command_line(alloc)?, words)
}

// The subcommand that was used, and what was found for it.
#[tactic(auto, using(crate::proofs::CommandLine::paired))]
fn entered<'m, 'a>(matches: &'m ArgMatches<'a>) -> Option<(&'a str, &'m ArgMatches<'a>)>
    ensures { option_map (λ p. (p.0.now, rows_of (found_of p.1.now))) result ≡ subcommand_rows_of matches.now }
{
    matches.subcommand()
}

// Whether all bytes are digits.
fn are_digits(bytes: &[u8]) -> bool
    ensures { result ≡ all_ascii_digits bytes.now }
{
    for byte in bytes {
        if !byte.is_ascii_digit() {
            return false;
        }
    }
    true
}

// A number of workers in digits, with leading zeros too, and no sign; None where they are not 1 to 64.
fn workers_read(text: &str) -> Option<usize>
    ensures value { result ≡ workers_read text.now }
    ensures range { IfSome result (λ n. (1 ≤ n) × (n ≤ 64)) }
{
    if !are_digits(text.as_bytes()) {
        return None;
    }
    let Ok(workers) = text.parse::<usize>() else {
        return None;
    };
    if workers < 1 || workers > 64 {
        return None;
    }
    Some(workers)
}

// How many workers are asked for.
fn workers_of(matches: &ArgMatches<'_>) -> Option<usize>
    ensures value { result ≡ workers_in (rows_of (found_of matches.now)) }
    ensures range { IfSome result (λ n. (1 ≤ n) × (n ≤ 64)) }
{
    workers_read(value(matches, "workers")?)
}

// The values of words that are no options.
fn values<'m, 'a>(matches: &'m ArgMatches<'a>, name: &str) -> Option<&'m [&'a str]>
    ensures { option_map (λ s. map (λ v. v.now) s.now) result ≡ all_of name.now (rows_of (found_of matches.now)) }
{
    matches.get_strs(name)
}

// The names of the files, where there are 1 to 64.
fn files_of<'a>(alloc: Global, matches: &ArgMatches<'a>) -> Result<Option<Vec<&'a str>>, NoMemory>
    ensures names { IfOk result
        (λ r. option_map (λ v. map (λ f. f.now) v.items) r ≡ files_in (rows_of (found_of matches.now))) }
    ensures range { IfOk result (λ r. IfSome r (λ v. (1 ≤ vec_len v) × (vec_len v ≤ 64))) }
{
    let Some(files) = values(matches, "files") else {
        return Ok(None);
    };
    if files.is_empty() || files.len() > 64 {
        return Ok(None);
    }
    let mut copy = Vec::new(alloc);
    copy.extend_from_slice(files)?;
    Ok(Some(copy))
}

fn replay_of<'a>(matches: &ArgMatches<'_>) -> Option<Asked<'a>>
    ensures question { option_map question_of result ≡ replay_in (rows_of (found_of matches.now)) }
    ensures workers { IfSome result HasWorkers }
{
    let opening = date_of(matches, "open")?;
    Some(Asked::Replay(opening))
}

fn run_of<'a>(alloc: Global, matches: &ArgMatches<'a>) -> Result<Option<Asked<'a>>, NoMemory>
    ensures question { IfOk result (λ r. option_map question_of r ≡ run_in (rows_of (found_of matches.now))) }
    ensures workers { IfOk result (λ r. IfSome r HasWorkers) }
{
    let Some(opening) = date_of(matches, "open") else {
        return Ok(None);
    };
    let Some(files) = files_of(alloc, matches)? else {
        return Ok(None);
    };
    Ok(Some(Asked::Run(opening, files)))
}

fn statements_of<'a>(matches: &ArgMatches<'_>) -> Option<Asked<'a>>
    ensures question { option_map question_of result ≡ statements_in (rows_of (found_of matches.now)) }
    ensures workers { IfSome result HasWorkers }
{
    let opening = date_of(matches, "open")?;
    let day = date_of(matches, "day")?;
    let workers = workers_of(matches)?;
    Some(Asked::Statements(opening, day, workers))
}

// What a subcommand asks for, by what was found for its arguments.
fn asked_in<'a>(
    alloc: Global,
    name: &str,
    matches: &ArgMatches<'a>,
) -> Result<Option<Asked<'a>>, NoMemory>
    ensures question { IfOk result
        (λ r. option_map question_of r ≡ question_in (name.now, rows_of (found_of matches.now))) }
    ensures workers { IfOk result (λ r. IfSome r HasWorkers) }
{
    if name == "replay" {
        Ok(replay_of(matches))
    } else if name == "run" {
        run_of(alloc, matches)
    } else if name == "statements" {
        Ok(statements_of(matches))
    } else {
        Ok(None)
    }
}

/// What the words of a line ask for, the name of the program first; None where the line, a date or a number is refused.
/// `NoMemory` where an allocation failed.
pub fn asked_of<'a, S: AsStr>(alloc: Global, words: &'a [S]) -> Result<Option<Asked<'a>>, NoMemory>
    ensures asks { IfOk result (λ r. Asks (map S.text words.now) r) }
    ensures workers { IfOk result (λ r. IfSome r HasWorkers) }
{
    let Some(matches) = matches_in(alloc, words)? else {
        return Ok(None);
    };
    match entered(&matches) {
        Some((name, matches)) => asked_in(alloc, name, matches),
        None => Ok(None),
    }
}
