// The line of the program, and what it asks for.
ghost use Rattle.std.specs.Prelude.{◌≡◌, IfOk, IfSome, map, option_map};
ghost use Rattle.clap.specs.Words.{app_of, found_of, rows_of};
ghost use Rattle.cns_asked.specs.Asks.{about_read, asked_in, closed_date, dated_line, day_read, folder_in, found_by, page_line, question};

use clap::{ArgMatches, Command};
use cns_feed::account_of;
use cns_shell::{bare_command, date_of, matches_of, option, required_option, value};
use cns_terms::{Key, NoMemory};
use cns_units::{Account, Cusip, Day};
use std::alloc::{AllocError, Global};
use std::convert::AsStr;

/// What a line asks for.
#[derive(Clone, Copy)]
pub struct Asked {
    /// The date on which the book opens.
    pub opening: Day,
    pub day: When,
    pub about: About,
}

/// Which day a page is of.
#[derive(Clone, Copy)]
pub enum When {
    /// The last closed day.
    Last,
    /// The closed day with the date.
    Closed(Day),
    /// The day that is open, so far; of a history all records.
    Today,
}

/// What a page is about.
#[derive(Clone, Copy)]
pub enum About {
    /// All accounts: the page of a day.
    All,
    /// An account: what a closed day did to it.
    Account(Account),
    /// An account's place in an issue: its history.
    Place(Key),
    /// All accounts and each of them: the pages of a day, as files of a folder.
    Folder,
}

/// The date of the closed day that is asked for, if one is given.
pub fn closed_date(when: When) -> Option<Day>
    ensures { result ≡ closed_date when }
{
    match when {
        When::Closed(day) => Some(day),
        _ => None,
    }
}

// The options for the book and for the day, with no help or version.
#[tactic(auto, unfolding(crate::specs::Asks::dated_line))]
fn dated_line<'a>(alloc: Global) -> Result<Command<'a>, AllocError>
    ensures { IfOk result (λ c. app_of c ≡ dated_line) }
{
    bare_command(alloc, "cnspage")
        .arg(required_option(alloc, "open"))?
        .arg(option(alloc, "day"))
}

// The lines that are taken.
#[tactic(auto, unfolding(crate::specs::Asks::page_line))]
fn command_line<'a>(alloc: Global) -> Result<Command<'a>, AllocError>
    ensures { IfOk result (λ c. app_of c ≡ page_line) }
{
    dated_line(alloc)?
        .arg(option(alloc, "account"))?
        .arg(option(alloc, "issue"))?
        .arg(option(alloc, "folder"))
}

// What clap makes of the words; None where it refuses them.
#[tactic(auto, using(crate::proofs::CommandLine::line_is_free, crate::proofs::CommandLine::line_is_simple))]
fn matches_in<'a, S: AsStr>(
    alloc: Global,
    words: &'a [S],
) -> Result<Option<ArgMatches<'a>>, NoMemory>
    ensures { IfOk result (λ o. option_map (λ m. rows_of (found_of m)) o ≡ found_by (map S.text words.now)) }
{
    matches_of(command_line(alloc)?, words)
}

// The day that is asked for; None where it is neither `today` nor a date. A history goes through the open day, where none is given.
fn day_of(text: Option<&str>, is_history: bool) -> Option<When>
    ensures { result ≡ day_read is_history (option_map (λ s. s.now) text.entry) }
{
    let Some(text) = text else {
        return Some(if is_history { When::Today } else { When::Last });
    };
    if text == "today" {
        return Some(When::Today);
    }
    let day = Day::parse(text.as_bytes()).ok()?;
    Some(When::Closed(day))
}

// What the page is about; None where the account or the issue is none, an issue is there without an account, or a folder with one.
fn about_of(account: Option<&str>, issue: Option<&str>, folder: Option<&str>) -> Option<About>
    ensures { result ≡ about_read (option_map (λ s. s.now) account.entry) (option_map (λ s. s.now) issue.entry) (option_map (λ s. s.now) folder.entry) }
{
    match (account, issue, folder) {
        (None, None, None) => Some(About::All),
        (Some(account), None, None) => Some(About::Account(account_of(account.as_bytes()).ok()?)),
        (Some(account), Some(issue), None) => {
            let account = account_of(account.as_bytes()).ok()?;
            let issue = Cusip::parse(issue.as_bytes()).ok()?;
            Some(About::Place(Key { account, issue }))
        }
        (None, None, Some(_)) => Some(About::Folder),
        _ => None,
    }
}

// What the options ask for; None where a date is none.
fn asked_in(matches: &ArgMatches<'_>) -> Option<Asked>
    ensures { result ≡ asked_in (rows_of (found_of matches.now)) }
{
    let opening = date_of(matches, "open")?;
    let issue = value(matches, "issue");
    let day = day_of(value(matches, "day"), issue.is_some())?;
    let about = about_of(value(matches, "account"), issue, value(matches, "folder"))?;
    Some(Asked {
        opening,
        day,
        about,
    })
}

/// What the words of a line ask for, the name of the program first, and the name of the folder, which is empty where none is asked
/// for; None where the line or a date is refused. `NoMemory` where an allocation failed.
pub fn asked_of<'a, S: AsStr>(
    alloc: Global,
    words: &'a [S],
) -> Result<Option<(Asked, &'a str)>, NoMemory>
    ensures asked { IfOk result (λ r. option_map (λ p. p.0) r ≡ question (map S.text words.now)) }
    ensures folder { IfOk result (λ r. IfSome r (λ p. p.1.now ≡ folder_in (map S.text words.now))) }
{
    let Some(matches) = matches_in(alloc, words)? else {
        return Ok(None);
    };
    let folder = value(&matches, "folder").unwrap_or("");
    let Some(asked) = asked_in(&matches) else {
        return Ok(None);
    };
    // The day is named, since the compiler has to be told of its type.
    let _day = asked.day;
    Ok(Some((asked, folder)))
}
