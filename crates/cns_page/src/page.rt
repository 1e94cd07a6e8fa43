// The page of a closed day: a head, tables in a fixed order, and a foot.
ghost use Rattle.std.specs.Prelude.{◌≡◌, ◌++◌, IfOk, OnOk};
ghost use Rattle.std.specs.List.{flat_map};
ghost use Rattle.cns_page.specs.Page.{IsDayPage, IsHeaded, ShowsComing, ShowsExceptions, ShowsPositions, ShowsTotals, before_text, head_text, last_closes, link_text, links_text};

use crate::captions::{Captions, day_captions};
use crate::closed::{ClosedDay, date_before};
use crate::foot::write_foot;
use cns_asked::About;
use cns_day::{all_due, issue_sums, line_of_days, lines_of};
use cns_exceptions::{Close, Survey, counts_of, spans_of};
use cns_tables::{Page, Piece, START, page_style, write_form, write_markup};
use cns_terms::NoMemory;
use cns_units::{Account, Day};
use std::alloc::{AllocError, Global};

// The head up to the links within the page: start, date, style, date, the day's number, its first record and its last one, how many
// exceptions, and the date of the next day.
const HEAD: &str = "_Closed day _</title>
_<a class=skip href=#main>Skip to the day</a>
<header>
<h1>Closed day _</h1>
<p>Day _ of the book, as its close left it: records _ to _; exceptions: _. The next day is _.</p>
<nav aria-label=Contents><ul>
<li><a href=#exceptions>Exceptions</a>
<li><a href=#accounts>CNS Accounting Summary</a>
<li><a href=#issues>Sums by issue</a>
<li><a href=#fails>Fails to deliver</a>
<li><a href=#liable>Buy-in retransmittal</a>
<li><a href=#notices>Notices of intention</a>
<li><a href=#due>Due on the next day</a>
<li><a href=#projection>Projection</a>
<li><a href=#days>Last 60 days</a>
<li><a href=#totals>Control totals</a>
";

// The links to the pages of other days and of the accounts.
const DAY_BEFORE: &str = "<li><a href=_.html>The day before</a>
";

const DAY_AFTER: &str = "<li><a href=_.html>The next day</a>
<li><details><summary>The accounts</summary>
";

const LINKED: &str = "</details>
";

const MAIN: &str = "</ul></nav>
</header>
<main id=main>
";

// A link to the page of an account: its date and account, and the account.
const LINK: &str = "<a href=_-_.html>_</a>\n";

// The most days in the list of days.
const MOST: usize = 60;

// Adds the head, up to the links within the page.
#[tactic(auto, unfolding(crate::specs::Page::head_text))]
fn write_head(day: &ClosedDay<'_>, out: &mut Vec<u8>) -> Result<(), AllocError>
    ensures { OnOk result (out.new.items ≡ out.old.items ++ head_text day.now) }
{
    let date = day.close.date;
    let played = &day.source.played;
    let pieces = [
        Piece::Markup(START),
        Piece::Date(date),
        Piece::Markup(page_style()),
        Piece::Date(date),
        Piece::Number(u64::from(day.close.day)),
        Piece::Number(played.survey.first_of_day()),
        Piece::Number(day.close.number),
        Piece::Count(played.survey.exceptions_of_day()),
        Piece::Date(played.book.today()),
    ];
    write_form(HEAD, &pieces, out)
}

// Adds the link to the page of the day before, if there was one.
fn write_before(before: Option<Day>, out: &mut Vec<u8>) -> Result<(), AllocError>
    ensures { OnOk result (out.new.items ≡ out.old.items ++ before_text before) }
{
    match before {
        Some(date) => write_form(DAY_BEFORE, &[Piece::Date(date)], out),
        None => Ok(()),
    }
}

fn write_link(date: Day, account: Account, out: &mut Vec<u8>) -> Result<(), AllocError>
    ensures { OnOk result (out.new.items ≡ out.old.items ++ link_text date account) }
{
    let number = u64::from(account.value());
    let pieces = [
        Piece::Date(date),
        Piece::Number(number),
        Piece::Number(number),
    ];
    write_form(LINK, &pieces, out)
}

// Adds the links to the pages of accounts.
#[tactic(auto, using(cns_day::proofs::Gathered::gathered))]
fn write_accounts(date: Day, accounts: &[Account], out: &mut Vec<u8>) -> Result<(), AllocError>
    ensures { OnOk result (out.new.items ≡ out.old.items ++ flat_map (link_text date) accounts.now) }
{
    for account in accounts {
        write_link(date, *account, out)?;
    }
    Ok(())
}

// Adds the links to other pages, where the page stands in a folder with them.
#[tactic(auto, using(cns_tables::proofs::Written::after))]
fn write_links(
    day: &ClosedDay<'_>,
    accounts: &[Account],
    out: &mut Vec<u8>,
) -> Result<(), AllocError>
    ensures { OnOk result (out.new.items ≡ out.old.items ++ links_text day.now accounts.now) }
{
    if !day.is_linked {
        return Ok(());
    }
    let next = day.source.played.book.today();
    write_before(date_before(day.source.closes.as_slice()), out)?;
    write_form(DAY_AFTER, &[Piece::Date(next)], out)?;
    write_accounts(day.close.date, accounts, out)?;
    write_markup(LINKED, out)
}

// A page with its head.
fn headed(alloc: Global, day: &ClosedDay<'_>, accounts: &[Account]) -> Result<Page, AllocError>
    ensures { IfOk result (IsHeaded day.now accounts.now) }
{
    let mut page = Page::new(alloc);
    write_head(day, &mut page.text)?;
    write_links(day, accounts, &mut page.text)?;
    write_markup(MAIN, &mut page.text)?;
    Ok(page)
}

/// Adds the exceptions of a day, and how many there are of which kind.
pub(crate) fn write_exceptions(
    alloc: Global,
    captions: &Captions,
    survey: &Survey,
    page: &mut Page,
) -> Result<(), NoMemory>
    ensures { OnOk result (ShowsExceptions captions.now survey.now page.old page.new) }
{
    page.table(&captions.exceptions, survey.findings.as_slice())?;
    let reasons = counts_of(alloc, survey.reasons.as_slice())?;
    page.gathered(&captions.reasons, reasons)?;
    Ok(())
}

// Adds the positions, by account and by issue, and the fails among them.
fn write_positions(
    alloc: Global,
    captions: &Captions,
    day: &ClosedDay<'_>,
    page: &mut Page,
) -> Result<(), NoMemory>
    ensures { OnOk result (ShowsPositions captions.now day.now page.old page.new) }
{
    let lines = lines_of(alloc, &day.sheet, &day.shared.moves)?;
    page.gathered(&captions.accounts, lines)?;
    let issues = issue_sums(alloc, &day.sheet)?;
    page.gathered(&captions.issues, issues)?;
    page.table(&captions.fails, day.shared.shorts.as_slice())?;
    Ok(())
}

// The last 60 of closes.
fn last_closes(closes: &[Close]) -> &[Close]
    ensures { result.now ≡ last_closes closes.now }
{
    &closes[closes.len().saturating_sub(MOST)..]
}

// Adds what is to come of notices and of trades, and the days up to this one.
fn write_coming(
    alloc: Global,
    captions: &Captions,
    day: &ClosedDay<'_>,
    page: &mut Page,
) -> Result<(), NoMemory>
    ensures { OnOk result (ShowsComing captions.now day.now page.old page.new) }
{
    let book = &day.source.played.book;
    let shared = &day.shared;
    page.table(&captions.liable, shared.liable.as_slice())?;
    page.table(&captions.notices, shared.notices.as_slice())?;
    let due = all_due(alloc, book, &shared.later)?;
    page.gathered(&captions.due, due)?;
    page.table(&captions.projection, shared.trades.as_slice())?;
    let days = line_of_days(alloc, book, last_closes(day.source.closes.as_slice()))?;
    page.gathered(&captions.days, days)?;
    Ok(())
}

/// Adds the control totals.
pub(crate) fn write_totals(
    captions: &Captions,
    survey: &Survey,
    page: &mut Page,
) -> Result<(), AllocError>
    ensures { OnOk result (ShowsTotals captions.now survey.now page.old page.new) }
{
    page.table(&captions.totals, &spans_of(survey))
}

/// The page of a closed day, with links to those of the accounts where it is linked.
pub(crate) fn day_page(
    alloc: Global,
    day: &ClosedDay<'_>,
    accounts: &[Account],
) -> Result<Vec<u8>, NoMemory>
    ensures { IfOk result (λ v. IsDayPage day.now accounts.now v.items) }
{
    let captions = &day_captions();
    let source = day.source;
    let survey = &source.played.survey;
    let mut page = headed(alloc, day, accounts)?;
    write_exceptions(alloc, captions, survey, &mut page)?;
    write_positions(alloc, captions, day, &mut page)?;
    write_coming(alloc, captions, day, &mut page)?;
    write_totals(captions, survey, &mut page)?;
    let rows = page.rows;
    write_foot(
        source,
        Some(day.close.date),
        About::All,
        rows,
        &mut page.text,
    )?;
    Ok(page.text)
}
