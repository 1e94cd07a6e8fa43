// The page of an account's closed day: a head, tables in a fixed order, and a foot.
ghost use Rattle.std.specs.Prelude.{◌==◌, ◌≡◌, ◌∷◌, [], ◌++◌, IfOk, OnOk, filter, map};
ghost use Rattle.cns_exceptions.specs.Survey.{names};
ghost use Rattle.cns_page.specs.Account.{IsHeaded, IsOwnPage, ShowsRecords, account_rows, head_text, is_party, nav_text, own_fails, shows_coming, shows_marks, shows_shorts};
ghost use Rattle.cns_tables.specs.Tables.{HasMore};

use crate::captions::{LIABLE, NOTICES, PROJECTION};
use crate::closed::ClosedDay;
use crate::foot::write_foot;
use cns_account::{
    AccountRow, BOOKINGS, DIVIDENDS, FAILS, Fail, MARKS, POSITIONS, Totals, dividends_of, fail_of,
    marks_of, rows_of, totals_of,
};
use cns_asked::About;
use cns_day::{Due, Numbered, Owing, projected_all};
use cns_exceptions::{Cited, Finding};
use cns_history::bookings_for;
use cns_tables::{Page, Piece, START, Table, page_style, write_form, write_markup};
use cns_terms::{NoMemory, Stated};
use cns_units::{Account, Day};
use std::alloc::{AllocError, Global};

/// The tables of an account's page.
#[derive(Clone, Copy)]
pub struct OwnCaptions {
    pub positions: Table,
    pub marks: Table,
    pub dividends: Table,
    pub due: Table,
    pub fails: Table,
    pub liable: Table,
    pub notices: Table,
    pub trades: Table,
    pub bookings: Table,
    pub exceptions: Table,
}

const PROJECTED: Table = Table {
    id: "due",
    title: "What is due",
    caption: "Projection (shares): above 0 the account is owed shares, below 0 it owes them. The closing position and what the close \
booked of trades that settle on the next day are what is due then; after all stands what will be, with the trades that are pending",
    none: "Nothing is due.",
    columns: &[
        "Issue",
        "Closing position",
        "Booked by the close",
        "Due on the next day",
        "After all",
    ],
};

const NAMING: Table = Table {
    id: "exceptions",
    title: "Exceptions",
    caption: "Of the first 200 records of the day that were refused, those that name the account, as they were given, with the facts \
that decided",
    none: "None: no refused record of the day names the account.",
    columns: &["Record", "As given", "Why", "Facts"],
};

const OWN: OwnCaptions = OwnCaptions {
    positions: POSITIONS,
    marks: MARKS,
    dividends: DIVIDENDS,
    due: PROJECTED,
    fails: FAILS,
    liable: Table {
        none: "The account is not liable for a notice of this day or of the day before.",
        ..LIABLE
    },
    notices: Table {
        none: "No notice of intention to buy in of the account is live.",
        ..NOTICES
    },
    trades: Table {
        none: "No accepted trade of the account settles after this day.",
        ..PROJECTION
    },
    bookings: BOOKINGS,
    exceptions: NAMING,
};

/// The tables of an account's page. What a caller shows of them need not look at their bytes.
fn own_captions() -> OwnCaptions {
    OWN
}

// The head: start, account, date, style, account, date, the day's number, market value long, short and net, mark, dividends, and the
// next day.
const HEAD: &str = "_Account _ on _</title>
_<a class=skip href=#main>Skip to the account</a>
<header>
<h1>Account _ on <span style=\"white-space: nowrap\">_</span></h1>
<p>Day _, as its close left it. Market value of the positions (dollars): long _, short _, net _. Mark _, dividends _. The next day \
is _.</p>
";

// The end of the head, with a link to the page of the day before it where the page stands in a folder.
const LINKED: &str =
    "<nav aria-label=Pages><ul><li><a href=_.html>All accounts on this day</a></ul></nav>
</header>
<main id=main>
";

const MAIN: &str = "</header>
<main id=main>
";

// Adds the account and the day, what the positions are worth, mark and dividends, and the next day.
#[tactic(auto, unfolding(crate::specs::Account::head_text))]
fn write_head(
    stated: &Stated,
    totals: &Totals,
    day: &ClosedDay<'_>,
    out: &mut Vec<u8>,
) -> Result<(), AllocError>
    ensures { OnOk result (out.new.items ≡ out.old.items ++ head_text stated.now totals.now day.now) }
{
    let number = u64::from(stated.account.value());
    let date = day.close.date;
    let pieces = [
        Piece::Markup(START),
        Piece::Number(number),
        Piece::Date(date),
        Piece::Markup(page_style()),
        Piece::Number(number),
        Piece::Date(date),
        Piece::Number(u64::from(day.close.day)),
        Piece::Amount(totals.long),
        Piece::Amount(totals.short),
        Piece::Amount(totals.net),
        Piece::Amount(stated.mark),
        Piece::Amount(stated.dividend),
        Piece::Date(day.source.played.book.today()),
    ];
    write_form(HEAD, &pieces, out)
}

// Adds the link to the page of the day, where the page stands in a folder with it, and the end of the head.
fn write_nav(is_linked: bool, date: Day, out: &mut Vec<u8>) -> Result<(), AllocError>
    ensures { OnOk result (out.new.items ≡ out.old.items ++ nav_text is_linked date) }
{
    if is_linked {
        write_form(LINKED, &[Piece::Date(date)], out)
    } else {
        write_markup(MAIN, out)
    }
}

// A page with its head, by the account's rows.
fn headed(
    alloc: Global,
    account: Account,
    day: &ClosedDay<'_>,
    rows: &[AccountRow],
) -> Result<Page, AllocError>
    ensures { IfOk result (IsHeaded account day.now rows.now) }
{
    let stated = day.sheet.stated(account);
    let totals = totals_of(rows);
    let mut page = Page::new(alloc);
    write_head(&stated, &totals, day, &mut page.text)?;
    write_nav(day.is_linked, day.close.date, &mut page.text)?;
    Ok(page)
}

// Adds positions, and how their marks come about.
fn write_marks(
    alloc: Global,
    captions: &OwnCaptions,
    rows: &[AccountRow],
    page: &mut Page,
) -> Result<(), NoMemory>
    ensures { OnOk result (HasMore (shows_marks captions.now rows.now) page.old page.new) }
{
    page.table(&captions.positions, rows)?;
    let marks = marks_of(alloc, rows)?;
    page.gathered(&captions.marks, marks)?;
    Ok(())
}

// The account's fails: its shorts among those of all members, each with its first close and what the price did to it since.
fn own_fails(alloc: Global, account: Account, day: &ClosedDay<'_>) -> Result<Vec<Fail>, NoMemory>
    ensures { IfOk result (λ v. v.items ≡ own_fails account day.now) }
{
    let book = &day.source.played.book;
    let past = &day.source.played.survey.past;
    let shorts = day.shared.shorts.as_slice();
    let mut fails = Vec::new(alloc);
    for short in shorts {
        if short.row.account != account {
            continue;
        }
        let fail = fail_of(alloc, book, past, day.close.date, &short.row, short.age)?;
        fails.push(fail)?;
    }
    Ok(fails)
}

// Adds dividends, what is due, and fails.
fn write_shorts(
    alloc: Global,
    captions: &OwnCaptions,
    account: Account,
    day: &ClosedDay<'_>,
    page: &mut Page,
) -> Result<(), NoMemory>
    ensures { OnOk result (HasMore (shows_shorts captions.now account day.now) page.old page.new) }
{
    let book = &day.source.played.book;
    let past = &day.source.played.survey.past;
    let dividends = dividends_of(alloc, book, past, &day.sheet, account)?;
    page.gathered(&captions.dividends, dividends)?;
    let due = projected_all(alloc, book, &day.sheet, account, &day.shared.later)?;
    page.gathered(&captions.due, due)?;
    let fails = own_fails(alloc, account, day)?;
    page.gathered(&captions.fails, fails)?;
    Ok(())
}

// Whether a trade is the account's.
fn is_party(account: Account, due: &Due) -> bool
    ensures { result ≡ is_party account due.now }
{
    due.trade.buyer.account() == account || due.trade.seller.account() == account
}

fn own_liable(alloc: Global, account: Account, all: &[Owing]) -> Result<Vec<Owing>, NoMemory>
    ensures { IfOk result (λ v. v.items ≡ filter (λ o. o.liable.member == account) all.now) }
{
    let own = all
        .iter()
        .copied()
        .filter(|owing| owing.liable.member.account() == account)
        .collect(alloc)?;
    Ok(own)
}

fn own_notices(alloc: Global, account: Account, all: &[Numbered]) -> Result<Vec<Numbered>, NoMemory>
    ensures { IfOk result (λ v. v.items ≡ filter (λ n. n.notice.member == account) all.now) }
{
    let own = all
        .iter()
        .copied()
        .filter(|live| live.notice.member.account() == account)
        .collect(alloc)?;
    Ok(own)
}

fn own_trades(alloc: Global, account: Account, all: &[Due]) -> Result<Vec<Due>, NoMemory>
    ensures { IfOk result (λ v. v.items ≡ filter (is_party account) all.now) }
{
    let own = all
        .iter()
        .copied()
        .filter(|due| is_party(account, due))
        .collect(alloc)?;
    Ok(own)
}

// Adds what is to come of notices and of trades.
fn write_coming(
    alloc: Global,
    captions: &OwnCaptions,
    account: Account,
    day: &ClosedDay<'_>,
    page: &mut Page,
) -> Result<(), NoMemory>
    ensures { OnOk result (HasMore (shows_coming captions.now account day.now) page.old page.new) }
{
    let shared = &day.shared;
    let liable = own_liable(alloc, account, shared.liable.as_slice())?;
    page.gathered(&captions.liable, liable)?;
    let notices = own_notices(alloc, account, shared.notices.as_slice())?;
    page.gathered(&captions.notices, notices)?;
    let trades = own_trades(alloc, account, shared.trades.as_slice())?;
    page.gathered(&captions.trades, trades)?;
    Ok(())
}

// The refused records that name it.
fn own_exceptions<'a>(
    alloc: Global,
    account: Account,
    findings: &'a [Finding],
) -> Result<Vec<Cited<'a>>, NoMemory>
    ensures { IfOk result (λ v. map (λ c. c.finding.now) v.items ≡ filter (names account) findings.now) }
{
    let mut own = Vec::new(alloc);
    for finding in findings {
        if finding.names(account) {
            own.push(Cited { finding })?;
        }
    }
    Ok(own)
}

// Adds what the day's records booked, and those that were refused.
fn write_records(
    alloc: Global,
    captions: &OwnCaptions,
    account: Account,
    day: &ClosedDay<'_>,
    page: &mut Page,
) -> Result<(), NoMemory>
    ensures { OnOk result (ShowsRecords captions.now account day.now page.old page.new) }
{
    let played = &day.source.played;
    let bookings = bookings_for(alloc, account, played.lines.as_slice())?;
    page.gathered(&captions.bookings, bookings)?;
    let exceptions = own_exceptions(alloc, account, played.survey.findings.as_slice())?;
    page.gathered(&captions.exceptions, exceptions)?;
    Ok(())
}

/// The page of what a closed day did to an account, by what was watched for it on the day.
pub(crate) fn own_page(
    alloc: Global,
    account: Account,
    day: &ClosedDay<'_>,
) -> Result<Vec<u8>, NoMemory>
    ensures { IfOk result (λ v. IsOwnPage day.now account v.items) }
{
    let captions = &own_captions();
    let source = day.source;
    let rows = rows_of(
        alloc,
        &source.played.book,
        &day.sheet,
        account,
        &day.shared.moves,
    )?;
    let rows = rows.as_slice();
    let mut page = headed(alloc, account, day, rows)?;
    write_marks(alloc, captions, rows, &mut page)?;
    write_shorts(alloc, captions, account, day, &mut page)?;
    write_coming(alloc, captions, account, day, &mut page)?;
    write_records(alloc, captions, account, day, &mut page)?;
    let count = page.rows;
    let about = About::Account(account);
    write_foot(source, Some(day.close.date), about, count, &mut page.text)?;
    Ok(page.text)
}
