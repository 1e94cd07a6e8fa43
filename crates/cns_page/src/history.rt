// The page of the history of a position: a head, the table of its lines, and a foot.
ghost use Rattle.std.specs.Prelude.{◌≡◌, ◌++◌, IfOk, OnOk};
ghost use Rattle.cns_book.specs.Log.{state_of};
ghost use Rattle.cns_page.specs.History.{IsCaptioned, IsHistoryPage, head_text, position_at};

use crate::foot::write_foot;
use crate::source::Source;
use cns_asked::About;
use cns_feed::ReplayBook;
use cns_shell::Fault;
use cns_tables::{Page, Piece, START, Table, page_style, write_form};
use cns_terms::{Key, NoMemory};
use cns_units::Day;
use std::alloc::{AllocError, Global};

const TITLE: &str = "What booked here";

const CAPTION: &str =
    "Each accepted record that changed the position or its money, each close whose sheet has a row here, and \
below it what it booked of trades that were due. Positions are in shares: above 0 the account is owed shares, below 0 it owes \
them. Amounts are in dollars: above 0 the account is owed, below 0 it owes. Money since the close is what was booked since the \
close before; at a close it is the day&#39;s settling money";

const NONE: &str = "Nothing was booked here, and no sheet has a row.";

const COLUMNS: [&str; 12] = [
    "Record",
    "Date",
    "What",
    "Shares",
    "Money",
    "Position",
    "Money since the close",
    "Current market price",
    "Market value",
    "Mark",
    "Closes short",
    "Dividend",
];

const HISTORY: Table = Table {
    id: "history",
    title: TITLE,
    caption: CAPTION,
    none: NONE,
    columns: &COLUMNS,
};

fn history_table() -> Table
    ensures { IsCaptioned result }
{
    HISTORY
}

// The head: start, account, issue, style, account, issue, the date on which the book opened, the last record and the position.
const HEAD: &str = "_History of account _ in _</title>
_<style>
[aria-labelledby=history] td:nth-child(3) { text-align: left; }
[aria-labelledby=history] .close > * { background: var(--sum); font-weight: 600; }
</style>
<a class=skip href=#main>Skip to the history</a>
<header>
<h1>History of account _ in _</h1>
<p>A book that opened on _, from its first record to record _. The position after it: _ (shares).</p>
</header>
<main id=main>
";

#[tactic(auto, unfolding(crate::specs::History::head_text))]
fn write_head(
    key: &Key,
    source: &Source,
    position: Option<i64>,
    out: &mut Vec<u8>,
) -> Result<(), AllocError>
    ensures { OnOk result (out.new.items ≡ out.old.items ++ head_text key.now source.now position) }
{
    let account = u64::from(key.account.value());
    let pieces = [
        Piece::Markup(START),
        Piece::Number(account),
        Piece::Issue(key.issue),
        Piece::Markup(page_style()),
        Piece::Number(account),
        Piece::Issue(key.issue),
        Piece::Date(source.opening),
        Piece::Number(source.played.survey.records),
        Piece::Position(position),
    ];
    write_form(HEAD, &pieces, out)
}

/// Checks that there is a place: `NoSuchIssue` where the issue is not listed in a book, and `NoSuchMember` where the account is neither 0
/// nor a member's.
pub(crate) fn check_place(book: &ReplayBook, key: &Key) -> Result<(), Fault> {
    if book.price(key.issue).is_none() {
        return Err(Fault::NoSuchIssue);
    }
    match book.position(key.account, key.issue) {
        Some(_) => Ok(()),
        None => Err(Fault::NoSuchMember),
    }
}

// The position at a place; None where a POSITION would be refused.
fn position_at(book: &ReplayBook, key: &Key) -> Option<i64>
    ensures { result ≡ position_at (state_of book.now.log) key.now }
{
    let holding = book.position(key.account, key.issue)?;
    Some(holding.now)
}

/// The history of a place as a page, by the lines that were watched there: up to the close of a day, or of all records.
pub(crate) fn history_page(
    alloc: Global,
    key: &Key,
    day: Option<Day>,
    source: &Source,
) -> Result<Vec<u8>, NoMemory>
    ensures { IfOk result (λ v. IsHistoryPage key.now day source.now v.items) }
{
    let position = position_at(&source.played.book, key);
    let mut page = Page::new(alloc);
    write_head(key, source, position, &mut page.text)?;
    page.table(&history_table(), source.played.lines.as_slice())?;
    let rows = page.rows;
    write_foot(source, day, About::Place(*key), rows, &mut page.text)?;
    Ok(page.text)
}
