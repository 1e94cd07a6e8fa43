// The page of the day that is open: its exceptions so far, and how many records there are.
ghost use Rattle.std.specs.Prelude.{◌≡◌, ◌++◌, IfOk, OnOk};
ghost use Rattle.cns_page.specs.Today.{IsTodayPage, head_text};

use crate::captions::day_captions;
use crate::foot::write_foot;
use crate::page::{write_exceptions, write_totals};
use crate::source::Source;
use cns_asked::About;
use cns_exceptions::Played;
use cns_tables::{Page, Piece, START, page_style, write_form};
use cns_terms::NoMemory;
use std::alloc::{AllocError, Global};

// The head: start, date, style, date, the day's number, the number of the record before it, how many records, and exceptions.
const HEAD: &str = "_Open day _</title>
_<a class=skip href=#main>Skip to the day</a>
<header>
<h1>Open day _</h1>
<p>Day _ of the book so far. Records after number _: _; exceptions: _.</p>
</header>
<main id=main>
";

// Adds the head.
#[tactic(auto, unfolding(crate::specs::Today::head_text))]
fn write_head(played: &Played, out: &mut Vec<u8>) -> Result<(), AllocError>
    ensures { OnOk result (out.new.items ≡ out.old.items ++ head_text played.now) }
{
    let survey = &played.survey;
    let date = played.book.today();
    let pieces = [
        Piece::Markup(START),
        Piece::Date(date),
        Piece::Markup(page_style()),
        Piece::Date(date),
        Piece::Number(played.book.day()),
        Piece::Number(survey.from),
        Piece::Count(survey.records_of_day()),
        Piece::Count(survey.exceptions_of_day()),
    ];
    write_form(HEAD, &pieces, out)
}

/// The page of the day that is open after all records.
pub(crate) fn today_page(alloc: Global, source: &Source) -> Result<Vec<u8>, NoMemory>
    ensures { IfOk result (λ v. IsTodayPage source.now v.items) }
{
    let captions = &day_captions();
    let survey = &source.played.survey;
    let mut page = Page::new(alloc);
    write_head(&source.played, &mut page.text)?;
    write_exceptions(alloc, captions, survey, &mut page)?;
    write_totals(captions, survey, &mut page)?;
    let rows = page.rows;
    write_foot(source, None, About::All, rows, &mut page.text)?;
    Ok(page.text)
}
