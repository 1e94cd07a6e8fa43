// The page that is asked for, of the records of an input.
ghost use Rattle.std.specs.Prelude.{◌≡◌, IfOk, OnOk};
ghost use Rattle.std.specs.Io.KnownBytes.{Appends};
ghost use Rattle.cns_page.specs.Asked.{HasKept, HasPage, IsClosedPage, IsDayOf, IsPage, IsWholePage};

use crate::account::own_page;
use crate::closed::{ClosedDay, closed_day, is_folder};
use crate::files::Keeps;
use crate::folder::keep_day;
use crate::history::{check_place, history_page};
use crate::page::day_page;
use crate::source::{Source, source_of};
use crate::today::today_page;
use cns_asked::{About, Asked, When, closed_date};
use cns_exceptions::Input;
use cns_shell::Fault;
use cns_terms::Key;
use cns_units::{Account, write_bytes};
use std::alloc::Global;
use std::io::Write;

// Checks that an account is a member's or the corporation's, so far as the listed issues tell.
fn check_account(day: &ClosedDay<'_>, account: Account) -> Result<(), Fault> {
    match day.sheet.next_price(None) {
        Some((issue, _)) => check_place(&day.source.played.book, &Key { account, issue }),
        None => Ok(()),
    }
}

// The page of a closed day, of all accounts or of one.
fn page_of_day(
    alloc: Global,
    account: Option<Account>,
    day: &ClosedDay<'_>,
) -> Result<Vec<u8>, Fault>
    ensures { IfOk result (λ v. IsDayOf account day.now v.items) }
{
    match account {
        Some(account) => {
            check_account(day, account)?;
            Ok(own_page(alloc, account, day)?)
        }
        None => Ok(day_page(alloc, day, &[])?),
    }
}

// The same of the closed day that is asked for.
fn closed_page(
    alloc: Global,
    asked: &Asked,
    account: Option<Account>,
    source: &Source,
) -> Result<Vec<u8>, Fault>
    ensures { IfOk result (λ v. IsClosedPage account asked.now source.now v.items) }
{
    let day = closed_day(alloc, asked, source)?;
    page_of_day(alloc, account, &day)
}

// The page of a day, of all accounts.
fn whole_page(alloc: Global, asked: &Asked, source: &Source) -> Result<Vec<u8>, Fault>
    ensures { IfOk result (λ v. IsWholePage asked.now.day asked.now source.now v.items) }
{
    match asked.day {
        When::Today => Ok(today_page(alloc, source)?),
        _ => closed_page(alloc, asked, None, source),
    }
}

// The page that is asked for, of its records; that of all accounts, where it is for a folder.
fn page_of(alloc: Global, asked: &Asked, source: &Source) -> Result<Vec<u8>, Fault>
    ensures { IfOk result (λ v. IsPage asked.now.about asked.now source.now v.items) }
{
    match asked.about {
        About::Place(key) => {
            check_place(&source.played.book, &key)?;
            Ok(history_page(alloc, &key, closed_date(asked.day), source)?)
        }
        About::Account(account) => closed_page(alloc, asked, Some(account), source),
        _ => whole_page(alloc, asked, source),
    }
}

// Writes a page, and flushes it.
fn write_page<O: Write>(page: &[u8], output: &mut O) -> Result<(), Fault>
    ensures { OnOk result (Appends (O.contents output.old) (O.contents output.new) page.now) }
{
    write_bytes(page, output)?;
    match output.flush() {
        Ok(()) => Ok(()),
        Err(_) => Err(Fault::Write),
    }
}

/// Writes the page that is asked for, of the records of an input, and flushes it; or hands the pages for a folder to its keeper. A page is
/// made whole before any of it is written.
///
/// `NoMemory` where an allocation failed, `Read` where there are 4,294,967,295 records or more, or a file of the folder
/// cannot be read, `NoSuchDay` where no closed day has the date, or no day is closed,
/// or what the open day did to an account or its pages for a folder are asked for, `NoSuchMember` and `NoSuchIssue` where the account
/// or the issue that is asked for is not there, `OtherPage` where the folder has another page, and `Write` where the writer fails or a
/// file cannot be written. What was written before stands, and each file is whole.
pub(crate) fn make<K: Keeps, O: Write>(
    alloc: Global,
    asked: &Asked,
    input: Input,
    keeper: &mut K,
    output: &mut O,
) -> Result<(), Fault>
    ensures page { OnOk result (HasPage asked.now input (O.contents output.old) (O.contents output.new)) }
    ensures kept { OnOk result (HasKept asked.now input (K.kept keeper.old) (K.kept keeper.new)) }
{
    let source = source_of(alloc, asked, input)?;
    if is_folder(asked.about) {
        let day = closed_day(alloc, asked, &source)?;
        return keep_day(alloc, &day, keeper);
    }
    let page = page_of(alloc, asked, &source)?;
    write_page(page.as_slice(), output)
}
