// Statements cut from sheets.
ghost use Rattle.std.specs.Prelude.{◌≡◌, ◌<◌, IfOk, length, OnErr};
ghost use Rattle.cns_terms.specs.Sums.{total};
ghost use Rattle.cns_terms.specs.Sheets.{rows_for};

use crate::contents::Statement;
use crate::rows::Rows;
use cns_sheets::Sheet;
use cns_terms::NoMemory;
use cns_units::Account;
use std::alloc::Allocator;

/// The statement of an account on a closed day. An account without rows gets one without rows, and sums of no cents.
///
/// `NoMemory` where the allocation for the copy failed; a statement without rows takes no memory.
pub fn statement<A: Allocator + Drop + Clone>(
    alloc: A,
    sheet: &Sheet<A>,
    account: Account,
) -> Result<Statement<A>, NoMemory>
    ensures account { IfOk result (λ s. s.account ≡ account) }
    ensures date { IfOk result (λ s. s.date ≡ sheet.now.date) }
    ensures rows { IfOk result (λ s. s.rows ≡ rows_for sheet.now.rows account) }
    ensures mark { IfOk result (λ s. s.mark ≡ total (λ r. r.mark) (rows_for sheet.now.rows account)) }
    ensures dividend { IfOk result (λ s. s.dividend ≡ total (λ r. r.dividend) (rows_for sheet.now.rows account)) }
    ensures err { OnErr result (0 < length (rows_for sheet.now.rows account)) }
{
    let stated = sheet.stated(account);
    let rows = Rows::copied(alloc, stated.rows, sheet.rows_of(account))?;
    Ok(Statement {
        account,
        date: stated.date,
        rows,
        mark: stated.mark,
        dividend: stated.dividend,
    })
}
