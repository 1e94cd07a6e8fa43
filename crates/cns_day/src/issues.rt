// The sums by issue over all accounts.
ghost use Rattle.std.specs.Prelude.{◌≡◌, IfOk, OnOk};
ghost use Rattle.std.specs.BTreeMap.{get};
ghost use Rattle.std.specs.Cmp.Lexicographic.{slice_cmp};
ghost use Rattle.std.specs.Ordering.{nat_cmp};
ghost use Rattle.cns_terms.specs.Common.{Cusip};
ghost use Rattle.cns_day.specs.Issues.{AreIssues, AreSums, nothing, with_row, with_row_in};

use cns_account::{wrapped_shares, wrapped_sum};
use cns_sheets::Sheet;
use cns_tables::{Piece, ROW, TableRow, write_line};
use cns_terms::{NoMemory, Row};
use cns_units::{Cents, Cusip};
use std::alloc::{AllocError, Global};
use std::collections::BTreeMap;

/// What the rows in an issue add up to. Each sum is exact where it fits 64 bits, and of cents 128, as it does on each sheet of a
/// book.
#[derive(Clone, Copy)]
pub struct IssueSums {
    pub issue: Cusip,
    /// The closing positions above 0, in shares.
    pub long: i64,
    /// Those below 0, in shares: not above 0.
    pub short: i64,
    /// All of them: 0.
    pub closing: i64,
    pub money: Cents,
    pub mark: Cents,
    pub dividend: Cents,
}

impl IssueSums {
    // Of no rows.
    fn nothing(issue: Cusip) -> IssueSums
        ensures { result ≡ nothing issue }
    {
        IssueSums {
            issue,
            long: 0,
            short: 0,
            closing: 0,
            money: Cents::ZERO,
            mark: Cents::ZERO,
            dividend: Cents::ZERO,
        }
    }

    // With a row more.
    fn with(&self, row: &Row) -> IssueSums
        ensures { result ≡ with_row self.now row.now }
    {
        IssueSums {
            issue: self.issue,
            long: wrapped_shares(self.long, row.closing.max(0)),
            short: wrapped_shares(self.short, row.closing.min(0)),
            closing: wrapped_shares(self.closing, row.closing),
            money: wrapped_sum(self.money, row.money),
            mark: wrapped_sum(self.mark, row.mark),
            dividend: wrapped_sum(self.dividend, row.dividend),
        }
    }
}

/// What the rows in each issue add up to.
#[derive(Drop)]
pub struct SumsByIssue {
    pub(crate) sums: BTreeMap<Cusip, IssueSums>,
}

// Adds a row.
fn add(by_issue: &mut SumsByIssue, row: &Row) -> Result<(), NoMemory>
    ensures { OnOk result ((c : Cusip) → get (slice_cmp nat_cmp) by_issue.new.sums c
        ≡ with_row_in c (get (slice_cmp nat_cmp) by_issue.old.sums c) row.now) }
{
    let none = IssueSums::nothing(row.issue);
    let had = by_issue.sums.get(&row.issue).copied().unwrap_or(none);
    by_issue.sums.insert(row.issue, had.with(row))?;
    Ok(())
}

// What the rows of a sheet add up to in each issue.
fn sums_by_issue(alloc: Global, sheet: &Sheet<Global>) -> Result<SumsByIssue, NoMemory>
    ensures { IfOk result (AreSums sheet.now.rows) }
{
    let mut by_issue = SumsByIssue {
        sums: BTreeMap::new(alloc),
    };
    for row in sheet.rows() {
        add(&mut by_issue, &row)?;
    }
    Ok(by_issue)
}

/// What the rows of a sheet add up to in each issue that has one, in the order of the bytes of the issues.
pub fn issue_sums(alloc: Global, sheet: &Sheet<Global>) -> Result<Vec<IssueSums>, NoMemory>
    ensures { IfOk result (λ v. AreIssues sheet.now.rows v.items) }
{
    let by_issue = sums_by_issue(alloc, sheet)?;
    let lines = by_issue.sums.values().copied().collect(alloc)?;
    Ok(lines)
}

impl TableRow for IssueSums {
    ghost use Rattle.cns_day.specs.Issues.{sums_text};

    ghost text = { sums_text };

    fn write_row(&self, out: &mut Vec<u8>) -> Result<(), AllocError> {
        let cells = [
            Piece::Signed(self.long),
            Piece::Signed(self.short),
            Piece::Signed(self.closing),
            Piece::Amount(self.money),
            Piece::Amount(self.mark),
            Piece::Amount(self.dividend),
        ];
        write_line(ROW, &Piece::Issue(self.issue), &cells, out)
    }
}
