// Rows of a sheet, one after another.
ghost use Rattle.std.specs.Prelude.{◌≡◌, Option, MatchOption};
ghost use Rattle.cns_terms.specs.Sheets.{rows_for};
ghost use Rattle.cns_sheets.specs.Build.{full_rows};
ghost use Rattle.cns_sheets.specs.Walking.{AreFrom, ahead_of};

use crate::columns::Columns;
use cns_terms::Row;
use cns_tree::Walk;
use cns_units::Account;
use std::alloc::Allocator;
use std::marker::Model;

/// An iterator over the rows of a sheet, in the order of keys. Contracts see the rows that it has left.
#[derive(Drop)]
pub struct SheetRows<'a, A: Allocator + Clone> {
    walk: Walk<'a, Columns, A>,
}

impl<'a, A: Allocator + Clone> Model for SheetRows<'a, A> {
    ghost use Rattle.std.specs.Prelude.{List};
    ghost use Rattle.cns_terms.specs.declared.sheet.Row.{Row};
    ghost use Rattle.cns_sheets.specs.Build.{full_rows};

    ghost Value = { List Row };

    ghost view = { λ r. full_rows r.walk };
}

impl<'a, A: Allocator + Clone> SheetRows<'a, A> {
    // The rows that a walk has left.
    pub(crate) fn new(walk: Walk<'a, Columns, A>) -> Self
        ensures { result ≡ full_rows walk.entry }
    {
        SheetRows { walk }
    }
}

impl<'a, A: Allocator + Clone> Iterator for SheetRows<'a, A> {
    ghost use Rattle.std.specs.Iterator.{YieldsFirst, item_count};

    type Item = Row;

    ghost next_gives = { YieldsFirst (λ r. r) };

    ghost remaining = { item_count (λ r. r) };

    fn next(&mut self) -> Option<Row> {
        let (key, columns) = self.walk.next()?;
        Some(columns.row(&key))
    }
}

/// An iterator over the rows of an account on a sheet, in the order of the bytes of their issues. Contracts see the rows
/// that it has left.
#[derive(Drop)]
pub struct AccountRows<'a, A: Allocator + Clone> {
    // The row that comes next, read ahead.
    next: Option<Row>,
    rest: Walk<'a, Columns, A>,
    account: Account,
}

impl<'a, A: Allocator + Clone> Model for AccountRows<'a, A> {
    ghost use Rattle.std.specs.Prelude.{List};
    ghost use Rattle.cns_terms.specs.declared.sheet.Row.{Row};
    ghost use Rattle.cns_sheets.specs.Build.{full_rows};
    ghost use Rattle.cns_sheets.specs.Walking.{AreFrom, ahead_of};

    ghost Value = { List Row };

    ghost view = { λ r. ahead_of r.next (full_rows r.rest) r.account };

    ghost invariant = { λ r. AreFrom r.account (full_rows r.rest) };
}

// The first row of a walk, if it is of the account, whose rows come first in it.
fn next_of<A: Allocator + Clone>(rest: &mut Walk<'_, Columns, A>, account: Account) -> Option<Row>
    requires { AreFrom account (full_rows rest.old) }
    ensures from { AreFrom account (full_rows rest.new) }
    ensures next { rows_for (full_rows rest.old) account ≡ ahead_of result (full_rows rest.new) account }
{
    let (key, columns) = rest.next()?;
    if key.account == account {
        Some(columns.row(&key))
    } else {
        None
    }
}

impl<'a, A: Allocator + Clone> AccountRows<'a, A> {
    // The next row, with those of the account that a walk has left.
    pub(crate) fn new(next: Option<Row>, rest: Walk<'a, Columns, A>, account: Account) -> Self
        requires { AreFrom account (full_rows rest) }
        ensures { result ≡ ahead_of next (full_rows rest.entry) account }
    {
        AccountRows {
            next,
            rest,
            account,
        }
    }
}

impl<'a, A: Allocator + Clone> Iterator for AccountRows<'a, A> {
    ghost use Rattle.std.specs.Iterator.{YieldsFirst, item_count};

    type Item = Row;

    ghost next_gives = { YieldsFirst (λ r. r) };

    ghost remaining = { item_count (λ r. r) };

    fn next(&mut self) -> Option<Row> {
        let row = self.next?;
        self.next = next_of(&mut self.rest, self.account);
        Some(row)
    }
}
