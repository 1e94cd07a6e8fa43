// The rows of a sheet in one issue.
ghost use Rattle.std.specs.Prelude.{◌≡◌, ◌∷◌, [], MatchOption, Some};
ghost use Rattle.cns_sheets.specs.InIssue.{AreAccounts, IsPlaceIn, entries_from, place_after, rows_from};

use crate::columns::Columns;
use cns_terms::{Key, Row};
use cns_tree::Tree;
use cns_units::{Account, Cusip};
use std::alloc::Allocator;
use std::marker::Model;

/// An iterator over the rows of a sheet in an issue, in the order of accounts. Contracts see the rows that it has left.
///
/// It goes down the tree once or twice for each account, to the account's place in the issue, and so passes over the
/// rows in other issues.
#[derive(Drop)]
pub struct IssueRows<'a, A: Allocator + Clone> {
    rows: &'a Tree<Columns, A>,
    issue: Cusip,
    // Where the next row is looked for; None where no account is left.
    from: Option<Key>,
}

impl<'a, A: Allocator + Clone> Model for IssueRows<'a, A> {
    ghost use Rattle.std.specs.Prelude.{List};
    ghost use Rattle.cns_terms.specs.declared.sheet.Row.{Row};
    ghost use Rattle.cns_sheets.specs.InIssue.{AreAccounts, IsPlaceIn, rows_from};

    ghost Value = { List Row };

    ghost view = { λ r. rows_from r.rows.now r.issue r.from };

    ghost invariant = { λ r. AreAccounts r.rows.now × IsPlaceIn r.issue r.from };
}

impl<'a, A: Allocator + Clone> IssueRows<'a, A> {
    // All rows of a sheet in an issue.
    pub(crate) fn new(rows: &'a Tree<Columns, A>, issue: Cusip) -> Self
        requires { AreAccounts rows.now }
        ensures { result ≡ rows_from rows.now issue (Some (record { account = 0; issue = issue })) }
    {
        let issue = &issue;
        let first = Key {
            account: Account::CORPORATION,
            issue: *issue,
        };
        IssueRows {
            rows,
            issue: *issue,
            from: Some(first),
        }
    }
}

// The lowest key of an issue above another key; None where no account is left.
fn place_after(key: &Key, issue: &Cusip) -> Option<Key>
    ensures { result ≡ place_after key.now issue.now }
{
    if key.issue.cmp(issue).is_lt() {
        return Some(Key {
            account: key.account,
            issue: *issue,
        });
    }
    let account = Account::new(key.account.value() + 1).ok()?;
    Some(Key {
        account,
        issue: *issue,
    })
}

// The first key in an issue that is another or above it, with the columns there.
#[tactic(auto, using(crate::proofs::InIssue::none_left))]
fn first_in<A: Allocator + Clone>(
    rows: &Tree<Columns, A>,
    issue: &Cusip,
    from: Option<Key>,
) -> Option<(Key, Columns)>
    requires accounts { AreAccounts rows.now }
    requires place { IsPlaceIn issue.now from }
    ensures { MatchOption result (entries_from rows.now issue.now from ≡ [])
        (λ e. entries_from rows.now issue.now from
        ≡ e ∷ entries_from rows.now issue.now (place_after e.0 issue.now)) }
{
    let mut place = from;
    while let Some(low) = place {
        let (key, columns) = rows.first_at_or_after(low)?;
        if key.issue.is_same(issue) {
            return Some((key, columns));
        }
        place = place_after(&key, issue);
    }
    None
}

impl<'a, A: Allocator + Clone> Iterator for IssueRows<'a, A> {
    ghost use Rattle.std.specs.Iterator.{YieldsFirst, item_count};

    type Item = Row;

    ghost next_gives = { YieldsFirst (λ r. r) };

    ghost remaining = { item_count (λ r. r) };

    #[tactic(auto, using(crate::proofs::InIssue::none_left))]
    fn next(&mut self) -> Option<Row> {
        let Some((key, columns)) = first_in(self.rows, &self.issue, self.from) else {
            self.from = None;
            return None;
        };
        self.from = place_after(&key, &self.issue);
        Some(columns.row(&key))
    }
}
