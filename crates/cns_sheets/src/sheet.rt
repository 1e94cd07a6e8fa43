// A closed day.
ghost use Rattle.std.specs.Prelude.{◌≡◌, ◌↔◌, ◌∷◌, [], IfOk, length, MatchOption, None, OnOk, pos, Some, true};
ghost use Rattle.std.specs.Cmp.Lexicographic.{slice_cmp};
ghost use Rattle.std.specs.FinMap.{is_sorted};
ghost use Rattle.std.specs.List.{AllByRecursion, filter};
ghost use Rattle.std.specs.Ordering.{nat_cmp};
ghost use Rattle.cns_terms.specs.Keys.{key_cmp};
ghost use Rattle.std.specs.Option.{option_copied};
ghost use Rattle.cns_terms.specs.Sheets.{rows_for, statement};
ghost use Rattle.cns_terms.specs.Sums.{same_issue, total};
ghost use Rattle.cns_sheets.specs.Build.{IsMarked, IsSheet, by_key, closing_in, price_on, prices_of};
ghost use Rattle.cns_sheets.specs.Condition.{CanBePaid, IsReady, rows_before};
ghost use Rattle.cns_sheets.specs.Payments.{IsCut, paying};
ghost use Rattle.cns_prices.specs.Listed.{listed_above};
ghost use Rattle.cns_sheets.specs.Search.{prices_above, row_at};

use crate::columns::Columns;
use crate::cutting::collect;
use crate::in_issue::IssueRows;
use crate::keyed::KeyedRows;
use crate::lowest::{lowest_of, of_account, passed};
use crate::payments::{Paid, Payment};
use crate::prices::{listed, price_on};
use crate::same::{same_prices, same_rows};
use crate::search::next_price;
use crate::sums::{Totals, account_sums, sheet_sums};
use crate::walks::{AccountRows, SheetRows};
use cns_positions::Positions;
use cns_prices::Prices;
use cns_terms::{Key, NoMemory, Row, Stated};
use cns_tree::Tree;
use cns_units::{Account, Cents, Cusip, Day, Price};
use std::alloc::Allocator;
use std::marker::Model;

/// The sheet of a closed day, which never changes. Contracts see its date, its prices and its rows.
pub struct Sheet<A: Allocator + Drop + Clone> {
    date: Day,
    prices: Vec<(Cusip, Price), A>,
    rows: Tree<Columns, A>,
}

impl<A: Allocator + Drop + Clone> Model for Sheet<A> {
    ghost use Rattle.cns_terms.specs.Sheets.{DaySheet};
    ghost use Rattle.cns_sheets.specs.Build.{IsPlanted, full_rows};

    ghost Value = { DaySheet };

    ghost view = { λ s. record { date = s.date; prices = s.prices.items; rows = full_rows s.rows } };

    ghost invariant = { λ s. IsPlanted s.prices.items s.rows };
}

impl<A: Allocator + Drop + Clone> Drop for Sheet<A> {
    // A derived drop would be written out, and checked, in each function above that may let a sheet go.
    fn drop(self) {
        let Sheet {
            date: _,
            prices,
            rows,
        } = self;
        drop(prices);
        drop(rows);
    }
}

impl<A: Allocator + Drop + Clone> Sheet<A> {
    /// The sheet that a close cuts: a row for each key whose opening, closing, booked cents or dividends are not zero, in
    /// the order of keys, with the prices of this close and of the sheet before (NSCC Procedure VII; the mark is this
    /// project's profile). `NoMemory` where an allocation failed, and then nothing has changed.
    ///
    /// Each of the `payments` books, at each member's key in its issue, the cash of the dividend on the closing position of
    /// the sheet of its record date, in cents cut towards zero each by itself. The corporation's key books the opposite of
    /// what all members get, whatever its own position was. Several payments add up, also those of one issue.
    ///
    /// In each issue the positions have to add up to zero, and so the booked cents, and each opening has to be the
    /// closing on the sheet before. Then the marks add up to zero. The dividends always do.
    pub fn build<P: Positions<B>, B>(
        alloc: A,
        positions: &P,
        prices: &Prices<A>,
        before: Option<&Sheet<A>>,
        payments: &[Payment<'_, A>],
        date: Day,
    ) -> Result<Self, NoMemory>
        requires ready { IsReady (option_copied before) prices.now (P.rows positions.now) (paying payments.now) }
        requires paid { CanBePaid (paying payments.now) }
        ensures date { IfOk result (λ s. s.date ≡ date) }
        ensures listed { IfOk result (λ s. s.prices ≡ listed_above prices.now None) }
        ensures cut { IfOk result
            (λ s. IsCut (prices_of (option_copied before.entry)) prices.now (P.rows positions.now)
            (paying payments.now) s.rows) }
        ensures prices { OnOk result (is_sorted (slice_cmp nat_cmp) prices.now ≡ true) }
        ensures rows { OnOk result (is_sorted key_cmp (P.rows positions.now) ≡ true) }
    {
        let earlier = prices_before(before);
        let prices = listed(alloc.clone()?, earlier.len(), prices)?;
        let room = before.map_or(0, |sheet| sheet.len());
        let paid = Paid::new(alloc.clone()?, payments)?;
        let rows = collect(alloc, room, positions, &paid, earlier, prices.as_slice())?;
        Ok(Sheet::of_rows(date, prices, rows))
    }

    // The sheet of a date with some prices and rows.
    fn of_rows(date: Day, prices: Vec<(Cusip, Price), A>, rows: KeyedRows<A>) -> Self
        requires { IsSheet prices.items rows }
        ensures { result ≡ record { date = date; prices = prices.items; rows = rows } }
    {
        let rows = rows.tree();
        Sheet { date, prices, rows }
    }
}

// The prices of the sheet before, none where there is none.
fn prices_before<A: Allocator + Drop + Clone>(before: Option<&Sheet<A>>) -> &[(Cusip, Price)]
    ensures prices { result.now ≡ prices_of (option_copied before.entry) }
    ensures order { is_sorted (slice_cmp nat_cmp) result.now ≡ true }
    ensures rows_rise { is_sorted key_cmp (by_key (rows_before (option_copied before.entry))) ≡ true }
    ensures closings { (c : Cusip) → total (closing_in c) (rows_before (option_copied before.entry)) ≡ pos 0 }
{
    match before {
        Some(sheet) => sheet.prices.as_slice(),
        None => &[],
    }
}

impl<A: Allocator + Drop + Clone> Sheet<A> {
    /// The closed day's date.
    pub fn date(&self) -> Day
        ensures { result ≡ self.now.date }
    {
        self.date
    }

    /// How many rows the sheet has.
    pub fn len(&self) -> usize
        ensures { result ≡ length self.now.rows }
    {
        self.rows.len()
    }

    /// The rows, in the order of accounts and then of the bytes of the issues. Each mark follows its rule, and in each
    /// issue the closings add up to zero.
    pub fn rows(&self) -> SheetRows<'_, A>
        ensures rows { result ≡ self.now.rows }
        ensures order { is_sorted key_cmp (by_key self.now.rows) ≡ true }
        ensures marked { AllByRecursion IsMarked self.now.rows }
        ensures closings { (c : Cusip) → total (closing_in c) self.now.rows ≡ pos 0 }
    {
        SheetRows::new(self.rows.walk())
    }

    /// The row of an account in an issue; None where the sheet has none, since it would say nothing.
    #[tactic(auto, using(crate::proofs::Walked::row_found))]
    pub fn row(&self, key: Key) -> Option<Row>
        ensures { result ≡ row_at self.now.rows key }
    {
        let columns = self.rows.get(key)?;
        Some(columns.row(&key))
    }

    /// The rows of an account, in the order of the bytes of their issues.
    pub fn rows_of(&self, account: Account) -> AccountRows<'_, A>
        ensures { result ≡ rows_for self.now.rows account }
    {
        let first = of_account(self.rows.first_at_or_after(lowest_of(account)), account);
        let rest = self.rows.walk_above(Some(passed(&first, account)));
        AccountRows::new(first, rest, account)
    }

    /// The rows in an issue, in the order of accounts.
    #[tactic(auto, using(crate::proofs::InIssue::all_in, crate::proofs::InIssue::marked_accounts, crate::proofs::Walked::sorted_kept))]
    pub(crate) fn rows_in(&self, issue: Cusip) -> IssueRows<'_, A>
        ensures rows { result ≡ filter (λ r. same_issue r.issue issue) self.now.rows }
        ensures order { is_sorted key_cmp (by_key result) ≡ true }
    {
        IssueRows::new(&self.rows, issue)
    }

    /// The price of an issue at the close, in cents; None where it was not listed then.
    pub fn price(&self, cusip: Cusip) -> Option<Price>
        ensures { result ≡ price_on self.now.prices cusip }
    {
        price_on(self.prices.as_slice(), &cusip)
    }

    /// The first of the sheet's issues above another, or the first of all, with its price in cents; None past the last.
    pub fn next_price(&self, after: Option<Cusip>) -> Option<(Cusip, Price)>
        ensures order { is_sorted (slice_cmp nat_cmp) self.now.prices ≡ true }
        ensures next { MatchOption result (prices_above self.now.prices after ≡ [])
            (λ e. prices_above self.now.prices after ≡ e ∷ prices_above self.now.prices (Some e.0)) }
    {
        next_price(self.prices.as_slice(), after)
    }

    /// The first line of an account's statement: how many rows the account has, and the sums of their marks and of
    /// their dividends, in cents.
    #[tactic(auto, using(crate::proofs::Added::small_fits))]
    pub fn stated(&self, account: Account) -> Stated
        ensures { result ≡ statement self.now account }
    {
        let date = self.date;
        let totals = account_sums(self.rows_of(account));
        Stated {
            account,
            date,
            rows: totals.rows,
            mark: totals.mark,
            dividend: totals.dividend,
        }
    }

    /// Whether both are sheets of one day with the same prices and rows.
    pub fn is_same(&self, other: &Sheet<A>) -> bool
        ensures { (result ≡ true) ↔ (self.now ≡ other.now) }
    {
        self.date.is_same(&other.date)
            && same_prices(self.prices.as_slice(), other.prices.as_slice())
            && same_rows(self.rows(), other.rows())
    }

    // How many rows there are, and what they add up to.
    fn totals(&self) -> Totals
        ensures marks { result.mark ≡ total (λ r. r.mark) self.now.rows }
        ensures dividends { result.dividend ≡ total (λ r. r.dividend) self.now.rows }
        ensures no_mark { result.mark ≡ pos 0 }
        ensures no_dividend { result.dividend ≡ pos 0 }
    {
        sheet_sums(SheetRows::new(self.rows.walk()))
    }

    /// The sum of all marks, in cents, added up row by row. It is zero.
    pub fn total_marks(&self) -> Cents
        ensures sum { result ≡ total (λ r. r.mark) self.now.rows }
        ensures zero { result ≡ pos 0 }
    {
        self.totals().mark
    }

    /// The sum of all dividends, in cents, added up row by row. It is zero.
    pub fn total_dividends(&self) -> Cents
        ensures sum { result ≡ total (λ r. r.dividend) self.now.rows }
        ensures zero { result ≡ pos 0 }
    {
        self.totals().dividend
    }
}
