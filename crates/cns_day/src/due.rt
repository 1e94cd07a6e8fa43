// What is due of an account in each issue.
ghost use Rattle.std.specs.Prelude.{◌≡◌, IfOk, OnOk, map, pos, unwrap_or};
ghost use Rattle.std.specs.BTreeMap.{IsOrdered, get, keys};
ghost use Rattle.cns_terms.specs.Keys.{key_cmp};
ghost use Rattle.cns_terms.specs.declared.holding.Key.{Key};
ghost use Rattle.cns_book.specs.Log.{state_of};
ghost use Rattle.cns_day.specs.Due.{AreLater, due_at, is_idle, projected, projected_all, with_due, with_side};

use crate::projection::Due;
use cns_account::wrapped_shares;
use cns_feed::ReplayBook;
use cns_history::{shares_between, standing};
use cns_sheets::Sheet;
use cns_tables::{Piece, ROW, TableRow, write_line};
use cns_terms::{Entry, Key, NoMemory, Pend};
use cns_units::{Account, Cusip};
use std::alloc::{AllocError, Global};
use std::collections::BTreeMap;

/// What is due of an account in an issue after a close, in shares. Each sum is exact where it fits 64 bits, as it does on each day
/// of a book.
#[derive(Clone, Copy)]
pub struct Projected {
    pub issue: Cusip,
    /// The closing position.
    pub closing: i64,
    /// What the close booked of trades that were due.
    pub booked: i64,
    /// The position after the close, as a POSITION shows it: what is due on the next day.
    pub due: i64,
    /// The closing position with all trades that settle later.
    pub after: i64,
}

/// The same, with the account.
#[derive(Clone, Copy)]
pub struct DueAt {
    pub account: Account,
    pub projected: Projected,
}

/// The shares of trades that settle later, at each place that one names: above 0 where more are bought than sold.
#[derive(Drop)]
pub struct Later {
    pub(crate) shares: BTreeMap<Key, i64>,
}

impl Later {
    // Those at a place; 0 where no trade names it.
    fn at(&self, key: &Key) -> i64
        ensures { result ≡ unwrap_or (get key_cmp self.now.shares key.now) (pos 0) }
    {
        self.shares.get(key).copied().unwrap_or(0)
    }

    // Adds a side of a trade.
    fn add_side(&mut self, entry: &Entry) -> Result<(), NoMemory>
        ensures { OnOk result ((k : Key) → get key_cmp self.new.shares k ≡ with_side k (get key_cmp self.old.shares k) entry.now) }
    {
        let key = Key {
            account: entry.account,
            issue: entry.issue,
        };
        let shares = wrapped_shares(self.at(&key), entry.shares);
        self.shares.insert(key, shares)?;
        Ok(())
    }

    // Adds both sides of a trade.
    fn add(&mut self, due: &Due) -> Result<(), NoMemory>
        ensures { OnOk result ((k : Key) → get key_cmp self.new.shares k ≡ with_due k (get key_cmp self.old.shares k) due.now) }
    {
        let pend = Pend::of(&due.trade);
        self.add_side(&pend.buyer_entry())?;
        self.add_side(&pend.seller_entry())
    }
}

/// The shares of trades that settle later.
#[tactic(auto, using(crate::proofs::Gathered::due_more))]
pub fn later_shares(alloc: Global, dues: &[Due]) -> Result<Later, NoMemory>
    ensures { IfOk result (AreLater dues.now) }
{
    let mut later = Later {
        shares: BTreeMap::new(alloc),
    };
    for due in dues {
        later.add(due)?;
    }
    Ok(later)
}

// What is due at a place.
fn due_in(book: &ReplayBook, later: &Later, key: &Key) -> Projected
    ensures { result ≡ projected (state_of book.now.log) later.now key.now }
{
    let holding = standing(book, key);
    Projected {
        issue: key.issue,
        closing: holding.opening,
        booked: shares_between(holding.opening, holding.now),
        due: holding.now,
        after: wrapped_shares(holding.opening, later.at(key)),
    }
}

// Whether nothing is due, and nothing was.
fn is_idle(row: &Projected) -> bool
    ensures { result ≡ is_idle row.now }
{
    row.closing == 0 && row.due == 0 && row.after == 0
}

/// What is due of an account in each issue that was listed at the close, where anything is or was; of the book as the close left it.
#[tactic(auto, using(cns_history::proofs::Owned::all_above))]
pub fn projected_all(
    alloc: Global,
    book: &ReplayBook,
    sheet: &Sheet<Global>,
    account: Account,
    later: &Later,
) -> Result<Vec<Projected>, NoMemory>
    ensures { IfOk result (λ v. v.items ≡ projected_all (state_of book.now.log) account later.now sheet.now.prices) }
{
    let mut rows = Vec::new(alloc);
    let mut after = None;
    while let Some((issue, _)) = sheet.next_price(after) {
        let issue = &issue;
        after = Some(*issue);
        let key = Key {
            account,
            issue: *issue,
        };
        let row = due_in(book, later, &key);
        if is_idle(&row) {
            continue;
        }
        rows.push(row)?;
    }
    Ok(rows)
}

/// What is due of each account in each issue that a trade names which settles later, by account and issue; of the book as the close
/// left it.
pub fn all_due(alloc: Global, book: &ReplayBook, later: &Later) -> Result<Vec<DueAt>, NoMemory>
    ensures rows { IfOk result (λ v. v.items ≡ map (due_at (state_of book.now.log) later.now) (keys later.now.shares)) }
    ensures rising { IsOrdered key_cmp later.now.shares }
{
    let rows = later
        .shares
        .keys()
        .map(|key| DueAt {
            account: key.account,
            projected: due_in(book, later, key),
        })
        .collect(alloc)?;
    Ok(rows)
}

impl TableRow for Projected {
    ghost use Rattle.cns_day.specs.Due.{projected_text};

    ghost text = { projected_text };

    fn write_row(&self, out: &mut Vec<u8>) -> Result<(), AllocError> {
        let cells = [
            Piece::Signed(self.closing),
            Piece::Signed(self.booked),
            Piece::Signed(self.due),
            Piece::Signed(self.after),
        ];
        write_line(ROW, &Piece::Issue(self.issue), &cells, out)
    }
}

impl TableRow for DueAt {
    ghost use Rattle.cns_day.specs.Due.{due_at_text};

    ghost text = { due_at_text };

    fn write_row(&self, out: &mut Vec<u8>) -> Result<(), AllocError> {
        let row = &self.projected;
        let cells = [
            Piece::Number(u64::from(self.account.value())),
            Piece::Signed(row.closing),
            Piece::Signed(row.booked),
            Piece::Signed(row.due),
            Piece::Signed(row.after),
        ];
        write_line(ROW, &Piece::Issue(row.issue), &cells, out)
    }
}
