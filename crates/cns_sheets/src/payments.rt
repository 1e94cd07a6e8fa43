// What the dividends of a close book, by key.
ghost use Rattle.std.specs.Prelude.{◌≡◌, ◌+◌, ◌*◌, ◌^◌, ◌≤◌, ◌+ℤ◌, if◌then◌else◌, true, pos, unsigned_abs, OnOk, IfOk, [], length};
ghost use Rattle.std.specs.FinMap.{is_sorted};
ghost use Rattle.std.specs.List.{AllByRecursion};
ghost use Rattle.std.specs.Ordering.{is_eq};
ghost use Rattle.cns_terms.specs.declared.holding.Key.{Key};
ghost use Rattle.cns_terms.specs.Keys.{key_cmp, row_key};
ghost use Rattle.cns_terms.specs.Sums.{total};
ghost use Rattle.cns_sheets.specs.Build.{by_key};
ghost use Rattle.cns_sheets.specs.Payments.{IsPayable, dividend_of, member_cash, paid, paying};
ghost use Rattle.cns_sheets.specs.Woven.{cents_at};

use crate::in_issue::IssueRows;
use crate::in_order::InOrder;
use crate::sheet::Sheet;
use cns_dividends::{Declared, cash};
use cns_terms::{Key, NoMemory, Row};
use cns_units::{Account, Cents};
use std::alloc::Allocator;
use std::collections::BTreeMap;
use std::marker::Model;

/// A dividend that a close pays, with the sheet of the close of its record date, whose closing positions it is paid on.
/// For each payment a close looks up each account's row in the issue on that sheet.
#[derive(Drop)]
pub struct Payment<'a, A: Allocator + Drop + Clone> {
    pub declared: Declared,
    pub sheet: &'a Sheet<A>,
}

/// The cash of a dividend on a row of the sheet of its record date, which only a member's row in the issue has.
pub fn member_cash(declared: &Declared, row: &Row) -> i128
    ensures { result ≡ member_cash declared.now row.now }
{
    if row.account == Account::CORPORATION || !row.issue.is_same(&declared.issue) {
        return 0;
    }
    cash(row.closing, declared.rate).value()
}

/// The cents that dividends book, by key. Contracts see the list of them, in the order of keys.
#[derive(Drop)]
pub struct Paid<A: Allocator + Drop> {
    cents: BTreeMap<Key, Cents, A>,
}

impl<A: Allocator + Drop> Model for Paid<A> {
    ghost use Rattle.std.specs.Prelude.{◌≡◌, true};
    ghost use Rattle.std.specs.FinMap.{is_sorted};
    ghost use Rattle.cns_terms.specs.Keys.{key_cmp};
    ghost use Rattle.cns_sheets.specs.Woven.{CentsByKey};

    ghost Value = { CentsByKey };

    ghost view = { λ p. p.cents.entries };

    ghost invariant = { λ p. is_sorted key_cmp p.cents.entries ≡ true };
}

impl<A: Allocator + Drop + Clone> Paid<A> {
    /// What payments book: at each key what the dividends pay there together, and zero over all keys. Without payments it
    /// takes no memory.
    pub fn new(alloc: A, payments: &[Payment<'_, A>]) -> Result<Self, NoMemory>
        requires payable { AllByRecursion IsPayable (paying payments.now) }
        requires few { length payments.now ≤ 2 ^ 32 }
        ensures cents { IfOk result (λ v. (k : Key) → cents_at v k ≡ dividend_of (paying payments.now) k) }
        ensures zero { IfOk result (λ v. total (λ e. e.1) v ≡ pos 0) }
    {
        let mut booked = Paid::nothing(alloc);
        for payment in payments {
            let rows = payment.sheet.rows_in(payment.declared.issue);
            booked.pay(&payment.declared, rows)?;
        }
        Ok(booked)
    }

    /// Nothing is booked. It takes no memory.
    pub fn nothing(alloc: A) -> Self
        ensures { result ≡ [] }
    {
        Paid {
            cents: BTreeMap::new(alloc),
        }
    }

    /// Books a dividend on the rows in its issue on the sheet of its record date. The corporation gets the opposite of what all members
    /// get, so the cents add up to what they did.
    #[tactic(auto, using(crate::proofs::Booked::fits, crate::proofs::Booked::all_small))]
    pub fn pay<B: Allocator + Clone>(
        &mut self,
        declared: &Declared,
        rows: IssueRows<'_, B>,
    ) -> Result<(), NoMemory>
        requires small { (k : Key) → unsigned_abs (cents_at self.old k) ≤ 10 ^ 33 }
        requires payable { IsPayable (declared.now, rows) }
        ensures cents { is_sorted key_cmp (by_key rows.entry) ≡ true
            → OnOk result ((k : Key) → cents_at self.new k ≡ cents_at self.old k +ℤ paid declared.now rows.entry k) }
        ensures sum { OnOk result (total (λ e. e.1) self.new ≡ total (λ e. e.1) self.old) }
        ensures bound { OnOk result
            ((k : Key) → unsigned_abs (cents_at self.new k) ≤ unsigned_abs (cents_at self.old k) + 2 * 10 ^ 21) }
    {
        let sum = self.pay_members(declared, rows)?;
        let account = Account::CORPORATION;
        let issue = declared.issue;
        self.add(Key { account, issue }, -sum)
    }

    // Books a dividend for the members with a closing position in its issue, and returns what all of them get.
    fn pay_members<B: Allocator + Clone>(
        &mut self,
        declared: &Declared,
        rows: IssueRows<'_, B>,
    ) -> Result<i128, NoMemory>
        requires small { (k : Key) → unsigned_abs (cents_at self.old k) ≤ 10 ^ 33 }
        requires payable { IsPayable (declared.now, rows) }
        ensures cents { OnOk result
            ((k : Key) → cents_at self.new k
            ≡ cents_at self.old k +ℤ total
            (λ r. if is_eq (key_cmp k (row_key r)) then member_cash declared.now r else pos 0) rows.entry) }
        ensures sum { IfOk result (λ sum. sum ≡ total (member_cash declared.now) rows.entry) }
        ensures all { OnOk result
            (total (λ e. e.1) self.new ≡ total (λ e. e.1) self.old +ℤ total (member_cash declared.now) rows.entry) }
    {
        let mut sum = 0;
        for row in rows {
            let cents = member_cash(declared, &row);
            self.add(row.key(), cents)?;
            sum += cents;
        }
        Ok(sum)
    }

    // Adds cents at a key.
    fn add(&mut self, key: Key, cents: i128) -> Result<(), NoMemory>
        requires { unsigned_abs (cents_at self.old key +ℤ cents) ≤ 10 ^ 34 }
        ensures cents { OnOk result
            ((k : Key) → cents_at self.new k
            ≡ cents_at self.old k +ℤ (if is_eq (key_cmp k key) then cents else pos 0)) }
        ensures sum { OnOk result (total (λ e. e.1) self.new ≡ total (λ e. e.1) self.old +ℤ cents) }
    {
        if cents == 0 {
            return Ok(());
        }
        let had = self.cents.get(&key).copied().unwrap_or(Cents::ZERO);
        self.cents.insert(key, Cents::of(had.value() + cents))?;
        Ok(())
    }
}

impl<A: Allocator + Drop> Paid<A> {
    /// What is booked, from the lowest key on.
    pub fn in_order(&self) -> InOrder<'_>
        ensures entries { result ≡ self.now }
        ensures order { is_sorted key_cmp self.now ≡ true }
    {
        InOrder::new(self.cents.iter())
    }
}
