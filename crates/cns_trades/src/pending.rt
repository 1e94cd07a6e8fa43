// Trades that wait for their date.
ghost use Rattle.std.specs.Prelude.{◌≡◌, ℕ, ◌≤◌, ◌<◌, ◌^◌, ◌||◌, ◌==◌, ◌++◌, ◌∷◌, [], filter, length, not, IfOk, OnErr, OnOk};
ghost use Rattle.cns_terms.specs.declared.holding.Key.{Key};
ghost use Rattle.cns_terms.specs.Limits.{shares_limit};
ghost use Rattle.cns_terms.specs.Pending.{is_due, waits_in};
ghost use Rattle.cns_trades.specs.Sides.{IsOpen, bought_key, less, more, sides_at, sides_by, sides_of, sold_key};
ghost use Rattle.cns_trades.specs.Used.{is_used};

use crate::references::References;
use crate::sides::{SideSums, Sides};
use cns_terms::{Key, NoMemory, Pend};
use cns_units::{Account, Cusip, Day};
use std::alloc::Allocator;
use std::marker::Model;

/// Trades that wait for their date, in the order in which they were taken. Contracts see the list of them.
///
/// What each member is to get and to give by them in each issue stands added up beside the list, so that no check goes
/// through all of them.
#[derive(Drop)]
pub struct Pending<A: Allocator + Drop> {
    trades: Vec<Pend, A>,
    sums: SideSums<A>,
}

impl<A: Allocator + Drop> Model for Pending<A> {
    ghost use Rattle.std.specs.Prelude.{List};
    ghost use Rattle.cns_terms.specs.declared.pend.Pend.{Pend};
    ghost use Rattle.cns_trades.specs.Sides.{AreSummed};

    ghost Value = { List Pend };

    ghost view = { λ p. p.trades.items };

    ghost invariant = { λ p. AreSummed p.trades.items p.sums };
}

// Where a trade brings shares.
fn bought_key(pend: &Pend) -> Key
    ensures { result ≡ bought_key pend.now }
{
    Key {
        account: pend.buyer.account(),
        issue: pend.issue,
    }
}

// Where it takes them.
fn sold_key(pend: &Pend) -> Key
    ensures { result ≡ sold_key pend.now }
{
    Key {
        account: pend.seller.account(),
        issue: pend.issue,
    }
}

// What a trade brings.
fn bought(pend: &Pend) -> Sides
    ensures exact { result ≡ record { bought = pend.now.shares; sold = 0 } }
    ensures small { pend.now.shares ≤ shares_limit }
{
    Sides {
        bought: u128::from(pend.shares.value()),
        sold: 0,
    }
}

// What it takes.
fn sold(pend: &Pend) -> Sides
    ensures exact { result ≡ record { bought = 0; sold = pend.now.shares } }
    ensures small { pend.now.shares ≤ shares_limit }
{
    Sides {
        bought: 0,
        sold: u128::from(pend.shares.value()),
    }
}

// Makes room for the sums of a trade's two parties.
fn open<A: Allocator + Drop + Clone>(sums: &mut SideSums<A>, pend: &Pend) -> Result<(), NoMemory>
    ensures same { (k : Key) → sides_at sums.new k ≡ sides_at sums.old k }
    ensures open { OnOk result (IsOpen sums.new pend.now) }
{
    sums.open(bought_key(pend))?;
    sums.open(sold_key(pend))
}

// Adds a trade to the sums, where there is room for its parties.
fn add<A: Allocator + Drop>(sums: &mut SideSums<A>, pend: &Pend)
    requires open { IsOpen sums.old pend.now }
    requires bought { (k : Key) → (sides_at sums.old k).bought < 2 ^ 127 }
    requires sold { (k : Key) → (sides_at sums.old k).sold < 2 ^ 127 }
    ensures sums { (k : Key) → sides_at sums.new k ≡ more (sides_by pend.now k) (sides_at sums.old k) }
    ensures small { pend.now.shares ≤ shares_limit }
{
    sums.add(bought_key(pend), &bought(pend));
    sums.add(sold_key(pend), &sold(pend));
}

// Takes a trade out of the sums that it is among.
fn take<A: Allocator + Drop>(sums: &mut SideSums<A>, pend: &Pend)
    requires bought { (k : Key) → (sides_by pend.now k).bought ≤ (sides_at sums.old k).bought }
    requires sold { (k : Key) → (sides_by pend.now k).sold ≤ (sides_at sums.old k).sold }
    ensures { (k : Key) → sides_at sums.new k ≡ less (sides_at sums.old k) (sides_by pend.now k) }
{
    sums.take(bought_key(pend), &bought(pend));
    sums.take(sold_key(pend), &sold(pend));
}

// A list in memory has fewer trades than addresses reach, as its length tells.
fn is_few(trades: &[Pend])
    ensures { length trades.now < 2 ^ 63 }
{
    let _length = trades.len();
}

// Takes the trades out of the sums whose date has come at the close that names the next day.
#[tactic(auto, using(crate::proofs::Summed::all_kept))]
fn take_due<A: Allocator + Drop>(sums: &mut SideSums<A>, trades: &[Pend], next: Day)
    requires { (k : Key) → sides_at sums.old k ≡ sides_of trades.now k }
    ensures { (k : Key) → sides_at sums.new k ≡ sides_of (filter (λ p. not (is_due next p)) trades.now) k }
{
    for pend in trades {
        if pend.is_due(next) {
            take(sums, pend);
        }
    }
}

// Drops those trades.
fn keep_later<A: Allocator>(trades: &mut Vec<Pend, A>, next: Day)
    ensures { trades.new.items ≡ filter (λ p. not (is_due next p)) trades.old.items }
{
    trades.retain(|pend| !pend.is_due(next));
}

// Whether one of the trades is in an issue.
fn waits_in(trades: &[Pend], issue: &Cusip) -> bool
    ensures { result ≡ waits_in trades.now issue.now }
{
    trades.iter().any(|pend| pend.issue.is_same(issue))
}

impl<A: Allocator + Drop> Pending<A> {
    /// No trade waits. `NoMemory` where the allocator could not be copied.
    pub(crate) fn new(alloc: A) -> Result<Self, NoMemory>
    where
        A: Clone,
        ensures { IfOk result (λ p. p ≡ []) }
    {
        Ok(Pending {
            trades: Vec::new(alloc.clone()?),
            sums: SideSums::new(alloc),
        })
    }

    /// The trades, the one that was taken first before the others.
    pub fn list(&self) -> &[Pend]
        ensures { result.now ≡ self.now }
    {
        self.trades.as_slice()
    }

    /// The shares that a member is to get and to give in an issue by all of them. It is found in a logarithm.
    pub fn sides(&self, account: Account, issue: Cusip) -> Sides
        ensures { result ≡ sides_of self.now (record { account = account; issue = issue }) }
    {
        self.sums.at(Key { account, issue })
    }

    /// Whether one of them is in an issue. All of them are gone through.
    pub fn waits_in(&self, issue: &Cusip) -> bool
        ensures { result ≡ waits_in self.now issue.now }
    {
        waits_in(self.trades.as_slice(), issue)
    }

    /// Adds a trade after the others, and uses its reference. Room is made for all of it first: where memory is refused
    /// neither is done.
    #[tactic(auto, using(crate::proofs::Summed::few_sides))]
    pub(crate) fn push(
        &mut self,
        pend: &Pend,
        references: &mut References<A>,
    ) -> Result<(), NoMemory>
    where
        A: Clone,
        ensures ok { OnOk result (self.new ≡ self.old ++ (pend.now ∷ [])) }
        ensures references { OnOk result ((r : ℕ) → is_used references.new r
            ≡ ((pend.now.reference == r) || is_used references.old r)) }
        ensures err { OnErr result ((self.new ≡ self.old) × (references.new ≡ references.old)) }
    {
        is_few(self.trades.as_slice());
        self.trades.reserve(1)?;
        open(&mut self.sums, pend)?;
        references.insert(pend.reference)?;
        add(&mut self.sums, pend);
        let _ = self.trades.push(*pend);
        Ok(())
    }

    /// Drops the trades whose date has come at the close that names the next day. The others wait on, in the same order. It
    /// takes no memory.
    pub(crate) fn settle(&mut self, next: Day)
        ensures { self.new ≡ filter (λ p. not (is_due next p)) self.old }
    {
        take_due(&mut self.sums, self.trades.as_slice(), next);
        keep_later(&mut self.trades, next);
    }
}
