// Positions in a balanced tree.
ghost use Rattle.std.specs.Prelude.{◌≡◌, ◌≢◌, ◌+◌, ◌*◌, ◌≤◌, ◌+ℤ◌, List, [], ◌∷◌, ◌++◌, length, min, OnOk, OnErr, IfOk, FitsSigned, true, Some, None, Contains, Any};
ghost use Rattle.std.specs.Int.{w64, w128};
ghost use Rattle.std.specs.FinMap.{is_sorted};
ghost use Rattle.std.specs.List.{filter, find};
ghost use Rattle.cns_terms.specs.Digits.{binary_digits};
ghost use Rattle.cns_terms.specs.Keys.{key_cmp};
ghost use Rattle.cns_terms.specs.declared.holding.Holding.{Holding};
ghost use Rattle.cns_terms.specs.declared.holding.Key.{Key};
ghost use Rattle.cns_positions.specs.Rows.{aged, has_row, holding_at, booked, entry_of, held_above, closed_rows, is_held, present, row_at};

use crate::holding::{add_to, carry_to, is_held, rolled};
use crate::positions::{NextRows, Positions, Row};
use arrayvec::ArrayVec;
use cns_terms::{Holding, Key, NoMemory, Probe};
use cns_tree::{Tree, Walk};
use std::alloc::Allocator;
use std::marker::Model;

/// Positions in a balanced tree of rows: a look-up or a booking is one way down, a close or a pass over the rows one
/// walk.
pub struct TreePositions<A: Allocator + Clone + Drop> {
    rows: Tree<Holding, A>,
}

impl<A: Allocator + Clone + Drop> Model for TreePositions<A> {
    ghost use Rattle.std.specs.Prelude.{◌≡◌, true};
    ghost use Rattle.std.specs.FinMap.{is_sorted};
    ghost use Rattle.cns_terms.specs.Keys.{key_cmp};
    ghost use Rattle.cns_positions.specs.Rows.{Rows};

    ghost Value = { Rows };

    ghost view = { λ p. p.rows };

    ghost invariant = { λ p. is_sorted key_cmp p.rows ≡ true };
}

impl<A: Allocator + Clone + Drop> Drop for TreePositions<A> {
    // A derived drop would be written out, and checked, in each function above that may let positions go.
    fn drop(self) {
        let TreePositions { rows } = self;
        drop(rows);
    }
}

// Gives the key a row of zeros where it has none.
#[tactic(auto, using(crate::proofs::Entering::at_error, crate::proofs::Holdings::entered, crate::proofs::Holdings::other_row, crate::proofs::Holdings::row_put, crate::proofs::Holdings::row_stays, crate::proofs::Holdings::sorted_put), unfolding(crate::specs::Rows::row_at))]
fn enter<A: Allocator + Clone + Drop>(
    rows: &mut Tree<Holding, A>,
    key: &Key,
) -> Result<(), NoMemory>
    ensures sorted { is_sorted key_cmp rows.new ≡ true }
    ensures there { OnOk result (has_row rows.new key.now ≡ true) }
    ensures kept { (k : Key) → has_row rows.old k ≡ true → has_row rows.new k ≡ true }
    ensures others { (k : Key) → k ≢ key.now → row_at rows.new k ≡ row_at rows.old k }
    ensures memory { OnErr result (row_at rows.old key.now ≡ None) }
    ensures same { (k : Key) → holding_at rows.new k ≡ holding_at rows.old k }
{
    if rows.get(*key).is_some() {
        return Ok(());
    }
    let mut spare = rows.spare(1, Holding::ZEROS)?;
    rows.put(*key, Holding::ZEROS, &mut spare);
    Ok(())
}

// Gives each key a row of zeros where it has none.
#[tactic(auto, using(crate::proofs::Entering::other_key, std::proofs::lemmas::List::take_all))]
fn enter_all<A: Allocator + Clone + Drop>(
    rows: &mut Tree<Holding, A>,
    keys: &[Key],
) -> Result<(), NoMemory>
    requires { is_sorted key_cmp rows.old ≡ true }
    ensures sorted { is_sorted key_cmp rows.new ≡ true }
    ensures there { OnOk result ((k : Key) → Contains keys.now k → has_row rows.new k ≡ true) }
    ensures kept { (k : Key) → has_row rows.old k ≡ true → has_row rows.new k ≡ true }
    ensures others { (k : Key) → ¬ Contains keys.now k → row_at rows.new k ≡ row_at rows.old k }
    ensures memory { OnErr result (Any (λ k. row_at rows.old k ≡ None) keys.now) }
    ensures same { (k : Key) → holding_at rows.new k ≡ holding_at rows.old k }
{
    for key in keys {
        enter(rows, key)?;
    }
    Ok(())
}

// Books shares and cents in the row of a probe's key.
fn book<A: Allocator + Clone + Drop>(
    rows: &mut Tree<Holding, A>,
    probe: &mut Probe,
    shares: i64,
    cents: i128,
)
    requires there { has_row rows.old probe.old.0 ≡ true }
    requires shares_fit { FitsSigned w64 ((holding_at rows.old probe.old.0).now +ℤ shares) }
    requires cents_fit { FitsSigned w128 ((holding_at rows.old probe.old.0).contract +ℤ cents) }
    ensures sorted { is_sorted key_cmp rows.new ≡ true }
    ensures places { (k : Key) → has_row rows.new k ≡ has_row rows.old k }
    ensures others { (k : Key) → k ≢ probe.old.0 → row_at rows.new k ≡ row_at rows.old k }
    ensures booked { (k : Key) → holding_at rows.new k
        ≡ booked (entry_of probe.old.0 shares cents) k (holding_at rows.old k) }
    ensures key { probe.new.0 ≡ probe.old.0 }
    ensures count { probe.new.1 ≤ probe.old.1 + 2 * binary_digits (length rows.old) }
{
    let _ = rows.change_counted(probe, |mut holding| {
        add_to(&mut holding, shares, cents);
        holding
    });
}

// Brings an age to the key's row.
#[tactic(auto, using(crate::proofs::Changes::changed_at, crate::proofs::Holdings::aged_put, crate::proofs::Holdings::other_row, crate::proofs::Holdings::places_put))]
fn carry<A: Allocator + Clone + Drop>(rows: &mut Tree<Holding, A>, key: &Key, age: u32)
    requires { has_row rows.old key.now ≡ true }
    ensures sorted { is_sorted key_cmp rows.new ≡ true }
    ensures places { (k : Key) → has_row rows.new k ≡ has_row rows.old k }
    ensures others { (k : Key) → k ≢ key.now → row_at rows.new k ≡ row_at rows.old k }
    ensures carried { (k : Key) → holding_at rows.new k ≡ aged key.now age k (holding_at rows.old k) }
{
    rows.change(*key, |mut holding| {
        carry_to(&mut holding, age);
        holding
    });
}

// What a close makes of each row.
#[tactic(auto, using(crate::proofs::Changes::rolled_each))]
fn close_all<A: Allocator + Clone + Drop>(rows: &mut Tree<Holding, A>)
    ensures { rows.new ≡ closed_rows rows.old }
{
    rows.change_each(|holding| rolled(holding));
}

// The first row that isn't zeros of those that a walk has left.
fn first_held<A: Allocator + Clone + Drop>(mut walk: Walk<Holding, A>) -> Option<Row>
    ensures { result ≡ find (λ r. is_held r.1) walk.entry }
{
    walk.find(|row| is_held(row.1))
}

// The first rows that aren't zeros of those that a walk has left, as many as are handed out at once.
fn first_rows<A: Allocator + Clone + Drop>(walk: Walk<Holding, A>) -> NextRows
    ensures first { (rest : List (Key × Holding)) × (held_above walk.entry None ≡ present result.items ++ rest) }
    ensures left { present result.items ≡ [] → held_above walk.entry None ≡ [] }
{
    let mut given: NextRows = ArrayVec::new();
    for row in walk {
        if given.is_full() {
            break;
        }
        if is_held(row.1) {
            given.push(Some(row));
        }
    }
    given
}

impl<A: Allocator + Clone + Drop> TreePositions<A> {
    /// How many rows there are, those of zeros too; past `usize::MAX`, which no memory holds, that number.
    pub fn len(&self) -> usize
        ensures { result ≡ min (length self.now) usize.MAX }
    {
        self.rows.len()
    }

    /// What stands at a probe's key, as `get` gives it, after at most two comparisons for each binary digit of the number of
    /// rows.
    pub fn get_counted(&self, probe: &mut Probe) -> Holding
        ensures value { result ≡ holding_at self.now probe.old.0 }
        ensures key { probe.new.0 ≡ probe.old.0 }
        ensures count { probe.new.1 ≤ probe.old.1 + 2 * binary_digits (length self.now) }
    {
        self.rows.get_counted(probe).unwrap_or(Holding::ZEROS)
    }

    /// Books shares and cents at a probe's key, as `add` does, after at most two comparisons for each binary digit of the
    /// number of rows.
    pub fn add_counted(&mut self, probe: &mut Probe, shares: i64, cents: i128)
        requires there { has_row self.old probe.old.0 ≡ true }
        requires shares_fit { FitsSigned w64 ((holding_at self.old probe.old.0).now +ℤ shares) }
        requires cents_fit { FitsSigned w128 ((holding_at self.old probe.old.0).contract +ℤ cents) }
        ensures booked { (k : Key) → holding_at self.new k
            ≡ booked (entry_of probe.old.0 shares cents) k (holding_at self.old k) }
        ensures others { (k : Key) → k ≢ probe.old.0 → row_at self.new k ≡ row_at self.old k }
        ensures places { (k : Key) → has_row self.new k ≡ has_row self.old k }
        ensures order { is_sorted key_cmp self.new ≡ true }
        ensures key { probe.new.0 ≡ probe.old.0 }
        ensures count { probe.new.1 ≤ probe.old.1 + 2 * binary_digits (length self.old) }
    {
        book(&mut self.rows, probe, shares, cents);
    }
}

impl<A: Allocator + Clone + Drop> Positions<A> for TreePositions<A> {
    ghost rows = { λ p. p };

    fn new(alloc: A) -> Self {
        TreePositions {
            rows: Tree::new(alloc),
        }
    }

    fn in_order(&self) {
        let _ = self.rows.len();
    }

    fn get(&self, key: Key) -> Holding {
        self.get_counted(&mut Probe::new(key))
    }

    fn get_two(&self, first: Key, second: Key) -> (Holding, Holding) {
        let (first, second) = self.rows.get_two(first, second);
        (
            first.unwrap_or(Holding::ZEROS),
            second.unwrap_or(Holding::ZEROS),
        )
    }

    fn prepare(&mut self, keys: &[Key]) -> Result<(), NoMemory> {
        enter_all(&mut self.rows, keys)
    }

    fn enter(&mut self, key: Key) -> Result<(), NoMemory> {
        enter(&mut self.rows, &key)
    }

    fn add(&mut self, key: Key, shares: i64, cents: i128) {
        self.add_counted(&mut Probe::new(key), shares, cents);
    }

    fn carry(&mut self, key: Key, age: u32) {
        carry(&mut self.rows, &key, age);
    }

    #[tactic(auto, using(crate::proofs::Holdings::find_closed, crate::proofs::Holdings::sorted_closed))]
    fn roll(&mut self) {
        close_all(&mut self.rows);
    }

    fn next_row(&self, after: Option<Key>) -> Option<Row> {
        first_held(self.rows.walk_above(after))
    }

    #[tactic(auto, using(crate::proofs::Changes::above_held, crate::proofs::Held::next_given))]
    fn next_rows(&self, after: Option<Key>) -> NextRows {
        first_rows(self.rows.walk_above(after))
    }

    fn rebuilt(&self, given: &[Row]) -> Result<Self, NoMemory> {
        Ok(TreePositions {
            rows: Tree::from_sorted(self.rows.allocator().clone()?, given)?,
        })
    }
}
