// Positions in a sorted list.
ghost use Rattle.std.specs.Prelude.{◌≡◌, ◌≢◌, ◌+ℤ◌, List, [], ◌∷◌, ◌++◌, length, OnOk, OnErr, IfOk, IfErr, MatchOption, FitsSigned, true, Some, None, Contains, Any};
ghost use Rattle.std.specs.Int.{w64, w128};
ghost use Rattle.std.specs.FinMap.{is_sorted};
ghost use Rattle.std.specs.List.{HoldsAt, find};
ghost use Rattle.std.specs.List.Sorted.{IsSearchInRange, IsPartitionPoint};
ghost use Rattle.std.specs.declared.cmp.Ordering.{Ordering};
ghost use Rattle.cns_terms.specs.Keys.{key_cmp};
ghost use Rattle.cns_terms.specs.declared.holding.Holding.{Holding};
ghost use Rattle.cns_terms.specs.declared.holding.Key.{Key};
ghost use Rattle.cns_positions.specs.Rows.{aged, has_row, holding_at, booked, entry_of, held_above, closed_rows, is_held, present, row_at};

use crate::holding::{add_to, carry_to, is_held, rolled};
use crate::positions::{NextRows, Positions, Row};
use arrayvec::ArrayVec;
use cns_terms::{Holding, Key, NoMemory};
use std::alloc::Allocator;
use std::marker::Model;

/// Positions in one list of rows, in the order of their keys, which each call halves.
#[derive(Drop)]
pub struct FlatPositions<A: Allocator + Drop> {
    rows: Vec<Row, A>,
}

impl<A: Allocator + Drop> Model for FlatPositions<A> {
    ghost use Rattle.std.specs.Prelude.{◌≡◌, true};
    ghost use Rattle.std.specs.FinMap.{is_sorted};
    ghost use Rattle.cns_terms.specs.Keys.{key_cmp};
    ghost use Rattle.cns_positions.specs.Rows.{Rows};

    ghost Value = { Rows };

    ghost view = { λ p. p.rows.items };

    ghost invariant = { λ p. is_sorted key_cmp p.rows.items ≡ true };
}

// Where the key's row is, or where it would go.
fn place(rows: &[Row], key: &Key) -> Result<usize, usize>
    requires { is_sorted key_cmp rows.now ≡ true }
    ensures bound { IsSearchInRange result (length rows.now) }
    ensures found { IfOk result (HoldsAt (λ r. key_cmp r.0 key.now ≡ Ordering.Equal) rows.now) }
    ensures absent { IfErr result
        (IsPartitionPoint (λ r. key_cmp r.0 key.now ≡ Ordering.Less)
        (λ r. key_cmp r.0 key.now ≡ Ordering.Greater) rows.now) }
{
    rows.binary_search_by(|row| row.0.cmp(key))
}

// Gives the key a row of zeros where it has none.
fn enter<A: Allocator + Drop>(rows: &mut Vec<Row, A>, key: &Key) -> Result<(), NoMemory>
    requires { is_sorted key_cmp rows.old.items ≡ true }
    ensures sorted { is_sorted key_cmp rows.new.items ≡ true }
    ensures there { OnOk result (has_row rows.new.items key.now ≡ true) }
    ensures kept { (k : Key) → has_row rows.old.items k ≡ true → has_row rows.new.items k ≡ true }
    ensures others { (k : Key) → k ≢ key.now → row_at rows.new.items k ≡ row_at rows.old.items k }
    ensures memory { OnErr result (row_at rows.old.items key.now ≡ None) }
    ensures same { (k : Key) → holding_at rows.new.items k ≡ holding_at rows.old.items k }
{
    match place(rows.as_slice(), key) {
        Ok(_) => Ok(()),
        Err(at) => {
            rows.insert(at, (*key, Holding::ZEROS))?;
            Ok(())
        }
    }
}

// Gives each key a row of zeros where it has none.
#[tactic(auto, using(crate::proofs::Entering::other_key, std::proofs::lemmas::List::take_all))]
fn enter_all<A: Allocator + Drop>(rows: &mut Vec<Row, A>, keys: &[Key]) -> Result<(), NoMemory>
    requires { is_sorted key_cmp rows.old.items ≡ true }
    ensures sorted { is_sorted key_cmp rows.new.items ≡ true }
    ensures there { OnOk result ((k : Key) → Contains keys.now k → has_row rows.new.items k ≡ true) }
    ensures kept { (k : Key) → has_row rows.old.items k ≡ true → has_row rows.new.items k ≡ true }
    ensures others { (k : Key) → ¬ Contains keys.now k → row_at rows.new.items k ≡ row_at rows.old.items k }
    ensures memory { OnErr result (Any (λ k. row_at rows.old.items k ≡ None) keys.now) }
    ensures same { (k : Key) → holding_at rows.new.items k ≡ holding_at rows.old.items k }
{
    for key in keys {
        enter(rows, key)?;
    }
    Ok(())
}

// Books shares and cents in the key's row.
fn book(rows: &mut [Row], key: &Key, shares: i64, cents: i128)
    requires sorted { is_sorted key_cmp rows.old ≡ true }
    requires there { has_row rows.old key.now ≡ true }
    requires shares_fit { FitsSigned w64 ((holding_at rows.old key.now).now +ℤ shares) }
    requires cents_fit { FitsSigned w128 ((holding_at rows.old key.now).contract +ℤ cents) }
    ensures sorted { is_sorted key_cmp rows.new ≡ true }
    ensures places { (k : Key) → has_row rows.new k ≡ has_row rows.old k }
    ensures others { (k : Key) → k ≢ key.now → row_at rows.new k ≡ row_at rows.old k }
    ensures booked { (k : Key) → holding_at rows.new k
        ≡ booked (entry_of key.now shares cents) k (holding_at rows.old k) }
{
    if let Ok(at) = place(rows, key) {
        add_to(&mut rows[at].1, shares, cents);
    }
}

// Brings an age to the key's row.
fn carry(rows: &mut [Row], key: &Key, age: u32)
    requires sorted { is_sorted key_cmp rows.old ≡ true }
    requires there { has_row rows.old key.now ≡ true }
    ensures sorted { is_sorted key_cmp rows.new ≡ true }
    ensures places { (k : Key) → has_row rows.new k ≡ has_row rows.old k }
    ensures others { (k : Key) → k ≢ key.now → row_at rows.new k ≡ row_at rows.old k }
    ensures carried { (k : Key) → holding_at rows.new k ≡ aged key.now age k (holding_at rows.old k) }
{
    if let Ok(at) = place(rows, key) {
        carry_to(&mut rows[at].1, age);
    }
}

// What a close makes of each row.
fn close_all(rows: &mut [Row])
    ensures { rows.new ≡ closed_rows rows.old }
{
    for row in rows.iter_mut() {
        row.1 = rolled(row.1);
    }
}

// The rows above a key, or all.
fn rows_above(rows: &[Row], after: Option<Key>) -> &[Row]
    requires { is_sorted key_cmp rows.now ≡ true }
    ensures { held_above result.now None ≡ held_above rows.now after }
{
    match after {
        Some(key) => &rows[rows.partition_point(|row| row.0 <= key)..],
        None => rows,
    }
}

// The first row that isn't zeros.
fn first_held(rows: &[Row]) -> Option<Row>
    ensures { result ≡ find (λ r. is_held r.1) rows.now }
{
    rows.iter().find(|row| is_held(row.1)).copied()
}

// The first rows that aren't zeros, as many as are handed out at once.
fn first_rows(rows: &[Row]) -> NextRows
    ensures first { (rest : List (Key × Holding)) × (held_above rows.now None ≡ present result.items ++ rest) }
    ensures left { present result.items ≡ [] → held_above rows.now None ≡ [] }
{
    let mut given: NextRows = ArrayVec::new();
    for row in rows {
        if given.is_full() {
            break;
        }
        if is_held(row.1) {
            given.push(Some(*row));
        }
    }
    given
}

impl<A: Allocator + Drop + Clone> Positions<A> for FlatPositions<A> {
    ghost rows = { λ p. p };

    fn new(alloc: A) -> Self {
        FlatPositions {
            rows: Vec::new(alloc),
        }
    }

    fn in_order(&self) {
        let _ = self.rows.as_slice();
    }

    #[tactic(auto, using(crate::proofs::Holdings::found_here))]
    fn get(&self, key: Key) -> Holding {
        match place(self.rows.as_slice(), &key) {
            Ok(at) => self.rows[at].1,
            Err(_) => Holding::ZEROS,
        }
    }

    fn get_two(&self, first: Key, second: Key) -> (Holding, Holding) {
        (self.get(first), self.get(second))
    }

    fn prepare(&mut self, keys: &[Key]) -> Result<(), NoMemory> {
        enter_all(&mut self.rows, keys)
    }

    fn enter(&mut self, key: Key) -> Result<(), NoMemory> {
        enter(&mut self.rows, &key)
    }

    fn add(&mut self, key: Key, shares: i64, cents: i128) {
        book(self.rows.as_mut_slice(), &key, shares, cents);
    }

    #[tactic(auto, using(std::proofs::lemmas::List::take_at))]
    fn carry(&mut self, key: Key, age: u32) {
        carry(self.rows.as_mut_slice(), &key, age);
    }

    #[tactic(auto, using(crate::proofs::Holdings::find_closed, crate::proofs::Holdings::sorted_closed, std::proofs::lemmas::List::take_at))]
    fn roll(&mut self) {
        close_all(self.rows.as_mut_slice());
    }

    fn next_row(&self, after: Option<Key>) -> Option<Row> {
        first_held(rows_above(self.rows.as_slice(), after))
    }

    #[tactic(auto, using(crate::proofs::Held::next_given))]
    fn next_rows(&self, after: Option<Key>) -> NextRows {
        first_rows(rows_above(self.rows.as_slice(), after))
    }

    fn rebuilt(&self, given: &[Row]) -> Result<Self, NoMemory> {
        let mut rows = Vec::new(self.rows.allocator().clone()?);
        rows.extend_from_slice(given)?;
        Ok(FlatPositions { rows })
    }
}
