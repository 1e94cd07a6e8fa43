// The contract that every form of positions keeps.
ghost use Rattle.std.specs.Prelude.{◌≡◌, ◌≢◌, ◌≤◌, ◌+ℤ◌, List, [], ◌∷◌, Some, length, IfOk, OnOk, OnErr, MatchOption, FitsSigned, true, Any, Contains};
ghost use Rattle.std.specs.FinMap.{is_sorted};
ghost use Rattle.std.specs.Int.{w64, w128};
ghost use Rattle.cns_terms.specs.Keys.{key_cmp};
ghost use Rattle.cns_terms.specs.declared.holding.Key.{Key};
ghost use Rattle.cns_terms.specs.declared.holding.Holding.{Holding};
ghost use Rattle.cns_positions.specs.Rows.{AreNext, aged, holding_at, booked, entry_of, has_row, rolled, row_at, held_above, present};

use arrayvec::ArrayVec;
use cns_terms::{Holding, Key, NoMemory};

/// A key and what stands at it.
pub(crate) type Row = (Key, Holding);

/// How many rows `next_rows` hands out at most.
pub const ROWS_AT_ONCE: usize = 32;

/// Rows that are handed out at once. Each of them is there; the option is for the places that stay free.
pub type NextRows = ArrayVec<Option<Row>, ROWS_AT_ONCE>;

/// What stands at each key: a finite map in which an absent key counts as zeros.
///
/// Contracts see its rows, in the order of keys. The clauses speak of what stands at each key, so that a form may keep
/// rows of zeros where that serves it; and of which keys have a row, since a booking takes no memory there.
pub trait Positions<A>: Drop {
    /// The rows, in the order of their keys.
    ghost rows: { Self → List (Key × Holding) };

    /// Nothing stands anywhere.
    fn new(alloc: A) -> Self
        ensures { rows result ≡ [] };

    /// The rows are in the order of their keys. It does nothing; a caller's proof may want to know.
    fn in_order(&self)
        ensures { is_sorted key_cmp (rows self.now) ≡ true };

    /// What stands at a key.
    fn get(&self, key: Key) -> Holding
        ensures { result ≡ holding_at (rows self.now) key };

    /// What stands at two keys, as `get` gives it for each. A form may look for both at once.
    fn get_two(&self, first: Key, second: Key) -> (Holding, Holding)
        ensures first { result.0 ≡ holding_at (rows self.now) first }
        ensures second { result.1 ≡ holding_at (rows self.now) second };

    /// Gives each of the keys a row, as `enter` does for one, so that `add` takes no memory at them. What stands at each key
    /// stays, and no key but these gets a row or loses one.
    ///
    /// `NoMemory` where an allocation failed, which only a key without a row asks for; rows of zeros that were made stay.
    fn prepare(&mut self, keys: &[Key]) -> Result<(), NoMemory>
        ensures same { (k : Key) → holding_at (rows self.new) k ≡ holding_at (rows self.old) k }
        ensures others { (k : Key) → ¬ Contains keys.now k → row_at (rows self.new) k ≡ row_at (rows self.old) k }
        ensures kept { (k : Key) → has_row (rows self.old) k ≡ true → has_row (rows self.new) k ≡ true }
        ensures order { is_sorted key_cmp (rows self.new) ≡ true }
        ensures ok { OnOk result ((k : Key) → Contains keys.now k → has_row (rows self.new) k ≡ true) }
        ensures memory { OnErr result (Any (λ k. row_at (rows self.old) k ≡ None) keys.now) };

    /// Gives a key a row, of zeros where it has none, so that `add` and `carry` take no memory at it. What stands at each key
    /// stays, and no other key gets a row or loses one.
    ///
    /// `NoMemory` where an allocation failed, which a key that has a row doesn't ask for.
    fn enter(&mut self, key: Key) -> Result<(), NoMemory>
        ensures same { (k : Key) → holding_at (rows self.new) k ≡ holding_at (rows self.old) k }
        ensures others { (k : Key) → k ≢ key → row_at (rows self.new) k ≡ row_at (rows self.old) k }
        ensures kept { (k : Key) → has_row (rows self.old) k ≡ true → has_row (rows self.new) k ≡ true }
        ensures order { is_sorted key_cmp (rows self.new) ≡ true }
        ensures ok { OnOk result (has_row (rows self.new) key ≡ true) }
        ensures memory { OnErr result (row_at (rows self.old) key ≡ None) };

    /// Books shares and cents at a key that has a row. No key gets one or loses one.
    fn add(&mut self, key: Key, shares: i64, cents: i128)
        requires there { has_row (rows self.old) key ≡ true }
        requires shares_fit { FitsSigned w64 ((holding_at (rows self.old) key).now +ℤ shares) }
        requires cents_fit { FitsSigned w128 ((holding_at (rows self.old) key).contract +ℤ cents) }
        ensures booked { (k : Key) → holding_at (rows self.new) k
            ≡ booked (entry_of key shares cents) k (holding_at (rows self.old) k) }
        ensures others { (k : Key) → k ≢ key → row_at (rows self.new) k ≡ row_at (rows self.old) k }
        ensures places { (k : Key) → has_row (rows self.new) k ≡ has_row (rows self.old) k }
        ensures order { is_sorted key_cmp (rows self.new) ≡ true };

    /// Brings the age of a short to a key that has a row: the greatest that exchanges brought there on the day stays (this
    /// project's profile). No key gets a row or loses one.
    fn carry(&mut self, key: Key, age: u32)
        requires { has_row (rows self.old) key ≡ true }
        ensures carried { (k : Key) → holding_at (rows self.new) k ≡ aged key age k (holding_at (rows self.old) k) }
        ensures others { (k : Key) → k ≢ key → row_at (rows self.new) k ≡ row_at (rows self.old) k }
        ensures places { (k : Key) → has_row (rows self.new) k ≡ has_row (rows self.old) k }
        ensures order { is_sorted key_cmp (rows self.new) ≡ true };

    /// What a close does to every holding. No key gets a row or loses one.
    fn roll(&mut self)
        ensures places { (k : Key) → has_row (rows self.new) k ≡ has_row (rows self.old) k }
        ensures rolled { (k : Key) → holding_at (rows self.new) k ≡ rolled (holding_at (rows self.old) k) }
        ensures order { is_sorted key_cmp (rows self.new) ≡ true };

    /// The first row that isn't zeros, or the first such row above a key.
    fn next_row(&self, after: Option<Key>) -> Option<Row>
        ensures { MatchOption result (held_above (rows self.now) after ≡ [])
            (λ r. held_above (rows self.now) after ≡ r ∷ held_above (rows self.now) (Some r.0)) };

    /// The next of the rows that aren't zeros, above a key or from the first on, as `next_row` gives them one by one. A
    /// pass over all rows asks for those above the last that it was given, until none is given.
    fn next_rows(&self, after: Option<Key>) -> NextRows
        ensures next { AreNext (rows self.now) after (present result.items) }
        ensures order { is_sorted key_cmp (rows self.now) ≡ true };

    /// The map of the given rows, on the allocator of this one. Where memory is refused nothing has changed.
    fn rebuilt(&self, given: &[Row]) -> Result<Self, NoMemory>
        requires { is_sorted key_cmp given.now ≡ true }
        ensures rows { IfOk result (λ p. (k : Key) → holding_at (rows p) k ≡ holding_at given.now k) }
        ensures order { IfOk result (λ p. is_sorted key_cmp (rows p) ≡ true) };
}
