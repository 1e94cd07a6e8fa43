// What trades and movements book: two entries, at keys that have rows. Splits and exchanges book in `cns_actions`.
ghost use Rattle.std.specs.Prelude.{◌≡◌, List, ◌≤◌, ◌*◌, ◌^◌, length, unsigned_abs, OnOk, Contains, true};
ghost use Rattle.cns_terms.specs.declared.holding.Key.{Key};
ghost use Rattle.cns_terms.specs.Keys.{entry_key};
ghost use Rattle.cns_positions.specs.Rows.{booked, books, has_row, holding_at};
ghost use Rattle.cns_trades.specs.Checks.{AreSmallEntries, IsSmallEntry};
ghost use Rattle.cns_book.specs.Effects.{AreThere, AreWithin, places_of, stands};

use cns_positions::Positions;
use cns_terms::{Entry, NoMemory};

/// Whether a position has its row: one of no shares may be without.
pub fn stands(position: Option<i64>) -> bool
    ensures { result ≡ stands position }
{
    match position {
        Some(shares) => shares != 0,
        None => false,
    }
}

/// Gives the places of two entries rows, before anything changes, unless both are known to have theirs. What stands at each
/// key stays, also where memory is refused.
#[tactic(auto, using(crate::proofs::EffectEntries::both_places, crate::proofs::EffectEntries::each_there))]
pub fn prepare<P: Positions<A>, A>(
    positions: &mut P,
    entries: &[Entry; 2],
    have_rows: bool,
) -> Result<(), NoMemory>
    requires { have_rows ≡ true → AreThere (P.rows positions.old) entries.now }
    ensures same { (k : Key) → holding_at (P.rows positions.new) k ≡ holding_at (P.rows positions.old) k }
    ensures others { (k : Key) → ¬ Contains (places_of entries.now) k
        → has_row (P.rows positions.new) k ≡ has_row (P.rows positions.old) k }
    ensures there { OnOk result (AreThere (P.rows positions.new) entries.now) }
{
    if have_rows {
        return Ok(());
    }
    let [first, second] = entries;
    let keys = [first.key(), second.key()];
    positions.prepare(&keys)?;
    Ok(())
}

/// Books entries at keys that have rows, one after another. It takes no memory.
#[tactic(auto, using(crate::proofs::EffectEntries::books_none, crate::proofs::EffectEntries::place_there))]
pub fn book<P: Positions<A>, A>(positions: &mut P, entries: &[Entry])
    requires there { AreThere (P.rows positions.old) entries.now }
    requires small { AreSmallEntries entries.now }
    requires few { length entries.now ≤ 10 ^ 4 }
    requires rows { AreWithin (P.rows positions.old) }
    ensures booked { (k : Key) → holding_at (P.rows positions.new) k
        ≡ books entries.now k (holding_at (P.rows positions.old) k) }
    ensures places { (k : Key) → has_row (P.rows positions.new) k ≡ has_row (P.rows positions.old) k }
{
    for entry in entries {
        add(positions, entry);
    }
}

// Books an entry at a key that has a row.
fn add<P: Positions<A>, A>(positions: &mut P, entry: &Entry)
    requires there { has_row (P.rows positions.old) (entry_key entry.now) ≡ true }
    requires entry { IsSmallEntry entry.now }
    requires shares { unsigned_abs (holding_at (P.rows positions.old) (entry_key entry.now)).now ≤ 2 ^ 62 }
    requires cents { unsigned_abs (holding_at (P.rows positions.old) (entry_key entry.now)).contract ≤ 2 ^ 126 }
    ensures booked { (k : Key) → holding_at (P.rows positions.new) k
        ≡ booked entry.now k (holding_at (P.rows positions.old) k) }
    ensures places { (k : Key) → has_row (P.rows positions.new) k ≡ has_row (P.rows positions.old) k }
{
    positions.add(entry.key(), entry.shares, entry.cents);
}
