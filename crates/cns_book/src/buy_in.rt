// What an execution books: its shares and its money, for the member that bought them in and for those that it fills.
ghost use Rattle.std.specs.Prelude.{◌≡◌};
ghost use Rattle.cns_terms.specs.declared.holding.Key.{Key};
ghost use Rattle.cns_terms.specs.Entries.{fill_entry, originator_entry};
ghost use Rattle.cns_positions.specs.Rows.{has_row, booked, books, holding_at};
ghost use Rattle.cns_book.specs.Executions.{CanBeBought, CanBeExecuted, CanBeFilled, entries_by, filled_at, notice_of, originator_at};

use cns_positions::Positions;
use cns_terms::{Execution, Fill, Given, Key};

// Books for the member that gave the notice: its position falls by the shares, and it is owed their money.
fn book_originator<P: Positions<A>, A>(positions: &mut P, execution: &Execution, given: &Given)
    requires { CanBeBought (holding_at (P.rows positions.old) (originator_at given.now)) }
    ensures booked { (k : Key) → holding_at (P.rows positions.new) k
        ≡ booked (originator_entry execution.now (notice_of execution.now given.now)) k
        (holding_at (P.rows positions.old) k) }
    ensures places { (k : Key) → has_row (P.rows positions.new) k ≡ has_row (P.rows positions.old) k }
{
    let key = Key {
        account: given.member.account(),
        issue: given.issue,
    };
    positions.add(
        key,
        -(execution.shares.value() as i64),
        i128::from(execution.money.value()),
    );
}

// Books for a member that is filled: it gets its shares, and owes its part of the money.
fn book_fill<P: Positions<A>, A>(
    positions: &mut P,
    execution: &Execution,
    given: &Given,
    fill: &Fill,
)
    requires { CanBeFilled (holding_at (P.rows positions.old) (filled_at given.now fill.now)) fill.now }
    ensures booked { (k : Key) → holding_at (P.rows positions.new) k
        ≡ booked (fill_entry (notice_of execution.now given.now) fill.now) k (holding_at (P.rows positions.old) k) }
    ensures places { (k : Key) → has_row (P.rows positions.new) k ≡ has_row (P.rows positions.old) k }
{
    let key = Key {
        account: fill.member.account(),
        issue: given.issue,
    };
    positions.add(key, fill.shares as i64, -i128::from(fill.cents));
}

/// Books an execution. All rows are there, since the member that gave the notice is long and those that are filled are
/// short, so it takes no memory.
pub fn book_fills<P: Positions<A>, A>(
    positions: &mut P,
    execution: &Execution,
    given: &Given,
    fills: &[Fill],
)
    requires { CanBeExecuted (P.rows positions.old) given.now fills.now }
    ensures booked { (k : Key) → holding_at (P.rows positions.new) k
        ≡ books (entries_by execution.now given.now fills.now) k (holding_at (P.rows positions.old) k) }
    ensures places { (k : Key) → has_row (P.rows positions.new) k ≡ has_row (P.rows positions.old) k }
{
    book_originator(positions, execution, given);
    for fill in fills {
        book_fill(positions, execution, given, fill);
    }
}
