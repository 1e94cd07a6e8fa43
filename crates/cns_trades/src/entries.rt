// The entries that movements book.
ghost use Rattle.std.specs.Prelude.{◌≡◌};
ghost use Rattle.cns_terms.specs.Entries.{moved_in, moved_out};
ghost use Rattle.cns_trades.specs.Checks.{IsSmallEntry};

use cns_terms::{Entry, Movement};
use cns_units::Account;

/// Shares that come to an account by a movement.
pub fn moved_in(account: Account, movement: &Movement) -> Entry
    ensures entry { result ≡ moved_in account movement.now }
    ensures small { IsSmallEntry result }
{
    Entry {
        account,
        issue: movement.issue,
        shares: movement.shares.value() as i64,
        cents: 0,
    }
}

/// Shares that leave an account by a movement.
pub fn moved_out(account: Account, movement: &Movement) -> Entry
    ensures entry { result ≡ moved_out account movement.now }
    ensures small { IsSmallEntry result }
{
    Entry {
        account,
        issue: movement.issue,
        shares: -(movement.shares.value() as i64),
        cents: 0,
    }
}
