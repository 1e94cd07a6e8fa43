// Where the rows of an account begin among all rows.
ghost use Rattle.std.specs.Prelude.{◌≡◌};
ghost use Rattle.cns_sheets.specs.LowestCusip.{lowest};
ghost use Rattle.cns_sheets.specs.Walking.{if_of, lowest_of, passed};

use crate::columns::Columns;
use cns_terms::{Key, Row};
use cns_units::{Account, Cusip};

// The lowest CUSIP in the order of bytes: `#` has the lowest code of all characters that have a value.
#[tactic(auto, unfolding(cns_units::specs::Cusip::sum_of))]
fn lowest() -> Cusip
    ensures { result ≡ lowest }
{
    let Ok(issue) = Cusip::parse(b"########4") else {
        unreachable!()
    };
    issue
}

/// The lowest key of an account, at which the search for its first row begins.
pub fn lowest_of(account: Account) -> Key
    ensures { result ≡ lowest_of account }
{
    let issue = lowest();
    Key { account, issue }
}

/// The row of a key and columns that were found, if it is of an account.
pub fn of_account(found: Option<(Key, Columns)>, account: Account) -> Option<Row>
    ensures { result ≡ if_of account found }
{
    let (key, columns) = found?;
    if key.account == account {
        Some(columns.row(&key))
    } else {
        None
    }
}

/// The key above which the other rows of an account stand, after its first.
pub fn passed(first: &Option<Row>, account: Account) -> Key
    ensures { result ≡ passed account first.now }
{
    match first {
        Some(row) => row.key(),
        None => lowest_of(account),
    }
}
