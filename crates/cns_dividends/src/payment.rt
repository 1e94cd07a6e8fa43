// The cash of a dividend.
ghost use Rattle.std.specs.Prelude.{◌≡◌};
ghost use Rattle.cns_terms.specs.Dividends.{cash};

use cns_units::{Cents, Rate};

// Millionths of a dollar to a cent.
const MILLIONTHS_PER_CENT: i128 = 10_000;

/// The cash that a dividend pays on a position at the close of its record date, in whole cents cut towards zero: a long
/// position gets it, and a short one owes it as a negative amount (NSCC Procedure VII; the cut is this project's
/// profile). `position` is in shares, above 0 long and below 0 short. Any position has an answer, and it takes no memory.
pub fn cash(position: i64, rate: Rate) -> Cents
    ensures { result ≡ cash position rate }
{
    let millionths = i128::from(position) * i128::from(rate.value());
    Cents::of(millionths / MILLIONTHS_PER_CENT)
}
