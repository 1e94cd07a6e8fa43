// Whether two sheets have the same prices and rows.
ghost use Rattle.std.specs.Prelude.{◌≡◌, ◌↔◌, true};

use crate::walks::SheetRows;
use cns_units::{Cusip, Price};
use std::alloc::Allocator;

// Whether the prices are the same, issue by issue.
pub(crate) fn same_prices(one: &[(Cusip, Price)], other: &[(Cusip, Price)]) -> bool
    ensures { (result ≡ true) ↔ (one.now ≡ other.now) }
{
    one == other
}

// Whether the rows are the same.
pub(crate) fn same_rows<A: Allocator + Clone>(
    one: SheetRows<'_, A>,
    other: SheetRows<'_, A>,
) -> bool
    ensures { (result ≡ true) ↔ (one.entry ≡ other.entry) }
{
    let mut other = other;
    for row in one {
        let Some(next) = other.next() else {
            return false;
        };
        if !next.is_same(&row) {
            return false;
        }
    }
    other.next().is_none()
}
