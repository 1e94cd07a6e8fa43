// The rows of a statement.
ghost use Rattle.std.specs.Prelude.{◌≡◌, ◌<◌, IfOk, length, OnErr, slice_get};

use cns_sheets::AccountRows;
use cns_terms::{NoMemory, Row};
use std::alloc::Allocator;
use std::marker::Model;

/// The rows of a statement, in the order of the bytes of their issues. Contracts see the list of them.
#[derive(Drop)]
pub struct Rows<A: Allocator + Drop> {
    items: Vec<Row, A>,
}

impl<A: Allocator + Drop> Model for Rows<A> {
    ghost use Rattle.std.specs.Prelude.{List};
    ghost use Rattle.cns_terms.specs.declared.sheet.Row.{Row};

    ghost Value = { List Row };

    ghost view = { λ r. r.items.items };
}

impl<A: Allocator + Drop> Rows<A> {
    /// The rows of a list, which takes no memory.
    pub fn of(items: Vec<Row, A>) -> Self
        ensures { result ≡ items.items }
    {
        Rows { items }
    }

    // A copy of some rows, of which there are `count`. `NoMemory` where the allocation failed; no rows take no memory.
    pub(crate) fn copied<B: Allocator + Clone>(
        alloc: A,
        count: u64,
        rows: AccountRows<'_, B>,
    ) -> Result<Self, NoMemory>
        requires { count ≡ length rows }
        ensures ok { IfOk result (λ r. r ≡ rows.entry) }
        ensures err { OnErr result (0 < length rows.entry) }
    {
        let mut items = Vec::new(alloc);
        items.reserve_exact(count as usize)?;
        for row in rows {
            items.push(row)?;
        }
        Ok(Rows { items })
    }

    /// The row at a place, from 0; None past the last.
    pub fn get(&self, place: usize) -> Option<Row>
        ensures { result ≡ slice_get self.now place }
    {
        self.items.as_slice().get(place).copied()
    }

    /// How many rows there are.
    pub fn len(&self) -> usize
        ensures { result ≡ length self.now }
    {
        self.items.len()
    }

    /// The rows.
    pub(crate) fn as_slice(&self) -> &[Row]
        ensures { result.now ≡ self.now }
    {
        self.items.as_slice()
    }
}
