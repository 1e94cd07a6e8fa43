// Keys and the columns of their rows, of which a tree is made.
ghost use Rattle.std.specs.Prelude.{◌≡◌, ◌∷◌, ◌++◌, [], IfOk, OnOk, true};
ghost use Rattle.std.specs.FinMap.{is_sorted};
ghost use Rattle.cns_terms.specs.Keys.{key_cmp};
ghost use Rattle.cns_sheets.specs.Build.{by_key, full_row, full_rows};

use crate::columns::Columns;
use cns_terms::{Key, NoMemory, Row};
use cns_tree::{Builder, Tree};
use std::alloc::Allocator;
use std::marker::Model;

/// Rows in the order in which they were pushed, each as its key and its columns in a box, of which a sheet's tree is made.
/// Contracts see the rows.
#[derive(Drop)]
pub struct KeyedRows<A: Allocator + Drop + Clone> {
    boxed: Builder<Columns, A>,
}

impl<A: Allocator + Drop + Clone> Model for KeyedRows<A> {
    ghost use Rattle.std.specs.Prelude.{List};
    ghost use Rattle.cns_terms.specs.declared.sheet.Row.{Row};
    ghost use Rattle.cns_sheets.specs.Build.{full_rows};

    ghost Value = { List Row };

    ghost view = { λ k. full_rows k.boxed };
}

impl<A: Allocator + Drop + Clone> KeyedRows<A> {
    /// No rows, with room for some.
    pub fn with_capacity(alloc: A, room: usize) -> Result<Self, NoMemory>
        ensures { IfOk result (λ rows. rows ≡ []) }
    {
        Ok(KeyedRows {
            boxed: Builder::with_capacity(alloc, room)?,
        })
    }

    /// Puts the row of a key after the others.
    pub fn push(&mut self, key: Key, columns: Columns) -> Result<(), NoMemory>
        ensures { OnOk result (self.new ≡ self.old ++ full_row (key, columns) ∷ []) }
    {
        self.boxed.push(key, columns)
    }

    /// The tree of their columns, by their keys, which have to rise. It takes no memory.
    #[tactic(auto, using(crate::proofs::Walked::sorted_filled))]
    pub fn tree(self) -> Tree<Columns, A>
        requires { is_sorted key_cmp (by_key self) ≡ true }
        ensures { full_rows result ≡ self }
    {
        self.boxed.tree()
    }
}
