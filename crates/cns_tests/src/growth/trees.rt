// The calls of a tree that take memory.
ghost use Rattle.std.specs.Prelude.{◌≡◌, IfOk};

use crate::book::tree::filled;
use crate::growth::refusing::Call;
use cns_terms::Key;
use cns_tree::Tree;
use std::alloc::{AllocError, Allocator, Global};
use std::process::Abort;

pub(crate) fn rows_of<V: Copy, A: Allocator + Clone>(
    tree: &Tree<V, A>,
    alloc: Global,
) -> Result<Vec<(Key, V)>, AllocError>
    ensures { IfOk result (λ rows. rows.items ≡ tree.now) }
{
    tree.walk().collect(alloc)
}

// Four boxes.
#[derive(Drop)]
pub(crate) struct Spare<H: Allocator + Clone> {
    tree: Tree<u64, H>,
}

impl<H: Allocator + Drop + Clone> Call<H> for Spare<H> {
    fn prepared(rt: &impl Abort, _global: Global, alloc: H, size: u16) -> Self {
        Spare {
            tree: filled(rt, alloc, size),
        }
    }

    fn make(&mut self, _rt: &impl Abort) -> bool {
        self.tree.spare(4, 0).is_ok()
    }
}

// A tree beside another, on a copy of its allocator.
#[derive(Drop)]
pub(crate) struct Copied<H: Allocator + Clone> {
    tree: Tree<u64, H>,
}

impl<H: Allocator + Drop + Clone> Call<H> for Copied<H> {
    fn prepared(rt: &impl Abort, _global: Global, alloc: H, size: u16) -> Self {
        Copied {
            tree: filled(rt, alloc, size),
        }
    }

    fn make(&mut self, _rt: &impl Abort) -> bool {
        self.tree.copied().is_ok()
    }
}

// A tree of rows that are sorted.
#[derive(Drop)]
pub(crate) struct FromSorted<H> {
    alloc: H,
    global: Global,
    rows: Tree<u64, Global>,
}

impl<H: Allocator + Drop + Clone> Call<H> for FromSorted<H> {
    fn prepared(rt: &impl Abort, global: Global, alloc: H, size: u16) -> Self {
        FromSorted {
            alloc,
            global,
            rows: filled(rt, global, size),
        }
    }

    fn make(&mut self, rt: &impl Abort) -> bool {
        // The call tells the prover that the rows are in order.
        let _ = self.rows.len();
        let rows = rows_of(&self.rows, self.global).expect(rt, "memory");
        match self.alloc.clone() {
            Ok(alloc) => Tree::from_sorted(alloc, rows.as_slice()).is_ok(),
            Err(_) => false,
        }
    }
}
