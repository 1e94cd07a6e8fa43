//! An allocator for tests, which refuses one growth and grants all others.
//!
//! `Rationed` passes each growth on to another allocator. `Rationed::ration` says how many growths are granted from then
//! on; the next one is refused, and all after it are granted again. `Rationed::refused` tells whether that growth was asked
//! for, and `Rationed::held` how many blocks were not given back. So a test can let a call's first growth fail, then its
//! second, and so on, until the call asks for no more; and it can see that a call says that it found no memory exactly
//! where a growth was refused.
//!
//! Collections hold a `&Rationed`, which can always be copied. A copy of a `Rationed` itself asks its inner allocator for
//! memory, so a `Rationed<&Rationed<..>>` is a handle whose copies can be refused.
//!
//! What an allocator promises is proved of it. How it counts is told by running it alone: no contract sees a cell.
#![tactic(auto)]

use std::alloc::{AllocError, Allocator};
use std::cell::Cell;

// What is asked of an allocator, and which growth it refuses.
#[derive(Drop)]
struct Ration {
    // Growths to grant before the one that is refused.
    left: Cell<u64>,
    refused: Cell<u64>,
    held: Cell<u64>,
}

impl Ration {
    // More growths than a test asks for.
    fn without_end() -> Ration {
        Ration {
            left: Cell::new(u64::MAX),
            refused: Cell::new(0),
            held: Cell::new(0),
        }
    }

    // A growth is asked for: whether it is granted.
    fn grants(&self) -> bool {
        let left = self.left.get();
        self.left.set(left.wrapping_sub(1));
        if left == 0 {
            self.refused.set(self.refused.get().wrapping_add(1));
            return false;
        }
        self.held.set(self.held.get().wrapping_add(1));
        true
    }

    // A block is given back.
    fn takes_back(&self) {
        self.held.set(self.held.get().wrapping_sub(1));
    }
}

/// Passes each growth on to another allocator, but for the one that its ration does not reach.
///
/// A `Vec` that grows asks for one growth: its old block is given back once the new one is filled.
#[derive(Drop)]
pub struct Rationed<B: Allocator> {
    inner: B,
    ration: Ration,
}

impl<B: Allocator> Rationed<B> {
    /// Grants every growth until it is given a ration.
    pub fn new(inner: B) -> Rationed<B> {
        Rationed {
            inner,
            ration: Ration::without_end(),
        }
    }

    /// Grants so many growths more, refuses the next, and grants all after it.
    pub fn ration(&self, growths: u64) {
        self.ration.left.set(growths);
        self.ration.refused.set(0);
    }

    /// How many growths were refused since the last ration: 0 or 1.
    pub fn refused(&self) -> u64 {
        self.ration.refused.get()
    }

    /// How many blocks are lent.
    pub fn held(&self) -> u64 {
        self.ration.held.get()
    }
}

impl<B: Allocator + Clone> Clone for Rationed<B> {
    // The block is given back at once; where it is refused, so is the copy.
    fn clone(&self) -> Result<Self, AllocError> {
        drop(Box::new(&self.inner, 0u8)?);
        Ok(Rationed::new(self.inner.clone()?))
    }
}

unsafe impl<B: Allocator> Allocator for Rationed<B> {
    ghost dealloc_token = { λ heap ty ptr. B.dealloc_token heap.inner ty ptr };

    fn allocate(&self, size: usize, align: usize) -> Result<*mut u8, AllocError> {
        if self.ration.grants() {
            return self.inner.allocate(size, align);
        }
        Err(AllocError)
    }

    unsafe fn deallocate(&self, ptr: *mut u8, size: usize, align: usize) {
        self.ration.takes_back();
        self.inner.deallocate(ptr, size, align);
    }
}
