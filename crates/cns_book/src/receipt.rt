// What taking a command answers.
use cns_terms::{NoMemory, Reply};
use std::alloc::AllocError;
use std::convert::From;
use thiserror::Error;

/// What a command that was taken got.
#[derive(Clone, Copy)]
pub struct Receipt {
    /// The entry's place in the history, from 1.
    pub index: u32,
    /// The command's number among its worker's, from 1.
    pub seq: u32,
    pub reply: Reply,
}

/// Why a command was not taken. The log of the book is as it was.
#[derive(Clone, Copy, Debug, PartialEq, Eq, Error)]
pub enum TakeFault {
    /// The history is at its limit.
    #[error("the history is full")]
    Full,
    /// An allocation failed.
    #[error("out of memory")]
    NoMemory,
}

impl From<AllocError> for TakeFault {
    ghost use Rattle.std.specs.Prelude.{◌≡◌};
    ghost use Rattle.cns_book.specs.declared.receipt.TakeFault.TheVariants as faults;

    ghost from_gives = { λ _ e. e ≡ faults.NoMemory };

    fn from(_refused: AllocError) -> TakeFault {
        TakeFault::NoMemory
    }
}

impl From<NoMemory> for TakeFault {
    ghost use Rattle.std.specs.Prelude.{◌≡◌};
    ghost use Rattle.cns_book.specs.declared.receipt.TakeFault.TheVariants as faults;

    ghost from_gives = { λ _ e. e ≡ faults.NoMemory };

    fn from(_refused: NoMemory) -> TakeFault {
        TakeFault::NoMemory
    }
}
