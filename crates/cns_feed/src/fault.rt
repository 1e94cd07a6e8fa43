// Why a record is no command, and why a replay ends early.
use cns_book::TakeFault;
use cns_terms::NoMemory;
use std::convert::From;
use thiserror::Error;

/// Why a record is no command.
///
/// Of several faults the first counts, in this order: the kind, the count of fields, the fields from left to right.
#[derive(Clone, Copy, Debug, PartialEq, Eq, Error)]
pub enum LineFault {
    /// The first field is no kind; kinds are upper case and exact.
    #[error("Kind")]
    Kind,
    /// The number of fields is not the kind's.
    #[error("Count")]
    Count,
    /// A field that must be one or more digits has none, or something else.
    #[error("Number")]
    Number,
    /// A field that must be a date is none.
    #[error("Date")]
    Date,
    /// A field that must be a CUSIP is none.
    #[error("Cusip")]
    Cusip,
    /// The number of a field, however long, is outside its range.
    #[error("Range")]
    Range,
    /// An allocation failed while a field was read. No field of today's records takes memory, so it does not come.
    #[error("NoMemory")]
    NoMemory,
}

/// Why a replay or a load ended before its input did.
#[derive(Clone, Copy, Debug, PartialEq, Eq, Error)]
pub enum ReplayFault {
    /// The reader failed, or 4,294,967,295 records were read, also where the input ends there.
    #[error("Read")]
    Read,
    /// The writer failed, took no byte or could not be flushed.
    #[error("Write")]
    Write,
    /// An allocation failed.
    #[error("NoMemory")]
    NoMemory,
    /// The book's history is at its limit. It does not come, since the history has room for as many commands as records
    /// are read.
    #[error("Full")]
    Full,
}

impl From<NoMemory> for ReplayFault {
    ghost use Rattle.std.specs.Prelude.{◌≡◌};
    ghost use Rattle.cns_feed.specs.declared.fault.ReplayFault.TheVariants as fault;

    ghost from_gives = { λ _ e. e ≡ fault.NoMemory };

    fn from(_missed: NoMemory) -> ReplayFault {
        ReplayFault::NoMemory
    }
}

impl From<TakeFault> for ReplayFault {
    ghost use Rattle.std.specs.Prelude.{◌≡◌};
    ghost use Rattle.cns_feed.specs.Replay.{fault_of_take};

    ghost from_gives = { λ t e. e ≡ fault_of_take t };

    fn from(fault: TakeFault) -> ReplayFault {
        match fault {
            TakeFault::Full => ReplayFault::Full,
            TakeFault::NoMemory => ReplayFault::NoMemory,
        }
    }
}
