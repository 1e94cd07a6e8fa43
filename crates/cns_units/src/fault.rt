// Faults of the units.
use thiserror::Error;

/// Why a value or a text is no unit.
#[derive(Clone, Copy, Debug, PartialEq, Eq, Error)]
pub enum UnitFault {
    /// A CUSIP that has not nine characters.
    #[error("wrong length")]
    Length,
    /// A character that no CUSIP has at its place.
    #[error("character not allowed")]
    Character,
    /// A CUSIP whose ninth character is not its check digit.
    #[error("wrong check digit")]
    CheckDigit,
    /// A text that is no `YYYY-MM-DD` of a date from 0001-01-01 to 9999-12-31.
    #[error("no date")]
    Date,
    /// A number outside its unit's range.
    #[error("out of range")]
    OutOfRange,
    /// An allocation failed while a text was read.
    #[error("out of memory")]
    NoMemory,
}

/// A writer failed or took no byte.
#[derive(Clone, Copy, Debug, PartialEq, Eq, Error)]
#[error("write failed")]
pub struct WriteFault;
