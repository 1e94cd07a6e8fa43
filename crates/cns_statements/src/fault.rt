// Why statements are not packed.
use cns_terms::NoMemory;
use std::convert::From;
use thiserror::Error;

/// Why the statements of a day were not packed. All workers that were started have ended.
#[derive(Clone, Copy, Debug, PartialEq, Eq, Error)]
pub enum PackFault {
    /// The number of workers is not 1 to 64.
    #[error("not 1 to 64 workers")]
    Workers,
    /// A worker could not be started.
    #[error("a worker could not be started")]
    Spawn,
    /// An allocation failed.
    #[error("out of memory")]
    NoMemory,
}

impl From<NoMemory> for PackFault {
    ghost use Rattle.std.specs.Prelude.{◌≡◌};
    ghost use Rattle.cns_statements.specs.declared.fault.PackFault.TheVariants as faults;

    ghost from_gives = { λ _ e. e ≡ faults.NoMemory };

    fn from(_refused: NoMemory) -> PackFault {
        PackFault::NoMemory
    }
}
