// What opening a desk and running workers answer.
use cns_terms::NoMemory;
use std::alloc::AllocFailed;
use std::convert::From;
use thiserror::Error;

/// Why a desk was not opened.
#[derive(Clone, Copy, Debug, PartialEq, Eq, Error)]
pub enum OpenFault {
    /// The number of workers is not 1 to 64.
    #[error("not 1 to 64 workers")]
    Workers,
    /// An allocation failed.
    #[error("out of memory")]
    NoMemory,
}

impl From<NoMemory> for OpenFault {
    ghost use Rattle.std.specs.Prelude.{◌≡◌};
    ghost use Rattle.cns_desk.specs.declared.fault.OpenFault.TheVariants as faults;

    ghost from_gives = { λ _ e. e ≡ faults.NoMemory };

    fn from(_refused: NoMemory) -> OpenFault {
        OpenFault::NoMemory
    }
}

/// Why a run came to no outcome. All workers that were started have ended.
#[derive(Clone, Copy, Debug, PartialEq, Eq, Error)]
pub enum RunFault {
    /// The number of sources is not 1 to 64.
    #[error("not 1 to 64 workers")]
    Workers,
    /// A thread could not be started.
    #[error("a worker could not be started")]
    Spawn,
    /// An allocation failed outside any worker.
    #[error("out of memory")]
    NoMemory,
    /// A log was not its worker's part of the history.
    #[error("a log differs from the history")]
    Mismatch,
}

impl From<OpenFault> for RunFault {
    ghost use Rattle.std.specs.Prelude.{◌≡◌};
    ghost use Rattle.cns_desk.specs.Worked.{run_fault_of};

    ghost from_gives = { λ f e. e ≡ run_fault_of f };

    fn from(fault: OpenFault) -> RunFault {
        match fault {
            OpenFault::Workers => RunFault::Workers,
            OpenFault::NoMemory => RunFault::NoMemory,
        }
    }
}

impl<T: Drop> From<AllocFailed<T>> for RunFault {
    ghost use Rattle.std.specs.Prelude.{◌≡◌};
    ghost use Rattle.cns_desk.specs.declared.fault.RunFault.TheVariants as faults;

    ghost from_gives = { λ _ e. e ≡ faults.NoMemory };

    fn from(_refused: AllocFailed<T>) -> RunFault {
        RunFault::NoMemory
    }
}
