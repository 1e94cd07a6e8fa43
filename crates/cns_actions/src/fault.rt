// Faults of splits and exchanges.
use cns_terms::NoMemory;
use thiserror::Error;

/// Why no positions were made. Those that were given have not changed.
#[derive(Clone, Copy, Debug, PartialEq, Eq, Error)]
pub enum ActionFault {
    /// After the whole split or exchange a member would be beyond 10^10 shares, long with those that it is to get by trades
    /// that wait, or short with those that it is to give.
    #[error("position too large")]
    TooLarge,
    /// Trades wait for their date in the issue that was to be exchanged, which would retire it.
    #[error("an issue with trades that wait is not exchanged")]
    PendingTrades,
    /// An allocation failed.
    #[error("out of memory")]
    NoMemory,
}

impl From<NoMemory> for ActionFault {
    ghost use Rattle.std.specs.Prelude.{◌≡◌};
    ghost use Rattle.cns_actions.specs.declared.fault.ActionFault.TheVariants as fault;

    ghost from_gives = { λ _ e. e ≡ fault.NoMemory };

    fn from(_missed: NoMemory) -> ActionFault {
        ActionFault::NoMemory
    }
}
