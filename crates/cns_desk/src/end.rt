// How a worker ended.
use cns_terms::SourceFault;

/// Why a worker takes no more commands.
#[derive(Clone, Copy, PartialEq, Eq)]
pub enum End {
    /// Its source was finished.
    Complete,
    /// Its source failed, or the worker has read 4,294,967,295 records, which is `Read`.
    Source(SourceFault),
    /// A growth of the book or of the log was refused.
    NoMemory,
    /// The history is at its limit.
    Full,
}
