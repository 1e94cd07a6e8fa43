// Where a worker's commands come from.
ghost use Rattle.std.specs.Prelude.{Bool, Option};
ghost use Rattle.cns_terms.specs.Sources.{Answer, Ends, Gives, Repeats, Told};

use crate::command::Command;

/// What a source gives.
#[derive(Clone, Copy)]
pub enum Item {
    /// The next command.
    Given(Command),
    /// A record that cannot be read as a command.
    Line,
    /// There is no more.
    Finished,
}

/// Why a source gives no more.
#[derive(Clone, Copy, PartialEq, Eq)]
pub enum SourceFault {
    /// What is read from failed, or gave as many records as one worker reads.
    Read,
    /// An allocation failed.
    NoMemory,
}

/// A source of commands, as a list in memory or the records of a file.
///
/// Where it tells what it still has to give, each answer is the first of that, or the end where nothing is left; or it
/// is `NoMemory`; or, where the source may fail, `Read`.
pub trait Source {
    /// What it still has to give, and its end, where it tells them.
    ghost told: { Self → Option Told };

    /// Its last answer, once that was Finished or a fault.
    ghost ended: { Self → Option Answer };

    /// Whether it may answer `Read` before what it tells is given.
    ghost may_fail: { Bool };

    /// The next item. After Finished or a fault it answers the same again.
    fn next(&mut self) -> Result<Item, SourceFault>
        ensures gives { Gives may_fail (told self.old) result (told self.new) }
        ensures repeats { Repeats (ended self.old) result (ended self.new) }
        ensures ends { Ends result (ended self.new) };
}
