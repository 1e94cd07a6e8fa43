// The history of the book.
ghost use Rattle.std.specs.Prelude.{◌≡◌, ◌↔◌, true};

use crate::command::Command;
use crate::reply::Reply;
use crate::worker::Worker;

/// An entry of the history: a command that was taken, and its reply.
#[derive(Clone, Copy)]
pub struct Taken {
    pub worker: Worker,
    /// The number of the command among the worker's, from 1.
    pub seq: u32,
    pub command: Command,
    pub reply: Reply,
}

impl Taken {
    /// Whether both are the same value.
    pub fn is_same(&self, other: &Taken) -> bool
        ensures { (result ≡ true) ↔ (self.now ≡ other.now) }
    {
        self.worker == other.worker
            && self.seq == other.seq
            && self.command.is_same(&other.command)
            && self.reply.is_same(&other.reply)
    }
}
