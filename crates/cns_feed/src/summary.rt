// The counts of a replay.
ghost use Rattle.std.specs.Prelude.{◌≡◌, ◌-◌, ◌^◌, ◌∷◌, []};
ghost use Rattle.cns_feed.specs.Output.{Adds, no_counts};
ghost use Rattle.cns_feed.specs.Replay.{IsUpTo};

use crate::response::Response;
use cns_terms::Reply;

/// What a replay or a load read.
#[derive(Clone, Copy, PartialEq, Eq)]
pub struct Summary {
    /// How many records were commands, refused ones and queries among them.
    pub commands: u64,
    /// How many records were invalid.
    pub lines: u64,
    /// How many closes were accepted.
    pub closes: u64,
}

impl Summary {
    // Nothing was read yet.
    pub(crate) fn new() -> Summary
        ensures { result ≡ no_counts }
    {
        Summary {
            commands: 0,
            lines: 0,
            closes: 0,
        }
    }

    // Counts one record more.
    pub(crate) fn add(&mut self, response: &Response)
        requires { IsUpTo self.old (2 ^ 64 - 2) }
        ensures { Adds self.old self.new (response.now ∷ []) }
    {
        match response {
            Response::AtFault(_) => self.lines += 1,
            Response::Replied(Reply::Closed(_)) => {
                self.commands += 1;
                self.closes += 1;
            }
            Response::Replied(
                Reply::Accepted
                | Reply::Noticed(_)
                | Reply::Executed(_)
                | Reply::Held(_)
                | Reply::Stated(_)
                | Reply::Refused(_),
            ) => self.commands += 1,
        }
    }
}
