// The entries of a book's history, one after another.
ghost use Rattle.std.specs.Prelude.{◌≡◌, Option};
ghost use Rattle.cns_history.specs.Entries.{looked_at, trade_of};

use cns_feed::ReplayBook;
use cns_terms::{Activity, Command, Reply, Taken, Trade};
use std::marker::Model;

/// An iterator over the entries of a book's history, the oldest first. Contracts see the entries that it has left.
#[derive(Drop)]
pub struct Entries<'a> {
    book: &'a ReplayBook,
    // How many entries it has passed.
    passed: u32,
}

impl<'a> Model for Entries<'a> {
    ghost use Rattle.std.specs.Prelude.{List, drop};
    ghost use Rattle.cns_terms.specs.declared.history.Taken.{Taken};
    ghost use Rattle.cns_history.specs.Entries.{looked_at};

    ghost Value = { List Taken };

    ghost view = { λ e. drop e.passed (looked_at e.book.now.log.history) };
}

/// The entries of a book's history, the oldest first: all, or all but the last where there are 4,294,967,295, the most that a book
/// takes.
pub fn entries_of(book: &ReplayBook) -> Entries<'_>
    ensures { result ≡ looked_at book.now.log.history }
{
    Entries { book, passed: 0 }
}

/// The trade of an entry, where it was accepted.
pub fn accepted_trade(entry: &Taken) -> Option<Trade>
    ensures { result ≡ trade_of entry.now }
{
    match (&entry.command, &entry.reply) {
        (Command::Activity(Activity::Trade(trade)), Reply::Accepted) => Some(*trade),
        _ => None,
    }
}

impl<'a> Iterator for Entries<'a> {
    ghost use Rattle.std.specs.Iterator.{YieldsFirst, item_count};

    type Item = Taken;

    ghost next_gives = { YieldsFirst (λ e. e) };

    ghost remaining = { item_count (λ e. e) };

    #[tactic(auto, using(crate::proofs::Passed::entry_next, crate::proofs::Passed::entries_end, crate::proofs::Passed::entries_past))]
    fn next(&mut self) -> Option<Taken> {
        if self.passed >= u32::MAX - 1 {
            return None;
        }
        let entry = self.book.entry(self.passed + 1)?;
        self.passed += 1;
        Some(entry)
    }
}
