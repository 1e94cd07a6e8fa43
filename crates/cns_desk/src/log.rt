// What a worker was answered.
ghost use Rattle.std.specs.Prelude.{◌≡◌, ◌+◌, ◌^◌, ◌<◌, ◌≤◌, [], ◌∷◌, ◌++◌, OnErr, OnOk};
ghost use Rattle.cns_desk.specs.Logged.{Logged, empty_logged};

use cns_book::Receipt;
use cns_sheets::Sheet;
use cns_terms::{Command, NoMemory};
use std::alloc::Global;
use std::marker::Model;
use std::sync::Arc;

/// A command that was taken, what it was answered, and the sheet that was handed out with it, where one was kept.
#[derive(Drop)]
pub struct LogItem {
    pub receipt: Receipt,
    pub command: Command,
    /// At a STATEMENT, the sheet of its day.
    pub sheet: Option<Arc<Sheet<Global>>>,
}

/// What a worker was answered, in order, and how many of its records were invalid. Contracts see the items, the count
/// of invalid records, and for how many items more there is room.
#[derive(Drop)]
pub struct Log {
    items: Vec<LogItem>,
    lines: u32,
    // Kept beside the items, since a push does not say that the capacity stays.
    spare: usize,
}

impl Model for Log {
    ghost use Rattle.std.specs.Prelude.{◌≤◌, ◌+◌, vec_len, vec_capacity};
    ghost use Rattle.cns_desk.specs.Logged.{Logged};

    ghost Value = { Logged };

    ghost view = { λ l. record { items = l.items.items; lines = l.lines; spare = l.spare } };

    ghost invariant = { λ l. vec_len l.items + l.spare ≤ vec_capacity l.items };
}

impl Log {
    /// An empty log.
    pub fn new(alloc: Global) -> Log
        ensures { result ≡ empty_logged }
    {
        Log {
            items: Vec::new(alloc),
            lines: 0,
            spare: 0,
        }
    }

    /// Makes room for an item, so that the next `push` takes no memory. The items and the count of lines stay; at
    /// `NoMemory` so does the room. Where there is room already it takes no memory.
    pub fn reserve(&mut self) -> Result<(), NoMemory>
        ensures ok { OnOk result (1 ≤ self.new.spare) }
        ensures err { OnErr result (self.new ≡ self.old) }
        ensures full { OnErr result (self.old.spare ≡ 0) }
        ensures items { self.new.items ≡ self.old.items }
        ensures lines { self.new.lines ≡ self.old.lines }
    {
        if self.spare == 0 {
            self.items.reserve(1)?;
            self.spare = 1;
        }
        Ok(())
    }

    /// Adds an item last. There has to be room for it.
    pub fn push(&mut self, item: LogItem)
        requires { 1 ≤ self.old.spare }
        ensures items { self.new.items ≡ self.old.items ++ item ∷ [] }
        ensures lines { self.new.lines ≡ self.old.lines }
        ensures spare { self.new.spare + 1 ≡ self.old.spare }
    {
        self.spare -= 1;
        let Ok(()) = self.items.push(item) else {
            unreachable!()
        };
    }

    /// Counts an invalid record, of which there are fewer than 4,294,967,295 so far.
    pub fn line(&mut self)
        requires { self.old.lines + 1 < 2 ^ 32 }
        ensures { self.new ≡ record self.old { lines = self.old.lines + 1 } }
    {
        self.lines += 1;
    }

    /// The items, in order.
    pub fn items(&self) -> &[LogItem]
        ensures { result.now ≡ self.now.items }
    {
        self.items.as_slice()
    }

    /// How many records were invalid.
    pub fn lines(&self) -> u32
        ensures { result ≡ self.now.lines }
    {
        self.lines
    }
}
