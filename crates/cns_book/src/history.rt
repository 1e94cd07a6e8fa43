// The history of a book, kept in little room.
ghost use Rattle.std.specs.Prelude.{◌≡◌, ◌<◌, ◌≤◌, ◌+◌, ◌-◌, ◌^◌, ◌++◌, ◌∷◌, [], IfOk, OnErr, OnOk, List, length, map, min, slice_get, vec_capacity, vec_len};
ghost use Rattle.cns_book.specs.Replies.{IsAmong, Stays, reply_in, taken_in};

use cns_terms::{Command, NoMemory, Reply, Taken, Worker};
use std::alloc::Allocator;
use std::marker::Model;

// An entry without its reply.
#[derive(Clone, Copy)]
struct Brief {
    command: Command,
    // The place of its reply in the list of replies; None where the reply is `Accepted`.
    place: Option<u32>,
    // The number of the command among the worker's, from 1.
    seq: u32,
    worker: Worker,
}

/// The commands that a book has taken, with their replies. Contracts see the entries, the oldest first, and for how many
/// more there is room.
///
/// Most replies are `Accepted`. The others stand in a list of their own, so that an entry takes 72 bytes where a `Taken`
/// takes 120.
#[derive(Drop)]
pub struct History<A: Allocator + Drop + Clone> {
    entries: Vec<Brief, A>,
    replies: Vec<Reply, A>,
}

impl<A: Allocator + Drop + Clone> Model for History<A> {
    ghost use Rattle.std.specs.Prelude.{◌≤◌, ◌-◌, length, map, min, vec_capacity, vec_len};
    ghost use Rattle.cns_book.specs.Replies.{AreAmong, HistoryView, taken_in};

    ghost Value = { HistoryView };

    ghost view = { λ h. record {
      taken = map (taken_in h.replies.items) h.entries.items;
      room = min (vec_capacity h.entries - vec_len h.entries) (vec_capacity h.replies - vec_len h.replies);
    } };

    ghost invariant = { λ h. AreAmong h.replies.items h.entries.items
        × (length h.replies.items ≤ length h.entries.items) };
}

// The reply that stands at a place among the others.
fn reply_of(replies: &[Reply], place: Option<u32>) -> Reply
    ensures { result ≡ reply_in replies.now place }
{
    match place {
        Some(place) => replies
            .get(place as usize)
            .copied()
            .unwrap_or(Reply::Accepted),
        None => Reply::Accepted,
    }
}

// An entry with its reply.
fn taken_of(replies: &[Reply], brief: &Brief) -> Taken
    ensures { result ≡ taken_in replies.now brief.now }
{
    Taken {
        worker: brief.worker,
        seq: brief.seq,
        command: brief.command,
        reply: reply_of(replies, brief.place),
    }
}

// Adds a reply that is not `Accepted`, for which there has to be room, and tells its place.
fn add_reply<A: Allocator + Drop + Clone>(replies: &mut Vec<Reply, A>, reply: &Reply) -> Option<u32>
    requires room { vec_len replies.old < vec_capacity replies.old }
    requires few { vec_len replies.old < 2 ^ 32 }
    ensures is { reply_in replies.new.items result ≡ reply.now }
    ensures among { IsAmong replies.new.items result }
    ensures stays { Stays replies.old.items replies.new.items }
    ensures one { length replies.new.items ≤ length replies.old.items + 1 }
{
    if let Reply::Accepted = reply {
        return None;
    }
    let place = replies.len() as u32;
    let Ok(()) = replies.push(*reply) else {
        unreachable!()
    };
    Some(place)
}

impl<A: Allocator + Drop + Clone> History<A> {
    /// A history without an entry. `NoMemory` where the allocator could not be copied.
    pub fn new(alloc: A) -> Result<Self, NoMemory>
        ensures { IfOk result (λ h. h.taken ≡ []) }
    {
        Ok(History {
            entries: Vec::new(alloc.clone()?),
            replies: Vec::new(alloc),
        })
    }

    /// How many entries there are.
    pub fn len(&self) -> usize
        ensures { result ≡ length self.now.taken }
    {
        self.entries.len()
    }

    /// The entry at a place, from 0; None past the end.
    pub fn get(&self, place: usize) -> Option<Taken>
        ensures { result ≡ slice_get self.now.taken place }
    {
        let brief = self.entries.as_slice().get(place)?;
        Some(taken_of(self.replies.as_slice(), brief))
    }

    /// Makes room for an entry, so that the next `push` takes no memory. Where there is room already it takes none. The
    /// entries stay.
    pub fn reserve(&mut self) -> Result<(), NoMemory>
        ensures taken { self.new.taken ≡ self.old.taken }
        ensures ok { OnOk result (1 ≤ self.new.room) }
        ensures full { OnErr result (self.old.room ≡ 0) }
    {
        self.entries.reserve(1)?;
        self.replies.reserve(1)?;
        Ok(())
    }

    /// Adds an entry last. There has to be room for it.
    pub fn push(&mut self, taken: &Taken)
        requires room { 1 ≤ self.old.room }
        requires few { length self.old.taken + 1 < 2 ^ 32 }
        ensures { self.new.taken ≡ self.old.taken ++ taken.now ∷ [] }
    {
        let place = add_reply(&mut self.replies, &taken.reply);
        let brief = Brief {
            command: taken.command,
            place,
            seq: taken.seq,
            worker: taken.worker,
        };
        let Ok(()) = self.entries.push(brief) else {
            unreachable!()
        };
    }

    /// The entries, the oldest first. `NoMemory` where an allocation failed.
    pub fn copied(&self) -> Result<Vec<Taken, A>, NoMemory>
        ensures { IfOk result (λ v. v.items ≡ self.now.taken) }
    {
        let alloc = self.entries.allocator().clone()?;
        let mut copy = Vec::with_capacity(alloc, self.entries.len())?;
        for brief in self.entries.as_slice() {
            copy.push(taken_of(self.replies.as_slice(), brief))?;
        }
        Ok(copy)
    }
}
