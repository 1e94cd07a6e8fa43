// Books with a limit of their history, which are filled up to it.
use crate::book::script::{TreeBook, take};
use crate::checks::check_at;
use crate::records::command;
use crate::values::first_day;
use cns_book::{Book, TakeFault};
use cns_positions::Positions;
use cns_terms::{Command, Worker};
use std::alloc::{Allocator, Global};
use std::process::Abort;

// Whether a book is full, and stays as it was.
fn is_full<P: Positions<A>, A: Allocator + Drop + Clone>(
    book: &mut Book<P, A>,
    question: &Command,
) -> bool {
    let entries = book.history_len();
    let answer = book.take(Worker::FIRST, *question);
    matches!(answer, Err(TakeFault::Full)) && book.history_len() == entries
}

// How many entries a copy of a history has.
fn copied_entries<P: Positions<A>, A: Allocator + Drop + Clone>(
    rt: &impl Abort,
    book: &Book<P, A>,
) -> usize {
    book.copy_history().expect(rt, "memory").len()
}

// Whether a book takes so many questions and no more, and copies them.
fn is_filled<P: Positions<A>, A: Allocator + Drop + Clone>(
    rt: &impl Abort,
    alloc: Global,
    book: &mut Book<P, A>,
    most: u32,
) -> bool {
    let question = &command(rt, alloc, "POSITION,0,037833100\n");
    for _ in 0..most {
        take(rt, book, *question);
    }
    is_full(book, question) && copied_entries(rt, book) == most as usize
}

fn takes(rt: &impl Abort, alloc: Global, most: u32) -> bool {
    let mut book: TreeBook = Book::with_limit(alloc, first_day(rt), most).expect(rt, "memory");
    is_filled(rt, alloc, &mut book, most)
}

#[test]
fn a_book_at_its_limit_takes_nothing_more_and_copies_its_history(rt: HostRuntime) {
    for most in [0, 2, 3_000] {
        check_at(&rt, takes(&rt, rt.alloc(), most), u64::from(most));
    }
}
