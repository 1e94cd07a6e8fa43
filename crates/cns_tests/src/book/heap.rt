// A book in a small heap.
use crate::book::script::{play, trade};
use crate::values::first_day;
use cns_book::{Book, TakeFault};
use cns_positions::{Positions, TreePositions};
use cns_terms::{Activity, Command, Holding, Key, Reply, Row, Trade, Worker};
use linked_list_allocator::LocalHeap;
use std::alloc::{Allocator, Global};
use std::process::Abort;

// What a book shows of a key: how many entries there are, what the account holds, and its row of the first day.
type Shown = (usize, Option<Holding>, Option<Row>);

// A check of a caller need not go through what these calls promise.
fn held<P: Positions<A>, A: Allocator + Drop + Clone>(
    book: &Book<P, A>,
    key: &Key,
) -> Option<Holding> {
    book.position(key.account, key.issue)
}

fn row<P: Positions<A>, A: Allocator + Drop + Clone>(
    rt: &impl Abort,
    book: &Book<P, A>,
    key: &Key,
) -> Option<Row> {
    match book.sheet(first_day(rt)) {
        Some(sheet) => sheet.row(*key),
        None => None,
    }
}

fn show<P: Positions<A>, A: Allocator + Drop + Clone>(
    rt: &impl Abort,
    book: &Book<P, A>,
    key: &Key,
) -> Shown {
    (book.history_len(), held(book, key), row(rt, book, key))
}

// Whether a book accepts a trade; None where it finds no memory.
fn accepts<P: Positions<A>, A: Allocator + Drop + Clone>(
    book: &mut Book<P, A>,
    trade: &Trade,
) -> Option<bool> {
    match book.take(Worker::FIRST, Command::Activity(Activity::Trade(*trade))) {
        Ok(receipt) => Some(matches!(receipt.reply, Reply::Accepted)),
        Err(TakeFault::NoMemory) => None,
        Err(TakeFault::Full) => Some(false),
    }
}

// Whether a book shows a day's row and the same before and after the first of trades like one, of ever new references, that
// it finds no memory for.
fn is_exhausted<P: Positions<A>, A: Allocator + Drop + Clone>(
    rt: &impl Abort,
    book: &mut Book<P, A>,
    trade: &Trade,
) -> bool {
    let key = &Key {
        account: trade.buyer.account(),
        issue: trade.issue,
    };
    for reference in 10..10_010 {
        let before = show(rt, book, key);
        let next = &Trade {
            reference,
            ..*trade
        };
        match accepts(book, next) {
            Some(true) => (),
            Some(false) => return false,
            None => {
                let (_, held, row) = before;
                return held.is_some() && row.is_some() && before == show(rt, book, key);
            }
        }
    }
    false
}

// A day on which member 1 buys 100 shares from member 2, and its close.
const DAY: [(&str, &str); 5] = [
    ("MEMBER,1\n", "ok\n"),
    ("MEMBER,2\n", "ok\n"),
    ("ISSUE,037833100,19500\n", "ok\n"),
    ("TRADE,1,1,2,037833100,100,1950000,2024-06-03\n", "ok\n"),
    ("CLOSE,2024-06-04\n", "closed 1 2024-06-03 2 0\n"),
];

// Closes a day, and trades until memory is out.
fn is_left<P: Positions<A>, A: Allocator + Drop + Clone>(
    rt: &impl Abort,
    alloc: Global,
    book: &mut Book<P, A>,
) -> bool {
    play(rt, alloc, book, &DAY);
    let trade = &trade(rt, alloc, "TRADE,1,1,2,037833100,1,0,2024-06-04\n");
    is_exhausted(rt, book, trade)
}

fn is_left_on(rt: &impl Abort, alloc: Global, heap: &LocalHeap) -> bool {
    let opened = Book::new(heap, first_day(rt));
    let mut book: Book<TreePositions<&LocalHeap>, &LocalHeap> = opened.expect(rt, "memory");
    is_left(rt, alloc, &mut book)
}

#[test]
fn a_trade_that_finds_no_memory_leaves_a_book_in_a_small_heap(rt: HostRuntime) {
    let heap = LocalHeap::new(rt.alloc(), 65_536).expect(&rt, "memory");
    assert!(rt; is_left_on(&rt, rt.alloc(), &heap));
}
