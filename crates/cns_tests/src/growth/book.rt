// Each command of a book, with each of its growths refused in turn; and commands that are refused, which ask for none.
mod cases;
mod same;

use crate::checks::check;
use crate::growth::refusing::{Handle, MOST, Rations, Refusing};
use crate::records::{command, next};
use crate::values::first_day;
use cases::{ACCEPTED, Case, REFUSED, UNPAID_DUE, UNPAID_LATER};
use cns_book::{Book, Receipt, TakeFault};
use cns_feed::CsvSource;
use cns_positions::{Positions, TreePositions};
use cns_rationed::Rationed;
use cns_terms::{Command, Reply, Worker};
use same::agree;
use std::alloc::{Allocator, Global};
use std::process::Abort;

// The form of positions that each test takes. All else is told over any form, which is less to check than over this one.
type Tree<H> = TreePositions<H>;

pub(crate) type RationedBook<H> = Book<Tree<H>, H>;

// A book that opens on 3 June 2024.
pub(crate) fn opened<P: Positions<H>, H: Allocator + Drop + Clone>(
    rt: &impl Abort,
    alloc: H,
) -> Book<P, H> {
    Book::new(alloc, first_day(rt)).expect(rt, "memory")
}

fn is_refusal(reply: &Reply) -> bool {
    match reply {
        Reply::Refused(_) => true,
        _ => false,
    }
}

// Gives a book a command. A check of a caller need not go through all that a book promises of it.
fn take<P: Positions<H>, H: Allocator + Drop + Clone>(
    book: &mut Book<P, H>,
    command: &Command,
) -> Result<Receipt, TakeFault> {
    book.take(Worker::FIRST, *command)
}

// Gives a book the commands of a source, none of which is refused.
fn play_all<P: Positions<H>, H: Allocator + Drop + Clone>(
    rt: &impl Abort,
    source: &mut CsvSource<&[u8]>,
    book: &mut Book<P, H>,
) {
    for _record in 0..100 {
        let Some(command) = next(source) else {
            return;
        };
        let receipt = take(book, &command).expect(rt, "taken");
        assert!(rt; !is_refusal(&receipt.reply));
    }
}

pub(crate) fn play<P: Positions<H>, H: Allocator + Drop + Clone>(
    rt: &impl Abort,
    global: Global,
    book: &mut Book<P, H>,
    records: &str,
) {
    play_all(rt, &mut CsvSource::new(global, records.as_bytes()), book);
}

// Has a book take the records before a command, and so many questions more.
fn prepare<P: Positions<H>, H: Allocator + Drop + Clone>(
    rt: &impl Abort,
    global: Global,
    book: &mut Book<P, H>,
    before: &[&str],
    questions: u32,
) {
    for records in before {
        play(rt, global, book, records);
    }
    let question = &command(rt, global, "POSITION,0,037833100\n");
    for _question in 0..questions {
        take(book, question).expect(rt, "taken");
    }
}

// The book in which a command is given.
fn prepared<'a, P: Positions<H>, H: Handle<'a>>(
    rt: &impl Abort,
    global: Global,
    rationed: Rations<'a>,
    before: &[&str],
    questions: u32,
) -> Book<P, H> {
    let mut book: Book<P, H> = opened(rt, H::over(rationed));
    prepare(rt, global, &mut book, before, questions);
    book
}

// A command with what it is answered in a book that is given all memory, and the book before and after it.
#[derive(Drop)]
struct Untouched<'b, P: Positions<H>, H: Allocator + Drop + Clone> {
    before: &'b Book<P, H>,
    after: &'b Book<P, H>,
    command: &'b Command,
    receipt: &'b Receipt,
    // Blocks that the command keeps, and those that a refused growth may leave.
    kept: u64,
    left: u64,
}

// Whether two books answer each reading call alike, and ask for no memory.
fn read_alike<P: Positions<H>, H: Allocator + Drop + Clone>(
    rationed: Rations,
    one: &Book<P, H>,
    other: &Book<P, H>,
) -> bool {
    rationed.ration(0);
    let alike = agree(one, other) && rationed.refused() == 0;
    rationed.ration(u64::MAX);
    alike
}

// Whether a command got this receipt.
fn is_receipt(answer: &Result<Receipt, TakeFault>, receipt: &Receipt) -> bool {
    match answer {
        Ok(got) => {
            (got.index, got.seq) == (receipt.index, receipt.seq)
                && got.reply.is_same(&receipt.reply)
        }
        Err(_) => false,
    }
}

// Gives a book a command with the growth after so many refused; whether one was. The command finds no memory exactly then,
// and the book answers as before; given once more, the command gets the reply that it would have got at once. None where it
// is not so.
fn refuse<P: Positions<H>, H: Allocator + Drop + Clone>(
    rationed: Rations,
    book: &mut Book<P, H>,
    untouched: &Untouched<P, H>,
    growths: u64,
) -> Option<bool> {
    let held = rationed.held();
    rationed.ration(growths);
    let mut answer = take(book, untouched.command);
    let is_refused = rationed.refused() > 0;
    rationed.ration(u64::MAX);
    if is_refused {
        if !matches!(answer, Err(TakeFault::NoMemory))
            || rationed.held() > held.saturating_add(untouched.left)
            || !read_alike(rationed, book, untouched.before)
        {
            return None;
        }
        answer = take(book, untouched.command);
    }
    let is_so = is_receipt(&answer, untouched.receipt)
        && read_alike(rationed, book, untouched.after)
        && rationed.held() == held.wrapping_add(untouched.kept);
    is_so.then_some(is_refused)
}

// The same of a new book, which only this function owns: each way out of one that owns a book is long to check.
fn is_refused<'a, P: Positions<H>, H: Handle<'a>>(
    rt: &impl Abort,
    global: Global,
    rationed: Rations<'a>,
    case: &Case<'_>,
    questions: u32,
    untouched: &Untouched<P, H>,
    growths: u64,
) -> Option<bool> {
    let mut book: Book<P, H> = prepared(rt, global, rationed, case.before, questions);
    refuse(rationed, &mut book, untouched, growths)
}

// Refuses each growth of a command in turn, until there are no more; how many there are. One book has the command before it,
// and one is to have it.
fn count_growths<'a, P: Positions<H>, H: Handle<'a>>(
    rt: &impl Abort,
    global: Global,
    rationed: Rations<'a>,
    case: &Case<'_>,
    questions: u32,
    before: &Book<P, H>,
    after: &mut Book<P, H>,
) -> u64 {
    let held = rationed.held();
    let command = &command(rt, global, case.record);
    let receipt = &take(after, command).expect(rt, "taken");
    check(
        rt,
        is_refusal(&receipt.reply) == case.is_refused,
        case.record,
    );
    let all = rationed.held();
    let untouched = &Untouched {
        before,
        after,
        command,
        receipt,
        kept: all.wrapping_sub(held),
        left: case.left,
    };
    for growths in 0..MOST {
        let is_refused = is_refused(rt, global, rationed, case, questions, untouched, growths);
        check(
            rt,
            is_refused.is_some() && rationed.held() == all,
            case.record,
        );
        if is_refused == Some(false) {
            return growths;
        }
    }
    panic!(rt; "no end of growths");
}

// The same beside the book before it.
fn count_beside<'a, P: Positions<H>, H: Handle<'a>>(
    rt: &impl Abort,
    global: Global,
    rationed: Rations<'a>,
    case: &Case<'_>,
    questions: u32,
    before: &Book<P, H>,
) -> u64 {
    let mut after: Book<P, H> = prepared(rt, global, rationed, case.before, questions);
    count_growths(rt, global, rationed, case, questions, before, &mut after)
}

fn growths_of<'a, P: Positions<H>, H: Handle<'a>>(
    rt: &impl Abort,
    global: Global,
    rationed: Rations<'a>,
    case: &Case<'_>,
    questions: u32,
) -> u64 {
    let before: Book<P, H> = prepared(rt, global, rationed, case.before, questions);
    count_beside(rt, global, rationed, case, questions, &before)
}

// The fewest and the most growths of a command: one more where the history is full, as it is at one of nine fills.
fn span_of_growths<'a, P: Positions<H>, H: Handle<'a>>(
    rt: &impl Abort,
    global: Global,
    rationed: Rations<'a>,
    case: &Case<'_>,
) -> (u64, u64) {
    let mut fewest = MOST;
    let mut most = 0;
    for questions in 0..9 {
        let growths = growths_of::<P, H>(rt, global, rationed, case, questions);
        fewest = growths.min(fewest);
        most = growths.max(most);
        if fewest < most {
            break;
        }
    }
    (fewest, most)
}

// Where a command has no growths of its own, it has none but the history's.
fn check_case<'a, P: Positions<H>, H: Handle<'a>>(
    rt: &impl Abort,
    global: Global,
    rationed: Rations<'a>,
    case: &Case<'_>,
) {
    let (fewest, most) = span_of_growths::<P, H>(rt, global, rationed, case);
    let is_so = fewest >= case.growths && (case.growths > 0 || fewest == 0);
    let is_one_more = most == fewest.saturating_add(1) && rationed.held() == 0;
    check(rt, is_so && is_one_more, case.record);
}

#[test]
fn each_growth_of_each_command_is_refused_in_turn(rt: HostRuntime) {
    let rationed = Rationed::new(rt.alloc());
    for (before, record, growths, left) in &ACCEPTED {
        let case = &Case {
            before: *before,
            record: *record,
            is_refused: false,
            growths: *growths,
            left: *left,
        };
        check_case::<Tree<Refusing>, Refusing>(&rt, rt.alloc(), &rationed, case);
    }
}

#[test]
fn a_command_that_breaks_a_rule_asks_for_room_in_the_history_alone(rt: HostRuntime) {
    let rationed = Rationed::new(rt.alloc());
    for (before, record) in &REFUSED {
        let case = &Case {
            before: *before,
            record: *record,
            is_refused: true,
            growths: 0,
            left: 0,
        };
        check_case::<Tree<Refusing>, Refusing>(&rt, rt.alloc(), &rationed, case);
    }
}

// The one growth more is that of the list of what is due.
fn check_unpaid<'a, P: Positions<H>, H: Handle<'a>>(
    rt: &impl Abort,
    global: Global,
    rationed: Rations<'a>,
) {
    let due = growths_of::<P, H>(rt, global, rationed, &UNPAID_DUE, 0);
    let later = growths_of::<P, H>(rt, global, rationed, &UNPAID_LATER, 0);
    assert!(rt; due <= later.saturating_add(1));
}

#[test]
fn a_dividend_that_nobody_is_paid_takes_no_memory_but_for_its_place_on_a_list(rt: HostRuntime) {
    let rationed = Rationed::new(rt.alloc());
    check_unpaid::<Tree<Refusing>, Refusing>(&rt, rt.alloc(), &rationed);
}
