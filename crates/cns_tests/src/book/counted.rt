// What a book over the tree tells where look-ups are counted.
use crate::book::script::{TreeBook, new_book, read};
use crate::values::{APPLE, account, cusip};
use cns_terms::{Key, Probe};
use std::alloc::Global;
use std::process::Abort;

const CISCO: &str = "17275R102";

// Four members sell short on three days, and the oldest of them are bought in: five rows.
const BUY_IN: &str = "MEMBER,1\nMEMBER,2\nMEMBER,3\nMEMBER,4\nMEMBER,5\nISSUE,17275R102,10000\n\
TRADE,1,1,2,17275R102,60,0,2024-06-03\nCLOSE,2024-06-04\n\
TRADE,2,1,3,17275R102,50,0,2024-06-04\nTRADE,3,1,4,17275R102,40,0,2024-06-04\nCLOSE,2024-06-05\n\
TRADE,4,1,5,17275R102,70,0,2024-06-05\nNOTICE,1,17275R102,80\nCLOSE,2024-06-06\n\
EXECUTE,1,80,160001\nCLOSE,2024-06-07\nEXECUTE,1,80,160001\n";

fn rows(book: &TreeBook) -> usize {
    book.position_rows()
}

// How many comparisons a look-up takes.
fn comparisons(rt: &impl Abort, book: &TreeBook, number: u16, issue: &str) -> u64 {
    let account = account(rt, number);
    let issue = cusip(rt, issue);
    let mut probe = Probe::new(Key { account, issue });
    let _ = book.position_counted(account, issue, &mut probe);
    probe.count()
}

// The corporation, the members of the buy-in, and an account that is nobody's.
const ACCOUNTS: [u16; 7] = [0, 1, 2, 3, 4, 5, 6];

// Whether look-ups in five rows take few comparisons, and none for an issue that is not listed.
fn are_few(rt: &impl Abort, book: &TreeBook) -> bool {
    for number in &ACCOUNTS {
        if comparisons(rt, book, *number, CISCO) > 6 {
            return false;
        }
    }
    rows(book) == 5 && comparisons(rt, book, 1, APPLE) == 0
}

fn are_counted(rt: &impl Abort, alloc: Global) -> bool {
    let mut book = new_book(rt, alloc);
    read(rt, alloc, &mut book, BUY_IN);
    are_few(rt, &book)
}

#[test]
fn a_counted_position_takes_few_comparisons_and_none_in_an_issue_that_is_not_listed(
    rt: HostRuntime,
) {
    assert!(rt; are_counted(&rt, rt.alloc()));
}
