// A statement cut from the sheet of a closed day.
use crate::growth::book::{RationedBook, opened, play};
use crate::growth::refusing::Call;
use crate::values::{account, first_day};
use cns_sheets::Sheet;
use cns_statements::statement;
use cns_units::Account;
use std::alloc::{Allocator, Global};
use std::process::Abort;

// Member 1 has a row in each of two issues.
const RECORDS: &str = "MEMBER,1\nMEMBER,2\nISSUE,037833100,19500\nISSUE,17275R102,4650\n\
TRADE,1,1,2,037833100,60,1170000,2024-06-03\nTRADE,2,1,2,17275R102,50,232500,2024-06-03\nCLOSE,2024-06-04\n";

#[derive(Drop)]
pub(crate) struct Cut<H: Allocator + Drop + Clone> {
    alloc: H,
    book: RationedBook<H>,
}

impl<H: Allocator + Drop + Clone> Call<H> for Cut<H> {
    fn prepared(rt: &impl Abort, global: Global, alloc: H, _size: u16) -> Self {
        let copy = alloc.clone().expect(rt, "memory");
        let mut book = opened(rt, copy);
        play(rt, global, &mut book, RECORDS);
        Cut { alloc, book }
    }

    fn make(&mut self, rt: &impl Abort) -> bool {
        let account = account(rt, 1);
        let sheet = self.book.sheet(first_day(rt)).expect(rt, "a sheet");
        is_cut(&self.alloc, &**sheet, account)
    }
}

fn is_cut<H: Allocator + Drop + Clone>(alloc: &H, sheet: &Sheet<H>, account: Account) -> bool {
    match alloc.clone() {
        Ok(alloc) => statement(alloc, sheet, account).is_ok(),
        Err(_) => false,
    }
}
