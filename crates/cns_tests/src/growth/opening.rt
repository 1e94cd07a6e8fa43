// A book that has taken nothing, on copies of an allocator.
use crate::growth::book::RationedBook;
use crate::growth::refusing::Call;
use crate::values::first_day;
use cns_book::Book;
use std::alloc::{Allocator, Global};
use std::process::Abort;

#[derive(Drop)]
pub(crate) struct Opening<H> {
    alloc: H,
}

impl<H: Allocator + Drop + Clone> Call<H> for Opening<H> {
    fn prepared(_rt: &impl Abort, _global: Global, alloc: H, _size: u16) -> Self {
        Opening { alloc }
    }

    fn make(&mut self, rt: &impl Abort) -> bool {
        let Ok(alloc) = self.alloc.clone() else {
            return false;
        };
        let opened: Result<RationedBook<H>, _> = Book::new(alloc, first_day(rt));
        opened.is_ok()
    }
}
