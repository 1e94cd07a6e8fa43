// Shorts with their ages.
ghost use Rattle.std.specs.Prelude.{◌≡◌, IfOk};
ghost use Rattle.std.specs.Ordering.{nat_cmp};
ghost use Rattle.cns_book.specs.Log.{state_of};
ghost use Rattle.cns_day.specs.Listed.{IsInOrderOf, shorts_among};

use crate::figures::is_short;
use cns_feed::ReplayBook;
use cns_history::standing;
use cns_sheets::Sheet;
use cns_tables::{Piece, ROW, TableRow, write_line};
use cns_terms::{NoMemory, Row};
use std::alloc::{AllocError, Global};
use std::cmp::Reverse;

/// A member's short at a close.
#[derive(Clone, Copy)]
pub struct Aged {
    pub row: Row,
    /// At how many closes in a row it was short, this one included.
    pub age: u32,
}

// The members' shorts on a sheet, in its order.
fn gather(alloc: Global, book: &ReplayBook, sheet: &Sheet<Global>) -> Result<Vec<Aged>, NoMemory>
    ensures { IfOk result (λ v. v.items ≡ shorts_among (state_of book.now.log) sheet.now.rows) }
{
    let shorts = sheet
        .rows()
        .filter(is_short)
        .map(|row| Aged {
            row,
            age: standing(book, &row.key()).run,
        })
        .collect(alloc)?;
    Ok(shorts)
}

/// The members' shorts on the sheet of the book's last close, the oldest first, and those of one age in the order of the
/// sheet.
pub fn shorts_of(
    alloc: Global,
    book: &ReplayBook,
    sheet: &Sheet<Global>,
) -> Result<Vec<Aged>, NoMemory>
    ensures { IfOk result (λ v. IsInOrderOf (λ s. s.age) (λ a b. nat_cmp b a)
        (shorts_among (state_of book.now.log) sheet.now.rows) v.items) }
{
    let mut shorts = gather(alloc, book, sheet)?;
    shorts.sort_by_key(|short| Reverse(short.age))?;
    Ok(shorts)
}

impl TableRow for Aged {
    ghost use Rattle.cns_day.specs.Rows.{short_text};

    ghost text = { short_text };

    fn write_row(&self, out: &mut Vec<u8>) -> Result<(), AllocError> {
        let cells = [
            Piece::Number(u64::from(self.row.account.value())),
            Piece::Number(u64::from(self.age)),
            Piece::Signed(self.row.opening),
            Piece::Signed(self.row.closing),
        ];
        write_line(ROW, &Piece::Issue(self.row.issue), &cells, out)
    }
}
