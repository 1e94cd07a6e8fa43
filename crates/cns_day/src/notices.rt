// Notices of intention to buy in that are in force.
ghost use Rattle.std.specs.Prelude.{◌≡◌, IfOk};
ghost use Rattle.cns_terms.specs.Common.{is_live};
ghost use Rattle.cns_book.specs.Log.{state_of};
ghost use Rattle.cns_day.specs.Listed.{live_shown};

use cns_book::{Notice, Stage};
use cns_feed::ReplayBook;
use cns_tables::{Piece, ROW, TableRow, write_line};
use cns_terms::NoMemory;
use std::alloc::{AllocError, Global};

/// A notice with its number, from 1.
#[derive(Clone, Copy)]
pub struct Numbered {
    pub number: u32,
    pub notice: Notice,
}

fn is_live(stage: Stage) -> bool
    ensures { result ≡ is_live stage }
{
    stage == Stage::Live
}

/// The notices of a book that are live, by number.
pub fn live_notices(alloc: Global, book: &ReplayBook) -> Result<Vec<Numbered>, NoMemory>
    ensures { IfOk result (λ v. v.items ≡ live_shown (state_of book.now.log)) }
{
    // Its clauses say that there are fewer notices than numbers; the proof rests on that.
    let _entries = book.history_len();
    let mut live = Vec::new(alloc);
    for number in 1..u32::MAX {
        let Some(notice) = book.notice(number) else {
            return Ok(live);
        };
        if !is_live(notice.stage) {
            continue;
        }
        live.push(Numbered { number, notice })?;
    }
    Ok(live)
}

impl TableRow for Numbered {
    ghost use Rattle.cns_day.specs.Rows.{notice_row};

    ghost text = { notice_row };

    // The last day of a notice is the second after its own.
    fn write_row(&self, out: &mut Vec<u8>) -> Result<(), AllocError> {
        let notice = &self.notice;
        let given = u64::from(notice.given);
        let cells = [
            Piece::Number(u64::from(self.number)),
            Piece::Number(u64::from(notice.member.value())),
            Piece::Count(notice.shares.value()),
            Piece::Number(given),
            Piece::Count(notice.remaining),
            Piece::Number(given + 2),
        ];
        write_line(ROW, &Piece::Issue(notice.issue), &cells, out)
    }
}
