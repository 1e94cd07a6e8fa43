// The members that closes made liable, with what is left of each.
ghost use Rattle.std.specs.Prelude.{◌≡◌, ◌++◌, IfOk, OnOk};
ghost use Rattle.cns_book.specs.Log.{state_of};
ghost use Rattle.cns_day.specs.Listed.{liable_shown, owing_among, owings_in};

use cns_feed::ReplayBook;
use cns_retransmit::Batch;
use cns_tables::{Piece, ROW, TableRow, write_line};
use cns_terms::{Liable, NoMemory};
use cns_units::Cusip;
use std::alloc::{AllocError, Global};

/// A member that the close of a day made liable in an issue.
#[derive(Clone, Copy)]
pub struct Owing {
    pub day: u32,
    pub issue: Cusip,
    pub liable: Liable,
}

// The members of a batch, in the order of filling.
#[tactic(auto, using(crate::proofs::Gathered::gathered, crate::proofs::Gathered::gathered_all))]
fn gather_batch(owing: &mut Vec<Owing>, day: u32, batch: &Batch<Global>) -> Result<(), NoMemory>
    ensures { OnOk result (owing.new.items ≡ owing.old.items ++ owings_in day batch.now) }
{
    let issue = batch.cusip();
    for liable in batch.members() {
        owing.push(Owing {
            day,
            issue,
            liable: *liable,
        })?;
    }
    Ok(())
}

// Those of the batches of a day.
#[tactic(auto, using(crate::proofs::Gathered::gathered))]
fn gather(owing: &mut Vec<Owing>, day: u32, batches: &[Batch<Global>]) -> Result<(), NoMemory>
    ensures { OnOk result (owing.new.items ≡ owing.old.items ++ owing_among day batches.now) }
{
    for batch in batches {
        gather_batch(owing, day, batch)?;
    }
    Ok(())
}

/// The members that are liable for notices of the day before and of the day, in the order of filling.
pub fn liable_members(alloc: Global, book: &ReplayBook, day: u32) -> Result<Vec<Owing>, NoMemory>
    ensures { IfOk result (λ v. v.items ≡ liable_shown (state_of book.now.log) day) }
{
    let before = day.saturating_sub(1);
    let mut owing = Vec::new(alloc);
    gather(&mut owing, before, book.batches(before))?;
    gather(&mut owing, day, book.batches(day))?;
    Ok(owing)
}

impl TableRow for Owing {
    ghost use Rattle.cns_day.specs.Rows.{owing_text};

    ghost text = { owing_text };

    fn write_row(&self, out: &mut Vec<u8>) -> Result<(), AllocError> {
        let cells = [
            Piece::Number(u64::from(self.day)),
            Piece::Number(u64::from(self.liable.member.value())),
            Piece::Number(u64::from(self.liable.age)),
            Piece::Count(self.liable.closing),
            Piece::Count(self.liable.left),
        ];
        write_line(ROW, &Piece::Issue(self.issue), &cells, out)
    }
}
