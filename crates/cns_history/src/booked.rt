// What records booked for an account, as rows of a table of its day.
ghost use Rattle.std.specs.Prelude.{◌≡◌, IfOk, filter_map};
ghost use Rattle.cns_history.specs.Lines.{booking_for};

use crate::line::{Booking, HistoryLine};
use crate::words::write_what;
use cns_tables::{Piece, TableRow, write_form};
use cns_terms::NoMemory;
use cns_units::Account;
use std::alloc::{AllocError, Global};

// A row: the number and the issue before what it was, and after it shares, cents and position.
const BEGIN: &str = "<tr><th scope=row>_<td>_<td>";

const FIGURES: &str = "<td>_<td>_<td>_\n";

// What a line booked for an account; None of a close's own line, which books nothing.
fn booking_for(account: Account, line: &HistoryLine) -> Option<Booking>
    ensures { result ≡ booking_for account line.now }
{
    match line {
        HistoryLine::Booking(booking) if booking.account == account => Some(*booking),
        _ => None,
    }
}

/// What some lines booked for an account, in order.
pub fn bookings_for(
    alloc: Global,
    account: Account,
    lines: &[HistoryLine],
) -> Result<Vec<Booking>, NoMemory>
    ensures { IfOk result (λ v. v.items ≡ filter_map (booking_for account) lines.now) }
{
    let bookings = lines
        .iter()
        .filter_map(|line| booking_for(account, line))
        .collect(alloc)?;
    Ok(bookings)
}

impl TableRow for Booking {
    ghost use Rattle.cns_history.specs.Texts.{booked_text};

    ghost text = { booked_text };

    #[tactic(auto, using(cns_tables::proofs::Written::after))]
    fn write_row(&self, out: &mut Vec<u8>) -> Result<(), AllocError> {
        let begin = [Piece::Number(self.number), Piece::Issue(self.issue)];
        let figures = [
            Piece::Signed(self.shares),
            Piece::Amount(self.cents),
            Piece::Signed(self.position),
        ];
        write_form(BEGIN, &begin, out)?;
        write_what(self.account, &self.activity, out)?;
        write_form(FIGURES, &figures, out)
    }
}
