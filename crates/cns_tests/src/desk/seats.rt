// Commands under a seat, by one caller.
ghost use Rattle.std.specs.Prelude.{◌≡◌};

use crate::desk::script::{are_same, commands, is_stated, tell};
use crate::values::{FIRST, SECOND, day, first_day};
use cns_desk::{Desk, Kept, Seat};
use cns_positions::TreePositions;
use cns_sheets::Sheet;
use cns_terms::{Command, Refusal, Reply};
use std::alloc::Global;
use std::marker::Brand;
use std::process::Abort;
use std::sync::ledger::{Blank, Ledger};
use std::sync::{Arc, Wait};

type Tree = TreePositions<Global>;

type TreeDesk<L> = Desk<L, Tree>;

// One day of a trade at 195 dollars that closes at 196, and the statements of its two members.
const DAY: &str = "MEMBER,101\nMEMBER,202\nISSUE,037833100,19500\n\
TRADE,1,101,202,037833100,100,1950000,2024-06-03\nPRICE,037833100,19600\nCLOSE,2024-06-04\n\
STATEMENT,101,2024-06-03\nSTATEMENT,202,2024-06-03\n";

const DAY_REPLIES: &str = "ok\nok\nok\nok\nok\nclosed 1 2024-06-03 2 0\n\
statement 101 2024-06-03 1 100.00 0.00\nstatement 202 2024-06-03 1 -100.00 0.00\n";

// The next day, on which two new shares take the place of each old one.
const LATER: &str = "PRICE,037833100,5\nSPLIT,037833100,2,1,0\nCLOSE,2024-06-05\n";

const LATER_REPLIES: &str = "ok\nok\nclosed 2 2024-06-04 2 0\n";

const SHEET_REPLY: &str = "statement 0 2024-06-03 0 0.00 0.00\n";

const STATEMENT: &str = "statement 101 2024-06-03 1 100.00 0.00\n\
row 037833100 0 100 0.00 196.00 -19500.00 100.00 0.00\n";

// What a command is answered under the seat.
fn take_one<L: Ledger>(
    rt: &impl Abort,
    kept: &mut Kept<L, Tree>,
    seat: &mut Seat<L>,
    command: Command,
) -> Reply {
    kept.take(seat, command).expect(rt, "taken").reply
}

// Gives the commands of a day under the seat: whether they are answered so.
fn is_taken<L: Ledger>(
    rt: &impl Abort,
    kept: &mut Kept<L, Tree>,
    seat: &mut Seat<L>,
    commands: &[Command],
    text: &mut Vec<u8>,
) -> bool {
    for command in commands {
        let reply = take_one(rt, kept, seat, *command);
        tell(rt, text, &reply);
    }
    text.as_slice() == DAY_REPLIES.as_bytes() && seat.count() == 8
}

fn take_day<L: Ledger>(
    rt: &impl Abort,
    alloc: Global,
    kept: &mut Kept<L, Tree>,
    seats: &mut [Seat<L>],
) -> bool {
    let [seat] = seats else {
        return false;
    };
    let commands = commands(rt, alloc, DAY);
    let mut text = Vec::new(alloc);
    is_taken(rt, kept, seat, commands.as_slice(), &mut text)
}

fn keeps_day<A: Abort, L: Ledger>(rt: &A, alloc: Global, blank: Blank) -> bool
    requires name { blank.name ≡ L.name }
    requires parts { blank.parts ≡ L.parts }
    requires one { blank.parts ≡ 1 }
{
    let opened = Kept::<L, Tree>::open(alloc, blank, first_day(rt), 1);
    let (mut kept, mut seats) = opened.expect(rt, "a book");
    let is_taken = take_day(rt, alloc, &mut kept, seats.as_mut_slice());
    let book = kept.finish(seats);
    is_taken && book.history_len() == 8
}

#[test]
fn a_seat_takes_a_day_of_commands(rt: HostRuntime) {
    assert!(rt; keeps_day::<HostRuntime, Brand>(&rt, rt.alloc(), Blank::new(1)));
}

// What a command is answered at the desk.
fn submit_one<R: Abort + Wait, L: Ledger>(
    rt: &R,
    desk: &TreeDesk<L>,
    seat: &mut Seat<L>,
    command: Command,
) -> Reply {
    desk.submit(rt, seat, command).expect(rt, "taken").reply
}

// Submits commands under a seat, and puts the lines of their replies into a text.
fn submit_all<R: Abort + Wait, L: Ledger>(
    rt: &R,
    desk: &TreeDesk<L>,
    seat: &mut Seat<L>,
    commands: &[Command],
    text: &mut Vec<u8>,
) {
    for command in commands {
        let reply = submit_one(rt, desk, seat, *command);
        tell(rt, text, &reply);
    }
}

// Submits the commands of the records under a seat: whether they get these replies.
fn submit<R: Abort + Wait, L: Ledger>(
    rt: &R,
    alloc: Global,
    desk: &TreeDesk<L>,
    seat: &mut Seat<L>,
    records: &str,
    replies: &str,
) -> bool {
    let commands = commands(rt, alloc, records);
    let mut text = Vec::new(alloc);
    submit_all(rt, desk, seat, commands.as_slice(), &mut text);
    text.as_slice() == replies.as_bytes()
}

// The reply to a question for the sheet of a date, and the sheet.
fn handed<R: Abort + Wait, L: Ledger>(
    rt: &R,
    desk: &TreeDesk<L>,
    seat: &mut Seat<L>,
    date: &str,
) -> (Reply, Option<Arc<Sheet<Global>>>) {
    let (receipt, sheet) = desk.sheet(rt, seat, day(rt, date)).expect(rt, "taken");
    (receipt.reply, sheet)
}

// Whether a reply is that to a question for the sheet of the day.
fn is_told(rt: &impl Abort, alloc: Global, reply: &Reply) -> bool {
    let mut text = Vec::new(alloc);
    tell(rt, &mut text, reply);
    text.as_slice() == SHEET_REPLY.as_bytes()
}

// Whether the desk hands out no sheet of the open day.
fn is_open<R: Abort + Wait, L: Ledger>(rt: &R, desk: &TreeDesk<L>, seat: &mut Seat<L>) -> bool {
    let (reply, sheet) = handed(rt, desk, seat, SECOND);
    sheet.is_none() && are_same(&reply, &Reply::Refused(Refusal::NoSuchDay))
}

// Whether another worker's split and close leave a sheet that was handed out as it is.
fn stays<R: Abort + Wait, L: Ledger>(
    rt: &R,
    alloc: Global,
    desk: &TreeDesk<L>,
    seat: &mut Seat<L>,
    sheet: &Sheet<Global>,
) -> bool {
    is_stated(rt, alloc, sheet, 101, STATEMENT)
        && submit(rt, alloc, desk, seat, LATER, LATER_REPLIES)
        && is_stated(rt, alloc, sheet, 101, STATEMENT)
}

// Has one worker close a day and ask for its sheet and for that of the open day, and then another one go on.
fn is_handed_out<R: Abort + Wait, L: Ledger>(
    rt: &R,
    alloc: Global,
    desk: &TreeDesk<L>,
    seats: &mut [Seat<L>],
) -> bool {
    let [one, other] = seats else {
        return false;
    };
    if !submit(rt, alloc, desk, one, DAY, DAY_REPLIES) {
        return false;
    }
    let (reply, sheet) = handed(rt, desk, one, FIRST);
    let sheet = sheet.expect(rt, "a sheet");
    is_told(rt, alloc, &reply)
        && is_open(rt, desk, one)
        && stays(rt, alloc, desk, other, &sheet)
        && (one.count(), other.count()) == (10, 3)
}

fn keeps_sheet<R: Abort + Wait, L: Ledger>(rt: &R, alloc: Global, blank: Blank) -> bool
    requires name { blank.name ≡ L.name }
    requires parts { blank.parts ≡ L.parts }
    requires two { blank.parts ≡ 2 }
{
    let opened = TreeDesk::<L>::open(alloc, blank, first_day(rt), 2);
    let (desk, mut seats) = opened.expect(rt, "a desk");
    let is_handed_out = is_handed_out(rt, alloc, &desk, seats.as_mut_slice());
    let book = desk.finish(seats);
    is_handed_out && book.history_len() == 13
}

#[test]
fn a_sheet_that_is_handed_out_stays_after_another_workers_split_and_close(rt: HostRuntime) {
    assert!(rt; keeps_sheet::<HostRuntime, Brand>(&rt, rt.alloc(), Blank::new(2)));
}
