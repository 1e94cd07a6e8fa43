// Tests of the positions, over every form of them; a new form is one line more in the test. What may abort borrows positions,
// and tells whether they are as they should be: each way out of a function that owns some is longer to check.
ghost use Rattle.std.specs.Prelude.{◌≡◌, ◌<◌, true};
ghost use Rattle.std.specs.FinMap.{is_sorted};
ghost use Rattle.cns_terms.specs.Keys.{key_cmp};

use crate::values::{APPLE, key};
use cns_positions::{FlatPositions, Positions, Step, TreePositions, run};
use cns_terms::{Holding, Key};
use cns_units::Cents;
use std::alloc::Global;
use std::process::Abort;

type Flat = FlatPositions<Global>;

type Balanced = TreePositions<Global>;

// A key and what stands at it.
type Row = (Key, Holding);

fn holding(now: i64, opening: i64, contract: i128, run: u32) -> Holding {
    Holding {
        now,
        opening,
        contract: Cents::of(contract),
        run,
        carried: 0,
    }
}

// Books shares and cents at a key where nothing stands yet.
fn book<P: Positions<Global>>(
    rt: &impl Abort,
    positions: &mut P,
    key: &Key,
    shares: i32,
    cents: i32,
) {
    positions.prepare(&[*key]).expect(rt, "memory");
    let held = positions.get(*key);
    if held.now == 0 && held.contract == Cents::ZERO {
        positions.add(*key, i64::from(shares), i128::from(cents));
    }
}

// What stands at a key when it is asked for: shares now and at the opening, cents, and closes since it went short.
const REPLIES: [(i64, i64, i128, u32); 7] = [
    (0, 0, 0, 0),
    (5, 0, -10, 0),
    (5, 5, 0, 0),
    (-5, -5, 0, 1),
    (-5, -5, 0, 2),
    (0, 0, 0, 0),
    (-1, 0, 0, 0),
];

fn is_reply(held: &Holding, wanted: &(i64, i64, i128, u32)) -> bool {
    let (now, opening, contract, run) = *wanted;
    *held == holding(now, opening, contract, run)
}

fn are_replies(found: &[Holding]) -> bool {
    for (held, wanted) in found.iter().zip(&REPLIES) {
        if !is_reply(held, wanted) {
            return false;
        }
    }
    found.len() == REPLIES.len()
}

fn check_steps<P: Positions<Global>>(rt: &(impl Abort + AllocGlobal)) {
    let (one, two) = (&key(rt, 1, APPLE), &key(rt, 2, APPLE));
    let steps = [
        Step::Get(*one),
        Step::Add {
            key: *one,
            shares: 5,
            cents: -10,
        },
        Step::Get(*one),
        Step::Add {
            key: *two,
            shares: -5,
            cents: 10,
        },
        Step::Roll,
        Step::Get(*one),
        Step::Get(*two),
        Step::Roll,
        Step::Get(*two),
        Step::Add {
            key: *two,
            shares: 5,
            cents: 0,
        },
        Step::Roll,
        Step::Get(*two),
        Step::Add {
            key: *two,
            shares: -1,
            cents: 0,
        },
        Step::Get(*two),
    ];
    let found = run::<P, Global>(rt.alloc(), &steps).expect(rt, "memory");
    assert!(rt; are_replies(found.as_slice()));
}

// Whether positions that are rebuilt from at most one row have that row first.
fn is_rebuilt<P: Positions<Global>>(positions: &P, rows: &[Row]) -> bool
    requires { is_sorted key_cmp rows.now ≡ true }
{
    match positions.rebuilt(rows) {
        Ok(rebuilt) => rebuilt.next_row(None) == rows.first().copied(),
        Err(_) => false,
    }
}

// Whether a booking stands, is closed, and is the only row that the positions and those rebuilt from it have.
fn is_booked_and_closed<P: Positions<Global>>(rt: &impl Abort, positions: &mut P) -> bool {
    let apple = &key(rt, 1, APPLE);
    book(rt, positions, apple, 5, -10);
    let is_booked = positions.get(*apple) == holding(5, 0, -10, 0);
    positions.roll();
    let row = &(*apple, holding(5, 5, 0, 0));
    is_booked
        && positions.next_row(None) == Some(*row)
        && positions.next_row(Some(*apple)).is_none()
        && is_rebuilt(positions, &[*row])
        && is_rebuilt(positions, &[])
}

fn check_booking<P: Positions<Global>>(rt: &(impl Abort + AllocGlobal)) {
    let mut positions = P::new(rt.alloc());
    assert!(rt; is_booked_and_closed(rt, &mut positions));
}

// Joins the checks: a call at a form of positions is longer to check than one at any form.
fn check_form<P: Positions<Global>>(rt: &(impl Abort + AllocGlobal)) {
    check_steps::<P>(rt);
    check_booking::<P>(rt);
}

#[test]
fn positions_reply_to_steps_book_close_and_are_rebuilt(rt: HostRuntime) {
    check_form::<Flat>(&rt);
    check_form::<Balanced>(&rt);
}
