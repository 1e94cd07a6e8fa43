// Tests of counted comparisons: some, and at most two for each binary digit of the number of rows.
ghost use Rattle.std.specs.Prelude.{◌≡◌, true};
ghost use Rattle.cns_positions.specs.Rows.{has_row};

use crate::book::tree::filled;
use crate::checks::check_at;
use crate::values::{APPLE, key};
use cns_positions::{Positions, TreePositions};
use cns_terms::{Holding, Key, Probe};
use cns_tree::Tree;
use std::alloc::Global;
use std::process::Abort;

// Numbers of rows, with twice their binary digits.
const SIZES: [(u16, u64); 3] = [(0, 0), (1, 2), (1_000, 20)];

// Whether so many comparisons are at most so many, and some where they may be.
fn is_few(count: u64, most: u64) -> bool {
    count <= most && (count > 0) == (most > 0)
}

// How many comparisons a look-up takes.
fn comparisons(tree: &Tree<u64, Global>, key: &Key) -> u64 {
    let mut probe = Probe::new(*key);
    let _ = tree.get_counted(&mut probe);
    probe.count()
}

// Whether look-ups of each row, and of a key that has none, take few comparisons.
fn are_few(rt: &impl Abort, tree: &Tree<u64, Global>, rows: u16, most: u64) -> bool {
    for number in 1..=rows.saturating_add(1) {
        if !is_few(comparisons(tree, &key(rt, number, APPLE)), most) {
            return false;
        }
    }
    true
}

fn check_size(rt: &impl Abort, alloc: Global, rows: u16, most: u64) {
    let tree = filled(rt, alloc, rows);
    check_at(rt, are_few(rt, &tree, rows, most), u64::from(rows));
}

#[test]
fn a_look_up_takes_two_comparisons_for_each_binary_digit_at_most_and_none_in_an_empty_tree(
    rt: HostRuntime,
) {
    for (rows, most) in &SIZES {
        check_size(&rt, rt.alloc(), *rows, *most);
    }
}

// Books a share at a key that has a row where none stands, and takes it back where one does. How many comparisons that took.
fn turn_share(positions: &mut TreePositions<Global>, key: &Key) -> u64
    requires { has_row positions.old key.now ≡ true }
    ensures { has_row positions.new key.now ≡ true }
{
    let held = positions.get(*key);
    let shares = match held.now {
        0 => 1,
        1 => -1,
        _ => return 0,
    };
    if held.contract.value() != 0 {
        return 0;
    }
    let mut probe = Probe::new(*key);
    positions.add_counted(&mut probe, shares, 0);
    probe.count()
}

// Whether a key that is prepared is booked at, taken back from and looked up after few comparisons, and has a row of zeros,
// which no pass gives.
fn has_zeros(rt: &impl Abort, positions: &mut TreePositions<Global>, key: &Key) -> bool {
    positions.prepare(&[*key]).expect(rt, "memory");
    let is_booked = is_few(turn_share(positions, key), 2) && positions.get(*key).now == 1;
    let is_taken_back = is_few(turn_share(positions, key), 2);
    positions.roll();
    let mut probe = Probe::new(*key);
    let held = positions.get_counted(&mut probe);
    is_booked
        && is_taken_back
        && held == Holding::ZEROS
        && is_few(probe.count(), 2)
        && positions.next_row(None).is_none()
        && positions.len() == 1
}

#[test]
fn a_prepared_key_has_a_row_of_zeros_which_no_pass_gives(rt: HostRuntime) {
    let mut positions: TreePositions<Global> = TreePositions::new(rt.alloc());
    assert!(rt; has_zeros(&rt, &mut positions, &key(&rt, 1, APPLE)));
}
