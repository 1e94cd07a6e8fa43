// The calls of trees, positions and statements that take memory, and a new book's, with each of their growths refused in turn.
// What else stands below the book is reached through its commands, and in number by `tests/large.py`.
use crate::growth::maps::{Prepare, Rebuilt, Run};
use crate::growth::opening::Opening;
use crate::growth::refusing::{Call, Handle, Rations, Refusing, most_growths};
use crate::growth::statements::Cut;
use crate::growth::trees::{Copied, FromSorted, Spare};
use cns_positions::{FlatPositions, Positions, TreePositions};
use cns_rationed::Rationed;
use std::alloc::Global;
use std::process::Abort;

// The calls stand in groups, since the check of a function takes the longer the more of them it has. The number after a call is the
// least that its growths can be where its arguments have 24 items: its boxes, or one block. A refused growth leaves nothing but rows
// of zeros at the four keys that are prepared.

// Those numbers for the calls over a form of positions.
struct Least {
    prepare: u64,
    rebuilt: u64,
    run: u64,
}

const IN_TREE: Least = Least {
    prepare: 4,
    rebuilt: 24,
    run: 25,
};

const IN_FLAT: Least = Least {
    prepare: 1,
    rebuilt: 1,
    run: 2,
};

// Refuses each growth of a call in turn, of which there have to be so many. An assertion after each call is longer to check.
fn at_least<'a, H: Handle<'a>, C: Call<H>>(
    rt: &impl Abort,
    global: Global,
    rationed: Rations<'a>,
    left: u64,
    growths: u64,
) {
    assert!(rt; most_growths::<H, C>(rt, global, rationed, left) >= growths);
}

fn refuse_trees<'a, H: Handle<'a>>(rt: &impl Abort, global: Global, rationed: Rations<'a>) {
    at_least::<H, Spare<H>>(rt, global, rationed, 0, 4);
    at_least::<H, Copied<H>>(rt, global, rationed, 0, 24);
    at_least::<H, FromSorted<H>>(rt, global, rationed, 0, 24);
}

fn refuse_positions<'a, P: Positions<H>, H: Handle<'a>>(
    rt: &impl Abort,
    global: Global,
    rationed: Rations<'a>,
    least: &Least,
) {
    at_least::<H, Prepare<P>>(rt, global, rationed, 4, least.prepare);
    at_least::<H, Rebuilt<P>>(rt, global, rationed, 0, least.rebuilt);
    at_least::<H, Run<P, H>>(rt, global, rationed, 0, least.run);
}

fn refuse_each<'a, H: Handle<'a>>(rt: &impl Abort, global: Global, rationed: Rations<'a>) {
    refuse_trees::<H>(rt, global, rationed);
    refuse_positions::<TreePositions<H>, H>(rt, global, rationed, &IN_TREE);
    refuse_positions::<FlatPositions<H>, H>(rt, global, rationed, &IN_FLAT);
    at_least::<H, Cut<H>>(rt, global, rationed, 0, 1);
    at_least::<H, Opening<H>>(rt, global, rationed, 0, 2);
}

#[test]
fn each_growth_of_trees_positions_statements_and_a_new_book_is_refused_in_turn(rt: HostRuntime) {
    let rationed = Rationed::new(rt.alloc());
    refuse_each::<Refusing>(&rt, rt.alloc(), &rationed);
}
