// The calls of positions that take memory, over both forms.
ghost use Rattle.cns_positions.specs.Steps.{SumsFit, nowhere};

use crate::growth::refusing::Call;
use crate::growth::trees::rows_of;
use crate::values::{APPLE, key};
use cns_positions::{Positions, Step, run};
use cns_terms::Holding;
use cns_tree::Tree;
use std::alloc::{Allocator, Global};
use std::marker::PhantomData;
use std::process::Abort;

// A holding of so many shares.
fn holding(now: u16) -> Holding {
    Holding {
        now: i64::from(now),
        ..Holding::ZEROS
    }
}

// Puts rows of the accounts 1 to `count`, each with as many shares as its number.
fn fill(rt: &impl Abort, rows: &mut Tree<Holding, Global>, count: u16) {
    for number in 1..=count {
        let mut spare = rows.spare(1, holding(0)).expect(rt, "memory");
        rows.put(key(rt, number, APPLE), holding(number), &mut spare);
    }
}

fn rows(rt: &impl Abort, global: Global, count: u16) -> Tree<Holding, Global> {
    let mut rows = Tree::new(global);
    fill(rt, &mut rows, count);
    rows
}

// Positions of these rows beside others, whose allocator they stand on. None where memory is refused.
fn built_beside<A, P: Positions<A>>(
    rt: &impl Abort,
    global: Global,
    positions: &P,
    rows: &Tree<Holding, Global>,
) -> Option<P> {
    // The call tells the prover that the rows are in order.
    let _ = rows.len();
    let rows = rows_of(rows, global).expect(rt, "memory");
    positions.rebuilt(rows.as_slice()).ok()
}

// Room at four keys that have no row.
#[derive(Drop)]
pub(crate) struct Prepare<P: Drop> {
    positions: P,
}

impl<H: Allocator + Drop + Clone, P: Positions<H>> Call<H> for Prepare<P> {
    fn prepared(rt: &impl Abort, global: Global, alloc: H, size: u16) -> Self {
        let rows = rows(rt, global, size);
        let empty = P::new(alloc);
        let positions = built_beside(rt, global, &empty, &rows).expect(rt, "memory");
        Prepare { positions }
    }

    fn make(&mut self, rt: &impl Abort) -> bool {
        let keys = [
            key(rt, 3_030, APPLE),
            key(rt, 3_040, APPLE),
            key(rt, 3_050, APPLE),
            key(rt, 3_060, APPLE),
        ];
        self.positions.prepare(&keys).is_ok()
    }
}

// Positions built anew, beside others without a row.
#[derive(Drop)]
pub(crate) struct Rebuilt<P: Drop> {
    empty: P,
    global: Global,
    rows: Tree<Holding, Global>,
}

impl<H: Allocator + Drop + Clone, P: Positions<H>> Call<H> for Rebuilt<P> {
    fn prepared(rt: &impl Abort, global: Global, alloc: H, size: u16) -> Self {
        Rebuilt {
            empty: P::new(alloc),
            global,
            rows: rows(rt, global, size),
        }
    }

    fn make(&mut self, rt: &impl Abort) -> bool {
        built_beside(rt, self.global, &self.empty, &self.rows).is_some()
    }
}

// Steps on an empty map.
#[derive(Drop)]
pub(crate) struct Run<P, H: Drop> {
    alloc: H,
    global: Global,
    size: u16,
    form: PhantomData<P>,
}

// Books shares at the key of each account below `count`, and asks what stands there.
fn steps(rt: &impl Abort, global: Global, count: u16) -> Vec<Step>
    ensures { SumsFit nowhere result.items }
{
    let mut steps = Vec::new(global);
    for number in 0..count {
        let key = &key(rt, number, APPLE);
        let booking = Step::Add {
            key: *key,
            shares: i64::from(number),
            cents: 1,
        };
        steps.push(booking).expect(rt, "memory");
        steps.push(Step::Get(*key)).expect(rt, "memory");
    }
    assert!(rt; steps.len() <= 6_000);
    steps
}

impl<H: Allocator + Drop + Clone, P: Positions<H>> Call<H> for Run<P, H> {
    fn prepared(_rt: &impl Abort, global: Global, alloc: H, size: u16) -> Self {
        Run {
            alloc,
            global,
            size,
            form: PhantomData,
        }
    }

    fn make(&mut self, rt: &impl Abort) -> bool {
        let steps = steps(rt, self.global, self.size);
        match self.alloc.clone() {
            Ok(alloc) => run::<P, H>(alloc, steps.as_slice()).is_ok(),
            Err(_) => false,
        }
    }
}
