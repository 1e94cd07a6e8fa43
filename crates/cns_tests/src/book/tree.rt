// Tests of the tree: many rows on each allocator, and memory that is given back. Copies, trees of sorted rows and what a
// refused growth leaves are shown by `growth`.
use crate::values::{APPLE, key};
use cns_terms::Key;
use cns_tree::Tree;
use linked_list_allocator::LocalHeap;
use std::alloc::Allocator;
use std::process::Abort;

// Puts a row where there is memory.
fn put<V: Copy, A: Allocator + Clone>(rt: &impl Abort, tree: &mut Tree<V, A>, key: &Key, value: V) {
    let mut spare = tree.spare(1, value).expect(rt, "memory");
    tree.put(*key, value, &mut spare);
}

// A tree with the keys 1 to `count`, each with its number as value.
pub(crate) fn filled<A: Allocator + Clone>(rt: &impl Abort, alloc: A, count: u16) -> Tree<u64, A> {
    let mut tree = Tree::new(alloc);
    for number in 1..=count {
        put(rt, &mut tree, &key(rt, number, APPLE), u64::from(number));
    }
    tree
}

// Whether there are so many rows, and a walk gives the keys 1 to `count`, each with its number as value.
fn counts_to<A: Allocator + Clone>(rt: &impl Abort, tree: &Tree<u64, A>, count: u16) -> bool {
    let mut number = 0u16;
    for row in tree.walk() {
        number = number.saturating_add(1);
        if row != (key(rt, number, APPLE), u64::from(number)) {
            return false;
        }
    }
    number == count && tree.len() == usize::from(count)
}

// The row of a number, or none.
fn row(rt: &impl Abort, number: Option<u16>) -> Option<(Key, u64)> {
    match number {
        Some(number) => Some((key(rt, number, APPLE), u64::from(number))),
        None => None,
    }
}

// A number, its value, and the numbers of the first row at or after its key and of the first above it.
const LOOK_UPS: [(u16, Option<u64>, Option<u16>, Option<u16>); 3] = [
    (500, Some(500), Some(500), Some(501)),
    (1000, Some(1000), Some(1000), None),
    (1001, None, None, None),
];

// Whether a thousand rows are looked up.
fn are_looked_up<A: Allocator + Clone>(rt: &impl Abort, tree: &Tree<u64, A>) -> bool {
    for (number, value, from, above) in &LOOK_UPS {
        let key = &key(rt, *number, APPLE);
        if tree.get(*key) != *value
            || tree.first_at_or_after(*key) != row(rt, *from)
            || tree.first_above(*key) != row(rt, *above)
        {
            return false;
        }
    }
    true
}

// Gives a key another value, and then its own again. Whether the other one stood.
fn is_changed<A: Allocator + Clone>(rt: &impl Abort, tree: &mut Tree<u64, A>) -> bool {
    let key = &key(rt, 500, APPLE);
    put(rt, tree, key, 7);
    let is_changed = tree.get(*key) == Some(7);
    put(rt, tree, key, 500);
    is_changed
}

// Whether a thousand rows are walked, looked up and changed.
fn are_there<A: Allocator + Clone>(rt: &impl Abort, tree: &mut Tree<u64, A>) -> bool {
    counts_to(rt, tree, 1000)
        && are_looked_up(rt, tree)
        && is_changed(rt, tree)
        && counts_to(rt, tree, 1000)
}

fn thousand_rows<A: Allocator + Clone>(rt: &impl Abort, alloc: A) {
    let mut tree = filled(rt, alloc, 1000);
    assert!(rt; are_there(rt, &mut tree));
}

#[test]
fn a_thousand_rows_on_the_global_allocator(rt: HostRuntime) {
    thousand_rows(&rt, rt.alloc());
}

#[test]
fn a_thousand_rows_on_a_heap_give_their_memory_back(rt: HostRuntime) {
    let heap = LocalHeap::new(rt.alloc(), 1_048_576).expect(&rt, "memory");
    for _ in 0..25 {
        thousand_rows(&rt, &heap);
        assert!(rt; heap.used() == 0);
    }
}
