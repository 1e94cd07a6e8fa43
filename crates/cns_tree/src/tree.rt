// The tree and its public calls.
ghost use Rattle.std.specs.Prelude.{◌≡◌, ◌+◌, ◌*◌, ◌<◌, ◌≤◌, ◌⊎◌, [], true, is_some, length, min, IfOk, IfSome, OnErr, if◌then◌else◌};
ghost use Rattle.std.specs.FinMap.{find, is_sorted};
ghost use Rattle.std.specs.FinMap as rows;
ghost use Rattle.std.specs.List.{filter, find as first};
ghost use Rattle.cns_terms.specs.Digits.{binary_digits};
ghost use Rattle.cns_terms.specs.Keys.{key_cmp};
ghost use Rattle.cns_tree.specs.Changes.{ChangesAt, ChangesEach};
ghost use Rattle.cns_tree.specs.Counted.{IsCounted};
ghost use Rattle.cns_tree.specs.Search.{is_at_or_after, is_above, is_after};

use crate::build::{Builder, boxed};
use crate::node::Subtree;
use crate::spare::Spare;
use crate::walk::Walk;
use cns_terms::{Key, NoMemory, Probe};
use cns_units::{Account, Cusip};
use std::alloc::Allocator;
use std::marker::Model;
use std::mem;

/// A map from keys to values, as a tree of one box a row. Contracts see its rows as a list in the order of their keys.
///
/// The tree keeps an allocator. Its calls take no memory, but for `spare`, `from_sorted` and `copied`. A look-up, a `put`
/// or a `change` is one way down; `walk` and `change_each` are one pass over the rows.
#[derive(Drop)]
pub struct Tree<V: Copy, A: Allocator + Clone> {
    pub(crate) root: Subtree<V, A>,
    count: usize,
    alloc: A,
}

impl<V: Copy, A: Allocator + Clone> Model for Tree<V, A> {
    ghost use Rattle.std.specs.Prelude.{List};
    ghost use Rattle.cns_terms.specs.declared.holding.Key.{Key};
    ghost use Rattle.cns_tree.specs.Counted.{IsCounted};

    ghost Value = { List (Key × V) };

    ghost view = { λ t. t.root.0 };

    ghost invariant = { λ t. IsCounted t.root.0 t.count };
}

impl<V: Copy, A: Allocator + Clone> Tree<V, A> {
    /// A tree with no rows.
    pub fn new(alloc: A) -> Self
        ensures { result ≡ [] }
    {
        Tree {
            root: Subtree::empty(),
            count: 0,
            alloc,
        }
    }

    /// A tree of rows whose keys strictly rise. It takes time in proportion to their number.
    ///
    /// `NoMemory` where a box was refused; those that it had are given back. A tree of no rows asks for none.
    pub fn from_sorted(alloc: A, rows: &[(Key, V)]) -> Result<Self, NoMemory>
        requires { is_sorted key_cmp rows.now ≡ true }
        ensures rows { IfOk result (λ tree. tree ≡ rows.now) }
        ensures memory { OnErr result (0 < length rows.now) }
    {
        if rows.is_empty() {
            return Ok(Tree::new(alloc));
        }
        let mut builder = Builder::with_capacity(alloc, rows.len())?;
        for (key, value) in rows {
            builder.push(*key, *value)?;
        }
        Ok(builder.tree())
    }

    // The tree of a root and how many rows it has.
    pub(crate) fn over(root: Subtree<V, A>, count: usize, alloc: A) -> Self
        requires { IsCounted root.0 count }
        ensures { result ≡ root.0 }
    {
        Tree { root, count, alloc }
    }

    /// A tree with the same rows, in boxes of its own from the same allocator.
    ///
    /// `NoMemory` where a box, or a clone of the allocator, was refused; the boxes that it had are given back.
    pub fn copied(&self) -> Result<Self, NoMemory>
        ensures { IfOk result (λ tree. tree ≡ self.now) }
    {
        let alloc = self.alloc.clone()?;
        Ok(Tree {
            root: self.root.copied(&self.alloc)?,
            count: self.count,
            alloc,
        })
    }

    /// A spare of so many boxes, at most four. The value fills them until a put uses them; no call gives it back.
    ///
    /// `NoMemory` where a box was refused; those that it had are given back. A spare of none asks for none.
    pub fn spare(&self, count: usize, value: V) -> Result<Spare<V, A>, NoMemory>
        requires { count ≤ 4 }
        ensures count { IfOk result (λ spare. spare ≡ count) }
        ensures memory { OnErr result (0 < count) }
    {
        let mut spare = Spare::empty();
        for _held in 0..count {
            spare.add(boxed(&self.alloc, unused_key(), value)?);
        }
        Ok(spare)
    }

    /// The allocator of the boxes.
    pub fn allocator(&self) -> &A {
        &self.alloc
    }

    /// How many rows there are; past `usize::MAX`, which no memory holds, that number.
    pub fn len(&self) -> usize
        ensures count { result ≡ min (length self.now) usize.MAX }
        ensures rises { is_sorted key_cmp self.now ≡ true }
    {
        self.count
    }

    /// The value at a key, if the key has a row.
    pub fn get(&self, key: Key) -> Option<V>
        ensures value { result ≡ find key_cmp key self.now }
        ensures rises { is_sorted key_cmp self.now ≡ true }
    {
        self.get_counted(&mut Probe::new(key))
    }

    /// The value at a probe's key, as `get` gives it, after at most two comparisons for each binary digit of the number of
    /// rows.
    #[tactic(auto, using(crate::proofs::Heights::few_digits))]
    pub fn get_counted(&self, probe: &mut Probe) -> Option<V>
        ensures value { result ≡ find key_cmp probe.old.0 self.now }
        ensures rises { is_sorted key_cmp self.now ≡ true }
        ensures key { probe.new.0 ≡ probe.old.0 }
        ensures count { probe.new.1 ≤ probe.old.1 + 2 * binary_digits (length self.now) }
    {
        self.root.get(probe)
    }

    /// The values at two keys, as `get` gives them one by one, for little more than the time of one.
    pub fn get_two(&self, first: Key, second: Key) -> (Option<V>, Option<V>)
        ensures first { result.0 ≡ find key_cmp first self.now }
        ensures second { result.1 ≡ find key_cmp second self.now }
    {
        self.root.get_two(first, second)
    }

    /// Gives a key the value. Where the key has no row, that takes one box out of the spare; all other rows stay.
    pub fn put(&mut self, key: Key, value: V, spare: &mut Spare<V, A>)
        requires { (is_some (find key_cmp key self.old) ≡ true) ⊎ (0 < spare.old) }
        ensures rows { self.new ≡ rows.put key_cmp key value self.old }
        ensures rises { is_sorted key_cmp self.new ≡ true }
        ensures spare { spare.new + (if is_some (find key_cmp key self.old) then 0 else 1) ≡ spare.old }
    {
        let key = &key;
        self.put_counted(*key, value, spare, &mut Probe::new(*key));
    }

    /// Gives a probe's key the value, as `put` does, after at most two comparisons for each binary digit of the number of
    /// rows that there were.
    pub fn put_counted(&mut self, key: Key, value: V, spare: &mut Spare<V, A>, probe: &mut Probe)
        requires room { (is_some (find key_cmp key self.old) ≡ true) ⊎ (0 < spare.old) }
        requires same { probe.old.0 ≡ key }
        ensures rows { self.new ≡ rows.put key_cmp key value self.old }
        ensures rises { is_sorted key_cmp self.new ≡ true }
        ensures spare { spare.new + (if is_some (find key_cmp key self.old) then 0 else 1) ≡ spare.old }
        ensures key { probe.new.0 ≡ probe.old.0 }
        ensures count { probe.new.1 ≤ probe.old.1 + 2 * binary_digits (length self.old) }
    {
        let held = spare.len();
        let root = mem::replace(&mut self.root, Subtree::empty());
        self.root = root.put(key, value, spare, probe).side;
        if spare.len() < held {
            self.count = self.count.saturating_add(1);
        }
    }

    /// Gives the value at a key, if the key has a row, what `change` makes of it; all else stays. False where the key has
    /// no row. It costs one way down.
    pub fn change<F: FnOnce(V) -> V>(&mut self, key: Key, change: F) -> bool
        requires { IfSome (find key_cmp key self.old) (F.pre change) }
        ensures found { result ≡ is_some (find key_cmp key self.old) }
        ensures rows { ChangesAt (F.post change) key self.old self.new }
        ensures rises { is_sorted key_cmp self.new ≡ true }
    {
        self.change_counted(&mut Probe::new(key), change)
    }

    /// Changes the value at a probe's key, as `change` does, after at most two comparisons for each binary digit of the
    /// number of rows.
    #[tactic(auto, using(crate::proofs::Changed::kept_at, crate::proofs::Heights::few_digits))]
    pub fn change_counted<F: FnOnce(V) -> V>(&mut self, probe: &mut Probe, change: F) -> bool
        requires { IfSome (find key_cmp probe.old.0 self.old) (F.pre change) }
        ensures found { result ≡ is_some (find key_cmp probe.old.0 self.old) }
        ensures rows { ChangesAt (F.post change) probe.old.0 self.old self.new }
        ensures rises { is_sorted key_cmp self.new ≡ true }
        ensures key { probe.new.0 ≡ probe.old.0 }
        ensures count { probe.new.1 ≤ probe.old.1 + 2 * binary_digits (length self.old) }
    {
        self.root.change(probe, change)
    }

    /// Gives each value what `change` makes of it. It costs one pass over the rows.
    #[tactic(auto, using(crate::proofs::Changed::kept_each))]
    pub fn change_each<F: Fn(V) -> V>(&mut self, change: F)
        requires { F.IsAlwaysCallable change }
        ensures rows { ChangesEach (F.post change) self.old self.new }
        ensures rises { is_sorted key_cmp self.new ≡ true }
    {
        self.root.change_each(&change);
    }

    /// The first row whose key is the key or above it.
    pub fn first_at_or_after(&self, key: Key) -> Option<(Key, V)>
        ensures row { result ≡ first (is_at_or_after key) self.now }
        ensures rises { is_sorted key_cmp self.now ≡ true }
    {
        self.root.first_at_or_after(key)
    }

    /// The first row whose key is above the key.
    pub fn first_above(&self, key: Key) -> Option<(Key, V)>
        ensures row { result ≡ first (is_above key) self.now }
        ensures rises { is_sorted key_cmp self.now ≡ true }
    {
        self.root.first_above(key)
    }

    /// The rows in the order of their keys.
    #[tactic(auto, using(crate::proofs::Walks::all_rows))]
    pub fn walk(&self) -> Walk<V, A>
        ensures rows { result ≡ self.now }
        ensures rises { is_sorted key_cmp self.now ≡ true }
    {
        self.walk_above(None)
    }

    /// The rows above a key in the order of their keys, or all of them.
    pub fn walk_above(&self, key: Option<Key>) -> Walk<V, A>
        ensures rows { result ≡ filter (is_after key) self.now }
        ensures rises { is_sorted key_cmp self.now ≡ true }
    {
        let _ = &self.root;
        Walk::new(self, key)
    }
}

// The key in a box that no put has used yet. No call gives it back.
fn unused_key() -> Key {
    let Ok(issue) = Cusip::parse(b"000000000") else {
        unreachable!()
    };
    Key {
        account: Account::CORPORATION,
        issue,
    }
}
