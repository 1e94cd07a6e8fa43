// The nodes of a tree.
ghost use Rattle.std.specs.Prelude.{◌≡◌, [], ◌∷◌, ◌++◌, ◌+◌, ◌≤◌, length, max, true, MatchOption, if◌then◌else◌};
ghost use Rattle.std.specs.FinMap.{find, is_sorted};
ghost use Rattle.std.specs.Ordering.{is_lt};
ghost use Rattle.cns_tree.specs.Apart.{IsApart};
ghost use Rattle.cns_terms.specs.Keys.{key_cmp};
ghost use Rattle.cns_tree.specs.Search.{is_at_or_after, is_above};
ghost use Rattle.cns_tree.specs.Shape.{IsLean, IsShallow};
ghost use Rattle.std.specs.List.{find as first};

use cns_terms::{Key, Probe};
use std::alloc::Allocator;
use std::cmp::Ordering;
use std::marker::Model;
use std::mem;

/// Which side of a node is higher, if one is: by one level.
#[derive(Clone, Copy)]
pub enum Lean {
    Left,
    Even,
    Right,
}

/// A part of a tree. Contracts see its rows in the order of their keys, and its height.
#[cycle(tree)]
#[derive(Drop)]
pub struct Subtree<V: Copy, A: Allocator> {
    pub(crate) top: Option<Box<Node<V, A>, A>>,
}

/// A row with what is below and above it. What a way down reads stands first, so that it is mostly on one line of memory.
#[cycle(tree)]
#[derive(Drop)]
pub struct Node<V: Copy, A: Allocator> {
    pub(crate) key: Key,
    pub(crate) lean: Lean,
    pub(crate) left: Subtree<V, A>,
    pub(crate) right: Subtree<V, A>,
    pub(crate) value: V,
}

impl<V: Copy, A: Allocator> Model for Subtree<V, A> {
    ghost use Rattle.std.specs.Prelude.{ℕ, List, length};
    ghost use Rattle.cns_terms.specs.declared.holding.Key.{Key};

    ghost Value = { List (Key × V) × ℕ };

    ghost use Rattle.cns_tree.specs.Shape.{rows_and_height, IsBalanced};

    ghost view = { λ a. rows_and_height a.top };

    ghost invariant = { λ a. IsBalanced a.top };

    ghost size = { λ d. length d.0 };

    ghost use Rattle.std.proofs.Common.{arith, length-append};

    ghost size_decreases = { λ a h. Prim.grind (arith, length-append) };
}

/// A node's box without its sides, and what it was put together of.
#[derive(Drop)]
pub(crate) struct Parts<V: Copy, A: Allocator> {
    pub(crate) left: Subtree<V, A>,
    pub(crate) node: Box<Node<V, A>, A>,
    pub(crate) lean: Lean,
    pub(crate) right: Subtree<V, A>,
}

impl<V: Copy, A: Allocator> Node<V, A> {
    // The side of the keys that stand so to the node's.
    fn side(&self, order: Ordering) -> &Subtree<V, A>
        ensures { result.now ≡ (if is_lt order then self.now.left else self.now.right) }
    {
        if order.is_lt() {
            &self.left
        } else {
            &self.right
        }
    }
}

impl<V: Copy, A: Allocator> Subtree<V, A> {
    /// No rows.
    pub(crate) fn empty() -> Self
        ensures { result ≡ ([], 0) }
    {
        Subtree { top: None }
    }

    /// Takes the top apart, if there is one.
    pub(crate) fn open(self) -> Option<Parts<V, A>>
        ensures { MatchOption result (self ≡ ([], 0)) (λ parts. IsApart self parts) }
    {
        let mut node = self.top?;
        let left = mem::replace(&mut node.left, Subtree::empty());
        let right = mem::replace(&mut node.right, Subtree::empty());
        let lean = node.lean;
        Some(Parts {
            left,
            node,
            lean,
            right,
        })
    }

    /// The value at a probe's key, after at most one comparison for each level.
    #[tactic(auto, using(crate::proofs::Nodes::at_node, crate::proofs::Nodes::shallow_top, crate::proofs::Rows::find_left, crate::proofs::Rows::find_middle, crate::proofs::Rows::find_right, cns_terms::proofs::Keys::keys_total))]
    pub(crate) fn get(&self, probe: &mut Probe) -> Option<V>
        ensures value { result ≡ find key_cmp probe.old.0 self.now.0 }
        ensures key { probe.new.0 ≡ probe.old.0 }
        ensures count { probe.new.1 ≤ probe.old.1 + self.now.1 }
        ensures shallow { IsShallow (length self.now.0) self.now.1 }
    {
        let _ = &self.top;
        let mut side = self;
        while let Some(node) = &side.top {
            let node: &Node<V, A> = node;
            let order = probe.compare(&node.key);
            if order.is_eq() {
                return Some(node.value);
            }
            side = if order.is_lt() {
                &node.left
            } else {
                &node.right
            };
        }
        None
    }

    /// The values at two keys. Both ways down are gone at once as far as both lead on, so that neither waits for the
    /// memory that the other reads.
    #[tactic(auto, using(crate::proofs::Nodes::at_node, crate::proofs::Nodes::found_aside))]
    pub(crate) fn get_two(&self, first: Key, second: Key) -> (Option<V>, Option<V>)
        ensures first { result.0 ≡ find key_cmp first self.now.0 }
        ensures second { result.1 ≡ find key_cmp second self.now.0 }
    {
        let mut first_side = self;
        let mut second_side = self;
        while let (Some(first_node), Some(second_node)) = (&first_side.top, &second_side.top) {
            let first_node: &Node<V, A> = first_node;
            let second_node: &Node<V, A> = second_node;
            let first_order = first.cmp(&first_node.key);
            let second_order = second.cmp(&second_node.key);
            if first_order.is_eq() || second_order.is_eq() {
                break;
            }
            first_side = first_node.side(first_order);
            second_side = second_node.side(second_order);
        }
        (
            first_side.get(&mut Probe::new(first)),
            second_side.get(&mut Probe::new(second)),
        )
    }

    /// The first row whose key is the key or above it.
    #[tactic(auto, using(crate::proofs::Nodes::at_node, crate::proofs::Firsts::after_left, crate::proofs::Firsts::after_right, crate::proofs::Firsts::option_or_some))]
    pub(crate) fn first_at_or_after(&self, key: Key) -> Option<(Key, V)>
        ensures { result ≡ first (is_at_or_after key) self.now.0 }
    {
        let mut side = self;
        let mut best = None;
        while let Some(node) = &side.top {
            let node: &Node<V, A> = node;
            if node.key.cmp(&key).is_lt() {
                side = &node.right;
            } else {
                best = Some((node.key, node.value));
                side = &node.left;
            }
        }
        best
    }

    /// The first row whose key is above the key.
    pub(crate) fn first_above(&self, key: Key) -> Option<(Key, V)>
        ensures { result ≡ first (is_above key) self.now.0 }
    {
        let mut side = self;
        let mut best = None;
        while let Some(node) = &side.top {
            let node: &Node<V, A> = node;
            if key.cmp(&node.key).is_lt() {
                best = Some((node.key, node.value));
                side = &node.left;
            } else {
                side = &node.right;
            }
        }
        best
    }
}

/// Puts a node together.
#[tactic(auto, using(crate::proofs::Heights::shallow_joined, crate::proofs::Heights::within_one, crate::proofs::Nodes::shallow_top))]
pub(crate) fn join<V: Copy, A: Allocator>(
    left: Subtree<V, A>,
    mut node: Box<Node<V, A>, A>,
    lean: Lean,
    right: Subtree<V, A>,
) -> Subtree<V, A>
    requires rises { is_sorted key_cmp (left.0 ++ (node.value.key, node.value.value) ∷ right.0) ≡ true }
    requires leans { IsLean lean left.1 right.1 }
    ensures { result ≡ (left.0 ++ (node.value.key, node.value.value) ∷ right.0, max left.1 right.1 + 1) }
{
    let _ = &left.top;
    let _ = &right.top;
    node.left = left;
    node.lean = lean;
    node.right = right;
    Subtree { top: Some(node) }
}
