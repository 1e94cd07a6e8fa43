//! A map from keys (an account and an issue) to small values, kept as a height-balanced tree of boxes over any
//! allocator. The book's positions stand on it.
//!
//! Contracts see a [`Tree`] as the list of its rows, whose keys strictly rise: by account, and then by the bytes of
//! the issue. At every node the heights of the two sides are the same or differ by one, so `get` and `put` go down
//! one short path. A `put` takes no memory: the box for a new row comes out of a [`Spare`] that [`Tree::spare`]
//! filled before. A `change` writes a value where it stands, `change_each` all of them in one pass, and a `walk` gives
//! the rows without a way down for each. A [`Builder`] boxes rows one by one, in the order of their keys, and makes a tree
//! of the boxes. What does take memory (`Builder`, `spare`, `copied`, `from_sorted`) makes something new, so a failed
//! allocation leaves every tree as it was.
//!
//! Start at [`Tree`] in `tree.rt`; `specs/Search.antt` has the words of its contracts, and `node.rt` has the nodes.
#![tactic(auto)]

mod build;
mod change;
mod node;
mod put;
mod rotate;
mod spare;
mod tree;
mod walk;

pub use build::Builder;
pub use spare::Spare;
pub use tree::Tree;
pub use walk::Walk;
