// The way down to a key's place, and back.
ghost use Rattle.std.specs.Prelude.{◌≡◌, ◌+◌, ◌<◌, ◌≤◌, ◌⊎◌, [], ◌∷◌, length, is_some, true, if◌then◌else◌};
ghost use Rattle.std.specs.FinMap.{find};
ghost use Rattle.std.specs.FinMap as rows;
ghost use Rattle.cns_terms.specs.Keys.{key_cmp};
ghost use Rattle.cns_tree.specs.Shape.{IsShallow, rise};

use crate::node::{Lean, Node, Parts, Subtree, join};
use crate::rotate::{Changed, join_left, join_right};
use crate::spare::Spare;
use cns_terms::{Key, Probe};
use std::alloc::Allocator;
use std::cmp::Ordering;

// A node with no sides, in a box that is there.
fn leaf<V: Copy, A: Allocator>(mut node: Box<Node<V, A>, A>, key: Key, value: V) -> Subtree<V, A>
    ensures { result ≡ ((key, value) ∷ [], 1) }
{
    node.key = key;
    node.value = value;
    join(Subtree::empty(), node, Lean::Even, Subtree::empty())
}

impl<V: Copy, A: Allocator> Subtree<V, A> {
    /// Puts a value at a key, which takes a spare box where the key isn't there. The probe is of the same key; there is at
    /// most one comparison for each level.
    pub(crate) fn put(
        self,
        key: Key,
        value: V,
        spare: &mut Spare<V, A>,
        probe: &mut Probe,
    ) -> Changed<V, A>
        requires room { (is_some (find key_cmp key self.0) ≡ true) ⊎ (0 < spare.old) }
        requires same { probe.old.0 ≡ key }
        ensures rows { result.side.0 ≡ rows.put key_cmp key value self.0 }
        ensures height { result.side.1 ≡ self.1 + rise result.is_higher }
        ensures spare { spare.new + (if is_some (find key_cmp key self.0) then 0 else 1) ≡ spare.old }
        ensures key { probe.new.0 ≡ probe.old.0 }
        ensures count { probe.new.1 ≤ probe.old.1 + self.1 }
        ensures shallow { IsShallow (length self.0) self.1 }
    {
        let Some(
            Parts {
                left,
                mut node,
                lean,
                right,
            },
        ) = self.open()
        else {
            let Some(node) = spare.take() else {
                unreachable!()
            };
            return Changed {
                side: leaf(node, key, value),
                is_higher: true,
            };
        };
        match probe.compare(&node.key) {
            Ordering::Less => {
                let left = left.put(key, value, spare, probe);
                join_left(left, node, lean, right)
            }
            Ordering::Equal => {
                node.value = value;
                Changed {
                    side: join(left, node, lean, right),
                    is_higher: false,
                }
            }
            Ordering::Greater => {
                let right = right.put(key, value, spare, probe);
                join_right(left, node, lean, right)
            }
        }
    }
}
