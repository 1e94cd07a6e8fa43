// Values changed where they stand.
ghost use Rattle.std.specs.Prelude.{◌≡◌, ◌+◌, ◌≤◌, length, is_some, IfSome};
ghost use Rattle.std.specs.FinMap.{find};
ghost use Rattle.cns_terms.specs.Keys.{key_cmp};
ghost use Rattle.cns_tree.specs.Changes.{ChangesAt, ChangesEach};
ghost use Rattle.cns_tree.specs.Shape.{IsShallow};

use crate::node::{Node, Subtree};
use cns_terms::Probe;
use std::alloc::Allocator;

impl<V: Copy, A: Allocator> Subtree<V, A> {
    /// Gives the value at a probe's key, if the key has a row, what `change` makes of it. One way down, with at most one
    /// comparison for each level; nothing moves.
    #[tactic(auto, using(crate::proofs::Nodes::at_node, crate::proofs::Rows::find_left, crate::proofs::Rows::find_middle, crate::proofs::Rows::find_right, crate::proofs::Rows::sides_shorter, cns_terms::proofs::Keys::keys_total))]
    pub(crate) fn change<F: FnOnce(V) -> V>(&mut self, probe: &mut Probe, change: F) -> bool
        requires { IfSome (find key_cmp probe.old.0 self.old.0) (F.pre change) }
        ensures found { result ≡ is_some (find key_cmp probe.old.0 self.old.0) }
        ensures rows { ChangesAt (F.post change) probe.old.0 self.old.0 self.new.0 }
        ensures height { self.new.1 ≡ self.old.1 }
        ensures key { probe.new.0 ≡ probe.old.0 }
        ensures count { probe.new.1 ≤ probe.old.1 + self.old.1 }
        ensures shallow { IsShallow (length self.old.0) self.old.1 }
    {
        let Some(node) = &mut self.top else {
            return false;
        };
        let node: &mut Node<V, A> = node;
        let order = probe.compare(&node.key);
        if order.is_eq() {
            node.value = change(node.value);
            return true;
        }
        if order.is_lt() {
            return node.left.change(probe, change);
        }
        node.right.change(probe, change)
    }

    /// Gives each value what `change` makes of it, in the order of keys.
    #[tactic(auto, unfolding(crate::specs::Changes::ChangesEach))]
    pub(crate) fn change_each<F: Fn(V) -> V>(&mut self, change: &F)
        requires { F.IsAlwaysCallable change.now }
        ensures rows { ChangesEach (F.post change.now) self.old.0 self.new.0 }
        ensures height { self.new.1 ≡ self.old.1 }
    {
        let Some(node) = &mut self.top else {
            return;
        };
        let node: &mut Node<V, A> = node;
        node.left.change_each(change);
        node.value = change(node.value);
        node.right.change_each(change);
    }
}
