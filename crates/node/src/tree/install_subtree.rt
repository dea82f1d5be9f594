//! Replaces the child of a root's slot by a subtree that was built without the tree.
//!
//! The subtree contains the slot's oldest messages, which are removed from the slot: so the value at every key is unchanged.
ghost use Rattle.std.specs.Prelude.{◌≡◌, ◌≤◌, length, OnOk, OnErr, IfErr, drop, None};
ghost use Rattle.node.specs.Grafts.{AtSlot, AtRootSlot, CanReplace, Grafted, IsGrafted};
ghost use Rattle.node.specs.Pure.{inner};
ghost use Rattle.node.specs.See.{seen_slots};

use super::Tree;
use crate::node::{Body, Node, Slot};
use message::Update;
use std::sync::Arc;

/// Replaces a slot's child by the subtree, and removes the slot's oldest `count` messages. It does not allocate.
fn replace_child<U: Update>(slot: &mut Slot<U>, count: usize, subtree: Arc<Node<U>>)
    requires { count ≤ length slot.old.pending.0 }
    ensures lo { slot.new.lo ≡ slot.old.lo }
    ensures left { slot.new.pending.0 ≡ drop count slot.old.pending.0 }
    ensures child { slot.new.child.value ≡ subtree.value }
{
    slot.pending.drop_front(count);
    slot.child = subtree;
}

/// Replaces the child of the slot with index `i` by the subtree, and removes that slot's oldest `count` messages.
fn install_in_slot<U: Update>(slots: &mut [Slot<U>], i: usize, count: usize, subtree: Arc<Node<U>>)
    requires { AtSlot (λ lo hi msgs child. count ≤ length msgs) i None (seen_slots slots.old) }
    ensures { IsGrafted i count subtree.value (inner (seen_slots slots.old)) (inner (seen_slots slots.new)) }
{
    if i >= slots.len() {
        // Unreachable: there is a slot with this index.
        return;
    }
    replace_child(&mut slots[i], count, subtree)
}

impl<U: Update> Node<U> {
    /// Replaces the child of a root's slot by the subtree, and removes that slot's oldest `count` messages.
    fn install_subtree(&mut self, i: usize, count: usize, subtree: Arc<Node<U>>)
        requires { AtRootSlot (λ lo hi msgs child. count ≤ length msgs) i self.old }
        ensures { IsGrafted i count subtree.value self.old self.new }
    {
        let Body::Inner(slots) = self.body_mut() else {
            // A root is an inner node.
            unreachable!()
        };
        install_in_slot(slots.as_mut_slice(), i, count, subtree)
    }
}

impl<U: Update> Tree<U> {
    /// Replaces the child of the root's slot with index `i` by a subtree, and removes the slot's oldest `count` messages,
    /// which the subtree already contains.
    ///
    /// It copies the root's own level if another tree shares it. If that fails it gives the subtree back.
    pub fn install_subtree(
        &mut self,
        i: usize,
        count: usize,
        subtree: Arc<Node<U>>,
    ) -> Result<(), Arc<Node<U>>>
        requires { AtRootSlot (CanReplace U.means self.old.shape count subtree.value) i self.old.root }
        ensures ok { OnOk result (Grafted U.means i count subtree.value self.old self.new) }
        ensures err { OnErr result (self.new ≡ self.old) }
        ensures back { IfErr result (λ b. b ≡ subtree) }
    {
        let Ok(root) = Arc::make_mut(&mut self.root) else {
            return Err(subtree);
        };
        root.install_subtree(i, count, subtree);
        Ok(())
    }
}
