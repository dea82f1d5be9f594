//! Appends new messages to trees, to one or to two atomically.
//!
//! Slots of the root from which a job was taken are not condensed, as in `node::append`.
ghost use Rattle.std.specs.Prelude.{◌≡◌, OnOk, OnErr, IsOk, [], ◌∷◌};
ghost use Rattle.node.specs.Appended.{Appended};
ghost use Rattle.node.specs.Grafts.{KeepsLists};

use super::Tree;
use crate::node::append;
use message::{Msg, Update};
use pathkey::NoMemory;
use std::alloc::Global;
use std::sync::Arc;

impl<U: Update> Tree<U> {
    /// Appends messages, the oldest first, to the root's slots, atomically. The list of the slot with index `i` stays as it
    /// was if `kept[i]` is above 0, with the new pieces after it as they are. A missing number is 0.
    ///
    /// It moves the messages, and copies the root's own level only if another tree shares it.
    pub fn append_kept(
        &mut self,
        alloc: Global,
        msgs: Vec<Msg<U>>,
        kept: &[u32],
    ) -> Result<(), NoMemory>
        ensures ok { OnOk result (Appended U.means msgs.items self.old self.new) }
        ensures kept { OnOk result (KeepsLists kept.now msgs.items self.old.root self.new.root) }
        ensures err { OnErr result (self.new ≡ self.old) }
        ensures nothing { msgs.items ≡ [] → IsOk result × (self.new ≡ self.old) }
    {
        let root = &mut self.root;
        if msgs.is_empty() {
            // No root is copied for nothing, so this never fails.
            return Ok(());
        }
        Arc::make_mut(root)?.append_kept(alloc, msgs, kept)
    }

    /// Prepares for shares of the tree: the first change after one then copies no list of the root, as long as fewer than 64 new
    /// messages wait in it. It does nothing if another tree shares the root.
    pub fn make_sharable(&mut self)
        ensures { self.new ≡ self.old }
    {
        let Some(root) = Arc::get_mut(&mut self.root) else {
            return;
        };
        root.make_sharable();
    }

    /// Condenses the lists of the root's slots, unless another tree shares the root: messages that waited while a list was shared
    /// are sorted in. The list of the slot with index `i` stays as it is if `kept[i]` is above 0. A missing number is 0.
    pub fn condense(&mut self, kept: &[u32])
        ensures appended { Appended U.means [] self.old self.new }
        ensures kept { KeepsLists kept.now [] self.old.root self.new.root }
    {
        let Some(root) = Arc::get_mut(&mut self.root) else {
            return;
        };
        root.condense(kept);
    }

    /// Appends one message to the root's slots, or leaves the tree as it was: what `append` does with this message alone,
    /// without a list of messages.
    pub fn append_one(&mut self, alloc: Global, msg: Msg<U>) -> Result<(), NoMemory>
        ensures ok { OnOk result (Appended U.means (msg ∷ []) self.old self.new) }
        ensures err { OnErr result (self.new ≡ self.old) }
    {
        let root = &mut self.root;
        Arc::make_mut(root)?.append_one(alloc, msg)
    }
}

/// Appends one batch to two trees, atomically; lists stay as `append_kept` of each says.
pub fn append_both_kept<A: Update, B: Update>(
    alloc: Global,
    first: &mut Tree<A>,
    first_msgs: Vec<Msg<A>>,
    first_kept: &[u32],
    second: &mut Tree<B>,
    second_msgs: Vec<Msg<B>>,
    second_kept: &[u32],
) -> Result<(), NoMemory>
    ensures first_ok { OnOk result (Appended A.means first_msgs.items first.old first.new) }
    ensures first_kept { OnOk result (KeepsLists first_kept.now first_msgs.items first.old.root first.new.root) }
    ensures first_err { OnErr result (first.new ≡ first.old) }
    ensures second_ok { OnOk result (Appended B.means second_msgs.items second.old second.new) }
    ensures second_kept { OnOk result (KeepsLists second_kept.now second_msgs.items second.old.root second.new.root) }
    ensures second_err { OnErr result (second.new ≡ second.old) }
    ensures first_nothing { first_msgs.items ≡ [] → first.new ≡ first.old }
    ensures second_nothing { second_msgs.items ≡ [] → second.new ≡ second.old }
    ensures nothing { first_msgs.items ≡ [] → second_msgs.items ≡ [] → IsOk result }
{
    if first_msgs.is_empty() || second_msgs.is_empty() {
        // One of the two calls does nothing and never fails: so these too are both or neither.
        first.append_kept(alloc, first_msgs, first_kept)?;
        return second.append_kept(alloc, second_msgs, second_kept);
    }
    let one = Arc::make_mut(&mut first.root)?;
    // If this fails, the first tree may have got a root of its own, and is the same.
    let two = Arc::make_mut(&mut second.root)?;
    append::append_both_kept(
        alloc,
        one,
        first_msgs,
        first_kept,
        two,
        second_msgs,
        second_kept,
    )
}
