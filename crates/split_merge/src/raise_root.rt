//! Raises the root by one level: a new root with one slot is put above the old one.
//!
//! The new slot has all messages of the old root, whose slots then have none. So the old root, which is now below the root, has no
//! more pending than a node may have. The lists are of disjoint ranges, and may follow one another in any order.
ghost use Rattle.std.specs.Prelude.{◌≡◌, ◌≤◌, ◌<◌, [], true, false, map, IfOk, IfErr};
ghost use Rattle.message.specs.Effects.{Takes};
ghost use Rattle.node.specs.RootSteps.{levels, AnswersUp};
ghost use Rattle.node.specs.See.{see_slot, seen_slots};
ghost use Rattle.split_merge.specs.Raised.{hollow, all_msgs, IsAbove, Raised, Refused};

use message::Update;
use node::{Body, Node, Slot, StepReply, Tree};
use pathkey::{Key, NoMemory};
use pending::Pending;
use std::alloc::Global;
use std::sync::Arc;

/// Whether at least `n` inner nodes are above the first leaf.
fn has_levels<U: Update>(node: &Node<U>, n: u8) -> bool
    ensures deep { result ≡ true → n ≤ levels node.now }
    ensures shallow { result ≡ false → levels node.now < n }
{
    if n == 0 {
        return true;
    }
    let Body::Inner(slots) = node.body() else {
        return false;
    };
    match slots.first() {
        // Unreachable in a lawful tree, whose inner nodes have slots.
        None => n == 1,
        Some(first) => has_levels(&first.child, n - 1),
    }
}

/// A list of all messages of the slots, which it shares with them, slot by slot.
fn collected_msgs<U: Update>(alloc: Global, slots: &[Slot<U>]) -> Result<Pending<U>, NoMemory>
    ensures { IfOk result (λ p. Takes U.means [] (all_msgs (seen_slots slots.now)) p.0) }
{
    let mut all = Pending::new(alloc);
    for slot in slots {
        let own = slot.pending.copy(alloc)?;
        all = all.merged(alloc, own, &slot.lo)?;
    }
    Ok(all)
}

/// The slots without their messages, over the same children.
fn slots_without_msgs<U: Update>(alloc: Global, slots: &[Slot<U>]) -> Result<Vec<Slot<U>>, NoMemory>
    ensures { IfOk result (λ v. map see_slot v.items ≡ map hollow slots.now) }
{
    let mut copy = Vec::with_capacity(alloc, slots.len())?;
    for slot in slots {
        let lo = slot.lo.copy(alloc)?;
        let child = Arc::try_clone(&slot.child)?;
        copy.push(Slot {
            lo,
            pending: Pending::new(alloc),
            child,
        })?;
    }
    Ok(copy)
}

/// A node with one slot over these, which holds their messages.
fn node_over_slots<U: Update>(alloc: Global, slots: &[Slot<U>]) -> Result<Arc<Node<U>>, NoMemory>
    ensures { IfOk result (λ n. IsAbove U.means (seen_slots slots.now) n.value) }
{
    let body = Body::Inner(slots_without_msgs(alloc, slots)?);
    let slot = Slot {
        lo: Key::new(alloc),
        pending: collected_msgs(alloc, slots)?,
        child: Arc::new(alloc, Node::of(body))?,
    };
    let mut one = Vec::with_capacity(alloc, 1)?;
    one.push(slot)?;
    let body = Body::Inner(one);
    Ok(Arc::new(alloc, Node::of(body))?)
}

/// A root above this one, or why there is none.
fn new_root_up<U: Update>(alloc: Global, root: &Node<U>) -> Result<Arc<Node<U>>, StepReply>
    ensures ok { IfOk result (λ n. Raised U.means root.now n.value) }
    ensures err { IfErr result (λ e. Refused U.means e root.now) }
{
    let Body::Inner(slots) = root.body() else {
        // Unreachable: a tree's root is an inner node.
        return Err(StepReply::NotThere);
    };
    if slots.len() == 1 {
        return Err(StepReply::NotThere);
    }
    if has_levels(root, 16) {
        return Err(StepReply::NoRoom);
    }
    let Ok(new) = node_over_slots(alloc, slots.as_slice()) else {
        return Err(StepReply::NoMemory);
    };
    Ok(new)
}

/// Puts a new root with one slot above the old one, and moves all messages of the old root into it.
///
/// It returns `NotThere`, without allocating, if the root has one slot, and `NoRoom` if the tree has 16 levels of inner
/// nodes.
pub fn root_up<U: Update>(alloc: Global, tree: &mut Tree<U>) -> StepReply
    ensures { AnswersUp U.means result tree.old tree.new }
{
    let root = match new_root_up(alloc, tree.root()) {
        Ok(root) => root,
        Err(reply) => return reply,
    };
    tree.replace_root(root);
    StepReply::Did(0)
}
