//! Lowers the root by one level: its only child becomes the root.
//!
//! The root's messages are newer than those in the child's slots, so they are appended to these, each cut to the slots' ranges.
ghost use Rattle.std.specs.Prelude.{◌≡◌, ◌∷◌, [], None, IfOk, IfErr};
ghost use Rattle.std.specs.Option.{option_copied};
ghost use Rattle.node.specs.Appended.{batches_by_slot, HaveTaken, IsAppended};
ghost use Rattle.node.specs.Pure.{inner};
ghost use Rattle.node.specs.RootSteps.{AnswersDown};
ghost use Rattle.node.specs.See.{seen_slots};
ghost use Rattle.split_merge.specs.Lowered.{Lowered, Stays};

use message::Update;
use node::search::next_pivot;
use node::{Body, Node, Slot, StepReply, Tree};
use pathkey::{Key, NoMemory};
use pending::Pending;
use std::alloc::Global;
use std::sync::Arc;

/// A slot over the same child, with the list's part for the slot's range after the messages that were pending; `hi` is the
/// end of the range, if it has one.
fn slot_over<U: Update>(
    alloc: Global,
    slot: &Slot<U>,
    hi: Option<&Key>,
    list: &Pending<U>,
) -> Result<Slot<U>, NoMemory>
    ensures { IfOk result (λ s. HaveTaken U.means (seen_slots (slot.now ∷ [])) (batches_by_slot (option_copied hi.entry) list.now.0 (seen_slots (slot.now ∷ []))) (seen_slots (s ∷ []))) }
{
    let lo = slot.lo.copy(alloc)?;
    let mut pending = slot.pending.copy(alloc)?;
    let mut part = list.copy_between(alloc, 0, &slot.lo, hi)?;
    part.flush_all(&mut pending)?;
    let child = Arc::try_clone(&slot.child)?;
    Ok(Slot { lo, pending, child })
}

/// The slots of a node over the same children, with the list's part for each slot's range after the messages that were
/// pending there; the last one has no end.
fn slots_over<U: Update>(
    alloc: Global,
    slots: &[Slot<U>],
    list: &Pending<U>,
) -> Result<Vec<Slot<U>>, NoMemory>
    ensures { IfOk result (λ v. HaveTaken U.means (seen_slots slots.now) (batches_by_slot None list.now.0 (seen_slots slots.now)) (seen_slots v.items)) }
{
    let mut all = Vec::with_capacity(alloc, slots.len())?;
    let mut rest = slots;
    'slots: while let Some((slot, later)) = rest.split_first() {
        let new = slot_over(alloc, slot, next_pivot(later, None), list)?;
        all.push(new)?;
        rest = later;
    }
    Ok(all)
}

/// A root over the slots' children, with the list's messages after those pending in the slots, each in those whose ranges
/// it touches.
fn appended<U: Update>(
    alloc: Global,
    slots: &[Slot<U>],
    list: &Pending<U>,
) -> Result<Arc<Node<U>>, NoMemory>
    ensures { IfOk result (λ n. IsAppended U.means list.now.0 (inner (seen_slots slots.now)) n.value) }
{
    let body = Body::Inner(slots_over(alloc, slots, list)?);
    Ok(Arc::new(alloc, Node::of(body))?)
}

/// The root's only child with the root's messages, or why there is none.
fn new_root_down<U: Update>(alloc: Global, root: &Node<U>) -> Result<Arc<Node<U>>, StepReply>
    ensures ok { IfOk result (λ n. Lowered U.means root.now n.value) }
    ensures err { IfErr result (λ e. Stays e root.now) }
{
    let Body::Inner(slots) = root.body() else {
        // Unreachable: a tree's root is an inner node.
        return Err(StepReply::NotThere);
    };
    if slots.len() != 1 {
        return Err(StepReply::NotThere);
    }
    let slot = &slots[0];
    let child: &Node<U> = &slot.child;
    let Body::Inner(below) = child.body() else {
        return Err(StepReply::NotThere);
    };
    let Ok(new) = appended(alloc, below.as_slice(), &slot.pending) else {
        return Err(StepReply::NoMemory);
    };
    Ok(new)
}

/// Replaces the root by its only child, and appends the old root's messages to those pending in the child's slots.
///
/// It copies the child's own level, and cuts the root's list into its lists. They share the messages for one key with the
/// lists that they come from, and what is below is shared. It returns `NotThere`, without allocating, if the root has more
/// than one slot or its child is a leaf, and never `NoRoom`, since a root's lists have no limit.
pub fn root_down<U: Update>(alloc: Global, tree: &mut Tree<U>) -> StepReply
    ensures { AnswersDown U.means result tree.old tree.new }
{
    let root = match new_root_down(alloc, tree.root()) {
        Ok(root) => root,
        Err(reply) => return reply,
    };
    tree.replace_root(root);
    StepReply::Did(0)
}
