//! Drops a subtree under a range-delete of its whole range at once.
//!
//! The slot then has an empty subtree of the same depth, and its list has what is newer than the range-delete. No value changes:
//! the range-delete had deleted every key below.
ghost use Rattle.std.specs.Prelude.{◌≡◌, ◌∷◌, [], IfOk};
ghost use Rattle.std.specs.Option.{option_copied};
ghost use Rattle.node.specs.Places.{way};
ghost use Rattle.node.specs.Pure.{inner, leaf, none, more};
ghost use Rattle.message.specs.Ranges.{ends_within};
ghost use Rattle.node.specs.StepRows.{can_drop_covered};
ghost use Rattle.node.specs.See.{seen_slots};
ghost use Rattle.node.specs.Steps.{Answers};
ghost use Rattle.node.specs.declared.step.StepKind.TheVariants.{DropCovered};
ghost use Rattle.split_merge.specs.Swept.{bare, Swept};

use message::Update;
use node::search::next_pivot;
use node::{Body, Node, Place, Shape, Slot, SlotStep, StepReply, Tree};
use pathkey::{Key, NoMemory};
use pending::Pending;
use std::alloc::Global;
use std::sync::Arc;

/// Whether the oldest message of the first slot covers the slot's whole range, given that the slots end at `hi`.
fn is_first_covered<U: Update>(slots: &[Slot<U>], hi: Option<&Key>) -> bool
    ensures { result ≡ can_drop_covered (option_copied hi.entry) (seen_slots slots.now) }
{
    let Some((slot, later)) = slots.split_first() else {
        // Unreachable: the slot is among these.
        return false;
    };
    slot.pending.oldest_covers(&slot.lo, next_pivot(later, hi))
}

/// A node with one slot, which begins at `lo`, over the child.
fn node_above<U: Update>(
    alloc: Global,
    lo: &Key,
    child: Arc<Node<U>>,
) -> Result<Arc<Node<U>>, NoMemory>
    ensures { IfOk result (λ n. n.value ≡ inner (more lo.now [] child.value none)) }
{
    let slot = Slot {
        lo: lo.copy(alloc)?,
        pending: Pending::new(alloc),
        child,
    };
    let mut one = Vec::with_capacity(alloc, 1)?;
    one.push(slot)?;
    let body = Body::Inner(one);
    Ok(Arc::new(alloc, Node::of(body))?)
}

/// An empty subtree from `lo` on, as deep as this one: a node with one slot for each level, down to an empty leaf.
///
/// It walks down the first children alone.
fn empty_subtree_like<U: Update>(
    alloc: Global,
    lo: &Key,
    node: &Node<U>,
) -> Result<Arc<Node<U>>, NoMemory>
    ensures { IfOk result (λ n. n.value ≡ bare lo.now node.now) }
{
    let Body::Inner(slots) = node.body() else {
        return Ok(Arc::new(alloc, Node::empty_leaf(alloc))?);
    };
    let child = match slots.first() {
        // Unreachable in a lawful tree, whose inner nodes have slots.
        None => Arc::new(alloc, Node::empty_leaf(alloc))?,
        Some(first) => empty_subtree_like(alloc, lo, &first.child)?,
    };
    node_above(alloc, lo, child)
}

/// Removes the oldest message of a slot that begins at `lo`, and replaces the subtree below it by an empty one.
fn clear_slot<U: Update>(
    alloc: Global,
    lo: &Key,
    pending: &mut Pending<U>,
    child: &mut Arc<Node<U>>,
) -> StepReply
    ensures { Swept result lo.now pending.old.0 pending.new.0 child.old.value child.new.value }
{
    if pending.len() == 0 {
        // Unreachable: `applies` has found the message.
        return StepReply::NotThere;
    }
    let Ok(empty) = empty_subtree_like(alloc, lo, child) else {
        return StepReply::NoMemory;
    };
    pending.drop_front(1);
    *child = empty;
    StepReply::Did(1)
}

/// The drop of the subtree below one slot.
struct CoveredDrop;

impl<U: Update> SlotStep<U> for CoveredDrop {
    ghost kind = { DropCovered };

    fn applies(&self, slots: &[Slot<U>], i: usize, hi: Option<&Key>) -> bool {
        if i >= slots.len() {
            return false;
        }
        is_first_covered(&slots[i..], hi)
    }

    fn has_room(&self, _shape: Shape, _root: bool, _slots: &[Slot<U>], _i: usize) -> bool {
        true
    }

    fn change(
        &self,
        alloc: Global,
        _shape: Shape,
        _root: bool,
        slots: &mut Vec<Slot<U>>,
        i: usize,
    ) -> StepReply {
        if i >= slots.len() {
            // Unreachable: `applies` has found the slot.
            return StepReply::NotThere;
        }
        let slot = &mut slots[i];
        clear_slot(alloc, &slot.lo, &mut slot.pending, &mut slot.child)
    }
}

/// Drops the subtree below a slot whose oldest message is a range-delete of the slot's whole range, and that message.
///
/// An empty subtree of the same depth replaces it: the old one is walked only down its first children, and is freed with
/// its last reference. It returns `NotThere`, without allocating, if the node, the slot or the message is missing or the
/// message does not cover a key of the slot's range, and never `NoRoom`.
pub fn drop_covered<U: Update>(alloc: Global, tree: &mut Tree<U>, at: Place, slot: u8) -> StepReply
    ensures { Answers U.means DropCovered (way at) slot result tree.old tree.new }
{
    tree.step(alloc, &CoveredDrop, at, slot)
}
