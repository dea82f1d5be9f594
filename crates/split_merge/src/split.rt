//! Splits an inner node in two.
//!
//! The two halves together have the slots of the node, and each gets the part of the pending list for its own range. A range-delete
//! across the pivot is then pending in both lists, for which the node above needs room.
ghost use Rattle.std.specs.Prelude.{◌≡◌, IfOk};
ghost use Rattle.node.specs.Places.{way};
ghost use Rattle.node.specs.Pure.{inner};
ghost use Rattle.node.specs.StepRows.{is_divisible as is_divided};
ghost use Rattle.node.specs.See.{seen_slots};
ghost use Rattle.node.specs.Steps.{Answers};
ghost use Rattle.node.specs.declared.step.StepKind.TheVariants.{SplitInner};
ghost use Rattle.split_merge.specs.SplitNode.{HalvesOf};

use message::{Update, UpdateTarget};
use node::copy::copy_slots;
use node::count::can_split;
use node::cut::split_slot;
use node::{Body, Node, Place, Shape, Slot, SlotStep, StepReply, Tree};
use pathkey::{Key, NoMemory};
use std::alloc::Global;
use std::sync::Arc;

/// The halves of an inner node, and the pivot between them.
#[derive(Drop)]
struct SplitNode<U: UpdateTarget> {
    pivot: Key,
    left: Arc<Node<U>>,
    right: Arc<Node<U>>,
}

/// A node over copies of the slots, which share the children.
fn node_over<U: Update>(alloc: Global, slots: &[Slot<U>]) -> Result<Arc<Node<U>>, NoMemory>
    ensures { IfOk result (λ n. n.value ≡ inner (seen_slots slots.now)) }
{
    let body = Body::Inner(copy_slots(alloc, slots)?);
    Ok(Arc::new(alloc, Node::of(body))?)
}

/// The halves of a node, if it is an inner node with two slots or more.
fn split_half<U: Update>(alloc: Global, node: &Node<U>) -> Result<Option<SplitNode<U>>, NoMemory>
    ensures { IfOk result (HalvesOf node.now) }
{
    let Body::Inner(slots) = node.body() else {
        return Ok(None);
    };
    let half = slots.len() / 2;
    if half == 0 {
        return Ok(None);
    }
    let (first, second) = slots.as_slice().split_at(half);
    Ok(Some(SplitNode {
        pivot: second[0].lo.copy(alloc)?,
        left: node_over(alloc, first)?,
        right: node_over(alloc, second)?,
    }))
}

/// Whether the node is an inner one with two slots or more.
fn is_divisible<U: Update>(node: &Node<U>) -> bool
    ensures { result ≡ is_divided node.now }
{
    let Body::Inner(slots) = node.body() else {
        return false;
    };
    slots.len() >= 2
}

/// The split of the inner node below one slot.
struct InnerSplit;

impl<U: Update> SlotStep<U> for InnerSplit {
    ghost kind = { SplitInner };

    fn applies(&self, slots: &[Slot<U>], i: usize, _hi: Option<&Key>) -> bool {
        if i >= slots.len() {
            return false;
        }
        let slot = &slots[i];
        is_divisible(&slot.child)
    }

    fn has_room(&self, shape: Shape, root: bool, slots: &[Slot<U>], i: usize) -> bool {
        if i >= slots.len() {
            // Unreachable: `applies` has found the slot.
            return true;
        }
        let slot = &slots[i];
        can_split(shape, root, slots, 0, &slot.pending)
    }

    fn change(
        &self,
        alloc: Global,
        _shape: Shape,
        _root: bool,
        slots: &mut Vec<Slot<U>>,
        i: usize,
    ) -> StepReply {
        if i >= slots.len() {
            // Unreachable: `applies` has found the slot.
            return StepReply::NotThere;
        }
        let Ok(halves) = split_half(alloc, &slots[i].child) else {
            return StepReply::NoMemory;
        };
        let Some(SplitNode { pivot, left, right }) = halves else {
            // Unreachable: `applies` has found an inner node with two slots or more.
            return StepReply::NotThere;
        };
        if slots.reserve(1).is_err() {
            return StepReply::NoMemory;
        }
        let Ok(back) = split_slot(alloc, &mut slots[i], 0, pivot, left, right) else {
            return StepReply::NoMemory;
        };
        let Ok(()) = slots.insert(i + 1, back) else {
            // Capacity for it was reserved before the split.
            unreachable!()
        };
        StepReply::Did(0)
    }
}

/// Splits the inner node below a slot in two, each with half of its slots, and the slot's messages at the pivot between
/// them.
///
/// It returns `NotThere`, without allocating, if the node or the slot is missing or the child is a leaf or has one slot,
/// and `NoRoom` if the node has no room for one more slot or, below the root, for the range-deletes that would be in both
/// slots.
pub fn split_inner<U: Update>(alloc: Global, tree: &mut Tree<U>, at: Place, slot: u8) -> StepReply
    ensures { Answers U.means SplitInner (way at) slot result tree.old tree.new }
{
    tree.step(alloc, &InnerSplit, at, slot)
}
