//! Two neighbouring slots merged into one, over one node with the contents of both children.
//!
//! The ranges of the slots are disjoint, so the left slot's messages and then the right slot's mean at each key what
//! its own list meant.
ghost use Rattle.std.specs.Prelude.{◌≡◌, ◌≤◌, ◌<◌, ◌+◌, ◌⊎◌, [], Bool, true, false, length, IfOk, OnOk, OnErr};
ghost use Rattle.message.specs.Effects.{Takes};
ghost use Rattle.node.specs.Lawful.{pending as pending_of};
ghost use Rattle.node.specs.Places.{way};
ghost use Rattle.node.specs.Pure.{more, none};
ghost use Rattle.node.specs.StepRows.{AreTooMany};
ghost use Rattle.node.specs.See.{see_slot, seen_slots};
ghost use Rattle.node.specs.Site.{slots_from};
ghost use Rattle.node.specs.Steps.{Answers};
ghost use Rattle.node.specs.declared.step.StepKind.TheVariants.{MergeLeaves, MergeInner};
ghost use Rattle.split_merge.specs.Merged.{are_alike, both, IsJoined, MergeReplies};

use message::Update;
use node::count::pending_len;
use node::{Body, Node, Place, Shape, Slot, SlotStep, StepReply, Tree};
use pathkey::{Key, NoMemory};
use pending::Pending;
use std::alloc::Global;
use std::sync::Arc;

/// Whether the slot with index `i` has a next one.
fn has_next<U: Update>(slots: &[Slot<U>], i: usize) -> bool
    ensures yes { result ≡ true → i + 1 < length slots.now }
    ensures no { result ≡ false → length slots.now ≤ i + 1 }
{
    // Not `i + 1 < slots.len()`: that sum may overflow.
    slots.len().saturating_sub(i) > 1
}

/// Whether the sum of two numbers is at most this.
fn fit(left: u128, right: u128, most: u16) -> bool
    ensures yes { result ≡ true → left + right ≤ most }
    ensures no { result ≡ false → most < left + right }
{
    // No two nodes of a tree hold so much that the sum saturates.
    left.saturating_add(right) <= most as u128
}

/// Whether one inner node has room for the slots of two.
fn slots_fit<U: Update>(shape: Shape, left: &[Slot<U>], right: &[Slot<U>]) -> bool
    ensures few { result ≡ true → length left.now + length right.now ≤ shape.fanout }
    ensures light { result ≡ true → pending_of (seen_slots left.now) + pending_of (seen_slots right.now) ≤ shape.pending }
    ensures no { result ≡ false → (shape.fanout < length left.now + length right.now) ⊎ (shape.pending < pending_of (seen_slots left.now) + pending_of (seen_slots right.now)) }
{
    fit(left.len() as u128, right.len() as u128, shape.fanout)
        && fit(pending_len(left), pending_len(right), shape.pending)
}

/// Whether one node has room for what two nodes hold, or they are of two kinds.
fn fit_in_one<U: Update>(shape: Shape, left: &Node<U>, right: &Node<U>) -> bool
    ensures yes { result ≡ true → AreTooMany shape (more [] [] left.now (more [] [] right.now none)) → ⊥ }
    ensures no { result ≡ false → AreTooMany shape (more [] [] left.now (more [] [] right.now none)) }
{
    match (left.body(), right.body()) {
        (Body::Leaf(entries), Body::Leaf(later)) => fit(
            entries.len() as u128,
            later.len() as u128,
            shape.leaf,
        ),
        (Body::Inner(slots), Body::Inner(later)) => {
            slots_fit(shape, slots.as_slice(), later.as_slice())
        }
        // Unreachable, as the next: a tree's leaves are at equal depth.
        (Body::Leaf(_), Body::Inner(_)) => true,
        (Body::Inner(_), Body::Leaf(_)) => true,
    }
}

/// Whether one node has room for what the children of the slot with index `i` and of the next hold, or they are of two
/// kinds, or there is no next one.
fn pair_fits<U: Update>(shape: Shape, slots: &[Slot<U>], i: usize) -> bool
    ensures yes { result ≡ true → AreTooMany shape (slots_from i (seen_slots slots.now)) → ⊥ }
    ensures no { result ≡ false → AreTooMany shape (slots_from i (seen_slots slots.now)) }
{
    if !has_next(slots, i) {
        // Unreachable: `applies` has found the next slot.
        return true;
    }
    let first = &slots[i];
    let next = &slots[i + 1];
    fit_in_one(shape, &first.child, &next.child)
}

/// Whether both nodes are leaves or both are inner nodes.
fn are_of_one_kind<U: Update>(left: &Node<U>, right: &Node<U>) -> bool
    ensures { result ≡ are_alike left.now right.now }
{
    match (left.body(), right.body()) {
        (Body::Leaf(_), Body::Leaf(_)) => true,
        (Body::Inner(_), Body::Inner(_)) => true,
        (Body::Leaf(_), Body::Inner(_)) => false,
        (Body::Inner(_), Body::Leaf(_)) => false,
    }
}

/// Moves what the node `right` holds to the end of what `left` holds.
fn merge_nodes<U: Update>(left: &mut Arc<Node<U>>, right: &mut Arc<Node<U>>) -> Result<(), NoMemory>
    requires { are_alike left.old.value right.old.value ≡ true }
    ensures ok { OnOk result (left.new.value ≡ both left.old.value right.old.value) }
    ensures err { OnErr result ((left.new.value ≡ left.old.value) × (right.new.value ≡ right.old.value)) }
{
    let left = Arc::make_mut(left)?;
    let right = Arc::make_mut(right)?;
    match (left.body_mut(), right.body_mut()) {
        // If an allocation fails, both hold what they held, but store no weight.
        (Body::Leaf(entries), Body::Leaf(later)) => entries.append(later)?,
        (Body::Inner(slots), Body::Inner(later)) => slots.append(later)?,
        // Callers have two of one kind.
        (Body::Leaf(_), Body::Inner(_)) => unreachable!(),
        (Body::Inner(_), Body::Leaf(_)) => unreachable!(),
    }
    left.update_weight();
    Ok(())
}

/// A list of the messages pending in two slots, those of the right one after the others. Both lists stay as they are, and
/// are shared.
fn merged_pending<U: Update>(
    alloc: Global,
    left: &Slot<U>,
    right: &Slot<U>,
) -> Result<Pending<U>, NoMemory>
    ensures { IfOk result (λ p. Takes U.means left.now.pending.0 right.now.pending.0 p.0) }
{
    let list = left.pending.copy(alloc)?;
    list.merged(alloc, right.pending.copy(alloc)?, &right.lo)
}

/// Moves the messages of the slot `right`, and what its child holds, after those of `left`.
fn merge_into_left<U: Update>(
    alloc: Global,
    left: &mut Slot<U>,
    right: &mut Slot<U>,
) -> Result<(), NoMemory>
    requires { are_alike left.old.child.value right.old.child.value ≡ true }
    ensures ok { OnOk result (IsJoined U.means left.old right.old left.new) }
    ensures err { OnErr result ((see_slot left.new ≡ see_slot left.old) × (see_slot right.new ≡ see_slot right.old)) }
{
    // First, since no allocation may fail once the nodes are merged.
    let list = merged_pending(alloc, left, right)?;
    merge_nodes(&mut left.child, &mut right.child)?;
    left.pending = list;
    Ok(())
}

/// Merges the slot with index `i` of a node and the next.
///
/// It requires no room.
fn merge_slots<U: Update>(alloc: Global, slots: &mut Vec<Slot<U>>, i: usize) -> StepReply
    ensures { (shape : Shape) (root : Bool) → MergeReplies U.means shape root i result (seen_slots slots.old.items) (seen_slots slots.new.items) }
{
    if !has_next(slots.as_slice(), i) {
        // Unreachable, as are two kinds: `applies` has found two nodes of one kind.
        return StepReply::NotThere;
    }
    if !are_of_one_kind(&slots[i].child, &slots[i + 1].child) {
        return StepReply::NotThere;
    }
    let mut right = slots.remove(i + 1);
    if merge_into_left(alloc, &mut slots[i], &mut right).is_ok() {
        return StepReply::Did(0);
    }
    // An allocation failed: the slot goes back to the position that it has just left.
    let Ok(()) = slots.insert(i + 1, right) else {
        unreachable!()
    };
    StepReply::NoMemory
}

/// The merge of the leaves below two slots.
struct LeafMerge;

impl<U: Update> SlotStep<U> for LeafMerge {
    ghost kind = { MergeLeaves };

    fn applies(&self, slots: &[Slot<U>], i: usize, _hi: Option<&Key>) -> bool {
        if !has_next(slots, i) {
            return false;
        }
        let first = &slots[i];
        let next = &slots[i + 1];
        first.child.is_leaf() && next.child.is_leaf()
    }

    fn has_room(&self, shape: Shape, _root: bool, slots: &[Slot<U>], i: usize) -> bool {
        pair_fits(shape, slots, i)
    }

    fn change(
        &self,
        alloc: Global,
        _shape: Shape,
        _root: bool,
        slots: &mut Vec<Slot<U>>,
        i: usize,
    ) -> StepReply {
        merge_slots(alloc, slots, i)
    }
}

/// The merge of the inner nodes below two slots.
struct InnerMerge;

impl<U: Update> SlotStep<U> for InnerMerge {
    ghost kind = { MergeInner };

    fn applies(&self, slots: &[Slot<U>], i: usize, _hi: Option<&Key>) -> bool {
        if !has_next(slots, i) {
            return false;
        }
        let first = &slots[i];
        let next = &slots[i + 1];
        !first.child.is_leaf() && !next.child.is_leaf()
    }

    fn has_room(&self, shape: Shape, _root: bool, slots: &[Slot<U>], i: usize) -> bool {
        pair_fits(shape, slots, i)
    }

    fn change(
        &self,
        alloc: Global,
        _shape: Shape,
        _root: bool,
        slots: &mut Vec<Slot<U>>,
        i: usize,
    ) -> StepReply {
        merge_slots(alloc, slots, i)
    }
}

/// Merges the leaves below a slot and the next, and the two slots into one, in which both lists of messages are pending.
///
/// It returns `NotThere`, without allocating, if the node or one of the slots is missing or has no leaf below it, and
/// `NoRoom` if one leaf has no room for the entries of both.
pub fn merge_leaves<U: Update>(alloc: Global, tree: &mut Tree<U>, at: Place, slot: u8) -> StepReply
    ensures { Answers U.means MergeLeaves (way at) slot result tree.old tree.new }
{
    tree.step(alloc, &LeafMerge, at, slot)
}

/// Merges the inner nodes below a slot and the next, and the two slots into one, in which both lists of messages are
/// pending.
///
/// It returns `NotThere`, without allocating, if the node or one of the slots is missing or has a leaf below it, and
/// `NoRoom` if one node has no room for the slots of both or for what is pending in them.
pub fn merge_inner<U: Update>(alloc: Global, tree: &mut Tree<U>, at: Place, slot: u8) -> StepReply
    ensures { Answers U.means MergeInner (way at) slot result tree.old tree.new }
{
    tree.step(alloc, &InnerMerge, at, slot)
}
