//! A flush into a leaf.
//!
//! Messages are applied to the leaf in place, the oldest first, as many as it has room for. Only if the leaf is full and a
//! message needs one more entry is the leaf split in two, on a copy: the messages up to that one then leave the slot, and
//! the next flush finds a leaf with half its room free. So messages for keys that the full leaf has, of which one may come
//! with each new entry, do not delay the split.
//!
//! Messages are applied along a walk over the slot's list, without a copy. Copies of the oldest few are applied one by one only if
//! the list cannot be walked: if it begins with range-deletes or with part of a key's updates, or has its messages in the order of
//! their arrival.
//!
//! Invariant: the slot loses exactly the messages that were applied, which are its oldest. So the value at every key stays, also
//! if an allocation fails half-way.
ghost use Rattle.std.specs.Prelude.{◌≡◌, ◌≤◌, ◌<◌, ◌∷◌, [], None, true, false, length, drop, ⊤, IsTrue, IfOk, IfSome, OnErr, MatchOption};
ghost use Rattle.std.specs.Option.{option_copied};
ghost use Rattle.message.specs.Oldest.{put_at};
ghost use Rattle.message.specs.declared.msg.Msg.{Msg};
ghost use Rattle.point_ops.specs.PointOps.{point_msgs};
ghost use Rattle.pending.specs.OldestWalk.{IsWalk};
ghost use Rattle.node.specs.Lawful.{Rises};
ghost use Rattle.node.specs.Places.{way};
ghost use Rattle.node.specs.Pure.{inner, leaf, none, more};
ghost use Rattle.node.specs.Searchable.{IsSearchable};
ghost use Rattle.node.specs.StepRows.{can_flush_leaf, EditsAbsent, Overflows};
ghost use Rattle.node.specs.See.{seen_slots};
ghost use Rattle.node.specs.Shapes.{is_shape};
ghost use Rattle.node.specs.Steps.{Answers, Replies};
ghost use Rattle.node.specs.declared.step.StepKind.TheVariants.{FlushLeaf};
ghost use Rattle.flush.specs.Merge.{IsFilled};
ghost use Rattle.flush.specs.Sunk.{left};
ghost use Rattle.flush.specs.Leaf.{HasPlace, Filled, AfterOldest, AfterOldestAt, MayGoAt, MayCutAt, KeptOldest, IsHalved};

use crate::apply_pass::apply_along;
use crate::inner::few_oldest;
use crate::room::{apply_within, has_room};
use message::{Msg, Update};
use node::count::can_split;
use node::cut::split_slot;
use node::leaf::{applied, position, split_half};
use node::{Body, Node, Place, Shape, Slot, SlotStep, StepReply, Tree};
use pathkey::{Key, NoMemory};
use pending::{OldestWalk, Pending};
use std::alloc::Global;
use std::sync::Arc;

/// After how many of a slot's messages a flush into a leaf stops, once it has finished the key that it is at: as many as a node
/// may hold.
const MAX_EXAMINED: u16 = 1024;

/// Whether a leaf of at least `most` entries has none for the key of a put; `None` is another message.
///
/// An update of an absent key may give it a value too, but only applying it shows that.
fn is_overfull<U: Update>(entries: &[(Key, U::Value)], put: Option<&Key>, most: u16) -> bool
    requires { Rises [] None entries.now }
    ensures yes { result ≡ true → (m : Msg U U.Value) → put_at m ≡ option_copied put.entry → Overflows U.means most entries.now (m ∷ []) }
    ensures no { result ≡ false → (m : Msg U U.Value) → put_at m ≡ option_copied put.entry → length entries.now ≤ most → Overflows U.means most entries.now (m ∷ []) → EditsAbsent (more [] (m ∷ []) (leaf entries.now) none) }
{
    match put {
        None => false,
        Some(key) => entries.len() >= most as usize && position(entries, key).is_err(),
    }
}

/// Applies messages to entries one by one, up to one for which there may be no room or an allocation fails, and counts
/// them.
fn apply_each<U: Update>(
    alloc: Global,
    entries: &mut Vec<(Key, U::Value)>,
    msgs: &[Msg<U>],
    most: usize,
) -> usize
    requires { Rises [] None entries.old.items }
    ensures { IsFilled U.means most msgs.now result entries.old.items entries.new.items }
{
    let mut count = 0;
    for msg in msgs {
        if !apply_within(alloc, entries, msg, most) {
            return count;
        }
        count += 1;
    }
    count
}

/// Whether the slot's leaf has room for the oldest message as it is.
fn takes_oldest<U: Update>(slot: &Slot<U>, most: u16) -> bool
    requires { IsSearchable slot.now.child.value }
    ensures { result ≡ true → HasPlace U.means most slot.now.pending.0 slot.now.child.value }
{
    if slot.pending.len() == 0 {
        // Unreachable, as is an inner node: `applies` has found a message, and a leaf.
        return false;
    }
    match slot.child.body() {
        Body::Inner(_) => false,
        Body::Leaf(entries) => {
            let given = slot.pending.oldest_created_key();
            has_room::<U>(entries.as_slice(), given, most as usize)
        }
    }
}

/// A walk over the oldest messages of a list, if it can be walked and the walk has a message.
fn walk_some<U: Update>(list: &Pending<U>) -> Option<OldestWalk<'_, U>>
    ensures walk { IfSome result (λ w. IsWalk w list.now.0) }
    ensures some { IfSome result (λ w. 0 < length (point_msgs w)) }
{
    let walk = list.walk_oldest()?;
    if walk.peek().is_none() {
        return None;
    }
    Some(walk)
}

/// Applies as many of a list's oldest messages to entries as there is room for, up to one for which an allocation fails, and counts
/// them: along a walk over the list, or copies of them if it cannot be walked.
fn apply_list<U: Update>(
    alloc: Global,
    entries: &mut Vec<(Key, U::Value)>,
    list: &Pending<U>,
    most: u16,
) -> usize
    requires { Rises [] None entries.old.items }
    ensures filled { IsFilled U.means most list.now.0 result entries.old.items entries.new.items }
    ensures small { result < 4294967296 }
{
    let limit = most.saturating_mul(2).min(MAX_EXAMINED);
    if let Some(walk) = walk_some(list) {
        let few = list.len().min(limit as usize) as u16;
        return apply_along(alloc, entries, walk, few, most as usize);
    }
    let few = few_oldest(list, limit);
    let Ok(msgs) = list.copy_front(alloc, few) else {
        return 0;
    };
    apply_each(alloc, entries, msgs.as_slice(), most as usize)
}

/// Applies as many of a list's oldest messages to the leaf as it has room for, in place.
fn apply_front<U: Update>(
    alloc: Global,
    most: u16,
    list: &Pending<U>,
    child: &mut Arc<Node<U>>,
) -> StepReply
    requires { IsSearchable child.old.value }
    ensures { Filled U.means most result list.now.0 child.old.value child.new.value }
{
    if list.len() == 0 {
        // Unreachable, as is an inner node: the slot's leaf has room for its oldest message.
        return StepReply::NotThere;
    }
    let Ok(own) = Arc::make_mut(child) else {
        return StepReply::NoMemory;
    };
    let Body::Leaf(entries) = own.body_mut() else {
        return StepReply::NotThere;
    };
    let count = apply_list(alloc, entries, list, most);
    own.update_weight();
    if count == 0 {
        // There is room for the first message, so an allocation failed.
        return StepReply::NoMemory;
    }
    StepReply::Did(count as u32)
}

/// Applies as many of a slot's oldest messages to its leaf as the leaf has room for, in place, if there is room for the
/// oldest. The slot loses the messages that its leaf has.
fn apply_oldest_fitting<U: Update>(alloc: Global, most: u16, slot: &mut Slot<U>) -> StepReply
    requires searchable { IsSearchable slot.old.child.value }
    requires place { HasPlace U.means most slot.old.pending.0 slot.old.child.value }
    ensures lo { slot.new.lo ≡ slot.old.lo }
    ensures left { slot.new.pending.0 ≡ left result slot.old.pending.0 }
    ensures filled { Filled U.means most result slot.old.pending.0 slot.old.child.value slot.new.child.value }
{
    let reply = apply_front(alloc, most, &slot.pending, &mut slot.child);
    if let StepReply::Did(count) = reply {
        slot.pending.drop_front(count as usize);
    }
    reply
}

/// How many messages there are up to and including the first for which a leaf has no room; 0 if it has room for each.
fn up_to_overfull<U: Update>(entries: &[(Key, U::Value)], msgs: &[Msg<U>], most: u16) -> usize
    requires { Rises [] None entries.now }
    ensures { result ≤ length msgs.now }
{
    let mut count = 0;
    for msg in msgs {
        count += 1;
        if !has_room::<U>(entries, msg.created_key(), most as usize) {
            return count;
        }
    }
    0
}

/// How many messages of a walk there are up to and including the first for which a full leaf has no room; 0 if it has room for
/// the `few` oldest.
fn up_to_new<U: Update>(
    entries: &[(Key, U::Value)],
    walk: OldestWalk<'_, U>,
    few: u8,
    most: usize,
) -> usize
    requires { Rises [] None entries.now }
    ensures within { result ≤ length (point_msgs walk.entry) }
    ensures few { result ≤ few }
{
    let few = few as usize;
    let mut walk = walk;
    let mut count = 0;
    while let Some((_, len)) = walk.peek() {
        if count >= few {
            return 0;
        }
        // Only the first operation of a key is read: if there are several, all are updates.
        if !has_room::<U>(entries, walk.msg(0).created_key(), most) {
            return count + 1;
        }
        count += len.min(few);
        walk.pass();
    }
    0
}

/// How many of a slot's oldest messages there are up to and including the first for which its full leaf has no room; 0 if
/// there is none or the leaf is not full. It reads 255 messages at most, and no more than a full leaf has entries.
fn oldest_to_cut<U: Update>(alloc: Global, slot: &Slot<U>, most: u16) -> u8
    requires { IsSearchable slot.now.child.value }
    ensures within { result ≤ length slot.now.pending.0 }
    ensures few { result ≤ most }
{
    let Body::Leaf(entries) = slot.child.body() else {
        // Unreachable: `applies` has found a leaf.
        return 0;
    };
    if entries.len() < most as usize {
        return 0;
    }
    let few = slot.pending.len().min(most as usize).min(255);
    if let Some(walk) = walk_some(&slot.pending) {
        return up_to_new::<U>(entries.as_slice(), walk, few as u8, most as usize) as u8;
    }
    let Ok(msgs) = slot.pending.copy_front(alloc, few) else {
        // A failed allocation delays the split: only what there is room for is tried.
        return 0;
    };
    up_to_overfull(entries.as_slice(), msgs.as_slice(), most) as u8
}

/// How many of a slot's oldest messages go down at once with a split of its full leaf; 0 if it is not to be split: it has
/// room for each, or its node has none for one more slot.
fn count_to_cut<U: Update>(
    alloc: Global,
    shape: Shape,
    root: bool,
    slots: &[Slot<U>],
    i: usize,
) -> u8
    requires bound { i < length slots.now }
    requires searchable { IsSearchable (inner (seen_slots slots.now)) }
    ensures few { result ≤ shape.leaf }
    ensures room { 0 < result → MayCutAt shape root result i slots.now }
{
    let slot = &slots[i];
    let count = oldest_to_cut(alloc, slot, shape.leaf);
    if count > 0 && can_split(shape, root, slots, count, &slot.pending) {
        count
    } else {
        0
    }
}

/// The entries of the slot's leaf after `count` of its oldest messages; `None` if it has no message or no leaf.
fn after_oldest<U: Update>(
    alloc: Global,
    slot: &Slot<U>,
    count: u8,
) -> Result<Option<Vec<(Key, U::Value)>>, NoMemory>
    requires searchable { IsSearchable slot.now.child.value }
    requires enough { 0 < length slot.now.pending.0 → count ≤ length slot.now.pending.0 }
    ensures found { IfOk result (λ r. MatchOption r (can_flush_leaf (more [] slot.now.pending.0 slot.now.child.value none) ≡ false) (λ v. AfterOldest U.means count slot.now.pending.0 slot.now.child.value v.items)) }
    ensures rising { IfOk result (λ r. MatchOption r ⊤ (λ v. Rises [] None v.items)) }
{
    if slot.pending.len() == 0 {
        // Unreachable, as is an inner node: `applies` has found a message, and a leaf.
        return Ok(None);
    }
    let oldest = slot.pending.copy_front(alloc, count as usize)?;
    match slot.child.body() {
        Body::Leaf(entries) => Ok(Some(applied(alloc, entries.as_slice(), oldest.as_slice())?)),
        Body::Inner(_) => Ok(None),
    }
}

/// Replaces the slot's leaf by entries to which its `count` oldest messages have been applied.
fn replace_leaf<U: Update>(
    alloc: Global,
    slot: &mut Slot<U>,
    count: u8,
    entries: Vec<(Key, U::Value)>,
) -> StepReply
    requires { count ≤ length slot.old.pending.0 }
    ensures { KeptOldest count result entries.items slot.old slot.new }
{
    let Ok(child) = Arc::new(alloc, Node::of(Body::Leaf(entries))) else {
        return StepReply::NoMemory;
    };
    slot.child = child;
    slot.pending.drop_front(count as usize);
    StepReply::Did(count as u32)
}

/// Splits a slot in two over the halves of these entries, without its `consumed` oldest messages. If an allocation fails,
/// the slot is as it was.
fn split_leaf_slot<U: Update>(
    alloc: Global,
    slot: &mut Slot<U>,
    consumed: usize,
    entries: Vec<(Key, U::Value)>,
) -> Result<Slot<U>, NoMemory>
    requires two { 2 ≤ length entries.items }
    requires rising { Rises [] None entries.items }
    requires enough { consumed ≤ length slot.old.pending.0 }
    ensures halves { IfOk result (λ back. IsHalved U.means slot.old.lo entries.items (drop consumed slot.old.pending.0) slot.new back) }
    ensures err { OnErr result (slot.new ≡ slot.old) }
{
    let mut front = entries;
    let (pivot, back) = split_half(alloc, &mut front)?;
    let left = Arc::new(alloc, Node::of(Body::Leaf(front)))?;
    let right = Arc::new(alloc, Node::of(Body::Leaf(back)))?;
    split_slot(alloc, slot, consumed, pivot, left, right)
}

/// Splits the slot with index `i` in two, over the halves of these entries, which have its `count` oldest messages.
fn split_leaf<U: Update>(
    alloc: Global,
    shape: Shape,
    root: bool,
    slots: &mut Vec<Slot<U>>,
    i: usize,
    count: u8,
    entries: Vec<(Key, U::Value)>,
) -> StepReply
    requires shape { IsTrue (is_shape shape) }
    requires bound { i < length slots.old.items }
    requires searchable { IsSearchable (inner (seen_slots slots.old.items)) }
    requires may { MayGoAt U.means shape root count i slots.old.items }
    requires many { shape.leaf < length entries.items }
    requires rising { Rises [] None entries.items }
    requires after { AfterOldestAt U.means count i slots.old.items entries.items }
    ensures { Replies U.means FlushLeaf shape root i result (seen_slots slots.old.items) (seen_slots slots.new.items) }
{
    let slot = &slots[i];
    if !can_split(shape, root, slots.as_slice(), count, &slot.pending) {
        // Reached for an update of an absent key alone: only applying it showed that it gives a value.
        return StepReply::NoRoom;
    }
    if slots.reserve(1).is_err() {
        return StepReply::NoMemory;
    }
    let slot = &mut slots[i];
    let Ok(back) = split_leaf_slot(alloc, slot, count as usize, entries) else {
        return StepReply::NoMemory;
    };
    let Ok(()) = slots.insert(i + 1, back) else {
        // Capacity for it was reserved before the split.
        unreachable!()
    };
    StepReply::Did(count as u32)
}

/// Applies the `count` oldest messages of a slot to a copy of its leaf, which is split in two if it is too large.
fn apply_oldest<U: Update>(
    alloc: Global,
    shape: Shape,
    root: bool,
    slots: &mut Vec<Slot<U>>,
    i: usize,
    count: u8,
) -> StepReply
    requires shape { IsTrue (is_shape shape) }
    requires bound { i < length slots.old.items }
    requires searchable { IsSearchable (inner (seen_slots slots.old.items)) }
    requires may { MayGoAt U.means shape root count i slots.old.items }
    ensures { Replies U.means FlushLeaf shape root i result (seen_slots slots.old.items) (seen_slots slots.new.items) }
{
    let Ok(after) = after_oldest(alloc, &slots[i], count) else {
        return StepReply::NoMemory;
    };
    let Some(entries) = after else {
        // Unreachable: `applies` has found a message, and a leaf.
        return StepReply::NotThere;
    };
    if entries.len() <= shape.leaf as usize {
        // The messages gave the leaf no entry too many after all.
        return replace_leaf(alloc, &mut slots[i], count, entries);
    }
    split_leaf(alloc, shape, root, slots, i, count, entries)
}

/// The flush of one slot into a leaf.
pub struct LeafFlush;

impl<U: Update> SlotStep<U> for LeafFlush {
    ghost kind = { FlushLeaf };

    fn applies(&self, slots: &[Slot<U>], i: usize, _hi: Option<&Key>) -> bool {
        if i >= slots.len() {
            return false;
        }
        let slot = &slots[i];
        if slot.pending.len() == 0 {
            return false;
        }
        slot.child.is_leaf()
    }

    fn has_room(&self, shape: Shape, root: bool, slots: &[Slot<U>], i: usize) -> bool {
        if i >= slots.len() {
            // Unreachable, as the next two: `applies` has found a message, and a leaf below.
            return true;
        }
        let slot = &slots[i];
        if slot.pending.len() == 0 {
            return true;
        }
        match slot.child.body() {
            Body::Inner(_) => true,
            Body::Leaf(entries) => {
                let put = slot.pending.oldest_put();
                !is_overfull::<U>(entries.as_slice(), put, shape.leaf)
                    || can_split(shape, root, slots, 1, &slot.pending)
            }
        }
    }

    fn change(
        &self,
        alloc: Global,
        shape: Shape,
        root: bool,
        slots: &mut Vec<Slot<U>>,
        i: usize,
    ) -> StepReply {
        if i >= slots.len() {
            // Unreachable: `applies` has found the slot.
            return StepReply::NotThere;
        }
        if !takes_oldest(&slots[i], shape.leaf) {
            return apply_oldest(alloc, shape, root, slots, i, 1);
        }
        let count = count_to_cut(alloc, shape, root, slots.as_slice(), i);
        if count > 0 {
            return apply_oldest(alloc, shape, root, slots, i, count);
        }
        apply_oldest_fitting(alloc, shape.leaf, &mut slots[i])
    }
}

/// Applies the oldest messages of a slot to its child, a leaf, which is split in two if it would be too large.
///
/// It takes as many messages as the leaf has room for; if the leaf is full, and its node has room for one more slot, also
/// the first for which the leaf has none, and splits it. It returns `NotThere`, without allocating, if the node, the slot
/// or a message is missing or the child is an inner node, and `NoRoom` if the leaf would be too large after the first
/// message and the node has no room for one more slot or, below the root, for the range-deletes that would be in both
/// slots.
pub fn flush_leaf<U: Update>(alloc: Global, tree: &mut Tree<U>, at: Place, slot: u8) -> StepReply
    ensures { Answers U.means FlushLeaf (way at) slot result tree.old tree.new }
{
    tree.step(alloc, &LeafFlush, at, slot)
}
