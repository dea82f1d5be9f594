//! A flush into an inner node.
//!
//! A walk over the oldest messages of the list shares those of each key, at once, with the slot that holds the key, which is sought
//! forward from the slot of the key before; then they are dropped from the list together. Messages that cannot be shared are moved
//! one key at a time, and range-deletes at the front of a list are copied, since their pieces need keys of their own.
//!
//! Invariant: messages leave the slot in their order, the oldest first, and only once the child has them, where they are newer
//! than what is pending. So the value at every key stays, also if an allocation fails half-way.
ghost use Rattle.std.specs.Prelude.{◌≡◌, ℕ, true, false, ◌+◌, ◌≤◌, ◌<◌, length, take, drop, min, max, Some, None, IfNone, IfOk, IfSome, OnErr};
ghost use Rattle.point_ops.specs.PointOps.{point_msgs};
ghost use Rattle.node.specs.Lawful.{pending as pending_of};
ghost use Rattle.node.specs.Meaning.{begins_by, holder};
ghost use Rattle.node.specs.Places.{way};
ghost use Rattle.node.specs.Searchable.{AreRising, IsSearchable};
ghost use Rattle.node.specs.StepRows.{can_flush_inner, piece_count};
ghost use Rattle.node.specs.See.{seen_slots};
ghost use Rattle.node.specs.Site.{slots_from};
ghost use Rattle.node.specs.Steps.{Answers};
ghost use Rattle.node.specs.declared.step.StepKind.TheVariants.{FlushInner};
ghost use Rattle.node.specs.declared.step.StepReply.TheVariants.{Did};
ghost use Rattle.flush.specs.Sunk.{BeginsByFirst, Moved, MovedInto, Sunk, left, free_pieces};

use message::{Msg, Update};
use node::append::append_copies;
use node::count::{pending_len, pieces_in, pieces_of_oldest};
use node::search::holder;
use node::{Body, Node, Place, Shape, Slot, SlotStep, StepReply, Tree};
use pathkey::{Key, NoMemory};
use pending::{OldestWalk, Pending};
use std::alloc::Global;
use std::sync::Arc;

/// How many of the messages, from the oldest on, make at most `room` pieces with those pending in the slots.
pub fn count_fitting<U: Update>(slots: &[Slot<U>], msgs: &[Msg<U>], room: usize) -> usize
    requires { room < 65536 }
    ensures within { result ≤ length msgs.now }
    ensures small { result < 65536 }
    ensures fits { 0 < result → pending_of (seen_slots slots.now) + piece_count (take result msgs.now) (seen_slots slots.now) ≤ room }
    ensures full { result ≡ 0 → 0 < length msgs.now → room < pending_of (seen_slots slots.now) + piece_count (take 1 msgs.now) (seen_slots slots.now) }
    ensures most { result < length msgs.now → result < 65535 → room < pending_of (seen_slots slots.now) + piece_count (take (result + 1) msgs.now) (seen_slots slots.now) }
{
    let waiting = pending_len(slots);
    if waiting > room as u128 {
        // Unreachable in a lawful tree: no node below the root holds more than it has room for.
        return 0;
    }
    let mut total = waiting as usize;
    let mut count = 0;
    for msg in msgs {
        let more = pieces_in(slots, msg);
        // No flush brings so many messages: that bound is there for the checker.
        if count == 65535 || more > room - total {
            return count;
        }
        total += more;
        count += 1;
    }
    count
}

/// Appends copies of the messages to the slots of the child, as many as it has room for: a node has room for `room` pieces.
fn push_to_child<U: Update>(
    alloc: Global,
    room: u16,
    msgs: &[Msg<U>],
    child: &mut Arc<Node<U>>,
) -> StepReply
    ensures sunk { Sunk U.means room result msgs.now child.old.value child.new.value }
    ensures small { (n : ℕ) → result ≡ Did n → n < 65536 }
{
    if msgs.is_empty() {
        // Unreachable: `applies` has found a message, and an inner node below.
        return StepReply::NotThere;
    }
    let Ok(own) = Arc::make_mut(child) else {
        return StepReply::NoMemory;
    };
    let Body::Inner(below) = own.body_mut() else {
        // Unreachable, as above.
        return StepReply::NotThere;
    };
    let count = count_fitting(below.as_slice(), msgs, room as usize);
    if count == 0 {
        // Unreachable: `has_room` has counted the pieces of the first message.
        own.update_weight();
        return StepReply::NoRoom;
    }
    let few = &msgs[..count];
    let taken = append_copies(alloc, below.as_mut_slice(), few);
    // Also if an allocation failed, since `body_mut` has cleared the weight.
    own.update_weight();
    let Ok(()) = taken else {
        return StepReply::NoMemory;
    };
    StepReply::Did(count as u32)
}

/// How many of a list's oldest messages a flush looks at: at most this many, but one if there is one.
pub fn few_oldest<U: Update>(list: &Pending<U>, most: u16) -> usize
    ensures within { result ≤ length list.now.0 }
    ensures some { 0 < length list.now.0 → 0 < result }
    ensures exact { result ≡ min (length list.now.0) (max most 1) }
{
    list.len().min((most as usize).max(1))
}

/// How many more pieces a child takes if it has room for `room` in all; a leaf takes none.
pub fn free_pieces<U: Update>(child: &Node<U>, room: u16) -> u16
    ensures { result ≡ free_pieces room child.now }
{
    match child.body() {
        Body::Leaf(_) => 0,
        Body::Inner(below) => (room as u128).saturating_sub(pending_len(below.as_slice())) as u16,
    }
}

/// Appends copies of a slot's oldest messages to its child, as many as the child has room for, and removes them from the
/// slot. Of the messages after the first it reads no more than the list has range-deletes.
fn push_copies<U: Update>(alloc: Global, room: u16, slot: &mut Slot<U>) -> StepReply
    ensures lo { slot.new.lo ≡ slot.old.lo }
    ensures left { slot.new.pending.0 ≡ left result slot.old.pending.0 }
    ensures sunk { Sunk U.means room result slot.old.pending.0 slot.old.child.value slot.new.child.value }
    ensures small { (n : ℕ) → result ≡ Did n → n < 65536 }
{
    let ranges = slot.pending.range_deletes(0).min(65535) as u16;
    let few = few_oldest(&slot.pending, free_pieces(&slot.child, room).min(ranges));
    let Ok(msgs) = slot.pending.copy_front(alloc, few) else {
        return StepReply::NoMemory;
    };
    let reply = push_to_child(alloc, room, msgs.as_slice(), &mut slot.child);
    if let StepReply::Did(count) = reply {
        slot.pending.drop_front(count as usize);
    }
    reply
}

/// Moves a list's oldest messages into the slot that holds their key, at most `most`, and counts them: those of one key at
/// once, or the first. A range-delete stays, and a message whose key is before all slots.
fn move_oldest<U: Update>(
    below: &mut [Slot<U>],
    list: &mut Pending<U>,
    most: usize,
) -> Result<usize, NoMemory>
    requires { AreRising (seen_slots below.old) }
    ensures within { IfOk result (λ n. n ≤ most) }
    ensures moved { IfOk result (λ n. Moved U.means n list.old.0 list.new.0 (seen_slots below.old) (seen_slots below.new)) }
    ensures kept { OnErr result ((list.new.0 ≡ list.old.0) × (seen_slots below.new ≡ seen_slots below.old)) }
{
    let Some(key) = list.oldest_point() else {
        return Ok(0);
    };
    let Some(i) = holder(below, key) else {
        // Unreachable in a lawful tree, where the first slot begins at or before each key of the list.
        return Ok(0);
    };
    let slot = &mut below[i];
    list.flush_oldest(&mut slot.pending, most)
}

/// The slot that holds the key, sought forward from slot `i`, which begins at or before the key.
#[inline(always)]
fn holder_from<U: Update>(below: &[Slot<U>], i: usize, key: &Key) -> usize
    requires rising { AreRising (seen_slots below.now) }
    requires begins { begins_by (slots_from i (seen_slots below.now)) key.now ≡ true }
    ensures bound { result < length below.now }
    ensures number { Some result ≡ holder (seen_slots below.now) key.now }
{
    let mut at = i;
    while at + 1 < below.len() && below[at + 1].lo.cmp(key).is_le() {
        at += 1;
    }
    at
}

/// Shares the messages of a walk's next key, at most `room`, with the slot that holds the key, and passes the key. The slot is
/// sought from slot `i` on. Returns its index and how many messages; `None` if the walk has ended or the slot takes none.
#[inline(always)]
fn share_next<U: Update>(
    below: &mut [Slot<U>],
    i: usize,
    walk: &mut OldestWalk<'_, U>,
    room: usize,
) -> Option<(usize, usize)>
    requires rising { AreRising (seen_slots below.old) }
    requires begins { BeginsByFirst walk.old (slots_from i (seen_slots below.old)) }
    ensures within { IfSome result (λ p. (0 < p.1) × (p.1 ≤ room)) }
    ensures moved { IfSome result (λ p. Moved U.means p.1 (point_msgs walk.old) (point_msgs walk.new) (seen_slots below.old) (seen_slots below.new)) }
    ensures begins { IfSome result (λ p. BeginsByFirst walk.new (slots_from p.0 (seen_slots below.new))) }
    ensures kept { IfNone result (seen_slots below.new ≡ seen_slots below.old) }
{
    let Some((key, _)) = walk.peek() else {
        return None;
    };
    walk.assert_rising();
    let at = holder_from(below, i, key);
    let slot = &mut below[at];
    let Some(count) = slot.pending.share_first_of(walk, room) else {
        return None;
    };
    walk.pass();
    Some((at, count))
}

/// Shares the messages of a walk, key by key, with the slots that hold the keys, at most `room`, up to a key whose slot takes
/// none, and counts them.
fn share_along<U: Update>(below: &mut [Slot<U>], walk: OldestWalk<'_, U>, room: usize) -> usize
    requires { AreRising (seen_slots below.old) }
    ensures within { result ≤ room }
    ensures moved { Moved U.means result (point_msgs walk.entry) (drop result (point_msgs walk.entry)) (seen_slots below.old) (seen_slots below.new) }
{
    let Some((first, _)) = walk.peek() else {
        return 0;
    };
    let Some(mut i) = holder(below, first) else {
        // Unreachable in a lawful tree, where the first slot begins at or before each key of the list.
        return 0;
    };
    let mut rest = walk;
    let mut count = 0;
    while count < room {
        let Some((at, more)) = share_next(below, i, &mut rest, room - count) else {
            return count;
        };
        i = at;
        count += more;
    }
    count
}

/// Moves a list's oldest messages into the slots that hold their keys, at most `room`, up to one that cannot be shared, and counts
/// them.
fn share_points<U: Update>(below: &mut [Slot<U>], list: &mut Pending<U>, room: usize) -> usize
    requires { AreRising (seen_slots below.old) }
    ensures within { result ≤ room }
    ensures moved { Moved U.means result list.old.0 list.new.0 (seen_slots below.old) (seen_slots below.new) }
{
    let Some(walk) = list.walk_oldest() else {
        return 0;
    };
    let count = share_along(below, walk, room);
    list.drop_front(count);
    count
}

/// Moves a list's oldest messages into the slots that hold their keys, at most `room`, up to one that stays or for which an
/// allocation fails, and counts them. It fails only if an allocation fails and none has moved.
fn move_points<U: Update>(
    below: &mut [Slot<U>],
    list: &mut Pending<U>,
    room: usize,
) -> Result<usize, NoMemory>
    requires { AreRising (seen_slots below.old) }
    ensures within { IfOk result (λ n. n ≤ room) }
    ensures moved { IfOk result (λ n. Moved U.means n list.old.0 list.new.0 (seen_slots below.old) (seen_slots below.new)) }
    ensures kept { OnErr result ((list.new.0 ≡ list.old.0) × (seen_slots below.new ≡ seen_slots below.old)) }
{
    let mut count = 0;
    while count < room {
        count += share_points(below, list, room - count);
        if count >= room {
            return Ok(count);
        }
        match move_oldest(below, list, room - count) {
            Ok(0) => return Ok(count),
            Ok(more) => count += more,
            Err(refused) => return if count == 0 { Err(refused) } else { Ok(count) },
        }
    }
    Ok(count)
}

/// Moves a list's oldest messages into the slots of a child, at most `room`, as `move_points` does, and
/// counts them; a leaf takes none.
fn push_points<U: Update>(
    child: &mut Arc<Node<U>>,
    list: &mut Pending<U>,
    room: usize,
) -> Result<usize, NoMemory>
    requires { IsSearchable child.old.value }
    ensures within { IfOk result (λ n. n ≤ room) }
    ensures moved { IfOk result (λ n. MovedInto U.means n list.old.0 list.new.0 child.old.value child.new.value) }
    ensures kept { OnErr result ((list.new.0 ≡ list.old.0) × (child.new.value ≡ child.old.value)) }
{
    if room == 0 || list.oldest_point().is_none() {
        return Ok(0);
    }
    let own = Arc::make_mut(child)?;
    let Body::Inner(below) = own.body_mut() else {
        // Unreachable: callers give a leaf no room.
        return Ok(0);
    };
    let moved = move_points(below.as_mut_slice(), list, room);
    // Also if an allocation failed, since `body_mut` has cleared the weight.
    own.update_weight();
    moved
}

/// Moves the oldest messages of a slot to its child, as many as the child has room for: copies of the first few, and then
/// those that are each for a single key.
fn push_front<U: Update>(alloc: Global, room: u16, slot: &mut Slot<U>) -> StepReply
    requires { IsSearchable slot.old.child.value }
    ensures lo { slot.new.lo ≡ slot.old.lo }
    ensures left { slot.new.pending.0 ≡ left result slot.old.pending.0 }
    ensures sunk { Sunk U.means room result slot.old.pending.0 slot.old.child.value slot.new.child.value }
{
    let reply = push_copies(alloc, room, slot);
    let StepReply::Did(first) = reply else {
        return reply;
    };
    let most = free_pieces(&slot.child, room) as usize;
    match push_points(&mut slot.child, &mut slot.pending, most) {
        Ok(count) => StepReply::Did(first + count as u32),
        // The first few have gone down already: the others stay pending.
        Err(_) => reply,
    }
}

/// Moves the oldest messages of a slot to its child, as many as the child has room for.
fn push_oldest<U: Update>(alloc: Global, room: u16, slot: &mut Slot<U>) -> StepReply
    requires { IsSearchable slot.old.child.value }
    ensures lo { slot.new.lo ≡ slot.old.lo }
    ensures left { slot.new.pending.0 ≡ left result slot.old.pending.0 }
    ensures sunk { Sunk U.means room result slot.old.pending.0 slot.old.child.value slot.new.child.value }
{
    let most = free_pieces(&slot.child, room) as usize;
    let Ok(count) = push_points(&mut slot.child, &mut slot.pending, most) else {
        return StepReply::NoMemory;
    };
    if count == 0 {
        return push_front(alloc, room, slot);
    }
    StepReply::Did(count as u32)
}

/// Whether a node with these slots, which has room for `room` pieces, has room for those of the list's oldest message.
fn takes<U: Update>(slots: &[Slot<U>], list: &Pending<U>, room: u16) -> bool
    requires { AreRising (seen_slots slots.now) }
    ensures yes { result ≡ true → pending_of (seen_slots slots.now) + piece_count (take 1 list.now.0) (seen_slots slots.now) ≤ room }
    ensures no { result ≡ false → room < pending_of (seen_slots slots.now) + piece_count (take 1 list.now.0) (seen_slots slots.now) }
{
    pending_len(slots) + pieces_of_oldest(slots, list) as u128 <= room as u128
}

/// Whether the slot with index `i` has a message and an inner node below it.
pub fn is_flushable<U: Update>(slots: &[Slot<U>], i: usize) -> bool
    ensures { result ≡ can_flush_inner (slots_from i (seen_slots slots.now)) }
{
    if i >= slots.len() {
        return false;
    }
    let slot = &slots[i];
    if slot.pending.len() == 0 {
        return false;
    }
    !slot.child.is_leaf()
}

/// The flush of one slot into an inner node.
pub struct InnerFlush;

impl<U: Update> SlotStep<U> for InnerFlush {
    ghost kind = { FlushInner };

    fn applies(&self, slots: &[Slot<U>], i: usize, _hi: Option<&Key>) -> bool {
        is_flushable(slots, i)
    }

    fn has_room(&self, shape: Shape, _root: bool, slots: &[Slot<U>], i: usize) -> bool {
        if i >= slots.len() {
            // Unreachable, as the next two: `applies` has found a message, and an inner node below.
            return true;
        }
        let slot = &slots[i];
        if slot.pending.len() == 0 {
            return true;
        }
        match slot.child.body() {
            Body::Leaf(_) => true,
            Body::Inner(below) => takes(below.as_slice(), &slot.pending, shape.pending),
        }
    }

    fn change(
        &self,
        alloc: Global,
        shape: Shape,
        _root: bool,
        slots: &mut Vec<Slot<U>>,
        i: usize,
    ) -> StepReply {
        if i >= slots.len() {
            // Unreachable: `applies` has found the slot.
            return StepReply::NotThere;
        }
        let slot = &mut slots[i];
        push_oldest(alloc, shape.pending, slot)
    }
}

/// Moves the oldest messages of a slot into its child, an inner node, cut at the child's pivots and newer than what is
/// pending there.
///
/// It moves as many messages as the child has room for. It returns `NotThere`, without allocating, if the node, the slot or
/// a message is missing or the child is a leaf, and `NoRoom` if the child has no room for the pieces of the first message.
pub fn flush_inner<U: Update>(alloc: Global, tree: &mut Tree<U>, at: Place, slot: u8) -> StepReply
    ensures { Answers U.means FlushInner (way at) slot result tree.old tree.new }
{
    tree.step(alloc, &InnerFlush, at, slot)
}
