//! Appends new messages to the slots of a root.
//!
//! The messages are newer than all that are pending. The list of a slot from which a job was taken is not condensed: it stays as it
//! was, with the new messages after it, so that the job's messages are still its oldest.
ghost use Rattle.std.specs.Prelude.{◌≡◌, ◌↔◌, ◌+◌, ◌<◌, ◌≤◌, ◌++◌, [], ◌∷◌, true, None, OnOk, OnErr, map, length, get_or};
ghost use Rattle.message.specs.Effects.{Takes};
ghost use Rattle.node.specs.Appended.{batches_by_slot as parts_of, HaveTaken, IsAppended};
ghost use Rattle.node.specs.Batches.{batch_parts, HasRoomFor, HaveHomes};
ghost use Rattle.node.specs.Grafts.{IsFirstKept, KeepLists, KeepsLists};
ghost use Rattle.node.specs.Lawful.{pending as pending_of};
ghost use Rattle.node.specs.Pure.{inner};
ghost use Rattle.node.specs.Searchable.{IsRoot, HasRoom, see_list};
ghost use Rattle.node.specs.See.{see_slot, seen_slots};
ghost use Rattle.node.specs.StepRows.{piece_count};

use super::batch::{Batch, copy_batches, prepare, reserve_each};
use super::search::target_slot;
use super::{Body, Node, Slot};
use message::{Msg, MsgDrain, Update};
use pathkey::NoMemory;
use pending::Pending;
use std::alloc::Global;

/// Appends a part to a list that has capacity for it; if `plain`, the list is not condensed.
fn push_batch<U: Update>(pending: &mut Pending<U>, slot_batch: &mut Vec<Msg<U>>, plain: bool)
    requires { length slot_batch.old.items ≤ pending.old.1 }
    ensures takes { Takes U.means pending.old.0 slot_batch.old.items pending.new.0 }
    ensures kept { plain ≡ true → pending.new.0 ≡ pending.old.0 ++ slot_batch.old.items }
{
    if plain {
        pending.append_uncondensed(slot_batch);
    } else {
        pending.append_reserved(slot_batch);
    }
}

/// Whether the first of the numbers is above 0, and the others. It does not allocate.
fn first_kept(kept: &[u32]) -> (bool, &[u32])
    ensures { IsFirstKept kept.now result.0 result.1.now }
{
    match kept.split_first() {
        None => (false, kept),
        Some((first, rest)) => (*first > 0, rest),
    }
}

/// Appends each part to its slot's pending list, which has capacity for it; if the slot's number is above 0, the list is not
/// condensed.
pub fn push_batches<U: Update>(
    slots: &mut [Slot<U>],
    batches_by_slot: &mut [Vec<Msg<U>>],
    kept: &[u32],
)
    requires { HasRoom slots.old batches_by_slot.old }
    ensures taken { HaveTaken U.means (seen_slots slots.old) (map see_list batches_by_slot.old) (seen_slots slots.new) }
    ensures kept { KeepLists kept.now (map see_list batches_by_slot.old) (seen_slots slots.old) (seen_slots slots.new) }
{
    let Some((slot, slots)) = slots.split_first_mut() else {
        return;
    };
    let Some((slot_batch, batches_by_slot)) = batches_by_slot.split_first_mut() else {
        // No caller has fewer parts than slots.
        return;
    };
    let (plain, kept) = first_kept(kept);
    push_batch(&mut slot.pending, slot_batch, plain);
    push_batches(slots, batches_by_slot, kept)
}

/// Whether the number at the index is above 0; a missing one is 0. It does not allocate.
fn is_kept(kept: &[u32], i: usize) -> bool
    ensures { (0 < get_or kept.now i 0) ↔ (result ≡ true) }
{
    match kept.get(i) {
        None => false,
        Some(number) => *number > 0,
    }
}

/// Appends a message to a list that has capacity for it; if `plain`, the list is not condensed.
fn push_msg<U: Update>(pending: &mut Pending<U>, msg: Msg<U>, plain: bool)
    requires { 0 < pending.old.1 }
    ensures takes { Takes U.means pending.old.0 (msg ∷ []) pending.new.0 }
    ensures kept { plain ≡ true → pending.new.0 ≡ pending.old.0 ++ msg ∷ [] }
    ensures room { pending.old.1 ≤ pending.new.1 + 1 }
{
    if plain {
        pending.push_uncondensed(msg);
    } else {
        pending.push_reserved(msg);
    }
}

/// Appends each message as it is to the pending list of the slot with the index at its position, which has capacity for it;
/// if a slot's number in `kept` is above 0, its list is not condensed.
fn push_unsplit<U: Update>(
    slots: &mut [Slot<U>],
    msgs: &mut MsgDrain<U>,
    homes: &[usize],
    kept: &[u32],
)
    requires { HaveHomes (length msgs.old) slots.old msgs.old homes.now }
    ensures taken { HaveTaken U.means (seen_slots slots.old) (parts_of None msgs.old (seen_slots slots.old)) (seen_slots slots.new) }
    ensures kept { KeepLists kept.now (parts_of None msgs.old (seen_slots slots.old)) (seen_slots slots.old) (seen_slots slots.new) }
{
    let Some(msg) = msgs.next() else {
        return;
    };
    let Some((home, homes)) = homes.split_first() else {
        // Each message has the index of its slot.
        unreachable!()
    };
    let i = *home;
    // The index was noted for one of these slots: stated for the checker.
    let is_there = i < slots.len();
    prove!(is_there);
    let plain = is_kept(kept, i);
    push_msg(&mut slots[i].pending, msg, plain);
    push_unsplit(slots, msgs, homes, kept)
}

/// Appends the messages to the slots' pending lists, which have capacity for them; if a slot's number is above 0, its list
/// is not condensed.
fn put_batch<U: Update>(slots: &mut [Slot<U>], batch: Batch<U>, kept: &[u32])
    requires { HasRoomFor slots.old batch }
    ensures taken { HaveTaken U.means (seen_slots slots.old) (batch_parts batch (seen_slots slots.old)) (seen_slots slots.new) }
    ensures kept { KeepLists kept.now (batch_parts batch (seen_slots slots.old)) (seen_slots slots.old) (seen_slots slots.new) }
{
    match batch {
        Batch::Whole(msgs, homes) => {
            let mut msgs = MsgDrain::of(msgs);
            push_unsplit(slots, &mut msgs, &homes, kept);
        }
        Batch::Parts(batches_by_slot) => {
            let mut batches_by_slot = batches_by_slot;
            push_batches(slots, batches_by_slot.as_mut_slice(), kept);
        }
    }
}

/// Appends messages to the pending lists of a root's slots; if a slot's number is above 0, its list is not condensed.
fn append_slots<U: Update>(
    alloc: Global,
    slots: &mut [Slot<U>],
    msgs: Vec<Msg<U>>,
    kept: &[u32],
) -> Result<(), NoMemory>
    requires { IsRoot (inner (seen_slots slots.old)) }
    ensures ok { OnOk result (IsAppended U.means msgs.items (inner (seen_slots slots.old)) (inner (seen_slots slots.new))) }
    ensures kept { OnOk result (KeepsLists kept.now msgs.items (inner (seen_slots slots.old)) (inner (seen_slots slots.new))) }
    ensures err { OnErr result (map see_slot slots.new ≡ map see_slot slots.old) }
{
    let batch = prepare(alloc, slots, msgs)?;
    put_batch(slots, batch, kept);
    Ok(())
}

/// Appends copies of messages to the slots' pending lists, each cut to the ranges of the slots that it touches, atomically.
/// It requires nothing of the slots.
pub fn append_copies<U: Update>(
    alloc: Global,
    slots: &mut [Slot<U>],
    msgs: &[Msg<U>],
) -> Result<(), NoMemory>
    ensures ok { OnOk result (HaveTaken U.means (seen_slots slots.old) (parts_of None msgs.now (seen_slots slots.old)) (seen_slots slots.new)) }
    ensures pieces { OnOk result (pending_of (seen_slots slots.new) ≤ pending_of (seen_slots slots.old) + piece_count msgs.now (seen_slots slots.old)) }
    ensures err { OnErr result (map see_slot slots.new ≡ map see_slot slots.old) }
{
    let mut batches_by_slot = copy_batches(alloc, slots, msgs)?;
    reserve_each(slots, batches_by_slot.as_slice())?;
    push_batches(slots, batches_by_slot.as_mut_slice(), &[]);
    Ok(())
}

/// Prepares the slots' pending lists for copies.
fn make_lists_sharable<U: Update>(slots: &mut [Slot<U>])
    ensures { map see_slot slots.new ≡ map see_slot slots.old }
{
    let Some((slot, slots)) = slots.split_first_mut() else {
        return;
    };
    slot.pending.make_sharable();
    make_lists_sharable(slots)
}

/// Condenses a list, unless `plain`.
fn condense_list<U: Update>(pending: &mut Pending<U>, plain: bool)
    ensures takes { Takes U.means pending.old.0 [] pending.new.0 }
    ensures kept { plain ≡ true → pending.new.0 ≡ pending.old.0 }
{
    if !plain {
        pending.condense_tail();
    }
}

/// Condenses the slots' pending lists; if a slot's number is above 0, its list is not condensed.
fn condense_lists<U: Update>(slots: &mut [Slot<U>], kept: &[u32])
    ensures taken { HaveTaken U.means (seen_slots slots.old) (parts_of None [] (seen_slots slots.old)) (seen_slots slots.new) }
    ensures kept { KeepLists kept.now (parts_of None [] (seen_slots slots.old)) (seen_slots slots.old) (seen_slots slots.new) }
{
    let Some((slot, slots)) = slots.split_first_mut() else {
        return;
    };
    let (plain, kept) = first_kept(kept);
    condense_list(&mut slot.pending, plain);
    condense_lists(slots, kept)
}

/// Appends a message to a list, or leaves the list as it was.
fn push<U: Update>(pending: &mut Pending<U>, msg: Msg<U>) -> Result<(), NoMemory>
    ensures ok { OnOk result (Takes U.means pending.old.0 (msg ∷ []) pending.new.0) }
    ensures err { OnErr result (pending.new.0 ≡ pending.old.0) }
{
    pending.reserve(1)?;
    pending.push_reserved(msg);
    Ok(())
}

/// Appends one message to the pending lists of a root's slots. It makes no list of messages if one slot takes it as it is.
fn append_one<U: Update>(alloc: Global, slots: &mut [Slot<U>], msg: Msg<U>) -> Result<(), NoMemory>
    requires { IsRoot (inner (seen_slots slots.old)) }
    ensures ok { OnOk result (IsAppended U.means (msg ∷ []) (inner (seen_slots slots.old)) (inner (seen_slots slots.new))) }
    ensures err { OnErr result (map see_slot slots.new ≡ map see_slot slots.old) }
{
    let Some(i) = target_slot(slots, &msg) else {
        let mut msgs = Vec::with_capacity(alloc, 1)?;
        msgs.push(msg)?;
        return append_slots(alloc, slots, msgs, &[]);
    };
    push(&mut slots[i].pending, msg)
}

impl<U: Update> Node<U> {
    /// Appends one message to the slots of a root.
    pub(crate) fn append_one(&mut self, alloc: Global, msg: Msg<U>) -> Result<(), NoMemory>
        requires { IsRoot self.old }
        ensures ok { OnOk result (IsAppended U.means (msg ∷ []) self.old self.new) }
        ensures err { OnErr result (self.new ≡ self.old) }
    {
        let Body::Inner(slots) = self.body_mut() else {
            // A root is an inner node.
            unreachable!()
        };
        append_one(alloc, slots.as_mut_slice(), msg)
    }

    /// Prepares the pending lists of a root's slots for copies.
    pub(crate) fn make_sharable(&mut self)
        requires { IsRoot self.old }
        ensures { self.new ≡ self.old }
    {
        let Body::Inner(slots) = self.body_mut() else {
            // A root is an inner node.
            unreachable!()
        };
        make_lists_sharable(slots.as_mut_slice());
    }

    /// Condenses the pending lists of a root's slots; if a slot's number is above 0, its list is not condensed.
    pub(crate) fn condense(&mut self, kept: &[u32])
        requires { IsRoot self.old }
        ensures taken { IsAppended U.means [] self.old self.new }
        ensures kept { KeepsLists kept.now [] self.old self.new }
    {
        let Body::Inner(slots) = self.body_mut() else {
            // A root is an inner node.
            unreachable!()
        };
        condense_lists(slots.as_mut_slice(), kept);
    }

    /// Appends messages to the slots of a root; if a slot's number is above 0, its list is not condensed.
    pub fn append_kept(
        &mut self,
        alloc: Global,
        msgs: Vec<Msg<U>>,
        kept: &[u32],
    ) -> Result<(), NoMemory>
        requires { IsRoot self.old }
        ensures ok { OnOk result (IsAppended U.means msgs.items self.old self.new) }
        ensures kept { OnOk result (KeepsLists kept.now msgs.items self.old self.new) }
        ensures err { OnErr result (self.new ≡ self.old) }
    {
        let Body::Inner(slots) = self.body_mut() else {
            // A root is an inner node.
            unreachable!()
        };
        append_slots(alloc, slots.as_mut_slice(), msgs, kept)
    }
}

/// Appends messages to the slots of two roots, as `append_kept` does for each: both or neither.
pub fn append_both_kept<A: Update, B: Update>(
    alloc: Global,
    first: &mut Node<A>,
    first_msgs: Vec<Msg<A>>,
    first_kept: &[u32],
    second: &mut Node<B>,
    second_msgs: Vec<Msg<B>>,
    second_kept: &[u32],
) -> Result<(), NoMemory>
    requires first { IsRoot first.old }
    requires second { IsRoot second.old }
    ensures first_ok { OnOk result (IsAppended A.means first_msgs.items first.old first.new) }
    ensures first_kept { OnOk result (KeepsLists first_kept.now first_msgs.items first.old first.new) }
    ensures first_err { OnErr result (first.new ≡ first.old) }
    ensures second_ok { OnOk result (IsAppended B.means second_msgs.items second.old second.new) }
    ensures second_kept { OnOk result (KeepsLists second_kept.now second_msgs.items second.old second.new) }
    ensures second_err { OnErr result (second.new ≡ second.old) }
{
    let Body::Inner(one) = first.body_mut() else {
        // A root is an inner node.
        unreachable!()
    };
    let Body::Inner(two) = second.body_mut() else {
        // A root is an inner node.
        unreachable!()
    };
    let one = one.as_mut_slice();
    let two = two.as_mut_slice();
    let first_batch = prepare(alloc, one, first_msgs)?;
    // If this fails, the first root has gained capacity and nothing else.
    let second_batch = prepare(alloc, two, second_msgs)?;
    put_batch(one, first_batch, first_kept);
    put_batch(two, second_batch, second_kept);
    Ok(())
}
