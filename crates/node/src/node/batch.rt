//! New messages for the slots of a root, cut at the pivots, with capacity reserved for them.
//!
//! An append has two steps. `prepare` cuts the messages at the pivots and reserves capacity in every slot that takes some: an
//! allocation may fail, and the tree means the same. `put_batch` (in `append`) moves the parts into the slots' lists and cannot
//! fail. So an append to two trees is atomic: prepare, prepare, put, put. A few messages that each have all their keys in one
//! slot are moved to these slots as they are, without a part for each slot.
ghost use Rattle.std.specs.Prelude.{◌≡◌, true, OnOk, OnErr, IfOk, map, length, ◌++◌, [], None};
ghost use Rattle.std.specs.Option.{option_copied, option_to_list};
ghost use Rattle.node.specs.Appended.{batches_by_slot as parts_of, placed};
ghost use Rattle.node.specs.Batches.{batch_parts, HasRoomFor, HaveHomes, KeepsRoom};
ghost use Rattle.node.specs.Pure.{inner};
ghost use Rattle.node.specs.Searchable.{AreRising, Fits, AllFit, IsRoot, HasRoom, see_list};
ghost use Rattle.node.specs.See.{see_slot, seen_slots};

use super::Slot;
use super::search::{next_pivot, slot_of, target_slot};
use message::{Msg, Update, UpdateTarget};
use pathkey::{Key, NoMemory};
use std::alloc::Global;

/// Appends the piece, if there is one, to a part.
fn push_some<U: Update>(slot_batch: &mut Vec<Msg<U>>, piece: Option<Msg<U>>) -> Result<(), NoMemory>
    ensures { OnOk result (slot_batch.new.items ≡ slot_batch.old.items ++ option_to_list piece) }
{
    match piece {
        None => Ok(()),
        Some(piece) => Ok(slot_batch.push(piece)?),
    }
}

/// Appends the piece of the message within each slot's range to that slot's part.
fn place_in_all<U: Update>(
    alloc: Global,
    slots: &[Slot<U>],
    hi: Option<&Key>,
    batches_by_slot: &mut [Vec<Msg<U>>],
    msg: &Msg<U>,
) -> Result<(), NoMemory>
    ensures { OnOk result (map see_list batches_by_slot.new ≡ placed (option_copied hi.entry) msg.now (seen_slots slots.now) (map see_list batches_by_slot.old)) }
{
    let Some((slot, slots)) = slots.split_first() else {
        return Ok(());
    };
    let Some((slot_batch, batches_by_slot)) = batches_by_slot.split_first_mut() else {
        // No caller has fewer parts than slots.
        return Ok(());
    };
    let piece = msg.cut_between(alloc, &slot.lo, next_pivot(slots, hi))?;
    push_some(slot_batch, piece)?;
    place_in_all(alloc, slots, hi, batches_by_slot, msg)
}

/// Appends the pieces of the message to the parts of the slots that take them; a message for one key is moved and not cut.
fn place<U: Update>(
    alloc: Global,
    slots: &[Slot<U>],
    hi: Option<&Key>,
    batches_by_slot: &mut [Vec<Msg<U>>],
    msg: Msg<U>,
) -> Result<(), NoMemory>
    requires rising { AreRising (seen_slots slots.now) }
    requires fits { Fits (option_copied hi) (seen_slots slots.now) msg }
    requires pairs { length batches_by_slot.old ≡ length slots.now }
    ensures { OnOk result (map see_list batches_by_slot.new ≡ placed (option_copied hi.entry) msg (seen_slots slots.now) (map see_list batches_by_slot.old)) }
{
    match msg.point_key() {
        None => place_in_all(alloc, slots, hi, batches_by_slot, &msg),
        Some(key) => {
            let i = slot_of(slots, key);
            batches_by_slot[i].push(msg)?;
            Ok(())
        }
    }
}

/// An empty part for each slot.
fn empty_batches<U: Update>(alloc: Global, slots: &[Slot<U>]) -> Result<Vec<Vec<Msg<U>>>, NoMemory>
    ensures { IfOk result (λ v. map see_list v.items ≡ map (λ s. []) slots.now) }
{
    let mut batches_by_slot = Vec::with_capacity(alloc, slots.len())?;
    for _ in slots {
        batches_by_slot.push(Vec::new(alloc))?;
    }
    Ok(batches_by_slot)
}

/// The messages as each slot takes them, cut at the pivots; `hi` is the end of the last slot, if it has one.
pub fn batches_by_slot<U: Update>(
    alloc: Global,
    slots: &[Slot<U>],
    hi: Option<&Key>,
    msgs: Vec<Msg<U>>,
) -> Result<Vec<Vec<Msg<U>>>, NoMemory>
    requires rising { AreRising (seen_slots slots.now) }
    requires fits { AllFit (option_copied hi) (seen_slots slots.now) msgs.items }
    ensures { IfOk result (λ v. map see_list v.items ≡ parts_of (option_copied hi.entry) msgs.items (seen_slots slots.now)) }
{
    let mut batches_by_slot = empty_batches(alloc, slots)?;
    for msg in msgs {
        place(alloc, slots, hi, batches_by_slot.as_mut_slice(), msg)?;
    }
    Ok(batches_by_slot)
}

/// Copies of the messages as each slot takes them, cut at the pivots; the last slot has no end.
pub(crate) fn copy_batches<U: Update>(
    alloc: Global,
    slots: &[Slot<U>],
    msgs: &[Msg<U>],
) -> Result<Vec<Vec<Msg<U>>>, NoMemory>
    ensures { IfOk result (λ v. map see_list v.items ≡ parts_of None msgs.now (seen_slots slots.now)) }
{
    let mut batches_by_slot = empty_batches(alloc, slots)?;
    for msg in msgs {
        place_in_all(alloc, slots, None, batches_by_slot.as_mut_slice(), msg)?;
    }
    Ok(batches_by_slot)
}

/// Reserves capacity in each slot's list for its part. The slots mean what they meant, whatever the result.
pub(crate) fn reserve_each<U: Update>(
    slots: &mut [Slot<U>],
    batches_by_slot: &[Vec<Msg<U>>],
) -> Result<(), NoMemory>
    ensures same { map see_slot slots.new ≡ map see_slot slots.old }
    ensures room { OnOk result (HasRoom slots.new batches_by_slot.now) }
{
    let Some((slot, slots)) = slots.split_first_mut() else {
        return Ok(());
    };
    let Some((slot_batch, batches_by_slot)) = batches_by_slot.split_first() else {
        // No caller has fewer parts than slots.
        return Ok(());
    };
    slot.pending.reserve(slot_batch.len())?;
    reserve_each(slots, batches_by_slot)
}

/// The largest number of messages that an append brings to their slots as they are.
const FEW: usize = 4;

/// The messages of an append as the slots take them.
#[derive(Drop)]
pub enum Batch<U: UpdateTarget> {
    /// A few messages, each of which goes as it is to the slot with the index at its position.
    Whole(Vec<Msg<U>>, [usize; FEW]),
    /// The part of each slot.
    Parts(Vec<Vec<Msg<U>>>),
}

/// Reserves capacity for `count` messages in the slot that takes each of the messages as it is, and notes the slot's index at
/// the message's position; returns whether each has one. The slots mean what they meant, and keep the capacity that they
/// had, whatever the result.
fn reserve_targets<U: Update>(
    slots: &mut [Slot<U>],
    count: usize,
    msgs: &[Msg<U>],
    homes: &mut [usize],
) -> Result<bool, NoMemory>
    requires { IsRoot (inner (seen_slots slots.old)) }
    ensures same { map see_slot slots.new ≡ map see_slot slots.old }
    ensures stays { KeepsRoom count slots.old slots.new }
    ensures room { IfOk result (λ all. all ≡ true → HaveHomes count slots.new msgs.now homes.new) }
{
    let Some((msg, later)) = msgs.split_first() else {
        return Ok(true);
    };
    let Some((home, homes)) = homes.split_first_mut() else {
        // Unreachable: `prepare` has a position for each message.
        return Ok(false);
    };
    let Some(i) = target_slot(slots, msg) else {
        return Ok(false);
    };
    slots[i].pending.reserve(count)?;
    *home = i;
    reserve_targets(slots, count, later, homes)
}

/// Cuts the messages for a root's slots and reserves capacity for the parts in them.
fn prepare_batches<U: Update>(
    alloc: Global,
    slots: &mut [Slot<U>],
    msgs: Vec<Msg<U>>,
) -> Result<Vec<Vec<Msg<U>>>, NoMemory>
    requires { IsRoot (inner (seen_slots slots.old)) }
    ensures same { map see_slot slots.new ≡ map see_slot slots.old }
    ensures room { IfOk result (λ v. HasRoom slots.new v.items) }
    ensures batches_by_slot { IfOk result (λ v. map see_list v.items ≡ parts_of None msgs.items (seen_slots slots.old)) }
{
    let batches_by_slot = batches_by_slot(alloc, slots, None, msgs)?;
    reserve_each(slots, batches_by_slot.as_slice())?;
    Ok(batches_by_slot)
}

/// Cuts the messages for a root's slots and reserves capacity in them; a few messages that each have all their keys in one
/// slot are not cut.
pub fn prepare<U: Update>(
    alloc: Global,
    slots: &mut [Slot<U>],
    msgs: Vec<Msg<U>>,
) -> Result<Batch<U>, NoMemory>
    requires { IsRoot (inner (seen_slots slots.old)) }
    ensures same { map see_slot slots.new ≡ map see_slot slots.old }
    ensures room { IfOk result (λ b. HasRoomFor slots.new b) }
    ensures batches_by_slot { IfOk result (λ b. batch_parts b (seen_slots slots.old) ≡ parts_of None msgs.items (seen_slots slots.old)) }
{
    let count = msgs.len();
    let mut homes = [0; FEW];
    if count <= FEW && reserve_targets(slots, count, msgs.as_slice(), &mut homes)? {
        return Ok(Batch::Whole(msgs, homes));
    }
    Ok(Batch::Parts(prepare_batches(alloc, slots, msgs)?))
}
