//! The walk of a range, from the root down: one descent for each slot.
//!
//! The pairs that the messages leave unchanged are read from the child in one walk, and the keys with messages of their own are
//! inserted between them. The output always consists of the pairs of the range before the position of the walk.
ghost use Rattle.std.specs.Prelude.{◌≡◌, ◌<◌, List, ℕ, OnOk, IfOk, length, true, false};
ghost use Rattle.std.specs.Option.{option_copied};
ghost use Rattle.message.specs.PointKeys.{is_cleared};
ghost use Rattle.message.specs.Ranges.{within};
ghost use Rattle.node.specs.Meaning.{value as value_at};
ghost use Rattle.node.specs.Searchable.{IsSearchable};
ghost use Rattle.scan.specs.Merging.{EndsOrGoesOn};
ghost use Rattle.scan.specs.Pairs.{AddsScan};
ghost use Rattle.scan.specs.Stretches.{slot_value};

use crate::apply_pass::apply_pass;
use crate::leaf::push_entries;
use crate::slot::slot_end;
use message::Update;
use message::ends::is_before_end;
use node::search::slot_of;
use node::{Body, Node, Slot};
use pathkey::{Key, NoMemory};
use std::alloc::Global;

/// Pushes the pairs below a node from `lo` up to but excluding `hi`, until there are `limit` pairs.
///
/// It advances from slot to slot, and within a slot to the next end of a range-delete. If an allocation fails, some pairs may
/// have been pushed.
#[cycle(walk)]
pub fn walk<U: Update>(
    alloc: Global,
    node: &Node<U>,
    lo: &Key,
    hi: Option<&Key>,
    limit: usize,
    pairs: &mut Vec<(Key, U::Value)>,
) -> Result<(), NoMemory>
    requires { IsSearchable node.now }
    ensures { OnOk result (AddsScan (value_at U.means node.now) lo.now (option_copied hi.entry) limit pairs.old.items pairs.new.items) }
{
    let slots = match node.body() {
        Body::Leaf(entries) => {
            return push_entries::<U>(alloc, entries.as_slice(), lo, hi, limit, pairs);
        }
        Body::Inner(slots) => slots,
    };
    if slots.is_empty() {
        // Does not occur in a lawful tree, whose inner nodes have slots.
        return Ok(());
    }
    let mut from = lo.copy(alloc)?;
    'stretches: while is_before_end(&from, hi) {
        if pairs.len() >= limit {
            return Ok(());
        }
        let i = slot_of(slots.as_slice(), &from);
        let slot = &slots[i];
        let end = slot_end(slots.as_slice(), i, hi);
        let stop = slot.pending.range_deleted_until(alloc, &from, end)?;
        walk_slot(alloc, slot, &from, stop.as_ref(), limit, pairs)?;
        let Some(next) = stop else {
            return Ok(());
        };
        from = next;
    }
    Ok(())
}

/// Pushes the pairs of a slot in a range of which its range-deletes cover all keys or none, until there are `limit`
/// pairs.
///
/// The child is not read if they cover all.
#[cycle(walk)]
fn walk_slot<U: Update>(
    alloc: Global,
    slot: &Slot<U>,
    from: &Key,
    stop: Option<&Key>,
    limit: usize,
    pairs: &mut Vec<(Key, U::Value)>,
) -> Result<(), NoMemory>
    requires searchable { IsSearchable slot.now.child.value }
    requires alike { (k : List ℕ) → within from.now (option_copied stop) k ≡ true → is_cleared slot.now.pending.0 k ≡ is_cleared slot.now.pending.0 from.now }
    requires room { length pairs.old.items < limit }
    ensures { OnOk result (AddsScan (slot_value U.means slot.now) from.now (option_copied stop.entry) limit pairs.old.items pairs.new.items) }
{
    if slot.pending.is_range_deleted(from) {
        let none = Vec::new(alloc);
        return apply_pass(alloc, &slot.pending, from, stop, none, limit, pairs);
    }
    if slot.pending.next_point(from, stop).is_none() {
        return walk(alloc, &slot.child, from, stop, limit, pairs);
    }
    walk_rounds(alloc, slot, from, stop, limit, pairs)
}

/// Pushes the pairs of a slot in a range of which no range-delete covers a key, until there are `limit` pairs, in rounds:
/// messages may remove pairs, so that more of the child's are requested.
#[cycle(walk)]
fn walk_rounds<U: Update>(
    alloc: Global,
    slot: &Slot<U>,
    from: &Key,
    stop: Option<&Key>,
    limit: usize,
    pairs: &mut Vec<(Key, U::Value)>,
) -> Result<(), NoMemory>
    requires searchable { IsSearchable slot.now.child.value }
    requires clear { (k : List ℕ) → within from.now (option_copied stop) k ≡ true → is_cleared slot.now.pending.0 k ≡ false }
    requires room { length pairs.old.items < limit }
    ensures { OnOk result (AddsScan (slot_value U.means slot.now) from.now (option_copied stop.entry) limit pairs.old.items pairs.new.items) }
{
    let mut at = from.copy(alloc)?;
    'rounds: while let Some(next) = round(alloc, slot, &at, stop, limit, pairs)? {
        at = next;
    }
    Ok(())
}

/// One round: it reads as many pairs of the child as are still missing, and applies the messages to them. If the result has
/// fewer, and the child may have more, it returns the key where the next round begins.
#[cycle(walk)]
fn round<U: Update>(
    alloc: Global,
    slot: &Slot<U>,
    from: &Key,
    stop: Option<&Key>,
    limit: usize,
    pairs: &mut Vec<(Key, U::Value)>,
) -> Result<Option<Key>, NoMemory>
    requires searchable { IsSearchable slot.now.child.value }
    requires clear { (k : List ℕ) → within from.now (option_copied stop) k ≡ true → is_cleared slot.now.pending.0 k ≡ false }
    requires room { length pairs.old.items < limit }
    ensures { IfOk result (λ r. EndsOrGoesOn U.means slot.now from.now (option_copied stop.entry) limit pairs.old.items pairs.new.items r) }
{
    let wanted = limit - pairs.len();
    let mut below = Vec::new(alloc);
    walk(alloc, &slot.child, from, stop, wanted, &mut below)?;
    let count = below.len();
    if count < wanted {
        apply_pass(alloc, &slot.pending, from, stop, below, limit, pairs)?;
        return Ok(None);
    }
    let last = &below[count - 1];
    let next = last.0.next(alloc)?;
    apply_pass(alloc, &slot.pending, from, Some(&next), below, limit, pairs)?;
    if pairs.len() >= limit {
        return Ok(None);
    }
    Ok(Some(next))
}
