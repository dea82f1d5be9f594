//! The search for the first pair of a range, from the root down.
//!
//! No pair of the range is before the position of the search.
ghost use Rattle.std.specs.Prelude.{◌≡◌, IfOk, true};
ghost use Rattle.std.specs.Option.{option_copied};
ghost use Rattle.pathkey.specs.Keys.{is_below};
ghost use Rattle.node.specs.Meaning.{value as value_at};
ghost use Rattle.node.specs.Searchable.{IsSearchable};
ghost use Rattle.scan.specs.Pairs.{IsFirst};
ghost use Rattle.message.specs.Stretches.{ActAlike};
ghost use Rattle.scan.specs.Stretches.{slot_value};

use crate::leaf::first_entry;
use crate::slot::{changed, pair_at, slot_end};
use message::ends::is_before_end;
use message::{Resolution, Update};
use node::search::slot_of;
use node::{Body, Node, Slot};
use pathkey::{Key, NoMemory};
use std::alloc::Global;

/// The first pair below a node from `lo` up to but excluding `hi`.
///
/// It advances from one segment to the next, and ends at the first that has a pair.
#[cycle(first)]
pub fn first<U: Update>(
    alloc: Global,
    node: &Node<U>,
    lo: &Key,
    hi: Option<&Key>,
) -> Result<Option<(Key, U::Value)>, NoMemory>
    requires { IsSearchable node.now }
    ensures { IfOk result (λ r. IsFirst (value_at U.means node.now) lo.now (option_copied hi.entry) r) }
{
    let slots = match node.body() {
        Body::Leaf(entries) => return first_entry::<U>(alloc, entries.as_slice(), lo, hi),
        Body::Inner(slots) => slots,
    };
    if slots.is_empty() {
        // Does not occur in a lawful tree, whose inner nodes have slots.
        return Ok(None);
    }
    let mut from = lo.copy(alloc)?;
    'stretches: while is_before_end(&from, hi) {
        let i = slot_of(slots.as_slice(), &from);
        let slot = &slots[i];
        let end = slot_end(slots.as_slice(), i, hi);
        let stop = slot.pending.segment_end(alloc, &from, end)?;
        if let Some(pair) = first_of_slot(alloc, slot, &from, stop.as_ref())? {
            return Ok(Some(pair));
        }
        let Some(next) = stop else {
            return Ok(None);
        };
        from = next;
    }
    Ok(None)
}

/// The first pair of a slot in a segment of its messages.
///
/// The child is not read if the messages determine the values of the segment.
#[cycle(first)]
fn first_of_slot<U: Update>(
    alloc: Global,
    slot: &Slot<U>,
    from: &Key,
    stop: Option<&Key>,
) -> Result<Option<(Key, U::Value)>, NoMemory>
    requires searchable { IsSearchable slot.now.child.value }
    requires some { is_below from.now (option_copied stop) ≡ true }
    requires alike { ActAlike slot.now.pending.0 from.now (option_copied stop) }
    ensures { IfOk result (λ r. IsFirst (slot_value U.means slot.now) from.now (option_copied stop.entry) r) }
{
    let resolution = slot.pending.resolve(alloc, from)?;
    if let Resolution::Value(value) = resolution {
        return pair_at(alloc, from, value);
    }
    let below = first(alloc, &slot.child, from, stop)?;
    if matches!(resolution, Resolution::Untouched) {
        return Ok(below);
    }
    changed(alloc, &slot.pending, from, below)
}
