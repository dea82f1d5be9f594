//! Splits a slot in two at a pivot.
//!
//! The two lists together mean at each key what the list meant: messages for one key go to the side of their key, and a range-delete
//! across the pivot to both sides.
ghost use Rattle.std.specs.Prelude.{◌≡◌, ◌≤◌, length, IfOk, OnErr};
ghost use Rattle.node.specs.Cutting.{IsCutAt};

use super::{Node, Slot};
use message::Update;
use pathkey::{Key, NoMemory};
use std::alloc::Global;
use std::sync::Arc;

/// Splits a slot in two at the pivot, without its `consumed` oldest messages.
///
/// The slot keeps the keys before the pivot, over `left`; the result has those from the pivot on, over `right`. Messages
/// are moved if they can be. If an allocation fails, the slot is as it was.
pub fn split_slot<U: Update>(
    alloc: Global,
    slot: &mut Slot<U>,
    consumed: usize,
    pivot: Key,
    left: Arc<Node<U>>,
    right: Arc<Node<U>>,
) -> Result<Slot<U>, NoMemory>
    requires { consumed ≤ length slot.old.pending.0 }
    ensures cut { IfOk result (λ back. IsCutAt U.means consumed pivot left.value right.value slot.old slot.new back) }
    ensures err { OnErr result (slot.new ≡ slot.old) }
{
    let pending = slot.pending.split_off(alloc, consumed, &slot.lo, &pivot)?;
    slot.child = left;
    Ok(Slot {
        lo: pivot,
        pending,
        child: right,
    })
}
