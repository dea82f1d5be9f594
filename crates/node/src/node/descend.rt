//! The two walks down to the node of a step: the first only reads, and finds whether the step applies there and has room; the
//! second does it.
//!
//! The second walk takes ownership of each node on the path, and copies those that are shared. Whatever it returns, the tree means
//! what it meant, and the slots off the path are untouched.
ghost use Rattle.std.specs.Prelude.{◌≡◌, IsTrue, Some};
ghost use Rattle.std.specs.Option.{option_copied};
ghost use Rattle.node.specs.Pure.{inner};
ghost use Rattle.node.specs.Searchable.{IsSearchable};
ghost use Rattle.node.specs.See.{seen_slots};
ghost use Rattle.node.specs.Shapes.{is_shape};
ghost use Rattle.node.specs.Site.{end_at, slots_at};
ghost use Rattle.node.specs.Steps.{At, Precheck, Replies};

use super::change::SlotStep;
use super::search::end_of;
use super::{Body, Node, Slot};
use crate::shape::Shape;
use crate::step::StepReply;
use message::Update;
use pathkey::Key;
use std::alloc::Global;
use std::sync::Arc;

/// Why the change is not done at the slot with index `slot` of this node, whose range ends at `hi`, as far as reading
/// shows.
fn precheck_here<U: Update, C: SlotStep<U>>(
    change: &C,
    shape: Shape,
    root: bool,
    slots: &[Slot<U>],
    slot: usize,
    hi: Option<&Key>,
) -> Option<StepReply>
    requires { IsSearchable (inner (seen_slots slots.now)) }
    ensures { Precheck U.means C.kind shape root slot (option_copied hi.entry) (Some (seen_slots slots.now)) result }
{
    if !change.applies(slots, slot, hi) {
        return Some(StepReply::NotThere);
    }
    if !change.has_room(shape, root, slots, slot) {
        return Some(StepReply::NoRoom);
    }
    None
}

/// Why the change is not done at the slot with index `slot` of the node that `place` leads to, below or at `node`, whose
/// range ends at `hi`, as far as reading shows.
pub fn precheck<U: Update, C: SlotStep<U>>(
    change: &C,
    shape: Shape,
    root: bool,
    node: &Node<U>,
    place: &[u8],
    slot: usize,
    hi: Option<&Key>,
) -> Option<StepReply>
    requires { IsSearchable node.now }
    ensures { Precheck U.means C.kind shape root slot (end_at place.now (option_copied hi.entry) node.now) (slots_at place.now node.now) result }
{
    let Body::Inner(slots) = &node.body else {
        return Some(StepReply::NotThere);
    };
    let Some((first, rest)) = place.split_first() else {
        return precheck_here(change, shape, root, slots.as_slice(), slot, hi);
    };
    let i = *first as usize;
    if i >= slots.len() {
        return Some(StepReply::NotThere);
    }
    let end = end_of(slots.as_slice(), i, hi);
    precheck(change, shape, root, &slots[i].child, rest, slot, end)
}

/// Does the change at the slot with index `slot` of the node that `place` leads to, below or at `node`. On the way back up
/// the weight of each node on the path is computed again.
pub fn descend<U: Update, C: SlotStep<U>>(
    alloc: Global,
    change: &C,
    shape: Shape,
    root: bool,
    node: &mut Arc<Node<U>>,
    place: &[u8],
    slot: usize,
) -> StepReply
    requires shape { IsTrue (is_shape shape) }
    requires searchable { IsSearchable node.old.value }
    ensures { At place.now result (Replies U.means C.kind shape root slot result) node.old.value node.new.value }
{
    let Ok(own) = Arc::make_mut(node) else {
        return StepReply::NoMemory;
    };
    let Body::Inner(slots) = own.body_mut() else {
        // Unreachable: `precheck` has gone the same way before.
        return StepReply::NotThere;
    };
    let Some((first, rest)) = place.split_first() else {
        let reply = change.change(alloc, shape, root, slots, slot);
        own.update_weight();
        return reply;
    };
    let i = *first as usize;
    if i >= slots.len() {
        // Unreachable: `precheck` has gone the same way before.
        return StepReply::NotThere;
    }
    let reply = descend(alloc, change, shape, root, &mut slots[i].child, rest, slot);
    own.update_weight();
    reply
}
