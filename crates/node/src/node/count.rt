//! How much a node holds: pending messages, the pieces of a message, and the totals of a tree.
//!
//! Walks of a whole tree stop counting at `u128::MAX`, which no tree in memory reaches.
ghost use Rattle.std.specs.Prelude.{◌≡◌, ◌≤◌, ◌<◌, ◌+◌, ◌*◌, ◌^◌, ◌∷◌, [], true, false, if◌then◌else◌, length, take, drop};
ghost use Rattle.node.specs.Lawful.{pending as pending_of};
ghost use Rattle.node.specs.Report.{own as own_of, total as total_of, width};
ghost use Rattle.node.specs.RootSteps.{levels};
ghost use Rattle.message.specs.Effects.{range_count};
ghost use Rattle.node.specs.StepRows.{piece_count, CanPart, CannotPart};
ghost use Rattle.node.specs.Meaning.{begins_by};
ghost use Rattle.node.specs.Searchable.{AreRising};
ghost use Rattle.node.specs.See.{seen_slots};

use super::search::next_pivot;
use super::{Body, Node, Slot};
use crate::report::Quantity;
use crate::shape::Shape;
use message::range_tests::overlaps_range;
use message::{Msg, Update};
use pathkey::Key;
use pending::Pending;

/// How many messages are pending in the slots.
pub fn pending_len<U: Update>(slots: &[Slot<U>]) -> u128
    ensures exact { result ≡ pending_of (seen_slots slots.now) }
    ensures bound { result ≤ 18446744073709551615 * length slots.now }
{
    if slots.len() == 0 {
        return 0;
    }
    let Some((slot, later)) = slots.split_first() else {
        // Unreachable: there is a first slot.
        return 0;
    };
    slot.pending.len() as u128 + pending_len(later)
}

/// How many of the slots take a part of the message.
pub fn pieces_in<U: Update>(slots: &[Slot<U>], msg: &Msg<U>) -> usize
    ensures bound { result ≤ length slots.now }
    ensures exact { result ≡ piece_count (msg.now ∷ []) (seen_slots slots.now) }
{
    let Some((slot, later)) = slots.split_first() else {
        return 0;
    };
    let is_met = overlaps_range(msg, &slot.lo, next_pivot(later, None));
    let more = pieces_in(later, msg);
    if is_met { more + 1 } else { more }
}

/// How many of the slots take a part of the list's oldest message. If it is for one key, that takes a single comparison.
pub fn pieces_of_oldest<U: Update>(slots: &[Slot<U>], list: &Pending<U>) -> usize
    requires { AreRising (seen_slots slots.now) }
    ensures bound { result ≤ length slots.now }
    ensures exact { result ≡ piece_count (take 1 list.now.0) (seen_slots slots.now) }
{
    match list.oldest_point() {
        None => pieces_of_range(slots, list),
        Some(key) => pieces_at(slots, key),
    }
}

/// How many of the slots hold the key: one, unless all begin after it.
fn pieces_at<U: Update>(slots: &[Slot<U>], key: &Key) -> usize
    ensures bound { result ≤ length slots.now }
    ensures exact { result ≡ (if begins_by (seen_slots slots.now) key.now then 1 else 0) }
{
    let Some(first) = slots.first() else {
        return 0;
    };
    if first.lo.cmp(key).is_le() { 1 } else { 0 }
}

/// The same as [`pieces_of_oldest`], by asking each slot.
fn pieces_of_range<U: Update>(slots: &[Slot<U>], list: &Pending<U>) -> usize
    ensures bound { result ≤ length slots.now }
    ensures exact { result ≡ piece_count (take 1 list.now.0) (seen_slots slots.now) }
{
    let Some((slot, later)) = slots.split_first() else {
        return 0;
    };
    let is_met = list.oldest_meets(&slot.lo, next_pivot(later, None));
    let more = pieces_of_range(later, list);
    if is_met { more + 1 } else { more }
}

/// Whether one of a node's slots can be split in two: the node has room for one more slot and, unless it is the root, for
/// the range-deletes in the slot's list, which would then be pending in both, once the `consumed` oldest messages have
/// left.
pub fn can_split<U: Update>(
    shape: Shape,
    root: bool,
    slots: &[Slot<U>],
    consumed: u8,
    list: &Pending<U>,
) -> bool
    requires { consumed ≤ length list.now.0 }
    ensures room { result ≡ true → CanPart shape root (seen_slots slots.now) consumed (range_count (drop consumed list.now.0)) }
    ensures none { result ≡ false → CannotPart shape root (seen_slots slots.now) consumed (range_count (drop consumed list.now.0)) }
{
    if slots.len() >= shape.fanout as usize {
        return false;
    }
    let twice = list.range_deletes(consumed as usize) as u128;
    root || pending_len(slots) + twice <= shape.pending as u128 + consumed as u128
}

/// The count for the node alone.
fn own<U: Update>(node: &Node<U>, quantity: Quantity) -> u128
    ensures exact { result ≡ own_of quantity node.now }
    ensures bound { own_of quantity node.now ≤ 18446744073709551615 * width node.now + 18446744073709551615 }
{
    match (quantity, &node.body) {
        (Quantity::Slots, Body::Inner(slots)) => slots.len() as u128,
        (Quantity::Pending, Body::Inner(slots)) => pending_len(slots.as_slice()),
        (Quantity::Entries, Body::Leaf(entries)) => entries.len() as u128,
        (Quantity::Slots, Body::Leaf(_)) => 0,
        (Quantity::Pending, Body::Leaf(_)) => 0,
        (Quantity::Entries, Body::Inner(_)) => 0,
    }
}

/// The count for the node and all nodes below it, but at most `u128::MAX`.
pub fn total<U: Update>(node: &Node<U>, quantity: Quantity) -> u128
    ensures at_most { result ≤ total_of quantity node.now }
    ensures exact { result < 2 ^ 127 → result ≡ total_of quantity node.now }
    ensures bound { own_of quantity node.now ≤ 18446744073709551615 * width node.now + 18446744073709551615 }
{
    let mut sum = own(node, quantity);
    if let Body::Inner(slots) = &node.body {
        for slot in slots.as_slice() {
            sum = sum.saturating_add(total(&slot.child, quantity));
        }
    }
    sum
}

/// The levels of inner nodes above the first leaf, but at most `u128::MAX`.
pub fn height<U: Update>(node: &Node<U>) -> u128
    ensures at_most { result ≤ levels node.now }
    ensures exact { result < 2 ^ 127 → result ≡ levels node.now }
{
    let Body::Inner(slots) = &node.body else {
        return 0;
    };
    match slots.first() {
        // Unreachable in a lawful tree, whose inner nodes have slots.
        None => 1,
        Some(slot) => height(&slot.child).saturating_add(1),
    }
}
