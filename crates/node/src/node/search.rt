//! Which slot contains a key, and the end of a slot's range.
//!
//! The slots are sorted by pivot, and each range ends where the next slot begins: the slot of a key is the last whose pivot is at or
//! before it.
ghost use Rattle.std.specs.Prelude.{◌≡◌, ◌<◌, ◌≤◌, ◌&&◌, true, false, length, None, IfSome, MatchOption};
ghost use Rattle.std.specs.List.Sorted.{IsPartitionPoint};
ghost use Rattle.std.specs.Option.{option_copied};
ghost use Rattle.pathkey.specs.Keys.{is_below};
ghost use Rattle.message.specs.Ranges.{ends_within, reaches};
ghost use Rattle.node.specs.HeadCount.{AreBefore, IsHeadCount};
ghost use Rattle.node.specs.Homes.{IsHome};
ghost use Rattle.node.specs.Lawful.{next_lo};
ghost use Rattle.node.specs.Meaning.{holder, slot_number};
ghost use Rattle.node.specs.Pure.{inner, is_leaf};
ghost use Rattle.node.specs.Searchable.{AreRising, IsRoot};
ghost use Rattle.node.specs.See.{see, seen_slots};
ghost use Rattle.node.specs.Site.{end_of};

use super::{Body, Node, Slot};
use cow_map::strides::count_passing;
use message::ends::{ends_by, is_before_end};
use message::{Msg, Update, UpdateTarget};
use pathkey::{Key, KeyRange};

/// The index of the slot whose range holds the key, found by a search in strides, first by the heads of pivots alone.
pub fn slot_of<U: Update>(slots: &[Slot<U>], key: &Key) -> usize
    requires some { 0 < length slots.now }
    requires rising { AreRising (seen_slots slots.now) }
    ensures bound { result < length slots.now }
    ensures number { result ≡ slot_number (seen_slots slots.now) key.now }
{
    let Some((_, later)) = slots.split_first() else {
        // Unreachable: there is a first slot.
        return 0;
    };
    count_to(later, key)
}

/// How many slots begin at or before the key.
#[inline(always)]
fn count_to<U: Update>(slots: &[Slot<U>], key: &Key) -> usize
    requires { AreRising (seen_slots slots.now) }
    ensures bound { result ≤ length slots.now }
    ensures point { IsPartitionPoint (λ s. reaches s.lo key.now ≡ true) (λ s. reaches s.lo key.now ≡ false) slots.now result }
{
    if has_head(slots.first(), key) {
        return count_by_keys(slots, 0, key);
    }
    count_from(slots, count_by_heads(slots, key), key)
}

/// Whether the slot's pivot has the key's head. No claim depends on it.
#[inline(always)]
fn has_head<U: Update>(slot: Option<&Slot<U>>, key: &Key) -> bool {
    match slot {
        Some(slot) => slot.lo.head() == key.head(),
        None => false,
    }
}

/// How many slots have a pivot with a lesser head than the key's.
#[inline(always)]
fn count_by_heads<U: Update>(slots: &[Slot<U>], key: &Key) -> usize
    requires { AreRising (seen_slots slots.now) }
    ensures { IsHeadCount (λ s. s.lo) slots.now key.now result }
{
    let head = key.head();
    count_passing(slots, |slot| slot.lo.head() < head)
}

/// How many slots begin at or before the key, of which `low` have a pivot with a lesser head.
#[inline(always)]
fn count_from<U: Update>(slots: &[Slot<U>], low: usize, key: &Key) -> usize
    requires rising { AreRising (seen_slots slots.now) }
    requires low { IsHeadCount (λ s. s.lo) slots.now key.now low }
    ensures bound { result ≤ length slots.now }
    ensures point { IsPartitionPoint (λ s. reaches s.lo key.now ≡ true) (λ s. reaches s.lo key.now ≡ false) slots.now result }
{
    let Some(slot) = slots.get(low) else {
        return low;
    };
    if slot.lo.head() != key.head() {
        return low;
    }
    count_by_keys(slots, low, key)
}

/// The same by whole keys, where the first `low` slots begin before the key.
#[inline(never)]
fn count_by_keys<U: Update>(slots: &[Slot<U>], low: usize, key: &Key) -> usize
    requires rising { AreRising (seen_slots slots.now) }
    requires low { AreBefore (λ s. s.lo) slots.now key.now low }
    ensures bound { result ≤ length slots.now }
    ensures point { IsPartitionPoint (λ s. reaches s.lo key.now ≡ true) (λ s. reaches s.lo key.now ≡ false) slots.now result }
{
    low + count_passing(&slots[low..], |slot| slot.lo.cmp(key).is_le())
}

/// The index of the slot whose range holds the key; `None` if all slots begin after it.
pub fn holder<U: Update>(slots: &[Slot<U>], key: &Key) -> Option<usize>
    requires rising { AreRising (seen_slots slots.now) }
    ensures bound { IfSome result (λ i. i < length slots.now) }
    ensures number { result ≡ holder (seen_slots slots.now) key.now }
{
    let first = slots.first()?;
    if first.lo.cmp(key).is_gt() {
        return None;
    }
    Some(slot_of(slots, key))
}

/// The pivot of the first of these slots, or `hi` if there is none: the end of the slot before them.
pub fn next_pivot<'a, U: Update>(later: &'a [Slot<U>], hi: Option<&'a Key>) -> Option<&'a Key>
    ensures { option_copied result ≡ next_lo (option_copied hi.entry) (seen_slots later.now) }
{
    match later.first() {
        None => hi,
        Some(next) => Some(&next.lo),
    }
}

/// The end of the slot with index `i`, given that the last slot ends at `hi`.
pub fn end_of<'a, U: Update>(slots: &'a [Slot<U>], i: usize, hi: Option<&'a Key>) -> Option<&'a Key>
    requires { i < length slots.now }
    ensures { option_copied result ≡ end_of (option_copied hi.entry) (seen_slots slots.now) i }
{
    next_pivot(&slots[i + 1..], hi)
}

/// Whether the range has a key, and ends at or before the end of the slot with index `i`; the last slot has no end.
fn ends_in<U: Update>(slots: &[Slot<U>], i: usize, range: &KeyRange) -> bool
    requires { i < length slots.now }
    ensures { result ≡ (is_below range.now.lo range.now.hi && ends_within range.now.hi (end_of None (seen_slots slots.now) i)) }
{
    let nothing: Option<Key> = None;
    let end = end_of(slots, i, nothing.as_ref());
    is_before_end(&range.lo, range.hi.as_ref()) && ends_by(range.hi.as_ref(), end)
}

/// The index of the root's slot that takes the message as it is, since all its keys are in that slot's range; `None` if it
/// has keys of several slots, or no key.
pub(crate) fn target_slot<U: Update>(slots: &[Slot<U>], msg: &Msg<U>) -> Option<usize>
    requires { IsRoot (inner (seen_slots slots.now)) }
    ensures bound { IfSome result (λ i. i < length slots.now) }
    ensures home { IfSome result (λ i. IsHome i msg.now (seen_slots slots.now)) }
{
    match msg {
        Msg::DelRange(range) => {
            let i = slot_of(slots, &range.lo);
            if ends_in(slots, i, range) {
                Some(i)
            } else {
                None
            }
        }
        Msg::Put(key, _) | Msg::Del(key) | Msg::Edit(key, _) => Some(slot_of(slots, key)),
    }
}

impl<U: UpdateTarget> Node<U> {
    /// The entries or slots of the node.
    pub fn body(&self) -> &Body<U>
        ensures { see result.now ≡ self.now }
    {
        &self.body
    }

    /// The slots of the node; `None` if it is a leaf.
    pub fn slots(&self) -> Option<&[Slot<U>]>
        ensures { MatchOption result (is_leaf self.now ≡ true) (λ slots. self.now ≡ inner (seen_slots slots.now)) }
    {
        match &self.body {
            Body::Leaf(_) => None,
            Body::Inner(slots) => Some(slots.as_slice()),
        }
    }

    /// Whether it is a leaf.
    pub fn is_leaf(&self) -> bool
        ensures { result ≡ is_leaf self.now }
    {
        matches!(&self.body, Body::Leaf(_))
    }
}
