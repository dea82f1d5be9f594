//! A guess at a key in a range at which the metadata index has a pair.
//!
//! A search for the first pair passes every name that was removed before it. Names are mostly removed in order, so a pair near
//! the end of the range is much cheaper to find. No claim depends on the guess: the caller looks up whether the index has a pair
//! there.
use crate::update::MetaUpdate;
use message::Resolution;
use message::ends::is_before_end;
use node::{Body, Node, Slot, Tree};
use pathkey::{Key, KeyRange, NoMemory};
use reference::Meta;
use std::alloc::Global;

/// The maximum number of inner levels of a tree.
const LEVELS: u8 = 16;

/// The maximum number of keys with messages in a slot that are tried.
const TRIES: u8 = 2;

/// The last slot that begins before the end of the range.
fn last_slot<'a>(slots: &'a [Slot<MetaUpdate>], range: &KeyRange) -> Option<&'a Slot<MetaUpdate>> {
    let count = slots.partition_point(|slot| is_before_end(&slot.lo, range.hi.as_ref()));
    slots.get(count.saturating_sub(1))
}

/// The last entry of a leaf in the range.
fn last_entry<'a>(entries: &'a [(Key, Meta)], range: &KeyRange) -> Option<&'a Key> {
    let count = entries.partition_point(|entry| is_before_end(&entry.0, range.hi.as_ref()));
    let entry = entries.get(count.checked_sub(1)?)?;
    if entry.0.cmp(&range.lo).is_lt() {
        return None;
    }
    Some(&entry.0)
}

/// The last entry in the range of the leaf in which the range ends.
pub(crate) fn last_of_leaf<'a>(tree: &'a Tree<MetaUpdate>, range: &KeyRange) -> Option<&'a Key> {
    let mut node: &Node<MetaUpdate> = tree.root();
    for _ in 0..LEVELS {
        match node.body() {
            Body::Leaf(entries) => return last_entry(entries.as_slice(), range),
            Body::Inner(slots) => node = &last_slot(slots.as_slice(), range)?.child,
        }
    }
    None
}

/// Whether the messages of a slot give the key a value.
fn is_given(alloc: Global, slot: &Slot<MetaUpdate>, key: &Key) -> Result<bool, NoMemory> {
    let resolution = slot.pending.resolve(alloc, key)?;
    Ok(matches!(resolution, Resolution::Value(Some(_))))
}

/// The last key in the range to which the messages of a slot give a value, among the last keys with messages there.
fn last_given<'a>(
    alloc: Global,
    slot: &'a Slot<MetaUpdate>,
    range: &KeyRange,
) -> Result<Option<&'a Key>, NoMemory> {
    let mut end = range.hi.as_ref();
    for _ in 0..TRIES {
        let Some(key) = slot.pending.last_point(&range.lo, end) else {
            return Ok(None);
        };
        if is_given(alloc, slot, key)? {
            return Ok(Some(key));
        }
        end = Some(key);
    }
    Ok(None)
}

/// A key in the range to which the messages of the root give a value, in the slot in which the range ends.
pub(crate) fn given_in_root<'a>(
    alloc: Global,
    tree: &'a Tree<MetaUpdate>,
    range: &KeyRange,
) -> Result<Option<&'a Key>, NoMemory> {
    let Some(slots) = tree.root().slots() else {
        return Ok(None);
    };
    match last_slot(slots, range) {
        Some(slot) => last_given(alloc, slot, range),
        None => Ok(None),
    }
}
