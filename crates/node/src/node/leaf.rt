//! The entries of a leaf: the position of a key among them, the effect of a message on them, and leaves split in halves.
//!
//! Invariant: the entries are sorted by key without duplicates. If an allocation fails while a message is applied, the entries are
//! unchanged.
ghost use Rattle.std.specs.Prelude.{◌≡◌, ℕ, ◌<◌, ◌≤◌, List, [], ◌∷◌, None, Some, length, IfOk, OnOk, OnErr};
ghost use Rattle.pathkey.specs.Keys.{is_in};
ghost use Rattle.pathkey.specs.Order.{same};
ghost use Rattle.std.specs.Option.{option_copied};
ghost use Rattle.node.specs.HeadCount.{AreBefore, IsHeadCount};
ghost use Rattle.node.specs.Lawful.{Rises};
ghost use Rattle.node.specs.Leaves.{IsCount, IsEntry, IsGap, IsPlace, IsChanged, Applied, IsDivided};
ghost use Rattle.node.specs.Meaning.{lookup};

use super::copy::copy_entries;
use cow_map::strides::count_passing;
use message::{Msg, Update};
use pathkey::{Key, KeyRange, NoMemory};
use std::alloc::Global;
use std::cmp::Ordering;

/// How many entries are before the key.
pub fn count_before<V>(entries: &[(Key, V)], key: &Key) -> usize
    requires { Rises [] None entries.now }
    ensures { IsCount entries.now (Some key.now) result }
{
    match position(entries, key) {
        Ok(i) => i,
        Err(i) => i,
    }
}

/// The index of the entry that has the key, or of the entry before which it would be inserted, found by a search in strides, first
/// by heads alone.
pub fn position<V>(entries: &[(Key, V)], key: &Key) -> Result<usize, usize>
    requires { Rises [] None entries.now }
    ensures { IsPlace entries.now key.now result }
{
    if has_head(entries.first(), key) {
        return position_by_keys(entries, 0, key);
    }
    position_from(entries, count_by_heads(entries, key), key)
}

/// Whether the entry's key has the key's head. No claim depends on it.
#[inline(always)]
fn has_head<V>(entry: Option<&(Key, V)>, key: &Key) -> bool {
    match entry {
        Some(entry) => entry.0.head() == key.head(),
        None => false,
    }
}

/// How many entries have a lesser head than the key.
#[inline(always)]
fn count_by_heads<V>(entries: &[(Key, V)], key: &Key) -> usize
    requires { Rises [] None entries.now }
    ensures { IsHeadCount (λ e. e.0) entries.now key.now result }
{
    let head = key.head();
    count_passing(entries, |entry| entry.0.head() < head)
}

/// The position of the key, where `low` entries have a lesser head.
#[inline(always)]
fn position_from<V>(entries: &[(Key, V)], low: usize, key: &Key) -> Result<usize, usize>
    requires rising { Rises [] None entries.now }
    requires low { IsHeadCount (λ e. e.0) entries.now key.now low }
    ensures { IsPlace entries.now key.now result }
{
    let Some(entry) = entries.get(low) else {
        return Err(low);
    };
    if entry.0.head() != key.head() {
        return Err(low);
    }
    match entry.0.cmp(key) {
        Ordering::Equal => Ok(low),
        Ordering::Greater => Err(low),
        Ordering::Less => position_by_keys(entries, low + 1, key),
    }
}

/// The position of the key by whole keys, where the first `low` entries are before it.
#[inline(never)]
fn position_by_keys<V>(entries: &[(Key, V)], low: usize, key: &Key) -> Result<usize, usize>
    requires rising { Rises [] None entries.now }
    requires low { AreBefore (λ e. e.0) entries.now key.now low }
    ensures { IsPlace entries.now key.now result }
{
    let i = count_by_keys(entries, low, key);
    match entries.get(i) {
        Some(entry) if entry.0 == *key => Ok(i),
        _ => Err(i),
    }
}

/// How many entries are before the key, by whole keys, where the first `low` are.
#[inline(always)]
fn count_by_keys<V>(entries: &[(Key, V)], low: usize, key: &Key) -> usize
    requires rising { Rises [] None entries.now }
    requires low { AreBefore (λ e. e.0) entries.now key.now low }
    ensures { IsCount entries.now (Some key.now) result }
{
    low + count_passing(&entries[low..], |entry| entry.0.cmp(key).is_lt())
}

/// Gives the entry the value, or removes it if there is none.
fn replace<V: Drop>(entries: &mut Vec<(Key, V)>, i: usize, value: Option<V>)
    requires bound { i < length entries.old.items }
    requires rising { Rises [] None entries.old.items }
    ensures { (k : List ℕ) → IsEntry entries.old.items k i → IsChanged (same k) value entries.old.items entries.new.items }
{
    match value {
        Some(value) => entries[i].1 = value,
        None => {
            entries.remove(i);
        }
    }
}

/// Inserts an entry for the key before entry `i`, if there is a value.
fn insert<V: Drop>(
    alloc: Global,
    entries: &mut Vec<(Key, V)>,
    i: usize,
    key: &Key,
    value: Option<V>,
) -> Result<(), NoMemory>
    requires { IsGap entries.old.items key.now i }
    ensures ok { OnOk result (IsChanged (same key.now) value entries.old.items entries.new.items) }
    ensures err { OnErr result (entries.new.items ≡ entries.old.items) }
{
    if let Some(value) = value {
        entries.insert(i, (key.copy(alloc)?, value))?;
    }
    Ok(())
}

/// Gives the key the value, or none.
fn set<V: Drop>(
    alloc: Global,
    entries: &mut Vec<(Key, V)>,
    key: &Key,
    value: Option<V>,
) -> Result<(), NoMemory>
    requires { Rises [] None entries.old.items }
    ensures ok { OnOk result (IsChanged (same key.now) value entries.old.items entries.new.items) }
    ensures err { OnErr result (entries.new.items ≡ entries.old.items) }
{
    match position(entries.as_slice(), key) {
        Ok(i) => {
            replace(entries, i, value);
            Ok(())
        }
        Err(i) => insert(alloc, entries, i, key, value),
    }
}

/// Changes the value of entry `i` by the update, in place, or removes the entry if no value is left.
fn edit_entry<U: Update>(
    alloc: Global,
    entries: &mut Vec<(Key, U::Value)>,
    i: usize,
    update: &U,
) -> Result<(), NoMemory>
    requires bound { i < length entries.old.items }
    requires rising { Rises [] None entries.old.items }
    ensures ok { OnOk result ((k : List ℕ) → IsEntry entries.old.items k i → IsChanged (same k) (U.means update.now (lookup entries.old.items k)) entries.old.items entries.new.items) }
    ensures err { OnErr result (entries.new.items ≡ entries.old.items) }
{
    if !update.apply_in_place(alloc, &mut entries[i].1)? {
        entries.remove(i);
    }
    Ok(())
}

/// Gives the key what the update makes of its value, or of its absence.
fn edit<U: Update>(
    alloc: Global,
    entries: &mut Vec<(Key, U::Value)>,
    key: &Key,
    update: &U,
) -> Result<(), NoMemory>
    requires { Rises [] None entries.old.items }
    ensures ok { OnOk result (IsChanged (same key.now) (U.means update.now (lookup entries.old.items key.now)) entries.old.items entries.new.items) }
    ensures err { OnErr result (entries.new.items ≡ entries.old.items) }
{
    match position(entries.as_slice(), key) {
        Ok(i) => edit_entry(alloc, entries, i, update),
        Err(i) => {
            let nothing: Option<U::Value> = None;
            let value = update.apply(alloc, nothing.as_ref())?;
            insert(alloc, entries, i, key, value)
        }
    }
}

/// How many entries are below the end; all of them if there is none.
fn count_below<V>(entries: &[(Key, V)], end: &Option<Key>) -> usize
    requires { Rises [] None entries.now }
    ensures { IsCount entries.now end.now result }
{
    match end {
        None => entries.len(),
        Some(end) => count_before(entries, end),
    }
}

/// Removes the entries of a range.
fn clear<V: Drop>(entries: &mut Vec<(Key, V)>, range: &KeyRange)
    requires { Rises [] None entries.old.items }
    ensures { IsChanged (is_in range.now) None entries.old.items entries.new.items }
{
    let first = count_before(entries.as_slice(), &range.lo);
    // A range without keys may end before it begins.
    let end = count_below(entries.as_slice(), &range.hi).max(first);
    entries.drain(first..end);
}

/// Applies one message to a leaf's entries, atomically.
pub fn apply<U: Update>(
    alloc: Global,
    entries: &mut Vec<(Key, U::Value)>,
    msg: &Msg<U>,
) -> Result<(), NoMemory>
    requires { Rises [] None entries.old.items }
    ensures ok { OnOk result (Applied U.means (msg.now ∷ []) entries.old.items entries.new.items) }
    ensures rising { Rises [] None entries.new.items }
    ensures err { OnErr result (entries.new.items ≡ entries.old.items) }
{
    match msg {
        Msg::Put(key, value) => {
            let value = U::copy_value(alloc, value)?;
            set(alloc, entries, key, Some(value))
        }
        Msg::Del(key) => set(alloc, entries, key, None),
        Msg::DelRange(range) => {
            clear(entries, range);
            Ok(())
        }
        Msg::Edit(key, update) => edit(alloc, entries, key, update),
    }
}

/// A leaf's entries after messages, the oldest first.
pub fn applied<U: Update>(
    alloc: Global,
    entries: &[(Key, U::Value)],
    msgs: &[Msg<U>],
) -> Result<Vec<(Key, U::Value)>, NoMemory>
    requires { Rises [] None entries.now }
    ensures value { IfOk result (λ new. Applied U.means msgs.now entries.now new.items) }
    ensures rising { IfOk result (λ new. Rises [] None new.items) }
{
    let mut new = copy_entries::<U>(alloc, entries)?;
    for msg in msgs {
        apply(alloc, &mut new, msg)?;
    }
    Ok(new)
}

/// Splits off the second half of the entries, and returns it with the pivot at which it begins.
pub fn split_half<V: Drop>(
    alloc: Global,
    entries: &mut Vec<(Key, V)>,
) -> Result<(Key, Vec<(Key, V)>), NoMemory>
    requires two { 2 ≤ length entries.old.items }
    requires rising { Rises [] None entries.old.items }
    ensures ok { IfOk result (λ r. IsDivided entries.old.items entries.new.items r.1.items r.0) }
    ensures err { OnErr result (entries.new.items ≡ entries.old.items) }
{
    let middle = entries.len() / 2;
    let pivot = entries[middle].0.copy(alloc)?;
    let back = entries.split_off(middle)?;
    Ok((pivot, back))
}
