//! The keys at which the values of two indexes differ, among those that were touched.
ghost use Rattle.std.specs.Prelude.{◌≡◌, ◌||◌, IfOk, OnOk, false, true};
ghost use Rattle.std.specs.List.{list_any};
ghost use Rattle.change_log.specs.KeyLogs.{touched_of};
ghost use Rattle.change_log.specs.Touched.{is_touched};
ghost use Rattle.node.specs.Meaning.{value as value_at};
ghost use Rattle.pathkey.specs.Keys.{is_in};
ghost use Rattle.pathkey.specs.Order.{same};
ghost use Rattle.delta.specs.Changed.{Adds, AddsStored, AreDiffering};

use crate::compare::Compare;
use change_log::TouchedKeys;
use lookup::get;
use node::Tree;
use pathkey::{Key, KeyRange, NoMemory};
use scan::readahead::Readahead;
use std::alloc::Global;

/// The keys at which the values are not alike, of those that were touched in one of two ways, in no order, some perhaps several times.
pub(crate) fn differing<U: Compare>(
    alloc: Global,
    old: &Tree<U>,
    new: &Tree<U>,
    one: &TouchedKeys,
    other: &TouchedKeys,
) -> Result<Vec<Key>, NoMemory>
    ensures { IfOk result (λ keys. AreDiffering U.alike (value_at U.means old.now.root) (value_at U.means new.now.root) (λ k. is_touched (touched_of one.now) k || is_touched (touched_of other.now) k) keys.items) }
{
    let mut keys = Vec::new(alloc);
    add_touched(alloc, old, new, one, &mut keys)?;
    add_touched(alloc, old, new, other, &mut keys)?;
    Ok(keys)
}

/// Adds the touched keys at which the values are not alike.
fn add_touched<U: Compare>(
    alloc: Global,
    old: &Tree<U>,
    new: &Tree<U>,
    touched: &TouchedKeys,
    out: &mut Vec<Key>,
) -> Result<(), NoMemory>
    ensures { OnOk result (Adds U.alike (value_at U.means old.now.root) (value_at U.means new.now.root) (is_touched (touched_of touched.now)) out.old.items out.new.items) }
{
    add_keys(alloc, old, new, touched.keys.as_slice(), out)?;
    add_ranges(alloc, old, new, touched.ranges.as_slice(), out)?;
    Ok(())
}

/// Adds those of the keys at which the values are not alike.
fn add_keys<U: Compare>(
    alloc: Global,
    old: &Tree<U>,
    new: &Tree<U>,
    keys: &[Key],
    out: &mut Vec<Key>,
) -> Result<(), NoMemory>
    ensures { OnOk result (Adds U.alike (value_at U.means old.now.root) (value_at U.means new.now.root) (λ k. list_any (λ q. same q k) keys.now) out.old.items out.new.items) }
{
    for key in keys {
        add_key(alloc, old, new, key, out)?;
    }
    Ok(())
}

/// Adds the keys in the ranges at which the values are not alike.
fn add_ranges<U: Compare>(
    alloc: Global,
    old: &Tree<U>,
    new: &Tree<U>,
    ranges: &[KeyRange],
    out: &mut Vec<Key>,
) -> Result<(), NoMemory>
    ensures { OnOk result (Adds U.alike (value_at U.means old.now.root) (value_at U.means new.now.root) (λ k. list_any (λ r. is_in r k) ranges.now) out.old.items out.new.items) }
{
    for range in ranges {
        add_range(alloc, old, new, range, out)?;
    }
    Ok(())
}

/// Adds the keys in the range at which the values are not alike: those that have one in the old tree, and those that have one in
/// the new tree.
fn add_range<U: Compare>(
    alloc: Global,
    old: &Tree<U>,
    new: &Tree<U>,
    range: &KeyRange,
    out: &mut Vec<Key>,
) -> Result<(), NoMemory>
    ensures { OnOk result (Adds U.alike (value_at U.means old.now.root) (value_at U.means new.now.root) (λ k. is_in range.now k) out.old.items out.new.items) }
{
    add_stored(alloc, old, old, new, range, out)?;
    add_stored(alloc, new, old, new, range, out)?;
    Ok(())
}

/// Adds the keys in the range that have a value in a tree and at which the values of the two others are not alike.
fn add_stored<U: Compare>(
    alloc: Global,
    tree: &Tree<U>,
    old: &Tree<U>,
    new: &Tree<U>,
    range: &KeyRange,
    out: &mut Vec<Key>,
) -> Result<(), NoMemory>
    ensures { OnOk result (AddsStored U.alike (value_at U.means old.now.root) (value_at U.means new.now.root) (value_at U.means tree.now.root) range.now out.old.items out.new.items) }
{
    let mut rest = range.copy(alloc)?;
    let mut pieces = Readahead::new(alloc);
    let mut next = pieces.first(alloc, tree, &rest)?;
    // No tree has more keys than this.
    for _ in 0..u64::MAX {
        let Some((key, _)) = next else {
            return Ok(());
        };
        rest.lo = key.next(alloc)?;
        add_key(alloc, old, new, &key, out)?;
        next = pieces.first(alloc, tree, &rest)?;
    }
    Err(NoMemory)
}

/// Adds the key if the values there are not alike.
fn add_key<U: Compare>(
    alloc: Global,
    old: &Tree<U>,
    new: &Tree<U>,
    key: &Key,
    out: &mut Vec<Key>,
) -> Result<(), NoMemory>
    ensures { OnOk result (Adds U.alike (value_at U.means old.now.root) (value_at U.means new.now.root) (λ k. same key.now k) out.old.items out.new.items) }
{
    if is_same_at(alloc, old, new, key)? {
        return Ok(());
    }
    out.push(key.copy(alloc)?)?;
    Ok(())
}

/// Whether the values at the key are alike.
fn is_same_at<U: Compare>(
    alloc: Global,
    old: &Tree<U>,
    new: &Tree<U>,
    key: &Key,
) -> Result<bool, NoMemory>
    ensures yes { IfOk result (λ same. same ≡ true → U.alike (value_at U.means old.now.root key.now) (value_at U.means new.now.root key.now)) }
    ensures no { IfOk result (λ same. same ≡ false → U.alike (value_at U.means old.now.root key.now) (value_at U.means new.now.root key.now) → ⊥) }
{
    let before = get(alloc, old, key)?;
    let after = get(alloc, new, key)?;
    Ok(U::are_alike(&before, &after))
}
