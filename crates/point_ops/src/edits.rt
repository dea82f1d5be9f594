//! Updates of one key that could not be joined, the oldest first: applying them to a value, and appending another.
//!
//! Invariant: an allocation failure leaves the updates as they were, and returns the one that was to be added.
ghost use Rattle.std.specs.Prelude.{◌≡◌, ◌+◌, ◌<◌, ◌≤◌, ◌++◌, ◌∷◌, [], Option, length, drop, take, map, OnOk, OnErr, IfOk, IfErr, vec_capacity};
ghost use Rattle.std.specs.Bool.{OnTrue, OnFalse};
ghost use Rattle.message.specs.declared.msg.Msg.TheVariants as msg;
ghost use Rattle.point_ops.specs.KeyOps.{edits_effect};

use message::{Msg, Update};
use pathkey::{Key, NoMemory};
use std::alloc::Global;

/// Applies the updates to `old`, and returns the resulting value.
pub(crate) fn apply_all<U: Update>(
    alloc: Global,
    updates: &[U],
    old: Option<U::Value>,
) -> Result<Option<U::Value>, NoMemory>
    ensures { IfOk result (λ v. v ≡ edits_effect U.means updates.now old) }
{
    let mut value = old;
    for update in updates {
        value = update.apply(alloc, value.as_ref())?;
    }
    Ok(value)
}

/// The updates without the `older` oldest.
pub(crate) fn later<U: Update>(updates: &[U], older: usize) -> &[U]
    requires { older ≤ length updates.now }
    ensures { result.now ≡ drop older updates.now }
{
    &updates[older..]
}

/// The only update.
pub(crate) fn only<U: Update>(updates: Vec<U>) -> U
    requires { length updates.items ≡ 1 }
    ensures { updates.items ≡ result ∷ [] }
{
    let mut updates = updates;
    updates.remove(0)
}

/// A copy of the update, as a message at the key.
pub(crate) fn msg_of<U: Update>(alloc: Global, key: &Key, update: &U) -> Result<Msg<U>, NoMemory>
    ensures { IfOk result (λ m. m ≡ msg.Edit key.now update.now) }
{
    let key = key.copy(alloc)?;
    Ok(Msg::Edit(key, update.copy(alloc)?))
}

/// Appends copies of the updates, as messages at the key, to `front` until it holds `count` messages.
pub(crate) fn copy_msgs<U: Update>(
    alloc: Global,
    key: &Key,
    updates: &[U],
    count: usize,
    front: &mut Vec<Msg<U>>,
) -> Result<(), NoMemory>
    ensures { OnOk result (take count front.new.items ≡ take count (front.old.items ++ map (msg.Edit key.now) updates.now)) }
{
    for update in updates {
        if front.len() >= count {
            return Ok(());
        }
        front.push(msg_of(alloc, key, update)?)?;
    }
    Ok(())
}

/// Copies the updates.
pub(crate) fn copy_all<U: Update>(alloc: Global, updates: &[U]) -> Result<Vec<U>, NoMemory>
    ensures { IfOk result (λ copy. copy.items ≡ updates.now) }
{
    let mut copy = Vec::with_capacity(alloc, updates.len())?;
    for update in updates {
        copy.push(update.copy(alloc)?)?;
    }
    Ok(copy)
}

/// Appends an update, joined to the newest one if possible. On allocation failure the update is returned as the error, and the
/// updates are unchanged.
pub(crate) fn push<U: Update>(updates: &mut Vec<U>, alloc: Global, later: U) -> Result<(), U>
    ensures meaning { OnOk result ((o : Option U.Value) → edits_effect U.means updates.new.items o ≡ U.means later (edits_effect U.means updates.old.items o)) }
    ensures bound { length updates.new.items ≤ length updates.old.items + 1 }
    ensures some { 0 < length updates.old.items → 0 < length updates.new.items }
    ensures unchanged { OnErr result (updates.new.items ≡ updates.old.items) }
    ensures back { IfErr result (λ u. u ≡ later) }
{
    if join_in_place(updates, alloc, &later) {
        while join_last(updates, alloc) {}
        return Ok(());
    }
    match updates.push(later) {
        Ok(()) => Ok(()),
        Err(refused) => Err(refused.value),
    }
}

/// Removes the `count` oldest updates.
pub(crate) fn drop_first<U: Update>(updates: &mut Vec<U>, count: usize)
    requires { count ≤ length updates.old.items }
    ensures { updates.new.items ≡ drop count updates.old.items }
{
    updates.drain(..count);
}

/// Joins `later` to the newest update if possible, and returns whether it did.
fn join_in_place<U: Update>(updates: &mut Vec<U>, alloc: Global, later: &U) -> bool
    ensures meaning { OnTrue result ((o : Option U.Value) → edits_effect U.means updates.new.items o ≡ U.means later.now (edits_effect U.means updates.old.items o)) }
    ensures len { length updates.new.items ≡ length updates.old.items }
    ensures unchanged { OnFalse result (updates.new.items ≡ updates.old.items) }
    ensures room { vec_capacity updates.new ≡ vec_capacity updates.old }
    ensures some { OnTrue result (0 < length updates.old.items) }
{
    let count = updates.len();
    if count == 0 {
        return false;
    }
    updates[count - 1].join_in_place(alloc, later)
}

/// Joins the two newest updates if possible, and returns whether it did.
fn join_last<U: Update>(updates: &mut Vec<U>, alloc: Global) -> bool
    ensures meaning { (o : Option U.Value) → edits_effect U.means updates.new.items o ≡ edits_effect U.means updates.old.items o }
    ensures shorter { OnTrue result (length updates.new.items < length updates.old.items) }
    ensures bound { length updates.new.items ≤ length updates.old.items }
    ensures some { 0 < length updates.old.items → 0 < length updates.new.items }
{
    let Some(later) = updates.pop() else {
        return false;
    };
    if join_in_place(updates, alloc, &later) {
        return true;
    }
    updates.push_reserved(later);
    false
}
