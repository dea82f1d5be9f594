//! Whether a leaf has room for a message, and one message applied to a leaf's entries.
//!
//! Only a put or an update of a key that the leaf lacks can add an entry, so only these need room.
ghost use Rattle.std.specs.Prelude.{◌≡◌, ℕ, ◌≤◌, ◌<◌, List, ◌∷◌, [], None, Some, true, false, length, ◌⊎◌, ⊤, IfSome, IfNone, Result, MatchResult, vec_capacity};
ghost use Rattle.std.specs.Option.{option_copied};
ghost use Rattle.message.specs.Effects.{point_key};
ghost use Rattle.message.specs.Oldest.{given_at};
ghost use Rattle.message.specs.declared.msg.Msg.{Msg};
ghost use Rattle.pending.specs.MsgRef.{borrowed_msg};
ghost use Rattle.node.specs.Lawful.{Rises};
ghost use Rattle.node.specs.Leaves.{Applied, IsEntry, IsGap, IsPlace};
ghost use Rattle.node.specs.Meaning.{lookup};
ghost use Rattle.flush.specs.Leaf.{AddsNone};
ghost use Rattle.flush.specs.Merge.{IsAppliedAt, IsSetAt};

use message::{Msg, Update};
use node::leaf::{apply, position};
use pathkey::Key;
use pending::MsgRef;
use std::alloc::Global;

/// If true, a leaf of at most `most` entries has no more after a message that may give a value to this key alone or, if there is no
/// key, to none.
pub(crate) fn has_room<U: Update>(
    entries: &[(Key, U::Value)],
    given: Option<&Key>,
    most: usize,
) -> bool
    requires { Rises [] None entries.now }
    ensures { result ≡ true → (m : Msg U U.Value) → given_at m ≡ option_copied given.entry → length entries.now < most ⊎ AddsNone U.means entries.now m }
{
    if entries.len() < most {
        return true;
    }
    match given {
        None => true,
        Some(key) => position(entries, key).is_ok(),
    }
}

/// Applies the message if there is room for it, and returns whether it did.
pub(crate) fn apply_within<U: Update>(
    alloc: Global,
    entries: &mut Vec<(Key, U::Value)>,
    msg: &Msg<U>,
    most: usize,
) -> bool
    requires { Rises [] None entries.old.items }
    ensures applied { result ≡ true → Applied U.means (msg.now ∷ []) entries.old.items entries.new.items }
    ensures few { result ≡ true → length entries.old.items ≤ most → length entries.new.items ≤ most }
    ensures same { result ≡ false → entries.new.items ≡ entries.old.items }
{
    if !has_room::<U>(entries.as_slice(), msg.created_key(), most) {
        return false;
    }
    apply(alloc, entries, msg).is_ok()
}

// ---- a message of one key, applied at the place of its key

/// Gives the key, which has no entry, the value.
#[inline(always)]
fn insert_at<V: Drop>(
    alloc: Global,
    entries: &mut Vec<(Key, V)>,
    i: usize,
    key: &Key,
    value: V,
) -> Option<Result<usize, usize>>
    requires rising { Rises [] None entries.old.items }
    requires gap { IsGap entries.old.items key.now i }
    ensures some { IfSome result (λ place. IsSetAt key.now (Some value) place entries.old.items entries.new.items) }
    ensures none { IfNone result (entries.new.items ≡ entries.old.items) }
    ensures capacity { vec_capacity entries.old ≤ vec_capacity entries.new }
{
    let Ok(key) = key.copy(alloc) else {
        return None;
    };
    if entries.insert(i, (key, value)).is_err() {
        return None;
    }
    Some(Ok(i))
}

/// Gives the entry a copy of the value.
#[inline(always)]
fn put_over<U: Update>(
    alloc: Global,
    entries: &mut Vec<(Key, U::Value)>,
    i: usize,
    value: &U::Value,
) -> Option<Result<usize, usize>>
    requires rising { Rises [] None entries.old.items }
    requires bound { i < length entries.old.items }
    ensures some { IfSome result (λ place. (k : List ℕ) → IsEntry entries.old.items k i → IsSetAt k (Some value.now) place entries.old.items entries.new.items) }
    ensures none { IfNone result (entries.new.items ≡ entries.old.items) }
    ensures same { length entries.new.items ≡ length entries.old.items }
    ensures capacity { vec_capacity entries.old ≤ vec_capacity entries.new }
{
    let Ok(value) = U::copy_value(alloc, value) else {
        return None;
    };
    entries[i].1 = value;
    Some(Ok(i))
}

/// Gives the key, which has no entry, a copy of the value, if there is room.
#[inline(always)]
fn put_new<U: Update>(
    alloc: Global,
    entries: &mut Vec<(Key, U::Value)>,
    i: usize,
    key: &Key,
    value: &U::Value,
    most: usize,
) -> Option<Result<usize, usize>>
    requires rising { Rises [] None entries.old.items }
    requires gap { IsGap entries.old.items key.now i }
    ensures some { IfSome result (λ place. IsSetAt key.now (Some value.now) place entries.old.items entries.new.items) }
    ensures none { IfNone result (entries.new.items ≡ entries.old.items) }
    ensures few { length entries.old.items ≤ most → length entries.new.items ≤ most }
    ensures capacity { vec_capacity entries.old ≤ vec_capacity entries.new }
{
    if entries.len() >= most {
        return None;
    }
    let Ok(value) = U::copy_value(alloc, value) else {
        return None;
    };
    insert_at(alloc, entries, i, key, value)
}

/// Applies a put.
#[inline(always)]
fn put_at<U: Update>(
    alloc: Global,
    entries: &mut Vec<(Key, U::Value)>,
    place: Result<usize, usize>,
    key: &Key,
    value: &U::Value,
    most: usize,
) -> Option<Result<usize, usize>>
    requires rising { Rises [] None entries.old.items }
    requires place { IsPlace entries.old.items key.now place }
    ensures some { IfSome result (λ place. IsSetAt key.now (Some value.now) place entries.old.items entries.new.items) }
    ensures none { IfNone result (entries.new.items ≡ entries.old.items) }
    ensures few { length entries.old.items ≤ most → length entries.new.items ≤ most }
    ensures capacity { vec_capacity entries.old ≤ vec_capacity entries.new }
{
    match place {
        Ok(i) => put_over::<U>(alloc, entries, i, value),
        Err(i) => put_new::<U>(alloc, entries, i, key, value, most),
    }
}

/// Removes the entry of a key, if it has one, and returns the key's new place.
#[inline(always)]
fn del_at<V: Drop>(entries: &mut Vec<(Key, V)>, place: Result<usize, usize>) -> Result<usize, usize>
    requires rising { Rises [] None entries.old.items }
    requires bound { MatchResult place (λ i. i < length entries.old.items) (λ i. ⊤) }
    ensures set { (k : List ℕ) → IsPlace entries.old.items k place → IsSetAt k None result entries.old.items entries.new.items }
    ensures few { length entries.new.items ≤ length entries.old.items }
    ensures capacity { vec_capacity entries.old ≤ vec_capacity entries.new }
{
    match place {
        Ok(i) => {
            entries.remove(i);
            Err(i)
        }
        Err(i) => Err(i),
    }
}

/// Applies an update to the value of an entry, in place.
#[inline(always)]
fn edit_over<U: Update>(
    alloc: Global,
    entries: &mut Vec<(Key, U::Value)>,
    i: usize,
    update: &U,
) -> Option<Result<usize, usize>>
    requires rising { Rises [] None entries.old.items }
    requires bound { i < length entries.old.items }
    ensures some { IfSome result (λ place. (k : List ℕ) → IsEntry entries.old.items k i → IsSetAt k (U.means update.now (lookup entries.old.items k)) place entries.old.items entries.new.items) }
    ensures none { IfNone result (entries.new.items ≡ entries.old.items) }
    ensures few { length entries.new.items ≤ length entries.old.items }
    ensures capacity { vec_capacity entries.old ≤ vec_capacity entries.new }
{
    let Ok(stays) = update.apply_in_place(alloc, &mut entries[i].1) else {
        return None;
    };
    if stays {
        return Some(Ok(i));
    }
    entries.remove(i);
    Some(Err(i))
}

/// Gives the key, which has no entry, what the update makes of the absence of a value, if there is room.
#[inline(always)]
fn edit_new<U: Update>(
    alloc: Global,
    entries: &mut Vec<(Key, U::Value)>,
    i: usize,
    key: &Key,
    update: &U,
    most: usize,
) -> Option<Result<usize, usize>>
    requires rising { Rises [] None entries.old.items }
    requires gap { IsGap entries.old.items key.now i }
    ensures some { IfSome result (λ place. IsSetAt key.now (U.means update.now (lookup entries.old.items key.now)) place entries.old.items entries.new.items) }
    ensures none { IfNone result (entries.new.items ≡ entries.old.items) }
    ensures few { length entries.old.items ≤ most → length entries.new.items ≤ most }
    ensures capacity { vec_capacity entries.old ≤ vec_capacity entries.new }
{
    if entries.len() >= most {
        return None;
    }
    let nothing: Option<U::Value> = None;
    match update.apply(alloc, nothing.as_ref()) {
        Ok(Some(value)) => insert_at(alloc, entries, i, key, value),
        Ok(None) => Some(Err(i)),
        Err(_) => None,
    }
}

/// Applies an update.
#[inline(always)]
fn edit_at<U: Update>(
    alloc: Global,
    entries: &mut Vec<(Key, U::Value)>,
    place: Result<usize, usize>,
    key: &Key,
    update: &U,
    most: usize,
) -> Option<Result<usize, usize>>
    requires rising { Rises [] None entries.old.items }
    requires place { IsPlace entries.old.items key.now place }
    ensures some { IfSome result (λ place. IsSetAt key.now (U.means update.now (lookup entries.old.items key.now)) place entries.old.items entries.new.items) }
    ensures none { IfNone result (entries.new.items ≡ entries.old.items) }
    ensures few { length entries.old.items ≤ most → length entries.new.items ≤ most }
    ensures capacity { vec_capacity entries.old ≤ vec_capacity entries.new }
{
    match place {
        Ok(i) => edit_over(alloc, entries, i, update),
        Err(i) => edit_new(alloc, entries, i, key, update, most),
    }
}

/// Applies a message of one key at the place of its key, if there is room for it, and returns the key's new place. It applies no
/// range-delete.
#[inline(always)]
pub(crate) fn apply_at<U: Update>(
    alloc: Global,
    entries: &mut Vec<(Key, U::Value)>,
    place: Result<usize, usize>,
    msg: &MsgRef<'_, U>,
    most: usize,
) -> Option<Result<usize, usize>>
    requires rising { Rises [] None entries.old.items }
    requires place { (k : List ℕ) → point_key (borrowed_msg msg.now) ≡ Some k → IsPlace entries.old.items k place }
    ensures some { IfSome result (λ place. IsAppliedAt U.means (borrowed_msg msg.now) place entries.old.items entries.new.items) }
    ensures none { IfNone result (entries.new.items ≡ entries.old.items) }
    ensures few { length entries.old.items ≤ most → length entries.new.items ≤ most }
    ensures capacity { vec_capacity entries.old ≤ vec_capacity entries.new }
{
    match msg {
        MsgRef::Put(key, value) => put_at::<U>(alloc, entries, place, *key, *value, most),
        MsgRef::Del(_) => Some(del_at(entries, place)),
        MsgRef::Edit(key, update) => edit_at(alloc, entries, place, *key, *update, most),
        MsgRef::DelRange(_, _) => None,
    }
}
