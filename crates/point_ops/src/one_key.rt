//! Operations at one key of the map, and the numbers of messages that they add and remove.
//!
//! Invariant: the caller's count stays correct, since each call that adds or replaces operations returns how many, and an
//! allocation failure leaves the map unchanged.
ghost use Rattle.std.specs.Prelude.{◌≡◌, ◌<◌, true, None, Some, drop, length, OnOk, OnErr, IfSome, IfNone};
ghost use Rattle.std.specs.List.{slice_get};
ghost use Rattle.std.specs.Option.{option_map, unwrap_or};
ghost use Rattle.cow_map.specs.Places.{at_key};
ghost use Rattle.point_ops.specs.Changes.{is_whole};
ghost use Rattle.point_ops.specs.PointOps.{left, IsFree, IsLeft, IsMoved, IsShared};

use crate::edits_in_place::{AppendOps, DropOldestOps};
use crate::key_ops::KeyOps;
use cow_map::{CowMap, Cursor, Edited};
use message::Update;
use pathkey::{Key, NoMemory};
use std::alloc::Global;

/// The number of pending operations, 0 if there are none.
pub(crate) fn len_of<U: Update>(run: &Option<KeyOps<U>>) -> usize
    ensures { result ≡ unwrap_or (option_map length run.now) 0 }
{
    match run {
        None => 0,
        Some(run) => run.len(),
    }
}

/// Moves the operations of the first key of `from` into `rows`, where they replace those of the same key. Returns how many it
/// moved and how many they replaced. It moves nothing if `from` is empty, if its first key has more than `most` operations, if
/// they depend on operations that they would replace, or on allocation failure.
pub(crate) fn move_first<U: Update>(
    rows: &mut CowMap<KeyOps<U>>,
    from: &mut CowMap<KeyOps<U>>,
    most: usize,
) -> Option<(usize, usize)>
    ensures moved { IfSome result (λ n. IsMoved U.means n.0 n.1 most from.old rows.old from.new rows.new) }
    ensures none { IfNone result ((rows.new ≡ rows.old) × (from.new ≡ from.old)) }
{
    rows.assert_invariant();
    let (key, run) = from.cursor().peek()?;
    let came = run.len();
    if came > most || !is_free(rows, key, run) {
        return None;
    }
    let Ok(was) = rows.move_first_from(from) else {
        return None;
    };
    Some((came, len_of(&was)))
}

/// Whether the operations can replace those of their key: there are none, or the new ones do not depend on them.
fn is_free<U: Update>(rows: &CowMap<KeyOps<U>>, key: &Key, run: &KeyOps<U>) -> bool
    ensures { result ≡ true → IsFree U.means run.now (at_key key.now rows.now) }
{
    run.is_whole() || rows.get(key).is_none()
}

/// Adds the operations of the next key of a cursor of another map, which are newer than those of the same key in `rows`, and
/// returns how many the key had and has now. It adds none if they are several updates that are to follow others, or on allocation
/// failure.
#[inline(always)]
pub(crate) fn share_first<U: Update>(
    rows: &mut CowMap<KeyOps<U>>,
    alloc: Global,
    walk: &Cursor<'_, KeyOps<U>>,
    newer: &KeyOps<U>,
) -> Option<(usize, usize)>
    requires { Some newer.now ≡ option_map (λ e. e.1) (slice_get walk.now 0) }
    ensures shared { IfSome result (λ n. IsShared U.means n.0 n.1 walk.now rows.old (drop 1 walk.now) rows.new) }
    ensures none { IfNone result (rows.new ≡ rows.old) }
{
    if newer.is_whole() {
        return share_whole(rows, walk, newer);
    }
    share_updates(rows, alloc, walk, newer)
}

/// Adds an operation that does not depend on others, in the same way.
#[inline(always)]
fn share_whole<U: Update>(
    rows: &mut CowMap<KeyOps<U>>,
    walk: &Cursor<'_, KeyOps<U>>,
    newer: &KeyOps<U>,
) -> Option<(usize, usize)>
    requires next { Some newer.now ≡ option_map (λ e. e.1) (slice_get walk.now 0) }
    requires whole { is_whole newer.now ≡ true }
    ensures shared { IfSome result (λ n. IsShared U.means n.0 n.1 walk.now rows.old (drop 1 walk.now) rows.new) }
    ensures none { IfNone result (rows.new ≡ rows.old) }
{
    rows.assert_invariant();
    let Ok(was) = rows.share_first_of(walk) else {
        return None;
    };
    Some((len_of(&was), newer.len()))
}

/// Adds updates, in the same way.
#[inline(always)]
fn share_updates<U: Update>(
    rows: &mut CowMap<KeyOps<U>>,
    alloc: Global,
    walk: &Cursor<'_, KeyOps<U>>,
    newer: &KeyOps<U>,
) -> Option<(usize, usize)>
    requires { Some newer.now ≡ option_map (λ e. e.1) (slice_get walk.now 0) }
    ensures shared { IfSome result (λ n. IsShared U.means n.0 n.1 walk.now rows.old (drop 1 walk.now) rows.new) }
    ensures none { IfNone result (rows.new ≡ rows.old) }
{
    rows.assert_invariant();
    match rows.edit_or_share_first_of(walk, AppendOps { alloc, newer }) {
        Ok(None) => Some((0, newer.len())),
        Ok(Some(Some(counts))) => Some(counts),
        Ok(Some(None)) => None,
        Err(_) => None,
    }
}

/// Removes the `consumed` oldest operations of the first key. On allocation failure the map is unchanged.
pub(crate) fn shorten_first<U: Update>(
    rows: &mut CowMap<KeyOps<U>>,
    alloc: Global,
    consumed: usize,
) -> Result<(), NoMemory>
    requires { IsLeft consumed rows.old }
    ensures ok { OnOk result (rows.new ≡ left consumed rows.old) }
    ensures err { OnErr result (rows.new ≡ rows.old) }
{
    if consumed == 0 {
        return Ok(());
    }
    let Some((first, _)) = rows.cursor().peek() else {
        return Ok(());
    };
    let key = first.copy(alloc)?;
    match rows.edit(&key, DropOldestOps { consumed }) {
        Edited::Done(()) => Ok(()),
        _ => Err(NoMemory),
    }
}
