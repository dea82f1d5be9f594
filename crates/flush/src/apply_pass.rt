//! A walk's messages applied to a leaf's entries: in one pass over both, or by a search for each key.
//!
//! The keys of a walk rise, as those of the entries do. So a pass moves the entries, in their order, from a queue of those that
//! are left to a vector of those that are done: for each key of the walk those up to it, and then the operations of the key are
//! applied to the last one, or make a new one there. It never moves the entries after a new one to make a place for it. Neither
//! messages nor keys are copied, but for the keys of new entries.
//!
//! Invariant: the entries that are done, followed by those that are left, are the leaf's entries after the messages so far, sorted
//! by key, and those that are done are before the walk's next key.
ghost use Rattle.std.specs.Prelude.{◌≡◌, ◌≤◌, ◌<◌, ◌+◌, ◌++◌, [], ℕ, List, None, Some, true, length, drop, vec_capacity};
ghost use Rattle.std.specs.declared.cmp.Ordering.TheVariants.{Less};
ghost use Rattle.pathkey.specs.Keys.{is_below};
ghost use Rattle.message.specs.Ranges.{before};
ghost use Rattle.point_ops.specs.PointOps.{point_msgs};
ghost use Rattle.pending.specs.OldestWalk.{first_len};
ghost use Rattle.node.specs.Lawful.{first_key, Rises};
ghost use Rattle.node.specs.Leaves.{IsPlace};
ghost use Rattle.flush.specs.Merge.{HasCome, IsFilled};

use crate::room::apply_at;
use message::Update;
use node::leaf::position;
use pathkey::Key;
use pending::OldestWalk;
use std::alloc::Global;
use std::cmp::Ordering;
use std::collections::VecDeque;

/// From this number of messages on they are applied in one pass, which moves all entries.
///
/// Measured against a search for each message, in leaves of 100 to 900 entries: a pass is faster from 6 to 8 messages on if
/// all add or remove entries, and from 50 to 100 on if none does. At this number it gains more in the one case than it
/// loses in the other.
const FEW: u16 = 16;

/// Moves the first entry, if there is one and its key is not after this one, and returns how its key compares.
#[inline(always)]
fn move_up_to<V>(done: &mut Vec<(Key, V)>, left: &mut VecDeque<(Key, V)>, key: &Key) -> Ordering
    requires room { length done.old.items + length left.old.items ≤ vec_capacity done.old }
    requires rising { Rises [] None (done.old.items ++ left.old.items) }
    requires ahead { Rises [] (Some key.now) done.old.items }
    ensures all { done.new.items ++ left.new.items ≡ done.old.items ++ left.old.items }
    ensures capacity { vec_capacity done.new ≡ vec_capacity done.old }
    ensures come { HasCome key.now done.new.items left.new.items result }
    ensures fewer { result ≡ Less → length left.new.items < length left.old.items }
    ensures no_more { length left.new.items ≤ length left.old.items }
{
    let order = match left.front() {
        None => return Ordering::Greater,
        Some(entry) => entry.0.cmp(key),
    };
    if order.is_gt() {
        return order;
    }
    let Some(entry) = left.pop_front() else {
        unreachable!()
    };
    done.push_reserved(entry);
    order
}

/// Moves the entries whose keys are not after this one, and returns the key's place among those that are done.
#[inline(always)]
fn advance_to<V>(
    done: &mut Vec<(Key, V)>,
    left: &mut VecDeque<(Key, V)>,
    key: &Key,
) -> Result<usize, usize>
    requires room { length done.old.items + length left.old.items ≤ vec_capacity done.old }
    requires rising { Rises [] None (done.old.items ++ left.old.items) }
    requires ahead { Rises [] (Some key.now) done.old.items }
    ensures all { done.new.items ++ left.new.items ≡ done.old.items ++ left.old.items }
    ensures capacity { vec_capacity done.new ≡ vec_capacity done.old }
    ensures place { IsPlace done.new.items key.now result }
    ensures ahead { (next : List ℕ) → before key.now next ≡ true → Rises [] (Some next) done.new.items }
    ensures behind { is_below key.now (first_key None left.new.items) ≡ true }
{
    let mut order = Ordering::Less;
    while order.is_lt() {
        order = move_up_to(done, left, key);
    }
    if order.is_eq() {
        Ok(done.len() - 1)
    } else {
        Err(done.len())
    }
}

/// Moves all that are left.
fn finish<V>(done: &mut Vec<(Key, V)>, left: &mut VecDeque<(Key, V)>)
    requires { length done.old.items + length left.old.items ≤ vec_capacity done.old }
    ensures { done.new.items ≡ done.old.items ++ left.old.items }
{
    while let Some(entry) = left.pop_front() {
        done.push_reserved(entry);
    }
}

/// Applies the `len` oldest operations of a walk's next key at its place, up to one for which there is no room or an allocation
/// fails, and counts them.
#[inline(always)]
fn apply_key<U: Update>(
    alloc: Global,
    entries: &mut Vec<(Key, U::Value)>,
    place: Result<usize, usize>,
    walk: &OldestWalk<'_, U>,
    len: usize,
    most: usize,
) -> usize
    requires rising { Rises [] None entries.old.items }
    requires place { (k : List ℕ) → first_key None walk.now ≡ Some k → IsPlace entries.old.items k place }
    requires few { len ≤ first_len walk.now }
    ensures filled { IsFilled U.means most (point_msgs walk.now) result entries.old.items entries.new.items }
    ensures within { result ≤ len }
    ensures capacity { vec_capacity entries.old ≤ vec_capacity entries.new }
{
    let mut place = place;
    let mut count = 0;
    while count < len {
        let msg = walk.msg(count);
        let Some(next) = apply_at(alloc, entries, place, &msg, most) else {
            return count;
        };
        place = next;
        count += 1;
    }
    count
}

/// Moves the entries up to a walk's next key, and applies the `len` oldest of its operations there.
#[inline(always)]
fn apply_next<U: Update>(
    alloc: Global,
    done: &mut Vec<(Key, U::Value)>,
    left: &mut VecDeque<(Key, U::Value)>,
    walk: &OldestWalk<'_, U>,
    key: &Key,
    len: usize,
    room: usize,
) -> usize
    requires key { first_key None walk.now ≡ Some key.now }
    requires few { len ≤ first_len walk.now }
    requires rising { Rises [] None (done.old.items ++ left.old.items) }
    requires ahead { Rises [] (Some key.now) done.old.items }
    requires fits { length done.old.items + length left.old.items ≤ room }
    requires capacity { room ≤ vec_capacity done.old }
    ensures filled { IsFilled U.means room (point_msgs walk.now) result (done.old.items ++ left.old.items) (done.new.items ++ left.new.items) }
    ensures within { result ≤ len }
    ensures ahead { Rises [] (first_key None (drop 1 walk.now)) done.new.items }
    ensures fits { length done.new.items + length left.new.items ≤ room }
    ensures capacity { room ≤ vec_capacity done.new }
{
    walk.assert_rising();
    let place = advance_to(done, left, key);
    apply_key(alloc, done, place, walk, len, room - left.len())
}

/// Applies the messages of a walk in one pass, key by key until it has applied `few`, up to one for which there is no room or an
/// allocation fails, and counts them.
fn pass_along<U: Update>(
    alloc: Global,
    done: &mut Vec<(Key, U::Value)>,
    left: &mut VecDeque<(Key, U::Value)>,
    walk: OldestWalk<'_, U>,
    few: u16,
    room: usize,
) -> usize
    requires rising { Rises [] None left.old.items }
    requires empty { done.old.items ≡ [] }
    requires fits { length left.old.items ≤ room }
    requires capacity { room ≤ vec_capacity done.old }
    ensures filled { IsFilled U.means room (point_msgs walk.entry) result left.old.items (done.new.items ++ left.new.items) }
    ensures small { result ≤ few + few }
    ensures fits { length done.new.items + length left.new.items ≤ room }
    ensures capacity { room ≤ vec_capacity done.new }
{
    let few = few as usize;
    let mut walk = walk;
    let mut count = 0;
    while let Some((key, len)) = walk.peek() {
        if count >= few {
            return count;
        }
        let more = apply_next(alloc, done, left, &walk, key, len.min(few), room);
        count += more;
        if more < len {
            return count;
        }
        walk.pass();
    }
    count
}

/// The same by a search for each key.
fn search_along<U: Update>(
    alloc: Global,
    entries: &mut Vec<(Key, U::Value)>,
    walk: OldestWalk<'_, U>,
    few: u16,
    most: usize,
) -> usize
    requires { Rises [] None entries.old.items }
    ensures filled { IsFilled U.means most (point_msgs walk.entry) result entries.old.items entries.new.items }
    ensures small { result ≤ few + few }
{
    let few = few as usize;
    let mut walk = walk;
    let mut count = 0;
    while let Some((key, len)) = walk.peek() {
        if count >= few {
            return count;
        }
        let place = position(entries.as_slice(), key);
        let more = apply_key(alloc, entries, place, &walk, len.min(few), most);
        count += more;
        if more < len {
            return count;
        }
        walk.pass();
    }
    count
}

/// How many entries a leaf of `entries` entries has room for, when it gets operations of `keys` keys.
fn room_after(entries: usize, keys: usize, most: usize) -> usize
    ensures all { entries ≤ result }
    ensures few { entries ≤ most → result ≤ most }
{
    entries + keys.min(most.saturating_sub(entries))
}

/// Applies the messages of a walk to entries, key by key until it has applied `few`, up to one for which there is no room or an
/// allocation fails, and counts them. Of one key it applies at most `few`.
///
/// It searches for each key if the messages are few, and if the allocation for the entries' new place fails.
pub(crate) fn apply_along<U: Update>(
    alloc: Global,
    entries: &mut Vec<(Key, U::Value)>,
    walk: OldestWalk<'_, U>,
    few: u16,
    most: usize,
) -> usize
    requires { Rises [] None entries.old.items }
    ensures filled { IsFilled U.means most (point_msgs walk.entry) result entries.old.items entries.new.items }
    ensures small { result ≤ few + few }
{
    if few < FEW {
        return search_along(alloc, entries, walk, few, most);
    }
    let room = room_after(entries.len(), few as usize, most);
    let Ok(done) = Vec::with_capacity(alloc, room) else {
        return search_along(alloc, entries, walk, few, most);
    };
    let mut left = VecDeque::from_vec(std::mem::replace(entries, done));
    let count = pass_along(alloc, entries, &mut left, walk, few, room);
    finish(entries, &mut left);
    count
}
