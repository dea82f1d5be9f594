//! Queries on the messages of a tail, and copies of them.
//!
//! Invariant: the messages are in the order of their arrival, the oldest first, and not sorted by key.
ghost use Rattle.std.specs.Prelude.{◌≡◌, true, ◌≤◌, ◌++◌, length, IfOk, OnOk};
ghost use Rattle.std.specs.Option.{option_copied};
ghost use Rattle.message.specs.Cuts.{LieIn};
ghost use Rattle.message.specs.Effects.{any_touches, effects, range_count};
ghost use Rattle.message.specs.PointKeys.{is_cleared};

use crate::buffered_msg::BufferedMsg;
use message::{Msg, Update};
use pathkey::{Key, NoMemory};
use std::alloc::Global;

/// Whether a message touches the key.
pub(crate) fn is_touched<U: Update>(msgs: &[BufferedMsg<U>], key: &Key) -> bool
    ensures { result ≡ any_touches msgs.now key.now }
{
    msgs.iter().any(|waiting| waiting.as_msg().touches(key))
}

/// Whether a range-delete among the messages covers the key.
pub(crate) fn is_range_deleted<U: Update>(msgs: &[BufferedMsg<U>], key: &Key) -> bool
    ensures { result ≡ is_cleared msgs.now key.now }
{
    msgs.iter().any(|waiting| waiting.as_msg().deletes_key(key))
}

/// The number of range-deletes among the messages.
pub(crate) fn ranges_in<U: Update>(msgs: &[BufferedMsg<U>]) -> usize
    ensures count { result ≡ range_count msgs.now }
    ensures few { result ≤ length msgs.now }
{
    let mut count = 0;
    for waiting in msgs {
        if waiting.as_msg().is_range() {
            count += 1;
        }
    }
    count
}

/// Applies the messages, the oldest first, to `old`, the older value at `key`, and returns the resulting value.
pub(crate) fn apply_msgs<U: Update>(
    alloc: Global,
    msgs: &[BufferedMsg<U>],
    key: &Key,
    old: Option<U::Value>,
) -> Result<Option<U::Value>, NoMemory>
    ensures { IfOk result (λ v. v ≡ effects U.means msgs.now key.now old) }
{
    let mut value = old;
    for waiting in msgs {
        value = waiting.as_msg().apply_msg(alloc, key, value)?;
    }
    Ok(value)
}

/// Appends copies of the messages to `front`.
pub(crate) fn copy_behind<U: Update>(
    alloc: Global,
    msgs: &[BufferedMsg<U>],
    front: &mut Vec<Msg<U>>,
) -> Result<(), NoMemory>
    ensures { OnOk result (front.new.items ≡ front.old.items ++ msgs.now) }
{
    for waiting in msgs {
        front.push(waiting.as_msg().copy(alloc)?)?;
    }
    Ok(())
}

/// Appends the messages to `back`, for another list that shares them.
pub(crate) fn share_behind<U: Update>(
    alloc: Global,
    msgs: &[BufferedMsg<U>],
    back: &mut Vec<BufferedMsg<U>>,
) -> Result<(), NoMemory>
    ensures { OnOk result (back.new.items ≡ back.old.items ++ msgs.now) }
{
    for waiting in msgs {
        back.push(waiting.share(alloc)?)?;
    }
    Ok(())
}

/// Whether each message is entirely within the keys from `lo` up to, but excluding, `hi`; `None` means no upper bound.
pub(crate) fn lie_in<U: Update>(msgs: &[BufferedMsg<U>], lo: &Key, hi: Option<&Key>) -> bool
    ensures { result ≡ true → LieIn lo.now (option_copied hi.entry) msgs.now }
{
    for waiting in msgs {
        if !waiting.as_msg().lies_in(lo, hi) {
            return false;
        }
    }
    true
}
