//! Segments: intervals of keys of which each message touches all or none, and the next key with a message for it alone.
//!
//! Invariant: a segment ends after the key at which it begins, at the given end or before it.
ghost use Rattle.std.specs.Prelude.{◌≡◌, IfOk, true};
ghost use Rattle.std.specs.Option.{option_copied};
ghost use Rattle.pathkey.specs.Keys.{is_below};
ghost use Rattle.message.specs.PointKeys.{point_stop, IsPointStop};
ghost use Rattle.pending.specs.MsgRef.{borrowed_msg};
ghost use Rattle.message.specs.Stretches.{ahead_of, range_end, IsNextEnd, IsStretch};
ghost use Rattle.pending.specs.LastPoint.{later_point, point_within, IsLastPoint};

use crate::buffered_msg::BufferedMsg;
use crate::msg_ref::MsgRef;
use message::Update;
use message::ends::{copy_end, earlier, is_within};
use pathkey::{Key, NoMemory};
use std::alloc::Global;

/// The end, if it is after `from`.
pub(crate) fn ahead_of<'a>(from: &Key, end: Option<&'a Key>) -> Option<&'a Key>
    ensures { option_copied result ≡ ahead_of from.now (option_copied end.entry) }
{
    match end {
        Some(key) if from.cmp(key).is_lt() => Some(key),
        _ => None,
    }
}

/// The first key after `from` at which the range from `lo` up to `hi` begins or ends; `None` means no upper bound.
fn range_end<'a>(from: &Key, lo: &'a Key, hi: Option<&'a Key>) -> Option<&'a Key>
    ensures { option_copied result ≡ range_end from.now (record { lo = lo.now; hi = option_copied hi.entry }) }
{
    if from.cmp(lo).is_lt() {
        return Some(lo);
    }
    ahead_of(from, hi)
}

/// The next key after `from` at which the message begins or ceases to touch keys, unless it is for `from` alone.
fn next_end<'a, U: Update>(from: &Key, msg: MsgRef<'a, U>) -> Option<&'a Key>
    ensures { IsNextEnd from.now (borrowed_msg msg.entry) (option_copied result) }
{
    match msg {
        MsgRef::Put(key, _) => ahead_of(from, Some(key)),
        MsgRef::Del(key) => ahead_of(from, Some(key)),
        MsgRef::DelRange(lo, hi) => range_end(from, lo, hi),
        MsgRef::Edit(key, _) => ahead_of(from, Some(key)),
    }
}

/// The end of the segment that begins at `from`: at `end` or before it.
pub(crate) fn segment_end<U: Update>(
    alloc: Global,
    msgs: &[BufferedMsg<U>],
    from: &Key,
    end: Option<&Key>,
) -> Result<Option<Key>, NoMemory>
    requires { is_below from.now (option_copied end) ≡ true }
    ensures { IfOk result (λ stop. IsStretch msgs.now from.now (option_copied end.entry) stop) }
{
    let mut stop = end;
    for waiting in msgs {
        let msg = waiting.as_msg();
        if msg.is_for(from) {
            return Ok(Some(from.next(alloc)?));
        }
        stop = earlier(stop, next_end(from, msg));
    }
    copy_end(alloc, stop)
}

/// The key, if it is from `from` up to, but excluding, `end`; otherwise `end`.
pub(crate) fn point_stop<'a>(
    at: Option<&'a Key>,
    from: &Key,
    end: Option<&'a Key>,
) -> Option<&'a Key>
    ensures { option_copied result ≡ point_stop (option_copied at.entry) from.now (option_copied end.entry) }
{
    match at {
        Some(key) if is_within(key, from, end) => Some(key),
        _ => end,
    }
}

/// The first key from `from` on that has a message for it alone, if it is before `end`; otherwise `end`.
pub(crate) fn next_point<'a, U: Update>(
    msgs: &'a [BufferedMsg<U>],
    from: &Key,
    end: Option<&'a Key>,
) -> Option<&'a Key>
    ensures { IsPointStop msgs.now from.now (option_copied end.entry) (option_copied result) }
{
    let mut stop = end;
    for waiting in msgs {
        stop = point_stop(waiting.as_msg().point_key(), from, stop);
    }
    stop
}

/// The later of two keys, or the only one.
pub(crate) fn later<'a>(a: Option<&'a Key>, b: Option<&'a Key>) -> Option<&'a Key>
    ensures { option_copied result ≡ later_point (option_copied a.entry) (option_copied b.entry) }
{
    match (a, b) {
        (None, key) | (key, None) => key,
        (Some(a), Some(b)) => Some(if a.cmp(b).is_lt() { b } else { a }),
    }
}

/// The key, if it is from `lo` up to, but excluding, `hi`.
pub(crate) fn point_within<'a>(at: Option<&'a Key>, lo: &Key, hi: Option<&Key>) -> Option<&'a Key>
    ensures { option_copied result ≡ point_within (option_copied at.entry) lo.now (option_copied hi.entry) }
{
    match at {
        Some(key) if is_within(key, lo, hi) => Some(key),
        _ => None,
    }
}

/// The last key from `lo` up to, but excluding, `hi` that has a message for it alone, if there is one.
pub(crate) fn last_point<'a, U: Update>(
    msgs: &'a [BufferedMsg<U>],
    lo: &Key,
    hi: Option<&Key>,
) -> Option<&'a Key>
    ensures { IsLastPoint msgs.now lo.now (option_copied hi.entry) (option_copied result) }
{
    let mut last = None;
    for waiting in msgs {
        last = later(last, point_within(waiting.as_msg().point_key(), lo, hi));
    }
    last
}
