//! Ends of ranges: the later of two beginnings, the earlier of two ends, and whether a key is before an end.
//!
//! An end is exclusive, and `None` is no end, which is after every key.
ghost use Rattle.std.specs.Prelude.{◌≡◌, IfOk};
ghost use Rattle.std.specs.Option.{option_copied};
ghost use Rattle.pathkey.specs.Keys.{is_below};
ghost use Rattle.message.specs.Ranges.{ends_within, within, later_key, earlier_end};

use pathkey::{Key, NoMemory};
use std::alloc::Global;

/// A copy of the later of two keys.
pub fn later_key(alloc: Global, a: &Key, b: &Key) -> Result<Key, NoMemory>
    ensures { IfOk result (λ k. k ≡ later_key a.now b.now) }
{
    let later = if a.cmp(b).is_lt() { b } else { a };
    later.copy(alloc)
}

/// The earlier of two ends; `None` is no end.
pub fn earlier<'a>(a: Option<&'a Key>, b: Option<&'a Key>) -> Option<&'a Key>
    ensures { option_copied result ≡ earlier_end (option_copied a.entry) (option_copied b.entry) }
{
    match (a, b) {
        (None, end) | (end, None) => end,
        (Some(a), Some(b)) => Some(if a.cmp(b).is_lt() { a } else { b }),
    }
}

/// A copy of the earlier of two ends.
pub fn earlier_end(alloc: Global, a: Option<&Key>, b: Option<&Key>) -> Result<Option<Key>, NoMemory>
    ensures { IfOk result (λ k. k ≡ earlier_end (option_copied a.entry) (option_copied b.entry)) }
{
    copy_end(alloc, earlier(a, b))
}

/// An equal end.
pub fn copy_end(alloc: Global, end: Option<&Key>) -> Result<Option<Key>, NoMemory>
    ensures { IfOk result (λ k. k ≡ option_copied end.entry) }
{
    match end {
        None => Ok(None),
        Some(end) => Ok(Some(end.copy(alloc)?)),
    }
}

/// Whether the end is at or before the end `most`; `None` is no end.
pub fn ends_by(end: Option<&Key>, most: Option<&Key>) -> bool
    ensures { result ≡ ends_within (option_copied end.entry) (option_copied most.entry) }
{
    match (end, most) {
        (_, None) => true,
        (None, Some(_)) => false,
        (Some(end), Some(most)) => end.cmp(most).is_le(),
    }
}

/// Whether the key is before the end; `None` is no end.
#[inline(always)]
pub fn is_before_end(key: &Key, end: Option<&Key>) -> bool
    ensures { result ≡ is_below key.now (option_copied end.entry) }
{
    match end {
        None => true,
        Some(end) => key.cmp(end).is_lt(),
    }
}

/// Whether the key is in the range from `lo` up to but excluding `hi`; `None` is no end.
pub fn is_within(key: &Key, lo: &Key, hi: Option<&Key>) -> bool
    ensures { result ≡ within lo.now (option_copied hi.entry) key.now }
{
    lo.cmp(key).is_le() && is_before_end(key, hi)
}
