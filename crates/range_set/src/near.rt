//! The ranges next to a key.
//!
//! Since the ranges are disjoint and sorted, the last one that begins at or before a key is the only one that can contain it.
ghost use Rattle.std.specs.Prelude.{◌≡◌, true, false, Some, List, ℕ, IfOk};
ghost use Rattle.std.specs.Option.{option_copied};
ghost use Rattle.pathkey.specs.Keys.{is_below};
ghost use Rattle.range_set.specs.Disjoint.{covered, AreApart};
ghost use Rattle.range_set.specs.Ends.{AreHeld, IsLowEnd, IsHighEnd, Widens};

use cow_map::CowMap;
use message::ends::{copy_end, ends_by, is_before_end};
use pathkey::{Key, KeyRange, NoMemory};
use std::alloc::Global;

/// Whether one of the ranges contains the key.
pub(crate) fn is_covered(ranges: &CowMap<Option<Key>>, key: &Key) -> bool
    requires { AreApart ranges.now }
    ensures { result ≡ covered ranges.now key.now }
{
    match ranges.last_at_or_before(key) {
        None => false,
        Some((_, high)) => is_before_end(key, high.as_ref()),
    }
}

/// Whether one of the ranges contains every key from `lo` up to but excluding `hi`; `None` is unbounded.
pub(crate) fn is_held(ranges: &CowMap<Option<Key>>, lo: &Key, hi: Option<&Key>) -> bool
    requires { AreApart ranges.now }
    ensures { result ≡ true → AreHeld lo.now (option_copied hi.entry) ranges.now }
{
    match ranges.last_at_or_before(lo) {
        None => false,
        Some((_, high)) => ends_by(hi, high.as_ref()),
    }
}

/// The low end of the range that begins before the key and ends at or after it; the key if there is none.
pub(crate) fn low_end<'a>(ranges: &'a CowMap<Option<Key>>, key: &'a Key) -> &'a Key
    requires { AreApart ranges.now }
    ensures { IsLowEnd ranges.now key.now result.now }
{
    let Some((low, high)) = ranges.last_before(key) else {
        return key;
    };
    if ends_by(Some(key), high.as_ref()) {
        low
    } else {
        key
    }
}

/// The high end of the range that contains the end; the end if there is none. `None` is unbounded.
pub(crate) fn high_end<'a>(ranges: &'a CowMap<Option<Key>>, end: Option<&'a Key>) -> Option<&'a Key>
    requires { AreApart ranges.now }
    ensures { IsHighEnd ranges.now (option_copied end.entry) (option_copied result) }
{
    let key = end?;
    let Some((_, high)) = ranges.last_at_or_before(key) else {
        return Some(key);
    };
    if is_before_end(key, high.as_ref()) {
        high.as_ref()
    } else {
        Some(key)
    }
}

/// Whether no range begins before `lo` and ends at or after it, and none contains `hi` or begins at it; `None` is unbounded.
pub(crate) fn is_apart(ranges: &CowMap<Option<Key>>, lo: &Key, hi: Option<&Key>) -> bool
    requires some { is_below lo.now (option_copied hi) ≡ true }
    requires apart { AreApart ranges.now }
    ensures { result ≡ true → Widens ranges.now lo.now (option_copied hi.entry) (record { lo = lo.now; hi = option_copied hi.entry }) }
{
    lo.cmp(low_end(ranges, lo)).is_le() && ends_by(high_end(ranges, hi), hi)
}

/// The union of the range from `lo` up to but excluding `hi` and the ranges that overlap its ends or touch it, as one range.
pub(crate) fn widened(
    ranges: &CowMap<Option<Key>>,
    alloc: Global,
    lo: &Key,
    hi: Option<&Key>,
) -> Result<KeyRange, NoMemory>
    requires some { is_below lo.now (option_copied hi) ≡ true }
    requires apart { AreApart ranges.now }
    ensures { IfOk result (Widens ranges.now lo.now (option_copied hi.entry)) }
{
    let low = low_end(ranges, lo).copy(alloc)?;
    let high = copy_end(alloc, high_end(ranges, hi))?;
    Ok(KeyRange { lo: low, hi: high })
}
