//! The end of a segment of keys that are all in the set or all not.
//!
//! A segment ends at the next key at which a range begins or ends; membership in the set can change there, and nowhere before.
ghost use Rattle.std.specs.Prelude.{◌≡◌, true, take};
ghost use Rattle.std.specs.Option.{option_copied};
ghost use Rattle.pathkey.specs.Keys.{is_below};
ghost use Rattle.message.specs.Stretches.{IsStretch};
ghost use Rattle.range_set.specs.Disjoint.{range_msgs, AreApart};
ghost use Rattle.range_set.specs.Ends.{next_begin, next_end};

use cow_map::CowMap;
use message::Update;
use message::ends::earlier;
use pathkey::Key;

/// The first key after `from` at which a range begins or ends, if it is before `end`; else `end`.
pub(crate) fn segment_end<'a, U: Update>(
    ranges: &'a CowMap<Option<Key>>,
    from: &Key,
    end: Option<&'a Key>,
) -> Option<&'a Key>
    requires apart { AreApart ranges.now }
    requires some { is_below from.now (option_copied end) ≡ true }
    ensures { IsStretch (range_msgs {U = U} {V = U.Value} ranges.now) from.now (option_copied end.entry) (option_copied result) }
{
    earlier(
        earlier(end, next_begin(ranges, from)),
        next_end(ranges, from),
    )
}

/// The low end of the first range that begins after the key.
fn next_begin<'a>(ranges: &'a CowMap<Option<Key>>, key: &Key) -> Option<&'a Key>
    ensures { option_copied result ≡ next_begin key.now ranges.now }
{
    match ranges.upper_bound(key).peek() {
        None => None,
        Some((low, _)) => Some(low),
    }
}

/// The high end of the range that contains the key, if there is one and it is bounded.
fn next_end<'a>(ranges: &'a CowMap<Option<Key>>, key: &Key) -> Option<&'a Key>
    ensures { option_copied result ≡ next_end key.now ranges.now }
{
    match ranges.last_at_or_before(key) {
        Some((_, Some(high))) if key.cmp(high).is_lt() => Some(high),
        _ => None,
    }
}
