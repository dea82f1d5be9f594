//! Search for a key among sorted entries.
//!
//! Invariant of the search: the entries before the remaining ones are before the key, and those after them are after it. It also
//! maintains how many leading bytes the key has in common with the last entry compared on either side; all entries between the two
//! share the lesser number of bytes with the key, and comparisons skip these.
ghost use Rattle.std.specs.Prelude.{◌≡◌, ◌+◌, ◌<◌, ◌≤◌, length, IfOk, IfErr};
ghost use Rattle.std.specs.Option.{option_copied};
ghost use Rattle.cow_map.specs.Places.{Rises, at_key, place, place_past, IsFound, IsHolder};
ghost use Rattle.cow_map.specs.Searching.{IsRest};

use crate::shared_entry::SharedEntry;
use crate::stored::CopyValue;
use pathkey::Key;
use std::cmp::Ordering;

/// The number of entries before the key.
pub(crate) fn count_before<T: CopyValue>(entries: &[SharedEntry<T>], key: &Key) -> usize
    requires { Rises entries.now }
    ensures place { result ≡ place key.now entries.now }
    ensures bound { result ≤ length entries.now }
{
    match find(entries, key) {
        Ok(i) => i,
        Err(i) => i,
    }
}

/// The index of the key among entries, or else the index at which it would be inserted. The last entry is compared first, since
/// keys often come in order.
pub(crate) fn find<T: CopyValue>(entries: &[SharedEntry<T>], key: &Key) -> Result<usize, usize>
    requires { Rises entries.now }
    ensures { IsFound key.now entries.now result }
{
    if entries.is_empty() {
        return Err(0);
    }
    let last = entries.len() - 1;
    let (order, above) = entries[last].cmp_from(key, 0);
    match order {
        Ordering::Less => Err(entries.len()),
        Ordering::Equal => Ok(last),
        Ordering::Greater => {
            let rest = Rest {
                low: 0,
                high: last,
                below: 0,
                above,
            };
            find_among(entries, key, rest)
        }
    }
}

/// The state of a search: entries before `low` are before the key, and those from `high` on are after it. The key has its first
/// `below` bytes in common with the entries before, and its first `above` bytes with those after; so all entries between share
/// the lesser number of bytes with it, and comparisons skip them.
#[derive(Clone, Copy)]
struct Rest {
    low: usize,
    high: usize,
    below: usize,
    above: usize,
}

/// Searches in strides: the indexes that each stride reads do not depend on earlier comparisons.
fn find_among<T: CopyValue>(
    entries: &[SharedEntry<T>],
    key: &Key,
    rest: Rest,
) -> Result<usize, usize>
    requires rises { Rises entries.now }
    requires rest { IsRest key.now entries.now rest }
    ensures { IsFound key.now entries.now result }
{
    let some = match narrow(entries, key, rest, 16) {
        Ok(at) => return Ok(at),
        Err(some) => some,
    };
    let few = match narrow(entries, key, some, 4) {
        Ok(at) => return Ok(at),
        Err(few) => few,
    };
    match narrow(entries, key, few, 1) {
        Ok(at) => Ok(at),
        Err(none) => Err(none.low),
    }
}

/// Advances in strides as long as the last entry of each is before the key, until fewer entries than a stride remain; or
/// returns the index of the key if it is found.
#[inline(always)]
fn narrow<T: CopyValue>(
    entries: &[SharedEntry<T>],
    key: &Key,
    rest: Rest,
    stride: usize,
) -> Result<usize, Rest>
    requires rises { Rises entries.now }
    requires rest { IsRest key.now entries.now rest }
    requires stride { 0 < stride }
    ensures found { IfOk result (λ i. IsHolder key.now entries.now i) }
    ensures rest { IfErr result (λ r. IsRest key.now entries.now r) }
    ensures short { IfErr result (λ r. r.high < r.low + stride) }
{
    let Rest { high, above, .. } = rest;
    let (mut low, mut below) = (rest.low, rest.below);
    while high - low >= stride {
        let at = low + (stride - 1);
        let (order, same) = entries[at].cmp_from(key, below.min(above));
        match order {
            Ordering::Less => {
                low = at + 1;
                below = same;
            }
            Ordering::Equal => return Ok(at),
            Ordering::Greater => {
                return Err(Rest {
                    low,
                    high: at,
                    below,
                    above: same,
                })
            }
        }
    }
    Err(Rest {
        low,
        high,
        below,
        above,
    })
}

/// The number of entries at or before the key.
pub(crate) fn count_past<T: CopyValue>(entries: &[SharedEntry<T>], key: &Key) -> usize
    requires { Rises entries.now }
    ensures place { result ≡ place_past key.now entries.now }
    ensures bound { result ≤ length entries.now }
{
    match find(entries, key) {
        Ok(i) => i + 1,
        Err(i) => i,
    }
}

/// The value at the key among entries.
pub(crate) fn value_at<'a, T: CopyValue>(entries: &'a [SharedEntry<T>], key: &Key) -> Option<&'a T>
    requires { Rises entries.now }
    ensures { option_copied result ≡ at_key key.now entries.now }
{
    match find(entries, key) {
        Ok(i) => {
            let item = &entries[i];
            Some(item.value())
        }
        Err(_) => None,
    }
}
