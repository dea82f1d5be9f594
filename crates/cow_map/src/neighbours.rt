//! The entries next to a key, on either side of it, and the value at it.
//!
//! Each is found in the chunk to which the key belongs, or in the chunks next to that one: the earlier chunks have only keys before
//! the key, and the later ones only keys after it. The first `left` entries of the first chunk are left out.
ghost use Rattle.std.specs.Prelude.{◌≡◌, ◌≤◌, ◌++◌, length, take, drop};
ghost use Rattle.std.specs.Option.{option_copied, option_map};
ghost use Rattle.cow_map.specs.Places.{at_key, last_of, place, place_past};
ghost use Rattle.cow_map.specs.CowMap.{joined, behind, AreRows, IsBehind};

use crate::chunk::Chunk;
use crate::chunks::{chunk_index, entries_at};
use crate::cursor::Cursor;
use crate::search::{count_before, count_past, value_at};
use crate::shared_entry::SharedEntry;
use crate::stored::CopyValue;
use pathkey::Key;

/// The value at the key in chunks.
pub(crate) fn value_among<'a, T: CopyValue>(
    rows: &'a [Chunk<T>],
    left: usize,
    key: &Key,
) -> Option<&'a T>
    requires rows { AreRows rows.now }
    requires left { IsBehind left rows.now }
    ensures { option_copied result ≡ at_key key.now (joined (behind left rows.now)) }
{
    let n = chunk_index(rows, key);
    match entries_at(rows, left, n) {
        None => None,
        Some(entries) => value_at(entries, key),
    }
}

/// All entries of chunks.
pub(crate) fn walk_all<T: CopyValue>(rows: &[Chunk<T>], left: usize) -> Cursor<'_, T>
    requires rows { AreRows rows.now }
    requires left { IsBehind left rows.now }
    ensures { result ≡ joined (behind left rows.now) }
{
    match rows.split_first() {
        None => Cursor::of(&[], rows),
        Some((row, later)) => Cursor::of(&row.entries()[left..], later),
    }
}

/// The entries of chunks at or after the key.
pub(crate) fn walk_from_among<'a, T: CopyValue>(
    rows: &'a [Chunk<T>],
    left: usize,
    key: &Key,
) -> Cursor<'a, T>
    requires rows { AreRows rows.now }
    requires left { IsBehind left rows.now }
    ensures { result ≡ drop (place key.now (joined (behind left rows.now))) (joined (behind left rows.now)) }
{
    let n = chunk_index(rows, key);
    let Some(entries) = entries_at(rows, left, n) else {
        return Cursor::of(&[], rows);
    };
    let at = count_before(entries, key);
    Cursor::of(&entries[at..], &rows[n + 1..])
}

/// The entries of chunks after the key.
pub(crate) fn walk_past_among<'a, T: CopyValue>(
    rows: &'a [Chunk<T>],
    left: usize,
    key: &Key,
) -> Cursor<'a, T>
    requires rows { AreRows rows.now }
    requires left { IsBehind left rows.now }
    ensures { result ≡ drop (place_past key.now (joined (behind left rows.now))) (joined (behind left rows.now)) }
{
    let n = chunk_index(rows, key);
    let Some(entries) = entries_at(rows, left, n) else {
        return Cursor::of(&[], rows);
    };
    let at = count_past(entries, key);
    Cursor::of(&entries[at..], &rows[n + 1..])
}

/// The last entry of chunks before the key.
pub(crate) fn last_before_among<'a, T: CopyValue>(
    rows: &'a [Chunk<T>],
    left: usize,
    key: &Key,
) -> Option<(&'a Key, &'a T)>
    requires rows { AreRows rows.now }
    requires left { IsBehind left rows.now }
    ensures { option_map (λ p. (p.0.now, p.1.now)) result ≡ last_of (take (place key.now (joined (behind left rows.now))) (joined (behind left rows.now))) }
{
    let n = chunk_index(rows, key);
    let Some(entries) = entries_at(rows, left, n) else {
        return None;
    };
    let at = count_before(entries, key);
    last_after(rows, left, n, &entries[..at])
}

/// The last entry of chunks at or before the key.
pub(crate) fn last_by_among<'a, T: CopyValue>(
    rows: &'a [Chunk<T>],
    left: usize,
    key: &Key,
) -> Option<(&'a Key, &'a T)>
    requires rows { AreRows rows.now }
    requires left { IsBehind left rows.now }
    ensures { option_map (λ p. (p.0.now, p.1.now)) result ≡ last_of (take (place_past key.now (joined (behind left rows.now))) (joined (behind left rows.now))) }
{
    let n = chunk_index(rows, key);
    let Some(entries) = entries_at(rows, left, n) else {
        return None;
    };
    let at = count_past(entries, key);
    last_after(rows, left, n, &entries[..at])
}

/// The last of the entries, or of the first `n` chunks if there are none.
fn last_after<'a, T: CopyValue>(
    rows: &'a [Chunk<T>],
    left: usize,
    n: usize,
    entries: &'a [SharedEntry<T>],
) -> Option<(&'a Key, &'a T)>
    requires rows { AreRows rows.now }
    requires left { IsBehind left rows.now }
    requires bound { n ≤ length rows.now }
    ensures { option_map (λ p. (p.0.now, p.1.now)) result ≡ last_of (joined (take n (behind left rows.now)) ++ entries.now) }
{
    if !entries.is_empty() {
        return last_entry(entries);
    }
    if n == 0 {
        return None;
    }
    last_in(&rows[..n], left)
}

/// The last entry of chunks.
pub(crate) fn last_in<T: CopyValue>(rows: &[Chunk<T>], left: usize) -> Option<(&Key, &T)>
    requires rows { AreRows rows.now }
    requires left { IsBehind left rows.now }
    ensures { option_map (λ p. (p.0.now, p.1.now)) result ≡ last_of (joined (behind left rows.now)) }
{
    if rows.is_empty() {
        return None;
    }
    match entries_at(rows, left, rows.len() - 1) {
        None => None,
        Some(entries) => last_entry(entries),
    }
}

/// The last of the entries.
fn last_entry<T: CopyValue>(entries: &[SharedEntry<T>]) -> Option<(&Key, &T)>
    ensures { option_map (λ p. (p.0.now, p.1.now)) result ≡ last_of entries.now }
{
    match entries.last() {
        None => None,
        Some(item) => Some((item.key(), item.value())),
    }
}
