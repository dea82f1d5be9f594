//! The chunks of a map in order: which of them a key belongs to, how one is changed, and how chunks are split and merged.
//!
//! Invariant (`AreRows`): the keys of all chunks, concatenated, rise strictly, and each chunk has 1 to 128 entries. A split or a
//! merge does not change the concatenated entries.
ghost use Rattle.std.specs.Prelude.{◌≡◌, ◌+◌, ◌-◌, ◌<◌, ◌≤◌, ◌^◌, ◌++◌, ◌∷◌, [], length, take, drop, None, Some, OnOk, OnErr, IfOk, IfErr, IfNone, IfSome, true, false, vec_len, vec_capacity};
ghost use Rattle.std.specs.List.{insert, remove_range, slice_index_or, slice_set};
ghost use Rattle.cow_map.specs.Places.{AreBefore, AreFrom};
ghost use Rattle.cow_map.specs.CowMap.{joined, row_number, chunk_index, behind, AreRows, IsBehind};
ghost use Rattle.cow_map.specs.Changes.{IsRowChanged};

use crate::chunk::Chunk;
use crate::chunk_edit::{ChunkEdit, ExtractBetween, MergeChunk, Put, PutEntry, SplitOff};
use crate::search::count_before;
use crate::shared_entry::SharedEntry;
use crate::stored::CopyValue;
use pathkey::{Key, NoMemory};
use std::alloc::Global;
use std::cmp::Ordering;

/// The maximum number of entries of a chunk.
const MAX_ENTRIES: usize = 128;

/// The number of entries at which a chunk of a short list is split.
const SPLIT_AT: usize = 64;

/// The least number of chunks in a list whose chunks are split only when they are full: a new chunk moves all chunks after it, which
/// would cost more than longer chunks do.
const MANY: usize = 4096;

/// The number of entries at which a chunk is split, in a list of this many chunks.
fn split_size(chunks: usize) -> usize
    ensures some { 64 ≤ result }
    ensures full { result ≤ 128 }
{
    if chunks < MANY { SPLIT_AT } else { MAX_ENTRIES }
}

/// How many of the chunks begin at or before the key, up to the first that does not. The last chunk is compared first, since
/// keys often come in order; then it bisects. The bytes that the key shares with the chunks on either side are shared by all
/// chunks between them.
fn chunk_before<T: CopyValue>(rows: &[Chunk<T>], key: &Key) -> usize
    requires { AreRows rows.now }
    ensures number { result ≡ row_number key.now rows.now }
    ensures bound { result ≤ length rows.now }
{
    if rows.is_empty() {
        return 0;
    }
    let last = rows.len() - 1;
    let (order, shared) = rows[last].cmp_from(key, 0);
    if order.is_le() {
        return rows.len();
    }
    let (mut low, mut high) = (0, last);
    let (mut below, mut above) = (0, shared);
    while low < high {
        let at = low + (high - low) / 2;
        let (order, same) = rows[at].cmp_from(key, below.min(above));
        match order {
            Ordering::Less => {
                low = at + 1;
                below = same;
            }
            Ordering::Equal => return at + 1,
            Ordering::Greater => {
                high = at;
                above = same;
            }
        }
    }
    low
}

/// The index of the chunk to which the key belongs.
pub(crate) fn chunk_index<T: CopyValue>(rows: &[Chunk<T>], key: &Key) -> usize
    requires { AreRows rows.now }
    ensures number { result ≡ chunk_index key.now rows.now }
    ensures bound { 0 < length rows.now → result < length rows.now }
    ensures within { result ≤ length rows.now }
{
    let Some((_, later)) = rows.split_first() else {
        return 0;
    };
    chunk_before(later, key)
}

/// Changes the entries of the chunk at this index. If an allocation fails the change is returned.
pub(crate) fn edit_chunk<T: CopyValue, C: ChunkEdit<T>>(
    rows: &mut Vec<Chunk<T>>,
    n: usize,
    change: C,
) -> Result<C::Answer, C>
    requires bound { n < length rows.old.items }
    requires fits { C.fits change (slice_index_or rows.old.items n []) }
    ensures changed { IfOk result (λ answer. IsRowChanged (C.does change) n rows.old.items rows.new.items answer) }
    ensures err { OnErr result (rows.new.items ≡ rows.old.items) }
    ensures back { IfErr result (λ c. c ≡ change) }
    ensures len { vec_len rows.new ≡ vec_len rows.old }
    ensures room { vec_capacity rows.new ≡ vec_capacity rows.old }
{
    let row = &mut rows[n];
    row.change(change)
}

/// Adds a first chunk of one entry. If an allocation fails the entry is returned.
pub(crate) fn begin<T: CopyValue>(
    rows: &mut Vec<Chunk<T>>,
    key: Key,
    value: T,
) -> Result<(), (Key, T)>
    requires { rows.old.items ≡ [] }
    ensures rows { AreRows rows.new.items }
    ensures entries { OnOk result (joined rows.new.items ≡ (key, value) ∷ []) }
    ensures err { OnErr result (rows.new.items ≡ rows.old.items) }
    ensures back { IfErr result (λ p. p ≡ (key, value)) }
{
    if rows.reserve(1).is_err() {
        return Err((key, value));
    }
    let row = row_with(*rows.allocator(), key, value)?;
    rows.push_reserved(row);
    Ok(())
}

/// Adds a first chunk of one shared entry. If an allocation fails the entry is returned.
pub(crate) fn begin_item<T: CopyValue>(
    rows: &mut Vec<Chunk<T>>,
    item: SharedEntry<T>,
) -> Result<(), SharedEntry<T>>
    requires { rows.old.items ≡ [] }
    ensures rows { AreRows rows.new.items }
    ensures entries { OnOk result (joined rows.new.items ≡ item ∷ []) }
    ensures err { OnErr result (rows.new.items ≡ rows.old.items) }
    ensures back { IfErr result (λ i. i ≡ item) }
{
    if rows.reserve(1).is_err() {
        return Err(item);
    }
    let row = row_of(*rows.allocator(), item)?;
    rows.push_reserved(row);
    Ok(())
}

/// A chunk of one entry. If an allocation fails the entry is returned.
fn row_with<T: CopyValue>(alloc: Global, key: Key, value: T) -> Result<Chunk<T>, (Key, T)>
    ensures row { IfOk result (λ r. r ≡ (key, value) ∷ []) }
    ensures back { IfErr result (λ p. p ≡ (key, value)) }
{
    let Ok(row) = Chunk::new(alloc) else {
        return Err((key, value));
    };
    let mut row = row;
    match row.change(Put { key, value }) {
        Ok(Ok(_)) => Ok(row),
        Ok(Err(refused)) => Err(refused),
        Err(Put { key, value }) => Err((key, value)),
    }
}

/// A chunk of one shared entry. If an allocation fails the entry is returned.
fn row_of<T: CopyValue>(alloc: Global, item: SharedEntry<T>) -> Result<Chunk<T>, SharedEntry<T>>
    ensures row { IfOk result (λ r. r ≡ item ∷ []) }
    ensures back { IfErr result (λ i. i ≡ item) }
{
    let Ok(row) = Chunk::new(alloc) else {
        return Err(item);
    };
    let mut row = row;
    match row.change(PutEntry { item }) {
        Ok(Ok(_)) => Ok(row),
        Ok(Err(refused)) => Err(refused),
        Err(PutEntry { item }) => Err(item),
    }
}

/// Splits the chunk to which the key belongs if it has as many entries as a list of this length allows. Returns the index of the
/// chunk to which the key then belongs, and which has space for one more entry; `None` if the chunk is full and the split fails to
/// allocate.
pub(crate) fn split_long<T: CopyValue>(rows: &mut Vec<Chunk<T>>, key: &Key) -> Option<usize>
    requires rows { AreRows rows.old.items }
    requires some { 0 < length rows.old.items }
    ensures same { joined rows.new.items ≡ joined rows.old.items }
    ensures rows { AreRows rows.new.items }
    ensures number { IfSome result (λ n. n ≡ chunk_index key.now rows.new.items) }
    ensures bound { IfSome result (λ n. n < length rows.new.items) }
    ensures room { IfSome result (λ n. length (slice_index_or rows.new.items n []) < 128) }
{
    let found = chunk_with_space(rows.as_slice(), key, split_size(rows.len()));
    if found.is_some() {
        return found;
    }
    split_if_long(rows, key);
    chunk_with_space(rows.as_slice(), key, MAX_ENTRIES)
}

/// The index of the chunk to which the key belongs, if it has fewer than `most` entries.
fn chunk_with_space<T: CopyValue>(rows: &[Chunk<T>], key: &Key, most: usize) -> Option<usize>
    requires few { most ≤ 128 }
    requires rows { AreRows rows.now }
    requires some { 0 < length rows.now }
    ensures number { IfSome result (λ n. n ≡ chunk_index key.now rows.now) }
    ensures bound { IfSome result (λ n. n < length rows.now) }
    ensures room { IfSome result (λ n. length (slice_index_or rows.now n []) < 128) }
{
    let n = chunk_index(rows, key);
    if rows[n].entries().len() < most {
        Some(n)
    } else {
        None
    }
}

/// Splits the chunk to which the key belongs, if it has as many entries as a list of this length allows and no allocation fails.
fn split_if_long<T: CopyValue>(rows: &mut Vec<Chunk<T>>, key: &Key)
    requires rows { AreRows rows.old.items }
    requires some { 0 < length rows.old.items }
    ensures same { joined rows.new.items ≡ joined rows.old.items }
    ensures rows { AreRows rows.new.items }
    ensures some { 0 < length rows.new.items }
{
    let n = chunk_index(rows.as_slice(), key);
    let len = rows[n].entries().len();
    if len < split_size(rows.len()) {
        return;
    }
    let at = middle(&rows[n], key);
    let _ = split_chunk(rows, n, at);
}

/// The index at which a chunk is split: near its end if the key is after all keys, so that insertions in key order leave
/// chunks nearly full.
fn middle<T: CopyValue>(row: &Chunk<T>, key: &Key) -> usize
    requires { 64 ≤ length row.now }
    ensures some { 0 < result }
    ensures others { result < length row.now }
{
    let entries = row.entries();
    let len = entries.len();
    if entries[len - 1].is_before(key) {
        return len - SPLIT_AT / 8;
    }
    len / 2
}

/// Moves the entries of a chunk from index `at` on to a new chunk after it. If an allocation fails the chunks are unchanged.
fn split_chunk<T: CopyValue>(rows: &mut Vec<Chunk<T>>, n: usize, at: usize) -> Result<(), NoMemory>
    requires rows { AreRows rows.old.items }
    requires row { n < length rows.old.items }
    requires some { 0 < at }
    requires others { at < length (slice_index_or rows.old.items n []) }
    ensures same { joined rows.new.items ≡ joined rows.old.items }
    ensures rows { AreRows rows.new.items }
    ensures some { 0 < length rows.new.items }
    ensures front { OnOk result (joined (take (n + 1) rows.new.items) ≡ joined (take n rows.old.items) ++ take at (slice_index_or rows.old.items n [])) }
    ensures back { OnOk result (joined (drop (n + 1) rows.new.items) ≡ drop at (slice_index_or rows.old.items n []) ++ joined (drop (n + 1) rows.old.items)) }
    ensures number { OnOk result (n < length rows.new.items) }
    ensures one { length rows.new.items ≤ length rows.old.items + 1 }
    ensures capacity { vec_capacity rows.old ≤ vec_capacity rows.new }
{
    rows.reserve(1)?;
    let back = split_tail(rows, n, at)?;
    let Ok(()) = rows.insert(n + 1, back) else {
        unreachable!()
    };
    Ok(())
}

/// Moves the entries of a chunk from index `at` on out of it.
fn split_tail<T: CopyValue>(
    rows: &mut Vec<Chunk<T>>,
    n: usize,
    at: usize,
) -> Result<Chunk<T>, NoMemory>
    requires row { n < length rows.old.items }
    requires entry { at ≤ length (slice_index_or rows.old.items n []) }
    ensures front { OnOk result (rows.new.items ≡ slice_set rows.old.items n (take at (slice_index_or rows.old.items n []))) }
    ensures back { IfOk result (λ r. r ≡ drop at (slice_index_or rows.old.items n [])) }
    ensures err { OnErr result (rows.new.items ≡ rows.old.items) }
    ensures len { vec_len rows.new ≡ vec_len rows.old }
    ensures room { vec_capacity rows.new ≡ vec_capacity rows.old }
{
    match edit_chunk(rows, n, SplitOff { at }) {
        Ok(answer) => answer,
        Err(_) => Err(NoMemory),
    }
}

/// Moves the entries of a chunk from one index up to another out of it.
pub(crate) fn extract_between<T: CopyValue>(
    rows: &mut Vec<Chunk<T>>,
    n: usize,
    from: usize,
    to: usize,
) -> Result<Chunk<T>, NoMemory>
    requires row { n < length rows.old.items }
    requires order { from ≤ to }
    requires bound { to ≤ length (slice_index_or rows.old.items n []) }
    ensures kept { OnOk result (rows.new.items ≡ slice_set rows.old.items n (remove_range (slice_index_or rows.old.items n []) from to)) }
    ensures taken { IfOk result (λ r. r ≡ take (to - from) (drop from (slice_index_or rows.old.items n []))) }
    ensures err { OnErr result (rows.new.items ≡ rows.old.items) }
{
    match edit_chunk(rows, n, ExtractBetween { from, to }) {
        Ok(answer) => answer,
        Err(_) => Err(NoMemory),
    }
}

/// Moves the entries at or after the key to chunks of their own. If an allocation fails the entries are unchanged.
pub(crate) fn split_chunks_at<T: CopyValue>(
    rows: &mut Vec<Chunk<T>>,
    key: &Key,
) -> Result<Vec<Chunk<T>>, NoMemory>
    requires { AreRows rows.old.items }
    ensures parts { IfOk result (λ back. joined rows.old.items ≡ joined rows.new.items ++ joined back.items) }
    ensures rows { AreRows rows.new.items }
    ensures back_rows { IfOk result (λ back. AreRows back.items) }
    ensures front { OnOk result (AreBefore key.now (joined rows.new.items)) }
    ensures back { IfOk result (λ back. AreFrom key.now (joined back.items)) }
    ensures err { OnErr result (joined rows.new.items ≡ joined rows.old.items) }
    ensures few { IfOk result (λ back. length rows.new.items + length back.items ≤ length rows.old.items + 1) }
    ensures one { length rows.new.items ≤ length rows.old.items + 1 }
    ensures capacity { vec_capacity rows.old ≤ vec_capacity rows.new }
{
    let m = split_at(rows, key)?;
    let back = rows.split_off(m)?;
    Ok(back)
}

/// Splits the chunk that has entries on both sides of the key, if there is one, and returns the index from which on the chunks
/// are at or after the key.
fn split_at<T: CopyValue>(rows: &mut Vec<Chunk<T>>, key: &Key) -> Result<usize, NoMemory>
    requires { AreRows rows.old.items }
    ensures same { joined rows.new.items ≡ joined rows.old.items }
    ensures rows { AreRows rows.new.items }
    ensures bound { IfOk result (λ m. m ≤ length rows.new.items) }
    ensures front { IfOk result (λ m. AreBefore key.now (joined (take m rows.new.items))) }
    ensures back { IfOk result (λ m. AreFrom key.now (joined (drop m rows.new.items))) }
    ensures one { length rows.new.items ≤ length rows.old.items + 1 }
    ensures capacity { vec_capacity rows.old ≤ vec_capacity rows.new }
{
    let n = chunk_index(rows.as_slice(), key);
    let Some(row) = rows.get(n) else {
        return Ok(n);
    };
    let entries = row.entries();
    let at = count_before(entries, key);
    if at == 0 {
        return Ok(n);
    }
    if at == entries.len() {
        return Ok(n + 1);
    }
    split_chunk(rows, n, at)?;
    Ok(n + 1)
}

/// Merges two adjacent chunks that have few entries, if no allocation fails.
pub(crate) fn merge_small<T: CopyValue>(rows: &mut Vec<Chunk<T>>, m: usize)
    requires { AreRows rows.old.items }
    ensures rows { AreRows rows.new.items }
    ensures same { joined rows.new.items ≡ joined rows.old.items }
{
    if m == 0 || m >= rows.len() {
        return;
    }
    if rows[m - 1].entries().len() + rows[m].entries().len() <= SPLIT_AT / 2 {
        merge_chunks(rows, m);
    }
}

/// Appends the entries of a chunk to the chunk before it, if no allocation fails.
fn merge_chunks<T: CopyValue>(rows: &mut Vec<Chunk<T>>, m: usize)
    requires rows { AreRows rows.old.items }
    requires first { 0 < m }
    requires bound { m < length rows.old.items }
    requires few { length (slice_index_or rows.old.items (m - 1) []) + length (slice_index_or rows.old.items m []) ≤ 128 }
    ensures rows { AreRows rows.new.items }
    ensures same { joined rows.new.items ≡ joined rows.old.items }
{
    let row = rows.remove(m);
    if let Some(row) = put_behind(rows, m - 1, row) {
        put_at(rows, m, row);
    }
}

/// Appends the entries of a chunk to the chunk at this index. If an allocation fails the chunk is returned.
fn put_behind<T: CopyValue>(rows: &mut Vec<Chunk<T>>, n: usize, row: Chunk<T>) -> Option<Chunk<T>>
    requires { n < length rows.old.items }
    ensures joined { IfNone result (rows.new.items ≡ slice_set rows.old.items n (slice_index_or rows.old.items n [] ++ row)) }
    ensures same { IfSome result (λ _. rows.new.items ≡ rows.old.items) }
    ensures back { IfSome result (λ r. r ≡ row) }
    ensures len { vec_len rows.new ≡ vec_len rows.old }
    ensures room { vec_capacity rows.new ≡ vec_capacity rows.old }
{
    match edit_chunk(rows, n, MergeChunk { row }) {
        Ok(Ok(())) => None,
        Ok(Err(row)) => Some(row),
        Err(MergeChunk { row }) => Some(row),
    }
}

/// Inserts a chunk at its index, for which there is capacity.
fn put_at<T: CopyValue>(rows: &mut Vec<Chunk<T>>, m: usize, row: Chunk<T>)
    requires bound { m ≤ length rows.old.items }
    requires room { vec_len rows.old < vec_capacity rows.old }
    ensures { rows.new.items ≡ insert rows.old.items m row }
{
    let Ok(()) = rows.insert(m, row) else {
        unreachable!()
    };
}

/// The entries of the chunk at this index, without the first `left` of the first chunk.
#[inline(always)]
pub(crate) fn entries_at<'a, T: CopyValue>(
    rows: &'a [Chunk<T>],
    left: usize,
    n: usize,
) -> Option<&'a [SharedEntry<T>]>
    requires { IsBehind left rows.now }
    ensures bound { IfSome result (λ es. n < length rows.now) }
    ensures entries { IfSome result (λ es. es.now ≡ slice_index_or (behind left rows.now) n []) }
    ensures none { IfNone result (length rows.now ≤ n) }
{
    let Some(row) = rows.get(n) else {
        return None;
    };
    if n == 0 {
        return Some(&row.entries()[left..]);
    }
    Some(row.entries())
}

/// Whether the chunks have no entries.
pub(crate) fn has_none<T: CopyValue>(rows: &[Chunk<T>], left: usize) -> bool
    requires { IsBehind left rows.now }
    ensures yes { result ≡ true → joined (behind left rows.now) ≡ [] }
    ensures no { result ≡ false → 0 < length (joined (behind left rows.now)) }
{
    match entries_at(rows, left, 0) {
        None => true,
        Some(_) => false,
    }
}

/// The total number of entries of the chunks, without the first `left` of the first one.
pub(crate) fn entries_in<T: CopyValue>(rows: &[Chunk<T>], left: usize) -> usize
    requires left { IsBehind left rows.now }
    requires len { length (joined (behind left rows.now)) < 2 ^ 64 }
    ensures { result ≡ length (joined (behind left rows.now)) }
{
    match rows.split_first() {
        None => 0,
        Some((row, later)) => (row.entries().len() - left) + count_entries(later),
    }
}

/// The total number of entries of the chunks.
fn count_entries<T: CopyValue>(rows: &[Chunk<T>]) -> usize
    requires { length (joined rows.now) < 2 ^ 64 }
    ensures { result ≡ length (joined rows.now) }
{
    let mut count = 0;
    for row in rows {
        count += row.entries().len();
    }
    count
}

/// How many chunks have only entries among the first `count`, and how many of these entries are in the chunk after them.
pub(crate) fn whole_rows<T: CopyValue>(rows: &[Chunk<T>], count: usize) -> (usize, usize)
    requires { count ≤ length (joined rows.now) }
    ensures rows { result.0 ≤ length rows.now }
    ensures left { result.1 ≤ length (joined (drop result.0 rows.now)) }
    ensures same { drop count (joined rows.now) ≡ drop result.1 (joined (drop result.0 rows.now)) }
    ensures within { 0 < result.1 → (result.0 < length rows.now) × (result.1 < length (slice_index_or rows.now result.0 [])) }
{
    let mut left = count;
    let mut n = 0;
    while n < rows.len() && rows[n].entries().len() <= left {
        left -= rows[n].entries().len();
        n += 1;
    }
    (n, left)
}

/// Drops the first entries of the first chunk, which has more. It allocates nothing.
pub(crate) fn drop_front_of_first<T: CopyValue>(rows: &mut Vec<Chunk<T>>, count: usize)
    requires rows { AreRows rows.old.items }
    requires some { 0 < length rows.old.items }
    requires more { count < length (slice_index_or rows.old.items 0 []) }
    ensures rows { AreRows rows.new.items }
    ensures entries { joined rows.new.items ≡ drop count (joined rows.old.items) }
{
    let row = &mut rows[0];
    row.drop_front(count);
}

/// Clones the chunks; both lists then share the entries.
pub(crate) fn share_rows<T: CopyValue>(
    rows: &[Chunk<T>],
    alloc: Global,
) -> Result<Vec<Chunk<T>>, NoMemory>
    ensures { IfOk result (λ shared. shared.items ≡ rows.now) }
{
    let mut shared = Vec::with_capacity(alloc, rows.len())?;
    for row in rows {
        shared.push(row.share()?)?;
    }
    Ok(shared)
}
