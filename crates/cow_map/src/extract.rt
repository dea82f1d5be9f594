//! Extracts the entries of a range from chunks.
//!
//! If the range begins and ends within one chunk that has other entries too, only that chunk changes. Otherwise the chunks are
//! split at both ends, and what is before the range is joined with what is after it.
ghost use Rattle.std.specs.Prelude.{◌≡◌, ◌+◌, ◌≤◌, ◌++◌, not, length, OnOk, OnErr, IfOk, IfSome, vec_len, vec_capacity};
ghost use Rattle.std.specs.List.{filter};
ghost use Rattle.std.specs.Option.{option_copied};
ghost use Rattle.pathkey.specs.Keys.{is_in};
ghost use Rattle.cow_map.specs.Places.{AreBelow, AreBeyond};
ghost use Rattle.cow_map.specs.CowMap.{joined, AreRows};
ghost use Rattle.cow_map.specs.Spans.{IsSpan};

use crate::chunk::Chunk;
use crate::chunks::{chunk_index, extract_between, merge_small, split_chunks_at};
use crate::search::count_before;
use crate::stored::CopyValue;
use pathkey::{Key, KeyRange, NoMemory};

/// Extracts the entries in the range. If an allocation fails the entries are unchanged.
pub(crate) fn extract_range<T: CopyValue>(
    rows: &mut Vec<Chunk<T>>,
    range: &KeyRange,
) -> Result<Vec<Chunk<T>>, NoMemory>
    requires { AreRows rows.old.items }
    ensures rows { AreRows rows.new.items }
    ensures out_rows { IfOk result (λ out. AreRows out.items) }
    ensures kept { OnOk result (joined rows.new.items ≡ filter (λ e. not (is_in range.now e.0)) (joined rows.old.items)) }
    ensures taken { IfOk result (λ out. joined out.items ≡ filter (λ e. is_in range.now e.0) (joined rows.old.items)) }
    ensures err { OnErr result (joined rows.new.items ≡ joined rows.old.items) }
{
    let Some((n, from, to)) = span_of(rows.as_slice(), range) else {
        return extract_split(rows, range);
    };
    if from == to {
        return Ok(Vec::new(*rows.allocator()));
    }
    let mut out = Vec::with_capacity(*rows.allocator(), 1)?;
    out.push_reserved(extract_between(rows, n, from, to)?);
    Ok(out)
}

/// The span of a range within one chunk that also has other entries: the index of the chunk, and the indexes of its entries
/// from which on and up to which they are in the range.
fn span_of<T: CopyValue>(rows: &[Chunk<T>], range: &KeyRange) -> Option<(usize, usize, usize)>
    requires { AreRows rows.now }
    ensures { IfSome result (λ s. IsSpan range.now s.0 s.1 s.2 rows.now) }
{
    let Some(end) = &range.hi else {
        return None;
    };
    let n = chunk_index(rows, &range.lo);
    let Some(row) = rows.get(n) else {
        return None;
    };
    if chunk_index(rows, end) != n {
        return None;
    }
    let entries = row.entries();
    let from = count_before(entries, &range.lo);
    let to = count_before(entries, end);
    if to < from {
        return None;
    }
    let count = to - from;
    if count >= entries.len() {
        return None;
    }
    Some((n, from, to))
}

/// Like [`extract_range`], but splits the chunks at both ends of the range.
fn extract_split<T: CopyValue>(
    rows: &mut Vec<Chunk<T>>,
    range: &KeyRange,
) -> Result<Vec<Chunk<T>>, NoMemory>
    requires { AreRows rows.old.items }
    ensures rows { AreRows rows.new.items }
    ensures out_rows { IfOk result (λ out. AreRows out.items) }
    ensures kept { OnOk result (joined rows.new.items ≡ filter (λ e. not (is_in range.now e.0)) (joined rows.old.items)) }
    ensures taken { IfOk result (λ out. joined out.items ≡ filter (λ e. is_in range.now e.0) (joined rows.old.items)) }
    ensures err { OnErr result (joined rows.new.items ≡ joined rows.old.items) }
{
    rows.reserve(2)?;
    let mut out = split_chunks_at(rows, &range.lo)?;
    let seam = rows.len();
    match split_off_end(&mut out, range.hi.as_ref()) {
        Ok(later) => {
            put_behind(rows, later);
            merge_small(rows, seam);
            Ok(out)
        }
        Err(refused) => {
            put_behind(rows, out);
            Err(refused)
        }
    }
}

/// Moves the entries at or after `end` to chunks of their own; `None` is unbounded.
fn split_off_end<T: CopyValue>(
    rows: &mut Vec<Chunk<T>>,
    end: Option<&Key>,
) -> Result<Vec<Chunk<T>>, NoMemory>
    requires { AreRows rows.old.items }
    ensures parts { IfOk result (λ back. joined rows.old.items ≡ joined rows.new.items ++ joined back.items) }
    ensures rows { AreRows rows.new.items }
    ensures back_rows { IfOk result (λ back. AreRows back.items) }
    ensures front { OnOk result (AreBelow (option_copied end.entry) (joined rows.new.items)) }
    ensures back { IfOk result (λ back. AreBeyond (option_copied end.entry) (joined back.items)) }
    ensures err { OnErr result (joined rows.new.items ≡ joined rows.old.items) }
    ensures few { IfOk result (λ back. length back.items ≤ length rows.old.items + 1) }
    ensures one { length rows.new.items ≤ length rows.old.items + 1 }
{
    match end {
        None => Ok(Vec::new(*rows.allocator())),
        Some(end) => split_chunks_at(rows, end),
    }
}

/// Appends chunks, for which there is capacity.
fn put_behind<T: CopyValue>(rows: &mut Vec<Chunk<T>>, later: Vec<Chunk<T>>)
    requires { vec_len rows.old + vec_len later ≤ vec_capacity rows.old }
    ensures { rows.new.items ≡ rows.old.items ++ later.items }
{
    let mut later = later;
    let Ok(()) = rows.append(&mut later) else {
        unreachable!()
    };
}
