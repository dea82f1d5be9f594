//! Decides which of two lines is first, by the key of its entry and by the index of its block. A delta is correct whatever
//! the result is here. It is only short if lines of the same position meet.
ghost use Rattle.std.specs.Prelude.{◌≡◌, false, true};

use crate::line_cursor::LineCursor;
use pathkey::Path;
use std::alloc::Global;
use std::cmp::Ordering;
use textio::values::{read_number, read_path};
use textio::words::split_space;

/// Whether both cursors are after their last lines.
pub(crate) fn are_at_end(old: &LineCursor, new: &LineCursor) -> bool
    ensures old { result ≡ true → old.now.there ≡ false }
    ensures new { result ≡ true → new.now.there ≡ false }
{
    if old.there {
        return false;
    }
    !new.there
}

/// Whether both cursors are at equal lines.
pub(crate) fn is_same(old: &LineCursor, new: &LineCursor) -> bool
    ensures old { result ≡ true → old.now.there ≡ true }
    ensures new { result ≡ true → new.now.there ≡ true }
    ensures line { result ≡ true → new.now.line.items ≡ old.now.line.items }
{
    if !old.there || !new.there {
        return false;
    }
    new.line.as_slice() == old.line.as_slice()
}

/// Whether the line of the old image is deleted before the next line of the new one is written.
pub(crate) fn is_deleted(alloc: Global, old: &LineCursor, new: &LineCursor) -> bool
    ensures { result ≡ true → old.now.there ≡ true }
{
    if !old.there || is_same(old, new) {
        return false;
    }
    !new.there || is_first(alloc, old, new)
}

/// Whether the line of the new image is inserted before the next line of the old one is handled.
pub(crate) fn is_inserted(alloc: Global, old: &LineCursor, new: &LineCursor) -> bool
    ensures { result ≡ true → new.now.there ≡ true }
{
    if !new.there || is_same(old, new) {
        return false;
    }
    !old.there || !is_first(alloc, old, new)
}

// Whether the old line is not after the new one.
fn is_first(alloc: Global, old: &LineCursor, new: &LineCursor) -> bool {
    match compare_entries(alloc, old.entry.as_slice(), new.entry.as_slice()) {
        Ordering::Less => true,
        Ordering::Equal => rank(old.line.as_slice()) <= rank(new.line.as_slice()),
        Ordering::Greater => false,
    }
}

// Compares the keys of the entries of two lines.
fn compare_entries(alloc: Global, old: &[u8], new: &[u8]) -> Ordering {
    if old == new {
        return Ordering::Equal;
    }
    let Some(old) = path_in(alloc, old) else {
        return Ordering::Less;
    };
    let Some(new) = path_in(alloc, new) else {
        drop(old);
        return Ordering::Less;
    };
    let order = old.key().cmp(new.key());
    drop(old);
    drop(new);
    order
}

// Parses the path in the line of an entry.
fn path_in(alloc: Global, line: &[u8]) -> Option<Path> {
    let Some((_, rest)) = split_space(line) else {
        return None;
    };
    let Some((path, _)) = split_space(rest) else {
        return None;
    };
    read_path(alloc, path).ok()
}

// The position of a line among those of its entry: the entry's own line is first, then its blocks by index.
fn rank(line: &[u8]) -> u64 {
    let Some(rest) = line.strip_prefix(b"b ") else {
        return 0;
    };
    let Some((number, _)) = split_space(rest) else {
        return 0;
    };
    match read_number(number) {
        Some(number) => number.saturating_add(1),
        None => 0,
    }
}
