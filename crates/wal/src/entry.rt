//! The entries of a record's body: each is a change, encoded as six numbers and two texts. `docs/FORMATS.md` has their
//! format.
//!
//! An entry has the lengths of its texts, so no entry is a prefix of another, and a body has only one list of entries.
ghost use Rattle.std.specs.Prelude.{◌≡◌, ◌<◌, ◌++◌, IfSome, MatchOption, length};
ghost use Rattle.wal.specs.Entries.{IsHead, IsWord, LacksEntry, entry, numbers};

use crate::u64_le::split_u64;

/// The numbers of an entry.
#[derive(Clone, Copy)]
pub(crate) struct EntryHeader {
    /// The kind of the change.
    pub(crate) kind: u64,
    /// Its timestamp.
    pub(crate) at: u64,
    /// An offset or a length.
    pub(crate) offset: u64,
    /// A number of bytes.
    pub(crate) count: u64,
}

// Splits the first entry off the bytes: its numbers, its two texts, and the rest. Returns `None` if the bytes do not begin
// with an entry.
pub(crate) fn split_entry(bytes: &[u8]) -> Option<(EntryHeader, &[u8], &[u8], &[u8])>
    ensures shorter { IfSome result (λ cut. length cut.3.now < length bytes.now) }
    ensures is { MatchOption result (LacksEntry bytes.now) (λ cut. bytes.now ≡ entry cut.0 cut.1.now cut.2.now ++ cut.3.now) }
    ensures fits { IfSome result (λ cut. IsHead cut.0 × IsWord (length cut.1.now) × IsWord (length cut.2.now)) }
{
    let Some((head, rest)) = split_header(bytes) else {
        return None;
    };
    let Some((first_len, rest)) = split_u64(rest) else {
        return None;
    };
    let Some((second_len, rest)) = split_u64(rest) else {
        return None;
    };
    let Some((first, rest)) = cut_at(rest, first_len) else {
        return None;
    };
    let Some((second, rest)) = cut_at(rest, second_len) else {
        return None;
    };
    Some((head, first, second, rest))
}

// Splits the numbers of an entry off the bytes. Returns `None` if there are too few bytes.
fn split_header(bytes: &[u8]) -> Option<(EntryHeader, &[u8])>
    ensures is { MatchOption result (length bytes.now < 32) (λ cut. bytes.now ≡ numbers cut.0 ++ cut.1.now) }
    ensures fits { IfSome result (λ cut. IsHead cut.0) }
{
    let Some((kind, rest)) = split_u64(bytes) else {
        return None;
    };
    let Some((at, rest)) = split_u64(rest) else {
        return None;
    };
    let Some((offset, rest)) = split_u64(rest) else {
        return None;
    };
    let Some((count, rest)) = split_u64(rest) else {
        return None;
    };
    let head = EntryHeader {
        kind,
        at,
        offset,
        count,
    };
    Some((head, rest))
}

// Splits `len` bytes off. Returns `None` if there are too few bytes.
pub(crate) fn cut_at(bytes: &[u8], len: u64) -> Option<(&[u8], &[u8])>
    ensures { MatchOption result (length bytes.now < len) (λ cut. (bytes.now ≡ cut.0.now ++ cut.1.now) × (length cut.0.now ≡ len)) }
{
    if len > bytes.len() as u64 {
        return None;
    }
    Some(bytes.split_at(len as usize))
}
