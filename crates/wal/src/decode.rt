//! Decodes the body of a record into its entries. `docs/FORMATS.md` has the format of entries.
//!
//! A body is valid if and only if it is the encoding of a list of entries: any other bytes fail with EINVAL as a whole,
//! and nothing is skipped.
ghost use Rattle.std.specs.Prelude.{◌≡◌, ◌≢◌, ◌⊎◌, ◌++◌, ◌∷◌, MatchResult, OnOk, []};
ghost use Rattle.pathkey.specs.declared.errno.Errno.TheVariants.{EINVAL, ENOMEM};
ghost use Rattle.wal.specs.Entries.{IsNoName, IsNoTarget, IsNoText, ReadsEntry, RefusesBody, Refuses, body_of, has_no_numbers, keeping_kind, path_kind, word};
ghost use Rattle.pathkey.specs.Texts.{text_of};

use crate::entry::{EntryHeader, split_entry};
use crate::u64_le::split_u64;
use crate::wal_entry::{SnapshotCall, WalEntry};
use bytes::Bytes;
use pathkey::{Errno, NoMemory, Path, SnapName};
use reference::PathCall;
use std::alloc::Global;

/// Decodes the body of a record into its changes. Fails with EINVAL if the bytes are not a list of entries, and with ENOMEM
/// if an allocation fails.
pub fn decode_entries(alloc: Global, body: &[u8]) -> Result<Vec<WalEntry>, Errno>
    ensures { MatchResult result (λ changes. body.now ≡ body_of changes.items) (λ e. RefusesBody body.now e) }
{
    let mut changes = Vec::new(alloc);
    let mut rest = body;
    while !rest.is_empty() {
        let Some((head, first, second, behind)) = split_entry(rest) else {
            return Err(Errno::EINVAL);
        };
        match read_entry(alloc, head, first, second) {
            Ok(change) => push(&mut changes, change)?,
            Err(fault) => return Err(fault),
        }
        rest = behind;
    }
    Ok(changes)
}

// Appends a change to the list.
fn push(changes: &mut Vec<WalEntry>, change: WalEntry) -> Result<(), NoMemory>
    ensures { OnOk result (changes.new.items ≡ changes.old.items ++ change ∷ []) }
{
    changes.push(change)?;
    Ok(())
}

// Decodes one entry, given its numbers and its two texts.
fn read_entry(
    alloc: Global,
    head: EntryHeader,
    first: &[u8],
    second: &[u8],
) -> Result<WalEntry, Errno>
    ensures { ReadsEntry head first.now second.now result }
{
    match head.kind {
        1 => decode_path_call(alloc, PathCall::Mkdir, head, first, second),
        2 => decode_path_call(alloc, PathCall::Create, head, first, second),
        3 => decode_path_call(alloc, PathCall::Unlink, head, first, second),
        4 => decode_path_call(alloc, PathCall::Rmdir, head, first, second),
        5 => decode_path_call(alloc, PathCall::Rmtree, head, first, second),
        6 => read_rename(alloc, head, first, second),
        7 => read_truncate(alloc, head, first, second),
        8 => read_write(alloc, head, first, second),
        9 => read_punch(alloc, head, first, second),
        10 => decode_snapshot_call(alloc, SnapshotCall::Snapshot, head, first, second),
        11 => decode_snapshot_call(alloc, SnapshotCall::Remove, head, first, second),
        12 => decode_snapshot_call(alloc, SnapshotCall::Restore, head, first, second),
        13 => read_mtime(alloc, head, first, second),
        14 => read_copy_range(alloc, head, first, second),
        15 => read_edits(alloc, head, first, second),
        _ => Err(Errno::EINVAL),
    }
}

// Whether the entry's only number is its timestamp: offset and count are 0.
fn has_no_numbers(head: EntryHeader) -> bool
    ensures { result ≡ has_no_numbers head }
{
    head.offset == 0 && head.count == 0
}

// Decodes a call that creates or removes an entry at a path.
fn decode_path_call(
    alloc: Global,
    what: PathCall,
    head: EntryHeader,
    first: &[u8],
    second: &[u8],
) -> Result<WalEntry, Errno>
    requires { path_kind what ≡ head.kind }
    ensures { ReadsEntry head first.now second.now result }
{
    if !has_no_numbers(head) || !second.is_empty() {
        return Err(Errno::EINVAL);
    }
    let path = read_path(alloc, first)?;
    Ok(WalEntry::OnPath(what, path, head.at))
}

// Decodes a rename.
fn read_rename(
    alloc: Global,
    head: EntryHeader,
    first: &[u8],
    second: &[u8],
) -> Result<WalEntry, Errno>
    requires { 6 ≡ head.kind }
    ensures { ReadsEntry head first.now second.now result }
{
    if !has_no_numbers(head) {
        return Err(Errno::EINVAL);
    }
    let old = read_path(alloc, first)?;
    let new = read_path(alloc, second)?;
    Ok(WalEntry::Rename(old, new, head.at))
}

// Decodes a truncate.
fn read_truncate(
    alloc: Global,
    head: EntryHeader,
    first: &[u8],
    second: &[u8],
) -> Result<WalEntry, Errno>
    requires { 7 ≡ head.kind }
    ensures { ReadsEntry head first.now second.now result }
{
    if head.count != 0 || !second.is_empty() {
        return Err(Errno::EINVAL);
    }
    let path = read_path(alloc, first)?;
    Ok(WalEntry::Truncate(path, head.offset, head.at))
}

// Decodes a write.
fn read_write(
    alloc: Global,
    head: EntryHeader,
    first: &[u8],
    second: &[u8],
) -> Result<WalEntry, Errno>
    requires { 8 ≡ head.kind }
    ensures { ReadsEntry head first.now second.now result }
{
    if head.count != 0 {
        return Err(Errno::EINVAL);
    }
    let path = read_path(alloc, first)?;
    let Ok(bytes) = Bytes::copy_from_slice(alloc, second) else {
        return Err(Errno::ENOMEM);
    };
    Ok(WalEntry::Write(path, head.offset, bytes, head.at))
}

// Decodes a punched hole.
fn read_punch(
    alloc: Global,
    head: EntryHeader,
    first: &[u8],
    second: &[u8],
) -> Result<WalEntry, Errno>
    requires { 9 ≡ head.kind }
    ensures { ReadsEntry head first.now second.now result }
{
    if !second.is_empty() {
        return Err(Errno::EINVAL);
    }
    let path = read_path(alloc, first)?;
    Ok(WalEntry::Punch(path, head.offset, head.count, head.at))
}

// Decodes the setting of an mtime.
fn read_mtime(
    alloc: Global,
    head: EntryHeader,
    first: &[u8],
    second: &[u8],
) -> Result<WalEntry, Errno>
    requires { 13 ≡ head.kind }
    ensures { ReadsEntry head first.now second.now result }
{
    if !second.is_empty() || !has_no_numbers(head) {
        return Err(Errno::EINVAL);
    }
    let path = read_path(alloc, first)?;
    Ok(WalEntry::SetMtime(path, head.at))
}

// Decodes a copied range.
fn read_copy_range(
    alloc: Global,
    head: EntryHeader,
    first: &[u8],
    second: &[u8],
) -> Result<WalEntry, Errno>
    requires { 14 ≡ head.kind }
    ensures { ReadsEntry head first.now second.now result }
{
    let from = read_path(alloc, first)?;
    let (target, to) = read_target(alloc, second)?;
    Ok(WalEntry::CopyRange(from, head.offset, to, target, head.count, head.at))
}

// Decodes a text of edits.
fn read_edits(
    alloc: Global,
    head: EntryHeader,
    first: &[u8],
    second: &[u8],
) -> Result<WalEntry, Errno>
    requires { 15 ≡ head.kind }
    ensures { ReadsEntry head first.now second.now result }
{
    if !second.is_empty() || head.at != 0 || !has_no_numbers(head) {
        return Err(Errno::EINVAL);
    }
    let Ok(text) = Bytes::copy_from_slice(alloc, first) else {
        return Err(Errno::ENOMEM);
    };
    Ok(WalEntry::Edits(text))
}

// Decodes a snapshot call.
fn decode_snapshot_call(
    alloc: Global,
    what: SnapshotCall,
    head: EntryHeader,
    first: &[u8],
    second: &[u8],
) -> Result<WalEntry, Errno>
    requires { keeping_kind what ≡ head.kind }
    ensures { ReadsEntry head first.now second.now result }
{
    if head.at != 0 || !has_no_numbers(head) || !second.is_empty() {
        return Err(Errno::EINVAL);
    }
    let name = read_name(alloc, first)?;
    Ok(WalEntry::Keep(what, name))
}

// Parses the text of a path. Fails with EINVAL if it is not the text of a path.
fn read_path(alloc: Global, text: &[u8]) -> Result<Path, Errno>
    ensures { MatchResult result (λ path. text_of path ≡ text.now) (Refuses (IsNoText text.now)) }
{
    match Path::parse(alloc, text) {
        Ok(path) => Ok(path),
        Err(fault) => Err(refusal(fault)),
    }
}

// Parses the second text of a copied range: the offset in the target, and the target's path. Fails with EINVAL if it is none.
fn read_target(alloc: Global, text: &[u8]) -> Result<(u64, Path), Errno>
    ensures { MatchResult result (λ target. word target.0 ++ text_of target.1 ≡ text.now) (Refuses (IsNoTarget text.now)) }
{
    let Some((offset, rest)) = split_u64(text) else {
        return Err(Errno::EINVAL);
    };
    let path = read_path(alloc, rest)?;
    Ok((offset, path))
}

// The error for a text that is not a path: ENOMEM stays, and each other error becomes EINVAL.
fn refusal(fault: Errno) -> Errno
    ensures { ((result ≡ EINVAL) × (fault ≢ ENOMEM)) ⊎ (result ≡ ENOMEM) }
{
    match fault {
        Errno::ENOMEM => Errno::ENOMEM,
        _ => Errno::EINVAL,
    }
}

// Parses the name of a snapshot. Fails with EINVAL if the text is not such a name.
fn read_name(alloc: Global, text: &[u8]) -> Result<SnapName, Errno>
    ensures { MatchResult result (λ name. name ≡ text.now) (Refuses (IsNoName text.now)) }
{
    SnapName::parse(alloc, text)
}
