//! Encodes changes, given as texts, into a buffer of the caller. `docs/FORMATS.md` has the format of entries.
//!
//! Each function returns the length of the encoding in bytes, and writes it only if the buffer is large enough for all of
//! it. Every encoding decodes to the same change.
ghost use Rattle.std.specs.Prelude.{◌≡◌, ◌++◌, IfErr, IfOk, Ok, OnOk, length};
ghost use Rattle.pathkey.specs.SnapNames.{snap_parsed};
ghost use Rattle.pathkey.specs.Texts.{parsed};
ghost use Rattle.pathkey.specs.declared.errno.Errno.TheVariants.{ENOMEM};
ghost use Rattle.wal.specs.Entries.{entry, entry_front, keeping_kind, numbers, path_kind, word};
ghost use Rattle.wal.specs.Records.{digest, front};
ghost use Rattle.wal.specs.Encode.{Checks, Encodes, EncodesBytes, asked, copied, encoded, moved};

use crate::entry::EntryHeader;
use crate::record::record_frame;
use crate::u64_le::push_u64;
use crate::wal_entry::{SnapshotCall, WalEntry};
use pathkey::{Errno, NoMemory, Path, SnapName};
use reference::PathCall;
use std::alloc::Global;

/// Encodes a call that creates or removes an entry at a path. Fails with the error of the path's text, or with ENOMEM.
pub fn encode_path_call(
    alloc: Global,
    what: PathCall,
    path: &[u8],
    at: u64,
    out: &mut [u8],
) -> Result<usize, Errno>
    ensures { Encodes (asked (λ p. WalEntry.OnPath what p at) (parsed path.now)) result out.old out.new }
{
    check_path(alloc, path)?;
    let head = EntryHeader {
        kind: path_kind(what),
        at,
        offset: 0,
        count: 0,
    };
    encode(alloc, head, path, &[], out)
}

/// Encodes a rename from the first path to the second. Fails with the error of a path's text, or with ENOMEM.
pub fn encode_rename(
    alloc: Global,
    old: &[u8],
    new: &[u8],
    at: u64,
    out: &mut [u8],
) -> Result<usize, Errno>
    ensures { Encodes (moved at (parsed old.now) (parsed new.now)) result out.old out.new }
{
    check_path(alloc, old)?;
    check_path(alloc, new)?;
    let head = EntryHeader {
        kind: 6,
        at,
        offset: 0,
        count: 0,
    };
    encode(alloc, head, old, new, out)
}

/// Encodes a truncate to the given length in bytes, which may also extend the file with zeros. Fails with the error of the
/// path's text, or with ENOMEM.
pub fn encode_truncate(
    alloc: Global,
    path: &[u8],
    length: u64,
    at: u64,
    out: &mut [u8],
) -> Result<usize, Errno>
    ensures { Encodes (asked (λ p. WalEntry.Truncate p length at) (parsed path.now)) result out.old out.new }
{
    check_path(alloc, path)?;
    let head = EntryHeader {
        kind: 7,
        at,
        offset: length,
        count: 0,
    };
    encode(alloc, head, path, &[], out)
}

/// Encodes a write of the bytes at the offset. Fails with the error of the path's text, or with ENOMEM.
pub fn encode_write(
    alloc: Global,
    path: &[u8],
    offset: u64,
    bytes: &[u8],
    at: u64,
    out: &mut [u8],
) -> Result<usize, Errno>
    ensures { Encodes (asked (λ p. WalEntry.Write p offset bytes.now at) (parsed path.now)) result out.old out.new }
{
    check_path(alloc, path)?;
    let head = EntryHeader {
        kind: 8,
        at,
        offset,
        count: 0,
    };
    encode(alloc, head, path, bytes, out)
}

/// Encodes a hole of `count` bytes at the offset. Fails with the error of the path's text, or with ENOMEM.
pub fn encode_punch(
    alloc: Global,
    path: &[u8],
    offset: u64,
    count: u64,
    at: u64,
    out: &mut [u8],
) -> Result<usize, Errno>
    ensures { Encodes (asked (λ p. WalEntry.Punch p offset count at) (parsed path.now)) result out.old out.new }
{
    check_path(alloc, path)?;
    let head = EntryHeader {
        kind: 9,
        at,
        offset,
        count,
    };
    encode(alloc, head, path, &[], out)
}

/// Encodes the setting of an mtime. Fails with the error of the path's text, or with ENOMEM.
pub fn encode_mtime(alloc: Global, path: &[u8], at: u64, out: &mut [u8]) -> Result<usize, Errno>
    ensures { Encodes (asked (λ p. WalEntry.SetMtime p at) (parsed path.now)) result out.old out.new }
{
    check_path(alloc, path)?;
    let head = EntryHeader {
        kind: 13,
        at,
        offset: 0,
        count: 0,
    };
    encode(alloc, head, path, &[], out)
}

/// Encodes a copy of `count` bytes from the first path and offset to the second. Fails with the error of a path's text, or
/// with ENOMEM.
pub fn encode_copy_range(
    alloc: Global,
    from: &[u8],
    offset: u64,
    to: &[u8],
    target: u64,
    count: u64,
    at: u64,
    out: &mut [u8],
) -> Result<usize, Errno>
    ensures { Encodes (copied offset target count at (parsed from.now) (parsed to.now)) result out.old out.new }
{
    check_path(alloc, from)?;
    check_path(alloc, to)?;
    let head = EntryHeader {
        kind: 14,
        at,
        offset,
        count,
    };
    let second = target_text(alloc, target, to)?;
    encode(alloc, head, from, second.as_slice(), out)
}

/// Encodes a snapshot call: take, remove or restore. Fails with the error of the name's text, or with ENOMEM.
pub fn encode_snapshot_call(
    alloc: Global,
    what: SnapshotCall,
    name: &[u8],
    out: &mut [u8],
) -> Result<usize, Errno>
    ensures { Encodes (asked (λ s. WalEntry.Keep what s) (snap_parsed name.now)) result out.old out.new }
{
    let parsed = SnapName::parse(alloc, name)?;
    let head = EntryHeader {
        kind: keeping_kind(what),
        at: 0,
        offset: 0,
        count: 0,
    };
    encode(alloc, head, parsed.as_bytes(), &[], out)
}

/// Encodes a text of edits, which may be any bytes. Fails only with ENOMEM.
pub fn encode_edits(alloc: Global, text: &[u8], out: &mut [u8]) -> Result<usize, Errno>
    ensures { Encodes (Ok (WalEntry.Edits text.now)) result out.old out.new }
{
    let head = EntryHeader {
        kind: 15,
        at: 0,
        offset: 0,
        count: 0,
    };
    encode(alloc, head, text, &[], out)
}

/// Encodes what surrounds the body of the record with this number in a log with this salt: the 24 bytes of the header and the
/// 32 bytes of the digest after the body. Fails only with ENOMEM.
pub fn encode_frame(
    alloc: Global,
    salt: &[u8],
    number: u64,
    body: &[u8],
    out: &mut [u8],
) -> Result<usize, Errno>
    ensures bytes { EncodesBytes (front salt.now number (length body.now) ++ digest salt.now number body.now) result out.old out.new }
    ensures refused { IfErr result (λ e. e ≡ ENOMEM) }
{
    let ends = record_frame(alloc, salt, number, body)?;
    Ok(encode_two(ends.as_slice(), &[], out))
}

// Checks that a text is a path.
fn check_path(alloc: Global, text: &[u8]) -> Result<(), Errno>
    ensures { Checks text.now (parsed text.now) result }
{
    let _path = Path::parse(alloc, text)?;
    Ok(())
}

// The second text of a copied range: the offset in the target, and the target's path.
fn target_text(alloc: Global, target: u64, to: &[u8]) -> Result<Vec<u8>, NoMemory>
    ensures { IfOk result (λ text. text.items ≡ word target ++ to.now) }
{
    let mut text = Vec::with_capacity(alloc, 128)?;
    push_u64(&mut text, target)?;
    text.extend_from_slice(to)?;
    Ok(text)
}

// The kind of the entry of a path call.
fn path_kind(what: PathCall) -> u64
    ensures { result ≡ path_kind what }
{
    match what {
        PathCall::Mkdir => 1,
        PathCall::Create => 2,
        PathCall::Unlink => 3,
        PathCall::Rmdir => 4,
        PathCall::Rmtree => 5,
    }
}

fn keeping_kind(what: SnapshotCall) -> u64
    ensures { result ≡ keeping_kind what }
{
    match what {
        SnapshotCall::Snapshot => 10,
        SnapshotCall::Remove => 11,
        SnapshotCall::Restore => 12,
    }
}

// Copies an entry to the start of the buffer, if the buffer is large enough. Returns the length of the entry in bytes.
fn encode(
    alloc: Global,
    head: EntryHeader,
    first: &[u8],
    second: &[u8],
    out: &mut [u8],
) -> Result<usize, Errno>
    ensures bytes { EncodesBytes (entry head first.now second.now) result out.old out.new }
    ensures refused { IfErr result (λ e. e ≡ ENOMEM) }
{
    let front = front_of(alloc, head, first, second.len() as u64)?;
    Ok(encode_two(front.as_slice(), second, out))
}

// An entry up to its second text.
fn front_of(
    alloc: Global,
    head: EntryHeader,
    first: &[u8],
    second_len: u64,
) -> Result<Vec<u8>, NoMemory>
    ensures { IfOk result (λ front. front.items ≡ entry_front head first.now second_len) }
{
    let mut front = Vec::with_capacity(alloc, 128)?;
    put_numbers(&mut front, head)?;
    push_u64(&mut front, first.len() as u64)?;
    push_u64(&mut front, second_len)?;
    front.extend_from_slice(first)?;
    Ok(front)
}

// Appends the numbers of an entry.
#[tactic(auto, unfolding(crate::specs::Entries::numbers))]
fn put_numbers(out: &mut Vec<u8>, head: EntryHeader) -> Result<(), NoMemory>
    ensures { OnOk result (out.new.items ≡ out.old.items ++ numbers head) }
{
    push_u64(out, head.kind)?;
    push_u64(out, head.at)?;
    push_u64(out, head.offset)?;
    push_u64(out, head.count)?;
    Ok(())
}

// Copies two parts to the start of the buffer, if it is large enough for both. Returns their length in bytes.
fn encode_two(first: &[u8], second: &[u8], out: &mut [u8]) -> usize
    ensures count { result ≡ length (first.now ++ second.now) }
    ensures buffer { out.new ≡ encoded (first.now ++ second.now) out.old }
{
    let end = first.len() + second.len();
    if end <= out.len() {
        out[..first.len()].copy_from_slice(first);
        out[first.len()..end].copy_from_slice(second);
    }
    end
}
