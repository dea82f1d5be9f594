//! Exports of the entries of a log, which need no volume, and of bodies of records, which are applied to one. On an error
//! each other result is set to 0, unless a function says otherwise.
ghost use Rattle.std.specs.Prelude.{◌≡◌, ◌↔◌, IfErr, IfOk, Ok};
ghost use Rattle.pathkey.specs.SnapNames.{snap_parsed};
ghost use Rattle.pathkey.specs.Texts.{parsed};
ghost use Rattle.wal.specs.Encode.{Encodes, asked, copied, moved};
ghost use Rattle.wal.specs.declared.wal_entry.WalEntry.TheVariants as change;
ghost use Rattle.wal.specs.declared.wal_entry.SnapshotCall.TheVariants as keeping;
ghost use Rattle.reference.specs.declared.path_call.PathCall.TheVariants as on;
ghost use Rattle.wal.specs.Dump.{EncodesLines};
ghost use Rattle.wal.specs.Runs.{RunsBody};
ghost use Rattle.doorvervain.specs.Log.{stopped_of, stopped_reported};
ghost use Rattle.doorvervain.specs.Numbers.{IsNumber, IsShort, IsSizeNumber, short, sized_by, reported};

use crate::handle::VolumeHandle;
use crate::numbers::{number, sized};
use std::alloc::Global;
use wal::encode::{
    encode_copy_range, encode_edits, encode_mtime, encode_path_call, encode_punch, encode_rename,
    encode_snapshot_call, encode_truncate, encode_write,
};
use wal::{PathCall, ReplayError, SnapshotCall, replay_body, wal_dump_into};

/// Encodes the entry of a directory that is created. Stores its length in bytes in `size`, and writes it only if the buffer
/// is large enough for all of it.
#[unsafe(no_mangle)]
pub extern "C" fn doorvervain_raw_wal_mkdir(
    alloc: Global,
    path: &[u8],
    at: u64,
    out: &mut [u8],
    size: &mut usize,
) -> u8
    ensures change { Encodes (asked (λ p. change.OnPath on.Mkdir p at) (parsed path.now)) (sized_by result size.new) out.old out.new }
    ensures short { (result ≡ short) ↔ IsShort size.new out.old }
    ensures number { IsSizeNumber result }
    ensures refused { IfErr (sized_by result size.new) (λ _. size.new ≡ 0) }
{
    let laid = encode_path_call(alloc, PathCall::Mkdir, path, at, out);
    sized(laid, out.len(), size)
}

/// Encodes the entry of a file that is created. Stores its length in bytes in `size`, and writes it only if the buffer is
/// large enough for all of it.
#[unsafe(no_mangle)]
pub extern "C" fn doorvervain_raw_wal_create(
    alloc: Global,
    path: &[u8],
    at: u64,
    out: &mut [u8],
    size: &mut usize,
) -> u8
    ensures change { Encodes (asked (λ p. change.OnPath on.Create p at) (parsed path.now)) (sized_by result size.new) out.old out.new }
    ensures short { (result ≡ short) ↔ IsShort size.new out.old }
    ensures number { IsSizeNumber result }
    ensures refused { IfErr (sized_by result size.new) (λ _. size.new ≡ 0) }
{
    let laid = encode_path_call(alloc, PathCall::Create, path, at, out);
    sized(laid, out.len(), size)
}

/// Encodes the entry of a file that is removed. Stores its length in bytes in `size`, and writes it only if the buffer is
/// large enough for all of it.
#[unsafe(no_mangle)]
pub extern "C" fn doorvervain_raw_wal_unlink(
    alloc: Global,
    path: &[u8],
    at: u64,
    out: &mut [u8],
    size: &mut usize,
) -> u8
    ensures change { Encodes (asked (λ p. change.OnPath on.Unlink p at) (parsed path.now)) (sized_by result size.new) out.old out.new }
    ensures short { (result ≡ short) ↔ IsShort size.new out.old }
    ensures number { IsSizeNumber result }
    ensures refused { IfErr (sized_by result size.new) (λ _. size.new ≡ 0) }
{
    let laid = encode_path_call(alloc, PathCall::Unlink, path, at, out);
    sized(laid, out.len(), size)
}

/// Encodes the entry of an empty directory that is removed. Stores its length in bytes in `size`, and writes it only if the
/// buffer is large enough for all of it.
#[unsafe(no_mangle)]
pub extern "C" fn doorvervain_raw_wal_rmdir(
    alloc: Global,
    path: &[u8],
    at: u64,
    out: &mut [u8],
    size: &mut usize,
) -> u8
    ensures change { Encodes (asked (λ p. change.OnPath on.Rmdir p at) (parsed path.now)) (sized_by result size.new) out.old out.new }
    ensures short { (result ≡ short) ↔ IsShort size.new out.old }
    ensures number { IsSizeNumber result }
    ensures refused { IfErr (sized_by result size.new) (λ _. size.new ≡ 0) }
{
    let laid = encode_path_call(alloc, PathCall::Rmdir, path, at, out);
    sized(laid, out.len(), size)
}

/// Encodes the entry of a file or directory that is removed with everything below it. Stores its length in bytes in `size`,
/// and writes it only if the buffer is large enough for all of it.
#[unsafe(no_mangle)]
pub extern "C" fn doorvervain_raw_wal_rmtree(
    alloc: Global,
    path: &[u8],
    at: u64,
    out: &mut [u8],
    size: &mut usize,
) -> u8
    ensures change { Encodes (asked (λ p. change.OnPath on.Rmtree p at) (parsed path.now)) (sized_by result size.new) out.old out.new }
    ensures short { (result ≡ short) ↔ IsShort size.new out.old }
    ensures number { IsSizeNumber result }
    ensures refused { IfErr (sized_by result size.new) (λ _. size.new ≡ 0) }
{
    let laid = encode_path_call(alloc, PathCall::Rmtree, path, at, out);
    sized(laid, out.len(), size)
}

/// Encodes the entry of a rename from the first path to the second. Stores its length in bytes in `size`, and writes it only
/// if the buffer is large enough for all of it.
#[unsafe(no_mangle)]
pub extern "C" fn doorvervain_raw_wal_rename(
    alloc: Global,
    old: &[u8],
    new: &[u8],
    at: u64,
    out: &mut [u8],
    size: &mut usize,
) -> u8
    ensures change { Encodes (moved at (parsed old.now) (parsed new.now)) (sized_by result size.new) out.old out.new }
    ensures short { (result ≡ short) ↔ IsShort size.new out.old }
    ensures number { IsSizeNumber result }
    ensures refused { IfErr (sized_by result size.new) (λ _. size.new ≡ 0) }
{
    let laid = encode_rename(alloc, old, new, at, out);
    sized(laid, out.len(), size)
}

/// Encodes the entry of a file that is truncated or extended to the given length in bytes. Stores its own length in bytes in
/// `size`, and writes it only if the buffer is large enough for all of it.
#[unsafe(no_mangle)]
pub extern "C" fn doorvervain_raw_wal_truncate(
    alloc: Global,
    path: &[u8],
    length: u64,
    at: u64,
    out: &mut [u8],
    size: &mut usize,
) -> u8
    ensures change { Encodes (asked (λ p. change.Truncate p length at) (parsed path.now)) (sized_by result size.new) out.old out.new }
    ensures short { (result ≡ short) ↔ IsShort size.new out.old }
    ensures number { IsSizeNumber result }
    ensures refused { IfErr (sized_by result size.new) (λ _. size.new ≡ 0) }
{
    let laid = encode_truncate(alloc, path, length, at, out);
    sized(laid, out.len(), size)
}

/// Encodes the entry of a write of the bytes at the offset. Stores its length in bytes in `size`, and writes it only if the
/// buffer is large enough for all of it.
#[unsafe(no_mangle)]
pub extern "C" fn doorvervain_raw_wal_write(
    alloc: Global,
    path: &[u8],
    offset: u64,
    bytes: &[u8],
    at: u64,
    out: &mut [u8],
    size: &mut usize,
) -> u8
    ensures change { Encodes (asked (λ p. change.Write p offset bytes.now at) (parsed path.now)) (sized_by result size.new) out.old out.new }
    ensures short { (result ≡ short) ↔ IsShort size.new out.old }
    ensures number { IsSizeNumber result }
    ensures refused { IfErr (sized_by result size.new) (λ _. size.new ≡ 0) }
{
    let laid = encode_write(alloc, path, offset, bytes, at, out);
    sized(laid, out.len(), size)
}

/// Encodes the entry of a hole of `count` bytes at the offset. Stores its length in bytes in `size`, and writes it only if
/// the buffer is large enough for all of it.
#[unsafe(no_mangle)]
pub extern "C" fn doorvervain_raw_wal_punch(
    alloc: Global,
    path: &[u8],
    offset: u64,
    count: u64,
    at: u64,
    out: &mut [u8],
    size: &mut usize,
) -> u8
    ensures change { Encodes (asked (λ p. change.Punch p offset count at) (parsed path.now)) (sized_by result size.new) out.old out.new }
    ensures short { (result ≡ short) ↔ IsShort size.new out.old }
    ensures number { IsSizeNumber result }
    ensures refused { IfErr (sized_by result size.new) (λ _. size.new ≡ 0) }
{
    let laid = encode_punch(alloc, path, offset, count, at, out);
    sized(laid, out.len(), size)
}

/// Encodes the entry of an mtime that is set. Stores its length in bytes in `size`, and writes it only if the buffer is large
/// enough for all of it.
#[unsafe(no_mangle)]
pub extern "C" fn doorvervain_raw_wal_set_mtime(
    alloc: Global,
    path: &[u8],
    at: u64,
    out: &mut [u8],
    size: &mut usize,
) -> u8
    ensures change { Encodes (asked (λ p. change.SetMtime p at) (parsed path.now)) (sized_by result size.new) out.old out.new }
    ensures short { (result ≡ short) ↔ IsShort size.new out.old }
    ensures number { IsSizeNumber result }
    ensures refused { IfErr (sized_by result size.new) (λ _. size.new ≡ 0) }
{
    let laid = encode_mtime(alloc, path, at, out);
    sized(laid, out.len(), size)
}

/// Encodes the entry of a copy of `count` bytes from the first path and offset to the second. Stores its length in bytes in
/// `size`, and writes it only if the buffer is large enough for all of it.
#[unsafe(no_mangle)]
pub extern "C" fn doorvervain_raw_wal_copy_range(
    alloc: Global,
    from: &[u8],
    offset: u64,
    to: &[u8],
    target: u64,
    count: u64,
    at: u64,
    out: &mut [u8],
    size: &mut usize,
) -> u8
    ensures change { Encodes (copied offset target count at (parsed from.now) (parsed to.now)) (sized_by result size.new) out.old out.new }
    ensures short { (result ≡ short) ↔ IsShort size.new out.old }
    ensures number { IsSizeNumber result }
    ensures refused { IfErr (sized_by result size.new) (λ _. size.new ≡ 0) }
{
    let laid = encode_copy_range(alloc, from, offset, to, target, count, at, out);
    sized(laid, out.len(), size)
}

/// Encodes the entry of a snapshot that is taken. Stores its length in bytes in `size`, and writes it only if the buffer is
/// large enough for all of it.
#[unsafe(no_mangle)]
pub extern "C" fn doorvervain_raw_wal_snapshot(
    alloc: Global,
    name: &[u8],
    out: &mut [u8],
    size: &mut usize,
) -> u8
    ensures change { Encodes (asked (λ s. change.Keep keeping.Snapshot s) (snap_parsed name.now)) (sized_by result size.new) out.old out.new }
    ensures short { (result ≡ short) ↔ IsShort size.new out.old }
    ensures number { IsSizeNumber result }
    ensures refused { IfErr (sized_by result size.new) (λ _. size.new ≡ 0) }
{
    let laid = encode_snapshot_call(alloc, SnapshotCall::Snapshot, name, out);
    sized(laid, out.len(), size)
}

/// Encodes the entry of a snapshot that is removed. Stores its length in bytes in `size`, and writes it only if the buffer is
/// large enough for all of it.
#[unsafe(no_mangle)]
pub extern "C" fn doorvervain_raw_wal_drop(
    alloc: Global,
    name: &[u8],
    out: &mut [u8],
    size: &mut usize,
) -> u8
    ensures change { Encodes (asked (λ s. change.Keep keeping.Remove s) (snap_parsed name.now)) (sized_by result size.new) out.old out.new }
    ensures short { (result ≡ short) ↔ IsShort size.new out.old }
    ensures number { IsSizeNumber result }
    ensures refused { IfErr (sized_by result size.new) (λ _. size.new ≡ 0) }
{
    let laid = encode_snapshot_call(alloc, SnapshotCall::Remove, name, out);
    sized(laid, out.len(), size)
}

/// Encodes the entry of a snapshot that is restored. Stores its length in bytes in `size`, and writes it only if the buffer
/// is large enough for all of it.
#[unsafe(no_mangle)]
pub extern "C" fn doorvervain_raw_wal_restore(
    alloc: Global,
    name: &[u8],
    out: &mut [u8],
    size: &mut usize,
) -> u8
    ensures change { Encodes (asked (λ s. change.Keep keeping.Restore s) (snap_parsed name.now)) (sized_by result size.new) out.old out.new }
    ensures short { (result ≡ short) ↔ IsShort size.new out.old }
    ensures number { IsSizeNumber result }
    ensures refused { IfErr (sized_by result size.new) (λ _. size.new ≡ 0) }
{
    let laid = encode_snapshot_call(alloc, SnapshotCall::Restore, name, out);
    sized(laid, out.len(), size)
}

/// Encodes the entry of a text of edits, which may be any bytes. Stores its length in bytes in `size`, and writes it only if the
/// buffer is large enough for all of it.
#[unsafe(no_mangle)]
pub extern "C" fn doorvervain_raw_wal_edits(
    alloc: Global,
    text: &[u8],
    out: &mut [u8],
    size: &mut usize,
) -> u8
    ensures change { Encodes (Ok (change.Edits text.now)) (sized_by result size.new) out.old out.new }
    ensures short { (result ≡ short) ↔ IsShort size.new out.old }
    ensures number { IsSizeNumber result }
    ensures refused { IfErr (sized_by result size.new) (λ _. size.new ≡ 0) }
{
    let laid = encode_edits(alloc, text, out);
    sized(laid, out.len(), size)
}

/// Prints the changes of a record's body as lines of a script. Stores their length in bytes in `size`, and writes them only
/// if the buffer is large enough for all of them. Fails with EINVAL if the bytes are not a body, with EFBIG if a write
/// reaches past 2^64, and with ENOMEM.
#[unsafe(no_mangle)]
pub extern "C" fn doorvervain_raw_wal_dump(
    alloc: Global,
    body: &[u8],
    out: &mut [u8],
    size: &mut usize,
) -> u8
    ensures lines { EncodesLines body.now (sized_by result size.new) out.old out.new }
    ensures short { (result ≡ short) ↔ IsShort size.new out.old }
    ensures number { IsSizeNumber result }
    ensures refused { IfErr (sized_by result size.new) (λ _. size.new ≡ 0) }
{
    let laid = wal_dump_into(alloc, body, out);
    sized(laid, out.len(), size)
}

/// Applies the changes of a record's body. If a change fails, `done` is the number of changes that were applied before it. It
/// is 0 if no change fails, and if the body was not decoded, which is EINVAL or ENOMEM.
#[unsafe(no_mangle)]
pub extern "C" fn doorvervain_raw_wal_apply(
    alloc: Global,
    fs: &mut VolumeHandle,
    body: &[u8],
    done: &mut usize,
) -> u8
    ensures run { RunsBody body.now (stopped_reported result done.new) fs.old.volume fs.new.volume }
    ensures all { IfOk (reported result) (λ _. done.new ≡ 0) }
    ensures number { IsNumber result }
{
    match replay_body(alloc, fs.volume(), body) {
        Ok(()) => tell(None, done),
        Err(stopped) => tell(Some(stopped), done),
    }
}

// The number of a replay's outcome, and how many changes were applied before the one that failed.
pub(crate) fn tell(stopped: Option<ReplayError>, done: &mut usize) -> u8
    ensures reported { stopped_of (reported result) done.new ≡ stopped }
    ensures all { IfOk (reported result) (λ _. done.new ≡ 0) }
    ensures number { IsNumber result }
{
    match stopped {
        None => {
            *done = 0;
            number(Ok(()))
        }
        Some(stopped) => {
            *done = stopped.done;
            number(Err(stopped.fault))
        }
    }
}
