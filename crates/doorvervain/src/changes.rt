//! Exports of the calls that change a volume, each with a timestamp. A call that fails leaves the volume unchanged.
ghost use Rattle.std.specs.Prelude.{◌≡◌, IfErr};
ghost use Rattle.pathkey.specs.SnapNames.{snap_parsed};
ghost use Rattle.pathkey.specs.Texts.{parsed};
ghost use Rattle.reference.specs.declared.call.Call.TheVariants as ask;
ghost use Rattle.reference.specs.Worlds.{DropSnapshot, RestoreSnapshot, TakeSnapshot};
ghost use Rattle.volume.specs.Changes.{Dropped, KeptAs, Restored};
ghost use Rattle.ffi_calls.specs.Copies.{CopiesAt};
ghost use Rattle.ffi_calls.specs.Mtimes.{SetsMtimeAt};
ghost use Rattle.ffi_calls.specs.Snapshots.{SettlesNamed};
ghost use Rattle.doorvervain.specs.Changes.{AsksAt, Moves};
ghost use Rattle.doorvervain.specs.Numbers.{IsNumber, reported, reported_by};

use crate::handle::VolumeHandle;
use crate::numbers::{counted, number};
use std::alloc::Global;

/// Creates an empty directory.
#[unsafe(no_mangle)]
pub extern "C" fn doorvervain_raw_mkdir(
    alloc: Global,
    fs: &mut VolumeHandle,
    path: &[u8],
    at: u64,
) -> u8
    ensures call { AsksAt ask.Mkdir path.now at result fs.old.volume fs.new.volume }
    ensures number { IsNumber result }
{
    number(ffi_calls::mkdir(alloc, fs.volume(), path, at))
}

/// Creates an empty file if the path does not exist.
#[unsafe(no_mangle)]
pub extern "C" fn doorvervain_raw_create(
    alloc: Global,
    fs: &mut VolumeHandle,
    path: &[u8],
    at: u64,
) -> u8
    ensures call { AsksAt ask.Create path.now at result fs.old.volume fs.new.volume }
    ensures number { IsNumber result }
{
    number(ffi_calls::create(alloc, fs.volume(), path, at))
}

/// Removes a file.
#[unsafe(no_mangle)]
pub extern "C" fn doorvervain_raw_unlink(
    alloc: Global,
    fs: &mut VolumeHandle,
    path: &[u8],
    at: u64,
) -> u8
    ensures call { AsksAt ask.Unlink path.now at result fs.old.volume fs.new.volume }
    ensures number { IsNumber result }
{
    number(ffi_calls::unlink(alloc, fs.volume(), path, at))
}

/// Removes an empty directory.
#[unsafe(no_mangle)]
pub extern "C" fn doorvervain_raw_rmdir(
    alloc: Global,
    fs: &mut VolumeHandle,
    path: &[u8],
    at: u64,
) -> u8
    ensures call { AsksAt ask.Rmdir path.now at result fs.old.volume fs.new.volume }
    ensures number { IsNumber result }
{
    number(ffi_calls::rmdir(alloc, fs.volume(), path, at))
}

/// Removes a file, or a directory with everything below it.
#[unsafe(no_mangle)]
pub extern "C" fn doorvervain_raw_rmtree(
    alloc: Global,
    fs: &mut VolumeHandle,
    path: &[u8],
    at: u64,
) -> u8
    ensures call { AsksAt ask.Rmtree path.now at result fs.old.volume fs.new.volume }
    ensures number { IsNumber result }
{
    number(ffi_calls::rmtree(alloc, fs.volume(), path, at))
}

/// Renames a file or directory from the first path to the second.
#[unsafe(no_mangle)]
pub extern "C" fn doorvervain_raw_rename(
    alloc: Global,
    fs: &mut VolumeHandle,
    old: &[u8],
    new: &[u8],
    at: u64,
) -> u8
    ensures call { Moves old.now new.now at result fs.old.volume fs.new.volume }
    ensures number { IsNumber result }
{
    number(ffi_calls::rename(alloc, fs.volume(), old, new, at))
}

/// Truncates a file to the given length in bytes, or extends it to that length with zeros.
#[unsafe(no_mangle)]
pub extern "C" fn doorvervain_raw_truncate(
    alloc: Global,
    fs: &mut VolumeHandle,
    path: &[u8],
    length: u64,
    at: u64,
) -> u8
    ensures call { AsksAt (λ p. ask.Truncate p length) path.now at result fs.old.volume fs.new.volume }
    ensures number { IsNumber result }
{
    number(ffi_calls::truncate(alloc, fs.volume(), path, length, at))
}

/// Writes the bytes to a file at the offset: all of them, or none.
#[unsafe(no_mangle)]
pub extern "C" fn doorvervain_raw_write(
    alloc: Global,
    fs: &mut VolumeHandle,
    path: &[u8],
    offset: u64,
    bytes: &[u8],
    at: u64,
) -> u8
    ensures call { AsksAt (λ p. ask.Write p offset bytes.now) path.now at result fs.old.volume fs.new.volume }
    ensures number { IsNumber result }
{
    number(ffi_calls::write(alloc, fs.volume(), path, offset, bytes, at))
}

/// Sets the mtime of the file or directory at the path, or of the root.
#[unsafe(no_mangle)]
pub extern "C" fn doorvervain_raw_set_mtime(
    alloc: Global,
    fs: &mut VolumeHandle,
    path: &[u8],
    at: u64,
) -> u8
    ensures mtime { SetsMtimeAt (parsed path.now) at (reported result) fs.old.volume fs.new.volume }
    ensures number { IsNumber result }
{
    number(ffi_calls::set_mtime(alloc, fs.volume(), path, at))
}

/// Copies `count` bytes of the file at `from` from `offset` on, as far as it has them, to the file at `to` from `target` on.
/// Stores how many bytes these are in `copied`, and 0 on an error.
#[unsafe(no_mangle)]
pub extern "C" fn doorvervain_raw_copy_range(
    alloc: Global,
    fs: &mut VolumeHandle,
    from: &[u8],
    offset: u64,
    to: &[u8],
    target: u64,
    count: u64,
    at: u64,
    copied: &mut u64,
) -> u8
    ensures call { CopiesAt (parsed from.now) offset (parsed to.now) target count at (reported_by result copied.new) fs.old.volume fs.new.volume }
    ensures number { IsNumber result }
    ensures refused { IfErr (reported_by result copied.new) (λ _. copied.new ≡ 0) }
{
    let outcome = ffi_calls::copy_range(alloc, fs.volume(), from, offset, to, target, count, at);
    counted(outcome, copied)
}

/// Takes a snapshot of the live tree under a name.
#[unsafe(no_mangle)]
pub extern "C" fn doorvervain_raw_snapshot(alloc: Global, fs: &mut VolumeHandle, name: &[u8]) -> u8
    ensures settles { SettlesNamed (snap_parsed name.now) TakeSnapshot KeptAs (reported result) fs.old.volume fs.new.volume }
    ensures number { IsNumber result }
{
    number(ffi_calls::snapshot(alloc, fs.volume(), name))
}

/// Removes the snapshot of that name.
#[unsafe(no_mangle)]
pub extern "C" fn doorvervain_raw_drop_snapshot(
    alloc: Global,
    fs: &mut VolumeHandle,
    name: &[u8],
) -> u8
    ensures settles { SettlesNamed (snap_parsed name.now) DropSnapshot Dropped (reported result) fs.old.volume fs.new.volume }
    ensures number { IsNumber result }
{
    number(ffi_calls::drop_snapshot(alloc, fs.volume(), name))
}

/// Replaces the live tree by that of the snapshot, which is kept.
#[unsafe(no_mangle)]
pub extern "C" fn doorvervain_raw_restore(alloc: Global, fs: &mut VolumeHandle, name: &[u8]) -> u8
    ensures settles { SettlesNamed (snap_parsed name.now) RestoreSnapshot Restored (reported result) fs.old.volume fs.new.volume }
    ensures number { IsNumber result }
{
    number(ffi_calls::restore(alloc, fs.volume(), name))
}
