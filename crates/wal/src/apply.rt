//! Applies one entry of a log to a volume.
//!
//! An entry is applied by the volume's own call, with the timestamp that was logged, and a text of edits by `edits`. An entry
//! that fails leaves the volume unchanged.
ghost use Rattle.std.specs.Prelude.{◌≡◌, Err, MatchResult, Ok};
ghost use Rattle.wal.specs.Runs.{Makes};

use crate::wal_entry::{SnapshotCall, WalEntry};
use edits::{EditFault, apply_edits};
use pathkey::{Errno, SnapName};
use std::alloc::Global;
use volume::Volume;

// Applies a change to the volume.
pub(crate) fn apply_entry(
    alloc: Global,
    volume: &mut Volume,
    change: &WalEntry,
) -> Result<(), Errno>
    ensures { Makes change.now result volume.old volume.new }
{
    match change {
        WalEntry::OnPath(what, path, at) => volume.path_call(alloc, *what, path, *at),
        WalEntry::Rename(old, new, at) => volume.rename(alloc, old, new, *at),
        WalEntry::Truncate(path, length, at) => volume.truncate(alloc, path, *length, *at),
        WalEntry::Write(path, offset, bytes, at) => {
            settled(volume.write(alloc, path, *offset, bytes.as_slice(), *at))
        }
        WalEntry::Punch(path, offset, count, at) => {
            settled(volume.punch(alloc, path, *offset, *count, *at))
        }
        WalEntry::SetMtime(path, at) => volume.set_mtime(alloc, path, *at),
        WalEntry::CopyRange(from, offset, to, target, count, at) => {
            settled(volume.copy_range(alloc, from, *offset, to, *target, *count, *at))
        }
        WalEntry::Keep(what, name) => keep(alloc, volume, *what, name),
        WalEntry::Edits(text) => edit(alloc, volume, text.as_slice()),
    }
}

// Drops the number that a call returns, and keeps its error.
fn settled(counted: Result<u64, Errno>) -> Result<(), Errno>
    ensures { MatchResult counted (λ _. result ≡ Ok tt) (λ e. result ≡ Err e) }
{
    match counted {
        Ok(_) => Ok(()),
        Err(fault) => Err(fault),
    }
}

// Takes, removes or restores a snapshot.
fn keep(
    alloc: Global,
    volume: &mut Volume,
    what: SnapshotCall,
    name: &SnapName,
) -> Result<(), Errno>
    ensures { Makes (WalEntry.Keep what name.now) result volume.old volume.new }
{
    match what {
        SnapshotCall::Snapshot => volume.snapshot(alloc, name),
        SnapshotCall::Remove => volume.drop_snapshot(name),
        SnapshotCall::Restore => volume.restore(name),
    }
}

// Applies a text of edits. Fails with EINVAL if it is none, and with ENOENT if an edit does not fit.
fn edit(alloc: Global, volume: &mut Volume, text: &[u8]) -> Result<(), Errno>
    ensures { Makes (WalEntry.Edits text.now) result volume.old volume.new }
{
    match apply_edits(alloc, volume, text) {
        Ok(()) => Ok(()),
        Err(EditFault::Bad(_)) => Err(Errno::EINVAL),
        Err(EditFault::Unfit(_)) => Err(Errno::ENOENT),
        Err(EditFault::Memory) => Err(Errno::ENOMEM),
    }
}
