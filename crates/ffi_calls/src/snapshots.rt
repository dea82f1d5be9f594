//! Snapshot calls, and frozen trees.
ghost use Rattle.std.specs.Prelude.{◌≡◌, MatchResult, slice_get};
ghost use Rattle.pathkey.specs.SnapNames.{snap_parsed};
ghost use Rattle.reference.specs.Worlds.{DropSnapshot, RestoreSnapshot, TakeSnapshot};
ghost use Rattle.volume.specs.Changes.{Dropped, KeptAs, Restored};
ghost use Rattle.volume.specs.Volumes.{AreNames, names_in};
ghost use Rattle.ffi_calls.specs.Snapshots.{FindsNamed, SettlesNamed, TellsName};

use crate::reads::copy_if_fits;
use pathkey::{Errno, SnapName};
use std::alloc::Global;
use volume::{Frozen, Volume};

/// Takes a snapshot of the live tree under this name.
pub fn snapshot(alloc: Global, volume: &mut Volume, name: &[u8]) -> Result<(), Errno>
    ensures { SettlesNamed (snap_parsed name.now) TakeSnapshot KeptAs result volume.old volume.new }
{
    let name = SnapName::parse(alloc, name)?;
    volume.snapshot(alloc, &name)
}

/// Removes the snapshot of that name.
pub fn drop_snapshot(alloc: Global, volume: &mut Volume, name: &[u8]) -> Result<(), Errno>
    ensures { SettlesNamed (snap_parsed name.now) DropSnapshot Dropped result volume.old volume.new }
{
    let name = SnapName::parse(alloc, name)?;
    volume.drop_snapshot(&name)
}

/// Replaces the live tree by that of the snapshot, which is kept.
pub fn restore(alloc: Global, volume: &mut Volume, name: &[u8]) -> Result<(), Errno>
    ensures { SettlesNamed (snap_parsed name.now) RestoreSnapshot Restored result volume.old volume.new }
{
    let name = SnapName::parse(alloc, name)?;
    volume.restore(&name)
}

/// Returns the current live tree. Fails with ENOMEM if another reference to its nodes cannot be taken.
pub fn freeze(volume: &Volume) -> Result<Frozen, Errno>
    ensures { MatchResult result (λ f. f ≡ volume.now.live) (λ e. e ≡ Errno.ENOMEM) }
{
    let tree = volume.freeze()?;
    Ok(tree)
}

/// Returns the tree of the snapshot of that name.
pub fn frozen(alloc: Global, volume: &Volume, name: &[u8]) -> Result<Frozen, Errno>
    ensures { FindsNamed (snap_parsed name.now) volume.now result }
{
    let name = SnapName::parse(alloc, name)?;
    volume.frozen(&name)
}

/// Returns the name of the snapshot with this index, counted from 0 in ascending order of names. Fails with ENOENT past the
/// last. The result is the length of the name in bytes. The name is written only if the buffer is large enough for all of it,
/// and otherwise the buffer is unchanged. Nothing is allocated.
pub fn snapshot_name(volume: &Volume, number: usize, out: &mut [u8]) -> Result<usize, Errno>
    ensures name { TellsName (slice_get (names_in volume.now.snapshots) number) result out.old out.new }
    ensures names { AreNames volume.now.snapshots (names_in volume.now.snapshots) }
{
    let Some(name) = volume.snapshot_name(number) else {
        return Err(Errno::ENOENT);
    };
    Ok(copy_if_fits(name.as_bytes(), out))
}
