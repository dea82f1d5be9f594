//! Forks: independent volumes that are made of the tree of another. Also restores frozen trees.
ghost use Rattle.std.specs.Prelude.{◌≡◌, IfErr, MatchResult};
ghost use Rattle.volume.specs.Forks.{IsForkOf, RestoresTree};

use pathkey::{Errno, NoMemory};
use std::alloc::Global;
use volume::{Frozen, Volume};

/// Makes an independent volume with the current live tree and without snapshots. Fails with ENOMEM if another reference to
/// its nodes cannot be taken.
pub fn fork(alloc: Global, volume: &Volume) -> Result<Volume, Errno>
    ensures { MatchResult result (IsForkOf volume.now.live) (λ e. e ≡ Errno.ENOMEM) }
{
    let fork = volume.fork(alloc)?;
    Ok(fork)
}

/// Makes an independent volume with a frozen tree and without snapshots. Fails with ENOMEM if another reference to its nodes
/// cannot be taken.
pub fn frozen_fork(alloc: Global, tree: &Frozen) -> Result<Volume, Errno>
    ensures { MatchResult result (IsForkOf tree.now) (λ e. e ≡ Errno.ENOMEM) }
{
    let fork = tree.fork(alloc)?;
    Ok(fork)
}

/// Replaces the live tree by a frozen one, which may be that of another volume. The snapshots are kept. Fails with ENOMEM if
/// another reference to its nodes cannot be taken, and then nothing changes.
pub fn restore_frozen(volume: &mut Volume, tree: &Frozen) -> Result<(), Errno>
    ensures restored { RestoresTree tree.now result volume.old volume.new }
    ensures refused { IfErr result (λ e. e ≡ Errno.ENOMEM) }
{
    match volume.restore_frozen(tree) {
        Ok(()) => Ok(()),
        Err(NoMemory) => Err(Errno::ENOMEM),
    }
}
