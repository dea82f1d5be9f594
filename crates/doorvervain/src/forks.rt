//! Exports of forks, which are volumes made of the tree of another, and of restoring frozen trees.
ghost use Rattle.pathkey.specs.declared.errno.Errno.TheVariants.{ENOMEM};
ghost use Rattle.std.specs.Prelude.{◌≡◌, IfErr, IfOk};
ghost use Rattle.volume.specs.Forks.{IsForkOf, RestoresTree};
ghost use Rattle.doorvervain.specs.Handed.{Given};
ghost use Rattle.doorvervain.specs.Held.{IsClosed};
ghost use Rattle.doorvervain.specs.Numbers.{IsNumber, reported};

use crate::handle::{FrozenHandle, VolumeHandle};
use crate::numbers::number;
use crate::place::{VolumeOut, hand_out};
use pathkey::Errno;
use std::alloc::Global;
use volume::{Frozen, Volume};

/// Makes an independent volume with the live tree and without snapshots, and stores its handle in `out`. Returns 0, or
/// ENOMEM, and then `out` is null.
#[unsafe(no_mangle)]
pub extern "C" fn doorvervain_raw_fork(
    alloc: Global,
    fs: &mut VolumeHandle,
    out: &mut VolumeOut,
) -> u8
    ensures forked { IfOk (reported result) (λ _. Given (IsForkOf fs.old.volume.live) out.new.given) }
    ensures refused { IfErr (reported result) (λ e. e ≡ ENOMEM) }
    ensures closed { IfErr (reported result) (λ _. IsClosed out.new.at out.new.given) }
    ensures number { IsNumber result }
    ensures kept { fs.new.volume ≡ fs.old.volume }
{
    number(fork(alloc, fs.volume(), out))
}

/// Makes an independent volume with a frozen tree and without snapshots, and stores its handle in `out`. Returns 0, or
/// ENOMEM, and then `out` is null.
#[unsafe(no_mangle)]
pub extern "C" fn doorvervain_raw_frozen_fork(
    alloc: Global,
    tree: &mut FrozenHandle,
    out: &mut VolumeOut,
) -> u8
    ensures forked { IfOk (reported result) (λ _. Given (IsForkOf tree.old.tree) out.new.given) }
    ensures refused { IfErr (reported result) (λ e. e ≡ ENOMEM) }
    ensures closed { IfErr (reported result) (λ _. IsClosed out.new.at out.new.given) }
    ensures number { IsNumber result }
    ensures kept { tree.new.tree ≡ tree.old.tree }
{
    number(frozen_fork(alloc, tree.tree(), out))
}

/// Replaces the live tree by a frozen one, which may be that of another volume and is kept. Returns 0, or ENOMEM, and then
/// nothing changes.
#[unsafe(no_mangle)]
pub extern "C" fn doorvervain_raw_restore_frozen(
    fs: &mut VolumeHandle,
    tree: &mut FrozenHandle,
) -> u8
    ensures restored { RestoresTree tree.old.tree (reported result) fs.old.volume fs.new.volume }
    ensures refused { IfErr (reported result) (λ e. e ≡ ENOMEM) }
    ensures number { IsNumber result }
    ensures kept { tree.new.tree ≡ tree.old.tree }
{
    number(ffi_calls::restore_frozen(fs.volume(), tree.tree()))
}

// Forks a volume, and stores the handle of the fork in `out`.
fn fork(alloc: Global, volume: &Volume, out: &mut VolumeOut) -> Result<(), Errno>
    ensures forked { IfOk result (λ _. Given (IsForkOf volume.now.live) out.new.given) }
    ensures refused { IfErr result (λ e. e ≡ ENOMEM) }
    ensures closed { IfErr result (λ _. IsClosed out.new.at out.new.given) }
{
    let made = ffi_calls::fork(alloc, volume);
    hand_out(alloc, made, out)
}

// Forks a frozen tree, and stores the handle of the fork in `out`.
fn frozen_fork(alloc: Global, tree: &Frozen, out: &mut VolumeOut) -> Result<(), Errno>
    ensures forked { IfOk result (λ _. Given (IsForkOf tree.now) out.new.given) }
    ensures refused { IfErr result (λ e. e ≡ ENOMEM) }
    ensures closed { IfErr result (λ _. IsClosed out.new.at out.new.given) }
{
    let made = ffi_calls::frozen_fork(alloc, tree);
    hand_out(alloc, made, out)
}
