//! Exports of holes: bytes of a file that become zeros, and which parts of a file are stored.
ghost use Rattle.std.specs.Prelude.{◌≡◌, ℕ, IfErr};
ghost use Rattle.pathkey.specs.Texts.{parsed};
ghost use Rattle.ffi_calls.specs.Holes.{PunchesAt};
ghost use Rattle.doorvervain.specs.Holes.{RunsAt, run_reported};
ghost use Rattle.doorvervain.specs.Numbers.{IsNumber, reported_by};

use crate::handle::{FrozenHandle, VolumeHandle};
use crate::numbers::{run, uncounted};
use std::alloc::Global;

/// Overwrites `count` bytes of a file at the offset with zeros, as far as the file reaches.
#[unsafe(no_mangle)]
pub extern "C" fn doorvervain_raw_punch(
    alloc: Global,
    fs: &mut VolumeHandle,
    path: &[u8],
    offset: u64,
    count: u64,
    at: u64,
) -> u8
    ensures call { (zeros : ℕ) × PunchesAt (parsed path.now) offset count at (reported_by result zeros) fs.old.volume fs.new.volume }
    ensures number { IsNumber result }
{
    uncounted(ffi_calls::punch(alloc, fs.volume(), path, offset, count, at))
}

/// Finds the next run of stored bytes of a file of the live tree at or after the offset. Stores its begin (inclusive) in
/// `begin`, and its end (exclusive) in `end`. Both are the file's length if there is no such run, and 0 on an error.
#[unsafe(no_mangle)]
pub extern "C" fn doorvervain_raw_next_extent(
    alloc: Global,
    fs: &mut VolumeHandle,
    path: &[u8],
    offset: u64,
    begin: &mut u64,
    end: &mut u64,
) -> u8
    ensures run { RunsAt path.now offset fs.old.volume.live (run_reported result begin.new end.new) }
    ensures number { IsNumber result }
    ensures refused { IfErr (run_reported result begin.new end.new) (λ _. (begin.new ≡ 0) × (end.new ≡ 0)) }
    ensures kept { fs.new.volume ≡ fs.old.volume }
{
    run(
        ffi_calls::stored(alloc, fs.volume(), path, offset),
        begin,
        end,
    )
}

/// Finds the next run of stored bytes of a file of a frozen tree, as `doorvervain_raw_next_extent` does for the live tree.
#[unsafe(no_mangle)]
pub extern "C" fn doorvervain_raw_frozen_next_extent(
    alloc: Global,
    tree: &mut FrozenHandle,
    path: &[u8],
    offset: u64,
    begin: &mut u64,
    end: &mut u64,
) -> u8
    ensures run { RunsAt path.now offset tree.old.tree (run_reported result begin.new end.new) }
    ensures number { IsNumber result }
    ensures refused { IfErr (run_reported result begin.new end.new) (λ _. (begin.new ≡ 0) × (end.new ≡ 0)) }
    ensures kept { tree.new.tree ≡ tree.old.tree }
{
    run(
        ffi_calls::frozen_stored(alloc, tree.tree(), path, offset),
        begin,
        end,
    )
}
