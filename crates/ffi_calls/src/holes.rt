//! Holes: bytes of a file that become zeros, and which parts of a file are stored.
ghost use Rattle.pathkey.specs.Texts.{parsed};
ghost use Rattle.volume.specs.Extents.{RunsIn};
ghost use Rattle.ffi_calls.specs.Holes.{PunchesAt};
ghost use Rattle.ffi_calls.specs.Reads.{OnPath};

use pathkey::{Errno, Path};
use std::alloc::Global;
use volume::{Frozen, Volume};

/// Overwrites `count` bytes of a file at the offset with zeros, as far as the file reaches. Returns how many bytes these are.
pub fn punch(
    alloc: Global,
    volume: &mut Volume,
    path: &[u8],
    offset: u64,
    count: u64,
    at: u64,
) -> Result<u64, Errno>
    ensures { PunchesAt (parsed path.now) offset count at result volume.old volume.new }
{
    let path = Path::parse(alloc, path)?;
    volume.punch(alloc, &path, offset, count, at)
}

/// Returns the next run of stored bytes of a file of the live tree at or after the offset, as its begin (inclusive) and its
/// end (exclusive). Both are the file's length if there is none.
pub fn stored(alloc: Global, volume: &Volume, path: &[u8], offset: u64) -> Result<(u64, u64), Errno>
    ensures { OnPath (parsed path.now) result (λ p. RunsIn volume.now.live.indexes p offset result) }
{
    let path = Path::parse(alloc, path)?;
    volume.next_extent(alloc, &path, offset)
}

/// Returns the next run of stored bytes of a file of a frozen tree, as `stored` does for the live tree.
pub fn frozen_stored(
    alloc: Global,
    tree: &Frozen,
    path: &[u8],
    offset: u64,
) -> Result<(u64, u64), Errno>
    ensures { OnPath (parsed path.now) result (λ p. RunsIn tree.now.indexes p offset result) }
{
    let path = Path::parse(alloc, path)?;
    tree.next_extent(alloc, &path, offset)
}
