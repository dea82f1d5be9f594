//! Holes: which parts of a file are stored, and bytes that become zeros. A block that is not stored reads as zeros.
ghost use Rattle.std.specs.Prelude.{◌≡◌, ◌≢◌, ◌≤◌, ◌<◌, ◌^◌, ℕ, List, [], IfOk, IsSome, None, length, true, false};
ghost use Rattle.block_index.specs.Means.{blocks};
ghost use Rattle.call_compiler.specs.Compiled.{MeanTree};
ghost use Rattle.pathkey.specs.Keys.{block_key as key_of_block};
ghost use Rattle.reference.specs.Indexes.{most_blocks};
ghost use Rattle.reference.specs.Tree.{Tree, File, Found, entry_at};
ghost use Rattle.volume.specs.Holes.{Punches};
ghost use Rattle.volume.specs.Extents.{AreStored, IsRun, RunsIn};
ghost use Rattle.volume.specs.Typed.{replied};

use crate::call_methods::counted;
use crate::frozen::Frozen;
use crate::volume::Volume;
use crate::walk::BlockWalk;
use block_index::BLOCK;
use call_compiler::file_length::file_length;
use call_compiler::{Reply, punch};
use pathkey::{Errno, NoMemory, Path};
use std::alloc::Global;

impl Volume {
    /// Returns the next extent of stored bytes of a file at or after the offset, as the offsets where it begins and ends,
    /// within the file. If there is none, both are the file's length. Each byte from the offset to the extent is zero.
    ///
    /// ENOENT, ENOTDIR and EISDIR as `read`; ENOMEM if an allocation fails. It walks the blocks of the extent once.
    pub fn next_extent(&self, alloc: Global, path: &Path, offset: u64) -> Result<(u64, u64), Errno>
        ensures { RunsIn self.now.live.indexes path.now offset result }
    {
        let tree = self.freeze()?;
        tree.next_extent(alloc, path, offset)
    }
}

impl Volume {
    /// Sets `count` bytes of a file from the offset on to zero, up to the file's end, and returns how many they are. The tree is
    /// the same as after a `write` of as many zeros. Blocks that are entirely in the range are no longer stored, and none is
    /// allocated for them. If no byte is within the file, nothing changes; any size is allowed.
    ///
    /// Fails with ENOENT, ENOTDIR and EISDIR as `write` does, and with ENOMEM if an allocation fails. It sends at most four
    /// messages, however many bytes become zeros.
    pub fn punch(
        &mut self,
        alloc: Global,
        path: &Path,
        offset: u64,
        count: u64,
        at: u64,
    ) -> Result<u64, Errno>
        ensures { Punches path.now offset count at (replied (λ n. Reply.Count n) result) self.old self.new }
    {
        let compiled = punch::punch(alloc, self.indexes(), path, offset, count, at);
        counted(self.send_zeros(alloc, compiled))
    }
}

impl Frozen {
    /// The next extent of stored bytes of a file, as `Volume::next_extent` returns it.
    pub fn next_extent(&self, alloc: Global, path: &Path, offset: u64) -> Result<(u64, u64), Errno>
        ensures { RunsIn self.now.indexes path.now offset result }
    {
        let size = file_length(alloc, self.indexes(), path)??;
        let mut walk = BlockWalk::new(alloc, self);
        Ok(find_extent(alloc, &mut walk, path, offset, size)?)
    }
}

/// The next run of stored bytes of the file of `size` bytes at the path.
fn find_extent(
    alloc: Global,
    walk: &mut BlockWalk,
    path: &Path,
    offset: u64,
    size: u64,
) -> Result<(u64, u64), NoMemory>
    requires file { path.now ≢ [] }
    requires short { size ≤ 2 ^ 40 }
    ensures { IfOk result (λ r. (t : Tree) (date : ℕ) (b : List ℕ) → MeanTree walk.old.indexes t → entry_at t path.now ≡ Found (File date b) → length b ≡ size → IsRun (blocks walk.old.indexes.block) path.now b offset r.0 r.1) }
{
    // The postcondition of `key` states that this is a valid path.
    let _key = path.key();
    if offset >= size {
        return Ok((size, size));
    }
    let Some((number, _)) = walk.next(alloc, path, (offset / BLOCK) as u32)? else {
        return Ok((size, size));
    };
    let from = offset.max(number as u64 * BLOCK);
    if from >= size {
        // A block past the file's end holds no bytes.
        return Ok((size, size));
    }
    let last = ((size - 1) / BLOCK) as u32;
    let end = extent_end(alloc, walk, path, number + 1, last + 1)?;
    Ok((from, size.min(end as u64 * BLOCK)))
}

/// The first block of the file at the path that is not stored, from a number on; `bound` if all before that one are stored.
fn extent_end(
    alloc: Global,
    walk: &mut BlockWalk,
    path: &Path,
    from: u32,
    bound: u32,
) -> Result<u32, NoMemory>
    requires file { path.now ≢ [] }
    requires order { from ≤ bound }
    requires few { bound ≤ most_blocks }
    ensures end { IfOk result (λ end. (from ≤ end) × (end ≤ bound)) }
    ensures stored { IfOk result (λ end. AreStored (blocks walk.old.indexes.block) path.now from end) }
    ensures ended { IfOk result (λ end. end < bound → blocks walk.old.indexes.block (key_of_block path.now end) ≡ None) }
{
    'each: for number in from..bound {
        if !is_allocated(alloc, walk, path, number)? {
            return Ok(number);
        }
    }
    Ok(bound)
}

/// Whether the block with this number of the file at the path is stored.
fn is_allocated(
    alloc: Global,
    walk: &mut BlockWalk,
    path: &Path,
    number: u32,
) -> Result<bool, NoMemory>
    requires file { path.now ≢ [] }
    requires few { number < most_blocks }
    ensures stored { IfOk result (λ yes. yes ≡ true → IsSome (blocks walk.old.indexes.block (key_of_block path.now number))) }
    ensures hole { IfOk result (λ yes. yes ≡ false → blocks walk.old.indexes.block (key_of_block path.now number) ≡ None) }
    ensures tree { walk.new ≡ walk.old }
{
    Ok(match walk.next(alloc, path, number)? {
        Some((next, _)) => next == number,
        None => false,
    })
}
