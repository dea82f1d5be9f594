//! Copies the bytes of a file from its blocks directly into a buffer, so that each byte is copied once.
ghost use Rattle.std.specs.Prelude.{◌≡◌, ◌≢◌, ◌≤◌, ◌<◌, ◌+◌, ◌-◌, ◌/◌, ◌^◌, [], ℕ, List, Some, IfOk, drop, length, min, take, slice_index};
ghost use Rattle.block_index.specs.Means.{blocks};
ghost use Rattle.ffi_calls.specs.Filling.{HoldFrom};
ghost use Rattle.reference.specs.Indexes.{BlocksMean, held};
ghost use Rattle.reference.specs.Reads.{look, Bytes as Contents};
ghost use Rattle.reference.specs.Tree.{Tree};

use block_index::{BLOCK, Block, BlockIndex};
use lookup::get;
use pathkey::{NoMemory, Path, block_key};
use std::alloc::Global;

/// Returns the blocks of the file at a path that have the bytes from `offset` up to `end`, in order, with `None` for a block
/// that is absent. Each is another reference to its bytes.
pub(crate) fn blocks_between(
    alloc: Global,
    index: &BlockIndex,
    path: &Path,
    offset: u64,
    end: u64,
) -> Result<Vec<Option<Block>>, NoMemory>
    requires file { path.now ≢ [] }
    requires some { offset < end }
    requires short { end ≤ 2 ^ 40 }
    ensures holds { IfOk result (λ v. (t : Tree) (b : List ℕ) → BlocksMean t (blocks index.now) → look t path.now ≡ Some (Contents b) → HoldFrom (offset / 4096) v.items b) }
    ensures many { IfOk result (λ v. offset / 4096 + length v.items ≡ (end - 1) / 4096 + 1) }
{
    // The contract of `key` says that this is a path.
    let _key = path.key();
    let first = (offset / BLOCK) as u32;
    let last = ((end - 1) / BLOCK) as u32;
    let mut found = Vec::with_capacity(alloc, (last + 1 - first) as usize)?;
    'each: for number in first..last + 1 {
        let key = block_key(alloc, path, number)?;
        found.push(get(alloc, &index.tree, &key)?)?;
    }
    Ok(found)
}

/// Copies the bytes of those blocks from `offset` up to `end` to the start of a buffer.
pub(crate) fn copy_blocks(blocks: &[Option<Block>], offset: u64, end: u64, out: &mut [u8])
    requires some { offset < end }
    requires short { end ≤ 2 ^ 40 }
    requires room { end - offset ≤ length out.old }
    requires many { offset / 4096 + length blocks.now ≡ (end - 1) / 4096 + 1 }
    ensures bytes { (b : List ℕ) (n : ℕ) → HoldFrom (offset / 4096) blocks.now b → end ≡ min (offset + n) (length b) → take (end - offset) out.new ≡ take n (drop offset b) }
    ensures rest { drop (end - offset) out.new ≡ drop (end - offset) out.old }
{
    let first = offset / BLOCK;
    'each: for number in 0..blocks.len() {
        let start = (first + number as u64) * BLOCK;
        let from = offset.saturating_sub(start);
        let to = (end - start).min(BLOCK);
        let done = start + from - offset;
        lay_block(
            bytes_of(&blocks[number]),
            from as usize,
            to as usize,
            done as usize,
            out,
        );
    }
}

/// The bytes of a block, empty if it is absent.
fn bytes_of(block: &Option<Block>) -> &[u8]
    ensures { result.now ≡ held block.now }
{
    match block {
        None => &[],
        Some(block) => block.as_slice(),
    }
}

/// Copies bytes `from` to `to` of a block into a buffer after its first `done` bytes, with zeros for those that the block
/// lacks.
fn lay_block(block: &[u8], from: usize, to: usize, done: usize, out: &mut [u8])
    requires order { from ≤ to }
    requires room { done + (to - from) ≤ length out.old }
    ensures long { length out.new ≡ length out.old }
    ensures before { (x : ℕ) → x < done → slice_index out.new x ≡ slice_index out.old x }
    ensures added { (x : ℕ) → done ≤ x → x < done + (to - from) → slice_index out.new x ≡ slice_index block.now (from + (x - done)) }
    ensures rest { drop (done + (to - from)) out.new ≡ drop (done + (to - from)) out.old }
{
    let stop = to.min(block.len());
    let begin = from.min(stop);
    let there = done + (stop - begin);
    let whole = done + (to - from);
    out[done..there].copy_from_slice(&block[begin..stop]);
    out[there..whole].fill(0);
}
