//! The type `BlockIndex`: the messages of writes and truncations, and reads of a file's bytes. A block that is absent
//! reads as zeros.
ghost use Rattle.std.specs.Prelude.{◌≡◌, ◌≢◌, ◌+◌, ◌-◌, ◌*◌, ◌≤◌, ◌<◌, ◌^◌, [], IfOk, OnOk, IsTrue, Option, Some, None, List, ℕ, length, take, drop, min, slice_index};
ghost use Rattle.block_index.specs.Changed.{Changes, CutsWhereMeant, cuts, patch_of, patches};
ghost use Rattle.block_index.specs.Read.{block_count};
ghost use Rattle.node.specs.Shapes.{is_shape};
ghost use Rattle.pathkey.specs.Keys.{Key as KeyBytes, subtree};
ghost use Rattle.reference.specs.Indexes.{BlocksMean, held, patched};
ghost use Rattle.reference.specs.Reads.{look, Bytes as Contents};
ghost use Rattle.reference.specs.Tree.{Tree as DirectoryTree};
ghost use Rattle.scan.specs.Pairs.{IsScan};

use crate::block::{BLOCK, Block};
use crate::patch::Patch;
use crate::update::BlockUpdate;
use bytes::Bytes;
use lookup::get;
use message::Msg;
use node::{Shape, Tree};
use pathkey::{Key, NoMemory, Path, block_key, blocks_from, subtree};
use scan::scan;
use std::alloc::Global;

/// The blocks of each file, under their keys.
#[derive(Drop)]
pub struct BlockIndex {
    /// The buffered tree that holds them.
    pub tree: Tree<BlockUpdate>,
}

impl BlockIndex {
    ghost use Rattle.block_index.specs.Means.{blocks};

    /// The index without blocks. It fails only if an allocation fails.
    pub fn new(alloc: Global, shape: Shape) -> Result<BlockIndex, NoMemory>
        requires { IsTrue (is_shape shape) }
        ensures shape { IfOk result (λ d. d.tree.shape ≡ shape) }
        ensures empty { IfOk result (λ d. (k : KeyBytes) → blocks d k ≡ None) }
    {
        Ok(BlockIndex {
            tree: Tree::new(alloc, shape)?,
        })
    }

    /// The bytes of the file of `len` bytes at the path, from `off` on, at most `n`, none past the end (POSIX read).
    ///
    /// It makes one lookup for each block, and copies each byte once. It fails only if an allocation fails.
    pub fn read(
        &self,
        alloc: Global,
        path: &Path,
        off: u64,
        n: u64,
        len: u64,
    ) -> Result<Vec<u8>, NoMemory>
        requires file { path.now ≢ [] }
        requires short { len ≤ 2 ^ 40 }
        ensures { IfOk result (λ v. (t : DirectoryTree) (b : List ℕ) → BlocksMean t (blocks self.now) → look t path.now ≡ Some (Contents b) → length b ≡ len → v.items ≡ take n (drop off b)) }
    {
        let mut searches = 0;
        self.read_counted(alloc, path, off, n, len, &mut searches)
    }

    /// The bytes of the file from `off` on, as `read` returns them. It stores in `searches` how many lookups it made: one for
    /// each block that has bytes of the result, so at most 257 if `n` is at most 1,048,576.
    pub fn read_counted(
        &self,
        alloc: Global,
        path: &Path,
        off: u64,
        n: u64,
        len: u64,
        searches: &mut u64,
    ) -> Result<Vec<u8>, NoMemory>
        requires file { path.now ≢ [] }
        requires short { len ≤ 2 ^ 40 }
        ensures read { IfOk result (λ v. (t : DirectoryTree) (b : List ℕ) → BlocksMean t (blocks self.now) → look t path.now ≡ Some (Contents b) → length b ≡ len → v.items ≡ take n (drop off b)) }
        ensures counted { OnOk result (searches.new ≡ block_count off (min (off + n) len)) }
        ensures few { n ≤ 1048576 → OnOk result (searches.new ≤ 257) }
    {
        // The contract of `key` says that the path is one.
        let _key = path.key();
        *searches = 0;
        // A saturated sum is past the file's end all the same.
        let end = off.saturating_add(n).min(len);
        if end <= off {
            return Ok(Vec::new(alloc));
        }
        let mut bytes = Vec::with_capacity(alloc, (end - off) as usize)?;
        let last = (end - 1) / BLOCK;
        'each: for index in (off / BLOCK) as u32..last as u32 + 1 {
            let start = index as u64 * BLOCK;
            let from = off.saturating_sub(start);
            let to = (end - start).min(BLOCK);
            let key = block_key(alloc, path, index)?;
            let block = get(alloc, &self.tree, &key)?;
            *searches += 1;
            append(&mut bytes, bytes_of(&block), from as usize, to as usize)?;
        }
        Ok(bytes)
    }

    /// The messages of a write of some bytes at `off`: one patch for each block that they overlap, which shares its slice of
    /// them. It fails only if an allocation fails.
    pub fn write_msgs(
        &self,
        alloc: Global,
        path: &Path,
        off: u64,
        bytes: &Bytes,
    ) -> Result<Vec<Msg<BlockUpdate>>, NoMemory>
        requires file { path.now ≢ [] }
        requires some { 0 < length bytes.now }
        requires short { off + length bytes.now ≤ 2 ^ 40 }
        ensures messages { IfOk result (λ msgs. msgs.items ≡ patches path.now off bytes.now) }
        ensures meaning { IfOk result (λ msgs. Changes (patched off bytes.now) path.now msgs.items) }
    {
        // The contract of `key` says that the path is one.
        let _key = path.key();
        let first = off / BLOCK;
        let last = (off + bytes.len() as u64 - 1) / BLOCK;
        let mut msgs = Vec::with_capacity(alloc, (last - first + 1) as usize)?;
        'each: for index in first as u32..last as u32 + 1 {
            msgs.push(patch_block(alloc, path, off, bytes, index)?)?;
        }
        Ok(msgs)
    }

    /// The messages of a cut to `len` bytes: a cut of the block of the new end, if the end is inside it, and a range-delete of
    /// all later blocks. It fails only if an allocation fails.
    pub fn cut_msgs(
        &self,
        alloc: Global,
        path: &Path,
        len: u64,
    ) -> Result<Vec<Msg<BlockUpdate>>, NoMemory>
        requires file { path.now ≢ [] }
        requires short { len ≤ 2 ^ 40 }
        ensures messages { IfOk result (λ msgs. msgs.items ≡ cuts path.now len) }
        ensures meaning { IfOk result (λ msgs. CutsWhereMeant len path.now msgs.items) }
    {
        // The contract of `key` says that the path is one.
        let _key = path.key();
        let index = (len / BLOCK) as u32;
        let rest = len % BLOCK;
        let mut msgs = Vec::with_capacity(alloc, 2)?;
        if rest == 0 {
            msgs.push(Msg::DelRange(blocks_from(alloc, path, index)?))?;
            return Ok(msgs);
        }
        let key = block_key(alloc, path, index)?;
        msgs.push(Msg::Edit(key, BlockUpdate::CutTo(rest as u16)))?;
        msgs.push(Msg::DelRange(blocks_from(alloc, path, index + 1)?))?;
        Ok(msgs)
    }

    /// The first `limit` pairs of the path's subtree, the blocks of all files at or below it, in key order, or all if there are
    /// fewer. Each block is another reference to its bytes. It fails only if an allocation fails.
    pub fn below(
        &self,
        alloc: Global,
        path: &Path,
        limit: usize,
    ) -> Result<Vec<(Key, Block)>, NoMemory>
        ensures { IfOk result (λ v. IsScan (blocks self.now) (subtree path.now).lo (subtree path.now).hi limit v.items) }
    {
        scan(alloc, &self.tree, &subtree(alloc, path)?, limit)
    }
}

/// The patch of one block that the bytes overlap.
fn patch_block(
    alloc: Global,
    path: &Path,
    off: u64,
    bytes: &Bytes,
    index: u32,
) -> Result<Msg<BlockUpdate>, NoMemory>
    requires file { path.now ≢ [] }
    requires short { off + length bytes.now ≤ 2 ^ 40 }
    requires begins { off < 4096 * index + 4096 }
    requires ends { 4096 * index < off + length bytes.now }
    ensures { IfOk result (λ m. m ≡ patch_of path.now off bytes.now index) }
{
    let start = index as u64 * BLOCK;
    let from = start.saturating_sub(off);
    let at = off.saturating_sub(start);
    let len = (bytes.len() as u64 - from).min(BLOCK - at);
    let slice = bytes.slice(from as usize..(from + len) as usize)?;
    let key = block_key(alloc, path, index)?;
    Ok(Msg::Edit(key, BlockUpdate::Patch(Patch::new(at as u16, slice))))
}

/// The bytes of a block; none if it is absent.
fn bytes_of(block: &Option<Block>) -> &[u8]
    ensures { result.now ≡ held block.now }
{
    match block {
        None => &[],
        Some(block) => block.as_slice(),
    }
}

/// Appends bytes `from` to `to` of a block, with zeros for those that it lacks.
fn append(bytes: &mut Vec<u8>, block: &[u8], from: usize, to: usize) -> Result<(), NoMemory>
    requires order { from ≤ to }
    requires short { to ≤ 4096 }
    ensures long { OnOk result (length bytes.new.items ≡ length bytes.old.items + (to - from)) }
    ensures before { OnOk result ((x : ℕ) → x < length bytes.old.items → slice_index bytes.new.items x ≡ slice_index bytes.old.items x) }
    ensures added { OnOk result ((x : ℕ) → length bytes.old.items ≤ x → x < length bytes.new.items → slice_index bytes.new.items x ≡ slice_index block.now (from + (x - length bytes.old.items))) }
{
    let stop = to.min(block.len());
    let begin = from.min(stop);
    let whole = bytes.len() + (to - from);
    bytes.extend_from_slice(&block[begin..stop])?;
    bytes.resize(whole, 0)?;
    Ok(())
}
