//! Iteration over a frozen tree: its entries, or the blocks of a file, a number of them at a time, or the blocks of one file after
//! the other.
//!
//! Each request is one walk of an index from its root, without a search for each entry. A `BlockWalk` continues from one request
//! to the next: the pairs that it read ahead follow its position without a gap.
ghost use Rattle.std.specs.Prelude.{◌≡◌, ◌≢◌, ◌<◌, ◌≤◌, ◌↔◌, ◌++◌, [], ◌∷◌, ℕ, List, All, IfOk, IfSome, true};
ghost use Rattle.std.specs.Option.{option_to_list};
ghost use Rattle.block_index.specs.Means.{blocks};
ghost use Rattle.pathkey.specs.Keys.{enc};
ghost use Rattle.reference.specs.Indexes.{PathOf, most_blocks};
ghost use Rattle.reference.specs.Tree.{Tree, entry_at};
ghost use Rattle.volume.specs.Extents.{IsNextStored};
ghost use Rattle.volume.specs.Volumes.{MeanRooted};
ghost use Rattle.volume.specs.Walks.{AreBlocksAt, AreEntries, IsOwn, ReadsNumbers, ReadsPaths};

use crate::cursor::Cursor;
use crate::frozen::Frozen;
use block_index::{Block, BlockUpdate};
use call_compiler::copy_range::block_number;
use pathkey::{Key, KeyRange, NoMemory, Path, block_key, blocks_from, dec};
use reference::Meta;
use scan::scan;
use std::alloc::Global;
use std::marker::Model;

impl Frozen {
    /// The first `limit` entries from a path on, each with its path, in key order, or all if there are fewer; the root is
    /// one of them.
    ///
    /// To continue, request the entries from the path of the last one on, and skip the first.
    pub fn entries(
        &self,
        alloc: Global,
        from: &Path,
        limit: usize,
    ) -> Result<Vec<(Path, Meta)>, NoMemory>
        ensures { IfOk result (λ v. (t : Tree) → MeanRooted self.now t → AreEntries t from.now limit v.items) }
    {
        let lo = from.key().copy(alloc)?;
        let rest = KeyRange { lo, hi: None };
        let pairs = scan(alloc, &self.indexes().meta.tree, &rest, limit)?;
        self.assert_invariant();
        with_paths(alloc, pairs)
    }

    /// The first `limit` stored blocks of the file at the path from a block number on, each with its number, or all if there
    /// are fewer; none if the path is not a file. A block that is not stored has only zeros.
    ///
    /// Each block is a reference to shared bytes. To continue, request the blocks from the number after the last one on.
    pub fn blocks(
        &self,
        alloc: Global,
        path: &Path,
        from: u32,
        limit: usize,
    ) -> Result<Vec<(u32, Block)>, NoMemory>
        ensures blocks { IfOk result (λ v. (t : Tree) → MeanRooted self.now t → AreBlocksAt (entry_at t path.now) from limit v.items) }
        ensures few { IfOk result (λ v. All (λ x. x.0 < most_blocks) v.items) }
    {
        // The postcondition of `key` states that the path is valid.
        let _key = path.key();
        if path.is_root() {
            return Ok(Vec::new(alloc));
        }
        let rest = blocks_from(alloc, path, from)?;
        let pairs = scan(alloc, &self.indexes().block.tree, &rest, limit)?;
        self.assert_invariant();
        with_numbers(alloc, pairs)
    }
}

/// The stored blocks of one file after the other, of a frozen tree. In contracts it is the tree.
///
/// If files are requested in the order of their paths, and the blocks of each in the order of their numbers, all are read in one
/// walk of the index without a search. Any other order needs a search.
#[derive(Drop)]
pub struct BlockWalk<'a> {
    frozen: &'a Frozen,
    cursor: Cursor<BlockUpdate>,
}

impl<'a> Model for BlockWalk<'a> {
    ghost use Rattle.volume.specs.Codes.{coded_rooted};
    ghost use Rattle.volume.specs.declared.fs_root.FsRoot.{FsRoot};

    ghost Value = { FsRoot };

    ghost coded = { coded_rooted };

    ghost use Rattle.std.specs.Prelude.{◌≡◌, None};
    ghost use Rattle.block_index.specs.Means.{blocks};
    ghost use Rattle.volume.specs.Cursors.{StandsAt};

    ghost view = { λ w. w.frozen.now };

    ghost invariant = { λ w. (StandsAt (blocks w.frozen.now.indexes.block) w.cursor.range w.cursor.first w.cursor.pieces.all w.cursor.pieces.pairs.items) × (w.cursor.range.hi ≡ None) };
}

impl<'a> BlockWalk<'a> {
    /// An iteration over the blocks of a tree. It allocates nothing.
    pub fn new(alloc: Global, frozen: &'a Frozen) -> BlockWalk<'a>
        ensures { result ≡ frozen.now }
    {
        BlockWalk {
            frozen,
            cursor: Cursor::new(alloc),
        }
    }

    /// The first stored block of the file at the path from a number on, with its number; `None` if the file has no more, or the
    /// path is not a file. A block that is not stored has only zeros.
    ///
    /// The block is a reference to shared bytes. It fails only if an allocation fails; then the same request may be repeated.
    pub fn next(
        &mut self,
        alloc: Global,
        path: &Path,
        from: u32,
    ) -> Result<Option<(u32, Block)>, NoMemory>
        ensures block { IfOk result (λ r. (t : Tree) → MeanRooted self.old t → AreBlocksAt (entry_at t path.now) from 1 (option_to_list r)) }
        ensures number { IfOk result (λ r. IfSome r (λ x. (from ≤ x.0) × (x.0 < most_blocks))) }
        ensures stored { IfOk result (λ r. path.now ≢ [] → IsNextStored (blocks self.old.indexes.block) path.now from r) }
        ensures tree { self.new ≡ self.old }
    {
        // The postcondition of `key` states that the path is valid.
        let _key = path.key();
        if path.is_root() {
            return Ok(None);
        }
        let frozen = self.frozen;
        let key = block_key(alloc, path, from)?;
        self.cursor.seek(alloc, &frozen.indexes().block.tree, key)?;
        frozen.assert_invariant();
        own_block(&self.cursor.first, path)
    }
}

/// The block of a pair, with its number, if the pair's key is that of a block of the path.
fn own_block(pair: &Option<(Key, Block)>, path: &Path) -> Result<Option<(u32, Block)>, NoMemory>
    ensures { IfOk result (λ r. IsOwn path.now pair.now r) }
{
    let Some((key, block)) = pair else {
        return Ok(None);
    };
    if is_of(key, path) {
        Ok(Some((block_number(key), block.copy()?)))
    } else {
        Ok(None)
    }
}

/// Whether a key is the path's followed by a byte 0, and more or nothing.
fn is_of(key: &Key, path: &Path) -> bool
    ensures { result ≡ true ↔ ((z : List ℕ) × (key.now ≡ enc path.now ++ 0 ∷ z)) }
{
    match key.as_bytes().strip_prefix(path.key().as_bytes()) {
        Some([0, ..]) => true,
        _ => false,
    }
}

/// The pairs, each with the path that has its key.
fn with_paths(alloc: Global, pairs: Vec<(Key, Meta)>) -> Result<Vec<(Path, Meta)>, NoMemory>
    requires { All (λ p. PathOf p.0) pairs.items }
    ensures { IfOk result (λ v. ReadsPaths pairs.items v.items) }
{
    let mut entries = Vec::with_capacity(alloc, pairs.len())?;
    for (key, meta) in pairs {
        let Some(path) = dec(alloc, &key)? else {
            // Each key of the metadata is a path's.
            unreachable!();
        };
        entries.push((path, meta))?;
    }
    Ok(entries)
}

/// The pairs, each with the number of the block that has its key.
fn with_numbers(alloc: Global, pairs: Vec<(Key, Block)>) -> Result<Vec<(u32, Block)>, NoMemory>
    ensures { IfOk result (λ v. ReadsNumbers pairs.items v.items) }
{
    let mut blocks = Vec::with_capacity(alloc, pairs.len())?;
    for (key, block) in pairs {
        let number = block_number(&key);
        blocks.push((number, block))?;
    }
    Ok(blocks)
}
