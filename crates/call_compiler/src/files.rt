//! Looks up the file that a call names, and deletes its blocks.
ghost use Rattle.std.specs.Prelude.{◌≡◌, ◌≢◌, ◌≤◌, ◌^◌, ◌==◌, ◌&&◌, [], IfOk, false, length};
ghost use Rattle.block_index.specs.Means.{blocks};
ghost use Rattle.block_index.specs.Updates.{means as block_means};
ghost use Rattle.call_compiler.specs.Compiled.{AreClear, has_grown};
ghost use Rattle.call_compiler.specs.Files.{IsShort, TellsFile, TellsGrowth};
ghost use Rattle.message.specs.Effects.{effects};
ghost use Rattle.meta_index.specs.Means.{IsMeantBy, found_meta, metadata, lookup_answer};
ghost use Rattle.pathkey.specs.Keys.{Key, blocks_from as blocks_of, enc};
ghost use Rattle.reference.specs.Indexes.{cleared};
ghost use Rattle.reference.specs.Tree as trees;

use crate::indexes::Indexes;
use block_index::BlockUpdate;
use message::Msg;
use meta_index::{At, Meta};
use pathkey::{Errno, KeyRange, NoMemory, Path, blocks_from};
use reference::GREATEST_FILE;
use scan::first_in;
use std::alloc::Global;

/// A file at a path.
#[derive(Clone, Copy)]
pub(crate) struct FoundFile {
    /// Its length in bytes.
    pub(crate) len: u64,
    /// Its mtime.
    pub(crate) modified: u64,
}

impl FoundFile {
    /// Whether it has at least `end` bytes, and the mtime `at`.
    pub(crate) fn has_grown(self, end: u64, at: u64) -> bool
        ensures { result ≡ has_grown end at self.len self.modified }
    {
        end <= self.len && self.modified == at
    }

    /// Whether it has exactly `len` bytes, and the mtime `at`.
    pub(crate) fn has_exactly(self, len: u64, at: u64) -> bool
        ensures { result ≡ (self.len == len && (self.modified == at)) }
    {
        self.len == len && self.modified == at
    }
}

/// The file at the path; or why there is none, `directory` if a directory is there.
pub(crate) fn find_file(
    alloc: Global,
    indexes: &Indexes,
    path: &Path,
    directory: Errno,
) -> Result<Result<FoundFile, Errno>, NoMemory>
    ensures reported { IfOk result (λ file. (t : trees.Tree) → IsMeantBy t indexes.now.meta → TellsFile (trees.entry_at t path.now) directory file) }
    ensures path { IfOk result (λ file. IfOk file (λ _. path.now ≢ [])) }
    ensures short { IfOk result (λ file. IfOk file (λ f. f.len ≤ 2 ^ 40)) }
    ensures grown { IfOk result (λ file. IfOk file (TellsGrowth (metadata indexes.now.meta (enc path.now)))) }
{
    if path.is_root() {
        return Ok(Err(directory));
    }
    let at = indexes.meta.find(alloc, path)?;
    Ok(file_of(at, directory))
}

/// The file at a path; or why there is none. No file is longer than the limit.
fn file_of(at: At, directory: Errno) -> Result<FoundFile, Errno>
    ensures reported { (here : trees.At) → at ≡ lookup_answer here → IsShort here → TellsFile here directory result }
    ensures short { IfOk result (λ f. f.len ≤ 2 ^ 40) }
    ensures grown { IfOk result (TellsGrowth (found_meta at)) }
{
    match at {
        At::Found(Meta::File { len, modified }) => Ok(FoundFile {
            // The bound has no effect, since no file of a tree is longer; it is for the proof.
            len: len.min(GREATEST_FILE),
            modified,
        }),
        At::Found(Meta::Dir { .. }) => Err(directory),
        At::Missing => Err(Errno::ENOENT),
        At::Blocked => Err(Errno::ENOTDIR),
    }
}

/// The message that deletes the blocks of the file at the path; none if it has neither a byte nor a block.
pub(crate) fn without_blocks(
    alloc: Global,
    indexes: &Indexes,
    path: &Path,
    file: FoundFile,
) -> Result<Vec<Msg<BlockUpdate>>, NoMemory>
    requires file { path.now ≢ [] }
    ensures cleared { IfOk result (λ msgs. (k : Key) → effects block_means msgs.items k (blocks indexes.now.block k) ≡ cleared (blocks_of path.now 0) (blocks indexes.now.block) k) }
    ensures few { IfOk result (λ msgs. length msgs.items ≤ 1) }
    ensures none { IfOk result (λ msgs. file.len ≡ 0 → AreClear (blocks indexes.now.block) (blocks_of path.now 0) → msgs.items ≡ []) }
{
    let range = blocks_from(alloc, path, 0)?;
    let mut msgs = Vec::new(alloc);
    if may_have_blocks(alloc, indexes, &range, file)? {
        msgs.push(Msg::DelRange(range))?;
    }
    Ok(msgs)
}

/// Whether there may be a block in the range, which contains the blocks of a file. A file with bytes is not searched for one:
/// the search would cost more than a range-delete.
fn may_have_blocks(
    alloc: Global,
    indexes: &Indexes,
    range: &KeyRange,
    file: FoundFile,
) -> Result<bool, NoMemory>
    ensures none { IfOk result (λ some. some ≡ false → AreClear (blocks indexes.now.block) range.now) }
    ensures asked { IfOk result (λ some. file.len ≡ 0 → AreClear (blocks indexes.now.block) range.now → some ≡ false) }
{
    if file.len > 0 {
        return Ok(true);
    }
    let first = first_in(alloc, &indexes.block.tree, range)?;
    Ok(first.is_some())
}
