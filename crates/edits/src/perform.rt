//! One edit of a volume's live tree, by calls that change nothing but the entry at its path.
//!
//! An edit first looks up whether it fits. The calls have the mtime of what they would touch as their timestamp: `rmdir` and `unlink` that
//! of the parent, and a write that of the file. So no other mtime changes. There is a function for each kind of change, which returns what
//! `perform` does.
ghost use Rattle.std.specs.Prelude.{◌≡◌, ◌≢◌, ◌↔◌, ℕ, List, IfOk, IsTrue, MatchOption, None, Some, drop, take};
ghost use Rattle.edits.specs.Applies.{Performs};
ghost use Rattle.edits.specs.Edits.{block_digest};
ghost use Rattle.edits.specs.Tried.{EachSight, WhetherDone};
ghost use Rattle.pathkey.specs.Names.{parent};
ghost use Rattle.reference.specs.Indexes.{meta_of};
ghost use Rattle.reference.specs.Reads.{Bytes as FileBytes, Directory, Seen, sight};
ghost use Rattle.reference.specs.Worlds.{World};
ghost use Rattle.volume.specs.Volumes.{Means};

use crate::block::{block_span, has_digest, zero_filled};
use crate::edit::{Change, Edit};
use block_index::BLOCK;
use pathkey::{Errno, NoMemory, Path};
use reference::Meta;
use std::alloc::Global;
use volume::Volume;

/// Does an edit. Returns whether it was done: it is not if it does not fit, or makes no tree, and then nothing changes. If an allocation
/// fails, nothing changes either.
pub(crate) fn perform(alloc: Global, volume: &mut Volume, edit: &Edit) -> Result<bool, NoMemory>
    ensures { Performs edit.now result volume.old volume.new }
{
    let path = &edit.path;
    match &edit.change {
        Change::Remove(meta) => remove(alloc, volume, path, *meta),
        Change::Add(meta) => add(alloc, volume, path, *meta),
        Change::Alter(old, new) => alter(alloc, volume, path, *old, *new),
        Change::Block(number, old, new) => {
            rewrite(alloc, volume, path, *number, *old, new.as_slice())
        }
    }
}

/// Removes the entry at a path.
fn remove(alloc: Global, volume: &mut Volume, path: &Path, meta: Meta) -> Result<bool, NoMemory>
    ensures { Performs (record { path = path.now; change = Change.Remove meta }) result volume.old volume.new }
{
    if path.is_root() {
        return Ok(false);
    }
    if !has_meta(alloc, volume, path, meta)? {
        return Ok(false);
    }
    let Some(modified) = parent_mtime(alloc, volume, path)? else {
        return Ok(false);
    };
    match meta {
        Meta::Dir { .. } => was_done(volume.rmdir(alloc, path, modified)),
        Meta::File { .. } => was_done(volume.unlink(alloc, path, modified)),
    }
}

/// Adds an entry at a path.
fn add(alloc: Global, volume: &mut Volume, path: &Path, meta: Meta) -> Result<bool, NoMemory>
    ensures { Performs (record { path = path.now; change = Change.Add meta }) result volume.old volume.new }
{
    if meta_at(alloc, volume, path)?.is_some() {
        return Ok(false);
    }
    was_done(volume.plant_entry(alloc, path, meta))
}

/// Changes the mtime of a directory, or the length and the mtime of a file.
fn alter(
    alloc: Global,
    volume: &mut Volume,
    path: &Path,
    old: Meta,
    new: Meta,
) -> Result<bool, NoMemory>
    ensures { Performs (record { path = path.now; change = Change.Alter old new }) result volume.old volume.new }
{
    if !has_meta(alloc, volume, path, old)? {
        return Ok(false);
    }
    match (old, new) {
        (Meta::Dir { .. }, Meta::Dir { modified }) => {
            was_done(volume.set_mtime(alloc, path, modified))
        }
        (Meta::File { .. }, Meta::File { len, modified }) => {
            was_done(volume.truncate(alloc, path, len, modified))
        }
        _ => Ok(false),
    }
}

/// Rewrites a block of a file.
fn rewrite(
    alloc: Global,
    volume: &mut Volume,
    path: &Path,
    number: u64,
    old: Option<[u8; 32]>,
    new: &[u8],
) -> Result<bool, NoMemory>
    ensures { Performs (record { path = path.now; change = Change.Block number old new.now }) result volume.old volume.new }
{
    let Some((len, modified)) = file_at(alloc, volume, path)? else {
        return Ok(false);
    };
    let Some((start, size)) = block_span(number, len) else {
        return Ok(false);
    };
    if new.len() > size {
        return Ok(false);
    }
    if !block_has_digest(alloc, volume, path, start, old)? {
        return Ok(false);
    }
    let block = zero_filled(alloc, new, size)?;
    was_done(volume.write(alloc, path, start, block.as_slice(), modified))
}

/// The metadata of the entry at a path.
fn meta_at(alloc: Global, volume: &Volume, path: &Path) -> Result<Option<Meta>, NoMemory>
    ensures { IfOk result (λ found. EachSight volume.now path.now (λ s. found ≡ meta_of s)) }
{
    volume.indexes().meta.entry(alloc, path)
}

/// Whether the entry at a path has these metadata.
fn has_meta(alloc: Global, volume: &Volume, path: &Path, meta: Meta) -> Result<bool, NoMemory>
    ensures { IfOk result (λ there. EachSight volume.now path.now (λ s. IsTrue there ↔ (meta_of s ≡ Some meta))) }
{
    Ok(meta_at(alloc, volume, path)? == Some(meta))
}

/// The length and the mtime of the file at a path; `None` if no file is there.
fn file_at(alloc: Global, volume: &Volume, path: &Path) -> Result<Option<(u64, u64)>, NoMemory>
    ensures { IfOk result (λ found. EachSight volume.now path.now (λ s. MatchOption found ((n date : ℕ) → meta_of s ≢ Some (Meta.File n date)) (λ file. meta_of s ≡ Some (Meta.File file.0 file.1)))) }
{
    match meta_at(alloc, volume, path)? {
        Some(Meta::File { len, modified }) => Ok(Some((len, modified))),
        Some(Meta::Dir { .. }) => Ok(None),
        None => Ok(None),
    }
}

/// The mtime of the parent of an entry; `None` if there is no such entry. The root is its own parent.
fn parent_mtime(alloc: Global, volume: &Volume, path: &Path) -> Result<Option<u64>, NoMemory>
    ensures { IfOk result (λ found. (w : World) → Means volume.now w → MatchOption found (meta_of (sight w.live path.now) ≡ None) (λ at. sight w.live (parent path.now) ≡ Some (Seen Directory at))) }
{
    let Ok((_, modified)) = volume.indexes().meta.find_parent_mtime(alloc, path)? else {
        return Ok(None);
    };
    Ok(Some(modified))
}

/// Whether the block of a file that begins at an offset has this digest.
fn block_has_digest(
    alloc: Global,
    volume: &Volume,
    path: &Path,
    start: u64,
    digest: Option<[u8; 32]>,
) -> Result<bool, NoMemory>
    ensures { IfOk result (λ same. EachSight volume.now path.now (λ s. (b : List ℕ) (at : ℕ) → s ≡ Some (Seen (FileBytes b) at) → (IsTrue same ↔ (block_digest (take 4096 (drop start b)) ≡ digest)))) }
{
    match volume.read(alloc, path, start, BLOCK) {
        Ok(block) => Ok(has_digest(block.as_slice(), digest)),
        // A file can be read unless an allocation fails.
        Err(_) => Err(NoMemory),
    }
}

/// Whether a call was done. An error other than for memory says that the edit makes no tree.
fn was_done<T: Drop>(answer: Result<T, Errno>) -> Result<bool, NoMemory>
    ensures { WhetherDone answer result }
{
    match answer {
        Ok(_) => Ok(true),
        Err(Errno::ENOMEM) => Err(NoMemory),
        Err(_) => Ok(false),
    }
}
