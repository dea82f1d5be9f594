//! `rename`: moves an entry with everything below it, and replaces what is at the new path.
ghost use Rattle.std.specs.Prelude.{◌≡◌, ◌≤◌, [], ◌∷◌, ◌≢◌, IfOk, IfSome, None, is_none, length, not, true};
ghost use Rattle.call_compiler.specs.Compiled.{IsCompiled, messages};
ghost use Rattle.call_compiler.specs.Moves.{IsFoundAt, MovesBlocks, MovesEntries, gets_too_long, replaced};
ghost use Rattle.message.specs.declared.msg.Msg.TheVariants.{Del, Put};
ghost use Rattle.meta_index.specs.Means.{IsMeantBy, found_meta, lookup_answer, metadata};
ghost use Rattle.pathkey.specs.Keys.{enc};
ghost use Rattle.pathkey.specs.Names.{IsPath};
ghost use Rattle.reference.specs.Calls.{faults_of_place, faults_of_replacing, first_fault, is_directory as stands_directory, is_file, is_full, path_fault};
ghost use Rattle.reference.specs.Shape.{IsTree};
ghost use Rattle.reference.specs.Tree as trees;

use crate::batch::{Batch, refused, without_messages};
use crate::dir_mtime::touch_directories;
use crate::indexes::Indexes;
use crate::remove::{fault_of_taking, is_empty_dir};
use crate::subtrees::{has_too_long_key, rekeyed_msgs};
use block_index::BlockUpdate;
use message::Msg;
use meta_index::{At, Meta, MetaUpdate};
use pathkey::{Errno, NoMemory, Path, blocks_from, subtree};
use reference::{Call, Reply};
use std::alloc::Global;

/// Moves the entry at `old`, with everything below it, to `new`, where it replaces a file or an empty directory (POSIX.1-2017,
/// rename). If both paths are the same, nothing changes.
///
/// Each entry and each block at or below `old` is put under its new key. Then what was at or below `old` is removed: a file's entry
/// by its key, everything else by one range-delete in each index, that of blocks only if there was one. The blocks of a file that
/// is replaced are removed first, and the mtimes of both directories are set last. No byte of a file is copied.
pub fn rename(
    alloc: Global,
    indexes: &Indexes,
    old: &Path,
    new: &Path,
    at: u64,
) -> Result<(Reply, Batch), NoMemory>
    ensures { IfOk result (λ c. IsCompiled indexes.now (Call.Rename old.now new.now) at c.0 (messages c.1)) }
{
    // The postcondition of `key` states that both paths are valid.
    let _old_key = old.key();
    let _new_key = new.key();
    let from = indexes.meta.find(alloc, old)?;
    if let Some(fault) = fault_of_taking(old, from) {
        return Ok(refused(alloc, fault));
    }
    if old.is_same(new) {
        return Ok(without_messages(alloc, Reply::Done));
    }
    let to = indexes.meta.find(alloc, new)?;
    if let Some(fault) = fault_of_place(alloc, indexes, old, from, new, to)? {
        return Ok(refused(alloc, fault));
    }
    let Some(entries) = moved_entries(alloc, indexes, old, from, new)? else {
        return Ok(refused(alloc, Errno::ENAMETOOLONG));
    };
    let block = moved_blocks(alloc, indexes, old, new, to)?;
    let mut meta = entries;
    touch_directories(alloc, &mut meta, old, new, at)?;
    Ok((Reply::Done, Batch { meta, block }))
}

/// Why the entry `from`, found at `old`, cannot be moved to `new`, another path, where `to` was found, whatever the length of
/// its texts; `None` if it can.
fn fault_of_place(
    alloc: Global,
    indexes: &Indexes,
    old: &Path,
    from: At,
    new: &Path,
    to: At,
) -> Result<Option<Errno>, NoMemory>
    ensures { IfOk result (λ fault. (t : trees.Tree) → IsMeantBy t indexes.now.meta → from ≡ lookup_answer (trees.entry_at t old.now) → to ≡ lookup_answer (trees.entry_at t new.now) → path_fault (trees.entry_at t old.now) ≡ None → fault ≡ first_fault (faults_of_place t old.now new.now)) }
{
    if is_directory(from) && new.is_under(old) {
        return Ok(Some(Errno::EINVAL));
    }
    if let Some(fault) = indexes.meta.fault_of_parent(alloc, new)? {
        return Ok(Some(fault));
    }
    let empty = is_empty_there(alloc, indexes, new, to)?;
    Ok(fault_of_replacing(from, to, empty))
}

/// Whether nothing exists below the path, where `here` was found. The index is read only for a directory.
fn is_empty_there(alloc: Global, indexes: &Indexes, path: &Path, here: At) -> Result<bool, NoMemory>
    ensures { IfOk result (λ empty. (t : trees.Tree) → IsMeantBy t indexes.now.meta → here ≡ lookup_answer (trees.entry_at t path.now) → empty ≡ not (is_full (trees.entry_at t path.now))) }
{
    if is_directory(here) {
        is_empty_dir(alloc, indexes, path)
    } else {
        Ok(true)
    }
}

/// Whether a directory is at a path.
fn is_directory(at: At) -> bool
    ensures { (here : trees.At) → at ≡ lookup_answer here → result ≡ stands_directory here }
{
    match at {
        At::Found(Meta::Dir { .. }) => true,
        At::Found(Meta::File { .. }) => false,
        At::Missing => false,
        At::Blocked => false,
    }
}

/// Why the entry at one path cannot replace what is at another; `empty` says whether nothing exists below the other.
fn fault_of_replacing(from: At, to: At, empty: bool) -> Option<Errno>
    ensures { (a b : trees.At) → from ≡ lookup_answer a → to ≡ lookup_answer b → empty ≡ not (is_full b) → path_fault a ≡ None → result ≡ first_fault (faults_of_replacing a b) }
{
    match (from, to) {
        (At::Found(Meta::File { .. }), At::Found(Meta::Dir { .. })) => Some(Errno::EISDIR),
        (At::Found(Meta::Dir { .. }), At::Found(Meta::File { .. })) => Some(Errno::ENOTDIR),
        (At::Found(Meta::Dir { .. }), At::Found(Meta::Dir { .. })) if !empty => Some(
            Errno::ENOTEMPTY,
        ),
        // Nothing exists there, a file replaces a file, or a directory an empty one.
        _ => None,
    }
}

/// The message that deletes the blocks of a file at the path, where `to` was found; none if that is not a file.
fn delete_target_blocks(
    alloc: Global,
    to: At,
    path: &Path,
) -> Result<Vec<Msg<BlockUpdate>>, NoMemory>
    ensures blocks { IfOk result (λ msgs. (t : trees.Tree) → IsTree t → to ≡ lookup_answer (trees.entry_at t path.now) → msgs.items ≡ replaced (trees.entry_at t path.now) path.now) }
    ensures few { IfOk result (λ msgs. length msgs.items ≤ 1) }
{
    let mut msgs = Vec::new(alloc);
    if has_file(path, to) {
        msgs.push(Msg::DelRange(blocks_from(alloc, path, 0)?))?;
    }
    Ok(msgs)
}

/// Whether a file is at the path, where `here` was found. The root of a tree is not a file.
fn has_file(path: &Path, here: At) -> bool
    ensures file { (t : trees.Tree) → IsTree t → here ≡ lookup_answer (trees.entry_at t path.now) → result ≡ is_file (trees.entry_at t path.now) }
    ensures below { result ≡ true → path.now ≢ [] }
{
    match here {
        At::Found(Meta::File { .. }) => !path.is_root(),
        At::Found(Meta::Dir { .. }) => false,
        At::Missing => false,
        At::Blocked => false,
    }
}

/// The messages that move the entry `from`, found at `old`, with everything below it, to `new`; `None` if a text would get too
/// long. Nothing is below a file, so the index is not read for one.
fn moved_entries(
    alloc: Global,
    indexes: &Indexes,
    old: &Path,
    from: At,
    new: &Path,
) -> Result<Option<Vec<Msg<MetaUpdate>>>, NoMemory>
    ensures moves { found_meta from ≡ metadata indexes.now.meta (enc old.now) → IfOk result (λ moved. IfSome moved (λ msgs. MovesEntries indexes.now.meta old.now new.now from msgs.items)) }
    ensures long { IfOk result (λ moved. (t : trees.Tree) → IsFoundAt indexes.now.meta old.now from t → path_fault (trees.entry_at t old.now) ≡ None → is_none moved ≡ gets_too_long t old.now new.now) }
{
    // The postcondition of `key` states that the path is valid.
    let _old_key = old.key();
    if let At::Found(Meta::File { len, modified }) = from {
        let msgs = moved_file(alloc, old, new, Meta::File { len, modified })?;
        return Ok(Some(msgs));
    }
    let mut msgs = rekeyed_msgs(alloc, &indexes.meta.tree, old, new, Vec::new(alloc))?;
    if has_too_long_key(msgs.as_slice()) {
        return Ok(None);
    }
    msgs.push(Msg::DelRange(subtree(alloc, old)?))?;
    Ok(Some(msgs))
}

/// The messages that put a file's metadata at `new` and delete those at `old`.
fn moved_file(
    alloc: Global,
    old: &Path,
    new: &Path,
    file: Meta,
) -> Result<Vec<Msg<MetaUpdate>>, NoMemory>
    ensures messages { IfOk result (λ msgs. msgs.items ≡ Put (enc new.now) file ∷ Del (enc old.now) ∷ []) }
    ensures path { IfOk result (λ _. IsPath new.now) }
{
    // The mtimes of both directories will follow.
    let mut msgs = Vec::with_capacity(alloc, 4)?;
    msgs.push(Msg::Put(new.key().copy(alloc)?, file))?;
    msgs.push(Msg::Del(old.key().copy(alloc)?))?;
    Ok(msgs)
}

/// The messages that move the blocks of everything at or below `old` to `new`, where `to` was found: those of a file that is
/// replaced are deleted first. If there is no block to move, none is deleted at `old`.
fn moved_blocks(
    alloc: Global,
    indexes: &Indexes,
    old: &Path,
    new: &Path,
    to: At,
) -> Result<Vec<Msg<BlockUpdate>>, NoMemory>
    ensures { IfOk result (λ msgs. MovesBlocks indexes.now.block old.now new.now to msgs.items) }
{
    let first = delete_target_blocks(alloc, to, new)?;
    let before = first.len();
    let mut msgs = rekeyed_msgs(alloc, &indexes.block.tree, old, new, first)?;
    if msgs.len() == before {
        return Ok(msgs);
    }
    msgs.push(Msg::DelRange(subtree(alloc, old)?))?;
    Ok(msgs)
}
