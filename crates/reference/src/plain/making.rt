//! The calls that create or write: `mkdir`, `create`, `write`, `truncate`.
//!
//! Each finds its error first, and only then builds the new tree.
ghost use Rattle.std.specs.Prelude.{◌≡◌, []};
ghost use Rattle.reference.specs.Tree.{Dir, File, nothing, with_entry};
ghost use Rattle.reference.specs.Calls.{faults_of_new, first_fault, made, truncated, written};
ghost use Rattle.reference.specs.Plain.{tree_of, HasEffect};

use super::contents::{copy_over, copy_sized};
use super::edit::edit;
use super::effect::Effect;
use super::tree::{Entries, Tree};
use super::walk::{At, fault_of_parent, find};
use crate::limits::{GREATEST_FILE, fits_file};
use crate::reply::Reply;
use bytes::Bytes;
use pathkey::{Errno, NoMemory, Path};
use std::alloc::Global;

/// The tree with a new entry at the path.
fn put_at(
    alloc: Global,
    tree: &Tree,
    path: &Path,
    new: Tree,
    reply: Reply,
) -> Result<Effect, NoMemory>
    ensures { HasEffect result (tree_of tree.now) (with_entry (tree_of tree.now) path.now (tree_of new), reply) }
{
    let after = edit(alloc, tree, path, Some(new))?;
    Ok(Effect::Changed(after, reply))
}

/// The error if no new entry can be created at the path.
fn fault_of_new(tree: &Tree, path: &Path) -> Option<Errno>
    ensures { result ≡ first_fault (faults_of_new (tree_of tree.now) path.now) }
{
    if path.is_root() {
        return Some(Errno::EEXIST);
    }
    if let Some(fault) = fault_of_parent(tree, path) {
        return Some(fault);
    }
    match find(tree, path) {
        At::Found(_) => Some(Errno::EEXIST),
        _ => None,
    }
}

/// A new entry, if its parent is a directory and nothing is at the path.
fn make(alloc: Global, tree: &Tree, path: &Path, new: Tree) -> Result<Effect, NoMemory>
    ensures { HasEffect result (tree_of tree.now) (made (tree_of tree.now) path.now (tree_of new)) }
{
    match fault_of_new(tree, path) {
        Some(fault) => Ok(Effect::refused(fault)),
        None => put_at(alloc, tree, path, new, Reply::Done),
    }
}

/// `mkdir` at a time: a new empty directory.
pub fn make_directory(alloc: Global, tree: &Tree, path: &Path, at: u64) -> Result<Effect, NoMemory>
    ensures { HasEffect result (tree_of tree.now) (made (tree_of tree.now) path.now (Dir at nothing)) }
{
    let new = Tree::directory(alloc, at, Entries::Nothing)?;
    make(alloc, tree, path, new)
}

/// `create` at a time: a new empty file.
pub fn make_file(alloc: Global, tree: &Tree, path: &Path, at: u64) -> Result<Effect, NoMemory>
    ensures { HasEffect result (tree_of tree.now) (made (tree_of tree.now) path.now (File at [])) }
{
    make(alloc, tree, path, Tree::File(at, Vec::new(alloc)))
}

/// `write` at a time: overwrites the file with the bytes at the offset; a write of no bytes changes nothing.
pub fn write_file(
    alloc: Global,
    tree: &Tree,
    path: &Path,
    offset: u64,
    new: &Bytes,
    at: u64,
) -> Result<Effect, NoMemory>
    ensures { HasEffect result (tree_of tree.now) (written at (tree_of tree.now) path.now offset new.now) }
{
    match find(tree, path) {
        At::Missing => Ok(Effect::refused(Errno::ENOENT)),
        At::Blocked => Ok(Effect::refused(Errno::ENOTDIR)),
        At::Found(found) => match found {
            Tree::Dir(_, _) => Ok(Effect::refused(Errno::EISDIR)),
            Tree::File(_, bytes) => {
                if new.is_empty() {
                    return Ok(Effect::Kept(Reply::Count(0)));
                }
                if !fits_file(offset, new.len()) {
                    return Ok(Effect::refused(Errno::EFBIG));
                }
                let written_over = copy_over(
                    alloc,
                    bytes.as_slice(),
                    offset as usize,
                    new.as_slice(),
                )?;
                put_at(
                    alloc,
                    tree,
                    path,
                    Tree::File(at, written_over),
                    Reply::Count(new.len() as u64),
                )
            }
        },
    }
}

/// `truncate` at a time: cuts the file to a length, or extends it with zeros.
pub fn truncate_file(
    alloc: Global,
    tree: &Tree,
    path: &Path,
    len: u64,
    at: u64,
) -> Result<Effect, NoMemory>
    ensures { HasEffect result (tree_of tree.now) (truncated at (tree_of tree.now) path.now len) }
{
    match find(tree, path) {
        At::Missing => Ok(Effect::refused(Errno::ENOENT)),
        At::Blocked => Ok(Effect::refused(Errno::ENOTDIR)),
        At::Found(found) => match found {
            Tree::Dir(_, _) => Ok(Effect::refused(Errno::EISDIR)),
            Tree::File(_, bytes) => {
                if len > GREATEST_FILE {
                    return Ok(Effect::refused(Errno::EFBIG));
                }
                let sized = copy_sized(alloc, bytes.as_slice(), len as usize)?;
                put_at(alloc, tree, path, Tree::File(at, sized), Reply::Done)
            }
        },
    }
}
