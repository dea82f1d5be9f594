//! The calls that remove entries: `unlink`, `rmdir`, `rmtree`.
//!
//! Each finds its error first. None removes the root.
ghost use Rattle.std.specs.Prelude.{◌≡◌};
ghost use Rattle.reference.specs.Tree.{without};
ghost use Rattle.reference.specs.Calls.{directory_removed, faults_of_rmdir, first_fault, removed, unlinked};
ghost use Rattle.reference.specs.Plain.{tree_of, HasEffect};

use super::edit::edit;
use super::effect::Effect;
use super::tree::{Entries, Tree};
use super::walk::{At, fault_of_path, find};
use crate::reply::Reply;
use pathkey::{Errno, NoMemory, Path};
use std::alloc::Global;

/// The tree without the entry at the path.
fn take_out_at(alloc: Global, tree: &Tree, path: &Path) -> Result<Effect, NoMemory>
    ensures { HasEffect result (tree_of tree.now) (without (tree_of tree.now) path.now, Reply.Done) }
{
    let after = edit(alloc, tree, path, None)?;
    Ok(Effect::Changed(after, Reply::Done))
}

/// `unlink`: removes a file; fails for a directory.
pub fn unlink(alloc: Global, tree: &Tree, path: &Path) -> Result<Effect, NoMemory>
    ensures { HasEffect result (tree_of tree.now) (unlinked (tree_of tree.now) path.now) }
{
    match find(tree, path) {
        At::Missing => Ok(Effect::refused(Errno::ENOENT)),
        At::Blocked => Ok(Effect::refused(Errno::ENOTDIR)),
        At::Found(found) => match found {
            Tree::Dir(_, _) => Ok(Effect::refused(Errno::EPERM)),
            Tree::File(_, _) => take_out_at(alloc, tree, path),
        },
    }
}

/// The error if no empty directory can be removed at the path.
fn fault_of_rmdir(tree: &Tree, path: &Path) -> Option<Errno>
    ensures { result ≡ first_fault (faults_of_rmdir (tree_of tree.now) path.now) }
{
    if path.is_root() {
        return Some(Errno::EBUSY);
    }
    match find(tree, path) {
        At::Missing => Some(Errno::ENOENT),
        At::Blocked => Some(Errno::ENOTDIR),
        At::Found(found) => match found {
            Tree::File(_, _) => Some(Errno::ENOTDIR),
            Tree::Dir(_, entries) => match **entries {
                Entries::Nothing => None,
                Entries::Entry(_, _, _) => Some(Errno::ENOTEMPTY),
            },
        },
    }
}

/// `rmdir`: removes an empty directory that is not the root.
pub fn remove_directory(alloc: Global, tree: &Tree, path: &Path) -> Result<Effect, NoMemory>
    ensures { HasEffect result (tree_of tree.now) (directory_removed (tree_of tree.now) path.now) }
{
    match fault_of_rmdir(tree, path) {
        Some(fault) => Ok(Effect::refused(fault)),
        None => take_out_at(alloc, tree, path),
    }
}

/// `rmtree`: removes an entry that is not the root, and all entries below it.
pub fn remove_tree(alloc: Global, tree: &Tree, path: &Path) -> Result<Effect, NoMemory>
    ensures { HasEffect result (tree_of tree.now) (removed (tree_of tree.now) path.now) }
{
    if path.is_root() {
        return Ok(Effect::refused(Errno::EBUSY));
    }
    match fault_of_path(&find(tree, path)) {
        Some(fault) => Ok(Effect::refused(fault)),
        None => take_out_at(alloc, tree, path),
    }
}
