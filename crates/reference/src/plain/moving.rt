//! `rename`: errors of the old path, of the new path and of both together, and then the move.
ghost use Rattle.std.specs.Prelude.{◌≡◌, ◌+◌, false, nat_lt};
ghost use Rattle.reference.specs.Tree.{Found, entry_at, with_entry, without};
ghost use Rattle.reference.specs.Calls.{deepest, faults_of_rename, faults_of_replacing, first_fault, is_root, renamed, text_len};
ghost use Rattle.reference.specs.Plain.{tree_of, at_of, HasEffect};

use super::depth::is_within;
use super::edit::edit;
use super::effect::Effect;
use super::tree::{Entries, Tree, copy_tree};
use super::walk::{At, fault_of_parent, find};
use crate::reply::{Kind, Reply};
use pathkey::{Errno, NoMemory, Path};
use std::alloc::Global;

/// The maximum length of a path's text.
const GREATEST_TEXT: usize = 1_023;

/// The error if an entry cannot replace what is at the new path.
fn fault_of_replacing(from: &Tree, to: &At<'_>) -> Option<Errno>
    ensures { result ≡ first_fault (faults_of_replacing (Found (tree_of from.now)) (at_of to.now)) }
{
    match to {
        At::Missing => None,
        At::Blocked => None,
        At::Found(found) => match (from, *found) {
            (Tree::File(_, _), Tree::File(_, _)) => None,
            (Tree::File(_, _), Tree::Dir(_, _)) => Some(Errno::EISDIR),
            (Tree::Dir(_, _), Tree::File(_, _)) => Some(Errno::ENOTDIR),
            (Tree::Dir(_, _), Tree::Dir(_, entries)) => match **entries {
                Entries::Nothing => None,
                Entries::Entry(_, _, _) => Some(Errno::ENOTEMPTY),
            },
        },
    }
}

/// Whether the text of a path at or below the new one would be too long.
fn is_too_long(from: &Tree, new: &Path) -> bool
    ensures { result ≡ nat_lt 1023 (text_len new.now + deepest (tree_of from.now)) }
{
    let len = new.key().as_bytes().len();
    !is_within(from, GREATEST_TEXT - len)
}

/// The error if the entry at the old path cannot be moved to the new one.
fn fault_of_move(tree: &Tree, from: &Tree, old: &Path, new: &Path) -> Option<Errno>
    ensures { entry_at (tree_of tree.now) old.now ≡ Found (tree_of from.now) → result ≡ first_fault (faults_of_rename (tree_of tree.now) old.now new.now) }
{
    if from.kind() == Kind::Dir && new.is_under(old) {
        return Some(Errno::EINVAL);
    }
    if let Some(fault) = fault_of_parent(tree, new) {
        return Some(fault);
    }
    if let Some(fault) = fault_of_replacing(from, &find(tree, new)) {
        return Some(fault);
    }
    if is_too_long(from, new) {
        return Some(Errno::ENAMETOOLONG);
    }
    None
}

/// The tree with the entry removed at the old path and added at the new one.
fn move_entry(
    alloc: Global,
    tree: &Tree,
    from: &Tree,
    old: &Path,
    new: &Path,
) -> Result<Effect, NoMemory>
    ensures { HasEffect result (tree_of tree.now) (with_entry (without (tree_of tree.now) old.now) new.now (tree_of from.now), Reply.Done) }
{
    let moved = copy_tree(alloc, from)?;
    let before = edit(alloc, tree, old, None)?;
    let after = edit(alloc, &before, new, Some(moved))?;
    Ok(Effect::Changed(after, Reply::Done))
}

/// The effect of the rename on the entry at the old path.
fn rename_entry(
    alloc: Global,
    tree: &Tree,
    from: &Tree,
    old: &Path,
    new: &Path,
) -> Result<Effect, NoMemory>
    ensures { is_root old.now ≡ false → entry_at (tree_of tree.now) old.now ≡ Found (tree_of from.now) → HasEffect result (tree_of tree.now) (renamed (tree_of tree.now) old.now new.now) }
{
    if old.is_same(new) {
        return Ok(Effect::Kept(Reply::Done));
    }
    match fault_of_move(tree, from, old, new) {
        Some(fault) => Ok(Effect::refused(fault)),
        None => move_entry(alloc, tree, from, old, new),
    }
}

/// `rename`: moves the entry at the old path to the new one, where it may replace a file or an empty directory.
pub fn rename(alloc: Global, tree: &Tree, old: &Path, new: &Path) -> Result<Effect, NoMemory>
    ensures { HasEffect result (tree_of tree.now) (renamed (tree_of tree.now) old.now new.now) }
{
    if old.is_root() {
        return Ok(Effect::refused(Errno::EBUSY));
    }
    match find(tree, old) {
        At::Missing => Ok(Effect::refused(Errno::ENOENT)),
        At::Blocked => Ok(Effect::refused(Errno::ENOTDIR)),
        At::Found(from) => rename_entry(alloc, tree, from, old, new),
    }
}
