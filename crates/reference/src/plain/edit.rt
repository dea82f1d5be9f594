//! Adds or removes one entry of a tree.
//!
//! The result is a new tree: the directories from the root down to the entry's parent have the changed entry, and all other entries
//! are equal to the old ones.
ghost use Rattle.std.specs.Prelude.{◌≡◌, ◌∷◌, IfOk};
ghost use Rattle.reference.specs.Tree.{set_entry, edited};
ghost use Rattle.reference.specs.Plain.{tree_of, entries_of, tree_given};

use super::entries::{entry_named, put_entry, without_entry};
use super::tree::{Entries, Tree, copy_tree};
use pathkey::{Names, NoMemory, Path};
use std::alloc::Global;

/// The entries with the tree inserted at the name, or with the name removed.
fn set_name(
    alloc: Global,
    entries: &Entries,
    name: &[u8],
    entry: Option<Tree>,
) -> Result<Entries, NoMemory>
    ensures { IfOk result (λ es. entries_of es ≡ set_entry name.now (tree_given entry) (entries_of entries.now)) }
{
    match entry {
        None => without_entry(alloc, entries, name),
        Some(tree) => put_entry(alloc, entries, name, tree),
    }
}

/// The tree with the entry at a name and the names after it inserted or removed.
fn edit_below(
    alloc: Global,
    tree: &Tree,
    name: &[u8],
    rest: Names<'_>,
    entry: Option<Tree>,
) -> Result<Tree, NoMemory>
    ensures { IfOk result (λ t. tree_of t ≡ edited (tree_of tree.now) (name.now ∷ rest.entry) (tree_given entry)) }
{
    match tree {
        Tree::File(_, _) => copy_tree(alloc, tree),
        Tree::Dir(date, entries) => match rest.split_first() {
            None => {
                let entries = set_name(alloc, entries, name, entry)?;
                Tree::directory(alloc, *date, entries)
            }
            Some((next, after)) => {
                let Some(child) = entry_named(entries, name) else {
                    return copy_tree(alloc, tree);
                };
                let child = edit_below(alloc, child, next, after, entry)?;
                let entries = put_entry(alloc, entries, name, child)?;
                Tree::directory(alloc, *date, entries)
            }
        },
    }
}

/// A tree with the entry at a path inserted or removed; unchanged at the root, and if the path's parent is not a directory.
pub fn edit(alloc: Global, tree: &Tree, path: &Path, entry: Option<Tree>) -> Result<Tree, NoMemory>
    ensures { IfOk result (λ t. tree_of t ≡ edited (tree_of tree.now) path.now (tree_given entry)) }
{
    match path.names().split_first() {
        None => copy_tree(alloc, tree),
        Some((name, rest)) => edit_below(alloc, tree, name, rest, entry),
    }
}
