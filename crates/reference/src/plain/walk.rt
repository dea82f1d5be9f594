//! The walk along a path, from the root down.
//!
//! A walk that fails keeps failing in the same way, so that the first missing name or file on the path decides the error.
ghost use Rattle.std.specs.Prelude.{◌≡◌, ◌∷◌, fold};
ghost use Rattle.reference.specs.Tree.{onward, entry_at};
ghost use Rattle.reference.specs.Calls.{parent, parent_fault, path_fault, no_directory_fault};
ghost use Rattle.reference.specs.Plain.{tree_of, at_of};

use super::entries::entry_named;
use super::tree::Tree;
use pathkey::{Errno, Names, Path};

/// What is at a path.
#[derive(Drop)]
pub enum At<'a> {
    /// An entry, or the root.
    Found(&'a Tree),
    /// Nothing: the name at which the walk ends is absent from its directory.
    Missing,
    /// Nothing: a component of the path's prefix is a file.
    Blocked,
}

/// One step of the walk: the entry of a name.
pub fn step<'a>(at: At<'a>, name: &[u8]) -> At<'a>
    ensures { at_of result ≡ onward (at_of at.entry) name.now }
{
    match at {
        At::Missing => At::Missing,
        At::Blocked => At::Blocked,
        At::Found(tree) => match tree {
            Tree::File(_, _) => At::Blocked,
            Tree::Dir(_, entries) => match entry_named(entries, name) {
                None => At::Missing,
                Some(child) => At::Found(child),
            },
        },
    }
}

/// What is at the end of the names.
fn walk<'a>(at: At<'a>, names: Names<'_>) -> At<'a>
    ensures { at_of result ≡ fold onward (at_of at.entry) names.entry }
{
    match names.split_first() {
        None => at,
        Some((name, rest)) => walk(step(at, name), rest),
    }
}

/// What is at the names without the last; there is at least one.
fn walk_to_parent<'a>(at: At<'a>, name: &[u8], rest: Names<'_>) -> At<'a>
    ensures { at_of result ≡ fold onward (at_of at.entry) (parent (name.now ∷ rest.entry)) }
{
    match rest.split_first() {
        None => at,
        Some((next, after)) => walk_to_parent(step(at, name), next, after),
    }
}

/// What is at the path.
pub fn find<'a>(tree: &'a Tree, path: &Path) -> At<'a>
    ensures { at_of result ≡ entry_at (tree_of tree.now) path.now }
{
    walk(At::Found(tree), path.names())
}

/// The error if a path is not found: a name is absent, or a component of the path's prefix is a file.
pub fn fault_of_path(at: &At<'_>) -> Option<Errno>
    ensures { result ≡ path_fault (at_of at.now) }
{
    match at {
        At::Found(_) => None,
        At::Missing => Some(Errno::ENOENT),
        At::Blocked => Some(Errno::ENOTDIR),
    }
}

/// The error if a path is not a directory.
fn fault_of_directory(at: &At<'_>) -> Option<Errno>
    ensures { result ≡ no_directory_fault (at_of at.now) }
{
    match at {
        At::Found(tree) => match tree {
            Tree::Dir(_, _) => None,
            Tree::File(_, _) => Some(Errno::ENOTDIR),
        },
        At::Missing => Some(Errno::ENOENT),
        At::Blocked => Some(Errno::ENOTDIR),
    }
}

/// The error if an entry cannot be created at a path, because its parent is not a directory. At the root there is no such
/// error.
pub fn fault_of_parent(tree: &Tree, path: &Path) -> Option<Errno>
    ensures { result ≡ parent_fault (tree_of tree.now) path.now }
{
    match path.names().split_first() {
        None => None,
        Some((name, rest)) => { fault_of_directory(&walk_to_parent(At::Found(tree), name, rest)) }
    }
}
