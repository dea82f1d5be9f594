//! The mtimes of the directories in which a call adds or removes an entry.
//!
//! They change only if the call succeeds, and to the time of the call.
ghost use Rattle.std.specs.Prelude.{◌≡◌, IfOk};
ghost use Rattle.reference.specs.Tree.{Tree as Trees, dated, touched};
ghost use Rattle.reference.specs.Calls.{Outcome, parent, parents_of, is_done as done, touching, all_touching};
ghost use Rattle.reference.specs.Plain.{tree_of, effect_of, HasEffect};
ghost use Rattle.reference.specs.declared.call.Call.TheVariants.{Rename};

use super::effect::Effect;
use super::entries::{entry_named, put_entry};
use super::tree::{Tree, copy_dated, copy_tree};
use crate::reply::Reply;
use pathkey::{Names, NoMemory, Path};
use std::alloc::Global;

/// The tree with another mtime at the path of these names; unchanged if nothing is there.
fn touch_below(alloc: Global, tree: &Tree, names: Names<'_>, at: u64) -> Result<Tree, NoMemory>
    ensures { IfOk result (λ t. tree_of t ≡ touched at (tree_of tree.now) names.entry) }
{
    match names.split_first() {
        None => copy_dated(alloc, tree, at),
        Some((name, rest)) => match tree {
            Tree::File(_, _) => copy_tree(alloc, tree),
            Tree::Dir(date, entries) => {
                let Some(child) = entry_named(entries, name) else {
                    return copy_tree(alloc, tree);
                };
                let child = touch_below(alloc, child, rest, at)?;
                let entries = put_entry(alloc, entries, name, child)?;
                Tree::directory(alloc, *date, entries)
            }
        },
    }
}

/// The parent directory of a path; the root is its own.
fn directory_of(alloc: Global, path: &Path) -> Result<Path, NoMemory>
    ensures { IfOk result (λ p. p ≡ parent path.now) }
{
    match path.parent(alloc)? {
        Some(directory) => Ok(directory),
        None => Ok(Path::root(alloc)),
    }
}

/// Whether the reply is that a call succeeded and returns nothing.
fn is_done(reply: &Reply) -> bool
    ensures { result ≡ done reply.now }
{
    matches!(reply, Reply::Done)
}

/// The tree with another mtime for the path's parent directory.
fn touch_directory(
    alloc: Global,
    tree: &Tree,
    path: &Path,
    at: u64,
    reply: Reply,
) -> Result<Effect, NoMemory>
    ensures { (t : Trees) → HasEffect result t (touched at (tree_of tree.now) (parent path.now), reply) }
{
    let directory = directory_of(alloc, path)?;
    let after = touch_below(alloc, tree, directory.names(), at)?;
    Ok(Effect::Changed(after, reply))
}

/// The effect with the mtime set on the path's parent directory, if the call succeeded.
pub fn touch_parent(
    alloc: Global,
    tree: &Tree,
    effect: Effect,
    path: &Path,
    at: u64,
) -> Result<Effect, NoMemory>
    ensures { HasEffect result (tree_of tree.now) (touching at (parent path.now) (effect_of (tree_of tree.now) effect)) }
{
    match effect {
        Effect::Kept(reply) => {
            if !is_done(&reply) {
                return Ok(Effect::Kept(reply));
            }
            touch_directory(alloc, tree, path, at, reply)
        }
        Effect::Changed(after, reply) => {
            if !is_done(&reply) {
                return Ok(Effect::Changed(after, reply));
            }
            touch_directory(alloc, &after, path, at, reply)
        }
    }
}

/// The effect of a rename with the mtime set on both parent directories, once if they are the same.
pub fn touch_parents(
    alloc: Global,
    tree: &Tree,
    effect: Effect,
    old: &Path,
    new: &Path,
    at: u64,
) -> Result<Effect, NoMemory>
    ensures { HasEffect result (tree_of tree.now) (all_touching at (parents_of (Rename old.now new.now)) (effect_of (tree_of tree.now) effect)) }
{
    if old.is_same(new) {
        return Ok(effect);
    }
    let from = directory_of(alloc, old)?;
    let to = directory_of(alloc, new)?;
    let effect = touch_parent(alloc, tree, effect, old, at)?;
    if from.is_same(&to) {
        return Ok(effect);
    }
    touch_parent(alloc, tree, effect, new, at)
}
