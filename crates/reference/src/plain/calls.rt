//! The eleven file calls on a tree.
//!
//! A call is computed in two parts: what it changes, and then the mtimes of the parent directories. The tree is replaced only at the
//! end, so that it is unchanged if an allocation fails.
ghost use Rattle.std.specs.Prelude.{◌≡◌, IfOk, OnErr};
ghost use Rattle.reference.specs.Calls.{Outcome, changed, does as outcome};
ghost use Rattle.reference.specs.Plain.{tree_of, HasEffect};

use super::effect::Effect;
use super::making::{make_directory, make_file, truncate_file, write_file};
use super::moving::rename;
use super::reading::{list_directory, read_file, stat};
use super::removing::{remove_directory, remove_tree, unlink};
use super::touching::{touch_parent, touch_parents};
use super::tree::Tree;
use crate::call::Call;
use crate::reply::Reply;
use pathkey::NoMemory;
use std::alloc::Global;

/// What a call at a time changes of a tree, except for the mtimes of its directories.
#[tactic(auto, unfolding(crate::specs::Calls::changed))]
fn change(alloc: Global, tree: &Tree, call: &Call, at: u64) -> Result<Effect, NoMemory>
    ensures { HasEffect result (tree_of tree.now) (changed at (tree_of tree.now) call.now) }
{
    match call {
        Call::Mkdir(path) => make_directory(alloc, tree, path, at),
        Call::Create(path) => make_file(alloc, tree, path, at),
        Call::Write(path, offset, new) => write_file(alloc, tree, path, *offset, new, at),
        Call::Truncate(path, len) => truncate_file(alloc, tree, path, *len, at),
        Call::Unlink(path) => unlink(alloc, tree, path),
        Call::Rmdir(path) => remove_directory(alloc, tree, path),
        Call::Rename(old, new) => rename(alloc, tree, old, new),
        Call::Rmtree(path) => remove_tree(alloc, tree, path),
        Call::Read(path, offset, count) => {
            Ok(Effect::Kept(read_file(alloc, tree, path, *offset, *count)?))
        }
        Call::Stat(path) => Ok(Effect::Kept(stat(tree, path))),
        Call::Readdir(path) => Ok(Effect::Kept(list_directory(alloc, tree, path)?)),
    }
}

/// The effect of a call at a time on a tree.
#[tactic(auto, unfolding(crate::specs::Calls::does))]
fn effect_on(alloc: Global, tree: &Tree, call: &Call, at: u64) -> Result<Effect, NoMemory>
    ensures { HasEffect result (tree_of tree.now) (outcome at (tree_of tree.now) call.now) }
{
    let effect = change(alloc, tree, call, at)?;
    match call {
        Call::Mkdir(path)
        | Call::Create(path)
        | Call::Unlink(path)
        | Call::Rmdir(path)
        | Call::Rmtree(path) => touch_parent(alloc, tree, effect, path, at),
        Call::Rename(old, new) => touch_parents(alloc, tree, effect, old, new, at),
        _ => Ok(effect),
    }
}

/// Applies a call at a time to a tree, and returns the reply. If an allocation fails the tree is unchanged.
pub fn does(alloc: Global, tree: &mut Tree, call: &Call, at: u64) -> Result<Reply, NoMemory>
    ensures value { IfOk result (λ r. ◌≡◌ {A = Outcome} (tree_of tree.new, r) (outcome at (tree_of tree.old) call.now)) }
    ensures unchanged { OnErr result (tree.new ≡ tree.old) }
{
    match effect_on(alloc, tree, call, at)? {
        Effect::Kept(reply) => Ok(reply),
        Effect::Changed(after, reply) => {
            *tree = after;
            Ok(reply)
        }
    }
}
