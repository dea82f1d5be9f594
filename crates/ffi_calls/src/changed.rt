//! The paths at which two trees of a volume differ.
ghost use Rattle.std.specs.Prelude.{◌≡◌, ◌++◌, IfErr, IfOk, Ok, OnOk};
ghost use Rattle.pathkey.specs.declared.errno.Errno.TheVariants.{ENOMEM};
ghost use Rattle.reference.specs.Tree.{Tree};
ghost use Rattle.reference.specs.Worlds.{World};
ghost use Rattle.call_compiler.specs.declared.indexes.Indexes.{Indexes};
ghost use Rattle.change_log.specs.KeyLogs.{touched_of};
ghost use Rattle.change_log.specs.Touched.{untouched};
ghost use Rattle.volume.specs.Differences.{AgreeBeside};
ghost use Rattle.volume.specs.Volumes.{MeanRooted, Means};
ghost use Rattle.delta.specs.Changed.{AreChanged};
ghost use Rattle.ffi_calls.specs.Differences.{DifferAt, LacksOne, LacksTree, NamesTree, PrintsChanged, path_bytes, paths_bytes};

use crate::reads::copy_if_fits;
use crate::snapshots::freeze;
use change_log::{Changes, TouchedKeys};
use pathkey::{Errno, NoMemory, Path, SnapName};
use std::alloc::Global;
use volume::{Frozen, Volume};

/// A tree of a volume, and the keys at which it may differ from the live tree.
#[derive(Drop)]
pub(crate) struct NamedTree {
    pub(crate) tree: Frozen,
    pub(crate) changes: Changes,
}

/// Lists the paths at which two trees of a volume differ, in the order of their keys: for each its text and a zero byte. Each tree is
/// named as its snapshot, and the live tree by an empty text. Returns the length of the list in bytes. It is written only if the buffer
/// is large enough for all of it, and otherwise the buffer is unchanged. Fails with the error of the old name if that has no tree,
/// else with that of the new name, or with ENOMEM.
pub fn changed_paths(
    alloc: Global,
    volume: &Volume,
    old: &[u8],
    new: &[u8],
    out: &mut [u8],
) -> Result<usize, Errno>
    ensures listed { (w : World) → Means volume.now w → IfOk result (λ n. PrintsChanged old.now new.now w (Ok n) out.old out.new) }
    ensures refused { (w : World) → Means volume.now w → IfErr result (LacksOne old.now new.now w) }
    ensures untouched { IfErr result (λ _. out.new ≡ out.old) }
{
    let paths = paths_between(alloc, volume, old, new)?;
    let text = text_of(alloc, paths.as_slice())?;
    Ok(copy_if_fits(text.as_slice(), out))
}

// The paths at which two named trees differ.
fn paths_between(alloc: Global, volume: &Volume, old: &[u8], new: &[u8]) -> Result<Vec<Path>, Errno>
    ensures paths { (w : World) → Means volume.now w → IfOk result (λ paths. DifferAt old.now new.now w paths.items) }
    ensures refused { (w : World) → Means volume.now w → IfErr result (LacksOne old.now new.now w) }
{
    let before = named_tree(alloc, volume, old)?;
    match named_tree(alloc, volume, new) {
        Ok(after) => differing(alloc, before, after),
        Err(fault) => {
            drop(before);
            Err(fault)
        }
    }
}

// The paths at which two trees of one volume differ.
fn differing(alloc: Global, before: NamedTree, after: NamedTree) -> Result<Vec<Path>, Errno>
    requires { (i : Indexes) × AgreeBeside before.changes before.tree.indexes i × AgreeBeside after.changes after.tree.indexes i }
    ensures paths { IfOk result (λ paths. (t u : Tree) → MeanRooted before.tree t → MeanRooted after.tree u → AreChanged t u paths.items) }
    ensures refused { IfErr result (λ e. e ≡ ENOMEM) }
{
    let paths = delta::changed_paths(
        alloc,
        &before.tree,
        &after.tree,
        &before.changes,
        &after.changes,
    )?;
    Ok(paths)
}

/// The tree with this name: a snapshot, or the live tree if the name is empty.
pub(crate) fn named_tree(alloc: Global, volume: &Volume, name: &[u8]) -> Result<NamedTree, Errno>
    ensures found { (w : World) → Means volume.now w → IfOk result (λ n. (t : Tree) × NamesTree name.now w t × MeanRooted n.tree t) }
    ensures agree { IfOk result (λ n. AgreeBeside n.changes n.tree.indexes volume.now.live.indexes) }
    ensures refused { (w : World) → Means volume.now w → IfErr result (LacksTree name.now w) }
{
    if name.is_empty() {
        let tree = freeze(volume)?;
        let changes = Changes::Within(nothing(alloc), nothing(alloc));
        return Ok(NamedTree { tree, changes });
    }
    let name = SnapName::parse(alloc, name)?;
    let tree = volume.frozen(&name)?;
    match volume.changed_since(alloc, &name) {
        Ok(changes) => Ok(NamedTree { tree, changes }),
        // The snapshot is there, so this is ENOMEM.
        Err(fault) => {
            drop(tree);
            Err(fault)
        }
    }
}

// No keys.
fn nothing(alloc: Global) -> TouchedKeys
    ensures { touched_of result ≡ untouched }
{
    TouchedKeys {
        keys: Vec::new(alloc),
        ranges: Vec::new(alloc),
    }
}

// The texts of paths, each with a zero byte behind it.
fn text_of(alloc: Global, paths: &[Path]) -> Result<Vec<u8>, NoMemory>
    ensures { IfOk result (λ text. text.items ≡ paths_bytes paths.now) }
{
    let mut text = Vec::new(alloc);
    for path in paths {
        put_path(&mut text, path)?;
        text.push(0)?;
    }
    Ok(text)
}

// Appends the text of a path.
fn put_path(text: &mut Vec<u8>, path: &Path) -> Result<(), NoMemory>
    ensures { OnOk result (text.new.items ≡ text.old.items ++ path_bytes path.now) }
{
    if path.is_root() {
        text.push(b'/')?;
        return Ok(());
    }
    let mut left = path.names();
    'names: while let Some((name, rest)) = left.split_first() {
        text.push(b'/')?;
        text.extend_from_slice(name)?;
        left = rest;
    }
    Ok(())
}
