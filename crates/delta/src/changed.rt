//! The paths at which two trees differ, found at the keys that were touched: only touched ranges are walked, or both trees whole if
//! it is not known what was touched (`Changes::All`).
//!
//! A path is in the list if its entry came, went or changed: its kind, its mtime, or the length or the bytes of a file. A directory is
//! not there because of what is below it.
ghost use Rattle.std.specs.Prelude.{◌≡◌, ◌++◌, IfOk, OnOk, map};
ghost use Rattle.call_compiler.specs.declared.indexes.Indexes.{Indexes};
ghost use Rattle.reference.specs.Tree.{Tree};
ghost use Rattle.volume.specs.Differences.{AgreeBeside};
ghost use Rattle.volume.specs.Volumes.{MeanRooted};
ghost use Rattle.delta.specs.Changed.{AreChanged, file_key};

use crate::differing_keys::{DifferingKeys, differing_keys};
use crate::rising_keys::{file_key, paths_of, sort_distinct};
use change_log::Changes;
use pathkey::{Key, NoMemory, Path};
use std::alloc::Global;
use volume::Frozen;

/// The paths at which two trees differ, in the order of their keys. `before` has all keys at which the old tree may differ from some
/// third one, and `after` those at which the new tree may (`Volume::changed_since`). It fails only if an allocation fails.
///
/// It looks up each of these keys in both trees, and walks the ranges among them.
pub fn changed_paths(
    alloc: Global,
    old: &Frozen,
    new: &Frozen,
    before: &Changes,
    after: &Changes,
) -> Result<Vec<Path>, NoMemory>
    requires { (i : Indexes) × AgreeBeside before.now old.now.indexes i × AgreeBeside after.now new.now.indexes i }
    ensures { IfOk result (λ paths. (t u : Tree) → MeanRooted old.now t → MeanRooted new.now u → AreChanged t u paths.items) }
{
    old.assert_invariant();
    new.assert_invariant();
    let differing = differing_keys(alloc, old, new, before, after)?;
    let mut keys = mixed(alloc, differing)?;
    sort_distinct(&mut keys)?;
    let paths = paths_of(alloc, keys.as_slice())?;
    Ok(paths)
}

/// The keys of the entries, and of the files of the blocks.
fn mixed(alloc: Global, differing: DifferingKeys) -> Result<Vec<Key>, NoMemory>
    ensures { IfOk result (λ keys. keys.items ≡ differing.metas.items ++ map file_key differing.blocks.items) }
{
    let DifferingKeys {
        metas: mut keys,
        blocks,
    } = differing;
    add_files(alloc, blocks.as_slice(), &mut keys)?;
    Ok(keys)
}

/// Adds the keys of the files whose blocks have these keys.
fn add_files(alloc: Global, blocks: &[Key], out: &mut Vec<Key>) -> Result<(), NoMemory>
    ensures { OnOk result (out.new.items ≡ out.old.items ++ map file_key blocks.now) }
{
    for key in blocks {
        out.push(file_key(alloc, key)?)?;
    }
    Ok(())
}
