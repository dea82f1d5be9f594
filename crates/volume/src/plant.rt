//! Creates entries as an image lists them: an empty directory, or a file with the given number of zeros. Also sets the root's
//! mtime.
ghost use Rattle.std.specs.Prelude.{◌≡◌, ◌++◌, ◌∷◌, [], IfOk};
ghost use Rattle.call_compiler.specs.Compiled.{messages};
ghost use Rattle.meta_index.specs.Means.{IsMeantBy};
ghost use Rattle.pathkey.specs.Names.{IsPath};
ghost use Rattle.pathkey.specs.Outcomes.{when};
ghost use Rattle.pathkey.specs.declared.errno.Errno.{Errno as Refusal};
ghost use Rattle.reference.specs.Calls.{faults_of_new, first_fault, is_root};
ghost use Rattle.reference.specs.Plant.{faults_of_plant, is_too_long};
ghost use Rattle.reference.specs.Tree.{Tree};
ghost use Rattle.volume.specs.Differences.{Tracks};
ghost use Rattle.volume.specs.Marked.{KeepMarkedLists, KeepsMarks};
ghost use Rattle.volume.specs.Plants.{PlantsIn, is_directory, one_put};
ghost use Rattle.volume.specs.Volumes.{Kept};

use crate::append_noted::append_noted;
use crate::fs_root::mtime_of;
use crate::live_indexes::LiveIndexes;
use call_compiler::Batch;
use change_log::ChangeLog;
use message::Msg;
use meta_index::MetaIndex;
use pathkey::{Errno, NoMemory, Path};
use reference::{GREATEST_FILE, Meta};
use std::alloc::Global;

/// Plants an entry, by one message. If it fails, nothing changes.
pub(crate) fn plant(
    alloc: Global,
    live: &mut LiveIndexes,
    changes: &mut ChangeLog,
    path: &Path,
    meta: Meta,
) -> Result<(), Errno>
    ensures entry { PlantsIn path.now meta result live.old.indexes live.new.indexes }
    ensures lists { IfOk result (λ _. KeepMarkedLists (one_put path.now meta) live.old live.new) }
    ensures marks { live.new.marks ≡ live.old.marks }
    ensures kept { KeepsMarks live.old live.new }
    ensures noted { (snapshots : Kept) → Tracks changes.old snapshots live.old.indexes → Tracks changes.new snapshots live.new.indexes }
{
    if let Some(fault) = fault_of_plant(alloc, &live.indexes().meta, path, meta)? {
        return Err(fault);
    }
    // The postcondition of `mtime_of` states that this is a timestamp.
    let _early = mtime_of(meta);
    let batch = one_put(alloc, path, meta)?;
    append_noted(alloc, live, changes, batch)?;
    Ok(())
}

/// The error of planting an entry at the path; `None` if there is none. It fails only if an allocation fails.
fn fault_of_plant(
    alloc: Global,
    index: &MetaIndex,
    path: &Path,
    meta: Meta,
) -> Result<Option<Errno>, NoMemory>
    ensures { IfOk result (λ fault. (t : Tree) → IsMeantBy t index.now → fault ≡ first_fault (faults_of_plant t path.now meta)) }
{
    if path.is_root() && is_directory(meta) {
        return Ok(None);
    }
    fault_of_entry(alloc, index, path, meta)
}

/// The error of planting a new entry at the path; `None` if there is none. It fails only if an allocation fails.
fn fault_of_entry(
    alloc: Global,
    index: &MetaIndex,
    path: &Path,
    meta: Meta,
) -> Result<Option<Errno>, NoMemory>
    ensures { IfOk result (λ fault. (t : Tree) → IsMeantBy t index.now → fault ≡ first_fault (faults_of_new t path.now ++ when (is_too_long meta) Refusal.EFBIG ∷ [])) }
{
    if let Some(fault) = index.fault_of_parent(alloc, path)? {
        return Ok(Some(fault));
    }
    if index.has(alloc, path)? {
        return Ok(Some(Errno::EEXIST));
    }
    if is_too_long(meta) {
        return Ok(Some(Errno::EFBIG));
    }
    Ok(None)
}

/// Whether it is a directory.
fn is_directory(meta: Meta) -> bool
    ensures { result ≡ is_directory meta }
{
    match meta {
        Meta::Dir { modified: _ } => true,
        Meta::File {
            len: _,
            modified: _,
        } => false,
    }
}

/// Whether a file would be too long.
fn is_too_long(meta: Meta) -> bool
    ensures { result ≡ is_too_long meta }
{
    match meta {
        Meta::Dir { modified: _ } => false,
        Meta::File { len, modified: _ } => len > GREATEST_FILE,
    }
}

/// The messages that plant an entry.
fn one_put(alloc: Global, path: &Path, meta: Meta) -> Result<Batch, NoMemory>
    ensures valid { IsPath path.now }
    ensures messages { IfOk result (λ batch. messages batch ≡ one_put path.now meta) }
{
    let put = Msg::Put(path.key().copy(alloc)?, meta);
    let mut msgs = Vec::with_capacity(alloc, 1)?;
    msgs.push(put)?;
    Ok(Batch {
        meta: msgs,
        block: Vec::new(alloc),
    })
}
