//! Prints the edits that make one tree of another: a delta of format 2 (`docs/FORMATS.md`). Its lines are found at the keys that were
//! touched: only touched ranges are walked, or both trees whole if it is not known what was touched (`Changes::All`).
//!
//! First the entries that go are removed, the lower ones first; then entries come or change, in the order of their paths; then blocks
//! get their bytes.
ghost use Rattle.std.specs.Prelude.{◌≡◌, ◌≢◌, ◌++◌, ◌≤◌, ◌<◌, [], ℕ, List, Contains, IfOk, IfSome, MatchResult, OnOk, take, drop};
ghost use Rattle.call_compiler.specs.declared.indexes.Indexes.{Indexes};
ghost use Rattle.reference.specs.Calls.{bytes_of};
ghost use Rattle.reference.specs.Image.{trimmed};
ghost use Rattle.reference.specs.Indexes.{meta_of, most_blocks};
ghost use Rattle.reference.specs.Reads.{sight};
ghost use Rattle.reference.specs.Tree.{Tree, entry_at};
ghost use Rattle.volume.specs.Differences.{AgreeBeside};
ghost use Rattle.volume.specs.Volumes.{MeanRooted};
ghost use Rattle.edits.specs.Between.{AreBlocksBetween, AreEntriesBetween, arrival, arrivals, block_change, edit_of, removal, removals, rewrites};
ghost use Rattle.edits.specs.Lines.{IsChange, edits_text};
ghost use Rattle.delta.specs.Changed.{PrintsEdits};

use crate::differing_keys::{DifferingKeys, differing_keys};
use crate::rising_keys::{blocks_of, paths_of, sort_distinct};
use block_index::BLOCK;
use bytes::Bytes;
use change_log::Changes;
use edits::{Change, Edit, block_digest, put_edit};
use pathkey::{Errno, NoMemory, Path};
use reference::Meta;
use std::alloc::Global;
use textio::text::trimmed_len;
use volume::Frozen;

/// Prints the edits that make the new tree of the old one. `before` has all keys at which the old tree may differ from some third one,
/// and `after` those at which the new tree may (`Volume::changed_since`). It fails only if an allocation fails.
pub fn print_edits(
    alloc: Global,
    old: &Frozen,
    new: &Frozen,
    before: &Changes,
    after: &Changes,
) -> Result<Vec<u8>, NoMemory>
    requires { (i : Indexes) × AgreeBeside before.now old.now.indexes i × AgreeBeside after.now new.now.indexes i }
    ensures { IfOk result (λ text. (t u : Tree) → MeanRooted old.now t → MeanRooted new.now u → PrintsEdits text.items t u) }
{
    old.assert_invariant();
    new.assert_invariant();
    let DifferingKeys {
        mut metas,
        mut blocks,
    } = differing_keys(alloc, old, new, before, after)?;
    sort_distinct(&mut metas)?;
    sort_distinct(&mut blocks)?;
    let paths = paths_of(alloc, metas.as_slice())?;
    let found = blocks_of(alloc, blocks.as_slice())?;
    print_between(alloc, old, new, paths.as_slice(), found.as_slice())
}

/// Prints the edits at the paths where entries differ, and at the blocks that do.
fn print_between(
    alloc: Global,
    old: &Frozen,
    new: &Frozen,
    paths: &[Path],
    blocks: &[(Path, u32)],
) -> Result<Vec<u8>, NoMemory>
    requires entries { (t u : Tree) → MeanRooted old.now t → MeanRooted new.now u → AreEntriesBetween t u paths.now }
    requires blocks { (t u : Tree) → MeanRooted old.now t → MeanRooted new.now u → AreBlocksBetween t u blocks.now }
    ensures { IfOk result (λ text. (t u : Tree) → MeanRooted old.now t → MeanRooted new.now u → PrintsEdits text.items t u) }
{
    old.assert_invariant();
    new.assert_invariant();
    let mut out = Vec::new(alloc);
    out.extend_from_slice(b"delta 2\n")?;
    put_removals(alloc, old, new, paths, &mut out)?;
    put_arrivals(alloc, old, new, paths, &mut out)?;
    put_rewrites(alloc, old, new, blocks, &mut out)?;
    out.extend_from_slice(b"end\n")?;
    Ok(out)
}

/// Appends the removals of the entries that go, from the last path to the first.
fn put_removals(
    alloc: Global,
    old: &Frozen,
    new: &Frozen,
    paths: &[Path],
    out: &mut Vec<u8>,
) -> Result<(), NoMemory>
    ensures { OnOk result ((t u : Tree) → MeanRooted old.now t → MeanRooted new.now u → out.new.items ≡ out.old.items ++ edits_text (removals t u paths.now)) }
{
    for number in 0..paths.len() {
        let path = &paths[paths.len() - 1 - number];
        put_removal(alloc, old, new, path, out)?;
    }
    Ok(())
}

/// Appends the removal of the entry at the path, if it goes.
fn put_removal(
    alloc: Global,
    old: &Frozen,
    new: &Frozen,
    path: &Path,
    out: &mut Vec<u8>,
) -> Result<(), NoMemory>
    ensures { OnOk result ((t u : Tree) → MeanRooted old.now t → MeanRooted new.now u → out.new.items ≡ out.old.items ++ edits_text (edit_of path.now (removal (meta_of (sight t path.now)) (meta_of (sight u path.now))))) }
{
    old.assert_invariant();
    new.assert_invariant();
    let was = find_meta(alloc, old, path)?;
    let is = find_meta(alloc, new, path)?;
    put_change(alloc, path, removal(was, is), out)
}

/// How an entry goes, if it does: none comes, or one of the other kind.
fn removal(was: Option<Meta>, is: Option<Meta>) -> Option<Change>
    ensures { result ≡ removal was is }
{
    match (was, is) {
        (None, _) => None,
        (Some(Meta::Dir { modified: _ }), Some(Meta::Dir { modified: _ })) => None,
        (
            Some(
                Meta::File {
                    len: _,
                    modified: _,
                },
            ),
            Some(
                Meta::File {
                    len: _,
                    modified: _,
                },
            ),
        ) => None,
        (Some(meta), _) => Some(Change::Remove(meta)),
    }
}

/// Appends how entries come or change.
fn put_arrivals(
    alloc: Global,
    old: &Frozen,
    new: &Frozen,
    paths: &[Path],
    out: &mut Vec<u8>,
) -> Result<(), NoMemory>
    ensures { OnOk result ((t u : Tree) → MeanRooted old.now t → MeanRooted new.now u → out.new.items ≡ out.old.items ++ edits_text (arrivals t u paths.now)) }
{
    for path in paths {
        put_arrival(alloc, old, new, path, out)?;
    }
    Ok(())
}

/// Appends how the entry at the path comes or changes, if it does.
fn put_arrival(
    alloc: Global,
    old: &Frozen,
    new: &Frozen,
    path: &Path,
    out: &mut Vec<u8>,
) -> Result<(), NoMemory>
    ensures { OnOk result ((t u : Tree) → MeanRooted old.now t → MeanRooted new.now u → out.new.items ≡ out.old.items ++ edits_text (edit_of path.now (arrival (meta_of (sight t path.now)) (meta_of (sight u path.now))))) }
{
    old.assert_invariant();
    new.assert_invariant();
    let was = find_meta(alloc, old, path)?;
    let is = find_meta(alloc, new, path)?;
    put_change(alloc, path, arrival(was, is), out)
}

/// How an entry comes, or changes if one of its kind is there.
fn arrival(was: Option<Meta>, is: Option<Meta>) -> Option<Change>
    ensures { result ≡ arrival was is }
{
    match (was, is) {
        (_, None) => None,
        (Some(Meta::Dir { modified: at }), Some(Meta::Dir { modified: to })) => {
            Some(Change::Alter(Meta::Dir { modified: at }, Meta::Dir { modified: to }))
        }
        (
            Some(Meta::File { len, modified: at }),
            Some(
                Meta::File {
                    len: longer,
                    modified: to,
                },
            ),
        ) => Some(Change::Alter(
            Meta::File { len, modified: at },
            Meta::File {
                len: longer,
                modified: to,
            },
        )),
        (_, Some(meta)) => Some(Change::Add(meta)),
    }
}

/// Appends how blocks are rewritten.
fn put_rewrites(
    alloc: Global,
    old: &Frozen,
    new: &Frozen,
    blocks: &[(Path, u32)],
    out: &mut Vec<u8>,
) -> Result<(), NoMemory>
    requires { (b : List (List ℕ) × ℕ) → Contains blocks.now b → b.1 < most_blocks }
    ensures { OnOk result ((t u : Tree) → MeanRooted old.now t → MeanRooted new.now u → out.new.items ≡ out.old.items ++ edits_text (rewrites t u blocks.now)) }
{
    for block in blocks {
        put_rewrite(alloc, old, new, &block.0, block.1, out)?;
    }
    Ok(())
}

/// Appends how a block is rewritten, if it is in a file of the new tree.
fn put_rewrite(
    alloc: Global,
    old: &Frozen,
    new: &Frozen,
    path: &Path,
    number: u32,
    out: &mut Vec<u8>,
) -> Result<(), NoMemory>
    requires { number < most_blocks }
    ensures { OnOk result ((t u : Tree) → MeanRooted old.now t → MeanRooted new.now u → out.new.items ≡ out.old.items ++ edits_text (edit_of path.now (block_change (sight t path.now) (sight u path.now) number))) }
{
    old.assert_invariant();
    new.assert_invariant();
    let change = block_change(alloc, old, new, path, number)?;
    put_change(alloc, path, change, out)
}

/// How a block is rewritten, if it is in a file of the new tree.
fn block_change(
    alloc: Global,
    old: &Frozen,
    new: &Frozen,
    path: &Path,
    number: u32,
) -> Result<Option<Change>, NoMemory>
    ensures { IfOk result (λ change. (t u : Tree) → MeanRooted old.now t → MeanRooted new.now u → change ≡ block_change (sight t path.now) (sight u path.now) number) }
{
    let Some(Meta::File { len, modified: _ }) = find_meta(alloc, new, path)? else {
        return Ok(None);
    };
    let from = BLOCK * u64::from(number);
    if from >= len {
        return Ok(None);
    }
    let count = (len - from).min(BLOCK);
    let was = read_part(alloc, old, path, from, count)?;
    let digest = block_digest(was.as_slice());
    let is = read_part(alloc, new, path, from, count)?;
    let bytes = without_zeros(is)?;
    Ok(Some(Change::Block(u64::from(number), digest, bytes)))
}

/// The bytes up to the last that is not zero.
fn without_zeros(mut bytes: Vec<u8>) -> Result<Bytes, NoMemory>
    ensures { IfOk result (λ kept. kept ≡ trimmed bytes.items) }
{
    let kept = trimmed_len(bytes.as_slice());
    bytes.truncate(kept);
    Ok(Bytes::from_vec(bytes)?)
}

/// The metadata of the entry at the path, if there is one.
fn find_meta(alloc: Global, tree: &Frozen, path: &Path) -> Result<Option<Meta>, NoMemory>
    ensures { IfOk result (λ meta. (t : Tree) → MeanRooted tree.now t → meta ≡ meta_of (sight t path.now)) }
{
    tree.indexes().meta.entry(alloc, path)
}

/// At most `count` bytes of the file at the path from an offset on; none if there is no file.
fn read_part(
    alloc: Global,
    tree: &Frozen,
    path: &Path,
    from: u64,
    count: u64,
) -> Result<Vec<u8>, NoMemory>
    requires { count ≤ 4096 }
    ensures { IfOk result (λ bytes. (t : Tree) → MeanRooted tree.now t → bytes.items ≡ take count (drop from (bytes_of (entry_at t path.now)))) }
{
    found_bytes(alloc, tree.try_read(alloc, path, from, count))
}

/// The bytes that were read; none if there is no file.
fn found_bytes(alloc: Global, answer: Result<Vec<u8>, Errno>) -> Result<Vec<u8>, NoMemory>
    ensures { IfOk result (λ bytes. MatchResult answer (λ read. bytes.items ≡ read.items) (λ fault. (fault ≢ Errno.ENOMEM) × (bytes.items ≡ []))) }
{
    match answer {
        Ok(bytes) => Ok(bytes),
        Err(fault) => {
            if fault == Errno::ENOMEM {
                return Err(NoMemory);
            }
            Ok(Vec::new(alloc))
        }
    }
}

/// Appends the line of a change at the path, if there is one.
fn put_change(
    alloc: Global,
    path: &Path,
    change: Option<Change>,
    out: &mut Vec<u8>,
) -> Result<(), NoMemory>
    requires { IfSome change IsChange }
    ensures { OnOk result (out.new.items ≡ out.old.items ++ edits_text (edit_of path.now change)) }
{
    let Some(change) = change else {
        return Ok(());
    };
    let path = path.copy(alloc)?;
    let edit = Edit { path, change };
    put_edit(&edit, out)
}
