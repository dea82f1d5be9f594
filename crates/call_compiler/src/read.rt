//! Calls that only read: `read`, `stat` and `readdir`. They send no messages.
ghost use Rattle.std.specs.Prelude.{◌≡◌, [], ℕ, IfOk, OnErr};
ghost use Rattle.call_compiler.specs.Compiled.{IsCompiled, messages, stat_at};
ghost use Rattle.call_compiler.specs.Listed.{TellsEntries};
ghost use Rattle.meta_index.specs.Means.{lookup_answer};
ghost use Rattle.reference.specs.Tree as trees;

use crate::batch::{Batch, refused, without_messages};
use crate::files::find_file;
use crate::indexes::Indexes;
use meta_index::{At, EntrySink, Kind, Meta};
use pathkey::{Errno, NoMemory, Path};
use reference::{Call, FileBytes, GREATEST_READ, Listing, Reply};
use std::alloc::Global;

/// Reads at most `count` bytes of a file from the offset on, none past its end (POSIX.1-2017, pread).
pub fn read(
    alloc: Global,
    indexes: &Indexes,
    path: &Path,
    offset: u64,
    count: u64,
) -> Result<(Reply, Batch), NoMemory>
    ensures { (at : ℕ) → IfOk result (λ c. IsCompiled indexes.now (Call.Read path.now offset count) at c.0 (messages c.1)) }
{
    let file = match find_file(alloc, indexes, path, Errno::EISDIR)? {
        Ok(file) => file,
        Err(fault) => return Ok(refused(alloc, fault)),
    };
    if count > GREATEST_READ {
        return Ok(refused(alloc, Errno::EINVAL));
    }
    let bytes = indexes.block.read(alloc, path, offset, count, file.len)?;
    let data = FileBytes::from_vec(bytes);
    Ok(without_messages(alloc, Reply::Data(data)))
}

/// The metadata of the entry at the path (stat).
pub fn stat(alloc: Global, indexes: &Indexes, path: &Path) -> Result<(Reply, Batch), NoMemory>
    ensures { (at : ℕ) → IfOk result (λ c. IsCompiled indexes.now (Call.Stat path.now) at c.0 (messages c.1)) }
{
    let at = indexes.meta.find(alloc, path)?;
    Ok(without_messages(alloc, reply_of(at)))
}

/// Kind, length and mtime of the entry at a path, or why there is none.
fn reply_of(at: At) -> Reply
    ensures { (here : trees.At) → at ≡ lookup_answer here → result ≡ stat_at here }
{
    match at {
        At::Found(Meta::Dir { modified }) => Reply::Stat(Kind::Dir, 0, modified),
        At::Found(Meta::File { len, modified }) => Reply::Stat(Kind::File, len, modified),
        At::Missing => Reply::Fault(Errno::ENOENT),
        At::Blocked => Reply::Fault(Errno::ENOTDIR),
    }
}

/// The entries of the directory at the path (readdir).
pub fn readdir(alloc: Global, indexes: &Indexes, path: &Path) -> Result<(Reply, Batch), NoMemory>
    ensures { (at : ℕ) → IfOk result (λ c. IsCompiled indexes.now (Call.Readdir path.now) at c.0 (messages c.1)) }
{
    let mut entries = Vec::new(alloc);
    match list(alloc, indexes, path, &mut entries)? {
        Ok(()) => Ok(without_messages(alloc, Reply::Names(Listing::from_vec(entries)))),
        Err(fault) => Ok(refused(alloc, fault)),
    }
}

/// Passes the entries of the directory at the path to the sink, in byte order of names; or returns why there is no directory
/// (readdir). Where there is no directory, the sink is unchanged; if an allocation fails, it may have some of the entries.
pub fn list<S: EntrySink>(
    alloc: Global,
    indexes: &Indexes,
    path: &Path,
    sink: &mut S,
) -> Result<Result<(), Errno>, NoMemory>
    ensures entries { S.has sink.old [] → IfOk result (TellsEntries indexes.now path.now (S.has sink.new)) }
    ensures unchanged { IfOk result (λ listed. OnErr listed (sink.new ≡ sink.old)) }
{
    let at = indexes.meta.find(alloc, path)?;
    if let Some(fault) = at.fault_of_directory() {
        return Ok(Err(fault));
    }
    let (mut walks, mut pairs) = (0, 0);
    indexes
        .meta
        .list(alloc, path, sink, &mut walks, &mut pairs)?;
    Ok(Ok(()))
}
