//! Calls that change the bytes of a file: `write` and `truncate`. A write sends one patch for each block that it
//! overlaps, and at most one message for the metadata.
ghost use Rattle.std.specs.Prelude.{◌≡◌, ◌≢◌, ◌<◌, ◌≤◌, ◌^◌, [], IfOk, length};
ghost use Rattle.block_index.specs.Changed.{CutsWhereMeant};
ghost use Rattle.call_compiler.specs.Compiled.{IsCompiled, growth, has_grown, messages};
ghost use Rattle.reference.specs.Shape.{AreBytes};

use crate::batch::{Batch, done, refused, without_messages};
use crate::files::{FoundFile, find_file};
use crate::indexes::Indexes;
use block_index::{BlockIndex, BlockUpdate};
use bytes::Bytes;
use message::Msg;
use meta_index::MetaUpdate;
use pathkey::{Errno, Key, NoMemory, Path};
use reference::{Call, GREATEST_FILE, Reply, fits_file};
use std::alloc::Global;

/// Writes bytes to a file from the offset on (POSIX.1-2017, pwrite). A write of no bytes changes nothing, at any offset.
pub fn write(
    alloc: Global,
    indexes: &Indexes,
    path: &Path,
    offset: u64,
    bytes: &Bytes,
    at: u64,
) -> Result<(Reply, Batch), NoMemory>
    ensures { IfOk result (λ c. IsCompiled indexes.now (Call.Write path.now offset bytes.now) at c.0 (messages c.1)) }
{
    let key = path.key();
    let file = match find_file(alloc, indexes, path, Errno::EISDIR)? {
        Ok(file) => file,
        Err(fault) => return Ok(refused(alloc, fault)),
    };
    if bytes.is_empty() {
        return Ok(without_messages(alloc, Reply::Count(0)));
    }
    if !fits_file(offset, bytes.len()) {
        return Ok(refused(alloc, Errno::EFBIG));
    }
    let len = count(bytes.as_slice());
    let block = indexes.block.write_msgs(alloc, path, offset, bytes)?;
    let meta = growth(alloc, key, file, offset + len, at)?;
    Ok((Reply::Count(len), Batch { meta, block }))
}

/// The message that raises the length of the file at the key to `end` and sets its mtime; none if it has both.
pub(crate) fn growth(
    alloc: Global,
    key: &Key,
    file: FoundFile,
    end: u64,
    at: u64,
) -> Result<Vec<Msg<MetaUpdate>>, NoMemory>
    ensures { IfOk result (λ msgs. msgs.items ≡ growth key.now end at (has_grown end at file.len file.modified)) }
{
    let mut msgs = Vec::new(alloc);
    if !file.has_grown(end, at) {
        msgs.push(Msg::Edit(key.copy(alloc)?, MetaUpdate::Grow(end, at)))?;
    }
    Ok(msgs)
}

/// The number of bytes.
fn count(bytes: &[u8]) -> u64
    ensures value { result ≡ length bytes.now }
    ensures bytes { AreBytes bytes.now }
{
    bytes.len() as u64
}

/// Cuts a file to a length, or extends it with zeros (truncate).
pub fn truncate(
    alloc: Global,
    indexes: &Indexes,
    path: &Path,
    len: u64,
    at: u64,
) -> Result<(Reply, Batch), NoMemory>
    ensures { IfOk result (λ c. IsCompiled indexes.now (Call.Truncate path.now len) at c.0 (messages c.1)) }
{
    let key = path.key();
    let file = match find_file(alloc, indexes, path, Errno::EISDIR)? {
        Ok(file) => file,
        Err(fault) => return Ok(refused(alloc, fault)),
    };
    if len > GREATEST_FILE {
        return Ok(refused(alloc, Errno::EFBIG));
    }
    if file.has_exactly(len, at) {
        return Ok(without_messages(alloc, Reply::Done));
    }
    let block = cut_from(alloc, &indexes.block, path, file.len, len)?;
    let set = Msg::Edit(key.copy(alloc)?, MetaUpdate::SetLen(len, at));
    done(alloc, Reply::Done, set, block)
}

/// The messages that truncate the blocks of a file from `old` bytes to `len`; none if it is not longer.
fn cut_from(
    alloc: Global,
    index: &BlockIndex,
    path: &Path,
    old: u64,
    len: u64,
) -> Result<Vec<Msg<BlockUpdate>>, NoMemory>
    requires file { path.now ≢ [] }
    requires short { len ≤ 2 ^ 40 }
    ensures cut { IfOk result (λ msgs. len < old → CutsWhereMeant len path.now msgs.items) }
    ensures kept { IfOk result (λ msgs. old ≤ len → msgs.items ≡ []) }
    ensures few { IfOk result (λ msgs. length msgs.items ≤ 2) }
{
    if old <= len {
        return Ok(Vec::new(alloc));
    }
    index.cut_msgs(alloc, path, len)
}
