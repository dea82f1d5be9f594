//! Holes: bytes of a file that become zeros and are not stored. A hole has the effect on the tree of a write of zeros,
//! and no message of it has more than a block of zeros.
ghost use Rattle.std.specs.Prelude.{◌≡◌, ◌≢◌, ◌<◌, ◌≤◌, ◌*◌, ◌+◌, ◌/◌, ◌^◌, ◌++◌, [], IfOk, OnOk, replicate};
ghost use Rattle.block_index.specs.Changed.{Messages as BlockMessages};
ghost use Rattle.block_index.specs.Means.{blocks};
ghost use Rattle.call_compiler.specs.Compiled.{messages};
ghost use Rattle.call_compiler.specs.Punched.{IsHole, IsPunched, AppliesZeros, TakesOut, blocks_between, reached_of};

use crate::batch::{Batch, refused, without_messages};
use crate::files::{FoundFile, find_file};
use crate::indexes::Indexes;
use crate::write::growth;
use block_index::{BLOCK, BlockIndex, BlockUpdate, Patch};
use bytes::Bytes;
use lookup::get;
use message::Msg;
use pathkey::{Errno, KeyRange, NoMemory, Path, block_key};
use reference::Reply;
use std::alloc::Global;

/// Sets `count` bytes of a file from the offset on to zero, up to the end of the file: its effect on the tree and its reply are
/// those of a write of as many zeros. If none is within the file, nothing changes.
///
/// For any count it sends at most one range-delete, of the blocks that are entirely in the range, two patches, for the blocks
/// at its ends if they are stored, and the message that sets the file's mtime.
pub fn punch(
    alloc: Global,
    indexes: &Indexes,
    path: &Path,
    offset: u64,
    count: u64,
    at: u64,
) -> Result<(Reply, Batch), NoMemory>
    ensures { IfOk result (λ c. IsPunched indexes.now path.now offset count at c.0 (messages c.1)) }
{
    let key = path.key();
    let file = match find_file(alloc, indexes, path, Errno::EISDIR)? {
        Ok(file) => file,
        Err(fault) => return Ok(refused(alloc, fault)),
    };
    let len = reached(file, offset, count);
    if len == 0 {
        return Ok(without_messages(alloc, Reply::Count(0)));
    }
    let end = offset + len;
    let block = hole(alloc, &indexes.block, path, offset, end)?;
    let meta = growth(alloc, key, file, end, at)?;
    Ok((Reply::Count(len), Batch { meta, block }))
}

/// How many of `count` bytes from the offset on are within the file.
pub(crate) fn reached(file: FoundFile, offset: u64, count: u64) -> u64
    ensures value { result ≡ reached_of file.len offset count }
    ensures within { (0 < result) → (offset + result ≤ file.len) }
{
    file.len.saturating_sub(offset).min(count)
}

/// The messages that set the bytes of a file from `from` up to but excluding `end` to zero: the blocks that are entirely among
/// them are deleted.
fn hole(
    alloc: Global,
    index: &BlockIndex,
    path: &Path,
    from: u64,
    end: u64,
) -> Result<Vec<Msg<BlockUpdate>>, NoMemory>
    requires file { path.now ≢ [] }
    requires order { from < end }
    requires short { end ≤ 2 ^ 40 }
    ensures { IfOk result (λ msgs. IsHole (blocks index.now) path.now from end msgs.items) }
{
    let first = (from + (BLOCK - 1)) / BLOCK;
    let last = end / BLOCK;
    let head = end.min(first * BLOCK);
    let tail = head.max(last * BLOCK);
    let mut msgs = Vec::with_capacity(alloc, 3)?;
    push_zeros(alloc, index, path, from, head, &mut msgs)?;
    push_range(alloc, path, first as u32, last as u32, &mut msgs)?;
    push_zeros(alloc, index, path, tail, end, &mut msgs)?;
    Ok(msgs)
}

/// Appends the patch that overwrites the bytes of one block, from `from` up to but excluding `to`, with zeros. There is none if
/// there are no such bytes, or if the block is not stored, since it has only zeros then.
fn push_zeros(
    alloc: Global,
    index: &BlockIndex,
    path: &Path,
    from: u64,
    to: u64,
    msgs: &mut Vec<Msg<BlockUpdate>>,
) -> Result<(), NoMemory>
    requires file { path.now ≢ [] }
    requires short { to ≤ 2 ^ 40 }
    requires block { to ≤ 4096 * (from / 4096) + 4096 }
    ensures { OnOk result ((ms : BlockMessages) × (msgs.new.items ≡ msgs.old.items ++ ms) × AppliesZeros (blocks index.now) path.now from to ms) }
{
    if from >= to {
        return Ok(());
    }
    let key = block_key(alloc, path, (from / BLOCK) as u32)?;
    if get(alloc, &index.tree, &key)?.is_none() {
        return Ok(());
    }
    let patch = Patch::new((from % BLOCK) as u16, zeros(alloc, (to - from) as usize)?);
    msgs.push(Msg::Edit(key, BlockUpdate::Patch(patch)))?;
    Ok(())
}

/// `count` zeros.
fn zeros(alloc: Global, count: usize) -> Result<Bytes, NoMemory>
    ensures { IfOk result (λ bytes. bytes ≡ replicate count 0) }
{
    let mut zeros = Vec::new(alloc);
    zeros.resize(count, 0)?;
    Ok(Bytes::from_vec(zeros)?)
}

/// Appends the range-delete of the blocks of a path from index `first` up to but excluding `end`; none if there are no such
/// blocks.
pub(crate) fn push_range(
    alloc: Global,
    path: &Path,
    first: u32,
    end: u32,
    msgs: &mut Vec<Msg<BlockUpdate>>,
) -> Result<(), NoMemory>
    requires file { path.now ≢ [] }
    ensures { OnOk result ((ms : BlockMessages) × (msgs.new.items ≡ msgs.old.items ++ ms) × TakesOut path.now first end ms) }
{
    if first >= end {
        return Ok(());
    }
    msgs.push(Msg::DelRange(blocks_between(alloc, path, first, end)?))?;
    Ok(())
}

/// The keys of the blocks of a path from number `first` up to but excluding `end`.
pub(crate) fn blocks_between(
    alloc: Global,
    path: &Path,
    first: u32,
    end: u32,
) -> Result<KeyRange, NoMemory>
    requires file { path.now ≢ [] }
    ensures { IfOk result (λ r. r ≡ blocks_between path.now first end) }
{
    let lo = block_key(alloc, path, first)?;
    let hi = Some(block_key(alloc, path, end)?);
    Ok(KeyRange { lo, hi })
}
