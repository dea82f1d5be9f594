//! Copies of bytes from file to file, which share whole blocks.
ghost use Rattle.std.specs.Prelude.{◌≡◌, ◌≢◌, ◌⊎◌, ◌<◌, ◌≤◌, ◌*◌, ◌+◌, ◌-◌, ◌/◌, ◌^◌, [], IfOk, ℕ, List, length, true, false};
ghost use Rattle.call_compiler.specs.Punched.{TakesOut};
ghost use Rattle.block_index.specs.Means.{blocks};
ghost use Rattle.call_compiler.specs.Compiled.{messages};
ghost use Rattle.call_compiler.specs.Copied.{HoldsOfBytes, IsCopied, Overwrites, SharesWhereMeant, whole_of};
ghost use Rattle.pathkey.specs.Keys.{block_key as key_of_block};
ghost use Rattle.reference.specs.Indexes.{Blocks, most_blocks};

use crate::batch::{Batch, refused, without_messages};
use crate::files::find_file;
use crate::indexes::Indexes;
use crate::punch::{blocks_between, push_range, reached};
use crate::write::growth;
use block_index::{BLOCK, BlockIndex, BlockUpdate};
use bytes::Bytes;
use message::Msg;
use pathkey::{Errno, Key, NoMemory, Path, block_key};
use reference::{Reply, fits_file};
use scan::readahead::Readahead;
use std::alloc::Global;

/// Copies `count` bytes of the file at `from` from `offset` on, as far as it has them, to the file at `to` from `target` on, as
/// copy_file_range(2) of Linux does. Its effect on the tree and its reply are those of a write of these bytes, which are read
/// before any is written: the ranges may overlap. If both paths are faulty, the fault of `from` is returned. A copy of no
/// bytes changes nothing.
///
/// If both offsets are multiples of 4,096, whole blocks are shared: the copy stores another reference to each block that is
/// stored, and none of their bytes is copied. All other bytes are read and written, at once: the caller bounds their number.
pub fn copy_range(
    alloc: Global,
    indexes: &Indexes,
    from: &Path,
    offset: u64,
    to: &Path,
    target: u64,
    count: u64,
    at: u64,
) -> Result<(Reply, Batch), NoMemory>
    ensures { IfOk result (λ c. IsCopied indexes.now from.now offset to.now target count at c.0 (messages c.1)) }
{
    // The contract of `key` says that both paths are valid.
    let _from_key = from.key();
    let key = to.key();
    let source = match find_file(alloc, indexes, from, Errno::EISDIR)? {
        Ok(file) => file,
        Err(fault) => return Ok(refused(alloc, fault)),
    };
    let file = match find_file(alloc, indexes, to, Errno::EISDIR)? {
        Ok(file) => file,
        Err(fault) => return Ok(refused(alloc, fault)),
    };
    let len = reached(source, offset, count);
    if len == 0 {
        return Ok(without_messages(alloc, Reply::Count(0)));
    }
    if !fits_file(target, len as usize) {
        return Ok(refused(alloc, Errno::EFBIG));
    }
    let block = copy_msgs(
        alloc,
        &indexes.block,
        from,
        source.len,
        offset,
        to,
        target,
        len,
    )?;
    let meta = growth(alloc, key, file, target + len, at)?;
    Ok((Reply::Count(len), Batch { meta, block }))
}

/// The messages that copy `len` bytes of the file of `size` bytes at `from`.
fn copy_msgs(
    alloc: Global,
    index: &BlockIndex,
    from: &Path,
    size: u64,
    offset: u64,
    to: &Path,
    target: u64,
    len: u64,
) -> Result<Vec<Msg<BlockUpdate>>, NoMemory>
    requires files { (from.now ≢ []) × (to.now ≢ []) }
    requires within { offset + len ≤ size }
    requires short { (size ≤ 2 ^ 40) × (target + len ≤ 2 ^ 40) }
    ensures copied { IfOk result (λ msgs. HoldsOfBytes (blocks index.now) from.now size offset len (λ w. Overwrites (blocks index.now) to.now target w msgs.items)) }
    ensures few { IfOk result (λ msgs. length msgs.items ≤ len / 4096 + 2) }
{
    // The contract of `key` says that both paths are valid.
    let (_from_key, _to_key) = (from.key(), to.key());
    let whole = whole_blocks(offset, target, len);
    let shared = BLOCK * whole;
    let source = (offset / BLOCK) as u32;
    let mut msgs = share_msgs(
        alloc,
        index,
        from,
        source,
        to,
        (target / BLOCK) as u32,
        whole as u32,
    )?;
    let mut rest = byte_msgs(
        alloc,
        index,
        from,
        size,
        offset + shared,
        to,
        target + shared,
        len - shared,
    )?;
    msgs.append(&mut rest)?;
    Ok(msgs)
}

/// How many whole blocks a copy of `len` bytes shares: none unless both offsets are where a block begins.
fn whole_blocks(offset: u64, target: u64, len: u64) -> u64
    ensures value { result ≡ whole_of offset target len }
    ensures fits { 4096 * result ≤ len }
{
    if offset % BLOCK == 0 && target % BLOCK == 0 {
        len / BLOCK
    } else {
        0
    }
}

/// The messages that make `count` blocks of the file at `to`, from number `target` on, those of the file at `from` from number
/// `source` on: they delete what is stored there, and put each block that is stored, as another reference to its bytes.
fn share_msgs(
    alloc: Global,
    index: &BlockIndex,
    from: &Path,
    source: u32,
    to: &Path,
    target: u32,
    count: u32,
) -> Result<Vec<Msg<BlockUpdate>>, NoMemory>
    requires files { (from.now ≢ []) × (to.now ≢ []) }
    requires short { (source + count ≤ most_blocks) × (target + count ≤ most_blocks) }
    ensures shared { IfOk result (λ msgs. SharesWhereMeant (blocks index.now) from.now source to.now target count msgs.items) }
    ensures few { IfOk result (λ msgs. length msgs.items ≤ count + 1) }
    ensures none { IfOk result (λ msgs. count ≡ 0 → msgs.items ≡ []) }
{
    // The contract of `key` says that both paths are valid.
    let (_from_key, _to_key) = (from.key(), to.key());
    let end = source + count;
    let mut msgs = delete_msgs(alloc, to, target, target + count)?;
    let mut rest = blocks_between(alloc, from, source, end)?;
    let mut next = source;
    let mut stored = Readahead::new(alloc);
    'pairs: while let Some((key, block)) = stored.first(alloc, &index.tree, &rest)? {
        let number = block_number(&key);
        if !is_between(number, next, end) {
            // Does not occur: the keys of the range are those of the file's blocks, in the order of their numbers.
            return Ok(msgs);
        }
        let put = block_key(alloc, to, target + (number - source))?;
        msgs.push(Msg::Put(put, block))?;
        rest.lo = key.next(alloc)?;
        next = number + 1;
    }
    Ok(msgs)
}

/// The message that deletes the blocks of a path from number `first` up to but excluding `end`; none if there are no such blocks.
fn delete_msgs(
    alloc: Global,
    path: &Path,
    first: u32,
    end: u32,
) -> Result<Vec<Msg<BlockUpdate>>, NoMemory>
    requires file { path.now ≢ [] }
    ensures { IfOk result (λ msgs. TakesOut path.now first end msgs.items) }
{
    let mut msgs = Vec::new(alloc);
    push_range(alloc, path, first, end, &mut msgs)?;
    Ok(msgs)
}

/// Whether a number is at least `from` and less than `end`.
fn is_between(number: u32, from: u32, end: u32) -> bool
    ensures yes { result ≡ true → (from ≤ number) × (number < end) }
    ensures no { result ≡ false → (number < from) ⊎ (end ≤ number) }
{
    from <= number && number < end
}

/// The number of the block that has the key.
pub fn block_number(key: &Key) -> u32
    ensures { (p : List (List ℕ)) (i : ℕ) → i < 2 ^ 32 → key.now ≡ key_of_block p i → result ≡ i }
{
    match key.as_bytes() {
        [.., a, b, c, d] => u32::from_be_bytes([*a, *b, *c, *d]),
        // Unreachable for a block's key, which ends with the four bytes of its number.
        _ => 0,
    }
}

/// The messages that write `count` bytes of the file of `size` bytes at `from`, which are read, to the file at `to`; none if
/// there are no such bytes.
fn byte_msgs(
    alloc: Global,
    index: &BlockIndex,
    from: &Path,
    size: u64,
    offset: u64,
    to: &Path,
    target: u64,
    count: u64,
) -> Result<Vec<Msg<BlockUpdate>>, NoMemory>
    requires files { (from.now ≢ []) × (to.now ≢ []) }
    requires within { offset + count ≤ size }
    requires short { (size ≤ 2 ^ 40) × (target + count ≤ 2 ^ 40) }
    ensures copied { IfOk result (λ msgs. HoldsOfBytes (blocks index.now) from.now size offset count (λ w. (d : Blocks) → Overwrites d to.now target w msgs.items)) }
    ensures few { IfOk result (λ msgs. length msgs.items ≤ (target + count + 4095) / 4096 - target / 4096) }
{
    if count == 0 {
        return Ok(Vec::new(alloc));
    }
    let bytes = index.read(alloc, from, offset, count, size)?;
    let shared = Bytes::from_vec(bytes)?;
    if shared.len() as u64 != count {
        // Does not occur: all of them are within the file.
        return Ok(Vec::new(alloc));
    }
    index.write_msgs(alloc, to, target, &shared)
}
