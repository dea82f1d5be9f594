//! The bytes of a file: truncated, extended, overwritten, and read.
//!
//! Each function copies the bytes that it needs. A file that is extended is padded with zeros.
ghost use Rattle.std.specs.Prelude.{◌≡◌, ◌+◌, ◌<◌, ◌^◌, length, take, drop, IfOk};
ghost use Rattle.reference.specs.Tree.{over, sized as first_bytes};

use pathkey::NoMemory;
use std::alloc::Global;

/// The bytes from an index on; none past the end.
pub fn bytes_from(bytes: &[u8], from: usize) -> &[u8]
    ensures { result.now ≡ drop from bytes.now }
{
    if from < bytes.len() {
        &bytes[from..]
    } else {
        &[]
    }
}

/// The first bytes, at most the given number of them.
pub fn bytes_up_to(bytes: &[u8], count: usize) -> &[u8]
    ensures { result.now ≡ take count bytes.now }
{
    if count < bytes.len() {
        &bytes[..count]
    } else {
        bytes
    }
}

/// At most `count` bytes from an index on, and none past the end.
pub fn copy_part(
    alloc: Global,
    bytes: &[u8],
    from: usize,
    count: usize,
) -> Result<Vec<u8>, NoMemory>
    ensures { IfOk result (λ v. v.items ≡ take count (drop from bytes.now)) }
{
    let part = bytes_up_to(bytes_from(bytes, from), count);
    Ok(Vec::from_slice(alloc, part)?)
}

/// The first bytes of a file, padded with zeros if there are fewer.
pub fn copy_sized(alloc: Global, bytes: &[u8], len: usize) -> Result<Vec<u8>, NoMemory>
    ensures { IfOk result (λ v. v.items ≡ first_bytes bytes.now len) }
{
    let mut copy = Vec::from_slice(alloc, bytes_up_to(bytes, len))?;
    copy.resize(len, 0)?;
    Ok(copy)
}

/// A file's bytes, extended with zeros if it ends before the offset, and overwritten there with the new bytes.
pub fn copy_over(
    alloc: Global,
    bytes: &[u8],
    offset: usize,
    new: &[u8],
) -> Result<Vec<u8>, NoMemory>
    requires { offset + length new.now < 2 ^ 64 }
    ensures { IfOk result (λ v. v.items ≡ over bytes.now offset new.now) }
{
    let mut copy = copy_sized(alloc, bytes, offset)?;
    copy.extend_from_slice(new)?;
    copy.extend_from_slice(bytes_from(bytes, offset + new.len()))?;
    Ok(copy)
}
