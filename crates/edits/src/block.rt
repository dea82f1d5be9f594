//! Blocks of a file: where one is, its digest, and its new bytes.
ghost use Rattle.std.specs.Prelude.{◌≡◌, ◌≤◌, ◌<◌, ◌-◌, ◌*◌, ◌↔◌, IfOk, IsTrue, MatchOption, length, min, take};
ghost use Rattle.edits.specs.Edits.{block_digest};
ghost use Rattle.reference.specs.Image.{trimmed};
ghost use Rattle.reference.specs.Tree.{sized};

use block_index::BLOCK;
use pathkey::NoMemory;
use sha2::{Digest, Sha256};
use std::alloc::Global;
use textio::text::trimmed_len;

/// Where a block of a file of `len` bytes begins, and the number of its bytes; `None` if the file has no such block.
pub(crate) fn block_span(number: u64, len: u64) -> Option<(u64, usize)>
    ensures { MatchOption result (len ≤ 4096 * number) (λ span. (4096 * number < len) × (span.0 ≡ 4096 * number) × (span.1 ≡ min 4096 (len - 4096 * number))) }
{
    if number > len / BLOCK {
        return None;
    }
    let start = number * BLOCK;
    if start >= len {
        return None;
    }
    Some((start, (len - start).min(BLOCK) as usize))
}

/// Whether a block has this digest.
pub(crate) fn has_digest(block: &[u8], digest: Option<[u8; 32]>) -> bool
    ensures { IsTrue result ↔ (block_digest block.now ≡ digest) }
{
    block_digest(block) == digest
}

/// The SHA-256 digest of a block without zeros at the end; `None` if its bytes are all zeros.
pub fn block_digest(block: &[u8]) -> Option<[u8; 32]>
    ensures { result ≡ block_digest block.now }
{
    let kept = &block[..trimmed_len(block)];
    if kept.is_empty() {
        return None;
    }
    Some(Sha256::digest(kept))
}

/// The bytes with zeros behind them, up to a length that they do not exceed.
pub(crate) fn zero_filled(alloc: Global, bytes: &[u8], size: usize) -> Result<Vec<u8>, NoMemory>
    requires { length bytes.now ≤ size }
    ensures { IfOk result (λ block. block.items ≡ sized bytes.now size) }
{
    let mut block = Vec::with_capacity(alloc, size)?;
    block.extend_from_slice(bytes)?;
    block.resize(size, 0)?;
    Ok(block)
}
