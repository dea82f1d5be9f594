//! The storage of a block's bytes.
ghost use Rattle.std.specs.Prelude.{◌≡◌, ◌+◌, ◌≤◌, length, take, if◌then◌else◌, IfOk, OnOk, OnErr};
ghost use Rattle.block_index.specs.BlockBytes.{bytes_of};
ghost use Rattle.reference.specs.Tree.{over};

use crate::patch::Patch;
use bytes::Bytes;
use pathkey::NoMemory;
use std::sync::Arc;

/// Shared bytes.
#[derive(Drop)]
pub enum BlockBytes {
    /// A slice of the bytes that a call passed. They are never changed.
    Slice(Bytes),
    /// The block's own bytes. If they have one owner, they are changed in place.
    Own(Arc<Vec<u8>>),
}

impl BlockBytes {
    /// The bytes.
    pub fn as_slice(&self) -> &[u8]
        ensures { result.now ≡ bytes_of self.now }
    {
        match self {
            BlockBytes::Slice(bytes) => bytes.as_slice(),
            BlockBytes::Own(bytes) => bytes.as_slice(),
        }
    }

    /// Another reference to the bytes.
    pub fn copy(&self) -> Result<BlockBytes, NoMemory>
        ensures { IfOk result (λ s. bytes_of s ≡ bytes_of self.now) }
    {
        match self {
            BlockBytes::Slice(bytes) => Ok(BlockBytes::Slice(bytes.clone()?)),
            BlockBytes::Own(bytes) => Ok(BlockBytes::Own(Arc::try_clone(bytes)?)),
        }
    }

    /// Keeps only the first `n` bytes, and returns whether it could do so without a copy.
    pub fn truncate(&mut self, n: usize) -> bool
        ensures { bytes_of self.new ≡ (if result then take n (bytes_of self.old) else bytes_of self.old) }
    {
        match self {
            BlockBytes::Slice(bytes) => {
                bytes.truncate(n);
                true
            }
            BlockBytes::Own(bytes) => match Arc::get_mut(bytes) {
                Some(own) => {
                    own.truncate(n);
                    true
                }
                // They have other owners.
                None => false,
            },
        }
    }

    /// Applies the patch to the bytes if it can do so in place, and returns whether it did.
    pub fn apply_patch(&mut self, patch: &Patch) -> Result<bool, NoMemory>
        requires { length (bytes_of self.old) ≤ 4096 }
        ensures ok { IfOk result (λ done. bytes_of self.new ≡ (if done then over (bytes_of self.old) patch.now.off patch.now.bytes else bytes_of self.old)) }
        ensures short { IfOk result (λ _. length (bytes_of self.new) ≤ 4096) }
        ensures err { OnErr result (bytes_of self.new ≡ bytes_of self.old) }
    {
        match self {
            BlockBytes::Slice(_) => Ok(false),
            BlockBytes::Own(bytes) => match Arc::get_mut(bytes) {
                Some(own) => {
                    overlay(own, patch.off(), patch.bytes())?;
                    Ok(true)
                }
                // They have other owners.
                None => Ok(false),
            },
        }
    }
}

/// Overwrites other bytes in place with the bytes `new`, from `off` on.
pub(crate) fn overlay(own: &mut Vec<u8>, off: usize, new: &[u8]) -> Result<(), NoMemory>
    requires own { length own.old.items ≤ 4096 }
    requires new { off + length new.now ≤ 4096 }
    ensures ok { OnOk result (own.new.items ≡ over own.old.items off new.now) }
    ensures short { OnOk result (length own.new.items ≤ 4096) }
    ensures err { OnErr result (own.new.items ≡ own.old.items) }
{
    let end = off + new.len();
    if own.len() < end {
        own.resize(end, 0)?;
    }
    own[off..end].copy_from_slice(new);
    Ok(())
}
