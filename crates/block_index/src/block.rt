//! Blocks of a file. Invariant: a block has at most 4,096 bytes; the bytes after them, up to the file's end, are zeros.
ghost use Rattle.std.specs.Prelude.{◌≡◌, ◌≤◌, length, take, Some, None, if◌then◌else◌, IfOk, IfSome, OnOk, OnErr};
ghost use Rattle.std.specs.Option.{option_map};
ghost use Rattle.block_index.specs.Layers.{layered};
ghost use Rattle.block_index.specs.BlockBytes.{bytes_of};
ghost use Rattle.reference.specs.Tree.{over};

use crate::block_bytes::BlockBytes;
use crate::layer_data::LayerData;
use crate::patch::Patch;
use pathkey::NoMemory;
use std::alloc::Global;
use std::marker::Model;
use std::sync::Arc;

/// The maximum number of bytes in a block.
pub const BLOCK: u64 = 4096;

/// At most 4,096 bytes of a file, which contracts see as their list. They are shared: a copy is another reference.
pub struct Block {
    stored: BlockBytes,
}

// Written out, as that of `pathkey::Key`.
impl Drop for Block {
    fn drop(self) {
        let Block { stored: _ } = self;
    }
}

impl Model for Block {
    ghost use Rattle.std.specs.Prelude.{List, ℕ, length, ◌≤◌};
    ghost use Rattle.block_index.specs.BlockBytes.{bytes_of};

    ghost Value = { List ℕ };

    ghost view = { λ b. bytes_of b.stored };

    ghost invariant = { λ b. length (bytes_of b.stored) ≤ 4096 };
}

impl Block {
    /// A block with a copy of these bytes.
    pub fn copied(alloc: Global, bytes: &[u8]) -> Result<Block, NoMemory>
        requires { length bytes.now ≤ 4096 }
        ensures { IfOk result (λ b. b ≡ bytes.now) }
    {
        let mut own = Vec::with_capacity(alloc, bytes.len())?;
        own.extend_from_slice(bytes)?;
        Block::owned(alloc, own)
    }

    /// These bytes with the patch applied. If it covers them all, the block shares its bytes.
    pub fn patched(alloc: Global, old: &[u8], patch: &Patch) -> Result<Block, NoMemory>
        requires { length old.now ≤ 4096 }
        ensures { IfOk result (λ b. b ≡ over old.now patch.now.off patch.now.bytes) }
    {
        let off = patch.off();
        let end = off + patch.bytes().len();
        if off == 0 && old.len() <= end {
            return Ok(Block {
                stored: BlockBytes::Slice(patch.share()?),
            });
        }
        let mut own = Vec::with_capacity(alloc, old.len().max(end))?;
        own.extend_from_slice(&old[..old.len().min(off)])?;
        own.resize(off, 0)?;
        own.extend_from_slice(patch.bytes())?;
        if end < old.len() {
            own.extend_from_slice(&old[end..])?;
        }
        Block::owned(alloc, own)
    }

    /// A block of these bytes.
    pub(crate) fn owned(alloc: Global, own: Vec<u8>) -> Result<Block, NoMemory>
        requires { length own.items ≤ 4096 }
        ensures { IfOk result (λ b. b ≡ own.items) }
    {
        Ok(Block {
            stored: BlockBytes::Own(Arc::new(alloc, own)?),
        })
    }

    /// Its bytes.
    pub fn as_slice(&self) -> &[u8]
        ensures value { result.now ≡ self.now }
        ensures short { length self.now ≤ 4096 }
    {
        self.stored.as_slice()
    }

    /// An equal block: another reference to its bytes.
    pub fn copy(&self) -> Result<Block, NoMemory>
        ensures { IfOk result (λ b. b ≡ self.now) }
    {
        Ok(Block {
            stored: self.stored.copy()?,
        })
    }

    /// Applies the patch to the block, in place if no other block shares its bytes.
    pub fn apply_patch(&mut self, alloc: Global, patch: &Patch) -> Result<(), NoMemory>
        ensures ok { OnOk result (self.new ≡ over self.old patch.now.off patch.now.bytes) }
        ensures err { OnErr result (self.new ≡ self.old) }
    {
        if !self.stored.apply_patch(patch)? {
            *self = Block::patched(alloc, self.as_slice(), patch)?;
        }
        Ok(())
    }

    /// What layers make of these bytes, or of no block; `None` if they make none.
    pub(crate) fn with_layers(
        alloc: Global,
        old: Option<&[u8]>,
        layers: &LayerData,
    ) -> Result<Option<Block>, NoMemory>
        requires { IfSome old (λ b. length b.now ≤ 4096) }
        ensures { IfOk result (λ r. r ≡ layered layers.now (option_map (λ b. b.now) old.entry)) }
    {
        match layers.over(alloc, old)? {
            Some(own) => Ok(Some(Block::owned(alloc, own)?)),
            None => Ok(None),
        }
    }

    /// Applies layers to the block, and returns whether there still is one. If an allocation fails, it is unchanged.
    pub(crate) fn apply_layers(
        &mut self,
        alloc: Global,
        layers: &LayerData,
    ) -> Result<bool, NoMemory>
        ensures ok { IfOk result (λ stays. (if stays then Some self.new else None) ≡ layered layers.now (Some self.old)) }
        ensures err { OnErr result (self.new ≡ self.old) }
    {
        match Block::with_layers(alloc, Some(self.as_slice()), layers)? {
            Some(new) => {
                *self = new;
                Ok(true)
            }
            None => Ok(false),
        }
    }

    /// Keeps the first `n` bytes, or all if there are fewer.
    pub fn cut(&mut self, alloc: Global, n: u16) -> Result<(), NoMemory>
        ensures ok { OnOk result (self.new ≡ take n self.old) }
        ensures err { OnErr result (self.new ≡ self.old) }
    {
        if !self.stored.truncate(n as usize) {
            let kept = self.as_slice().len().min(n as usize);
            *self = Block::copied(alloc, &self.as_slice()[..kept])?;
        }
        Ok(())
    }
}
