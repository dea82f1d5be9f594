//! A new layer, which absorbs those that it touches. Invariant: it ends within the 4,096 bytes of the block.
ghost use Rattle.std.specs.Prelude.{◌≡◌, ◌+◌, ◌≤◌, List, ℕ, Option, true, false, length, IfOk};
ghost use Rattle.reference.specs.Indexes.{overlaid};

use crate::patch::{join_bytes, touches};
use pathkey::NoMemory;
use std::alloc::Global;
use std::marker::Model;

/// The new layer, with all that it absorbed.
#[derive(Drop)]
pub struct NewLayer {
    off: usize,
    bytes: Vec<u8>,
}

impl Model for NewLayer {
    ghost use Rattle.std.specs.Prelude.{length, ◌+◌, ◌≤◌};
    ghost use Rattle.block_index.specs.Patches.{Overlay};

    ghost Value = { Overlay };

    ghost view = { λ t. record { off = t.off; bytes = t.bytes.items } };

    ghost invariant = { λ t. t.off + length t.bytes.items ≤ 4096 };
}

impl NewLayer {
    /// The layer of these bytes.
    pub fn copied(alloc: Global, off: usize, new: &[u8]) -> Result<NewLayer, NoMemory>
        requires { off + length new.now ≤ 4096 }
        ensures { IfOk result (λ t. t ≡ record { off = off; bytes = new.now }) }
    {
        let mut bytes = Vec::with_capacity(alloc, new.len())?;
        bytes.extend_from_slice(new)?;
        Ok(NewLayer { off, bytes })
    }

    /// Its offset in the block.
    pub fn off(&self) -> usize
        ensures value { result ≡ self.now.off }
        ensures fits { result + length self.now.bytes ≤ 4096 }
    {
        self.off
    }

    /// Its bytes.
    pub fn bytes(&self) -> &[u8]
        ensures { result.now ≡ self.now.bytes }
    {
        self.bytes.as_slice()
    }

    /// Absorbs an older layer if it touches it, and returns whether it did.
    pub fn take(&mut self, alloc: Global, off: usize, run: &[u8]) -> Result<bool, NoMemory>
        requires { off + length run.now ≤ 4096 }
        ensures taken { IfOk result (λ did. did ≡ true → (old : Option (List ℕ)) → overlaid self.new.off self.new.bytes old ≡ overlaid self.old.off self.old.bytes (overlaid off run.now old)) }
        ensures apart { IfOk result (λ did. did ≡ false → (old : Option (List ℕ)) → overlaid off run.now (overlaid self.new.off self.new.bytes old) ≡ overlaid self.old.off self.old.bytes (overlaid off run.now old)) }
    {
        if !touches(off, run, self.off, self.bytes.as_slice()) {
            return Ok(false);
        }
        // A layer that these bytes cover entirely adds none, and so needs no memory.
        if self.off <= off && off + run.len() <= self.off + self.bytes.len() {
            return Ok(true);
        }
        self.bytes = join_bytes(alloc, off, run, self.off, self.bytes.as_slice())?;
        self.off = off.min(self.off);
        Ok(true)
    }
}
