//! Updates of one block of a file: a patch, a cut, or layers of several. Applying joined updates is the same as
//! applying them one after the other.
ghost use Rattle.std.specs.Prelude.{◌≡◌, List, ℕ, Option, IfOk};
ghost use Rattle.block_index.specs.Layers.{Follows, layered};
ghost use Rattle.block_index.specs.Updates.{means as meant};
ghost use Rattle.reference.specs.Indexes.{overlaid};

use crate::block::Block;
use crate::layer_data::LayerData;
use crate::layers::Layers;
use crate::patch::Patch;
use message::{Update, UpdateTarget};
use pathkey::NoMemory;
use std::alloc::Global;

/// A change of a block. Only a patch creates a block if there was none.
#[derive(Drop)]
pub enum BlockUpdate {
    /// The bytes overwrite those of the block, which is extended with zeros if it is shorter.
    Patch(Patch),
    /// The block keeps its first bytes, at most this many.
    CutTo(u16),
    /// Several of both, one after the other.
    Layers(Layers),
}

impl UpdateTarget for BlockUpdate {
    type Value = Block;
}

impl Update for BlockUpdate {
    ghost use Rattle.block_index.specs.Updates.{means as meant};

    ghost means = { meant };

    fn apply(&self, alloc: Global, old: Option<&Block>) -> Result<Option<Block>, NoMemory> {
        match (self, old) {
            (BlockUpdate::Patch(patch), None) => Ok(Some(Block::patched(alloc, &[], patch)?)),
            (BlockUpdate::Patch(patch), Some(block)) => {
                Ok(Some(Block::patched(alloc, block.as_slice(), patch)?))
            }
            (BlockUpdate::CutTo(_), None) => Ok(None),
            (BlockUpdate::CutTo(n), Some(block)) => {
                let mut block = block.copy()?;
                block.cut(alloc, *n)?;
                Ok(Some(block))
            }
            (BlockUpdate::Layers(layers), None) => Block::with_layers(alloc, None, layers.stack()),
            (BlockUpdate::Layers(layers), Some(block)) => {
                Block::with_layers(alloc, Some(block.as_slice()), layers.stack())
            }
        }
    }

    fn apply_in_place(&self, alloc: Global, block: &mut Block) -> Result<bool, NoMemory> {
        match self {
            BlockUpdate::Patch(patch) => block.apply_patch(alloc, patch)?,
            BlockUpdate::CutTo(n) => block.cut(alloc, *n)?,
            BlockUpdate::Layers(layers) => return block.apply_layers(alloc, layers.stack()),
        }
        Ok(true)
    }

    /// Two cuts become one to the smaller length, and two patches that touch become one patch. All others become layers, if there
    /// are not too many and no allocation fails.
    fn join(&self, alloc: Global, later: &BlockUpdate) -> Result<Option<BlockUpdate>, NoMemory> {
        match (self, later) {
            (BlockUpdate::CutTo(m), BlockUpdate::CutTo(n)) => {
                Ok(Some(BlockUpdate::CutTo((*m).min(*n))))
            }
            (BlockUpdate::Patch(first), BlockUpdate::Patch(second)) => {
                match first.join(alloc, second)? {
                    Some(patch) => Ok(Some(BlockUpdate::Patch(patch))),
                    None => Ok(self.composed(alloc, later).ok()),
                }
            }
            _ => Ok(self.composed(alloc, later).ok()),
        }
    }

    /// Layers that are not shared absorb a patch in place.
    fn join_in_place(&mut self, alloc: Global, later: &BlockUpdate) -> bool {
        if let (BlockUpdate::Layers(layers), BlockUpdate::Patch(patch)) = (&mut *self, later) {
            if layers.apply_patch(alloc, patch).is_ok() {
                return true;
            }
        }
        let Ok(Some(joined)) = self.join(alloc, later) else {
            return false;
        };
        *self = joined;
        true
    }

    fn copy(&self, _alloc: Global) -> Result<BlockUpdate, NoMemory> {
        match self {
            BlockUpdate::Patch(patch) => Ok(BlockUpdate::Patch(patch.copy()?)),
            BlockUpdate::CutTo(n) => Ok(BlockUpdate::CutTo(*n)),
            BlockUpdate::Layers(layers) => Ok(BlockUpdate::Layers(layers.copy()?)),
        }
    }

    fn copy_value(_alloc: Global, value: &Block) -> Result<Block, NoMemory> {
        value.copy()
    }
}

impl BlockUpdate {
    /// This update and then `later`, as layers. It also fails if there would be too many.
    fn composed(&self, alloc: Global, later: &BlockUpdate) -> Result<BlockUpdate, NoMemory>
        ensures { IfOk result (λ u. (old : Option (List ℕ)) → meant u old ≡ meant later.now (meant self.now old)) }
    {
        let first = match self {
            BlockUpdate::Patch(patch) => as_layer(alloc, patch)?,
            BlockUpdate::CutTo(n) => LayerData::new(alloc, Some(*n)),
            BlockUpdate::Layers(layers) => layers.stack().copy(alloc)?,
        };
        let all = with_update(alloc, first, later)?;
        Ok(BlockUpdate::Layers(Layers::of(alloc, all)?))
    }
}

/// The patch as a layer.
fn as_layer(alloc: Global, patch: &Patch) -> Result<LayerData, NoMemory>
    ensures { IfOk result (λ l. (old : Option (List ℕ)) → layered l old ≡ overlaid patch.now.off patch.now.bytes old) }
{
    let mut stack = LayerData::new(alloc, None);
    stack.apply_patch(alloc, patch.off(), patch.bytes())?;
    Ok(stack)
}

/// The layers and then an update. It also fails if there would be too many.
fn with_update(alloc: Global, first: LayerData, later: &BlockUpdate) -> Result<LayerData, NoMemory>
    ensures { IfOk result (Follows (meant later.now) first) }
{
    match later {
        BlockUpdate::Patch(patch) => {
            let mut all = first;
            all.apply_patch(alloc, patch.off(), patch.bytes())?;
            Ok(all)
        }
        BlockUpdate::CutTo(n) => first.cut_to(alloc, *n),
        BlockUpdate::Layers(layers) => first.composed(alloc, layers.stack()),
    }
}
