//! Layers: several updates of one block as one. They are shared, so a copy is another reference.
ghost use Rattle.std.specs.Prelude.{◌≡◌, IfOk, OnErr, OnOk};
ghost use Rattle.block_index.specs.Layers.{IsApplied};

use crate::layer_data::LayerData;
use crate::patch::Patch;
use pathkey::NoMemory;
use std::alloc::Global;
use std::marker::Model;
use std::sync::Arc;

/// A cut of a block, if there is one, and then bytes that overwrite it at several places. A copy is another reference.
pub struct Layers {
    stack: Arc<LayerData>,
}

// Written out, as that of `pathkey::Key`.
impl Drop for Layers {
    fn drop(self) {
        let Layers { stack: _ } = self;
    }
}

impl Model for Layers {
    ghost use Rattle.std.specs.Arc.{arc_value};
    ghost use Rattle.block_index.specs.Layers.{Layered};

    ghost Value = { Layered };

    ghost view = { λ l. arc_value l.stack };
}

impl Layers {
    /// The layers of a stack.
    pub(crate) fn of(alloc: Global, stack: LayerData) -> Result<Layers, NoMemory>
        ensures { IfOk result (λ l. l ≡ stack) }
    {
        Ok(Layers {
            stack: Arc::new(alloc, stack)?,
        })
    }

    /// Their stack.
    pub(crate) fn stack(&self) -> &LayerData
        ensures { result.now ≡ self.now }
    {
        &self.stack
    }

    /// Applies a patch to the block, newer than all layers, in place. If others share the layers, there would be too many, or an
    /// allocation fails, they are unchanged.
    pub(crate) fn apply_patch(&mut self, alloc: Global, patch: &Patch) -> Result<(), NoMemory>
        ensures ok { OnOk result (IsApplied patch.now.off patch.now.bytes self.old self.new) }
        ensures err { OnErr result (self.new ≡ self.old) }
    {
        match Arc::get_mut(&mut self.stack) {
            Some(stack) => stack.apply_patch(alloc, patch.off(), patch.bytes()),
            None => Err(NoMemory),
        }
    }

    /// Equal layers: another reference.
    pub(crate) fn copy(&self) -> Result<Layers, NoMemory>
        ensures { IfOk result (λ l. l ≡ self.now) }
    {
        Ok(Layers {
            stack: Arc::try_clone(&self.stack)?,
        })
    }
}
