//! Prints an image piece by piece, so no image has to fit into memory.
//!
//! Invariant (`IsReady`): what was handed out, the lines that are ready, and the lines after the position are together
//! the image.
ghost use Rattle.std.specs.Prelude.{◌≡◌, ◌+◌, IfOk, OnErr};

use crate::ready::PrintedLines;
use pathkey::NoMemory;
use std::alloc::Global;
use std::marker::Model;
use volume::Frozen;

/// The image of a frozen tree, in version 2, which is handed out in pieces. Contracts see the tree, and how many bytes of its
/// image were handed out.
#[derive(Drop)]
pub struct ImagePrinter {
    frozen: Frozen,
    ready: PrintedLines,
}

impl Model for ImagePrinter {
    ghost use Rattle.images.specs.Printings.{IsReady, PPrinting, printing_code};

    ghost Value = { PPrinting };

    ghost coded = { printing_code };

    ghost view = { λ p. record { tree = p.frozen; done = p.ready.done } };

    ghost invariant = { λ p. IsReady p.frozen p.ready };
}

impl ImagePrinter {
    ghost use Rattle.reference.specs.Image.{Second, image};
    ghost use Rattle.reference.specs.Tree.{Tree};
    ghost use Rattle.images.specs.Printings.{HandsOver};
    ghost use Rattle.volume.specs.Volumes.{MeanRooted};

    /// Creates a printer that owns the tree. Nothing was handed out yet. Fails only if an allocation fails.
    pub fn new(alloc: Global, frozen: Frozen) -> Result<ImagePrinter, NoMemory>
        ensures { IfOk result (λ p. p ≡ record { tree = frozen; done = 0 }) }
    {
        match PrintedLines::new(alloc, &frozen) {
            Ok(ready) => Ok(ImagePrinter { frozen, ready }),
            Err(NoMemory) => {
                // Dropped by a call, so that the proof costs less.
                drop(frozen);
                Err(NoMemory)
            }
        }
    }

    /// Writes the next bytes of the image to the start of the buffer, and returns how many they are. This is 0 only at the
    /// end of the image, and if the buffer is empty. It may be less than the length of the buffer.
    ///
    /// Fails only if an allocation fails. Then nothing was handed out, and the call can be repeated.
    pub fn next(&mut self, alloc: Global, out: &mut [u8]) -> Result<usize, NoMemory>
        ensures piece { IfOk result (λ n. (t : Tree) → MeanRooted self.old.tree t → HandsOver (image Second t) self.old.done n out.old out.new) }
        ensures on { IfOk result (λ n. self.new ≡ record self.old { done = self.old.done + n }) }
        ensures refused { OnErr result ((self.new ≡ self.old) × (out.new ≡ out.old)) }
    {
        self.ready.fill(alloc, &self.frozen)?;
        self.ready.hand_out(out)
    }
}
