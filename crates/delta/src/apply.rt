//! Applies a delta to a volume. The new image is made from the old one line by line, and loaded at the same time.
//!
//! If the delta is not valid, is one of another tree, or its result is not an image, the volume is unchanged.
ghost use Rattle.std.specs.Prelude.{◌≡◌, ◌≢◌, ℕ, Err, IfOk, OnErr, OnOk};
ghost use Rattle.reference.specs.Worlds.{World};
ghost use Rattle.volume.specs.Volumes.{Means};
ghost use Rattle.delta.specs.Applies.{Applied, IsOfOther, SpoilsImage};
ghost use Rattle.delta.specs.Deltas.{IsSomeDelta};
ghost use Rattle.delta.specs.Texts.{IsBadAt};

use crate::fault::DeltaFault;
use crate::patch::make_of;
use crate::reading::read_delta;
use std::alloc::Global;
use volume::Volume;

/// Applies a delta to a volume: its tree becomes the one whose image the delta makes of the image of the old tree. The volume
/// is then a new one. It has no snapshots and no marks, and its trees have the shape of the old metadata tree. If the call
/// fails, the volume is unchanged.
pub fn apply_delta(alloc: Global, volume: &mut Volume, text: &[u8]) -> Result<(), DeltaFault>
    ensures ok { (w : World) → Means volume.old w → OnOk result (Applied text.now w.live volume.old.live.indexes.meta.tree.shape volume.new) }
    ensures unchanged { OnErr result (volume.new ≡ volume.old) }
    ensures bad { (n : ℕ) → result ≡ Err (DeltaFault.Bad n) → IsBadAt n text.now }
    ensures delta { ((n : ℕ) → result ≢ Err (DeltaFault.Bad n)) → IsSomeDelta text.now }
    ensures other { (w : World) → Means volume.old w → result ≡ Err DeltaFault.OtherTree → IsOfOther text.now w.live }
    ensures no_image { (w : World) → Means volume.old w → result ≡ Err DeltaFault.NoImage → SpoilsImage text.now w.live }
{
    match make_volume(alloc, volume, text) {
        Ok(made) => {
            *volume = made;
            Ok(())
        }
        Err(fault) => Err(fault),
    }
}

// Makes a new volume by applying a delta to a volume.
fn make_volume(alloc: Global, volume: &Volume, text: &[u8]) -> Result<Volume, DeltaFault>
    ensures ok { (w : World) → Means volume.now w → IfOk result (Applied text.now w.live volume.now.live.indexes.meta.tree.shape) }
    ensures bad { (n : ℕ) → result ≡ Err (DeltaFault.Bad n) → IsBadAt n text.now }
    ensures delta { ((n : ℕ) → result ≢ Err (DeltaFault.Bad n)) → IsSomeDelta text.now }
    ensures other { (w : World) → Means volume.now w → result ≡ Err DeltaFault.OtherTree → IsOfOther text.now w.live }
    ensures no_image { (w : World) → Means volume.now w → result ≡ Err DeltaFault.NoImage → SpoilsImage text.now w.live }
{
    match read_delta(text) {
        Ok(read) => {
            let digest = read.0;
            make_of(alloc, volume, &digest, read.1)
        }
        Err(number) => Err(DeltaFault::Bad(number)),
    }
}
