//! The difference of two trees of a volume as text, which says how the image of one becomes that of the other.
ghost use Rattle.std.specs.Prelude.{◌≡◌, IfErr, IfOk, Ok};
ghost use Rattle.pathkey.specs.declared.errno.Errno.TheVariants.{ENOMEM};
ghost use Rattle.reference.specs.Image.{Second, image};
ghost use Rattle.reference.specs.Tree.{Tree};
ghost use Rattle.reference.specs.Worlds.{World};
ghost use Rattle.sha2.specs.Sha256.{sha256};
ghost use Rattle.volume.specs.Volumes.{MeanRooted, Means};
ghost use Rattle.delta.specs.Applies.{IsDifference};
ghost use Rattle.ffi_calls.specs.Differences.{DiffersSo, LacksOne, LacksTree, NamesTree, PrintsDifference};

use crate::reads::copy_if_fits;
use crate::snapshots::{freeze, frozen};
use delta::{image_digest, print_delta};
use pathkey::Errno;
use std::alloc::Global;
use volume::{Frozen, Volume};

/// Prints the difference of two trees of a volume. Each tree is named as its snapshot, and the live tree by an empty text.
/// Returns the length of the difference in bytes. It is written only if the buffer is large enough for all of it, and
/// otherwise the buffer is unchanged. Fails with the error of the old name if that has no tree, else with that of the new
/// name, or with ENOMEM.
pub fn delta(
    alloc: Global,
    volume: &Volume,
    old: &[u8],
    new: &[u8],
    out: &mut [u8],
) -> Result<usize, Errno>
    ensures printed { (w : World) → Means volume.now w → IfOk result (λ n. PrintsDifference old.now new.now w (Ok n) out.old out.new) }
    ensures refused { (w : World) → Means volume.now w → IfErr result (LacksOne old.now new.now w) }
    ensures untouched { IfErr result (λ _. out.new ≡ out.old) }
{
    let text = delta_text(alloc, volume, old, new)?;
    Ok(copy_if_fits(text.as_slice(), out))
}

// Prints the difference into a text.
fn delta_text(alloc: Global, volume: &Volume, old: &[u8], new: &[u8]) -> Result<Vec<u8>, Errno>
    ensures text { (w : World) → Means volume.now w → IfOk result (λ text. DiffersSo old.now new.now w text.items) }
    ensures refused { (w : World) → Means volume.now w → IfErr result (LacksOne old.now new.now w) }
{
    let digest = digest_of(alloc, volume, old)?;
    let before = named_tree(alloc, volume, old)?;
    match named_tree(alloc, volume, new) {
        Ok(after) => text_between(alloc, &digest, before, after),
        Err(fault) => {
            drop(before);
            Err(fault)
        }
    }
}

// The digest of the image of a named tree.
fn digest_of(alloc: Global, volume: &Volume, name: &[u8]) -> Result<[u8; 32], Errno>
    ensures digest { (w : World) → Means volume.now w → IfOk result (λ digest. (t : Tree) → NamesTree name.now w t → digest ≡ sha256 (image Second t)) }
    ensures refused { (w : World) → Means volume.now w → IfErr result (LacksTree name.now w) }
{
    let tree = named_tree(alloc, volume, name)?;
    Ok(image_digest(alloc, tree)?)
}

// The tree with this name: a snapshot, or the live tree if the name is empty.
fn named_tree(alloc: Global, volume: &Volume, name: &[u8]) -> Result<Frozen, Errno>
    ensures found { (w : World) → Means volume.now w → IfOk result (λ i. (t : Tree) × NamesTree name.now w t × MeanRooted i t) }
    ensures refused { (w : World) → Means volume.now w → IfErr result (LacksTree name.now w) }
{
    if name.is_empty() {
        return freeze(volume);
    }
    frozen(alloc, volume, name)
}

// Prints the difference of two trees, given the digest of the first.
fn text_between(
    alloc: Global,
    digest: &[u8; 32],
    before: Frozen,
    after: Frozen,
) -> Result<Vec<u8>, Errno>
    ensures text { (t u : Tree) → MeanRooted before t → MeanRooted after u → digest.now ≡ sha256 (image Second t) → IfOk result (λ text. IsDifference text.items t u) }
    ensures refused { IfErr result (λ e. e ≡ ENOMEM) }
{
    let mut text = Vec::new(alloc);
    if print_delta(alloc, digest, before, after, &mut text).is_err() {
        drop(text);
        return Err(Errno::ENOMEM);
    }
    Ok(text)
}
