//! The digest of an image, which is in the first line of a delta: a delta is applied only to the tree whose image has
//! this digest.
ghost use Rattle.std.specs.Prelude.{◌≡◌, ◌<◌, IfOk, length};
ghost use Rattle.reference.specs.Image.{Second, image};
ghost use Rattle.reference.specs.Tree.{Tree};
ghost use Rattle.sha2.specs.Sha256.{sha256};
ghost use Rattle.volume.specs.Volumes.{MeanRooted};

use images::ImagePrinter;
use pathkey::NoMemory;
use sha2::{Digest, Sha256};
use std::alloc::Global;
use volume::Frozen;

/// The number of bytes of an image that are printed at a time.
const PIECE: usize = 65_536;

/// Computes the SHA-256 digest of the image of a frozen tree. Fails only if an allocation fails.
pub fn image_digest(alloc: Global, frozen: Frozen) -> Result<[u8; 32], NoMemory>
    ensures { IfOk result (λ digest. (t : Tree) → MeanRooted frozen t → digest ≡ sha256 (image Second t)) }
{
    let Ok(mut piece) = Vec::from_elem(alloc, 0u8, PIECE) else {
        drop(frozen);
        return Err(NoMemory);
    };
    let Ok(mut printing) = ImagePrinter::new(alloc, frozen) else {
        drop(piece);
        return Err(NoMemory);
    };
    let digest = digest_of(alloc, &mut printing, piece.as_mut_slice());
    drop(printing);
    drop(piece);
    digest
}

// Computes the digest of an image from its beginning. The image is printed in pieces into the buffer.
fn digest_of(
    alloc: Global,
    printing: &mut ImagePrinter,
    piece: &mut [u8],
) -> Result<[u8; 32], NoMemory>
    requires fresh { printing.old.done ≡ 0 }
    requires some { 0 < length piece.old }
    ensures { IfOk result (λ digest. (t : Tree) → MeanRooted printing.old.tree t → digest ≡ sha256 (image Second t)) }
{
    let mut hasher = Sha256::new();
    // No image has more pieces than this.
    'pieces: for _ in 0..u64::MAX {
        let count = printing.next(alloc, piece)?;
        if count == 0 {
            return Ok(hasher.finalize());
        }
        hasher.update(&piece[..count.min(piece.len())]);
    }
    Err(NoMemory)
}
