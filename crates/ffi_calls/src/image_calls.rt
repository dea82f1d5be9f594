//! Images: a tree is printed as text, at once or in pieces, and loaded.
ghost use Rattle.std.specs.Prelude.{◌≡◌, ◌≢◌, ◌↔◌, ℕ, Err, IfErr, IfOk, false};
ghost use Rattle.node.specs.Shapes.{is_shape};
ghost use Rattle.reference.specs.Image.{Second, image};
ghost use Rattle.reference.specs.ImageLines.{IsBadAt};
ghost use Rattle.reference.specs.Tree.{Tree};
ghost use Rattle.images.specs.Loads.{Loaded, form_of, new_form};
ghost use Rattle.ffi_calls.specs.Images.{Prints, PrintsOn};
ghost use Rattle.pathkey.specs.declared.errno.Errno.TheVariants.{ENOMEM};
ghost use Rattle.volume.specs.Volumes.{MeanRooted};

use crate::reads::copy_if_fits;
use images::{ImagePrinter, LoadFault, load_text, print_image};
use node::Shape;
use pathkey::Errno;
use std::alloc::Global;
use volume::{Frozen, Volume};

/// Prints the image of a frozen tree, in version 2. Returns its length in bytes. It is written only if the buffer is large
/// enough for all of it, and otherwise the buffer is unchanged. Fails only with ENOMEM.
pub fn print(alloc: Global, tree: &Frozen, out: &mut [u8]) -> Result<usize, Errno>
    ensures { (t : Tree) → MeanRooted tree.now t → Prints (image Second t) result out.old out.new }
{
    let mut text = Vec::new(alloc);
    if print_image(alloc, tree, &mut text).is_err() {
        return Err(Errno::ENOMEM);
    }
    Ok(copy_if_fits(text.as_slice(), out))
}

/// Starts to print the image of a frozen tree, in version 2, which `print_piece` hands out. Fails only with ENOMEM.
pub fn print_begin(alloc: Global, tree: Frozen) -> Result<ImagePrinter, Errno>
    ensures given { IfOk result (λ p. p ≡ record { tree = tree; done = 0 }) }
    ensures refused { IfErr result (λ e. e ≡ ENOMEM) }
{
    Ok(ImagePrinter::new(alloc, tree)?)
}

/// Writes the next bytes of an image to the start of the buffer, and returns how many they are. This is 0 only at the end of
/// the image, and if the buffer is empty. It may be less than the length of the buffer. After an allocation failure the call
/// can be repeated.
pub fn print_piece(
    alloc: Global,
    printing: &mut ImagePrinter,
    out: &mut [u8],
) -> Result<usize, Errno>
    ensures { PrintsOn printing.old result printing.new out.old out.new }
{
    Ok(printing.next(alloc, out)?)
}

/// Loads an image, and returns a new volume with its tree, without snapshots, in trees of this shape. Fails with `Shape` if
/// the shape is invalid, with `Memory` if an allocation fails, and with `Bad` if the text is not an image: this has the
/// number of the first bad line. Nothing is read, so it never fails with `Read`.
pub fn load(alloc: Global, shape: Shape, text: &[u8]) -> Result<Volume, LoadFault>
    ensures loaded { IfOk result (Loaded text.now) }
    ensures form { IfOk result (λ v. form_of v ≡ new_form shape) }
    ensures bad { (n : ℕ) → result ≡ Err (LoadFault.Bad n) → IsBadAt n text.now }
    ensures shape { (result ≡ Err LoadFault.Shape) ↔ (is_shape shape ≡ false) }
    ensures read { result ≢ Err LoadFault.Read }
{
    load_text(alloc, shape, text)
}
