//! Exports of images that are printed and loaded in pieces, so no image has to fit into memory.
ghost use Rattle.std.specs.Prelude.{◌≡◌, ◌↔◌, ◌⊎◌, ◌++◌, ℕ, List, Err, IfErr, IfOk, Some, false};
ghost use Rattle.node.specs.Shapes.{is_shape};
ghost use Rattle.node.specs.declared.shape.Shape.{Shape as TreeShape};
ghost use Rattle.pathkey.specs.declared.errno.Errno.TheVariants.{EINVAL, ENOMEM};
ghost use Rattle.images.specs.Taken.{IsFresh, LoadedIn, Took, answer_of};
ghost use Rattle.ffi_calls.specs.Images.{PrintsOn};
ghost use Rattle.doorvervain.specs.Handed.{AnswerReported, Given, HandsNew, NoImage, shape_of};
ghost use Rattle.doorvervain.specs.Held.{IsClosed};
ghost use Rattle.doorvervain.specs.Numbers.{IsNumber, reported, reported_by};

use crate::handle::{FrozenHandle, LoaderHandle, PrinterHandle};
use crate::numbers::{count, number};
use crate::place::{LoaderOut, PrinterOut, VolumeOut, hand_out};
use crate::upkeep::answer;
use images::{ImageLoader, LoadFault};
use node::Shape;
use pathkey::Errno;
use std::alloc::Global;

/// Starts to print the image of a frozen tree, which it consumes, and stores the handle of the printer in `out`. Returns 0 or
/// ENOMEM. On an error the tree is freed and `out` is null.
#[unsafe(no_mangle)]
pub extern "C" fn doorvervain_raw_print_begin(
    alloc: Global,
    tree: FrozenHandle,
    out: &mut PrinterOut,
) -> u8
    ensures given { IfOk (reported result) (λ _. out.new.given ≡ Some (record { tree = tree.tree; done = 0 })) }
    ensures refused { IfErr (reported result) (λ e. e ≡ ENOMEM) }
    ensures closed { IfErr (reported result) (λ _. IsClosed out.new.at out.new.given) }
    ensures number { IsNumber result }
{
    let tree = Box::into_inner(tree.into_raw_parts(alloc).into_box());
    number(hand_out(alloc, ffi_calls::print_begin(alloc, tree), out))
}

/// Writes the next bytes of the image to the start of the buffer, and stores their number in `size`. This is 0 only at the
/// end of the image, and if the buffer is empty. It may be less than the length of the buffer. With ENOMEM nothing was
/// written, and the call can be repeated.
#[unsafe(no_mangle)]
pub extern "C" fn doorvervain_raw_print_next(
    alloc: Global,
    printing: &mut PrinterHandle,
    out: &mut [u8],
    size: &mut usize,
) -> u8
    ensures piece { PrintsOn printing.old.printing (reported_by result size.new) printing.new.printing out.old out.new }
    ensures number { IsNumber result }
    ensures refused { IfErr (reported_by result size.new) (λ _. size.new ≡ 0) }
{
    count(
        ffi_calls::print_piece(alloc, printing.printing(), out),
        size,
    )
}

/// Ends the printing of an image, and frees the printer with its tree.
#[unsafe(no_mangle)]
pub extern "C" fn doorvervain_raw_print_end(alloc: Global, printing: PrinterHandle) {
    let _printing = printing.into_raw_parts(alloc).into_box();
}

/// Starts to load an image into a new volume in trees of this shape, and stores the handle of the loader in `out`. Returns 0,
/// EINVAL if the shape is invalid, or ENOMEM. On an error `out` is null.
#[unsafe(no_mangle)]
pub extern "C" fn doorvervain_raw_load_begin(
    alloc: Global,
    fanout: u16,
    pending: u16,
    leaf: u16,
    out: &mut LoaderOut,
) -> u8
    ensures fresh { HandsNew IsFresh (shape_of fanout pending leaf) (reported result) out.new.at out.new.given }
    ensures number { IsNumber result }
{
    let shape = Shape {
        fanout,
        pending,
        leaf,
    };
    number(begin(alloc, shape, out))
}

/// Loads the next piece of the text. Returns 0, EINVAL if the text is not an image, whatever follows, or ENOMEM. With EINVAL
/// the number of the first bad line is stored in `line`. Otherwise `line` is 0. An error is final: each later piece fails
/// with the same error, and changes nothing.
#[unsafe(no_mangle)]
pub extern "C" fn doorvervain_raw_load_feed(
    alloc: Global,
    loading: &mut LoaderHandle,
    text: &[u8],
    line: &mut u64,
) -> u8
    ensures took { (shape : TreeShape) (before : List ℕ) → Took shape before loading.old.loading → Took shape (before ++ text.now) loading.new.loading }
    ensures answer { AnswerReported (answer_of loading.new.loading.intake) (reported result) line.new }
    ensures refused { IfErr (answer_of loading.old.loading.intake) (λ _. loading.new.loading ≡ loading.old.loading) }
    ensures number { IsNumber result }
{
    number(answer(loading.loading().feed(alloc, text), line))
}

/// Ends the text and the loader, which it consumes, and stores in `out` the handle of the volume with the tree of this image,
/// without snapshots. Returns 0, the error of an earlier piece, EINVAL if the text is not an image, or ENOMEM. With EINVAL
/// the number of the first bad line is stored in `line`. Otherwise `line` is 0. On an error `out` is null.
#[unsafe(no_mangle)]
pub extern "C" fn doorvervain_raw_load_finish(
    alloc: Global,
    loading: LoaderHandle,
    line: &mut u64,
    out: &mut VolumeOut,
) -> u8
    ensures loaded { (shape : TreeShape) (text : List ℕ) → Took shape text loading.loading → IfOk (reported result) (λ _. Given (LoadedIn shape text) out.new.given) }
    ensures line { IfOk (reported result) (λ _. line.new ≡ 0) }
    ensures no_image { (shape : TreeShape) (text : List ℕ) → Took shape text loading.loading → IfErr (reported result) (λ e. NoImage text e line.new) }
    ensures refused { IfErr (answer_of loading.loading.intake) (λ f. AnswerReported (Err f) (reported result) line.new) }
    ensures closed { IfErr (reported result) (λ _. IsClosed out.new.at out.new.given) }
    ensures number { IsNumber result }
{
    let loader = Box::into_inner(loading.into_raw_parts(alloc).into_box());
    number(end(alloc, loader, line, out))
}

/// Ends the loading of an image, and frees what was loaded.
#[unsafe(no_mangle)]
pub extern "C" fn doorvervain_raw_load_abort(alloc: Global, loading: LoaderHandle) {
    let _loading = loading.into_raw_parts(alloc).into_box();
}

// Starts to load an image, and stores the handle of the loader in `out`.
fn begin(alloc: Global, shape: Shape, out: &mut LoaderOut) -> Result<(), Errno>
    ensures { HandsNew IsFresh shape result out.new.at out.new.given }
{
    let fresh = new_loader(alloc, shape);
    hand_out(alloc, fresh, out)
}

// Creates a loader, or returns the error.
fn new_loader(alloc: Global, shape: Shape) -> Result<ImageLoader, Errno>
    ensures fresh { IfOk result (IsFresh shape) }
    ensures shape { (result ≡ Err EINVAL) ↔ (is_shape shape ≡ false) }
    ensures refused { IfErr result (λ e. (e ≡ EINVAL) ⊎ (e ≡ ENOMEM)) }
{
    match ImageLoader::new(alloc, shape) {
        Ok(loader) => Ok(loader),
        Err(LoadFault::Shape) => Err(Errno::EINVAL),
        Err(_) => Err(Errno::ENOMEM),
    }
}

// Ends the loading of an image, and stores the handle of its volume in `out`.
fn end(alloc: Global, loader: ImageLoader, line: &mut u64, out: &mut VolumeOut) -> Result<(), Errno>
    ensures loaded { (shape : TreeShape) (text : List ℕ) → Took shape text loader → IfOk result (λ _. Given (LoadedIn shape text) out.new.given) }
    ensures line { IfOk result (λ _. line.new ≡ 0) }
    ensures no_image { (shape : TreeShape) (text : List ℕ) → Took shape text loader → IfErr result (λ e. NoImage text e line.new) }
    ensures refused { IfErr (answer_of loader.intake) (λ f. AnswerReported (Err f) result line.new) }
    ensures closed { IfErr result (λ _. IsClosed out.new.at out.new.given) }
{
    let made = answer(loader.end(), line);
    hand_out(alloc, made, out)
}
