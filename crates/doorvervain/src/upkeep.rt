//! Exports that create and close handles, and tree steps. Each handle is closed once, and its pointer is not valid
//! afterwards.
ghost use Rattle.pathkey.specs.SnapNames.{snap_parsed};
ghost use Rattle.pathkey.specs.declared.errno.Errno.TheVariants.{EINVAL, ENOMEM};
ghost use Rattle.std.specs.Prelude.{◌≡◌, ◌≤◌, ◌<◌, ◌⊎◌, false, Err, IfErr, IfOk, Some};
ghost use Rattle.node.specs.Shapes.{is_shape};
ghost use Rattle.reference.specs.Worlds.{World};
ghost use Rattle.images.specs.Taken.{LoadedIn};
ghost use Rattle.volume.specs.Marked.{KeepsMarks};
ghost use Rattle.volume.specs.Volumes.{IsNew, Means, live_of};
ghost use Rattle.ffi_calls.specs.Upkeep.{IsIdle, IsStuck, Relieves};
ghost use Rattle.doorvervain.specs.Handed.{AnswerReported, FaultReported, FindsHanded, Given, HandsNew, NoShape, NotLoaded, shape_of};
ghost use Rattle.doorvervain.specs.Held.{IsClosed};
ghost use Rattle.doorvervain.specs.Numbers.{IsNumber, reported};

use crate::handle::{FrozenHandle, VolumeHandle};
use crate::numbers::number;
use crate::place::{FrozenOut, VolumeOut, hand_out};
use images::LoadFault;
use node::Shape;
use pathkey::Errno;
use std::alloc::Global;
use volume::Volume;

/// Creates a volume with an empty root directory in trees of this shape, and stores its handle in `out`. Returns 0, EINVAL if
/// the shape is invalid, or ENOMEM. On an error `out` is null.
#[unsafe(no_mangle)]
pub extern "C" fn doorvervain_raw_open(
    alloc: Global,
    fanout: u16,
    pending: u16,
    leaf: u16,
    out: &mut VolumeOut,
) -> u8
    ensures new { HandsNew IsNew (shape_of fanout pending leaf) (reported result) out.new.at out.new.given }
    ensures number { IsNumber result }
{
    let shape = Shape {
        fanout,
        pending,
        leaf,
    };
    number(open(alloc, shape, out))
}

/// Loads an image into a new volume in trees of this shape, without snapshots, and stores its handle in `out`. Returns 0,
/// EINVAL or ENOMEM. On an error `out` is null. With EINVAL the number of the first bad line is stored in `line`, or 0 if the
/// shape is invalid. Otherwise `line` is 0.
#[unsafe(no_mangle)]
pub extern "C" fn doorvervain_raw_load(
    alloc: Global,
    fanout: u16,
    pending: u16,
    leaf: u16,
    text: &[u8],
    line: &mut u64,
    out: &mut VolumeOut,
) -> u8
    ensures loaded { IfOk (reported result) (λ _. Given (LoadedIn (shape_of fanout pending leaf) text.now) out.new.given) }
    ensures line { IfOk (reported result) (λ _. line.new ≡ 0) }
    ensures shape { NoShape fanout pending leaf → (reported result ≡ Err EINVAL) × (line.new ≡ 0) }
    ensures refused { IfErr (reported result) (λ e. NotLoaded (shape_of fanout pending leaf) text.now e line.new) }
    ensures closed { IfErr (reported result) (λ _. IsClosed out.new.at out.new.given) }
    ensures number { IsNumber result }
{
    let shape = Shape {
        fanout,
        pending,
        leaf,
    };
    number(load(alloc, shape, text, line, out))
}

/// Closes a handle, and frees its volume.
#[unsafe(no_mangle)]
pub extern "C" fn doorvervain_raw_close(alloc: Global, fs: VolumeHandle) {
    let _volume = fs.into_raw_parts(alloc).into_box();
}

/// Freezes the current live tree, and stores its handle in `out`. Returns 0, or ENOMEM, and then `out` is null.
#[unsafe(no_mangle)]
pub extern "C" fn doorvervain_raw_freeze(
    alloc: Global,
    fs: &mut VolumeHandle,
    out: &mut FrozenOut,
) -> u8
    ensures given { IfOk (reported result) (λ _. out.new.given ≡ Some fs.old.volume.live) }
    ensures refused { IfErr (reported result) (λ e. e ≡ ENOMEM) }
    ensures closed { IfErr (reported result) (λ _. IsClosed out.new.at out.new.given) }
    ensures number { IsNumber result }
    ensures kept { fs.new.volume ≡ fs.old.volume }
{
    number(hand_out(alloc, ffi_calls::freeze(fs.volume()), out))
}

/// Stores the handle of a snapshot's tree in `out`. Returns 0, or the error, and then `out` is null.
#[unsafe(no_mangle)]
pub extern "C" fn doorvervain_raw_open_snapshot(
    alloc: Global,
    fs: &mut VolumeHandle,
    name: &[u8],
    out: &mut FrozenOut,
) -> u8
    ensures named { FindsHanded (snap_parsed name.now) fs.old.volume (reported result) out.new.given }
    ensures closed { IfErr (reported result) (λ _. IsClosed out.new.at out.new.given) }
    ensures number { IsNumber result }
    ensures kept { fs.new.volume ≡ fs.old.volume }
{
    number(hand_out(alloc, ffi_calls::frozen(alloc, fs.volume(), name), out))
}

/// Closes a handle, and frees its tree.
#[unsafe(no_mangle)]
pub extern "C" fn doorvervain_raw_frozen_close(alloc: Global, tree: FrozenHandle) {
    let _tree = tree.into_raw_parts(alloc).into_box();
}

/// Does at most `steps` tree steps. Returns how many were done, which is fewer only if nothing is pending or the next step
/// was not done. The volume still abstracts to the same world.
#[unsafe(no_mangle)]
pub extern "C" fn doorvervain_raw_compact(alloc: Global, fs: &mut VolumeHandle, steps: u32) -> u32
    ensures few { result ≤ steps }
    ensures steps { Relieves result fs.old.volume fs.new.volume }
    ensures means { (w : World) → Means fs.old.volume w → Means fs.new.volume w }
    ensures rest { result < steps → IsIdle fs.new.volume ⊎ IsStuck fs.new.volume }
{
    ffi_calls::compact(alloc, fs.volume(), steps)
}

/// Prepares for a snapshot or a transaction, whose first changes then copy no list of messages. It changes nothing.
#[unsafe(no_mangle)]
pub extern "C" fn doorvervain_raw_make_sharable(fs: &mut VolumeHandle)
    ensures { fs.new.volume ≡ fs.old.volume }
{
    fs.volume().make_sharable();
}

/// Sorts in the messages that waited while a frozen tree shared the live one, as at the end of a transaction. The volume still
/// abstracts to the same world, with the same snapshots and marks.
#[unsafe(no_mangle)]
pub extern "C" fn doorvervain_raw_condense(alloc: Global, fs: &mut VolumeHandle)
    ensures means { (w : World) → Means fs.old.volume w → Means fs.new.volume w }
    ensures root { fs.new.volume.live.modified ≡ fs.old.volume.live.modified }
    ensures snapshots { fs.new.volume.snapshots ≡ fs.old.volume.snapshots }
    ensures marks { fs.new.volume.marks ≡ fs.old.volume.marks }
    ensures kept { KeepsMarks (live_of fs.old.volume) (live_of fs.new.volume) }
{
    fs.volume().condense(alloc);
}

// Creates a volume, and stores its handle in `out`.
fn open(alloc: Global, shape: Shape, out: &mut VolumeOut) -> Result<(), Errno>
    ensures { HandsNew IsNew shape result out.new.at out.new.given }
{
    let made = Volume::new(alloc, shape);
    hand_out(alloc, made, out)
}

// Loads an image, and stores the handle of its volume in `out`.
fn load(
    alloc: Global,
    shape: Shape,
    text: &[u8],
    line: &mut u64,
    out: &mut VolumeOut,
) -> Result<(), Errno>
    ensures loaded { IfOk result (λ _. Given (LoadedIn shape text.now) out.new.given) }
    ensures line { IfOk result (λ _. line.new ≡ 0) }
    ensures shape { is_shape shape ≡ false → (result ≡ Err EINVAL) × (line.new ≡ 0) }
    ensures refused { IfErr result (λ e. NotLoaded shape text.now e line.new) }
    ensures closed { IfErr result (λ _. IsClosed out.new.at out.new.given) }
{
    let made = volume_of(alloc, shape, text, line);
    hand_out(alloc, made, out)
}

// Loads a volume from an image, with 0 as the line, or returns the error with the line to report.
fn volume_of(alloc: Global, shape: Shape, text: &[u8], line: &mut u64) -> Result<Volume, Errno>
    ensures loaded { IfOk result (λ v. LoadedIn shape text.now v) }
    ensures line { IfOk result (λ _. line.new ≡ 0) }
    ensures shape { is_shape shape ≡ false → (result ≡ Err EINVAL) × (line.new ≡ 0) }
    ensures refused { IfErr result (λ e. NotLoaded shape text.now e line.new) }
{
    answer(ffi_calls::load(alloc, shape, text), line)
}

/// The result of a load, with 0 as the line, or its error with the line to report.
pub(crate) fn answer<T>(outcome: Result<T, LoadFault>, line: &mut u64) -> Result<T, Errno>
    ensures { AnswerReported outcome result line.new }
{
    match outcome {
        Ok(value) => {
            *line = 0;
            Ok(value)
        }
        Err(fault) => Err(load_fault(fault, line)),
    }
}

// The error of a load, with the number of the first bad line, or 0. `Read` has no number of its own, since a text in memory
// should never lead to it.
fn load_fault(fault: LoadFault, line: &mut u64) -> Errno
    ensures { FaultReported fault result line.new }
{
    *line = 0;
    match fault {
        LoadFault::Memory => Errno::ENOMEM,
        LoadFault::Read => Errno::ENOMEM,
        LoadFault::Shape => Errno::EINVAL,
        LoadFault::Bad(number) => {
            *line = number;
            Errno::EINVAL
        }
    }
}
