//! Exports of deltas, which say how one tree becomes another: printing and application.
ghost use Rattle.std.specs.Prelude.{◌≡◌, ◌↔◌, IfErr, IfOk, Ok};
ghost use Rattle.reference.specs.Worlds.{World};
ghost use Rattle.volume.specs.Volumes.{Means};
ghost use Rattle.ffi_calls.specs.Differences.{LacksOne, PrintsChanged, PrintsDifference};
ghost use Rattle.delta.specs.Applies.{Applied};
ghost use Rattle.doorvervain.specs.Differences.{DeltaFaultReported, DeltaReported, NotApplied};
ghost use Rattle.doorvervain.specs.Numbers.{IsNumber, IsShort, IsSizeNumber, short, sized_by, reported};

use crate::handle::VolumeHandle;
use crate::numbers::{number, sized};
use delta::{DeltaFault, apply_delta};
use pathkey::Errno;
use std::alloc::Global;

/// Prints the difference of two trees of the volume. Each is named by its snapshot, and the live tree by an empty text.
/// Stores its length in bytes in `size`, and writes it only if the buffer is large enough for all of it. The result is that
/// of a short buffer if the capacity is smaller but not 0. Capacity 0 only requests the size.
#[unsafe(no_mangle)]
pub extern "C" fn doorvervain_raw_delta(
    alloc: Global,
    fs: &mut VolumeHandle,
    old: &[u8],
    new: &[u8],
    out: &mut [u8],
    size: &mut usize,
) -> u8
    ensures printed { (w : World) → Means fs.old.volume w → IfOk (sized_by result size.new) (λ n. PrintsDifference old.now new.now w (Ok n) out.old out.new) }
    ensures lacking { (w : World) → Means fs.old.volume w → IfErr (sized_by result size.new) (LacksOne old.now new.now w) }
    ensures short { (result ≡ short) ↔ IsShort size.new out.old }
    ensures number { IsSizeNumber result }
    ensures refused { IfErr (sized_by result size.new) (λ _. size.new ≡ 0) }
    ensures untouched { IfErr (sized_by result size.new) (λ _. out.new ≡ out.old) }
    ensures kept { fs.new.volume ≡ fs.old.volume }
{
    let reported = ffi_calls::delta(alloc, fs.volume(), old, new, out);
    sized(reported, out.len(), size)
}

/// Lists the paths at which two trees of the volume differ, in the order of their keys: for each its text and a zero byte. Each tree is
/// named by its snapshot, and the live tree by an empty text. Stores the length of the list in bytes in `size`, and writes it only if
/// the buffer is large enough for all of it. The result is that of a short buffer if the capacity is smaller but not 0. Capacity 0 only
/// requests the size.
#[unsafe(no_mangle)]
pub extern "C" fn doorvervain_raw_changed_paths(
    alloc: Global,
    fs: &mut VolumeHandle,
    old: &[u8],
    new: &[u8],
    out: &mut [u8],
    size: &mut usize,
) -> u8
    ensures listed { (w : World) → Means fs.old.volume w → IfOk (sized_by result size.new) (λ n. PrintsChanged old.now new.now w (Ok n) out.old out.new) }
    ensures lacking { (w : World) → Means fs.old.volume w → IfErr (sized_by result size.new) (LacksOne old.now new.now w) }
    ensures short { (result ≡ short) ↔ IsShort size.new out.old }
    ensures number { IsSizeNumber result }
    ensures refused { IfErr (sized_by result size.new) (λ _. size.new ≡ 0) }
    ensures untouched { IfErr (sized_by result size.new) (λ _. out.new ≡ out.old) }
    ensures kept { fs.new.volume ≡ fs.old.volume }
{
    let listed = ffi_calls::changed_paths(alloc, fs.volume(), old, new, out);
    sized(listed, out.len(), size)
}

/// Applies a delta to the volume's live tree. Returns 0 if this was done, and the volume is then a new one without snapshots.
/// Returns ENOENT if it is the delta of another tree, EINVAL if the text is not a delta or makes no image, or ENOMEM. If the
/// text is not a delta, the number of its first bad line is stored in `line`. In all other cases `line` is 0. On an error the
/// volume is unchanged.
#[unsafe(no_mangle)]
pub extern "C" fn doorvervain_raw_apply_delta(
    alloc: Global,
    fs: &mut VolumeHandle,
    text: &[u8],
    line: &mut u64,
) -> u8
    ensures applied { (w : World) → Means fs.old.volume w → IfOk (reported result) (λ _. Applied text.now w.live fs.old.volume.live.indexes.meta.tree.shape fs.new.volume) }
    ensures line { IfOk (reported result) (λ _. line.new ≡ 0) }
    ensures refused { (w : World) → Means fs.old.volume w → IfErr (reported result) (λ e. NotApplied text.now w.live e line.new) }
    ensures unchanged { IfErr (reported result) (λ _. fs.new.volume ≡ fs.old.volume) }
    ensures number { IsNumber result }
{
    number(answer(apply_delta(alloc, fs.volume(), text), line))
}

// The result of an application, with 0 as the line, or its error with the line to report.
fn answer(outcome: Result<(), DeltaFault>, line: &mut u64) -> Result<(), Errno>
    ensures { DeltaReported outcome result line.new }
{
    match outcome {
        Ok(()) => {
            *line = 0;
            Ok(())
        }
        Err(fault) => Err(delta_fault(fault, line)),
    }
}

// The error of an application, with the number of the first bad line of the text, or 0.
fn delta_fault(fault: DeltaFault, line: &mut u64) -> Errno
    ensures { DeltaFaultReported fault result line.new }
{
    *line = 0;
    match fault {
        DeltaFault::Memory => Errno::ENOMEM,
        DeltaFault::OtherTree => Errno::ENOENT,
        DeltaFault::NoImage => Errno::EINVAL,
        DeltaFault::Bad(number) => {
            *line = number;
            Errno::EINVAL
        }
    }
}
