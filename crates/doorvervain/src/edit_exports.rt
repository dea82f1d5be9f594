//! Exports of the edits between two trees, which are printed in pieces, and of their application.
ghost use Rattle.std.specs.Prelude.{◌≡◌, IfErr, IfOk};
ghost use Rattle.reference.specs.Worlds.{World};
ghost use Rattle.volume.specs.Volumes.{Means};
ghost use Rattle.edits.specs.Applies.{Applied};
ghost use Rattle.ffi_calls.specs.Differences.{LacksOne};
ghost use Rattle.ffi_calls.specs.Edits.{BeginsBetween, HandsEditsOn};
ghost use Rattle.doorvervain.specs.Edits.{EditFaultReported, EditsReported, NotEdited};
ghost use Rattle.doorvervain.specs.Handed.{Given};
ghost use Rattle.doorvervain.specs.Held.{IsClosed};
ghost use Rattle.doorvervain.specs.Numbers.{IsNumber, reported, reported_by};

use crate::handle::{EditsHandle, VolumeHandle};
use crate::numbers::{count, number};
use crate::place::{EditsOut, hand_out};
use edits::{EditFault, apply_edits};
use pathkey::Errno;
use std::alloc::Global;

/// Starts to print the edits that make one tree of the volume of another, and stores the handle of the printer in `out`. Each tree is
/// named by its snapshot, and the live tree by an empty text. Returns 0, the error of the first name that has no tree, or ENOMEM. On an
/// error `out` is null.
#[unsafe(no_mangle)]
pub extern "C" fn doorvervain_raw_edits_begin(
    alloc: Global,
    fs: &mut VolumeHandle,
    old: &[u8],
    new: &[u8],
    out: &mut EditsOut,
) -> u8
    ensures begun { (w : World) → Means fs.old.volume w → IfOk (reported result) (λ _. Given (BeginsBetween old.now new.now w) out.new.given) }
    ensures lacking { (w : World) → Means fs.old.volume w → IfErr (reported result) (LacksOne old.now new.now w) }
    ensures closed { IfErr (reported result) (λ _. IsClosed out.new.at out.new.given) }
    ensures number { IsNumber result }
    ensures kept { fs.new.volume ≡ fs.old.volume }
{
    number(hand_out(
        alloc,
        ffi_calls::edits_begin(alloc, fs.volume(), old, new),
        out,
    ))
}

/// Writes the next bytes of the edits to the start of the buffer, and stores their number in `size`. This is 0 only at the end of the
/// text, and if the buffer is empty. It may be less than the length of the buffer. With ENOMEM nothing was written, and the call can be
/// repeated.
#[unsafe(no_mangle)]
pub extern "C" fn doorvervain_raw_edits_next(
    alloc: Global,
    edits: &mut EditsHandle,
    out: &mut [u8],
    size: &mut usize,
) -> u8
    ensures piece { HandsEditsOn edits.old.edits (reported_by result size.new) edits.new.edits out.old out.new }
    ensures number { IsNumber result }
    ensures refused { IfErr (reported_by result size.new) (λ _. size.new ≡ 0) }
{
    count(ffi_calls::edits_next(alloc, edits.edits(), out), size)
}

/// Ends the printing of edits, and frees the printer with its trees.
#[unsafe(no_mangle)]
pub extern "C" fn doorvervain_raw_edits_end(alloc: Global, edits: EditsHandle) {
    let _edits = edits.into_raw_parts(alloc).into_box();
}

/// Applies a text of edits to the volume's live tree, all of them or none. Snapshots and marks stay. Returns 0 if this was done, EINVAL if
/// the text is not one of edits, ENOENT if an edit does not fit the tree, or ENOMEM. With EINVAL the number of the first bad line is
/// stored in `line`, and with ENOENT that of the first line that does not fit. In all other cases `line` is 0. On an error the volume is
/// unchanged.
#[unsafe(no_mangle)]
pub extern "C" fn doorvervain_raw_apply_edits(
    alloc: Global,
    fs: &mut VolumeHandle,
    text: &[u8],
    line: &mut u64,
) -> u8
    ensures applied { IfOk (reported result) (λ _. Applied text.now fs.old.volume fs.new.volume) }
    ensures line { IfOk (reported result) (λ _. line.new ≡ 0) }
    ensures refused { (w : World) → Means fs.old.volume w → IfErr (reported result) (λ e. NotEdited text.now w.live e line.new) }
    ensures unchanged { IfErr (reported result) (λ _. fs.new.volume ≡ fs.old.volume) }
    ensures number { IsNumber result }
{
    number(answer(apply_edits(alloc, fs.volume(), text), line))
}

// The result of an application, with 0 as the line, or its error with the line to report.
fn answer(outcome: Result<(), EditFault>, line: &mut u64) -> Result<(), Errno>
    ensures { EditsReported outcome result line.new }
{
    match outcome {
        Ok(()) => {
            *line = 0;
            Ok(())
        }
        Err(fault) => Err(edit_fault(fault, line)),
    }
}

// The error of an application, with the number of the line that is bad or does not fit, or 0.
fn edit_fault(fault: EditFault, line: &mut u64) -> Errno
    ensures { EditFaultReported fault result line.new }
{
    match fault {
        EditFault::Memory => {
            *line = 0;
            Errno::ENOMEM
        }
        EditFault::Bad(number) => {
            *line = number;
            Errno::EINVAL
        }
        EditFault::Unfit(number) => {
            *line = number;
            Errno::ENOENT
        }
    }
}
