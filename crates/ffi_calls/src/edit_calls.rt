//! The edits between two trees of a volume, printed and handed out in pieces.
ghost use Rattle.std.specs.Prelude.{◌≡◌, IfErr, IfOk, None};
ghost use Rattle.reference.specs.Worlds.{World};
ghost use Rattle.call_compiler.specs.declared.indexes.Indexes.{Indexes};
ghost use Rattle.volume.specs.Differences.{AgreeBeside};
ghost use Rattle.volume.specs.Volumes.{Means};
ghost use Rattle.ffi_calls.specs.Differences.{LacksOne};
ghost use Rattle.ffi_calls.specs.Edits.{BeginsBetween, HandsEditsOn};

use crate::changed::{NamedTree, named_tree};
use delta::EditsPrinter;
use pathkey::Errno;
use std::alloc::Global;
use volume::Volume;

/// Starts to print the edits that make one tree of a volume of another, which `edits_next` hands out. Each tree is named as its
/// snapshot, and the live tree by an empty text. Both are taken here: later changes of the volume do not affect them. Fails with the
/// error of the old name if that has no tree, else with that of the new name, or with ENOMEM.
pub fn edits_begin(
    alloc: Global,
    volume: &Volume,
    old: &[u8],
    new: &[u8],
) -> Result<EditsPrinter, Errno>
    ensures begun { (w : World) → Means volume.now w → IfOk result (BeginsBetween old.now new.now w) }
    ensures refused { (w : World) → Means volume.now w → IfErr result (LacksOne old.now new.now w) }
{
    let before = named_tree(alloc, volume, old)?;
    match named_tree(alloc, volume, new) {
        Ok(after) => Ok(printer_between(before, after)),
        Err(fault) => {
            drop(before);
            Err(fault)
        }
    }
}

// A printer of the edits between two trees of one volume.
fn printer_between(before: NamedTree, after: NamedTree) -> EditsPrinter
    requires { (i : Indexes) × AgreeBeside before.changes before.tree.indexes i × AgreeBeside after.changes after.tree.indexes i }
    ensures { result ≡ record { from = before.tree; to = after.tree; text = None; handed = 0 } }
{
    EditsPrinter::new(before.tree, after.tree, before.changes, after.changes)
}

/// Writes the next bytes of the edits to the start of the buffer, and returns how many they are. This is 0 only at the end of the
/// text, and if the buffer is empty. It may be less than the length of the buffer. The first call prints the text. After an allocation
/// failure the call can be repeated.
pub fn edits_next(alloc: Global, printer: &mut EditsPrinter, out: &mut [u8]) -> Result<usize, Errno>
    ensures { HandsEditsOn printer.old result printer.new out.old out.new }
{
    Ok(printer.next(alloc, out)?)
}
