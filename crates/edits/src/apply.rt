//! Applies a text of edits to a volume, all of them or none.
ghost use Rattle.std.specs.Prelude.{◌≡◌, ◌≢◌, [], ℕ, Err, MatchResult, OnErr, OnOk};
ghost use Rattle.reference.specs.Worlds.{World};
ghost use Rattle.volume.specs.Volumes.{Means};
ghost use Rattle.textio.specs.Lines.{IsFirstBad};
ghost use Rattle.edits.specs.Applies.{Applied, DoesNotFit, FitsBefore, Stays};
ghost use Rattle.edits.specs.Applying.{DoesLine, DoesText};
ghost use Rattle.edits.specs.Lines.{AreSomeEdits, IsEdit, spelled};

use crate::edit::Edit;
use crate::edit_line::read_edit;
use crate::frame::behind_heading;
use crate::perform::perform;
use pathkey::NoMemory;
use std::alloc::Global;
use textio::words::split_line;
use thiserror::Error;
use volume::Volume;

/// Why a text of edits was not applied.
#[derive(Debug, Drop, PartialEq, Eq, Error)]
pub enum EditFault {
    /// An allocation failed.
    #[error("no memory")]
    Memory,
    /// The text is not one of edits. The number is that of its first bad line, counted from 1.
    #[error("bad edit at line {0}")]
    Bad(u64),
    /// The edit in the line with this number does not fit the tree, or makes none.
    #[error("line {0} does not fit")]
    Unfit(u64),
}

/// Applies a text of edits to the live tree, one line after the other. Snapshots and marks stay. If it fails, the volume is unchanged: at
/// the first line that is no edit or does not fit, or for memory.
pub fn apply_edits(alloc: Global, volume: &mut Volume, text: &[u8]) -> Result<(), EditFault>
    ensures applied { OnOk result (Applied text.now volume.old volume.new) }
    ensures unchanged { OnErr result (volume.new ≡ volume.old) }
    ensures bad { (n : ℕ) → result ≡ Err (EditFault.Bad n) → IsFirstBad AreSomeEdits n text.now }
    ensures fitting { (n : ℕ) (w : World) → Means volume.old w → result ≡ Err (EditFault.Bad n) → FitsBefore n text.now w.live }
    ensures unfit { (n : ℕ) (w : World) → Means volume.old w → result ≡ Err (EditFault.Unfit n) → DoesNotFit n text.now w.live }
{
    volume.assert_invariant();
    let Ok(before) = volume.live_root() else {
        return Err(EditFault::Memory);
    };
    match apply_lines(alloc, volume, text) {
        Ok(()) => Ok(()),
        Err(fault) => {
            volume.put_back(before);
            Err(fault)
        }
    }
}

// Applies a text of edits, one line after the other. What was done before an error stays done.
fn apply_lines(alloc: Global, volume: &mut Volume, text: &[u8]) -> Result<(), EditFault>
    ensures does { DoesText text.now result volume.old volume.new }
    ensures stays { Stays volume.old volume.new }
{
    let Some(lines) = behind_heading(text) else {
        return Err(EditFault::Bad(1));
    };
    let mut rest = lines;
    let mut number = 2u64;
    'lines: while let Some((line, behind)) = split_line(rest) {
        if line == b"end".as_slice() {
            return check_end(behind, number + 1);
        }
        if let Err(fault) = apply_line(alloc, volume, line, number) {
            return Err(fault);
        }
        rest = behind;
        number += 1;
    }
    Err(EditFault::Bad(number))
}

// Checks that nothing follows the last line: `text` is what does, and `number` is that of its first line.
fn check_end(text: &[u8], number: u64) -> Result<(), EditFault>
    ensures { MatchResult result (λ _. text.now ≡ []) (λ fault. (fault ≡ EditFault.Bad number) × (text.now ≢ [])) }
{
    if text.is_empty() {
        Ok(())
    } else {
        Err(EditFault::Bad(number))
    }
}

// Applies the line with this number.
fn apply_line(alloc: Global, volume: &mut Volume, line: &[u8], number: u64) -> Result<(), EditFault>
    ensures { DoesLine line.now number result volume.old volume.new }
{
    match read_edit(alloc, line) {
        Ok(Some(edit)) => apply_edit(alloc, volume, &edit, number),
        Ok(None) => Err(EditFault::Bad(number)),
        Err(NoMemory) => Err(EditFault::Memory),
    }
}

// Applies the edit of the line with this number.
fn apply_edit(alloc: Global, volume: &mut Volume, edit: &Edit, number: u64) -> Result<(), EditFault>
    requires { IsEdit edit.now }
    ensures { DoesLine (spelled edit.now) number result volume.old volume.new }
{
    match perform(alloc, volume, edit) {
        Ok(true) => Ok(()),
        Ok(false) => Err(EditFault::Unfit(number)),
        Err(NoMemory) => Err(EditFault::Memory),
    }
}
