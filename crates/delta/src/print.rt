//! Prints the difference of two frozen trees as a delta. Both images are printed side by side, and neither has to fit into
//! memory.
ghost use Rattle.std.specs.Prelude.{◌≡◌, ◌<◌, ◌^◌, List, Err, IfOk, OnErr, OnOk};
ghost use Rattle.reference.specs.Image.{Second, image};
ghost use Rattle.reference.specs.Tree.{Tree};
ghost use Rattle.sha2.specs.Sha256.{sha256};
ghost use Rattle.volume.specs.Volumes.{MeanRooted};
ghost use Rattle.volume.specs.declared.fs_root.FsRoot.{FsRoot};
ghost use Rattle.delta.specs.Applies.{AppendsDelta, BeginsDelta, BeginsLines};
ghost use Rattle.delta.specs.Deltas.{Command, Go, Stay, run};
ghost use Rattle.delta.specs.Walks.{BeginsAll, IsAtStart, Patches, Puts, PutsAll, PutsSome};

use crate::command::{print_copy, print_delete, print_insert};
use crate::fault::PrintFault;
use crate::header::put_heading;
use crate::line_cursor::LineCursor;
use crate::order::{are_at_end, is_deleted, is_inserted, is_same};
use pathkey::NoMemory;
use std::alloc::Global;
use std::io::Write;
use textio::output::put;
use volume::Frozen;

/// Prints the delta that makes the image of the new tree from that of the old one, whose digest is given (`image_digest`). If
/// it fails, a prefix of a delta was written. If the error is `Memory`, this prefix is whole lines; within a line the error is
/// `Write`.
pub fn print_delta<W: Write>(
    alloc: Global,
    digest: &[u8; 32],
    old: Frozen,
    new: Frozen,
    writer: &mut W,
) -> Result<(), PrintFault>
    ensures ok { (t u : Tree) → MeanRooted old t → MeanRooted new u → digest.now ≡ sha256 (image Second t) → OnOk result (AppendsDelta (W.contents writer.old) (W.contents writer.new) t u) }
    ensures err { (t u : Tree) → MeanRooted old t → MeanRooted new u → digest.now ≡ sha256 (image Second t) → OnErr result (BeginsDelta (W.contents writer.old) (W.contents writer.new) t u) }
    ensures memory { (t u : Tree) → MeanRooted old t → MeanRooted new u → digest.now ≡ sha256 (image Second t) → result ≡ Err PrintFault.Memory → BeginsLines (W.contents writer.old) (W.contents writer.new) t u }
{
    let Ok(mut old) = LineCursor::new(alloc, old) else {
        drop(new);
        return Err(PrintFault::Memory);
    };
    let Ok(mut new) = LineCursor::new(alloc, new) else {
        drop(old);
        return Err(PrintFault::Memory);
    };
    let printed = put_delta(alloc, digest, &mut old, &mut new, writer);
    drop(old);
    drop(new);
    printed
}

// Writes a delta. Both cursors are at the first lines of their images.
fn put_delta<W: Write>(
    alloc: Global,
    digest: &[u8; 32],
    old: &mut LineCursor,
    new: &mut LineCursor,
    writer: &mut W,
) -> Result<(), PrintFault>
    ensures ok { (a b : FsRoot) (t u : Tree) → IsAtStart a old.old → IsAtStart b new.old → MeanRooted a t → MeanRooted b u → digest.now ≡ sha256 (image Second t) → OnOk result (AppendsDelta (W.contents writer.old) (W.contents writer.new) t u) }
    ensures err { (a b : FsRoot) (t u : Tree) → IsAtStart a old.old → IsAtStart b new.old → MeanRooted a t → MeanRooted b u → digest.now ≡ sha256 (image Second t) → OnErr result (BeginsDelta (W.contents writer.old) (W.contents writer.new) t u) }
    ensures memory { (a b : FsRoot) (t u : Tree) → IsAtStart a old.old → IsAtStart b new.old → MeanRooted a t → MeanRooted b u → digest.now ≡ sha256 (image Second t) → result ≡ Err PrintFault.Memory → BeginsLines (W.contents writer.old) (W.contents writer.new) t u }
{
    put_heading(writer, digest)?;
    put_commands(alloc, old, new, writer)?;
    put(writer, b"end\n")?;
    Ok(())
}

// Writes the commands for the lines from the positions of both cursors on.
fn put_commands<W: Write>(
    alloc: Global,
    old: &mut LineCursor,
    new: &mut LineCursor,
    writer: &mut W,
) -> Result<(), PrintFault>
    ensures ok { OnOk result ((cs : List Command) × PutsAll cs (W.contents writer.old) (W.contents writer.new) old.old new.old) }
    ensures err { OnErr result (BeginsAll (W.contents writer.old) (W.contents writer.new) old.old new.old) }
    ensures memory { result ≡ Err PrintFault.Memory → PutsSome (W.contents writer.old) (W.contents writer.new) old.old new.old }
{
    // No image has more lines than this.
    for _ in 0..u64::MAX {
        if are_at_end(old, new) {
            return Ok(());
        }
        put_round(alloc, old, new, writer)?;
    }
    Err(PrintFault::Memory)
}

// Writes how many lines are copied, how many are deleted after them, and which lines are then inserted.
fn put_round<W: Write>(
    alloc: Global,
    old: &mut LineCursor,
    new: &mut LineCursor,
    writer: &mut W,
) -> Result<(), PrintFault>
    ensures ok { OnOk result ((cs : List Command) × Puts cs (W.contents writer.old) (W.contents writer.new) old.old new.old old.new new.new) }
    ensures err { OnErr result (BeginsAll (W.contents writer.old) (W.contents writer.new) old.old new.old) }
    ensures memory { result ≡ Err PrintFault.Memory → PutsSome (W.contents writer.old) (W.contents writer.new) old.old new.old }
{
    let staying = pass_same(alloc, old, new)?;
    print_copy(writer, staying)?;
    let going = pass_going(alloc, old, new)?;
    print_delete(writer, going)?;
    put_coming(alloc, old, new, writer)
}

// Skips the lines that both images have next. Returns their number.
fn pass_same(alloc: Global, old: &mut LineCursor, new: &mut LineCursor) -> Result<u64, NoMemory>
    ensures patches { IfOk result (λ n. Patches (run Stay n) old.old new.old old.new new.new) }
    ensures fits { IfOk result (λ n. n < 2 ^ 64) }
{
    for count in 0..u64::MAX {
        if !is_same(old, new) {
            return Ok(count);
        }
        old.step(alloc)?;
        new.step(alloc)?;
    }
    Ok(u64::MAX)
}

// Skips the lines of the old image that are deleted. Returns their number.
fn pass_going(alloc: Global, old: &mut LineCursor, new: &LineCursor) -> Result<u64, NoMemory>
    ensures patches { IfOk result (λ n. Patches (run Go n) old.old new.now old.new new.now) }
    ensures fits { IfOk result (λ n. n < 2 ^ 64) }
{
    for count in 0..u64::MAX {
        if !is_deleted(alloc, old, new) {
            return Ok(count);
        }
        old.step(alloc)?;
    }
    Ok(u64::MAX)
}

// Writes the lines of the new image that are inserted.
fn put_coming<W: Write>(
    alloc: Global,
    old: &LineCursor,
    new: &mut LineCursor,
    writer: &mut W,
) -> Result<(), PrintFault>
    ensures ok { OnOk result ((cs : List Command) × Puts cs (W.contents writer.old) (W.contents writer.new) old.now new.old old.now new.new) }
    ensures err { OnErr result (BeginsAll (W.contents writer.old) (W.contents writer.new) old.now new.old) }
    ensures memory { result ≡ Err PrintFault.Memory → PutsSome (W.contents writer.old) (W.contents writer.new) old.now new.old }
{
    // No image has more lines than this.
    for _ in 0..u64::MAX {
        if !is_inserted(alloc, old, new) {
            return Ok(());
        }
        print_insert(writer, new.line.as_slice())?;
        new.step(alloc)?;
    }
    Err(PrintFault::Memory)
}
