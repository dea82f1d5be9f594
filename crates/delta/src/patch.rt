//! Executes the commands of a delta on the lines of an image. Each line of the old image is copied or deleted exactly
//! once, in order.
ghost use Rattle.std.specs.Prelude.{◌≡◌, ◌≢◌, ◌⊎◌, ◌↔◌, ◌<◌, ◌++◌, ◌∷◌, [], ℕ, List, Err, IfErr, IfOk, OnOk, length};
ghost use Rattle.images.specs.Taken.{IsFresh, Took};
ghost use Rattle.node.specs.declared.shape.Shape.{Shape};
ghost use Rattle.reference.specs.Image.{Text};
ghost use Rattle.reference.specs.Tree.{Tree};
ghost use Rattle.reference.specs.Worlds.{World};
ghost use Rattle.volume.specs.Volumes.{MeanRooted, Means};
ghost use Rattle.volume.specs.declared.fs_root.FsRoot.{FsRoot};
ghost use Rattle.delta.specs.Applies.{Applied, DoesAll, DoesCommand, IsOfOther, IsOfTree, LoadsPatched, PatchesNone, SpoilsImage};
ghost use Rattle.delta.specs.Deltas.{Command, Line, Stay};
ghost use Rattle.delta.specs.Patching.{IsSpoilt, MakesNoImage};
ghost use Rattle.delta.specs.Texts.{ReadsDelta, Tells, TellsAll, command_of};
ghost use Rattle.delta.specs.Walks.{IsAtStart, SameTree, Walks, lines_from};

use crate::command::DeltaCommand;
use crate::digest::image_digest;
use crate::fault::DeltaFault;
use crate::line_cursor::LineCursor;
use crate::reading::next_command;
use images::{ImageLoader, LoadFault};
use pathkey::NoMemory;
use std::alloc::Global;
use volume::Volume;

/// Makes a new volume by applying a delta with this digest and these commands to a volume.
pub(crate) fn make_of(
    alloc: Global,
    volume: &Volume,
    digest: &[u8; 32],
    commands: &[u8],
) -> Result<Volume, DeltaFault>
    ensures ok { (w : World) (text : Text) (cs : List Command) → Means volume.now w → ReadsDelta text digest.now commands.now cs → IfOk result (Applied text w.live volume.now.live.indexes.meta.tree.shape) }
    ensures bad { (n : ℕ) → result ≢ Err (DeltaFault.Bad n) }
    ensures other { (w : World) (text : Text) (cs : List Command) → Means volume.now w → ReadsDelta text digest.now commands.now cs → result ≡ Err DeltaFault.OtherTree → IsOfOther text w.live }
    ensures no_image { (w : World) (text : Text) (cs : List Command) → Means volume.now w → ReadsDelta text digest.now commands.now cs → result ≡ Err DeltaFault.NoImage → SpoilsImage text w.live }
{
    match is_of(alloc, volume, digest) {
        Ok(true) => patch_volume(alloc, volume, commands),
        Ok(false) => Err(DeltaFault::OtherTree),
        Err(NoMemory) => Err(DeltaFault::Memory),
    }
}

// Whether the image of the volume's tree has this digest.
fn is_of(alloc: Global, volume: &Volume, digest: &[u8; 32]) -> Result<bool, NoMemory>
    ensures { IfOk result (λ same. (w : World) → Means volume.now w → IsOfTree same digest.now w.live) }
{
    let frozen = volume.freeze()?;
    let found = image_digest(alloc, frozen)?;
    Ok(found.as_slice() == digest.as_slice())
}

// Makes a new volume by executing commands on the image of a volume.
fn patch_volume(alloc: Global, volume: &Volume, commands: &[u8]) -> Result<Volume, DeltaFault>
    ensures ok { (w : World) → Means volume.now w → IfOk result (LoadsPatched commands.now w.live volume.now.live.indexes.meta.tree.shape) }
    ensures no_image { (w : World) → Means volume.now w → result ≡ Err DeltaFault.NoImage → PatchesNone commands.now w.live }
    ensures kind { IfErr result (λ e. (e ≡ DeltaFault.Memory) ⊎ (e ≡ DeltaFault.NoImage)) }
{
    let Ok(frozen) = volume.freeze() else {
        return Err(DeltaFault::Memory);
    };
    let Ok(walk) = LineCursor::new(alloc, frozen) else {
        return Err(DeltaFault::Memory);
    };
    match ImageLoader::new(alloc, volume.indexes().meta.tree.shape()) {
        Ok(loader) => patch_into(alloc, commands, walk, loader),
        Err(_refused) => {
            drop(walk);
            Err(DeltaFault::Memory)
        }
    }
}

// Executes the commands on the lines of a cursor, and loads the result into a new loader.
fn patch_into(
    alloc: Global,
    commands: &[u8],
    mut walk: LineCursor,
    mut loader: ImageLoader,
) -> Result<Volume, DeltaFault>
    ensures ok { (a : FsRoot) (t : Tree) (s : Shape) → IsAtStart a walk → MeanRooted a t → IsFresh s loader → IfOk result (LoadsPatched commands.now t s) }
    ensures no_image { (a : FsRoot) (t : Tree) (s : Shape) → IsAtStart a walk → MeanRooted a t → IsFresh s loader → result ≡ Err DeltaFault.NoImage → PatchesNone commands.now t }
    ensures kind { IfErr result (λ e. (e ≡ DeltaFault.Memory) ⊎ (e ≡ DeltaFault.NoImage)) }
{
    let done = do_commands(alloc, commands, &mut walk, &mut loader);
    drop(walk);
    if let Err(fault) = done {
        drop(loader);
        return Err(fault);
    }
    match loader.end() {
        Ok(volume) => Ok(volume),
        Err(fault) => Err(fault_of(fault)),
    }
}

// The error for an image that was not loaded: it is not an image, or an allocation failed.
fn fault_of(fault: LoadFault) -> DeltaFault
    ensures bad { (result ≡ DeltaFault.NoImage) ↔ ((n : ℕ) × (fault ≡ LoadFault.Bad n)) }
    ensures kind { (result ≡ DeltaFault.Memory) ⊎ (result ≡ DeltaFault.NoImage) }
{
    match fault {
        LoadFault::Bad(_) => DeltaFault::NoImage,
        _ => DeltaFault::Memory,
    }
}

// Executes all commands of a delta.
fn do_commands(
    alloc: Global,
    commands: &[u8],
    walk: &mut LineCursor,
    loader: &mut ImageLoader,
) -> Result<(), DeltaFault>
    ensures ok { (s : Shape) (t : Tree) (cs : List Command) → MeanRooted walk.old.printing.tree t → TellsAll commands.now cs → Took s [] loader.old → OnOk result (DoesAll cs (lines_from t walk.old) s loader.new) }
    ensures no_image { (s : Shape) (t : Tree) (cs : List Command) → MeanRooted walk.old.printing.tree t → TellsAll commands.now cs → Took s [] loader.old → result ≡ Err DeltaFault.NoImage → MakesNoImage cs (lines_from t walk.old) [] }
    ensures kind { IfErr result (λ e. (e ≡ DeltaFault.Memory) ⊎ (e ≡ DeltaFault.NoImage)) }
{
    let mut rest = commands;
    'commands: while let Some((line, parsed, behind)) = next_command(rest) {
        if let Err(fault) = do_command(alloc, parsed, line, walk, loader) {
            return Err(fault);
        }
        rest = behind;
    }
    if !walk.is_at_end() {
        return Err(DeltaFault::NoImage);
    }
    Ok(())
}

// Executes the command of one line.
fn do_command(
    alloc: Global,
    parsed: DeltaCommand,
    line: &[u8],
    walk: &mut LineCursor,
    loader: &mut ImageLoader,
) -> Result<(), DeltaFault>
    requires { Tells line.now (command_of parsed line.now) }
    ensures ok { (s : Shape) (t : Tree) (text : Text) → MeanRooted walk.old.printing.tree t → Took s text loader.old → OnOk result (DoesCommand (command_of parsed line.now) (lines_from t walk.old) text (lines_from t walk.new) s loader.new) }
    ensures no_image { (s : Shape) (t : Tree) (text : Text) (ds : List Command) → MeanRooted walk.old.printing.tree t → Took s text loader.old → result ≡ Err DeltaFault.NoImage → MakesNoImage (command_of parsed line.now ∷ ds) (lines_from t walk.old) text }
    ensures kind { IfErr result (λ e. (e ≡ DeltaFault.Memory) ⊎ (e ≡ DeltaFault.NoImage)) }
    ensures same { OnOk result (SameTree walk.old walk.new) }
{
    match parsed {
        DeltaCommand::Stay(count) => keep_lines(alloc, count, walk, loader),
        DeltaCommand::Go(count) => pass_lines(alloc, count, walk),
        DeltaCommand::Come => add_line(alloc, loader, &line[2..]),
    }
}

// Copies `count` lines of the cursor.
fn keep_lines(
    alloc: Global,
    count: u64,
    walk: &mut LineCursor,
    loader: &mut ImageLoader,
) -> Result<(), DeltaFault>
    ensures ok { (s : Shape) (t : Tree) (text : Text) → MeanRooted walk.old.printing.tree t → Took s text loader.old → OnOk result (DoesCommand (Stay count) (lines_from t walk.old) text (lines_from t walk.new) s loader.new) }
    ensures no_image { (s : Shape) (t : Tree) (text : Text) (ds : List Command) → MeanRooted walk.old.printing.tree t → Took s text loader.old → result ≡ Err DeltaFault.NoImage → MakesNoImage (Stay count ∷ ds) (lines_from t walk.old) text }
    ensures kind { IfErr result (λ e. (e ≡ DeltaFault.Memory) ⊎ (e ≡ DeltaFault.NoImage)) }
    ensures same { OnOk result (SameTree walk.old walk.new) }
{
    for _ in 0..count {
        if walk.is_at_end() {
            return Err(DeltaFault::NoImage);
        }
        if let Err(fault) = add_line(alloc, loader, walk.line.as_slice()) {
            return Err(fault);
        }
        if let Err(NoMemory) = walk.step(alloc) {
            return Err(DeltaFault::Memory);
        }
    }
    Ok(())
}

// Skips `count` lines of the cursor.
fn pass_lines(alloc: Global, count: u64, walk: &mut LineCursor) -> Result<(), DeltaFault>
    ensures ok { OnOk result ((gone : List Line) × (length gone ≡ count) × Walks gone walk.old walk.new) }
    ensures no_image { (t : Tree) → MeanRooted walk.old.printing.tree t → result ≡ Err DeltaFault.NoImage → length (lines_from t walk.old) < count }
    ensures kind { IfErr result (λ e. (e ≡ DeltaFault.Memory) ⊎ (e ≡ DeltaFault.NoImage)) }
{
    for _ in 0..count {
        if walk.is_at_end() {
            return Err(DeltaFault::NoImage);
        }
        if let Err(NoMemory) = walk.step(alloc) {
            return Err(DeltaFault::Memory);
        }
    }
    Ok(())
}

// Feeds a line to the loader.
fn add_line(alloc: Global, loader: &mut ImageLoader, line: &[u8]) -> Result<(), DeltaFault>
    ensures took { (s : Shape) (text : Text) → Took s text loader.old → OnOk result (Took s (text ++ (line.now ++ 10 ∷ [])) loader.new) }
    ensures spoilt { (s : Shape) (text : Text) → Took s text loader.old → result ≡ Err DeltaFault.NoImage → IsSpoilt (text ++ (line.now ++ 10 ∷ [])) }
    ensures kind { IfErr result (λ e. (e ≡ DeltaFault.Memory) ⊎ (e ≡ DeltaFault.NoImage)) }
{
    if let Err(fault) = add_piece(alloc, loader, line) {
        return Err(fault);
    }
    add_piece(alloc, loader, b"\n")
}

// Feeds a piece of text to the loader.
fn add_piece(alloc: Global, loader: &mut ImageLoader, piece: &[u8]) -> Result<(), DeltaFault>
    ensures took { (s : Shape) (text : Text) → Took s text loader.old → OnOk result (Took s (text ++ piece.now) loader.new) }
    ensures spoilt { (s : Shape) (text : Text) → Took s text loader.old → result ≡ Err DeltaFault.NoImage → IsSpoilt (text ++ piece.now) }
    ensures kind { IfErr result (λ e. (e ≡ DeltaFault.Memory) ⊎ (e ≡ DeltaFault.NoImage)) }
{
    match loader.feed(alloc, piece) {
        Ok(()) => Ok(()),
        Err(fault) => Err(fault_of(fault)),
    }
}
