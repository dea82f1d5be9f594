//! Prints the image of a frozen tree, in version 2, which has mtimes. Also prints the lines of either version.
//! `docs/FORMATS.md` has the format of images.
//!
//! Each tree has one image: a line for each entry in key order, the root first, and after that of a file a line for
//! each block with a byte other than zero.
ghost use Rattle.std.specs.Prelude.{◌≡◌, ◌++◌, ◌∷◌, [], ℕ, List, Err, decimal, flat_map, OnOk, OnErr};
ghost use Rattle.std.specs.Io.KnownBytes.{Appends};
ghost use Rattle.reference.specs.Image.{Second, block_line, image, moment_text, path_text, percent, trimmed};
ghost use Rattle.reference.specs.Tree.{Tree};
ghost use Rattle.images.specs.Image.{AppendsLines, directory_text, file_text, version_of};
ghost use Rattle.images.specs.Spots.{IsAhead};
ghost use Rattle.images.specs.declared.image.ImageFault.TheVariants as fault;
ghost use Rattle.textio.specs.Parts.{AppendsPart};
ghost use Rattle.volume.specs.Volumes.{MeanRooted};

use crate::ahead::EntryReadahead;
use crate::spot::{ENOUGH, PrintPosition};
use crate::version::{ImageVersion, directory_word, file_word};
use pathkey::{NoMemory, Path};
use std::alloc::Global;
use std::io::Write;
use textio::output::{WriteFailed, put};
use textio::text::{put_hex, put_number, put_number_line, put_path, trimmed_len};
use thiserror::Error;
use volume::{BlockWalk, Frozen};

/// Why an image was not printed completely.
#[derive(Debug, Drop, PartialEq, Eq, Error)]
pub enum ImageFault {
    /// An allocation failed.
    #[error("betr: no memory")]
    Memory,
    /// The writer failed.
    #[error("betr: write failed")]
    Write,
}

impl From<NoMemory> for ImageFault {
    ghost from_gives = { λ _ e. e ≡ fault.Memory };

    fn from(_refused: NoMemory) -> ImageFault {
        ImageFault::Memory
    }
}

impl From<WriteFailed> for ImageFault {
    ghost from_gives = { λ _ e. e ≡ fault.Write };

    fn from(_failed: WriteFailed) -> ImageFault {
        ImageFault::Write
    }
}

/// Prints the image of a frozen tree, in version 2. If it fails, a prefix of the image was written. If an allocation failed,
/// this prefix is whole lines: a line that was begun can only fail because the writer does.
///
/// The lines are printed into a buffer, which is written each time it has enough bytes.
pub fn print_image<W: Write>(
    alloc: Global,
    frozen: &Frozen,
    writer: &mut W,
) -> Result<(), ImageFault>
    ensures ok { (t : Tree) → MeanRooted frozen.now t → OnOk result (Appends (W.contents writer.old) (W.contents writer.new) (image Second t)) }
    ensures err { (t : Tree) → MeanRooted frozen.now t → OnErr result (AppendsPart (W.contents writer.old) (W.contents writer.new) (image Second t)) }
    ensures memory { (t : Tree) → MeanRooted frozen.now t → result ≡ Err ImageFault.Memory → AppendsLines (W.contents writer.old) (W.contents writer.new) (image Second t) }
{
    let mut text = Vec::new(alloc);
    let mut spot = PrintPosition::behind_root(alloc);
    let mut ahead = EntryReadahead::new(alloc);
    let reported = print_all(alloc, frozen, &mut spot, &mut ahead, &mut text, writer);
    // Dropped by calls, so that the proof costs less.
    drop(ahead);
    drop(spot);
    drop(text);
    reported
}

/// Writes the image of a tree, or a prefix of it. The position is after the root, nothing was read ahead, and `text` is the
/// buffer to print into.
fn print_all<W: Write>(
    alloc: Global,
    frozen: &Frozen,
    spot: &mut PrintPosition,
    ahead: &mut EntryReadahead,
    text: &mut Vec<u8>,
    writer: &mut W,
) -> Result<(), ImageFault>
    requires place { (spot.old.last ≡ []) × (spot.old.from ≡ 0) }
    requires ahead { (t : Tree) (last : List (List ℕ)) → IsAhead t last ahead.old }
    ensures ok { (t : Tree) → MeanRooted frozen.now t → OnOk result (Appends (W.contents writer.old) (W.contents writer.new) (image Second t)) }
    ensures err { (t : Tree) → MeanRooted frozen.now t → OnErr result (AppendsPart (W.contents writer.old) (W.contents writer.new) (image Second t)) }
    ensures memory { (t : Tree) → MeanRooted frozen.now t → result ≡ Err ImageFault.Memory → AppendsLines (W.contents writer.old) (W.contents writer.new) (image Second t) }
{
    put_number_line(writer, b"D / ", frozen.modified())?;
    let mut blocks = BlockWalk::new(alloc, frozen);
    // No tree has more lines than this.
    for _ in 0..u64::MAX {
        text.clear();
        spot.print(alloc, frozen, ahead, &mut blocks, text)?;
        put(writer, text.as_slice())?;
        if text.len() < ENOUGH {
            return Ok(());
        }
    }
    Err(ImageFault::Memory)
}

/// Writes the line of a directory, or a prefix of it.
pub(crate) fn put_directory<W: Write>(
    writer: &mut W,
    version: ImageVersion,
    path: &Path,
    modified: u64,
) -> Result<(), WriteFailed>
    ensures ok { OnOk result (Appends (W.contents writer.old) (W.contents writer.new) (directory_text (version_of version) path.now modified)) }
    ensures err { OnErr result (AppendsPart (W.contents writer.old) (W.contents writer.new) (directory_text (version_of version) path.now modified)) }
{
    put(writer, directory_word(version))?;
    put_path(writer, path)?;
    put_end(writer, version, modified)?;
    Ok(())
}

/// Writes the line of a file without its blocks, or a prefix of it.
pub(crate) fn put_file<W: Write>(
    writer: &mut W,
    version: ImageVersion,
    path: &Path,
    len: u64,
    modified: u64,
) -> Result<(), WriteFailed>
    ensures ok { OnOk result (Appends (W.contents writer.old) (W.contents writer.new) (file_text (version_of version) path.now len modified)) }
    ensures err { OnErr result (AppendsPart (W.contents writer.old) (W.contents writer.new) (file_text (version_of version) path.now len modified)) }
{
    put(writer, file_word(version))?;
    put_path(writer, path)?;
    put_len(writer, version, len, modified)?;
    Ok(())
}

/// Writes the length and the mtime at the end of a file's line, or a prefix of them.
fn put_len<W: Write>(
    writer: &mut W,
    version: ImageVersion,
    len: u64,
    modified: u64,
) -> Result<(), WriteFailed>
    ensures ok { OnOk result (Appends (W.contents writer.old) (W.contents writer.new) (32 ∷ (decimal len ++ (moment_text (version_of version) modified ++ 10 ∷ [])))) }
    ensures err { OnErr result (AppendsPart (W.contents writer.old) (W.contents writer.new) (32 ∷ (decimal len ++ (moment_text (version_of version) modified ++ 10 ∷ [])))) }
{
    put(writer, b" ")?;
    put_number(writer, len)?;
    put_end(writer, version, modified)?;
    Ok(())
}

/// Writes the mtime at the end of an entry's line, if the version has it, and the line feed, or a prefix of them.
fn put_end<W: Write>(
    writer: &mut W,
    version: ImageVersion,
    modified: u64,
) -> Result<(), WriteFailed>
    ensures ok { OnOk result (Appends (W.contents writer.old) (W.contents writer.new) (moment_text (version_of version) modified ++ 10 ∷ [])) }
    ensures err { OnErr result (AppendsPart (W.contents writer.old) (W.contents writer.new) (moment_text (version_of version) modified ++ 10 ∷ [])) }
{
    match version {
        ImageVersion::First => put(writer, b"\n"),
        ImageVersion::Second => put_number_line(writer, b" ", modified),
    }
}

/// Writes the line of a block, or a prefix of it. A block whose bytes are all zero has no line.
pub(crate) fn put_block<W: Write>(
    writer: &mut W,
    number: u32,
    block: &[u8],
) -> Result<(), WriteFailed>
    ensures ok { OnOk result (Appends (W.contents writer.old) (W.contents writer.new) (block_line number (trimmed block.now))) }
    ensures err { OnErr result (AppendsPart (W.contents writer.old) (W.contents writer.new) (block_line number (trimmed block.now))) }
{
    let kept = &block[..trimmed_len(block)];
    if kept.is_empty() {
        return Ok(());
    }
    put(writer, b"b ")?;
    put_number(writer, u64::from(number))?;
    put(writer, b" ")?;
    put_hex(writer, kept)?;
    put(writer, b"\n")?;
    Ok(())
}
