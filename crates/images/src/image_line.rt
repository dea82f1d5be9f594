//! Parses a line of an image. `docs/FORMATS.md` has the format of lines.
//!
//! A line is valid if and only if it is what the printer prints for the parsed line: so the parser guesses without
//! checking, prints its guess again, and compares.
ghost use Rattle.std.specs.Prelude.{◌≡◌, ◌≢◌, ◌↔◌, true, ◌++◌, ◌∷◌, ◌^◌, ◌<◌, ◌≤◌, [], Some, IfOk, IfSome, MatchOption, option_map};
ghost use Rattle.pathkey.specs.Names.{IsPath, Path as Names};
ghost use Rattle.reference.specs.Image.{Second, directory_letter, file_letter, moment_text, path_text, two_digits};
ghost use Rattle.reference.specs.ImageLines.{IsBlock, IsLine, IsReported, spelled};
ghost use Rattle.std.specs.Prelude.{List, ℕ, decimal, flat_map};
ghost use Rattle.images.specs.Image.{version_of};
ghost use Rattle.images.specs.ImageLines.{CutsMoment, Guesses, IsRoot, Spells, line_of};

use crate::image::{put_block, put_directory, put_file};
use crate::version::{ImageVersion, directory_letter, file_letter};
use block_index::block::BLOCK;
use bytes::Bytes;
use hex::FromHexError;
use itoa::Buffer;
use pathkey::{Errno, NoMemory, Path};
use reference::GREATEST_FILE;
use std::alloc::Global;
use textio::output::WriteFailed;
use textio::text::trimmed_len;
use textio::values::{read_number, read_path};
use textio::words::split_space;

/// A line of an image after the line of the root.
#[derive(Drop)]
pub enum ImageLine {
    /// A directory, with its mtime.
    Directory(Path, u64),
    /// A file, with its length in bytes and its mtime.
    File(Path, u64, u64),
    /// A block of the preceding file: its index, and its bytes up to the last that is not zero.
    Block(u32, Bytes),
}

/// The number of blocks of the longest file.
const MOST_BLOCKS: u64 = 1 << 28;

/// Parses a line of an image of this version, without its line feed. Returns `None` if the text is not such a line. Fails
/// only if an allocation fails.
pub fn read_image_line(
    alloc: Global,
    version: ImageVersion,
    text: &[u8],
) -> Result<Option<ImageLine>, NoMemory>
    ensures { IfOk result (Spells (version_of version) text.now) }
{
    let Some(line) = parse_unchecked_line(alloc, version, text)? else {
        return Ok(None);
    };
    let written = write_line(alloc, version, &line, text.len())?;
    // What is not returned is dropped by calls, so that the proof costs less.
    if written.as_slice() == text {
        drop(written);
        Ok(Some(line))
    } else {
        drop(written);
        drop(line);
        Ok(None)
    }
}

/// Prints a line in its one spelling in a version, without its line feed. The buffer is allocated for a line of `bytes`
/// bytes.
fn write_line(
    alloc: Global,
    version: ImageVersion,
    line: &ImageLine,
    bytes: usize,
) -> Result<Vec<u8>, NoMemory>
    requires { IsLine (version_of version) (line_of line.now) }
    ensures { IfOk result (λ text. text.items ≡ spelled (version_of version) (line_of line.now)) }
{
    // No line is so long that the sum saturates.
    let mut text = Vec::with_capacity(alloc, bytes.saturating_add(1))?;
    match put_line(&mut text, version, line) {
        Ok(()) => {
            text.pop();
            Ok(text)
        }
        // Writing into a buffer fails only if an allocation fails.
        Err(WriteFailed) => Err(NoMemory),
    }
}

/// Appends a line with its line feed to a text.
fn put_line(text: &mut Vec<u8>, version: ImageVersion, line: &ImageLine) -> Result<(), WriteFailed>
    requires { IsLine (version_of version) (line_of line.now) }
    ensures { IfOk result (λ _. text.new.items ≡ text.old.items ++ (spelled (version_of version) (line_of line.now) ++ 10 ∷ [])) }
{
    match line {
        ImageLine::Directory(path, at) => put_directory(text, version, path, *at),
        ImageLine::File(path, len, at) => put_file(text, version, path, *len, *at),
        ImageLine::Block(number, bytes) => put_block(text, *number, bytes.as_slice()),
    }
}

/// Parses a line without checking its spelling: if the text is a line of the version, then it is the one that is returned.
fn parse_unchecked_line(
    alloc: Global,
    version: ImageVersion,
    text: &[u8],
) -> Result<Option<ImageLine>, NoMemory>
    ensures { IfOk result (Guesses (version_of version) text.now) }
{
    let Some((kind, rest)) = split_space(text) else {
        return Ok(None);
    };
    if kind == directory_letter(version) {
        return parse_unchecked_directory(alloc, version, rest);
    }
    if kind == file_letter(version) {
        return parse_unchecked_file(alloc, version, rest);
    }
    if kind == b"b".as_slice() {
        return guess_block(alloc, version, rest);
    }
    Ok(None)
}

/// Parses the line of a directory from its path and its mtime.
fn parse_unchecked_directory(
    alloc: Global,
    version: ImageVersion,
    words: &[u8],
) -> Result<Option<ImageLine>, NoMemory>
    ensures { IfOk result (Guesses (version_of version) (directory_letter (version_of version) ∷ 32 ∷ words.now)) }
{
    let Some((word, at)) = cut_moment(version, words) else {
        return Ok(None);
    };
    match guess_path(alloc, word)? {
        Some(path) => Ok(Some(ImageLine::Directory(path, at))),
        None => Ok(None),
    }
}

/// Parses the line of a file from its path, its length and its mtime.
fn parse_unchecked_file(
    alloc: Global,
    version: ImageVersion,
    words: &[u8],
) -> Result<Option<ImageLine>, NoMemory>
    ensures { IfOk result (Guesses (version_of version) (file_letter (version_of version) ∷ 32 ∷ words.now)) }
{
    let Some((word, numbers)) = split_space(words) else {
        return Ok(None);
    };
    let Some((len, at)) = cut_len(version, numbers) else {
        return Ok(None);
    };
    match guess_path(alloc, word)? {
        Some(path) => Ok(Some(ImageLine::File(path, len, at))),
        None => Ok(None),
    }
}

/// Splits the length and the mtime off the line of a file.
fn cut_len(version: ImageVersion, numbers: &[u8]) -> Option<(u64, u64)>
    ensures valid { IfSome result (λ r. (r.0 ≤ 2 ^ 40) × IsReported (version_of version) r.1) }
    ensures complete { (n at : ℕ) → n ≤ 2 ^ 40 → IsReported (version_of version) at → numbers.now ≡ decimal n ++ moment_text (version_of version) at → result ≡ Some (n, at) }
{
    let Some((number, at)) = cut_moment(version, numbers) else {
        return None;
    };
    let Some(len) = read_number(number) else {
        return None;
    };
    if len > GREATEST_FILE {
        return None;
    }
    Some((len, at))
}

/// Splits the mtime off the end of a line. It is 0 if the version has none.
fn cut_moment(version: ImageVersion, words: &[u8]) -> Option<(&[u8], u64)>
    ensures { CutsMoment (version_of version) words.now (option_map (λ r. (r.0.now, r.1)) result) }
{
    match version {
        ImageVersion::First => Some((words, 0)),
        ImageVersion::Second => cut_last(words),
    }
}

/// Splits the last word off, which is an mtime.
fn cut_last(words: &[u8]) -> Option<(&[u8], u64)>
    ensures { CutsMoment Second words.now (option_map (λ r. (r.0.now, r.1)) result) }
{
    let Some((front, number)) = split_space(words) else {
        return None;
    };
    let Some(at) = read_number(number) else {
        return None;
    };
    Some((front, at))
}

/// Parses the line of a root: the version and the root's mtime. Returns `None` if this is not the line of a root.
pub(crate) fn read_root(line: &[u8]) -> Option<(ImageVersion, u64)>
    ensures { IsRoot line.now (option_map (λ r. (version_of r.0, r.1)) result) }
{
    if line == b"d /".as_slice() {
        return Some((ImageVersion::First, 0));
    }
    let Some(number) = line.strip_prefix(b"D / ".as_slice()) else {
        return None;
    };
    match spelled_number(number) {
        Some(at) => Some((ImageVersion::Second, at)),
        None => None,
    }
}

/// Parses a number. Returns `None` if the word is not the spelling of a number.
fn spelled_number(word: &[u8]) -> Option<u64>
    ensures { MatchOption result ((n : ℕ) → n < 2 ^ 64 → word.now ≢ decimal n) (λ n. (n < 2 ^ 64) × (word.now ≡ decimal n)) }
{
    let Some(number) = read_number(word) else {
        return None;
    };
    if writes(word, number) {
        Some(number)
    } else {
        None
    }
}

/// Whether the word is the spelling of the number.
fn writes(word: &[u8], number: u64) -> bool
    ensures { result ≡ true ↔ (word.now ≡ decimal number) }
{
    let mut digits = Buffer::new();
    digits.format(number).as_bytes() == word
}

/// Parses the line of a block from its index and its bytes.
fn guess_block(
    alloc: Global,
    version: ImageVersion,
    words: &[u8],
) -> Result<Option<ImageLine>, NoMemory>
    ensures { IfOk result (Guesses (version_of version) (98 ∷ 32 ∷ words.now)) }
{
    let Some((number, hex)) = split_space(words) else {
        return Ok(None);
    };
    let Some(number) = read_number(number) else {
        return Ok(None);
    };
    if number >= MOST_BLOCKS {
        return Ok(None);
    }
    match guess_bytes(alloc, hex)? {
        Some(bytes) => Ok(Some(ImageLine::Block(number as u32, bytes))),
        None => Ok(None),
    }
}

/// Parses a path in percent form. Returns `None` for the root, and for a word that is not such a path.
fn guess_path(alloc: Global, word: &[u8]) -> Result<Option<Path>, NoMemory>
    ensures valid { IfOk result (λ guess. IfSome guess (λ p. IsPath p × (p ≢ []))) }
    ensures complete { IfOk result (λ guess. (p : Names) → IsPath p → p ≢ [] → word.now ≡ path_text p → guess ≡ Some p) }
{
    match read_path(alloc, word) {
        Ok(path) => Ok(below_root(path)),
        Err(fault) => {
            if fault == Errno::ENOMEM {
                Err(NoMemory)
            } else {
                Ok(None)
            }
        }
    }
}

/// The path, if it is not the root.
fn below_root(path: Path) -> Option<Path>
    ensures valid { IfSome result (λ p. IsPath p × (p ≢ [])) }
    ensures same { path ≢ [] → result ≡ Some path }
{
    if path.key().as_bytes().is_empty() {
        None
    } else {
        Some(path)
    }
}

/// Decodes the hexadecimal bytes of a block: 1 to 4,096 of them, the last of which is not zero.
fn guess_bytes(alloc: Global, word: &[u8]) -> Result<Option<Bytes>, NoMemory>
    ensures valid { IfOk result (λ guess. IfSome guess IsBlock) }
    ensures complete { IfOk result (λ guess. (b : List ℕ) → IsBlock b → word.now ≡ flat_map (two_digits 87) b → guess ≡ Some b) }
{
    match hex::decode(alloc, word) {
        Ok(bytes) => {
            if !is_block(bytes.as_slice()) {
                return Ok(None);
            }
            Ok(Some(Bytes::from_vec(bytes)?))
        }
        Err(error) => {
            if error == FromHexError::OutOfMemory {
                Err(NoMemory)
            } else {
                Ok(None)
            }
        }
    }
}

/// Whether the line of a block may have these bytes.
fn is_block(bytes: &[u8]) -> bool
    ensures { result ≡ true ↔ IsBlock bytes.now }
{
    !bytes.is_empty() && bytes.len() as u64 <= BLOCK && trimmed_len(bytes) == bytes.len()
}
