//! Parses lines of edits without checking their spelling: if a line is that of an edit, then that edit is returned.
ghost use Rattle.std.specs.Prelude.{◌≡◌, ◌≢◌, ◌∷◌, [], List, ℕ, Option, Some, IfOk, IfSome, codes, option_map};
ghost use Rattle.pathkey.specs.Names.{IsPath, Path as Names};
ghost use Rattle.reference.specs.Indexes.{held};
ghost use Rattle.textio.specs.Texts.{hex_text};
ghost use Rattle.edits.specs.Guesses.{CutsHead, CutsMeta, CutsNumber, Guesses, GuessesChange, GuessesMeta};
ghost use Rattle.edits.specs.Lines.{IsDigest, shown};

use crate::edit::{Change, Edit};
use pathkey::{Errno, NoMemory, Path};
use reference::Meta;
use std::alloc::Global;
use textio::values::{read_bytes, read_number, read_path};
use textio::words::split_space;

/// Parses a line without checking its spelling.
pub(crate) fn guess_edit(alloc: Global, line: &[u8]) -> Result<Option<Edit>, NoMemory>
    ensures { IfOk result (Guesses line.now) }
{
    let Some((head, words)) = cut_head(line) else {
        return Ok(None);
    };
    let Some((path, tail)) = split_space(words) else {
        return Ok(None);
    };
    let Some(change) = guess_change(alloc, head, tail)? else {
        return Ok(None);
    };
    match guess_path(alloc, path)? {
        Some(path) => Ok(Some(Edit { path, change })),
        None => Ok(None),
    }
}

// Splits off what stands before the path: two bytes for a block, and four for an entry.
fn cut_head(line: &[u8]) -> Option<(&[u8], &[u8])>
    ensures { CutsHead line.now (option_map (λ cut. (cut.0.now, cut.1.now)) result) }
{
    let size = if line.starts_with(b"b") { 2 } else { 4 };
    if line.len() < size {
        return None;
    }
    Some(line.split_at(size))
}

// Parses a path; `None` for a word that is not one.
fn guess_path(alloc: Global, word: &[u8]) -> Result<Option<Path>, NoMemory>
    ensures valid { IfOk result (λ guess. IfSome guess IsPath) }
    ensures complete { IfOk result (λ guess. (p : Names) → IsPath p → word.now ≡ shown p → guess ≡ Some p) }
{
    match read_path(alloc, word) {
        Ok(path) => Ok(Some(path)),
        Err(fault) => {
            if fault == Errno::ENOMEM {
                Err(NoMemory)
            } else {
                Ok(None)
            }
        }
    }
}

// Parses what is changed, from what stands before and after the path.
fn guess_change(alloc: Global, head: &[u8], tail: &[u8]) -> Result<Option<Change>, NoMemory>
    ensures { IfOk result (GuessesChange head.now tail.now) }
{
    if head == b"b ".as_slice() {
        return guess_block(alloc, tail);
    }
    Ok(guess_entry(head, tail))
}

// Parses the change of an entry.
fn guess_entry(head: &[u8], tail: &[u8]) -> Option<Change>
    requires { head.now ≢ codes "b " }
    ensures { GuessesChange head.now tail.now result }
{
    match head {
        [sign, _, kind, _] => guess_signed(*sign, *kind, tail),
        _ => None,
    }
}

// Parses the change of an entry, from its sign, the letter of the kind, and the numbers.
fn guess_signed(sign: u8, kind: u8, tail: &[u8]) -> Option<Change>
    ensures { GuessesChange (sign ∷ 32 ∷ kind ∷ 32 ∷ []) tail.now result }
{
    match sign {
        b'-' => match guess_meta(kind, tail) {
            Some(meta) => Some(Change::Remove(meta)),
            None => None,
        },
        b'+' => match guess_meta(kind, tail) {
            Some(meta) => Some(Change::Add(meta)),
            None => None,
        },
        b'!' => guess_alter(kind, tail),
        _ => None,
    }
}

// Parses the change of an entry's metadata.
fn guess_alter(kind: u8, tail: &[u8]) -> Option<Change>
    ensures { GuessesChange (33 ∷ 32 ∷ kind ∷ 32 ∷ []) tail.now result }
{
    let Some((old, rest)) = cut_meta(kind, tail) else {
        return None;
    };
    let Some(new) = guess_meta(kind, rest) else {
        return None;
    };
    Some(Change::Alter(old, new))
}

// Parses the numbers of an entry: the mtime of a directory, the length and the mtime of a file.
fn guess_meta(kind: u8, words: &[u8]) -> Option<Meta>
    ensures { GuessesMeta kind words.now result }
{
    match kind {
        b'D' => {
            let Some(modified) = read_number(words) else {
                return None;
            };
            Some(Meta::Dir { modified })
        }
        b'F' => guess_file(words),
        _ => None,
    }
}

// Parses the numbers of a file.
fn guess_file(words: &[u8]) -> Option<Meta>
    ensures { GuessesMeta 70 words.now result }
{
    let Some((len, rest)) = cut_number(words) else {
        return None;
    };
    let Some(modified) = read_number(rest) else {
        return None;
    };
    Some(Meta::File { len, modified })
}

// Splits off the numbers of an entry.
fn cut_meta(kind: u8, words: &[u8]) -> Option<(Meta, &[u8])>
    ensures { CutsMeta kind words.now (option_map (λ cut. (cut.0, cut.1.now)) result) }
{
    match kind {
        b'D' => {
            let Some((modified, rest)) = cut_number(words) else {
                return None;
            };
            Some((Meta::Dir { modified }, rest))
        }
        b'F' => cut_file(words),
        _ => None,
    }
}

// Splits off the numbers of a file.
fn cut_file(words: &[u8]) -> Option<(Meta, &[u8])>
    ensures { CutsMeta 70 words.now (option_map (λ cut. (cut.0, cut.1.now)) result) }
{
    let Some((len, behind)) = cut_number(words) else {
        return None;
    };
    let Some((modified, rest)) = cut_number(behind) else {
        return None;
    };
    Some((Meta::File { len, modified }, rest))
}

// Splits off a number.
fn cut_number(words: &[u8]) -> Option<(u64, &[u8])>
    ensures { CutsNumber words.now (option_map (λ cut. (cut.0, cut.1.now)) result) }
{
    let Some((word, rest)) = split_space(words) else {
        return None;
    };
    let Some(number) = read_number(word) else {
        return None;
    };
    Some((number, rest))
}

// Parses the change of a block, from its number, the digest of its old bytes and its new bytes.
fn guess_block(alloc: Global, tail: &[u8]) -> Result<Option<Change>, NoMemory>
    ensures { IfOk result (GuessesChange (codes "b ") tail.now) }
{
    let Some((number, words)) = cut_number(tail) else {
        return Ok(None);
    };
    let Some((old, new)) = split_space(words) else {
        return Ok(None);
    };
    let Some(digest) = guess_digest(old) else {
        return Ok(None);
    };
    match read_bytes(alloc, new)? {
        Some(bytes) => Ok(Some(Change::Block(number, digest, bytes))),
        None => Ok(None),
    }
}

// Parses a digest of 32 bytes, or the dash that stands for none.
fn guess_digest(word: &[u8]) -> Option<Option<[u8; 32]>>
    ensures valid { IfSome result (λ digest. IfSome digest IsDigest) }
    ensures complete { (d : Option (List ℕ)) → IfSome d IsDigest → word.now ≡ hex_text (held d) → result ≡ Some d }
{
    if word == b"-".as_slice() {
        return Some(None);
    }
    let mut digest = [0u8; 32];
    let Ok(()) = hex::decode_to_slice(word, &mut digest) else {
        return None;
    };
    Some(Some(digest))
}
