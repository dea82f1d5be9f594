//! The lines of edits. `docs/FORMATS.md` has their format.
//!
//! A line is at most one edit, and each edit has one line. The parser guesses without checking, prints its guess again, and compares.
ghost use Rattle.std.specs.Prelude.{◌≡◌, ◌++◌, ◌∷◌, [], IfOk, OnOk};
ghost use Rattle.reference.specs.Indexes.{held};
ghost use Rattle.textio.specs.Texts.{hex_text};
ghost use Rattle.edits.specs.Guesses.{head_of, tail_of};
ghost use Rattle.edits.specs.Lines.{IsEdit, Spells, entry_letter, numbers, shown, spelled};

use crate::edit::{Change, Edit};
use crate::guess::guess_edit;
use pathkey::{NoMemory, Path};
use reference::Meta;
use std::alloc::Global;
use textio::output::{WriteFailed, put};
use textio::text::{put_hex, put_number, put_path};

/// Parses the line of an edit, without its line feed; `None` if the line is not one. It fails only if an allocation fails.
pub fn read_edit(alloc: Global, line: &[u8]) -> Result<Option<Edit>, NoMemory>
    ensures { IfOk result (Spells line.now) }
{
    let Some(edit) = guess_edit(alloc, line)? else {
        return Ok(None);
    };
    let written = line_of(alloc, &edit, line.len())?;
    // What is not returned is dropped by calls, so that the proof costs less.
    if written.as_slice() == line {
        drop(written);
        Ok(Some(edit))
    } else {
        drop(written);
        drop(edit);
        Ok(None)
    }
}

// The line of an edit, without its line feed, in a buffer that is allocated for a line of `bytes` bytes.
fn line_of(alloc: Global, edit: &Edit, bytes: usize) -> Result<Vec<u8>, NoMemory>
    requires { IsEdit edit.now }
    ensures { IfOk result (λ line. line.items ≡ spelled edit.now) }
{
    // No line is so long that the sum saturates.
    let mut line = Vec::with_capacity(alloc, bytes.saturating_add(1))?;
    put_edit(edit, &mut line)?;
    line.pop();
    Ok(line)
}

/// Appends the line of an edit, with its line feed. It fails only if an allocation fails.
pub fn put_edit(edit: &Edit, out: &mut Vec<u8>) -> Result<(), NoMemory>
    requires { IsEdit edit.now }
    ensures { OnOk result (out.new.items ≡ out.old.items ++ (spelled edit.now ++ 10 ∷ [])) }
{
    match put_words(edit, out) {
        Ok(()) => Ok(()),
        // Writing into a buffer fails only if an allocation fails.
        Err(WriteFailed) => Err(NoMemory),
    }
}

// Appends the words of an edit, and a line feed.
fn put_words(edit: &Edit, out: &mut Vec<u8>) -> Result<(), WriteFailed>
    ensures { OnOk result (out.new.items ≡ out.old.items ++ (spelled edit.now ++ 10 ∷ [])) }
{
    put_head(&edit.change, out)?;
    put_shown(&edit.path, out)?;
    put(out, b" ")?;
    put_tail(&edit.change, out)?;
    put(out, b"\n")?;
    Ok(())
}

// Appends what is changed, and of an entry its kind.
fn put_head(change: &Change, out: &mut Vec<u8>) -> Result<(), WriteFailed>
    ensures { OnOk result (out.new.items ≡ out.old.items ++ head_of change.now) }
{
    match change {
        Change::Remove(meta) => put(out, &[b'-', b' ', letter_of(meta), b' ']),
        Change::Add(meta) => put(out, &[b'+', b' ', letter_of(meta), b' ']),
        Change::Alter(meta, _) => put(out, &[b'!', b' ', letter_of(meta), b' ']),
        Change::Block(_, _, _) => put(out, b"b "),
    }
}

// The letter of an entry's kind.
fn letter_of(meta: &Meta) -> u8
    ensures { result ≡ entry_letter meta.now }
{
    match meta {
        Meta::Dir { modified: _ } => b'D',
        Meta::File {
            len: _,
            modified: _,
        } => b'F',
    }
}

// Appends a path in percent form, the root as a slash.
fn put_shown(path: &Path, out: &mut Vec<u8>) -> Result<(), WriteFailed>
    ensures { OnOk result (out.new.items ≡ out.old.items ++ shown path.now) }
{
    if path.is_root() {
        return put(out, b"/");
    }
    put_path(out, path)
}

// Appends the words after the path.
fn put_tail(change: &Change, out: &mut Vec<u8>) -> Result<(), WriteFailed>
    ensures { OnOk result (out.new.items ≡ out.old.items ++ tail_of change.now) }
{
    match change {
        Change::Remove(meta) => put_numbers(meta, out),
        Change::Add(meta) => put_numbers(meta, out),
        Change::Alter(old, new) => {
            put_numbers(old, out)?;
            put(out, b" ")?;
            put_numbers(new, out)
        }
        Change::Block(number, old, new) => {
            put_number(out, *number)?;
            put(out, b" ")?;
            put_digest(old, out)?;
            put(out, b" ")?;
            put_hex(out, new.as_slice())
        }
    }
}

// Appends the numbers of an entry.
fn put_numbers(meta: &Meta, out: &mut Vec<u8>) -> Result<(), WriteFailed>
    ensures { OnOk result (out.new.items ≡ out.old.items ++ numbers meta.now) }
{
    match meta {
        Meta::Dir { modified } => put_number(out, *modified),
        Meta::File { len, modified } => {
            put_number(out, *len)?;
            put(out, b" ")?;
            put_number(out, *modified)
        }
    }
}

// Appends a digest in hexadecimal, or a dash if there is none.
fn put_digest(digest: &Option<[u8; 32]>, out: &mut Vec<u8>) -> Result<(), WriteFailed>
    ensures { OnOk result (out.new.items ≡ out.old.items ++ hex_text (held digest.now)) }
{
    match digest {
        Some(bytes) => put_hex(out, bytes.as_slice()),
        None => put(out, b"-"),
    }
}
