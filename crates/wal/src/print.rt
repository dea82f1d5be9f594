//! The lines of a script, one for each kind of change.
//!
//! The words of a line are parsed, in the terms of `textio`, as the change that was printed. No line is longer than a
//! script allows.
ghost use Rattle.std.specs.Prelude.{◌≡◌, ◌≤◌, ◌∷◌, ◌++◌, ℕ, OnOk, decimal, length};
ghost use Rattle.wal.specs.declared.wal_entry.WalEntry.{WalEntry};
ghost use Rattle.wal.specs.declared.wal_entry.WalEntry.TheVariants.{OnPath, Rename, Truncate, Write, Punch, SetMtime, CopyRange, Keep, Edits};
ghost use Rattle.wal.specs.Added.{AddsLine};
ghost use Rattle.wal.specs.Lines.{At, Makes, call_word, keeping_word, path_word};
ghost use Rattle.pathkey.specs.Names.{IsPath};

use crate::wal_entry::SnapshotCall;
use pathkey::{Path, SnapName};
use reference::PathCall;
use textio::output::{WriteFailed, put};
use textio::text::{put_hex, put_number, put_number_line, put_path};

// Appends the line that sets the timestamp.
pub(crate) fn put_moment(text: &mut Vec<u8>, at: u64) -> Result<(), WriteFailed>
    ensures { OnOk result (AddsLine (At at) text.old.items text.new.items) }
{
    put_number_line(text, b"at ", at)
}

// Appends the line of a call that creates or removes an entry at a path.
pub(crate) fn put_on_path(
    text: &mut Vec<u8>,
    what: PathCall,
    path: &Path,
) -> Result<(), WriteFailed>
    ensures { OnOk result ((at : ℕ) → AddsLine (Makes (OnPath what path.now at)) text.old.items text.new.items) }
{
    put(text, call_word(what))?;
    put(text, b" ")?;
    put_path_word(text, path)?;
    put(text, b"\n")
}

// Appends the line of a rename.
pub(crate) fn put_rename(text: &mut Vec<u8>, old: &Path, new: &Path) -> Result<(), WriteFailed>
    ensures { OnOk result ((at : ℕ) → AddsLine (Makes (Rename old.now new.now at)) text.old.items text.new.items) }
{
    put(text, b"rename ")?;
    put_path_word(text, old)?;
    put(text, b" ")?;
    put_path_word(text, new)?;
    put(text, b"\n")
}

// Appends the line of a truncate.
pub(crate) fn put_truncate(text: &mut Vec<u8>, path: &Path, length: u64) -> Result<(), WriteFailed>
    ensures { OnOk result ((at : ℕ) → AddsLine (Makes (Truncate path.now length at)) text.old.items text.new.items) }
{
    put(text, b"truncate ")?;
    put_path_word(text, path)?;
    put(text, b" ")?;
    put_number(text, length)?;
    put(text, b"\n")
}

// Appends the line of a write.
pub(crate) fn put_write(
    text: &mut Vec<u8>,
    path: &Path,
    offset: u64,
    bytes: &[u8],
) -> Result<(), WriteFailed>
    requires { length bytes.now ≤ 28672 }
    ensures { OnOk result ((at : ℕ) → AddsLine (Makes (Write path.now offset bytes.now at)) text.old.items text.new.items) }
{
    put(text, b"write ")?;
    put_path_word(text, path)?;
    put(text, b" ")?;
    put_number(text, offset)?;
    put(text, b" ")?;
    put_hex(text, bytes)?;
    put(text, b"\n")
}

// Appends the note of a hole.
pub(crate) fn put_hole(
    text: &mut Vec<u8>,
    path: &Path,
    offset: u64,
    count: u64,
) -> Result<(), WriteFailed>
    ensures { OnOk result ((at : ℕ) → AddsLine (Makes (Punch path.now offset count at)) text.old.items text.new.items) }
{
    put(text, b"# punch ")?;
    put_path_word(text, path)?;
    put(text, b" ")?;
    put_number(text, offset)?;
    put(text, b" ")?;
    put_number(text, count)?;
    put(text, b"\n")
}

// Appends the note of an mtime that is set.
pub(crate) fn put_mtime(text: &mut Vec<u8>, path: &Path, at: u64) -> Result<(), WriteFailed>
    ensures { OnOk result (AddsLine (Makes (SetMtime path.now at)) text.old.items text.new.items) }
{
    put(text, b"# mtime ")?;
    put_path_word(text, path)?;
    put(text, b" ")?;
    put_number(text, at)?;
    put(text, b"\n")
}

// Appends the note of a copied range.
pub(crate) fn put_copy_range(
    text: &mut Vec<u8>,
    from: &Path,
    offset: u64,
    to: &Path,
    target: u64,
    count: u64,
) -> Result<(), WriteFailed>
    ensures { OnOk result ((at : ℕ) → AddsLine (Makes (CopyRange from.now offset to.now target count at)) text.old.items text.new.items) }
{
    put(text, b"# copy ")?;
    put_place(text, from, offset)?;
    put(text, b" ")?;
    put_place(text, to, target)?;
    put(text, b" ")?;
    put_number(text, count)?;
    put(text, b"\n")
}

// Appends the text of a path and an offset in its file.
fn put_place(text: &mut Vec<u8>, path: &Path, offset: u64) -> Result<(), WriteFailed>
    ensures valid { IsPath path.now }
    ensures word { OnOk result (text.new.items ≡ text.old.items ++ (path_word path.now ++ 32 ∷ decimal offset)) }
{
    put_path_word(text, path)?;
    put(text, b" ")?;
    put_number(text, offset)
}

// Appends the note of a text of edits.
pub(crate) fn put_edits(text: &mut Vec<u8>, edits: &[u8]) -> Result<(), WriteFailed>
    ensures { OnOk result (AddsLine (Makes (Edits edits.now)) text.old.items text.new.items) }
{
    put_number_line(text, b"# edits ", edits.len() as u64)
}

// Appends the line of a snapshot call.
pub(crate) fn put_keep(
    text: &mut Vec<u8>,
    what: SnapshotCall,
    name: &SnapName,
) -> Result<(), WriteFailed>
    ensures { OnOk result (AddsLine (Makes (Keep what name.now)) text.old.items text.new.items) }
{
    put(text, keeping_word(what))?;
    put(text, b" ")?;
    put(text, name.as_bytes())?;
    put(text, b"\n")
}

// Appends the text of a path in percent form.
fn put_path_word(text: &mut Vec<u8>, path: &Path) -> Result<(), WriteFailed>
    ensures valid { IsPath path.now }
    ensures word { OnOk result (text.new.items ≡ text.old.items ++ path_word path.now) }
{
    // The postcondition of `key` states that this is a valid path.
    let _key = path.key();
    if path.is_root() {
        return put(text, b"/");
    }
    put_path(text, path)
}

// The name of a path call in a script.
fn call_word(what: PathCall) -> &'static [u8]
    ensures { result.now ≡ call_word what }
{
    match what {
        PathCall::Mkdir => b"mkdir",
        PathCall::Create => b"create",
        PathCall::Unlink => b"unlink",
        PathCall::Rmdir => b"rmdir",
        PathCall::Rmtree => b"rmtree",
    }
}

fn keeping_word(what: SnapshotCall) -> &'static [u8]
    ensures { result.now ≡ keeping_word what }
{
    match what {
        SnapshotCall::Snapshot => b"snapshot",
        SnapshotCall::Remove => b"drop",
        SnapshotCall::Restore => b"restore",
    }
}
