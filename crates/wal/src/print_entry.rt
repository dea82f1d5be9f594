//! Prints an entry as the lines that it needs: its timestamp, and one line, or several if it is a long write.
ghost use Rattle.std.specs.Prelude.{◌≡◌, ◌+◌, ◌^◌, ◌<◌, ℕ, OnOk, false, length};
ghost use Rattle.wal.specs.Added.{Adds, AddsParts};
ghost use Rattle.wal.specs.Dump.{exceeds_range};

use crate::print::{
    put_copy_range, put_edits, put_hole, put_keep, put_moment, put_mtime, put_on_path, put_rename,
    put_truncate, put_write,
};
use crate::wal_entry::WalEntry;
use pathkey::Path;
use textio::output::WriteFailed;

/// The maximal number of bytes that one line writes: those of seven blocks.
const MOST: usize = 28_672;

// Whether a write reaches past the greatest offset, 2^64 - 1.
pub(crate) fn exceeds_range(change: &WalEntry) -> bool
    ensures { result ≡ exceeds_range change.now }
{
    match change {
        WalEntry::Write(_, offset, bytes, _) => offset.checked_add(bytes.len() as u64).is_none(),
        _ => false,
    }
}

// Appends the lines of a change.
pub(crate) fn put_change(text: &mut Vec<u8>, change: &WalEntry) -> Result<(), WriteFailed>
    requires { exceeds_range change.now ≡ false }
    ensures { OnOk result (Adds change.now text.old.items text.new.items) }
{
    match change {
        WalEntry::OnPath(what, path, at) => {
            put_moment(text, *at)?;
            put_on_path(text, *what, path)
        }
        WalEntry::Rename(old, new, at) => {
            put_moment(text, *at)?;
            put_rename(text, old, new)
        }
        WalEntry::Truncate(path, length, at) => {
            put_moment(text, *at)?;
            put_truncate(text, path, *length)
        }
        WalEntry::Write(path, offset, bytes, at) => {
            put_moment(text, *at)?;
            put_parts(text, path, *offset, bytes.as_slice())
        }
        WalEntry::Punch(path, offset, count, _) => put_hole(text, path, *offset, *count),
        WalEntry::SetMtime(path, at) => put_mtime(text, path, *at),
        WalEntry::CopyRange(from, offset, to, target, count, _) => {
            put_copy_range(text, from, *offset, to, *target, *count)
        }
        WalEntry::Keep(what, name) => put_keep(text, *what, name),
        WalEntry::Edits(edits) => put_edits(text, edits.as_slice()),
    }
}

// Appends the lines of a write, each with as many bytes as a line may have.
fn put_parts(text: &mut Vec<u8>, path: &Path, offset: u64, bytes: &[u8]) -> Result<(), WriteFailed>
    requires { offset + length bytes.now < 2 ^ 64 }
    ensures { OnOk result ((at : ℕ) → AddsParts path.now offset bytes.now at text.old.items text.new.items) }
{
    let mut from = offset;
    let mut rest = bytes;
    // No slice is longer than this.
    for _ in 0..u64::MAX {
        let (part, behind) = rest.split_at(rest.len().min(MOST));
        put_write(text, path, from, part)?;
        if behind.is_empty() {
            return Ok(());
        }
        from += part.len() as u64;
        rest = behind;
    }
    Err(WriteFailed)
}
