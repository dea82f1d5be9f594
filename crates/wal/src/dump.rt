//! Prints the body of a record as lines of a script.
//!
//! The script makes the changes of the body in their order and with their timestamps, and makes no other change.
ghost use Rattle.std.specs.Prelude.{◌≡◌, MatchResult, OnOk, IfErr};
ghost use Rattle.wal.specs.Encode.{encoded};
ghost use Rattle.wal.specs.Added.{AddsAll};
ghost use Rattle.wal.specs.Dump.{IsScriptOf, EncodesLines, RefusesLines, RefusesTelling};

use crate::decode::decode_entries;
use crate::print_entry::{exceeds_range, put_change};
use crate::wal_entry::WalEntry;
use pathkey::Errno;
use std::alloc::Global;

/// Prints the changes of a record's body as the lines of a script that makes the same changes, in the same order, with the
/// same timestamps, and does nothing else.
///
/// A write becomes as many lines as it needs. A hole, a copied range and a text of edits have no line, since their effect depends
/// on the tree. Neither has an mtime that is set, since no call of a script sets one. All four become a note, which is a comment
/// of the script. Fails with EINVAL if the bytes are not a body, with EFBIG if a write reaches past 2^64, and with
/// ENOMEM if an allocation fails.
pub fn wal_dump(alloc: Global, body: &[u8]) -> Result<Vec<u8>, Errno>
    ensures { MatchResult result (λ text. IsScriptOf body.now text.items) (λ e. RefusesLines body.now e) }
{
    let changes = decode_entries(alloc, body)?;
    let mut text = Vec::new(alloc);
    match put_changes(&mut text, changes.as_slice()) {
        Ok(()) => Ok(text),
        Err(fault) => Err(fault),
    }
}

/// Copies the lines of `wal_dump` into a buffer, if it is large enough for all of them. Returns their length in bytes in
/// either case. Fails as `wal_dump` does.
pub fn wal_dump_into(alloc: Global, body: &[u8], out: &mut [u8]) -> Result<usize, Errno>
    ensures { EncodesLines body.now result out.old out.new }
{
    let text = wal_dump(alloc, body)?;
    encode(text.as_slice(), out);
    Ok(text.len())
}

// Copies a text to the start of a buffer, if the buffer is large enough.
fn encode(text: &[u8], out: &mut [u8])
    ensures { out.new ≡ encoded text.now out.old }
{
    if text.len() <= out.len() {
        out[..text.len()].copy_from_slice(text);
    }
}

// Appends the lines of the changes, in order.
fn put_changes(text: &mut Vec<u8>, changes: &[WalEntry]) -> Result<(), Errno>
    ensures added { OnOk result (AddsAll changes.now text.old.items text.new.items) }
    ensures refused { IfErr result (λ e. RefusesTelling changes.now e) }
{
    for change in changes {
        if exceeds_range(change) {
            return Err(Errno::EFBIG);
        }
        let Ok(()) = put_change(text, change) else {
            return Err(Errno::ENOMEM);
        };
    }
    Ok(())
}
