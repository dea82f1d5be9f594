//! The records of a log. `docs/FORMATS.md` has their format: magic bytes, number, length of the body, body, digest.
//!
//! A record is valid if its magic bytes are those of the log's version, it has the next number, it is whole, and its
//! SHA-256 digest is that of the log's salt and all bytes before the digest. The log ends before the first record that
//! is not.
ghost use Rattle.std.specs.Prelude.{◌≡◌, ◌≢◌, ◌++◌, ℕ, List, IfOk, MatchOption, OnOk, length};
ghost use Rattle.wal.specs.Entries.{IsWord};
ghost use Rattle.wal.specs.Records.{LacksRecord, digest, front, magic, record_of};
ghost use Rattle.sha2.specs.Sha256.{sha256};

use crate::entry::cut_at;
use crate::u64_le::{push_u64, split_u64};
use pathkey::NoMemory;
use sha2::{Digest, Sha256};
use std::alloc::Global;

/// The bytes with which each record of a log without a salt begins.
const MAGIC_1: &[u8] = b"dvlog 1\n";

/// The bytes with which each record of a log with a salt begins.
const MAGIC_2: &[u8] = b"dvlog 2\n";

/// The length in bytes of the header before the body of a record.
pub const HEADER_LEN: usize = 24;

/// Encodes what surrounds the body of the record with this number in a log with this salt: the `HEADER_LEN` bytes before it,
/// and the digest after it.
pub fn record_frame(
    alloc: Global,
    salt: &[u8],
    number: u64,
    body: &[u8],
) -> Result<Vec<u8>, NoMemory>
    ensures { IfOk result (λ ends. ends.items ≡ front salt.now number (length body.now) ++ digest salt.now number body.now) }
{
    let mut ends = Vec::with_capacity(alloc, 64)?;
    push_header(&mut ends, salt, number, body.len() as u64)?;
    let sum = digest_of(salt, ends.as_slice(), body);
    ends.extend_from_slice(&sum)?;
    Ok(ends)
}

// Appends the header of a record whose body has `len` bytes.
#[tactic(auto, unfolding(crate::specs::Records::front))]
fn push_header(out: &mut Vec<u8>, salt: &[u8], number: u64, len: u64) -> Result<(), NoMemory>
    ensures { OnOk result (out.new.items ≡ out.old.items ++ front salt.now number len) }
{
    out.extend_from_slice(magic(salt))?;
    push_u64(out, number)?;
    push_u64(out, len)?;
    Ok(())
}

// The bytes with which each record of a log with this salt begins.
fn magic(salt: &[u8]) -> &'static [u8]
    ensures { result.now ≡ magic salt.now }
{
    if salt.is_empty() { MAGIC_1 } else { MAGIC_2 }
}

// The digest of a salt, a header and a body.
fn digest_of(salt: &[u8], front: &[u8], body: &[u8]) -> [u8; 32]
    ensures { result ≡ sha256 (salt.now ++ front.now ++ body.now) }
{
    let mut hasher = Sha256::new();
    hasher.update(salt);
    hasher.update(front);
    hasher.update(body);
    hasher.finalize()
}

/// Splits the first record off a log with this salt, if it has this number: its body, and the rest of the log. Returns `None`
/// if the log does not begin with such a record, for example because the record is cut off, damaged, or of another log.
pub fn next_record<'a>(log: &'a [u8], salt: &[u8], number: u64) -> Option<(&'a [u8], &'a [u8])>
    ensures { MatchOption result (LacksRecord salt.now number log.now) (λ cut. (log.now ≡ record_of salt.now number cut.0.now ++ cut.1.now) × IsWord (length cut.0.now)) }
{
    let Some((front, behind)) = cut_at(log, HEADER_LEN as u64) else {
        return None;
    };
    let Some(len) = len_after(front, salt, number) else {
        return None;
    };
    let Some((body, end)) = cut_at(behind, len) else {
        return None;
    };
    let Some(rest) = behind_sum(salt, front, body, end) else {
        return None;
    };
    Some((body, rest))
}

// Reads the length of the body from a header. Returns `None` if the bytes are not the header of a record with this number.
fn len_after(bytes: &[u8], salt: &[u8], number: u64) -> Option<u64>
    ensures { MatchOption result ((len : ℕ) → IsWord len → bytes.now ≢ front salt.now number len) (λ len. (bytes.now ≡ front salt.now number len) × IsWord len) }
{
    let Some(rest) = bytes.strip_prefix(magic(salt)) else {
        return None;
    };
    let Some((found, rest)) = split_u64(rest) else {
        return None;
    };
    let Some((len, rest)) = split_u64(rest) else {
        return None;
    };
    if found != number || !rest.is_empty() {
        return None;
    }
    Some(len)
}

// Returns the bytes after the digest of a record, or `None` if the bytes begin with another digest.
fn behind_sum<'a>(salt: &[u8], front: &[u8], body: &[u8], bytes: &'a [u8]) -> Option<&'a [u8]>
    ensures { MatchOption result ((rest : List ℕ) → bytes.now ≢ sha256 (salt.now ++ front.now ++ body.now) ++ rest) (λ rest. bytes.now ≡ sha256 (salt.now ++ front.now ++ body.now) ++ rest.now) }
{
    let sum = digest_of(salt, front, body);
    bytes.strip_prefix(sum.as_slice())
}
