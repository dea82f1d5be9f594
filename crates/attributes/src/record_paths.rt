//! The path of an entry's record, below a reserved name of the root. `docs/FORMATS.md` has the
//! mapping.
//!
//! The map from paths to record directories is one to one, and no record's path is a record
//! directory or below one, since names that begin with a byte 1 are escaped.
ghost use Rattle.std.specs.Prelude.{◌≡◌, [], ◌∷◌, ◌++◌, IfOk, OnOk, if◌then◌else◌};
ghost use Rattle.pathkey.specs.Names.{Path as Names, EachName};
ghost use Rattle.pathkey.specs.Enc.{enc};
ghost use Rattle.pathkey.specs.Texts.{text_of};
ghost use Rattle.attributes.specs.Places.{HasPlainNames, IsOrNoMemory, escaped, fitting, is_reserved, record_dir, placed, record_path};

use pathkey::{Errno, Key, NoMemory, Path, dec};
use std::alloc::Global;

/// The reserved name in the root: users cannot reach it.
const RESERVED: &[u8] = b".doorvervain";

/// The key of the root's record directory.
const ROOT: &[u8] = b".doorvervain\0tree\0";

/// The name of a record in its directory, and the escape byte in front of names that begin with it.
const MARK: u8 = 1;

/// Whether the path is at or below the reserved name.
pub fn is_reserved(path: &Path) -> bool
    ensures { result ≡ is_reserved path.now }
{
    match path.names().split_first() {
        Some((name, _)) => name == RESERVED,
        None => false,
    }
}

/// The record directory of a path: the same path below `/.doorvervain/tree`, where a name that begins with a byte 1 has one
/// more in front. Fails with `EINVAL` if the path is at or below the reserved name, with `ENAMETOOLONG` if a name would have
/// more than 255 bytes or the text more than 1,023, and with `ENOMEM` if an allocation fails.
pub fn record_dir(alloc: Global, path: &Path) -> Result<Path, Errno>
    ensures { IsOrNoMemory result (placed path.now (record_dir path.now)) }
{
    if is_reserved(path) {
        return Err(Errno::EINVAL);
    }
    let key = record_dir_key(alloc, path)?;
    path_of_key(alloc, key.as_slice())
}

/// The path of a path's record: the file in the record directory whose name is the one byte 1. Fails as `record_dir`
/// does.
pub fn record_path(alloc: Global, path: &Path) -> Result<Path, Errno>
    ensures { IsOrNoMemory result (placed path.now (record_path path.now)) }
{
    if is_reserved(path) {
        return Err(Errno::EINVAL);
    }
    let key = record_key(alloc, path)?;
    path_of_key(alloc, key.as_slice())
}

// The key of the record's path.
fn record_key(alloc: Global, path: &Path) -> Result<Vec<u8>, NoMemory>
    ensures key { IfOk result (λ key. key.items ≡ enc (record_path path.now)) }
    ensures names { EachName path.now }
{
    let mut key = record_dir_key(alloc, path)?;
    key.extend_from_slice(&[MARK, 0])?;
    Ok(key)
}

// The key of the record directory.
fn record_dir_key(alloc: Global, path: &Path) -> Result<Vec<u8>, NoMemory>
    ensures key { IfOk result (λ key. key.items ≡ enc (record_dir path.now)) }
    ensures names { EachName path.now }
{
    let mut rest = path.names();
    let mut key = Vec::from_slice(alloc, ROOT)?;
    while let Some((name, after)) = rest.split_first() {
        push_escaped(&mut key, name)?;
        rest = after;
    }
    Ok(key)
}

// Appends a name to a key, escaped if it begins with `MARK`.
fn push_escaped(key: &mut Vec<u8>, name: &[u8]) -> Result<(), NoMemory>
    ensures { OnOk result (key.new.items ≡ key.old.items ++ (escaped name.now ++ 0 ∷ [])) }
{
    if begins_with_mark(name) {
        key.push(MARK)?;
    }
    key.extend_from_slice(name)?;
    key.push(0)?;
    Ok(())
}

// Whether a name begins with `MARK`.
fn begins_with_mark(name: &[u8]) -> bool
    ensures { escaped name.now ≡ (if result then 1 ∷ name.now else name.now) }
{
    match name.first() {
        Some(byte) => *byte == MARK,
        None => false,
    }
}

// The path with this key. Fails if a name or the text would be too long.
fn path_of_key(alloc: Global, key: &[u8]) -> Result<Path, Errno>
    ensures { (p : Names) → HasPlainNames p → key.now ≡ enc p → IsOrNoMemory result (fitting p) }
{
    let key = Key::from_bytes(alloc, key)?;
    match dec(alloc, &key)? {
        Some(path) => Ok(path),
        None => Err(Errno::ENAMETOOLONG),
    }
}

/// The text of a path, for example `/a/b`.
pub fn text_of(alloc: Global, path: &Path) -> Result<Vec<u8>, NoMemory>
    ensures { IfOk result (λ text. text.items ≡ text_of path.now) }
{
    if path.is_root() {
        return Ok(Vec::from_slice(alloc, b"/")?);
    }
    let mut text = Vec::with_capacity(alloc, path.key().as_bytes().len())?;
    let mut rest = path.names();
    while let Some((name, after)) = rest.split_first() {
        text.push(b'/')?;
        text.extend_from_slice(name)?;
        rest = after;
    }
    Ok(text)
}
