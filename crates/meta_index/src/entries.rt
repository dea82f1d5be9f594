//! What is below a path: the range of its keys, and the name and kind in the key of a directory's entry.
//!
//! A path's keys are consecutive, and those of a directory's entries are in byte order of their names.
ghost use Rattle.std.specs.Prelude.{◌≡◌, ◌∷◌, ◌++◌, ℕ, List, [], IfOk};
ghost use Rattle.meta_index.specs.Below.{below, kind_reported};
ghost use Rattle.pathkey.specs.Names.{IsPath};

use pathkey::{Key, KeyRange, NoMemory, Path, subtree};
use reference::{Kind, Meta};
use std::alloc::Global;

/// The keys of what is below the path.
pub(crate) fn keys_below(alloc: Global, path: &Path) -> Result<KeyRange, NoMemory>
    ensures value { IfOk result (λ r. r ≡ below path.now) }
    ensures valid { IfOk result (λ _. IsPath path.now) }
{
    let lo = path.key().next(alloc)?;
    let hi = subtree(alloc, path)?.hi;
    Ok(KeyRange { lo, hi })
}

/// The last name of the path with this key, if the other key is that of the directory above: the bytes between that one and the
/// byte 0 at the end.
pub(crate) fn name_behind<'a>(directory: &Key, key: &'a Key) -> &'a [u8]
    ensures { (n : List ℕ) → key.now ≡ directory.now ++ (n ++ 0 ∷ []) → result.now ≡ n }
{
    // A directory's key is never the longer one: the bound is for the checker.
    let front = directory.as_bytes().len().min(key.as_bytes().len());
    match key.as_bytes()[front..].split_last() {
        // Does not occur: there is a byte 0 at the end.
        None => &[],
        Some((_, name)) => name,
    }
}

/// The least key after everything at or below the path with this key: the key with its last byte, which is 0, changed to 1.
pub(crate) fn end_below(alloc: Global, key: &Key) -> Result<Key, NoMemory>
    ensures { IfOk result (λ end. (s : List ℕ) → key.now ≡ s ++ 0 ∷ [] → end ≡ s ++ 1 ∷ []) }
{
    let mut bytes = Vec::from_slice(alloc, key.as_bytes())?;
    bytes.pop();
    bytes.push(1)?;
    Key::from_bytes(alloc, bytes.as_slice())
}

/// Whether the metadata are those of a directory or of a file.
pub(crate) fn kind_of(meta: Meta) -> Kind
    ensures { result ≡ kind_reported meta }
{
    match meta {
        Meta::Dir { .. } => Kind::Dir,
        Meta::File { .. } => Kind::File,
    }
}
