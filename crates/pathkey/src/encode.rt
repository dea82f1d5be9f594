//! Encodes paths and blocks as keys, and decodes keys to paths.
//!
//! Encoding is injective: two paths, two blocks, or a path and a block never have the same key, and decoding a path's key gives the
//! path.
ghost use Rattle.std.specs.Prelude.{◌≡◌, ◌≢◌, [], IfOk, MatchBool, List, ℕ};
ghost use Rattle.pathkey.specs.Names.{IsPath};
ghost use Rattle.pathkey.specs.PathKeys.{IsPathKey, IsPathOf};
ghost use Rattle.pathkey.specs.Keys.{enc, block_key, IsRekeyed};

use crate::components::check_components;
use crate::errno::NoMemory;
use crate::key::Key;
use crate::path::{LONGEST_TEXT, Path};
use std::alloc::Global;

/// The key of a path: each name followed by a byte 0.
pub fn enc(alloc: Global, path: &Path) -> Result<Key, NoMemory>
    ensures { IfOk result (λ k. k ≡ enc path.now) }
{
    path.key().copy(alloc)
}

/// The path with this key; `None` if there is none.
pub fn dec(alloc: Global, key: &Key) -> Result<Option<Path>, NoMemory>
    ensures { IfOk result (IsPathOf key.now) }
{
    if !is_path_key(key.as_bytes()) {
        return Ok(None);
    }
    let key = key.copy(alloc)?;
    Ok(Some(Path::of_key(key)))
}

// Whether the bytes are the key of a path.
fn is_path_key(key: &[u8]) -> bool
    ensures { MatchBool result (IsPathKey key.now) ((p : List (List ℕ)) → IsPath p → enc p ≢ key.now) }
{
    let Some((last, body)) = key.split_last() else {
        return true;
    };
    if *last != 0 || key.len() > LONGEST_TEXT {
        return false;
    }
    check_components(body, 0).is_ok()
}

/// The key of block `index` of a file: the path's key, a byte 0, and the index in four bytes.
pub fn block_key(alloc: Global, path: &Path, index: u32) -> Result<Key, NoMemory>
    requires { path.now ≢ [] }
    ensures { IfOk result (λ k. k ≡ block_key path.now index) }
{
    let [a, b, c, d] = index.to_be_bytes();
    Key::joined(alloc, path.key().as_bytes(), &[0, a, b, c, d])
}

/// The key with its prefix, the key of `old`, replaced by the key of `new`; `None` if it does not have that prefix.
pub fn rekey(alloc: Global, key: &Key, old: &Path, new: &Path) -> Result<Option<Key>, NoMemory>
    ensures { IfOk result (IsRekeyed key.now old.now new.now) }
{
    let Some(rest) = key.as_bytes().strip_prefix(old.key().as_bytes()) else {
        return Ok(None);
    };
    let key = Key::joined(alloc, new.key().as_bytes(), rest)?;
    Ok(Some(key))
}
