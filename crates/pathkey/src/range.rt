//! Key ranges, from a key up to but excluding another, and those of a subtree and of a file's blocks.
//!
//! A range may be empty: nothing requires that its lower bound is before its upper one.
ghost use Rattle.std.specs.Prelude.{◌≡◌, ◌≢◌, [], IfOk};
ghost use Rattle.pathkey.specs.Keys.{subtree, blocks_from, is_in, is_below};

use crate::encode::{block_key, enc};
use crate::errno::NoMemory;
use crate::key::Key;
use crate::path::Path;
use std::alloc::Global;

/// The keys from `lo` up to but excluding `hi`; `None` is unbounded.
#[derive(Drop)]
pub struct KeyRange {
    /// The inclusive lower bound.
    pub lo: Key,
    /// The exclusive upper bound, if there is one.
    pub hi: Option<Key>,
}

impl KeyRange {
    /// Clones the range.
    pub fn copy(&self, alloc: Global) -> Result<KeyRange, NoMemory>
        ensures { IfOk result (λ r. r ≡ self.now) }
    {
        let lo = self.lo.copy(alloc)?;
        let hi = match &self.hi {
            None => None,
            Some(hi) => Some(hi.copy(alloc)?),
        };
        Ok(KeyRange { lo, hi })
    }

    /// Whether the range contains the key.
    pub fn contains(&self, key: &Key) -> bool
        ensures { result ≡ is_in self.now key.now }
    {
        self.lo <= *key && self.ends_above(key)
    }

    // Whether the key is less than the upper bound.
    fn ends_above(&self, key: &Key) -> bool
        ensures { result ≡ is_below key.now self.now.hi }
    {
        match &self.hi {
            None => true,
            Some(hi) => *key < *hi,
        }
    }
}

/// The keys of the paths at or below a path, and of their blocks; at the root, all keys.
pub fn subtree(alloc: Global, path: &Path) -> Result<KeyRange, NoMemory>
    ensures { IfOk result (λ r. r ≡ subtree path.now) }
{
    let lo = enc(alloc, path)?;
    let hi = match path.key().as_bytes().split_last() {
        None => None,
        Some((_, front)) => Some(Key::joined(alloc, front, &[1])?),
    };
    Ok(KeyRange { lo, hi })
}

/// The keys of a file's blocks from index `from` on.
pub fn blocks_from(alloc: Global, path: &Path, from: u32) -> Result<KeyRange, NoMemory>
    requires { path.now ≢ [] }
    ensures { IfOk result (λ r. r ≡ blocks_from path.now from) }
{
    let lo = block_key(alloc, path, from)?;
    let hi = Key::joined(alloc, path.key().as_bytes(), &[1])?;
    Ok(KeyRange { lo, hi: Some(hi) })
}
