//! Keys in order, none twice, and the paths and the blocks whose keys they are.
ghost use Rattle.std.specs.Prelude.{◌≡◌, ◌∷◌, [], ℕ, List, All, Contains, IfOk, OnOk, map};
ghost use Rattle.std.specs.List.Sorted.{IsStrictlySortedBy};
ghost use Rattle.pathkey.specs.Keys.{enc};
ghost use Rattle.pathkey.specs.Names.{IsPath};
ghost use Rattle.pathkey.specs.Order.{by_bytes};
ghost use Rattle.reference.specs.Indexes.{PathOf};
ghost use Rattle.delta.specs.Changed.{AreFound, HaveSame, IsBlockKey, file_key};

use call_compiler::copy_range::block_number;
use pathkey::{Key, NoMemory, Path, dec};
use std::alloc::Global;

/// How many bytes the key of a block has behind that of its file.
const BLOCK_SUFFIX: usize = 5;

/// Sorts the keys, and leaves each once.
pub(crate) fn sort_distinct(keys: &mut Vec<Key>) -> Result<(), NoMemory>
    ensures rising { OnOk result (IsStrictlySortedBy by_bytes keys.new.items) }
    ensures same { OnOk result (HaveSame keys.new.items keys.old.items) }
{
    keys.sort()?;
    keys.dedup();
    Ok(())
}

/// The key of the file whose block has this key.
pub(crate) fn file_key(alloc: Global, key: &Key) -> Result<Key, NoMemory>
    ensures { IfOk result (λ k. k ≡ file_key key.now) }
{
    let bytes = key.as_bytes();
    Key::from_bytes(alloc, &bytes[..bytes.len().saturating_sub(BLOCK_SUFFIX)])
}

/// The paths with these keys.
pub(crate) fn paths_of(alloc: Global, keys: &[Key]) -> Result<Vec<Path>, NoMemory>
    requires { (k : List ℕ) → Contains keys.now k → PathOf k }
    ensures paths { IfOk result (λ paths. All IsPath paths.items) }
    ensures keys { IfOk result (λ paths. map enc paths.items ≡ keys.now) }
{
    let mut paths = Vec::new(alloc);
    for key in keys {
        let Some(path) = dec(alloc, key)? else {
            // Each of these keys is a path's.
            unreachable!();
        };
        paths.push(path)?;
    }
    Ok(paths)
}

/// The blocks with these keys: for each the path of its file, and its number.
pub(crate) fn blocks_of(alloc: Global, keys: &[Key]) -> Result<Vec<(Path, u32)>, NoMemory>
    requires { (k : List ℕ) → Contains keys.now k → IsBlockKey k }
    ensures { IfOk result (λ blocks. AreFound keys.now blocks.items) }
{
    let mut blocks = Vec::new(alloc);
    for key in keys {
        blocks.push(block_of(alloc, key)?)?;
    }
    Ok(blocks)
}

/// The path of the file whose block has this key, and the block's number.
fn block_of(alloc: Global, key: &Key) -> Result<(Path, u32), NoMemory>
    requires { IsBlockKey key.now }
    ensures { IfOk result (λ block. AreFound (key.now ∷ []) (block ∷ [])) }
{
    let file = file_key(alloc, key)?;
    let Some(path) = dec(alloc, &file)? else {
        // The key is that of a block of a file.
        unreachable!();
    };
    Ok((path, block_number(key)))
}
