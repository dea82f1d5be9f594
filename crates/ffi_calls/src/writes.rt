//! Calls that change a volume, each with a timestamp.
ghost use Rattle.pathkey.specs.declared.errno.Errno.TheVariants.{ENOMEM};
ghost use Rattle.pathkey.specs.Texts.{parsed};
ghost use Rattle.std.specs.Prelude.{◌⊎◌, Ok};
ghost use Rattle.ffi_calls.specs.Changes.{Asks, Refuses, asked, moved};

use pathkey::{Errno, Path};
use reference::Call;
use std::alloc::Global;
use volume::Volume;

/// Creates an empty directory.
pub fn mkdir(alloc: Global, volume: &mut Volume, path: &[u8], at: u64) -> Result<(), Errno>
    ensures { Asks (asked (λ p. Call.Mkdir p) (parsed path.now)) at result volume.old volume.new }
{
    let path = Path::parse(alloc, path)?;
    volume.mkdir(alloc, &path, at)
}

/// Creates an empty file if the path does not exist.
pub fn create(alloc: Global, volume: &mut Volume, path: &[u8], at: u64) -> Result<(), Errno>
    ensures { Asks (asked (λ p. Call.Create p) (parsed path.now)) at result volume.old volume.new }
{
    let path = Path::parse(alloc, path)?;
    volume.create(alloc, &path, at)
}

/// Removes a file.
pub fn unlink(alloc: Global, volume: &mut Volume, path: &[u8], at: u64) -> Result<(), Errno>
    ensures { Asks (asked (λ p. Call.Unlink p) (parsed path.now)) at result volume.old volume.new }
{
    let path = Path::parse(alloc, path)?;
    volume.unlink(alloc, &path, at)
}

/// Removes an empty directory.
pub fn rmdir(alloc: Global, volume: &mut Volume, path: &[u8], at: u64) -> Result<(), Errno>
    ensures { Asks (asked (λ p. Call.Rmdir p) (parsed path.now)) at result volume.old volume.new }
{
    let path = Path::parse(alloc, path)?;
    volume.rmdir(alloc, &path, at)
}

/// Removes a file, or a directory with everything below it.
pub fn rmtree(alloc: Global, volume: &mut Volume, path: &[u8], at: u64) -> Result<(), Errno>
    ensures { Asks (asked (λ p. Call.Rmtree p) (parsed path.now)) at result volume.old volume.new }
{
    let path = Path::parse(alloc, path)?;
    volume.rmtree(alloc, &path, at)
}

/// Renames a file or directory from the first path to the second. If an allocation fails for the first path, the second is
/// not parsed.
pub fn rename(
    alloc: Global,
    volume: &mut Volume,
    old: &[u8],
    new: &[u8],
    at: u64,
) -> Result<(), Errno>
    ensures { Asks (moved (parsed old.now) (parsed new.now)) at result volume.old volume.new ⊎ Refuses ENOMEM result volume.old volume.new }
{
    let old = Path::parse(alloc, old)?;
    let new = Path::parse(alloc, new)?;
    volume.rename(alloc, &old, &new, at)
}

/// Truncates a file to the given length in bytes, or extends it to that length with zeros.
pub fn truncate(
    alloc: Global,
    volume: &mut Volume,
    path: &[u8],
    length: u64,
    at: u64,
) -> Result<(), Errno>
    ensures { Asks (asked (λ p. Call.Truncate p length) (parsed path.now)) at result volume.old volume.new }
{
    let path = Path::parse(alloc, path)?;
    volume.truncate(alloc, &path, length, at)
}

/// Writes the bytes to a file at the offset: all of them, or none.
pub fn write(
    alloc: Global,
    volume: &mut Volume,
    path: &[u8],
    offset: u64,
    bytes: &[u8],
    at: u64,
) -> Result<(), Errno>
    ensures { Asks (asked (λ p. Call.Write p offset bytes.now) (parsed path.now)) at result volume.old volume.new }
{
    let path = Path::parse(alloc, path)?;
    write_at(alloc, volume, &path, offset, bytes, at)
}

// Writes the bytes to the file at a path. The volume returns their number, which the caller knows.
fn write_at(
    alloc: Global,
    volume: &mut Volume,
    path: &Path,
    offset: u64,
    bytes: &[u8],
    at: u64,
) -> Result<(), Errno>
    ensures { Asks (Ok (Call.Write path.now offset bytes.now)) at result volume.old volume.new }
{
    volume.assert_invariant();
    let _written = volume.write(alloc, path, offset, bytes, at)?;
    Ok(())
}
