//! Copies bytes from file to file.
ghost use Rattle.pathkey.specs.Texts.{parsed};
ghost use Rattle.ffi_calls.specs.Copies.{CopiesAt};

use pathkey::{Errno, Path};
use std::alloc::Global;
use volume::Volume;

/// Copies `count` bytes of the file at `from` from `offset` on, as far as it has them, to the file at `to` from `target` on.
/// Returns how many bytes these are.
pub fn copy_range(
    alloc: Global,
    volume: &mut Volume,
    from: &[u8],
    offset: u64,
    to: &[u8],
    target: u64,
    count: u64,
    at: u64,
) -> Result<u64, Errno>
    ensures { CopiesAt (parsed from.now) offset (parsed to.now) target count at result volume.old volume.new }
{
    let source = Path::parse(alloc, from)?;
    let destination = Path::parse(alloc, to)?;
    volume.copy_range(alloc, &source, offset, &destination, target, count, at)
}
