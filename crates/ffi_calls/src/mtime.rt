//! Sets the mtime of a file or directory.
ghost use Rattle.pathkey.specs.Texts.{parsed};
ghost use Rattle.ffi_calls.specs.Mtimes.{SetsMtimeAt};

use pathkey::{Errno, Path};
use std::alloc::Global;
use volume::Volume;

/// Sets the mtime of the file or directory at the path, or of the root.
pub fn set_mtime(alloc: Global, volume: &mut Volume, path: &[u8], at: u64) -> Result<(), Errno>
    ensures { SetsMtimeAt (parsed path.now) at result volume.old volume.new }
{
    let path = Path::parse(alloc, path)?;
    volume.set_mtime(alloc, &path, at)
}
