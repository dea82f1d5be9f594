//! Sets the mtime of a file or directory explicitly.
ghost use Rattle.volume.specs.Mtimes.{SetsMtime};
ghost use Rattle.volume.specs.Typed.{replied};

use crate::call_methods::done_or_errno;
use crate::volume::Volume;
use call_compiler::{Reply, mtime};
use pathkey::{Errno, Path};
use std::alloc::Global;

impl Volume {
    /// Sets the mtime of the file or directory at the path, or of the root, and changes nothing else (POSIX.1-2017, utimensat).
    ///
    /// Fails with ENOENT and ENOTDIR as `stat` does, and with ENOMEM if an allocation fails. It sends at most one message.
    pub fn set_mtime(&mut self, alloc: Global, path: &Path, at: u64) -> Result<(), Errno>
        ensures { SetsMtime path.now at (replied (λ _. Reply.Done) result) self.old self.new }
    {
        let compiled = mtime::set_mtime(alloc, self.indexes(), path, at);
        done_or_errno(self.send_mtime(alloc, compiled, at, path.is_root()))
    }
}
