//! Copies of bytes from file to file.
ghost use Rattle.volume.specs.Copies.{Copies};
ghost use Rattle.volume.specs.Typed.{replied};

use crate::call_methods::counted;
use crate::volume::Volume;
use call_compiler::{Reply, copy_range};
use pathkey::{Errno, Path};
use std::alloc::Global;

impl Volume {
    /// Copies `count` bytes of the file at `from` from `offset` on, as far as it has them, to the file at `to` from `target` on,
    /// and returns how many they are. The tree is the same as after a `write` of these bytes, which are read before any is
    /// written: both paths may be the same, and the ranges may overlap. If there are none, nothing changes.
    ///
    /// ENOENT, ENOTDIR and EISDIR of `from`, and then those and EFBIG of `to`, as `write`; ENOMEM if an allocation fails. If both
    /// offsets are multiples of 4,096, whole blocks are shared, and none of their bytes is copied. All other bytes are read and
    /// written at once, so that the caller bounds the memory for them by `count`.
    pub fn copy_range(
        &mut self,
        alloc: Global,
        from: &Path,
        offset: u64,
        to: &Path,
        target: u64,
        count: u64,
        at: u64,
    ) -> Result<u64, Errno>
        ensures { Copies from.now offset to.now target count at (replied (λ n. Reply.Count n) result) self.old self.new }
    {
        let compiled = copy_range::copy_range(
            alloc,
            self.indexes(),
            from,
            offset,
            to,
            target,
            count,
            at,
        );
        counted(self.send_copied(alloc, compiled))
    }
}
