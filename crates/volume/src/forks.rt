//! Forks: independent volumes that are made of a frozen tree. They share nodes, which are copied before they are
//! changed, so no call on one affects the other.
ghost use Rattle.std.specs.Prelude.{IfOk};
ghost use Rattle.volume.specs.Forks.{IsForkOf};

use crate::frozen::Frozen;
use crate::fs_root::share;
use crate::volume::Volume;
use pathkey::NoMemory;
use std::alloc::Global;

impl Frozen {
    /// An independent volume with this tree and its shape, in constant time, without snapshots, marks or jobs. Later changes of
    /// the volume do not affect this tree. It fails only if a node already has 2^64 - 1 references.
    pub fn fork(&self, alloc: Global) -> Result<Volume, NoMemory>
        ensures { IfOk result (IsForkOf self.now) }
    {
        self.assert_invariant();
        let root = share(self.indexes(), self.modified())?;
        Ok(Volume::from_root(alloc, root))
    }
}
