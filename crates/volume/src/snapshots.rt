//! The named snapshots of a volume: for each name the indexes when it was taken, and the mtime of their root.
ghost use Rattle.std.specs.Prelude.{◌≡◌, ◌≤◌, ◌<◌, true, false, OnOk, OnErr, IfOk, IfErr, Some, None, is_some, IfSome, slice_get};
ghost use Rattle.std.specs.FinMap as finite;
ghost use Rattle.std.specs.Option.{option_copied};
ghost use Rattle.volume.specs.Volumes.{AreNames, most_snapshots, names_in};

use crate::fs_root::FsRoot;
use pathkey::{NoMemory, SnapName};
use std::alloc::Global;
use std::collections::BTreeMap;
use std::marker::Model;

/// The maximal number of named snapshots.
const MOST: usize = 64;

/// Indexes under names. In contracts it is a finite map.
pub struct Snapshots {
    named: BTreeMap<SnapName, FsRoot>,
}

// Written out, as that of `pathkey::Key`.
impl Drop for Snapshots {
    fn drop(self) {
        let Snapshots { named: _ } = self;
    }
}

impl Model for Snapshots {
    ghost use Rattle.volume.specs.Codes.{coded_kept};
    ghost use Rattle.volume.specs.Volumes.{Kept, snapshot_root};

    ghost Value = { Kept };

    ghost coded = { coded_kept };

    ghost view = { λ s. snapshot_root s.named };
}

impl Snapshots {
    /// No snapshots. It allocates nothing.
    pub fn new(alloc: Global) -> Snapshots
        ensures { result ≡ finite.empty }
    {
        Snapshots {
            named: BTreeMap::new(alloc),
        }
    }

    /// The indexes under a name. It allocates nothing.
    pub fn get(&self, name: &SnapName) -> Option<&FsRoot>
        ensures { option_copied result ≡ finite.get self.now name.now }
    {
        self.named.get(name)
    }

    /// The name of a snapshot by its number, which counts from 0 in ascending order of names; `None` past the last. It allocates
    /// nothing.
    pub fn name(&self, number: usize) -> Option<&SnapName>
        ensures number { option_copied result ≡ slice_get (names_in self.now) number }
        ensures names { AreNames self.now (names_in self.now) }
    {
        self.named.keys().nth(number)
    }

    /// Whether there is a snapshot of that name. It allocates nothing.
    pub fn has(&self, name: &SnapName) -> bool
        ensures { result ≡ finite.contains_key self.now name.now }
    {
        self.get(name).is_some()
    }

    /// Whether the maximal number of snapshots exists. It allocates nothing.
    pub fn is_full(&self) -> bool
        ensures full { result ≡ true → most_snapshots ≤ finite.len self.now }
        ensures room { result ≡ false → finite.len self.now < most_snapshots }
    {
        self.named.len() >= MOST
    }

    /// Inserts indexes under a name.
    pub fn add(&mut self, alloc: Global, name: &SnapName, rooted: FsRoot) -> Result<(), NoMemory>
        ensures kept { OnOk result (self.new ≡ finite.insert self.old name.now rooted) }
        ensures err { OnErr result (self.new ≡ self.old) }
    {
        let name = name.copy(alloc)?;
        self.named.insert(name, rooted)?;
        Ok(())
    }

    /// Removes a name. It allocates nothing.
    pub fn remove(&mut self, name: &SnapName)
        ensures { self.new ≡ finite.remove self.old name.now }
    {
        let _removed = self.named.remove(name);
    }
}
