//! A world: the live tree, and the trees of the named snapshots.
//!
//! File calls change only the live tree. A snapshot has a tree of its own, and at most 64 are taken.
ghost use Rattle.std.specs.Prelude.{◌≡◌, IfOk, OnOk, OnErr};
ghost use Rattle.std.specs.FinMap as finite;
ghost use Rattle.pathkey.specs.Outcomes.{IsOrLacksMemory};
ghost use Rattle.reference.specs.Tree.{Dir, nothing};
ghost use Rattle.reference.specs.Worlds.{World as Worlds, Answer, Ask, Replied, outcome, snapshot as snapped, drop_snapshot as dropped, restore as put_back};
ghost use Rattle.reference.specs.Plain.{tree_of, tree_found};
ghost use Rattle.reference.specs.PlainWorlds.{world_of};

use super::calls::does;
use super::tree::{Entries, Tree, copy_tree};
use crate::call::Call;
use crate::reply::Reply;
use pathkey::{Errno, NoMemory, SnapName};
use std::alloc::Global;
use std::collections::BTreeMap;

/// The maximum number of snapshots.
const GREATEST_COUNT: usize = 64;

/// A live tree, and the trees of the named snapshots.
#[derive(Drop)]
pub struct World {
    live: Tree,
    snapshots: BTreeMap<SnapName, Tree>,
}

impl World {
    /// An empty directory with mtime 0, and no snapshots.
    pub fn new(alloc: Global) -> Result<World, NoMemory>
        ensures { IfOk result (λ w. world_of w ≡ record { live = Dir 0 nothing; snapshots = finite.empty }) }
    {
        let live = Tree::directory(alloc, 0, Entries::Nothing)?;
        Ok(World {
            live,
            snapshots: BTreeMap::new(alloc),
        })
    }

    /// The live tree.
    pub fn live(&self) -> &Tree
        ensures { tree_of result.now ≡ (world_of self.now).live }
    {
        &self.live
    }

    /// The tree of the snapshot of that name.
    pub fn frozen(&self, name: &SnapName) -> Option<&Tree>
        ensures { tree_found result ≡ finite.get (world_of self.now).snapshots name.now }
    {
        self.snapshots.get(name)
    }

    // Whether there is a snapshot of that name.
    fn has(&self, name: &SnapName) -> bool
        ensures { result ≡ finite.contains_key (world_of self.now).snapshots name.now }
    {
        self.frozen(name).is_some()
    }

    // How many snapshots there are.
    fn count(&self) -> usize
        ensures { result ≡ finite.len (world_of self.now).snapshots }
    {
        self.snapshots.len()
    }

    /// Applies a file call to the live tree at a time. If an allocation fails the world is unchanged.
    pub fn call(&mut self, alloc: Global, call: &Call, at: u64) -> Result<Reply, NoMemory>
        ensures value { IfOk result (λ r. ◌≡◌ {A = Worlds × Answer} (world_of self.new, Replied r) (outcome (world_of self.old) (Ask call.now at))) }
        ensures unchanged { OnErr result (world_of self.new ≡ world_of self.old) }
    {
        does(alloc, &mut self.live, call, at)
    }

    // Stores a copy of the live tree under the name.
    fn keep(&mut self, alloc: Global, name: &SnapName) -> Result<(), NoMemory>
        ensures kept { OnOk result (world_of self.new ≡ record (world_of self.old) { snapshots = finite.insert (world_of self.old).snapshots name.now (world_of self.old).live }) }
        ensures unchanged { OnErr result (world_of self.new ≡ world_of self.old) }
    {
        let name = name.copy(alloc)?;
        let tree = copy_tree(alloc, &self.live)?;
        self.snapshots.insert(name, tree)?;
        Ok(())
    }

    // Removes the snapshot of that name.
    fn remove(&mut self, name: &SnapName)
        ensures { world_of self.new ≡ record (world_of self.old) { snapshots = finite.remove (world_of self.old).snapshots name.now } }
    {
        let _removed = self.snapshots.remove(name);
    }

    /// Takes a snapshot of the live tree under the name.
    pub fn snapshot(&mut self, alloc: Global, name: &SnapName) -> Result<(), Errno>
        ensures answer { IsOrLacksMemory result (snapped (world_of self.old) name.now).1 }
        ensures kept { OnOk result (world_of self.new ≡ (snapped (world_of self.old) name.now).0) }
        ensures unchanged { OnErr result (world_of self.new ≡ world_of self.old) }
    {
        if self.has(name) {
            return Err(Errno::EEXIST);
        }
        if self.count() >= GREATEST_COUNT {
            return Err(Errno::ENOSPC);
        }
        self.keep(alloc, name)?;
        Ok(())
    }

    /// Removes the snapshot of that name.
    pub fn drop_snapshot(&mut self, name: &SnapName) -> Result<(), Errno>
        ensures answer { result ≡ (dropped (world_of self.old) name.now).1 }
        ensures world { world_of self.new ≡ (dropped (world_of self.old) name.now).0 }
    {
        if !self.has(name) {
            return Err(Errno::ENOENT);
        }
        self.remove(name);
        Ok(())
    }

    /// Replaces the live tree by that of the snapshot, which is kept.
    pub fn restore(&mut self, alloc: Global, name: &SnapName) -> Result<(), Errno>
        ensures answer { IsOrLacksMemory result (put_back (world_of self.old) name.now).1 }
        ensures restored { OnOk result (world_of self.new ≡ (put_back (world_of self.old) name.now).0) }
        ensures unchanged { OnErr result (world_of self.new ≡ world_of self.old) }
    {
        let Some(frozen) = self.frozen(name) else {
            return Err(Errno::ENOENT);
        };
        let copy = copy_tree(alloc, frozen)?;
        self.live = copy;
        Ok(())
    }
}
