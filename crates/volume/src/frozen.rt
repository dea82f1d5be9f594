//! The tree of a volume at one point in time. It shares its nodes with the volume, and no call changes it.
//!
//! Invariant (`MeanSome`): its indexes abstract to a directory tree.
ghost use Rattle.std.specs.Prelude.{◌≡◌, IfOk, []};
ghost use Rattle.volume.specs.HistoryOf.{Tells};
ghost use Rattle.volume.specs.Volumes.{MeanSome};

use crate::fs_root::FsRoot;
use call_compiler::read::{read, readdir, stat};
use call_compiler::{Call, Indexes, Reply};
use pathkey::{Errno, NoMemory, Path};
use reference::Kind;
use std::alloc::Global;
use std::marker::Model;

/// A tree that does not change: later changes of the volume do not affect it. In contracts it is its indexes with the mtime of its
/// root.
pub struct Frozen {
    rooted: FsRoot,
}

// Written out, as that of `pathkey::Key`.
impl Drop for Frozen {
    fn drop(self) {
        let Frozen { rooted: _ } = self;
    }
}

impl Model for Frozen {
    ghost use Rattle.volume.specs.Codes.{coded_rooted};
    ghost use Rattle.volume.specs.declared.fs_root.FsRoot.{FsRoot};

    ghost Value = { FsRoot };

    ghost coded = { coded_rooted };

    ghost use Rattle.volume.specs.Volumes.{MeanSome};

    ghost view = { λ f. f.rooted };

    ghost invariant = { λ f. MeanSome f.rooted };
}

impl Frozen {
    /// The tree to which these indexes abstract.
    pub(crate) fn new(rooted: FsRoot) -> Frozen
        requires { MeanSome rooted }
        ensures { result ≡ rooted }
    {
        Frozen { rooted }
    }

    /// States the invariant of the type: it abstracts to a directory tree. Does nothing at run time.
    pub fn assert_invariant(&self)
        ensures { MeanSome self.now }
    {
        let _ = &self.rooted;
    }

    /// Its indexes, for iterating over the whole tree.
    pub fn indexes(&self) -> &Indexes
        ensures { result.now ≡ self.now.indexes }
    {
        &self.rooted.indexes
    }

    /// The mtime of its root. It allocates nothing.
    pub fn modified(&self) -> u64
        ensures { result ≡ self.now.modified }
    {
        self.rooted.modified
    }

    /// Reads at most `count` bytes of the file at the path from the offset on, none past its end (POSIX.1-2017, pread).
    pub fn read(&self, alloc: Global, path: &Path, offset: u64, count: u64) -> Reply
        ensures { Tells (Call.Read path.now offset count) result self.now }
    {
        match read(alloc, &self.rooted.indexes, path, offset, count) {
            Ok((reply, _)) => reply,
            Err(NoMemory) => Reply::Fault(Errno::ENOMEM),
        }
    }

    /// The metadata of the entry at the path (stat). At the root it allocates nothing.
    pub fn stat(&self, alloc: Global, path: &Path) -> Reply
        ensures reply { Tells (Call.Stat path.now) result self.now }
        ensures root { path.now ≡ [] → result ≡ Reply.Stat Kind.Dir 0 self.now.modified }
    {
        if path.is_root() {
            return Reply::Stat(Kind::Dir, 0, self.modified());
        }
        match stat(alloc, &self.rooted.indexes, path) {
            Ok((reply, _)) => reply,
            Err(NoMemory) => Reply::Fault(Errno::ENOMEM),
        }
    }

    /// The entries of the directory at the path (readdir).
    pub fn readdir(&self, alloc: Global, path: &Path) -> Reply
        ensures { Tells (Call.Readdir path.now) result self.now }
    {
        match readdir(alloc, &self.rooted.indexes, path) {
            Ok((reply, _)) => reply,
            Err(NoMemory) => Reply::Fault(Errno::ENOMEM),
        }
    }
}
