//! Sessions, on which the lines of a script are executed: a volume, or a client of an engine whose volume is shared.
ghost use Rattle.reference.specs.Worlds.{World, TakeSnapshot, DropSnapshot, RestoreSnapshot, Ask, Replied, Settled, Fits, next};
ghost use Rattle.shell.specs.Listings.{Lists, ListsPast};
ghost use Rattle.shell.specs.Script.{Tells};
ghost use Rattle.shell.specs.Sessions.{Goes, IsReported};
ghost use Rattle.volume.specs.Volumes.{Means};

use crate::entry_lines::{EntryLines, read_lines};
use crate::pace::{Pace, run_steps};
use crate::request::ReadCall;
use pathkey::{Errno, Path, SnapName};
use reference::{Call, Reply};
use std::alloc::Global;
use volume::{Frozen, Volume};

/// What the lines of a script are executed on. Contracts see which worlds it abstracts to.
pub trait Session {
    ghost use Rattle.reference.specs.Worlds.{World};

    /// The worlds that it abstracts to.
    ghost means: { Self → World → Type 0 };

    /// Does a file call with a timestamp.
    fn call(&mut self, alloc: Global, call: &Call, at: u64) -> Reply
        ensures { Goes (means self.old) (means self.new) (Ask call.now at) (Replied result) };

    /// Reads the entries of the directory at the path as lines, as the call `readdir` with the timestamp would reply; or returns
    /// its fault.
    fn list(&mut self, alloc: Global, path: &Path, at: u64) -> Result<EntryLines, Errno>
        ensures { Lists (means self.old) (means self.new) path.now at result };

    /// Takes a snapshot of the live tree under the name.
    fn snapshot(&mut self, alloc: Global, name: &SnapName) -> Result<(), Errno>
        ensures { Goes (means self.old) (means self.new) (TakeSnapshot name.now) (Settled result) };

    /// Removes the snapshot of that name.
    fn drop_snapshot(&mut self, name: &SnapName) -> Result<(), Errno>
        ensures { Goes (means self.old) (means self.new) (DropSnapshot name.now) (Settled result) };

    /// Replaces the live tree by that of the snapshot.
    fn restore(&mut self, name: &SnapName) -> Result<(), Errno>
        ensures { Goes (means self.old) (means self.new) (RestoreSnapshot name.now) (Settled result) };

    /// Returns the reply to a read of the snapshot of that name.
    fn read_snapshot(&mut self, alloc: Global, name: &SnapName, look: &ReadCall) -> Reply
        ensures { (w : World) → means self.old w → Tells w name.now look.now result × means self.new w };

    /// Reads the entries of a directory of the snapshot of that name as lines; or returns the fault of that read.
    fn list_snapshot(
        &mut self,
        alloc: Global,
        name: &SnapName,
        path: &Path,
    ) -> Result<EntryLines, Errno>
        ensures { ListsPast (means self.old) (means self.new) name.now path.now result };

    /// Does the steps that the pace picks after a line, if there is a volume for the pace to inspect.
    fn run_steps<P: Pace>(&mut self, alloc: Global, pace: &mut P)
        ensures { (w : World) → means self.old w → means self.new w };
}

impl Session for Volume {
    ghost means = { λ v w. Means v w };

    fn call(&mut self, alloc: Global, call: &Call, at: u64) -> Reply {
        self.call(alloc, call, at)
    }

    fn list(&mut self, alloc: Global, path: &Path, _at: u64) -> Result<EntryLines, Errno> {
        read_lines(alloc, self.indexes(), path)
    }

    fn snapshot(&mut self, alloc: Global, name: &SnapName) -> Result<(), Errno> {
        self.snapshot(alloc, name)
    }

    fn drop_snapshot(&mut self, name: &SnapName) -> Result<(), Errno> {
        self.drop_snapshot(name)
    }

    fn restore(&mut self, name: &SnapName) -> Result<(), Errno> {
        self.restore(name)
    }

    fn read_snapshot(&mut self, alloc: Global, name: &SnapName, look: &ReadCall) -> Reply {
        match self.frozen(name) {
            Ok(frozen) => read_frozen(alloc, &frozen, look),
            Err(fault) => Reply::Fault(fault),
        }
    }

    fn list_snapshot(
        &mut self,
        alloc: Global,
        name: &SnapName,
        path: &Path,
    ) -> Result<EntryLines, Errno> {
        read_lines(alloc, self.frozen(name)?.indexes(), path)
    }

    fn run_steps<P: Pace>(&mut self, alloc: Global, pace: &mut P) {
        run_steps(alloc, self, pace);
    }
}

/// Returns the reply to a read of a frozen tree.
pub(crate) fn read_frozen(alloc: Global, frozen: &Frozen, look: &ReadCall) -> Reply
    ensures { IsReported look.now result frozen.now }
{
    match look {
        ReadCall::Read(path, offset, count) => frozen.read(alloc, path, *offset, *count),
        ReadCall::Stat(path) => frozen.stat(alloc, path),
        ReadCall::Readdir(path) => frozen.readdir(alloc, path),
    }
}
