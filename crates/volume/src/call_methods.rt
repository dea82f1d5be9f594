//! Each file call as a method with a result of its own type; a call that fails returns an `Err`, for use with `?`.
//!
//! Each has the contract of `Volume::call`, and copies no path. A call that changes something has a timestamp; the result of one
//! that only reads is the same at every timestamp. A volume and a frozen tree have the same methods; on a frozen tree their names
//! begin with `try_`, since `read`, `stat` and `readdir` return replies there.
ghost use Rattle.std.specs.Prelude.{◌≡◌, ℕ};
ghost use Rattle.reference.specs.PathCalls.{call_at};
ghost use Rattle.reference.specs.Pairs.{pairs_of};
ghost use Rattle.reference.specs.declared.call.Call.{Call as FileCall};
ghost use Rattle.volume.specs.Changes.{Called};
ghost use Rattle.volume.specs.HistoryOf.{Tells};
ghost use Rattle.volume.specs.Typed.{Compiles, IsCount, IsData, IsNames, IsOfKind, IsSettled, IsStat, Looks, replied};

use crate::frozen::Frozen;
use crate::volume::Volume;
use bytes::Bytes;
use call_compiler::dir_mtime::{is_root_child, renames_root_child};
use call_compiler::{Batch, Call, Reply, create, read, remove, rename, write};
use pathkey::{Errno, NoMemory, Path};
use reference::{Kind, PathCall};
use std::alloc::Global;

impl Volume {
    /// Creates an empty directory (POSIX.1-2017, mkdir).
    pub fn mkdir(&mut self, alloc: Global, path: &Path, at: u64) -> Result<(), Errno>
        ensures { Called (Call.Mkdir path.now) at (replied (λ _. Reply.Done) result) self.old self.new }
    {
        let compiled = create::mkdir(alloc, self.indexes(), path, at);
        done_or_errno(self.send(alloc, compiled, at, is_root_child(path)))
    }

    /// Creates an empty file (open with O_CREAT and O_EXCL, without a descriptor).
    pub fn create(&mut self, alloc: Global, path: &Path, at: u64) -> Result<(), Errno>
        ensures { Called (Call.Create path.now) at (replied (λ _. Reply.Done) result) self.old self.new }
    {
        let compiled = create::create(alloc, self.indexes(), path, at);
        done_or_errno(self.send(alloc, compiled, at, is_root_child(path)))
    }

    /// Writes bytes to a file at the offset, all of them or none (pwrite). Returns how many they are.
    pub fn write(
        &mut self,
        alloc: Global,
        path: &Path,
        offset: u64,
        bytes: &[u8],
        at: u64,
    ) -> Result<u64, Errno>
        ensures { Called (Call.Write path.now offset bytes.now) at (replied (λ n. Reply.Count n) result) self.old self.new }
    {
        match Bytes::copy_from_slice(alloc, bytes) {
            Ok(own) => self.write_shared(alloc, path, offset, &own, at),
            Err(_) => Err(Errno::ENOMEM),
        }
    }

    /// Writes shared bytes to a file at the offset, as `write` does, without copying them.
    pub fn write_shared(
        &mut self,
        alloc: Global,
        path: &Path,
        offset: u64,
        bytes: &Bytes,
        at: u64,
    ) -> Result<u64, Errno>
        ensures { Called (Call.Write path.now offset bytes.now) at (replied (λ n. Reply.Count n) result) self.old self.new }
    {
        let compiled = write::write(alloc, self.indexes(), path, offset, bytes, at);
        counted(self.send(alloc, compiled, at, false))
    }

    /// Truncates a file to `length` bytes, or extends it to them with zeros (truncate).
    pub fn truncate(
        &mut self,
        alloc: Global,
        path: &Path,
        length: u64,
        at: u64,
    ) -> Result<(), Errno>
        ensures { Called (Call.Truncate path.now length) at (replied (λ _. Reply.Done) result) self.old self.new }
    {
        let compiled = write::truncate(alloc, self.indexes(), path, length, at);
        done_or_errno(self.send(alloc, compiled, at, false))
    }

    /// Removes a file (unlink).
    pub fn unlink(&mut self, alloc: Global, path: &Path, at: u64) -> Result<(), Errno>
        ensures { Called (Call.Unlink path.now) at (replied (λ _. Reply.Done) result) self.old self.new }
    {
        let compiled = remove::unlink(alloc, self.indexes(), path, at);
        done_or_errno(self.send(alloc, compiled, at, is_root_child(path)))
    }

    /// Removes an empty directory (rmdir).
    pub fn rmdir(&mut self, alloc: Global, path: &Path, at: u64) -> Result<(), Errno>
        ensures { Called (Call.Rmdir path.now) at (replied (λ _. Reply.Done) result) self.old self.new }
    {
        let compiled = remove::rmdir(alloc, self.indexes(), path, at);
        done_or_errno(self.send(alloc, compiled, at, is_root_child(path)))
    }

    /// Renames a file, or a directory with everything below it (rename).
    pub fn rename(&mut self, alloc: Global, old: &Path, new: &Path, at: u64) -> Result<(), Errno>
        ensures { Called (Call.Rename old.now new.now) at (replied (λ _. Reply.Done) result) self.old self.new }
    {
        let compiled = rename::rename(alloc, self.indexes(), old, new, at);
        done_or_errno(self.send(alloc, compiled, at, renames_root_child(old, new)))
    }

    /// Removes a file, or a directory with everything below it.
    pub fn rmtree(&mut self, alloc: Global, path: &Path, at: u64) -> Result<(), Errno>
        ensures { Called (Call.Rmtree path.now) at (replied (λ _. Reply.Done) result) self.old self.new }
    {
        let compiled = remove::rmtree(alloc, self.indexes(), path, at);
        done_or_errno(self.send(alloc, compiled, at, is_root_child(path)))
    }

    /// Creates or removes the entry at a path, by a call that is chosen at run time.
    pub fn path_call(
        &mut self,
        alloc: Global,
        call: PathCall,
        path: &Path,
        at: u64,
    ) -> Result<(), Errno>
        ensures { Called (call_at call path.now) at (replied (λ _. Reply.Done) result) self.old self.new }
    {
        match call {
            PathCall::Mkdir => self.mkdir(alloc, path, at),
            PathCall::Create => self.create(alloc, path, at),
            PathCall::Unlink => self.unlink(alloc, path, at),
            PathCall::Rmdir => self.rmdir(alloc, path, at),
            PathCall::Rmtree => self.rmtree(alloc, path, at),
        }
    }

    /// Reads at most `count` bytes of a file from the offset on, none past its end (pread).
    pub fn read(
        &self,
        alloc: Global,
        path: &Path,
        offset: u64,
        count: u64,
    ) -> Result<Vec<u8>, Errno>
        ensures { (at : ℕ) → Called (Call.Read path.now offset count) at (replied (λ bytes. Reply.Data bytes.items) result) self.now self.now }
    {
        let compiled = read::read(alloc, self.indexes(), path, offset, count);
        data(self.look(compiled))
    }

    /// The kind of the entry at a path, a file's length in bytes (0 for a directory), and the mtime (stat).
    pub fn stat(&self, alloc: Global, path: &Path) -> Result<(Kind, u64, u64), Errno>
        ensures { (at : ℕ) → Called (Call.Stat path.now) at (replied (λ s. Reply.Stat s.0 s.1 s.2) result) self.now self.now }
    {
        let compiled = read::stat(alloc, self.indexes(), path);
        status(self.look(compiled))
    }

    /// The entries of a directory: kind and name of each, in byte order of names (readdir).
    pub fn readdir(&self, alloc: Global, path: &Path) -> Result<Vec<(Kind, Vec<u8>)>, Errno>
        ensures { (at : ℕ) → Called (Call.Readdir path.now) at (replied (λ es. Reply.Names (pairs_of es.items)) result) self.now self.now }
    {
        let compiled = read::readdir(alloc, self.indexes(), path);
        names(self.look(compiled))
    }

    /// The reply of a compiled call that only reads.
    fn look(&self, compiled: Result<(Reply, Batch), NoMemory>) -> Reply
        ensures called { (c : FileCall) (at : ℕ) → Looks c → Compiles self.now.live.indexes c at compiled → Called c at result self.now self.now }
        ensures kind { (c : FileCall) (at : ℕ) → Compiles self.now.live.indexes c at compiled → IsOfKind c result }
    {
        self.assert_invariant();
        match compiled {
            Ok((reply, _)) => reply,
            Err(NoMemory) => Reply::Fault(Errno::ENOMEM),
        }
    }
}

impl Frozen {
    /// The reply of `read`, as the bytes or the error.
    pub fn try_read(
        &self,
        alloc: Global,
        path: &Path,
        offset: u64,
        count: u64,
    ) -> Result<Vec<u8>, Errno>
        ensures { Tells (Call.Read path.now offset count) (replied (λ bytes. Reply.Data bytes.items) result) self.now }
    {
        self.assert_invariant();
        data(self.read(alloc, path, offset, count))
    }

    /// The reply of `stat`, as the metadata of the entry or the error.
    pub fn try_stat(&self, alloc: Global, path: &Path) -> Result<(Kind, u64, u64), Errno>
        ensures { Tells (Call.Stat path.now) (replied (λ s. Reply.Stat s.0 s.1 s.2) result) self.now }
    {
        self.assert_invariant();
        status(self.stat(alloc, path))
    }

    /// The reply of `readdir`, as the entries or the error.
    pub fn try_readdir(&self, alloc: Global, path: &Path) -> Result<Vec<(Kind, Vec<u8>)>, Errno>
        ensures { Tells (Call.Readdir path.now) (replied (λ es. Reply.Names (pairs_of es.items)) result) self.now }
    {
        self.assert_invariant();
        names(self.readdir(alloc, path))
    }
}

// The result for a reply that is `Done` or an error.
pub(crate) fn done_or_errno(reply: Reply) -> Result<(), Errno>
    requires { IsSettled reply }
    ensures { replied (λ _. Reply.Done) result ≡ reply }
{
    match reply {
        Reply::Fault(fault) => Err(fault),
        // `Done`: no other reply is possible here.
        _ => Ok(()),
    }
}

// The result for the reply to a write.
pub(crate) fn counted(reply: Reply) -> Result<u64, Errno>
    requires { IsCount reply }
    ensures { replied (λ n. Reply.Count n) result ≡ reply }
{
    match reply {
        Reply::Count(count) => Ok(count),
        Reply::Fault(fault) => Err(fault),
        _ => unreachable!(),
    }
}

// The result for the reply to a read.
fn data(reply: Reply) -> Result<Vec<u8>, Errno>
    requires { IsData reply }
    ensures { replied (λ bytes. Reply.Data bytes.items) result ≡ reply }
{
    match reply {
        Reply::Data(bytes) => Ok(bytes.into_vec()),
        Reply::Fault(fault) => Err(fault),
        _ => unreachable!(),
    }
}

// The result for the reply to a stat.
fn status(reply: Reply) -> Result<(Kind, u64, u64), Errno>
    requires { IsStat reply }
    ensures { replied (λ s. Reply.Stat s.0 s.1 s.2) result ≡ reply }
{
    match reply {
        Reply::Stat(kind, length, modified) => Ok((kind, length, modified)),
        Reply::Fault(fault) => Err(fault),
        _ => unreachable!(),
    }
}

// The result for the reply to a listing.
fn names(reply: Reply) -> Result<Vec<(Kind, Vec<u8>)>, Errno>
    requires { IsNames reply }
    ensures { replied (λ es. Reply.Names (pairs_of es.items)) result ≡ reply }
{
    match reply {
        Reply::Names(entries) => Ok(entries.into_vec()),
        Reply::Fault(fault) => Err(fault),
        _ => unreachable!(),
    }
}
