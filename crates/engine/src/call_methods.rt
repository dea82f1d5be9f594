//! The file calls of a client, one method for each call. A reply of the call is `Ok`, and a fault is `Err`, so `?` works.
//!
//! Each method runs the volume's method of the same name under the lock. So no path is copied, and the type of the result
//! says which reply the call has. As with `Client::call`, a call is recorded once. A call that only reads is recorded with
//! the timestamp 0, which changes no reply.
ghost use Rattle.reference.specs.Pairs.{pairs_of};
ghost use Rattle.reference.specs.PathCalls.{call_at};
ghost use Rattle.reference.specs.Worlds.{Ask, Replied};
ghost use Rattle.engine.specs.Clients.{Calls};
ghost use Rattle.volume.specs.Typed.{replied};

use crate::client::Client;
use crate::engine_rule::EngineId;
use crate::path_ops::{PathOp, ReadOp, ReaddirOp, RenameOp, StatOp, TruncateOp, WriteOp};
use pathkey::{Errno, Path};
use reference::{Call, Kind, PathCall, Reply};
use std::alloc::Global;
use std::sync::Wait;

impl<J: EngineId> Client<J> {
    // Does one of the calls that create or remove an entry at a path.
    fn path_call<R: Wait>(
        &mut self,
        rt: &R,
        alloc: Global,
        call: PathCall,
        path: &Path,
        at: u64,
    ) -> Result<(), Errno>
        ensures { Calls J.opening self.old (Ask (call_at call path.now) at) (Replied (replied (λ _. Reply.Done) result)) self.new }
    {
        self.record_call(
            rt,
            &PathOp {
                alloc,
                call,
                path,
                at,
            },
        )
    }

    /// Creates an empty directory (POSIX.1-2017, mkdir).
    pub fn mkdir<R: Wait>(
        &mut self,
        rt: &R,
        alloc: Global,
        path: &Path,
        at: u64,
    ) -> Result<(), Errno>
        ensures { Calls J.opening self.old (Ask (Call.Mkdir path.now) at) (Replied (replied (λ _. Reply.Done) result)) self.new }
    {
        self.path_call(rt, alloc, PathCall::Mkdir, path, at)
    }

    /// Creates an empty file if the path does not exist (open with O_CREAT and O_EXCL, without a descriptor).
    pub fn create<R: Wait>(
        &mut self,
        rt: &R,
        alloc: Global,
        path: &Path,
        at: u64,
    ) -> Result<(), Errno>
        ensures { Calls J.opening self.old (Ask (Call.Create path.now) at) (Replied (replied (λ _. Reply.Done) result)) self.new }
    {
        self.path_call(rt, alloc, PathCall::Create, path, at)
    }

    /// Overwrites a file from the offset with all the bytes or with none (pwrite). Returns the number of bytes.
    pub fn write<R: Wait>(
        &mut self,
        rt: &R,
        alloc: Global,
        path: &Path,
        offset: u64,
        bytes: &[u8],
        at: u64,
    ) -> Result<u64, Errno>
        ensures { Calls J.opening self.old (Ask (Call.Write path.now offset bytes.now) at) (Replied (replied (λ n. Reply.Count n) result)) self.new }
    {
        self.record_call(
            rt,
            &WriteOp {
                alloc,
                path,
                offset,
                bytes,
                at,
            },
        )
    }

    /// Truncates a file to the given length in bytes, or extends it to that length with zeros (truncate).
    pub fn truncate<R: Wait>(
        &mut self,
        rt: &R,
        alloc: Global,
        path: &Path,
        length: u64,
        at: u64,
    ) -> Result<(), Errno>
        ensures { Calls J.opening self.old (Ask (Call.Truncate path.now length) at) (Replied (replied (λ _. Reply.Done) result)) self.new }
    {
        self.record_call(
            rt,
            &TruncateOp {
                alloc,
                path,
                length,
                at,
            },
        )
    }

    /// Removes a file (unlink).
    pub fn unlink<R: Wait>(
        &mut self,
        rt: &R,
        alloc: Global,
        path: &Path,
        at: u64,
    ) -> Result<(), Errno>
        ensures { Calls J.opening self.old (Ask (Call.Unlink path.now) at) (Replied (replied (λ _. Reply.Done) result)) self.new }
    {
        self.path_call(rt, alloc, PathCall::Unlink, path, at)
    }

    /// Removes an empty directory (rmdir).
    pub fn rmdir<R: Wait>(
        &mut self,
        rt: &R,
        alloc: Global,
        path: &Path,
        at: u64,
    ) -> Result<(), Errno>
        ensures { Calls J.opening self.old (Ask (Call.Rmdir path.now) at) (Replied (replied (λ _. Reply.Done) result)) self.new }
    {
        self.path_call(rt, alloc, PathCall::Rmdir, path, at)
    }

    /// Renames a file or directory from the first path to the second (rename).
    pub fn rename<R: Wait>(
        &mut self,
        rt: &R,
        alloc: Global,
        old: &Path,
        new: &Path,
        at: u64,
    ) -> Result<(), Errno>
        ensures { Calls J.opening self.old (Ask (Call.Rename old.now new.now) at) (Replied (replied (λ _. Reply.Done) result)) self.new }
    {
        self.record_call(
            rt,
            &RenameOp {
                alloc,
                old,
                new,
                at,
            },
        )
    }

    /// Removes a file, or a directory with everything below it.
    pub fn rmtree<R: Wait>(
        &mut self,
        rt: &R,
        alloc: Global,
        path: &Path,
        at: u64,
    ) -> Result<(), Errno>
        ensures { Calls J.opening self.old (Ask (Call.Rmtree path.now) at) (Replied (replied (λ _. Reply.Done) result)) self.new }
    {
        self.path_call(rt, alloc, PathCall::Rmtree, path, at)
    }

    /// Returns the bytes of a file from the offset, at most `count` of them and none past its end (pread).
    pub fn read<R: Wait>(
        &mut self,
        rt: &R,
        alloc: Global,
        path: &Path,
        offset: u64,
        count: u64,
    ) -> Result<Vec<u8>, Errno>
        ensures { Calls J.opening self.old (Ask (Call.Read path.now offset count) 0) (Replied (replied (λ bytes. Reply.Data bytes.items) result)) self.new }
    {
        self.record_call(
            rt,
            &ReadOp {
                alloc,
                path,
                offset,
                count,
            },
        )
    }

    /// Returns the kind of an entry, a file's length in bytes (0 for a directory), and its mtime (stat).
    pub fn stat<R: Wait>(
        &mut self,
        rt: &R,
        alloc: Global,
        path: &Path,
    ) -> Result<(Kind, u64, u64), Errno>
        ensures { Calls J.opening self.old (Ask (Call.Stat path.now) 0) (Replied (replied (λ s. Reply.Stat s.0 s.1 s.2) result)) self.new }
    {
        self.record_call(rt, &StatOp { alloc, path })
    }

    /// Returns the kind and the name of each entry of a directory, in byte order of names (readdir).
    pub fn readdir<R: Wait>(
        &mut self,
        rt: &R,
        alloc: Global,
        path: &Path,
    ) -> Result<Vec<(Kind, Vec<u8>)>, Errno>
        ensures { Calls J.opening self.old (Ask (Call.Readdir path.now) 0) (Replied (replied (λ es. Reply.Names (pairs_of es.items)) result)) self.new }
    {
        self.record_call(rt, &ReaddirOp { alloc, path })
    }
}
