//! The operations of the typed file calls: one struct for all calls that create or remove an entry at a path, and one for
//! each other call.

use crate::operation::Operation;
use pathkey::{Errno, Path};
use reference::{Kind, PathCall};
use std::alloc::Global;
use volume::Volume;

/// Creates or removes the entry at a path, with a timestamp.
#[derive(Drop)]
pub struct PathOp<'a> {
    pub alloc: Global,
    pub call: PathCall,
    pub path: &'a Path,
    pub at: u64,
}

impl<'a> Operation for PathOp<'a> {
    ghost use Rattle.reference.specs.PathCalls.{call_at};
    ghost use Rattle.reference.specs.Worlds.{Ask, Replied};
    ghost use Rattle.reference.specs.declared.reply.Reply.TheVariants.{Done};
    ghost use Rattle.volume.specs.Typed.{replied};

    type Reply = Result<(), Errno>;

    ghost event = { λ s. Ask (call_at s.call s.path.now) s.at };

    ghost answer = { λ r. Replied (replied (λ _. Done) r) };

    fn execute(&self, volume: &mut Volume) -> Result<(), Errno> {
        volume.path_call(self.alloc, self.call, self.path, self.at)
    }
}

/// Truncates or extends a file, with a timestamp.
#[derive(Drop)]
pub struct TruncateOp<'a> {
    pub alloc: Global,
    pub path: &'a Path,
    pub length: u64,
    pub at: u64,
}

impl<'a> Operation for TruncateOp<'a> {
    ghost use Rattle.reference.specs.Worlds.{Ask, Replied};
    ghost use Rattle.reference.specs.declared.call.Call.TheVariants.{Truncate};
    ghost use Rattle.reference.specs.declared.reply.Reply.TheVariants.{Done};
    ghost use Rattle.volume.specs.Typed.{replied};

    type Reply = Result<(), Errno>;

    ghost event = { λ s. Ask (Truncate s.path.now s.length) s.at };

    ghost answer = { λ r. Replied (replied (λ _. Done) r) };

    fn execute(&self, volume: &mut Volume) -> Result<(), Errno> {
        volume.truncate(self.alloc, self.path, self.length, self.at)
    }
}

/// Renames an entry, with a timestamp.
#[derive(Drop)]
pub struct RenameOp<'a> {
    pub alloc: Global,
    pub old: &'a Path,
    pub new: &'a Path,
    pub at: u64,
}

impl<'a> Operation for RenameOp<'a> {
    ghost use Rattle.reference.specs.Worlds.{Ask, Replied};
    ghost use Rattle.reference.specs.declared.call.Call.TheVariants.{Rename};
    ghost use Rattle.reference.specs.declared.reply.Reply.TheVariants.{Done};
    ghost use Rattle.volume.specs.Typed.{replied};

    type Reply = Result<(), Errno>;

    ghost event = { λ s. Ask (Rename s.old.now s.new.now) s.at };

    ghost answer = { λ r. Replied (replied (λ _. Done) r) };

    fn execute(&self, volume: &mut Volume) -> Result<(), Errno> {
        volume.rename(self.alloc, self.old, self.new, self.at)
    }
}

/// Writes bytes to a file, with a timestamp.
#[derive(Drop)]
pub struct WriteOp<'a> {
    pub alloc: Global,
    pub path: &'a Path,
    pub offset: u64,
    pub bytes: &'a [u8],
    pub at: u64,
}

impl<'a> Operation for WriteOp<'a> {
    ghost use Rattle.reference.specs.Worlds.{Ask, Replied};
    ghost use Rattle.reference.specs.declared.call.Call.TheVariants.{Write};
    ghost use Rattle.reference.specs.declared.reply.Reply.TheVariants.{Count};
    ghost use Rattle.volume.specs.Typed.{replied};

    type Reply = Result<u64, Errno>;

    ghost event = { λ s. Ask (Write s.path.now s.offset s.bytes.now) s.at };

    ghost answer = { λ r. Replied (replied (λ n. Count n) r) };

    fn execute(&self, volume: &mut Volume) -> Result<u64, Errno> {
        volume.write(self.alloc, self.path, self.offset, self.bytes, self.at)
    }
}

/// Reads bytes of a file.
#[derive(Drop)]
pub struct ReadOp<'a> {
    pub alloc: Global,
    pub path: &'a Path,
    pub offset: u64,
    pub count: u64,
}

impl<'a> Operation for ReadOp<'a> {
    ghost use Rattle.reference.specs.Worlds.{Ask, Replied};
    ghost use Rattle.reference.specs.declared.call.Call.TheVariants.{Read};
    ghost use Rattle.reference.specs.declared.reply.Reply.TheVariants.{Data};
    ghost use Rattle.volume.specs.Typed.{replied};

    type Reply = Result<Vec<u8>, Errno>;

    ghost event = { λ s. Ask (Read s.path.now s.offset s.count) 0 };

    ghost answer = { λ r. Replied (replied (λ bytes. Data bytes.items) r) };

    fn execute(&self, volume: &mut Volume) -> Result<Vec<u8>, Errno> {
        volume.read(self.alloc, self.path, self.offset, self.count)
    }
}

/// Looks up the entry at a path.
#[derive(Drop)]
pub struct StatOp<'a> {
    pub alloc: Global,
    pub path: &'a Path,
}

impl<'a> Operation for StatOp<'a> {
    ghost use Rattle.reference.specs.Worlds.{Ask, Replied};
    ghost use Rattle.reference.specs.declared.call.Call.TheVariants.{Stat as AskStat};
    ghost use Rattle.reference.specs.declared.reply.Reply.TheVariants.{Stat};
    ghost use Rattle.volume.specs.Typed.{replied};

    type Reply = Result<(Kind, u64, u64), Errno>;

    ghost event = { λ s. Ask (AskStat s.path.now) 0 };

    ghost answer = { λ r. Replied (replied (λ s. Stat s.0 s.1 s.2) r) };

    fn execute(&self, volume: &mut Volume) -> Result<(Kind, u64, u64), Errno> {
        volume.stat(self.alloc, self.path)
    }
}

/// Lists the entries of a directory.
#[derive(Drop)]
pub struct ReaddirOp<'a> {
    pub alloc: Global,
    pub path: &'a Path,
}

impl<'a> Operation for ReaddirOp<'a> {
    ghost use Rattle.reference.specs.Pairs.{pairs_of};
    ghost use Rattle.reference.specs.Worlds.{Ask, Replied};
    ghost use Rattle.reference.specs.declared.call.Call.TheVariants.{Readdir};
    ghost use Rattle.reference.specs.declared.reply.Reply.TheVariants.{Names};
    ghost use Rattle.volume.specs.Typed.{replied};

    type Reply = Result<Vec<(Kind, Vec<u8>)>, Errno>;

    ghost event = { λ s. Ask (Readdir s.path.now) 0 };

    ghost answer = { λ r. Replied (replied (λ es. Names (pairs_of es.items)) r) };

    fn execute(&self, volume: &mut Volume) -> Result<Vec<(Kind, Vec<u8>)>, Errno> {
        volume.readdir(self.alloc, self.path)
    }
}
