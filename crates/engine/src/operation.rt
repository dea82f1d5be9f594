//! The operations that a client does on the volume under the lock. Each is recorded in the history exactly once, with
//! its answer.
ghost use Rattle.engine.specs.Takings.{Spares};
ghost use Rattle.volume.specs.Changes.{Leads};
ghost use Rattle.volume.specs.Volumes.{live_of};

use pathkey::{Errno, SnapName};
use reference::{Call, Reply};
use std::alloc::Global;
use volume::Volume;

/// An operation that is recorded, whatever its reply. Contracts see it and its reply as the event and the answer of a
/// history.
pub trait Operation {
    ghost use Rattle.reference.specs.Worlds.{Event, Answer};

    /// The reply of the volume.
    type Reply: Drop;

    /// The event of the history.
    ghost event: { Self → Event };

    /// The answer of the history.
    ghost answer: { Self.Reply → Answer };

    /// Does the operation. The answer is legal in each world that the volume abstracted to, and the volume then abstracts to
    /// the next world. Every mark that exists afterwards existed before, and its slot has the same content.
    fn execute(&self, volume: &mut Volume) -> Self::Reply
        ensures leads { Leads (event self.now) (answer result) volume.old volume.new }
        ensures spares { Spares (live_of volume.old) (live_of volume.new) };
}

/// A file call with a timestamp.
#[derive(Drop)]
pub struct FileCall<'a> {
    pub alloc: Global,
    pub call: &'a Call,
    pub at: u64,
}

impl<'a> Operation for FileCall<'a> {
    ghost use Rattle.reference.specs.Worlds.{Ask, Replied};

    type Reply = Reply;

    ghost event = { λ s. Ask s.call.now s.at };

    ghost answer = { λ r. Replied r };

    fn execute(&self, volume: &mut Volume) -> Reply {
        volume.call(self.alloc, self.call, self.at)
    }
}

/// Takes a snapshot of the live tree under a name.
#[derive(Drop)]
pub struct SnapshotOp<'a> {
    pub alloc: Global,
    pub name: &'a SnapName,
}

impl<'a> Operation for SnapshotOp<'a> {
    ghost use Rattle.reference.specs.Worlds.{TakeSnapshot, Settled};

    type Reply = Result<(), Errno>;

    ghost event = { λ s. TakeSnapshot s.name.now };

    ghost answer = { λ r. Settled r };

    fn execute(&self, volume: &mut Volume) -> Result<(), Errno> {
        volume.snapshot(self.alloc, self.name)
    }
}

/// Removes the snapshot of a name.
#[derive(Drop)]
pub struct DropSnapshotOp<'a> {
    pub name: &'a SnapName,
}

impl<'a> Operation for DropSnapshotOp<'a> {
    ghost use Rattle.reference.specs.Worlds.{DropSnapshot, Settled};

    type Reply = Result<(), Errno>;

    ghost event = { λ s. DropSnapshot s.name.now };

    ghost answer = { λ r. Settled r };

    fn execute(&self, volume: &mut Volume) -> Result<(), Errno> {
        volume.drop_snapshot(self.name)
    }
}

/// Replaces the live tree by that of a snapshot.
#[derive(Drop)]
pub struct RestoreOp<'a> {
    pub name: &'a SnapName,
}

impl<'a> Operation for RestoreOp<'a> {
    ghost use Rattle.reference.specs.Worlds.{RestoreSnapshot, Settled};

    type Reply = Result<(), Errno>;

    ghost event = { λ s. RestoreSnapshot s.name.now };

    ghost answer = { λ r. Settled r };

    fn execute(&self, volume: &mut Volume) -> Result<(), Errno> {
        volume.restore(self.name)
    }
}
