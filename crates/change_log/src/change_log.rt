//! The log of both indexes, with the position at which each snapshot was taken.
//!
//! Invariant (`ArePast`): the log was at each position.
ghost use Rattle.std.specs.Prelude.{◌≡◌, ◌⊎◌, ◌++◌, ◌∷◌, [], IfOk, IfSome, map};
ghost use Rattle.change_log.specs.KeyLogs.{earlier};
ghost use Rattle.change_log.specs.Snapshots.{AnswersSince, IsPositionOf, Notes, Restores, lowered, nothing_since, without};

use crate::key_log::{KeyLog, LogPosition};
use crate::touched_keys::Changes;
use message::{Msg, Update};
use pathkey::{NoMemory, SnapName};
use std::alloc::Global;
use std::marker::Model;

/// Where the log was when a snapshot was taken.
#[derive(Drop)]
pub struct SnapshotPosition {
    /// The name of the snapshot.
    pub name: SnapName,
    /// The position in the log of the metadata index.
    pub meta: LogPosition,
    /// The position in the log of the block index.
    pub block: LogPosition,
}

/// What was touched in both indexes since each snapshot was taken. Contracts see a list with an entry for each snapshot.
#[derive(Drop)]
pub struct ChangeLog {
    meta: KeyLog,
    block: KeyLog,
    snapshots: Vec<SnapshotPosition>,
}

impl Model for ChangeLog {
    ghost use Rattle.std.specs.Prelude.{List, map};
    ghost use Rattle.change_log.specs.Codes.{coded_log};
    ghost use Rattle.change_log.specs.Snapshots.{ArePast, Since, since_position};

    ghost Value = { List Since };

    ghost coded = { coded_log };

    ghost view = { λ l. map (λ p. since_position l.meta l.block p) l.snapshots.items };

    ghost invariant = { λ l. ArePast l.meta l.block l.snapshots.items };
}

impl ChangeLog {
    /// A log without snapshots. It allocates nothing.
    pub fn new(alloc: Global) -> ChangeLog
        ensures { result ≡ [] }
    {
        ChangeLog {
            meta: KeyLog::new(alloc),
            block: KeyLog::new(alloc),
            snapshots: Vec::new(alloc),
        }
    }

    /// Appends what the messages to the metadata index and to the block index touch, unless no snapshot is known. If the log is
    /// full or an allocation fails, it forgets all snapshots.
    pub fn note<U: Update, W: Update>(&mut self, alloc: Global, meta: &[Msg<U>], block: &[Msg<W>])
        ensures { Notes meta.now block.now self.old self.new }
    {
        if self.snapshots.is_empty() {
            return;
        }
        if self.meta.note(alloc, meta).is_err() || self.block.note(alloc, block).is_err() {
            self.snapshots.clear();
        }
    }

    /// A snapshot of that name was taken. If an allocation fails it is not known.
    pub fn begin(&mut self, alloc: Global, name: &SnapName)
        ensures { (self.new ≡ self.old ++ nothing_since name.now ∷ []) ⊎ (self.new ≡ self.old) }
    {
        self.clear_unused();
        if let Ok(name) = name.copy(alloc) {
            let _result = self.snapshots.push(SnapshotPosition {
                name,
                meta: self.meta.end(),
                block: self.block.end(),
            });
        }
    }

    /// Removes all keys and ranges if no snapshot is known. It allocates nothing.
    fn clear_unused(&mut self)
        ensures { self.new ≡ self.old }
    {
        if self.snapshots.is_empty() {
            self.meta.clear();
            self.block.clear();
        }
    }

    /// Forgets the snapshot of that name. It allocates nothing.
    pub fn forget(&mut self, name: &SnapName)
        ensures { self.new ≡ without name.now self.old }
    {
        self.snapshots.retain(|position| position.name != *name);
    }

    /// Forgets all snapshots. It allocates nothing.
    pub fn forget_all(&mut self)
        ensures { self.new ≡ [] }
    {
        self.snapshots.clear();
    }

    /// The live tree became that of the snapshot of that name: what was touched since that one was taken may now differ from each
    /// snapshot, also from a later one. If it is not known, all snapshots are forgotten. It allocates nothing.
    pub fn restore(&mut self, name: &SnapName)
        ensures { Restores name.now self.old self.new }
    {
        match position_of(self.snapshots.as_slice(), name) {
            Some((meta, block)) => lower_all(self.snapshots.as_mut_slice(), meta, block),
            None => self.snapshots.clear(),
        }
    }

    /// What was touched since the snapshot of that name was taken; all keys if it is not known. It fails only if an allocation
    /// fails.
    pub fn since(&self, alloc: Global, name: &SnapName) -> Result<Changes, NoMemory>
        ensures { IfOk result (λ c. AnswersSince name.now c self.now) }
    {
        for position in &self.snapshots {
            if position.name == *name {
                let meta = self.meta.since(alloc, position.meta)?;
                let block = self.block.since(alloc, position.block)?;
                return Ok(Changes::Within(meta, block));
            }
        }
        Ok(Changes::All)
    }
}

/// The position of the snapshot of that name in both logs.
fn position_of(
    snapshots: &[SnapshotPosition],
    name: &SnapName,
) -> Option<(LogPosition, LogPosition)>
    ensures { IfSome result (λ at. IsPositionOf name.now at.0 at.1 snapshots.now) }
{
    for position in snapshots {
        if position.name == *name {
            return Some((position.meta, position.block));
        }
    }
    None
}

/// Moves each position that is later to this one.
fn lower_all(snapshots: &mut [SnapshotPosition], meta: LogPosition, block: LogPosition)
    ensures { snapshots.new ≡ map (λ p. lowered meta block p) snapshots.old }
{
    let Some((position, others)) = snapshots.split_first_mut() else {
        return;
    };
    position.meta = earlier(position.meta, meta);
    position.block = earlier(position.block, block);
    lower_all(others, meta, block);
}

/// The earlier of two positions.
fn earlier(one: LogPosition, other: LogPosition) -> LogPosition
    ensures { result ≡ earlier one other }
{
    LogPosition {
        keys: one.keys.min(other.keys),
        ranges: one.ranges.min(other.ranges),
    }
}
