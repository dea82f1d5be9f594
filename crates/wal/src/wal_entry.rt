//! The changes that a log records. Each is a call of the volume, or a text of edits of it, so a replay has the contract of that
//! call.

use bytes::Bytes;
use pathkey::{Path, SnapName};
use reference::PathCall;

/// What a snapshot call does with the snapshot of its name.
#[derive(Clone, Copy, Debug, PartialEq, Eq)]
pub enum SnapshotCall {
    /// Takes a snapshot of the live tree under the name.
    Snapshot,
    /// Removes the snapshot.
    Remove,
    /// Replaces the live tree by that of the snapshot.
    Restore,
}

/// A change of a volume. The last number of a variant, if it has one, is a timestamp. Offsets and lengths are in bytes.
#[derive(Debug, Drop)]
pub enum WalEntry {
    /// Creates or removes an entry at a path.
    OnPath(PathCall, Path, u64),
    /// Renames an entry from the first path to the second.
    Rename(Path, Path, u64),
    /// Truncates a file to the length, or extends it with zeros.
    Truncate(Path, u64, u64),
    /// Writes the bytes to a file at the offset.
    Write(Path, u64, Bytes, u64),
    /// Overwrites the given number of bytes at the offset with zeros, as far as the file reaches.
    Punch(Path, u64, u64, u64),
    /// Sets the mtime of the entry at a path.
    SetMtime(Path, u64),
    /// Copies bytes from the first path and offset to the second path and offset: the given number, as far as the first file
    /// reaches.
    CopyRange(Path, u64, Path, u64, u64, u64),
    /// Takes, removes or restores the snapshot of a name.
    Keep(SnapshotCall, SnapName),
    /// Applies a text of edits, all of them or none. Whether the bytes are such a text is found when they are applied.
    Edits(Bytes),
}
