//! The types of edits.

use bytes::Bytes;
use pathkey::Path;
use reference::Meta;

/// What an edit does to the entry at its path.
#[derive(Drop)]
pub enum Change {
    /// Removes the entry with this metadata: a file, or an empty directory.
    Remove(Meta),
    /// Adds an entry: an empty directory, or a file of zeros.
    Add(Meta),
    /// Changes the mtime of a directory, or the length and the mtime of a file, from the first to the second. A file is cut, or extended
    /// with zeros.
    Alter(Meta, Meta),
    /// Rewrites a block of a file: its number, the SHA-256 digest of its old bytes without zeros at the end (none if there are none),
    /// and its new bytes, behind which the rest of the block is zeros. The file's mtime stays.
    Block(u64, Option<[u8; 32]>, Bytes),
}

/// A change of the entry at one path. Mtimes of other entries, as that of the parent, stay.
#[derive(Drop)]
pub struct Edit {
    /// The path.
    pub path: Path,
    /// What is changed there.
    pub change: Change,
}
