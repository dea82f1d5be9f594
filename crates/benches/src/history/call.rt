//! The calls of a client, with numbers for paths and snapshots.

/// A call on paths.
#[derive(Clone, Copy)]
pub enum PathRequest {
    /// Creates a directory.
    Mkdir(usize),
    /// Creates an empty file.
    Create(usize),
    /// Writes a mark at an offset.
    Write(usize, u64, u64),
    /// Truncates or extends a file.
    Truncate(usize, u64),
    /// Removes a file.
    Unlink(usize),
    /// Removes an empty directory.
    Rmdir(usize),
    /// Renames the first path to the second.
    Rename(usize, usize),
    /// Removes a path with everything below it.
    Rmtree(usize),
    /// Reads the bytes of all marks.
    Read(usize),
    /// Reads kind, length and mtime.
    Stat(usize),
    /// Lists a directory.
    Readdir(usize),
}

/// A call on paths, or on the whole tree.
#[derive(Clone, Copy)]
pub enum Request {
    /// On paths.
    Path(PathRequest),
    /// Takes a snapshot under the name with this number.
    Keep(usize),
    /// Drops the snapshot of this name.
    Drop(usize),
    /// Restores the snapshot of this name.
    Restore(usize),
    /// Reads all paths of the snapshot of this name.
    Look(usize),
    /// Reads all paths of the live tree.
    Scan,
}
