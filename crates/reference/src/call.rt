//! The eleven file calls.
//!
//! `docs/PROFILE.md` says which errors each call returns, and in which order.

use bytes::Bytes;
use pathkey::Path;

/// A file call. Offsets and lengths are in bytes.
#[derive(Debug, Drop)]
pub enum Call {
    /// Creates an empty directory (POSIX.1-2017, mkdir).
    Mkdir(Path),
    /// Creates an empty file; fails if the path exists (open with O_CREAT and O_EXCL, without a descriptor).
    Create(Path),
    /// Writes bytes to a file at an offset (pwrite).
    Write(Path, u64, Bytes),
    /// Truncates a file to the length, or extends it with zeros (truncate).
    Truncate(Path, u64),
    /// Removes a file (unlink).
    Unlink(Path),
    /// Removes an empty directory (rmdir).
    Rmdir(Path),
    /// Moves the entry at the first path to the second (rename).
    Rename(Path, Path),
    /// Removes a file, or a directory and all entries below it.
    Rmtree(Path),
    /// Reads at most the given number of bytes at an offset (pread).
    Read(Path, u64, u64),
    /// Returns the kind, the length and the mtime of an entry (stat).
    Stat(Path),
    /// Lists a directory (readdir, in byte order of names).
    Readdir(Path),
}
