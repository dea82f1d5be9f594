//! The calls that create or remove an entry at one path, by their kind alone.
//!
//! They have the same parameters and reply, so the layers above handle them together.

/// A call that creates or removes an entry at one path, and returns nothing.
#[derive(Clone, Copy, Debug, PartialEq, Eq)]
pub enum PathCall {
    /// Creates an empty directory.
    Mkdir,
    /// Creates an empty file.
    Create,
    /// Removes a file.
    Unlink,
    /// Removes an empty directory.
    Rmdir,
    /// Removes a file, or a directory and all entries below it.
    Rmtree,
}
