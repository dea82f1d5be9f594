//! The replies of file calls.
//!
//! Replies are compared as data: contracts see the bytes and the names in them as lists, without their capacity.
ghost use Rattle.std.specs.Prelude.{◌≡◌, ◌∷◌, [], map};

use pathkey::Errno;
use std::marker::Model;

/// The kind of an entry: a directory or a file.
#[derive(Clone, Copy, Debug, PartialEq, Eq)]
pub enum Kind {
    /// A directory.
    Dir,
    /// A file.
    File,
}

/// The metadata of a path.
#[derive(Clone, Copy, Debug, PartialEq, Eq)]
pub enum Meta {
    /// A directory.
    Dir {
        /// The mtime.
        modified: u64,
    },
    /// A file of `len` bytes.
    File {
        /// The file's length in bytes.
        len: u64,
        /// The mtime.
        modified: u64,
    },
}

/// The bytes that a read returned. Contracts see them as a list, so that replies are compared by plain equality.
#[derive(Debug)]
pub struct FileBytes {
    bytes: Vec<u8>,
}

// Drop is implemented by hand, as for `pathkey::Key`.
impl Drop for FileBytes {
    fn drop(self) {
        let FileBytes { bytes: _ } = self;
    }
}

impl Model for FileBytes {
    ghost use Rattle.std.specs.Prelude.{List, ℕ};

    ghost Value = { List ℕ };

    ghost view = { λ d. d.bytes.items };
}

impl FileBytes {
    /// Wraps the bytes.
    pub fn from_vec(bytes: Vec<u8>) -> FileBytes
        ensures { result ≡ bytes.items }
    {
        FileBytes { bytes }
    }

    /// The bytes, as a slice.
    pub fn as_slice(&self) -> &[u8]
        ensures { result.now ≡ self.now }
    {
        self.bytes.as_slice()
    }

    /// Converts it into the vector of the bytes.
    pub fn into_vec(self) -> Vec<u8>
        ensures { result.items ≡ self }
    {
        let FileBytes { bytes } = self;
        bytes
    }
}

/// The entries of a directory: kind and name of each, in byte order of names. Contracts see them as a list.
#[derive(Debug)]
pub struct Listing {
    entries: Vec<(Kind, Vec<u8>)>,
}

// Drop is implemented by hand, as for `pathkey::Key`.
impl Drop for Listing {
    fn drop(self) {
        let Listing { entries: _ } = self;
    }
}

impl Model for Listing {
    ghost use Rattle.std.specs.Prelude.{List, ℕ};
    ghost use Rattle.reference.specs.declared.reply.Kind.{Kind};
    ghost use Rattle.reference.specs.Pairs.{pairs_of};

    ghost Value = { List (Kind × List ℕ) };

    ghost view = { λ l. pairs_of l.entries.items };
}

impl Listing {
    ghost use Rattle.reference.specs.Pairs.{pairs_of};

    /// Wraps the kinds and names.
    pub fn from_vec(entries: Vec<(Kind, Vec<u8>)>) -> Listing
        ensures { result ≡ pairs_of entries.items }
    {
        Listing { entries }
    }

    /// The kinds and names, as a slice.
    pub fn as_slice(&self) -> &[(Kind, Vec<u8>)]
        ensures { pairs_of result.now ≡ self.now }
    {
        self.entries.as_slice()
    }

    /// Converts it into the vector of the kinds and names.
    pub fn into_vec(self) -> Vec<(Kind, Vec<u8>)>
        ensures { pairs_of result.items ≡ self }
    {
        let Listing { entries } = self;
        entries
    }
}

/// The reply of a file call.
#[derive(Debug, Drop)]
pub enum Reply {
    /// The call succeeded, and returns nothing.
    Done,
    /// The number of bytes that were written.
    Count(u64),
    /// The bytes that were read.
    Data(FileBytes),
    /// The kind of the entry, a file's length in bytes (0 for a directory), and the mtime.
    Stat(Kind, u64, u64),
    /// The entries of the directory.
    Names(Listing),
    /// The call failed, and changed nothing.
    Fault(Errno),
}
