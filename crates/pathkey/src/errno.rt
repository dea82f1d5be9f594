//! The errors of calls: their POSIX names, numbers and messages.
//!
//! `NoMemory` is the error of the layers below: an allocation failed, and the call changed nothing. It becomes `ENOMEM`.
ghost use Rattle.std.specs.Prelude.{◌≡◌};
ghost use Rattle.pathkey.specs.declared.errno.Errno.TheVariants.{ENOMEM};
ghost use Rattle.pathkey.specs.Numbers.{number_of, sentence_of, word_of};

use std::alloc::{AllocError, AllocFailed};
use std::error::Error;
use std::fmt;

/// Why a call failed, under the names of POSIX.1-2017, 2.3 Error Numbers. The numbers are this project's own.
#[derive(Clone, Copy, Debug, PartialEq, Eq)]
pub enum Errno {
    /// No such file or directory.
    ENOENT = 1,
    /// Not a directory.
    ENOTDIR = 2,
    /// Is a directory.
    EISDIR = 3,
    /// File exists.
    EEXIST = 4,
    /// Directory not empty.
    ENOTEMPTY = 5,
    /// Operation not permitted.
    EPERM = 6,
    /// Invalid argument.
    EINVAL = 7,
    /// Name or path too long.
    ENAMETOOLONG = 8,
    /// File too large.
    EFBIG = 9,
    /// Device or resource busy.
    EBUSY = 10,
    /// Not enough memory.
    ENOMEM = 11,
    /// No space left: there are already 64 snapshots.
    ENOSPC = 12,
}

impl Errno {
    /// The error's number, from 1 to 12.
    pub fn number(self) -> u8
        ensures { result ≡ number_of self }
    {
        self as u8
    }

    /// The error's name, such as `ENOENT`.
    pub fn name(self) -> &'static str
        ensures { result.now ≡ word_of self }
    {
        match self {
            Errno::ENOENT => "ENOENT",
            Errno::ENOTDIR => "ENOTDIR",
            Errno::EISDIR => "EISDIR",
            Errno::EEXIST => "EEXIST",
            Errno::ENOTEMPTY => "ENOTEMPTY",
            Errno::EPERM => "EPERM",
            Errno::EINVAL => "EINVAL",
            Errno::ENAMETOOLONG => "ENAMETOOLONG",
            Errno::EFBIG => "EFBIG",
            Errno::EBUSY => "EBUSY",
            Errno::ENOMEM => "ENOMEM",
            Errno::ENOSPC => "ENOSPC",
        }
    }

    /// The error's message: a short sentence without a full stop.
    pub fn sentence(self) -> &'static str
        ensures { result.now ≡ sentence_of self }
    {
        match self {
            Errno::ENOENT => "no such file or directory",
            Errno::ENOTDIR => "not a directory",
            Errno::EISDIR => "is a directory",
            Errno::EEXIST => "file exists",
            Errno::ENOTEMPTY => "directory not empty",
            Errno::EPERM => "operation not permitted",
            Errno::EINVAL => "invalid argument",
            Errno::ENAMETOOLONG => "name or path too long",
            Errno::EFBIG => "file too large",
            Errno::EBUSY => "the root cannot be moved or removed",
            Errno::ENOMEM => "out of memory",
            Errno::ENOSPC => "there are already 64 snapshots",
        }
    }
}

/// The name and the message, as `ENOENT: no such file or directory`.
impl fmt::Display for Errno {
    ghost use Rattle.std.specs.Prelude.{Some};
    ghost use Rattle.pathkey.specs.Numbers.{shown};

    ghost output = { λ e. Some (shown e) };

    fn fmt<W: fmt::Write>(&self, f: &mut fmt::Formatter<W>) -> fmt::Result {
        let (word, sentence) = (self.name(), self.sentence());
        write!(f, "{word}: {sentence}")
    }
}

impl Error for Errno {}

/// An allocation failed, and the call changed nothing.
#[derive(Clone, Copy, Debug, PartialEq, Eq)]
pub struct NoMemory;

impl fmt::Display for NoMemory {
    fn fmt<W: fmt::Write>(&self, f: &mut fmt::Formatter<W>) -> fmt::Result {
        f.write_str("out of memory")
    }
}

impl Error for NoMemory {}

impl From<AllocError> for NoMemory {
    fn from(_refused: AllocError) -> NoMemory {
        NoMemory
    }
}

impl<T: Drop> From<AllocFailed<T>> for NoMemory {
    fn from(_refused: AllocFailed<T>) -> NoMemory {
        NoMemory
    }
}

impl From<NoMemory> for Errno {
    ghost from_gives = { λ _ e. e ≡ ENOMEM };

    fn from(_refused: NoMemory) -> Errno {
        Errno::ENOMEM
    }
}
