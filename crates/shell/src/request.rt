//! The request of a line of a script: one of its cases for each command.

use pathkey::{Errno, Path, SnapName};
use reference::Call;

/// The request of a line.
#[derive(Drop)]
pub enum Request {
    /// Nothing: an empty line or a comment.
    Silent,
    /// Too long to be parsed.
    Overlong,
    /// Not a command, or not its number of words.
    Malformed,
    /// A call that fails before it is executed.
    Refused(Errno),
    /// The timestamp of the calls that follow.
    Moment(u64),
    /// A file call.
    Wanted(Call),
    /// Take a snapshot of the live tree under the name.
    Snapshot(SnapName),
    /// Remove the snapshot of that name.
    DropSnapshot(SnapName),
    /// Replace the live tree by that of the snapshot.
    Restore(SnapName),
    /// Read the tree of the snapshot of that name.
    Past(SnapName, ReadCall),
}

/// A command of a script whose only argument is the path of a call.
#[derive(Clone, Copy)]
pub enum PathVerb {
    /// `mkdir`
    Mkdir,
    /// `create`
    Create,
    /// `unlink`
    Unlink,
    /// `rmdir`
    Rmdir,
    /// `rmtree`
    Rmtree,
    /// `stat`
    Stat,
    /// `readdir`
    Readdir,
}

/// A file call that reads.
#[derive(Drop)]
pub enum ReadCall {
    /// At most the given number of bytes of a file, from the offset.
    Read(Path, u64, u64),
    /// The attributes of the file or directory at a path.
    Stat(Path),
    /// The entries of a directory.
    Readdir(Path),
}
