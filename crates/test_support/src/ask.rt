//! Calls and replies as a table can hold them.
use bytes::Bytes;
use pathkey::{Errno, Path};
use reference::{Call, Kind, Reply};
use std::alloc::Global;

/// A call, with the texts of its paths.
#[derive(Clone, Copy)]
pub enum SampleCall<'a> {
    Mkdir(&'a str),
    Create(&'a str),
    Write(&'a str, u64, &'a [u8]),
    Truncate(&'a str, u64),
    Unlink(&'a str),
    Rmdir(&'a str),
    Rename(&'a str, &'a str),
    Rmtree(&'a str),
    Read(&'a str, u64, u64),
    Stat(&'a str),
    Readdir(&'a str),
}

/// A reply.
#[derive(Clone, Copy)]
pub enum ExpectedReply<'a> {
    Done,
    Count(u64),
    Data(&'a [u8]),
    Dir,
    File(u64),
    Names(&'a [(Kind, &'a str)]),
    Fault(Errno),
}

/// The path of a text. It ensures nothing, so that no proof of a test reads what a text parses as.
pub fn path(alloc: Global, text: &str) -> Result<Path, Errno> {
    Path::parse(alloc, text.as_bytes())
}

/// A write.
fn write(alloc: Global, path: Path, offset: u64, new: &[u8]) -> Result<Call, Errno> {
    match Bytes::copy_from_slice(alloc, new) {
        Ok(bytes) => Ok(Call::Write(path, offset, bytes)),
        Err(_) => Err(Errno::ENOMEM),
    }
}

/// A move to the path of a text.
fn rename(alloc: Global, old: Path, new: &str) -> Result<Call, Errno> {
    match path(alloc, new) {
        Ok(new) => Ok(Call::Rename(old, new)),
        Err(fault) => Err(fault),
    }
}

impl<'a> SampleCall<'a> {
    /// The text of the call's path; of a move that of the old one.
    fn text(self) -> &'a str {
        match self {
            SampleCall::Mkdir(text)
            | SampleCall::Create(text)
            | SampleCall::Write(text, _, _)
            | SampleCall::Truncate(text, _)
            | SampleCall::Unlink(text)
            | SampleCall::Rmdir(text)
            | SampleCall::Rename(text, _)
            | SampleCall::Rmtree(text)
            | SampleCall::Read(text, _, _)
            | SampleCall::Stat(text)
            | SampleCall::Readdir(text) => text,
        }
    }

    /// The call at a path.
    fn at(self, alloc: Global, path: Path) -> Result<Call, Errno> {
        match self {
            SampleCall::Mkdir(_) => Ok(Call::Mkdir(path)),
            SampleCall::Create(_) => Ok(Call::Create(path)),
            SampleCall::Write(_, offset, new) => write(alloc, path, offset, new),
            SampleCall::Truncate(_, len) => Ok(Call::Truncate(path, len)),
            SampleCall::Unlink(_) => Ok(Call::Unlink(path)),
            SampleCall::Rmdir(_) => Ok(Call::Rmdir(path)),
            SampleCall::Rename(_, new) => rename(alloc, path, new),
            SampleCall::Rmtree(_) => Ok(Call::Rmtree(path)),
            SampleCall::Read(_, offset, count) => Ok(Call::Read(path, offset, count)),
            SampleCall::Stat(_) => Ok(Call::Stat(path)),
            SampleCall::Readdir(_) => Ok(Call::Readdir(path)),
        }
    }

    /// The call; or the fault of a text that is no path.
    pub fn call(self, alloc: Global) -> Result<Call, Errno> {
        match path(alloc, self.text()) {
            Ok(path) => self.at(alloc, path),
            Err(fault) => Err(fault),
        }
    }
}

/// Whether these are the kinds and names.
fn are_named(listed: &[(Kind, Vec<u8>)], wanted: &[(Kind, &str)]) -> bool {
    listed.len() == wanted.len()
        && listed.iter().zip(wanted.iter()).all(|(entry, name)| entry.0 == name.0
            && entry.1.as_slice() == name.1.as_bytes())
}

impl<'a> ExpectedReply<'a> {
    /// Whether this is the reply.
    pub fn is(self, reply: &Reply) -> bool {
        match (self, reply) {
            (ExpectedReply::Done, Reply::Done)
            | (ExpectedReply::Dir, Reply::Stat(Kind::Dir, 0, _)) => true,
            (ExpectedReply::Count(wanted), Reply::Count(count)) => wanted == *count,
            (ExpectedReply::Data(wanted), Reply::Data(bytes)) => bytes.as_slice() == wanted,
            (ExpectedReply::File(wanted), Reply::Stat(Kind::File, len, _)) => wanted == *len,
            (ExpectedReply::Names(wanted), Reply::Names(listing)) => are_named(
                listing.as_slice(),
                wanted,
            ),
            (ExpectedReply::Fault(wanted), Reply::Fault(fault)) => wanted == *fault,
            _ => false,
        }
    }
}
