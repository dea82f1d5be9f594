//! The work: each client creates the files of a directory of its own, writes a few bytes to each, and reads the
//! metadata of each.
use crate::paths::path_of;
use bytes::Bytes;
use engine::{Client, EngineId};
use pathkey::Path;
use reference::{Call, Reply};
use std::alloc::Global;
use std::sync::Wait;
use volume::Volume;

/// The number of bytes of a write.
const LEN: u64 = 16;

/// The bytes that are written.
const TEXT: [u8; 16] = [0x5a; 16];

/// A kind of call.
#[derive(Clone, Copy)]
pub enum Kind {
    /// Creates the client's directory.
    Mkdir,
    /// Creates a file.
    Create,
    /// Writes to a file.
    Write,
    /// Reads the metadata of a file.
    Stat,
}

/// The share of one client: a directory of its own, with the same number of files as any other, a power of two.
#[derive(Clone, Copy)]
pub struct Share {
    /// The client's number.
    pub client: usize,
    /// The number of files that it creates.
    pub files: u64,
}

/// A store on which calls are made.
pub trait Store {
    /// Makes a call; returns whether it has the expected reply.
    fn is_done<R: Wait>(&mut self, rt: &R, alloc: Global, call: &Call) -> bool;
}

/// Whether this is the expected reply of a call.
fn is_right(reply: &Reply) -> bool {
    match reply {
        Reply::Done => true,
        Reply::Count(count) => *count == LEN,
        Reply::Stat(_, len, _) => *len == LEN,
        _ => false,
    }
}

/// Whether a volume has the expected reply.
fn has_answer(alloc: Global, volume: &mut Volume, call: &Call) -> bool {
    let reply = volume.call(alloc, call, 0);
    is_right(&reply)
}

/// A volume, which may do one step after each call.
#[derive(Drop)]
pub struct Alone {
    /// The volume.
    pub volume: Volume,
    /// Whether it does.
    pub is_relieved: bool,
}

impl Store for Alone {
    fn is_done<R: Wait>(&mut self, _rt: &R, alloc: Global, call: &Call) -> bool {
        let is_done = has_answer(alloc, &mut self.volume, call);
        if self.is_relieved {
            self.volume.compact_step(alloc);
        }
        is_done
    }
}

impl<J: EngineId> Store for Client<J> {
    fn is_done<R: Wait>(&mut self, rt: &R, alloc: Global, call: &Call) -> bool {
        let reply = self.call(rt, alloc, call, 0);
        is_right(&reply)
    }
}

impl Share {
    /// The path of the directory, made and parsed as text.
    fn directory(self, alloc: Global) -> Option<Path> {
        let client = self.client;
        match format!(in alloc; "/c{client}") {
            Ok(text) => path_of(alloc, &text),
            Err(_) => None,
        }
    }

    /// The path of a file. Consecutive numbers are far apart in key order, and each file has one number.
    fn file(self, alloc: Global, number: u64) -> Option<Path> {
        let client = self.client;
        let number = number
            .wrapping_mul(0x9E37_79B9_7F4A_7C15)
            .checked_rem(self.files)?;
        match format!(in alloc; "/c{client}/f{number}") {
            Ok(text) => path_of(alloc, &text),
            Err(_) => None,
        }
    }

    /// A call of that kind, on the file with that number if it is one on files.
    fn call(self, alloc: Global, kind: Kind, number: u64) -> Option<Call> {
        match kind {
            Kind::Mkdir => Some(Call::Mkdir(self.directory(alloc)?)),
            Kind::Create => Some(Call::Create(self.file(alloc, number)?)),
            Kind::Write => write_call(alloc, self.file(alloc, number)?),
            Kind::Stat => Some(Call::Stat(self.file(alloc, number)?)),
        }
    }
}

/// The number of calls of a kind for that many files.
pub fn calls_of(kind: Kind, files: u64) -> u64 {
    match kind {
        Kind::Mkdir => 1,
        _ => files,
    }
}

/// The call that writes to a file.
fn write_call(alloc: Global, path: Path) -> Option<Call> {
    match Bytes::copy_from_slice(alloc, &TEXT) {
        Ok(bytes) => Some(Call::Write(path, 0, bytes)),
        Err(_) => None,
    }
}

/// Makes a call; returns whether it has the expected reply.
fn does<S: Store, R: Wait>(
    rt: &R,
    alloc: Global,
    store: &mut S,
    share: Share,
    kind: Kind,
    number: u64,
) -> bool {
    match share.call(alloc, kind, number) {
        Some(call) => store.is_done(rt, alloc, &call),
        None => false,
    }
}

/// Makes all calls of a kind; returns how many have the expected reply.
pub fn do_share<S: Store, R: Wait>(
    rt: &R,
    alloc: Global,
    store: &mut S,
    share: Share,
    kind: Kind,
) -> u64 {
    let mut done = 0u64;
    for number in 0..calls_of(kind, share.files) {
        let is_done = does(rt, alloc, store, share, kind, number);
        done = done.wrapping_add(u64::from(is_done));
    }
    done
}
