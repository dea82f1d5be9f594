//! The log of a client, as text: `BEGIN END CLIENT CALL : ANSWER`, a line for each call.
//!
//! A call is its word with the texts of its paths; an answer is printed like the replies of scripts.
use crate::history::names::PLACES;
use engine::{Kind, Reply};
use std::alloc::Global;
use test_support::ask::SampleCall;

/// The calls of a client, the first one first.
#[derive(Drop)]
pub struct Log {
    /// The client's number.
    pub client: usize,
    /// The number of lines.
    pub made: usize,
    /// The lines.
    pub text: String,
}

/// Adds a text; `false` if an allocation fails.
fn put(log: &mut String, text: &str) -> bool {
    write!(log, "{text}").is_ok()
}

/// Adds bytes in hexadecimal.
fn put_hex(log: &mut String, bytes: &[u8]) -> bool {
    let mut is_put = true;
    for byte in bytes {
        let byte = *byte;
        is_put &= write!(log, "{byte:02x}").is_ok();
    }
    is_put
}

/// Adds a name, which consists of letters and digits.
fn put_name(log: &mut String, name: &[u8]) -> bool {
    let mut is_put = true;
    for byte in name {
        is_put &= write!(log, "{}", *byte as char).is_ok();
    }
    is_put
}

/// Adds the entries of a directory.
fn put_entries(log: &mut String, entries: &[(Kind, Vec<u8>)]) -> bool {
    let mut is_put = put(log, "names");
    for (kind, name) in entries {
        let word = if matches!(kind, Kind::Dir) {
            " d:"
        } else {
            " f:"
        };
        is_put &= put(log, word) && put_name(log, name.as_slice());
    }
    is_put
}

/// Adds a word followed by a number.
fn put_number(log: &mut String, word: &str, number: u64) -> bool {
    write!(log, "{word} {number}").is_ok()
}

/// Adds a reply; `false` if an allocation fails.
fn put_reply(log: &mut String, reply: &Reply) -> bool {
    match reply {
        Reply::Done => put(log, "ok"),
        Reply::Count(count) => put_number(log, "count", *count),
        Reply::Data(bytes) => put(log, "bytes ") && put_hex(log, bytes.as_slice()),
        Reply::Stat(Kind::Dir, len, modified) => write!(log, "dir {len} {modified}").is_ok(),
        Reply::Stat(Kind::File, len, modified) => write!(log, "file {len} {modified}").is_ok(),
        Reply::Names(entries) => put_entries(log, entries.as_slice()),
        Reply::Fault(fault) => put(log, fault.name()),
    }
}

/// Adds a word and a path.
fn put_on(log: &mut String, word: &str, path: &str) -> bool {
    write!(log, "{word} {path}").is_ok()
}

/// Adds a call on paths.
fn put_call(log: &mut String, call: SampleCall) -> bool {
    match call {
        SampleCall::Mkdir(path) => put_on(log, "mkdir", path),
        SampleCall::Create(path) => put_on(log, "create", path),
        SampleCall::Write(path, offset, mark) => {
            write!(log, "write {path} {offset} ").is_ok() && put_hex(log, mark)
        }
        SampleCall::Truncate(path, len) => put(log, "truncate ") && put_number(log, path, len),
        SampleCall::Unlink(path) => put_on(log, "unlink", path),
        SampleCall::Rmdir(path) => put_on(log, "rmdir", path),
        SampleCall::Rename(old, new) => put(log, "rename ") && put_on(log, old, new),
        SampleCall::Rmtree(path) => put_on(log, "rmtree", path),
        SampleCall::Read(path, _, _) => put_on(log, "read", path),
        SampleCall::Stat(path) => put_on(log, "stat", path),
        SampleCall::Readdir(path) => put_on(log, "readdir", path),
    }
}

impl Log {
    /// No calls yet.
    pub fn new(alloc: Global, client: usize) -> Log {
        Log {
            client,
            made: 0,
            text: String::new(alloc),
        }
    }

    /// Begins the line of a call with these times of its begin and end.
    fn begin(&mut self, begin: u64, end: u64) -> bool {
        let (client, text) = (self.client, &mut self.text);
        write!(text, "{begin} {end} {client} ").is_ok()
    }

    /// Ends a line.
    pub fn end(&mut self) -> bool {
        self.made = self.made.wrapping_add(1);
        put(&mut self.text, "\n")
    }

    /// Adds a call on paths with its reply; `false` if an allocation fails.
    pub fn add(&mut self, begin: u64, end: u64, call: SampleCall, reply: &Reply) -> bool {
        self.begin(begin, end)
            && put_call(&mut self.text, call)
            && put(&mut self.text, " : ")
            && put_reply(&mut self.text, reply)
            && self.end()
    }

    /// Adds a call on a snapshot, with the word of its answer.
    pub fn add_snapshot(
        &mut self,
        begin: u64,
        end: u64,
        word: &str,
        name: usize,
        answer: &str,
    ) -> bool {
        self.begin(begin, end)
            && put_number(&mut self.text, word, name as u64)
            && put(&mut self.text, " : ")
            && put(&mut self.text, answer)
            && self.end()
    }

    /// Begins the line of a call that returns a tree.
    pub fn begin_look(&mut self, begin: u64, end: u64, word: &str, name: usize) -> bool {
        self.begin(begin, end)
            && put_number(&mut self.text, word, name as u64)
            && put(&mut self.text, " : ")
    }

    /// Begins what a tree has at the path with a number: an area after a semicolon, its other paths after a comma.
    pub fn put_place(&mut self, number: usize) -> bool {
        put(&mut self.text, if number % PLACES == 0 { ";" } else { "," })
    }

    /// Adds one more reply to a line.
    pub fn put_more(&mut self, reply: &Reply) -> bool {
        put(&mut self.text, " ") && put_reply(&mut self.text, reply)
    }
}
