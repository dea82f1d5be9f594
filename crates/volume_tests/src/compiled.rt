//! Tests of compiled calls: their replies, and how many messages they send.
use call_compiler::{Batch, Call, Indexes, Reply, compile};
use node::Shape;
use pathkey::{Errno, NoMemory};
use std::alloc::Global;
use test_support::ask::{ExpectedReply, SampleCall};

/// The maximal length of a file, and the numbers next to it.
const LIMIT: u64 = 1_099_511_627_776;

const LAST: u64 = 1_099_511_627_775;

const BEYOND: u64 = 1_099_511_627_777;

const SHAPE: Shape = Shape {
    fanout: 4,
    pending: 8,
    leaf: 4,
};

/// The numbers of messages for the metadata, and for the blocks.
type Counts = (usize, usize);

/// A call, its reply, and its messages.
type Row = (SampleCall<'static>, ExpectedReply<'static>, Counts);

/// The timestamps of a table's calls.
#[derive(Clone, Copy)]
enum Timestamps {
    /// The timestamp of each call is the index of its row.
    Rising,
    /// All calls have this timestamp.
    One(u64),
}

impl Timestamps {
    /// The timestamp of the call with this index.
    fn of(self, number: usize) -> u64 {
        match self {
            Timestamps::Rising => number as u64,
            Timestamps::One(at) => at,
        }
    }
}

/// Whether the batch has these numbers of messages. They are appended.
fn are_sent(alloc: Global, indexes: &mut Indexes, batch: Batch, counts: Counts) -> bool {
    batch.meta.len() == counts.0
        && batch.block.len() == counts.1
        && indexes.append(alloc, batch).is_ok()
}

/// What a call is compiled to. It has no postcondition, so that the proofs of the tests do not unfold what a call does.
fn compiled(alloc: Global, indexes: &Indexes, call: &Call, at: u64) -> Option<(Reply, Batch)> {
    compile(alloc, indexes, call, at).ok()
}

/// Whether a call at a timestamp has the reply of its row. Its messages are appended.
fn does(alloc: Global, indexes: &mut Indexes, call: &Call, at: u64, row: &Row) -> bool {
    match compiled(alloc, indexes, call, at) {
        Some((reply, batch)) => are_sent(alloc, indexes, batch, row.2) && row.1.is(&reply),
        None => false,
    }
}

/// Whether the row's call at a timestamp has the reply of the row. Its messages are appended.
fn is_answered(alloc: Global, indexes: &mut Indexes, at: u64, row: &Row) -> bool {
    match row.0.call(alloc) {
        Ok(call) => does(alloc, indexes, &call, at, row),
        Err(_) => false,
    }
}

/// Executes the calls in turn; returns how many have the replies of their rows, before the first that does not.
fn answered_in(
    alloc: Global,
    indexes: &mut Indexes,
    timestamps: Timestamps,
    rows: &[Row],
) -> usize {
    let mut count = 0usize;
    for row in rows {
        let next = count.saturating_add(1);
        if !is_answered(alloc, indexes, timestamps.of(next), row) {
            return count;
        }
        count = next;
    }
    count
}

/// Indexes of only the root directory.
fn new_indexes(alloc: Global) -> Result<Indexes, NoMemory> {
    Indexes::new(alloc, SHAPE)
}

/// Executes the calls in turn on only the root directory; returns how many have the replies of their rows, before the first that does
/// not.
fn answered(alloc: Global, timestamps: Timestamps, rows: &[Row]) -> usize {
    match new_indexes(alloc) {
        Ok(mut indexes) => answered_in(alloc, &mut indexes, timestamps, rows),
        Err(_) => 0,
    }
}

const NEW_ENTRIES: &[Row] = &[
    (SampleCall::Create("/f"), ExpectedReply::Done, (2, 0)),
    (SampleCall::Mkdir("/a"), ExpectedReply::Done, (2, 0)),
    (
        SampleCall::Mkdir("/"),
        ExpectedReply::Fault(Errno::EEXIST),
        (0, 0),
    ),
    (
        SampleCall::Create("/"),
        ExpectedReply::Fault(Errno::EEXIST),
        (0, 0),
    ),
    (
        SampleCall::Mkdir("/a"),
        ExpectedReply::Fault(Errno::EEXIST),
        (0, 0),
    ),
    (
        SampleCall::Create("/a"),
        ExpectedReply::Fault(Errno::EEXIST),
        (0, 0),
    ),
    (
        SampleCall::Mkdir("/f"),
        ExpectedReply::Fault(Errno::EEXIST),
        (0, 0),
    ),
    (
        SampleCall::Create("/f"),
        ExpectedReply::Fault(Errno::EEXIST),
        (0, 0),
    ),
    (
        SampleCall::Mkdir("/c/d"),
        ExpectedReply::Fault(Errno::ENOENT),
        (0, 0),
    ),
    (
        SampleCall::Create("/c/d"),
        ExpectedReply::Fault(Errno::ENOENT),
        (0, 0),
    ),
    (
        SampleCall::Mkdir("/f/d"),
        ExpectedReply::Fault(Errno::ENOTDIR),
        (0, 0),
    ),
    (
        SampleCall::Create("/f/d"),
        ExpectedReply::Fault(Errno::ENOTDIR),
        (0, 0),
    ),
    (
        SampleCall::Mkdir("/f/d/e"),
        ExpectedReply::Fault(Errno::ENOTDIR),
        (0, 0),
    ),
    (
        SampleCall::Create("/f/d/e"),
        ExpectedReply::Fault(Errno::ENOTDIR),
        (0, 0),
    ),
];

const EMPTY_DIRECTORY: &[Row] = &[
    (SampleCall::Mkdir("/a"), ExpectedReply::Done, (2, 0)),
    (SampleCall::Create("/f"), ExpectedReply::Done, (2, 0)),
    (SampleCall::Stat("/"), ExpectedReply::Dir, (0, 0)),
    (SampleCall::Stat("/a"), ExpectedReply::Dir, (0, 0)),
    (SampleCall::Stat("/f"), ExpectedReply::File(0), (0, 0)),
    (
        SampleCall::Rmdir("/"),
        ExpectedReply::Fault(Errno::EBUSY),
        (0, 0),
    ),
    (
        SampleCall::Rmdir("/f"),
        ExpectedReply::Fault(Errno::ENOTDIR),
        (0, 0),
    ),
    (
        SampleCall::Rmdir("/f/x"),
        ExpectedReply::Fault(Errno::ENOTDIR),
        (0, 0),
    ),
    (
        SampleCall::Rmdir("/c"),
        ExpectedReply::Fault(Errno::ENOENT),
        (0, 0),
    ),
    (SampleCall::Rmdir("/a"), ExpectedReply::Done, (2, 0)),
    (
        SampleCall::Stat("/a"),
        ExpectedReply::Fault(Errno::ENOENT),
        (0, 0),
    ),
    (
        SampleCall::Stat("/a/b"),
        ExpectedReply::Fault(Errno::ENOENT),
        (0, 0),
    ),
    (
        SampleCall::Readdir("/a"),
        ExpectedReply::Fault(Errno::ENOENT),
        (0, 0),
    ),
];

const WRITES: &[Row] = &[
    (SampleCall::Create("/f"), ExpectedReply::Done, (2, 0)),
    (
        SampleCall::Write("/f", 4_095, b"\xaa\xbb"),
        ExpectedReply::Count(2),
        (1, 2),
    ),
    (
        SampleCall::Read("/f", 4_094, 4),
        ExpectedReply::Data(b"\0\xaa\xbb"),
        (0, 0),
    ),
    (SampleCall::Stat("/f"), ExpectedReply::File(4_097), (0, 0)),
    (
        SampleCall::Write("/f", 4_096, b"\xcc"),
        ExpectedReply::Count(1),
        (1, 1),
    ),
    (
        SampleCall::Write("/f", 8_191, b"\xdd"),
        ExpectedReply::Count(1),
        (1, 1),
    ),
    (SampleCall::Stat("/f"), ExpectedReply::File(8_192), (0, 0)),
    (
        SampleCall::Read("/f", 4_095, 3),
        ExpectedReply::Data(b"\xaa\xcc\0"),
        (0, 0),
    ),
    (
        SampleCall::Read("/f", 8_190, 9),
        ExpectedReply::Data(b"\0\xdd"),
        (0, 0),
    ),
    (
        SampleCall::Read("/f", 8_192, 9),
        ExpectedReply::Data(b""),
        (0, 0),
    ),
];

const ENDS: &[Row] = &[
    (SampleCall::Create("/f"), ExpectedReply::Done, (2, 0)),
    (
        SampleCall::Write("/f", LAST, b"\x01"),
        ExpectedReply::Count(1),
        (1, 1),
    ),
    (
        SampleCall::Write("/f", LIMIT, b"\x01"),
        ExpectedReply::Fault(Errno::EFBIG),
        (0, 0),
    ),
    (
        SampleCall::Write("/f", LIMIT, b""),
        ExpectedReply::Count(0),
        (0, 0),
    ),
    (
        SampleCall::Write("/f", u64::MAX, b"\x01"),
        ExpectedReply::Fault(Errno::EFBIG),
        (0, 0),
    ),
    (
        SampleCall::Write("/f", u64::MAX, b""),
        ExpectedReply::Count(0),
        (0, 0),
    ),
    (
        SampleCall::Write("/f", LAST, b"\x01\x02"),
        ExpectedReply::Fault(Errno::EFBIG),
        (0, 0),
    ),
    (SampleCall::Stat("/f"), ExpectedReply::File(LIMIT), (0, 0)),
    (
        SampleCall::Read("/f", LAST, 2),
        ExpectedReply::Data(b"\x01"),
        (0, 0),
    ),
    (
        SampleCall::Truncate("/f", BEYOND),
        ExpectedReply::Fault(Errno::EFBIG),
        (0, 0),
    ),
    (
        SampleCall::Truncate("/f", LIMIT),
        ExpectedReply::Done,
        (1, 0),
    ),
];

const TRUNCATES: &[Row] = &[
    (SampleCall::Create("/f"), ExpectedReply::Done, (2, 0)),
    (
        SampleCall::Write("/f", 0, &[0xff; 10]),
        ExpectedReply::Count(10),
        (1, 1),
    ),
    (SampleCall::Truncate("/f", 5), ExpectedReply::Done, (1, 2)),
    (SampleCall::Stat("/f"), ExpectedReply::File(5), (0, 0)),
    (
        SampleCall::Truncate("/f", 9_000),
        ExpectedReply::Done,
        (1, 0),
    ),
    (
        SampleCall::Truncate("/f", 8_192),
        ExpectedReply::Done,
        (1, 1),
    ),
    (
        SampleCall::Truncate("/f", 4_096),
        ExpectedReply::Done,
        (1, 1),
    ),
    (SampleCall::Stat("/f"), ExpectedReply::File(4_096), (0, 0)),
    (
        SampleCall::Read("/f", 0, 8),
        ExpectedReply::Data(b"\xff\xff\xff\xff\xff\0\0\0"),
        (0, 0),
    ),
];

const FILES: &[Row] = &[
    (SampleCall::Mkdir("/a"), ExpectedReply::Done, (2, 0)),
    (
        SampleCall::Unlink("/"),
        ExpectedReply::Fault(Errno::EPERM),
        (0, 0),
    ),
    (
        SampleCall::Unlink("/a"),
        ExpectedReply::Fault(Errno::EPERM),
        (0, 0),
    ),
    (
        SampleCall::Read("/", 0, 1),
        ExpectedReply::Fault(Errno::EISDIR),
        (0, 0),
    ),
    (
        SampleCall::Read("/a", 0, 1),
        ExpectedReply::Fault(Errno::EISDIR),
        (0, 0),
    ),
    (SampleCall::Create("/f"), ExpectedReply::Done, (2, 0)),
    (
        SampleCall::Write("/f", 0, b"\xaa"),
        ExpectedReply::Count(1),
        (1, 1),
    ),
    (
        SampleCall::Read("/f", 0, 1_048_577),
        ExpectedReply::Fault(Errno::EINVAL),
        (0, 0),
    ),
    (SampleCall::Unlink("/f"), ExpectedReply::Done, (2, 1)),
    (
        SampleCall::Unlink("/f/x"),
        ExpectedReply::Fault(Errno::ENOENT),
        (0, 0),
    ),
    (SampleCall::Create("/f"), ExpectedReply::Done, (2, 0)),
    (
        SampleCall::Write("/f", 1, b"\xbb"),
        ExpectedReply::Count(1),
        (1, 1),
    ),
    (
        SampleCall::Read("/f", 0, 9),
        ExpectedReply::Data(b"\0\xbb"),
        (0, 0),
    ),
];

const SUBTREES: &[Row] = &[
    (
        SampleCall::Rmtree("/"),
        ExpectedReply::Fault(Errno::EBUSY),
        (0, 0),
    ),
    (
        SampleCall::Rmtree("/a"),
        ExpectedReply::Fault(Errno::ENOENT),
        (0, 0),
    ),
    (
        SampleCall::Rmtree("/a/b"),
        ExpectedReply::Fault(Errno::ENOENT),
        (0, 0),
    ),
    (SampleCall::Mkdir("/a"), ExpectedReply::Done, (2, 0)),
    (SampleCall::Create("/a/x"), ExpectedReply::Done, (2, 0)),
    (
        SampleCall::Write("/a/x", 0, b"\xaa"),
        ExpectedReply::Count(1),
        (1, 1),
    ),
    (SampleCall::Mkdir("/a/d"), ExpectedReply::Done, (2, 0)),
    (SampleCall::Create("/a/d/y"), ExpectedReply::Done, (2, 0)),
    (
        SampleCall::Write("/a/d/y", 4_095, b"\xbb\xcc"),
        ExpectedReply::Count(2),
        (1, 2),
    ),
    (SampleCall::Create("/a-b"), ExpectedReply::Done, (2, 0)),
    (
        SampleCall::Write("/a-b", 0, b"\xdd"),
        ExpectedReply::Count(1),
        (1, 1),
    ),
    (SampleCall::Create("/ab"), ExpectedReply::Done, (2, 0)),
    (
        SampleCall::Write("/ab", 0, b"\xee"),
        ExpectedReply::Count(1),
        (1, 1),
    ),
    (
        SampleCall::Rmtree("/a/x/z"),
        ExpectedReply::Fault(Errno::ENOTDIR),
        (0, 0),
    ),
    (
        SampleCall::Rmtree("/a/x/z/z"),
        ExpectedReply::Fault(Errno::ENOTDIR),
        (0, 0),
    ),
    (SampleCall::Rmtree("/a"), ExpectedReply::Done, (2, 1)),
    (
        SampleCall::Rmtree("/a"),
        ExpectedReply::Fault(Errno::ENOENT),
        (0, 0),
    ),
    (
        SampleCall::Stat("/a"),
        ExpectedReply::Fault(Errno::ENOENT),
        (0, 0),
    ),
    (
        SampleCall::Stat("/a/x"),
        ExpectedReply::Fault(Errno::ENOENT),
        (0, 0),
    ),
    (
        SampleCall::Read("/a-b", 0, 9),
        ExpectedReply::Data(b"\xdd"),
        (0, 0),
    ),
    (
        SampleCall::Read("/ab", 0, 9),
        ExpectedReply::Data(b"\xee"),
        (0, 0),
    ),
    (SampleCall::Mkdir("/a"), ExpectedReply::Done, (2, 0)),
    (SampleCall::Create("/a/x"), ExpectedReply::Done, (2, 0)),
    (SampleCall::Stat("/a/x"), ExpectedReply::File(0), (0, 0)),
    (
        SampleCall::Write("/a/x", 1, b"\xff"),
        ExpectedReply::Count(1),
        (1, 1),
    ),
    (
        SampleCall::Read("/a/x", 0, 9),
        ExpectedReply::Data(b"\0\xff"),
        (0, 0),
    ),
    (SampleCall::Rmtree("/a/x"), ExpectedReply::Done, (2, 1)),
    (SampleCall::Rmdir("/a"), ExpectedReply::Done, (2, 0)),
];

const REFUSED_MOVES: &[Row] = &[
    (
        SampleCall::Rename("/", "/b"),
        ExpectedReply::Fault(Errno::EBUSY),
        (0, 0),
    ),
    (
        SampleCall::Rename("/", "/"),
        ExpectedReply::Fault(Errno::EBUSY),
        (0, 0),
    ),
    (
        SampleCall::Rename("/a", "/b"),
        ExpectedReply::Fault(Errno::ENOENT),
        (0, 0),
    ),
    (
        SampleCall::Rename("/a", "/a"),
        ExpectedReply::Fault(Errno::ENOENT),
        (0, 0),
    ),
    (SampleCall::Mkdir("/a"), ExpectedReply::Done, (2, 0)),
    (SampleCall::Mkdir("/a/d"), ExpectedReply::Done, (2, 0)),
    (SampleCall::Create("/f"), ExpectedReply::Done, (2, 0)),
    (
        SampleCall::Rename("/f/x", "/b"),
        ExpectedReply::Fault(Errno::ENOTDIR),
        (0, 0),
    ),
    (
        SampleCall::Rename("/a", "/a/b"),
        ExpectedReply::Fault(Errno::EINVAL),
        (0, 0),
    ),
    (
        SampleCall::Rename("/a", "/a/x/y"),
        ExpectedReply::Fault(Errno::EINVAL),
        (0, 0),
    ),
    (
        SampleCall::Rename("/f", "/f/x"),
        ExpectedReply::Fault(Errno::ENOTDIR),
        (0, 0),
    ),
    (
        SampleCall::Rename("/f", "/b/x"),
        ExpectedReply::Fault(Errno::ENOENT),
        (0, 0),
    ),
    (
        SampleCall::Rename("/a", "/f/x"),
        ExpectedReply::Fault(Errno::ENOTDIR),
        (0, 0),
    ),
    (
        SampleCall::Rename("/f", "/a"),
        ExpectedReply::Fault(Errno::EISDIR),
        (0, 0),
    ),
    (
        SampleCall::Rename("/a", "/f"),
        ExpectedReply::Fault(Errno::ENOTDIR),
        (0, 0),
    ),
    (
        SampleCall::Rename("/a/d", "/a"),
        ExpectedReply::Fault(Errno::ENOTEMPTY),
        (0, 0),
    ),
    (SampleCall::Rename("/a", "/a"), ExpectedReply::Done, (0, 0)),
    (SampleCall::Rename("/f", "/f"), ExpectedReply::Done, (0, 0)),
];

const MOVES: &[Row] = &[
    (SampleCall::Mkdir("/a"), ExpectedReply::Done, (2, 0)),
    (SampleCall::Create("/a/x"), ExpectedReply::Done, (2, 0)),
    (
        SampleCall::Write("/a/x", 0, b"\xaa"),
        ExpectedReply::Count(1),
        (1, 1),
    ),
    (SampleCall::Mkdir("/a/d"), ExpectedReply::Done, (2, 0)),
    (SampleCall::Create("/a/d/y"), ExpectedReply::Done, (2, 0)),
    (
        SampleCall::Write("/a/d/y", 4_095, b"\xbb\xcc"),
        ExpectedReply::Count(2),
        (1, 2),
    ),
    (SampleCall::Create("/a-b"), ExpectedReply::Done, (2, 0)),
    (
        SampleCall::Write("/a-b", 4_096, b"\xdd"),
        ExpectedReply::Count(1),
        (1, 1),
    ),
    // four entries, three blocks, a range-delete for each index, and the mtime of the root
    (SampleCall::Rename("/a", "/b"), ExpectedReply::Done, (6, 4)),
    (
        SampleCall::Stat("/a"),
        ExpectedReply::Fault(Errno::ENOENT),
        (0, 0),
    ),
    (
        SampleCall::Stat("/a/x"),
        ExpectedReply::Fault(Errno::ENOENT),
        (0, 0),
    ),
    (
        SampleCall::Read("/b/x", 0, 9),
        ExpectedReply::Data(b"\xaa"),
        (0, 0),
    ),
    (
        SampleCall::Read("/b/d/y", 4_094, 9),
        ExpectedReply::Data(b"\0\xbb\xcc"),
        (0, 0),
    ),
    (
        SampleCall::Read("/a-b", 4_095, 9),
        ExpectedReply::Data(b"\0\xdd"),
        (0, 0),
    ),
    // one entry and one block, the blocks of the file that is replaced, and the mtimes of two directories
    (
        SampleCall::Rename("/b/x", "/a-b"),
        ExpectedReply::Done,
        (4, 3),
    ),
    (
        SampleCall::Read("/a-b", 0, 9),
        ExpectedReply::Data(b"\xaa"),
        (0, 0),
    ),
    (
        SampleCall::Truncate("/a-b", 4_098),
        ExpectedReply::Done,
        (1, 0),
    ),
    (
        SampleCall::Read("/a-b", 4_095, 9),
        ExpectedReply::Data(b"\0\0\0"),
        (0, 0),
    ),
    (SampleCall::Mkdir("/e"), ExpectedReply::Done, (2, 0)),
    (
        SampleCall::Rename("/b/d", "/e"),
        ExpectedReply::Done,
        (5, 3),
    ),
    (
        SampleCall::Read("/e/y", 4_094, 9),
        ExpectedReply::Data(b"\0\xbb\xcc"),
        (0, 0),
    ),
    (SampleCall::Rmdir("/b"), ExpectedReply::Done, (2, 0)),
];

/// A file that has no block, also after it had one, and one that has a byte.
const BLOCKS_OF_FILES: &[Row] = &[
    (SampleCall::Create("/e"), ExpectedReply::Done, (2, 0)),
    (SampleCall::Unlink("/e"), ExpectedReply::Done, (2, 0)),
    (SampleCall::Create("/f"), ExpectedReply::Done, (2, 0)),
    (
        SampleCall::Write("/f", 5_000, b"\xaa"),
        ExpectedReply::Count(1),
        (1, 1),
    ),
    (SampleCall::Truncate("/f", 0), ExpectedReply::Done, (1, 1)),
    (SampleCall::Create("/f-g"), ExpectedReply::Done, (2, 0)),
    (
        SampleCall::Write("/f-g", 0, b"\xbb"),
        ExpectedReply::Count(1),
        (1, 1),
    ),
    (SampleCall::Unlink("/f"), ExpectedReply::Done, (2, 0)),
    (
        SampleCall::Read("/f-g", 0, 9),
        ExpectedReply::Data(b"\xbb"),
        (0, 0),
    ),
    // a file without blocks that has bytes: the index is not searched for a block
    (SampleCall::Truncate("/f-g", 0), ExpectedReply::Done, (1, 1)),
    (SampleCall::Truncate("/f-g", 9), ExpectedReply::Done, (1, 0)),
    (SampleCall::Unlink("/f-g"), ExpectedReply::Done, (2, 1)),
];

/// Calls with the same timestamp, in a root whose mtime is another at first.
const ONE_TIMESTAMP: &[Row] = &[
    (SampleCall::Create("/f"), ExpectedReply::Done, (2, 0)),
    (SampleCall::Create("/g"), ExpectedReply::Done, (1, 0)),
    (SampleCall::Mkdir("/a"), ExpectedReply::Done, (1, 0)),
    (SampleCall::Create("/a/x"), ExpectedReply::Done, (1, 0)),
    (
        SampleCall::Write("/f", 0, b"\xaa\xbb"),
        ExpectedReply::Count(2),
        (1, 1),
    ),
    (
        SampleCall::Write("/f", 1, b"\xcc"),
        ExpectedReply::Count(1),
        (0, 1),
    ),
    (
        SampleCall::Write("/f", 1, b"\xdd\xee"),
        ExpectedReply::Count(2),
        (1, 1),
    ),
    (SampleCall::Stat("/f"), ExpectedReply::File(3), (0, 0)),
    (
        SampleCall::Read("/f", 0, 9),
        ExpectedReply::Data(b"\xaa\xdd\xee"),
        (0, 0),
    ),
    (SampleCall::Truncate("/f", 3), ExpectedReply::Done, (0, 0)),
    (SampleCall::Truncate("/f", 4), ExpectedReply::Done, (1, 0)),
    (SampleCall::Truncate("/f", 3), ExpectedReply::Done, (1, 2)),
    (SampleCall::Unlink("/f"), ExpectedReply::Done, (2, 1)),
    (SampleCall::Unlink("/g"), ExpectedReply::Done, (2, 0)),
    (SampleCall::Rmtree("/a"), ExpectedReply::Done, (2, 1)),
];

/// Calls with different timestamps, in a root whose mtime is another at first.
const RISING_TIMESTAMPS: &[Row] = &[
    (SampleCall::Create("/f"), ExpectedReply::Done, (2, 0)),
    (SampleCall::Create("/g"), ExpectedReply::Done, (2, 0)),
    (SampleCall::Mkdir("/a"), ExpectedReply::Done, (2, 0)),
    (SampleCall::Create("/a/x"), ExpectedReply::Done, (2, 0)),
    (
        SampleCall::Write("/f", 0, b"\xaa\xbb"),
        ExpectedReply::Count(2),
        (1, 1),
    ),
    (
        SampleCall::Write("/f", 1, b"\xcc"),
        ExpectedReply::Count(1),
        (1, 1),
    ),
    (SampleCall::Truncate("/f", 2), ExpectedReply::Done, (1, 0)),
    (SampleCall::Unlink("/f"), ExpectedReply::Done, (2, 1)),
];

/// Each table, with what it shows, and the timestamps of its calls.
const TABLES: &[(&str, Timestamps, &[Row])] = &[
    (
        "a new entry needs a parent directory, whose mtime is set, and a free name",
        Timestamps::Rising,
        NEW_ENTRIES,
    ),
    (
        "an empty directory is removed",
        Timestamps::Rising,
        EMPTY_DIRECTORY,
    ),
    (
        "a write is a patch for each block that it touches",
        Timestamps::Rising,
        WRITES,
    ),
    ("a file ends at the limit", Timestamps::Rising, ENDS),
    (
        "a truncate removes the blocks after its end",
        Timestamps::Rising,
        TRUNCATES,
    ),
    (
        "a file is removed with its bytes",
        Timestamps::Rising,
        FILES,
    ),
    (
        "a subtree is removed by a range-delete for each index, and its directory's mtime is set",
        Timestamps::Rising,
        SUBTREES,
    ),
    (
        "a rename that fails sends nothing",
        Timestamps::Rising,
        REFUSED_MOVES,
    ),
    (
        "a rename is one message for each pair, the ranges, and the mtimes of its directories",
        Timestamps::Rising,
        MOVES,
    ),
    (
        "an unlink sends no range-delete for a file without bytes and blocks",
        Timestamps::Rising,
        BLOCKS_OF_FILES,
    ),
    (
        "no message is sent for a length and an mtime that the file already has",
        Timestamps::One(7),
        ONE_TIMESTAMP,
    ),
    (
        "a message is sent for another mtime",
        Timestamps::Rising,
        RISING_TIMESTAMPS,
    ),
];

/// Whether all tables pass; otherwise the name of the first that fails.
fn all_answered(alloc: Global) -> Result<(), &'static str> {
    for (name, timestamps, rows) in TABLES {
        if answered(alloc, *timestamps, rows) != rows.len() {
            return Err(name);
        }
    }
    Ok(())
}

#[test]
fn calls_are_answered_and_send_as_many_messages_as_each_table_says(
    rt: HostRuntime,
) -> Result<(), &'static str> {
    all_answered(rt.alloc())
}
