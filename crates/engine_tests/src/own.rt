//! A client of a stress test: files that only it writes, and calls on names that all share.
ghost use Rattle.std.specs.Prelude.{◌≡◌};

use crate::requests::{call_of, name_of};
use crate::tally::{Course, Tally};
use engine::{Client, EngineId};
use pathkey::Errno;
use reference::{Call, Reply};
use std::alloc::Global;
use std::sync::Wait;
use std::thread::Parker;
use std::time::Duration;
use test_support::{SampleCall, file_name};

/// The number of clients.
pub const CLIENTS: usize = 8;

/// The number of files that only this client writes.
const FILES: usize = 16;

/// The number of files that only one client writes.
pub const OWNED: u32 = 128;

/// The offset of a mark: it crosses the end of a block, so it is in two.
pub const PLACE: u64 = 4_092;

/// The number of the file in a mark is above this.
const TAG: u64 = 1 << 32;

/// The name of a snapshot that clients take and drop.
pub const LATER: &str = "t";

/// The calls of all clients, on names that they share.
const SHARED: &[SampleCall] = &[
    SampleCall::Mkdir("/d"),
    SampleCall::Create("/d/x"),
    SampleCall::Write("/d/x", 4_090, b"over the end of a block"),
    SampleCall::Read("/d/x", 0, 5_000),
    SampleCall::Rename("/d/x", "/y"),
    SampleCall::Mkdir("/d/e"),
    SampleCall::Write("/y", 0, b"shared"),
    SampleCall::Truncate("/y", 4_091),
    SampleCall::Readdir("/"),
    SampleCall::Rename("/d", "/e"),
    SampleCall::Stat("/e/x"),
    SampleCall::Unlink("/y"),
    SampleCall::Readdir("/d"),
    SampleCall::Rename("/e", "/d"),
    SampleCall::Rmdir("/d/e"),
    SampleCall::Rmtree("/d"),
];

/// The eight bytes of a file's mark: the number of the file, and how many marks were written before it.
pub fn mark_of(file: u64, count: u64) -> [u8; 8] {
    file.wrapping_mul(TAG).wrapping_add(count).to_be_bytes()
}

/// The result of a client's call.
#[derive(Clone, Copy)]
enum Found {
    Count(u64),
    /// That many bytes, which represent this number.
    Mark(usize, u64),
    Fault(Errno),
    Other,
}

/// Sleeps for so short a time that others get the lock.
pub fn rest<R: Wait>(rt: &R) {
    Parker::new().park_timeout(rt, Duration::from_micros(20));
}

/// What a client knows of one of its files. At first the file has the mark of number 0, which is also in the first
/// snapshot.
#[derive(Clone, Copy)]
struct Known {
    /// The number of the mark that the client wrote last.
    written: u64,
    /// The number of restores that had ended before that was written.
    ended: u64,
    /// The number of restores that had begun when that returned.
    begun: u64,
    /// Whether the client has read since that it was lost.
    is_lost: bool,
}

impl Known {
    /// Whether a read may find the mark of this number, if that many restores had ended before the read, and that many
    /// had begun when it returned.
    ///
    /// If no restore was done since the last mark was written, it is that mark. If a restore of the first snapshot was
    /// certainly done, it is the first mark, and remains so. If one may have been done, it is either. If a later
    /// snapshot may have been restored, it is any mark that was written.
    fn may_be(self, number: u64, course: Course, ended: u64, begun: u64) -> bool {
        if self.ended == begun {
            return number == self.written;
        }
        match course {
            Course::Later => number <= self.written,
            Course::First | Course::Rests => {
                number == 0 || (number == self.written && !self.is_lost && ended <= self.begun)
            }
        }
    }
}

/// What a client knows of its own files.
#[derive(Drop)]
pub struct Own {
    client: usize,
    seed: u64,
    /// The file that it wrote last.
    last: usize,
    files: [Known; FILES],
}

impl Own {
    /// The initial knowledge of the client with a number.
    pub fn new(client: usize) -> Own {
        let first = Known {
            written: 0,
            ended: 0,
            begun: 0,
            is_lost: false,
        };
        Own {
            client: client % CLIENTS,
            seed: (client as u64).wrapping_add(1),
            last: 0,
            files: [first; FILES],
        }
    }

    /// The next pseudo-random number.
    fn draw(&mut self) -> usize {
        self.seed = self
            .seed
            .wrapping_mul(6_364_136_223_846_793_005)
            .wrapping_add(1_442_695_040_888_963_407);
        ((self.seed >> 40) % 4_096) as usize
    }

    /// The number of a file among all: adjacent files are of different clients.
    fn number(&self, file: usize) -> u32 {
        ((file % FILES) * CLIENTS + self.client % CLIENTS) as u32
    }

    /// Records that the next mark was written to a file, with the numbers of restores that had ended before and that
    /// have begun.
    fn note_write(&mut self, file: usize, ended: u64, begun: u64) {
        let known = &mut self.files[file % FILES];
        known.written = known.written.wrapping_add(1);
        known.ended = ended;
        known.begun = begun;
        known.is_lost = false;
        self.last = file;
    }

    /// Records what a read found in a file, with the numbers of restores that had ended before and that have begun.
    /// Returns whether it may be so.
    fn note_read(
        &mut self,
        file: usize,
        course: Course,
        ended: u64,
        begun: u64,
        found: Found,
    ) -> bool {
        let Found::Mark(8, mark) = found else {
            return false;
        };
        let is_of_file = mark / TAG == u64::from(self.number(file));
        let known = &mut self.files[file % FILES];
        let is_right = known.may_be(mark % TAG, course, ended, begun);
        known.is_lost = mark % TAG != known.written;
        is_of_file && is_right
    }
}

/// The number that bytes represent.
fn number_of(bytes: &[u8]) -> u64 {
    let mut number: u64 = 0;
    for byte in bytes {
        number = number.wrapping_mul(256).wrapping_add(u64::from(*byte));
    }
    number
}

/// The result in a reply.
fn found_in(reply: &Reply) -> Found {
    match reply {
        Reply::Count(count) => Found::Count(*count),
        Reply::Data(bytes) => Found::Mark(bytes.as_slice().len(), number_of(bytes.as_slice())),
        Reply::Fault(fault) => Found::Fault(*fault),
        _ => Found::Other,
    }
}

/// The reply to a call of the client. It has no postcondition, so that the proofs of the tests do not unfold what a
/// call does.
fn reply_to<J: EngineId, R: Wait>(
    rt: &R,
    alloc: Global,
    client: &mut Client<J>,
    call: &Call,
) -> Reply {
    client.call(rt, alloc, call, 0)
}

/// The result of a call of the client.
fn found_by<J: EngineId, R: Wait>(
    rt: &R,
    alloc: Global,
    client: &mut Client<J>,
    call: &Call,
) -> Found {
    found_in(&reply_to(rt, alloc, client, call))
}

/// The result of a request of the client.
fn asks<J: EngineId, R: Wait>(
    rt: &R,
    alloc: Global,
    client: &mut Client<J>,
    ask: SampleCall<'_>,
) -> Found {
    match call_of(alloc, ask) {
        Some(call) => found_by(rt, alloc, client, &call),
        None => Found::Other,
    }
}

/// The result of writing a mark to the file with a number.
fn writes_mark<J: EngineId, R: Wait>(
    rt: &R,
    alloc: Global,
    client: &mut Client<J>,
    file: u32,
    count: u64,
) -> Found {
    let bytes = mark_of(u64::from(file), count);
    match file_name(alloc, file) {
        Some(text) => asks(
            rt,
            alloc,
            client,
            SampleCall::Write(text.as_str(), PLACE, &bytes),
        ),
        None => Found::Other,
    }
}

/// The result of reading the mark of the file with a number.
fn reads_mark<J: EngineId, R: Wait>(
    rt: &R,
    alloc: Global,
    client: &mut Client<J>,
    file: u32,
) -> Found {
    match file_name(alloc, file) {
        Some(text) => asks(rt, alloc, client, SampleCall::Read(text.as_str(), PLACE, 9)),
        None => Found::Other,
    }
}

/// Writes the next mark to one of its files.
fn writes<J: EngineId, R: Wait>(
    rt: &R,
    alloc: Global,
    client: &mut Client<J>,
    own: &mut Own,
    tally: &Tally,
    file: usize,
) -> bool {
    let ended = tally.ended();
    let count = own.files[file % FILES].written.wrapping_add(1);
    let found = writes_mark(rt, alloc, client, own.number(file), count);
    own.note_write(file, ended, tally.begun());
    matches!(found, Found::Count(8))
}

/// Reads one of its files.
fn reads<J: EngineId, R: Wait>(
    rt: &R,
    alloc: Global,
    client: &mut Client<J>,
    own: &mut Own,
    tally: &Tally,
    file: usize,
) -> bool {
    let ended = tally.ended();
    let found = reads_mark(rt, alloc, client, own.number(file));
    own.note_read(file, tally.course, ended, tally.begun(), found)
}

/// Whether a call on the later snapshot succeeded, or failed since it exists, or since it does not.
fn is_settled(settled: Result<(), Errno>) -> bool {
    matches!(settled, Ok(()) | Err(Errno::EEXIST) | Err(Errno::ENOENT))
}

/// Takes the later snapshot.
fn keeps<J: EngineId, R: Wait>(rt: &R, alloc: Global, client: &mut Client<J>) -> bool {
    match name_of(alloc, LATER) {
        Some(name) => is_settled(client.snapshot(rt, alloc, &name)),
        None => false,
    }
}

/// Drops the later snapshot.
fn drops<J: EngineId, R: Wait>(rt: &R, alloc: Global, client: &mut Client<J>) -> bool {
    match name_of(alloc, LATER) {
        Some(name) => is_settled(client.drop_snapshot(rt, &name)),
        None => false,
    }
}

/// A call on names that all share: any reply but ENOMEM is right.
fn shares<J: EngineId, R: Wait>(
    rt: &R,
    alloc: Global,
    client: &mut Client<J>,
    number: usize,
) -> bool {
    let found = asks(rt, alloc, client, SHARED[number % SHARED.len()]);
    !matches!(found, Found::Fault(Errno::ENOMEM))
}

/// The next call.
fn next<J: EngineId, R: Wait>(
    rt: &R,
    alloc: Global,
    client: &mut Client<J>,
    own: &mut Own,
    tally: &Tally,
) -> bool {
    let drawn = own.draw();
    let last = own.last;
    match drawn / 128 {
        0..=9 => writes(rt, alloc, client, own, tally, drawn),
        10..=14 => reads(rt, alloc, client, own, tally, drawn),
        15..=19 => reads(rt, alloc, client, own, tally, last),
        20 => keeps(rt, alloc, client),
        21 => drops(rt, alloc, client),
        _ => shares(rt, alloc, client, drawn),
    }
}

/// Makes calls, the last on one of the client's own files, as long as the flushers need more of them. Returns whether
/// each had a possible reply, and was recorded once.
pub fn work<J: EngineId, R: Wait>(
    rt: &R,
    alloc: Global,
    client: &mut Client<J>,
    mut own: Own,
    tally: &Tally,
) -> bool {
    let mut is_right = true;
    let mut made: u64 = 1;
    for _ in 0..u32::MAX {
        if !tally.wants(made) {
            break;
        }
        is_right &= next(rt, alloc, client, &mut own, tally);
        made = made.saturating_add(1);
        if tally.wants_rest(made) {
            rest(rt);
        }
    }
    is_right &= reads(rt, alloc, client, &mut own, tally, 0);
    is_right && client.made() == made
}
