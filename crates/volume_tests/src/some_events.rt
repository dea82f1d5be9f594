//! Random events: file calls at few paths and their timestamps, calls on three snapshots, steps of all eight kinds.
use crate::requests::Snap;
use test_support::{Random, SampleCall, some_tree_step};
use volume::{Index, Step};

/// Paths at which directories are created and removed.
const DIRECTORIES: [&str; 16] = [
    "/a", "/a!", "/ab", "/b", "/a/a", "/a/b", "/a/c", "/a!/b", "/ab/a", "/b/a", "/b/ab", "/a/b/a",
    "/a/b/c", "/b/a/b", "/b/a/c", "/a/b/a/c",
];

/// Paths at which files are created and removed.
const FILES: [&str; 12] = [
    "/f", "/f!", "/a/f", "/a/f!", "/ab/f", "/b/f", "/b/f!", "/a/b/f", "/a/b/f!", "/b/a/f",
    "/a!/b/f", "/a/b/a/f",
];

/// Names of snapshots.
const SNAPSHOTS: [&str; 3] = ["s", "s.1", "T_-"];

/// Offsets among a file's first bytes, at and next to the ends of its first two blocks, and after the longest file.
const PLACES: [u64; 12] = [
    0,
    1,
    5,
    20,
    4_094,
    4_095,
    4_096,
    4_097,
    8_191,
    8_192,
    1_099_511_627_777,
    u64::MAX,
];

/// How many bytes to read.
const COUNTS: [u64; 6] = [0, 3, 4_096, 9_000, 1_048_576, 1_048_577];

/// Bytes to write: none, a few, a block and more. None of them is zero.
const WRITTEN: [&[u8]; 8] = [
    b"",
    b"\x01",
    b"\xa1\xb2",
    b"\xc3\xd4\xe5",
    b"\xf6\x17\x28\x39\x4a",
    &[0x5b; 4_097],
    &[0x6c; 8_192],
    &[0x7d; 8_200],
];

/// Timestamps, including the least and the greatest.
const TIMESTAMPS: [u64; 6] = [0, 1, 2, 9, 1_700_000_000, u64::MAX];

fn some_directory(random: &mut Random) -> &'static str {
    DIRECTORIES[random.below(16) as usize]
}

fn some_file(random: &mut Random) -> &'static str {
    FILES[random.below(12) as usize]
}

/// A path: rarely the root, else one of the others.
fn some_path(random: &mut Random) -> &'static str {
    match random.below(32) {
        0 => "/",
        1..=15 => some_directory(random),
        _ => some_file(random),
    }
}

fn some_place(random: &mut Random) -> u64 {
    PLACES[random.below(12) as usize]
}

fn some_count(random: &mut Random) -> u64 {
    COUNTS[random.below(6) as usize]
}

/// Bytes to write, mostly few.
fn some_bytes(random: &mut Random) -> &'static [u8] {
    WRITTEN[random.below(8).min(random.below(8)) as usize]
}

/// A rename, mostly of a directory to a directory's path or of a file to a file's.
fn some_move(random: &mut Random) -> SampleCall<'static> {
    match random.below(8) {
        0..=2 => SampleCall::Rename(some_directory(random), some_directory(random)),
        3..=5 => SampleCall::Rename(some_file(random), some_file(random)),
        _ => SampleCall::Rename(some_path(random), some_path(random)),
    }
}

/// A call that changes a file or reads its bytes.
fn some_file_call(random: &mut Random) -> SampleCall<'static> {
    let path = some_file(random);
    match random.below(16) {
        0..=3 => SampleCall::Create(path),
        4..=5 => SampleCall::Unlink(path),
        6..=7 => SampleCall::Truncate(path, some_place(random)),
        8..=12 => SampleCall::Write(path, some_place(random), some_bytes(random)),
        _ => SampleCall::Read(path, some_place(random), some_count(random)),
    }
}

/// A call that creates or removes a directory, or reads an entry.
fn some_directory_call(random: &mut Random) -> SampleCall<'static> {
    let path = some_directory(random);
    match random.below(16) {
        0..=7 => SampleCall::Mkdir(path),
        8..=9 => SampleCall::Rmdir(path),
        10 => SampleCall::Rmtree(path),
        _ => SampleCall::Readdir(path),
    }
}

/// A call of any kind at any path.
fn some_other_call(random: &mut Random) -> SampleCall<'static> {
    let path = some_path(random);
    match random.below(10) {
        0 => SampleCall::Mkdir(path),
        1 => SampleCall::Create(path),
        2 => SampleCall::Write(path, some_place(random), some_bytes(random)),
        3 => SampleCall::Truncate(path, some_place(random)),
        4 => SampleCall::Unlink(path),
        5 => SampleCall::Rmdir(path),
        6 => SampleCall::Rmtree(path),
        7 => SampleCall::Read(path, some_place(random), some_count(random)),
        8 => SampleCall::Stat(path),
        _ => SampleCall::Readdir(path),
    }
}

/// A file call.
pub fn some_ask(random: &mut Random) -> SampleCall<'static> {
    match random.below(16) {
        0..=1 => some_move(random),
        2..=4 => some_other_call(random),
        5..=9 => some_directory_call(random),
        _ => some_file_call(random),
    }
}

/// The timestamp of a call, which may be below that of the call before.
pub fn some_timestamp(random: &mut Random) -> u64 {
    TIMESTAMPS[random.below(6) as usize]
}

/// A snapshot call: snapshots are taken more often than dropped.
pub fn some_snap(random: &mut Random) -> Snap<'static> {
    let name = SNAPSHOTS[random.below(3) as usize];
    match random.below(4) {
        0 => Snap::Drop(name),
        1 => Snap::Restore(name),
        _ => Snap::Keep(name),
    }
}

/// One of the indexes.
pub fn some_index(random: &mut Random) -> Index {
    if random.below(2) == 0 {
        Index::Meta
    } else {
        Index::Block
    }
}

/// A step of some kind somewhere in one of the indexes.
pub fn some_step(random: &mut Random) -> Step {
    let step = some_tree_step(random);
    let index = some_index(random);
    Step { index, step }
}
