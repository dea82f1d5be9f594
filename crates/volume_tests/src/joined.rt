//! Tests of how many messages are pending in each index after calls, since updates of one block or of one entry are joined into one
//! message; and of the index that compaction then chooses.
use crate::job_rows::BLOCKS;
use crate::requests::{SMALL, USUAL, answers, creates, new_volume};
use crate::runs::{Turn, follows};
use node::StepKind;
use std::alloc::Global;
use test_support::{ExpectedReply, SampleCall};
use volume::{Index, Volume};

/// Whether that many messages are pending in an index, according to each report of it.
fn waits(volume: &Volume, index: Index, wanted: u128) -> bool {
    volume.pending(index) == wanted
        && volume.shape_report(index).pending == wanted
        && volume.heaviest(index).is_some() == (wanted > 0)
}

/// A call on the file.
#[derive(Clone, Copy)]
enum Ask {
    Write(u64, &'static [u8]),
    Cut(u64),
    /// A read of all its bytes.
    Read(&'static [u8]),
}

/// Whether a call has its reply.
fn does(alloc: Global, volume: &mut Volume, ask: Ask) -> bool {
    let (ask, reported) = match ask {
        Ask::Write(offset, bytes) => (
            SampleCall::Write("/f", offset, bytes),
            ExpectedReply::Count(bytes.len() as u64),
        ),
        Ask::Cut(length) => (SampleCall::Truncate("/f", length), ExpectedReply::Done),
        Ask::Read(bytes) => (SampleCall::Read("/f", 0, 99), ExpectedReply::Data(bytes)),
    };
    answers(alloc, volume, ask, reported)
}

/// Calls on a new file, the numbers of messages that are pending in the metadata and in the blocks then, and the index of the next
/// compaction step.
type Case = (&'static [Ask], u128, u128, Index);

/// The root and the file are pending in the metadata, and each block in the other index; a cut is one message more, for the range of the
/// blocks after it.
const CASES: &[Case] = &[
    (&[], 2, 0, Index::Meta),
    (&[Ask::Write(0, b"\xaa")], 2, 1, Index::Meta),
    (&[Ask::Write(0, &[0xaa; 4_096])], 2, 1, Index::Meta),
    (&[Ask::Write(0, &[0xaa; 8_192])], 2, 2, Index::Meta),
    (&[Ask::Write(0, &[0xaa; 8_193])], 2, 3, Index::Block),
    (
        &[
            Ask::Write(4, b"\xaa\xbb"),
            Ask::Write(2, b"\xcc"),
            Ask::Write(3, b"\xdd"),
            Ask::Read(b"\0\0\xcc\xdd\xaa\xbb"),
        ],
        2,
        1,
        Index::Meta,
    ),
    (
        &[
            Ask::Write(2, b"\xcc"),
            Ask::Write(4, b"\xaa\xbb"),
            Ask::Write(3, b"\xdd"),
            Ask::Read(b"\0\0\xcc\xdd\xaa\xbb"),
        ],
        2,
        1,
        Index::Meta,
    ),
    (
        &[
            Ask::Write(0, b"aaa"),
            Ask::Write(1, b"b"),
            Ask::Write(9, b"c"),
            Ask::Read(b"aba\0\0\0\0\0\0c"),
        ],
        2,
        1,
        Index::Meta,
    ),
    (
        &[
            Ask::Write(8, b"ab"),
            Ask::Write(0, b"cd"),
            Ask::Write(4, b"ef"),
            Ask::Write(1, b"ghijklmn"),
            Ask::Read(b"cghijklmnb"),
        ],
        2,
        1,
        Index::Meta,
    ),
    (
        &[
            Ask::Write(6, b"ab"),
            Ask::Write(0, b"c"),
            Ask::Cut(7),
            Ask::Write(3, b"d"),
            Ask::Read(b"c\0\0d\0\0a"),
        ],
        2,
        2,
        Index::Meta,
    ),
    (
        &[
            Ask::Write(6, b"ab"),
            Ask::Cut(2),
            Ask::Write(4, b"c"),
            Ask::Read(b"\0\0\0\0c"),
        ],
        2,
        2,
        Index::Meta,
    ),
];

/// Whether the calls of a case leave the messages that it says.
fn leaves(alloc: Global, volume: &mut Volume, case: &Case) -> bool {
    if !answers(alloc, volume, SampleCall::Create("/f"), ExpectedReply::Done) {
        return false;
    }
    for ask in case.0 {
        if !does(alloc, volume, *ask) {
            return false;
        }
    }
    waits(volume, Index::Meta, case.1)
        && waits(volume, Index::Block, case.2)
        && matches!(volume.compact_step(alloc), Some(relief) if relief.step.index == case.3)
}

/// The same in a new volume.
fn leaves_in_new(alloc: Global, case: &Case) -> bool {
    match new_volume(alloc, USUAL) {
        Ok(mut volume) => leaves(alloc, &mut volume, case),
        Err(_) => false,
    }
}

#[test]
fn one_message_waits_for_a_block_and_for_an_entry(rt: HostRuntime) {
    for (number, case) in CASES.iter().enumerate() {
        assert!(rt; leaves_in_new(rt.alloc(), case), "row {number}");
    }
}

/// How many bytes are written one by one, the distance between two of them, and the number of messages that they become in the blocks. A
/// message has at most 128 patches, of which no two touch.
type Bytes = (u64, u64, u128);

const BYTES: &[Bytes] = &[(1_000, 1, 1), (128, 2, 1), (129, 2, 2), (255, 2, 2)];

/// Whether a file is created and bytes are written one by one.
fn writes(alloc: Global, volume: &mut Volume, count: u64, distance: u64) -> bool {
    if !answers(alloc, volume, SampleCall::Create("/f"), ExpectedReply::Done) {
        return false;
    }
    for number in 0..count {
        let byte = SampleCall::Write("/f", number.saturating_mul(distance), b"x");
        if !answers(alloc, volume, byte, ExpectedReply::Count(1)) {
            return false;
        }
    }
    true
}

/// Whether so many writes of a byte leave that many messages in a new volume, and one for the file besides that of the root directory.
fn are_joined(alloc: Global, row: &Bytes) -> bool {
    match new_volume(alloc, USUAL) {
        Ok(mut volume) => {
            writes(alloc, &mut volume, row.0, row.1)
                && waits(&volume, Index::Meta, 2)
                && waits(&volume, Index::Block, row.2)
        }
        Err(_) => false,
    }
}

#[test]
fn writes_of_a_byte_wait_as_few_messages(rt: HostRuntime) {
    for row in BYTES {
        assert!(rt; are_joined(rt.alloc(), row), "{row:?}");
    }
}

/// Compacts a volume, by at most that many steps; returns whether nothing is pending in the metadata then.
fn settles(alloc: Global, volume: &mut Volume) -> bool {
    for _ in 0..100 {
        if volume.compact_step(alloc).is_none() {
            return waits(volume, Index::Meta, 0);
        }
    }
    false
}

/// Whether a thousand files are created in one directory, the first at timestamp 0 and each other `later` after the one
/// before.
fn create_all(alloc: Global, volume: &mut Volume, later: u64) -> bool {
    for number in 0..1_000 {
        let at = u64::from(number).saturating_mul(later);
        if !creates(alloc, volume, "/a", number, at) {
            return false;
        }
    }
    true
}

/// Whether that many messages are pending in a new volume then: one for each file, and none or one for their directory, which is in a
/// leaf.
fn fills(alloc: Global, later: u64, wanted: u128) -> bool {
    match new_volume(alloc, USUAL) {
        Ok(mut volume) => {
            answers(
                alloc,
                &mut volume,
                SampleCall::Mkdir("/a"),
                ExpectedReply::Done,
            ) && settles(alloc, &mut volume)
                && create_all(alloc, &mut volume, later)
                && waits(&volume, Index::Meta, wanted)
                && waits(&volume, Index::Block, 0)
        }
        Err(_) => false,
    }
}

#[test]
fn a_thousand_files_leave_one_touch_of_their_directory(rt: HostRuntime) {
    assert!(rt; fills(rt.alloc(), 1, 1_001));
}

#[test]
fn a_directory_that_has_the_moment_is_not_touched(rt: HostRuntime) {
    assert!(rt; fills(rt.alloc(), 0, 1_000));
}

/// Two patches of the sixth block go down as one message, and then two others, which become one with it there.
const LAYERS: &[Turn<'static>] = &[
    Turn::Live(
        SampleCall::Write("/x", 20_484, b"\xb1"),
        ExpectedReply::Count(1),
    ),
    Turn::Step(Index::Block, StepKind::FlushInner, 1, 1),
    Turn::Live(
        SampleCall::Write("/x", 20_482, b"\xb2"),
        ExpectedReply::Count(1),
    ),
    Turn::Live(
        SampleCall::Write("/x", 20_488, b"\xb3"),
        ExpectedReply::Count(1),
    ),
    Turn::Step(Index::Block, StepKind::FlushInner, 1, 1),
    Turn::Live(
        SampleCall::Read("/x", 20_480, 99),
        ExpectedReply::Data(b"\xa5\0\xb2\0\xb1\0\0\0\xb3"),
    ),
];

/// Whether messages of several patches join in an inner node.
fn layers_join(alloc: Global) -> bool {
    match new_volume(alloc, SMALL) {
        Ok(mut volume) => {
            follows(alloc, &mut volume, BLOCKS)
                && follows(alloc, &mut volume, LAYERS)
                && waits(&volume, Index::Block, 1)
        }
        Err(_) => false,
    }
}

#[test]
fn messages_of_several_patches_join(rt: HostRuntime) {
    assert!(rt; layers_join(rt.alloc()));
}
