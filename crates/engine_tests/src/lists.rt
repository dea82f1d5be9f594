//! Tests of lists of calls: a list is done whole or not at all, and no call of another client comes between its calls.
ghost use Rattle.std.specs.Prelude.{◌≡◌};

use crate::crew::{end, two_of};
use crate::requests::{SMALL, answers, new_room};
use engine::{Client, Engine, EngineBuilder, EngineId, FailedCall, Flusher, Transacted};
use pathkey::Errno;
use reference::{Call, Reply};
use std::alloc::Global;
use std::marker::Brand;
use std::sync::Wait;
use std::thread::{Threads, join};
use test_support::{ExpectedReply, SampleCall};

/// The lists that each client makes in a thread of its own.
const LISTS: u32 = 5_000;

/// A list that makes a file in a directory, writes and reads it.
const MAKES: &[SampleCall<'static>] = &[
    SampleCall::Mkdir("/d"),
    SampleCall::Create("/d/a"),
    SampleCall::Write("/d/a", 0, b"xy"),
    SampleCall::Read("/d/a", 0, 9),
];

/// The replies to it.
const MADE: &[ExpectedReply<'static>] = &[
    ExpectedReply::Done,
    ExpectedReply::Done,
    ExpectedReply::Count(2),
    ExpectedReply::Data(b"xy"),
];

/// A list whose third call fails.
const FAILS: &[SampleCall<'static>] = &[
    SampleCall::Write("/d/a", 0, b"zz"),
    SampleCall::Rename("/d", "/e"),
    SampleCall::Create("/e/a"),
    SampleCall::Unlink("/e/a"),
];

/// A list that first reads one file, and another at its end.
const READS: &[SampleCall<'static>] = &[
    SampleCall::Read("/a", 0, 1),
    SampleCall::Stat("/d"),
    SampleCall::Readdir("/d"),
    SampleCall::Stat("/d/a"),
    SampleCall::Read("/b", 0, 1),
];

/// The calls of a list; `None` if an allocation fails.
fn calls_of(alloc: Global, list: &[SampleCall<'_>]) -> Option<Vec<(Call, u64)>> {
    let mut calls = Vec::new(alloc);
    for ask in list {
        let call = ask.call(alloc).ok()?;
        calls.push((call, 0)).ok()?;
    }
    Some(calls)
}

/// What a client is answered to a list. It ensures nothing, so that no proof of a test reads a history.
fn transact<J: EngineId, R: Wait>(
    rt: &R,
    alloc: Global,
    client: &mut Client<J>,
    calls: &[(Call, u64)],
) -> Transacted {
    client.transact(rt, alloc, calls)
}

/// What a client is answered to a list; `None` if an allocation fails before.
fn asks<J: EngineId, R: Wait>(
    rt: &R,
    alloc: Global,
    client: &mut Client<J>,
    list: &[SampleCall<'_>],
) -> Option<Transacted> {
    let calls = calls_of(alloc, list)?;
    Some(transact(rt, alloc, client, calls.as_slice()))
}

/// Whether all calls succeeded with these replies.
fn succeeds(answer: &Option<Transacted>, wanted: &[ExpectedReply<'_>]) -> bool {
    match answer {
        Some(Ok(replies)) => replies.len() == wanted.len()
            && replies
                .iter()
                .zip(wanted.iter())
                .all(|(reply, wanted)| wanted.is(reply)),
        _ => false,
    }
}

/// Whether the call with this number failed with this error.
fn fails_at(answer: &Option<Transacted>, number: usize, errno: Errno) -> bool {
    match answer {
        Some(
            Err(
                FailedCall {
                    number: found,
                    errno: fault,
                },
            ),
        ) => *found == number && *fault == errno,
        _ => false,
    }
}

/// Whether the first and the last reply have the same bytes.
fn are_equal(answer: &Option<Transacted>) -> bool {
    let Some(Ok(replies)) = answer else {
        return false;
    };
    match (replies.first(), replies.last()) {
        (Some(Reply::Data(one)), Some(Reply::Data(other))) => one.as_slice() == other.as_slice(),
        _ => false,
    }
}

/// One client: a list that succeeds, one that fails, and one without calls.
fn one_by_one<J: EngineId, R: Wait>(rt: &R, alloc: Global, client: &mut Client<J>) -> bool {
    let made = succeeds(&asks(rt, alloc, client, MAKES), MADE) && client.made() == 4;
    let failed = fails_at(&asks(rt, alloc, client, FAILS), 2, Errno::EEXIST);
    let stays = answers(
        rt,
        alloc,
        client,
        SampleCall::Read("/d/a", 0, 9),
        ExpectedReply::Data(b"xy"),
    );
    let none = succeeds(&asks(rt, alloc, client, &[]), &[]);
    made && failed && stays && none && client.made() == 5
}

/// Writes the same byte to two files by each list.
fn write_both<J: EngineId, R: Wait>(
    rt: &R,
    alloc: Global,
    mut client: Client<J>,
) -> (Client<J>, bool) {
    let mut is_right = true;
    for number in 0..LISTS {
        let byte = [(number % 251) as u8];
        let list = [
            SampleCall::Write("/a", 0, &byte),
            SampleCall::Write("/b", 0, &byte),
        ];
        is_right &= succeeds(
            &asks(rt, alloc, &mut client, &list),
            &[ExpectedReply::Count(1), ExpectedReply::Count(1)],
        );
    }
    (client, is_right)
}

/// Reads both files by each list; whether they are always equal.
fn read_both<J: EngineId, R: Wait>(
    rt: &R,
    alloc: Global,
    mut client: Client<J>,
) -> (Client<J>, bool) {
    let mut is_right = true;
    for _ in 0..LISTS {
        is_right &= are_equal(&asks(rt, alloc, &mut client, READS));
    }
    (client, is_right)
}

/// Runs turns.
fn flush<J: EngineId, R: Wait>(rt: &R, alloc: Global, mut flusher: Flusher<J>) {
    flusher.run_flusher(rt, alloc, LISTS);
}

/// Runs turns by each of two flushers.
fn flush_both<J: EngineId + Send + Sync, R: Threads + Wait + Sync>(
    rt: &R,
    alloc: Global,
    one: Flusher<J>,
    other: Flusher<J>,
) {
    join(
        rt,
        move || flush(rt, alloc, one),
        move || flush(rt, alloc, other),
    );
}

/// A client that writes both files and one that reads them, each in a thread of its own.
fn write_and_read<J: EngineId + Send + Sync, R: Threads + Wait + Sync>(
    rt: &R,
    alloc: Global,
    one: Client<J>,
    other: Client<J>,
) -> ((Client<J>, bool), (Client<J>, bool)) {
    join(
        rt,
        move || write_both(rt, alloc, one),
        move || read_both(rt, alloc, other),
    )
}

/// Whether the tests pass with the clients of an engine. Returns the total number of calls too.
fn in_room<J: EngineId + Send + Sync, R: Threads + Wait + Sync>(
    rt: &R,
    alloc: Global,
    room: EngineBuilder,
) -> Option<(bool, u64)>
    requires { (room.0 ≡ J.table) × (room.1 ≡ J.opening) × (J.clients ≡ 2) }
{
    let (mut engine, mut clients) = Engine::<J>::open(alloc, room, 2).ok()?;
    let (mut one, other) = two_of(&mut clients)?;
    let first = engine.flusher().ok()?;
    let second = engine.flusher().ok()?;
    let alone = one_by_one(rt, alloc, &mut one);
    let files = [SampleCall::Create("/a"), SampleCall::Create("/b")];
    let ready = succeeds(
        &asks(rt, alloc, &mut one, &files),
        &[ExpectedReply::Done; 2],
    );
    let (done, _) = join(
        rt,
        move || write_and_read(rt, alloc, one, other),
        move || flush_both(rt, alloc, first, second),
    );
    let ((one, wrote), (other, read)) = done;
    let report = end(rt, engine, clients, one, other)?;
    Some((alone && ready && wrote && read, report.calls))
}

/// An engine over a new volume.
fn run<R: Threads + Wait + Sync>(
    rt: &R,
    alloc: Global,
    room: EngineBuilder,
) -> Option<(bool, u64)> {
    in_room::<Brand, R>(rt, alloc, room)
}

#[test]
fn lists_are_done_whole_and_by_themselves(rt: HostRuntime) {
    let Some(room) = new_room(rt.alloc(), SMALL) else {
        panic!(rt; "memory");
    };
    let answer = run(&rt, rt.alloc(), room);
    assert!(rt; answer == Some((true, 7 + 7 * (LISTS as u64))));
}
