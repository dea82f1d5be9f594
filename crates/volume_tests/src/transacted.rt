//! Transactions: a volume, with steps between them, against the plain program, which does the calls by themselves and takes back a
//! list of which one fails.
use crate::look_alike::{is_reply, look_alike};
use crate::requests::{SMALL, new_volume, snap_name};
use node::StepReply;
use pathkey::{Errno, SnapName};
use reference::plain::World;
use reference::{Call, Reply};
use std::alloc::Global;
use test_support::{Random, SampleCall};
use volume::{Index, Step, Transacted, Volume};

/// The calls of a list, each with its timestamp.
type Calls = Vec<(Call, u64)>;

/// The calls of a list, from a timestamp on; `None` if an allocation fails.
fn timed(alloc: Global, list: &[SampleCall<'_>], first: u64) -> Option<Calls> {
    let mut calls = Vec::new(alloc);
    let mut at = first;
    for ask in list {
        let call = ask.call(alloc).ok()?;
        calls.push((call, at)).ok()?;
        at = at.wrapping_add(1);
    }
    Some(calls)
}

/// What a volume answers to a list. It ensures nothing, so that no proof of a test reads what a volume means; nor do the next functions.
fn transact(alloc: Global, volume: &mut Volume, calls: &[(Call, u64)]) -> Transacted {
    volume.transact(alloc, calls)
}

/// The reply of the plain program; `None` if an allocation fails.
fn plain_call(alloc: Global, plain: &mut World, timed: &(Call, u64)) -> Option<Reply> {
    plain.call(alloc, &timed.0, timed.1).ok()
}

/// The replies of the plain program up to the first fault, which is the last; `None` if an allocation fails.
fn plain_replies(alloc: Global, plain: &mut World, calls: &[(Call, u64)]) -> Option<Vec<Reply>> {
    let mut replies = Vec::new(alloc);
    for timed in calls {
        let reply = plain_call(alloc, plain, timed)?;
        let is_fault = matches!(reply, Reply::Fault(_));
        replies.push(reply).ok()?;
        if is_fault {
            return Some(replies);
        }
    }
    Some(replies)
}

/// The last reply, if it is a fault.
fn last_fault(replies: &[Reply]) -> Option<Errno> {
    match replies.last() {
        Some(Reply::Fault(errno)) => Some(*errno),
        _ => None,
    }
}

/// Whether all replies are equal.
fn are_replies(replies: &[Reply], wanted: &[Reply]) -> bool {
    replies.len() == wanted.len()
        && replies
            .iter()
            .zip(wanted.iter())
            .all(|(reply, other)| is_reply(reply, other))
}

/// Whether an answer is that of these replies.
fn is_answer(answer: &Transacted, wanted: &[Reply]) -> bool {
    match (answer, last_fault(wanted)) {
        (Ok(replies), None) => are_replies(replies.as_slice(), wanted),
        (Err(failed), Some(errno)) => failed.errno == errno
            && failed.number.wrapping_add(1) == wanted.len(),
        _ => false,
    }
}

/// Does a list in the plain program, whole or not at all; returns the replies up to the first fault.
fn plain_list(
    alloc: Global,
    plain: &mut World,
    name: &SnapName,
    calls: &[(Call, u64)],
) -> Option<Vec<Reply>> {
    plain.snapshot(alloc, name).ok()?;
    let replies = plain_replies(alloc, plain, calls)?;
    if last_fault(replies.as_slice()).is_some() {
        plain.restore(alloc, name).ok()?;
    }
    plain.drop_snapshot(name).ok()?;
    Some(replies)
}

/// Whether both answer alike to a list.
fn answers(alloc: Global, volume: &mut Volume, plain: &mut World, calls: &[(Call, u64)]) -> bool {
    let Ok(name) = snap_name(alloc, "before") else {
        return false;
    };
    match plain_list(alloc, plain, &name, calls) {
        Some(wanted) => is_answer(&transact(alloc, volume, calls), wanted.as_slice()),
        None => false,
    }
}

/// Whether both do a list alike, and have one tree afterwards.
fn lists(
    alloc: Global,
    volume: &mut Volume,
    plain: &mut World,
    list: &[SampleCall<'_>],
    at: u64,
) -> bool {
    match timed(alloc, list, at) {
        Some(calls) => answers(alloc, volume, plain, calls.as_slice())
            && look_alike(alloc, volume, plain),
        None => false,
    }
}

/// Tries the heaviest flush of an index, or else what makes room for it.
fn step(alloc: Global, volume: &mut Volume, index: Index) {
    if let Some(heaviest) = volume.heaviest(index) {
        let flush = Step {
            index,
            step: heaviest,
        };
        if !matches!(volume.step(alloc, flush), StepReply::Did(_)) {
            if let Some(other) = volume.make_room(flush) {
                volume.step(alloc, other);
            }
        }
    }
}

const ROWS: &[&[SampleCall<'static>]] = &[
    &[],
    &[SampleCall::Mkdir("/d")],
    &[SampleCall::Mkdir("/d")],
    // The second call needs the first.
    &[SampleCall::Mkdir("/d/e"), SampleCall::Create("/d/e/f")],
    &[
        SampleCall::Write("/d/e/f", 0, b"rain"),
        SampleCall::Stat("/d/e/f"),
        SampleCall::Read("/d/e/f", 1, 2),
        SampleCall::Readdir("/d/e"),
        SampleCall::Truncate("/d/e/f", 1),
    ],
    // The last call fails, the first, and one in between.
    &[
        SampleCall::Write("/d/e/f", 0, b"sun"),
        SampleCall::Rename("/d", "/g"),
        SampleCall::Create("/d/x"),
    ],
    &[SampleCall::Rmdir("/d"), SampleCall::Create("/x")],
    &[
        SampleCall::Rmtree("/d"),
        SampleCall::Mkdir("/d"),
        SampleCall::Unlink("/d"),
        SampleCall::Mkdir("/y"),
    ],
    // What was removed is created again.
    &[
        SampleCall::Rmtree("/d"),
        SampleCall::Mkdir("/d"),
        SampleCall::Create("/d/e"),
        SampleCall::Rename("/d/e", "/d/f"),
    ],
    // A list that only looks, and one of which a look fails.
    &[SampleCall::Readdir("/"), SampleCall::Stat("/d")],
    &[SampleCall::Create("/z"), SampleCall::Stat("/none")],
];

/// How many rows are done alike, one after the other, with so many steps of each index after each.
fn alike(alloc: Global, turns: u32) -> usize {
    let (Ok(mut volume), Ok(mut plain)) = (new_volume(alloc, SMALL), World::new(alloc)) else {
        return 0;
    };
    let mut count = 0usize;
    for row in ROWS {
        let at = (count as u64).wrapping_mul(10);
        if !lists(alloc, &mut volume, &mut plain, row, at) {
            return count;
        }
        for _ in 0..turns {
            step(alloc, &mut volume, Index::Meta);
            step(alloc, &mut volume, Index::Block);
        }
        count = count.saturating_add(1);
    }
    count
}

#[test]
fn lists_are_done_whole_or_not_at_all(rt: HostRuntime) {
    for turns in [0u32, 1, 20] {
        assert_eq!(rt; alike(rt.alloc(), turns), ROWS.len(), "{turns}");
    }
}

/// The paths of calls by chance.
const PATHS: [&str; 6] = ["/a", "/b", "/a/x", "/a/y", "/b/x", "/a/x/z"];

/// Any call.
fn any_call(random: &mut Random) -> SampleCall<'static> {
    let path = PATHS[random.below(6) as usize];
    match random.below(11) {
        0 | 1 => SampleCall::Mkdir(path),
        2 | 3 => SampleCall::Create(path),
        4 => SampleCall::Write(path, random.below(9000) as u64, b"bytes of a block"),
        5 => SampleCall::Truncate(path, random.below(9000) as u64),
        6 => SampleCall::Unlink(path),
        7 => SampleCall::Rmdir(path),
        8 => SampleCall::Rename(path, PATHS[random.below(6) as usize]),
        9 => SampleCall::Rmtree(path),
        _ => SampleCall::Readdir(path),
    }
}

/// How many of so many lists of two calls are done alike, with steps between them.
fn alike_by_chance(alloc: Global, seed: u32, count: u32) -> u32 {
    let (Ok(mut volume), Ok(mut plain)) = (new_volume(alloc, SMALL), World::new(alloc)) else {
        return 0;
    };
    let mut random = Random(seed);
    for number in 0..count {
        let list = [
            any_call(&mut random),
            any_call(&mut random),
            any_call(&mut random),
        ];
        let length = random.below(4) as usize;
        let some = list.as_slice().get(..length).unwrap_or(&[]);
        if !lists(alloc, &mut volume, &mut plain, some, number as u64) {
            return number;
        }
        step(alloc, &mut volume, Index::Meta);
    }
    count
}

#[test]
fn lists_by_chance_are_done_whole_or_not_at_all(rt: HostRuntime) {
    for seed in 0..4u32 {
        assert_eq!(rt; alike_by_chance(rt.alloc(), seed, 200), 200, "{seed}");
    }
}
